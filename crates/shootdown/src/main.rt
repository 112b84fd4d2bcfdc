// Two panels' page tables in one interleaved memory: what each access of a list walks to, and a damaged block.
#![tactic(auto)]

mod panel;

use memory::{Blocks, Interleaved, Memory, Words};
use panel::{Name, Panel};
use sv39::{Access, Frame, Kind, Mode};
use walker::{WalkFault, walk};

/// Blocks of the first side: enough for 4,096 doublewords.
const BLOCKS: usize = 66;
/// Doublewords of the second side; both sides make sixteen frames.
const WORDS: usize = 4096;

const KINDS: [Kind; 3] = [Kind::Fetch, Kind::Load, Kind::Store];

const MODES: [Mode; 2] = [Mode::User, Mode::Supervisor];

/// A terrain strip, code, the supervisor's own page, a page not yet marked, a superpage, nothing, not canonical.
const ADDRESSES: [u64; 7] = [
    0x1008,
    0x2000,
    0x3ff8,
    0x4000,
    0x20_0000,
    0x5000,
    0x40_0000_0000,
];

/// Prints what one access walks to.
fn show<M: Memory>(
    rt: &HostRuntime,
    memory: &M,
    panel: &Panel,
    access: &Access,
) -> anyhow::Result<()> {
    let name = panel.name;
    let Access {
        address,
        kind,
        mode,
        ..
    } = *access;
    match walk(memory, panel.root.number, access) {
        Ok(t) => {
            let frame = t.frame;
            let level = t.level;
            let leaf = t.leaf.pack();
            println!(rt;
                "{name}: {mode} {kind} {address:#x}: frame {frame}, level {level}, leaf {leaf:#x}"
            )?;
        }
        Err(fault) => {
            let code = fault.report().code.unwrap_or(0);
            println!(rt; "{name}: {mode} {kind} {address:#x}: fault {fault}, code {code}")?;
        }
    }
    Ok(())
}

/// Every access of the list, of each kind in each mode.
fn show_all<M: Memory>(rt: &HostRuntime, memory: &M, panel: &Panel) -> anyhow::Result<()> {
    for address in ADDRESSES {
        for mode in MODES {
            for kind in KINDS {
                show(
                    rt,
                    memory,
                    panel,
                    &Access {
                        address,
                        kind,
                        mode,
                        sum: false,
                        mxr: false,
                    },
                )?;
            }
        }
    }
    Ok(())
}

// Both stories seal their blocks: a crate for these lines would be no plainer.
/// Gives every block its check, by a write to its first doubleword.
fn seal(blocks: &mut Blocks<'_>) -> anyhow::Result<()> {
    for block in 0..BLOCKS as u64 {
        blocks.write(63 * block, 0)?;
    }
    Ok(())
}

fn look_over(rt: &HostRuntime, bytes: &mut [u8]) -> anyhow::Result<()> {
    match Blocks::new(bytes).look_over() {
        Ok(()) => println!(rt; "look-over: clean")?,
        Err(damage) => println!(rt; "look-over: {damage}")?,
    }
    Ok(())
}

/// Builds both panels over the lent bytes and words, and shows their walks.
fn show_panels(rt: &HostRuntime, bytes: &mut [u8], words: &mut [u64]) -> anyhow::Result<()> {
    let mut blocks = Blocks::new(bytes);
    seal(&mut blocks)?;
    let mut memory = Interleaved::new(blocks, Words::new(words));
    let near = Panel {
        name: Name::Near,
        root: Frame::from(1u16),
        middle: Frame::from(2u16),
        lowest: Frame::from(3u16),
    };
    let far = Panel {
        name: Name::Far,
        root: Frame::from(4u16),
        middle: Frame::from(5u16),
        lowest: Frame::from(6u16),
    };
    near.build(&mut memory, 8)?;
    far.build(&mut memory, 11)?;
    show_all(rt, &memory, &near)?;
    show_all(rt, &memory, &far)
}

fn run(rt: &HostRuntime) -> anyhow::Result<()> {
    let heap = rt.alloc();
    let mut bytes = vec![in heap; 0u8; BLOCKS * 512]?;
    let mut words = vec![in heap; 0u64; WORDS]?;
    show_panels(rt, &mut bytes, &mut words)?;
    look_over(rt, &mut bytes)?;
    if let Some(byte) = bytes.get_mut(5 * 512 + 17) {
        *byte ^= 1;
    }
    look_over(rt, &mut bytes)?;
    bytes.truncate(1000);
    look_over(rt, &mut bytes)
}

fn main(rt: HostRuntime) -> anyhow::Result<()> {
    run(&rt)
}
