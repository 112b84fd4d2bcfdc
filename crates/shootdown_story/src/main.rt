// One shootdown, told from start to end: eight harts, two panels, one frame.
#![tactic(auto)]

mod stage;
mod story;

use machine::{Machine, check};
use memory::{Blocks, Interleaved, Memory, Words};
use policy::{Policy, TreePlru};
use stage::Stage;

/// Blocks of the first side: enough for 4,096 doublewords.
const BLOCKS: usize = 66;
/// Doublewords of the second side; both sides make sixteen frames.
const WORDS: usize = 4096;

/// Makes a machine over a memory and a policy and performs the story on it.
fn perform_over<M: Memory + Drop, P: Policy + Drop>(
    rt: &HostRuntime,
    memory: M,
    policy: P,
) -> anyhow::Result<()> {
    check(&memory, story::HARTS)?;
    let mut machine = Machine::new(memory, policy, story::HARTS);
    Stage::new(rt, &mut machine).perform()
}

// Both stories seal their blocks: a crate for these lines would be no plainer.
/// Gives every block its check, by a write to its first doubleword.
fn seal(bytes: &mut [u8]) -> anyhow::Result<()> {
    let mut blocks = Blocks::new(bytes);
    for block in 0..BLOCKS as u64 {
        blocks.write(63 * block, 0)?;
    }
    Ok(())
}

/// Looks over the blocks that the story was written to.
fn look_over(rt: &HostRuntime, bytes: &mut [u8]) -> anyhow::Result<()> {
    Blocks::new(bytes).look_over()?;
    println!(rt; "The memory's blocks are looked over: clean.")?;
    Ok(())
}

fn run(rt: &HostRuntime) -> anyhow::Result<()> {
    let heap = rt.alloc();
    let mut bytes = vec![in heap; 0u8; BLOCKS * 512]?;
    let mut words = vec![in heap; 0u64; WORDS]?;
    seal(&mut bytes)?;
    let memory = Interleaved::new(Blocks::new(&mut bytes), Words::new(&mut words));
    perform_over(rt, memory, TreePlru::new())?;
    look_over(rt, &mut bytes)
}

fn main(rt: HostRuntime) -> anyhow::Result<()> {
    run(&rt)
}
