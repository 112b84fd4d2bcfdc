// The walk: from the root down to a leaf, over any memory.
ghost use Rattle.std.specs.Prelude.{◌≡◌, ◌+◌, ◌*◌, ◌^◌, ◌<◌, ◌≤◌, IfOk};
ghost use Rattle.sv39.specs.Address.{frame_of, doubleword_of};
ghost use Rattle.sv39.specs.Levels.{number_of};
ghost use Rattle.walker.specs.Walk.{decided, look_of, step_of, walk_from, walked, StepWithin};

use crate::{Stop, WalkFault};
use memory::{Beyond, Memory};
use sv39::{Access, Entry, Frame, Level, doubleword_of, entry_of, is_canonical};

// Frame and level as numbers, for the walk is defined by recursion on the level's number.
/// Where an access comes to: a frame, and the leaf that says so with its level.
#[derive(Clone, Copy, PartialEq, Eq, Debug)]
pub struct Translation {
    pub frame: u64,
    pub level: u8,
    pub leaf: Entry,
}

// That a step comes to a frame's number is a clause: a type would put a proof into the walk's definition.
/// What an entry leads to.
#[derive(Clone, Copy)]
pub enum Step {
    /// The table in this frame, one level down.
    Pointer(u64),
    Leaf(Translation),
}

/// How many frames a leaf of a level spans.
fn span_of(level: Level) -> u64
    ensures value { result ≡ 2 ^ (9 * number_of level) }
    ensures bound { (1 ≤ result) × (result ≤ 2 ^ 18) }
{
    1 << (9 * level.number())
}

/// The frame of a leaf: its PPN, with the low 9 bits a level taken from the page number.
fn frame_of(ppn: u64, address: u64, level: Level) -> u64
    requires { ppn < 2 ^ 44 }
    ensures value { result ≡ frame_of ppn address (number_of level) }
    ensures bound { result < 2 ^ 44 }
{
    let span = span_of(level);
    ppn - ppn % span + address / 4096 % span
}

/// What an entry of a level leads to, or what stops the walk at it.
fn decide(entry: Entry, level: Level, access: &Access) -> Result<Step, Stop>
    ensures value { result ≡ decided access.now (number_of level) entry }
    ensures within { IfOk result StepWithin }
{
    let flags = entry.flags;
    if !flags.v {
        return Err(Stop::Invalid);
    }
    if flags.w && !flags.r {
        return Err(Stop::WriteOnly);
    }
    if !flags.r && !flags.x {
        return Ok(Step::Pointer(entry.ppn));
    }
    if !access.is_permitted(flags) {
        return Err(Stop::Rights);
    }
    if entry.ppn % span_of(level) != 0 {
        return Err(Stop::Misaligned);
    }
    if !access.is_marked(flags) {
        return Err(Stop::Marks);
    }
    let frame = frame_of(entry.ppn, access.address, level);
    Ok(Step::Leaf(Translation {
        frame,
        level: level.number(),
        leaf: entry,
    }))
}

/// Reads an entry and decides it.
fn look<M: Memory>(memory: &M, entry: u64, level: Level, access: &Access) -> Result<Step, Stop>
    ensures value { result ≡ look_of (M.Memory.cells memory.now) access.now (number_of level) entry }
    ensures within { IfOk result StepWithin }
{
    let word = memory.read(entry)?;
    decide(Entry::unpack(word), level, access)
}

// Memory and access come as `walk` has them: a struct of both would only name them again.
/// The same, with the fault of the walk where it stops here.
fn take_step<M: Memory>(
    memory: &M,
    entry: u64,
    level: Level,
    access: &Access,
) -> Result<Step, WalkFault>
    ensures value { result ≡ step_of (M.Memory.cells memory.now) access.now (number_of level) entry }
    ensures within { IfOk result StepWithin }
{
    look(memory, entry, level, access).map_err(|stop| WalkFault::Stopped {
        stop,
        kind: access.kind,
        level: level.number(),
        entry,
    })
}

// Unrolled: as a recursion over the level a walk took 400 instructions in place of 366, and a fifth more time.
/// From the root's table down to a leaf: its entry and where it leads.
fn descend<M: Memory>(
    memory: &M,
    root: Frame,
    access: &Access,
) -> Result<(u64, Translation), WalkFault>
    ensures value { result ≡ walk_from (M.Memory.cells memory.now) access.now 2 root.number }
    ensures within { IfOk result (λ leaf. leaf.1.frame < 2 ^ 44) }
{
    let entry = entry_of(root, access.address, Level::Two);
    let table = match take_step(memory, entry, Level::Two, access)? {
        Step::Pointer(number) => Frame { number },
        Step::Leaf(found) => return Ok((entry, found)),
    };
    let entry = entry_of(table, access.address, Level::One);
    let table = match take_step(memory, entry, Level::One, access)? {
        Step::Pointer(number) => Frame { number },
        Step::Leaf(found) => return Ok((entry, found)),
    };
    let entry = entry_of(table, access.address, Level::Zero);
    match take_step(memory, entry, Level::Zero, access)? {
        Step::Pointer(_) => Err(WalkFault::Stopped {
            stop: Stop::PointerAtZero,
            kind: access.kind,
            level: 0,
            entry,
        }),
        Step::Leaf(found) => Ok((entry, found)),
    }
}

/// Walks the tables below `root` for an access.
pub fn walk<M: Memory>(memory: &M, root: u64, access: &Access) -> Result<Translation, WalkFault>
    ensures value { result ≡ walked (M.Memory.cells memory.now) root access.now }
    ensures within { IfOk result (λ t. t.frame < 2 ^ 44) }
{
    let root = Frame::new(root)?;
    if !is_canonical(access.address) {
        return Err(WalkFault::NotCanonical(access.kind));
    }
    let (entry, found) = descend(memory, root, access)?;
    let frame = Frame {
        number: found.frame,
    };
    let place = doubleword_of(frame, access.address);
    if place >= memory.size() {
        let stop = Stop::FrameBeyond(Beyond { place });
        return Err(WalkFault::Stopped {
            stop,
            kind: access.kind,
            level: found.level,
            entry,
        });
    }
    Ok(found)
}
