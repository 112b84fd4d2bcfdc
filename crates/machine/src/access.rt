// Accesses: a hit in the hart's ways, or a walk that fills one.
ghost use Rattle.std.specs.Prelude.{◌≡◌, ◌^◌, ◌<◌, IfOk, Some, slice_set};
ghost use Rattle.tlb.specs.Harts.{rows_of, row_at};
ghost use Rattle.tlb.specs.Slots.{empty_slot};
ghost use Rattle.machine.specs.Accesses.{kind_of, access_of, slot_of, word_of, stored, find_step, filled, access_step};
ghost use Rattle.machine.specs.State.{eight, row_of, state_of, Did};

use crate::asking::page_in;
use crate::hart::Hart;
use crate::machine::Machine;
use crate::refusal::{Cause, HartFault, Refusal};
use memory::Memory;
use policy::Policy;
use sv39::{Access, Frame, Kind, Mode, doubleword_of, page_of};
use tables::{put_word, word_at};
use tlb::{HartId, Rows, Way};
use walker::walk;

/// What an access does with its doubleword.
#[derive(Clone, Copy, PartialEq, Eq, Debug)]
pub enum Action {
    Fetch,
    Load,
    Store(u64),
}

/// An access that a hart is asked for: its mode, its address, and what it does.
#[derive(Clone, Copy, PartialEq, Eq, Debug)]
pub struct Request {
    pub mode: Mode,
    pub address: u64,
    pub action: Action,
}

/// How the frame was found.
#[derive(Clone, Copy, PartialEq, Eq, Debug)]
pub enum By {
    Hit,
    Walk,
}

/// What an access answers: the frame that it came to and how, and the doubleword that a fetch or a load read.
#[derive(Clone, Copy, PartialEq, Eq, Debug)]
pub struct Reached {
    pub frame: u64,
    pub by: By,
    pub word: Option<u64>,
}

// That the frame is one's number is a clause of `find` and `fill`: the step's definition makes this record.
// And a record beside `Reached`, as nothing is read yet.
/// Where an access comes to.
#[derive(Clone, Copy)]
pub struct Found {
    pub frame: u64,
    pub by: By,
}

impl Action {
    /// Its kind, as the walk asks for it.
    pub fn kind(self) -> Kind
        ensures { result ≡ kind_of self }
    {
        match self {
            Action::Fetch => Kind::Fetch,
            Action::Load => Kind::Load,
            Action::Store(_) => Kind::Store,
        }
    }
}

impl Request {
    /// The access as the walk is asked for it, under a hart's SUM and MXR.
    fn access(&self, hart: Hart) -> Access
        ensures { result ≡ access_of hart self.now }
    {
        Access {
            address: self.address,
            kind: self.action.kind(),
            mode: self.mode,
            sum: hart.sum,
            mxr: hart.mxr,
        }
    }
}

/// Tells the policy that a hart used a way.
fn touch<P: Policy>(policy: &mut P, hart: HartId, way: usize)
    requires { way < 16 }
    ensures { eight (P.Policy.last policy.new) ≡ slice_set (eight (P.Policy.last policy.old)) hart.number (Some way) }
{
    let _ = policy.touch(hart.number, way);
}

// No `unwrap_or_else`: what a closure picked is not known after it.
/// The way of a hart to fill: the lowest empty one, else the policy's pick.
fn slot_of<P: Policy>(policy: &mut P, rows: &Rows, hart: HartId) -> usize
    ensures way { result ≡ slot_of (P.Policy.choice policy.old hart.number) (empty_slot 0 (row_at (rows_of rows.now) hart.number)) }
    ensures within { result < 16 }
    ensures last { eight (P.Policy.last policy.new) ≡ eight (P.Policy.last policy.old) }
{
    match rows.lowest_empty(hart) {
        Some(way) => way,
        None => policy.pick(hart.number).unwrap(),
    }
}

/// Moves a doubleword: answers what a fetch or a load reads, or writes what a store brings.
fn transfer<M: Memory>(memory: &mut M, place: u64, action: Action) -> Option<u64>
    ensures word { result ≡ word_of (M.Memory.cells memory.old) place action }
    ensures memory { M.Memory.cells memory.new ≡ stored (M.Memory.cells memory.old) place action }
{
    match action {
        Action::Fetch | Action::Load => Some(word_at(memory, place)),
        Action::Store(value) => {
            put_word(memory, place, value);
            None
        }
    }
}

impl<M: Memory, P: Policy> Machine<M, P> {
    /// Walks for an access of a hart in a space, and fills a way with what was found.
    fn fill(&mut self, hart: HartId, space: usize, access: &Access) -> Result<Found, Cause>
        ensures step { Did (filled (state_of M.Memory.cells P.Policy.last self.old) (P.Policy.choice self.old.policy hart.number) hart.number space access.now (row_of (state_of M.Memory.cells P.Policy.last self.old) hart.number)) result (state_of M.Memory.cells P.Policy.last self.new) }
        ensures within { IfOk result (λ found. found.frame < 2 ^ 44) }
    {
        let root = self.core.walk_root(space);
        let found = walk(&self.memory, root, access)?;
        let way = slot_of(&mut self.policy, &self.core.rows, hart);
        let page = page_in(space, page_of(access.address));
        let held = Way::new(page, found.frame, found.leaf.flags);
        self.core.rows.put(hart, way, held);
        touch(&mut self.policy, hart, way);
        Ok(Found {
            frame: found.frame,
            by: By::Walk,
        })
    }

    /// Where an access of a hart in a space comes to: by a hit, which is touched, or by a walk. Refuses 30, then the
    /// walk's.
    fn find(&mut self, hart: HartId, space: usize, access: &Access) -> Result<Found, Cause>
        ensures step { Did (find_step (state_of M.Memory.cells P.Policy.last self.old) (P.Policy.choice self.old.policy hart.number) hart.number space access.now) result (state_of M.Memory.cells P.Policy.last self.new) }
        ensures within { IfOk result (λ found. found.frame < 2 ^ 44) }
    {
        if access.address % 8 != 0 {
            return Err(Cause::Misaligned);
        }
        let page = page_in(space, page_of(access.address));
        match self.core.rows.try_way(hart, page, access) {
            Some((way, frame)) => {
                touch(&mut self.policy, hart, way);
                Ok(Found { frame, by: By::Hit })
            }
            None => self.fill(hart, space, access),
        }
    }

    /// Moves one doubleword for a hart in the space that it is in. Refuses 10, 12, 30, then the walk's.
    pub fn access(&mut self, hart: usize, request: &Request) -> Result<Reached, Refusal>
        ensures { Did (access_step (state_of M.Memory.cells P.Policy.last self.old) (P.Policy.choice self.old.policy hart) hart request.now) result (state_of M.Memory.cells P.Policy.last self.new) }
    {
        let id = self.core.hart_id(hart)?;
        let status = self.core.harts[id.number];
        let space = status.space.ok_or(Refusal::InNoSpace)?;
        let access = request.access(status);
        // No `map_err`: it moves the whole refusal on every hit, a seventh more instructions.
        let found = match self.find(id, space, &access) {
            Ok(found) => found,
            Err(cause) => {
                return Err(Refusal::Fault(HartFault {
                    hart,
                    kind: access.kind,
                    address: access.address,
                    cause,
                }));
            }
        };
        let frame = Frame {
            number: found.frame,
        };
        let place = doubleword_of(frame, access.address);
        let word = transfer(&mut self.memory, place, request.action);
        Ok(Reached {
            frame: found.frame,
            by: found.by,
            word,
        })
    }
}
