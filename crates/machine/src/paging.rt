// The calls on frames, spaces and pages.
ghost use Rattle.std.specs.Prelude.{◌≡◌};
ghost use Rattle.machine.specs.Pages.{space_step, grant_step, back_step, leaf_or, leaf_below, map_allowed, map_step, protect_allowed, protect_step, unmap_allowed, unmap_step};
ghost use Rattle.machine.specs.State.{state_of, Did};

use crate::asking::page_in;
use crate::machine::Machine;
use crate::refusal::Refusal;
use crate::rights::{is_due, is_valid};
use frames::{FrameState, Use};
use memory::Memory;
use policy::Policy;
use sv39::{Entry, Frame, Level, Rights};
use tables::{Leaf, Tables, clear_frame, grow, put_leaf, put_word};
use tlb::lowest_empty;

/// What protect answers: the leaf with its rights changed, and the debt if one arose.
#[derive(Clone, Copy, PartialEq, Eq, Debug)]
pub struct Protected {
    pub leaf: Entry,
    pub debt: Option<u64>,
}

/// What unmap answers: the debt, and the frame that is owed.
#[derive(Clone, Copy, PartialEq, Eq, Debug)]
pub struct Unmapped {
    pub debt: u64,
    pub frame: u64,
}

// Space and address come as the caller names them, and are a `PageId` only once they are known to be a page.
impl<M: Memory, P: Policy> Machine<M, P> {
    /// A new space with an empty root table; answers its number. Refuses 13, 14.
    pub fn space(&mut self) -> Result<usize, Refusal>
        ensures { Did (space_step (state_of M.Memory.cells P.Policy.last self.old)) result (state_of M.Memory.cells P.Policy.last self.new) }
    {
        let number = lowest_empty(&self.core.roots).ok_or(Refusal::SpacesFull)?;
        let frame = self.core.pool.take(Use::Table).ok_or(Refusal::NoFrame)?;
        clear_frame(&mut self.memory, frame);
        self.core.roots[number] = Some(frame);
        Ok(number)
    }

    /// A frame to hold, filled with zeros. Refuses 14.
    pub fn grant(&mut self) -> Result<u64, Refusal>
        ensures { Did (grant_step (state_of M.Memory.cells P.Policy.last self.old)) result (state_of M.Memory.cells P.Policy.last self.new) }
    {
        let held = self.core.pool.take(Use::Held).ok_or(Refusal::NoFrame)?;
        clear_frame(&mut self.memory, held);
        Ok(u64::from(held))
    }

    /// Gives a held frame back. Refuses 15.
    pub fn back(&mut self, frame: u64) -> Result<(), Refusal>
        ensures { Did (back_step (state_of M.Memory.cells P.Policy.last self.old) frame) result (state_of M.Memory.cells P.Policy.last self.new) }
    {
        if self.core.pool.free(frame, Use::Held) {
            Ok(())
        } else {
            Err(Refusal::NotHeld)
        }
    }

    /// The tables below a root.
    fn tables(&self, root: u16) -> Tables<'_, M>
        ensures memory { M.Memory.cells result.memory.now ≡ M.Memory.cells self.now.memory }
        ensures limit { result.limit ≡ self.now.core.pool.limit }
        ensures root { result.root.number ≡ root }
    {
        Tables {
            memory: &self.memory,
            limit: usize::from(self.core.pool.limit),
            root: Frame::from(root),
        }
    }

    /// The leaf of a page below a root. Refuses 19.
    fn mapped(&self, root: u16, address: u64) -> Result<Leaf, Refusal>
        ensures { result ≡ leaf_or (leaf_below (state_of M.Memory.cells P.Policy.last self.now) root address) }
    {
        self.tables(root).leaf(address).ok_or(Refusal::NotMapped)
    }

    /// The root below which a frame may be mapped, and the frame. Refuses 11, 16, 17, 15, 18, 14.
    fn allow_map(
        &self,
        space: usize,
        address: u64,
        frame: u64,
        rights: Rights,
    ) -> Result<(u16, u16), Refusal>
        ensures { result ≡ map_allowed (state_of M.Memory.cells P.Policy.last self.now) space address frame rights }
    {
        let root = self.core.locate(space, address)?;
        if !is_valid(rights) {
            return Err(Refusal::BadRights);
        }
        let pool = &self.core.pool;
        let held = pool.find(frame, FrameState::Held).ok_or(Refusal::NotHeld)?;
        let tables = self.tables(root);
        if tables.leaf(address).is_some() {
            return Err(Refusal::Mapped);
        }
        if pool.available() < tables.missing(address) {
            return Err(Refusal::NoFrame);
        }
        Ok((root, held))
    }

    /// Maps a held frame at a page with rights; answers how many tables were taken. Refuses 11, 16, 17, 15, 18, 14.
    pub fn map(
        &mut self,
        space: usize,
        address: u64,
        frame: u64,
        rights: Rights,
    ) -> Result<u64, Refusal>
        ensures { Did (map_step (state_of M.Memory.cells P.Policy.last self.old) space address frame rights) result (state_of M.Memory.cells P.Policy.last self.new) }
    {
        let (root, held) = self.allow_map(space, address, frame, rights)?;
        let pool = &mut self.core.pool;
        let root = Frame::from(root);
        let mid = grow(&mut self.memory, pool, root, address, Level::Two);
        let low = grow(&mut self.memory, pool, mid.table, address, Level::One);
        put_leaf(&mut self.memory, low.table, address, held, rights);
        pool.turn(u64::from(held), Use::Held, Use::Mapped);
        Ok(mid.count + low.count)
    }

    /// The leaf of a page whose rights may change. Refuses 11, 16, 17, 19.
    fn allow_protect(&self, space: usize, address: u64, rights: Rights) -> Result<Leaf, Refusal>
        ensures { result ≡ protect_allowed (state_of M.Memory.cells P.Policy.last self.now) space address rights }
    {
        let root = self.core.locate(space, address)?;
        if !is_valid(rights) {
            return Err(Refusal::BadRights);
        }
        self.mapped(root, address)
    }

    /// Gives a page other rights; a debt arises if one is taken away or U changes. Refuses 11, 16, 17, 19, and 20 if a
    /// debt is due.
    pub fn protect(
        &mut self,
        space: usize,
        address: u64,
        rights: Rights,
    ) -> Result<Protected, Refusal>
        ensures { Did (protect_step (state_of M.Memory.cells P.Policy.last self.old) space address rights) result (state_of M.Memory.cells P.Policy.last self.new) }
    {
        let (place, old) = self.allow_protect(space, address, rights)?;
        let leaf = old.with_flags(rights.leaf_flags());
        let debt = if is_due(old.flags, rights) {
            let page = page_in(space, address);
            Some(self.core.debts.open(page, None).ok_or(Refusal::DebtsFull)?)
        } else {
            None
        };
        put_word(&mut self.memory, place, leaf.pack());
        Ok(Protected { leaf, debt })
    }

    /// The leaf of a page that may be unmapped. Refuses 11, 16, 19.
    fn allow_unmap(&self, space: usize, address: u64) -> Result<Leaf, Refusal>
        ensures { result ≡ unmap_allowed (state_of M.Memory.cells P.Policy.last self.now) space address }
    {
        let root = self.core.locate(space, address)?;
        self.mapped(root, address)
    }

    /// Unmaps a page: its frame is owed until the debt that arises is settled. Refuses 11, 16, 19, 20.
    pub fn unmap(&mut self, space: usize, address: u64) -> Result<Unmapped, Refusal>
        ensures { Did (unmap_step (state_of M.Memory.cells P.Policy.last self.old) space address) result (state_of M.Memory.cells P.Policy.last self.new) }
    {
        let (place, leaf) = self.allow_unmap(space, address)?;
        let frame = leaf.ppn;
        let page = page_in(space, address);
        let debt = self
            .core
            .debts
            .open(page, Some(frame))
            .ok_or(Refusal::DebtsFull)?;
        put_word(&mut self.memory, place, 0);
        self.core.pool.turn(frame, Use::Mapped, Use::Owed);
        Ok(Unmapped { debt, frame })
    }
}
