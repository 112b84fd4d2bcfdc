// Questions, which change nothing.
ghost use Rattle.std.specs.Prelude.{◌≡◌};
ghost use Rattle.std.specs.Option.{option_map};
ghost use Rattle.tlb.specs.Harts.{ways_of};
ghost use Rattle.machine.specs.Asking.{frame_state_of, frames_in, frames_left, ways_asked, hart_asked, debt_asked, debts_open};
ghost use Rattle.machine.specs.State.{state_of, root_of};

use crate::hart::Hart;
use crate::machine::Machine;
use debts::Debt;
use frames::FrameState;
use memory::Memory;
use policy::Policy;
use tlb::Row;

impl<M: Memory, P: Policy> Machine<M, P> {
    /// What a frame is used for, if it is one of the machine's.
    pub fn frame_state(&self, frame: u64) -> Option<FrameState>
        ensures { result ≡ frame_state_of (state_of M.Memory.cells P.Policy.last self.now) frame }
    {
        self.core.pool.state_of(frame)
    }

    /// How many of the machine's frames are in a state.
    pub fn frames_in(&self, state: FrameState) -> usize
        ensures { result ≡ frames_in (state_of M.Memory.cells P.Policy.last self.now) state }
    {
        self.core.pool.count(state)
    }

    /// How many frames can be taken.
    pub fn frames_left(&self) -> usize
        ensures { result ≡ frames_left (state_of M.Memory.cells P.Policy.last self.now) }
    {
        self.core.pool.available()
    }

    /// A hart's ways, if there is such a hart.
    pub fn row(&self, hart: usize) -> Option<Row>
        ensures { option_map ways_of result ≡ ways_asked (state_of M.Memory.cells P.Policy.last self.now) hart }
    {
        let id = self.core.hart_id(hart).ok()?;
        Some(self.core.rows.row(id))
    }

    /// What a hart is set to, if there is such a hart.
    pub fn hart(&self, hart: usize) -> Option<Hart>
        ensures { result ≡ hart_asked (state_of M.Memory.cells P.Policy.last self.now) hart }
    {
        let id = self.core.hart_id(hart).ok()?;
        Some(self.core.harts[id.number])
    }

    /// The open debt of a number.
    pub fn debt(&self, number: u64) -> Option<Debt>
        ensures { result ≡ debt_asked (state_of M.Memory.cells P.Policy.last self.now) number }
    {
        self.core.debts.find(number).map(|(_, debt)| debt)
    }

    /// How many debts are open.
    pub fn open_debts(&self) -> usize
        ensures { result ≡ debts_open (state_of M.Memory.cells P.Policy.last self.now) }
    {
        self.core.debts.count()
    }

    /// How many harts there are.
    pub fn harts(&self) -> usize
        ensures { result ≡ (state_of M.Memory.cells P.Policy.last self.now).count }
    {
        self.core.count
    }

    /// The frame of a space's root table, if the space stands.
    pub fn root(&self, space: usize) -> Option<u64>
        ensures { result ≡ root_of (state_of M.Memory.cells P.Policy.last self.now) space }
    {
        self.core.root_of(space).map(u64::from)
    }
}
