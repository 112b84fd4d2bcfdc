// The calls on harts and debts.
ghost use Rattle.std.specs.Prelude.{◌≡◌};
ghost use Rattle.machine.specs.Harts.{enter_step, status_step, fence_step, settle_step};
ghost use Rattle.machine.specs.State.{state_of, Did};

use crate::asking::scope_of;
use crate::hart::Hart;
use crate::machine::Machine;
use crate::refusal::Refusal;
use frames::Use;
use memory::Memory;
use policy::Policy;

// Space and address, SUM and MXR come as the caller names them.
impl<M: Memory, P: Policy> Machine<M, P> {
    /// Puts a hart into a space. Refuses 10, 11.
    pub fn enter(&mut self, hart: usize, space: usize) -> Result<(), Refusal>
        ensures { Did (enter_step (state_of M.Memory.cells P.Policy.last self.old) hart space) result (state_of M.Memory.cells P.Policy.last self.new) }
    {
        let id = self.core.hart_id(hart)?;
        self.core.root_of(space).ok_or(Refusal::NoSpace)?;
        self.core.harts[id.number].space = Some(space);
        Ok(())
    }

    /// Sets a hart's SUM and MXR. Refuses 10.
    pub fn status(&mut self, hart: usize, sum: bool, mxr: bool) -> Result<(), Refusal>
        ensures { Did (status_step (state_of M.Memory.cells P.Policy.last self.old) hart sum mxr) result (state_of M.Memory.cells P.Policy.last self.new) }
    {
        let id = self.core.hart_id(hart)?;
        let status = self.core.harts[id.number];
        self.core.harts[id.number] = Hart { sum, mxr, ..status };
        Ok(())
    }

    /// Empties a hart's ways for a space or all, at an address's page or all, marks the hart on the open debts on these,
    /// and answers how many ways it emptied. An address that is not canonical matches nothing. Refuses 10, 11.
    pub fn fence(
        &mut self,
        hart: usize,
        space: Option<usize>,
        address: Option<u64>,
    ) -> Result<usize, Refusal>
        ensures { Did (fence_step (state_of M.Memory.cells P.Policy.last self.old) hart space address) result (state_of M.Memory.cells P.Policy.last self.new) }
    {
        let id = self.core.hart_id(hart)?;
        if !self.core.stands(space) {
            return Err(Refusal::NoSpace);
        }
        let Some(scope) = scope_of(space, address) else {
            return Ok(0);
        };
        self.core.debts.fence(id, scope);
        Ok(self.core.rows.fence(id, scope))
    }

    /// Closes a debt on which every hart is marked; answers the frame released, if it was an unmap's. Refuses 21, 22.
    pub fn settle(&mut self, debt: u64) -> Result<Option<u64>, Refusal>
        ensures { Did (settle_step (state_of M.Memory.cells P.Policy.last self.old) debt) result (state_of M.Memory.cells P.Policy.last self.new) }
    {
        let released = self.core.debts.settle(debt, self.core.count)?;
        if let Some(frame) = released {
            self.core.pool.free(frame, Use::Owed);
        }
        Ok(released)
    }
}
