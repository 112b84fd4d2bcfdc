// A machine, made from a memory and a policy and taken apart again.
ghost use Rattle.std.specs.Prelude.{◌≡◌, min, max, replicate, None};
ghost use Rattle.debts.specs.Debts.{debts_of};
ghost use Rattle.debts.specs.Debts as owed;
ghost use Rattle.frames.specs.Frames.{frames_of};
ghost use Rattle.frames.specs.Frames as pooled;
ghost use Rattle.tlb.specs.Harts.{rows_of};
ghost use Rattle.machine.specs.State.{state_of, fresh, outside};
ghost use Rattle.machine.specs.Refusals.{check_for};

use crate::hart::{Core, Hart};
use crate::refusal::Refusal;
use debts::Ledger;
use frames::Pool;
use memory::Memory;
use policy::Policy;
use tlb::Rows;

// No model: it would ask the bounds of every struct that holds a machine, and hide from callers that the state's list
// is what the memory means, and its last ways the policy's.
/// A machine over a memory and a replacement policy, both of which it owns.
#[derive(Drop)]
pub struct Machine<M, P> {
    pub(crate) memory: M,
    pub(crate) policy: P,
    pub(crate) core: Core,
}

/// Whether a machine of so many harts over this memory is one that the rules allow: refuses 5, then 4.
pub fn check<M: Memory>(memory: &M, harts: usize) -> Result<(), Refusal>
    ensures { result ≡ check_for (M.Memory.cells memory.now) harts }
{
    if !(1..=8).contains(&harts) {
        return Err(Refusal::HartCount);
    }
    if memory.size() < 2048 {
        return Err(Refusal::TooSmall);
    }
    Ok(())
}

impl Core {
    /// Frames all free, no space, no debt, harts in no space with every way empty.
    fn new(frames: usize, harts: usize) -> Core
        ensures pool { frames_of result.pool ≡ pooled.fresh (min frames 1024) }
        ensures roots { result.roots ≡ replicate 8 None }
        ensures debts { debts_of result.debts ≡ owed.none }
        ensures harts { result.harts ≡ replicate 8 outside }
        ensures rows { rows_of result.rows ≡ replicate 8 (replicate 16 None) }
        ensures count { result.count ≡ min (max harts 1) 8 }
    {
        let hart = Hart {
            space: None,
            sum: false,
            mxr: false,
        };
        Core {
            pool: Pool::new(frames),
            roots: [None; 8],
            debts: Ledger::new(),
            harts: [hart; 8],
            rows: Rows::empty(),
            count: harts.clamp(1, 8),
        }
    }
}

impl<M: Memory, P: Policy> Machine<M, P> {
    /// A fresh machine. The count of harts is brought into 1 to 8, and the first frames of the memory are used, at most
    /// 1,024.
    pub fn new(memory: M, policy: P, harts: usize) -> Machine<M, P>
        ensures state { state_of M.Memory.cells P.Policy.last result ≡ fresh (M.Memory.cells memory) (P.Policy.last policy) harts }
        ensures memory { result.memory ≡ memory }
        ensures policy { result.policy ≡ policy }
    {
        let frames = memory.size() / 512;
        Machine {
            memory,
            policy,
            core: Core::new(frames as usize, harts),
        }
    }

    /// The memory and the policy, as they are now.
    pub fn into_parts(self) -> (M, P)
        ensures memory { result.0 ≡ self.memory }
        ensures policy { result.1 ≡ self.policy }
    {
        let Machine {
            memory,
            policy,
            core: _,
        } = self;
        (memory, policy)
    }
}
