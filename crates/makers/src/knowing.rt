// What is known of a machine's memory, policy and harts from its type and its calls' contracts.
ghost use Rattle.std.specs.Prelude.{◌≡◌, ◌≤◌};
ghost use Rattle.machine.specs.Calls.{call_step};
ghost use Rattle.machine.specs.State.{Did, eight, state_of};
ghost use Rattle.law.specs.Runs.{Allowed};

use machine::{Answer, Call, Machine, Refusal};
use memory::Memory;
use policy::Policy;

/// Makes one last call and takes the machine apart: the memory that comes back means the list that the call's step
/// leaves, and the policy's last touched ways are those of that step.
pub fn last_call<M: Memory, P: Policy>(
    machine: Machine<M, P>,
    call: Call,
) -> (Result<Answer, Refusal>, M, P)
    ensures answer { result.0 ≡ (call_step (state_of M.Memory.cells P.Policy.last machine) (P.Policy.choice machine.policy) call).0 }
    ensures memory { M.Memory.cells result.1 ≡ (call_step (state_of M.Memory.cells P.Policy.last machine) (P.Policy.choice machine.policy) call).1.cells }
    ensures policy { eight (P.Policy.last result.2) ≡ (call_step (state_of M.Memory.cells P.Policy.last machine) (P.Policy.choice machine.policy) call).1.last }
{
    let mut machine = machine;
    let answer = machine.call(call);
    let (memory, policy) = machine.into_parts();
    (answer, memory, policy)
}

/// How many harts a machine has, which is 1 to 8.
pub fn hart_count<M: Memory, P: Policy>(machine: &Machine<M, P>) -> usize
    ensures count { result ≡ (state_of M.Memory.cells P.Policy.last machine.now).count }
    ensures low { 1 ≤ result }
    ensures high { result ≤ 8 }
{
    machine.harts()
}

/// Makes a call, which is a step that the law's histories take: the policy's choice is one that they allow in the state
/// before it.
pub fn next_step<M: Memory, P: Policy>(
    machine: &mut Machine<M, P>,
    call: Call,
) -> Result<Answer, Refusal>
    ensures step { Did (call_step (state_of M.Memory.cells P.Policy.last machine.old) (P.Policy.choice machine.old.policy) call) result (state_of M.Memory.cells P.Policy.last machine.new) }
    ensures allowed { Allowed (state_of M.Memory.cells P.Policy.last machine.old) (P.Policy.choice machine.old.policy) }
{
    machine.call(call)
}
