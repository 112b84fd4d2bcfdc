// The stage of the story: a machine, whose calls are printed with their answers.
use anyhow::anyhow;
use machine::{Action, Answer, Call, Machine, Refusal};
use memory::Memory;
use policy::Policy;
use sv39::Mode;
use telling::Told;

/// What the acts are performed on.
#[derive(Drop)]
pub struct Stage<'a, M: Memory, P: Policy> {
    rt: &'a HostRuntime,
    machine: &'a mut Machine<M, P>,
}

impl<'a, M: Memory, P: Policy> Stage<'a, M, P> {
    pub fn new(rt: &'a HostRuntime, machine: &'a mut Machine<M, P>) -> Stage<'a, M, P> {
        Stage { rt, machine }
    }

    /// Begins an act.
    pub fn heading(&self, text: &str) -> anyhow::Result<()> {
        println!(self.rt; "{text}")?;
        Ok(())
    }

    /// Makes a call and prints it with its answer.
    pub fn tell(&mut self, call: Call) -> anyhow::Result<Result<Answer, Refusal>> {
        let answer = self.machine.call(call);
        let told = Told { call, answer };
        println!(self.rt; "    {told}")?;
        Ok(answer)
    }

    /// Makes a call that the story expects to be refused.
    pub fn tell_refused(&mut self, call: Call) -> anyhow::Result<()> {
        match self.tell(call)? {
            Ok(_) => Err(anyhow!("a call was accepted that should not be")),
            Err(_) => Ok(()),
        }
    }

    /// Takes a frame.
    pub fn grant(&mut self) -> anyhow::Result<u64> {
        match self.tell(Call::Grant)?? {
            Answer::Frame(frame) => Ok(frame),
            _ => Err(anyhow!("a grant answered no frame")),
        }
    }

    /// Prints an open debt, with the harts that are marked on it.
    pub fn show_debt(&self, debt: u64) -> anyhow::Result<()> {
        if let Some(open) = self.machine.debt(debt) {
            println!(self.rt; "        {open}")?;
        }
        Ok(())
    }

    /// Prints what a frame is used for.
    pub fn show_frame(&self, frame: u64) -> anyhow::Result<()> {
        if let Some(state) = self.machine.frame_state(frame) {
            println!(self.rt; "        frame {frame}: {state}")?;
        }
        Ok(())
    }
}

/// A load in user mode.
pub fn load(hart: usize, address: u64) -> Call {
    Call::access(hart, Mode::User, address, Action::Load)
}

/// A store in user mode.
pub fn store(hart: usize, address: u64, value: u64) -> Call {
    Call::access(hart, Mode::User, address, Action::Store(value))
}

/// A fence of an address in a space.
pub fn fence(hart: usize, space: usize, address: u64) -> Call {
    Call::Fence {
        hart,
        space: Some(space),
        address: Some(address),
    }
}
