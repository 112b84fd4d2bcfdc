// Calls and answers as values, so that a list of calls can be made and told.
ghost use Rattle.std.specs.Prelude.{◌≡◌};
ghost use Rattle.machine.specs.Calls.{access_call, call_step};
ghost use Rattle.machine.specs.State.{state_of, Did};

use crate::access::{Action, Reached, Request};
use crate::machine::Machine;
use crate::paging::{Protected, Unmapped};
use crate::refusal::Refusal;
use memory::Memory;
use policy::Policy;
use sv39::{Mode, Rights};

/// A call of a machine with its arguments.
#[derive(Clone, Copy, PartialEq, Eq, Debug)]
pub enum Call {
    Space,
    Grant,
    Back {
        frame: u64,
    },
    Map {
        space: usize,
        address: u64,
        frame: u64,
        rights: Rights,
    },
    Protect {
        space: usize,
        address: u64,
        rights: Rights,
    },
    Unmap {
        space: usize,
        address: u64,
    },
    Enter {
        hart: usize,
        space: usize,
    },
    Status {
        hart: usize,
        sum: bool,
        mxr: bool,
    },
    Access {
        hart: usize,
        request: Request,
    },
    Fence {
        hart: usize,
        space: Option<usize>,
        address: Option<u64>,
    },
    Settle {
        debt: u64,
    },
}

/// What an accepted call answers.
#[derive(Clone, Copy, PartialEq, Eq, Debug)]
pub enum Answer {
    /// Of space: its number.
    Space(usize),
    /// Of grant: the frame.
    Frame(u64),
    /// Of back, enter and status.
    Done,
    /// Of map: how many tables were taken.
    Tables(u64),
    Protected(Protected),
    Unmapped(Unmapped),
    Reached(Reached),
    /// Of fence: how many ways were emptied.
    Emptied(usize),
    /// Of settle: the frame released, if one was.
    Settled(Option<u64>),
}

impl Call {
    /// The call of an access.
    pub fn access(hart: usize, mode: Mode, address: u64, action: Action) -> Call
        ensures { result ≡ access_call hart mode address action }
    {
        let request = Request {
            mode,
            address,
            action,
        };
        Call::Access { hart, request }
    }
}

impl<M: Memory, P: Policy> Machine<M, P> {
    /// Makes a call.
    pub fn call(&mut self, call: Call) -> Result<Answer, Refusal>
        ensures { Did (call_step (state_of M.Memory.cells P.Policy.last self.old) (P.Policy.choice self.old.policy) call) result (state_of M.Memory.cells P.Policy.last self.new) }
    {
        let answer = match call {
            Call::Space => Answer::Space(self.space()?),
            Call::Grant => Answer::Frame(self.grant()?),
            Call::Back { frame } => {
                self.back(frame)?;
                Answer::Done
            }
            Call::Map {
                space,
                address,
                frame,
                rights,
            } => Answer::Tables(self.map(space, address, frame, rights)?),
            Call::Protect {
                space,
                address,
                rights,
            } => Answer::Protected(self.protect(space, address, rights)?),
            Call::Unmap { space, address } => Answer::Unmapped(self.unmap(space, address)?),
            Call::Enter { hart, space } => {
                self.enter(hart, space)?;
                Answer::Done
            }
            Call::Status { hart, sum, mxr } => {
                self.status(hart, sum, mxr)?;
                Answer::Done
            }
            Call::Access { hart, request } => Answer::Reached(self.access(hart, &request)?),
            Call::Fence {
                hart,
                space,
                address,
            } => Answer::Emptied(self.fence(hart, space, address)?),
            Call::Settle { debt } => Answer::Settled(self.settle(debt)?),
        };
        Ok(answer)
    }
}
