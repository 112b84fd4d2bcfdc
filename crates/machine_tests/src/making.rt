// What the tests make their calls with.
use machine::{Action, Answer, By, Call, Cause, HartFault, Machine, Reached, Refusal};
use memory::Memory;
use policy::Policy;
use std::process::Abort;
use sv39::{Kind, Mode, Rights};
use telling::Told;
use walker::{Stop, WalkFault};

pub fn yes(call: Call, answer: Answer) -> Told {
    Told {
        call,
        answer: Ok(answer),
    }
}

pub fn no(call: Call, refusal: Refusal) -> Told {
    Told {
        call,
        answer: Err(refusal),
    }
}

// Runtime and machine come apart, as a test has them.
/// Makes the calls in their order and compares each answer.
pub fn expect<M: Memory, P: Policy>(rt: &impl Abort, machine: &mut Machine<M, P>, lines: &[Told]) {
    for line in lines {
        let answer = machine.call(line.call);
        assert_eq!(rt; answer, line.answer);
    }
}

/// Rights by their letters: bits 0 to 3 are r, w, x and u.
pub fn rights(letters: u8) -> Rights {
    Rights {
        r: letters & 1 == 1,
        w: letters & 2 == 2,
        x: letters & 4 == 4,
        u: letters & 8 == 8,
    }
}

pub fn load(hart: usize, mode: Mode, address: u64) -> Call {
    Call::access(hart, mode, address, Action::Load)
}

pub fn fetch(hart: usize, mode: Mode, address: u64) -> Call {
    Call::access(hart, mode, address, Action::Fetch)
}

pub fn store(hart: usize, mode: Mode, address: u64, value: u64) -> Call {
    Call::access(hart, mode, address, Action::Store(value))
}

pub fn map(space: usize, address: u64, frame: u64, letters: u8) -> Call {
    Call::Map {
        space,
        address,
        frame,
        rights: rights(letters),
    }
}

pub fn reached(frame: u64, by: By, word: Option<u64>) -> Answer {
    Answer::Reached(Reached { frame, by, word })
}

/// The fault of a walk that stopped at an entry of level 0.
pub fn stopped(hart: usize, kind: Kind, address: u64, stop: Stop, entry: u64) -> Refusal {
    let walk = WalkFault::Stopped {
        stop,
        kind,
        level: 0,
        entry,
    };
    Refusal::Fault(HartFault {
        hart,
        kind,
        address,
        cause: Cause::Walk(walk),
    })
}
