// An example of each refusal. The tables that calls make hold no damaged entry, so 33, 34 and 36 to 39 do not occur.
use crate::making::{expect, load, map, no, rights, yes};
use machine::{Answer, Call, Cause, HartFault, Machine, Refusal, check as check_machine};
use memory::{Memory, Words};
use policy::{Policy, TreePlru};
use std::process::Abort;
use std::test::Fail;
use sv39::{Kind, Mode};
use walker::WalkFault;

#[test]
fn a_machine_is_checked(rt: HostRuntime) {
    let mut words = [0u64; 2047];
    let small = Words::new(&mut words);
    assert_eq!(rt; check_machine(&small, 9), Err(Refusal::HartCount));
    assert_eq!(rt; check_machine(&small, 0), Err(Refusal::HartCount));
    assert_eq!(rt; check_machine(&small, 8), Err(Refusal::TooSmall));
    let mut enough = [0u64; 2048];
    assert_eq!(rt; check_machine(&Words::new(&mut enough), 8), Ok(()));
    assert_eq!(rt; Refusal::HartCount.number(), 5);
    assert_eq!(rt; Refusal::TooSmall.number(), 4);
}

#[test]
fn frames_run_out(rt: HostRuntime) {
    let mut words = [0u64; 2048];
    let mut machine = Machine::new(Words::new(&mut words), TreePlru::new(), 1);
    let lines = [
        yes(Call::Grant, Answer::Frame(0)),
        yes(Call::Grant, Answer::Frame(1)),
        yes(Call::Grant, Answer::Frame(2)),
        yes(Call::Grant, Answer::Frame(3)),
        no(Call::Grant, Refusal::NoFrame),
        no(Call::Space, Refusal::NoFrame),
        yes(Call::Back { frame: 2 }, Answer::Done),
        no(Call::Back { frame: 2 }, Refusal::NotHeld),
        no(Call::Back { frame: 1 << 40 }, Refusal::NotHeld),
        yes(Call::Back { frame: 0 }, Answer::Done),
        yes(Call::Grant, Answer::Frame(0)),
        yes(Call::Space, Answer::Space(0)),
        no(map(0, 0x1000, 0, 1), Refusal::NoFrame),
    ];
    expect(&rt, &mut machine, &lines);
}

#[test]
fn spaces_run_out(rt: HostRuntime) {
    let mut words = [0u64; 8192];
    let mut machine = Machine::new(Words::new(&mut words), TreePlru::new(), 1);
    for number in 0..8usize {
        expect(
            &rt,
            &mut machine,
            &[yes(Call::Space, Answer::Space(number))],
        );
    }
    expect(&rt, &mut machine, &[no(Call::Space, Refusal::SpacesFull)]);
}

// Runtime and machine come apart, as a test has them.
/// A page at 0x1000 of space 0, which hart 0 is in.
fn page<M: Memory, P: Policy>(rt: &impl Abort, machine: &mut Machine<M, P>) {
    let lines = [
        no(map(0, 0x1000, 0, 1), Refusal::NoSpace),
        yes(Call::Space, Answer::Space(0)),
        no(map(0, 0x1008, 0, 2), Refusal::NotAPage),
        no(map(0, 0x40_0000_0000, 0, 2), Refusal::NotAPage),
        no(map(0, 0x1000, 0, 2), Refusal::BadRights),
        no(map(0, 0x1000, 0, 8), Refusal::BadRights),
        no(map(0, 0x1000, 0, 1), Refusal::NotHeld),
        yes(Call::Grant, Answer::Frame(1)),
        yes(Call::Grant, Answer::Frame(2)),
        yes(map(0, 0x1000, 1, 3), Answer::Tables(2)),
        no(map(0, 0x1000, 1, 3), Refusal::NotHeld),
        no(map(0, 0x1000, 2, 3), Refusal::Mapped),
    ];
    expect(rt, machine, &lines);
}

#[test]
fn calls_on_pages_and_harts(rt: HostRuntime) {
    let mut words = [0u64; 4096];
    let mut machine = Machine::new(Words::new(&mut words), TreePlru::new(), 2);
    page(&rt, &mut machine);
    let unmap = Call::Unmap {
        space: 0,
        address: 0x2000,
    };
    let fence = Call::Fence {
        hart: 2,
        space: None,
        address: None,
    };
    let no_space = Call::Fence {
        hart: 1,
        space: Some(1),
        address: None,
    };
    let nowhere = Call::Fence {
        hart: 1,
        space: None,
        address: Some(0x40_0000_0000),
    };
    let lines = [
        no(unmap, Refusal::NotMapped),
        no(Call::Enter { hart: 2, space: 0 }, Refusal::NoHart),
        no(Call::Enter { hart: 0, space: 1 }, Refusal::NoSpace),
        no(
            Call::Status {
                hart: 2,
                sum: false,
                mxr: false,
            },
            Refusal::NoHart,
        ),
        no(fence, Refusal::NoHart),
        no(no_space, Refusal::NoSpace),
        yes(nowhere, Answer::Emptied(0)),
        no(load(2, Mode::User, 0x1004), Refusal::NoHart),
        no(load(0, Mode::User, 0x1004), Refusal::InNoSpace),
        no(Call::Settle { debt: 0 }, Refusal::NotOpen),
    ];
    expect(&rt, &mut machine, &lines);
}

#[test]
fn addresses_that_fault(rt: HostRuntime) {
    let mut words = [0u64; 4096];
    let mut machine = Machine::new(Words::new(&mut words), TreePlru::new(), 1);
    page(&rt, &mut machine);
    let odd = HartFault {
        hart: 0,
        kind: Kind::Load,
        address: 0x1004,
        cause: Cause::Misaligned,
    };
    let far = HartFault {
        hart: 0,
        kind: Kind::Load,
        address: 0x40_0000_0000,
        cause: Cause::Walk(WalkFault::NotCanonical(Kind::Load)),
    };
    let lines = [
        yes(Call::Enter { hart: 0, space: 0 }, Answer::Done),
        no(load(0, Mode::User, 0x1004), Refusal::Fault(odd)),
        no(load(0, Mode::User, 0x40_0000_0000), Refusal::Fault(far)),
    ];
    expect(&rt, &mut machine, &lines);
    assert_eq!(rt; odd.report().number, 30);
    assert_eq!(rt; odd.report().code, Some(4));
    assert_eq!(rt; Refusal::Fault(far).number(), 31);
}

#[test]
fn debts_run_out(rt: HostRuntime) -> Result<(), Fail> {
    let mut words = [0u64; 4096];
    let mut machine = Machine::new(Words::new(&mut words), TreePlru::new(), 1);
    page(&rt, &mut machine);
    for number in 0..64u64 {
        let less = machine.protect(0, 0x1000, rights(1))?;
        assert_eq!(rt; less.debt, Some(number));
        let more = machine.protect(0, 0x1000, rights(3))?;
        assert_eq!(rt; more.debt, None);
    }
    assert_eq!(rt; machine.open_debts(), 64);
    let full = [
        no(
            Call::Protect {
                space: 0,
                address: 0x1000,
                rights: rights(1),
            },
            Refusal::DebtsFull,
        ),
        no(
            Call::Unmap {
                space: 0,
                address: 0x1000,
            },
            Refusal::DebtsFull,
        ),
    ];
    expect(&rt, &mut machine, &full);
    Ok(())
}
