// A page's life: mapped, used, protected, unmapped, fenced, settled, and its frame used again.
use crate::making::{expect, fetch, load, map, no, reached, rights, stopped, store, yes};
use adversary::Scripted;
use machine::{Answer, By, Call, Machine, Refusal, Unmapped};
use memory::{Memory, Words};
use policy::{Clock, Policy, TreePlru};
use std::process::Abort;
use sv39::{Kind, Mode};
use walker::Stop;

// Here and below runtime and machine come apart, as a test has them.
/// Frame 0 is the root, 1 the page, 2 and 3 the tables of levels 1 and 0.
fn mapped<M: Memory, P: Policy>(rt: &impl Abort, machine: &mut Machine<M, P>) {
    let lines = [
        yes(Call::Space, Answer::Space(0)),
        yes(Call::Grant, Answer::Frame(1)),
        yes(map(0, 0x1000, 1, 11), Answer::Tables(2)),
        yes(Call::Enter { hart: 0, space: 0 }, Answer::Done),
        yes(load(0, Mode::User, 0x1008), reached(1, By::Walk, Some(0))),
        yes(store(0, Mode::User, 0x1008, 7), reached(1, By::Hit, None)),
        yes(load(0, Mode::User, 0x1008), reached(1, By::Hit, Some(7))),
        no(load(1, Mode::User, 0x1008), Refusal::InNoSpace),
        yes(Call::Enter { hart: 1, space: 0 }, Answer::Done),
        yes(load(1, Mode::User, 0x1008), reached(1, By::Walk, Some(7))),
    ];
    expect(rt, machine, &lines);
}

/// A fence made before the unmap counts for nothing, and until its own fence a hart still hits the old way.
fn shot_down<M: Memory, P: Policy>(rt: &impl Abort, machine: &mut Machine<M, P>) {
    let all = Call::Fence {
        hart: 1,
        space: None,
        address: None,
    };
    let page = Call::Fence {
        hart: 0,
        space: Some(0),
        address: Some(0x1ff8),
    };
    let unmapped = Unmapped { debt: 0, frame: 1 };
    let lines = [
        yes(page, Answer::Emptied(1)),
        yes(load(0, Mode::User, 0x1008), reached(1, By::Walk, Some(7))),
        yes(
            Call::Unmap {
                space: 0,
                address: 0x1000,
            },
            Answer::Unmapped(unmapped),
        ),
        yes(load(1, Mode::User, 0x1008), reached(1, By::Hit, Some(7))),
        no(Call::Settle { debt: 0 }, Refusal::Unmarked(0)),
        yes(page, Answer::Emptied(1)),
        no(Call::Settle { debt: 0 }, Refusal::Unmarked(1)),
        yes(all, Answer::Emptied(1)),
        yes(Call::Settle { debt: 0 }, Answer::Settled(Some(1))),
        no(Call::Settle { debt: 0 }, Refusal::NotOpen),
        no(
            load(1, Mode::User, 0x1008),
            stopped(1, Kind::Load, 0x1008, Stop::Invalid, 1537),
        ),
    ];
    expect(rt, machine, &lines);
}

/// The frame released last is granted next, filled with zeros; rights, SUM and MXR.
fn used_again<M: Memory, P: Policy>(rt: &impl Abort, machine: &mut Machine<M, P>) {
    let sum = Call::Status {
        hart: 0,
        sum: true,
        mxr: true,
    };
    let lines = [
        yes(Call::Grant, Answer::Frame(1)),
        yes(map(0, 0x2000, 1, 12), Answer::Tables(0)),
        no(
            load(0, Mode::User, 0x2008),
            stopped(0, Kind::Load, 0x2008, Stop::Rights, 1538),
        ),
        yes(fetch(0, Mode::User, 0x2008), reached(1, By::Walk, Some(0))),
        no(
            load(0, Mode::Supervisor, 0x2008),
            stopped(0, Kind::Load, 0x2008, Stop::Rights, 1538),
        ),
        yes(sum, Answer::Done),
        yes(
            load(0, Mode::Supervisor, 0x2008),
            reached(1, By::Walk, Some(0)),
        ),
        yes(load(0, Mode::User, 0x2008), reached(1, By::Hit, Some(0))),
        no(
            fetch(0, Mode::Supervisor, 0x2008),
            stopped(0, Kind::Fetch, 0x2008, Stop::Rights, 1538),
        ),
        yes(load(0, Mode::User, 0x2008), reached(1, By::Walk, Some(0))),
        no(
            store(0, Mode::User, 0x2008, 1),
            stopped(0, Kind::Store, 0x2008, Stop::Rights, 1538),
        ),
    ];
    expect(rt, machine, &lines);
}

fn lives<P: Policy + Drop>(rt: &impl Abort, policy: P) {
    let mut words = [0u64; 4096];
    let mut machine = Machine::new(Words::new(&mut words), policy, 2);
    mapped(rt, &mut machine);
    shot_down(rt, &mut machine);
    used_again(rt, &mut machine);
}

#[test]
fn a_page_lives_under_plru(rt: HostRuntime) {
    lives(&rt, TreePlru::new());
}

#[test]
fn a_page_lives_under_clock(rt: HostRuntime) {
    lives(&rt, Clock::new());
}

#[test]
fn a_page_lives_under_the_adversary(rt: HostRuntime) {
    lives(&rt, Scripted::new(&[0, 1, 2]));
}
