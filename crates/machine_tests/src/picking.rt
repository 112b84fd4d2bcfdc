// Seventeen pages in sixteen ways: which way gives place.
use adversary::Scripted;
use machine::{Action, By, Machine, Request};
use memory::{Memory, Words};
use policy::{Policy, TreePlru};
use std::process::Abort;
use std::test::Fail;
use sv39::{Mode, Rights};

const ALL: Rights = Rights {
    r: true,
    w: true,
    x: true,
    u: true,
};

fn touch_page<M: Memory, P: Policy>(machine: &mut Machine<M, P>, page: u64) -> Result<By, Fail> {
    let request = Request {
        mode: Mode::User,
        address: page % 512 * 4096,
        action: Action::Load,
    };
    Ok(machine.access(0, &request)?.by)
}

// Runtime and machine come apart, as a test has them.
/// Maps seventeen pages and reads each: sixteen ways are filled, and the seventeenth page takes a way by the policy.
fn fill<M: Memory, P: Policy>(rt: &impl Abort, machine: &mut Machine<M, P>) -> Result<(), Fail> {
    machine.space()?;
    machine.enter(0, 0)?;
    for page in 0..17u64 {
        let frame = machine.grant()?;
        machine.map(0, page * 4096, frame, ALL)?;
        assert_eq!(rt; touch_page(machine, page)?, By::Walk);
    }
    Ok(())
}

#[test]
fn the_adversary_names_the_way(rt: HostRuntime) -> Result<(), Fail> {
    let mut words = [0u64; 12288];
    let mut machine = Machine::new(Words::new(&mut words), Scripted::new(&[5]), 1);
    fill(&rt, &mut machine)?;
    assert_eq!(rt; touch_page(&mut machine, 16)?, By::Hit);
    assert_eq!(rt; touch_page(&mut machine, 4)?, By::Hit);
    assert_eq!(rt; touch_page(&mut machine, 5)?, By::Walk);
    Ok(())
}

#[test]
fn plru_names_the_way(rt: HostRuntime) -> Result<(), Fail> {
    let mut words = [0u64; 12288];
    let mut machine = Machine::new(Words::new(&mut words), TreePlru::new(), 1);
    fill(&rt, &mut machine)?;
    assert_eq!(rt; touch_page(&mut machine, 16)?, By::Hit);
    assert_eq!(rt; touch_page(&mut machine, 15)?, By::Hit);
    assert_eq!(rt; touch_page(&mut machine, 0)?, By::Walk);
    Ok(())
}
