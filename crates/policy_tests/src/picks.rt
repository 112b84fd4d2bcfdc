// Which ways are picked, and what is refused.
use adversary::Scripted;
use policy::{Clock, Policy, PolicyRefusal, TreePlru};
use std::process::Abort;
use std::test::Fail;

/// Touches what it picks, for a while, in every hart by turns: never the same way twice in a row.
fn drive<P: Policy>(rt: &impl Abort, policy: &mut P) -> Result<(), Fail> {
    for hart in 0..8usize {
        let mut last = 16;
        for _ in 0..100 {
            let way = policy.pick(hart)?;
            assert!(rt; way < 16 && way != last);
            policy.touch(hart, way)?;
            last = way;
        }
    }
    Ok(())
}

fn refuses<P: Policy>(rt: &impl Abort, policy: &mut P) {
    assert_eq!(rt; policy.pick(8), Err(PolicyRefusal::NoHart));
    assert_eq!(rt; policy.touch(8, 16), Err(PolicyRefusal::NoHart));
    assert_eq!(rt; policy.touch(7, 16), Err(PolicyRefusal::NoWay));
    assert_eq!(rt; PolicyRefusal::NoHart.number(), 10);
    assert_eq!(rt; PolicyRefusal::NoWay.number(), 7);
}

#[test]
fn plru(rt: HostRuntime) -> Result<(), Fail> {
    let mut policy = TreePlru::new();
    refuses(&rt, &mut policy);
    assert_eq!(rt; policy.pick(3), Ok(0));
    policy.touch(3, 0)?;
    assert_eq!(rt; policy.pick(3), Ok(8));
    policy.touch(3, 8)?;
    assert_eq!(rt; policy.pick(3), Ok(4));
    assert_eq!(rt; policy.pick(2), Ok(0));
    drive(&rt, &mut policy)
}

#[test]
fn clock(rt: HostRuntime) -> Result<(), Fail> {
    let mut policy = Clock::new();
    refuses(&rt, &mut policy);
    policy.touch(0, 0)?;
    assert_eq!(rt; policy.pick(0), Ok(1));
    assert_eq!(rt; policy.pick(0), Ok(2));
    for way in 0..16usize {
        policy.touch(1, way)?;
    }
    assert_eq!(rt; policy.pick(1), Ok(0));
    assert_eq!(rt; policy.pick(1), Ok(1));
    assert_eq!(rt; policy.pick(2), Ok(0));
    drive(&rt, &mut policy)
}

#[test]
fn the_adversary_picks_by_its_script(rt: HostRuntime) -> Result<(), Fail> {
    let mut policy = Scripted::new(&[3, 3, 20, 15]);
    refuses(&rt, &mut policy);
    assert_eq!(rt; policy.pick(0), Ok(3));
    policy.touch(0, 3)?;
    assert_eq!(rt; policy.pick(0), Ok(4));
    assert_eq!(rt; policy.pick(0), Ok(4));
    policy.touch(0, 15)?;
    assert_eq!(rt; policy.pick(0), Ok(0));
    drive(&rt, &mut policy)
}
