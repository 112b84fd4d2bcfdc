// The questions that change nothing, before and after a page is mapped.
use crate::making::rights;
use frames::FrameState;
use machine::Machine;
use memory::Words;
use policy::TreePlru;
use std::test::Fail;

#[test]
fn states_and_counts(rt: HostRuntime) -> Result<(), Fail> {
    let mut words = [0u64; 4096];
    let mut machine = Machine::new(Words::new(&mut words), TreePlru::new(), 12);
    assert_eq!(rt; machine.harts(), 8);
    assert_eq!(rt; machine.root(0), None);
    let space = machine.space()?;
    let frame = machine.grant()?;
    assert_eq!(rt; machine.frame_state(frame), Some(FrameState::Held));
    machine.map(space, 0x1000, frame, rights(3))?;
    assert_eq!(rt; machine.root(space), Some(0));
    assert_eq!(rt; machine.frame_state(frame), Some(FrameState::Mapped));
    assert_eq!(rt; machine.frame_state(8), None);
    assert_eq!(rt; machine.frames_in(FrameState::Table), 3);
    assert_eq!(rt; machine.frames_in(FrameState::Free), 4);
    let unmapped = machine.unmap(space, 0x1000)?;
    assert_eq!(rt; machine.frame_state(frame), Some(FrameState::Owed));
    assert_eq!(rt; machine.open_debts(), 1);
    assert!(rt; machine.debt(unmapped.debt).is_some());
    assert!(rt; machine.row(7).is_some());
    assert!(rt; machine.row(8).is_none());
    Ok(())
}
