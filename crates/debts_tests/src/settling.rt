// A debt is settled once every hart has fenced its page.
use debts::{Ledger, Unsettled};
use tlb::{HartId, PageId, Scope};

fn page(space: u64, page: u64) -> PageId {
    PageId { space, page }
}

fn scope(space: Option<u64>, page: Option<u64>) -> Scope {
    Scope { space, page }
}

#[test]
fn a_debt_is_settled_once_each_hart_has_fenced(rt: HostRuntime) {
    let first = HartId::new(0).expect(&rt, "hart 0");
    let second = HartId::new(1).expect(&rt, "hart 1");
    let mut ledger = Ledger::new();
    assert_eq!(rt; ledger.open(page(1, 0x1000), Some(5)), Some(0));
    assert_eq!(rt; ledger.open(page(1, 0x2000), None), Some(1));
    assert_eq!(rt; ledger.settle(0, 2), Err(Unsettled::Unmarked(0)));
    ledger.fence(first, scope(Some(1), Some(0x1000)));
    assert_eq!(rt; ledger.settle(0, 2), Err(Unsettled::Unmarked(1)));
    ledger.fence(second, scope(Some(2), None));
    assert_eq!(rt; ledger.settle(0, 2), Err(Unsettled::Unmarked(1)));
    ledger.fence(second, scope(None, None));
    assert_eq!(rt; ledger.settle(0, 2), Ok(Some(5)));
    assert_eq!(rt; ledger.settle(0, 2), Err(Unsettled::NotOpen));
    assert_eq!(rt; ledger.settle(1, 2), Err(Unsettled::Unmarked(0)));
    assert_eq!(rt; ledger.open(page(1, 0x3000), None), Some(2));
}

#[test]
fn sixty_four_are_open_at_most(rt: HostRuntime) {
    let first = HartId::new(0).expect(&rt, "hart 0");
    let mut ledger = Ledger::new();
    for number in 0..64u64 {
        assert_eq!(rt; ledger.open(page(0, 0x1000), None), Some(number));
    }
    assert!(rt; !ledger.can_open());
    assert_eq!(rt; ledger.open(page(0, 0x1000), None), None);
    ledger.fence(first, scope(None, None));
    assert_eq!(rt; ledger.settle(40, 1), Ok(None));
    assert!(rt; ledger.can_open());
    assert_eq!(rt; ledger.open(page(0, 0x1000), None), Some(64));
}
