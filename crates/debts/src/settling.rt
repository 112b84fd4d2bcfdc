// Opening debts, marking harts on them, and settling them.
ghost use Rattle.std.specs.Prelude.{◌≡◌};
ghost use Rattle.sv39.specs.Layout.{bit};
ghost use Rattle.debts.specs.Debts.{debts_of, room, can_open, number_of, opened, open_debt, with_mark, marked_by, fenced, lowest_unmarked, settle_of, settled, refusal_number};
ghost use Rattle.debts.specs.Debts as value;

use crate::debt::Debt;
use crate::ledger::Ledger;
use thiserror::Error;
use tlb::{HartId, PageId, Scope, lowest_empty};

/// Why a debt is not settled.
#[derive(Clone, Copy, PartialEq, Eq, Debug, Error)]
pub enum Unsettled {
    /// No open debt has this number.
    #[error("21: the debt is not open")]
    NotOpen,
    /// This hart, the lowest such, has not fenced the page since the debt arose.
    #[error("22: hart {0} has not fenced since")]
    Unmarked(usize),
}

impl Unsettled {
    /// The number of this refusal.
    pub fn number(self) -> u8
        ensures { result ≡ refusal_number self }
    {
        match self {
            Unsettled::NotOpen => 21,
            Unsettled::Unmarked(_) => 22,
        }
    }
}

impl Debt {
    /// Whether a hart has fenced the page since.
    pub fn is_marked(&self, hart: usize) -> bool
        ensures { result ≡ bit self.now.marks hart }
    {
        let marks = self.marks;
        hart < 8 && marks >> hart & 1 == 1
    }

    /// The lowest of the first `harts` harts that is not marked.
    pub fn lowest_unmarked(&self, harts: usize) -> Option<usize>
        ensures { result ≡ lowest_unmarked self.now.marks harts }
    {
        (0..harts).find(|hart| !self.is_marked(*hart))
    }

    /// This debt with a hart marked.
    fn with_mark(self, hart: HartId) -> Debt
        ensures { result ≡ with_mark hart.number self }
    {
        Debt {
            marks: self.marks | 1 << hart.number,
            ..self
        }
    }
}

/// What a hart's fence makes of a slot.
fn fenced_slot(slot: Option<Debt>, hart: HartId, scope: Scope) -> Option<Debt>
    ensures { result ≡ marked_by hart.number scope.space scope.page slot }
{
    match slot {
        Some(debt) if scope.covers(debt.of) => Some(debt.with_mark(hart)),
        _ => slot,
    }
}

impl Ledger {
    /// No debt open, none numbered.
    pub fn new() -> Ledger
        ensures { debts_of result ≡ value.none }
    {
        Ledger {
            slots: [None; 64],
            next: 0,
        }
    }

    /// The slot that a new debt goes to.
    fn room(&self) -> Option<usize>
        ensures { result ≡ room (debts_of self.now) }
    {
        if self.next < 1 << 32 {
            lowest_empty(&self.slots)
        } else {
            None
        }
    }

    /// Whether one more debt can be opened.
    pub fn can_open(&self) -> bool
        ensures { result ≡ can_open (debts_of self.now) }
    {
        self.room().is_some()
    }

    /// Opens a debt on a page of a space, with no hart marked, and answers its number; none, and nothing is opened,
    /// where 64 are open or 2^32 were numbered.
    pub fn open(&mut self, of: PageId, frame: Option<u64>) -> Option<u64>
        ensures number { result ≡ number_of (debts_of self.old) }
        ensures after { debts_of self.new ≡ opened (debts_of self.old) of.space of.page frame }
    {
        let slot = self.room()?;
        let number = self.next;
        self.slots[slot] = Some(Debt {
            number,
            of,
            frame,
            marks: 0,
        });
        self.next = number + 1;
        Some(number)
    }

    /// The open debt of a number, with its slot.
    pub fn find(&self, number: u64) -> Option<(usize, Debt)>
        ensures { result ≡ open_debt number 0 self.now.slots }
    {
        let slot = self
            .slots
            .iter()
            .position(|slot| slot.is_some_and(|debt| debt.number == number))?;
        let debt = self.slots[slot]?;
        Some((slot, debt))
    }

    /// Marks a hart on every open debt that its fence is for.
    pub fn fence(&mut self, hart: HartId, scope: Scope)
        ensures { debts_of self.new ≡ fenced (debts_of self.old) hart.number scope.space scope.page }
    {
        for slot in &mut self.slots {
            *slot = fenced_slot(*slot, hart, scope);
        }
    }

    /// Closes a debt on which each of the first `harts` harts is marked, and answers the frame that it releases.
    pub fn settle(&mut self, number: u64, harts: usize) -> Result<Option<u64>, Unsettled>
        ensures answer { result ≡ settle_of (debts_of self.old) number harts }
        ensures after { debts_of self.new ≡ settled (debts_of self.old) number harts }
    {
        let (slot, debt) = self.find(number).ok_or(Unsettled::NotOpen)?;
        if let Some(hart) = debt.lowest_unmarked(harts) {
            return Err(Unsettled::Unmarked(hart));
        }
        self.slots[slot] = None;
        Ok(debt.frame)
    }
}
