// Why the machine refuses, with every number that it tells.
ghost use Rattle.std.specs.Prelude.{◌≡◌};
ghost use Rattle.machine.specs.declared.refusal.Cause.TheVariants.{Walk};
ghost use Rattle.machine.specs.Refusals.{fault_report, number_of, unsettled};

use debts::Unsettled;
use sv39::Kind;
use thiserror::Error;
use walker::{Report, WalkFault};

/// Why an access faults: its address is no multiple of 8, or the walk's fault.
#[derive(Clone, Copy, PartialEq, Eq, Debug, Error)]
pub enum Cause {
    #[error("30: the address is no multiple of 8")]
    Misaligned,
    #[error("{0}")]
    Walk(WalkFault),
}

// `From` by hand, as a contract names what `?` makes, and the derive of it has none.
impl From<WalkFault> for Cause {
    ghost from_gives = { λ f r. r ≡ Walk f };

    fn from(fault: WalkFault) -> Cause {
        Cause::Walk(fault)
    }
}

/// The fault of a hart's access.
#[derive(Clone, Copy, PartialEq, Eq, Debug, Error)]
#[error("{cause} (hart {hart}, {kind} at {address:#x})")]
pub struct HartFault {
    pub hart: usize,
    pub kind: Kind,
    pub address: u64,
    pub cause: Cause,
}

impl HartFault {
    /// What the fault tells besides hart, kind and address: number, code, level, entry, and the memory's refusal.
    pub fn report(self) -> Report
        ensures { result ≡ fault_report self }
    {
        match self.cause {
            Cause::Misaligned => Report {
                number: 30,
                code: Some(self.kind.misaligned_fault()),
                ..Report::default()
            },
            Cause::Walk(fault) => fault.report(),
        }
    }
}

/// Why a call is refused.
#[derive(Clone, Copy, PartialEq, Eq, Debug, Error)]
pub enum Refusal {
    #[error("4: the memory has under 2048 doublewords")]
    TooSmall,
    #[error("5: the count of harts is not 1 to 8")]
    HartCount,
    #[error("10: no such hart")]
    NoHart,
    #[error("11: no such space")]
    NoSpace,
    #[error("12: the hart is in no space")]
    InNoSpace,
    #[error("13: eight spaces stand")]
    SpacesFull,
    #[error("14: too few frames are free")]
    NoFrame,
    #[error("15: the frame is not held")]
    NotHeld,
    /// The address is not canonical, or no multiple of 4,096.
    #[error("16: the address is not that of a page")]
    NotAPage,
    /// W without R, or none of R, W and X.
    #[error("17: W without R, or no right")]
    BadRights,
    #[error("18: the page is mapped")]
    Mapped,
    #[error("19: the page is not mapped")]
    NotMapped,
    /// 64 debts are open, or 2^32 were numbered.
    #[error("20: no debt can be opened")]
    DebtsFull,
    #[error("21: the debt is not open")]
    NotOpen,
    /// This hart, the lowest such, is not marked on the debt.
    #[error("22: hart {0} has not fenced since")]
    Unmarked(usize),
    /// The access faults.
    #[error("{0}")]
    Fault(HartFault),
}

// By hand, as above; and flat, so that a caller meets each refusal that is no fault in one `match`.
impl From<Unsettled> for Refusal {
    ghost from_gives = { λ u r. r ≡ unsettled u };

    fn from(refused: Unsettled) -> Refusal {
        match refused {
            Unsettled::NotOpen => Refusal::NotOpen,
            Unsettled::Unmarked(hart) => Refusal::Unmarked(hart),
        }
    }
}

impl Refusal {
    /// The number of this refusal.
    pub fn number(self) -> u8
        ensures { result ≡ number_of self }
    {
        match self {
            Refusal::TooSmall => 4,
            Refusal::HartCount => 5,
            Refusal::NoHart => 10,
            Refusal::NoSpace => 11,
            Refusal::InNoSpace => 12,
            Refusal::SpacesFull => 13,
            Refusal::NoFrame => 14,
            Refusal::NotHeld => 15,
            Refusal::NotAPage => 16,
            Refusal::BadRights => 17,
            Refusal::Mapped => 18,
            Refusal::NotMapped => 19,
            Refusal::DebtsFull => 20,
            Refusal::NotOpen => 21,
            Refusal::Unmarked(_) => 22,
            Refusal::Fault(fault) => fault.report().number,
        }
    }
}
