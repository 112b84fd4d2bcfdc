// Why a walk stopped, with its number, code, level and entry.
ghost use Rattle.std.specs.Prelude.{◌≡◌};
ghost use Rattle.walker.specs.declared.fault.Stop.TheVariants.{EntryBeyond};
ghost use Rattle.walker.specs.declared.fault.WalkFault.TheVariants.{RootTooWide};
ghost use Rattle.walker.specs.Reported.{reported, stop_number};

use memory::Beyond;
use sv39::{Kind, TooWide};
use thiserror::Error;

/// What stopped a walk at an entry, in the order in which a walk looks.
#[derive(Clone, Copy, PartialEq, Eq, Debug, Error)]
pub enum Stop {
    /// The entry is beyond the memory, whose refusal this is.
    #[error("38: the entry cannot be read ({0})")]
    EntryBeyond(Beyond),
    #[error("32: V is clear")]
    Invalid,
    #[error("33: W without R")]
    WriteOnly,
    /// The entry is a pointer, and at level 0.
    #[error("34: a pointer at level 0")]
    PointerAtZero,
    /// The leaf lacks a right that the access needs.
    #[error("35: the rights do not allow it")]
    Rights,
    /// The leaf is above level 0 and low bits of its PPN are set.
    #[error("36: the leaf is misaligned for its level")]
    Misaligned,
    #[error("37: A is clear, or D on a store")]
    Marks,
    /// The doubleword that the access wants is beyond the memory, which would refuse it so.
    #[error("39: the frame is outside ({0})")]
    FrameBeyond(Beyond),
}

// `From` by hand, as a contract names what `?` makes, and the derive of it has none.
impl From<Beyond> for Stop {
    ghost from_gives = { λ b r. r ≡ EntryBeyond b };

    fn from(refusal: Beyond) -> Stop {
        Stop::EntryBeyond(refusal)
    }
}

/// The fault of a walk.
#[derive(Clone, Copy, PartialEq, Eq, Debug, Error)]
pub enum WalkFault {
    #[error("6: the root is too wide for a frame's number")]
    RootTooWide(TooWide),
    #[error("31: the address is not canonical")]
    NotCanonical(Kind),
    // The level by its number, as the walk's definition has it.
    /// The walk stopped at this entry of this level.
    #[error("{stop}, at level {level}, entry {entry}")]
    Stopped {
        stop: Stop,
        kind: Kind,
        level: u8,
        entry: u64,
    },
}

// By hand, as above.
impl From<TooWide> for WalkFault {
    ghost from_gives = { λ t r. r ≡ RootTooWide t };

    fn from(t: TooWide) -> WalkFault {
        WalkFault::RootTooWide(t)
    }
}

// Numbers, as the rules and the standard list them.
/// What a fault tells: its number, the standard's code, the level and entry it stopped at, and the memory's refusal.
#[derive(Clone, Copy, PartialEq, Eq, Debug, Default)]
pub struct Report {
    pub number: u8,
    pub code: Option<u8>,
    pub level: Option<u8>,
    pub entry: Option<u64>,
    pub beyond: Option<Beyond>,
}

impl Stop {
    /// The number of this stop.
    pub fn number(self) -> u8
        ensures { result ≡ stop_number self }
    {
        match self {
            Stop::Invalid => 32,
            Stop::WriteOnly => 33,
            Stop::PointerAtZero => 34,
            Stop::Rights => 35,
            Stop::Misaligned => 36,
            Stop::Marks => 37,
            Stop::EntryBeyond(_) => 38,
            Stop::FrameBeyond(_) => 39,
        }
    }
}

impl WalkFault {
    /// Everything that this fault tells.
    pub fn report(self) -> Report
        ensures { result ≡ reported self }
    {
        match self {
            WalkFault::RootTooWide(_) => Report {
                number: 6,
                ..Report::default()
            },
            WalkFault::NotCanonical(kind) => Report {
                number: 31,
                code: Some(kind.page_fault()),
                ..Report::default()
            },
            WalkFault::Stopped {
                stop,
                kind,
                level,
                entry,
            } => {
                let (code, beyond) = match stop {
                    Stop::EntryBeyond(b) | Stop::FrameBeyond(b) => (kind.access_fault(), Some(b)),
                    _ => (kind.page_fault(), None),
                };
                Report {
                    number: stop.number(),
                    code: Some(code),
                    level: Some(level),
                    entry: Some(entry),
                    beyond,
                }
            }
        }
    }
}
