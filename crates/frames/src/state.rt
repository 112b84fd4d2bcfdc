// What a frame is used for.
ghost use Rattle.std.specs.Prelude.{◌≡◌};
ghost use Rattle.frames.specs.Busy.{state_of_use};

use std::fmt;

// Five cases, and no `Option<Use>`: makers and definitions name each of them.
/// Free; a page table; held by whoever it was granted to; mapped at a page; or owed, unmapped and not yet released.
#[derive(Clone, Copy, PartialEq, Eq, Debug)]
pub enum FrameState {
    Free,
    Table,
    Held,
    Mapped,
    Owed,
}

/// What a busy frame is used for: each state but free.
#[derive(Clone, Copy, PartialEq, Eq, Debug)]
pub enum Use {
    Table,
    Held,
    Mapped,
    Owed,
}

impl From<Use> for FrameState {
    ghost from_gives = { λ used state. state ≡ state_of_use used };

    fn from(used: Use) -> FrameState {
        match used {
            Use::Table => FrameState::Table,
            Use::Held => FrameState::Held,
            Use::Mapped => FrameState::Mapped,
            Use::Owed => FrameState::Owed,
        }
    }
}

impl fmt::Display for FrameState {
    fn fmt<W: fmt::Write>(&self, f: &mut fmt::Formatter<W>) -> fmt::Result {
        f.write_str(match *self {
            FrameState::Free => "free",
            FrameState::Table => "table",
            FrameState::Held => "held",
            FrameState::Mapped => "mapped",
            FrameState::Owed => "owed",
        })
    }
}
