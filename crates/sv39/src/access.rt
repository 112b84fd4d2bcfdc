// An access as the walk is asked for it, and the two rules that a leaf's flags are held to.
ghost use Rattle.std.specs.Prelude.{◌≡◌};
ghost use Rattle.sv39.specs.Rules.{permits, marked, page_fault, access_fault, misaligned_fault};

use crate::Flags;
use std::fmt;

/// What an access does.
#[derive(Clone, Copy, PartialEq, Eq, Debug)]
pub enum Kind {
    Fetch,
    Load,
    Store,
}

/// The mode that it is made in.
#[derive(Clone, Copy, PartialEq, Eq, Debug)]
pub enum Mode {
    User,
    Supervisor,
}

/// An access: its address, kind and mode, and the hart's SUM and MXR.
#[derive(Clone, Copy, PartialEq, Eq, Debug)]
pub struct Access {
    pub address: u64,
    pub kind: Kind,
    pub mode: Mode,
    pub sum: bool,
    pub mxr: bool,
}

impl fmt::Display for Kind {
    fn fmt<W: fmt::Write>(&self, f: &mut fmt::Formatter<W>) -> fmt::Result {
        f.write_str(match *self {
            Kind::Fetch => "fetch",
            Kind::Load => "load",
            Kind::Store => "store",
        })
    }
}

impl fmt::Display for Mode {
    fn fmt<W: fmt::Write>(&self, f: &mut fmt::Formatter<W>) -> fmt::Result {
        f.write_str(match *self {
            Mode::User => "user",
            Mode::Supervisor => "supervisor",
        })
    }
}

// Three lists, as in the standard: one match over both kinds of case would say the same nine numbers.
impl Kind {
    /// The standard's code of a page fault.
    pub fn page_fault(self) -> u8
        ensures { result ≡ page_fault self }
    {
        match self {
            Kind::Fetch => 12,
            Kind::Load => 13,
            Kind::Store => 15,
        }
    }

    /// The standard's code of an access fault.
    pub fn access_fault(self) -> u8
        ensures { result ≡ access_fault self }
    {
        match self {
            Kind::Fetch => 1,
            Kind::Load => 5,
            Kind::Store => 7,
        }
    }

    /// The standard's code of a misaligned address.
    pub fn misaligned_fault(self) -> u8
        ensures { result ≡ misaligned_fault self }
    {
        match self {
            Kind::Fetch => 0,
            Kind::Load => 4,
            Kind::Store => 6,
        }
    }
}

impl Access {
    /// Whether a leaf with these flags has the rights that this access needs.
    pub fn is_permitted(&self, flags: Flags) -> bool
        ensures { result ≡ permits flags self.now }
    {
        let granted = match self.kind {
            Kind::Fetch => flags.x,
            Kind::Load => flags.r || flags.x && self.mxr,
            Kind::Store => flags.w,
        };
        let reached = match (self.mode, self.kind) {
            (Mode::User, _) => flags.u,
            (Mode::Supervisor, Kind::Fetch) => !flags.u,
            (Mode::Supervisor, _) => !flags.u || self.sum,
        };
        granted && reached
    }

    /// Whether a leaf with these flags has A set, and D for a store.
    pub fn is_marked(&self, flags: Flags) -> bool
        ensures { result ≡ marked flags self.now.kind }
    {
        match self.kind {
            Kind::Store => flags.a && flags.d,
            _ => flags.a,
        }
    }
}
