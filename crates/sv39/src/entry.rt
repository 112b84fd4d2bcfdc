// A table entry as a record of its fields, each within its width.
ghost use Rattle.std.specs.Prelude.{◌^◌, ◌<◌};

use thiserror::Error;

/// The eight flag bits of an entry, from bit 0 up: valid, readable, writable, executable, user, global, accessed, dirty.
#[derive(Clone, Copy, PartialEq, Eq, Debug, Default)]
pub struct Flags {
    pub v: bool,
    pub r: bool,
    pub w: bool,
    pub x: bool,
    pub u: bool,
    pub g: bool,
    pub a: bool,
    pub d: bool,
}

/// A table entry: bits 0 to 7 are the flags, 8 and 9 RSW, 10 to 53 the PPN, 54 to 63 the top bits.
#[derive(Clone, Copy, PartialEq, Eq, Debug)]
pub struct Entry {
    pub flags: Flags,
    pub rsw: u8,
    pub ppn: u64,
    pub top: u16,
    ghost narrow: { (rsw < 2 ^ 2) × (ppn < 2 ^ 44) × (top < 2 ^ 10) },
}

/// What a page may be used for: read, write, execute, and by user mode.
#[derive(Clone, Copy, PartialEq, Eq, Debug)]
pub struct Rights {
    pub r: bool,
    pub w: bool,
    pub x: bool,
    pub u: bool,
}

/// The refusal of a number that is too wide for its field.
#[derive(Clone, Copy, PartialEq, Eq, Debug, Error)]
#[error("6: a field is too wide")]
pub struct TooWide;
