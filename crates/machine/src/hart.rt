// The plain part of a machine: everything but its memory and its policy.
ghost use Rattle.std.specs.Prelude.{◌≡◌, ◌≤◌, length};

use debts::Ledger;
use frames::Pool;
use tlb::Rows;

/// What a hart is set to: the space that it is in, SUM and MXR.
#[derive(Clone, Copy, PartialEq, Eq, Debug)]
pub struct Hart {
    pub space: Option<usize>,
    pub sum: bool,
    pub mxr: bool,
}

// Rows stand apart from what harts are set to, as in the state's value: no call writes both.
/// The frames, the root table of each space, the debts, and of each hart what it is set to and its ways. The first
/// `count` harts were made.
#[derive(Clone, Copy)]
pub struct Core {
    pub pool: Pool,
    pub roots: [Option<u16>; 8],
    pub debts: Ledger,
    pub harts: [Hart; 8],
    pub rows: Rows,
    pub count: usize,
    ghost full: { (length roots ≡ 8) × (length harts ≡ 8) },
    ghost made: { (1 ≤ count) × (count ≤ 8) },
}
