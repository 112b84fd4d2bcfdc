// The open debts and the next number.
ghost use Rattle.std.specs.Prelude.{◌≡◌, ◌^◌, ◌≤◌, length};

use crate::debt::Debt;

// Fixed slots, as no call may allocate; and no model, as its value is its two fields.
/// At most 64 open debts, each in a slot of its own; the numbers below `next` were given to debts, no number twice.
#[derive(Clone, Copy)]
pub struct Ledger {
    pub slots: [Option<Debt>; 64],
    pub next: u64,
    ghost full: { length slots ≡ 64 },
    ghost counted: { next ≤ 2 ^ 32 },
}
