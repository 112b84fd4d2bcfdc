// Debts: what is still owed to the harts after a mapping was taken away, until each has fenced its page.
#![tactic(auto)]

mod debt;
mod ledger;
mod listing;
mod settling;
mod tally;

pub use debt::Debt;
pub use ledger::Ledger;
pub use settling::Unsettled;
