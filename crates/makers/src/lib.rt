// What a maker's own code knows of a machine that it holds. These functions are there to be proved: a change of the
// machine that hides what they rest on is refused here.
#![tactic(auto)]

mod board;
mod knowing;

pub use board::Board;
pub use knowing::{hart_count, last_call, next_step};
