// The walk of Sv39 page tables over any memory, its faults and its laws.
#![tactic(auto)]

mod fault;
mod laws;
mod walking;

pub use fault::{Report, Stop, WalkFault};
pub use laws::walk_laws;
pub use walking::{Translation, walk};
