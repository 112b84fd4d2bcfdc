// The machine: frames, spaces, tables, harts and debts over a maker's memory and policy.
#![tactic(auto)]

mod access;
mod asking;
mod call;
mod hart;
mod harts;
mod machine;
mod paging;
mod questions;
mod refusal;
mod rights;

pub use access::{Action, By, Reached, Request};
pub use call::{Answer, Call};
pub use hart::{Core, Hart};
pub use machine::{Machine, check};
pub use paging::{Protected, Unmapped};
pub use refusal::{Cause, HartFault, Refusal};
