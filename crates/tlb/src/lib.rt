// A hart's TLB: a row of sixteen ways.
#![tactic(auto)]

mod by_hart;
mod hart;
mod listing;
mod page;
mod reading;
mod row;
mod rows;
mod serving;
mod slots;
mod trying;
mod way;

pub use hart::HartId;
pub use page::{PageId, Scope};
pub use row::Row;
pub use rows::Rows;
pub use slots::lowest_empty;
pub use way::Way;
