// Sv39: table entries, addresses, and accesses with the rules that a leaf's flags are held to.
#![tactic(auto)]

mod access;
mod address;
mod entry;
mod frame;
mod packing;

pub use access::{Access, Kind, Mode};
pub use address::{Level, doubleword_of, entry_of, index_at, indexes, is_canonical, page_of};
pub use entry::{Entry, Flags, Rights, TooWide};
pub use frame::Frame;
