// Memories: a list of doublewords behind one trait, and three ends of it.
#![tactic(auto)]

mod beyond;
mod blocks;
mod interleaved;
mod words;

pub use beyond::{Beyond, Memory};
pub use blocks::{Blocks, Damage};
pub use interleaved::Interleaved;
pub use words::Words;
