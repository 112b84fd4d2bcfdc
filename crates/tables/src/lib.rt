// Page tables in a memory: finding a page's leaf, and growing the tables that lead to it.
#![tactic(auto)]

mod finding;
mod growing;
mod words;

pub use finding::{Leaf, Tables};
pub use growing::{Grown, grow, put_leaf};
pub use words::{clear_frame, put_word, word_at};
