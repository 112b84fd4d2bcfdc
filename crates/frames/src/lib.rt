// The frame pool: every frame's state, the pile of released frames, and the mark below which frames were used.
#![tactic(auto)]

mod numbered;
mod pile;
mod pool;
mod state;
mod taking;
mod tally;

pub use pool::Pool;
pub use state::{FrameState, Use};
