// Counting frames by their state.
ghost use Rattle.std.specs.Prelude.{◌≡◌};
ghost use Rattle.frames.specs.Frames.{frames_of, count_in};

use crate::pool::Pool;
use crate::state::FrameState;

impl Pool {
    /// How many of the pool's frames are in a state.
    pub fn count(&self, state: FrameState) -> usize
        ensures { result ≡ count_in (frames_of self.now) state }
    {
        // Summed and not filtered: a filter branches by the data, and takes twice the time.
        self.live().iter().map(|s| usize::from(*s == state)).sum()
    }
}
