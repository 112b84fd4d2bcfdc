// Frames by their numbers and their uses.
ghost use Rattle.std.specs.Prelude.{◌≡◌, if◌then◌else◌, Some, None, nat_lt, slice_index_or};
ghost use Rattle.frames.specs.declared.state.FrameState.TheVariants.{Free};
ghost use Rattle.frames.specs.Busy.{state_of_use};
ghost use Rattle.frames.specs.Frames.{frames_of, is_in, turned, freed, is_busy, released, changed};

use crate::pool::Pool;
use crate::state::{FrameState, Use};

impl Pool {
    /// The state of a frame, if it is one of the pool's.
    pub fn state_of(&self, frame: u64) -> Option<FrameState>
        ensures { result ≡ (if nat_lt frame (frames_of self.now).limit then Some (slice_index_or (frames_of self.now).states frame Free) else None) }
    {
        self.live().get(frame as usize).copied()
    }

    // No `then_some`: the cast asks for what the test says.
    /// A number as that of a frame of the pool in this state.
    pub fn find(&self, frame: u64, state: FrameState) -> Option<u16>
        ensures { result ≡ (if is_in (frames_of self.now) frame state then Some frame else None) }
    {
        if self.state_of(frame) == Some(state) {
            Some(frame as u16)
        } else {
            None
        }
    }

    /// Puts a frame that is in one use to another, and answers whether it was.
    pub fn turn(&mut self, frame: u64, from: Use, to: Use) -> bool
        ensures answer { result ≡ is_in (frames_of self.old) frame (state_of_use from) }
        ensures after { frames_of self.new ≡ turned (frames_of self.old) frame (state_of_use from) (state_of_use to) }
    {
        let Some(found) = self.find(frame, from.into()) else {
            return false;
        };
        self.change(usize::from(found), to);
        true
    }

    /// Puts a frame that is in a use on the pile, free, and answers whether it was.
    pub fn free(&mut self, frame: u64, from: Use) -> bool
        ensures answer { result ≡ is_in (frames_of self.old) frame (state_of_use from) }
        ensures after { frames_of self.new ≡ freed (frames_of self.old) frame (state_of_use from) }
    {
        let Some(found) = self.find(frame, from.into()) else {
            return false;
        };
        self.release(usize::from(found));
        true
    }

    /// Puts a busy frame to another use; of any other number nothing changes.
    pub fn change(&mut self, frame: usize, into: Use)
        ensures { frames_of self.new ≡ (if is_busy (frames_of self.old) frame then changed (frames_of self.old) frame (state_of_use into) else frames_of self.old) }
    {
        if self.is_busy(frame) {
            self.states[frame] = into.into();
        }
    }

    /// Puts a busy frame on the pile, free; of any other number nothing changes.
    pub fn release(&mut self, frame: usize)
        ensures { frames_of self.new ≡ (if is_busy (frames_of self.old) frame then released (frames_of self.old) frame else frames_of self.old) }
    {
        if !self.is_busy(frame) {
            return;
        }
        self.states[frame] = FrameState::Free;
        // A busy frame is one of 1,024, so the cast loses nothing.
        self.pile.push(frame as u16);
    }

    /// Whether a number is that of a busy frame.
    fn is_busy(&self, frame: usize) -> bool
        ensures { result ≡ is_busy (frames_of self.now) frame }
    {
        self.states
            .get(frame)
            .is_some_and(|state| *state != FrameState::Free)
    }
}
