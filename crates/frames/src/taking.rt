// Making a pool, and taking frames.
ghost use Rattle.std.specs.Prelude.{◌≡◌, min};
ghost use Rattle.frames.specs.Busy.{state_of_use};
ghost use Rattle.frames.specs.Frames.{frames_of, available, next, taken};
ghost use Rattle.frames.specs.Frames as value;

use crate::pile::Pile;
use crate::pool::Pool;
use crate::state::{FrameState, Use};

impl Pool {
    /// All frames free and unused; at most 1,024 count.
    pub fn new(frames: usize) -> Pool
        ensures { frames_of result ≡ value.fresh (min frames 1024) }
    {
        Pool {
            states: [FrameState::Free; 1024],
            pile: Pile::empty(),
            mark: 0,
            limit: frames.min(1024) as u16,
        }
    }

    /// How many frames can be taken.
    pub fn available(&self) -> usize
        ensures { result ≡ available (frames_of self.now) }
    {
        self.pile.height + usize::from(self.limit - self.mark)
    }

    /// Takes the next frame: the top of the pile, else the lowest never used.
    pub fn take(&mut self, to: Use) -> Option<u16>
        ensures frame { result ≡ next (frames_of self.old) }
        ensures after { frames_of self.new ≡ taken (frames_of self.old) (state_of_use to) }
    {
        let Some(frame) = self.pile.pop() else {
            return self.take_unused(to);
        };
        self.states[usize::from(frame)] = to.into();
        Some(frame)
    }

    /// Takes the lowest frame never used, where the pile is empty.
    fn take_unused(&mut self, to: Use) -> Option<u16>
        requires { self.old.pile.height ≡ 0 }
        ensures frame { result ≡ next (frames_of self.old) }
        ensures after { frames_of self.new ≡ taken (frames_of self.old) (state_of_use to) }
    {
        if self.mark >= self.limit {
            return None;
        }
        let unused = self.mark;
        self.mark = unused + 1;
        self.states[usize::from(unused)] = to.into();
        Some(unused)
    }
}
