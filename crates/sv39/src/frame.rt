// Frames by their numbers.
ghost use Rattle.std.specs.Prelude.{◌≡◌, ◌^◌, ◌<◌, ◌≤◌, MatchResult};

use crate::TooWide;

/// A frame's number, which fits the 44 bits of an entry's PPN.
#[derive(Clone, Copy, PartialEq, Eq, Debug)]
pub struct Frame {
    pub number: u64,
    ghost narrow: { number < 2 ^ 44 },
}

impl Frame {
    /// The frame of a number; refused if it is too wide.
    pub fn new(number: u64) -> Result<Frame, TooWide>
        ensures { MatchResult result (λ frame. (frame.number ≡ number) × (number < 2 ^ 44)) (λ _. 2 ^ 44 ≤ number) }
    {
        if number < 1 << 44 {
            Ok(Frame { number })
        } else {
            Err(TooWide)
        }
    }
}

impl From<u16> for Frame {
    ghost from_gives = { λ number frame. frame.number ≡ number };

    fn from(number: u16) -> Frame {
        Frame {
            number: u64::from(number),
        }
    }
}
