// What a memory is: its trait, and the one refusal that every memory has.
ghost use Rattle.std.specs.Prelude.{◌≡◌, ℕ, ◌<◌, ◌≤◌, List, MatchResult};
ghost use Rattle.memory.specs.Cells.{beyond, size_of, read_of, write_of, after};

use thiserror::Error;

/// The refusal of a read or a write past the end, with the place that was asked for.
#[derive(Clone, Copy, PartialEq, Eq, Debug, Error)]
#[error("1: doubleword {place} is beyond the memory")]
pub struct Beyond {
    pub place: u64,
}

// A refusal's number is a definition of its own type: a trait over all would still have one for each.
impl Beyond {
    /// The number of this refusal.
    pub fn number(self) -> u8
        ensures { result ≡ 1 }
    {
        1
    }
}

/// Refuses a place that is not below the size.
pub(crate) fn inside(place: u64, size: u64) -> Result<(), Beyond>
    ensures { MatchResult result (λ _. place < size) (λ b. (b ≡ beyond place) × (size ≤ place)) }
{
    if place < size {
        Ok(())
    } else {
        Err(Beyond { place })
    }
}

/// A memory means a list of doublewords, `cells`.
pub trait Memory {
    ghost cells: { Self → List ℕ };

    /// How many doublewords there are.
    fn size(&self) -> u64
        ensures { result ≡ size_of (cells self.now) };

    /// Doubleword `n`; refused with the place if there is none.
    fn read(&self, n: u64) -> Result<u64, Beyond>
        ensures { result ≡ read_of (cells self.now) n };

    /// Puts `value` at `n`; refused with the place, and nothing is written, if there is no doubleword `n`.
    fn write(&mut self, n: u64, value: u64) -> Result<(), Beyond>
        ensures answer { result ≡ write_of (cells self.old) n }
        ensures list { cells self.new ≡ after (cells self.old) n value };
}
