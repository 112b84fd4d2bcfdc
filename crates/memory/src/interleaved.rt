// A memory over any two memories: even doublewords from the first, odd ones from the second.
ghost use Rattle.std.specs.Prelude.{◌≡◌};
ghost use Rattle.memory.specs.Cells.{write_of, after};
ghost use Rattle.memory.specs.Interleave.{woven, first_after, second_after};

use crate::beyond::inside;
use crate::{Beyond, Memory};

/// The largest part of a side that counts, so that the size of both fits 64 bits.
const SIDE: u64 = 0x4000_0000_0000_0000;

#[derive(Drop)]
pub struct Interleaved<A, B> {
    first: A,
    second: B,
}

impl<A: Memory, B: Memory> Interleaved<A, B> {
    pub fn new(first: A, second: B) -> Interleaved<A, B>
        ensures first { result.first ≡ first }
        ensures second { result.second ≡ second }
    {
        Interleaved { first, second }
    }

    /// Both sides, as they are now.
    pub fn into_sides(self) -> (A, B)
        ensures first { result.0 ≡ self.first }
        ensures second { result.1 ≡ self.second }
    {
        let Interleaved { first, second } = self;
        (first, second)
    }
}

// The sides are of two types, and a read and a write lend them differently, so each chooses its side.
impl<A: Memory, B: Memory> Memory for Interleaved<A, B> {
    ghost cells = { λ s. woven (A.Memory.cells s.first) (B.Memory.cells s.second) };

    fn size(&self) -> u64 {
        2 * self.first.size().min(self.second.size()).min(SIDE)
    }

    fn read(&self, n: u64) -> Result<u64, Beyond> {
        inside(n, self.size())?;
        if n % 2 == 0 {
            self.first.read(n / 2)
        } else {
            self.second.read(n / 2)
        }
    }

    fn write(&mut self, n: u64, value: u64) -> Result<(), Beyond>
        ensures answer { result ≡ write_of (woven (A.Memory.cells self.old.first) (B.Memory.cells self.old.second)) n }
        ensures list { woven (A.Memory.cells self.new.first) (B.Memory.cells self.new.second) ≡ after (woven (A.Memory.cells self.old.first) (B.Memory.cells self.old.second)) n value }
        ensures first { A.Memory.cells self.new.first ≡ first_after (A.Memory.cells self.old.first) (B.Memory.cells self.old.second) n value }
        ensures second { B.Memory.cells self.new.second ≡ second_after (A.Memory.cells self.old.first) (B.Memory.cells self.old.second) n value }
    {
        inside(n, self.size())?;
        if n % 2 == 0 {
            self.first.write(n / 2, value)
        } else {
            self.second.write(n / 2, value)
        }
    }
}
