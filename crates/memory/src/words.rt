// A memory over doublewords that the caller lends.
ghost use Rattle.memory.specs.Cells.{write_of, after};
ghost use Rattle.std.specs.Prelude.{◌≡◌};

use crate::beyond::inside;
use crate::{Beyond, Memory};

#[derive(Drop)]
pub struct Words<'a> {
    words: &'a mut [u64],
}

impl<'a> Words<'a> {
    pub fn new(words: &'a mut [u64]) -> Words<'a>
        ensures list { result.words.now ≡ words.old }
        ensures lender { result.words.ghost_name ≡ words.entry.ghost_name }
    {
        Words { words }
    }
}

impl<'a> Memory for Words<'a> {
    ghost cells = { λ s. s.words.now };

    fn size(&self) -> u64 {
        self.words.len() as u64
    }

    fn read(&self, n: u64) -> Result<u64, Beyond> {
        self.words
            .get(n as usize)
            .copied()
            .ok_or(Beyond { place: n })
    }

    fn write(&mut self, n: u64, value: u64) -> Result<(), Beyond>
        ensures answer { result ≡ write_of self.old.words.now n }
        ensures list { self.new.words.now ≡ after self.old.words.now n value }
        ensures lender { self.new.words.ghost_name ≡ self.old.words.ghost_name }
    {
        // No `get_mut`: of a slice it leaves nothing known of the other words.
        inside(n, self.size())?;
        self.words[n as usize] = value;
        Ok(())
    }
}
