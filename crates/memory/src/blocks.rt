// A memory over lent bytes in blocks of 512: 63 doublewords and a check, little-endian.
ghost use Rattle.std.specs.Prelude.{◌≡◌, ℕ, ◌+◌, ◌*◌, ◌/◌, ◌%◌, ◌^◌, ◌<◌, ◌≤◌, true, length, drop, Ok};
ghost use Rattle.memory.specs.Cells.{write_of, after};
ghost use Rattle.memory.specs.Block.{word_at, bytes_of, put, check_for, byte_of, located, cells_of, blocks_in, written, look_over, damage_number, stored, sound};

use crate::beyond::inside;
use crate::{Beyond, Memory};
use thiserror::Error;

/// Bytes of a block.
const BLOCK: usize = 512;
/// Doublewords of a block, its check not counted; the check stands at this place.
const PLACES: u64 = 63;

/// What the look-over found.
#[derive(Clone, Copy, PartialEq, Eq, Debug, Error)]
pub enum Damage {
    /// There are no bytes, or their count is no multiple of 512.
    #[error("2: {bytes} bytes are no whole blocks of 512")]
    NotWhole { bytes: u64 },
    /// The check of this block, the lowest such, is wrong.
    #[error("3: the check of block {block} is wrong")]
    WrongCheck { block: u64 },
}

impl Damage {
    /// The number of this refusal.
    pub fn number(self) -> u8
        ensures { result ≡ damage_number self }
    {
        match self {
            Damage::NotWhole { bytes: _ } => 2,
            Damage::WrongCheck { block: _ } => 3,
        }
    }
}

/// Doubleword `n` as its block and its place in that block.
fn locate(n: u64) -> (u64, u64)
    ensures block { result.0 ≡ (located n).0 }
    ensures place { result.1 ≡ (located n).1 }
{
    (n / PLACES, n % PLACES)
}

/// The byte where a place of a block begins.
fn byte_of(block: u64, place: u64) -> usize
    requires { byte_of block place < 2 ^ 64 }
    ensures { result ≡ byte_of block place }
{
    block as usize * BLOCK + place as usize * 8
}

/// The doubleword that begins at byte `at`.
fn word(bytes: &[u8], at: usize) -> u64
    requires { at + 8 ≤ length bytes.now }
    ensures { result ≡ word_at bytes.now at }
{
    u64::from_le_bytes(bytes[at..at + 8].try_into().unwrap())
}

/// Writes `value` at the eight bytes from `at` on.
fn put_word(bytes: &mut [u8], at: usize, value: u64)
    requires { at + 8 ≤ length bytes.old }
    ensures { bytes.new ≡ put bytes.old at (bytes_of value) }
{
    bytes[at..at + 8].copy_from_slice(&value.to_le_bytes());
}

/// The check that a block's 63 doublewords ask for.
fn check_of(bytes: &[u8], block: u64) -> u64
    requires { 512 * block + 512 ≤ length bytes.now }
    ensures { result ≡ check_for bytes.now block }
{
    let places = &bytes[byte_of(block, 0)..byte_of(block, PLACES)];
    let (words, _) = places.as_chunks::<8>();
    words.iter().fold(
        block + 1,
        |check, word| check.rotate_left(5) ^ u64::from_le_bytes(*word),
    )
}

/// Whether the check that stands in a block is the one that its doublewords ask for.
fn is_sound(bytes: &[u8], block: u64) -> bool
    requires { 512 * block + 512 ≤ length bytes.now }
    ensures { result ≡ sound bytes.now block }
{
    word(bytes, byte_of(block, PLACES)) == check_of(bytes, block)
}

/// Writes doubleword `n` and renews its block's check.
fn store(bytes: &mut [u8], n: u64, value: u64)
    requires { n < blocks_in bytes.old * 63 }
    ensures after { bytes.new ≡ stored bytes.old n value }
    ensures sound { (a : ℕ) → sound bytes.old a ≡ true → sound bytes.new a ≡ true }
{
    let (block, place) = locate(n);
    put_word(bytes, byte_of(block, place), value);
    let check = check_of(bytes, block);
    put_word(bytes, byte_of(block, PLACES), check);
}

/// The first thing that is wrong with the bytes.
fn first_damage(bytes: &[u8]) -> Result<(), Damage>
    ensures { result ≡ look_over bytes.now }
{
    let len = bytes.len();
    if len == 0 || len % BLOCK != 0 {
        return Err(Damage::NotWhole { bytes: len as u64 });
    }
    match (0..(len / BLOCK) as u64).find(|block| !is_sound(bytes, *block)) {
        Some(block) => Err(Damage::WrongCheck { block }),
        None => Ok(()),
    }
}

#[derive(Drop)]
pub struct Blocks<'a> {
    bytes: &'a mut [u8],
}

impl<'a> Blocks<'a> {
    pub fn new(bytes: &'a mut [u8]) -> Blocks<'a>
        ensures bytes { result.bytes.now ≡ bytes.old }
        ensures lender { result.bytes.ghost_name ≡ bytes.entry.ghost_name }
    {
        Blocks { bytes }
    }

    /// Looks at every check, and answers the first thing that is wrong.
    pub fn look_over(&self) -> Result<(), Damage>
        ensures { result ≡ look_over self.now.bytes.now }
    {
        first_damage(self.bytes)
    }
}

impl<'a> Memory for Blocks<'a> {
    ghost cells = { λ s. cells_of s.bytes.now };

    fn size(&self) -> u64 {
        (self.bytes.len() / BLOCK) as u64 * PLACES
    }

    fn read(&self, n: u64) -> Result<u64, Beyond> {
        inside(n, self.size())?;
        let (block, place) = locate(n);
        Ok(word(self.bytes, byte_of(block, place)))
    }

    fn write(&mut self, n: u64, value: u64) -> Result<(), Beyond>
        ensures answer { result ≡ write_of (cells_of self.old.bytes.now) n }
        ensures list { cells_of self.new.bytes.now ≡ after (cells_of self.old.bytes.now) n value }
        ensures bytes { self.new.bytes.now ≡ written self.old.bytes.now n value }
        ensures tail { drop (512 * blocks_in self.old.bytes.now) self.new.bytes.now ≡ drop (512 * blocks_in self.old.bytes.now) self.old.bytes.now }
        ensures clean { look_over self.old.bytes.now ≡ Ok tt → look_over self.new.bytes.now ≡ Ok tt }
        ensures lender { self.new.bytes.ghost_name ≡ self.old.bytes.ghost_name }
    {
        inside(n, self.size())?;
        store(self.bytes, n, value);
        Ok(())
    }
}
