// Addresses: when one is canonical, its indexes, its entries and its page.
ghost use Rattle.std.specs.Prelude.{◌≡◌, ◌<◌, ◌≤◌, [], ◌∷◌};
ghost use Rattle.sv39.specs.Address.{canonical, index, page, entry_of, doubleword_of};
ghost use Rattle.sv39.specs.Levels.{number_of};

use crate::Frame;

/// A level of the tables: a root is at level 2, and a page's own leaf at level 0.
#[derive(Clone, Copy, PartialEq, Eq, Debug)]
pub enum Level {
    Zero,
    One,
    Two,
}

impl Level {
    /// The level as its number.
    pub fn number(self) -> u8
        ensures value { result ≡ number_of self }
        ensures bound { result ≤ 2 }
    {
        self as u8
    }
}

/// Whether bits 39 to 63 all equal bit 38.
pub fn is_canonical(address: u64) -> bool
    ensures { result ≡ canonical address }
{
    let high = address >> 38;
    high == 0 || high == 0x3ff_ffff
}

/// The index of an address into a table of a level.
pub fn index_at(address: u64, level: Level) -> u64
    ensures value { result ≡ index address (number_of level) }
    ensures bound { result < 512 }
{
    (address >> (12 + 9 * level.number())) % 512
}

/// The doubleword number of an address's entry in the table of a frame.
pub fn entry_of(table: Frame, address: u64, level: Level) -> u64
    ensures { result ≡ entry_of table.number address (number_of level) }
{
    512 * table.number + index_at(address, level)
}

/// The doubleword number that an address names in a frame.
pub fn doubleword_of(frame: Frame, address: u64) -> u64
    ensures { result ≡ doubleword_of frame.number address }
{
    512 * frame.number + address / 8 % 512
}

/// The indexes of an address at levels 0, 1 and 2, in this order.
pub fn indexes(address: u64) -> [u64; 3]
    ensures { result ≡ index address 0 ∷ index address 1 ∷ index address 2 ∷ [] }
{
    [
        index_at(address, Level::Zero),
        index_at(address, Level::One),
        index_at(address, Level::Two),
    ]
}

/// The address without its low 12 bits.
pub fn page_of(address: u64) -> u64
    ensures { result ≡ page address }
{
    address / 4096 * 4096
}
