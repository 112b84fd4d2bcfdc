// Following tables from a root to a page's leaf.
ghost use Rattle.std.specs.Prelude.{◌≡◌};
ghost use Rattle.std.specs.Option.{option_map};
ghost use Rattle.sv39.specs.Frames.{number};
ghost use Rattle.sv39.specs.Levels.{number_of};
ghost use Rattle.tables.specs.Tables.{table_of, table_below_of, low_table_of, leaf_of, missing};

use crate::words::word_at;
use memory::Memory;
use sv39::{Entry, Frame, Level, entry_of};

/// A page's leaf and the doubleword number where it stands.
pub type Leaf = (u64, Entry);

/// The tables below a root: each lies in one of the memory's first `limit` frames.
#[derive(Clone, Copy)]
pub struct Tables<'a, M> {
    pub memory: &'a M,
    pub limit: usize,
    pub root: Frame,
}

/// The table that an entry leads on to: one of the first `limit` frames.
fn table_of(entry: Entry, limit: usize) -> Option<Frame>
    ensures { option_map number result ≡ table_of limit entry }
{
    let flags = entry.flags;
    if flags.v && !flags.r && !flags.w && !flags.x && entry.ppn < limit as u64 {
        Some(Frame { number: entry.ppn })
    } else {
        None
    }
}

/// The table that an address's entry in a table leads on to.
pub fn table_below<M: Memory>(
    memory: &M,
    limit: usize,
    table: Frame,
    address: u64,
    level: Level,
) -> Option<Frame>
    ensures { option_map number result ≡ table_below_of (M.Memory.cells memory.now) limit table.number address (number_of level) }
{
    let entry = entry_of(table, address, level);
    table_of(Entry::unpack(word_at(memory, entry)), limit)
}

impl<'a, M: Memory> Tables<'a, M> {
    /// The table of level 0 for an address.
    fn low_table(&self, address: u64) -> Option<Frame>
        ensures { option_map number result ≡ low_table_of (M.Memory.cells self.now.memory.now) self.now.limit self.now.root.number address }
    {
        let mid = table_below(self.memory, self.limit, self.root, address, Level::Two)?;
        table_below(self.memory, self.limit, mid, address, Level::One)
    }

    /// The leaf of an address's page, where the page is mapped.
    pub fn leaf(&self, address: u64) -> Option<Leaf>
        ensures { result ≡ leaf_of (M.Memory.cells self.now.memory.now) self.now.limit self.now.root.number address }
    {
        let low = self.low_table(address)?;
        let place = entry_of(low, address, Level::Zero);
        let entry = Entry::unpack(word_at(self.memory, place));
        entry.flags.v.then_some((place, entry))
    }

    /// How many tables are missing on the way to an address's page.
    pub fn missing(&self, address: u64) -> usize
        ensures { result ≡ missing (M.Memory.cells self.now.memory.now) self.now.limit self.now.root.number address }
    {
        let Some(mid) = table_below(self.memory, self.limit, self.root, address, Level::Two) else {
            return 2;
        };
        let low = table_below(self.memory, self.limit, mid, address, Level::One);
        usize::from(low.is_none())
    }
}
