// Taking the tables that are missing on the way to a page, and writing its leaf.
ghost use Rattle.std.specs.Prelude.{◌≡◌, ◌≤◌};
ghost use Rattle.sv39.specs.Levels.{number_of};
ghost use Rattle.sv39.specs.Making.{pointer_doubleword, leaf_doubleword};
ghost use Rattle.frames.specs.Frames.{frames_of};
ghost use Rattle.tables.specs.Growth.{grown, leaf_put};

use crate::finding::table_below;
use crate::words::{clear_frame, put_word};
use frames::{Pool, Use};
use memory::Memory;
use sv39::{Entry, Frame, Level, Rights, entry_of};

// A count and no flag, as a map adds them up.
/// The table below an entry, and how many tables were taken for it.
#[derive(Clone, Copy)]
pub struct Grown {
    pub table: Frame,
    pub count: u64,
}

fn pointer_word(frame: u16) -> u64
    ensures { result ≡ pointer_doubleword frame }
{
    Entry::pointer(u64::from(frame)).unwrap().pack()
}

fn leaf_word(frame: u16, rights: Rights) -> u64
    ensures { result ≡ leaf_doubleword frame rights }
{
    Entry::leaf(u64::from(frame), rights).unwrap().pack()
}

// Memory and pool come apart, as the machine lends them: it keeps each in a part of its own.
/// The table below an address's entry in a table, taken from the pool where it is missing.
pub fn grow<M: Memory>(
    memory: &mut M,
    pool: &mut Pool,
    table: Frame,
    address: u64,
    level: Level,
) -> Grown
    ensures table { result.table.number ≡ (grown (M.Memory.cells memory.old) (frames_of pool.old) table.number address (number_of level)).table }
    ensures count { result.count ≡ (grown (M.Memory.cells memory.old) (frames_of pool.old) table.number address (number_of level)).count }
    ensures few { result.count ≤ 1 }
    ensures memory { M.Memory.cells memory.new ≡ (grown (M.Memory.cells memory.old) (frames_of pool.old) table.number address (number_of level)).cells }
    ensures pool { frames_of pool.new ≡ (grown (M.Memory.cells memory.old) (frames_of pool.old) table.number address (number_of level)).frames }
{
    if let Some(below) = table_below(memory, usize::from(pool.limit), table, address, level) {
        return Grown {
            table: below,
            count: 0,
        };
    }
    let Some(frame) = pool.take(Use::Table) else {
        return Grown { table, count: 0 };
    };
    clear_frame(memory, frame);
    let entry = entry_of(table, address, level);
    put_word(memory, entry, pointer_word(frame));
    Grown {
        table: Frame::from(frame),
        count: 1,
    }
}

/// Writes a page's leaf into its table of level 0.
pub fn put_leaf<M: Memory>(memory: &mut M, low: Frame, address: u64, frame: u16, rights: Rights)
    ensures { M.Memory.cells memory.new ≡ leaf_put (M.Memory.cells memory.old) low.number address frame rights }
{
    let entry = entry_of(low, address, Level::Zero);
    put_word(memory, entry, leaf_word(frame, rights));
}
