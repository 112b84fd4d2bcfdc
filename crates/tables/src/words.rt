// Doublewords of a memory that are known to be there: what lies beyond it reads as 0 and is not written.
ghost use Rattle.std.specs.Prelude.{◌≡◌, slice_index, slice_set};
ghost use Rattle.tables.specs.Tables.{cleared};

use memory::Memory;

/// Doubleword n, or 0 where there is none.
pub fn word_at<M: Memory>(memory: &M, n: u64) -> u64
    ensures { result ≡ slice_index (M.Memory.cells memory.now) n }
{
    memory.read(n).unwrap_or(0)
}

/// Puts a value at doubleword n, if it is there.
pub fn put_word<M: Memory>(memory: &mut M, n: u64, value: u64)
    ensures { M.Memory.cells memory.new ≡ slice_set (M.Memory.cells memory.old) n value }
{
    let _ = memory.write(n, value);
}

/// Fills a frame with zeros.
pub fn clear_frame<M: Memory>(memory: &mut M, frame: u16)
    ensures { M.Memory.cells memory.new ≡ cleared (M.Memory.cells memory.old) frame }
{
    let first = 512 * frame as u64;
    for n in 0..512 {
        put_word(memory, first + n, 0);
    }
}
