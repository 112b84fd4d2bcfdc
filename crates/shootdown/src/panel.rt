// A panel's page tables: a root, one table of level 1 and one of level 0, and a few pages.
use memory::Memory;
use std::fmt;
use sv39::{Entry, Flags, Frame, Level, Rights, entry_of};

/// Which of the two displays it draws.
#[derive(Clone, Copy)]
pub enum Name {
    Near,
    Far,
}

impl fmt::Display for Name {
    fn fmt<W: fmt::Write>(&self, f: &mut fmt::Formatter<W>) -> fmt::Result {
        f.write_str(match *self {
            Name::Near => "near",
            Name::Far => "far",
        })
    }
}

#[derive(Clone, Copy)]
pub struct Panel {
    pub name: Name,
    pub root: Frame,
    pub middle: Frame,
    pub lowest: Frame,
}

fn rights(r: bool, w: bool, x: bool, u: bool) -> Rights {
    Rights { r, w, x, u }
}

/// Writes an address's entry into the table of a frame.
fn put<M: Memory>(
    memory: &mut M,
    table: Frame,
    address: u64,
    level: Level,
    entry: Entry,
) -> anyhow::Result<()> {
    memory.write(entry_of(table, address, level), entry.pack())?;
    Ok(())
}

impl Panel {
    /// Builds the tables, with three frames from `frame` on for the panel's pages.
    pub fn build<M: Memory>(&self, memory: &mut M, frame: u64) -> anyhow::Result<()> {
        let middle = Entry::pointer(self.middle.number)?;
        put(memory, self.root, 0, Level::Two, middle)?;
        let lowest = Entry::pointer(self.lowest.number)?;
        put(memory, self.middle, 0, Level::One, lowest)?;
        let large = Entry::leaf(0x200, rights(true, true, false, true))?;
        put(memory, self.middle, 0x20_0000, Level::One, large)?;
        let strip = Entry::leaf(frame, rights(true, true, false, true))?;
        self.put_page(memory, 0x1000, strip)?;
        let code = Entry::leaf(frame.saturating_add(1), rights(false, false, true, true))?;
        self.put_page(memory, 0x2000, code)?;
        let own = Entry::leaf(frame.saturating_add(2), rights(true, true, false, false))?;
        self.put_page(memory, 0x3000, own)?;
        let fresh = Flags {
            a: false,
            ..own.flags
        };
        self.put_page(memory, 0x4000, own.with_flags(fresh))
    }

    /// Puts a leaf for a page into the table of level 0.
    fn put_page<M: Memory>(&self, memory: &mut M, page: u64, leaf: Entry) -> anyhow::Result<()> {
        put(memory, self.lowest, page, Level::Zero, leaf)
    }
}
