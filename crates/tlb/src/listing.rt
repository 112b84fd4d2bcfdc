// Pages and rows as makers read them.
use crate::page::PageId;
use crate::row::Row;
use crate::way::Way;
use std::fmt;
use sv39::Rights;

/// A letter, or `-` where it is missing.
fn letter(held: bool, letter: char) -> char {
    if held { letter } else { '-' }
}

impl fmt::Display for PageId {
    fn fmt<W: fmt::Write>(&self, f: &mut fmt::Formatter<W>) -> fmt::Result {
        let PageId { space, page } = *self;
        write!(f, "space {space}, page {page:#x}")
    }
}

impl fmt::Display for Way {
    fn fmt<W: fmt::Write>(&self, f: &mut fmt::Formatter<W>) -> fmt::Result {
        let Way {
            of,
            frame,
            rights: Rights { r, w, x, u },
            a,
            d,
        } = *self;
        let r = letter(r, 'r');
        let w = letter(w, 'w');
        let x = letter(x, 'x');
        let u = letter(u, 'u');
        let a = letter(a, 'a');
        let d = letter(d, 'd');
        write!(f, "{of}, frame {frame}, {r}{w}{x}{u} {a} {d}")
    }
}

// A line for each held way, with its number.
impl fmt::Display for Row {
    fn fmt<W: fmt::Write>(&self, f: &mut fmt::Formatter<W>) -> fmt::Result {
        let mut any = false;
        for (i, way) in self.ways.iter().enumerate() {
            if let Some(held) = way {
                if any {
                    f.write_str("\n")?;
                }
                write!(f, "way {i}: {held}")?;
                any = true;
            }
        }
        if any { Ok(()) } else { f.write_str("empty") }
    }
}
