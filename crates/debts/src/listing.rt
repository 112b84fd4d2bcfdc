// Debts as makers read them.
use crate::debt::Debt;
use std::fmt;

/// The harts marked on a debt, from the lowest.
#[derive(Clone, Copy)]
struct Marked(Debt);

impl fmt::Display for Marked {
    fn fmt<W: fmt::Write>(&self, f: &mut fmt::Formatter<W>) -> fmt::Result {
        if self.0.marks == 0 {
            return f.write_str(" none");
        }
        for hart in (0..8).filter(|hart| self.0.is_marked(*hart)) {
            write!(f, " {hart}")?;
        }
        Ok(())
    }
}

impl fmt::Display for Debt {
    fn fmt<W: fmt::Write>(&self, f: &mut fmt::Formatter<W>) -> fmt::Result {
        let Debt {
            number,
            of,
            frame,
            ..
        } = *self;
        let marked = Marked(*self);
        write!(f, "debt {number}: {of}, ")?;
        match frame {
            Some(frame) => write!(f, "frame {frame}, marked{marked}"),
            None => write!(f, "rights only, marked{marked}"),
        }
    }
}
