// What a way of a TLB holds.
ghost use Rattle.std.specs.Prelude.{◌≡◌};
ghost use Rattle.tlb.specs.Ways.{speaks_for, flags_of, way_of};

use crate::page::PageId;
use sv39::{Flags, Rights};

/// A page of a space, the frame that it leads to, and the leaf's R, W, X, U, A and D.
#[derive(Clone, Copy, PartialEq, Eq, Debug)]
pub struct Way {
    pub of: PageId,
    pub frame: u64,
    pub rights: Rights,
    pub a: bool,
    pub d: bool,
}

impl Way {
    /// The way for a page of a space that a leaf with these flags leads to a frame.
    pub fn new(of: PageId, frame: u64, flags: Flags) -> Way
        ensures { result ≡ way_of of.space of.page frame flags }
    {
        let rights = Rights::from(flags);
        Way {
            of,
            frame,
            rights,
            a: flags.a,
            d: flags.d,
        }
    }

    /// Whether it is for this page of this space.
    pub fn is_for(&self, page: PageId) -> bool
        ensures { result ≡ speaks_for self.now page.space page.page }
    {
        self.of == page
    }

    /// Its flags as a leaf's, for the rights step and the A/D step.
    pub fn flags(&self) -> Flags
        ensures { result ≡ flags_of self.now }
    {
        let Rights { r, w, x, u } = self.rights;
        Flags {
            v: true,
            r,
            w,
            x,
            u,
            a: self.a,
            d: self.d,
            ..Flags::default()
        }
    }
}
