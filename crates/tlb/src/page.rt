// Pages of spaces, and what a fence is for.
ghost use Rattle.std.specs.Prelude.{◌≡◌, ◌&&◌};
ghost use Rattle.tlb.specs.Rows.{matches};

/// A page of a space.
#[derive(Clone, Copy, PartialEq, Eq, Debug)]
pub struct PageId {
    pub space: u64,
    pub page: u64,
}

/// What a fence is for: a space or all, at a page or all.
#[derive(Clone, Copy, PartialEq, Eq, Debug)]
pub struct Scope {
    pub space: Option<u64>,
    pub page: Option<u64>,
}

impl Scope {
    /// Whether it is for this page of this space.
    pub fn covers(self, page: PageId) -> bool
        ensures { result ≡ (matches self.space page.space && matches self.page page.page) }
    {
        self.space.is_none_or(|space| page.space == space)
            && self.page.is_none_or(|at| page.page == at)
    }
}
