// A row asked for an access.
ghost use Rattle.std.specs.Prelude.{◌≡◌, ◌^◌, ◌<◌, IfSome};
ghost use Rattle.tlb.specs.Trying.{served, tried};

use crate::page::PageId;
use crate::row::Row;
use sv39::Access;

impl Row {
    // That the frame is one's number is a clause: the definition answers it as a number.
    /// The way that serves an access to a page of a space, with its frame as a number of 44 bits. The way for that page is
    /// emptied where it does not serve it.
    pub fn try_way(&mut self, page: PageId, access: &Access) -> Option<(usize, u64)>
        ensures answer { result ≡ served page.space page.page access.now self.old.ways }
        ensures ways { self.new.ways ≡ tried page.space page.page access.now self.old.ways }
        ensures within { IfSome result (λ hit. (hit.0 < 16) × (hit.1 < 2 ^ 44)) }
    {
        let way = self.find(page)?;
        let held = self.ways[way]?;
        if held.serves(access) {
            return Some((way, held.frame % (1 << 44)));
        }
        self.clear(way);
        None
    }
}
