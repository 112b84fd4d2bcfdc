// A hart's row among those of all.
ghost use Rattle.std.specs.Prelude.{◌≡◌, ◌^◌, ◌<◌, length, replicate, IfSome, Some, None, slice_set};
ghost use Rattle.tlb.specs.Harts.{rows_of, row_at};
ghost use Rattle.tlb.specs.Rows.{fenced, emptied};
ghost use Rattle.tlb.specs.Slots.{empty_slot};
ghost use Rattle.tlb.specs.Trying.{served, tried};

use crate::hart::HartId;
use crate::page::{PageId, Scope};
use crate::row::Row;
use crate::rows::Rows;
use crate::way::Way;
use sv39::Access;

impl Rows {
    /// Every way of every hart empty.
    pub fn empty() -> Rows
        ensures { rows_of result ≡ replicate 8 (replicate 16 None) }
    {
        Rows {
            rows: [Row::empty(); 8],
        }
    }

    /// A hart's row, as `Row::try_way` has it.
    pub fn try_way(&mut self, hart: HartId, page: PageId, access: &Access) -> Option<(usize, u64)>
        ensures answer { result ≡ served page.space page.page access.now (row_at (rows_of self.old) hart.number) }
        ensures rows { rows_of self.new ≡ slice_set (rows_of self.old) hart.number (tried page.space page.page access.now (row_at (rows_of self.old) hart.number)) }
        ensures within { IfSome result (λ hit. (hit.0 < 16) × (hit.1 < 2 ^ 44)) }
        ensures each { length (rows_of self.old) ≡ 8 }
    {
        self.rows[hart.number].try_way(page, access)
    }

    /// The lowest empty way of a hart.
    pub fn lowest_empty(&self, hart: HartId) -> Option<usize>
        ensures way { result ≡ empty_slot 0 (row_at (rows_of self.now) hart.number) }
        ensures within { IfSome result (λ way. way < 16) }
    {
        self.rows[hart.number].lowest_empty()
    }

    /// Fills a way of a hart.
    pub fn put(&mut self, hart: HartId, way: usize, held: Way)
        ensures { rows_of self.new ≡ slice_set (rows_of self.old) hart.number (slice_set (row_at (rows_of self.old) hart.number) way (Some held)) }
    {
        self.rows[hart.number].put(way, held);
    }

    /// A hart's row fenced, as `Row::fence` has it.
    pub fn fence(&mut self, hart: HartId, scope: Scope) -> usize
        ensures rows { rows_of self.new ≡ slice_set (rows_of self.old) hart.number (fenced scope.space scope.page (row_at (rows_of self.old) hart.number)) }
        ensures count { result ≡ emptied scope.space scope.page (row_at (rows_of self.old) hart.number) }
    {
        self.rows[hart.number].fence(scope)
    }
}
