// A row of ways: finding, filling and emptying them.
ghost use Rattle.std.specs.Prelude.{◌≡◌, length, replicate, Some, None, slice_set};
ghost use Rattle.tlb.specs.Rows.{found, covered, fenced, emptied};
ghost use Rattle.tlb.specs.Slots.{empty_slot};

use crate::page::{PageId, Scope};
use crate::slots::lowest_empty;
use crate::way::Way;

// An array, as nothing may be allocated; and a way's number is its place.
#[derive(Clone, Copy)]
pub struct Row {
    pub ways: [Option<Way>; 16],
    ghost full: { length ways ≡ 16 },
}

/// Whether a way is held and a fence is for it.
fn is_covered(way: Option<Way>, scope: Scope) -> bool
    ensures { result ≡ covered scope.space scope.page way }
{
    way.is_some_and(|held| scope.covers(held.of))
}

impl Row {
    pub fn empty() -> Row
        ensures { result.ways ≡ replicate 16 None }
    {
        Row { ways: [None; 16] }
    }

    /// The lowest way for a page of a space.
    pub fn find(&self, page: PageId) -> Option<usize>
        ensures { result ≡ found page.space page.page 0 self.now.ways }
    {
        self.ways
            .iter()
            .position(|way| way.is_some_and(|held| held.is_for(page)))
    }

    /// The lowest empty way.
    pub fn lowest_empty(&self) -> Option<usize>
        ensures { result ≡ empty_slot 0 self.now.ways }
    {
        lowest_empty(&self.ways)
    }

    /// Empties the ways that a fence is for, and answers how many.
    pub fn fence(&mut self, scope: Scope) -> usize
        ensures ways { self.new.ways ≡ fenced scope.space scope.page self.old.ways }
        ensures count { result ≡ emptied scope.space scope.page self.old.ways }
    {
        let mut count = 0;
        for way in &mut self.ways {
            if is_covered(*way, scope) {
                *way = None;
                count += 1;
            }
        }
        count
    }

    // No `get_mut`: of an array it leaves nothing known of the other ways.
    /// Fills a way, if there is one of that number.
    pub fn put(&mut self, way: usize, held: Way)
        ensures { self.new.ways ≡ slice_set self.old.ways way (Some held) }
    {
        if way < self.ways.len() {
            self.ways[way] = Some(held);
        }
    }

    /// Empties a way, if there is one of that number.
    pub fn clear(&mut self, way: usize)
        ensures { self.new.ways ≡ slice_set self.old.ways way None }
    {
        if way < self.ways.len() {
            self.ways[way] = None;
        }
    }
}
