// What a machine's calls ask of its plain part.
ghost use Rattle.std.specs.Prelude.{◌≡◌, ◌<◌, ◌≤◌, MatchResult, IfSome, IsNone, Some, None, slice_index_or};
ghost use Rattle.machine.specs.declared.refusal.Refusal.TheVariants.{NoHart};
ghost use Rattle.machine.specs.Accesses.{root_in};
ghost use Rattle.machine.specs.Harts.{fence_page, stands_in};
ghost use Rattle.machine.specs.Pages.{located_by};

use crate::hart::Core;
use crate::refusal::Refusal;
use sv39::{is_canonical, page_of};
use tlb::{HartId, PageId, Scope};

impl Core {
    /// The hart of a number, if it was made. Refuses 10.
    pub(crate) fn hart_id(&self, hart: usize) -> Result<HartId, Refusal>
        ensures { MatchResult result (λ id. (id.number ≡ hart) × (hart < self.now.count)) (λ refusal. (refusal ≡ NoHart) × (self.now.count ≤ hart)) }
    {
        if hart < self.count {
            Ok(HartId { number: hart })
        } else {
            Err(Refusal::NoHart)
        }
    }

    /// The root of a space, if it stands.
    pub(crate) fn root_of(&self, space: usize) -> Option<u16>
        ensures { result ≡ slice_index_or self.now.roots space None }
    {
        *self.roots.get(space)?
    }

    /// The root that a hart in a space walks from; a hart is in a space that stands.
    pub(crate) fn walk_root(&self, space: usize) -> u64
        ensures { result ≡ root_in (slice_index_or self.now.roots space None) }
    {
        self.root_of(space).map_or(0, u64::from)
    }

    /// The root of a space in which an address is a page's. Refuses 11, then 16.
    pub(crate) fn locate(&self, space: usize, address: u64) -> Result<u16, Refusal>
        ensures { result ≡ located_by address (slice_index_or self.now.roots space None) }
    {
        let root = self.root_of(space).ok_or(Refusal::NoSpace)?;
        if is_canonical(address) && address % 4096 == 0 {
            Ok(root)
        } else {
            Err(Refusal::NotAPage)
        }
    }

    /// Whether a space stands, where one is named.
    pub(crate) fn stands(&self, space: Option<usize>) -> bool
        ensures { result ≡ stands_in self.now.roots space }
    {
        space.is_none_or(|number| self.root_of(number).is_some())
    }
}

/// A page of a space as a TLB's way and a debt have it.
pub(crate) fn page_in(space: usize, page: u64) -> PageId
    ensures space { result.space ≡ space }
    ensures page { result.page ≡ page }
{
    PageId {
        space: space as u64,
        page,
    }
}

/// What a fence is for; nothing where its address is not canonical.
pub(crate) fn scope_of(space: Option<usize>, address: Option<u64>) -> Option<Scope>
    ensures scope { IfSome result (λ scope. (scope.space ≡ space) × (fence_page address ≡ Some scope.page)) }
    ensures none { IsNone result → fence_page address ≡ None }
{
    let page = match address {
        None => None,
        Some(a) if is_canonical(a) => Some(page_of(a)),
        Some(_) => return None,
    };
    let space = space.map(|number| number as u64);
    Some(Scope { space, page })
}
