// Slots, each of which holds something or nothing.
ghost use Rattle.std.specs.Prelude.{◌≡◌};
ghost use Rattle.tlb.specs.Slots.{empty_slot};

/// The lowest empty slot.
pub fn lowest_empty<T>(slots: &[Option<T>]) -> Option<usize>
    ensures { result ≡ empty_slot 0 slots.now }
{
    slots.iter().position(|slot| slot.is_none())
}
