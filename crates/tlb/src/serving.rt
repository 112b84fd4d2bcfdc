// The accesses that a way serves.
ghost use Rattle.std.specs.Prelude.{◌≡◌};
ghost use Rattle.tlb.specs.Ways.{serves};

use crate::way::Way;
use sv39::Access;

impl Way {
    /// Whether it passes the rights step and the A/D step of an access.
    pub fn serves(&self, access: &Access) -> bool
        ensures { result ≡ serves self.now access.now }
    {
        let flags = self.flags();
        access.is_permitted(flags) && access.is_marked(flags)
    }
}
