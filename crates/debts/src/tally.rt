// Counting the open debts.
ghost use Rattle.std.specs.Prelude.{◌≡◌};
ghost use Rattle.debts.specs.Debts.{debts_of, open_count};

use crate::ledger::Ledger;

impl Ledger {
    /// How many debts are open.
    pub fn count(&self) -> usize
        ensures { result ≡ open_count (debts_of self.now) }
    {
        // No chain: of the forms tried, only this loop is unrolled whole.
        let mut count = 0;
        for slot in &self.slots {
            if slot.is_some() {
                count += 1;
            }
        }
        count
    }
}
