// A hart's row, to be read.
ghost use Rattle.std.specs.Prelude.{◌≡◌};
ghost use Rattle.tlb.specs.Harts.{rows_of, row_at};

use crate::hart::HartId;
use crate::row::Row;
use crate::rows::Rows;

impl Rows {
    /// A hart's row.
    pub fn row(&self, hart: HartId) -> Row
        ensures { result.ways ≡ row_at (rows_of self.now) hart.number }
    {
        self.rows[hart.number]
    }
}
