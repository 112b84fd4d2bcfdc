// The rows of eight harts.
use crate::row::Row;

// No model: that asks a `Copy` value to give its fields back, and these would be made anew from their ways.
/// A row for each hart.
#[derive(Clone, Copy)]
pub struct Rows {
    pub rows: [Row; 8],
}
