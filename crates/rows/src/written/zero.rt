// The row of zeros.
ghost use Rattle.rows.specs.Zeros.{zero_numbers};
ghost use Rattle.std.specs.Prelude.{◌≡◌};

use crate::numbers::Numbers;
use crate::written::WrittenRow;

impl WrittenRow {
    // The row whose numbers are all zero, which every point meets.
    pub fn zero() -> WrittenRow
        ensures { result.numbers ≡ zero_numbers }
    {
        WrittenRow {
            numbers: Numbers::default(),
        }
    }
}
