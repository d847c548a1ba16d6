// Making a row of a caller's numbers, and reading one.
ghost use Rattle.rows.specs.Made.{RowFrom};
ghost use Rattle.rows.specs.Limits.{magnitude_of};
ghost use Rattle.rows.specs.Shapes.{Within};
ghost use Rattle.rows.specs.declared.limits.Limit.TheVariants.{RowNumber};
ghost use Rattle.std.specs.Prelude.{◌≡◌};

use crate::fault::{Fault, FaultKind};
use crate::limits::Limit;
use crate::numbers::Numbers;
use crate::row::Row;

impl Row {
    // The row of these numbers, or the first of them, by its item, that is too large for a row.
    pub fn new(numbers: Numbers) -> Result<Row, Fault>
        ensures { RowFrom numbers result }
    {
        numbers.held_to(Limit::RowNumber).map_err(|too_large| {
            Fault::with_item(FaultKind::RowNumberTooLarge, too_large.item)
        })?;
        Ok(Row { numbers })
    }

    // The row of numbers that are known to fit.
    pub(crate) fn within_limit(numbers: Numbers) -> Row
        requires { Within (magnitude_of RowNumber) numbers }
        ensures { result.numbers ≡ numbers }
    {
        Row { numbers }
    }

    // The row's numbers.
    pub fn numbers(&self) -> &Numbers
        ensures { result.now ≡ self.now.numbers }
    {
        &self.numbers
    }
}
