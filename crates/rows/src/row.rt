// Rows whose numbers are held to the limit of rows.
ghost use Rattle.std.specs.Prelude.{ℕ};
ghost use Rattle.rows.specs.Limits.{magnitude_of};
ghost use Rattle.rows.specs.Shapes.{Within};
ghost use Rattle.rows.specs.declared.limits.Limit.TheVariants.{RowNumber};

use crate::numbers::Numbers;

// A row: eight coefficients and a bound, none outside ±20,000,000,000,000. A point meets it when the sum of
// coefficient × value is at most the bound.
#[derive(Clone, Copy)]
pub struct Row {
    numbers: Numbers,
    ghost held: { Within (magnitude_of RowNumber) numbers },
}

pub mod methods;
