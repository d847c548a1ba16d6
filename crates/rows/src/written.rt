// Rows of written numbers.
ghost use Rattle.std.specs.Prelude.{ℕ};
ghost use Rattle.rows.specs.Limits.{magnitude_of};
ghost use Rattle.rows.specs.Shapes.{Within};
ghost use Rattle.rows.specs.declared.limits.Limit.TheVariants.{WrittenNumber};

use crate::numbers::Numbers;

// A row whose numbers are written numbers, none outside ±1,000,000: what stands in a table, a witness, an added row or
// a split.
// Not one type with `Row`: that one's `new` answers a Fault, this one's a TooLarge, whose place only the caller knows.
#[derive(Clone, Copy)]
pub struct WrittenRow {
    numbers: Numbers,
    ghost held: { Within (magnitude_of WrittenNumber) numbers },
}

pub mod methods;
pub mod zero;
