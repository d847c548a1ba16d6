// Expressions of written numbers.
ghost use Rattle.std.specs.Prelude.{ℕ};
ghost use Rattle.rows.specs.Limits.{magnitude_of};
ghost use Rattle.rows.specs.Shapes.{Within};
ghost use Rattle.rows.specs.declared.limits.Limit.TheVariants.{WrittenNumber};

use crate::limits::COLUMNS;
use crate::numbers::Numbers;

// Eight coefficients and a constant, all written numbers: the sum of coefficient × value, and the constant.
// No `WrittenRow`, since a constant is added and a bound compared: of one type, each could stand in the other's place.
#[derive(Clone, Copy)]
pub struct Expression {
    coefficients: [i64; COLUMNS],
    constant: i64,
    ghost held: { Within (magnitude_of WrittenNumber) (record { coefficients = coefficients; bound = constant }) },
}

pub mod methods;
pub mod zero;
