// Whole numbers within the limit of state values, and points.
ghost use Rattle.std.specs.Prelude.{ℕ, ◌<◌};
ghost use Rattle.rows.specs.Limits.{magnitude_of};
ghost use Rattle.rows.specs.Points.{WithinFirst};
ghost use Rattle.rows.specs.declared.limits.Limit.TheVariants.{StateValue};

use crate::limits::COLUMNS;

// N numbers, none outside ±1,000,000,000.
#[derive(Clone, Copy)]
pub struct Values<const N: usize> {
    values: [i64; N],
    ghost held: { WithinFirst N (magnitude_of StateValue) values },
}

// A value for each column.
pub type Point = Values<COLUMNS>;

pub mod methods;
