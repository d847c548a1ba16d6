// Making a written row, meeting it at a point, and its opposite.
ghost use Rattle.rows.specs.Limits.{magnitude_of};
ghost use Rattle.rows.specs.Shapes.{Meets, opposite_of};
ghost use Rattle.rows.specs.WrittenMade.{WrittenFrom, TurnsRound};
ghost use Rattle.rows.specs.declared.limits.Limit.TheVariants.{WrittenNumber};
ghost use Rattle.std.specs.Prelude.{◌≡◌, map, pos, ◌-ℤ◌, neg_ℤ, ◌≤ℤ◌, Decides};

use crate::limits::{COLUMNS, Limit};
use crate::numbers::{Numbers, TooLarge};
use crate::row::Row;
use crate::values::Point;
use crate::written::WrittenRow;

impl WrittenRow {
    // The row of these numbers, or the first of them that is too large to be written.
    pub fn new(numbers: Numbers) -> Result<WrittenRow, TooLarge>
        ensures { WrittenFrom numbers result }
    {
        numbers.held_to(Limit::WrittenNumber)?;
        Ok(WrittenRow { numbers })
    }

    // The row's numbers.
    pub fn numbers(&self) -> &Numbers
        ensures { result.now ≡ self.now.numbers }
    {
        &self.numbers
    }

    // Whether the point meets the row.
    pub fn is_met(&self, point: &Point) -> bool
        ensures { Decides result (Meets point.now.values self.now.numbers) }
    {
        let row = self.numbers();
        point.dot(&row.coefficients) <= row.bound
    }

    // The opposite row: a point meets it exactly where it does not meet this one.
    pub fn opposite(&self) -> Row
        ensures value { result.numbers ≡ opposite_of self.now.numbers }
        ensures turned { TurnsRound self.now.numbers result.numbers }
    {
        let numbers = Numbers {
            coefficients: self.negated(),
            bound: self.turned_bound(),
        };
        Row::within_limit(numbers)
    }

    // Every coefficient with its sign turned.
    fn negated(&self) -> [i64; COLUMNS]
        ensures { result ≡ map neg_ℤ self.now.numbers.coefficients }
    {
        self.numbers.coefficients.map(turned)
    }

    // The opposite's bound.
    fn turned_bound(&self) -> i64
        ensures { result ≡ neg_ℤ self.now.numbers.bound -ℤ pos 1 }
    {
        -self.numbers.bound - 1
    }
}

// A number with its sign turned.
// A function that asks, since `map` hands it bare numbers; as a closure its value would be a goal of `negated` alone.
fn turned(number: i64) -> i64
    requires { (neg_ℤ (pos (magnitude_of WrittenNumber)) ≤ℤ number) × (number ≤ℤ pos (magnitude_of WrittenNumber)) }
    ensures { result ≡ neg_ℤ number }
{
    -number
}
