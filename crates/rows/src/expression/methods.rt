// Making an expression, reading it, and its value at a point.
ghost use Rattle.rows.specs.ExpressionsMade.{ExpressionFrom};
ghost use Rattle.rows.specs.Shapes.{value_of};
ghost use Rattle.rows.specs.Points.{dot_limit};
ghost use Rattle.std.specs.Prelude.{◌≡◌, pos, ◌+ℤ◌, neg_ℤ, ◌≤ℤ◌};

use crate::expression::Expression;
use crate::limits::{COLUMNS, Limit};
use crate::numbers::{Numbers, TooLarge};
use crate::values::Point;

impl Expression {
    // The expression of these numbers, or the first of them that is too large to be written; the constant's item is
    // that of a bound.
    pub fn new(coefficients: [i64; COLUMNS], constant: i64) -> Result<Expression, TooLarge>
        ensures { ExpressionFrom coefficients constant result }
    {
        let numbers = Numbers {
            coefficients,
            bound: constant,
        };
        numbers.held_to(Limit::WrittenNumber)?;
        Ok(Expression {
            coefficients,
            constant,
        })
    }

    // The coefficients.
    pub fn coefficients(&self) -> &[i64; COLUMNS]
        ensures { result.now ≡ self.now.coefficients }
    {
        &self.coefficients
    }

    // The constant.
    pub fn constant(&self) -> i64
        ensures { result ≡ self.now.constant }
    {
        self.constant
    }

    // The expression's value at a point.
    pub fn value_at(&self, point: &Point) -> i64
        ensures { result ≡ value_of self.now.coefficients self.now.constant point.now.values }
    {
        raised_by(point.dot(&self.coefficients), self.constant)
    }
}

// A sum of products and a constant.
// A function of its own, so that the bounds that it asks show that the sum does not overflow.
fn raised_by(sum: i64, constant: i64) -> i64
    requires sum { (neg_ℤ (pos dot_limit) ≤ℤ sum) × (sum ≤ℤ pos dot_limit) }
    requires constant { (neg_ℤ (pos dot_limit) ≤ℤ constant) × (constant ≤ℤ pos dot_limit) }
    ensures { result ≡ sum +ℤ constant }
{
    sum + constant
}
