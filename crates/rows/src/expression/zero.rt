// The expression of zeros.
ghost use Rattle.rows.specs.Zeros.{zero_numbers};
ghost use Rattle.std.specs.Prelude.{◌≡◌};

use crate::expression::Expression;
use crate::limits::COLUMNS;

impl Expression {
    // The expression whose numbers are all zero.
    pub fn zero() -> Expression
        ensures coefficients { result.coefficients ≡ zero_numbers.coefficients }
        ensures constant { result.constant ≡ zero_numbers.bound }
    {
        Expression {
            coefficients: [0; COLUMNS],
            constant: 0,
        }
    }
}
