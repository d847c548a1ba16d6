// Rows and expressions as one kind: what is made of written numbers.
ghost use Rattle.records.specs.AsWritten.{WrittenAs};
ghost use Rattle.rows.specs.Zeros.{zero_numbers};
ghost use Rattle.rows.specs.declared.numbers.Numbers.{Numbers as Plain};
ghost use Rattle.std.specs.Prelude.{◌≡◌};

use rows::{Expression, Numbers, TooLarge, WrittenRow};

// What is made of written numbers: a row or an expression.
pub trait Written: Copy {
    // Its numbers, the constant of an expression as a bound.
    ghost plain: { Self → Plain };

    // The value with these numbers, or the first of them that is too large to be written.
    fn written(numbers: Numbers) -> Result<Self, TooLarge>
        ensures { WrittenAs plain numbers result };

    // The value whose numbers are all zero.
    fn zero() -> Self
        ensures { plain result ≡ zero_numbers };
}

impl Written for WrittenRow {
    ghost plain = { λ row. row.numbers };

    fn written(numbers: Numbers) -> Result<WrittenRow, TooLarge> {
        WrittenRow::new(numbers)
    }

    fn zero() -> WrittenRow {
        WrittenRow::zero()
    }
}

impl Written for Expression {
    ghost plain = { λ e. record { coefficients = e.coefficients; bound = e.constant } };

    fn written(numbers: Numbers) -> Result<Expression, TooLarge> {
        Expression::new(numbers.coefficients, numbers.bound)
    }

    fn zero() -> Expression {
        Expression::zero()
    }
}
