// The goals of obligations: a row after an update, and a row with the choice expressions put in.
ghost use Rattle.std.specs.Prelude.{◌≡◌, ℕ, ◌+◌, ◌≤◌, ◌+ℤ◌, ◌-ℤ◌};
ghost use Rattle.obligations.specs.Goals.{Addends};
ghost use Rattle.records.specs.Bounded.{plain_list};
ghost use Rattle.records.specs.Records.{row_of, expression_of, transition_of, inner_of};
ghost use Rattle.rows.specs.Limits.{columns, magnitude_of};
ghost use Rattle.rows.specs.Shapes.{item_of, Within};
ghost use Rattle.rows.specs.declared.limits.Limit.TheVariants.{RowNumber};
ghost use Rattle.semantics.specs.Goals.{combined as combined_item, kept_or_zero, after_update, with_choices};
ghost use Rattle.semantics.specs.Laws.{UpdateGoal, ChoiceGoal};

use records::limits::MOST_VALUES;
use records::{BoundedList, Inner, Transition};
use rows::limits::COLUMNS;
use rows::{Expression, Numbers, WrittenRow};
use std::array;

// An expression's number of an item, its constant as a bound.
fn item_of(expression: &Expression, item: usize) -> i64
    ensures { result ≡ item_of (expression_of expression.now) item }
{
    expression
        .coefficients()
        .get(item)
        .copied()
        .unwrap_or(expression.constant())
}

// A number of the sum of expressions, each times the row's coefficient of its column; the first column is `from`.
fn combined<const N: usize>(
    row: &WrittenRow,
    from: usize,
    expressions: &BoundedList<Expression, N>,
    item: usize,
) -> i64
    requires { from + N ≤ columns }
    ensures { result ≡ combined_item (row_of row.now) from N (plain_list expression_of expressions.now) item }
{
    // A loop, since the proof finds no bound for a signed `sum` of a chain.
    let coefficients = &row.numbers().coefficients[from..];
    let mut sum: i64 = 0;
    for (coefficient, expression) in coefficients.iter().zip(expressions.as_slice()) {
        let product = *coefficient * item_of(expression, item);
        sum += product;
    }
    sum
}

// A number of a row and a number of that sum, added.
// Two functions: one for this and the next would take `+` or `-` as a closure, which says less than the two names.
fn raised_by(number: i64, sum: i64) -> i64
    requires { Addends number sum }
    ensures { result ≡ number +ℤ sum }
{
    number + sum
}

// The one less the other.
fn lowered_by(number: i64, sum: i64) -> i64
    requires { Addends number sum }
    ensures { result ≡ number -ℤ sum }
{
    number - sum
}

// The row's bound less the constant of that sum.
fn lowered_bound<const N: usize>(
    row: &WrittenRow,
    from: usize,
    expressions: &BoundedList<Expression, N>,
) -> i64
    requires { from + N ≤ columns }
    ensures { result ≡ (row_of row.now).bound -ℤ combined_item (row_of row.now) from N (plain_list expression_of expressions.now) columns }
{
    lowered_by(
        row.numbers().bound,
        combined(row, from, expressions, COLUMNS),
    )
}

// The row that holds before a transition exactly where the row holds after it.
pub fn after_update(transition: &Transition, row: &WrittenRow) -> Numbers
    ensures value { result ≡ after_update (transition_of transition.now) (row_of row.now) }
    ensures held { Within (magnitude_of RowNumber) result }
    ensures carried { UpdateGoal (transition_of transition.now) (row_of row.now) result }
{
    let coefficients = array::from_fn(|column| combined(row, 0, &transition.updates, column));
    let bound = lowered_bound(row, 0, &transition.updates);
    Numbers {
        coefficients,
        bound,
    }
}

// The coefficient of a column once the choices are replaced by their expressions: none is left of a choice.
fn kept_or_zero(inner: &Inner, row: &WrittenRow, column: usize) -> i64
    ensures { result ≡ kept_or_zero (row_of row.now) (inner_of inner.now).choices column }
{
    if column < MOST_VALUES {
        raised_by(
            row.numbers().coefficients[column],
            combined(row, MOST_VALUES, &inner.choices, column),
        )
    } else {
        0
    }
}

// The row over the values with each choice replaced by the inner transition's expression.
pub fn with_choices(inner: &Inner, row: &WrittenRow) -> Numbers
    ensures value { result ≡ with_choices (inner_of inner.now) (row_of row.now) }
    ensures held { Within (magnitude_of RowNumber) result }
    ensures carried { ChoiceGoal (inner_of inner.now) (row_of row.now) result }
{
    let coefficients = array::from_fn(|column| kept_or_zero(inner, row, column));
    let bound = lowered_bound(row, MOST_VALUES, &inner.choices);
    Numbers {
        coefficients,
        bound,
    }
}
