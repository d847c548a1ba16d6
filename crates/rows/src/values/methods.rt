// Making values of a caller's numbers, reading them, and the sum of products at a point.
ghost use Rattle.std.specs.Prelude.{◌≡◌, ℕ, pos, neg_ℤ, ◌≤ℤ◌};
ghost use Rattle.rows.specs.Limits.{magnitude_of};
ghost use Rattle.rows.specs.Points.{ValuesWithin, dot_limit};
ghost use Rattle.rows.specs.PointsMade.{ValuesFrom};
ghost use Rattle.rows.specs.Shapes.{dot as dot_of};
ghost use Rattle.rows.specs.declared.limits.Limit.TheVariants.{WrittenNumber};

use crate::limits::{COLUMNS, Limit};
use crate::values::{Point, Values};

impl<const N: usize> Values<N> {
    // These values, or none where one of them is too large.
    pub fn new(values: [i64; N]) -> Option<Values<N>>
        ensures { ValuesFrom N values.entry result }
    {
        // An `if` and no `then`, since what the type holds is shown in its branch.
        if values.iter().all(|value| Limit::StateValue.admits(*value)) {
            Some(Values { values })
        } else {
            None
        }
    }

    // The values.
    pub fn values(&self) -> [i64; N]
        ensures { result ≡ self.now.values }
    {
        self.values
    }
}

impl Point {
    // The sum of coefficient × value over all columns.
    pub(crate) fn dot(&self, coefficients: &[i64; COLUMNS]) -> i64
        requires { ValuesWithin (magnitude_of WrittenNumber) coefficients.now }
        ensures value { result ≡ dot_of coefficients.now self.now.values }
        ensures within { (neg_ℤ (pos dot_limit) ≤ℤ result) × (result ≤ℤ pos dot_limit) }
    {
        // A loop, since the proof finds no bound for a signed `sum` of a chain.
        let mut sum: i64 = 0;
        for (coefficient, value) in coefficients.iter().zip(self.values.iter()) {
            sum += *coefficient * *value;
        }
        sum
    }
}
