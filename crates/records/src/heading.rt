// The front of a table.
ghost use Rattle.std.specs.Prelude.{ℕ, ◌≤◌};
ghost use Rattle.records.specs.Limits.{most_values, most_choices};

use crate::bounded::BoundedList;
use crate::limits::MOST_INITIAL;
use rows::WrittenRow;

// How many state values and choices there are, within their limits, and where and with which rows met a run starts.
// The two counts are no `Shape` inside: a shape may have any counts, and these are held to the limits of a table.
#[derive(Clone, Copy)]
pub struct Heading {
    pub values: u8,
    pub choices: u8,
    pub start: u16,
    pub initial: BoundedList<WrittenRow, MOST_INITIAL>,
    ghost limits: { (values ≤ most_values) × (choices ≤ most_choices) },
}

pub mod methods;
