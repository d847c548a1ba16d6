// How the numbers of a stored row or expression stand in the columns.
ghost use Rattle.std.specs.Prelude.{◌≡◌, ℕ, ◌+◌, ◌≤◌, MatchOption};
ghost use Rattle.records.specs.Slots.{slot_of, over_values, stride};

use crate::limits::MOST_VALUES;
use rows::limits::COLUMNS;

// How many state values and choices a stored row or expression speaks of. Its numbers are one for each value, one for
// each choice, and the bound or constant.
#[derive(Clone, Copy)]
pub struct Shape {
    pub values: u8,
    pub choices: u8,
}

impl Shape {
    // The shape of a row over the same values and no choices.
    pub fn over_values(self) -> Shape
        ensures { result ≡ over_values self }
    {
        Shape {
            values: self.values,
            choices: 0,
        }
    }

    // Which of the stored numbers is that of an item, if one is.
    pub fn slot(self, item: usize) -> Option<u16>
        ensures { result ≡ slot_of self item }
    {
        let values = u16::from(self.values);
        let choices = u16::from(self.choices);
        if item < MOST_VALUES {
            let value = item as u16;
            (value < values).then_some(value)
        } else if item < COLUMNS {
            let choice = (item - MOST_VALUES) as u16;
            (choice < choices).then_some(values + choice)
        } else {
            Some(values + choices)
        }
    }

    // How many bytes a stored row or expression takes.
    pub fn stride(self) -> usize
        ensures { result ≡ stride self }
    {
        4 * (usize::from(self.values) + usize::from(self.choices) + 1)
    }
}
