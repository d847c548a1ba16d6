// The records of a table and a witness, and finding one of them by its number.
ghost use Rattle.std.specs.Prelude.{◌≡◌, ℕ};
ghost use Rattle.obligations.specs.Questions.{bare_table, witness_of};
ghost use Rattle.records.specs.Bounded.{plain_list};
ghost use Rattle.records.specs.Lists.{at};
ghost use Rattle.records.specs.Records.{row_of, transition_of, place_record_of, inner_of};
ghost use Rattle.semantics.specs.Plans.{transition_with, inner_with, place_with};
ghost use Rattle.std.specs.Option.{option_map, option_copied};

use records::{BoundedList, Inner, Place, Transition, with_number};
use rows::WrittenRow;

// The transitions of a table, and the listed places and the inner transitions of a witness.
#[derive(Clone, Copy)]
pub struct Records<'a> {
    pub transitions: &'a [Transition],
    pub places: &'a [Place],
    pub inners: &'a [Inner],
}

impl<'a> Records<'a> {
    // The table's transition with a number.
    pub(crate) fn transition_with(&self, number: u16) -> Option<&'a Transition>
        ensures { option_map transition_of (option_copied result) ≡ transition_with (bare_table self.now) number }
    {
        with_number(self.transitions, number)
    }

    // The witness's inner transition with a number.
    pub(crate) fn inner_with(&self, number: u16) -> Option<&'a Inner>
        ensures { option_map inner_of (option_copied result) ≡ inner_with (witness_of self.now) number }
    {
        with_number(self.inners, number)
    }

    // The witness's listed place with a number.
    pub(crate) fn place_with(&self, number: u16) -> Option<&'a Place>
        ensures { option_map place_record_of (option_copied result) ≡ place_with (witness_of self.now) number }
    {
        with_number(self.places, number)
    }
}

// The row with an index, if there is one.
pub(crate) fn row_with<const N: usize>(
    rows: &BoundedList<WrittenRow, N>,
    index: u8,
) -> Option<WrittenRow>
    ensures { option_map row_of result ≡ at index (plain_list row_of rows.now) }
{
    rows.get(usize::from(index))
}
