// Records to fill memory with before it is lent.
// No `Default` of the records: one with the number 0 is in no table and no witness, and only fills memory.
ghost use Rattle.records.specs.Records.{transition_of, place_record_of, inner_of};
ghost use Rattle.tables.specs.Blanks.{blank_transition, blank_place, blank_inner};
ghost use Rattle.std.specs.Prelude.{◌≡◌};

use records::{BoundedList, Inner, Place, PlanEntry, Transition};
use rows::{Expression, WrittenRow};

// A transition with no rows and no updates.
pub(crate) fn transition() -> Transition
    ensures { transition_of result ≡ blank_transition }
{
    Transition {
        number: 0,
        start: 0,
        target: 0,
        guard: BoundedList::new(WrittenRow::zero()),
        updates: BoundedList::new(Expression::zero()),
    }
}

// A listed place with no rows, and a plan of one entry.
pub(crate) fn place() -> Place
    ensures { place_record_of result ≡ blank_place }
{
    let entry = PlanEntry {
        transition: 0,
        test: WrittenRow::zero(),
    };
    Place {
        number: 0,
        condition: BoundedList::new(WrittenRow::zero()),
        tested: BoundedList::new(entry),
        last: 0,
    }
}

// An inner transition with no rows and no choices.
pub(crate) fn inner() -> Inner
    ensures { inner_of result ≡ blank_inner }
{
    Inner {
        number: 0,
        restrictions: BoundedList::new(WrittenRow::zero()),
        choices: BoundedList::new(Expression::zero()),
    }
}
