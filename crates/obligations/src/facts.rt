// The facts of obligations: rows put behind one another.
ghost use Rattle.std.specs.Prelude.{◌≡◌, ℕ, ◌+◌, ◌≤◌, [], ◌++◌, map, length, take};
ghost use Rattle.obligations.specs.Facts.{most_facts};
ghost use Rattle.records.specs.Bounded.{listed, plain_list};
ghost use Rattle.records.specs.Limits.{most_tested};
ghost use Rattle.records.specs.Records.{row_of, entry_of, transition_of, place_record_of};
ghost use Rattle.rows.specs.Shapes.{opposite_of};
ghost use Rattle.semantics.specs.Enumerated.{entry_transition, entry_facts};
ghost use Rattle.semantics.specs.Obligations.{tests};

use records::limits::MOST_TESTED;
use records::{BoundedList, Place, PlanEntry, Transition};
use rows::{Numbers, WrittenRow};

// The greatest number of facts of an obligation.
pub const MOST_FACTS: usize = 12;

// The facts of an obligation, in their order.
pub type Facts = BoundedList<Numbers, MOST_FACTS>;

// No facts at all.
pub(crate) fn no_facts() -> Facts
    ensures { listed result ≡ [] }
{
    BoundedList::new(Numbers::default())
}

// Puts rows behind the facts.
pub(crate) fn add_rows<const N: usize>(facts: &mut Facts, rows: &BoundedList<WrittenRow, N>)
    requires { length (listed facts.old) + N ≤ most_facts }
    ensures { listed facts.new ≡ listed facts.old ++ plain_list row_of rows.now }
{
    for row in rows.as_slice() {
        facts.push(*row.numbers());
    }
}

// The rows of a place's condition and of a transition's guard.
pub(crate) fn condition_and_guard(place: &Place, transition: &Transition) -> Facts
    ensures { listed result ≡ (place_record_of place.now).condition ++ (transition_of transition.now).guard }
{
    let mut facts = no_facts();
    add_rows(&mut facts, &place.condition);
    add_rows(&mut facts, &transition.guard);
    facts
}

// Puts the opposites of the first tests of a plan behind the facts.
fn add_opposites(facts: &mut Facts, tested: &BoundedList<PlanEntry, MOST_TESTED>, count: usize)
    requires { length (listed facts.old) + most_tested ≤ most_facts }
    ensures { listed facts.new ≡ listed facts.old ++ map opposite_of (take count (tests (plain_list entry_of tested.now))) }
{
    for entry in tested.as_slice().iter().take(count) {
        let opposite = entry.test.opposite();
        facts.push(*opposite.numbers());
    }
}

// The transition of an entry of a plan, if there is such an entry.
// A place and an entry's index are no struct: an index may be that of no entry, and is `u8` or `usize` by where it stands.
pub(crate) fn entry_transition(place: &Place, entry: usize) -> Option<u16>
    ensures { result ≡ entry_transition (place_record_of place.now) entry }
{
    let last = (entry == place.tested.len()).then_some(place.last);
    place
        .tested
        .get(entry)
        .map(|tested| tested.transition)
        .or(last)
}

// What holds where the plan of a place takes an entry: the condition, no test before the entry, and the entry's own.
pub(crate) fn condition_and_entry(place: &Place, entry: usize) -> Facts
    ensures { listed result ≡ (place_record_of place.now).condition ++ entry_facts (place_record_of place.now) entry }
{
    let mut facts = no_facts();
    add_rows(&mut facts, &place.condition);
    add_opposites(&mut facts, &place.tested, entry);
    if let Some(tested) = place.tested.get(entry) {
        facts.push(*tested.test.numbers());
    }
    facts
}
