// A step and a plan: the values after a transition, the transition that a plan takes, and the choices that it makes.
ghost use Rattle.std.specs.Prelude.{◌≡◌, ℕ, map, pos, slice_index_or};
ghost use Rattle.records.specs.Bounded.{plain_list};
ghost use Rattle.records.specs.Records.{row_of, expression_of, entry_of, transition_of, place_record_of, inner_of};
ghost use Rattle.semantics.specs.Plans.{meets, planned, planned_at, choices_of};
ghost use Rattle.semantics.specs.Runs.{value_at, updated as updated_values};
ghost use Rattle.semantics.specs.Vectors.{padded};
ghost use Rattle.std.specs.List.{find};
ghost use Rattle.std.specs.Option.{option_copied};

use crate::meeting::meets;
use crate::state::{State, at_rest};
use records::limits::{MOST_CHOICES, MOST_VALUES};
use records::{BoundedList, Inner, Place, PlanEntry, Transition};
use rows::{Expression, Point};
use std::array;

// The value of the expression with an index at a point, zero where there is no expression.
fn nth_value(expressions: &[Expression], index: usize, point: &Point) -> i64
    ensures { result ≡ slice_index_or (map (value_at point.now.values) (map expression_of expressions.now)) index (pos 0) }
{
    expressions
        .get(index)
        .map_or(0, |expression| expression.value_at(point))
}

// The values of expressions at a point, zero where there is no expression.
fn values_at<const N: usize>(expressions: &BoundedList<Expression, N>, point: &Point) -> [i64; N]
    ensures { result ≡ padded N (map (value_at point.now.values) (plain_list expression_of expressions.now)) }
{
    let expressions = expressions.as_slice();
    array::from_fn(|index| nth_value(expressions, index, point))
}

// The values after a transition, each worked out of the old values and the choices.
pub fn updated(transition: &Transition, point: &Point) -> [i64; MOST_VALUES]
    ensures { result ≡ updated_values (transition_of transition.now) point.now.values }
{
    values_at(&transition.updates, point)
}

// The choices that an inner transition makes in a state.
pub fn choices_at(inner: &Inner, state: &State) -> [i64; MOST_CHOICES]
    ensures { result ≡ choices_of (inner_of inner.now) state.now.values }
{
    values_at(&inner.choices, &at_rest(state))
}

// The first entry whose test the point meets.
fn first_met<'a>(entries: &'a [PlanEntry], point: &Point) -> Option<&'a PlanEntry>
    ensures { option_copied result ≡ find (λ entry. meets point.now.values (row_of entry.test)) entries.now }
{
    entries.iter().find(|entry| meets(point, &entry.test))
}

// The transition of the first entry whose test the point meets, else the one given.
// Apart from `planned_at`, which hands on the parts of a place: so a wrong part is a goal of its own.
fn taken_from(entries: &[PlanEntry], last: u16, point: &Point) -> u16
    ensures { result ≡ planned point.now.values (map entry_of entries.now) last }
{
    first_met(entries, point).map_or(last, |entry| entry.transition)
}

// The transition of the first entry of a plan whose test the state meets, else of the last entry.
pub fn planned_at(place: &Place, state: &State) -> u16
    ensures { result ≡ planned_at (place_record_of place.now) state.now.values }
{
    taken_from(place.tested.as_slice(), place.last, &at_rest(state))
}
