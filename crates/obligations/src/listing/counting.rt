// Counting through the obligations of each kind, and of all: a count breaks off at the one with the index, or goes on
// behind the last with what is left of the index.
ghost use Rattle.std.specs.Prelude.{◌≡◌, ℕ, ◌≤◌, map};
ghost use Rattle.obligations.specs.Listings.{Reached};
ghost use Rattle.obligations.specs.Questions.{table_of, bare_table, witness_of, Obliges};
ghost use Rattle.records.specs.Lists.{at};
ghost use Rattle.records.specs.Records.{HeadingData, transition_of, place_record_of, inner_of};
ghost use Rattle.semantics.specs.Enumerated.{gathered, consecutions_of, restrictions_of, guards_at, guards_of, exits_of, obligations_of};
ghost use Rattle.std.specs.List.{range_with_len};

use crate::lookups::Records;
use records::{Inner, Place, Transition};
use semantics::Obligation;
use std::ops::ControlFlow;

// The number with the index, among 0, 1 and so on up to so many.
fn nth_of(rows: usize, index: usize) -> ControlFlow<u8, usize>
    requires { rows ≤ 256 }
    ensures { Reached index (range_with_len 0 rows) result }
{
    // A match and no `map_or`, since the cast is in range in its own branch alone.
    match index.checked_sub(rows) {
        Some(left) => ControlFlow::Continue(left),
        None => ControlFlow::Break(index as u8),
    }
}

// R: the restriction rows of an inner transition.
fn restriction_in(inner: &Inner, index: usize) -> ControlFlow<Obligation, usize>
    ensures { Reached index (restrictions_of (inner_of inner.now)) result }
{
    nth_of(inner.restrictions.len(), index).map_break(|row| Obligation::Restriction(
        inner.number,
        row,
    ))
}

impl<'a> Records<'a> {
    // C: the rows of the condition of an inner transition's target.
    fn consecution_in(&self, inner: &Inner, index: usize) -> ControlFlow<Obligation, usize>
        ensures { Reached index (consecutions_of (bare_table self.now) (witness_of self.now) (inner_of inner.now)) result }
    {
        nth_of(self.target_rows(inner.number), index).map_break(|row| Obligation::Consecution(
            inner.number,
            row,
        ))
    }

    // G: the guard rows of the transition of an entry of a plan.
    fn entry_guard_in(
        &self,
        place: &Place,
        entry: u8,
        index: usize,
    ) -> ControlFlow<Obligation, usize>
        ensures { Reached index (guards_at (bare_table self.now) (place_record_of place.now) entry) result }
    {
        nth_of(self.guard_rows(place, usize::from(entry)), index).map_break(|row| Obligation::Guard(
            place.number,
            entry,
            row,
        ))
    }

    // G: the same for each entry of a place's plan.
    fn guard_in(&self, place: &Place, index: usize) -> ControlFlow<Obligation, usize>
        ensures { Reached index (guards_of (bare_table self.now) (place_record_of place.now)) result }
    {
        let entries = place.tested.len() as u8 + 1;
        (0..entries).try_fold(index, |left, entry| self.entry_guard_in(place, entry, left))
    }

    // X: the transition itself, if it leaves a listed place and is not inner.
    fn exit_in(&self, transition: &Transition, index: usize) -> ControlFlow<Obligation, usize>
        ensures { Reached index (exits_of (witness_of self.now) (transition_of transition.now)) result }
    {
        nth_of(usize::from(self.is_exit(transition)), index).map_break(|_| Obligation::Exit(
            transition.number,
        ))
    }

    // The same for each record of a kind.
    // One function for each kind: a generic one would be handed the list and the count, and be this fold alone.
    fn consecution_at(&self, index: usize) -> ControlFlow<Obligation, usize>
        ensures { Reached index (gathered (consecutions_of (bare_table self.now) (witness_of self.now)) (map inner_of self.now.inners.now)) result }
    {
        self.inners
            .iter()
            .try_fold(index, |left, inner| self.consecution_in(inner, left))
    }

    fn restriction_at(&self, index: usize) -> ControlFlow<Obligation, usize>
        ensures { Reached index (gathered restrictions_of (map inner_of self.now.inners.now)) result }
    {
        self.inners
            .iter()
            .try_fold(index, |left, inner| restriction_in(inner, left))
    }

    fn guard_at(&self, index: usize) -> ControlFlow<Obligation, usize>
        ensures { Reached index (gathered (guards_of (bare_table self.now)) (map place_record_of self.now.places.now)) result }
    {
        self.places
            .iter()
            .try_fold(index, |left, place| self.guard_in(place, left))
    }

    fn exit_at(&self, index: usize) -> ControlFlow<Obligation, usize>
        ensures { Reached index (gathered (exits_of (witness_of self.now)) (map transition_of self.now.transitions.now)) result }
    {
        self.transitions
            .iter()
            .try_fold(index, |left, transition| self.exit_in(transition, left))
    }

    // All obligations, one kind after another.
    // Apart from `obligation_at`: `?` hands on a `ControlFlow`, of which that function makes an `Option`.
    fn counted_to(&self, index: usize) -> ControlFlow<Obligation, usize>
        ensures { Reached index (obligations_of (bare_table self.now) (witness_of self.now)) result }
    {
        let past_consecutions = self.consecution_at(index)?;
        let past_restrictions = self.restriction_at(past_consecutions)?;
        let past_guards = self.guard_at(past_restrictions)?;
        self.exit_at(past_guards)
    }

    // The obligation with an index; none where there are no more than that.
    pub fn obligation_at(&self, index: usize) -> Option<Obligation>
        ensures value { (heading : HeadingData) → result ≡ at index (obligations_of (table_of heading self.now) (witness_of self.now)) }
        ensures related { Obliges self.now result }
    {
        self.counted_to(index).break_value()
    }
}
