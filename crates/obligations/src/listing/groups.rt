// How many obligations there are about one record.
ghost use Rattle.std.specs.Prelude.{◌≡◌, ℕ, ◌≤◌, not, ◌&&◌, is_some};
ghost use Rattle.obligations.specs.Questions.{bare_table, witness_of};
ghost use Rattle.records.specs.Limits.{most_conditions, most_guards};
ghost use Rattle.records.specs.Records.{transition_of, place_record_of};
ghost use Rattle.semantics.specs.Enumerated.{given, entry_transition, condition_rows, guard_rows};
ghost use Rattle.semantics.specs.Plans.{transition_with, inner_with, place_with};
ghost use Rattle.std.specs.Option.{option_map, option_copied};

use crate::facts::entry_transition;
use crate::lookups::Records;
use records::{Place, Transition};

impl<'a> Records<'a> {
    // The listed place that the transition with a number leads to.
    fn target_of(&self, number: u16) -> Option<&'a Place>
        ensures { option_map place_record_of (option_copied result) ≡ given (transition_with (bare_table self.now) number) (λ t. place_with (witness_of self.now) t.target) }
    {
        let transition = self.transition_with(number)?;
        self.place_with(transition.target)
    }

    // How many rows the condition of that place has.
    pub(crate) fn target_rows(&self, number: u16) -> usize
        ensures value { result ≡ condition_rows (given (transition_with (bare_table self.now) number) (λ t. place_with (witness_of self.now) t.target)) }
        ensures within { result ≤ most_conditions }
    {
        self.target_of(number)
            .map_or(0, |place| place.condition.len())
    }

    // The transition of an entry of a plan.
    fn taken_by(&self, place: &Place, entry: usize) -> Option<&'a Transition>
        ensures { option_map transition_of (option_copied result) ≡ given (entry_transition (place_record_of place.now) entry) (transition_with (bare_table self.now)) }
    {
        let number = entry_transition(place, entry)?;
        self.transition_with(number)
    }

    // How many rows its guard has.
    pub(crate) fn guard_rows(&self, place: &Place, entry: usize) -> usize
        ensures value { result ≡ guard_rows (given (entry_transition (place_record_of place.now) entry) (transition_with (bare_table self.now))) }
        ensures within { result ≤ most_guards }
    {
        self.taken_by(place, entry)
            .map_or(0, |transition| transition.guard.len())
    }

    // Whether a transition leaves a listed place and is not inner.
    pub(crate) fn is_exit(&self, transition: &Transition) -> bool
        ensures { result ≡ (is_some (place_with (witness_of self.now) transition.now.start) && not (is_some (inner_with (witness_of self.now) transition.now.number))) }
    {
        self.place_with(transition.start).is_some() && self.inner_with(transition.number).is_none()
    }
}
