// The question that an obligation poses, if there is such an obligation.
ghost use Rattle.obligations.specs.Questions.{Asks, Relates};
ghost use Rattle.records.specs.Records.{TableData, WitnessData};
ghost use Rattle.semantics.specs.Enumerated.{consecution_of, restriction_of, guard_of, exit_of, question_of};

use crate::facts::{add_rows, condition_and_entry, condition_and_guard, entry_transition};
use crate::goals::{after_update, with_choices};
use crate::lookups::{Records, row_with};
use crate::question::Question;
use rows::Numbers;
use semantics::Obligation;

impl<'a> Records<'a> {
    // C: a row of the condition of an inner transition's target holds after the update.
    fn consecution(&self, number: u16, row: u8) -> Option<Question>
        ensures { Asks (λ (t : TableData) (w : WitnessData). consecution_of t w number row) self.now result }
    {
        let transition = self.transition_with(number)?;
        let inner = self.inner_with(number)?;
        let from = self.place_with(transition.start)?;
        let into = self.place_with(transition.target)?;
        let row = row_with(&into.condition, row)?;
        let mut facts = condition_and_guard(from, transition);
        add_rows(&mut facts, &inner.restrictions);
        let goal = after_update(transition, &row);
        Some(Question { facts, goal })
    }

    // R: the choices of the witness meet a row of an inner transition's restriction.
    fn restriction(&self, number: u16, row: u8) -> Option<Question>
        ensures { Asks (λ (t : TableData) (w : WitnessData). restriction_of t w number row) self.now result }
    {
        let transition = self.transition_with(number)?;
        let inner = self.inner_with(number)?;
        let from = self.place_with(transition.start)?;
        let row = row_with(&inner.restrictions, row)?;
        let facts = condition_and_guard(from, transition);
        let goal = with_choices(inner, &row);
        Some(Question { facts, goal })
    }

    // G: a guard row of an entry's transition is met where the plan takes the entry.
    fn guard(&self, place: u16, entry: u8, row: u8) -> Option<Question>
        ensures { Asks (λ (t : TableData) (w : WitnessData). guard_of t w place entry row) self.now result }
    {
        let from = self.place_with(place)?;
        let number = entry_transition(from, usize::from(entry))?;
        let transition = self.transition_with(number)?;
        let row = row_with(&transition.guard, row)?;
        let facts = condition_and_entry(from, usize::from(entry));
        let goal = *row.numbers();
        Some(Question { facts, goal })
    }

    // X: a transition from a listed place that is not inner cannot be taken where the condition holds.
    fn exit(&self, number: u16) -> Option<Question>
        ensures { Asks (λ (t : TableData) (w : WitnessData). exit_of t w number) self.now result }
    {
        if self.inner_with(number).is_some() {
            return None;
        }
        let transition = self.transition_with(number)?;
        let from = self.place_with(transition.start)?;
        let facts = condition_and_guard(from, transition);
        let goal = Numbers {
            bound: -1,
            ..Numbers::default()
        };
        Some(Question { facts, goal })
    }

    // The question that an obligation poses; none where the table and the witness have no such obligation.
    pub fn question_of(&self, obligation: Obligation) -> Option<Question>
        ensures value { Asks (λ (t : TableData) (w : WitnessData). question_of t w obligation) self.now result }
        ensures related { Relates self.now obligation result }
    {
        match obligation {
            Obligation::Consecution(number, row) => self.consecution(number, row),
            Obligation::Restriction(number, row) => self.restriction(number, row),
            Obligation::Guard(place, entry, row) => self.guard(place, entry, row),
            Obligation::Exit(number) => self.exit(number),
        }
    }
}
