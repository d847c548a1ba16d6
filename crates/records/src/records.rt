// What a table and a witness hold. Unused parts are zero.
use crate::bounded::BoundedList;
use crate::limits::{
    MOST_CHOICES, MOST_CONDITIONS, MOST_GUARDS, MOST_RESTRICTIONS, MOST_TESTED, MOST_VALUES,
};
use rows::{Expression, WrittenRow};

// A transition from the place `start` to the place `target`: its guard rows, and an update for each state value.
#[derive(Clone, Copy)]
pub struct Transition {
    pub number: u16,
    pub start: u16,
    pub target: u16,
    pub guard: BoundedList<WrittenRow, MOST_GUARDS>,
    pub updates: BoundedList<Expression, MOST_VALUES>,
}

// An entry of a plan: its transition is taken where the test row is met.
#[derive(Clone, Copy)]
pub struct PlanEntry {
    pub transition: u16,
    pub test: WrittenRow,
}

// A listed place: a place that the witness gives a condition and a plan. The plan is the entries with a test, in their
// order, and the last entry, which has none and is taken where no test is met.
#[derive(Clone, Copy)]
pub struct Place {
    pub number: u16,
    pub condition: BoundedList<WrittenRow, MOST_CONDITIONS>,
    pub tested: BoundedList<PlanEntry, MOST_TESTED>,
    pub last: u16,
}

// An inner transition: one that endless runs take, with its restriction rows and an expression for each choice.
#[derive(Clone, Copy)]
pub struct Inner {
    pub number: u16,
    pub restrictions: BoundedList<WrittenRow, MOST_RESTRICTIONS>,
    pub choices: BoundedList<Expression, MOST_CHOICES>,
}
