// Steps, plans and obligations on plain values: what a case works out of its table and its witness.
#![tactic(auto)]

pub mod choices;
pub mod facts;
pub mod goals;
pub mod listing;
pub mod lookups;
pub mod meeting;
pub mod moving;
pub mod question;
pub mod state;

pub use goals::{after_update, with_choices};
pub use lookups::Records;
pub use meeting::{condition_unmet, guard_unmet, initial_unmet, restriction_unmet};
pub use moving::{choices_at, planned_at, updated};
pub use question::Question;
pub use state::{Choices, State, at_rest, point_of};
