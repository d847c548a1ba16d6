// The records of a table and a witness, short lists by value, and the register that holds records in lent memory.
#![tactic(auto)]

pub mod bounded;
pub mod heading;
pub mod limits;
pub mod numbered;
pub mod records;
pub mod register;
pub mod shape;
pub mod written;

pub use bounded::BoundedList;
pub use heading::Heading;
pub use numbered::{Numbered, with_number};
pub use records::{Inner, Place, PlanEntry, Transition};
pub use register::Register;
pub use shape::Shape;
pub use written::Written;
