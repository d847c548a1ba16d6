// Tables and witnesses: the readers of their bytes.
#![tactic(auto)]

pub mod admission;
mod named;
pub mod piece;
mod pieces;
mod references;
pub mod stored;
pub mod table;
mod transitions;
pub mod view;
pub mod witness;

pub use admission::{read_witness, test_witness};
pub use piece::Piece;
// The records and what holds them are of the crate `records`; whoever reads finds them here too.
pub use records::{
    BoundedList, Heading, Inner, Numbered, Place, PlanEntry, Register, Shape, Transition, Written,
    bounded, heading, limits, register, shape,
};
pub use table::{read_table, test_table};
pub use view::TableView;
pub use witness::{WitnessPiece, WitnessReader};
