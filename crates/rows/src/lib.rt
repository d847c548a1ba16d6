// Rows of whole numbers, the limits on them, and the faults of the product.
#![tactic(auto)]

pub mod bytes;
pub mod expression;
pub mod fault;
pub mod limits;
pub mod numbers;
pub mod row;
pub mod values;
pub mod written;

pub use expression::Expression;
pub use fault::{Answer, Fault, FaultKind, check, moved};
pub use limits::Limit;
pub use numbers::{Numbers, TooLarge};
pub use row::Row;
pub use values::{Point, Values};
pub use written::WrittenRow;
