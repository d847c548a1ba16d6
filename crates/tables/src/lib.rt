// A table that is held by its bytes, what it holds in short, and the witnesses that are read for it.
#![tactic(auto)]

mod blank;
pub mod held;
mod table;
mod witness;

pub use held::HeldTable;
