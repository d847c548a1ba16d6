// Every line that the console prints: what is answered to a command, and to a line that is none.
#![tactic(auto)]

pub mod error_line;
pub mod reply;

pub use error_line::ErrorLine;
pub use reply::{Reply, TableRead, WitnessRead};

#[cfg(test)]
mod tests;
