// The lines of the console: what a line says.
#![tactic(auto)]

pub mod parser;
pub mod stacks;

pub use parser::{Command, parse};
pub use stacks::{Base, Layer, Stack};
// From crate words: whoever parses lines finds these here too.
pub use words::{Hex, LineError, Words, number};

#[cfg(test)]
mod tests;
