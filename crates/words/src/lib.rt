// Words of a line and what they write: numbers, bytes, and why a word or a line is refused.
#![tactic(auto)]

pub mod arguments;
pub mod errors;
pub mod hex;
pub mod numerals;
pub mod words;

pub use errors::LineError;
pub use hex::Hex;
pub use numerals::number;
pub use words::Words;
