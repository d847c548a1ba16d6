// The meaning of a table and a witness: runs, plans and obligations, and the laws that they keep.
#![tactic(auto)]

pub mod laws;
pub mod obligation;
pub mod samples;

pub use obligation::Obligation;
