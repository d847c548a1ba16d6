// The model of a case and the guarantee on it.
#![tactic(auto)]

pub mod dossiers;
pub mod guarantee;
pub mod samples;
pub mod sharp;
pub mod unrolling;
