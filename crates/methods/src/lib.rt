// Proof methods: what one is, multipliers and look-up, the layers cut and split, and asking any of them.
#![tactic(auto)]

mod asking;
pub mod claim;
mod columns;
pub mod cut;
pub mod layer;
pub mod limits;
pub mod look_up;
pub mod method;
pub mod multipliers;
mod opening;
pub mod split;
mod weights;

pub use asking::ask;
pub use claim::Claim;
pub use cut::Cut;
pub use look_up::LookUp;
pub use method::ProofMethod;
pub use multipliers::Multipliers;
pub use split::Split;
