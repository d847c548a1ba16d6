// What the console does with a command: stacks of methods by name, and the facts and the goal that it holds.
#![tactic(auto)]

pub mod session;
pub mod stacks;

pub use session::Session;
pub use stacks::{BaseMethod, Layered, Stacked, named_stack};
