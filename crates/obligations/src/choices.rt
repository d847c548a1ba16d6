// The choices of a step under a path of their own, which callers may name; the type stands in `state` beside that of a state.
pub use crate::state::Choices;
