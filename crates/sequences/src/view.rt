// The table that a witness is read against.
use records::{Heading, Transition};

// A table as its heading and its transitions.
#[derive(Clone, Copy)]
pub struct TableView<'a> {
    pub heading: &'a Heading,
    pub transitions: &'a [Transition],
}
