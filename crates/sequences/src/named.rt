// What the references of a witness are looked up in.
use crate::view::TableView;
use crate::witness::Noted;

// A table, and the numbers of a witness's places and inner transitions.
#[derive(Clone, Copy)]
pub(crate) struct Named<'a> {
    pub(crate) table: TableView<'a>,
    pub(crate) noted: &'a Noted,
}
