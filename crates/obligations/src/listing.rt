// The obligations of a table and a witness, by their index in the order C, R, G, X, the lowest first.
pub mod counting;
mod groups;
