// The transitions of a table, one after another.
ghost use Rattle.std.specs.Prelude.{ℕ, ◌≤◌, length};
ghost use Rattle.records.specs.Limits.{most_values};

use records::Shape;

// Reads the transitions from an offset to the end. `room` more may come, and the one before has the number `last`.
#[derive(Drop)]
pub(crate) struct TransitionReader<'a> {
    pub(crate) bytes: &'a [u8],
    pub(crate) at: usize,
    pub(crate) shape: Shape,
    pub(crate) room: usize,
    pub(crate) last: u16,
    ghost within: { at ≤ length bytes.now },
    ghost values: { shape.values ≤ most_values },
}

mod methods;
