// A piece of a table or a witness.
ghost use Rattle.std.specs.Prelude.{ℕ, ◌+◌, ◌^◌, ◌<◌, length};
ghost use Rattle.formats.specs.Pieces.{rest_from};

// A piece: the offset of its length field, and its rest as a part of the input.
#[derive(Clone, Copy)]
pub struct Piece<'a> {
    pub offset: usize,
    pub rest: &'a [u8],
}

// A piece that was found in an input: each of its bytes has an offset.
// A type of this crate alone: in `Piece` that would be asked of everyone who makes a piece or moves one.
#[derive(Clone, Copy)]
pub(crate) struct LocatedPiece<'a> {
    pub(crate) offset: usize,
    pub(crate) rest: &'a [u8],
    ghost located: { rest_from offset + length rest.now < 2 ^ 64 },
}

// The bytes of a length field.
pub(crate) const LENGTH_BYTES: usize = 2;

mod methods;
