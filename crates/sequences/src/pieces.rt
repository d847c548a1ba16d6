// Finding the pieces of a table or a witness.
ghost use Rattle.std.specs.Prelude.{◌≡◌, ℕ, ◌≤◌, length};
ghost use Rattle.formats.specs.Pieces.{version_says};
ghost use Rattle.sequences.specs.PiecesFound.{piece_found};
ghost use Rattle.sequences.specs.Handed.{plain_piece};
ghost use Rattle.sequences.specs.StoredMade.{plainly};

use crate::piece::{LENGTH_BYTES, LocatedPiece};
use rows::bytes::word_at;
use rows::{Answer, Fault, FaultKind};

// The version that the first byte names, and where the first piece begins.
const VERSION: u8 = 1;

pub(crate) const PIECES_FROM: usize = 1;

// Whether the first byte is there and names the version.
pub(crate) fn version_test(bytes: &[u8], kind: FaultKind) -> Answer
    ensures { result ≡ version_says kind bytes.now }
{
    match bytes {
        [VERSION, ..] => Ok(()),
        _ => Err(Fault::at(kind, 0)),
    }
}

// The piece that begins at an offset, where its length field and its rest lie within the input.
pub(crate) fn piece_at<'a>(
    input: &'a [u8],
    at: usize,
    kind: FaultKind,
) -> Result<LocatedPiece<'a>, Fault>
    ensures { piece_found kind input.now at (plainly plain_piece result) }
{
    let fault = Fault::at(kind, at);
    let from = at.saturating_add(LENGTH_BYTES);
    let left = input.get(from..).ok_or(fault)?;
    let length = usize::from(word_at(input, at));
    let rest = left.get(..length).ok_or(fault)?;
    Ok(LocatedPiece { offset: at, rest })
}
