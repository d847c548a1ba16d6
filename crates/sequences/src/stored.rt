// Rows and expressions that stand in bytes.
ghost use Rattle.std.specs.Prelude.{◌≡◌, ℕ, ◌+◌, ◌*◌, ◌^◌, ◌<◌, ◌≤◌, length};
ghost use Rattle.sequences.specs.StoredMade.{row_from, rows_from};
ghost use Rattle.sequences.specs.Handed.{plain_piece};
ghost use Rattle.formats.specs.StoredRows.{item_at, row_at};
ghost use Rattle.records.specs.Slots.{stride};

use crate::piece::{LENGTH_BYTES, LocatedPiece};
use records::{BoundedList, Shape, Written};
use rows::bytes::number_at;
use rows::limits::COLUMNS;
use rows::{Fault, FaultKind, Numbers};
use std::array;

// The number of an item of the row at an offset; a column that is not stored is zero.
fn item_at(bytes: &[u8], shape: Shape, at: usize, item: usize) -> i64
    ensures { result ≡ item_at shape bytes.now at item }
{
    shape.slot(item).map_or(0, |slot| {
        number_at(bytes, at.saturating_add(4 * usize::from(slot)))
    })
}

// The numbers of the row at an offset, not yet tested.
// No shared function of a closure over the items: it would be public in rows, and public functions ask nothing.
fn numbers_at(bytes: &[u8], shape: Shape, at: usize) -> Numbers
    ensures { result ≡ row_at shape bytes.now at }
{
    Numbers {
        coefficients: array::from_fn(|column| item_at(bytes, shape, at, column)),
        bound: item_at(bytes, shape, at, COLUMNS),
    }
}

// The row or expression at an offset of a piece's rest, once its numbers are tested.
// The piece and the shape are no struct: the rows of one piece have two shapes.
pub(crate) fn row_at<T: Written>(
    piece: LocatedPiece<'_>,
    shape: Shape,
    at: usize,
    kind: FaultKind,
) -> Result<T, Fault>
    requires { at + stride shape ≤ length piece.rest.now }
    ensures { row_from T.Written.plain kind shape (plain_piece piece.entry) at result }
{
    T::written(numbers_at(piece.rest, shape, at)).map_err(|too_large| {
        let slot = shape.slot(usize::from(too_large.item)).unwrap_or(0);
        let place = piece.offset + LENGTH_BYTES + at + 4 * usize::from(slot);
        Fault::at(kind, place)
    })
}

// Rows or expressions one behind another.
pub(crate) fn rows_at<T: Written, const N: usize>(
    piece: LocatedPiece<'_>,
    shape: Shape,
    from: usize,
    count: usize,
    kind: FaultKind,
) -> Result<BoundedList<T, N>, Fault>
    requires room { count ≤ N }
    requires within { from + stride shape * count ≤ length piece.rest.now }
    ensures { rows_from T.Written.plain kind shape (plain_piece piece.entry) from count result }
{
    let mut rows = BoundedList::new(T::zero());
    let stride = shape.stride();
    // `i` counts rows. With offsets by `step_by` the loop ended in two ways, and four goals of its proof stayed open.
    for i in 0..count {
        let row = row_at(piece, shape, from + stride * i, kind)?;
        rows.push(row);
    }
    Ok(rows)
}
