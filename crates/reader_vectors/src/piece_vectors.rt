// The reader that hands out the pieces of a witness.
use crate::building::*;
use crate::reading::*;
use rows::FaultKind::*;
use rows::{Fault, FaultKind};
use sequences::{Piece, WitnessPiece, WitnessReader};
use std::process::Abort;
use std::test::Fail;

#[derive(Clone, Copy, PartialEq, Eq, Debug)]
enum Kind {
    Place,
    Transition,
}

// The offsets, lengths and kinds of the pieces of a witness with two places and two inner transitions.
const PIECES: [(usize, usize, Kind); 4] = [
    (1, 33, Kind::Place),
    (36, 33, Kind::Place),
    (71, 32, Kind::Transition),
    (105, 32, Kind::Transition),
];

// A piece's offset, the length of its rest and its kind.
fn told(piece: WitnessPiece<'_>) -> (usize, usize, Kind) {
    match piece {
        WitnessPiece::Place(piece) => (piece.offset, piece.rest.len(), Kind::Place),
        WitnessPiece::Transition(piece) => (piece.offset, piece.rest.len(), Kind::Transition),
    }
}

// What the reader hands out next, if there is a piece.
fn handed(reader: &mut WitnessReader<'_>) -> Result<Option<(usize, usize, Kind)>, Fault> {
    Ok(reader.next()?.map(|piece| told(piece)))
}

// A piece as it stands in a file in which the witness begins at an offset.
fn moved<'a>(piece: Piece<'a>, base: usize) -> Piece<'a> {
    Piece {
        offset: piece.offset.saturating_add(base),
        ..piece
    }
}

// A byte changed, the number of bytes, how many pieces are handed out, and what comes then, again and again: only the
// version, lengths and kinds are tested.
static VECTORS: [(&[Change], Option<usize>, usize, Expected<()>); 15] = [
    (NONE, Some(0), 0, Err((WitnessVersion, 0))),
    (&[(0, 0)], WHOLE, 0, Err((WitnessVersion, 0))),
    (&[(0, 2)], WHOLE, 0, Err((WitnessVersion, 0))),
    (NONE, WHOLE, 4, Ok(())),
    (NONE, Some(1), 0, Ok(())),
    (NONE, Some(105), 3, Ok(())),
    (NONE, Some(106), 3, Err((WitnessLength, 105))),
    (NONE, Some(100), 2, Err((WitnessLength, 71))),
    (&[(1, 255)], WHOLE, 0, Err((WitnessLength, 1))),
    (&[(2, 0)], WHOLE, 0, Err((WitnessLength, 1))),
    (&[(3, 0)], WHOLE, 0, Err((WitnessCount, 3))),
    (&[(38, 3)], WHOLE, 1, Err((WitnessCount, 38))),
    (&[(107, 3)], WHOLE, 3, Err((WitnessCount, 107))),
    (&[(6, 7)], WHOLE, 4, Ok(())),
    (&[(21, 0)], WHOLE, 4, Ok(())),
];

// The reader hands out so many pieces, and then it tells the same twice.
fn expect_pieces(
    rt: &impl Abort,
    vector: usize,
    bytes: &[u8],
    count: usize,
    end: Option<Fault>,
) -> Result<(), Fail> {
    let mut reader = match WitnessReader::new(bytes) {
        Ok(reader) => reader,
        Err(fault) => {
            assert_eq!(rt; Some(fault), end, "vector {vector}");
            return Ok(());
        }
    };
    for piece in PIECES.into_iter().take(count) {
        assert_eq!(rt; handed(&mut reader), Ok(Some(piece)), "vector {vector}");
    }
    let told = end.map_or(Ok(None), Err);
    assert_eq!(rt;
        (handed(&mut reader), handed(&mut reader)),
        (told, told),
        "vector {vector}"
    );
    Ok(())
}

#[test]
fn pieces_handed_out(rt: HostRuntime) -> Result<(), Fail> {
    for (i, &(changed, length, count, expected)) in VECTORS.iter().enumerate() {
        let mut bytes = witness(rt.alloc(), (SMALL, (2, 11, 13, 0), (1, 2, 1)))?;
        let changes = Changes {
            bytes: changed,
            length,
        };
        change(&mut bytes, changes)?;
        expect_pieces(&rt, i, &bytes, count, fault_of(expected))?;
    }
    Ok(())
}

// A piece is two plain fields: whoever makes one or moves one is asked for nothing.
#[test]
fn pieces_made_and_moved(rt: HostRuntime) -> Result<(), Fail> {
    let rest = [1, 0, 11];
    let piece = Piece {
        offset: 7,
        rest: &rest,
    };
    let far = moved(piece, usize::MAX);
    let empty = Piece { rest: &[], ..piece };
    assert_eq!(rt; told(WitnessPiece::Place(piece)), (7, 3, Kind::Place));
    assert_eq!(rt;
        told(WitnessPiece::Place(moved(piece, 100))),
        (107, 3, Kind::Place)
    );
    assert_eq!(rt;
        told(WitnessPiece::Place(far)),
        (usize::MAX, 3, Kind::Place)
    );
    assert_eq!(rt;
        told(WitnessPiece::Transition(empty)),
        (7, 0, Kind::Transition)
    );
    assert_eq!(rt; moved(piece, 100).rest, rest.as_slice());
    Ok(())
}
