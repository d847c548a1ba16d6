// Reading a transition from its piece, and going on to the next.
ghost use Rattle.std.specs.Prelude.{◌≡◌, ◌≤◌, length};
ghost use Rattle.formats.specs.Pieces.{giving, pieces_from, piece_end};
ghost use Rattle.formats.specs.Tables.{transition_at, transition_says};
ghost use Rattle.records.specs.Records.{heading_of, shape_of, transition_of};
ghost use Rattle.sequences.specs.StoredMade.{plainly};
ghost use Rattle.sequences.specs.TransitionsHanded.{reading_of, starting, HandedOut};

use crate::piece::{LENGTH_BYTES, LocatedPiece};
use crate::pieces::{PIECES_FROM, piece_at};
use crate::stored::rows_at;
use crate::transitions::TransitionReader;
use records::limits::{MOST_GUARDS, MOST_TRANSITIONS};
use records::{Heading, Transition};
use rows::bytes::word_at;
use rows::{Fault, FaultKind, check};

// Where the fields of a transition piece stand in its rest.
const NUMBER_FROM: usize = 0;

const START_FROM: usize = 2;

const TARGET_FROM: usize = 4;

const GUARD_COUNT_FROM: usize = 6;

const GUARD_FROM: usize = 7;

// Where the transitions begin.
fn transitions_from(bytes: &[u8]) -> usize
    ensures { result ≡ piece_end bytes.now pieces_from }
{
    PIECES_FROM + LENGTH_BYTES + usize::from(word_at(bytes, PIECES_FROM))
}

impl<'a> TransitionReader<'a> {
    // A reader of all transitions of a table, whose heading has been read.
    pub(crate) fn new(bytes: &'a [u8], heading: &Heading) -> TransitionReader<'a>
        requires { piece_end bytes.now pieces_from ≤ length bytes.now }
        ensures { reading_of result ≡ starting bytes.now (shape_of (heading_of heading.now)) }
    {
        TransitionReader {
            bytes,
            at: transitions_from(bytes),
            shape: heading.shape(),
            room: MOST_TRANSITIONS,
            last: 0,
        }
    }

    // The transition in a piece.
    fn transition(&self, piece: LocatedPiece<'_>) -> Result<Transition, Fault>
        ensures { plainly transition_of result ≡ giving (transition_says self.now.shape self.now.room self.now.last piece.entry.offset piece.entry.rest.now) (transition_at self.now.shape piece.entry.rest.now) }
    {
        piece.reaches(GUARD_COUNT_FROM + 1, FaultKind::TableLength)?;
        check(
            0 < self.room,
            Fault::at(FaultKind::TableCount, piece.offset),
        )?;
        let rows = piece.count_at(GUARD_COUNT_FROM, 0, MOST_GUARDS, FaultKind::TableCount)?;
        let count = usize::from(rows);
        let values = usize::from(self.shape.values);
        let plain = self.shape.over_values();
        let updates_from = GUARD_FROM + plain.stride() * count;
        piece.is_long(
            updates_from + self.shape.stride() * values,
            FaultKind::TableLength,
        )?;
        let number = piece.number_above(NUMBER_FROM, self.last, FaultKind::TableNumber)?;
        let start = piece.number_above(START_FROM, 0, FaultKind::TableNumber)?;
        let target = piece.number_above(TARGET_FROM, 0, FaultKind::TableNumber)?;
        let guard = rows_at(piece, plain, GUARD_FROM, count, FaultKind::TableWritten)?;
        let updates = rows_at(
            piece,
            self.shape,
            updates_from,
            values,
            FaultKind::TableWritten,
        )?;
        Ok(Transition {
            number,
            start,
            target,
            guard,
            updates,
        })
    }

    // The next transition, if bytes are left. After a fault the reader stands where it stood.
    // No `Iterator`: a reader stands still at a fault, so as an iterator it would not end.
    pub(crate) fn next(&mut self) -> Result<Option<Transition>, Fault>
        ensures { HandedOut (reading_of self.old) result (reading_of self.new) }
    {
        if self.at >= self.bytes.len() {
            return Ok(None);
        }
        let piece = piece_at(self.bytes, self.at, FaultKind::TableLength)?;
        let transition = self.transition(piece)?;
        self.at = piece.end();
        self.room -= 1;
        self.last = transition.number;
        Ok(Some(transition))
    }
}
