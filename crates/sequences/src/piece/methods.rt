// The fields of a piece, and the tests on them.
ghost use Rattle.std.specs.Prelude.{◌≡◌, ℕ, ◌+◌, ◌≤◌, length};
ghost use Rattle.formats.specs.Pieces.{rest_from, byte_at, fault_at, reach_says, long_says, count_says, above_says, giving};
ghost use Rattle.rows.specs.Bytes.{word_at};
ghost use Rattle.sequences.specs.Handed.{plain_piece};

use crate::piece::{LENGTH_BYTES, LocatedPiece, Piece};
use rows::bytes::{byte_at, word_at};
use rows::{Answer, Fault, FaultKind, check};

impl<'a> LocatedPiece<'a> {
    // The piece as a user gets it.
    pub(crate) fn plain(self) -> Piece<'a>
        ensures { result ≡ plain_piece self.entry }
    {
        Piece {
            offset: self.offset,
            rest: self.rest,
        }
    }

    // The fault at a byte of the rest, or at its end.
    // Three functions ask that an offset lies within the rest: it belongs to one call, and no struct holds it.
    pub(crate) fn fault(self, kind: FaultKind, at: usize) -> Fault
        requires { at ≤ length self.rest.now }
        ensures { result ≡ fault_at kind (rest_from self.entry.offset + at) }
    {
        Fault::at(kind, self.offset + LENGTH_BYTES + at)
    }

    // Where the next piece begins.
    pub(crate) fn end(self) -> usize
        ensures { result ≡ rest_from self.entry.offset + length self.entry.rest.now }
    {
        self.offset + LENGTH_BYTES + self.rest.len()
    }

    // Whether the rest has so many bytes at least.
    // The kind of the fault is a parameter: a table and a witness have kinds of their own for the same test.
    pub(crate) fn reaches(self, n: usize, kind: FaultKind) -> Answer
        ensures { result ≡ reach_says kind self.entry.offset self.entry.rest.now n }
    {
        check(n <= self.rest.len(), Fault::at(kind, self.offset))
    }

    // Whether the rest has exactly so many bytes.
    // The kind of the fault is a parameter: a table and a witness have kinds of their own for the same test.
    pub(crate) fn is_long(self, n: usize, kind: FaultKind) -> Answer
        ensures { result ≡ long_says kind self.entry.offset self.entry.rest.now n }
    {
        check(self.rest.len() == n, Fault::at(kind, self.offset))
    }

    // The count in a byte of the rest, which lies within its limits.
    // The kind of the fault is a parameter: a table and a witness have kinds of their own for the same test.
    pub(crate) fn count_at(
        self,
        at: usize,
        least: usize,
        most: usize,
        kind: FaultKind,
    ) -> Result<u8, Fault>
        requires { at ≤ length self.rest.now }
        ensures { result ≡ giving (count_says kind self.entry.offset self.entry.rest.now at least most) (byte_at self.entry.rest.now at) }
    {
        let count = byte_at(self.rest, at);
        let fits = (least..=most).contains(&usize::from(count));
        check(fits, self.fault(kind, at))?;
        Ok(count)
    }

    // The number in two bytes of the rest, which is greater than another.
    // The kind of the fault is a parameter: a table and a witness have kinds of their own for the same test.
    pub(crate) fn number_above(self, at: usize, least: u16, kind: FaultKind) -> Result<u16, Fault>
        requires { at ≤ length self.rest.now }
        ensures { result ≡ giving (above_says kind self.entry.offset self.entry.rest.now at least) (word_at self.entry.rest.now at) }
    {
        let number = word_at(self.rest, at);
        check(least < number, self.fault(kind, at))?;
        Ok(number)
    }
}
