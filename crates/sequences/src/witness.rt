// Reading the pieces of a witness.
ghost use Rattle.std.specs.Prelude.{◌≡◌, ℕ, ◌+◌, ◌-◌, ◌*◌, ◌^◌, ◌<◌, ◌≤◌, length, is_ok, if◌then◌else◌};
ghost use Rattle.records.specs.Limits.{most_choices, most_tested};
ghost use Rattle.sequences.specs.Handed.{plain_piece, plain_part, piece_of, data_of, located_of, record_of, progress_of, reader_of, standing, handed_at, passed_at};
ghost use Rattle.formats.specs.Pieces.{giving, pieces_from, version_says};
ghost use Rattle.rows.specs.declared.fault.FaultKind.TheVariants.{WitnessVersion};
ghost use Rattle.std.specs.Option.{option_map};
ghost use Rattle.records.specs.Records.{entry_of, place_record_of, inner_of, heading_of, shape_of};
ghost use Rattle.sequences.specs.StoredMade.{plainly};
ghost use Rattle.records.specs.Bounded.{plain_list};
ghost use Rattle.formats.specs.Witnesses.{last_of, entry_from, entry_stride, tested_at, tested_say, place_at, place_says, inner_at, inner_says, kind_says, part_of, begun, body_by, further_by, record_by, pieces_say, witness_at, numbers_in};
ghost use Rattle.records.specs.Bounded.{listed};

use crate::piece::{LocatedPiece, Piece};
use crate::pieces::{PIECES_FROM, piece_at, version_test};
use crate::stored::{row_at, rows_at};
use records::limits::{
    MOST_CONDITIONS, MOST_ENTRIES, MOST_INNERS, MOST_PLACES, MOST_RESTRICTIONS, MOST_TESTED,
};
use records::{BoundedList, Heading, Inner, Place, PlanEntry, Shape, Written};
use rows::bytes::{byte_at, word_at};
use rows::{Answer, Fault, FaultKind, WrittenRow, check};

// Where the fields stand that both kinds of pieces have.
const KIND_FROM: usize = 0;

pub(crate) const NUMBER_FROM: usize = 1;

pub(crate) const COUNT_FROM: usize = 3;

pub(crate) const ROWS_FROM: usize = 4;

// The bytes of a transition's number in a plan entry.
pub(crate) const TRANSITION_BYTES: usize = 2;

// The entries of a plan that have a test.
// The piece and the shape are no struct: the tests are rows over the values alone, with a shape of their own.
fn tested_from(
    piece: LocatedPiece<'_>,
    shape: Shape,
    from: usize,
    count: usize,
) -> Result<BoundedList<PlanEntry, MOST_TESTED>, Fault>
    requires room { count ≤ most_tested }
    requires within { entry_from shape from count ≤ length piece.rest.now }
    ensures { plainly (plain_list entry_of) result ≡ giving (tested_say shape piece.entry.offset piece.entry.rest.now from count) (tested_at shape piece.entry.rest.now from count) }
{
    let mut entries = BoundedList::new(PlanEntry {
        transition: 0,
        test: WrittenRow::zero(),
    });
    let plain = shape.over_values();
    let stride = TRANSITION_BYTES + plain.stride();
    // `i` counts entries, each of a fixed size in bytes: a fault names the byte at which one stands.
    for i in 0..count {
        let at = from + stride * i;
        let test = row_at(
            piece,
            plain,
            at + TRANSITION_BYTES,
            FaultKind::WitnessWritten,
        )?;
        let transition = word_at(piece.rest, at);
        entries.push(PlanEntry { transition, test });
    }
    Ok(entries)
}

// The last of some numbers, 0 where there is none.
fn last_of<const N: usize>(numbers: &BoundedList<u16, N>) -> u16
    ensures { result ≡ last_of (listed numbers.now) }
{
    numbers.as_slice().last().copied().unwrap_or(0)
}

// The numbers of the places and of the inner transitions read so far.
#[derive(Clone, Copy)]
pub struct Noted {
    pub places: BoundedList<u16, MOST_PLACES>,
    pub inners: BoundedList<u16, MOST_INNERS>,
}

// The listed place in a piece.
// The shape is the whole table's, and no part of the piece: a struct of both would join what does not belong together.
fn place_from(piece: LocatedPiece<'_>, shape: Shape, noted: &Noted) -> Result<Place, Fault>
    ensures { plainly place_record_of result ≡ giving (place_says shape (listed noted.now.places) (listed noted.now.inners) piece.entry.offset piece.entry.rest.now) (place_at shape piece.entry.rest.now) }
{
    let places = noted.places.len();
    check(
        places < MOST_PLACES,
        piece.fault(FaultKind::WitnessCount, KIND_FROM),
    )?;
    piece.reaches(COUNT_FROM + 1, FaultKind::WitnessLength)?;
    let rows = piece.count_at(COUNT_FROM, 0, MOST_CONDITIONS, FaultKind::WitnessCount)?;
    let count = usize::from(rows);
    let plain = shape.over_values();
    let stride = plain.stride();
    let plan_count_from = ROWS_FROM + stride * count;
    piece.reaches(plan_count_from + 1, FaultKind::WitnessLength)?;
    let entries = piece.count_at(plan_count_from, 1, MOST_ENTRIES, FaultKind::WitnessCount)?;
    let tests = usize::from(entries) - 1;
    let plan_from = plan_count_from + 1;
    let last_from = plan_from + (TRANSITION_BYTES + stride) * tests;
    piece.is_long(last_from + TRANSITION_BYTES, FaultKind::WitnessLength)?;
    let inners = noted.inners.len();
    check(
        inners == 0,
        piece.fault(FaultKind::WitnessNumber, KIND_FROM),
    )?;
    let before = last_of(&noted.places);
    let number = piece.number_above(NUMBER_FROM, before, FaultKind::WitnessNumber)?;
    let condition = rows_at(piece, plain, ROWS_FROM, count, FaultKind::WitnessWritten)?;
    let tested = tested_from(piece, shape, plan_from, tests)?;
    let last = word_at(piece.rest, last_from);
    Ok(Place {
        number,
        condition,
        tested,
        last,
    })
}

// The inner transition in a piece.
// Not one function with `place_from`: the tests are alike, and every field of the two pieces is another.
fn inner_from(piece: LocatedPiece<'_>, shape: Shape, noted: &Noted) -> Result<Inner, Fault>
    requires { shape.choices ≤ most_choices }
    ensures { plainly inner_of result ≡ giving (inner_says shape (listed noted.now.inners) piece.entry.offset piece.entry.rest.now) (inner_at shape piece.entry.rest.now) }
{
    let inners = noted.inners.len();
    check(
        inners < MOST_INNERS,
        piece.fault(FaultKind::WitnessCount, KIND_FROM),
    )?;
    piece.reaches(COUNT_FROM + 1, FaultKind::WitnessLength)?;
    let rows = piece.count_at(COUNT_FROM, 0, MOST_RESTRICTIONS, FaultKind::WitnessCount)?;
    let count = usize::from(rows);
    let plain = shape.over_values();
    let amount = usize::from(shape.choices);
    let choices_from = ROWS_FROM + shape.stride() * count;
    piece.is_long(
        choices_from + plain.stride() * amount,
        FaultKind::WitnessLength,
    )?;
    let before = last_of(&noted.inners);
    let number = piece.number_above(NUMBER_FROM, before, FaultKind::WitnessNumber)?;
    let restrictions = rows_at(piece, shape, ROWS_FROM, count, FaultKind::WitnessWritten)?;
    let choices = rows_at(
        piece,
        plain,
        choices_from,
        amount,
        FaultKind::WitnessWritten,
    )?;
    Ok(Inner {
        number,
        restrictions,
        choices,
    })
}

// A piece of a witness, by its kind: bytes that are lent, and not yet tested.
#[derive(Clone, Copy)]
pub enum WitnessPiece<'a> {
    // A listed place.
    Place(Piece<'a>),
    // An inner transition.
    Transition(Piece<'a>),
}

// A piece that was found in a witness, by its kind.
#[derive(Clone, Copy)]
pub(crate) enum LocatedPart<'a> {
    Place(LocatedPiece<'a>),
    Transition(LocatedPiece<'a>),
}

impl<'a> LocatedPart<'a> {
    // The piece as a user gets it.
    fn plain(self) -> WitnessPiece<'a>
        ensures { result ≡ plain_part self.entry }
    {
        match self {
            LocatedPart::Place(piece) => WitnessPiece::Place(piece.plain()),
            LocatedPart::Transition(piece) => WitnessPiece::Transition(piece.plain()),
        }
    }
}

// What a piece holds: the record that was read from its bytes. So it is another enum than `WitnessPiece`.
#[derive(Clone, Copy)]
pub enum WitnessRecord {
    Listed(Place),
    Declared(Inner),
}

// Hands out the pieces of a witness, one after another.
#[derive(Drop)]
pub struct WitnessReader<'a> {
    pub(crate) bytes: &'a [u8],
    pub(crate) at: usize,
}

// The kinds of pieces, by their numbers in the byte format.
const PLACE_KIND: u8 = 1;

const INNER_KIND: u8 = 2;

// The kind of a piece, from its byte.
fn kind_of<'a>(piece: LocatedPiece<'a>) -> Result<LocatedPart<'a>, Fault>
    ensures { plainly located_of result ≡ giving (kind_says (piece_of (plain_piece piece.entry))) (part_of (piece_of (plain_piece piece.entry))) }
{
    piece.reaches(KIND_FROM + 1, FaultKind::WitnessLength)?;
    match byte_at(piece.rest, KIND_FROM) {
        PLACE_KIND => Ok(LocatedPart::Place(piece)),
        INNER_KIND => Ok(LocatedPart::Transition(piece)),
        _ => Err(piece.fault(FaultKind::WitnessCount, KIND_FROM)),
    }
}

impl<'a> WitnessReader<'a> {
    // A reader of these bytes, which stands at their first piece; the bytes begin with the version.
    pub fn new(bytes: &'a [u8]) -> Result<WitnessReader<'a>, Fault>
        ensures { plainly reader_of result ≡ giving (version_says WitnessVersion bytes.now) (standing bytes.now pieces_from) }
    {
        version_test(bytes, FaultKind::WitnessVersion)?;
        Ok(WitnessReader::at_pieces(bytes))
    }

    // A reader that stands at the first piece of bytes whose version has been tested.
    pub(crate) fn at_pieces(bytes: &'a [u8]) -> WitnessReader<'a>
        ensures { reader_of result ≡ standing bytes.now pieces_from }
    {
        WitnessReader {
            bytes,
            at: PIECES_FROM,
        }
    }

    // The next piece, if bytes are left. After a fault the reader stands where it stood.
    // No `Iterator`: a reader stands still at a fault, so as an iterator it would not end.
    pub fn next(&mut self) -> Result<Option<WitnessPiece<'a>>, Fault>
        ensures handed { plainly (option_map data_of) result ≡ handed_at (reader_of self.old) }
        ensures stands { reader_of self.new ≡ passed_at (reader_of self.old) }
    {
        Ok(self.next_located()?.map(|part| part.plain()))
    }

    // The same, for the walks of this crate: what they call on a piece needs that each of its bytes has an offset.
    pub(crate) fn next_located(&mut self) -> Result<Option<LocatedPart<'a>>, Fault>
        ensures handed { plainly (option_map located_of) result ≡ handed_at (reader_of self.old) }
        ensures stands { reader_of self.new ≡ passed_at (reader_of self.old) }
    {
        if self.at >= self.bytes.len() {
            return Ok(None);
        }
        let piece = piece_at(self.bytes, self.at, FaultKind::WitnessLength)?;
        let part = kind_of(piece)?;
        self.at = piece.end();
        Ok(Some(part))
    }
}

impl Noted {
    // Nothing read yet.
    pub(crate) fn new() -> Noted
        ensures { progress_of result ≡ begun }
    {
        Noted {
            places: BoundedList::new(0),
            inners: BoundedList::new(0),
        }
    }

    // The record in a piece, once it is tested; its number is noted.
    pub(crate) fn read(
        &mut self,
        piece: LocatedPart<'_>,
        heading: &Heading,
    ) -> Result<WitnessRecord, Fault>
        ensures answer { plainly record_of result ≡ giving (body_by (shape_of (heading_of heading.now)) (progress_of self.old) (located_of piece.entry)) (record_by (shape_of (heading_of heading.now)) (located_of piece.entry)) }
        ensures after { progress_of self.new ≡ (if is_ok result then further_by (progress_of self.old) (located_of piece.entry) else progress_of self.old) }
    {
        let shape = heading.shape();
        match piece {
            LocatedPart::Place(part) => {
                let place = place_from(part, shape, self)?;
                self.places.push(place.number);
                Ok(WitnessRecord::Listed(place))
            }
            LocatedPart::Transition(part) => {
                let inner = inner_from(part, shape, self)?;
                self.inners.push(inner.number);
                Ok(WitnessRecord::Declared(inner))
            }
        }
    }
}

// Tests the pieces of a witness, each before the next, and hands out the numbers of its records.
pub(crate) fn pieces_test(bytes: &[u8], heading: &Heading) -> Result<Noted, Fault>
    ensures { plainly progress_of result ≡ giving (pieces_say (shape_of (heading_of heading.now)) bytes.now) (numbers_in (witness_at (shape_of (heading_of heading.now)) bytes.now)) }
{
    let mut reader = WitnessReader::at_pieces(bytes);
    let mut noted = Noted::new();
    while let Some(piece) = reader.next_located()? {
        noted.read(piece, heading)?;
    }
    Ok(noted)
}
