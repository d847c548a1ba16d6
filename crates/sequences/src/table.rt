// Reading a table.
ghost use Rattle.std.specs.Prelude.{◌≡◌, ℕ, ◌≤◌, [], map, length, drop, Ok};
ghost use Rattle.formats.specs.Pieces.{giving, pieces_from};
ghost use Rattle.records.specs.Records.{heading_of, transition_of};
ghost use Rattle.formats.specs.Exact.{TableExactly};
ghost use Rattle.formats.specs.Placed.{Placed};
ghost use Rattle.sequences.specs.StoredMade.{plainly};
ghost use Rattle.records.specs.Held.{held, behind, room, ReadInto};
ghost use Rattle.formats.specs.Tables.{heading_at, heading_says, table_at, content_says, table_says, memory_says, open_says};
ghost use Rattle.sequences.specs.TransitionsHanded.{reading_of, coming, coming_say};

use crate::piece::LocatedPiece;
use crate::pieces::{PIECES_FROM, piece_at, version_test};
use crate::stored::rows_at;
use crate::transitions::TransitionReader;
use formats::bytes_fit;
use records::limits::{
    MOST_CHOICES, MOST_INITIAL, MOST_INNERS, MOST_PLACES, MOST_TRANSITIONS, MOST_VALUES,
};
use records::{Heading, Register, Shape, Transition};
use rows::{Answer, Fault, FaultKind, check};

// Where the fields of a heading stand in its rest.
const VALUES_FROM: usize = 0;

const CHOICES_FROM: usize = 1;

const START_FROM: usize = 2;

const INITIAL_COUNT_FROM: usize = 4;

const INITIAL_FROM: usize = 5;

// The heading in a piece.
fn heading_from(piece: LocatedPiece<'_>) -> Result<Heading, Fault>
    ensures { plainly heading_of result ≡ giving (heading_says piece.entry.offset piece.entry.rest.now) (heading_at piece.entry.rest.now) }
{
    piece.reaches(VALUES_FROM + 1, FaultKind::TableLength)?;
    let values = piece.count_at(VALUES_FROM, 1, MOST_VALUES, FaultKind::TableCount)?;
    piece.reaches(CHOICES_FROM + 1, FaultKind::TableLength)?;
    let choices = piece.count_at(CHOICES_FROM, 0, MOST_CHOICES, FaultKind::TableCount)?;
    piece.reaches(INITIAL_COUNT_FROM + 1, FaultKind::TableLength)?;
    let rows = piece.count_at(INITIAL_COUNT_FROM, 0, MOST_INITIAL, FaultKind::TableCount)?;
    let count = usize::from(rows);
    let shape = Shape { values, choices }.over_values();
    piece.is_long(
        INITIAL_FROM + shape.stride() * count,
        FaultKind::TableLength,
    )?;
    let start = piece.number_above(START_FROM, 0, FaultKind::TableNumber)?;
    let initial = rows_at(piece, shape, INITIAL_FROM, count, FaultKind::TableWritten)?;
    Ok(Heading {
        values,
        choices,
        start,
        initial,
    })
}

// Tests the transitions that are still to come.
fn transitions_test(mut reader: TransitionReader<'_>) -> Answer
    ensures { result ≡ coming_say (reading_of reader.entry) }
{
    while let Some(_) = reader.next()? {}
    Ok(())
}

// Tests all that follows the version, and hands out the heading.
fn content_test(bytes: &[u8]) -> Result<Heading, Fault>
    requires { pieces_from ≤ length bytes.now }
    ensures { plainly heading_of result ≡ giving (content_says bytes.now) (table_at bytes.now).heading }
{
    let piece = piece_at(bytes, PIECES_FROM, FaultKind::TableLength)?;
    let heading = heading_from(piece)?;
    transitions_test(TransitionReader::new(bytes, &heading))?;
    Ok(heading)
}

// Whether memory for so many records of each kind is enough for every table and witness.
// One test, as its definition is one, and not a test before a call of the witness's memory test.
fn memory_test(transitions: usize, places: usize, inners: usize) -> Answer
    ensures { result ≡ memory_says transitions places inners }
{
    check(
        MOST_TRANSITIONS <= transitions && MOST_PLACES <= places && MOST_INNERS <= inners,
        Fault::at(FaultKind::TableCount, 0),
    )
}

// Puts the transitions that are still to come, which pass every test, into an empty register.
fn fill(mut reader: TransitionReader<'_>, register: &mut Register<'_, Transition>) -> Answer
    requires passed { Ok tt ≡ coming_say (reading_of reader) }
    requires empty { held register.old ≡ [] }
    requires room { reader.room ≤ room register.old }
    ensures passed { result ≡ Ok tt }
    ensures held { map transition_of (held register.new) ≡ coming (reading_of reader.entry) }
    ensures behind { behind register.new ≡ drop (length (held register.new)) (behind register.old) }
{
    while let Some(transition) = reader.next()? {
        register.push(transition);
    }
    Ok(())
}

// The heading of a table whose bytes pass every test.
// This has the clause that the code shows, and edits of the code are refused here; `test_table` adds the laws.
fn tested(bytes: &[u8]) -> Result<Heading, Fault>
    ensures { plainly heading_of result ≡ giving (table_says bytes.now) (table_at bytes.now).heading }
{
    version_test(bytes, FaultKind::TableVersion)?;
    content_test(bytes)
}

// Tests a table, and hands out its heading. Nothing is written. Exactly the bytes of valid tables pass, and a fault lies
// within the bytes.
pub fn test_table(bytes: &[u8]) -> Result<Heading, Fault>
    ensures answer { plainly heading_of result ≡ giving (table_says bytes.now) (table_at bytes.now).heading }
    ensures exactly { TableExactly bytes.now }
    ensures placed { Placed (length bytes.now) (table_says bytes.now) }
{
    bytes_fit(bytes);
    tested(bytes)
}

// Puts a table's transitions into the register, once the memory for all three kinds of records and every byte have been
// tested.
// This has the clauses that the code shows, and edits of the code are refused here; `read_table` adds the laws.
fn read_into(
    bytes: &[u8],
    transitions: &mut Register<'_, Transition>,
    places: usize,
    inners: usize,
) -> Result<Heading, Fault>
    ensures answer { plainly heading_of result ≡ giving (open_says (room transitions.old) places inners bytes.now) (table_at bytes.now).heading }
    ensures memory { ReadInto transition_of (table_at bytes.now).transitions transitions.old transitions.new result }
{
    version_test(bytes, FaultKind::TableVersion)?;
    memory_test(transitions.capacity(), places, inners)?;
    let heading = content_test(bytes)?;
    transitions.clear();
    fill(TransitionReader::new(bytes, &heading), transitions)?;
    Ok(heading)
}

// Reads a table: its transitions go into the register, once the memory for all three kinds of records and every byte
// have been tested. After a refusal the register is as it was.
// Of the registers of the other two kinds the lengths are told, and not the registers lent, since nothing goes into them.
pub fn read_table(
    bytes: &[u8],
    transitions: &mut Register<'_, Transition>,
    places: usize,
    inners: usize,
) -> Result<Heading, Fault>
    ensures answer { plainly heading_of result ≡ giving (open_says (room transitions.old) places inners bytes.now) (table_at bytes.now).heading }
    ensures memory { ReadInto transition_of (table_at bytes.now).transitions transitions.old transitions.new result }
    ensures exactly { TableExactly bytes.now }
    ensures placed { Placed (length bytes.now) (open_says (room transitions.old) places inners bytes.now) }
{
    bytes_fit(bytes);
    read_into(bytes, transitions, places, inners)
}
