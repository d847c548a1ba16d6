// Reading a witness against a table.
ghost use Rattle.std.specs.Prelude.{◌≡◌, ℕ, ◌+◌, ◌<◌, ◌≤◌, [], map, length, drop, Ok};
ghost use Rattle.sequences.specs.Admitted.{Roomy, places_added, inners_added, place_count, inner_count, AdmittedInto};
ghost use Rattle.sequences.specs.Handed.{record_of, progress_of};
ghost use Rattle.records.specs.Held.{held, behind, room};
ghost use Rattle.records.specs.Limits.{most_choices, most_places, most_inners};
ghost use Rattle.formats.specs.Pieces.{giving};
ghost use Rattle.records.specs.Records.{place_record_of, inner_of, transition_of, heading_of, shape_of};
ghost use Rattle.sequences.specs.TableGiven.{shape_in, transitions_in};
ghost use Rattle.formats.specs.Exact.{WitnessExactly};
ghost use Rattle.formats.specs.Placed.{Placed};
ghost use Rattle.formats.specs.Witnesses.{pieces_say, witness_at, numbers_in, content_says, witness_says, witness_memory_says, admit_says};

use crate::pieces::version_test;
use crate::references::references_test;
use crate::view::TableView;
use crate::witness::{Noted, WitnessReader, WitnessRecord, pieces_test};
use formats::bytes_fit;
use records::limits::{MOST_INNERS, MOST_PLACES};
use records::{Heading, Inner, Place, Register};
use rows::{Answer, Fault, FaultKind, check};

// Puts what a piece holds into its register.
// The two registers are two parameters: a struct of both loans proves, but has three lifetimes and is no plainer.
fn keep(found: WitnessRecord, places: &mut Register<'_, Place>, inners: &mut Register<'_, Inner>)
    requires { Roomy (record_of found) places.old inners.old }
    ensures places { map place_record_of (held places.new) ≡ places_added (record_of found) (map place_record_of (held places.old)) }
    ensures places_behind { behind places.new ≡ drop (place_count (record_of found)) (behind places.old) }
    ensures places_room { room places.new ≡ room places.old }
    ensures inners { map inner_of (held inners.new) ≡ inners_added (record_of found) (map inner_of (held inners.old)) }
    ensures inners_behind { behind inners.new ≡ drop (inner_count (record_of found)) (behind inners.old) }
    ensures inners_room { room inners.new ≡ room inners.old }
{
    match found {
        WitnessRecord::Listed(place) => places.push(place),
        WitnessRecord::Declared(inner) => inners.push(inner),
    };
}

// Puts the records of a witness that has passed every test into empty registers.
fn fill(
    bytes: &[u8],
    heading: &Heading,
    places: &mut Register<'_, Place>,
    inners: &mut Register<'_, Inner>,
) -> Answer
    requires passed { Ok tt ≡ pieces_say (shape_of (heading_of heading.now)) bytes.now }
    requires no_places { held places.old ≡ [] }
    requires no_inners { held inners.old ≡ [] }
    requires places_room { most_places ≤ room places.old }
    requires inners_room { most_inners ≤ room inners.old }
    ensures passed { result ≡ Ok tt }
    ensures places { map place_record_of (held places.new) ≡ (witness_at (shape_of (heading_of heading.now)) bytes.now).places }
    ensures places_behind { behind places.new ≡ drop (length (held places.new)) (behind places.old) }
    ensures inners { map inner_of (held inners.new) ≡ (witness_at (shape_of (heading_of heading.now)) bytes.now).inners }
    ensures inners_behind { behind inners.new ≡ drop (length (held inners.new)) (behind inners.old) }
{
    let mut reader = WitnessReader::at_pieces(bytes);
    let mut noted = Noted::new();
    while let Some(piece) = reader.next_located()? {
        let found = noted.read(piece, heading)?;
        keep(found, places, inners);
    }
    Ok(())
}

// Whether memory for so many records of the two kinds is enough for every witness.
fn memory_test(places: usize, inners: usize) -> Answer
    ensures { result ≡ witness_memory_says places inners }
{
    check(
        MOST_PLACES <= places && MOST_INNERS <= inners,
        Fault::at(FaultKind::TableCount, 0),
    )
}

// Tests all that follows the version.
fn content_test(bytes: &[u8], table: TableView<'_>) -> Answer
    ensures { result ≡ content_says (transitions_in table.entry) (shape_in table.entry) bytes.now }
{
    let noted = pieces_test(bytes, table.heading)?;
    references_test(bytes, table, &noted)
}

// What the tests of a witness say.
// This has the clause that the code shows, and edits of the code are refused here; `test_witness` adds the laws.
fn tested(bytes: &[u8], table: TableView<'_>) -> Answer
    ensures { result ≡ witness_says (transitions_in table.entry) (shape_in table.entry) bytes.now }
{
    version_test(bytes, FaultKind::WitnessVersion)?;
    content_test(bytes, table)
}

// Tests a witness against a table. Nothing is written. Exactly the
// bytes of valid witnesses pass, and a fault lies within the bytes.
pub fn test_witness(bytes: &[u8], table: TableView<'_>) -> Answer
    ensures answer { result ≡ witness_says (transitions_in table.entry) (shape_in table.entry) bytes.now }
    ensures exactly { WitnessExactly (transitions_in table.entry) (shape_in table.entry) bytes.now }
    ensures placed { Placed (length bytes.now) result }
{
    bytes_fit(bytes);
    tested(bytes, table)
}

// Puts the records of a witness into the two registers, once their memory and every byte have been tested.
// This has the clauses that the code shows, and edits of the code are refused here; `read_witness` adds the laws.
fn read_into(
    bytes: &[u8],
    table: TableView<'_>,
    places: &mut Register<'_, Place>,
    inners: &mut Register<'_, Inner>,
) -> Answer
    ensures answer { result ≡ admit_says (room places.old) (room inners.old) (transitions_in table.entry) (shape_in table.entry) bytes.now }
    ensures memory { AdmittedInto (witness_at (shape_in table.entry) bytes.now) places.old places.new inners.old inners.new result }
{
    memory_test(places.capacity(), inners.capacity())?;
    tested(bytes, table)?;
    places.clear();
    inners.clear();
    fill(bytes, table.heading, places, inners)
}

// Reads a witness against a table: its records go into the two registers, once their memory and every byte have been
// tested. After a refusal the registers are as they were.
pub fn read_witness(
    bytes: &[u8],
    table: TableView<'_>,
    places: &mut Register<'_, Place>,
    inners: &mut Register<'_, Inner>,
) -> Answer
    ensures answer { result ≡ admit_says (room places.old) (room inners.old) (transitions_in table.entry) (shape_in table.entry) bytes.now }
    ensures memory { AdmittedInto (witness_at (shape_in table.entry) bytes.now) places.old places.new inners.old inners.new result }
    ensures exactly { WitnessExactly (transitions_in table.entry) (shape_in table.entry) bytes.now }
    ensures placed { Placed (length bytes.now) result }
{
    bytes_fit(bytes);
    read_into(bytes, table, places, inners)
}
