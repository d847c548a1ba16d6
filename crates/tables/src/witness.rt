// Reading a witness for a table, and what it holds in short.
ghost use Rattle.formats.specs.Tables.{table_at, table_says};
ghost use Rattle.sequences.specs.TableGiven.{shape_in, transitions_in};
ghost use Rattle.std.specs.Prelude.{◌≡◌, Ok};
ghost use Rattle.tables.specs.Short.{registers_short, witness_by, witness_answer};

use crate::blank;
use crate::table::load;
use records::limits::{MOST_INNERS, MOST_PLACES, MOST_TRANSITIONS};
use records::{Inner, Place, Register};
use replies::WitnessRead;
use rows::Fault;
use sequences::{TableView, read_witness};

// The short form of what two registers hold.
fn short(places: &Register<'_, Place>, inners: &Register<'_, Inner>) -> WitnessRead
    ensures { result ≡ registers_short places.now inners.now }
{
    WitnessRead {
        places: places.len(),
        inners: inners.len(),
    }
}

// What a witness for a table holds in short, or why the bytes are none.
fn for_table(bytes: &[u8], table: TableView<'_>) -> Result<WitnessRead, Fault>
    ensures { result ≡ witness_by (transitions_in table.entry) (shape_in table.entry) bytes.now }
{
    let mut place_memory = [blank::place(); MOST_PLACES];
    let mut inner_memory = [blank::inner(); MOST_INNERS];
    let mut places = Register::new(&mut place_memory);
    let mut inners = Register::new(&mut inner_memory);
    read_witness(bytes, table, &mut places, &mut inners)?;
    Ok(short(&places, &inners))
}

// The same for the table of other bytes, which is read again.
pub(crate) fn witness_summary(table: &[u8], bytes: &[u8]) -> Result<WitnessRead, Fault>
    requires { Ok tt ≡ table_says table.now }
    ensures { result ≡ witness_answer (table_at table.now) bytes.now }
{
    let mut memory = [blank::transition(); MOST_TRANSITIONS];
    let mut transitions = Register::new(&mut memory);
    let heading = load(table, &mut transitions)?;
    for_table(
        bytes,
        TableView {
            heading: &heading,
            transitions: transitions.as_slice(),
        },
    )
}
