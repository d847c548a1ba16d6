// Reading a table into memory, and what it holds in short.
ghost use Rattle.std.specs.Prelude.{◌≡◌, ◌≤◌};
ghost use Rattle.formats.specs.Pieces.{giving};
ghost use Rattle.formats.specs.Tables.{table_at, table_says};
ghost use Rattle.records.specs.Held.{held, room, ReadInto};
ghost use Rattle.records.specs.Limits.{most_transitions};
ghost use Rattle.records.specs.Records.{heading_of, transition_of};
ghost use Rattle.sequences.specs.StoredMade.{plainly};
ghost use Rattle.tables.specs.Short.{heading_short, table_answer};

use crate::blank;
use records::limits::{MOST_INNERS, MOST_PLACES, MOST_TRANSITIONS};
use records::{Heading, Register, Transition};
use replies::TableRead;
use rows::Fault;
use sequences::read_table;

// Reads a table into a register that has room for every table.
pub(crate) fn load(
    bytes: &[u8],
    transitions: &mut Register<'_, Transition>,
) -> Result<Heading, Fault>
    requires { most_transitions ≤ room transitions.old }
    ensures answer { plainly heading_of result ≡ giving (table_says bytes.now) (table_at bytes.now).heading }
    ensures memory { ReadInto transition_of (table_at bytes.now).transitions transitions.old transitions.new result }
{
    read_table(bytes, transitions, MOST_PLACES, MOST_INNERS)
}

// The short form of a heading and so many transitions.
fn short(heading: &Heading, transitions: usize) -> TableRead
    ensures { result ≡ heading_short heading.now transitions }
{
    TableRead {
        values: heading.values,
        choices: heading.choices,
        start: heading.start,
        initial: heading.initial.len(),
        transitions,
    }
}

// What a table holds in short, or why the bytes are none.
pub(crate) fn table_summary(bytes: &[u8]) -> Result<TableRead, Fault>
    ensures { result ≡ table_answer bytes.now }
{
    let mut memory = [blank::transition(); MOST_TRANSITIONS];
    let mut transitions = Register::new(&mut memory);
    let heading = load(bytes, &mut transitions)?;
    Ok(short(&heading, transitions.len()))
}
