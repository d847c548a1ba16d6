// Reading a table to hold it, and witnesses for it.
ghost use Rattle.formats.specs.Tables.{read_table};
ghost use Rattle.sequences.specs.StoredMade.{plainly};
ghost use Rattle.std.specs.Prelude.{◌≡◌};
ghost use Rattle.tables.specs.Held.{table_of, table_in, InShort};
ghost use Rattle.tables.specs.Short.{witness_answer};

use crate::held::HeldTable;
use crate::table::table_summary;
use crate::witness::witness_summary;
use replies::{TableRead, WitnessRead};
use rows::Fault;

impl HeldTable {
    // The table that the bytes are, with what it holds in short, or why they are none.
    pub fn read(bytes: Vec<u8>) -> Result<(HeldTable, TableRead), Fault>
        ensures table { plainly table_in result ≡ read_table bytes.items }
        ensures short { InShort result }
    {
        let summary = table_summary(&bytes)?;
        Ok((HeldTable { bytes }, summary))
    }

    // What a witness for this table holds in short, or why the bytes are none.
    pub fn witness(&self, bytes: &[u8]) -> Result<WitnessRead, Fault>
        ensures { result ≡ witness_answer (table_of self.now) bytes.now }
    {
        witness_summary(&self.bytes, bytes)
    }
}
