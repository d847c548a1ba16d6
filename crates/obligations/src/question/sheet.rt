// Facts on a sheet.
ghost use Rattle.std.specs.Prelude.{ℕ};
ghost use Rattle.obligations.specs.Sheets.{Laid};
ghost use Rattle.records.specs.Bounded.{listed};

use crate::question::Question;
use rows::Numbers;

impl Question {
    // Writes the facts to the front of a sheet, and says how many they are; none where the sheet has fewer rows, and
    // then nothing is written.
    pub fn lay_out(&self, sheet: &mut [Numbers]) -> Option<usize>
        ensures { Laid (listed self.now.facts) sheet.old sheet.new result }
    {
        let facts = self.facts.as_slice();
        if sheet.len() < facts.len() {
            return None;
        }
        sheet[..facts.len()].copy_from_slice(facts);
        Some(facts.len())
    }
}
