// The split, a layer: the goal is shown below with a row as one more fact, and then with the row's opposite.
ghost use Rattle.std.specs.Prelude.{◌≡◌, ℕ, ◌<◌, ◌≤◌, length, take};
ghost use Rattle.methods.specs.Questions.{asked, question as asking, YesExactly};
ghost use Rattle.methods.specs.SplitLaws.{split_lawful};
ghost use Rattle.methods.specs.Splits.{split_row, split_own, split_says, SplitYes};
ghost use Rattle.methods.specs.SplitsAsk.{SplitMade, halves};

use crate::claim::Claim;
use crate::layer::{FirstByte, ask_below, ask_with_fact, room_test};
use crate::method::ProofMethod;
use crate::opening::opening;
use rows::bytes::{number_at, word_at};
use rows::limits::COLUMNS;
use rows::{Answer, Fault, FaultKind, Numbers, TooLarge, WrittenRow, check};
use std::array::from_fn;

// The certificate's first byte is 0 and the rest goes to the method below; or it is 1, and nine four-byte numbers of a
// row, a two-byte length, the first certificate of that length and the second follow.
#[derive(Clone, Copy)]
pub struct Split<M> {
    pub below: M,
}

// Where the row's numbers begin, where the first certificate's length stands, and where that certificate begins.
const NUMBERS_FROM: usize = 1;

const LENGTH_FROM: usize = 37;

const FIRST_FROM: usize = 39;

// The row that the certificate writes, not yet tested.
fn split_numbers(certificate: &[u8]) -> Numbers
    ensures { result ≡ split_row certificate.now }
{
    // No shared function of a closure over the items: it would be public in rows, and public functions ask nothing.
    Numbers {
        coefficients: from_fn(|column| number_at(certificate, NUMBERS_FROM + 4 * column)),
        bound: number_at(certificate, NUMBERS_FROM + 4 * COLUMNS),
    }
}

// The row that the split adds, once all tests on the way to it are passed.
fn split_row(certificate: &[u8]) -> Result<WrittenRow, Fault>
    ensures { SplitMade certificate.now result }
{
    let length = usize::from(word_at(certificate, LENGTH_FROM));
    check(
        FIRST_FROM + length <= certificate.len(),
        Fault::of(FaultKind::CertificateLength),
    )?;
    WrittenRow::new(split_numbers(certificate)).map_err(|TooLarge { item }| {
        Fault::new(
            FaultKind::LayerRowTooLarge,
            NUMBERS_FROM + 4 * usize::from(item),
            item,
        )
    })
}

impl<M: ProofMethod> Split<M> {
    // The answer below with the row as one more fact, by the first certificate, which ends where the second begins; and
    // after a yes the answer with the row's opposite, by the second.
    // What is asked of count and sheet stands in no struct of both: each layer lends the sheet on with another count.
    fn ask_both(
        &self,
        sheet: &mut [Numbers],
        claim: Claim<'_>,
        row: &WrittenRow,
        second: usize,
    ) -> Answer
        requires within { claim.count < length sheet.old }
        requires parts { second ≤ length claim.certificate.now }
        ensures answer { result ≡ halves (M.ProofMethod.meaning self.now.below) row.now.numbers second (asking (take claim.entry.count sheet.old) claim.entry.goal.now claim.entry.certificate.now (length sheet.old)) }
        ensures kept { take claim.entry.count sheet.new ≡ take claim.entry.count sheet.old }
    {
        let first = Claim {
            certificate: &claim.certificate[..second],
            ..claim
        };
        ask_with_fact(&self.below, sheet, first, *row.numbers(), FIRST_FROM)?;
        ask_with_fact(&self.below, sheet, claim, *row.opposite().numbers(), second)
    }

    // The layer's own part of a question: the method below is asked with the row, and after a yes with its opposite.
    #[tactic(auto, using(crate::proofs::SplitAnswers::own_no_row, crate::proofs::SplitAnswers::own_both))]
    fn own(&self, sheet: &mut [Numbers], claim: Claim<'_>) -> Answer
        requires { claim.count ≤ length sheet.old }
        ensures answer { result ≡ split_own (M.ProofMethod.meaning self.now.below) (asking (take claim.entry.count sheet.old) claim.entry.goal.now claim.entry.certificate.now (length sheet.old)) }
        ensures kept { take claim.entry.count sheet.new ≡ take claim.entry.count sheet.old }
    {
        room_test(claim.count, sheet.len())?;
        let row = split_row(claim.certificate)?;
        let second = FIRST_FROM + usize::from(word_at(claim.certificate, LENGTH_FROM));
        self.ask_both(sheet, claim, &row, second)
    }
}

impl<M: ProofMethod> ProofMethod for Split<M> {
    ghost meaning = { λ m. split_says (M.ProofMethod.meaning m.below) };

    ghost lawful = { λ m. split_lawful (M.ProofMethod.meaning m.below) (M.ProofMethod.lawful m.below) };

    fn question(&self, sheet: &mut [Numbers], claim: Claim<'_>) -> Answer
        ensures answer { result ≡ asked (split_says (M.ProofMethod.meaning self.now.below)) claim.entry.count sheet.old claim.entry.goal.now claim.entry.certificate.now }
        ensures kept { take claim.entry.count sheet.new ≡ take claim.entry.count sheet.old }
        ensures exactly { YesExactly result (SplitYes (M.ProofMethod.meaning self.now.below)) claim.entry.count sheet.old claim.entry.goal.now claim.entry.certificate.now }
    {
        opening(claim, sheet)?;
        // Not shared by the layers: a public helper with a closure would ask something, and one for two would be as long.
        match FirstByte::read(claim.certificate)? {
            FirstByte::HandDown => ask_below(&self.below, sheet, claim, 1),
            FirstByte::Own => self.own(sheet, claim),
        }
    }
}
