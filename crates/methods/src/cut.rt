// The cut, a layer: a weighted sum of the facts, divided and its bound rounded down, becomes one more fact below.
ghost use Rattle.std.specs.Prelude.{◌≡◌, ℕ, ◌<◌, length, take, find, IfSome};
ghost use Rattle.std.specs.List.{range_with_len};
ghost use Rattle.methods.specs.CutLaws.{cut_lawful};
ghost use Rattle.methods.specs.Cuts.{divided, indivisible, divides_say, cut_row, cut_own, cut_says, CutYes};
ghost use Rattle.methods.specs.CutsAsk.{Divisible, CutMade};
ghost use Rattle.methods.specs.Openings.{opening_asked};
ghost use Rattle.methods.specs.Questions.{asked, question as asking, YesExactly};
ghost use Rattle.methods.specs.Weighing.{Rows};
ghost use Rattle.rows.specs.Limits.{columns};

use crate::claim::Claim;
use crate::columns::none_differs;
use crate::layer::{FirstByte, ask_below, ask_with_fact, room_test};
use crate::method::ProofMethod;
use crate::opening::opening;
use crate::weights::{WeightedFacts, weight_at};
use rows::limits::COLUMNS;
use rows::{Answer, Fault, FaultKind, Limit, Numbers, check};
use std::array::from_fn;

// The certificate's first byte is 0 and the rest goes to the method below; or it is 1, and a two-byte divisor, a
// two-byte multiplier for each fact and the lower certificate follow.
#[derive(Clone, Copy)]
pub struct Cut<M> {
    pub below: M,
}

// Where the divisor stands, and where the multipliers begin.
const DIVISOR_FROM: usize = 1;

const WEIGHTS_FROM: usize = 3;

// The facts with their multipliers, and the divisor, which is in range.
#[derive(Clone, Copy)]
struct DividedFacts<'a> {
    weighted: WeightedFacts<'a>,
    divisor: u16,
    ghost divisible: { Divisible weighted.certificate.now weighted.from divisor },
}

impl DividedFacts<'_> {
    // The facts' sum of an item, divided and rounded down.
    fn quotient(&self, item: usize) -> i64
        ensures { result ≡ divided self.now.weighted.facts.now self.now.weighted.certificate.now item }
    {
        self.weighted.sum(item).div_euclid(i64::from(self.divisor))
    }

    // Whether a column's sum is no multiple of the divisor.
    fn indivisible(&self, column: usize) -> bool
        ensures { result ≡ indivisible self.now.weighted.facts.now self.now.weighted.certificate.now column }
    {
        let sum = self.weighted.sum(column);
        sum.rem_euclid(i64::from(self.divisor)) != 0
    }

    // The lowest column whose sum is no multiple of the divisor.
    // Apart from `columns_test`, so that its clauses say which columns are looked at.
    fn first_indivisible(&self) -> Option<usize>
        ensures found { result ≡ find (indivisible self.now.weighted.facts.now self.now.weighted.certificate.now) (range_with_len 0 columns) }
        ensures within { IfSome result (λ column. column < columns) }
    {
        (0..COLUMNS).find(|column| self.indivisible(*column))
    }

    // Whether every column's sum is a multiple of the divisor; the first that is not is the fault.
    fn columns_test(&self) -> Answer
        ensures { result ≡ divides_say self.now.weighted.facts.now self.now.weighted.certificate.now }
    {
        none_differs(self.first_indivisible())
    }

    // The facts' sum of bounds, divided and rounded down.
    fn bound(&self) -> i64
        ensures { result ≡ divided self.now.weighted.facts.now self.now.weighted.certificate.now columns }
    {
        self.quotient(COLUMNS)
    }

    // The divided row.
    fn row(&self) -> Numbers
        ensures { result ≡ cut_row self.now.weighted.facts.now self.now.weighted.certificate.now }
    {
        // No shared function of a closure over the items: it would be public in rows, and public functions ask nothing.
        Numbers {
            coefficients: from_fn(|column| self.quotient(column)),
            bound: self.bound(),
        }
    }
}

// The row that the cut adds, once all tests on the way to it are passed.
#[tactic(auto, unfolding(crate::specs::Cuts::cut_tests))]
fn cut_row(facts: &[Numbers], certificate: &[u8]) -> Result<Numbers, Fault>
    requires { Rows facts.now }
    ensures { CutMade facts.now certificate.now result }
{
    let end = WEIGHTS_FROM + 2 * facts.len();
    check(
        end <= certificate.len(),
        Fault::of(FaultKind::CertificateLength),
    )?;
    let divisor = weight_at(certificate, DIVISOR_FROM, 1)?;
    let weighted = WeightedFacts::new(facts, certificate, WEIGHTS_FROM)?;
    let divided = DividedFacts { weighted, divisor };
    divided.columns_test()?;
    let row = divided.row();
    row.held_to(Limit::RowNumber).map_err(|too_large| {
        Fault::with_item(FaultKind::LayerRowTooLarge, too_large.item)
    })?;
    Ok(row)
}

impl<M: ProofMethod> Cut<M> {
    // The layer's own part of a question: the row is made and becomes the last fact below.
    // What is asked of count and sheet stands in no struct of both: each layer lends the sheet on with another count.
    #[tactic(auto, using(crate::proofs::Asked::opening_within, crate::proofs::CutAnswers::own_no_row, crate::proofs::CutAnswers::own_asked_lem))]
    fn own(&self, sheet: &mut [Numbers], claim: Claim<'_>) -> Answer
        requires { Ok tt ≡ opening_asked claim.count sheet.old claim.goal.now }
        ensures answer { result ≡ cut_own (M.ProofMethod.meaning self.now.below) (asking (take claim.entry.count sheet.old) claim.entry.goal.now claim.entry.certificate.now (length sheet.old)) }
        ensures kept { take claim.entry.count sheet.new ≡ take claim.entry.count sheet.old }
    {
        room_test(claim.count, sheet.len())?;
        let row = cut_row(&sheet[..claim.count], claim.certificate)?;
        let end = WEIGHTS_FROM + 2 * claim.count;
        ask_with_fact(&self.below, sheet, claim, row, end)
    }
}

impl<M: ProofMethod> ProofMethod for Cut<M> {
    ghost meaning = { λ m. cut_says (M.ProofMethod.meaning m.below) };

    ghost lawful = { λ m. cut_lawful (M.ProofMethod.meaning m.below) (M.ProofMethod.lawful m.below) };

    fn question(&self, sheet: &mut [Numbers], claim: Claim<'_>) -> Answer
        ensures answer { result ≡ asked (cut_says (M.ProofMethod.meaning self.now.below)) claim.entry.count sheet.old claim.entry.goal.now claim.entry.certificate.now }
        ensures kept { take claim.entry.count sheet.new ≡ take claim.entry.count sheet.old }
        ensures exactly { YesExactly result (CutYes (M.ProofMethod.meaning self.now.below)) claim.entry.count sheet.old claim.entry.goal.now claim.entry.certificate.now }
    {
        opening(claim, sheet)?;
        // Not shared by the layers: a public helper with a closure would ask something, and one for two would be as long.
        match FirstByte::read(claim.certificate)? {
            FirstByte::HandDown => ask_below(&self.below, sheet, claim, 1),
            FirstByte::Own => self.own(sheet, claim),
        }
    }
}
