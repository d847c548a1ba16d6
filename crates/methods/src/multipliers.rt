// The multiplier method: a weighted sum of the facts is a multiple of the goal.
ghost use Rattle.std.specs.Prelude.{◌≡◌, ℕ, ◌<◌, take, Err, find, IfSome};
ghost use Rattle.std.specs.List.{range_with_len};
ghost use Rattle.methods.specs.Openings.{Opened};
ghost use Rattle.methods.specs.Questions.{asked, YesExactly};
ghost use Rattle.methods.specs.Sums.{scaled, differs, columns_say, bound_says, sums_say, multipliers_say, MultipliersYes};
ghost use Rattle.methods.specs.SumsAsk.{Comparable};
ghost use Rattle.methods.specs.SumsLaws.{multipliers_lawful};
ghost use Rattle.rows.specs.Faults.{Stated};
ghost use Rattle.rows.specs.Limits.{columns};
ghost use Rattle.rows.specs.declared.fault.Fault.{Fault};

use crate::claim::Claim;
use crate::columns::none_differs;
use crate::method::ProofMethod;
use crate::opening::opening;
use crate::weights::{WeightedFacts, weight_at};
use rows::limits::{BOUND_ITEM, COLUMNS};
use rows::{Answer, Fault, FaultKind, Numbers, check};

// The certificate is a two-byte multiplier of the goal and one of each fact.
#[derive(Clone, Copy)]
pub struct Multipliers;

// Where the multipliers of the facts begin, behind the goal's.
const WEIGHTS_FROM: usize = 2;

// The facts with their multipliers beside the goal with its own, which are all in range.
#[derive(Clone, Copy)]
struct Comparison<'a> {
    weighted: WeightedFacts<'a>,
    goal: &'a Numbers,
    goal_weight: u16,
    ghost comparable: { Comparable weighted.certificate.now weighted.from goal.now goal_weight },
}

impl Comparison<'_> {
    // The goal's number of an item, times the goal's multiplier.
    #[tactic(auto, using(crate::proofs::WeightedSums::scaled_fits, crate::proofs::WeightedSums::scaled_is))]
    fn scaled(&self, item: usize) -> i64
        ensures { result ≡ scaled self.now.goal.now self.now.weighted.certificate.now item }
    {
        i64::from(self.goal_weight) * self.goal.item(item)
    }

    // Whether the facts' sum in a column is not the goal's multiple.
    fn differs(&self, column: usize) -> bool
        ensures { result ≡ differs self.now.weighted.facts.now self.now.goal.now self.now.weighted.certificate.now column }
    {
        self.weighted.sum(column) != self.scaled(column)
    }

    // The lowest column in which the facts' sum is not the goal's multiple.
    // Apart from `columns_test`, so that its clauses say which columns are looked at.
    fn first_differing(&self) -> Option<usize>
        ensures found { result ≡ find (differs self.now.weighted.facts.now self.now.goal.now self.now.weighted.certificate.now) (range_with_len 0 columns) }
        ensures within { IfSome result (λ column. column < columns) }
    {
        (0..COLUMNS).find(|column| self.differs(*column))
    }

    // Whether the facts' sum is the goal's multiple in every column; the first column in which it is not is the fault.
    fn columns_test(&self) -> Answer
        ensures { result ≡ columns_say self.now.weighted.facts.now self.now.goal.now self.now.weighted.certificate.now }
    {
        none_differs(self.first_differing())
    }

    // Whether the facts' sum of bounds is at most the goal's multiple.
    fn bound_test(&self) -> Answer
        ensures { result ≡ bound_says self.now.weighted.facts.now self.now.goal.now self.now.weighted.certificate.now }
    {
        let unshown = Fault::with_item(FaultKind::BoundNotShown, BOUND_ITEM);
        check(self.weighted.sum(COLUMNS) <= self.scaled(COLUMNS), unshown)
    }
}

// The tests behind the opening ones.
#[tactic(auto, unfolding(crate::specs::Sums::sums_say))]
fn sums_test(facts: &[Numbers], goal: &Numbers, certificate: &[u8]) -> Answer
    requires { Opened facts.now goal.now }
    ensures { result ≡ sums_say facts.now goal.now certificate.now }
{
    let whole = WEIGHTS_FROM + 2 * facts.len();
    check(
        certificate.len() == whole,
        Fault::of(FaultKind::CertificateLength),
    )?;
    let goal_weight = weight_at(certificate, 0, 1)?;
    let weighted = WeightedFacts::new(facts, certificate, WEIGHTS_FROM)?;
    let comparison = Comparison {
        weighted,
        goal,
        goal_weight,
    };
    comparison.columns_test()?;
    comparison.bound_test()
}

impl ProofMethod for Multipliers {
    ghost meaning = { λ _. multipliers_say };

    ghost lawful = { λ _. multipliers_lawful };

    fn question(&self, sheet: &mut [Numbers], claim: Claim<'_>) -> Answer
        ensures answer { result ≡ asked multipliers_say claim.entry.count sheet.old claim.entry.goal.now claim.entry.certificate.now }
        ensures kept { take claim.entry.count sheet.new ≡ take claim.entry.count sheet.old }
        ensures same { sheet.new ≡ sheet.old }
        ensures stated { (f : Fault) → result ≡ Err f → Stated f }
        ensures exactly { YesExactly result MultipliersYes claim.entry.count sheet.old claim.entry.goal.now claim.entry.certificate.now }
    {
        // The same two lines as the look-up's: what differs behind the opening is the method.
        let facts = opening(claim, sheet)?;
        sums_test(facts, claim.goal, claim.certificate)
    }
}
