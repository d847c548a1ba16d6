// A layer that shows a goal by a stronger one: the same coefficients with a lower bound.
ghost use Rattle.std.specs.Prelude.{◌≡◌, ℕ, ◌≤◌, length, take, pos, ◌-ℤ◌, neg_ℤ, ◌≤ℤ◌};
ghost use Rattle.extension.specs.WeakenLaws.{weaken_lawful};
ghost use Rattle.extension.specs.Weakens.{slack_says, LoweredFrom, weaken_own, weaken_says, WeakenYes};
ghost use Rattle.methods.specs.Questions.{asked, question as asking, YesExactly};
ghost use Rattle.rows.specs.Limits.{magnitude_of};
ghost use Rattle.rows.specs.declared.limits.Limit.TheVariants.{RowNumber, WrittenNumber};

use methods::layer::{FirstByte, ask_below};
use methods::{Claim, ProofMethod};
use rows::bytes::number_at;
use rows::limits::{BOUND_ITEM, WRITTEN_LIMIT};
use rows::{Answer, Fault, FaultKind, Numbers, Row, check};

// The certificate's first byte is 0 and the rest goes to the method below; or it is 1, and a four-byte number from 0 to
// 1,000,000, by which the goal's bound is lowered, and the lower certificate follow.
#[derive(Clone, Copy)]
pub struct Weaken<M> {
    pub below: M,
}

// Where the number stands, and where the lower certificate begins behind it.
const SLACK_FROM: usize = 1;

const LOWER_FROM: usize = 5;

// Whether the number may lower a bound: it lies between 0 and the greatest written number.
fn slack_test(slack: i64) -> Answer
    ensures { result ≡ slack_says slack }
{
    let too_large = Fault::new(FaultKind::LayerRowTooLarge, SLACK_FROM, BOUND_ITEM);
    check((0..=WRITTEN_LIMIT).contains(&slack), too_large)
}

// A bound lowered by a number.
// A function of its own, so that the bounds that it asks show that the difference does not overflow.
fn lowered_bound(bound: i64, slack: i64) -> i64
    requires bound { (neg_ℤ (pos (magnitude_of RowNumber)) ≤ℤ bound) × (bound ≤ℤ pos (magnitude_of RowNumber)) }
    requires slack { (pos 0 ≤ℤ slack) × (slack ≤ℤ pos (magnitude_of WrittenNumber)) }
    ensures { result ≡ bound -ℤ slack }
{
    bound - slack
}

// The goal with its bound lowered by the certificate's number, once all tests on the way to it are passed.
#[tactic(auto, unfolding(crate::specs::Weakens::slack_tests))]
fn lowered_goal(goal: &Row, certificate: &[u8]) -> Result<Numbers, Fault>
    ensures { LoweredFrom goal.now.numbers certificate.now result }
{
    check(
        LOWER_FROM <= certificate.len(),
        Fault::of(FaultKind::CertificateLength),
    )?;
    let slack = number_at(certificate, SLACK_FROM);
    slack_test(slack)?;
    let numbers = *goal.numbers();
    Ok(Numbers {
        bound: lowered_bound(numbers.bound, slack),
        ..numbers
    })
}

impl<M: ProofMethod> Weaken<M> {
    // The layer's own part of a question: the method below is asked about the goal with a lower bound.
    // What is asked of count and sheet stands in no struct of both: each layer lends the sheet on with another count.
    #[tactic(auto, using(methods::proofs::Asked::asked_within), unfolding(crate::specs::Weakens::weaken_own))]
    fn own(&self, sheet: &mut [Numbers], claim: Claim<'_>, goal: &Row) -> Answer
        requires { claim.count ≤ length sheet.old }
        ensures answer { result ≡ weaken_own (M.ProofMethod.meaning self.now.below) (asking (take claim.entry.count sheet.old) goal.now.numbers claim.entry.certificate.now (length sheet.old)) }
        ensures kept { take claim.entry.count sheet.new ≡ take claim.entry.count sheet.old }
    {
        let lowered = lowered_goal(goal, claim.certificate)?;
        let lower = Claim {
            goal: &lowered,
            ..claim
        };
        ask_below(&self.below, sheet, lower, LOWER_FROM)
    }
}

impl<M: ProofMethod> ProofMethod for Weaken<M> {
    ghost meaning = { λ m. weaken_says (M.ProofMethod.meaning m.below) };

    ghost lawful = { λ m. weaken_lawful (M.ProofMethod.meaning m.below) (M.ProofMethod.lawful m.below) };

    fn question(&self, sheet: &mut [Numbers], claim: Claim<'_>) -> Answer
        ensures answer { result ≡ asked (weaken_says (M.ProofMethod.meaning self.now.below)) claim.entry.count sheet.old claim.entry.goal.now claim.entry.certificate.now }
        ensures kept { take claim.entry.count sheet.new ≡ take claim.entry.count sheet.old }
        ensures exactly { YesExactly result (WeakenYes (M.ProofMethod.meaning self.now.below)) claim.entry.count sheet.old claim.entry.goal.now claim.entry.certificate.now }
    {
        claim.facts(sheet)?;
        let goal = Row::new(*claim.goal)?;
        // Not shared by the three layers: a public helper may ask nothing of its callers, and one with a closure would.
        match FirstByte::read(claim.certificate)? {
            FirstByte::HandDown => ask_below(&self.below, sheet, claim, 1),
            FirstByte::Own => self.own(sheet, claim, &goal),
        }
    }
}
