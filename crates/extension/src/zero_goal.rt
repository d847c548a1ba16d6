// A method for goals that every point meets.
ghost use Rattle.std.specs.Prelude.{◌≡◌, ℕ, take, not, pos};
ghost use Rattle.extension.specs.ZeroGoalLaws.{zero_goal_lawful};
ghost use Rattle.extension.specs.ZeroGoals.{uses, zero_goal_tests, zero_goal_says, ZeroGoalYes};
ghost use Rattle.methods.specs.Questions.{asked, YesExactly};
ghost use Rattle.rows.specs.Faults.{unless_found};
ghost use Rattle.rows.specs.Firsts.{first_below, IsFirst};
ghost use Rattle.rows.specs.Limits.{columns};
ghost use Rattle.rows.specs.Wholes.{int_eq_test};
ghost use Rattle.rows.specs.declared.fault.FaultKind.TheVariants.{ColumnDiffers};

use methods::{Claim, ProofMethod};
use rows::limits::BOUND_ITEM;
use rows::{Answer, Fault, FaultKind, Numbers, check};

// The goal has no coefficient but zero and a bound of at least zero; the certificate is empty.
#[derive(Clone, Copy)]
pub struct ZeroGoal;

// Whether a coefficient is not zero.
fn is_used(coefficient: i64) -> bool
    ensures { result ≡ not (int_eq_test coefficient (pos 0)) }
{
    coefficient != 0
}

// Where the search over the goal's coefficients ends.
// Apart from `first_used`, so that what the search finds is shown of it alone.
fn used_index(goal: &Numbers) -> Option<usize>
    ensures { IsFirst (uses goal.now) columns result }
{
    goal.coefficients
        .iter()
        .position(|coefficient| is_used(*coefficient))
}

// The lowest column in which the goal's is not.
fn first_used(goal: &Numbers) -> Option<usize>
    ensures value { result ≡ first_below (uses goal.now) columns }
    ensures first { IsFirst (uses goal.now) columns result }
{
    used_index(goal)
}

// Whether no column is used; the first that is one is the fault.
// Not by the one of `methods`: that asks that what was found is a column, and so is not public.
fn columns_test(goal: &Numbers) -> Answer
    ensures { result ≡ unless_found ColumnDiffers (first_below (uses goal.now) columns) }
{
    first_used(goal).map_or(Ok(()), |column| {
        Err(Fault::with_item(FaultKind::ColumnDiffers, column as u8))
    })
}

// The method's tests: no byte, no column used, no bound below zero.
#[tactic(auto, unfolding(crate::specs::ZeroGoals::zero_goal_tests))]
fn goal_test(goal: &Numbers, certificate: &[u8]) -> Answer
    ensures { result ≡ zero_goal_tests goal.now certificate.now }
{
    check(
        certificate.is_empty(),
        Fault::of(FaultKind::CertificateLength),
    )?;
    columns_test(goal)?;
    let unshown = Fault::with_item(FaultKind::BoundNotShown, BOUND_ITEM);
    check(goal.bound >= 0, unshown)
}

impl ProofMethod for ZeroGoal {
    ghost meaning = { λ _. zero_goal_says };

    ghost lawful = { λ _. zero_goal_lawful };

    #[tactic(auto, using(crate::proofs::ZeroGoalExactly::zero_goal_exactly))]
    fn question(&self, sheet: &mut [Numbers], claim: Claim<'_>) -> Answer
        ensures answer { result ≡ asked zero_goal_says claim.entry.count sheet.old claim.entry.goal.now claim.entry.certificate.now }
        ensures kept { take claim.entry.count sheet.new ≡ take claim.entry.count sheet.old }
        ensures same { sheet.new ≡ sheet.old }
        ensures exactly { YesExactly result ZeroGoalYes claim.entry.count sheet.old claim.entry.goal.now claim.entry.certificate.now }
    {
        claim.facts(sheet)?;
        goal_test(claim.goal, claim.certificate)
    }
}
