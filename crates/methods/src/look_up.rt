// The look-up: the goal, or a stronger row with its coefficients, stands among the facts.
ghost use Rattle.std.specs.Prelude.{◌≡◌, ℕ, take, Err};
ghost use Rattle.methods.specs.LooksUp.{covers as covers_row, listed as is_listed, search_says, look_up_says, LookUpYes};
ghost use Rattle.methods.specs.LooksUpLaws.{look_up_lawful};
ghost use Rattle.methods.specs.Questions.{asked, YesExactly};
ghost use Rattle.rows.specs.Faults.{Stated};
ghost use Rattle.rows.specs.declared.fault.Fault.{Fault};

use crate::claim::Claim;
use crate::method::ProofMethod;
use crate::opening::opening;
use rows::limits::BOUND_ITEM;
use rows::{Answer, Fault, FaultKind, Numbers, check};

// The certificate is empty.
#[derive(Clone, Copy)]
pub struct LookUp;

// Whether the fact has the goal's coefficients and a bound at most the goal's.
#[tactic(auto, using(crate::proofs::Listed::alike_pointwise))]
fn covers(fact: &Numbers, goal: &Numbers) -> bool
    ensures { result ≡ covers_row fact.now goal.now }
{
    fact.coefficients == goal.coefficients && fact.bound <= goal.bound
}

// Whether one of the facts does.
fn listed(facts: &[Numbers], goal: &Numbers) -> bool
    ensures { result ≡ is_listed goal.now facts.now }
{
    facts.iter().any(|fact| covers(fact, goal))
}

// The tests behind the opening ones.
#[tactic(auto, unfolding(crate::specs::LooksUp::search_says))]
fn search_test(facts: &[Numbers], goal: &Numbers, certificate: &[u8]) -> Answer
    ensures { result ≡ search_says facts.now goal.now certificate.now }
{
    check(
        certificate.is_empty(),
        Fault::of(FaultKind::CertificateLength),
    )?;
    let unshown = Fault::with_item(FaultKind::BoundNotShown, BOUND_ITEM);
    check(listed(facts, goal), unshown)
}

impl ProofMethod for LookUp {
    ghost meaning = { λ _. look_up_says };

    ghost lawful = { λ _. look_up_lawful };

    fn question(&self, sheet: &mut [Numbers], claim: Claim<'_>) -> Answer
        ensures answer { result ≡ asked look_up_says claim.entry.count sheet.old claim.entry.goal.now claim.entry.certificate.now }
        ensures kept { take claim.entry.count sheet.new ≡ take claim.entry.count sheet.old }
        ensures same { sheet.new ≡ sheet.old }
        ensures stated { (f : Fault) → result ≡ Err f → Stated f }
        ensures exactly { YesExactly result LookUpYes claim.entry.count sheet.old claim.entry.goal.now claim.entry.certificate.now }
    {
        let facts = opening(claim, sheet)?;
        search_test(facts, claim.goal, claim.certificate)
    }
}
