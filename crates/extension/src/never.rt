// A method that never says yes. The laws ask for no yes, so it is a method like any other.
ghost use Rattle.std.specs.Prelude.{◌≡◌, ℕ, take, Ok, ◌≢◌};
ghost use Rattle.extension.specs.Nevers.{never_says, never_lawful};
ghost use Rattle.methods.specs.Questions.{asked};

use methods::{Claim, ProofMethod};
use rows::limits::BOUND_ITEM;
use rows::{Answer, Fault, FaultKind, Numbers};

// Every question is refused, whatever the certificate.
#[derive(Clone, Copy)]
pub struct NeverYes;

impl ProofMethod for NeverYes {
    ghost meaning = { λ _. never_says };

    ghost lawful = { λ _. never_lawful };

    fn question(&self, sheet: &mut [Numbers], claim: Claim<'_>) -> Answer
        ensures answer { result ≡ asked never_says claim.entry.count sheet.old claim.entry.goal.now claim.entry.certificate.now }
        ensures kept { take claim.entry.count sheet.new ≡ take claim.entry.count sheet.old }
        ensures same { sheet.new ≡ sheet.old }
        ensures refused { result ≢ Ok tt }
    {
        claim.facts(sheet)?;
        Err(Fault::with_item(FaultKind::BoundNotShown, BOUND_ITEM))
    }
}
