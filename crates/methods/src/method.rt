// What a proof method is.
ghost use Rattle.std.specs.Prelude.{◌≡◌, ℕ, take};
ghost use Rattle.methods.specs.Questions.{Meaning, Lawful, asked};

use crate::claim::Claim;
use rows::{Answer, Numbers};

// A way to show that a goal follows from facts, by a certificate. Whoever adds a method gives its meaning and shows
// its laws.
pub trait ProofMethod {
    // The answer to every question, fixed by the method's settings and the question.
    ghost meaning: { Self → Meaning };

    // After a yes every point that meets all facts meets the goal; a fault's place lies within the certificate.
    ghost lawful: { (m : Self) → Lawful (meaning m) };

    // The answer to the question whether the claim about the sheet holds. The rows that it counts stay as they are; those
    // behind them may hold anything afterwards.
    fn question(&self, sheet: &mut [Numbers], claim: Claim<'_>) -> Answer
        ensures answer { result ≡ asked (meaning self.now) claim.entry.count sheet.old claim.entry.goal.now claim.entry.certificate.now }
        ensures kept { take claim.entry.count sheet.new ≡ take claim.entry.count sheet.old };
}
