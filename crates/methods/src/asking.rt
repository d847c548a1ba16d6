// Asking any method, or any stack of methods.
ghost use Rattle.std.specs.Prelude.{◌≡◌, ℕ, length, take};
ghost use Rattle.methods.specs.Asks.{SoundAnswer, PlacedAnswer};
ghost use Rattle.methods.specs.Questions.{asked};

use crate::claim::Claim;
use crate::method::ProofMethod;
use rows::{Answer, Numbers};

// The answer to the question whether the claim about the sheet holds. After a yes it does, by whichever method.
#[tactic(auto, using(crate::proofs::AskAnswers::sound_answer, crate::proofs::AskAnswers::placed_answer))]
pub fn ask<M: ProofMethod>(method: &M, sheet: &mut [Numbers], claim: Claim<'_>) -> Answer
    ensures answer { result ≡ asked (M.ProofMethod.meaning method.now) claim.entry.count sheet.old claim.entry.goal.now claim.entry.certificate.now }
    ensures kept { take claim.entry.count sheet.new ≡ take claim.entry.count sheet.old }
    ensures sound { SoundAnswer result (take claim.entry.count sheet.old) claim.entry.goal.now }
    ensures placed { PlacedAnswer result claim.entry.certificate.now }
{
    method.question(sheet, claim)
}
