// Stacks of the product's methods and a buyer's, in both orders, with no method left open.
ghost use Rattle.std.specs.Prelude.{◌≡◌, ℕ, take, Ok, ◌≢◌};
ghost use Rattle.extension.specs.Nevers.{never_says};
ghost use Rattle.extension.specs.ZeroGoals.{zero_goal_says};
ghost use Rattle.extension.specs.Weakens.{weaken_says};
ghost use Rattle.methods.specs.Asks.{SoundAnswer};
ghost use Rattle.methods.specs.Cuts.{cut_says};
ghost use Rattle.methods.specs.Questions.{asked};
ghost use Rattle.methods.specs.Splits.{split_says};
ghost use Rattle.methods.specs.Sums.{multipliers_say};

use crate::never::NeverYes;
use crate::weaken::Weaken;
use crate::zero_goal::ZeroGoal;
use methods::{Claim, Cut, Multipliers, Split, ask};
use rows::{Answer, Numbers};

// The product's split over a buyer's layer over the product's cut over multipliers.
pub fn ask_split_weaken_cut(sheet: &mut [Numbers], claim: Claim<'_>) -> Answer
    ensures answer { result ≡ asked (split_says (weaken_says (cut_says multipliers_say))) claim.entry.count sheet.old claim.entry.goal.now claim.entry.certificate.now }
    ensures kept { take claim.entry.count sheet.new ≡ take claim.entry.count sheet.old }
    ensures sound { SoundAnswer result (take claim.entry.count sheet.old) claim.entry.goal.now }
{
    let stack = Split {
        below: Weaken {
            below: Cut { below: Multipliers },
        },
    };
    ask(&stack, sheet, claim)
}

// The product's cut over a buyer's method.
pub fn ask_cut_zero_goal(sheet: &mut [Numbers], claim: Claim<'_>) -> Answer
    ensures answer { result ≡ asked (cut_says zero_goal_says) claim.entry.count sheet.old claim.entry.goal.now claim.entry.certificate.now }
    ensures kept { take claim.entry.count sheet.new ≡ take claim.entry.count sheet.old }
    ensures sound { SoundAnswer result (take claim.entry.count sheet.old) claim.entry.goal.now }
{
    let stack = Cut { below: ZeroGoal };
    ask(&stack, sheet, claim)
}

// A buyer's layer over the product's split over a method that never says yes: no certificate helps.
#[tactic(auto, using(crate::proofs::Refusals::stack_refuses))]
pub fn ask_weaken_split_never(sheet: &mut [Numbers], claim: Claim<'_>) -> Answer
    ensures answer { result ≡ asked (weaken_says (split_says never_says)) claim.entry.count sheet.old claim.entry.goal.now claim.entry.certificate.now }
    ensures kept { take claim.entry.count sheet.new ≡ take claim.entry.count sheet.old }
    ensures refused { result ≢ Ok tt }
{
    let stack = Weaken {
        below: Split { below: NeverYes },
    };
    ask(&stack, sheet, claim)
}
