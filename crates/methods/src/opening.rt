// The tests with which each of our methods begins.
ghost use Rattle.methods.specs.Openings.{opening_asked, row_says, rows_say};
ghost use Rattle.std.specs.Prelude.{◌≡◌, take, MatchResult};

use crate::claim::Claim;
use crate::limits::MOST_FACTS;
use rows::{Answer, Fault, FaultKind, Numbers, Row, check};

// Whether plain numbers are a row.
fn row_test(numbers: &Numbers) -> Answer
    ensures { result ≡ row_says numbers.now }
{
    Row::new(*numbers).map(|_row| ())
}

// Whether each of the facts is a row, the first that is not being the fault.
fn rows_test(facts: &[Numbers]) -> Answer
    ensures { result ≡ rows_say facts.now }
{
    for fact in facts {
        row_test(fact)?;
    }
    Ok(())
}

// The claim's facts, if there are not too many, and they and the goal are rows.
#[tactic(auto, unfolding(crate::specs::Openings::opening))]
pub(crate) fn opening<'s>(claim: Claim<'_>, sheet: &'s [Numbers]) -> Result<&'s [Numbers], Fault>
    ensures { MatchResult result (λ facts. (Ok tt ≡ opening_asked claim.entry.count sheet.now claim.entry.goal.now) × (facts.now ≡ take claim.entry.count sheet.now)) (λ f. Err f ≡ opening_asked claim.entry.count sheet.now claim.entry.goal.now) }
{
    let facts = claim.facts(sheet)?;
    check(
        facts.len() <= MOST_FACTS,
        Fault::of(FaultKind::TooManyFacts),
    )?;
    rows_test(facts)?;
    row_test(claim.goal)?;
    Ok(facts)
}
