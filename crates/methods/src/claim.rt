// What a method is asked.
ghost use Rattle.std.specs.Prelude.{◌≡◌, ◌<◌, ◌≤◌, length, take, drop, MatchResult};
ghost use Rattle.rows.specs.Faults.{fault_of};
ghost use Rattle.rows.specs.declared.fault.FaultKind.TheVariants.{TooManyFacts};

use rows::{Fault, FaultKind, Numbers};

// That the goal follows from the first `count` rows of a sheet, as the certificate shows. Any count may stand here: one
// that is greater than the number of the sheet's rows is refused.
#[derive(Clone, Copy)]
pub struct Claim<'a> {
    // Not in a struct with the sheet, since each layer lends the same sheet on with another count.
    pub count: usize,
    pub goal: &'a Numbers,
    pub certificate: &'a [u8],
}

impl<'a> Claim<'a> {
    // The facts: the first rows of the sheet, if it has so many.
    pub fn facts<'s>(self, sheet: &'s [Numbers]) -> Result<&'s [Numbers], Fault>
        ensures { MatchResult result (λ facts. (self.entry.count ≤ length sheet.now) × (facts.now ≡ take self.entry.count sheet.now)) (λ f. (length sheet.now < self.entry.count) × (f ≡ fault_of TooManyFacts 0 0 0)) }
    {
        sheet
            .get(..self.count)
            .ok_or(Fault::of(FaultKind::TooManyFacts))
    }

    // The same claim by the certificate from an offset on, which is empty past its end.
    #[tactic(auto, using(crate::proofs::Handing::rest_from))]
    pub fn skip(self, offset: usize) -> Claim<'a>
        ensures count { result.count ≡ self.entry.count }
        ensures goal { result.goal.now ≡ self.entry.goal.now }
        ensures certificate { result.certificate.now ≡ drop offset self.entry.certificate.now }
    {
        Claim {
            certificate: self.certificate.get(offset..).unwrap_or(&[]),
            ..self
        }
    }
}
