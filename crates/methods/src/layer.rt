// What layers over a method share.
ghost use Rattle.std.specs.Prelude.{◌≡◌, ℕ, ◌<◌, ◌&&◌, List, [], ◌∷◌, ◌++◌, length, take, drop, nat_lt};
ghost use Rattle.methods.specs.Layers.{first_byte_of};
ghost use Rattle.methods.specs.Openings.{most_facts};
ghost use Rattle.methods.specs.Questions.{asked, question as asking};
ghost use Rattle.rows.specs.Faults.{fault_of, check as checks, moved as moved_by, Movable};
ghost use Rattle.rows.specs.declared.fault.FaultKind.TheVariants.{NoRoomForFact};

use crate::claim::Claim;
use crate::limits::MOST_FACTS;
use crate::method::ProofMethod;
use rows::{Answer, Fault, FaultKind, Numbers, check, moved};

// What the first byte of a layer's certificate says.
#[derive(Clone, Copy)]
pub enum FirstByte {
    // The rest goes to the method below.
    HandDown,
    // The layer's own part follows.
    Own,
}

impl FirstByte {
    // Reads it: 0 or 1.
    pub fn read(certificate: &[u8]) -> Result<FirstByte, Fault>
        ensures { result ≡ first_byte_of certificate.now }
    {
        match certificate {
            [0, ..] => Ok(FirstByte::HandDown),
            [1, ..] => Ok(FirstByte::Own),
            [_, ..] => Err(Fault::of(FaultKind::LayerByte)),
            [] => Err(Fault::of(FaultKind::CertificateLength)),
        }
    }
}

// Whether one more fact finds room: fewer facts than a question may have, and a free row behind them.
pub(crate) fn room_test(count: usize, rows: usize) -> Answer
    ensures { result ≡ checks (nat_lt count most_facts && nat_lt count rows) (fault_of NoRoomForFact 0 0 0) }
{
    let has_room = count < MOST_FACTS && count < rows;
    check(has_room, Fault::of(FaultKind::NoRoomForFact))
}

// Puts the claim to the method below by the certificate from an offset on; a fault moves by the offset.
// Apart from `ask_below`: inside it the clause `answer` stayed open, since no search applied the lemma on places.
fn put_below<M: ProofMethod>(
    below: &M,
    sheet: &mut [Numbers],
    claim: Claim<'_>,
    offset: usize,
) -> Answer
    ensures answer { let said = asked (M.ProofMethod.meaning below.now) claim.entry.count sheet.old claim.entry.goal.now (drop offset claim.entry.certificate.now) in Movable offset said → result ≡ moved_by offset said }
    ensures kept { take claim.entry.count sheet.new ≡ take claim.entry.count sheet.old }
{
    let answer = below.question(sheet, claim.skip(offset));
    moved(answer, offset)
}

// The answer of the method below by the certificate from an offset on, as its layer reports it.
pub fn ask_below<M: ProofMethod>(
    below: &M,
    sheet: &mut [Numbers],
    claim: Claim<'_>,
    offset: usize,
) -> Answer
    ensures answer { result ≡ moved_by offset (asked (M.ProofMethod.meaning below.now) claim.entry.count sheet.old claim.entry.goal.now (drop offset claim.entry.certificate.now)) }
    ensures kept { take claim.entry.count sheet.new ≡ take claim.entry.count sheet.old }
{
    put_below(below, sheet, claim, offset)
}

// The same with one more fact, which is put behind the others.
// What is asked of count and sheet stands in no struct of both: each layer lends the sheet on with another count.
#[tactic(auto, using(crate::proofs::Handing::kept_under, crate::proofs::Handing::added_asked))]
pub(crate) fn ask_with_fact<M: ProofMethod>(
    below: &M,
    sheet: &mut [Numbers],
    claim: Claim<'_>,
    fact: Numbers,
    offset: usize,
) -> Answer
    requires { claim.count < length sheet.old }
    ensures answer { result ≡ moved_by offset (M.ProofMethod.meaning below.now (asking (take claim.entry.count sheet.old ++ fact ∷ []) claim.entry.goal.now (drop offset claim.entry.certificate.now) (length sheet.old))) }
    ensures kept { take claim.entry.count sheet.new ≡ take claim.entry.count sheet.old }
{
    sheet[claim.count] = fact;
    let count = claim.count + 1;
    ask_below(below, sheet, Claim { count, ..claim }, offset)
}
