// Two-byte numbers of a certificate, and the weighted sums of facts.
ghost use Rattle.std.specs.Prelude.{◌≡◌, ℕ, ◌+◌, ◌*◌, ◌<◌, ◌≤◌, length, pos, MatchResult};
ghost use Rattle.methods.specs.Weighing.{Rows, Weighable};
ghost use Rattle.methods.specs.Weights.{range_says, weights_say, weighted};
ghost use Rattle.rows.specs.Bytes.{word_at};
ghost use Rattle.std.proofs.Props.{props};

use crate::limits::MOST_WEIGHT;
use rows::bytes::word_at;
use rows::{Fault, FaultKind, Numbers, check};

// The number there, if it lies between `least` and the greatest multiplier.
pub(crate) fn weight_at(bytes: &[u8], at: usize, least: u16) -> Result<u16, Fault>
    ensures { MatchResult result (λ n. (Ok tt ≡ range_says least bytes.now at) × (n ≡ word_at bytes.now at)) (λ f. Err f ≡ range_says least bytes.now at) }
{
    let number = word_at(bytes, at);
    check(
        (least..=MOST_WEIGHT).contains(&number),
        Fault::at(FaultKind::MultiplierRange, at),
    )?;
    Ok(number)
}

// A few rows, and for each of them a multiplier in range, which stand in the certificate from an offset on: their sums
// fit 64 bits.
#[derive(Clone, Copy)]
pub(crate) struct WeightedFacts<'a> {
    facts: &'a [Numbers],
    certificate: &'a [u8],
    // Beside the whole certificate, not a part of it cut off here, since a fault names its place in the whole.
    from: usize,
    ghost weighable: { Weighable certificate.now from facts.now } by { Prim.hlevel props },
}

impl<'a> WeightedFacts<'a> {
    // The facts with their multipliers, if all of these are in range; the first that is not is the fault.
    pub(crate) fn new(
        facts: &'a [Numbers],
        certificate: &'a [u8],
        from: usize,
    ) -> Result<WeightedFacts<'a>, Fault>
        requires rows { Rows facts.now }
        requires inside { from + 2 * length facts.now ≤ length certificate.now }
        ensures { MatchResult result (λ w. (Ok tt ≡ weights_say certificate.now from facts.now) × (w.facts.now ≡ facts.now) × (w.certificate.now ≡ certificate.now) × (w.from ≡ from)) (λ f. Err f ≡ weights_say certificate.now from facts.now) }
    {
        // `index` counts multipliers of two bytes each: a fault names the byte at which one stands.
        for index in 0..facts.len() {
            weight_at(certificate, from + 2 * index, 0)?;
        }
        Ok(WeightedFacts {
            facts,
            certificate,
            from,
        })
    }

    // The multiplier of a fact, by the fact's index.
    fn weight(&self, index: usize) -> i64
        requires { index < length self.now.facts.now }
        ensures { result ≡ pos (word_at self.now.certificate.now (self.now.from + 2 * index)) }
    {
        i64::from(word_at(self.certificate, self.from + 2 * index))
    }

    // The sum over the facts, in their order, of multiplier × the fact's number of an item.
    #[tactic(auto, using(crate::proofs::WeightedSums::turn_sum, crate::proofs::WeightedSums::turn_low, crate::proofs::WeightedSums::turn_high))]
    pub(crate) fn sum(&self, item: usize) -> i64
        ensures { result ≡ weighted item self.now.certificate.now self.now.from self.now.facts.now }
    {
        // A loop, since the proof finds no bound for a signed `sum` of a chain.
        let mut sum: i64 = 0;
        for (index, fact) in self.facts.iter().enumerate() {
            sum += self.weight(index) * fact.item(item);
        }
        sum
    }
}
