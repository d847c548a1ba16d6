// Words that write a number.
ghost use Rattle.words.specs.Numerals.{is_numeral, number_of, whole_of, DecimalsRead};
ghost use Rattle.std.specs.Prelude.{◌≡◌, is_some};
ghost use Rattle.std.specs.Char.{is_ascii_digit};
ghost use Rattle.std.specs.List.{list_all};

use crate::errors::LineError;

// Whether there are only decimal digits.
fn all_digits(bytes: &[u8]) -> bool
    ensures { result ≡ list_all is_ascii_digit bytes.now }
{
    bytes.iter().all(|byte| byte.is_ascii_digit())
}

// One decimal digit or more, and nothing else.
#[tactic(auto, using(crate::proofs::Decimal::numeral_all))]
fn is_numeral(bytes: &[u8]) -> bool
    ensures { result ≡ is_numeral bytes.now }
{
    !bytes.is_empty() && all_digits(bytes)
}

// A numeral, with or without a minus in front.
#[tactic(auto, using(crate::proofs::Decimal::number_stripped))]
fn is_number(word: &str) -> bool
    ensures { result ≡ is_some (whole_of word.now) }
{
    let digits = word.strip_prefix('-').unwrap_or(word);
    is_numeral(digits.as_bytes())
}

// The number that a word writes in decimal. Any number of leading zeros is allowed, and no plus.
pub fn number(word: &str) -> Result<i64, LineError>
    ensures value { result ≡ number_of word.now }
    ensures decimals { DecimalsRead }
{
    // Tested before parsing: parse stops at the first digit past 64 bits, so its error cannot tell a long number from other text.
    if !is_number(word) {
        return Err(LineError::NotANumber);
    }
    word.parse().map_err(|_| LineError::NumberTooLarge)
}
