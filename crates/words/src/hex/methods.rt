// Reading words that write bytes, and the bytes that they write.
ghost use Rattle.std.specs.Prelude.{◌≡◌, ◌+◌, ◌*◌, true, Ok, length, IfOk};
ghost use Rattle.words.specs.Hex.{all_hex, hex_bytes, pairs_of, digits_only, checked, HexReads};
ghost use Rattle.words.specs.Read.{word_in};
ghost use Rattle.std.specs.Char.{is_ascii_hexdigit, digit_value};

use crate::errors::LineError;
use crate::hex::Hex;
use std::alloc::{AllocError, Global};

// Whether there are only hexadecimal digits.
fn all_hex(bytes: &[u8]) -> bool
    ensures { result ≡ all_hex bytes.now }
{
    bytes.iter().all(|byte| byte.is_ascii_hexdigit())
}

// Whether the characters are hexadecimal digits, an even number of them, and if not, why.
fn check_digits(digits: &[u8]) -> Result<(), LineError>
    ensures { result ≡ digits_only (all_hex digits.now) (length digits.now) tt }
{
    if !all_hex(digits) {
        return Err(LineError::NoHexDigit);
    }
    if digits.len() % 2 != 0 {
        return Err(LineError::OddHexDigits);
    }
    Ok(())
}

// Whether the word writes bytes, and if not, why.
#[tactic(auto, using(crate::proofs::Bytes::dash_checked, crate::proofs::Bytes::hex_digits_lem))]
fn check(word: &str) -> Result<(), LineError>
    ensures { result ≡ checked (hex_bytes word.now) tt }
{
    if word == "-" {
        return Ok(());
    }
    check_digits(word.as_bytes())
}

// The value of a hexadecimal digit.
fn digit_value(digit: u8) -> u8
    requires { is_ascii_hexdigit digit ≡ true }
    ensures { result ≡ digit_value digit }
{
    char::from(digit).to_digit(16).unwrap() as u8
}

// The byte of two hexadecimal digits.
#[tactic(auto, using(crate::proofs::Bytes::digit_small))]
fn pair_value(high: u8, low: u8) -> u8
    requires high { is_ascii_hexdigit high ≡ true }
    requires low { is_ascii_hexdigit low ≡ true }
    ensures { result ≡ 16 * digit_value high + digit_value low }
{
    16 * digit_value(high) + digit_value(low)
}

// A byte for each two digits.
fn decode(digits: &[u8], heap: Global) -> Result<Vec<u8>, AllocError>
    requires { all_hex digits.now ≡ true }
    ensures { IfOk result (λ v. v.items ≡ pairs_of digits.now) }
{
    let mut bytes = Vec::new(heap);
    for pair in digits.chunks_exact(2) {
        bytes.push(pair_value(pair[0], pair[1]))?;
    }
    Ok(bytes)
}

impl<'a> Hex<'a> {
    // Reads a word, which the value borrows: FromStr could not.
    #[tactic(auto, using(crate::proofs::Bytes::hex_reads, crate::proofs::Bytes::checked_ok, crate::proofs::Bytes::readable_ok, crate::proofs::Bytes::rechecked_err))]
    pub fn read(word: &'a str) -> Result<Hex<'a>, LineError>
        ensures value { word_in result ≡ checked (hex_bytes word.now) word.now }
        ensures law { HexReads }
    {
        check(word)?;
        Ok(Hex { word })
    }

    // The bytes that the word writes.
    #[tactic(auto, using(crate::proofs::Bytes::dash_read, crate::proofs::Bytes::digits_checked, crate::proofs::Bytes::digits_read))]
    pub fn bytes(&self, heap: Global) -> Result<Vec<u8>, AllocError>
        ensures { IfOk result (λ v. hex_bytes self.now.word.now ≡ Ok v.items) }
    {
        if self.word == "-" {
            return Ok(Vec::new(heap));
        }
        decode(self.word.as_bytes(), heap)
    }
}
