// The arguments of a command, read from the words that are left.
ghost use Rattle.words.specs.Arguments.{rest_of, ended, first_number, first_hex, nine_numbers, EightRead, NumbersRead};
ghost use Rattle.words.specs.Read.{left, word_in};
ghost use Rattle.std.specs.Prelude.{◌≡◌};

use crate::errors::LineError;
use crate::hex::Hex;
use crate::numerals;
use crate::words::Words;
use rows::Numbers;
use rows::limits::COLUMNS;

impl<'a> Words<'a> {
    // No word is left.
    pub fn end(mut self) -> Result<(), LineError>
        ensures { result ≡ ended tt (left self.entry) }
    {
        self.next().map_or(Ok(()), |_| Err(LineError::TooManyWords))
    }

    // The next word as a number.
    pub fn number(&mut self) -> Result<i64, LineError>
        ensures value { result ≡ first_number (left self.old) }
        ensures after { left self.new ≡ rest_of (left self.old) }
    {
        numerals::number(self.next().ok_or(LineError::TooFewWords)?)
    }

    // The next word as one that writes bytes.
    pub fn hex(&mut self) -> Result<Hex<'a>, LineError>
        ensures value { word_in result ≡ first_hex (left self.old) }
        ensures after { left self.new ≡ rest_of (left self.old) }
    {
        Hex::read(self.next().ok_or(LineError::MissingHex)?)
    }

    // The next eight words as numbers.
    #[tactic(auto, using(crate::proofs::Reading::reading_ends))]
    fn coefficients(&mut self) -> Result<[i64; COLUMNS], LineError>
        ensures { EightRead (left self.old) (left self.new) result }
    {
        let mut coefficients = [0; COLUMNS];
        for coefficient in &mut coefficients {
            *coefficient = self.number()?;
        }
        Ok(coefficients)
    }

    // Eight coefficients and a bound, and no word more.
    pub fn numbers(mut self) -> Result<Numbers, LineError>
        ensures value { result ≡ nine_numbers (left self.entry) }
        ensures law { NumbersRead }
    {
        let coefficients = self.coefficients()?;
        let bound = self.number()?;
        self.end()?;
        Ok(Numbers {
            coefficients,
            bound,
        })
    }
}
