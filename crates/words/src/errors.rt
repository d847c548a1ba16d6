// Why a line is no command.
ghost use Rattle.words.specs.Reasons.{reason_text};
ghost use Rattle.std.specs.Prelude.{◌≡◌, Some};
ghost use Rattle.words.specs.declared.errors.LineError.TheVariants.{OutOfMemory};

use std::alloc::AllocError;
use std::fmt;

// What is wrong with a line, the first thing from the left.
#[derive(Clone, Copy, PartialEq, Eq, Debug)]
pub enum LineError {
    // Bytes that are no text in UTF-8.
    NotText,
    UnknownCommand,
    NotANumber,
    // A number past 64 bits.
    NumberTooLarge,
    TooFewWords,
    TooManyWords,
    // More rows of a sheet than there may be, or a negative number of them.
    SheetRows,
    MissingMethod,
    UnknownMethod,
    MissingHex,
    NoHexDigit,
    OddHexDigits,
    // One fact more than are held at most.
    FactsFull,
    OutOfMemory,
}

impl fmt::Display for LineError {
    ghost output = { λ e. Some (reason_text e) };

    fn fmt<W: fmt::Write>(&self, f: &mut fmt::Formatter<W>) -> fmt::Result {
        f.write_str(match self {
            LineError::NotText => "not text in UTF-8",
            LineError::UnknownCommand => "unknown command",
            LineError::NotANumber => "not a number",
            LineError::NumberTooLarge => "number too large for 64 bits",
            LineError::TooFewWords => "too few words",
            LineError::TooManyWords => "too many words",
            LineError::SheetRows => "a sheet has 0 to 64 rows",
            LineError::MissingMethod => "method missing",
            LineError::UnknownMethod => "unknown method",
            LineError::MissingHex => "hexadecimal digits missing",
            LineError::NoHexDigit => "not a hexadecimal digit",
            LineError::OddHexDigits => "odd number of hexadecimal digits",
            LineError::FactsFull => "1000 facts are held already",
            LineError::OutOfMemory => "out of memory",
        })
    }
}

impl From<AllocError> for LineError {
    ghost from_gives = { λ _ e. e ≡ OutOfMemory };

    fn from(_: AllocError) -> LineError {
        Self::OutOfMemory
    }
}
