// The answer to a line that is no command.
ghost use Rattle.replies.specs.Texts.{error_text};
ghost use Rattle.std.specs.Prelude.{◌≡◌, IfOk, Some, string_bytes};

use std::alloc::{AllocError, Global};
use std::fmt;
use words::LineError;

// The line's number, counted from 1, and the reason.
#[derive(Clone, Copy)]
pub struct ErrorLine {
    pub line: u64,
    pub error: LineError,
}

impl fmt::Display for ErrorLine {
    ghost output = { λ x. Some (error_text x.line x.error) };

    fn fmt<W: fmt::Write>(&self, f: &mut fmt::Formatter<W>) -> fmt::Result {
        let ErrorLine { line, error } = *self;
        write!(f, "error line {line}: {error}")
    }
}

impl ErrorLine {
    // The answer as text: to_string for callers, with the text in the contract.
    pub fn text(&self, heap: Global) -> Result<String, AllocError>
        ensures { IfOk result (λ t. string_bytes t ≡ error_text self.now.line self.now.error) }
    {
        self.to_string(heap)
    }
}
