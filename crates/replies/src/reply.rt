// Answers as they are printed.
ghost use Rattle.replies.specs.Texts.{table_text, witness_text, reply_text, unless_refused};
ghost use Rattle.std.specs.Prelude.{◌≡◌, IfOk, Some, string_bytes};

use rows::{Answer, Fault};
use std::alloc::{AllocError, Global};
use std::fmt;

// The answer to a table that was read: how many values and choices, its start place, how many initial rows and transitions.
#[derive(Clone, Copy)]
pub struct TableRead {
    pub values: u8,
    pub choices: u8,
    pub start: u16,
    pub initial: usize,
    pub transitions: usize,
}

impl fmt::Display for TableRead {
    ghost output = { λ t. Some (table_text t) };

    fn fmt<W: fmt::Write>(&self, f: &mut fmt::Formatter<W>) -> fmt::Result {
        let TableRead {
            values,
            choices,
            start,
            initial,
            transitions,
        } = *self;
        write!(
            f,
            "ok: values {values} choices {choices} start {start} initial {initial} transitions {transitions}"
        )
    }
}

// The answer to a witness that was read: how many listed places and inner transitions.
#[derive(Clone, Copy)]
pub struct WitnessRead {
    pub places: usize,
    pub inners: usize,
}

impl fmt::Display for WitnessRead {
    ghost output = { λ w. Some (witness_text w) };

    fn fmt<W: fmt::Write>(&self, f: &mut fmt::Formatter<W>) -> fmt::Result {
        let WitnessRead { places, inners } = *self;
        write!(f, "ok: places {places} inner {inners}")
    }
}

// What is answered to a command. No Result: all are printed, four kinds of success and a refusal, each with a text of its own.
#[derive(Clone, Copy)]
pub enum Reply {
    // A method's yes to a question.
    Yes,
    // Any other command was done.
    Done,
    // A table was read.
    Table(TableRead),
    // A witness was read.
    Witness(WitnessRead),
    Refused(Fault),
}

impl fmt::Display for Reply {
    ghost output = { λ x. Some (reply_text x) };

    fn fmt<W: fmt::Write>(&self, f: &mut fmt::Formatter<W>) -> fmt::Result {
        match self {
            Reply::Yes => f.write_str("yes"),
            Reply::Done => f.write_str("ok"),
            Reply::Table(table) => table.fmt(f),
            Reply::Witness(witness) => witness.fmt(f),
            Reply::Refused(
                Fault {
                    kind,
                    place,
                    depth,
                    item,
                },
            ) => {
                let number = kind.number();
                write!(f, "refused {number} at {place} layer {depth} item {item}")
            }
        }
    }
}

impl Reply {
    // This reply, unless the answer is a refusal.
    pub fn unless_refused(self, answer: Answer) -> Reply
        ensures { result ≡ unless_refused self answer }
    {
        // A match: `map_or_else` would name the refusal first, and read no plainer.
        match answer {
            Ok(()) => self,
            Err(fault) => Reply::Refused(fault),
        }
    }

    // The answer as text: to_string for callers, with the text in the contract.
    pub fn text(&self, heap: Global) -> Result<String, AllocError>
        ensures { IfOk result (λ t. string_bytes t ≡ reply_text self.now) }
    {
        self.to_string(heap)
    }
}
