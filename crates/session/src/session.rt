// What the console holds between two lines: the facts, the goal and the size of the fact sheet.
ghost use Rattle.std.specs.Prelude.{◌≡◌, IfOk};
ghost use Rattle.session.specs.Sessions.{model_of, fresh, asked_with, Answered, Ran, LineRan, sheet_of};
ghost use Rattle.commands.specs.Lines.{add_fact};
ghost use Rattle.commands.specs.Read.{says};
ghost use Rattle.replies.specs.Texts.{unless_refused};
ghost use Rattle.replies.specs.declared.reply.Reply.TheVariants.{Done};
ghost use Rattle.methods.specs.Openings.{row_says};
ghost use Rattle.words.specs.Hex.{hex_bytes};

use crate::stacks::named_stack;
use commands::{Command, Stack, parse};
use methods::{Claim, ProofMethod};
use replies::Reply;
use rows::limits::COLUMNS;
use rows::{Answer, Numbers, Row};
use std::alloc::{AllocError, Global};
use std::str::from_utf8;
use words::{Hex, LineError};

// The most facts that are held.
pub const MOST_HELD: usize = 1_000;

// The rows of the fact sheet at the start.
pub const ROWS_AT_START: usize = 32;

// Numbers that are all zero, written out, since a constant calls no `default`.
const ZEROS: Numbers = Numbers {
    coefficients: [0; COLUMNS],
    bound: 0,
};

// What is answered to a command that cannot be refused.
const DONE: Option<Reply> = Some(Reply::Done);

// The facts in their order, the goal, and how many rows the fact sheet has.
#[derive(Drop)]
pub struct Session {
    facts: Vec<Numbers>,
    goal: Numbers,
    rows: usize,
}

impl Session {
    // No fact, a goal of zeros, a sheet of 32 rows.
    pub fn new(heap: Global) -> Session
        ensures { model_of result ≡ fresh }
    {
        Session {
            facts: Vec::new(heap),
            goal: ZEROS,
            rows: ROWS_AT_START,
        }
    }

    // The fact sheet: the facts, as many as it has rows, and rows of zeros behind them.
    fn sheet(&self, heap: Global) -> Result<Vec<Numbers>, AllocError>
        ensures { IfOk result (λ v. v.items ≡ sheet_of self.now.facts.items self.now.rows) }
    {
        let held = self.facts.len().min(self.rows);
        let mut sheet = Vec::from_slice(heap, &self.facts[..held])?;
        sheet.resize(self.rows, ZEROS)?;
        Ok(sheet)
    }

    // The answer of a stack of methods to the question whether the facts give the goal.
    fn ask(&self, heap: Global, stack: Stack, certificate: Hex<'_>) -> Result<Answer, LineError>
        ensures { Answered result (asked_with (model_of self.now) stack (hex_bytes certificate.entry.word.now)) }
    {
        let bytes = certificate.bytes(heap)?;
        let mut sheet = self.sheet(heap)?;
        let method = named_stack(stack);
        let claim = Claim {
            count: self.facts.len(),
            goal: &self.goal,
            certificate: &bytes,
        };
        Ok(method.question(&mut sheet, claim))
    }

    // One more fact, behind the others, if there is room for it.
    fn add(&mut self, fact: Numbers) -> Result<Option<Reply>, LineError>
        ensures { Ran (add_fact fact) (model_of self.old) (model_of self.new) result }
    {
        if self.facts.len() >= MOST_HELD {
            return Err(LineError::FactsFull);
        }
        self.facts.push(fact).map_err(AllocError::from)?;
        Ok(DONE)
    }

    // Does a command: what is answered, if anything.
    pub fn run(&mut self, heap: Global, command: Command<'_>) -> Result<Option<Reply>, LineError>
        ensures { Ran (says command.entry) (model_of self.old) (model_of self.new) result }
    {
        match command {
            Command::Nothing => Ok(None),
            Command::Sheet(rows) => {
                self.rows = rows;
                Ok(DONE)
            }
            Command::Fact(fact) => self.add(fact),
            Command::Goal(goal) => {
                self.goal = goal;
                Ok(DONE)
            }
            Command::Forget => {
                self.facts.clear();
                self.goal = ZEROS;
                Ok(DONE)
            }
            Command::Row(numbers) => Ok(Some(row_reply(numbers))),
            Command::Ask { stack, certificate } => {
                let answer = self.ask(heap, stack, certificate)?;
                Ok(Some(Reply::Yes.unless_refused(answer)))
            }
        }
    }

    // Does the command that a line says: what is answered, if anything. A line that is no command changes nothing.
    pub fn answer(&mut self, heap: Global, line: &[u8]) -> Result<Option<Reply>, LineError>
        ensures { LineRan line.now (model_of self.old) (model_of self.new) result }
    {
        let text = from_utf8(line).map_err(|_| LineError::NotText)?;
        self.run(heap, parse(text)?)
    }
}

// Whether the numbers are a row.
fn row_reply(numbers: Numbers) -> Reply
    ensures { result ≡ unless_refused Done (row_says numbers) }
{
    Reply::Done.unless_refused(Row::new(numbers).map(|_| ()))
}
