// What a line says.
ghost use Rattle.commands.specs.Lines.{first_method, keyword_of, line_by, sheet_rows, sheet_line, ask_line, line_of};
ghost use Rattle.commands.specs.Read.{says_in};
ghost use Rattle.commands.specs.Saying.{LinesRead};
ghost use Rattle.words.specs.Arguments.{rest_of};
ghost use Rattle.words.specs.Read.{left};
ghost use Rattle.words.specs.declared.errors.LineError.TheVariants.{UnknownCommand};
ghost use Rattle.std.specs.Prelude.{◌≡◌, ok_or};

use crate::stacks::Stack;
use rows::Numbers;
use std::str::FromStr;
use words::{Hex, LineError, Words};

// The most rows that a sheet may have.
pub const SHEET_ROWS: i64 = 64;

// A command of the console.
#[derive(Clone, Copy, PartialEq, Eq, Debug)]
pub enum Command<'a> {
    // An empty line or a comment. No Option around Command: `line_of` has it among what a line says, and tests compare it as such.
    Nothing,
    // The fact sheet has so many rows from here on.
    Sheet(usize),
    // One more fact.
    Fact(Numbers),
    // The goal.
    Goal(Numbers),
    // Neither facts nor goal any more.
    Forget,
    // The numbers as a row.
    Row(Numbers),
    // The question whether the facts give the goal, put to a stack of methods with a certificate.
    Ask { stack: Stack, certificate: Hex<'a> },
}

// The word that a command begins with.
#[derive(Clone, Copy)]
enum Keyword {
    Sheet,
    Fact,
    Goal,
    Forget,
    Row,
    Ask,
}

impl FromStr for Keyword {
    type Err = LineError;

    ghost from_str_gives = { λ word r. r ≡ ok_or (keyword_of word) UnknownCommand };

    // The keyword that a word is.
    #[tactic(auto, using(crate::proofs::Parsing::unlike))]
    fn from_str(word: &str) -> Result<Keyword, LineError> {
        match word {
            "sheet" => Ok(Keyword::Sheet),
            "fact" => Ok(Keyword::Fact),
            "goal" => Ok(Keyword::Goal),
            "forget" => Ok(Keyword::Forget),
            "row" => Ok(Keyword::Row),
            "ask" => Ok(Keyword::Ask),
            _ => Err(LineError::UnknownCommand),
        }
    }
}

impl Keyword {
    // The keyword's command, with the words behind it.
    fn command(self, words: Words<'_>) -> Result<Command<'_>, LineError>
        ensures { says_in result ≡ line_by self (left words.entry) }
    {
        match self {
            Keyword::Sheet => sheet(words),
            Keyword::Fact => Ok(Command::Fact(words.numbers()?)),
            Keyword::Goal => Ok(Command::Goal(words.numbers()?)),
            Keyword::Forget => words.end().map(|()| Command::Forget),
            Keyword::Row => Ok(Command::Row(words.numbers()?)),
            Keyword::Ask => ask(words),
        }
    }
}

// The number of rows of a sheet.
fn sheet_rows(rows: i64) -> Result<usize, LineError>
    ensures { result ≡ sheet_rows rows }
{
    if rows > SHEET_ROWS {
        return Err(LineError::SheetRows);
    }
    usize::try_from(rows).map_err(|_| LineError::SheetRows)
}

// A number of rows.
fn sheet(mut words: Words<'_>) -> Result<Command<'_>, LineError>
    ensures { says_in result ≡ sheet_line (left words.entry) }
{
    let rows = words.number()?;
    words.end()?;
    Ok(Command::Sheet(sheet_rows(rows)?))
}

// The next word as a stack of methods.
fn method(words: &mut Words<'_>) -> Result<Stack, LineError>
    ensures value { result ≡ first_method (left words.old) }
    ensures after { left words.new ≡ rest_of (left words.old) }
{
    let word = words.next().ok_or(LineError::MissingMethod)?;
    Stack::read(word).ok_or(LineError::UnknownMethod)
}

// A stack of methods and a certificate.
fn ask(mut words: Words<'_>) -> Result<Command<'_>, LineError>
    ensures { says_in result ≡ ask_line (left words.entry) }
{
    let stack = method(&mut words)?;
    let certificate = words.hex()?;
    words.end()?;
    Ok(Command::Ask { stack, certificate })
}

// The command of a line, or the first thing that is wrong with it.
pub fn parse(line: &str) -> Result<Command<'_>, LineError>
    ensures value { says_in result ≡ line_of line.now }
    ensures law { LinesRead }
{
    let mut words = Words::new(line);
    let Some(first) = words.next() else {
        return Ok(Command::Nothing);
    };
    if first.starts_with('#') {
        return Ok(Command::Nothing);
    }
    let keyword: Keyword = first.parse()?;
    keyword.command(words)
}
