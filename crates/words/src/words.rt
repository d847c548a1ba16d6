// A line as words.
ghost use Rattle.words.specs.Words.{separator, Front, Handed, words_of, WordsRead};
ghost use Rattle.std.specs.Iterator.{YieldsFirstRef, item_count, MakesProgress};
ghost use Rattle.std.specs.Prelude.{◌≡◌, true, false};

// What is left of a line.
#[derive(Clone, Copy)]
pub struct Words<'a> {
    rest: &'a str,
}

// Whether a byte stands between words: a space, a tab or a carriage return.
fn is_separator(byte: u8) -> bool
    ensures { result ≡ separator byte }
{
    matches!(byte, b' ' | b'\t' | b'\r')
}

// How many separators stand in front.
// Over bytes, as the next one: a search of the text for characters decodes each of them, and took half as long again.
#[tactic(auto, using(crate::proofs::Cuts::blanks_found))]
fn blanks(bytes: &[u8]) -> usize
    ensures { Front true bytes.now result }
{
    bytes
        .iter()
        .position(|byte| !is_separator(*byte))
        .unwrap_or(bytes.len())
}

// How many bytes stand before the first separator.
#[tactic(auto, using(crate::proofs::Cuts::word_found))]
fn word_length(bytes: &[u8]) -> usize
    ensures { Front false bytes.now result }
{
    bytes
        .iter()
        .position(|byte| is_separator(*byte))
        .unwrap_or(bytes.len())
}

impl<'a> Words<'a> {
    // The words of a line.
    pub fn new(line: &'a str) -> Words<'a>
        ensures { result.rest.now ≡ line.now }
    {
        Words { rest: line }
    }
}

impl<'a> Iterator for Words<'a> {
    type Item = &'a str;

    ghost next_gives = { YieldsFirstRef (λ w. words_of w.rest.now) };

    ghost remaining = { item_count (λ w. words_of w.rest.now) };

    // The next word, or none where only separators are left.
    fn next(&mut self) -> Option<&'a str>
        ensures steps { YieldsFirstRef (λ w. words_of w.rest.now) self.old result self.new }
        ensures goes { MakesProgress (λ _. Unit {0}) (item_count (λ w. words_of w.rest.now)) self.old result self.new }
        ensures handed { Handed result self.old.rest.now self.new.rest.now }
        ensures law { WordsRead }
    {
        let line = self.rest;
        let (_, text) = line.split_at(blanks(line.as_bytes()));
        let (word, rest) = text.split_at(word_length(text.as_bytes()));
        self.rest = rest;
        // An `if`, since with `then_some` the goals of all four clauses stayed open.
        if word.is_empty() { None } else { Some(word) }
    }
}
