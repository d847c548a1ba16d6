// Records that have a number.
ghost use Rattle.std.specs.Prelude.{◌≡◌, ℕ, ◌==◌};
ghost use Rattle.records.specs.Lists.{first_with};
ghost use Rattle.std.specs.List.{find};
ghost use Rattle.std.specs.Option.{option_copied};

// A record with a number.
pub trait Numbered {
    ghost number: { Self → ℕ };

    // The record's number.
    fn number(&self) -> u16
        ensures { result ≡ number self.now };
}

// The first record with a number, if there is one.
#[tactic(auto, using(crate::proofs::Fronts::found_first))]
pub fn with_number<T: Numbered>(records: &[T], number: u16) -> Option<&T>
    ensures { option_copied result ≡ first_with T.Numbered.number number records.now }
{
    found(records, number)
}

// The same, said by the library's `find`.
// Apart from `with_number`: so the proof of the search is found without help, and a wrong one is refused here.
fn found<T: Numbered>(records: &[T], number: u16) -> Option<&T>
    ensures { option_copied result ≡ find (λ one. T.Numbered.number one == number) records.now }
{
    records.iter().find(|record| record.number() == number)
}

// An impl for each record by hand: the repository's own macros may write none.
pub mod inner;
pub mod place;
pub mod transition;
