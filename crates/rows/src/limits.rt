// Every limit on a number, each stated once.
ghost use Rattle.rows.specs.Limits.{magnitude_of, within as lies_within};
ghost use Rattle.std.specs.Prelude.{◌≡◌, pos};

// The columns of a row: six for state values, then two for choices.
pub const COLUMNS: usize = 8;

// A row's numbers: its coefficients and then its bound.
pub const ITEMS: usize = 9;

// The item of a row's bound in a fault.
pub const BOUND_ITEM: u8 = 8;

// The magnitude that no number of a row passes.
pub const ROW_LIMIT: i64 = 20_000_000_000_000;

// The magnitude that no written number passes.
pub const WRITTEN_LIMIT: i64 = 1_000_000;

// The magnitude that no value of a state, and no choice, passes.
pub const VALUE_LIMIT: i64 = 1_000_000_000;

// What a number's magnitude is held to, by where the number stands.
#[derive(Clone, Copy, PartialEq, Eq, Debug)]
pub enum Limit {
    // A number of a row.
    RowNumber,
    // A number that stands in a table, a witness, an added row or a split.
    WrittenNumber,
    // A value of a state, or a choice.
    StateValue,
}

impl Limit {
    // The greatest magnitude allowed.
    pub fn magnitude(self) -> i64
        ensures { result ≡ pos (magnitude_of self) }
    {
        match self {
            Limit::RowNumber => ROW_LIMIT,
            Limit::WrittenNumber => WRITTEN_LIMIT,
            Limit::StateValue => VALUE_LIMIT,
        }
    }

    // Whether the number lies within the limit.
    pub fn admits(self, number: i64) -> bool
        ensures { result ≡ lies_within (magnitude_of self) number }
    {
        let most = self.magnitude();
        (-most..=most).contains(&number)
    }
}
