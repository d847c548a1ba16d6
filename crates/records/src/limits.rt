// The limits of a table and a witness, each stated once.

// The greatest number of state values, and so of the updates of a transition.
pub const MOST_VALUES: usize = 6;

// The greatest number of choices, and so of the choice expressions of an inner transition.
pub const MOST_CHOICES: usize = 2;

// The greatest number of initial rows of a table.
pub const MOST_INITIAL: usize = 6;

// The greatest number of guard rows of a transition.
pub const MOST_GUARDS: usize = 4;

// The greatest number of condition rows of a listed place.
pub const MOST_CONDITIONS: usize = 6;

// The greatest number of plan entries of a listed place.
pub const MOST_ENTRIES: usize = 4;

// The greatest number of plan entries that have a test: all but the last.
pub const MOST_TESTED: usize = 3;

// The greatest number of restriction rows of an inner transition.
pub const MOST_RESTRICTIONS: usize = 2;

// The greatest number of transitions of a table.
pub const MOST_TRANSITIONS: usize = 24;

// The greatest number of listed places of a witness.
pub const MOST_PLACES: usize = 12;

// The greatest number of inner transitions of a witness.
pub const MOST_INNERS: usize = 24;
