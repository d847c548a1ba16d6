// The limits of a question, each stated once.

// The greatest number of facts of a question.
pub const MOST_FACTS: usize = 32;

// The greatest multiplier, and the greatest divisor.
pub const MOST_WEIGHT: u16 = 10_000;
