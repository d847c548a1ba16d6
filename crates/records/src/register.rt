// Registers: records in memory that the caller lends.
ghost use Rattle.std.specs.Prelude.{ℕ, ◌≤◌, length};

// The first `len` of the records; the memory behind them is not part of the register.
// Lent memory with a length, and no `Vec`: the checker's core runs in fixed memory.
// Four methods read as those of `BoundedList`, which owns an array where this writes to a lent slice: they share no field.
#[derive(Drop)]
pub struct Register<'a, T> {
    records: &'a mut [T],
    len: usize,
    ghost within: { len ≤ length records.now },
}

pub mod methods;
