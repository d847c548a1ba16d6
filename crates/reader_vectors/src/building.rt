// Builds the bytes of tables and witnesses, field by field. Numbers of places and transitions are below 256.
use std::alloc::Global;
use std::test::Fail;

// How many values and choices: the fewest, a few, and the most.
// Counts are tuples and no structs: with named fields no row of the tables of vectors would fit on a line.
pub const TINY: (u8, u8) = (1, 0);

pub const SMALL: (u8, u8) = (2, 1);

pub const LARGE: (u8, u8) = (6, 2);

// The offset of a byte that is changed, and the byte that is put there.
pub type Change = (usize, u8);

// The bytes that are changed, and the number of bytes then, if it is another.
#[derive(Clone, Copy)]
pub struct Changes {
    pub bytes: &'static [Change],
    pub length: Option<usize>,
}

// No change of a byte, and the length of the bytes as they were built.
pub const NONE: &[Change] = &[];

pub const WHOLE: Option<usize> = None;

pub const UNCHANGED: Changes = Changes {
    bytes: NONE,
    length: WHOLE,
};

// The written number that is stored at an offset.
pub fn stored(at: usize) -> i32 {
    (at % 10_000) as i32 * 100 - 400_000
}

// Puts so many written numbers at the end.
fn put_numbers(bytes: &mut Vec<u8>, count: usize) -> Result<(), Fail> {
    for _ in 0..count {
        let number = stored(bytes.len());
        bytes.extend_from_slice(&number.to_be_bytes())?;
    }
    Ok(())
}

// Puts the front of a piece at the end: the length of its rest, and the rest's first bytes.
fn put_front(bytes: &mut Vec<u8>, length: usize, front: &[u8]) -> Result<(), Fail> {
    let word = u16::try_from(length)?;
    bytes.extend_from_slice(&word.to_be_bytes())?;
    bytes.extend_from_slice(front)?;
    Ok(())
}

// Puts a piece at the end whose rest is a few bytes and so many numbers.
fn put_piece(bytes: &mut Vec<u8>, front: &[u8], numbers: usize) -> Result<(), Fail> {
    let length = front.len().saturating_add(numbers.saturating_mul(4));
    put_front(bytes, length, front)?;
    put_numbers(bytes, numbers)
}

// Puts a place piece at the end; its plan names the transition from 1 to 12 that leaves the place.
fn put_place(bytes: &mut Vec<u8>, values: u8, counts: (u8, u8), number: u8) -> Result<(), Fail> {
    let (conditions, entries) = counts;
    let row = usize::from(values) + 1;
    let rows = usize::from(conditions) * row;
    let tests = usize::from(entries.saturating_sub(1));
    let named = 13_u8.saturating_sub(number);
    let length = 7 + 4 * rows + (2 + 4 * row) * tests;
    put_front(bytes, length, &[1, 0, number, conditions])?;
    put_numbers(bytes, rows)?;
    bytes.push(entries)?;
    for _ in 0..tests {
        bytes.extend_from_slice(&[0, named])?;
        put_numbers(bytes, row)?;
    }
    bytes.extend_from_slice(&[0, named])?;
    Ok(())
}

// How a table is built: its values and choices, its transitions, and the initial rows and the guard rows of each.
pub type Table = ((u8, u8), u8, (u8, u8));

// A table with transitions 1, 2 and so on: transition 1 + i leaves place 12 - i % 12 and reaches place 1 + i % 5. So the
// transitions from 1 to 12 leave the places from 12 to 1, and place p has 13 - p.
pub fn table(heap: Global, built: Table) -> Result<Vec<u8>, Fail> {
    let ((values, choices), transitions, (initial, guards)) = built;
    let value_count = usize::from(values);
    let row = value_count + 1;
    let updates = value_count * (row + usize::from(choices));
    let numbers = usize::from(guards) * row + updates;
    let mut bytes = Vec::new(heap);
    bytes.push(1)?;
    let front = [values, choices, 0, 1, initial];
    put_piece(&mut bytes, &front, usize::from(initial) * row)?;
    for i in 0..transitions {
        let front = [0, i + 1, 0, 12 - i % 12, 0, 1 + i % 5, guards];
        put_piece(&mut bytes, &front, numbers)?;
    }
    Ok(bytes)
}

// The pieces of a witness: place pieces 1, 2 and so on, inner-transition pieces from a number up to another, and a place
// piece behind them all if its number is not 0.
pub type Pieces = (u8, u8, u8, u8);

// How a witness is built: the values and choices, its pieces, and the condition rows, plan entries and restriction rows
// of each.
pub type Witness = ((u8, u8), Pieces, (u8, u8, u8));

pub fn witness(heap: Global, built: Witness) -> Result<Vec<u8>, Fail> {
    let ((values, choices), (places, from, to, late), (conditions, entries, restrictions)) = built;
    let row = usize::from(values) + 1;
    let choice_count = usize::from(choices);
    let numbers = usize::from(restrictions) * (row + choice_count) + choice_count * row;
    let mut bytes = Vec::new(heap);
    bytes.push(1)?;
    for i in 0..places {
        put_place(&mut bytes, values, (conditions, entries), i + 1)?;
    }
    for number in from..to {
        put_piece(&mut bytes, &[2, 0, number, restrictions], numbers)?;
    }
    if late != 0 {
        put_place(&mut bytes, values, (conditions, entries), late)?;
    }
    Ok(bytes)
}

// Changes the bytes one after the other, and then the number of bytes: zeros fill it up.
pub fn change(bytes: &mut Vec<u8>, changes: Changes) -> Result<(), Fail> {
    for &(at, byte) in changes.bytes {
        *bytes.get_mut(at).ok_or("outside the bytes")? = byte;
    }
    if let Some(length) = changes.length {
        bytes.resize(length, 0)?;
    }
    Ok(())
}
