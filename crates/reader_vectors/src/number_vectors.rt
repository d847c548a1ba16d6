// Written numbers at their limits and past them, in every position and for every count of values and choices.
use crate::building::*;
use crate::reading::*;
use rows::FaultKind;
use std::alloc::Global;
use std::process::Abort;
use std::test::Fail;

// A number, and whether it is a written number.
const NUMBERS: [(i32, bool); 6] = [
    (1_000_000, true),
    (-1_000_000, true),
    (1_000_001, false),
    (-1_000_001, false),
    (i32::MAX, false),
    (i32::MIN, false),
];

// Puts a number at an offset.
fn put_at(bytes: &mut [u8], at: usize, number: i32) -> Result<(), Fail> {
    let field = bytes.get_mut(at..).and_then(|rest| rest.first_chunk_mut());
    *field.ok_or("outside the bytes")? = number.to_be_bytes();
    Ok(())
}

// Each of the numbers, put at an offset of a table with one transition.
fn numbers_in_table(rt: &impl Abort, bytes: &mut [u8], at: usize) -> Result<(), Fail> {
    for (number, taken) in NUMBERS {
        put_at(bytes, at, number)?;
        let refused = (FaultKind::TableWritten, at);
        let expected = if taken { Ok(1) } else { Err(refused) };
        expect_table(rt, &(number, at), bytes, TABLE_MEMORY, expected)?;
    }
    put_at(bytes, at, 0)
}

// Every number of a table with one row of each kind: the initial row begins at 8, and 9 bytes of the transition piece
// stand behind it.
fn numbers_of_table(rt: &impl Abort, heap: Global, values: u8, choices: u8) -> Result<(), Fail> {
    let mut bytes = table(heap, ((values, choices), 1, (1, 1)))?;
    let row = usize::from(values) + 1;
    let updates = usize::from(values) * (row + usize::from(choices));
    for slot in 0..2 * row + updates {
        let from = if slot < row { 8 } else { 17 };
        numbers_in_table(rt, &mut bytes, from + 4 * slot)?;
    }
    Ok(())
}

#[test]
fn numbers_of_tables(rt: HostRuntime) -> Result<(), Fail> {
    for values in 1..=6 {
        for choices in 0..=2 {
            numbers_of_table(&rt, rt.alloc(), values, choices)?;
        }
    }
    Ok(())
}

// Each of the numbers, put at an offset of a witness with two places and two inner transitions.
fn numbers_in_witness(
    rt: &impl Abort,
    against: &[u8],
    bytes: &mut [u8],
    at: usize,
) -> Result<(), Fail> {
    for (number, taken) in NUMBERS {
        put_at(bytes, at, number)?;
        let refused = (FaultKind::WitnessWritten, at);
        let expected = if taken { Ok((2, 2)) } else { Err(refused) };
        expect_witness(rt, &(number, at), against, bytes, WITNESS_MEMORY, expected)?;
    }
    put_at(bytes, at, 0)
}

// Every number of the second place and the first inner transition of a witness with one row of each kind. The first
// place ends with its last entry, and 6 bytes of the second stand behind that; then the condition row, 3 bytes of the
// plan, the test row, the last entry and 6 bytes of the inner-transition piece.
fn numbers_of_witness(rt: &impl Abort, heap: Global, values: u8, choices: u8) -> Result<(), Fail> {
    let shape = (values, choices);
    let against = table(heap, (shape, 24, (0, 0)))?;
    let mut bytes = witness(heap, (shape, (2, 11, 13, 0), (1, 2, 1)))?;
    let row = usize::from(values) + 1;
    let amount = usize::from(choices);
    for slot in 2 * row..5 * row + amount + amount * row {
        let from = if slot < 3 * row {
            18
        } else if slot < 4 * row {
            21
        } else {
            29
        };
        numbers_in_witness(rt, &against, &mut bytes, from + 4 * slot)?;
    }
    Ok(())
}

#[test]
fn numbers_of_witnesses(rt: HostRuntime) -> Result<(), Fail> {
    for values in 1..=6 {
        for choices in 0..=2 {
            numbers_of_witness(&rt, rt.alloc(), values, choices)?;
        }
    }
    Ok(())
}
