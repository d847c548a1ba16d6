// Registers with enough memory and with a record too few.
use crate::building::*;
use crate::reading::*;
use rows::FaultKind;
use rows::FaultKind::*;
use std::test::Fail;

// Memory for so many transitions, places and inner transitions, a byte changed in the table, and what the reader tells.
static TABLES: [((usize, usize, usize), &[Change], Expected<usize>); 13] = [
    ((24, 12, 24), NONE, Ok(2)),
    ((25, 13, 25), NONE, Ok(2)),
    ((23, 12, 24), NONE, Err((TableCount, 0))),
    ((24, 11, 24), NONE, Err((TableCount, 0))),
    ((24, 12, 23), NONE, Err((TableCount, 0))),
    ((0, 0, 0), NONE, Err((TableCount, 0))),
    ((23, 12, 24), &[(0, 0)], Err((TableVersion, 0))),
    ((23, 12, 24), &[(2, 0)], Err((TableCount, 0))),
    ((23, 12, 24), &[(3, 7)], Err((TableCount, 0))),
    ((24, 11, 24), &[(6, 0)], Err((TableCount, 0))),
    ((24, 12, 23), &[(122, 1)], Err((TableCount, 0))),
    ((24, 12, 24), &[(3, 7)], Err((TableCount, 3))),
    ((24, 12, 24), &[(122, 1)], Err((TableWritten, 122))),
];

#[test]
fn memory_of_tables(rt: HostRuntime) -> Result<(), Fail> {
    for (i, &((transitions, places, inners), bytes, expected)) in TABLES.iter().enumerate() {
        let memory = TableMemory {
            transitions,
            places,
            inners,
        };
        let changes = Changes {
            bytes,
            length: WHOLE,
        };
        let built = (SMALL, 2, (1, 1));
        expect_built_table(&rt, &i, rt.alloc(), built, changes, memory, expected)?;
    }
    Ok(())
}

// Memory for so many places and inner transitions, a byte changed in the witness, and what the reader tells: too little
// memory is refused before anything else.
static WITNESSES: [((usize, usize), &[Change], Expected<(usize, usize)>); 9] = [
    ((12, 24), NONE, Ok((2, 2))),
    ((13, 25), NONE, Ok((2, 2))),
    ((11, 24), NONE, Err((TableCount, 0))),
    ((12, 23), NONE, Err((TableCount, 0))),
    ((0, 0), NONE, Err((TableCount, 0))),
    ((11, 24), &[(0, 0)], Err((TableCount, 0))),
    ((12, 23), &[(2, 0)], Err((TableCount, 0))),
    ((12, 24), &[(0, 0)], Err((WitnessVersion, 0))),
    ((12, 24), &[(21, 0)], Err((WitnessReference, 20))),
];

#[test]
fn memory_of_witnesses(rt: HostRuntime) -> Result<(), Fail> {
    for (i, &((places, inners), bytes, expected)) in WITNESSES.iter().enumerate() {
        let memory = WitnessMemory { places, inners };
        let changes = Changes {
            bytes,
            length: WHOLE,
        };
        let built = (SMALL, (2, 11, 13, 0), (1, 2, 1));
        expect_built_witness(&rt, &i, rt.alloc(), built, changes, memory, expected)?;
    }
    Ok(())
}
