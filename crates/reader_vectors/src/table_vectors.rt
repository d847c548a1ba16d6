// Tables with one fault or two, and with counts at their limits.
use crate::building::*;
use crate::reading::*;
use rows::FaultKind;
use rows::FaultKind::*;
use std::test::Fail;

// The number of transitions of a small table with one initial row and one guard row in each, the bytes changed in it, the number of its bytes, and what the readers tell.
static VECTORS: [(u8, &[Change], Option<usize>, Expected<usize>); 131] = [
    // The version.
    (2, NONE, Some(0), Err((TableVersion, 0))),
    (2, &[(0, 0)], WHOLE, Err((TableVersion, 0))),
    (2, &[(0, 2)], WHOLE, Err((TableVersion, 0))),
    (2, &[(0, 255)], WHOLE, Err((TableVersion, 0))),
    (2, &[(0, 0), (2, 0)], WHOLE, Err((TableVersion, 0))),
    // The heading: its length field, its rest and its counts.
    (2, NONE, Some(1), Err((TableLength, 1))),
    (2, NONE, Some(2), Err((TableLength, 1))),
    (2, &[(1, 255)], WHOLE, Err((TableLength, 1))),
    (2, &[(1, 255), (3, 0)], WHOLE, Err((TableLength, 1))),
    (2, &[(2, 0)], WHOLE, Err((TableLength, 1))),
    (2, &[(2, 0), (3, 0)], WHOLE, Err((TableLength, 1))),
    (2, &[(3, 0)], WHOLE, Err((TableCount, 3))),
    (2, &[(3, 7)], WHOLE, Err((TableCount, 3))),
    (2, &[(3, 255)], WHOLE, Err((TableCount, 3))),
    (2, &[(2, 1), (3, 0)], WHOLE, Err((TableCount, 3))),
    (2, &[(3, 7), (4, 3)], WHOLE, Err((TableCount, 3))),
    (2, &[(2, 1)], WHOLE, Err((TableLength, 1))),
    (2, &[(2, 1), (4, 3)], WHOLE, Err((TableLength, 1))),
    (2, &[(4, 3)], WHOLE, Err((TableCount, 4))),
    (2, &[(4, 255)], WHOLE, Err((TableCount, 4))),
    (2, &[(2, 2), (4, 3)], WHOLE, Err((TableCount, 4))),
    (2, &[(4, 3), (7, 7)], WHOLE, Err((TableCount, 4))),
    (2, &[(2, 2)], WHOLE, Err((TableLength, 1))),
    (2, &[(2, 4)], WHOLE, Err((TableLength, 1))),
    (2, &[(2, 4), (7, 7)], WHOLE, Err((TableLength, 1))),
    (2, &[(7, 7)], WHOLE, Err((TableCount, 7))),
    (2, &[(7, 255)], WHOLE, Err((TableCount, 7))),
    (2, &[(2, 5), (7, 7)], WHOLE, Err((TableCount, 7))),
    (2, &[(6, 0), (7, 7)], WHOLE, Err((TableCount, 7))),
    (2, &[(2, 5)], WHOLE, Err((TableLength, 1))),
    (2, &[(2, 16)], WHOLE, Err((TableLength, 1))),
    (2, &[(2, 18)], WHOLE, Err((TableLength, 1))),
    (2, &[(3, 1)], WHOLE, Err((TableLength, 1))),
    (2, &[(3, 3)], WHOLE, Err((TableLength, 1))),
    (2, &[(7, 0)], WHOLE, Err((TableLength, 1))),
    (2, &[(7, 2)], WHOLE, Err((TableLength, 1))),
    (2, &[(7, 6)], WHOLE, Err((TableLength, 1))),
    (2, &[(2, 16), (6, 0)], WHOLE, Err((TableLength, 1))),
    (2, &[(2, 16), (8, 1)], WHOLE, Err((TableLength, 1))),
    // The heading: its numbers.
    (2, &[(6, 0)], WHOLE, Err((TableNumber, 5))),
    (2, &[(6, 0), (8, 1)], WHOLE, Err((TableNumber, 5))),
    (2, &[(5, 1), (6, 0)], WHOLE, Ok(2)),
    (2, &[(5, 255), (6, 255)], WHOLE, Ok(2)),
    (2, &[(8, 1)], WHOLE, Err((TableWritten, 8))),
    (2, &[(12, 128)], WHOLE, Err((TableWritten, 12))),
    (2, &[(16, 1)], WHOLE, Err((TableWritten, 16))),
    (2, &[(8, 1), (12, 1)], WHOLE, Err((TableWritten, 8))),
    (2, &[(12, 1), (16, 1)], WHOLE, Err((TableWritten, 12))),
    (2, &[(16, 1), (20, 255)], WHOLE, Err((TableWritten, 16))),
    (2, &[(6, 0), (28, 5)], WHOLE, Err((TableNumber, 5))),
    // The first transition: its length and its count.
    (2, NONE, Some(20), Ok(0)),
    (2, NONE, Some(21), Err((TableLength, 20))),
    (2, NONE, Some(22), Err((TableLength, 20))),
    (2, &[(20, 255)], WHOLE, Err((TableLength, 20))),
    (2, &[(20, 255), (28, 5)], WHOLE, Err((TableLength, 20))),
    (2, &[(21, 0)], WHOLE, Err((TableLength, 20))),
    (2, &[(21, 6)], WHOLE, Err((TableLength, 20))),
    (2, &[(21, 6), (28, 5)], WHOLE, Err((TableLength, 20))),
    (2, &[(28, 5)], WHOLE, Err((TableCount, 28))),
    (2, &[(28, 255)], WHOLE, Err((TableCount, 28))),
    (2, &[(21, 7), (28, 5)], WHOLE, Err((TableCount, 28))),
    (2, &[(23, 0), (28, 5)], WHOLE, Err((TableCount, 28))),
    (2, &[(21, 7)], WHOLE, Err((TableLength, 20))),
    (2, &[(21, 50)], WHOLE, Err((TableLength, 20))),
    (2, &[(21, 52)], WHOLE, Err((TableLength, 20))),
    (2, &[(28, 0)], WHOLE, Err((TableLength, 20))),
    (2, &[(28, 2)], WHOLE, Err((TableLength, 20))),
    (2, &[(28, 4)], WHOLE, Err((TableLength, 20))),
    (2, &[(4, 0)], WHOLE, Err((TableLength, 20))),
    (2, &[(4, 2)], WHOLE, Err((TableLength, 20))),
    (2, &[(21, 50), (23, 0)], WHOLE, Err((TableLength, 20))),
    (2, &[(28, 0), (29, 1)], WHOLE, Err((TableLength, 20))),
    // The first transition: its numbers.
    (2, &[(23, 0)], WHOLE, Err((TableNumber, 22))),
    (2, &[(23, 0), (25, 0)], WHOLE, Err((TableNumber, 22))),
    (2, &[(25, 0)], WHOLE, Err((TableNumber, 24))),
    (2, &[(25, 0), (27, 0)], WHOLE, Err((TableNumber, 24))),
    (2, &[(27, 0)], WHOLE, Err((TableNumber, 26))),
    (2, &[(27, 0), (29, 1)], WHOLE, Err((TableNumber, 26))),
    (2, &[(24, 1), (25, 0)], WHOLE, Ok(2)),
    (2, &[(26, 255), (27, 255)], WHOLE, Ok(2)),
    (2, &[(29, 1)], WHOLE, Err((TableWritten, 29))),
    (2, &[(29, 1), (33, 1)], WHOLE, Err((TableWritten, 29))),
    (2, &[(33, 128)], WHOLE, Err((TableWritten, 33))),
    (2, &[(37, 1), (41, 1)], WHOLE, Err((TableWritten, 37))),
    (2, &[(41, 1)], WHOLE, Err((TableWritten, 41))),
    (2, &[(41, 1), (45, 1)], WHOLE, Err((TableWritten, 41))),
    (2, &[(53, 1), (57, 1)], WHOLE, Err((TableWritten, 53))),
    (2, &[(69, 128)], WHOLE, Err((TableWritten, 69))),
    (2, &[(69, 1), (73, 255)], WHOLE, Err((TableWritten, 69))),
    (2, &[(69, 1), (76, 0)], WHOLE, Err((TableWritten, 69))),
    // The second transition.
    (2, NONE, Some(73), Ok(1)),
    (2, NONE, Some(74), Err((TableLength, 73))),
    (2, NONE, Some(125), Err((TableLength, 73))),
    (2, &[(74, 6)], WHOLE, Err((TableLength, 73))),
    (2, &[(74, 50)], WHOLE, Err((TableLength, 73))),
    (2, &[(74, 52)], WHOLE, Err((TableLength, 73))),
    (2, &[(81, 5)], WHOLE, Err((TableCount, 81))),
    (2, &[(74, 7), (81, 5)], WHOLE, Err((TableCount, 81))),
    (2, &[(81, 0), (76, 0)], WHOLE, Err((TableLength, 73))),
    (2, &[(76, 0)], WHOLE, Err((TableNumber, 75))),
    (2, &[(76, 1)], WHOLE, Err((TableNumber, 75))),
    (2, &[(23, 2)], WHOLE, Err((TableNumber, 75))),
    (2, &[(23, 3)], WHOLE, Err((TableNumber, 75))),
    (2, &[(22, 1)], WHOLE, Err((TableNumber, 75))),
    (2, &[(22, 1), (76, 255)], WHOLE, Err((TableNumber, 75))),
    (2, &[(22, 1), (75, 1)], WHOLE, Ok(2)),
    (2, &[(23, 255), (75, 1)], WHOLE, Ok(2)),
    (2, &[(75, 255), (76, 255)], WHOLE, Ok(2)),
    (2, &[(76, 1), (78, 0)], WHOLE, Err((TableNumber, 75))),
    (2, &[(78, 0), (80, 0)], WHOLE, Err((TableNumber, 77))),
    (2, &[(80, 0), (82, 1)], WHOLE, Err((TableNumber, 79))),
    (2, &[(90, 1), (94, 1)], WHOLE, Err((TableWritten, 90))),
    (2, &[(122, 1)], WHOLE, Err((TableWritten, 122))),
    // Bytes behind the last piece.
    (2, NONE, WHOLE, Ok(2)),
    (2, NONE, Some(127), Err((TableLength, 126))),
    (2, NONE, Some(128), Err((TableLength, 126))),
    (2, NONE, Some(140), Err((TableLength, 126))),
    (2, &[(122, 1)], Some(127), Err((TableWritten, 122))),
    // The 25th transition.
    (25, NONE, Some(1292), Ok(24)),
    (25, NONE, Some(1293), Err((TableLength, 1292))),
    (25, NONE, WHOLE, Err((TableCount, 1292))),
    (25, &[(1293, 0)], WHOLE, Err((TableLength, 1292))),
    (25, &[(1293, 6)], WHOLE, Err((TableLength, 1292))),
    (25, &[(1293, 7)], WHOLE, Err((TableCount, 1292))),
    (25, &[(1293, 6), (1300, 5)], WHOLE, Err((TableLength, 1292))),
    (25, &[(1293, 50)], WHOLE, Err((TableCount, 1292))),
    (25, &[(1300, 5)], WHOLE, Err((TableCount, 1292))),
    (25, &[(1295, 0)], WHOLE, Err((TableCount, 1292))),
    (25, &[(1301, 1)], WHOLE, Err((TableCount, 1292))),
    (25, &[(1242, 0)], WHOLE, Err((TableNumber, 1241))),
    (25, &[(1288, 1)], WHOLE, Err((TableWritten, 1288))),
];

// How the table is built, with counts at their limits and past them, and what the readers tell.
static LIMITS: [(Table, Expected<usize>); 23] = [
    (((0, 0), 0, (0, 0)), Err((TableCount, 3))),
    (((0, 0), 1, (1, 1)), Err((TableCount, 3))),
    ((TINY, 0, (0, 0)), Ok(0)),
    ((TINY, 1, (0, 0)), Ok(1)),
    ((LARGE, 1, (1, 1)), Ok(1)),
    (((7, 0), 1, (1, 1)), Err((TableCount, 3))),
    (((7, 2), 0, (0, 0)), Err((TableCount, 3))),
    (((2, 2), 1, (1, 1)), Ok(1)),
    (((2, 3), 1, (1, 1)), Err((TableCount, 4))),
    (((6, 3), 0, (0, 0)), Err((TableCount, 4))),
    ((SMALL, 1, (6, 0)), Ok(1)),
    ((SMALL, 1, (7, 0)), Err((TableCount, 7))),
    ((LARGE, 0, (6, 0)), Ok(0)),
    ((LARGE, 0, (7, 0)), Err((TableCount, 7))),
    ((SMALL, 2, (0, 4)), Ok(2)),
    ((SMALL, 2, (0, 5)), Err((TableCount, 16))),
    ((LARGE, 1, (6, 4)), Ok(1)),
    ((LARGE, 1, (6, 5)), Err((TableCount, 184))),
    ((LARGE, 24, (6, 4)), Ok(24)),
    ((LARGE, 25, (6, 4)), Err((TableCount, 8264))),
    ((LARGE, 25, (0, 5)), Err((TableCount, 16))),
    ((TINY, 24, (0, 0)), Ok(24)),
    ((TINY, 25, (0, 0)), Err((TableCount, 416))),
];

#[test]
fn limits_of_tables(rt: HostRuntime) -> Result<(), Fail> {
    for (i, &(built, expected)) in LIMITS.iter().enumerate() {
        expect_built_table(
            &rt,
            &i,
            rt.alloc(),
            built,
            UNCHANGED,
            TABLE_MEMORY,
            expected,
        )?;
    }
    Ok(())
}

#[test]
fn faults_of_tables(rt: HostRuntime) -> Result<(), Fail> {
    for (i, &(transitions, bytes, length, expected)) in VECTORS.iter().enumerate() {
        let built = (SMALL, transitions, (1, 1));
        let changes = Changes { bytes, length };
        expect_built_table(&rt, &i, rt.alloc(), built, changes, TABLE_MEMORY, expected)?;
    }
    Ok(())
}
