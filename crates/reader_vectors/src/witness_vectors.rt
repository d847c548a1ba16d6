// Witnesses with one fault or two, and with counts at their limits.
use crate::building::*;
use crate::reading::*;
use rows::FaultKind;
use rows::FaultKind::*;
use std::alloc::Global;
use std::process::Abort;
use std::test::Fail;

// How a small witness is built: its pieces, and the entries of each plan; there is one condition row in each place and
// one restriction row in each inner transition.
type Built = (Pieces, u8);

// Two places and the two transitions between them; three entries in a plan; a third inner transition; and a place piece
// behind the others.
const TWO: Built = ((2, 11, 13, 0), 2);

const LONGER: Built = ((2, 11, 13, 0), 3);

const MORE: Built = ((2, 11, 14, 0), 2);

const LATE: Built = ((2, 11, 13, 3), 2);

// A place too many, in its order and behind the inner transitions, and an inner transition too many.
const PLACES: Built = ((13, 11, 13, 0), 2);

const LAST: Built = ((12, 11, 13, 13), 2);

const INNERS: Built = ((12, 1, 26, 0), 2);

// How the witness is built, the bytes changed in it, the number of its bytes, and what the readers tell.
type Vector = (
    Built,
    &'static [Change],
    Option<usize>,
    Expected<(usize, usize)>,
);

// The version and the places.
static IN_PLACES: [Vector; 76] = [
    // The version.
    (TWO, NONE, Some(0), Err((WitnessVersion, 0))),
    (TWO, &[(0, 0)], WHOLE, Err((WitnessVersion, 0))),
    (TWO, &[(0, 2)], WHOLE, Err((WitnessVersion, 0))),
    (TWO, &[(0, 255)], WHOLE, Err((WitnessVersion, 0))),
    (TWO, &[(0, 0), (2, 0)], WHOLE, Err((WitnessVersion, 0))),
    (TWO, NONE, Some(1), Ok((0, 0))),
    // A place: its length, its kind and its counts.
    (TWO, NONE, Some(2), Err((WitnessLength, 1))),
    (TWO, &[(1, 255)], WHOLE, Err((WitnessLength, 1))),
    (TWO, &[(1, 255), (3, 0)], WHOLE, Err((WitnessLength, 1))),
    (TWO, &[(2, 0)], WHOLE, Err((WitnessLength, 1))),
    (TWO, &[(2, 0), (3, 0)], WHOLE, Err((WitnessLength, 1))),
    (TWO, &[(3, 0)], WHOLE, Err((WitnessCount, 3))),
    (TWO, &[(3, 3)], WHOLE, Err((WitnessCount, 3))),
    (TWO, &[(3, 255)], WHOLE, Err((WitnessCount, 3))),
    (TWO, &[(2, 1), (3, 3)], WHOLE, Err((WitnessCount, 3))),
    (TWO, &[(3, 3), (6, 7)], WHOLE, Err((WitnessCount, 3))),
    (TWO, &[(2, 1)], WHOLE, Err((WitnessLength, 1))),
    (TWO, &[(2, 3)], WHOLE, Err((WitnessLength, 1))),
    (TWO, &[(2, 3), (6, 7)], WHOLE, Err((WitnessLength, 1))),
    (TWO, &[(6, 7)], WHOLE, Err((WitnessCount, 6))),
    (TWO, &[(6, 255)], WHOLE, Err((WitnessCount, 6))),
    (TWO, &[(2, 4), (6, 7)], WHOLE, Err((WitnessCount, 6))),
    (TWO, &[(6, 7), (19, 5)], WHOLE, Err((WitnessCount, 6))),
    (TWO, &[(2, 4)], WHOLE, Err((WitnessLength, 1))),
    (TWO, &[(2, 16)], WHOLE, Err((WitnessLength, 1))),
    (TWO, &[(2, 16), (19, 5)], WHOLE, Err((WitnessLength, 1))),
    (TWO, &[(6, 3)], WHOLE, Err((WitnessLength, 1))),
    (TWO, &[(19, 0)], WHOLE, Err((WitnessCount, 19))),
    (TWO, &[(19, 5)], WHOLE, Err((WitnessCount, 19))),
    (TWO, &[(19, 255)], WHOLE, Err((WitnessCount, 19))),
    (TWO, &[(2, 17), (19, 5)], WHOLE, Err((WitnessCount, 19))),
    (TWO, &[(5, 0), (19, 0)], WHOLE, Err((WitnessCount, 19))),
    (TWO, &[(6, 0)], WHOLE, Err((WitnessCount, 7))),
    (TWO, &[(6, 2)], WHOLE, Err((WitnessCount, 31))),
    (TWO, &[(2, 17)], WHOLE, Err((WitnessLength, 1))),
    (TWO, &[(2, 32)], WHOLE, Err((WitnessLength, 1))),
    (TWO, &[(2, 34)], WHOLE, Err((WitnessLength, 1))),
    (TWO, &[(19, 1)], WHOLE, Err((WitnessLength, 1))),
    (TWO, &[(19, 3)], WHOLE, Err((WitnessLength, 1))),
    (TWO, &[(19, 4)], WHOLE, Err((WitnessLength, 1))),
    (TWO, &[(2, 32), (5, 0)], WHOLE, Err((WitnessLength, 1))),
    (TWO, &[(7, 1), (19, 1)], WHOLE, Err((WitnessLength, 1))),
    // A place: its numbers.
    (TWO, &[(5, 0)], WHOLE, Err((WitnessNumber, 4))),
    (TWO, &[(5, 0), (7, 1)], WHOLE, Err((WitnessNumber, 4))),
    (TWO, &[(5, 0), (38, 0)], WHOLE, Err((WitnessNumber, 4))),
    (TWO, &[(7, 1)], WHOLE, Err((WitnessWritten, 7))),
    (TWO, &[(7, 1), (11, 1)], WHOLE, Err((WitnessWritten, 7))),
    (TWO, &[(11, 128), (15, 1)], WHOLE, Err((WitnessWritten, 11))),
    (TWO, &[(15, 1), (22, 1)], WHOLE, Err((WitnessWritten, 15))),
    (TWO, &[(22, 1)], WHOLE, Err((WitnessWritten, 22))),
    (TWO, &[(22, 128), (26, 1)], WHOLE, Err((WitnessWritten, 22))),
    (TWO, &[(30, 1)], WHOLE, Err((WitnessWritten, 30))),
    (TWO, &[(30, 1), (36, 255)], WHOLE, Err((WitnessWritten, 30))),
    // The second place.
    (TWO, NONE, Some(36), Err((WitnessReference, 20))),
    (TWO, NONE, Some(37), Err((WitnessLength, 36))),
    (TWO, NONE, Some(70), Err((WitnessLength, 36))),
    (TWO, &[(37, 34)], WHOLE, Err((WitnessLength, 36))),
    (TWO, &[(38, 3)], WHOLE, Err((WitnessCount, 38))),
    (TWO, &[(38, 2)], WHOLE, Err((WitnessLength, 36))),
    (TWO, &[(41, 7)], WHOLE, Err((WitnessCount, 41))),
    (TWO, &[(54, 5)], WHOLE, Err((WitnessCount, 54))),
    (TWO, &[(40, 1)], WHOLE, Err((WitnessNumber, 39))),
    (TWO, &[(40, 0)], WHOLE, Err((WitnessNumber, 39))),
    (TWO, &[(5, 2)], WHOLE, Err((WitnessNumber, 39))),
    (TWO, &[(5, 3)], WHOLE, Err((WitnessNumber, 39))),
    (TWO, &[(4, 1)], WHOLE, Err((WitnessNumber, 39))),
    (TWO, &[(40, 1), (42, 1)], WHOLE, Err((WitnessNumber, 39))),
    (TWO, &[(50, 1), (57, 1)], WHOLE, Err((WitnessWritten, 50))),
    (TWO, &[(65, 1)], WHOLE, Err((WitnessWritten, 65))),
    (TWO, &[(65, 1), (73, 0)], WHOLE, Err((WitnessWritten, 65))),
    // Two entries with a test.
    (
        LONGER,
        &[(30, 1), (36, 1)],
        WHOLE,
        Err((WitnessWritten, 30)),
    ),
    (LONGER, &[(36, 1)], WHOLE, Err((WitnessWritten, 36))),
    (LONGER, &[(35, 0)], WHOLE, Err((WitnessReference, 34))),
    (
        LONGER,
        &[(35, 0), (49, 0)],
        WHOLE,
        Err((WitnessReference, 34)),
    ),
    (LONGER, &[(49, 0)], WHOLE, Err((WitnessReference, 48))),
    (LONGER, NONE, WHOLE, Ok((2, 2))),
];

// The inner transitions, and bytes behind the last.
static IN_INNERS: [Vector; 52] = [
    // An inner transition: its length, its kind and its count.
    (TWO, NONE, Some(71), Err((WitnessReference, 20))),
    (TWO, NONE, Some(72), Err((WitnessLength, 71))),
    (TWO, &[(71, 255)], WHOLE, Err((WitnessLength, 71))),
    (TWO, &[(71, 255), (73, 0)], WHOLE, Err((WitnessLength, 71))),
    (TWO, &[(72, 0)], WHOLE, Err((WitnessLength, 71))),
    (TWO, &[(72, 0), (73, 0)], WHOLE, Err((WitnessLength, 71))),
    (TWO, &[(73, 0)], WHOLE, Err((WitnessCount, 73))),
    (TWO, &[(73, 3)], WHOLE, Err((WitnessCount, 73))),
    (TWO, &[(72, 1), (73, 0)], WHOLE, Err((WitnessCount, 73))),
    (TWO, &[(73, 3), (76, 3)], WHOLE, Err((WitnessCount, 73))),
    (TWO, &[(73, 1)], WHOLE, Err((WitnessCount, 89))),
    (TWO, &[(72, 1)], WHOLE, Err((WitnessLength, 71))),
    (TWO, &[(72, 3)], WHOLE, Err((WitnessLength, 71))),
    (TWO, &[(72, 3), (76, 3)], WHOLE, Err((WitnessLength, 71))),
    (TWO, &[(76, 3)], WHOLE, Err((WitnessCount, 76))),
    (TWO, &[(76, 255)], WHOLE, Err((WitnessCount, 76))),
    (TWO, &[(72, 4), (76, 3)], WHOLE, Err((WitnessCount, 76))),
    (TWO, &[(75, 0), (76, 3)], WHOLE, Err((WitnessCount, 76))),
    (TWO, &[(72, 4)], WHOLE, Err((WitnessLength, 71))),
    (TWO, &[(72, 31)], WHOLE, Err((WitnessLength, 71))),
    (TWO, &[(72, 33)], WHOLE, Err((WitnessLength, 71))),
    (TWO, &[(76, 0)], WHOLE, Err((WitnessLength, 71))),
    (TWO, &[(76, 2)], WHOLE, Err((WitnessLength, 71))),
    (TWO, &[(72, 31), (75, 0)], WHOLE, Err((WitnessLength, 71))),
    (TWO, &[(76, 0), (77, 1)], WHOLE, Err((WitnessLength, 71))),
    // An inner transition: its numbers.
    (TWO, &[(75, 0)], WHOLE, Err((WitnessNumber, 74))),
    (TWO, &[(75, 0), (77, 1)], WHOLE, Err((WitnessNumber, 74))),
    (TWO, &[(77, 1)], WHOLE, Err((WitnessWritten, 77))),
    (TWO, &[(77, 128), (81, 1)], WHOLE, Err((WitnessWritten, 77))),
    (TWO, &[(85, 1)], WHOLE, Err((WitnessWritten, 85))),
    (TWO, &[(89, 1), (93, 1)], WHOLE, Err((WitnessWritten, 89))),
    (TWO, &[(93, 1)], WHOLE, Err((WitnessWritten, 93))),
    (TWO, &[(93, 1), (97, 128)], WHOLE, Err((WitnessWritten, 93))),
    (
        TWO,
        &[(101, 1), (105, 255)],
        WHOLE,
        Err((WitnessWritten, 101)),
    ),
    // The second inner transition.
    (TWO, NONE, Some(105), Err((WitnessReference, 20))),
    (TWO, NONE, Some(106), Err((WitnessLength, 105))),
    (TWO, NONE, Some(138), Err((WitnessLength, 105))),
    (TWO, &[(106, 33)], WHOLE, Err((WitnessLength, 105))),
    (TWO, &[(107, 0)], WHOLE, Err((WitnessCount, 107))),
    (TWO, &[(110, 3)], WHOLE, Err((WitnessCount, 110))),
    (TWO, &[(109, 11)], WHOLE, Err((WitnessNumber, 108))),
    (TWO, &[(109, 10)], WHOLE, Err((WitnessNumber, 108))),
    (TWO, &[(109, 0)], WHOLE, Err((WitnessNumber, 108))),
    (TWO, &[(75, 12)], WHOLE, Err((WitnessNumber, 108))),
    (TWO, &[(74, 1)], WHOLE, Err((WitnessNumber, 108))),
    (
        TWO,
        &[(109, 11), (111, 1)],
        WHOLE,
        Err((WitnessNumber, 108)),
    ),
    (
        TWO,
        &[(123, 1), (127, 1)],
        WHOLE,
        Err((WitnessWritten, 123)),
    ),
    (TWO, &[(135, 1)], WHOLE, Err((WitnessWritten, 135))),
    // Bytes behind the last piece.
    (TWO, NONE, WHOLE, Ok((2, 2))),
    (TWO, NONE, Some(140), Err((WitnessLength, 139))),
    (TWO, NONE, Some(141), Err((WitnessLength, 139))),
    (TWO, &[(135, 1)], Some(140), Err((WitnessWritten, 135))),
];

// The order of the pieces, a piece too many, and what the pieces name.
static AMONG_PIECES: [Vector; 66] = [
    // A place behind an inner transition.
    (LATE, NONE, Some(139), Ok((2, 2))),
    (LATE, NONE, Some(173), Err((WitnessLength, 139))),
    (LATE, NONE, WHOLE, Err((WitnessNumber, 141))),
    (LATE, &[(143, 0)], WHOLE, Err((WitnessNumber, 141))),
    (LATE, &[(145, 1)], WHOLE, Err((WitnessNumber, 141))),
    (LATE, &[(21, 0)], WHOLE, Err((WitnessNumber, 141))),
    (LATE, &[(141, 3)], WHOLE, Err((WitnessCount, 141))),
    (LATE, &[(144, 7)], WHOLE, Err((WitnessCount, 144))),
    (LATE, &[(157, 0)], WHOLE, Err((WitnessCount, 157))),
    (LATE, &[(140, 32)], WHOLE, Err((WitnessLength, 139))),
    (LATE, &[(109, 11)], WHOLE, Err((WitnessNumber, 108))),
    (LATE, &[(135, 1)], WHOLE, Err((WitnessWritten, 135))),
    // The 13th place.
    (PLACES, NONE, WHOLE, Err((WitnessCount, 423))),
    (PLACES, &[(422, 0)], WHOLE, Err((WitnessLength, 421))),
    (PLACES, &[(422, 1)], WHOLE, Err((WitnessCount, 423))),
    (PLACES, &[(422, 3)], WHOLE, Err((WitnessCount, 423))),
    (PLACES, &[(425, 0)], WHOLE, Err((WitnessCount, 423))),
    (PLACES, &[(426, 7)], WHOLE, Err((WitnessCount, 423))),
    (PLACES, &[(423, 3)], WHOLE, Err((WitnessCount, 423))),
    (PLACES, &[(415, 1)], WHOLE, Err((WitnessWritten, 415))),
    (PLACES, NONE, Some(422), Err((WitnessLength, 421))),
    (LAST, NONE, WHOLE, Err((WitnessCount, 491))),
    (LAST, &[(490, 32)], WHOLE, Err((WitnessCount, 491))),
    (LAST, NONE, Some(489), Err((WitnessReference, 90))),
    // The 25th inner transition.
    (INNERS, NONE, WHOLE, Err((WitnessCount, 1239))),
    (INNERS, &[(1238, 0)], WHOLE, Err((WitnessLength, 1237))),
    (INNERS, &[(1238, 1)], WHOLE, Err((WitnessCount, 1239))),
    (INNERS, &[(1238, 3)], WHOLE, Err((WitnessCount, 1239))),
    (INNERS, &[(1241, 0)], WHOLE, Err((WitnessCount, 1239))),
    (INNERS, &[(1242, 3)], WHOLE, Err((WitnessCount, 1239))),
    (INNERS, &[(1243, 1)], WHOLE, Err((WitnessCount, 1239))),
    (INNERS, &[(1233, 1)], WHOLE, Err((WitnessWritten, 1233))),
    (INNERS, NONE, Some(1237), Ok((12, 24))),
    (INNERS, NONE, Some(1238), Err((WitnessLength, 1237))),
    // What a plan entry names: none, one that is unknown, not inner, or starts elsewhere.
    (TWO, &[(21, 0)], WHOLE, Err((WitnessReference, 20))),
    (TWO, &[(21, 25)], WHOLE, Err((WitnessReference, 20))),
    (TWO, &[(20, 1)], WHOLE, Err((WitnessReference, 20))),
    (TWO, &[(21, 24)], WHOLE, Err((WitnessReference, 20))),
    (TWO, &[(21, 11)], WHOLE, Err((WitnessReference, 20))),
    (TWO, &[(35, 0)], WHOLE, Err((WitnessReference, 34))),
    (TWO, &[(35, 25)], WHOLE, Err((WitnessReference, 34))),
    (TWO, &[(35, 24)], WHOLE, Err((WitnessReference, 34))),
    (TWO, &[(35, 11)], WHOLE, Err((WitnessReference, 34))),
    (TWO, &[(56, 0)], WHOLE, Err((WitnessReference, 55))),
    (TWO, &[(56, 23)], WHOLE, Err((WitnessReference, 55))),
    (TWO, &[(56, 12)], WHOLE, Err((WitnessReference, 55))),
    (TWO, &[(70, 0)], WHOLE, Err((WitnessReference, 69))),
    (TWO, &[(70, 12)], WHOLE, Err((WitnessReference, 69))),
    (TWO, &[(21, 0), (35, 0)], WHOLE, Err((WitnessReference, 20))),
    (TWO, &[(35, 0), (56, 0)], WHOLE, Err((WitnessReference, 34))),
    (TWO, &[(56, 0), (70, 0)], WHOLE, Err((WitnessReference, 55))),
    (TWO, &[(75, 10)], WHOLE, Err((WitnessReference, 55))),
    (TWO, &[(109, 13)], WHOLE, Err((WitnessReference, 20))),
    (TWO, &[(21, 0), (22, 1)], WHOLE, Err((WitnessWritten, 22))),
    (TWO, &[(21, 0), (135, 1)], WHOLE, Err((WitnessWritten, 135))),
    (TWO, &[(21, 0), (109, 0)], WHOLE, Err((WitnessNumber, 108))),
    (TWO, &[(21, 0)], Some(140), Err((WitnessLength, 139))),
    // What an inner transition names: one with unlisted ends, with an unlisted start or target, or unknown.
    (MORE, NONE, WHOLE, Err((WitnessReference, 142))),
    (MORE, &[(143, 16)], WHOLE, Err((WitnessReference, 142))),
    (MORE, &[(143, 23)], WHOLE, Err((WitnessReference, 142))),
    (MORE, &[(143, 25)], WHOLE, Err((WitnessReference, 142))),
    (MORE, &[(142, 1)], WHOLE, Err((WitnessReference, 142))),
    (MORE, &[(143, 99)], WHOLE, Err((WitnessReference, 142))),
    (MORE, &[(70, 0)], WHOLE, Err((WitnessReference, 69))),
    (MORE, &[(169, 1)], WHOLE, Err((WitnessWritten, 169))),
    (MORE, NONE, Some(139), Ok((2, 2))),
];

// How the witness is built, with counts at their limits and past them, and what the readers tell.
static LIMITS: [(Witness, Expected<(usize, usize)>); 27] = [
    ((SMALL, (0, 1, 1, 0), (0, 1, 0)), Ok((0, 0))),
    (
        (SMALL, (2, 11, 11, 0), (1, 2, 1)),
        Err((WitnessReference, 20)),
    ),
    (
        (SMALL, (0, 11, 13, 0), (1, 2, 1)),
        Err((WitnessReference, 4)),
    ),
    (
        (SMALL, (1, 11, 13, 0), (1, 2, 1)),
        Err((WitnessReference, 39)),
    ),
    (
        (SMALL, (2, 1, 25, 0), (1, 2, 1)),
        Err((WitnessReference, 74)),
    ),
    ((SMALL, (12, 1, 13, 0), (1, 2, 1)), Ok((12, 12))),
    (
        (SMALL, (12, 2, 13, 0), (1, 2, 1)),
        Err((WitnessReference, 405)),
    ),
    ((TINY, (12, 1, 25, 0), (0, 1, 0)), Ok((12, 24))),
    ((TINY, (13, 1, 1, 0), (0, 1, 0)), Err((WitnessCount, 111))),
    ((TINY, (12, 1, 26, 0), (0, 1, 0)), Err((WitnessCount, 255))),
    ((LARGE, (12, 1, 25, 0), (6, 4, 2)), Ok((12, 24))),
    (
        (LARGE, (13, 1, 25, 0), (6, 4, 2)),
        Err((WitnessCount, 3207)),
    ),
    (
        (LARGE, (12, 1, 26, 0), (6, 4, 2)),
        Err((WitnessCount, 6423)),
    ),
    ((LARGE, (12, 1, 25, 0), (7, 4, 2)), Err((WitnessCount, 6))),
    ((LARGE, (12, 1, 25, 0), (0, 1, 0)), Ok((12, 24))),
    ((LARGE, (12, 1, 25, 0), (6, 0, 2)), Err((WitnessCount, 175))),
    ((LARGE, (12, 1, 25, 0), (6, 5, 2)), Err((WitnessCount, 175))),
    ((LARGE, (12, 1, 25, 0), (0, 0, 0)), Err((WitnessCount, 7))),
    ((LARGE, (12, 1, 25, 0), (0, 5, 0)), Err((WitnessCount, 7))),
    (
        (LARGE, (12, 1, 25, 0), (6, 4, 3)),
        Err((WitnessCount, 3210)),
    ),
    ((SMALL, (2, 11, 13, 0), (6, 1, 0)), Ok((2, 2))),
    ((SMALL, (2, 11, 13, 0), (7, 1, 0)), Err((WitnessCount, 6))),
    ((SMALL, (2, 11, 13, 0), (0, 4, 2)), Ok((2, 2))),
    ((SMALL, (2, 11, 13, 0), (0, 5, 2)), Err((WitnessCount, 7))),
    ((SMALL, (2, 11, 13, 0), (0, 1, 2)), Ok((2, 2))),
    ((SMALL, (2, 11, 13, 0), (0, 1, 3)), Err((WitnessCount, 24))),
    ((SMALL, (2, 11, 13, 0), (2, 3, 3)), Err((WitnessCount, 128))),
];

#[test]
fn limits_of_witnesses(rt: HostRuntime) -> Result<(), Fail> {
    for (i, &(built, expected)) in LIMITS.iter().enumerate() {
        expect_built_witness(
            &rt,
            &i,
            rt.alloc(),
            built,
            UNCHANGED,
            WITNESS_MEMORY,
            expected,
        )?;
    }
    Ok(())
}

// Each of a part's vectors; a failure says the part and the vector.
fn expect_vectors(
    rt: &impl Abort,
    heap: Global,
    part: &str,
    vectors: &[Vector],
) -> Result<(), Fail> {
    for (i, &((pieces, entries), bytes, length, expected)) in vectors.iter().enumerate() {
        let built = (SMALL, pieces, (1, entries, 1));
        let changes = Changes { bytes, length };
        expect_built_witness(
            rt,
            &(part, i),
            heap,
            built,
            changes,
            WITNESS_MEMORY,
            expected,
        )?;
    }
    Ok(())
}

#[test]
fn faults_of_witnesses(rt: HostRuntime) -> Result<(), Fail> {
    expect_vectors(&rt, rt.alloc(), "places", &IN_PLACES)?;
    expect_vectors(&rt, rt.alloc(), "inner transitions", &IN_INNERS)?;
    expect_vectors(&rt, rt.alloc(), "pieces", &AMONG_PIECES)
}
