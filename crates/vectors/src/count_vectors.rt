// The number of facts against the sheet's rows and against the most of a question, and room for one more.
use crate::helpers::*;
use methods::{Cut, LookUp, Split};
use rows::{Answer, FaultKind};
use std::test::Fail;

// The sheet's rows, the count and the answer: every row is a ≤ 1, and so is the goal.
fn counts() -> [(usize, usize, Answer); 11] {
    let many = fault(FaultKind::TooManyFacts, 0, 0, 0);
    [
        (0, 0, fault(FaultKind::BoundNotShown, 0, 0, 8)),
        (0, 1, many),
        (31, 31, Ok(())),
        (31, 32, many),
        (32, 31, Ok(())),
        (32, 32, Ok(())),
        (32, 33, many),
        (33, 31, Ok(())),
        (33, 32, Ok(())),
        (33, 33, many),
        (33, 34, many),
    ]
}

#[test]
fn facts_and_rows(rt: HostRuntime) -> Result<(), Fail> {
    for (rows, count, answer) in counts() {
        let mut sheet = [first(1, 1); 40];
        assert!(rt; rows <= 40);
        expect(
            &rt,
            &LookUp,
            &mut sheet[0..rows],
            claim(count, &first(1, 1), &[]),
            answer,
        )?;
    }
    Ok(())
}

// The sheet's rows, the count and the answer of a layer's own part.
fn rooms() -> [(usize, usize, Answer); 11] {
    let full = fault(FaultKind::NoRoomForFact, 0, 0, 0);
    let many = fault(FaultKind::TooManyFacts, 0, 0, 0);
    [
        (0, 0, full),
        (1, 1, full),
        (2, 1, Ok(())),
        (31, 31, full),
        (32, 31, Ok(())),
        (32, 32, full),
        (33, 31, Ok(())),
        (33, 32, full),
        (33, 33, many),
        (40, 33, many),
        (40, 38, many),
    ]
}

#[test]
fn room_in_a_cut(rt: HostRuntime) -> Result<(), Fail> {
    let mut bytes = [0; 80];
    bytes[0] = 1;
    bytes[2] = 1;
    let stack = Cut { below: LookUp };
    for (rows, count, answer) in rooms() {
        let mut sheet = [first(1, 1); 40];
        assert!(rt; rows <= 40 && count <= 38);
        let end = 3 + 2 * count;
        expect(
            &rt,
            &stack,
            &mut sheet[0..rows],
            claim(count, &first(1, 1), &bytes[0..end]),
            answer,
        )?;
    }
    Ok(())
}

#[test]
fn room_in_a_split(rt: HostRuntime) -> Result<(), Fail> {
    let stack = Split { below: LookUp };
    for (rows, count, answer) in rooms() {
        let mut sheet = [first(1, 1); 40];
        assert!(rt; rows <= 40);
        expect(
            &rt,
            &stack,
            &mut sheet[0..rows],
            claim(count, &first(1, 1), &split_by(0, 7)),
            answer,
        )?;
    }
    Ok(())
}

// Handing down asks for no room.
#[test]
fn no_room_to_hand_down(rt: HostRuntime) -> Result<(), Fail> {
    let mut sheet = [first(1, 1); 32];
    let cut = Cut { below: LookUp };
    expect(&rt, &cut, &mut sheet, claim(32, &first(1, 1), &[0]), Ok(()))?;
    let split = Split { below: LookUp };
    expect(
        &rt,
        &split,
        &mut sheet,
        claim(32, &first(1, 1), &[0]),
        Ok(()),
    )
}
