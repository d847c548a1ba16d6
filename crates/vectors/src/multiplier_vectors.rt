// The multiplier method: the range of its numbers, the length of its certificate, the order of its tests.
use crate::helpers::*;
use methods::Multipliers;
use rows::limits::ROW_LIMIT;
use rows::{Answer, FaultKind, Numbers};
use std::array::from_fn;
use std::test::Fail;

// The goal's multiplier, that of the one fact, and the answer: a ≤ 1 from a ≤ 1.
fn weights() -> [(u16, u16, Answer); 10] {
    [
        (0, 0, fault(FaultKind::MultiplierRange, 0, 0, 0)),
        (1, 1, Ok(())),
        (10_000, 10_000, Ok(())),
        (10_001, 10_001, fault(FaultKind::MultiplierRange, 0, 0, 0)),
        (65_535, 65_535, fault(FaultKind::MultiplierRange, 0, 0, 0)),
        (1, 0, fault(FaultKind::ColumnDiffers, 0, 0, 0)),
        (1, 10_000, fault(FaultKind::ColumnDiffers, 0, 0, 0)),
        (1, 10_001, fault(FaultKind::MultiplierRange, 2, 0, 0)),
        (1, 65_535, fault(FaultKind::MultiplierRange, 2, 0, 0)),
        (0, 10_001, fault(FaultKind::MultiplierRange, 0, 0, 0)),
    ]
}

#[test]
fn multipliers_in_range(rt: HostRuntime) -> Result<(), Fail> {
    for (goal_weight, weight, answer) in weights() {
        let mut sheet = [first(1, 1); 32];
        expect(
            &rt,
            &Multipliers,
            &mut sheet,
            claim(1, &first(1, 1), &two_words(goal_weight, weight)),
            answer,
        )?;
    }
    Ok(())
}

// One byte short, whole, one byte long.
#[test]
fn lengths(rt: HostRuntime) -> Result<(), Fail> {
    let mut sheet = [first(1, 1); 32];
    let bytes = [0, 1, 0, 1, 0];
    let goal = first(1, 1);
    let short = fault(FaultKind::CertificateLength, 0, 0, 0);
    for (end, answer) in [(3, short), (4, Ok(())), (5, short), (0, short)] {
        assert!(rt; end <= 5);
        expect(
            &rt,
            &Multipliers,
            &mut sheet,
            claim(1, &goal, &bytes[0..end]),
            answer,
        )?;
    }
    Ok(())
}

// Of two faults the one that is tested first is told.
#[test]
fn earlier_fault_wins(rt: HostRuntime) -> Result<(), Fail> {
    expect_opening_faults(&rt, &Multipliers, &[])?;
    let goal = first(1, 1);
    let over = ROW_LIMIT + 1;
    let mut sheet = [only(3, over); 40];
    let facts = fault(FaultKind::TooManyFacts, 0, 0, 0);
    expect(&rt, &Multipliers, &mut sheet, claim(41, &goal, &[]), facts)?;
    sheet[0] = only(5, over);
    let fact = fault(FaultKind::RowNumberTooLarge, 0, 0, 5);
    expect(&rt, &Multipliers, &mut sheet, claim(2, &goal, &[]), fact)
}

// The count of facts a ≤ 1, the goal, the certificate and the answer.
fn among_numbers() -> [(usize, Numbers, &'static [u8], Answer); 6] {
    let two_columns = Numbers {
        coefficients: [0, 0, 1, 0, 0, 1, 0, 0],
        bound: 0,
    };
    let length = fault(FaultKind::CertificateLength, 0, 0, 0);
    let second = fault(FaultKind::MultiplierRange, 2, 0, 0);
    let third = fault(FaultKind::MultiplierRange, 4, 0, 0);
    let column = fault(FaultKind::ColumnDiffers, 0, 0, 0);
    let bound = fault(FaultKind::BoundNotShown, 0, 0, 8);
    let other = fault(FaultKind::ColumnDiffers, 0, 0, 2);
    [
        (1, first(1, 1), &[0, 0], length),
        (2, first(1, 1), &[0, 1, 255, 255, 255, 255], second),
        (2, first(9, 0), &[0, 1, 0, 1, 255, 255], third),
        (1, first(2, 0), &[0, 1, 0, 1], column),
        (1, first(1, 0), &[0, 1, 0, 1], bound),
        (0, two_columns, &[0, 1], other),
    ]
}

#[test]
fn earlier_fault_wins_among_numbers(rt: HostRuntime) -> Result<(), Fail> {
    for (count, goal, bytes, answer) in among_numbers() {
        let mut sheet = [first(1, 1); 40];
        expect(
            &rt,
            &Multipliers,
            &mut sheet,
            claim(count, &goal, bytes),
            answer,
        )?;
    }
    Ok(())
}

// The fact and the answer to a goal with the row limit as its bound.
fn facts_at_the_limit() -> [(Numbers, Answer); 4] {
    let bound = fault(FaultKind::BoundNotShown, 0, 0, 8);
    let column = fault(FaultKind::ColumnDiffers, 0, 0, 7);
    [
        (only(8, ROW_LIMIT), bound),
        (only(8, -ROW_LIMIT), Ok(())),
        (only(7, ROW_LIMIT), column),
        (only(7, -ROW_LIMIT), column),
    ]
}

// 32 facts at the row limit, each taken 10,000 times: the greatest sum, 6.4 × 10¹⁸ in magnitude, of the bounds and of a
// column.
#[test]
fn greatest_sums(rt: HostRuntime) -> Result<(), Fail> {
    let weight = 10_000u16.to_be_bytes();
    let bytes: [u8; 66] = from_fn(|k| weight[k % 2]);
    let goal = only(8, ROW_LIMIT);
    for (fact, answer) in facts_at_the_limit() {
        let mut sheet = [fact; 32];
        expect(
            &rt,
            &Multipliers,
            &mut sheet,
            claim(32, &goal, &bytes),
            answer,
        )?;
    }
    Ok(())
}
