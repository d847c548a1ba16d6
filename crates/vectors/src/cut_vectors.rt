// The cut over the look-up: divisors, multipliers, lengths, rounding, the divided row's limit, the order of its tests.
use crate::helpers::*;
use methods::{Cut, LookUp};
use rows::limits::{COLUMNS, ITEMS, ROW_LIMIT};
use rows::{Answer, FaultKind, Numbers};
use std::test::Fail;

// A cut's own part with one multiplier.
fn cut_by(divisor: u16, weight: u16) -> [u8; 5] {
    let [a, b, c, d] = two_words(divisor, weight);
    [1, a, b, c, d]
}

fn cut() -> Cut<LookUp> {
    Cut { below: LookUp }
}

// The divisor, the multiplier of the fact 10,000a ≤ 10,000, the goal and the answer.
fn divisors() -> [(u16, u16, Numbers, Answer); 10] {
    let unshown = fault(FaultKind::BoundNotShown, 5, 1, 8);
    [
        (
            0,
            1,
            first(1, 1),
            fault(FaultKind::MultiplierRange, 1, 0, 0),
        ),
        (1, 2, first(20_000, 20_000), Ok(())),
        (10_000, 1, first(1, 1), Ok(())),
        (10_000, 10_000, first(10_000, 10_000), Ok(())),
        (
            10_001,
            1,
            first(1, 1),
            fault(FaultKind::MultiplierRange, 1, 0, 0),
        ),
        (
            65_535,
            1,
            first(1, 1),
            fault(FaultKind::MultiplierRange, 1, 0, 0),
        ),
        (1, 0, first(0, 0), Ok(())),
        (
            1,
            10_001,
            first(1, 1),
            fault(FaultKind::MultiplierRange, 3, 0, 0),
        ),
        (
            1,
            65_535,
            first(1, 1),
            fault(FaultKind::MultiplierRange, 3, 0, 0),
        ),
        (10_000, 1, first(1, 0), unshown),
    ]
}

#[test]
fn divisors_in_range(rt: HostRuntime) -> Result<(), Fail> {
    for (divisor, weight, goal, answer) in divisors() {
        let mut sheet = [first(10_000, 10_000); 32];
        expect(
            &rt,
            &cut(),
            &mut sheet,
            claim(1, &goal, &cut_by(divisor, weight)),
            answer,
        )?;
    }
    Ok(())
}

// The bound of the fact 2a ≤ b, that of the goal a ≤ b, and whether a cut by 2 shows it: rounding is downwards.
fn roundings() -> [(i64, i64, Answer); 8] {
    let unshown = fault(FaultKind::BoundNotShown, 5, 1, 8);
    [
        (3, 1, Ok(())),
        (3, 0, unshown),
        (-3, -2, Ok(())),
        (-3, -3, unshown),
        (-4, -2, Ok(())),
        (-4, -3, unshown),
        (-1, -1, Ok(())),
        (1, 0, Ok(())),
    ]
}

#[test]
fn rounded_down(rt: HostRuntime) -> Result<(), Fail> {
    for (bound, goal, answer) in roundings() {
        let mut sheet = [first(2, bound), first(0, 0)];
        expect(
            &rt,
            &cut(),
            &mut sheet,
            claim(1, &first(1, goal), &cut_by(2, 1)),
            answer,
        )?;
    }
    Ok(())
}

// A certificate and the answer: one byte short, whole, one byte long; then one that hands down, and one byte too long.
fn lengths_told() -> [(&'static [u8], Answer); 5] {
    [
        (&[1, 0, 1, 0], fault(FaultKind::CertificateLength, 0, 0, 0)),
        (&[1, 0, 1, 0, 1], Ok(())),
        (
            &[1, 0, 1, 0, 1, 0],
            fault(FaultKind::CertificateLength, 5, 1, 0),
        ),
        (&[0], Ok(())),
        (&[0, 0], fault(FaultKind::CertificateLength, 1, 1, 0)),
    ]
}

#[test]
fn lengths(rt: HostRuntime) -> Result<(), Fail> {
    let mut sheet = [first(1, 1); 2];
    let goal = first(1, 1);
    for (bytes, answer) in lengths_told() {
        expect(&rt, &cut(), &mut sheet, claim(1, &goal, bytes), answer)?;
    }
    Ok(())
}

#[test]
fn first_byte(rt: HostRuntime) -> Result<(), Fail> {
    expect_first_bytes(&rt, &cut())
}

// The divided row at its limit and one past it, in each item.
#[test]
fn divided_row_at_its_limit(rt: HostRuntime) -> Result<(), Fail> {
    for item in 0..ITEMS {
        for number in [ROW_LIMIT, -ROW_LIMIT] {
            let mut sheet = [only(item, number); 3];
            expect(
                &rt,
                &cut(),
                &mut sheet,
                claim(1, &only(item, number), &cut_by(1, 1)),
                Ok(()),
            )?;
        }
    }
    Ok(())
}

#[test]
fn divided_row_beyond_its_limit(rt: HostRuntime) -> Result<(), Fail> {
    let bytes = [1, 0, 1, 0, 1, 0, 1];
    for item in 0..ITEMS {
        for (number, more) in [(ROW_LIMIT, 1), (-ROW_LIMIT, -1)] {
            let mut sheet = [only(item, number), only(item, more), first(0, 0)];
            expect(
                &rt,
                &cut(),
                &mut sheet,
                claim(2, &first(0, 0), &bytes),
                fault(FaultKind::LayerRowTooLarge, 0, 0, item as u8),
            )?;
        }
    }
    Ok(())
}

// A column that is no multiple, in each column.
#[test]
fn indivisible_column(rt: HostRuntime) -> Result<(), Fail> {
    for item in 0..COLUMNS {
        let mut sheet = [only(item, -3); 2];
        expect(
            &rt,
            &cut(),
            &mut sheet,
            claim(1, &first(0, 0), &cut_by(2, 1)),
            fault(FaultKind::ColumnDiffers, 0, 0, item as u8),
        )?;
    }
    Ok(())
}

// Of two faults the one that is tested first is told.
#[test]
fn earlier_fault_wins(rt: HostRuntime) -> Result<(), Fail> {
    let over = ROW_LIMIT + 1;
    let mut sheet = [only(3, over); 40];
    let mut none: [Numbers; 0] = [];
    let mut free = [first(0, 0)];
    let goal = first(1, 1);
    expect_opening_faults(&rt, &cut(), &[])?;
    expect(
        &rt,
        &cut(),
        &mut sheet,
        claim(0, &only(2, over), &[2]),
        fault(FaultKind::RowNumberTooLarge, 0, 0, 2),
    )?;
    expect(
        &rt,
        &cut(),
        &mut none,
        claim(0, &goal, &[2]),
        fault(FaultKind::LayerByte, 0, 0, 0),
    )?;
    expect(
        &rt,
        &cut(),
        &mut none,
        claim(0, &goal, &[1]),
        fault(FaultKind::NoRoomForFact, 0, 0, 0),
    )?;
    expect(
        &rt,
        &cut(),
        &mut free,
        claim(0, &goal, &[1, 0]),
        fault(FaultKind::CertificateLength, 0, 0, 0),
    )
}

#[test]
fn earlier_fault_wins_among_numbers(rt: HostRuntime) -> Result<(), Fail> {
    let mut sheet = [first(1, 1); 4];
    let goal = first(1, 1);
    let length = fault(FaultKind::CertificateLength, 0, 0, 0);
    expect(
        &rt,
        &cut(),
        &mut sheet,
        claim(1, &goal, &[1, 0, 0, 255]),
        length,
    )?;
    expect(
        &rt,
        &cut(),
        &mut sheet,
        claim(1, &goal, &cut_by(0, 10_001)),
        fault(FaultKind::MultiplierRange, 1, 0, 0),
    )?;
    expect(
        &rt,
        &cut(),
        &mut sheet,
        claim(1, &goal, &cut_by(2, 10_001)),
        fault(FaultKind::MultiplierRange, 3, 0, 0),
    )?;
    let third = [1, 0, 2, 0, 1, 255, 255];
    expect(
        &rt,
        &cut(),
        &mut sheet,
        claim(2, &goal, &third),
        fault(FaultKind::MultiplierRange, 5, 0, 0),
    )?;
    let mut wide = [only(0, ROW_LIMIT), only(4, 1), first(0, 0)];
    let both = [1, 0, 2, 0, 4, 0, 1];
    expect(
        &rt,
        &cut(),
        &mut wide,
        claim(2, &goal, &both),
        fault(FaultKind::ColumnDiffers, 0, 0, 4),
    )?;
    let large = [1, 0, 2, 0, 4, 0, 2, 9];
    expect(
        &rt,
        &cut(),
        &mut wide,
        claim(2, &goal, &large),
        fault(FaultKind::LayerRowTooLarge, 0, 0, 0),
    )
}
