// The split over the look-up: its row's limit, its lengths, its two parts, the order of its tests.
use crate::helpers::*;
use methods::{LookUp, Multipliers, Split};
use rows::limits::{ITEMS, ROW_LIMIT};
use rows::{Answer, FaultKind, Numbers};
use std::test::Fail;

fn split() -> Split<LookUp> {
    Split { below: LookUp }
}

// Every number at the limit of written numbers.
#[test]
fn row_at_its_limit(rt: HostRuntime) -> Result<(), Fail> {
    for item in 0..ITEMS {
        for number in [1_000_000, -1_000_000] {
            let mut sheet = [first(1, 1); 2];
            expect(
                &rt,
                &split(),
                &mut sheet,
                claim(1, &first(1, 1), &split_by(item, number)),
                Ok(()),
            )?;
        }
    }
    Ok(())
}

// Every number one past it, and far past it.
#[test]
fn row_beyond_its_limit(rt: HostRuntime) -> Result<(), Fail> {
    for item in 0..ITEMS {
        for number in [1_000_001, -1_000_001, i32::MAX, i32::MIN] {
            let mut sheet = [first(1, 1); 2];
            expect(
                &rt,
                &split(),
                &mut sheet,
                claim(1, &first(1, 1), &split_by(item, number)),
                fault(FaultKind::LayerRowTooLarge, 1 + 4 * item, 0, item as u8),
            )?;
        }
    }
    Ok(())
}

// The length of the first certificate as it is written, the number of bytes and the answer: one byte short, whole, one
// byte long; then a first certificate that does not fit and one that does.
fn lengths_told() -> [(u16, usize, Answer); 6] {
    let short = fault(FaultKind::CertificateLength, 0, 0, 0);
    let below = fault(FaultKind::CertificateLength, 39, 1, 0);
    [
        (0, 38, short),
        (0, 39, Ok(())),
        (0, 40, below),
        (1, 39, short),
        (1, 40, below),
        (65_281, 41, short),
    ]
}

#[test]
fn lengths(rt: HostRuntime) -> Result<(), Fail> {
    let mut sheet = [first(1, 1); 2];
    let goal = first(1, 1);
    for (length, end, answer) in lengths_told() {
        let mut bytes = [0; 41];
        bytes[0] = 1;
        bytes[37..39].copy_from_slice(&length.to_be_bytes());
        assert!(rt; end <= 41);
        expect(
            &rt,
            &split(),
            &mut sheet,
            claim(1, &goal, &bytes[0..end]),
            answer,
        )?;
    }
    expect(&rt, &split(), &mut sheet, claim(1, &goal, &[0]), Ok(()))?;
    expect(
        &rt,
        &split(),
        &mut sheet,
        claim(1, &goal, &[0, 0]),
        fault(FaultKind::CertificateLength, 1, 1, 0),
    )
}

#[test]
fn first_byte(rt: HostRuntime) -> Result<(), Fail> {
    expect_first_bytes(&rt, &split())
}

// The coefficient of the split's row, the goal and the answer: where only one case shows the goal, there is no yes. The
// opposite of 0 ≤ 0 is 0 ≤ -1, which shows 0 ≤ 0 too.
fn cases() -> [(i32, Numbers, Answer); 3] {
    let unshown = fault(FaultKind::BoundNotShown, 39, 1, 8);
    [
        (5, first(5, 0), unshown),
        (5, first(-5, -1), unshown),
        (0, first(0, 0), Ok(())),
    ]
}

// The row stands among the facts of the first case, its opposite among those of the second.
#[test]
fn one_case_is_not_enough(rt: HostRuntime) -> Result<(), Fail> {
    for (number, goal, answer) in cases() {
        let mut sheet = [first(1, 1); 2];
        expect(
            &rt,
            &split(),
            &mut sheet,
            claim(1, &goal, &split_by(0, number)),
            answer,
        )?;
    }
    Ok(())
}

// Bytes 43, 48 and 49 and the answer: each multiplier has two bytes, the first case's from 39 and the second's from 45.
fn multipliers_told() -> [(u8, u8, u8, Answer); 4] {
    [
        (0, 1, 0, Ok(())),
        (0, 2, 0, fault(FaultKind::ColumnDiffers, 45, 1, 0)),
        (0, 2, 255, fault(FaultKind::MultiplierRange, 49, 1, 0)),
        (255, 2, 255, fault(FaultKind::MultiplierRange, 43, 1, 0)),
    ]
}

// a ≤ 1 by the cases a ≤ 0 and -a ≤ -1, each with multipliers of its own behind the split's own part.
#[test]
fn both_cases(rt: HostRuntime) -> Result<(), Fail> {
    let mut sheet = [first(1, 1); 2];
    let stack = Split { below: Multipliers };
    let mut bytes = [0; 51];
    bytes[0] = 1;
    bytes[4] = 1;
    bytes[38] = 6;
    bytes[40] = 1;
    bytes[44] = 1;
    bytes[46] = 1;
    for (in_first, in_second, behind, answer) in multipliers_told() {
        bytes[43] = in_first;
        bytes[48] = in_second;
        bytes[49] = behind;
        expect(
            &rt,
            &stack,
            &mut sheet,
            claim(1, &first(1, 1), &bytes),
            answer,
        )?;
    }
    Ok(())
}

// Of two faults the one that is tested first is told.
#[test]
fn earlier_fault_wins(rt: HostRuntime) -> Result<(), Fail> {
    let over = ROW_LIMIT + 1;
    let mut sheet = [only(3, over); 40];
    let mut none: [Numbers; 0] = [];
    let goal = first(1, 1);
    expect_opening_faults(&rt, &split(), &[])?;
    expect(
        &rt,
        &split(),
        &mut sheet,
        claim(0, &only(2, over), &[2]),
        fault(FaultKind::RowNumberTooLarge, 0, 0, 2),
    )?;
    expect(
        &rt,
        &split(),
        &mut none,
        claim(0, &goal, &[2]),
        fault(FaultKind::LayerByte, 0, 0, 0),
    )?;
    expect(
        &rt,
        &split(),
        &mut none,
        claim(0, &goal, &[1]),
        fault(FaultKind::NoRoomForFact, 0, 0, 0),
    )
}

#[test]
fn earlier_fault_wins_among_numbers(rt: HostRuntime) -> Result<(), Fail> {
    let mut sheet = [first(1, 1); 4];
    let goal = first(1, 1);
    let large = split_by(2, 1_000_001);
    expect(
        &rt,
        &split(),
        &mut sheet,
        claim(1, &goal, &large[0..38]),
        fault(FaultKind::CertificateLength, 0, 0, 0),
    )?;
    let mut two = split_by(2, 1_000_001);
    two[21] = 1;
    expect(
        &rt,
        &split(),
        &mut sheet,
        claim(1, &goal, &two),
        fault(FaultKind::LayerRowTooLarge, 9, 0, 2),
    )?;
    expect(
        &rt,
        &split(),
        &mut sheet,
        claim(1, &first(1, 0), &large),
        fault(FaultKind::LayerRowTooLarge, 9, 0, 2),
    )?;
    let mut parts = [0; 41];
    parts[0] = 1;
    parts[38] = 1;
    expect(
        &rt,
        &split(),
        &mut sheet,
        claim(1, &goal, &parts),
        fault(FaultKind::CertificateLength, 39, 1, 0),
    )
}
