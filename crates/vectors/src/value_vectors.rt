// Numbers in bytes, points, expressions, opposites, and how a fault climbs.
use crate::helpers::*;
use rows::bytes::{byte_at, number_at, word_at};
use rows::limits::{COLUMNS, ITEMS, VALUE_LIMIT, WRITTEN_LIMIT};
use rows::{Expression, FaultKind, Point, WrittenRow, moved};
use std::test::Fail;

// Four bytes, as a number without a sign, and the signed number in them.
fn numbers() -> [(u32, i64); 7] {
    [
        (0, 0),
        (1, 1),
        (0x000f_4240, 1_000_000),
        (0xfff0_bdc0, -1_000_000),
        (0x7fff_ffff, 2_147_483_647),
        (0x8000_0000, -2_147_483_648),
        (0xffff_ffff, -1),
    ]
}

#[test]
fn numbers_in_bytes(rt: HostRuntime) {
    for (bits, number) in numbers() {
        let bytes = bits.to_be_bytes();
        assert_eq!(rt; number_at(&bytes, 0), number);
    }
    assert_eq!(rt; word_at(&[1, 2, 3], 1), 515);
    assert_eq!(rt; word_at(&[1, 2, 3], 2), 768);
    assert_eq!(rt; word_at(&[1, 2, 3], 3), 0);
    assert_eq!(rt; word_at(&[1, 2, 3], usize::MAX), 0);
    assert_eq!(rt; number_at(&[255, 255, 255], 0), -256);
    assert_eq!(rt; byte_at(&[7], 0), 7);
    assert_eq!(rt; byte_at(&[7], 1), 0);
}

// A point's value at the limit and one past it, in each column.
#[test]
fn points(rt: HostRuntime) {
    for column in 0..COLUMNS {
        for value in [VALUE_LIMIT, -VALUE_LIMIT] {
            let values = only(column, value).coefficients;
            assert!(rt; Point::new(values).is_some());
        }
        for value in [VALUE_LIMIT + 1, -VALUE_LIMIT - 1, i64::MAX, i64::MIN] {
            let values = only(column, value).coefficients;
            assert!(rt; Point::new(values).is_none());
        }
    }
}

// An expression's number at the limit and one past it, in each item.
#[test]
fn expressions(rt: HostRuntime) {
    for item in 0..ITEMS {
        for number in [WRITTEN_LIMIT, -WRITTEN_LIMIT] {
            let row = only(item, number);
            let made = Expression::new(row.coefficients, row.bound);
            assert!(rt; made.is_ok());
        }
        for number in [WRITTEN_LIMIT + 1, -WRITTEN_LIMIT - 1] {
            let row = only(item, number);
            let made = Expression::new(row.coefficients, row.bound);
            assert!(rt; made.is_err());
        }
    }
}

// Every number at its limit: the greatest value, 8 × 10¹⁵ + 10⁶ in magnitude.
#[test]
fn greatest_value(rt: HostRuntime) -> Result<(), Fail> {
    let point = Point::new([VALUE_LIMIT; COLUMNS]).ok_or("point")?;
    for (number, value) in [
        (WRITTEN_LIMIT, 8_000_000_001_000_000),
        (-WRITTEN_LIMIT, -8_000_000_001_000_000),
    ] {
        let expression = Expression::new([number; COLUMNS], number)?;
        assert_eq!(rt; expression.value_at(&point), value);
    }
    Ok(())
}

// The value of a, and whether it meets 2a ≤ 3 and not its opposite.
#[test]
fn opposites(rt: HostRuntime) -> Result<(), Fail> {
    let row = WrittenRow::new(first(2, 3))?;
    let turned = *row.opposite().numbers();
    assert_eq!(rt; turned, first(-2, -4));
    let other = WrittenRow::new(turned)?;
    for (value, met) in [(1, true), (2, false), (-5, true), (VALUE_LIMIT, false)] {
        let point = Point::new(only(0, value).coefficients).ok_or("point")?;
        assert_eq!(rt; row.is_met(&point), met);
        assert_eq!(rt; other.is_met(&point), !met);
    }
    Ok(())
}

// The opposite of a row at the limit is one past it.
#[test]
fn opposite_at_the_limit(rt: HostRuntime) -> Result<(), Fail> {
    let row = WrittenRow::new(only(8, WRITTEN_LIMIT))?;
    assert_eq!(rt; *row.opposite().numbers(), only(8, -WRITTEN_LIMIT - 1));
    Ok(())
}

// The depth stops at 255, the place at the largest offset; kind and item stay.
#[test]
fn climbing(rt: HostRuntime) {
    let kind = FaultKind::ColumnDiffers;
    assert_eq!(rt; moved(Ok(()), 5), Ok(()));
    assert_eq!(rt; moved(fault(kind, 2, 0, 7), 5), fault(kind, 7, 1, 7));
    assert_eq!(rt; moved(fault(kind, 2, 254, 7), 5), fault(kind, 7, 255, 7));
    assert_eq!(rt; moved(fault(kind, 2, 255, 7), 5), fault(kind, 7, 255, 7));
    assert_eq!(rt;
        moved(fault(kind, 2, 0, 7), usize::MAX),
        fault(kind, usize::MAX, 1, 7)
    );
}
