// The limits of rows and of written rows, in each item.
use crate::helpers::*;
use rows::limits::{ITEMS, ROW_LIMIT, WRITTEN_LIMIT};
use rows::{Answer, FaultKind, Numbers, Row, TooLarge, WrittenRow};

fn row_made(numbers: Numbers) -> Answer {
    Row::new(numbers).map(|_| ())
}

fn written_made(numbers: Numbers) -> Result<(), TooLarge> {
    WrittenRow::new(numbers).map(|_| ())
}

// A helper over two closures, the making and the answer, would be as long as what the four tests of limits share.
#[test]
fn rows_at_their_limit(rt: HostRuntime) {
    for item in 0..ITEMS {
        for number in [ROW_LIMIT, -ROW_LIMIT, 0] {
            assert_eq!(rt; row_made(only(item, number)), Ok(()));
        }
    }
}

#[test]
fn rows_beyond_their_limit(rt: HostRuntime) {
    for item in 0..ITEMS {
        for number in [ROW_LIMIT + 1, -ROW_LIMIT - 1, i64::MAX, i64::MIN] {
            assert_eq!(rt;
                row_made(only(item, number)),
                fault(FaultKind::RowNumberTooLarge, 0, 0, item as u8)
            );
        }
    }
}

#[test]
fn written_rows_at_their_limit(rt: HostRuntime) {
    for item in 0..ITEMS {
        for number in [WRITTEN_LIMIT, -WRITTEN_LIMIT, 0] {
            assert_eq!(rt; written_made(only(item, number)), Ok(()));
        }
    }
}

#[test]
fn written_rows_beyond_their_limit(rt: HostRuntime) {
    for item in 0..ITEMS {
        for number in [WRITTEN_LIMIT + 1, -WRITTEN_LIMIT - 1, i64::MAX, i64::MIN] {
            assert_eq!(rt;
                written_made(only(item, number)),
                Err(TooLarge { item: item as u8 })
            );
        }
    }
}

// The lowest item counts.
#[test]
fn two_numbers_beyond(rt: HostRuntime) {
    for item in 0..ITEMS {
        let mut numbers = only(item, -ROW_LIMIT - 1);
        numbers.bound = ROW_LIMIT + 1;
        assert_eq!(rt;
            row_made(numbers),
            fault(FaultKind::RowNumberTooLarge, 0, 0, item as u8)
        );
    }
}
