// The records that are read hold what was built.
use crate::building::*;
use crate::reading::*;
use records::{Heading, Inner, Place, Register, Transition};
use rows::{Expression, Fault, Numbers, WrittenRow};
use sequences::{TableView, read_table, read_witness};
use std::process::Abort;
use std::test::Fail;

// A row or an expression holds the numbers that stand from an offset: those of the values, of the choices, the bound.
fn expect_numbers(
    rt: &impl Abort,
    found: Option<Numbers>,
    shape: (u8, u8),
    at: usize,
) -> Result<(), Fail> {
    let found = found.ok_or("no numbers")?;
    let values = usize::from(shape.0);
    let choices = usize::from(shape.1);
    for (column, &coefficient) in found.coefficients.iter().enumerate() {
        let number = if column < values {
            i64::from(stored(at.saturating_add(4 * column)))
        } else if column >= 6 && column - 6 < choices {
            i64::from(stored(at.saturating_add(4 * (values + (column - 6)))))
        } else {
            0
        };
        assert_eq!(rt; coefficient, number);
    }
    let bound = stored(at.saturating_add(4 * (values + choices)));
    assert_eq!(rt; found.bound, i64::from(bound));
    Ok(())
}

// The numbers of the last row.
fn last_row(rows: &[WrittenRow]) -> Option<Numbers> {
    rows.last().map(|row| *row.numbers())
}

// The numbers of the last expression; its constant stands where a row has its bound.
fn last_expression(expressions: &[Expression]) -> Option<Numbers> {
    expressions.last().map(|expression| Numbers {
        coefficients: *expression.coefficients(),
        bound: expression.constant(),
    })
}

// Reads a table, and hands out its heading and its last transition.
fn last_of_table(bytes: &[u8]) -> Result<(Heading, Option<Transition>), Fault> {
    let mut records = [unread_transition(); 24];
    let mut register = Register::new(&mut records);
    let heading = read_table(bytes, &mut register, 12, 24)?;
    Ok((heading, register.as_slice().last().copied()))
}

// A table with 24 transitions: its values and choices, its initial rows and guard rows, and where the last initial row,
// the last guard row and the last update stand.
static TABLES: [((u8, u8), (u8, u8), (usize, usize, usize)); 4] = [
    (TINY, (1, 1), (8, 600, 608)),
    (SMALL, (1, 1), (8, 1_248, 1_276)),
    ((3, 2), (2, 3), (24, 3_048, 3_112)),
    (LARGE, (6, 4), (148, 8_020, 8_228)),
];

// The heading holds so many initial rows, and the last of them stands at an offset.
fn expect_heading(
    rt: &impl Abort,
    found: &Heading,
    shape: (u8, u8),
    initial: u8,
    at: usize,
) -> Result<(), Fail> {
    assert_eq!(rt; (found.values, found.choices), shape);
    assert_eq!(rt;
        (found.start, found.initial.len()),
        (1, usize::from(initial))
    );
    let last = last_row(found.initial.as_slice());
    expect_numbers(rt, last, (shape.0, 0), at)
}

// The 24th transition of a table holds so many guard rows, and the last guard row and update stand at two offsets.
fn expect_transition(
    rt: &impl Abort,
    found: Transition,
    shape: (u8, u8),
    guards: u8,
    at: (usize, usize),
) -> Result<(), Fail> {
    assert_eq!(rt; (found.number, found.start, found.target), (24, 1, 4));
    let counts = (usize::from(guards), usize::from(shape.0));
    assert_eq!(rt; (found.guard.len(), found.updates.len()), counts);
    let guard = last_row(found.guard.as_slice());
    expect_numbers(rt, guard, (shape.0, 0), at.0)?;
    let update = last_expression(found.updates.as_slice());
    expect_numbers(rt, update, shape, at.1)
}

#[test]
fn records_of_tables(rt: HostRuntime) -> Result<(), Fail> {
    for &(shape, (initial, guards), (row, guard, update)) in TABLES.iter() {
        let bytes = table(rt.alloc(), (shape, 24, (initial, guards)))?;
        let (heading, last) = last_of_table(&bytes)?;
        expect_heading(&rt, &heading, shape, initial, row)?;
        let transition = last.ok_or("no transition")?;
        expect_transition(&rt, transition, shape, guards, (guard, update))?;
    }
    Ok(())
}

// Reads a witness against a table, and hands out its last records.
fn last_of_witness(
    bytes: &[u8],
    view: TableView<'_>,
) -> Result<(Option<Place>, Option<Inner>), Fault> {
    let mut place_records = [unread_place(); 12];
    let mut inner_records = [unread_inner(); 24];
    let mut places = Register::new(&mut place_records);
    let mut inners = Register::new(&mut inner_records);
    read_witness(bytes, view, &mut places, &mut inners)?;
    Ok((places.get(11), inners.get(23)))
}

// A witness with 12 places and 24 inner transitions: its values and choices, its condition rows, plan entries and
// restriction rows, and where the last condition row, test row, restriction row and choice expression stand.
static WITNESSES: [((u8, u8), (u8, u8, u8), (usize, usize), (usize, usize)); 4] = [
    ((1, 1), (1, 2, 1), (304, 315), (929, 941)),
    (SMALL, (1, 2, 1), (392, 407), (1_209, 1_225)),
    ((3, 2), (4, 3, 1), (1_254, 1_291), (2_741, 2_781)),
    (LARGE, (6, 4, 2), (3_084, 3_175), (6_329, 6_393)),
];

// The twelfth place holds so many condition rows and plan entries, and the last condition row and test row stand at two
// offsets.
fn expect_place(
    rt: &impl Abort,
    found: Place,
    values: u8,
    rows: (u8, u8),
    at: (usize, usize),
) -> Result<(), Fail> {
    assert_eq!(rt; (found.number, found.last), (12, 1));
    let counts = (usize::from(rows.0), usize::from(rows.1.saturating_sub(1)));
    assert_eq!(rt; (found.condition.len(), found.tested.len()), counts);
    let condition = last_row(found.condition.as_slice());
    expect_numbers(rt, condition, (values, 0), at.0)?;
    let entry = found.tested.as_slice().last().ok_or("no entry")?;
    assert_eq!(rt; entry.transition, 1);
    expect_numbers(rt, Some(*entry.test.numbers()), (values, 0), at.1)
}

// The 24th inner transition holds so many restriction rows, and the last restriction row and choice expression stand at
// two offsets.
fn expect_inner(
    rt: &impl Abort,
    found: Inner,
    shape: (u8, u8),
    restrictions: u8,
    at: (usize, usize),
) -> Result<(), Fail> {
    let counts = (usize::from(restrictions), usize::from(shape.1));
    assert_eq!(rt; found.number, 24);
    assert_eq!(rt; (found.restrictions.len(), found.choices.len()), counts);
    let restriction = last_row(found.restrictions.as_slice());
    expect_numbers(rt, restriction, shape, at.0)?;
    let choice = last_expression(found.choices.as_slice());
    expect_numbers(rt, choice, (shape.0, 0), at.1)
}

#[test]
fn records_of_witnesses(rt: HostRuntime) -> Result<(), Fail> {
    for &(shape, rows, in_place, in_inner) in WITNESSES.iter() {
        let against = table(rt.alloc(), (shape, 24, (0, 0)))?;
        let bytes = witness(rt.alloc(), (shape, (12, 1, 25, 0), rows))?;
        let (place, inner) = with_table(&against, |view| last_of_witness(&bytes, view))??;
        let place = place.ok_or("no place")?;
        let inner = inner.ok_or("no inner transition")?;
        expect_place(&rt, place, shape.0, (rows.0, rows.1), in_place)?;
        expect_inner(&rt, inner, shape, rows.2, in_inner)?;
    }
    Ok(())
}
