// Tables and witnesses cut short behind each of their bytes.
use crate::building::*;
use crate::reading::*;
use rows::FaultKind;
use std::process::Abort;
use std::test::Fail;

// The sample table and its witness, byte by byte.
static SAMPLE_TABLE: [u8; 98] = [
    1, 0, 5, 2, 0, 0, 1, 0, 0, 43, 0, 1, 0, 1, 0, 1, 1, 255, 255, 255, 255, 0, 0, 0, 0, 255, 255,
    255, 255, 0, 0, 0, 1, 0, 0, 0, 1, 0, 0, 0, 0, 0, 0, 0, 0, 0, 0, 0, 1, 0, 0, 0, 0, 0, 43, 0, 2,
    0, 1, 0, 2, 1, 0, 0, 0, 1, 0, 0, 0, 0, 0, 0, 0, 0, 0, 0, 0, 1, 0, 0, 0, 0, 0, 0, 0, 0, 0, 0, 0,
    0, 0, 0, 0, 1, 0, 0, 0, 0,
];

static SAMPLE_WITNESS: [u8; 40] = [
    1, 0, 31, 1, 0, 1, 2, 255, 255, 255, 255, 0, 0, 0, 0, 255, 255, 255, 255, 0, 0, 0, 0, 255, 255,
    255, 255, 0, 0, 0, 0, 1, 0, 1, 0, 4, 2, 0, 1, 0,
];

// How many whole pieces lie between two offsets, all of one size, and how many bytes are left behind them.
fn pieces(from: usize, to: usize, size: usize) -> (usize, usize) {
    let bytes = to.saturating_sub(from);
    let whole = bytes.checked_div(size).unwrap_or(0);
    (whole, bytes.checked_rem(size).unwrap_or(0))
}

// Every cut of a table whose transition pieces begin at an offset and have one size: the heading must be whole, and
// behind it a cut at a piece boundary leaves fewer transitions.
fn cut_table(rt: &impl Abort, bytes: &[u8], from: usize, size: usize) -> Result<(), Fail> {
    for length in 0..=bytes.len() {
        let (whole, left) = pieces(from, length, size);
        let expected = if length == 0 {
            Err((FaultKind::TableVersion, 0))
        } else if length < from {
            Err((FaultKind::TableLength, 1))
        } else if left != 0 {
            Err((FaultKind::TableLength, length.saturating_sub(left)))
        } else {
            Ok(whole)
        };
        expect_table(rt, &length, &bytes[0..length], TABLE_MEMORY, expected)?;
    }
    Ok(())
}

#[test]
fn cut_tables(rt: HostRuntime) -> Result<(), Fail> {
    cut_table(&rt, &SAMPLE_TABLE, 8, 45)?;
    let bytes = table(rt.alloc(), (LARGE, 24, (6, 4)))?;
    assert_eq!(rt; bytes.len(), 8_264);
    cut_table(&rt, &bytes, 176, 337)
}

// How a witness is laid out: so many place pieces of one size, then from an offset on inner-transition pieces of another,
// as many of which are needed as there are places: until then the first plan entry, at its offset, is not inner.
#[derive(Clone, Copy)]
struct Layout {
    places: usize,
    place_size: usize,
    inners_from: usize,
    inner_size: usize,
    entry: usize,
}

// What a witness cut to a length tells.
fn cut_to(length: usize, layout: Layout) -> Expected<(usize, usize)> {
    let in_places = length < layout.inners_from;
    let (whole, left) = if in_places {
        pieces(1, length, layout.place_size)
    } else {
        pieces(layout.inners_from, length, layout.inner_size)
    };
    if length == 0 {
        Err((FaultKind::WitnessVersion, 0))
    } else if left != 0 {
        Err((FaultKind::WitnessLength, length.saturating_sub(left)))
    } else if length == 1 {
        Ok((0, 0))
    } else if in_places || whole < layout.places {
        Err((FaultKind::WitnessReference, layout.entry))
    } else {
        Ok((layout.places, whole))
    }
}

// Every cut of a witness.
fn cut_witness(rt: &impl Abort, against: &[u8], bytes: &[u8], layout: Layout) -> Result<(), Fail> {
    for length in 0..=bytes.len() {
        expect_witness(
            rt,
            &length,
            against,
            &bytes[0..length],
            WITNESS_MEMORY,
            cut_to(length, layout),
        )?;
    }
    Ok(())
}

#[test]
fn cut_witnesses(rt: HostRuntime) -> Result<(), Fail> {
    let sample = Layout {
        places: 1,
        place_size: 33,
        inners_from: 34,
        inner_size: 6,
        entry: 32,
    };
    cut_witness(&rt, &SAMPLE_TABLE, &SAMPLE_WITNESS, sample)?;
    let against = table(rt.alloc(), (LARGE, 24, (6, 4)))?;
    let bytes = witness(rt.alloc(), (LARGE, (12, 1, 25, 0), (6, 4, 2)))?;
    assert_eq!(rt; bytes.len(), 6_421);
    let largest = Layout {
        places: 12,
        place_size: 267,
        inners_from: 3_205,
        inner_size: 134,
        entry: 176,
    };
    cut_witness(&rt, &against, &bytes, largest)
}
