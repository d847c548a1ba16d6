// The look-up: its certificate, the order of its tests, and what a fact must have.
use crate::helpers::*;
use methods::LookUp;
use rows::limits::{ITEMS, ROW_LIMIT};
use rows::{Answer, FaultKind, Numbers};
use std::test::Fail;

// A goal and the answer: the one fact is 2a ≤ 3.
fn goals() -> [(Numbers, Answer); 6] {
    let unshown = fault(FaultKind::BoundNotShown, 0, 0, 8);
    [
        (first(2, 3), Ok(())),
        (first(2, 4), Ok(())),
        (first(2, ROW_LIMIT), Ok(())),
        (first(2, 2), unshown),
        (first(1, 3), unshown),
        (first(0, 3), unshown),
    ]
}

#[test]
fn found(rt: HostRuntime) -> Result<(), Fail> {
    for (goal, answer) in goals() {
        let mut sheet = [first(2, 3); 2];
        expect(&rt, &LookUp, &mut sheet, claim(1, &goal, &[]), answer)?;
    }
    Ok(())
}

// Every item of the goal counts.
#[test]
fn every_item_counts(rt: HostRuntime) -> Result<(), Fail> {
    for item in 0..ITEMS {
        let mut sheet = [only(8, 0); 2];
        expect(
            &rt,
            &LookUp,
            &mut sheet,
            claim(1, &only(item, -1), &[]),
            fault(FaultKind::BoundNotShown, 0, 0, 8),
        )?;
    }
    Ok(())
}

#[test]
fn earlier_fault_wins(rt: HostRuntime) -> Result<(), Fail> {
    let mut sheet = [only(3, ROW_LIMIT + 1); 40];
    expect_opening_faults(&rt, &LookUp, &[1])?;
    expect(
        &rt,
        &LookUp,
        &mut sheet,
        claim(41, &first(1, 1), &[1]),
        fault(FaultKind::TooManyFacts, 0, 0, 0),
    )?;
    expect(
        &rt,
        &LookUp,
        &mut sheet,
        claim(0, &first(1, 1), &[1]),
        fault(FaultKind::CertificateLength, 0, 0, 0),
    )
}
