// What the vectors are built of.
use methods::{Claim, ProofMethod, ask};
use rows::limits::{ITEMS, ROW_LIMIT};
use rows::{Answer, Fault, FaultKind, Numbers};
use std::process::Abort;
use std::test::Fail;

// The row c × a ≤ b, with a the first state value.
pub fn first(c: i64, b: i64) -> Numbers {
    Numbers {
        coefficients: [c, 0, 0, 0, 0, 0, 0, 0],
        bound: b,
    }
}

// The row with one number that is not zero, by its item.
pub fn only(item: usize, number: i64) -> Numbers {
    let mut row = first(0, 0);
    match row.coefficients.get_mut(item) {
        Some(coefficient) => *coefficient = number,
        None => row.bound = number,
    }
    row
}

// A refusal.
pub fn fault(kind: FaultKind, place: usize, depth: u8, item: u8) -> Answer {
    Err(Fault {
        kind,
        place,
        depth,
        item,
    })
}

// Two two-byte numbers.
pub fn two_words(x: u16, y: u16) -> [u8; 4] {
    let [a, b] = x.to_be_bytes();
    let [c, d] = y.to_be_bytes();
    [a, b, c, d]
}

// A split's own part whose row has one number that is not zero, by its item; both lower certificates are empty.
pub fn split_by(item: usize, number: i32) -> [u8; 39] {
    let mut bytes = [0; 39];
    bytes[0] = 1;
    if item < ITEMS {
        let at = 1 + 4 * item;
        bytes[at..at + 4].copy_from_slice(&number.to_be_bytes());
    }
    bytes
}

// That the goal follows from the first facts of a sheet, as the certificate shows.
pub fn claim<'a>(count: usize, goal: &'a Numbers, certificate: &'a [u8]) -> Claim<'a> {
    Claim {
        count,
        goal,
        certificate,
    }
}

// The question has this answer.
pub fn expect<M: ProofMethod>(
    rt: &impl Abort,
    method: &M,
    sheet: &mut [Numbers],
    claim: Claim<'_>,
    answer: Answer,
) -> Result<(), Fail> {
    assert_eq!(rt; ask(method, sheet, claim), answer);
    Ok(())
}

// The first byte of a layer's certificate, alone, and the answer where the method below needs no certificate.
fn first_bytes() -> [(u8, Answer); 5] {
    let unknown = fault(FaultKind::LayerByte, 0, 0, 0);
    [
        (0, Ok(())),
        (1, fault(FaultKind::CertificateLength, 0, 0, 0)),
        (2, unknown),
        (128, unknown),
        (255, unknown),
    ]
}

// A layer over the look-up answers each first byte so, and none.
pub fn expect_first_bytes<M: ProofMethod>(rt: &impl Abort, layer: &M) -> Result<(), Fail> {
    let goal = first(1, 1);
    for (byte, answer) in first_bytes() {
        let mut sheet = [first(1, 1); 2];
        expect(rt, layer, &mut sheet, claim(1, &goal, &[byte]), answer)?;
    }
    let mut sheet = [first(1, 1); 2];
    expect(
        rt,
        layer,
        &mut sheet,
        claim(1, &goal, &[]),
        fault(FaultKind::CertificateLength, 0, 0, 0),
    )
}

// The count of facts, the goal and the answer where each fact has a number too large: too many facts are told first,
// then the fact, then the goal.
fn opening_faults() -> [(usize, Numbers, Answer); 3] {
    let large = only(2, ROW_LIMIT + 1);
    [
        (33, first(1, 1), fault(FaultKind::TooManyFacts, 0, 0, 0)),
        (1, large, fault(FaultKind::RowNumberTooLarge, 0, 0, 3)),
        (0, large, fault(FaultKind::RowNumberTooLarge, 0, 0, 2)),
    ]
}

// A method tells these faults, although it would refuse the certificate too.
pub fn expect_opening_faults<M: ProofMethod>(
    rt: &impl Abort,
    method: &M,
    certificate: &[u8],
) -> Result<(), Fail> {
    for (count, goal, answer) in opening_faults() {
        let mut sheet = [only(3, ROW_LIMIT + 1); 40];
        expect(
            rt,
            method,
            &mut sheet,
            claim(count, &goal, certificate),
            answer,
        )?;
    }
    Ok(())
}
