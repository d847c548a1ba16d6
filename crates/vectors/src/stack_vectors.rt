// Three layers over a method: places add up and the depth rises.
use crate::helpers::*;
use methods::{Cut, LookUp, Multipliers, Split};
use rows::{Answer, FaultKind};
use std::test::Fail;

fn stack() -> Split<Cut<Split<LookUp>>> {
    Split {
        below: Cut {
            below: Split { below: LookUp },
        },
    }
}

// The goal's bound, the certificate and the answer: every layer hands down.
fn hand_downs() -> [(i64, &'static [u8], Answer); 7] {
    [
        (1, &[0, 0, 0], Ok(())),
        (0, &[0, 0, 0], fault(FaultKind::BoundNotShown, 3, 3, 8)),
        (
            1,
            &[0, 0, 0, 0],
            fault(FaultKind::CertificateLength, 3, 3, 0),
        ),
        (1, &[0, 0, 2], fault(FaultKind::LayerByte, 2, 2, 0)),
        (1, &[0, 2], fault(FaultKind::LayerByte, 1, 1, 0)),
        (1, &[0, 0], fault(FaultKind::CertificateLength, 2, 2, 0)),
        (1, &[2], fault(FaultKind::LayerByte, 0, 0, 0)),
    ]
}

#[test]
fn handed_down(rt: HostRuntime) -> Result<(), Fail> {
    let mut sheet = [first(1, 1); 1];
    for (bound, bytes, answer) in hand_downs() {
        expect(
            &rt,
            &stack(),
            &mut sheet,
            claim(1, &first(1, bound), bytes),
            answer,
        )?;
    }
    Ok(())
}

// The sheet's rows and the answer where every layer adds a fact and the sheet has no room for all of them.
fn rooms() -> [(usize, Answer); 3] {
    [
        (3, fault(FaultKind::NoRoomForFact, 46, 2, 0)),
        (2, fault(FaultKind::NoRoomForFact, 39, 1, 0)),
        (1, fault(FaultKind::NoRoomForFact, 0, 0, 0)),
    ]
}

#[test]
fn facts_added_in_each_layer(rt: HostRuntime) -> Result<(), Fail> {
    let mut sheet = [first(1, 1); 4];
    let goal = first(1, 1);
    let mut bytes = [0; 90];
    bytes[0] = 1;
    bytes[38] = 47;
    bytes[39] = 1;
    bytes[41] = 1;
    bytes[46] = 1;
    // 39 + 7 + 39 bytes lie before the last certificate.
    expect(
        &rt,
        &stack(),
        &mut sheet,
        claim(1, &goal, &bytes),
        fault(FaultKind::CertificateLength, 85, 3, 0),
    )?;
    for (rows, answer) in rooms() {
        let mut fresh = [first(1, 1); 3];
        assert!(rt; rows <= 3);
        expect(
            &rt,
            &stack(),
            &mut fresh[0..rows],
            claim(1, &goal, &bytes),
            answer,
        )?;
    }
    bytes[43] = 1;
    bytes[42] = 255;
    expect(
        &rt,
        &stack(),
        &mut sheet,
        claim(1, &goal, &bytes),
        fault(FaultKind::MultiplierRange, 42, 1, 0),
    )
}

// The second certificate of a split begins behind the first.
#[test]
fn second_certificate(rt: HostRuntime) -> Result<(), Fail> {
    let mut sheet = [first(1, 1); 4];
    let goal = first(1, 1);
    let mut bytes = [0; 44];
    bytes[0] = 1;
    bytes[38] = 2;
    expect(
        &rt,
        &stack(),
        &mut sheet,
        claim(1, &goal, &bytes[0..43]),
        Ok(()),
    )?;
    expect(
        &rt,
        &stack(),
        &mut sheet,
        claim(1, &goal, &bytes),
        fault(FaultKind::CertificateLength, 43, 3, 0),
    )?;
    expect(
        &rt,
        &stack(),
        &mut sheet,
        claim(1, &first(1, 0), &bytes),
        fault(FaultKind::BoundNotShown, 41, 3, 8),
    )
}

// A lower fault's item is kept, and its place is that of the lower field.
#[test]
fn item_kept(rt: HostRuntime) -> Result<(), Fail> {
    let mut sheet = [first(1, 1); 4];
    let cut = Cut {
        below: Split { below: Multipliers },
    };
    let mut bytes = [0; 40];
    bytes[1] = 1;
    bytes[22] = 1;
    expect(
        &rt,
        &cut,
        &mut sheet,
        claim(1, &first(1, 1), &bytes),
        fault(FaultKind::LayerRowTooLarge, 22, 1, 5),
    )?;
    let low = [0, 0, 0, 1, 0, 2];
    expect(
        &rt,
        &cut,
        &mut sheet,
        claim(1, &first(1, 1), &low),
        fault(FaultKind::ColumnDiffers, 2, 2, 0),
    )?;
    let wide = [0, 0, 0, 1, 255, 0];
    expect(
        &rt,
        &cut,
        &mut sheet,
        claim(1, &first(1, 1), &wide),
        fault(FaultKind::MultiplierRange, 4, 2, 0),
    )
}
