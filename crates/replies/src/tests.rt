// Every printed form once.
use crate::*;
use rows::{Fault, FaultKind};
use std::test::Fail;
use words::LineError;

#[test]
fn answers(rt: HostRuntime) -> Result<(), Fail> {
    let heap = rt.alloc();
    let table = TableRead {
        values: 2,
        choices: 0,
        start: 1,
        initial: 0,
        transitions: 24,
    };
    let witness = WitnessRead {
        places: 1,
        inners: 2,
    };
    assert_eq!(rt; Reply::Yes.text(heap)?.as_str(), "yes");
    assert_eq!(rt; Reply::Done.text(heap)?.as_str(), "ok");
    assert_eq!(rt;
        Reply::Table(table).text(heap)?.as_str(),
        "ok: values 2 choices 0 start 1 initial 0 transitions 24"
    );
    assert_eq!(rt;
        Reply::Witness(witness).text(heap)?.as_str(),
        "ok: places 1 inner 2"
    );
    Ok(())
}

#[test]
fn refusals(rt: HostRuntime) -> Result<(), Fail> {
    let heap = rt.alloc();
    let fault = Fault {
        kind: FaultKind::ColumnDiffers,
        place: 12,
        depth: 1,
        item: 7,
    };
    assert_eq!(rt;
        Reply::Yes.unless_refused(Err(fault)).text(heap)?.as_str(),
        "refused 55 at 12 layer 1 item 7"
    );
    assert_eq!(rt;
        ErrorLine {
            line: 3,
            error: LineError::NotANumber,
        }
        .text(heap)?
        .as_str(),
        "error line 3: not a number"
    );
    Ok(())
}
