// Every kind of line and every error once.
use crate::*;
use rows::Numbers;
use std::test::Fail;

fn nine() -> Numbers {
    Numbers {
        coefficients: [1, -2, 3, 0, 0, 0, 0, 9223372036854775807],
        bound: -9223372036854775808,
    }
}

#[test]
fn commands(rt: HostRuntime) {
    let numbers = nine();
    assert_eq!(rt; parse(" \t\r"), Ok(Command::Nothing));
    assert_eq!(rt; parse(" # sheet"), Ok(Command::Nothing));
    assert_eq!(rt; parse("sheet 064\r"), Ok(Command::Sheet(64)));
    assert_eq!(rt;
        parse("fact 1 -2 3 0 0 0 0 9223372036854775807 -9223372036854775808"),
        Ok(Command::Fact(numbers))
    );
    assert_eq!(rt;
        parse("goal 1 -2 3 0  0 0 0 9223372036854775807 -9223372036854775808"),
        Ok(Command::Goal(numbers))
    );
    assert_eq!(rt;
        parse("row 1 -2 3 0 0 -0 0 9223372036854775807\t-9223372036854775808"),
        Ok(Command::Row(numbers))
    );
    assert_eq!(rt; parse("forget"), Ok(Command::Forget));
}

#[test]
fn questions(rt: HostRuntime) -> Result<(), Fail> {
    let stack = Stack::Double(Layer::Split, Layer::Cut, Base::Multipliers);
    let certificate = Hex::read("00fFa9")?;
    assert_eq!(rt;
        parse("ask split/cut/multipliers 00fFa9"),
        Ok(Command::Ask { stack, certificate })
    );
    assert_eq!(rt;
        certificate.bytes(rt.alloc())?.as_slice(),
        [0, 255, 169].as_slice()
    );
    assert!(rt; Hex::read("-")?.bytes(rt.alloc())?.is_empty());
    Ok(())
}

#[test]
fn number_errors(rt: HostRuntime) {
    assert_eq!(rt; parse("tell"), Err(LineError::UnknownCommand));
    assert_eq!(rt; parse("sheet +1"), Err(LineError::NotANumber));
    assert_eq!(rt;
        parse("sheet 9223372036854775808"),
        Err(LineError::NumberTooLarge)
    );
    assert_eq!(rt; parse("row 1 2 3 4 5 6 7 8"), Err(LineError::TooFewWords));
    assert_eq!(rt;
        parse("row 1 2 3 4 5 6 7 8 9 10"),
        Err(LineError::TooManyWords)
    );
    assert_eq!(rt; parse("sheet 65"), Err(LineError::SheetRows));
    assert_eq!(rt; parse("sheet -1"), Err(LineError::SheetRows));
}

#[test]
fn question_errors(rt: HostRuntime) {
    assert_eq!(rt; parse("ask"), Err(LineError::MissingMethod));
    assert_eq!(rt;
        parse("ask cut/cut/cut/look-up -"),
        Err(LineError::UnknownMethod)
    );
    assert_eq!(rt; parse("ask look-up"), Err(LineError::MissingHex));
    assert_eq!(rt; parse("ask look-up 0g"), Err(LineError::NoHexDigit));
    assert_eq!(rt; parse("ask look-up 000"), Err(LineError::OddHexDigits));
    assert_eq!(rt; parse("ask look-up - -"), Err(LineError::TooManyWords));
}
