// A buyer's side: a method and a layer of its own, a method that never says yes, and stacks of them with the product's,
// written against the public parts of `rows` and `methods` alone.
#![tactic(auto)]

pub mod never;
pub mod stacks;
pub mod weaken;
pub mod zero_goal;

pub use never::NeverYes;
pub use weaken::Weaken;
pub use zero_goal::ZeroGoal;

#[cfg(test)]
mod tests {
    use crate::never::NeverYes;
    use crate::stacks::{ask_cut_zero_goal, ask_split_weaken_cut, ask_weaken_split_never};
    use crate::weaken::Weaken;
    use crate::zero_goal::ZeroGoal;
    use methods::{Claim, LookUp, ask};
    use rows::{Answer, Fault, FaultKind, Numbers};

    // `row`, `fault` and `claim` stand in `vectors` too: a crate's tests are no part of what others can use.
    // A row with one coefficient, that of the first state value.
    fn row(first: i64, bound: i64) -> Numbers {
        Numbers {
            coefficients: [first, 0, 0, 0, 0, 0, 0, 0],
            bound,
        }
    }

    fn fault(kind: FaultKind, place: usize, depth: u8, item: u8) -> Answer {
        Err(Fault {
            kind,
            place,
            depth,
            item,
        })
    }

    fn claim<'a>(count: usize, goal: &'a Numbers, certificate: &'a [u8]) -> Claim<'a> {
        Claim {
            count,
            goal,
            certificate,
        }
    }

    // 2a ≤ 3 in a sheet of two rows.
    fn sheet() -> [Numbers; 2] {
        [row(2, 3), row(0, 0)]
    }

    #[test]
    fn zero_goals(rt: HostRuntime) {
        let mut s = sheet();
        assert_eq!(rt; ask(&ZeroGoal, &mut s, claim(1, &row(0, 0), &[])), Ok(()));
        assert_eq!(rt; ask(&ZeroGoal, &mut s, claim(0, &row(0, 7), &[])), Ok(()));
        assert_eq!(rt;
            ask(&ZeroGoal, &mut s, claim(0, &row(0, -1), &[])),
            fault(FaultKind::BoundNotShown, 0, 0, 8)
        );
        assert_eq!(rt;
            ask(&ZeroGoal, &mut s, claim(0, &row(1, -1), &[])),
            fault(FaultKind::ColumnDiffers, 0, 0, 0)
        );
        assert_eq!(rt;
            ask(&ZeroGoal, &mut s, claim(0, &row(1, 0), &[0])),
            fault(FaultKind::CertificateLength, 0, 0, 0)
        );
        assert_eq!(rt;
            ask(&ZeroGoal, &mut s, claim(3, &row(0, 0), &[])),
            fault(FaultKind::TooManyFacts, 0, 0, 0)
        );
    }

    #[test]
    fn weakened(rt: HostRuntime) {
        let mut s = sheet();
        let stack = Weaken { below: LookUp };
        assert_eq!(rt;
            ask(&stack, &mut s, claim(1, &row(2, 10), &[1, 0, 0, 0, 7])),
            Ok(())
        );
        assert_eq!(rt;
            ask(&stack, &mut s, claim(1, &row(2, 10), &[1, 0, 0, 0, 8])),
            fault(FaultKind::BoundNotShown, 5, 1, 8)
        );
        assert_eq!(rt; ask(&stack, &mut s, claim(1, &row(2, 3), &[0])), Ok(()));
        assert_eq!(rt;
            ask(&stack, &mut s, claim(1, &row(2, 2), &[0])),
            fault(FaultKind::BoundNotShown, 1, 1, 8)
        );
        assert_eq!(rt;
            ask(&stack, &mut s, claim(1, &row(2, 10), &[1, 0, 0, 0])),
            fault(FaultKind::CertificateLength, 0, 0, 0)
        );
        assert_eq!(rt;
            ask(
                &stack,
                &mut s,
                claim(1, &row(2, 10), &[1, 255, 255, 255, 255])
            ),
            fault(FaultKind::LayerRowTooLarge, 1, 0, 8)
        );
    }

    #[test]
    fn weakened_at_its_limits(rt: HostRuntime) {
        let mut s = sheet();
        let stack = Weaken { below: LookUp };
        assert_eq!(rt;
            ask(
                &stack,
                &mut s,
                claim(1, &row(2, 1_000_003), &[1, 0, 15, 66, 64])
            ),
            Ok(())
        );
        assert_eq!(rt;
            ask(
                &stack,
                &mut s,
                claim(1, &row(2, 1_000_003), &[1, 0, 15, 66, 65])
            ),
            fault(FaultKind::LayerRowTooLarge, 1, 0, 8)
        );
        assert_eq!(rt;
            ask(&stack, &mut s, claim(1, &row(2, 20_000_000_000_001), &[])),
            fault(FaultKind::RowNumberTooLarge, 0, 0, 8)
        );
        assert_eq!(rt;
            ask(&stack, &mut s, claim(1, &row(2, 3), &[])),
            fault(FaultKind::CertificateLength, 0, 0, 0)
        );
        assert_eq!(rt;
            ask(&stack, &mut s, claim(1, &row(2, 3), &[2])),
            fault(FaultKind::LayerByte, 0, 0, 0)
        );
    }

    #[test]
    fn stacked(rt: HostRuntime) {
        let mut s = sheet();
        // Split: hand down; weaken by 1: a ≤ 2 by a ≤ 1; cut by 2: a ≤ 1; multipliers 1, 0, 1.
        let certificate = [0, 1, 0, 0, 0, 1, 1, 0, 2, 0, 1, 0, 1, 0, 0, 0, 1];
        assert_eq!(rt;
            ask_split_weaken_cut(&mut s, claim(1, &row(1, 2), &certificate)),
            Ok(())
        );
        assert_eq!(rt;
            ask_split_weaken_cut(&mut s, claim(1, &row(1, 1), &certificate)),
            fault(FaultKind::BoundNotShown, 11, 3, 8)
        );
        assert_eq!(rt;
            ask_cut_zero_goal(&mut s, claim(1, &row(0, 0), &[0])),
            Ok(())
        );
        assert_eq!(rt;
            ask_cut_zero_goal(&mut s, claim(1, &row(0, 0), &[1, 0, 2, 0, 1])),
            Ok(())
        );
        assert_eq!(rt;
            ask_cut_zero_goal(&mut s, claim(1, &row(1, 0), &[1, 0, 2, 0, 1])),
            fault(FaultKind::ColumnDiffers, 5, 1, 0)
        );
        assert_eq!(rt;
            ask_weaken_split_never(&mut s, claim(1, &row(0, 0), &[1, 0, 0, 0, 0, 0])),
            fault(FaultKind::BoundNotShown, 6, 2, 8)
        );
        assert_eq!(rt;
            ask(&NeverYes, &mut s, claim(1, &row(2, 3), &[])),
            fault(FaultKind::BoundNotShown, 0, 0, 8)
        );
    }
}
