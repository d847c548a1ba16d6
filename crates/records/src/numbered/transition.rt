// The number of a transition.
use crate::numbered::Numbered;
use crate::records::Transition;

impl Numbered for Transition {
    ghost number = { λ t. t.number };

    fn number(&self) -> u16 {
        self.number
    }
}
