// The number of an inner transition.
use crate::numbered::Numbered;
use crate::records::Inner;

impl Numbered for Inner {
    ghost number = { λ i. i.number };

    fn number(&self) -> u16 {
        self.number
    }
}
