// The number of a listed place.
use crate::numbered::Numbered;
use crate::records::Place;

impl Numbered for Place {
    ghost number = { λ p. p.number };

    fn number(&self) -> u16 {
        self.number
    }
}
