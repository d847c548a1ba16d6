// Whether a witness fits together with its table and in itself.
ghost use Rattle.std.specs.Prelude.{◌≡◌, ℕ, ◌≤◌, length, Ok};
ghost use Rattle.records.specs.Bounded.{listed};
ghost use Rattle.sequences.specs.Handed.{located_of, progress_of};
ghost use Rattle.records.specs.Lists.{first_with, among};
ghost use Rattle.records.specs.Records.{TransitionData, transition_of};
ghost use Rattle.formats.specs.Witnesses.{entry_fits, inner_fits, place_length, plan_says, reference_by, references_say, pieces_of, pieces_say, named_in};
ghost use Rattle.sequences.specs.TableGiven.{shape_in, transitions_in, named_of, Reached};
ghost use Rattle.std.specs.Option.{option_map};

use crate::named::Named;
use crate::piece::LocatedPiece;
use crate::view::TableView;
use crate::witness::{
    COUNT_FROM, LocatedPart, NUMBER_FROM, Noted, ROWS_FROM, TRANSITION_BYTES, WitnessReader,
};
use records::{BoundedList, Transition, with_number};
use rows::bytes::{byte_at, word_at};
use rows::{Answer, FaultKind, check};

// Whether a number is among some.
fn contains<const N: usize>(numbers: &BoundedList<u16, N>, number: u16) -> bool
    ensures { result ≡ among number (listed numbers.now) }
{
    numbers.as_slice().contains(&number)
}

impl Named<'_> {
    // The table's first transition with a number, if there is one.
    fn transition(self, number: u16) -> Option<Transition>
        ensures { option_map transition_of result ≡ first_with (λ (t : TransitionData). t.number) number (transitions_in self.entry.table) }
    {
        with_number(self.table.transitions, number).copied()
    }

    // Whether a plan entry of a place fits: its transition is in the table, starts at the place and is declared inner.
    fn entry_fits(self, place: u16, number: u16) -> bool
        ensures { result ≡ entry_fits (named_of self.entry) place number }
    {
        self.transition(number).is_some_and(|t| t.start == place
            && contains(&self.noted.inners, number))
    }

    // Whether an inner transition fits: it is in the table, and its start and target are listed.
    fn inner_fits(self, number: u16) -> bool
        ensures { result ≡ inner_fits (named_of self.entry) number }
    {
        let places = &self.noted.places;
        self.transition(number).is_some_and(|t| contains(places, t.start)
            && contains(places, t.target))
    }

    // Tests the entries of a plan.
    fn plan_test(self, piece: LocatedPiece<'_>) -> Answer
        requires { place_length (shape_in self.table) piece.rest.now ≤ length piece.rest.now }
        ensures { result ≡ plan_says (shape_in self.entry.table) (named_of self.entry) piece.entry.offset piece.entry.rest.now }
    {
        let stride = self.table.heading.shape().over_values().stride();
        let rows = usize::from(byte_at(piece.rest, COUNT_FROM));
        let plan_count_from = ROWS_FROM + stride * rows;
        let count = usize::from(byte_at(piece.rest, plan_count_from));
        let place = word_at(piece.rest, NUMBER_FROM);
        // `e` counts entries, each of a fixed size in bytes: a fault names the byte at which one stands.
        for e in 0..count {
            let at = plan_count_from + 1 + (TRANSITION_BYTES + stride) * e;
            let number = word_at(piece.rest, at);
            let fits = self.entry_fits(place, number);
            check(fits, piece.fault(FaultKind::WitnessReference, at))?;
        }
        Ok(())
    }

    // Tests what a piece refers to.
    fn reference_test(self, piece: LocatedPart<'_>) -> Answer
        requires { Reached (shape_in self.table) (located_of piece) }
        ensures { result ≡ reference_by (shape_in self.entry.table) (named_of self.entry) (located_of piece.entry) }
    {
        match piece {
            LocatedPart::Place(part) => self.plan_test(part),
            LocatedPart::Transition(part) => {
                let fits = self.inner_fits(word_at(part.rest, NUMBER_FROM));
                check(fits, part.fault(FaultKind::WitnessReference, NUMBER_FROM))
            }
        }
    }
}

// Tests what the pieces of a witness refer to, once each piece has passed.
pub(crate) fn references_test(bytes: &[u8], table: TableView<'_>, noted: &Noted) -> Answer
    requires { Ok tt ≡ pieces_say (shape_in table) bytes.now }
    ensures { result ≡ references_say (shape_in table.entry) (named_in (transitions_in table.entry) (progress_of noted.now)) (pieces_of bytes.now) }
{
    let mut reader = WitnessReader::at_pieces(bytes);
    let named = Named { table, noted };
    while let Some(piece) = reader.next_located()? {
        named.reference_test(piece)?;
    }
    Ok(())
}
