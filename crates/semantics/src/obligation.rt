// Obligations, by what they are about.

// A question that a witness has to answer before it can be accepted. Rows and entries count from 0.
#[derive(Clone, Copy, PartialEq, Eq, Debug)]
pub enum Obligation {
    // An inner transition, and a row of its target's condition: the row holds after the update.
    Consecution(u16, u8),
    // An inner transition, and a row of its restriction: the choices of the witness meet the row.
    Restriction(u16, u8),
    // A listed place, an entry of its plan, and a guard row of the entry's transition: the row is met where the plan
    // takes the entry.
    Guard(u16, u8, u8),
    // A transition that leaves a listed place and is not inner: it cannot be taken where the condition holds.
    Exit(u16),
}
