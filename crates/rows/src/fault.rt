// What a refused call, reader or question says.
ghost use Rattle.rows.specs.Faults.{number_of, fault_of, check as checks, raised_within, moved as moved_by, moved_within, Movable};
ghost use Rattle.std.specs.Prelude.{◌≡◌};

// Every fault of the product, by what is wrong.
#[derive(Clone, Copy, PartialEq, Eq, Debug)]
pub enum FaultKind {
    // Reading a table.
    TableVersion = 1,
    TableLength = 2,
    TableCount = 3,
    TableNumber = 4,
    TableWritten = 5,
    // Reading a witness.
    AdmitWithoutTable = 11,
    WitnessVersion = 12,
    WitnessLength = 13,
    WitnessCount = 14,
    WitnessNumber = 15,
    WitnessWritten = 16,
    WitnessReference = 17,
    // Setting the first state.
    BeginWithoutTable = 21,
    BeginValues = 22,
    InitialRowUnmet = 23,
    // Making a step.
    AdvanceWithoutState = 24,
    AdvanceTransition = 25,
    AdvanceChoices = 26,
    GuardRowUnmet = 27,
    NewValueTooLarge = 28,
    StepsExhausted = 29,
    // Adding a condition row or a restriction row.
    AddWithoutWitness = 31,
    AddToUnknown = 32,
    AddedNumbers = 33,
    AddedRowsFull = 34,
    // Putting an obligation to a method.
    ProveWithoutWitness = 41,
    NoSuchObligation = 42,
    SheetTooShort = 43,
    // Making a row.
    RowNumberTooLarge = 50,
    // Asking a method.
    TooManyFacts = 51,
    CertificateLength = 52,
    LayerByte = 53,
    MultiplierRange = 54,
    ColumnDiffers = 55,
    BoundNotShown = 56,
    LayerRowTooLarge = 57,
    NoRoomForFact = 58,
    // Judging a case.
    VerdictWithoutTable = 61,
    VerdictWithoutWitness = 62,
    VerdictWithoutState = 63,
    PlaceUnlisted = 64,
    ConditionRowUnmet = 65,
    ConsecutionOpen = 66,
    RestrictionOpen = 67,
    GuardOpen = 68,
    ExitOpen = 69,
    // Unrolling the plan.
    UnrollNotAccepted = 71,
    UnrollTooLong = 72,
    UnrollTableTooShort = 73,
    // Checking a dossier.
    DossierTooLong = 81,
    DossierPiece = 82,
    TraceLength = 83,
    DossierLeftOver = 84,
}

impl FaultKind {
    // The number by which the fault is printed.
    pub fn number(self) -> u8
        ensures { result ≡ number_of self }
    {
        self as u8
    }
}

// A refusal: what is wrong, and where. `place`, `depth` and `item` are zero where the kind does not name them.
// All four stand in every fault, not in the variants of an enum, since all four are printed with each refusal.
#[derive(Clone, Copy, PartialEq, Eq, Debug)]
pub struct Fault {
    pub kind: FaultKind,
    pub place: usize,
    pub depth: u8,
    pub item: u8,
}

impl Fault {
    // A fault at a byte and an item; no layer lies above it.
    pub fn new(kind: FaultKind, place: usize, item: u8) -> Fault
        ensures { result ≡ fault_of kind place 0 item }
    {
        Fault {
            kind,
            place,
            depth: 0,
            item,
        }
    }

    // A fault that names nothing but itself.
    pub fn of(kind: FaultKind) -> Fault
        ensures { result ≡ fault_of kind 0 0 0 }
    {
        Fault::new(kind, 0, 0)
    }

    // A fault at a byte.
    pub fn at(kind: FaultKind, place: usize) -> Fault
        ensures { result ≡ fault_of kind place 0 0 }
    {
        Fault::new(kind, place, 0)
    }

    // A fault of one number of a row, by its item.
    pub fn with_item(kind: FaultKind, item: u8) -> Fault
        ensures { result ≡ fault_of kind 0 0 item }
    {
        Fault::new(kind, 0, item)
    }

    // The fault of a method below, as its layer reports it.
    fn moved(self, offset: usize) -> Fault
        ensures { result ≡ raised_within offset self }
    {
        Fault {
            place: self.place.saturating_add(offset),
            depth: self.depth.saturating_add(1),
            ..self
        }
    }
}

// What a question, or a call that answers no value, says.
pub type Answer = Result<(), Fault>;

// A yes where the test is passed, else the fault.
pub fn check(passed: bool, fault: Fault) -> Answer
    ensures { result ≡ checks passed fault }
{
    if passed { Ok(()) } else { Err(fault) }
}

// The answer of the method below, as its layer reports it: a fault's place moves by the offset of the lower certificate
// and its depth rises by one; both stop at the largest that their types hold.
pub fn moved(answer: Answer, offset: usize) -> Answer
    ensures value { result ≡ moved_within answer offset }
    ensures exact { Movable offset answer → result ≡ moved_by offset answer }
{
    answer.map_err(|fault| fault.moved(offset))
}
