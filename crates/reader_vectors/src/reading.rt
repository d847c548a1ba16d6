// Reads bytes by every reader that there is for them.
use crate::building::*;
use records::{BoundedList, Inner, Place, PlanEntry, Register, Transition};
use rows::{Expression, Fault, FaultKind, WrittenRow};
use sequences::{TableView, read_table, read_witness, test_table, test_witness};
use std::alloc::Global;
use std::fmt::Debug;
use std::process::Abort;
use std::test::Fail;

// How many records are read, or a fault's kind and place; its depth and item are 0.
pub type Expected<T> = Result<T, (FaultKind, usize)>;

// The fault that is expected.
pub fn fault_of<T: Drop>(expected: Expected<T>) -> Option<Fault> {
    expected.err().map(|(kind, place)| Fault {
        kind,
        place,
        depth: 0,
        item: 0,
    })
}

// The number of the records that memory is filled with; no vector has it.
// `tables` has blank records of its own, but inside that crate, and with the number 0.
const UNREAD: u16 = 999;

pub fn unread_transition() -> Transition {
    Transition {
        number: UNREAD,
        start: 0,
        target: 0,
        guard: BoundedList::new(WrittenRow::zero()),
        updates: BoundedList::new(Expression::zero()),
    }
}

pub fn unread_place() -> Place {
    Place {
        number: UNREAD,
        condition: BoundedList::new(WrittenRow::zero()),
        tested: BoundedList::new(PlanEntry {
            transition: 0,
            test: WrittenRow::zero(),
        }),
        last: 0,
    }
}

pub fn unread_inner() -> Inner {
    Inner {
        number: UNREAD,
        restrictions: BoundedList::new(WrittenRow::zero()),
        choices: BoundedList::new(Expression::zero()),
    }
}

// What reading leaves behind: the fault, the number of records, and whether the unread record is among them.
type Left<T, U> = (Option<Fault>, T, U);

// Memory for so many transitions, places and inner transitions.
#[derive(Clone, Copy, PartialEq, Eq)]
pub struct TableMemory {
    pub transitions: usize,
    pub places: usize,
    pub inners: usize,
}

// Memory for so many places and inner transitions.
#[derive(Clone, Copy, PartialEq, Eq)]
pub struct WitnessMemory {
    pub places: usize,
    pub inners: usize,
}

// Memory for the records of every table and every witness.
pub const TABLE_MEMORY: TableMemory = TableMemory {
    transitions: 24,
    places: 12,
    inners: 24,
};

pub const WITNESS_MEMORY: WitnessMemory = WitnessMemory {
    places: 12,
    inners: 24,
};

// Reads a table into a register that holds an unread record, with memory for so many transitions, at most 25, places and
// inner transitions.
fn left_by_table(bytes: &[u8], memory: TableMemory) -> Left<usize, bool> {
    let mut records = [unread_transition(); 25];
    let mut register = Register::new(&mut records[0..memory.transitions.min(25)]);
    register.push(unread_transition());
    let fault = read_table(bytes, &mut register, memory.places, memory.inners).err();
    (fault, register.len(), register.find(UNREAD).is_some())
}

// Reading a table tells this, and so does testing it, where the memory is enough. After a refusal the register holds
// what it held. The vector says in a failure which one it was.
pub fn expect_table(
    rt: &impl Abort,
    vector: &impl Debug,
    bytes: &[u8],
    memory: TableMemory,
    expected: Expected<usize>,
) -> Result<(), Fail> {
    let fault = fault_of(expected);
    if memory == TABLE_MEMORY {
        assert_eq!(rt; test_table(bytes).err(), fault, "vector {vector:?}");
    }
    let before = memory.transitions.min(1);
    let kept = expected.is_err() && before == 1;
    let left = (fault, expected.unwrap_or(before), kept);
    assert_eq!(rt; left_by_table(bytes, memory), left, "vector {vector:?}");
    Ok(())
}

// The same of a table that is built and then changed.
pub fn expect_built_table(
    rt: &impl Abort,
    vector: &impl Debug,
    heap: Global,
    built: Table,
    changes: Changes,
    memory: TableMemory,
    expected: Expected<usize>,
) -> Result<(), Fail> {
    let mut bytes = table(heap, built)?;
    change(&mut bytes, changes)?;
    expect_table(rt, vector, &bytes, memory, expected)
}

// Reads a table, and does with it what is to be done.
pub(crate) fn with_table<T, F: FnOnce(TableView<'_>) -> T>(
    table: &[u8],
    work: F,
) -> Result<T, Fault>
    requires { F.IsAlwaysCallable work }
{
    let mut records = [unread_transition(); 24];
    let mut transitions = Register::new(&mut records);
    let heading = read_table(table, &mut transitions, 12, 24)?;
    Ok(work(TableView {
        heading: &heading,
        transitions: transitions.as_slice(),
    }))
}

// Reads a witness into registers that hold an unread record each, with memory for so many places, at most 13, and inner
// transitions, at most 25.
fn left_by_witness(
    bytes: &[u8],
    view: TableView<'_>,
    memory: WitnessMemory,
) -> Left<(usize, usize), (bool, bool)> {
    let mut place_records = [unread_place(); 13];
    let mut inner_records = [unread_inner(); 25];
    let mut places = Register::new(&mut place_records[0..memory.places.min(13)]);
    let mut inners = Register::new(&mut inner_records[0..memory.inners.min(25)]);
    places.push(unread_place());
    inners.push(unread_inner());
    let fault = read_witness(bytes, view, &mut places, &mut inners).err();
    let kept = (places.find(UNREAD).is_some(), inners.find(UNREAD).is_some());
    (fault, (places.len(), inners.len()), kept)
}

// Reading a witness against a table tells this, and so does testing it, where the memory is enough. After a refusal the
// registers hold what they held.
pub fn expect_witness(
    rt: &impl Abort,
    vector: &impl Debug,
    table: &[u8],
    bytes: &[u8],
    memory: WitnessMemory,
    expected: Expected<(usize, usize)>,
) -> Result<(), Fail> {
    let fault = fault_of(expected);
    if memory == WITNESS_MEMORY {
        let told = with_table(table, |view| test_witness(bytes, view).err());
        assert_eq!(rt; told, Ok(fault), "vector {vector:?}");
    }
    let before = (memory.places.min(1), memory.inners.min(1));
    let refused = expected.is_err();
    let kept = (refused && before.0 == 1, refused && before.1 == 1);
    let left = (fault, expected.unwrap_or(before), kept);
    let found = with_table(table, |view| left_by_witness(bytes, view, memory));
    assert_eq!(rt; found, Ok(left), "vector {vector:?}");
    Ok(())
}

// The same of a witness that is built and then changed, against a table with 24 transitions.
pub fn expect_built_witness(
    rt: &impl Abort,
    vector: &impl Debug,
    heap: Global,
    built: Witness,
    changes: Changes,
    memory: WitnessMemory,
    expected: Expected<(usize, usize)>,
) -> Result<(), Fail> {
    let against = table(heap, (built.0, 24, (0, 0)))?;
    let mut bytes = witness(heap, built)?;
    change(&mut bytes, changes)?;
    expect_witness(rt, vector, &against, &bytes, memory, expected)
}
