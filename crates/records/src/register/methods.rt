// What a register does. Each clause names the list that it holds and the memory behind it.
ghost use Rattle.std.specs.Prelude.{◌≡◌, ◌≤◌, min, [], ◌∷◌, ◌++◌, length, drop, if◌then◌else◌, nat_lt, slice_set};
ghost use Rattle.records.specs.Lists.{at, place_of};
ghost use Rattle.records.specs.Held.{held, behind, room};

use crate::numbered::Numbered;
use crate::register::Register;

impl<'a, T: Copy> Register<'a, T> {
    // An empty register in this memory.
    pub fn new(records: &'a mut [T]) -> Register<'a, T>
        ensures held { held result ≡ [] }
        ensures behind { behind result ≡ records.old }
    {
        Register { records, len: 0 }
    }

    // How many records the memory has room for.
    pub fn capacity(&self) -> usize
        ensures { result ≡ room self.now }
    {
        self.records.len()
    }

    // The records, in their order.
    pub fn as_slice(&self) -> &[T]
        ensures { result.now ≡ held self.now }
    {
        &self.records[..self.len]
    }

    // How many records the register holds.
    pub fn len(&self) -> usize
        ensures value { result ≡ length (held self.now) }
        ensures within { result ≤ room self.now }
    {
        self.as_slice().len()
    }

    // Lets all records go; the memory stays as it is.
    pub fn clear(&mut self)
        ensures held { held self.new ≡ [] }
        ensures behind { behind self.new ≡ held self.old ++ behind self.old }
        ensures room { room self.new ≡ room self.old }
    {
        self.len = 0;
    }

    // Puts a record at the end, if there is room; else the register stays as it is.
    // A `bool`: the one thing that can be wrong is that there is no room.
    pub fn push(&mut self, item: T) -> bool
        ensures took { result ≡ nat_lt (length (held self.old)) (room self.old) }
        ensures held { held self.new ≡ (if result then held self.old ++ (item ∷ []) else held self.old) }
        ensures behind { behind self.new ≡ (if result then drop 1 (behind self.old) else behind self.old) }
        ensures room { room self.new ≡ room self.old }
    {
        if self.len == self.capacity() {
            return false;
        }
        self.records[self.len] = item;
        self.len += 1;
        true
    }

    // The record at a place, if one is there.
    pub fn get(&self, i: usize) -> Option<T>
        ensures { result ≡ at i (held self.now) }
    {
        self.as_slice().get(i).copied()
    }

    // Puts a record in the place of another; where none stands there, the register stays as it is.
    // A `bool`: the one thing that can be wrong is that no record stands there.
    #[tactic(auto, using(crate::proofs::Fronts::taken_set))]
    pub fn replace(&mut self, i: usize, item: T) -> bool
        ensures took { result ≡ nat_lt i (length (held self.old)) }
        ensures held { held self.new ≡ slice_set (held self.old) i item }
        ensures behind { behind self.new ≡ behind self.old }
        ensures room { room self.new ≡ room self.old }
    {
        if i >= self.len {
            return false;
        }
        self.records[i] = item;
        true
    }
}

impl<'a, T: Copy + Numbered> Register<'a, T> {
    // The place of the first record with a number.
    // A place, for `get` and `replace`, and no record: `with_number` lends that.
    pub fn find(&self, n: u16) -> Option<usize>
        ensures { result ≡ place_of T.Numbered.number n 0 (held self.now) }
    {
        self.as_slice()
            .iter()
            .position(|record| record.number() == n)
    }
}
