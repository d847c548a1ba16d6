// Making, reading and extending a short list.
ghost use Rattle.std.specs.Prelude.{◌≡◌, ◌≤◌, [], ◌∷◌, ◌++◌, length, drop, replicate, if◌then◌else◌, nat_lt};
ghost use Rattle.records.specs.Lists.{at};
ghost use Rattle.records.specs.Bounded.{listed, spare};

use crate::bounded::BoundedList;

impl<T: Copy, const N: usize> BoundedList<T, N> {
    // The empty list, its memory filled with one value.
    pub fn new(filler: T) -> BoundedList<T, N>
        ensures listed { listed result ≡ [] }
        ensures spare { spare result ≡ replicate N filler }
    {
        BoundedList {
            items: [filler; N],
            count: 0,
        }
    }

    // The elements, in their order.
    pub fn as_slice(&self) -> &[T]
        ensures { result.now ≡ listed self.now }
    {
        &self.items[..self.count]
    }

    // How many elements the list has.
    pub fn len(&self) -> usize
        ensures value { result ≡ length (listed self.now) }
        ensures within { result ≤ N }
    {
        self.as_slice().len()
    }

    // The element at a place, if one is there.
    pub fn get(&self, i: usize) -> Option<T>
        ensures { result ≡ at i (listed self.now) }
    {
        self.as_slice().get(i).copied()
    }

    // Puts an element at the end, if there is room; else the list stays as it is.
    // A `bool`: the one thing that can be wrong is that there is no room.
    pub fn push(&mut self, item: T) -> bool
        ensures took { result ≡ nat_lt (length (listed self.old)) N }
        ensures listed { listed self.new ≡ (if result then listed self.old ++ (item ∷ []) else listed self.old) }
        ensures spare { spare self.new ≡ (if result then drop 1 (spare self.old) else spare self.old) }
    {
        if self.count == N {
            return false;
        }
        self.items[self.count] = item;
        self.count += 1;
        true
    }
}
