// Plain numbers in the shape of a row.
ghost use Rattle.std.specs.Prelude.{◌≡◌, ℕ, ◌<◌, find, IfSome};
ghost use Rattle.std.specs.List.{range_with_len};
ghost use Rattle.rows.specs.Firsts.{IsFirst};
ghost use Rattle.rows.specs.Limits.{magnitude_of, items};
ghost use Rattle.rows.specs.Made.{HeldTo, unless_beyond};
ghost use Rattle.rows.specs.Shapes.{item_of, beyond, first_beyond};

use crate::limits::{COLUMNS, ITEMS, Limit};

// Eight coefficients and a bound with no limit but their type's: what stands in a fact sheet or is given as a goal.
#[derive(Clone, Copy, PartialEq, Eq, Debug, Default)]
pub struct Numbers {
    pub coefficients: [i64; COLUMNS],
    pub bound: i64,
}

// The refusal of numbers: the first, by its item, that passes a limit.
#[derive(Clone, Copy, PartialEq, Eq, Debug)]
pub struct TooLarge {
    pub item: u8,
}

impl Numbers {
    // The number of an item: a column's coefficient, else the bound.
    pub fn item(&self, item: usize) -> i64
        ensures { result ≡ item_of self.now item }
    {
        self.coefficients.get(item).copied().unwrap_or(self.bound)
    }

    // The lowest item whose number passes the limit, as an index.
    // Apart from `first_beyond`, so that what it says of its index shows that the index fits a `u8` there.
    fn index_beyond(&self, limit: Limit) -> Option<usize>
        ensures found { result ≡ find (beyond (magnitude_of limit) self.now) (range_with_len 0 items) }
        ensures within { IfSome result (λ item. item < items) }
    {
        (0..ITEMS).find(|item| !limit.admits(self.item(*item)))
    }

    // The lowest item whose number passes the limit.
    pub fn first_beyond(&self, limit: Limit) -> Option<u8>
        ensures value { result ≡ first_beyond (magnitude_of limit) self.now }
        ensures first { IsFirst (beyond (magnitude_of limit) self.now) items result }
    {
        self.index_beyond(limit).map(|item| item as u8)
    }

    // Nothing where every number lies within the limit, else the first that does not.
    pub fn held_to(&self, limit: Limit) -> Result<(), TooLarge>
        ensures value { result ≡ unless_beyond (first_beyond (magnitude_of limit) self.now) }
        ensures first { HeldTo (magnitude_of limit) self.now result }
    {
        self.first_beyond(limit)
            .map_or(Ok(()), |item| Err(TooLarge { item }))
    }
}
