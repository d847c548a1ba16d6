// The rows of a table and of a witness at a point: the first that is not met.
ghost use Rattle.std.specs.Prelude.{◌≡◌, ℕ, ◌<◌, ◌≤◌, not, length, position, IfSome};
ghost use Rattle.obligations.specs.Unmet.{FirstUnmet};
ghost use Rattle.records.specs.Bounded.{plain_list};
ghost use Rattle.records.specs.Records.{row_of, heading_of, transition_of, place_record_of, inner_of};
ghost use Rattle.semantics.specs.Plans.{meets};

use records::{BoundedList, Heading, Inner, Place, Transition};
use rows::{Point, WrittenRow};

// Whether the point meets a row, said by an equation: the searches ask for one, and `is_met` says it by a relation.
pub(crate) fn meets(point: &Point, row: &WrittenRow) -> bool
    ensures { result ≡ meets point.now.values (row_of row.now) }
{
    row.is_met(point)
}

// The place of the first row that the point does not meet.
// Apart from `first_unmet`, whose cast to `u8` asks for the bound that is shown here.
fn place_of_unmet(rows: &[WrittenRow], point: &Point) -> Option<usize>
    ensures value { result ≡ position (λ row. not (meets point.now.values (row_of row))) rows.now }
    ensures bound { IfSome result (λ place. place < length rows.now) }
{
    rows.iter().position(|row| !meets(point, row))
}

// The index of the first row that the point does not meet; none where it meets all.
fn first_unmet<const N: usize>(rows: &BoundedList<WrittenRow, N>, point: &Point) -> Option<u8>
    requires { N ≤ 256 }
    ensures { FirstUnmet point.now.values (plain_list row_of rows.now) result }
{
    place_of_unmet(rows.as_slice(), point).map(|place| place as u8)
}

// The first initial row of a table that the point does not meet.
// One function for each kind of record: each names the rows that its contract speaks of.
pub fn initial_unmet(heading: &Heading, point: &Point) -> Option<u8>
    ensures { FirstUnmet point.now.values (heading_of heading.now).initial result }
{
    first_unmet(&heading.initial, point)
}

// The first guard row of a transition that the point does not meet.
pub fn guard_unmet(transition: &Transition, point: &Point) -> Option<u8>
    ensures { FirstUnmet point.now.values (transition_of transition.now).guard result }
{
    first_unmet(&transition.guard, point)
}

// The first row of the condition of a listed place that the point does not meet.
pub fn condition_unmet(place: &Place, point: &Point) -> Option<u8>
    ensures { FirstUnmet point.now.values (place_record_of place.now).condition result }
{
    first_unmet(&place.condition, point)
}

// The first restriction row of an inner transition that the point does not meet.
pub fn restriction_unmet(inner: &Inner, point: &Point) -> Option<u8>
    ensures { FirstUnmet point.now.values (inner_of inner.now).restrictions result }
{
    first_unmet(&inner.restrictions, point)
}
