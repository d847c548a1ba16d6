// The values of a state and the choices of a step, and the points that they are.
ghost use Rattle.std.specs.Prelude.{◌≡◌};
ghost use Rattle.records.specs.Limits.{most_values, most_choices};
ghost use Rattle.rows.specs.Limits.{magnitude_of};
ghost use Rattle.rows.specs.Points.{WithinFirst};
ghost use Rattle.rows.specs.declared.limits.Limit.TheVariants.{StateValue};
ghost use Rattle.semantics.specs.Vectors.{at_rest, point_of};

use records::limits::{MOST_CHOICES, MOST_VALUES};
use rows::limits::COLUMNS;
use rows::{Point, Values};

// The values of a state, and the choices of a step.
pub type State = Values<MOST_VALUES>;

pub type Choices = Values<MOST_CHOICES>;

// The point of a state alone, its choices zero.
pub fn at_rest(state: &State) -> Point
    ensures { result.values ≡ at_rest state.now.values }
{
    let no_choices = Values::new([0; MOST_CHOICES]).unwrap();
    joined(state, &no_choices)
}

// The point of a state and of choices.
// It hands both on: so a wrong part is a goal of its own, apart from how the two are laid into one array.
pub fn point_of(state: &State, choices: &Choices) -> Point
    ensures { result.values ≡ point_of state.now.values choices.now.values }
{
    joined(state, choices)
}

// The values and behind them the choices, as one point.
fn joined(state: &State, choices: &Choices) -> Point
    ensures { result.values ≡ point_of state.now.values choices.now.values }
{
    let mut all = [0; COLUMNS];
    all[..MOST_VALUES].copy_from_slice(&state.values());
    all[MOST_VALUES..].copy_from_slice(&choices.values());
    Point::new(all).unwrap()
}
