// What a heading says of the rows and expressions of its table.
ghost use Rattle.records.specs.Records.{heading_of, shape_of};
ghost use Rattle.std.specs.Prelude.{◌≡◌};

use crate::heading::Heading;
use crate::shape::Shape;

impl Heading {
    // How many values and choices they speak of.
    pub fn shape(&self) -> Shape
        ensures { result ≡ shape_of (heading_of self.now) }
    {
        Shape {
            values: self.values,
            choices: self.choices,
        }
    }
}
