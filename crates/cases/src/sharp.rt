// Where the promises fail. There is nothing to run: the contract is the theorem.
ghost use Rattle.cases.specs.Sharp.{SharpPromises};

// Tables, witnesses and calls of which a promise does not hold, so that leaving a part of it out would be noticed.
pub fn promises_are_sharp()
    ensures { SharpPromises }
{}
