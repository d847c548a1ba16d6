// The worked examples. There is nothing to run: the contract is the theorem.
ghost use Rattle.semantics.specs.Samples.{WorkedSteps};

// An update that exchanges two values, a plan with two tests, and the obligations of that plan.
pub fn steps_worked()
    ensures { WorkedSteps }
{}
