// The law of unroll. There is nothing to run: the contract is the theorem.
ghost use Rattle.cases.specs.Unrolls.{UnrollsAsPlanned};

// Unrolling writes the states of the plan's run, for the greatest number of steps that stay within the limit.
pub fn unrolled_as_planned()
    ensures { UnrollsAsPlanned }
{}
