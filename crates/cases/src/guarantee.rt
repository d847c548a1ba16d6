// What an accepted verdict promises. There is nothing to run: the contract is the theorem.
ghost use Rattle.cases.specs.Promises.{Guarantee};

// Whatever calls a case was worked by: after an accepted verdict the present state is reached by a run from an initial one and the
// plan's runs go on without end; every run that keeps the restrictions stays among inner transitions and can be prolonged; and the
// verdict is accepted exactly where the calls are ready for it.
pub fn verdicts_keep_their_promise()
    ensures { Guarantee }
{}
