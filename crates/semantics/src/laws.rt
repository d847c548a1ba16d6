// The laws of tables and witnesses. There is nothing to run: each contract is the theorem.
ghost use Rattle.semantics.specs.Laws.{UpdatesCarry, ChoicesCarry, FactsAdd, ObligationsAgree, ObligationsSustain, PlansRun, RunsClosed};

// A row's goal is met before a transition exactly where the row is met after it.
pub fn updates_carry()
    ensures { UpdatesCarry }
{}

// A row's goal is met by a state exactly where the row is met with the choices of the witness.
pub fn choices_carry()
    ensures { ChoicesCarry }
{}

// What follows from facts follows from more of them.
pub fn facts_add()
    ensures { FactsAdd }
{}

// The obligations that are computed are those of the relation.
pub fn obligations_agree()
    ensures { ObligationsAgree }
{}

// Where all obligations hold, inner steps carry the conditions along, no other step can be made, and the plan's can.
pub fn obligations_sustain()
    ensures { ObligationsSustain }
{}

// Where all obligations hold, the plan makes any number of steps, each run a step more than the one before.
pub fn plans_run()
    ensures { PlansRun }
{}

// Where all obligations hold, a run that keeps the restrictions has inner steps alone, and can be prolonged by one that keeps them.
pub fn runs_closed()
    ensures { RunsClosed }
{}
