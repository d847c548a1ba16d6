// What an accepted dossier means. There is nothing to run: the contract is the theorem.
ghost use Rattle.cases.specs.Dossiers.{AcceptedDossiers};

// An accepted dossier is a case, worked by calls on the table and the witness in it, whose verdict is accepted.
pub fn accepted_dossiers()
    ensures { AcceptedDossiers }
{}
