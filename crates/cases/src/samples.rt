// The worked examples. There is nothing to run: each contract is the theorem.
ghost use Rattle.cases.specs.Samples.{WorkedCalls, WorkedDossiers};

// Verdict and unroll on the sample, with its four obligations shown.
pub fn calls_worked()
    ensures { WorkedCalls }
{}

// The two sample dossiers, and three changes of the first.
pub fn dossiers_worked()
    ensures { WorkedDossiers }
{}
