// The worked examples, as one theorem about the definitions.
#![tactic(auto)]

ghost use Rattle.examples.specs.WorkedExamples.{WorkedExamples};
ghost use Rattle.std.specs.Prelude.{◌≡◌};

// The theorem, with nothing to run. It is apart so that leaving it out is refused at the public function.
fn theorem()
    ensures { WorkedExamples }
{}

// Every worked example holds: the contract is the theorem. The number says nothing more: it was promised, and stays.
pub fn worked_examples_hold() -> u8
    ensures value { result ≡ 0 }
    ensures hold { WorkedExamples }
{
    theorem();
    0
}
