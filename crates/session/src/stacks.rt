// Methods chosen at run time, each a method itself: a base by its name, and at most one layer over any method.
ghost use Rattle.session.specs.Chosen.{base_says, base_lawful, layered_says, layered_lawful, base_named, layer_over, stack_says};
ghost use Rattle.std.specs.Prelude.{◌≡◌};

use commands::{Base, Layer, Stack};
use methods::{Claim, Cut, LookUp, Multipliers, ProofMethod, Split};
use rows::{Answer, Numbers};

// A method that stands alone. An enum and no dyn value, since none may be made here and handed out.
#[derive(Clone, Copy)]
pub enum BaseMethod {
    Multipliers(Multipliers),
    LookUp(LookUp),
}

impl ProofMethod for BaseMethod {
    ghost meaning = { base_says };

    ghost lawful = { base_lawful };

    fn question(&self, sheet: &mut [Numbers], claim: Claim<'_>) -> Answer {
        match self {
            BaseMethod::Multipliers(method) => method.question(sheet, claim),
            BaseMethod::LookUp(method) => method.question(sheet, claim),
        }
    }
}

// A method with no layer over it, or with one. It adds neither depth nor offset. An enum and no dyn value, since none may be made here and handed out.
#[derive(Clone, Copy)]
pub enum Layered<M> {
    Bare(M),
    Cut(Cut<M>),
    Split(Split<M>),
}

impl<M: ProofMethod> ProofMethod for Layered<M> {
    ghost meaning = { layered_says M.ProofMethod.meaning };

    ghost lawful = { layered_lawful M.ProofMethod.meaning M.ProofMethod.lawful };

    fn question(&self, sheet: &mut [Numbers], claim: Claim<'_>) -> Answer {
        match self {
            Layered::Bare(method) => method.question(sheet, claim),
            Layered::Cut(cut) => cut.question(sheet, claim),
            Layered::Split(split) => split.question(sheet, claim),
        }
    }
}

// Any stack that a line can name: a base with at most two layers over it.
pub type Stacked = Layered<Layered<BaseMethod>>;

// The base of a name.
fn base_method(base: Base) -> BaseMethod
    ensures { base_says result ≡ base_named base }
{
    match base {
        Base::Multipliers => BaseMethod::Multipliers(Multipliers),
        Base::LookUp => BaseMethod::LookUp(LookUp),
    }
}

// The layer of a name over a method.
fn with_layer<M>(layer: Layer, below: M) -> Layered<M>
    ensures { result ≡ layer_over layer below }
{
    match layer {
        Layer::Cut => Layered::Cut(Cut { below }),
        Layer::Split => Layered::Split(Split { below }),
    }
}

// The stack of a name. Its meaning is that of the layers named, over the base named.
pub fn named_stack(stack: Stack) -> Stacked
    ensures { layered_says (layered_says base_says) result ≡ stack_says stack }
{
    match stack {
        Stack::Bare(base) => Layered::Bare(Layered::Bare(base_method(base))),
        Stack::Single(layer, base) => Layered::Bare(with_layer(layer, base_method(base))),
        Stack::Double(top, layer, base) => with_layer(top, with_layer(layer, base_method(base))),
    }
}
