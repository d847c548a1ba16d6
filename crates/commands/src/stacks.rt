// Stacks of proof methods as they are written.
ghost use Rattle.commands.specs.Stacks.{base_of, layer_of, over, slash, stacked, stack_of, StacksRead};
ghost use Rattle.words.specs.Words.{pieces};
ghost use Rattle.std.specs.Prelude.{◌≡◌, Some};

// A method that stands alone.
#[derive(Clone, Copy, PartialEq, Eq, Debug)]
pub enum Base {
    Multipliers,
    LookUp,
}

// A method over another one.
#[derive(Clone, Copy, PartialEq, Eq, Debug)]
pub enum Layer {
    Cut,
    Split,
}

// A base with at most two layers over it, top first. No list of layers: the type itself holds at most two.
#[derive(Clone, Copy, PartialEq, Eq, Debug)]
pub enum Stack {
    Bare(Base),
    Single(Layer, Base),
    Double(Layer, Layer, Base),
}

impl Base {
    // The base of that name. No FromStr: Stack::read answers an Option, and the parser says which error an unknown name is.
    #[tactic(auto, using(crate::proofs::Parsing::unlike))]
    fn read(name: &str) -> Option<Base>
        ensures { result ≡ base_of name.now }
    {
        match name {
            "multipliers" => Some(Base::Multipliers),
            "look-up" => Some(Base::LookUp),
            _ => None,
        }
    }
}

impl Layer {
    // The layer of that name. No FromStr: Stack::read answers an Option, and the parser says which error an unknown name is.
    #[tactic(auto, using(crate::proofs::Parsing::unlike))]
    fn read(name: &str) -> Option<Layer>
        ensures { result ≡ layer_of name.now }
    {
        match name {
            "cut" => Some(Layer::Cut),
            "split" => Some(Layer::Split),
            _ => None,
        }
    }
}

impl Stack {
    // The stack with a layer on top, if it has room.
    fn under(self, top: Layer) -> Option<Stack>
        ensures { result ≡ over (Some top) (Some self) }
    {
        match self {
            Stack::Bare(base) => Some(Stack::Single(top, base)),
            Stack::Single(layer, base) => Some(Stack::Double(top, layer, base)),
            Stack::Double(_, _, _) => None,
        }
    }

    // The stack of at most so many layers that a word writes.
    fn at_most(layers: usize, word: &str) -> Option<Stack>
        ensures { result ≡ stacked layers (pieces slash word.now) }
    {
        let Some((top, below)) = word.split_once('/') else {
            return Some(Stack::Bare(Base::read(word)?));
        };
        let below = Stack::at_most(layers.checked_sub(1)?, below)?;
        below.under(Layer::read(top)?)
    }

    // The stack that a word writes, if it writes one: names, top first, with a slash between.
    // No FromStr: this is public and answers an Option; the parser, which knows where the word stands, says which error it is.
    pub fn read(word: &str) -> Option<Stack>
        ensures value { result ≡ stack_of word.now }
        ensures law { StacksRead }
    {
        Stack::at_most(2, word)
    }
}
