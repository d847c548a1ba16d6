// A word that writes bytes.
ghost use Rattle.words.specs.Hex.{hex_bytes};
ghost use Rattle.std.specs.Prelude.{◌≡◌, true, is_ok};

// A word that writes bytes: pairs of hexadecimal digits, or a dash alone for no byte.
#[derive(Clone, Copy, PartialEq, Eq, Debug)]
pub struct Hex<'a> {
    word: &'a str,
    ghost writes: { is_ok (hex_bytes word.now) ≡ true },
}

pub mod methods;
