// The formats of tables and witnesses. What bytes say, which tests they pass and how they are written are definitions (in
// specs/); the readers that are proved against them stand in the crate above.
#![tactic(auto)]

ghost use Rattle.std.specs.Prelude.{ℕ};
ghost use Rattle.formats.specs.Writing.{AreBytes};

// What the type of the bytes says of each, in the words of the definitions: it is below 256. Nothing is computed.
pub fn bytes_fit(bytes: &[u8])
    ensures { AreBytes bytes.now }
{
    for byte in bytes {
        let _seen = *byte;
    }
}
