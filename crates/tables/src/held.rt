// A table that was read.
ghost use Rattle.formats.specs.Tables.{table_says};
ghost use Rattle.std.specs.Prelude.{◌≡◌, true, is_ok};

// The bytes of a table.
#[derive(Drop)]
pub struct HeldTable {
    bytes: Vec<u8>,
    ghost readable: { is_ok (table_says bytes.items) ≡ true },
}

pub mod methods;
