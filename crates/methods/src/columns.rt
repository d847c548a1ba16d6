// Tests on the columns of rows.
ghost use Rattle.std.specs.Prelude.{◌≡◌, ◌<◌, IfSome};
ghost use Rattle.rows.specs.Faults.{unless_found};
ghost use Rattle.rows.specs.Limits.{columns};
ghost use Rattle.rows.specs.declared.fault.FaultKind.TheVariants.{ColumnDiffers};

use rows::{Answer, Fault, FaultKind};

// Whether no column differs, by the lowest that does: that one is the fault.
// It takes what was found and not the test of a column, since of a test that is handed in no search shows what `find` gives.
pub(crate) fn none_differs(first: Option<usize>) -> Answer
    requires { IfSome first (λ column. column < columns) }
    ensures { result ≡ unless_found ColumnDiffers first }
{
    first.map_or(Ok(()), |column| {
        Err(Fault::with_item(FaultKind::ColumnDiffers, column as u8))
    })
}
