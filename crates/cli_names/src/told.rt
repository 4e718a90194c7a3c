//! How it comes out that an advice is written.

ghost use Rattle.std.specs.Prelude.{◌≡◌};
ghost use Rattle.cli_names.specs.Steps.{told};

use crate::fault::AdviceFault;
use io_text::WriteFault;

/// That an advice was told, unless the writer failed.
pub(crate) fn told(written: Result<(), WriteFault>) -> Result<bool, AdviceFault>
    ensures { result ≡ told written }
{
    match written {
        Ok(()) => Ok(true),
        Err(_) => Err(AdviceFault::Write),
    }
}
