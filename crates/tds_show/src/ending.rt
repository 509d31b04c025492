//! What is told on the error output where a text doesn't go out whole.
ghost use Rattle.std.specs.Prelude.{◌≡◌, ◌⊎◌};
ghost use Rattle.tds_text.specs.Written.{WritesBeginning};
ghost use Rattle.tds_show.specs.Runs.{fault_line};

use std::io::Write;
use tds_text::{RenderFault, write_whole};

/// The exit status of a run whose text went out, or didn't. Where it didn't, a line says why.
pub(crate) fn status_of<F: Write>(written: Result<bool, RenderFault>, errors: &mut F) -> u8
    ensures status { (result ≡ 0) ⊎ (result ≡ 1) }
    ensures silent { result ≡ 0 → F.contents errors.new ≡ F.contents errors.old }
{
    match written {
        Ok(true) => 0,
        Ok(false) => 1,
        Err(fault) => {
            tell(&fault, errors);
            1
        }
    }
}

/// Writes the line about what kept the text from going out whole.
pub(crate) fn tell<F: Write>(fault: &RenderFault, errors: &mut F)
    ensures { WritesBeginning (F.contents errors.old) (F.contents errors.new)
        (fault_line fault.now) }
{
    let line = match fault {
        RenderFault::Write => "error: output\n",
        RenderFault::Memory => "error: memory\n",
    };
    // Where this fails too, there is nobody to tell.
    let _ = write_whole(errors, line);
}
