ghost use Rattle.std.specs.Prelude.{IsOkUnless, OnOk, OnErr};
ghost use Rattle.std.specs.Io.KnownBytes.{Appends};
ghost use Rattle.tds_text.specs.Written.{WritesBeginning};

use crate::rendering::fault::RenderFault;
use std::io::Write;

/// Writes a text, by as many calls as it takes. After a fault a beginning of it went out.
pub fn write_whole<W: Write>(writer: &mut W, text: &str) -> Result<(), RenderFault>
    ensures ok { OnOk result (Appends (W.contents writer.old) (W.contents writer.new) text.now) }
    ensures fault { OnErr result
        (WritesBeginning (W.contents writer.old) (W.contents writer.new) text.now) }
    ensures cause { IsOkUnless result RenderFault.Write }
{
    let mut rest = text.as_bytes();
    while !rest.is_empty() {
        match writer.write(rest) {
            Ok(0) | Err(_) => return Err(RenderFault::Write),
            Ok(count) => rest = &rest[count..],
        }
    }
    Ok(())
}
