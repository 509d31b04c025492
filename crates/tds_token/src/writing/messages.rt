//! INFO and ERROR. At want of memory a part may stand behind what was there.

ghost use Rattle.std.specs.Prelude.{◌≡◌, ◌++◌, ◌∷◌, [], OnOk, OnErr};
ghost use Rattle.std.specs.Int.{w16, to_le_bytes};
ghost use Rattle.tds_token.specs.Layout.{FitsMessage, IsInt, RangedMessage, int_bytes, message_inside, sized};
ghost use Rattle.tds_token.specs.Vectors.{IsKept};

use crate::message::Message;
use crate::writing::fields::{put_int, put_long, put_short};
use std::alloc::AllocError;

/// A message behind this token byte and its Length (MS-TDS 2.2.7.10, 2.2.7.13).
pub(crate) fn put_message(out: &mut Vec<u8>, kind: u8, message: &Message) -> Result<(), AllocError>
    requires { FitsMessage message.now }
    ensures ok { OnOk result (out.new.items
        ≡ out.old.items ++ kind ∷ sized (message_inside message.now)) }
    ensures ranged { OnOk result (RangedMessage message.now) }
    ensures kept { IsKept out.old.items out.new.items }
{
    let units = message.text.units().len()
        + message.server.units().len()
        + message.procedure.units().len();
    put_head(out, kind, (14 + 2 * units) as u16, message)?;
    put_long(out, &message.text)?;
    put_short(out, &message.server)?;
    put_short(out, &message.procedure)?;
    put_line(out, message)
}

/// What stands before the text.
fn put_head(out: &mut Vec<u8>, kind: u8, length: u16, message: &Message) -> Result<(), AllocError>
    ensures ok { OnOk result (out.new.items ≡ out.old.items ++ kind ∷ (to_le_bytes w16 length
        ++ (int_bytes message.now.number ++ message.now.state ∷ message.now.class ∷ []))) }
    ensures number { IsInt message.now.number }
    ensures err { OnErr result (out.new.items ≡ out.old.items) }
{
    let l = length.to_le_bytes();
    let n = message.number.to_le_bytes();
    out.extend_from_slice(&[
        kind,
        l[0],
        l[1],
        n[0],
        n[1],
        n[2],
        n[3],
        message.state,
        message.class,
    ])
}

/// What stands behind the texts.
fn put_line(out: &mut Vec<u8>, message: &Message) -> Result<(), AllocError>
    ensures ok { OnOk result (out.new.items ≡ out.old.items ++ int_bytes message.now.line) }
    ensures kept { IsKept out.old.items out.new.items }
    ensures line { IsInt message.now.line }
{
    put_int(out, message.line)
}
