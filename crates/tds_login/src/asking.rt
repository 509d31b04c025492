//! What a client sends and hears at a login.

ghost use Rattle.std.specs.Prelude.{◌≡◌, ◌++◌, OnOk, OnErr};
ghost use Rattle.tds_login.specs.Asking.{login_of};

use crate::NoMemory;
use byteorder::{ByteOrder, LittleEndian};
use tds_packet::PacketSize;

/// Appends LOGIN7 of a client without a name that asks for packets of this size (MS-TDS 2.2.6.4), in one
/// packet. At want of memory nothing is appended.
pub fn put_login(out: &mut Vec<u8>, size: PacketSize) -> Result<(), NoMemory>
    ensures ok { OnOk result (out.new.items ≡ out.old.items ++ login_of size) }
    ensures err { OnErr result (out.new.items ≡ out.old.items) }
{
    let [a, b, c, d] = u32::from(size.get()).to_le_bytes();
    out.extend_from_slice(&[
        0x10, 1, 0, 102, 0, 0, 1, 0, // header: type 10, end of message, 102 bytes (MS-TDS 2.2.3.1)
        94, 0, 0, 0, 4, 0, 0, 0x74, a, b, c, d, // length, TDS 7.4, the packet size
        0, 0, 0, 0, 0, 0, 0, 0, 0, 0, 0, 0, 0, 0, 0, 0, 0, 0, 0, 0, 0, 0, 0, 0, //
        // Nine texts, the client's address, and three texts, each empty and behind the 94 bytes.
        94, 0, 0, 0, 94, 0, 0, 0, 94, 0, 0, 0, 94, 0, 0, 0, 94, 0, 0, 0, //
        94, 0, 0, 0, 94, 0, 0, 0, 94, 0, 0, 0, 94, 0, 0, 0, //
        0, 0, 0, 0, 0, 0, //
        94, 0, 0, 0, 94, 0, 0, 0, 94, 0, 0, 0, //
        0, 0, 0, 0,
    ])
}

/// Whether the data of a login's answer let the client in: they have LOGINACK (MS-TDS 2.2.7.14) among
/// the tokens before DONE.
pub fn is_let_in(data: &[u8]) -> bool {
    let mut rest = data;
    for _ in 0..data.len() {
        match rest {
            [0xad, ..] => return true,
            [0xaa | 0xab | 0xe3, low, high, after @ ..] => {
                let count = usize::from(LittleEndian::read_u16(&[*low, *high]));
                let Some(next) = after.get(count..) else {
                    return false;
                };
                rest = next;
            }
            _ => return false,
        }
    }
    false
}
