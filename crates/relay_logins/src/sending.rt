//! How a login is sent.
ghost use Rattle.std.specs.Prelude.{◌≡◌, ◌++◌, ◌≤◌, OnOk, length};
ghost use Rattle.relay_logins.specs.Sending.{login_packets, packet, status_before};

use std::alloc::AllocError;

/// LOGIN7's packet type, and how many bytes of data a packet has before a size is agreed.
const LOGIN7: u8 = 0x10;

const ROOM: usize = 4_088;

/// Appends LOGIN7 in packets.
pub(crate) fn put_login(out: &mut Vec<u8>, message: &[u8]) -> Result<(), AllocError>
    ensures { OnOk result (out.new.items ≡ out.old.items ++ login_packets message.now) }
{
    let mut rest = message;
    while !rest.is_empty() {
        let (data, others) = rest.split_at(ROOM.min(rest.len()));
        put_packet(out, status_before(rest), data)?;
        rest = others;
    }
    Ok(())
}

/// The status of a packet that begins with the first of these bytes: it ends the message where it has room for all.
fn status_before(rest: &[u8]) -> u8
    ensures { result ≡ status_before rest.now }
{
    if rest.len() > ROOM { 0 } else { 1 }
}

/// Appends one packet.
fn put_packet(out: &mut Vec<u8>, status: u8, data: &[u8]) -> Result<(), AllocError>
    requires { length «data».now ≤ 4088 }
    ensures { OnOk result (out.new.items ≡ out.old.items ++ packet status «data».now) }
{
    let [high, low] = ((data.len() + 8) as u16).to_be_bytes();
    out.extend_from_slice(&[LOGIN7, status, high, low, 0, 0, 1, 0])?;
    out.extend_from_slice(data)
}
