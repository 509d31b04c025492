ghost use Rattle.std.specs.Prelude.{◌≡◌, ◌+◌, ◌*◌, ◌≤◌, ◌<◌, ◌^◌, ◌++◌, OnOk, OnErr, length, take, false};
ghost use Rattle.tds_packet.specs.Layout.{bits_of};
ghost use Rattle.tds_packet.specs.Resets.{mark_bit};
ghost use Rattle.tds_packet.specs.Sent.{end_bit};
ghost use Rattle.tds_client.specs.Packets.{packet_bytes, stop_bytes, ignore};
ghost use Rattle.tds_client.specs.Streams.{ended_by, full_packets, packets_of};

use crate::NoMemory;
use tds_packet::{Kind, Reset, Status, put_sent, sent_header};

/// Appends a packet that stands behind `before` others of its message. At want of memory nothing is
/// appended.
pub(crate) fn put(
    out: &mut Vec<u8>,
    kind: Kind,
    status: Status,
    before: usize,
    data: &[u8],
) -> Result<(), NoMemory>
    requires length { length «data».now ≤ 32759 }
    requires before { before < 2 ^ 63 }
    ensures ok { OnOk result
        (out.new.items ≡ out.old.items ++ packet_bytes kind (bits_of status) before «data».now) }
    ensures err { OnErr result (out.new.items ≡ out.old.items) }
{
    put_sent(out, kind, status, ((before + 1) % 256) as u8, data)
}

/// The header of a packet with these data that stands behind `before` others of its message.
#[inline(always)]
pub(crate) fn header(kind: Kind, status: Status, before: usize, data: &[u8]) -> [u8; 8]
    requires length { length «data».now ≤ 32759 }
    requires before { before < 2 ^ 63 }
    ensures { result ++ «data».now ≡ packet_bytes kind (bits_of status) before «data».now }
{
    sent_header(kind, status, ((before + 1) % 256) as u8, data)
}

/// The header of a packet that isn't the last one of its message, behind `before` others. Its data
/// are two runs of bytes, one behind the other.
#[inline(always)]
pub(crate) fn full_header(
    kind: Kind,
    mark: Option<Reset>,
    before: usize,
    front: &[u8],
    rest: &[u8],
) -> [u8; 8]
    requires length { length front.now + length rest.now ≤ 32759 }
    requires before { before < 2 ^ 63 }
    ensures { result ++ (front.now ++ rest.now)
        ≡ packet_bytes kind (end_bit false + mark_bit before mark) before (front.now ++ rest.now) }
{
    let length = 8 + front.len() + rest.len();
    let id = ((before + 1) % 256) as u8;
    [
        kind.byte(),
        mark_bits(before, mark),
        (length / 256) as u8,
        (length % 256) as u8,
        0,
        0,
        id,
        0,
    ]
}

/// The bit of the reset that a message asks for, in its first packet (MS-TDS 2.2.3.1.2).
#[inline(always)]
fn mark_bits(before: usize, mark: Option<Reset>) -> u8
    ensures value { result ≡ end_bit false + mark_bit before mark }
    ensures range { end_bit false + mark_bit before mark ≤ 16 }
{
    if before > 0 {
        return 0;
    }
    match mark {
        None => 0,
        Some(Reset::Full) => 8,
        Some(Reset::KeepTransaction) => 16,
    }
}

/// Appends an attention.
pub(crate) fn put_attention(out: &mut Vec<u8>) -> Result<(), NoMemory>
    ensures ok { OnOk result (out.new.items ≡ out.old.items ++ stop_bytes) }
    ensures err { OnErr result (out.new.items ≡ out.old.items) }
{
    put(out, Kind::Attention, Status::of_answer(true), 0, &[])
}

/// Appends a packet that ends a request of which `before` packets are out, and tells the server to
/// ignore it; and an attention.
pub(crate) fn put_ignore_and_attention(
    out: &mut Vec<u8>,
    kind: Kind,
    before: usize,
) -> Result<(), NoMemory>
    requires { before < 2 ^ 63 }
    ensures ok { OnOk result (out.new.items ≡ out.old.items ++ (ignore kind before ++ stop_bytes)) }
    ensures err { OnErr result (out.new.items ≡ out.old.items) }
{
    let length = out.len();
    put(out, kind, Status::to_ignore(), before, &[])?;
    let attention = put_attention(out);
    if attention.is_err() {
        out.truncate(length);
    }
    attention
}

/// How packets of a message are cut and marked.
#[derive(Clone, Copy, Debug)]
pub(crate) struct Filling {
    pub(crate) kind: Kind,
    /// The reset that the message asks for.
    pub(crate) mark: Option<Reset>,
    /// The data of a full packet.
    pub(crate) room: usize,
}

/// Appends so many packets of these bytes, each full, behind `before` others of their message. At
/// want of memory nothing is appended.
pub(crate) fn put_full(
    out: &mut Vec<u8>,
    filling: Filling,
    before: usize,
    count: usize,
    bytes: &[u8],
) -> Result<(), NoMemory>
    requires room { filling.room ≤ 32759 }
    requires whole { count * filling.room ≤ length bytes.now }
    requires before { before + count < 2 ^ 63 }
    ensures ok { OnOk result (out.new.items ≡ out.old.items
        ++ packets_of filling.room filling.kind filling.mark before count bytes.now) }
    ensures err { OnErr result (out.new.items ≡ out.old.items) }
{
    let length = out.len();
    let mut left = bytes;
    let mut before = before;
    let mut count = count;
    'packets: while count > 0 {
        let (data, rest) = left.split_at(filling.room);
        let status = Status::of_request(false, before, filling.mark);
        let full = put(out, filling.kind, status, before, data);
        if full.is_err() {
            out.truncate(length);
            return full;
        }
        left = rest;
        before += 1;
        count -= 1;
    }
    Ok(())
}

/// Appends the packets of these bytes, the last of their message, behind `before` others. Each is
/// full but the last. At want of memory nothing is appended.
pub(crate) fn put_to_end(
    out: &mut Vec<u8>,
    filling: Filling,
    before: usize,
    bytes: &[u8],
) -> Result<(), NoMemory>
    requires room { (1 ≤ filling.room) × (filling.room ≤ 32759) }
    requires before { before + length bytes.now < 2 ^ 63 }
    ensures ok { OnOk result (out.new.items ≡ out.old.items
        ++ ended_by filling.room filling.kind filling.mark before bytes.now) }
    ensures err { OnErr result (out.new.items ≡ out.old.items) }
{
    if bytes.len() <= filling.room {
        return put_last(out, filling, before, bytes);
    }
    put_many(out, filling, before, bytes)
}

/// The same, where they fit in one packet.
#[inline(always)]
fn put_last(
    out: &mut Vec<u8>,
    filling: Filling,
    before: usize,
    bytes: &[u8],
) -> Result<(), NoMemory>
    requires room { (1 ≤ filling.room) × (filling.room ≤ 32759) }
    requires before { before < 2 ^ 63 }
    requires fits { length bytes.now ≤ filling.room }
    ensures ok { OnOk result (out.new.items ≡ out.old.items
        ++ ended_by filling.room filling.kind filling.mark before bytes.now) }
    ensures err { OnErr result (out.new.items ≡ out.old.items) }
{
    let status = Status::of_request(true, before, filling.mark);
    put(out, filling.kind, status, before, bytes)
}

/// The same, whether or not they fit in one. It isn't put into its caller, where it would be in the way of
/// the one.
#[inline(never)]
fn put_many(
    out: &mut Vec<u8>,
    filling: Filling,
    before: usize,
    bytes: &[u8],
) -> Result<(), NoMemory>
    requires room { (1 ≤ filling.room) × (filling.room ≤ 32759) }
    requires before { before + length bytes.now < 2 ^ 63 }
    ensures ok { OnOk result (out.new.items ≡ out.old.items
        ++ ended_by filling.room filling.kind filling.mark before bytes.now) }
    ensures err { OnErr result (out.new.items ≡ out.old.items) }
{
    let length = out.len();
    let count = full_packets(filling.room, bytes.len());
    put_full(out, filling, before, count, bytes)?;
    let status = Status::of_request(true, before + count, filling.mark);
    let last = &bytes[count * filling.room..];
    let ended = put(out, filling.kind, status, before + count, last);
    if ended.is_err() {
        out.truncate(length);
    }
    ended
}

/// Appends full packets of two runs of bytes, so many of each, one behind the other. At want of
/// memory nothing is appended.
pub(crate) fn put_both(
    out: &mut Vec<u8>,
    filling: Filling,
    before: usize,
    first: usize,
    begun: &[u8],
    count: usize,
    rest: &[u8],
) -> Result<(), NoMemory>
    requires room { filling.room ≤ 32759 }
    requires begun { first * filling.room ≤ length begun.now }
    requires rest { count * filling.room ≤ length rest.now }
    requires before { before + first + count < 2 ^ 63 }
    ensures ok { OnOk result (out.new.items ≡ out.old.items
        ++ (packets_of filling.room filling.kind filling.mark before first begun.now
        ++ packets_of filling.room filling.kind filling.mark (before + first) count rest.now)) }
    ensures err { OnErr result (out.new.items ≡ out.old.items) }
{
    let length = out.len();
    put_full(out, filling, before, first, begun)?;
    let behind = put_full(out, filling, before + first, count, rest);
    if behind.is_err() {
        out.truncate(length);
    }
    behind
}

/// How many packets so many bytes fill, where a byte stands behind each.
pub(crate) fn full_packets(room: usize, bytes: usize) -> usize
    requires { 1 ≤ room }
    ensures value { result ≡ full_packets room bytes }
    ensures whole { result * room ≤ bytes }
    ensures rest { bytes ≤ result * room + room }
    ensures few { result ≤ bytes }
    ensures least { result ≤ result * room }
{
    bytes.saturating_sub(1) / room
}

/// How many packets so many bytes fill or begin.
pub(crate) fn begun_packets(room: usize, bytes: usize) -> usize
    requires room { (1 ≤ room) × (room ≤ 32759) }
    requires bytes { bytes < 2 ^ 63 }
    ensures end { bytes ≤ result * room }
    ensures front { result * room < bytes + room }
    ensures least { result ≤ result * room }
{
    (bytes + (room - 1)) / room
}
