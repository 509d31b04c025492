//! The exports that send any request in parts. What waits for a packet lies in the caller's memory.

ghost use Rattle.std.specs.Prelude.{◌≡◌, ◌+◌, ◌≤◌, ◌<◌, ◌⊎◌, ◌++◌, Result, drop, length, take, true, false};
ghost use Rattle.tds_client.specs.declared.message.MessageKind.{MessageKind};
ghost use Rattle.tds_c.specs.declared.answers.Stop.{Stop};
ghost use Rattle.tds_c.specs.Answers.{done_number, number_of};
ghost use Rattle.tds_c.specs.declared.streams.Putting.{Putting};
ghost use Rattle.tds_c.specs.Calls.{Writes, none_out, with_front};
ghost use Rattle.tds_c.specs.Streams.{Opens, Puts, finishes, headers_by, message_from, opens, put_number};

use crate::answers::{Stop, done_code};
use crate::buffer::{self, put_at};
use crate::client::TdsClient;
use tds_client::{Fill, MessageKind};
use tds_request::headers;

/// The message whose packets have this type.
#[inline(always)]
#[tactic(auto, unfolding(crate::specs::Streams::message_from))]
pub(crate) fn message(number: u8) -> Option<MessageKind>
    ensures { result ≡ message_from number }
{
    match number {
        0x01 => Some(MessageKind::Batch),
        0x03 => Some(MessageKind::Procedure),
        0x07 => Some(MessageKind::BulkLoad),
        0x0E => Some(MessageKind::Transaction),
        _ => None,
    }
}

/// Writes what the client spells of such a message to the front of a buffer, where it fits. How many
/// bytes these are is told anyway.
#[inline(always)]
fn put_headers(kind: MessageKind, descriptor: u64, kept: &mut [u8], count: &mut usize) -> bool
    ensures count { count.new ≡ length (headers_by kind descriptor) }
    ensures done { result ≡ true → kept.new ≡ with_front (headers_by kind descriptor) kept.old }
    ensures room { result ≡ false → (length kept.old < count.new) × (kept.new ≡ kept.old) }
{
    if kind.has_headers() {
        return buffer::put(&headers(descriptor), kept, count);
    }
    buffer::put(&[], kept, count)
}

/// Begins a message of this kind. Its headers are written to the front of the caller's buffer.
#[inline(always)]
fn open(
    client: &mut TdsClient,
    kind: MessageKind,
    kept: &mut [u8],
    count: &mut usize,
) -> Result<(), Stop>
    ensures { Writes (opens client.old kind) none_out client.old client.new
        (record { before = kept.old; after = kept.new; count = count.new }) result }
{
    *count = 0;
    let Some(mut parts) = client.held(&[]) else {
        return Err(Stop::NoClient);
    };
    let descriptor = match parts.start_message(kind) {
        Ok(descriptor) => descriptor,
        Err(refusal) => return Err(Stop::Refused(refusal)),
    };
    if !put_headers(kind, descriptor, kept, count) {
        return Err(Stop::NoRoom);
    }
    *client = TdsClient::of(&parts, 0);
    Ok(())
}

#[inline(always)]
fn start_message(
    client: &mut TdsClient,
    number: u8,
    kept: &mut [u8],
    count: &mut usize,
) -> Result<(), Stop>
    ensures { Opens (message_from number) client.old client.new
        (record { before = kept.old; after = kept.new; count = count.new }) result }
{
    *count = 0;
    match message(number) {
        Some(kind) => open(client, kind, kept, count),
        None => Err(Stop::OutOfRange),
    }
}

/// Ends the message: the last packet is written to the front of the caller's buffer.
#[inline(always)]
fn finish(
    client: &mut TdsClient,
    kept: &[u8],
    out: &mut [u8],
    count: &mut usize,
) -> Result<(), Stop>
    ensures { Writes (finishes client.old kept.now) none_out client.old client.new
        (record { before = out.old; after = out.new; count = count.new }) result }
{
    *count = 0;
    let Some(mut parts) = client.keeps(kept) else {
        return Err(Stop::NoClient);
    };
    let header = match parts.finish(kept) {
        Ok(header) => header,
        Err(refusal) => return Err(Stop::Refused(refusal)),
    };
    *count = 8 + kept.len();
    if *count > out.len() {
        return Err(Stop::NoRoom);
    }
    put_at(out, 0, &header);
    put_at(out, 8, kept);
    *client = TdsClient::of(&parts, 0);
    Ok(())
}

/// What became of bytes that were put.
#[derive(Clone, Copy)]
pub(crate) enum Putting {
    /// 0: all of them wait.
    All,
    /// 1: a packet is full. Those behind the ones that were taken are to be put again.
    Packet,
}

/// 0 or 1, or why not.
#[inline(always)]
fn put_code(answer: Result<Putting, Stop>) -> u8
    ensures { result ≡ number_of put_number answer }
{
    match answer {
        Ok(Putting::All) => 0,
        Ok(Putting::Packet) => 1,
        Err(stop) => stop.number(),
    }
}

/// Puts bytes behind those that wait.
#[inline(always)]
fn keep(kept: &mut [u8], waiting: usize, bytes: &[u8])
    requires room { waiting + length bytes.now ≤ length kept.old }
    ensures { kept.new ≡ with_front (take waiting kept.old ++ bytes.now) kept.old }
{
    put_at(kept, waiting, bytes);
}

/// Writes a full packet: this header, what waits and these first bytes. The byte behind them waits
/// now.
#[inline(always)]
fn write_full(
    kept: &mut [u8],
    waiting: usize,
    header: [u8; 8],
    end: usize,
    bytes: &[u8],
    out: &mut [u8],
)
    requires header { length header ≡ 8 }
    requires waiting { (1 ≤ length kept.old) × (waiting ≤ length kept.old) }
    requires over { end < length bytes.now }
    requires room { 8 + waiting + end ≤ length out.old }
    ensures written { out.new
        ≡ with_front (header ++ (take waiting kept.old ++ take end bytes.now)) out.old }
    ensures kept { kept.new ≡ with_front (take 1 (drop end bytes.now)) kept.old }
{
    put_at(out, 0, &header);
    put_at(out, 8, &kept[..waiting]);
    put_at(out, 8 + waiting, &bytes[..end]);
    put_at(kept, 0, &bytes[end..end + 1]);
}

/// Whether there is room for a packet of this size, and for its data.
#[inline(always)]
fn has_room(size: usize, kept: &[u8], out: &[u8]) -> bool
    ensures yes { result ≡ true → (size ≤ length out.now) × (size ≤ length kept.now + 8) }
    ensures no { result ≡ false → (length out.now < size) ⊎ (length kept.now + 8 < size) }
{
    size <= out.len() && size <= kept.len() + 8
}

/// Puts as many of these bytes as end one packet at most. It is written to the caller's buffer.
#[inline(always)]
fn put(
    client: &mut TdsClient,
    kept: &mut [u8],
    waiting: &mut usize,
    bytes: &[u8],
    taken: &mut usize,
    out: &mut [u8],
    count: &mut usize,
) -> Result<Putting, Stop>
    ensures { Puts client.old client.new (record {
      before = kept.old;
      after = kept.new;
      waiting = waiting.old;
      waits = waiting.new;
    }) bytes.now taken.new
        (record { before = out.old; after = out.new; count = count.new }) result }
{
    *taken = 0;
    *count = 0;
    let before = *waiting;
    if before > kept.len() {
        return Err(Stop::NoClient);
    }
    let Some(mut parts) = client.keeps(&kept[..before]) else {
        return Err(Stop::NoClient);
    };
    let size = usize::from(parts.size.get());
    if !has_room(size, kept, out) {
        *count = size;
        return Err(Stop::NoRoom);
    }
    let filled = match parts.put(&kept[..before], bytes) {
        Ok(filled) => filled,
        Err(refusal) => return Err(Stop::Refused(refusal)),
    };
    *client = TdsClient::of(&parts, 0);
    match filled {
        Fill::Kept => {
            keep(kept, before, bytes);
            *waiting = before + bytes.len();
            *taken = bytes.len();
            Ok(Putting::All)
        }
        Fill::Packet { header, end } => {
            write_full(kept, before, header, end, bytes, out);
            *waiting = 1;
            *taken = end + 1;
            *count = size;
            Ok(Putting::Packet)
        }
    }
}

/// Begins a message of any kind (MS-TDS 2.2.1), by the type of its packets: 1 a batch, 3 an RPC, 7
/// a bulk load, 14 a request to the transaction manager. Its headers wait for a packet: they are
/// written to `kept`, and `count` says how many bytes they are.
#[unsafe(no_mangle)]
pub extern "C" fn tds_client_start_message(
    client: &mut TdsClient,
    kind: u8,
    kept: &mut [u8],
    count: &mut usize,
) -> u8
    ensures { (answer : Result (Unit {0}) Stop) × (result ≡ number_of done_number answer)
        × Opens (message_from kind) client.old client.new
        (record { before = kept.old; after = kept.new; count = count.new }) answer }
{
    done_code(start_message(client, kind, kept, count))
}

/// Ends the message of which these bytes wait: its last packet is written to `out`. The client
/// reads the answer then.
#[unsafe(no_mangle)]
pub extern "C" fn tds_client_finish(
    client: &mut TdsClient,
    kept: &[u8],
    out: &mut [u8],
    count: &mut usize,
) -> u8
    ensures { (answer : Result (Unit {0}) Stop) × (result ≡ number_of done_number answer)
        × Writes (finishes client.old kept.now) none_out client.old client.new
        (record { before = out.old; after = out.new; count = count.new }) answer }
{
    done_code(finish(client, kept, out, count))
}

/// Puts bytes of the message's body behind those that wait in `kept`. 0: all of them wait now. 1: a
/// packet was written to `out`, and those behind the ones that were taken are to be put again.
#[unsafe(no_mangle)]
pub extern "C" fn tds_client_put(
    client: &mut TdsClient,
    kept: &mut [u8],
    waiting: &mut usize,
    bytes: &[u8],
    taken: &mut usize,
    out: &mut [u8],
    count: &mut usize,
) -> u8
    ensures { (answer : Result Putting Stop) × (result ≡ number_of put_number answer)
        × Puts client.old client.new (record {
          before = kept.old;
          after = kept.new;
          waiting = waiting.old;
          waits = waiting.new;
        }) bytes.now taken.new
        (record { before = out.old; after = out.new; count = count.new }) answer }
{
    put_code(put(client, kept, waiting, bytes, taken, out, count))
}
