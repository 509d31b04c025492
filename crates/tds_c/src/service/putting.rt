//! Bytes of a request that are put behind those that wait for a packet.

ghost use Rattle.std.specs.Prelude.{◌≡◌, ◌≤◌, ◌<◌, ◌+◌, ◌++◌, ◌⊎◌, Bool, true, false, take, drop, length};
ghost use Rattle.std.specs.Prelude.{IfErr, IfOk, OnErr};
ghost use Rattle.tds_packet.specs.Size.{IsPacketSize};
ghost use Rattle.tds_service.specs.Line as line;
ghost use Rattle.tds_c.specs.service.Asking.{packet_of, with_front};
ghost use Rattle.tds_c.specs.service.OnSeat.{PutsNot, PutsOn};
ghost use Rattle.tds_c.specs.service.Plain.{line_of};

use crate::service::answers::Stop;
use crate::service::buffer::put_at;
use crate::service::plain::TdsSeat;
use crate::service::sending::{Putting, write_packet};

/// Whether there is room for a packet of this size, and for its data.
#[inline(always)]
fn has_room(size: usize, kept: &[u8], out: &[u8]) -> bool
    ensures yes { result ≡ true → (size ≤ length out.now) × (size ≤ length kept.now + 8) }
    ensures no { result ≡ false → (length out.now < size) ⊎ (length kept.now + 8 < size) }
{
    size <= out.len() && size <= kept.len() + 8
}

/// Puts bytes behind those that wait.
#[inline(always)]
fn keep(kept: &mut [u8], waiting: usize, bytes: &[u8])
    requires room { waiting + length bytes.now ≤ length kept.old }
    ensures { kept.new ≡ with_front (take waiting kept.old ++ bytes.now) kept.old }
{
    put_at(kept, waiting, bytes);
}

/// Writes a full packet: what waits and these first bytes. The byte behind them waits now.
#[inline(always)]
fn fill(seat: &TdsSeat, kept: &mut [u8], waiting: usize, end: usize, bytes: &[u8], out: &mut [u8])
    requires packets { seat.now.client.packets < 9223372036854775807 }
    requires most { waiting + end ≤ 32759 }
    requires waiting { (1 ≤ length kept.old) × (waiting ≤ length kept.old) }
    requires over { end < length bytes.now }
    requires room { 8 + waiting + end ≤ length out.old }
    ensures written { out.new ≡ with_front
        (packet_of seat.now false (take waiting kept.old ++ take end bytes.now)) out.old }
    ensures kept { kept.new ≡ with_front (take 1 (drop end bytes.now)) kept.old }
{
    write_packet(seat, false, &kept[..waiting], &bytes[..end], out);
    put_at(kept, 0, &bytes[end..end + 1]);
}

/// Puts these bytes, or as many as end a packet, of which so many are still to come.
#[inline(always)]
fn put_some(
    seat: &mut TdsSeat,
    kept: &mut [u8],
    waiting: &mut usize,
    end: usize,
    bytes: &[u8],
    taken: &mut usize,
    out: &mut [u8],
    count: &mut usize,
) -> Putting
    requires sending { (begun : Bool) × ((line_of seat.old).stage ≡ line.Sending begun) }
    requires packets { seat.old.client.packets < 9223372036854775807 }
    requires range { IsPacketSize seat.old.client.size }
    requires full { waiting.old + end + 8 ≡ seat.old.client.size }
    requires room { seat.old.client.size ≤ length kept.old + 8 }
    requires out { seat.old.client.size ≤ length out.old }
    requires none { count.old ≡ 0 }
    ensures { PutsOn seat.old seat.new (record {
      before = kept.old;
      after = kept.new;
      waiting = waiting.old;
      waits = waiting.new;
    }) bytes.now taken.new
        (record { before = out.old; after = out.new; count = count.new }) result }
{
    let before = *waiting;
    if bytes.len() <= end {
        keep(kept, before, bytes);
        *waiting = before + bytes.len();
        *taken = bytes.len();
        return Putting::All;
    }
    fill(seat, kept, before, end, bytes, out);
    *waiting = 1;
    *taken = end + 1;
    *count = before + end + 8;
    seat.go_on(false);
    Putting::Packet
}

/// Puts as many of these bytes as fill one packet at most, which is written to `out`.
#[inline(always)]
pub(crate) fn put(
    seat: &mut TdsSeat,
    kept: &mut [u8],
    waiting: &mut usize,
    bytes: &[u8],
    taken: &mut usize,
    out: &mut [u8],
    count: &mut usize,
) -> Result<Putting, Stop>
    requires { (count.old ≡ 0) × (taken.old ≡ 0) }
    ensures ok { IfOk result (λ putting. PutsOn seat.old seat.new (record {
      before = kept.old;
      after = kept.new;
      waiting = waiting.old;
      waits = waiting.new;
    }) bytes.now taken.new
        (record { before = out.old; after = out.new; count = count.new }) putting) }
    ensures stops { IfErr result (PutsNot seat.old (record {
      before = kept.old;
      after = kept.new;
      waiting = waiting.old;
      waits = waiting.new;
    }) (record { before = out.old; after = out.new; count = count.new })) }
    ensures kept { OnErr result ((kept.new ≡ kept.old) × (waiting.new ≡ waiting.old)) }
    ensures nothing { OnErr result ((out.new ≡ out.old) × (taken.new ≡ 0)) }
    ensures same { OnErr result (seat.new ≡ seat.old) }
{
    if let Err(refusal) = seat.may_send() {
        return Err(Stop::Refused(refusal));
    }
    let before = *waiting;
    let size = match seat.size(before, kept.len()) {
        Ok(size) => size,
        Err(stop) => return Err(stop),
    };
    if !has_room(size, kept, out) {
        *count = size;
        return Err(Stop::NoRoom);
    }
    let end = size - 8 - before;
    Ok(put_some(seat, kept, waiting, end, bytes, taken, out, count))
}
