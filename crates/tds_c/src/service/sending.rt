//! What a seat's client sends: a request's beginning, its packets, its end. What waits for a packet lies
//! in the caller's memory.

ghost use Rattle.std.specs.Prelude.{◌≡◌, ◌≤◌, ◌<◌, ◌+◌, ◌∷◌, ◌++◌, ◌⊎◌, [], Bool, List, true, false, take, drop, length};
ghost use Rattle.std.specs.Prelude.{IfErr, IfOk, OnErr, OnOk};
ghost use Rattle.tds_packet.specs.Resets.{header_descriptor, mark_bit};
ghost use Rattle.tds_packet.specs.Sent.{end_bit};
ghost use Rattle.tds_packet.specs.Size.{IsPacketSize};
ghost use Rattle.tds_wire.specs.declared.told.Token.{Token};
ghost use Rattle.tds_client.specs.Streams.{packets_are};
ghost use Rattle.tds_service.specs.Line as line;
ghost use Rattle.tds_service.specs.Line.{line_turn};
ghost use Rattle.tds_c.specs.service.Asking.{WaitsWrong, headers_by, message_from, packet_of, with_front};
ghost use Rattle.tds_c.specs.service.Clients.{asked_seat, sent_seat};
ghost use Rattle.tds_c.specs.service.OnSeat.{AsksNot, FinishesNot, SendsNot};
ghost use Rattle.tds_c.specs.service.Plain.{kind_at, line_of, mark_of, place_of};
ghost use Rattle.tds_c.specs.service.Table.{ActsOn, RefusedOn};

use crate::service::answers::Stop;
use crate::service::buffer::{put, put_at};
use crate::service::plain::TdsSeat;
use tds_client::MessageKind;
use tds_packet::{Kind, PacketSize, Reset};
use tds_request::headers;
use tds_service::Refusal;

/// The message whose packets have this type (MS-TDS 2.2.3.1.1).
#[inline(always)]
#[tactic(auto, unfolding(crate::specs::service::Asking::message_from))]
pub(crate) fn message(number: u8) -> Option<MessageKind>
    ensures { result ≡ message_from number }
{
    match number {
        0x01 => Some(MessageKind::Batch),
        0x03 => Some(MessageKind::Procedure),
        0x07 => Some(MessageKind::BulkLoad),
        0x0E => Some(MessageKind::Transaction),
        _ => None,
    }
}

/// The type of a request's packets. A number that none has stands for a batch's.
#[inline(always)]
#[tactic(auto, unfolding(crate::specs::service::Plain::kind_at))]
pub(crate) fn kind(number: u8) -> Kind
    ensures { result ≡ kind_at number }
{
    match number {
        0x03 => Kind::Procedure,
        0x07 => Kind::BulkLoad,
        0x0E => Kind::Transaction,
        _ => Kind::Batch,
    }
}

impl TdsSeat {
    /// The reset that its next request asks for.
    #[inline(always)]
    #[tactic(auto, unfolding(crate::specs::service::Plain::mark_of))]
    pub(crate) fn mark(&self) -> Option<Reset>
        ensures { result ≡ mark_of self.now.client.mark }
    {
        match self.client.mark {
            1 => Some(Reset::Full),
            2 => Some(Reset::KeepTransaction),
            _ => None,
        }
    }

    /// The descriptor that its next request names: none under a full reset.
    #[inline(always)]
    fn named(&self) -> u64
        ensures { result
            ≡ header_descriptor (mark_of self.now.client.mark) self.now.client.descriptor }
    {
        match self.mark() {
            Some(Reset::Full) => 0,
            Some(Reset::KeepTransaction) => self.client.descriptor,
            None => self.client.descriptor,
        }
    }

    /// Whether a request can be asked on it.
    #[inline(always)]
    #[tactic(auto, unfolding(crate::specs::service::Plain::stage_at))]
    fn may_ask(&self) -> Result<(), Refusal>
        ensures ok { OnOk result ((line_of self.now).stage ≡ line.Idle) }
        ensures counted { OnOk result (self.now.asked < 18446744073709551615) }
        ensures refused { IfErr result (RefusedOn line.Ask self.now) }
        ensures memory { IfErr result (λ refusal. refusal ≡ Refusal.Memory
            → 18446744073709551615 ≤ self.now.asked) }
    {
        match self.client.stage {
            0 => {}
            1 => return Err(Refusal::NotIdle),
            2 => return Err(Refusal::NotIdle),
            3 => return Err(Refusal::NotIdle),
            _ => return Err(Refusal::Broken),
        }
        if self.asked == u64::MAX {
            return Err(Refusal::Memory);
        }
        Ok(())
    }

    /// A request of this kind is asked on it.
    #[inline(always)]
    #[tactic(auto, unfolding(crate::specs::service::Plain::stage_at, crate::specs::service::Plain::kind_at))]
    fn begin(&mut self, kind: MessageKind)
        requires { self.old.asked < 18446744073709551615 }
        ensures line { line_of self.new ≡ line.asked (line_of self.old) }
        ensures place { place_of self.new ≡ place_of self.old }
        ensures number { self.new.number ≡ self.old.number }
        ensures asked { self.new.asked ≡ self.old.asked + 1 }
        ensures kind { kind_at self.new.client.kind ≡ packets_are kind }
        ensures is { self.new ≡ asked_seat kind self.old }
    {
        self.asked += 1;
        self.client.stage = 1;
        self.client.kind = kind.packet_kind().byte();
        self.client.packets = 0;
        self.client.sent = 0;
    }

    /// Whether a packet of its request can go out.
    #[inline(always)]
    #[tactic(auto, unfolding(crate::specs::service::Plain::stage_at))]
    pub(crate) fn may_send(&self) -> Result<(), Refusal>
        ensures ok { OnOk result ((begun : Bool)
            × ((line_of self.now).stage ≡ line.Sending begun)) }
        ensures counted { OnOk result (self.now.client.packets < 9223372036854775807) }
        ensures refused { IfErr result (SendsNot self.now) }
    {
        match self.client.stage {
            0 => return Err(Refusal::NotSending),
            1 => {}
            2 => return Err(Refusal::NotSending),
            3 => return Err(Refusal::NotSending),
            _ => return Err(Refusal::Broken),
        }
        if self.client.packets >= 0x7FFF_FFFF_FFFF_FFFF {
            return Err(Refusal::Memory);
        }
        Ok(())
    }

    /// A packet of its request goes out, the last one or not.
    #[inline(always)]
    #[tactic(auto, unfolding(crate::specs::service::Plain::stage_at))]
    pub(crate) fn go_on(&mut self, last: bool)
        requires sends { (begun : Bool) × ((line_of self.old).stage ≡ line.Sending begun) }
        requires counted { self.old.client.packets < 9223372036854775807 }
        ensures line { line_of self.new
            ≡ (line_turn {T = Token} (line_of self.old) (line.Send last)).line }
        ensures place { place_of self.new ≡ place_of self.old }
        ensures number { self.new.number ≡ self.old.number }
        ensures is { self.new ≡ sent_seat last self.old }
    {
        if last {
            self.client.stage = 2;
        } else {
            self.client.packets += 1;
        }
    }

    /// The packet size, where one has it, and no more waits than a packet holds.
    #[inline(always)]
    pub(crate) fn size(&self, waiting: usize, room: usize) -> Result<usize, Stop>
        ensures size { IfOk result (λ size. size ≡ self.now.client.size) }
        ensures range { OnOk result (IsPacketSize self.now.client.size) }
        ensures within { OnOk result (waiting ≤ room) }
        ensures holds { OnOk result (waiting + 8 ≤ self.now.client.size) }
        ensures wrong { IfErr result (λ stop. (stop ≡ Stop.OutOfRange)
            × WaitsWrong self.now waiting room) }
    {
        let Some(size) = PacketSize::new(self.client.size) else {
            return Err(Stop::OutOfRange);
        };
        let size = usize::from(size.get());
        if waiting > room || waiting > size - 8 {
            return Err(Stop::OutOfRange);
        }
        Ok(size)
    }
}

/// The status of a packet behind `before` others of its message (MS-TDS 2.2.3.1.2).
#[inline(always)]
fn status(last: bool, before: usize, mark: Option<Reset>) -> u8
    ensures value { result ≡ end_bit last + mark_bit before mark }
    ensures range { end_bit last + mark_bit before mark ≤ 17 }
{
    let end = if last { 1 } else { 0 };
    if before > 0 {
        return end;
    }
    match mark {
        None => end,
        Some(Reset::Full) => end + 8,
        Some(Reset::KeepTransaction) => end + 16,
    }
}

/// The header of a seat's next packet, whose data are two runs of bytes, one behind the other.
#[inline(always)]
fn header(seat: &TdsSeat, last: bool, front: &[u8], rest: &[u8]) -> [u8; 8]
    requires length { length front.now + length rest.now ≤ 32759 }
    requires packets { seat.now.client.packets < 9223372036854775807 }
    ensures { result ++ (front.now ++ rest.now) ≡ packet_of seat.now last (front.now ++ rest.now) }
{
    let length = 8 + front.len() + rest.len();
    let before = seat.client.packets;
    let id = ((before + 1) % 256) as u8;
    [
        kind(seat.client.kind).byte(),
        status(last, before, seat.mark()),
        (length / 256) as u8,
        (length % 256) as u8,
        0,
        0,
        id,
        0,
    ]
}

/// Writes a seat's next packet to the front of a buffer.
#[inline(always)]
pub(crate) fn write_packet(seat: &TdsSeat, last: bool, front: &[u8], rest: &[u8], out: &mut [u8])
    requires length { length front.now + length rest.now ≤ 32759 }
    requires packets { seat.now.client.packets < 9223372036854775807 }
    requires room { 8 + length front.now + length rest.now ≤ length out.old }
    ensures { out.new ≡ with_front (packet_of seat.now last (front.now ++ rest.now)) out.old }
{
    let header = header(seat, last, front, rest);
    put_at(out, 0, &header);
    put_at(out, 8, front);
    put_at(out, 8 + front.len(), rest);
}

/// Begins a request of this kind. Its headers are written to `kept`, where they wait.
#[inline(always)]
pub(crate) fn ask(
    seat: &mut TdsSeat,
    kind: MessageKind,
    kept: &mut [u8],
    count: &mut usize,
) -> Result<(), Stop>
    requires { count.old ≡ 0 }
    ensures acts { OnOk result (ActsOn line.Ask (line.Ask ∷ []) seat.old seat.new []) }
    ensures asked { OnOk result (seat.new.asked ≡ seat.old.asked + 1) }
    ensures kind { OnOk result (kind_at seat.new.client.kind ≡ packets_are kind) }
    ensures is { OnOk result (seat.new ≡ asked_seat kind seat.old) }
    ensures written { OnOk result (kept.new ≡ with_front (headers_by kind
        (header_descriptor (mark_of seat.old.client.mark) seat.old.client.descriptor)) kept.old) }
    ensures counted { OnOk result (count.new ≡ length (headers_by kind
        (header_descriptor (mark_of seat.old.client.mark) seat.old.client.descriptor))) }
    ensures stops { IfErr result (AsksNot seat.old kind
        (header_descriptor (mark_of seat.old.client.mark) seat.old.client.descriptor)
        (record { before = kept.old; after = kept.new; count = count.new })) }
    ensures nothing { OnErr result (kept.new ≡ kept.old) }
    ensures same { OnErr result (seat.new ≡ seat.old) }
{
    if let Err(refusal) = seat.may_ask() {
        return Err(Stop::Refused(refusal));
    }
    if !put_headers(kind, seat.named(), kept, count) {
        return Err(Stop::NoRoom);
    }
    seat.begin(kind);
    Ok(())
}

/// Writes the headers of such a message to the front of a buffer, where they fit. How many bytes these
/// are is told anyway.
#[inline(always)]
fn put_headers(kind: MessageKind, descriptor: u64, kept: &mut [u8], count: &mut usize) -> bool
    ensures count { count.new ≡ length (headers_by kind descriptor) }
    ensures done { result ≡ true → kept.new ≡ with_front (headers_by kind descriptor) kept.old }
    ensures room { result ≡ false → (length kept.old < count.new) × (kept.new ≡ kept.old) }
{
    if kind.has_headers() {
        return put(&headers(descriptor), kept, count);
    }
    put(&[], kept, count)
}

/// Ends the request: what waits goes out in its last packet.
#[inline(always)]
pub(crate) fn finish(
    seat: &mut TdsSeat,
    kept: &[u8],
    out: &mut [u8],
    count: &mut usize,
) -> Result<(), Stop>
    requires { count.old ≡ 0 }
    ensures acts { OnOk result (ActsOn (line.Send true) (line.Send true ∷ []) seat.old seat.new
        (packet_of seat.old true kept.now)) }
    ensures sending { OnOk result ((begun : Bool)
        × ((line_of seat.old).stage ≡ line.Sending begun)) }
    ensures is { OnOk result (seat.new ≡ sent_seat true seat.old) }
    ensures moved { OnOk result (line_of seat.new
        ≡ (line_turn {T = Token} (line_of seat.old) (line.Send true)).line) }
    ensures size { OnOk result (IsPacketSize seat.old.client.size) }
    ensures holds { OnOk result (length kept.now + 8 ≤ seat.old.client.size) }
    ensures written { OnOk result (out.new
        ≡ with_front (packet_of seat.old true kept.now) out.old) }
    ensures counted { OnOk result (count.new ≡ 8 + length kept.now) }
    ensures stops { IfErr result (FinishesNot seat.old kept.now
        (record { before = out.old; after = out.new; count = count.new })) }
    ensures nothing { OnErr result (out.new ≡ out.old) }
    ensures same { OnErr result (seat.new ≡ seat.old) }
{
    if let Err(refusal) = seat.may_send() {
        return Err(Stop::Refused(refusal));
    }
    if let Err(stop) = seat.size(kept.len(), kept.len()) {
        return Err(stop);
    }
    *count = 8 + kept.len();
    if *count > out.len() {
        return Err(Stop::NoRoom);
    }
    write_packet(seat, true, kept, &[], out);
    seat.go_on(true);
    Ok(())
}

/// What became of bytes that were put.
#[derive(Clone, Copy)]
pub(crate) enum Putting {
    /// 0: all of them wait.
    All,
    /// 1: a packet is full. Those behind the ones that were taken are to be put again.
    Packet,
}
