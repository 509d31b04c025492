//! Sending any request: its headers are the client's, and its body comes in parts.

ghost use Rattle.std.specs.Prelude.{◌≡◌, ◌+◌, ◌*◌, ◌≤◌, ◌<◌, ◌^◌, ◌++◌, [], None, IfOk, IfErr, OnOk, OnErr};
ghost use Rattle.std.specs.Prelude.{Option, drop, length};
ghost use Rattle.tds_client.specs.Sending.{Does, IsRefusal, refusal_of};
ghost use Rattle.tds_client.specs.Session.{unless_idle};
ghost use Rattle.tds_client.specs.Streams.{finished, full_packets, left_behind, opened, packets_of, put};

use super::parts::MOST;
use super::{Client, Outgoing, Stage};
use crate::NoMemory;
use crate::fault::ClientRefusal;
use crate::message::MessageKind;
use crate::packets::{Filling, begun_packets, full_packets, put_both, put_full, put_to_end};
use tds_packet::Reset;
use tds_request::headers;

impl Client {
    /// Begins a message of this kind, from idle to sending, whose body comes in parts by `put`.
    /// Nothing goes out yet.
    ///
    /// The client writes ALL_HEADERS in front of the body where the kind has them (MS-TDS 2.2.5.3):
    /// with the descriptor of the open transaction, or 0 under a full mark. It keeps room for one
    /// packet's data. Refused with `NotIdle`, `Broken` or, last, `Memory`, and then nothing changes.
    pub fn start_message(&mut self, kind: MessageKind) -> Result<(), ClientRefusal>
        ensures ok { OnOk result (self.new ≡ opened self.old kind) }
        ensures accepted { OnOk result (unless_idle self.old.stage ≡ None) }
        ensures refused { IfErr result (IsRefusal (unless_idle self.old.stage)) }
        ensures err { OnErr result (self.new ≡ self.old) }
    {
        self.check_idle()?;
        self.message.clear();
        let room = self.room();
        self.message.reserve(room)?;
        if kind.has_headers() {
            let descriptor = self.header_descriptor();
            self.message.extend_from_slice(&headers(descriptor))?;
        }
        self.stage = Stage::Sending(Outgoing {
            kind: kind.packet_kind(),
            sent: 0,
            packets: 0,
        });
        Ok(())
    }

    /// Appends these bytes to the message that goes out. Each packet of it that is full goes out as
    /// soon as a byte stands behind it, appended to `out`: so one to `size - 8` bytes are kept, or
    /// none where nothing was put. The first packet has the mark's status bit (MS-TDS 2.2.3.1.2).
    ///
    /// Refused with `NotSending`, `Broken` or, last, `Memory`, and then nothing changes. `Memory` is
    /// answered too where 2^63 packets and bytes of one message would be out and kept.
    pub fn put(&mut self, bytes: &[u8], out: &mut Vec<u8>) -> Result<(), ClientRefusal>
        ensures ok { OnOk result (Does (put self.old bytes.now) tt self.new
            out.old.items out.new.items) }
        ensures refused { IfErr result (IsRefusal (refusal_of (put self.old bytes.now))) }
        ensures err { OnErr result (self.new ≡ self.old) }
        ensures nothing { OnErr result (out.new.items ≡ out.old.items) }
    {
        let outgoing = match &self.stage {
            Stage::Idle => return Err(ClientRefusal::NotSending),
            Stage::Sending(outgoing) => *outgoing,
            Stage::Reading => return Err(ClientRefusal::NotSending),
            Stage::Cancelling => return Err(ClientRefusal::NotSending),
            Stage::Broken(_) => return Err(ClientRefusal::Broken),
        };
        if bytes.len() > MOST - (outgoing.packets + (self.message.len() - outgoing.sent)) {
            return Err(ClientRefusal::Memory);
        }
        let room = self.room();
        if self.message.len() - outgoing.sent + bytes.len() <= room {
            outgoing.keep(room, &mut self.message, bytes)?;
            return Ok(());
        }
        let next = outgoing.put(room, self.heard.mark, &mut self.message, bytes, out)?;
        self.stage = Stage::Sending(next);
        Ok(())
    }

    /// Ends the message: what is left of it goes out, and the last packet has end of message. The
    /// client reads the answer then.
    ///
    /// Refused with `NotSending`, `Broken` or, last, `Memory`, and then nothing changes.
    pub fn finish(&mut self, out: &mut Vec<u8>) -> Result<(), ClientRefusal>
        ensures ok { OnOk result (Does (finished self.old) tt self.new
            out.old.items out.new.items) }
        ensures refused { IfErr result (IsRefusal (refusal_of (finished self.old))) }
        ensures err { OnErr result (self.new ≡ self.old) }
        ensures nothing { OnErr result (out.new.items ≡ out.old.items) }
    {
        let outgoing = match &self.stage {
            Stage::Idle => return Err(ClientRefusal::NotSending),
            Stage::Sending(outgoing) => *outgoing,
            Stage::Reading => return Err(ClientRefusal::NotSending),
            Stage::Cancelling => return Err(ClientRefusal::NotSending),
            Stage::Broken(_) => return Err(ClientRefusal::Broken),
        };
        let filling = Filling {
            kind: outgoing.kind,
            mark: self.heard.mark,
            room: self.room(),
        };
        put_to_end(
            out,
            filling,
            outgoing.packets,
            &self.message[outgoing.sent..],
        )?;
        self.stage = Stage::Reading;
        Ok(())
    }
}

impl Outgoing {
    /// Appends these bytes to the message, of which they fill no packet: it is as far out as before. At
    /// want of memory nothing changes.
    #[inline(always)]
    fn keep(self, room: usize, message: &mut Vec<u8>, bytes: &[u8]) -> Result<(), NoMemory>
        requires room { (1 ≤ room) × (room ≤ 32759) }
        requires sent { self.sent ≤ length message.old.items }
        requires fits { length message.old.items + length bytes.now ≤ self.sent + room }
        ensures packets { OnOk result (self.packets ≡ self.packets
            + full_packets room (length (drop self.sent message.old.items ++ bytes.now))) }
        ensures sent { OnOk result (self.sent ≤ length message.new.items) }
        ensures length { OnOk result (length message.new.items
            ≡ length message.old.items + length bytes.now) }
        ensures left { OnOk result (drop self.sent message.new.items
            ≡ left_behind room (drop self.sent message.old.items ++ bytes.now)) }
        ensures none { OnOk result ((mark : Option Reset)
            → packets_of room self.kind mark self.packets
            (full_packets room (length (drop self.sent message.old.items ++ bytes.now)))
            (drop self.sent message.old.items ++ bytes.now) ≡ []) }
        ensures err { OnErr result (message.new.items ≡ message.old.items) }
    {
        message.extend_from_slice(bytes)?;
        Ok(())
    }

    /// Appends these bytes to the message, and the packets that they fill to `out`. Answers how far
    /// the message is out then. At want of memory nothing changes. It isn't put into its caller, where
    /// it would be in the way of `keep`.
    #[inline(never)]
    fn put(
        self,
        room: usize,
        mark: Option<Reset>,
        message: &mut Vec<u8>,
        bytes: &[u8],
        out: &mut Vec<u8>,
    ) -> Result<Outgoing, NoMemory>
        requires room { (1 ≤ room) × (room ≤ 32759) }
        requires sent { self.sent ≤ length message.old.items }
        requires countable { self.packets + length message.old.items + length bytes.now
            < 2 ^ 63 + self.sent }
        ensures kind { IfOk result (λ next. next.kind ≡ self.kind) }
        ensures packets { IfOk result (λ next. next.packets ≡ self.packets
            + full_packets room (length (drop self.sent message.old.items ++ bytes.now))) }
        ensures sent { IfOk result (λ next. next.sent ≤ length message.new.items) }
        ensures countable { IfOk result (λ next. next.packets + length message.new.items
            < 2 ^ 63 + next.sent) }
        ensures left { IfOk result (λ next. drop next.sent message.new.items
            ≡ left_behind room (drop self.sent message.old.items ++ bytes.now)) }
        ensures appended { OnOk result (out.new.items ≡ out.old.items
            ++ packets_of room self.kind mark self.packets
            (full_packets room (length (drop self.sent message.old.items ++ bytes.now)))
            (drop self.sent message.old.items ++ bytes.now)) }
        ensures err { OnErr result (message.new.items ≡ message.old.items) }
        ensures nothing { OnErr result (out.new.items ≡ out.old.items) }
    {
        let left = message.len() - self.sent;
        let first = begun_packets(room, left);
        let missing = first * room - left;
        if bytes.len() <= missing {
            return self.put_within(room, mark, message, bytes, out);
        }
        self.put_over(room, mark, message, first, bytes, out)
    }

    /// The same, where the message takes all of these bytes.
    fn put_within(
        self,
        room: usize,
        mark: Option<Reset>,
        message: &mut Vec<u8>,
        bytes: &[u8],
        out: &mut Vec<u8>,
    ) -> Result<Outgoing, NoMemory>
        requires room { (1 ≤ room) × (room ≤ 32759) }
        requires sent { self.sent ≤ length message.old.items }
        requires countable { self.packets + length message.old.items + length bytes.now
            < 2 ^ 63 + self.sent }
        ensures kind { IfOk result (λ next. next.kind ≡ self.kind) }
        ensures packets { IfOk result (λ next. next.packets ≡ self.packets
            + full_packets room (length (drop self.sent message.old.items ++ bytes.now))) }
        ensures sent { IfOk result (λ next. next.sent ≤ length message.new.items) }
        ensures countable { IfOk result (λ next. next.packets + length message.new.items
            < 2 ^ 63 + next.sent) }
        ensures left { IfOk result (λ next. drop next.sent message.new.items
            ≡ left_behind room (drop self.sent message.old.items ++ bytes.now)) }
        ensures appended { OnOk result (out.new.items ≡ out.old.items
            ++ packets_of room self.kind mark self.packets
            (full_packets room (length (drop self.sent message.old.items ++ bytes.now)))
            (drop self.sent message.old.items ++ bytes.now)) }
        ensures err { OnErr result (message.new.items ≡ message.old.items) }
        ensures nothing { OnErr result (out.new.items ≡ out.old.items) }
    {
        let length = message.len();
        message.extend_from_slice(bytes)?;
        let left = &message[self.sent..];
        let count = full_packets(room, left.len());
        let filling = Filling {
            kind: self.kind,
            mark,
            room,
        };
        if let Err(refused) = put_full(out, filling, self.packets, count, left) {
            message.truncate(length);
            return Err(refused);
        }
        Ok(Outgoing {
            kind: self.kind,
            sent: self.sent + count * room,
            packets: self.packets + count,
        })
    }

    /// The same, where the bytes go on behind these first packets, of which the message has the
    /// front and they the end.
    fn put_over(
        self,
        room: usize,
        mark: Option<Reset>,
        message: &mut Vec<u8>,
        first: usize,
        bytes: &[u8],
        out: &mut Vec<u8>,
    ) -> Result<Outgoing, NoMemory>
        requires room { (1 ≤ room) × (room ≤ 32759) }
        requires sent { self.sent ≤ length message.old.items }
        requires countable { self.packets + length message.old.items + length bytes.now
            < 2 ^ 63 + self.sent }
        requires first { length message.old.items ≤ self.sent + first * room }
        requires least { first ≤ first * room }
        requires over { self.sent + first * room < length message.old.items + length bytes.now }
        ensures kind { IfOk result (λ next. next.kind ≡ self.kind) }
        ensures packets { IfOk result (λ next. next.packets ≡ self.packets
            + full_packets room (length (drop self.sent message.old.items ++ bytes.now))) }
        ensures sent { IfOk result (λ next. next.sent ≤ length message.new.items) }
        ensures countable { IfOk result (λ next. next.packets + length message.new.items
            < 2 ^ 63 + next.sent) }
        ensures left { IfOk result (λ next. drop next.sent message.new.items
            ≡ left_behind room (drop self.sent message.old.items ++ bytes.now)) }
        ensures appended { OnOk result (out.new.items ≡ out.old.items
            ++ packets_of room self.kind mark self.packets
            (full_packets room (length (drop self.sent message.old.items ++ bytes.now)))
            (drop self.sent message.old.items ++ bytes.now)) }
        ensures err { OnErr result (message.new.items ≡ message.old.items) }
        ensures nothing { OnErr result (out.new.items ≡ out.old.items) }
    {
        let length = message.len();
        let (end, rest) = bytes.split_at(self.sent + first * room - length);
        let count = full_packets(room, rest.len());
        let tail = &rest[count * room..];
        message.reserve(end.len().max(tail.len().saturating_sub(length)))?;
        message.extend_from_slice(end)?;
        let filling = Filling {
            kind: self.kind,
            mark,
            room,
        };
        let begun = &message[self.sent..];
        if let Err(refused) = put_both(out, filling, self.packets, first, begun, count, rest) {
            message.truncate(length);
            return Err(refused);
        }
        message.clear();
        message.extend_from_slice(tail)?;
        Ok(Outgoing {
            kind: self.kind,
            sent: 0,
            packets: self.packets + first + count,
        })
    }
}
