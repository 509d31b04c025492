//! Sending any request in parts, where the bytes that wait for a packet lie in the caller's memory.

ghost use Rattle.std.specs.Prelude.{◌≡◌, ◌+◌, ◌≤◌, ◌<◌, ◌^◌, ◌++◌, [], None, Some, Ok};
ghost use Rattle.std.specs.Prelude.{IfOk, IfErr, OnErr, OnOk, length, take};
ghost use Rattle.tds_packet.specs.Resets.{header_descriptor};
ghost use Rattle.tds_client.specs.declared.client.filling.Fill.TheVariants.{Kept};
ghost use Rattle.tds_client.specs.declared.client.parts.StageParts.TheVariants.{Sending};
ghost use Rattle.tds_client.specs.Filling.{IsFull, kept_by, out_by, room_of, taken_by};
ghost use Rattle.tds_client.specs.Parts.{AreParts, session_from, stage_from};
ghost use Rattle.tds_client.specs.Sending.{IsRefusal, refusal_of};
ghost use Rattle.tds_client.specs.Session.{unless_idle};
ghost use Rattle.tds_client.specs.Streams.{finished, headers_of, opened, put};

use super::parts::MOST;
use super::{ClientParts, StageParts};
use crate::fault::ClientRefusal;
use crate::message::MessageKind;
use crate::packets::{full_header, header};
use tds_packet::{Kind, Status};

/// What became of bytes that were put behind those that wait for a packet.
#[derive(Clone, Copy, Debug)]
pub enum Fill {
    /// They all wait behind the others.
    Kept,
    /// A packet is full: it is this header, what waited, and so many of the bytes. The byte behind
    /// them waits now, and those behind it were not taken.
    Packet { header: [u8; 8], end: usize },
}

impl ClientParts {
    /// Begins a message of this kind: `Client::start_message` where the caller keeps what waits for
    /// a packet. At first its headers wait, if the kind has some: ALL_HEADERS with the descriptor
    /// that is answered (MS-TDS 2.2.5.3). It takes no memory.
    #[inline(always)]
    pub fn start_message(&mut self, kind: MessageKind) -> Result<u64, ClientRefusal>
        ensures ok { OnOk result (session_from self.new (headers_of self.old.heard kind)
            ≡ opened (session_from self.old []) kind) }
        ensures descriptor { IfOk result (λ descriptor. descriptor
            ≡ header_descriptor self.old.heard.mark self.old.heard.descriptor) }
        ensures accepted { OnOk result (unless_idle (stage_from self.old.stage []) ≡ None) }
        ensures refused { IfErr result (λ refusal.
            unless_idle (stage_from self.old.stage []) ≡ Some refusal) }
        ensures err { OnErr result (self.new ≡ self.old) }
    {
        self.begin(kind.packet_kind())
    }

    /// Puts bytes of the message's body behind those that wait: `Client::put` of as many as end one
    /// packet at most. It takes no memory: the caller writes the packet and keeps what waits.
    ///
    /// Refused with `NotSending`, `Broken` or, last, with `Memory` where 2^63 packets and bytes of
    /// one message would be out and kept.
    #[inline(always)]
    pub fn put(&mut self, kept: &[u8], bytes: &[u8]) -> Result<Fill, ClientRefusal>
        requires room { length kept.now ≤ room_of self.old }
        requires whole { AreParts self.old.stage kept.now }
        ensures ok { IfOk result (λ filled.
            put (session_from self.old kept.now) (take (taken_by filled bytes.now) bytes.now)
            ≡ Ok (record {
              answer = tt;
              session = session_from self.new (kept_by filled kept.now bytes.now);
              bytes = out_by filled kept.now bytes.now;
            })) }
        ensures full { IfOk result (λ filled. IsFull (room_of self.old) filled kept.now) }
        ensures within { IfOk result (λ filled. taken_by filled bytes.now ≤ length bytes.now) }
        // So what waits can be handed over again.
        ensures room { IfOk result (λ filled.
            length (kept_by filled kept.now bytes.now) ≤ room_of self.new) }
        ensures whole { IfOk result (λ filled.
            AreParts self.new.stage (kept_by filled kept.now bytes.now)) }
        ensures refused { IfErr result
            (IsRefusal (refusal_of (put (session_from self.old kept.now) bytes.now))) }
        ensures err { OnErr result (self.new ≡ self.old) }
    {
        let (kind, packets) = match &self.stage {
            StageParts::Sending { kind, packets } => (*kind, *packets),
            StageParts::Idle => return Err(ClientRefusal::NotSending),
            StageParts::Reading => return Err(ClientRefusal::NotSending),
            StageParts::Cancelling => return Err(ClientRefusal::NotSending),
            StageParts::Broken(_) => return Err(ClientRefusal::Broken),
        };
        if bytes.len() > MOST - (packets + kept.len()) {
            return Err(ClientRefusal::Memory);
        }
        let end = usize::from(self.size.get()) - 8 - kept.len();
        if bytes.len() <= end {
            return Ok(self.keep(kind, packets, kept, bytes));
        }
        Ok(self.fill(kind, packets, kept, bytes))
    }

    /// Keeps bytes for a packet of this type behind these others: they all wait.
    #[inline(always)]
    fn keep(&self, kind: Kind, packets: usize, kept: &[u8], bytes: &[u8]) -> Fill
        requires stage { self.now.stage ≡ Sending kind packets }
        requires fits { length kept.now + length bytes.now ≤ room_of self.now }
        ensures kept { result ≡ Kept }
        ensures value { put (session_from self.now kept.now) (take (length bytes.now) bytes.now)
            ≡ Ok (record {
              answer = tt;
              session = session_from self.now (kept.now ++ bytes.now);
              bytes = [];
            }) }
    {
        let _size = self.size.get();
        Fill::Kept
    }

    /// Fills a packet of this type behind these others: these bytes end it, and one more waits.
    #[inline(always)]
    fn fill(&mut self, kind: Kind, packets: usize, kept: &[u8], bytes: &[u8]) -> Fill
        requires stage { self.old.stage ≡ Sending kind packets }
        requires room { length kept.now ≤ room_of self.old }
        requires some { 1 ≤ length kept.now + length bytes.now }
        requires over { room_of self.old < length kept.now + length bytes.now }
        requires countable { packets + (length kept.now + length bytes.now) < 2 ^ 63 }
        ensures value { put (session_from self.old kept.now)
            (take (taken_by result bytes.now) bytes.now) ≡ Ok (record {
              answer = tt;
              session = session_from self.new (kept_by result kept.now bytes.now);
              bytes = out_by result kept.now bytes.now;
            }) }
        ensures full { IsFull (room_of self.old) result kept.now }
        ensures within { taken_by result bytes.now ≤ length bytes.now }
        ensures room { length (kept_by result kept.now bytes.now) ≤ room_of self.new }
        ensures whole { AreParts self.new.stage (kept_by result kept.now bytes.now) }
    {
        let end = usize::from(self.size.get()) - 8 - kept.len();
        let header = full_header(kind, self.heard.mark, packets, kept, &bytes[..end]);
        self.stage = StageParts::Sending {
            kind,
            packets: packets + 1,
        };
        Fill::Packet { header, end }
    }

    /// Ends the message: `Client::finish` where the caller writes the last packet, which is the
    /// header that is answered and what waits. Then the client reads the answer. It takes no
    /// memory.
    #[inline(always)]
    pub fn finish(&mut self, kept: &[u8]) -> Result<[u8; 8], ClientRefusal>
        requires room { length kept.now ≤ room_of self.old }
        requires whole { AreParts self.old.stage kept.now }
        ensures ok { IfOk result (λ header. finished (session_from self.old kept.now)
            ≡ Ok (record {
              answer = tt;
              session = session_from self.new [];
              bytes = header ++ kept.now;
            })) }
        ensures header { IfOk result (λ header. length header ≡ 8) }
        ensures refused { IfErr result (λ refusal.
            refusal_of (finished (session_from self.old kept.now)) ≡ Some refusal) }
        ensures err { OnErr result (self.new ≡ self.old) }
    {
        match &self.stage {
            StageParts::Sending { kind, packets } => {
                let (kind, packets) = (*kind, *packets);
                Ok(self.finish_behind(kind, packets, kept))
            }
            StageParts::Idle => Err(ClientRefusal::NotSending),
            StageParts::Reading => Err(ClientRefusal::NotSending),
            StageParts::Cancelling => Err(ClientRefusal::NotSending),
            StageParts::Broken(_) => Err(ClientRefusal::Broken),
        }
    }

    /// The last packet, of this type and behind these others.
    #[inline(always)]
    fn finish_behind(&mut self, kind: Kind, packets: usize, kept: &[u8]) -> [u8; 8]
        requires stage { self.old.stage ≡ Sending kind packets }
        requires room { length kept.now ≤ room_of self.old }
        requires whole { AreParts self.old.stage kept.now }
        ensures value { finished (session_from self.old kept.now) ≡ Ok (record {
          answer = tt;
          session = session_from self.new [];
          bytes = result ++ kept.now;
        }) }
        ensures header { length result ≡ 8 }
    {
        // The size bounds what waits.
        let _size = self.size.get();
        let status = Status::of_request(true, packets, self.heard.mark);
        let header = header(kind, status, packets, kept);
        self.stage = StageParts::Reading;
        header
    }
}
