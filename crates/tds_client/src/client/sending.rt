//! Sending a request whose message lies in the caller's memory.

ghost use Rattle.std.specs.Prelude.{◌≡◌, ◌≤◌, ◌++◌, ℕ, List, [], None, Some, Ok, IfOk, IfErr, OnErr, OnOk};
ghost use Rattle.std.specs.Prelude.{drop, length};
ghost use Rattle.tds_request.specs.declared.request.Request.{Request};
ghost use Rattle.tds_request.specs.Layout.{kind_of_request, request_spelling};
ghost use Rattle.tds_client.specs.declared.client.parts.StageParts.TheVariants.{Sending};
ghost use Rattle.tds_client.specs.Parts.{AreParts, left_by, session_from, stage_from};
ghost use Rattle.tds_client.specs.Sending.{message_of, refusal_of, sent, started};
ghost use Rattle.tds_client.specs.Session as session;
ghost use Rattle.tds_client.specs.Session.{unless_idle, with_stage};
ghost use Rattle.tds_packet.specs.Resets.{header_descriptor};

use super::{ClientParts, StageParts};
use crate::fault::ClientRefusal;
use crate::packets::header;
use crate::state::Sent;
use tds_packet::{Kind, Reset, Status};
use tds_request::RequestKind;

/// A packet of a request that is to be written: its header, and its data, lent from the message.
#[derive(Debug, Drop)]
pub struct NextPacket<'a> {
    pub answer: Sent,
    pub header: [u8; 8],
    pub data: &'a [u8],
}

impl ClientParts {
    /// Takes a request of this kind, of which nothing is out: `Client::start` where the caller
    /// writes the message. Answers the descriptor that stands in it. It takes no memory.
    #[inline(always)]
    pub fn start(&mut self, kind: RequestKind) -> Result<u64, ClientRefusal>
        ensures ok { IfOk result (λ descriptor. (request : Request)
            → kind ≡ kind_of_request request
            → session_from self.new (request_spelling descriptor request)
            ≡ started (session_from self.old []) request) }
        ensures message { IfOk result (λ descriptor. (request : Request)
            → request_spelling descriptor request ≡ message_of self.old.heard request) }
        ensures accepted { OnOk result (unless_idle (stage_from self.old.stage []) ≡ None) }
        ensures refused { IfErr result (λ refusal.
            unless_idle (stage_from self.old.stage []) ≡ Some refusal) }
        ensures err { OnErr result (self.new ≡ self.old) }
    {
        self.begin(kind.packet_kind())
    }

    /// Begins a message whose packets have this type: none of it is out. Answers the descriptor in
    /// its headers: that of the open transaction, or 0 under a full mark (MS-TDS 2.2.5.3.2).
    #[inline(always)]
    pub(super) fn begin(&mut self, kind: Kind) -> Result<u64, ClientRefusal>
        ensures ok { IfOk result (λ descriptor. (left : List ℕ)
            → session_from self.new left
            ≡ with_stage (session_from self.old []) (session.Sending kind left 0)) }
        ensures descriptor { IfOk result (λ descriptor. descriptor
            ≡ header_descriptor self.old.heard.mark self.old.heard.descriptor) }
        ensures accepted { OnOk result (unless_idle (stage_from self.old.stage []) ≡ None) }
        ensures refused { IfErr result (λ refusal.
            unless_idle (stage_from self.old.stage []) ≡ Some refusal) }
        ensures err { OnErr result (self.new ≡ self.old) }
    {
        match &self.stage {
            StageParts::Idle => {}
            StageParts::Sending { .. } => return Err(ClientRefusal::NotIdle),
            StageParts::Reading => return Err(ClientRefusal::NotIdle),
            StageParts::Cancelling => return Err(ClientRefusal::NotIdle),
            StageParts::Broken(_) => return Err(ClientRefusal::Broken),
        }
        let descriptor = match self.heard.mark {
            None => self.heard.descriptor,
            Some(Reset::Full) => 0,
            Some(Reset::KeepTransaction) => self.heard.descriptor,
        };
        self.stage = StageParts::Sending { kind, packets: 0 };
        Ok(descriptor)
    }

    /// The next packet of the request, of which these bytes are left: `Client::send` where the
    /// caller has the message and writes the packet. It takes no memory.
    #[inline(always)]
    pub fn send<'a>(&mut self, left: &'a [u8]) -> Result<NextPacket<'a>, ClientRefusal>
        requires whole { AreParts self.old.stage left.now }
        ensures ok { IfOk result (λ packet. sent (session_from self.old left.now)
            ≡ Ok (record {
              answer = packet.answer;
              session = session_from self.new (drop (length packet.«data».now) left.now);
              bytes = packet.header ++ packet.«data».now;
            })) }
        ensures header { IfOk result (λ packet. length packet.header ≡ 8) }
        ensures fits { IfOk result (λ packet. length packet.«data».now ≤ length left.now) }
        // Nothing is left where the request is out.
        ensures rest { IfOk result (λ packet. drop (length packet.«data».now) left.now
            ≡ left_by self.new.stage (drop (length packet.«data».now) left.now)) }
        ensures refused { IfErr result (λ refusal.
            refusal_of (sent (session_from self.old left.now)) ≡ Some refusal) }
        ensures err { OnErr result (self.new ≡ self.old) }
    {
        match &self.stage {
            StageParts::Sending { kind, packets } => {
                let (kind, packets) = (*kind, *packets);
                Ok(self.send_next(kind, packets, left))
            }
            StageParts::Idle => Err(ClientRefusal::NotSending),
            StageParts::Reading => Err(ClientRefusal::NotSending),
            StageParts::Cancelling => Err(ClientRefusal::NotSending),
            StageParts::Broken(_) => Err(ClientRefusal::Broken),
        }
    }

    /// The packet behind these others of its type. Each is full but the last.
    #[inline(always)]
    #[tactic(auto, unfolding(crate::specs::Sending::sent_of))]
    fn send_next<'a>(&mut self, kind: Kind, packets: usize, left: &'a [u8]) -> NextPacket<'a>
        requires stage { self.old.stage ≡ Sending kind packets }
        requires whole { AreParts self.old.stage left.now }
        ensures value { sent (session_from self.old left.now) ≡ Ok (record {
          answer = result.answer;
          session = session_from self.new (drop (length result.«data».now) left.now);
          bytes = result.header ++ result.«data».now;
        }) }
        ensures header { length result.header ≡ 8 }
        ensures fits { length result.«data».now ≤ length left.now }
        ensures rest { drop (length result.«data».now) left.now
            ≡ left_by self.new.stage (drop (length result.«data».now) left.now) }
    {
        let room = usize::from(self.size.get()) - 8;
        if left.len() <= room {
            let status = Status::of_request(true, packets, self.heard.mark);
            let header = header(kind, status, packets, left);
            self.stage = StageParts::Reading;
            return NextPacket {
                answer: Sent::Last,
                header,
                data: left,
            };
        }
        let data = &left[..room];
        let status = Status::of_request(false, packets, self.heard.mark);
        let header = header(kind, status, packets, data);
        self.stage = StageParts::Sending {
            kind,
            packets: packets + 1,
        };
        NextPacket {
            answer: Sent::More,
            header,
            data,
        }
    }
}
