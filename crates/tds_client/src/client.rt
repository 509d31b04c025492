ghost use Rattle.std.specs.Prelude.{◌≡◌, ◌≤◌, None, Err, IfOk, IfErr, OnOk, OnErr};
ghost use Rattle.tds_client.specs.declared.fault.ClientRefusal.{ClientRefusal};
ghost use Rattle.tds_client.specs.declared.state.Cancelled.{Cancelled};
ghost use Rattle.tds_client.specs.Session.{new_session, state_of, lost, marked, unless_idle};
ghost use Rattle.tds_packet.specs.Resets.{header_descriptor};
ghost use Rattle.tds_client.specs.Sending.{Does, IsRefusal, room, started, sent, cancelled, refusal_of};

mod filling;
mod hearing;
mod listening;
mod parts;
mod sending;
mod streaming;
mod taking;

use crate::fault::{ClientFault, ClientRefusal};
use crate::heard::{FinalDone, Heard};
use crate::packets::{put, put_attention, put_ignore_and_attention};
use crate::state::{Cancelled, ClientState, Sent};
pub use filling::Fill;
pub use parts::{ClientParts, StageParts};
pub use sending::NextPacket;
use std::alloc::Global;
use std::marker::Model;
use tds_packet::{Kind, PacketSize, Reset, Status};
use tds_request::{Request, encode};
use tds_token::Columns;

/// How far a request is out.
#[derive(Clone, Copy, Debug)]
struct Outgoing {
    /// The type of its packets.
    kind: Kind,
    /// The bytes of the message that are out, and the packets that hold them.
    sent: usize,
    packets: usize,
}

/// Where a request is.
#[derive(Debug, Drop)]
enum Stage {
    Idle,
    Sending(Outgoing),
    Reading,
    Cancelling,
    Broken(ClientFault),
}

/// The client's end of one connection.
///
/// One request is underway at a time. `start` takes it, `send` appends its packets one by one, and
/// `take` reads its answer. `cancel` asks for the answer's end by an attention (MS-TDS 2.2.1.7),
/// and the client is idle again once that is acknowledged. A peer's fault breaks the client: every
/// call is refused from then on, and `take` answers the same fault.
#[derive(Debug, Drop)]
pub struct Client {
    size: PacketSize,
    stage: Stage,
    heard: Heard,
    /// What is known inside the message that comes.
    columns: Columns,
    /// The request that goes out.
    message: Vec<u8>,
}

impl Model for Client {
    ghost use Rattle.tds_client.specs.Session.{ClientSession};

    ghost Value = { ClientSession };

    ghost use Rattle.tds_client.specs.Fields.{session_of, IsClient};

    ghost view = { session_of };

    ghost invariant = { IsClient };
}

impl Client {
    /// A client for packets of this size: idle, with descriptor 0 and no mark. It takes no memory.
    pub fn new(alloc: Global, size: PacketSize) -> Client
        ensures { result ≡ new_session size }
    {
        Client {
            size,
            stage: Stage::Idle,
            heard: Heard {
                descriptor: 0,
                mark: None,
                done: FinalDone::Awaited,
            },
            columns: Columns::none(),
            message: Vec::new(alloc),
        }
    }

    /// What the client is doing.
    pub fn state(&self) -> ClientState
        ensures { result ≡ state_of self.now.stage }
    {
        match &self.stage {
            Stage::Idle => ClientState::Idle,
            Stage::Sending(_) => ClientState::Sending,
            Stage::Reading => ClientState::Reading,
            Stage::Cancelling => ClientState::Cancelling,
            Stage::Broken(fault) => ClientState::Broken(fault.again()),
        }
    }

    /// The descriptor of the open transaction, as the server told it (MS-TDS 2.2.7.9): 0 for none.
    pub fn descriptor(&self) -> u64
        ensures { result ≡ self.now.heard.descriptor }
    {
        self.heard.descriptor
    }

    /// The reset that the next request asks for (MS-TDS 2.2.3.1.2). It stands until the server
    /// tells that a reset is done.
    pub fn reset_mark(&self) -> Option<Reset>
        ensures { result ≡ self.now.heard.mark }
    {
        self.heard.mark
    }

    /// The connection is lost: the client is broken, unless it is broken already.
    pub fn lost(&mut self)
        ensures { self.new ≡ lost self.old }
    {
        match &self.stage {
            Stage::Broken(_) => {}
            Stage::Idle => self.stage = Stage::Broken(ClientFault::Lost),
            Stage::Sending(_) => self.stage = Stage::Broken(ClientFault::Lost),
            Stage::Reading => self.stage = Stage::Broken(ClientFault::Lost),
            Stage::Cancelling => self.stage = Stage::Broken(ClientFault::Lost),
        }
    }

    /// Refuses what only an idle client does.
    fn check_idle(&self) -> Result<(), ClientRefusal>
        ensures idle { OnOk result (unless_idle self.now.stage ≡ None) }
        ensures refused { IfErr result (λ refusal. unless_idle self.now.stage ≡ Some refusal) }
    {
        match &self.stage {
            Stage::Idle => Ok(()),
            Stage::Sending(_) => Err(ClientRefusal::NotIdle),
            Stage::Reading => Err(ClientRefusal::NotIdle),
            Stage::Cancelling => Err(ClientRefusal::NotIdle),
            Stage::Broken(_) => Err(ClientRefusal::Broken),
        }
    }

    /// Lets the next request ask for a reset. Of two marks the stronger one stays: `Full` is
    /// stronger than `KeepTransaction` (MS-TDS 2.2.3.1.2).
    ///
    /// Refused with `NotIdle` or `Broken`, and then nothing changes.
    pub fn mark_reset(&mut self, reset: Reset) -> Result<(), ClientRefusal>
        ensures ok { OnOk result (self.new ≡ marked self.old reset) }
        ensures accepted { OnOk result (unless_idle self.old.stage ≡ None) }
        ensures refused { IfErr result (λ refusal. unless_idle self.old.stage ≡ Some refusal) }
        ensures err { OnErr result (self.new ≡ self.old) }
    {
        self.check_idle()?;
        match self.heard.mark {
            None => self.heard.mark = Some(reset),
            Some(Reset::Full) => {}
            Some(Reset::KeepTransaction) => self.heard.mark = Some(reset),
        }
        Ok(())
    }

    /// The descriptor in the next request's headers: that of the open transaction, or 0 under a full
    /// mark (MS-TDS 2.2.5.3.2).
    fn header_descriptor(&self) -> u64
        ensures { result ≡ header_descriptor self.now.heard.mark self.now.heard.descriptor }
    {
        match self.heard.mark {
            None => self.heard.descriptor,
            Some(Reset::Full) => 0,
            Some(Reset::KeepTransaction) => self.heard.descriptor,
        }
    }

    /// The most data that a packet has.
    fn room(&self) -> usize
        ensures value { result ≡ room self.now }
        ensures range { (504 ≤ result) × (result ≤ 32759) }
    {
        usize::from(self.size.get()) - 8
    }

    /// Takes a request, from idle to sending. Nothing goes out yet.
    ///
    /// Its header holds the descriptor of the open transaction, or 0 under a full mark (MS-TDS
    /// 2.2.5.3.2). Refused with `NotIdle`, `Broken` or, last, `Memory`, and then nothing changes.
    pub fn start(&mut self, request: &Request) -> Result<(), ClientRefusal>
        ensures ok { OnOk result (self.new ≡ started self.old request.now) }
        ensures accepted { OnOk result (unless_idle self.old.stage ≡ None) }
        ensures refused { IfErr result (IsRefusal (unless_idle self.old.stage)) }
        ensures err { OnErr result (self.new ≡ self.old) }
    {
        self.check_idle()?;
        self.message.clear();
        encode(request, self.header_descriptor(), &mut self.message)?;
        self.stage = Stage::Sending(Outgoing {
            kind: request.kind().packet_kind(),
            sent: 0,
            packets: 0,
        });
        Ok(())
    }

    /// Appends the request's next packet. Each is full but the last. The first one has the mark's
    /// status bit (MS-TDS 2.2.3.1.2).
    ///
    /// Refused with `NotSending`, `Broken` or, last, `Memory`, and then nothing changes.
    #[tactic(auto, unfolding(crate::specs::Sending::sent_of))]
    pub fn send(&mut self, out: &mut Vec<u8>) -> Result<Sent, ClientRefusal>
        ensures ok { IfOk result (λ answer.
            Does (sent self.old) answer self.new out.old.items out.new.items) }
        ensures refused { IfErr result (IsRefusal (refusal_of (sent self.old))) }
        ensures err { OnErr result (self.new ≡ self.old) }
        ensures nothing { OnErr result (out.new.items ≡ out.old.items) }
    {
        let outgoing = match &self.stage {
            Stage::Idle => return Err(ClientRefusal::NotSending),
            Stage::Sending(outgoing) => *outgoing,
            Stage::Reading => return Err(ClientRefusal::NotSending),
            Stage::Cancelling => return Err(ClientRefusal::NotSending),
            Stage::Broken(_) => return Err(ClientRefusal::Broken),
        };
        let room = self.room();
        let left = &self.message[outgoing.sent..];
        if left.len() <= room {
            let status = Status::of_request(true, outgoing.packets, self.heard.mark);
            put(out, outgoing.kind, status, outgoing.packets, left)?;
            self.stage = Stage::Reading;
            return Ok(Sent::Last);
        }
        let status = Status::of_request(false, outgoing.packets, self.heard.mark);
        put(out, outgoing.kind, status, outgoing.packets, &left[..room])?;
        self.stage = Stage::Sending(Outgoing {
            kind: outgoing.kind,
            sent: outgoing.sent + room,
            packets: outgoing.packets + 1,
        });
        Ok(Sent::More)
    }

    /// Cancels the request underway. One that is not out at all is forgotten. Else an attention is
    /// appended, once: the answer is not told any more, and the client is idle when the attention
    /// is acknowledged (MS-TDS 2.2.1.7).
    ///
    /// Refused with `Broken` or, where something is appended, with `Memory`, and then nothing changes.
    #[tactic(auto, unfolding(crate::specs::Sending::cancelled_sending))]
    #[inline(always)]
    pub fn cancel(&mut self, out: &mut Vec<u8>) -> Result<Cancelled, ClientRefusal>
        ensures ok { IfOk result (λ answer.
            Does (cancelled self.old) answer self.new out.old.items out.new.items) }
        ensures refused { IfErr result (IsRefusal (refusal_of (cancelled self.old))) }
        ensures memory { result ≡ Err ClientRefusal.Memory
            → IfOk (cancelled self.old) (λ wanted. wanted.answer ≡ Cancelled.Asked) }
        ensures err { OnErr result (self.new ≡ self.old) }
        ensures nothing { OnErr result (out.new.items ≡ out.old.items) }
    {
        if let Stage::Idle = &self.stage {
            return Ok(Cancelled::Nothing);
        }
        self.cancel_any(out)
    }

    /// The same in a place of its own: mostly there is nothing to cancel, which is seen where it is asked.
    #[inline(never)]
    #[tactic(auto, unfolding(crate::specs::Sending::cancelled_sending))]
    fn cancel_any(&mut self, out: &mut Vec<u8>) -> Result<Cancelled, ClientRefusal>
        ensures ok { IfOk result (λ answer.
            Does (cancelled self.old) answer self.new out.old.items out.new.items) }
        ensures refused { IfErr result (IsRefusal (refusal_of (cancelled self.old))) }
        ensures memory { result ≡ Err ClientRefusal.Memory
            → IfOk (cancelled self.old) (λ wanted. wanted.answer ≡ Cancelled.Asked) }
        ensures err { OnErr result (self.new ≡ self.old) }
        ensures nothing { OnErr result (out.new.items ≡ out.old.items) }
    {
        match &self.stage {
            Stage::Idle => Ok(Cancelled::Nothing),
            Stage::Sending(outgoing) => {
                let outgoing = *outgoing;
                if outgoing.packets == 0 {
                    self.stage = Stage::Idle;
                    return Ok(Cancelled::Unsent);
                }
                put_ignore_and_attention(out, outgoing.kind, outgoing.packets)?;
                self.stage = Stage::Cancelling;
                Ok(Cancelled::Asked)
            }
            Stage::Reading => {
                put_attention(out)?;
                self.stage = Stage::Cancelling;
                Ok(Cancelled::Asked)
            }
            Stage::Cancelling => Ok(Cancelled::Already),
            Stage::Broken(_) => Err(ClientRefusal::Broken),
        }
    }
}
