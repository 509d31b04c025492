//! A client as a value of C.

ghost use Rattle.std.specs.Prelude.{◌≡◌, ◌≤◌, Some, None, IfSome, IfNone, if◌then◌else◌, length, true};
ghost use Rattle.tds_c.specs.Plain.{client_of, have_room, parts_from, plain_of, while_reading, stage_from_number};
ghost use Rattle.tds_c.specs.Streams.{waits};
ghost use Rattle.tds_client.specs.Filling.{room_of};
ghost use Rattle.tds_client.specs.Parts.{AreParts, parts_of, session_from};

use crate::numbers::{
    columns_from, columns_number, done_from, done_number, fault_from, kind_from, mark_from,
    mark_number, size_from, token_fault_number,
};
use tds_client::{Client, ClientParts, Heard, StageParts};

/// A client, in the caller's memory: `struct tds_client`.
#[repr(C)]
#[derive(Clone, Copy)]
pub struct TdsClient {
    /// The descriptor of the open transaction, 0 for none.
    pub descriptor: u64,
    /// The bytes of the request's message that are out.
    pub sent: usize,
    /// The packets of the request that are out.
    pub packets: usize,
    /// The packet size.
    pub size: u16,
    /// 0 idle, 1 sending, 2 reading, 3 cancelling, 4 broken.
    pub stage: u8,
    /// The type of the request's packets, in sending.
    pub kind: u8,
    /// The number of the fault that broke it, and where that is 8, of the token's fault.
    pub fault: u8,
    pub token_fault: u8,
    /// The reset that the next request asks for: 0 none, 1 full, 2 with the transaction kept.
    pub mark: u8,
    /// The final DONE of the message that comes: 0 awaited, 1 answered, 2 acknowledged.
    pub done: u8,
    /// The columns that are known inside the message that comes, 0 for none.
    pub columns: u8,
}

impl TdsClient {
    /// This client, of whose message so many bytes are out.
    #[inline(always)]
    pub(crate) fn new(client: &Client, sent: usize) -> TdsClient
        ensures { result ≡ plain_of (parts_of client.now) sent }
    {
        TdsClient::of(&client.parts(), sent)
    }

    /// The client of these parts, of whose message so many bytes are out.
    #[inline(always)]
    #[tactic(auto, unfolding(crate::specs::Plain::plain_of))]
    pub(crate) fn of(parts: &ClientParts, sent: usize) -> TdsClient
        ensures { result ≡ plain_of parts.now sent }
    {
        let mut plain = TdsClient {
            descriptor: parts.heard.descriptor,
            sent,
            packets: 0,
            size: parts.size.get(),
            stage: 0,
            kind: 0,
            fault: 0,
            token_fault: 0,
            mark: mark_number(parts.heard.mark),
            done: done_number(parts.heard.done),
            columns: columns_number(parts.columns),
        };
        match &parts.stage {
            StageParts::Idle => {}
            StageParts::Sending { kind, packets } => {
                plain.stage = 1;
                plain.kind = kind.byte();
                plain.packets = *packets;
            }
            StageParts::Reading => plain.stage = 2,
            StageParts::Cancelling => plain.stage = 3,
            StageParts::Broken(fault) => {
                plain.stage = 4;
                plain.fault = fault.number();
                plain.token_fault = token_fault_number(fault);
            }
        }
        plain
    }

    /// The client that it is, with these bytes of its message still to go out. None where it is no
    /// client.
    #[inline(always)]
    #[tactic(auto, unfolding(crate::specs::Plain::client_of))]
    pub(crate) fn client(&self, left: Vec<u8>) -> Option<Client>
        ensures { result ≡ client_of self.now left.items }
    {
        let parts = self.parts()?;
        join(parts, left)
    }

    /// Its parts, where it is a client with these bytes of its message still to go out.
    #[inline(always)]
    #[tactic(auto, unfolding(crate::specs::Plain::client_of))]
    pub(crate) fn held(&self, left: &[u8]) -> Option<ClientParts>
        ensures none { IfNone result (client_of self.now left.now ≡ None) }
        ensures some { IfSome result (λ parts.
            client_of self.now left.now ≡ Some (session_from parts left.now)) }
        ensures room { IfSome result (λ parts. AreParts parts.stage left.now) }
    {
        let parts = self.parts()?;
        if !has_room(&parts.stage, left) {
            return None;
        }
        Some(parts)
    }

    /// The same, where these bytes are no more than the data of one packet.
    #[inline(always)]
    #[tactic(auto, unfolding(crate::specs::Streams::waits))]
    pub(crate) fn keeps(&self, kept: &[u8]) -> Option<ClientParts>
        ensures none { IfNone result (waits self.now kept.now ≡ None) }
        ensures some { IfSome result (λ parts.
            waits self.now kept.now ≡ Some (session_from parts kept.now)) }
        ensures whole { IfSome result (λ parts. AreParts parts.stage kept.now) }
        ensures room { IfSome result (λ parts. length kept.now ≤ room_of parts) }
    {
        let parts = self.held(kept)?;
        if kept.len() > usize::from(parts.size.get()) - 8 {
            return None;
        }
        Some(parts)
    }

    /// Whether it is a client that reads an answer.
    #[inline(always)]
    pub(crate) fn is_reading(&self) -> bool
        ensures stage { result ≡ true → self.now.stage ≡ 2 }
        ensures least { result ≡ true → 512 ≤ self.now.size }
        ensures most { result ≡ true → self.now.size ≤ 32767 }
        ensures mark { result ≡ true → self.now.mark ≤ 2 }
        ensures done { result ≡ true → self.now.done ≤ 2 }
        ensures columns { result ≡ true → self.now.columns ≤ 16 }
    {
        if self.stage != 2 || self.size < 512 || self.size > 32_767 {
            return false;
        }
        if self.mark > 2 || self.done > 2 || self.columns > 16 {
            return false;
        }
        true
    }

    /// It reads on: what reading doesn't use is 0, as it is in each value that is written.
    #[inline(always)]
    pub(crate) fn read_on(&mut self)
        ensures { self.new ≡ while_reading self.old }
    {
        self.sent = 0;
        self.packets = 0;
        self.kind = 0;
        self.fault = 0;
        self.token_fault = 0;
    }

    #[inline(always)]
    #[tactic(auto, unfolding(crate::specs::Plain::parts_from))]
    fn parts(&self) -> Option<ClientParts>
        ensures { result ≡ parts_from self.now }
    {
        let size = size_from(self.size)?;
        let stage = self.stage_parts()?;
        let mark = mark_from(self.mark)?;
        let done = done_from(self.done)?;
        let columns = columns_from(self.columns)?;
        Some(ClientParts {
            size,
            stage,
            heard: Heard {
                descriptor: self.descriptor,
                mark,
                done,
            },
            columns,
        })
    }

    #[inline(always)]
    #[tactic(auto, unfolding(crate::specs::Plain::stage_from_number))]
    fn stage_parts(&self) -> Option<StageParts>
        ensures { result ≡ stage_from_number self.now }
    {
        match self.stage {
            0 => Some(StageParts::Idle),
            1 => {
                let kind = kind_from(self.kind)?;
                let packets = self.packets;
                Some(StageParts::Sending { kind, packets })
            }
            2 => Some(StageParts::Reading),
            3 => Some(StageParts::Cancelling),
            4 => {
                let fault = fault_from(self.fault, self.token_fault)?;
                Some(StageParts::Broken(fault))
            }
            _ => None,
        }
    }
}

#[inline(always)]
#[tactic(auto, using(crate::proofs::Joining::joined))]
fn join(parts: ClientParts, left: Vec<u8>) -> Option<Client>
    ensures { result ≡ (if have_room parts.stage (length left.items)
        then Some (session_from parts left.items) else None) }
{
    Client::of_parts(parts, left)
}

/// Whether what is out and what is left is no more than memory can have.
#[inline(always)]
#[tactic(auto, unfolding(crate::specs::Plain::have_room))]
fn has_room(stage: &StageParts, left: &[u8]) -> bool
    ensures exact { result ≡ have_room stage.now (length left.now) }
    ensures whole { result ≡ true → AreParts stage.now left.now }
{
    match stage {
        StageParts::Sending { packets, .. } => *packets <= 0x7FFF_FFFF_FFFF_FFFF - left.len(),
        StageParts::Idle | StageParts::Reading | StageParts::Cancelling | StageParts::Broken(_) =>
            true,
    }
}
