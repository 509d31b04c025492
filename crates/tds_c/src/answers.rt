//! What a call answers, and the number that stands for it. Each number is a constant of
//! `include/tds.h`.

ghost use Rattle.std.specs.Prelude.{◌≡◌};
ghost use Rattle.tds_c.specs.Answers as answers;

use tds_client::{Cancelled, ClientFault, ClientRefusal, Sent, Taken};
use tds_packet::PacketFault;
use tds_token::TokenFault;

/// Why a call was not done, or what the peer did wrong.
#[derive(Drop)]
pub(crate) enum Stop {
    /// 20: the value is no client's.
    NoClient,
    /// 21: the buffer for what is written has no room.
    NoRoom,
    /// 23: the packet size, the reset, the request's text or its isolation level is out of range.
    OutOfRange,
    /// 24: the bytes are no packet yet: more are wanted.
    WantsBytes,
    /// 25: the bytes are not one packet of an answer, from its first byte to its last.
    NoPacket,
    /// 26: the cursor is no place in these data.
    NoPlace,
    /// 31 to 33: the client refuses the call. 22 would be want of memory, which no call has.
    Refused(ClientRefusal),
    /// 41 to 46: the packet's header has this fault.
    Packet(PacketFault),
    /// 51 to 57: the data spell no token.
    Token(TokenFault),
    /// 61 to 69: the peer broke the protocol, and the client is broken.
    Client(ClientFault),
}

impl Stop {
    #[inline(always)]
    pub(crate) fn number(&self) -> u8
        ensures { result ≡ answers.stop_number self.now }
    {
        match self {
            Stop::NoClient => 20,
            Stop::NoRoom => 21,
            Stop::OutOfRange => 23,
            Stop::WantsBytes => 24,
            Stop::NoPacket => 25,
            Stop::NoPlace => 26,
            Stop::Refused(ClientRefusal::Memory) => 22,
            Stop::Refused(refusal) => 30 + refusal.number(),
            Stop::Packet(fault) => 40 + fault.number(),
            Stop::Token(fault) => 50 + fault.number(),
            Stop::Client(fault) => 60 + fault.number(),
        }
    }
}

/// 1 or 2.
#[inline(always)]
pub(crate) fn sent_code(sent: Sent) -> u8
    ensures { result ≡ answers.sent_number sent }
{
    match sent {
        Sent::More => 1,
        Sent::Last => 2,
    }
}

/// 1, 3 or 4.
#[inline(always)]
pub(crate) fn taken_code(taken: Taken) -> u8
    ensures { result ≡ answers.taken_number taken }
{
    match taken {
        Taken::More => 1,
        Taken::Finished => 3,
        Taken::Acknowledged => 4,
        Taken::NoMemory => 22,
    }
}

/// 5 to 8.
#[inline(always)]
pub(crate) fn cancelled_code(cancelled: Cancelled) -> u8
    ensures { result ≡ answers.cancelled_number cancelled }
{
    match cancelled {
        Cancelled::Nothing => 5,
        Cancelled::Already => 6,
        Cancelled::Unsent => 7,
        Cancelled::Asked => 8,
    }
}

/// 0, or why not.
#[inline(always)]
pub(crate) fn done_code(answer: Result<(), Stop>) -> u8
    ensures { result ≡ answers.number_of answers.done_number answer }
{
    match answer {
        Ok(()) => 0,
        Err(stop) => stop.number(),
    }
}
