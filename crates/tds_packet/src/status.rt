ghost use Rattle.std.specs.Prelude.{⊤, ◌≡◌, ◌+◌, ◌==◌, [], ◌∷◌, codes, IfSome, is_some};
ghost use Rattle.tds_packet.specs.Layout.{reset_of, bits_of, has_bit, has_both_resets, is_status};
ghost use Rattle.tds_packet.specs.Resets.{reset_bit, mark_bit};
ghost use Rattle.tds_packet.specs.Sent.{end_bit};

use crate::kind::Direction;
use bitflags::{Flag, Flags, bitflag_items};

/// The reset of the session that a request asks for (MS-TDS 2.2.3.1.2).
#[derive(Clone, Copy, PartialEq, Eq, Debug)]
pub enum Reset {
    /// RESETCONNECTION: the session is made fresh, and a transaction that is open ends.
    Full,
    /// RESETCONNECTIONSKIPTRAN: the session is made fresh, but its transaction stays open.
    KeepTransaction,
}

/// A packet's status, a set of bits (MS-TDS 2.2.3.1.2).
///
/// | Bit | Name | Meaning |
/// |---|---|---|
/// | `01` | `END_OF_MESSAGE` | the last packet of its message |
/// | `02` | `IGNORE` | the server forgets the message that this packet ends |
/// | `08` | `RESET` | on a request's first packet: RESETCONNECTION |
/// | `10` | `RESET_KEEP_TRANSACTION` | on a request's first packet: RESETCONNECTIONSKIPTRAN |
#[derive(Clone, Copy, PartialEq, Eq, Debug)]
pub struct Status(u8);

bitflag_items! {
    impl Status: u8 {
        const END_OF_MESSAGE = 0x01;
        const IGNORE = 0x02;
        const RESET = 0x08;
        const RESET_KEEP_TRANSACTION = 0x10;
    }
}

impl Flags for Status {
    type Bits = u8;

    ghost exact = { ⊤ };

    ghost table = { (codes "END_OF_MESSAGE", 1) ∷ (codes "IGNORE", 2) ∷ (codes "RESET", 8)
        ∷ (codes "RESET_KEEP_TRANSACTION", 16) ∷ [] };

    ghost set_of = { λ s. bits_of s };

    fn flags<'a>() -> &'a [Flag<Status>] {
        Status::FLAGS
    }

    fn bits(&self) -> u8 {
        self.0
    }

    fn from_bits_retain(bits: u8) -> Status {
        Status(bits)
    }
}

impl Status {
    /// The status that a byte stands for, or none where packets of this direction may not have it: to the server any
    /// of the four bits, to the client end of message alone or nothing.
    #[tactic(auto, unfolding(crate::specs::Layout::is_status))]
    pub fn read(byte: u8, direction: Direction) -> Option<Status>
        ensures lawful { is_some result ≡ is_status direction byte }
        ensures value { IfSome result (λ status. bits_of status ≡ byte) }
    {
        match direction {
            Direction::ToServer => Status::from_bits(byte),
            Direction::ToClient => (byte <= 1).then_some(Status(byte)),
        }
    }

    /// Whether it is the last packet of its message.
    pub fn ends(&self) -> bool
        ensures { result ≡ has_bit (bits_of self.now) 1 }
    {
        self.contains(Status::END_OF_MESSAGE)
    }

    /// The reset that a request's first packet asks for, or none where neither or both of its bits are set.
    pub fn reset(&self) -> Option<Reset>
        ensures { result ≡ reset_of (bits_of self.now) }
    {
        match (
            self.contains(Status::RESET),
            self.contains(Status::RESET_KEEP_TRANSACTION),
        ) {
            (true, false) => Some(Reset::Full),
            (false, true) => Some(Reset::KeepTransaction),
            _ => None,
        }
    }

    /// Whether it ends a message that is to be forgotten.
    pub fn is_ignored(&self) -> bool
        ensures { result ≡ has_bit (bits_of self.now) 2 }
    {
        self.contains(Status::IGNORE)
    }

    /// Whether both resets are asked for.
    pub fn asks_for_both_resets(&self) -> bool
        ensures { result ≡ has_both_resets (bits_of self.now) }
    {
        self.contains(Status::RESET) && self.contains(Status::RESET_KEEP_TRANSACTION)
    }

    /// Whether it is end of message and nothing else, as an attention's is.
    pub fn ends_alone(&self) -> bool
        ensures { result ≡ (bits_of self.now == 1) }
    {
        self.bits() == 0x01
    }

    /// The status of a packet of an answer, or of an attention, which ends its message.
    pub fn of_answer(ends: bool) -> Status
        ensures { bits_of result ≡ end_bit ends }
    {
        if ends {
            Status::END_OF_MESSAGE
        } else {
            Status::empty()
        }
    }

    /// The status of a request's packet that goes out behind `before` others of its message. The
    /// first one has the bit of the reset that is asked for.
    pub fn of_request(ends: bool, before: usize, reset: Option<Reset>) -> Status
        ensures { bits_of result ≡ end_bit ends + mark_bit before reset }
    {
        let mut status = if before == 0 {
            reset_status(reset)
        } else {
            Status::empty()
        };
        if ends {
            status.insert(Status::END_OF_MESSAGE);
        }
        status
    }

    /// The status of a packet that ends a message and tells the server to forget it.
    pub fn to_ignore() -> Status
        ensures { bits_of result ≡ 3 }
    {
        let mut status = Status::END_OF_MESSAGE;
        status.insert(Status::IGNORE);
        status
    }
}

/// The status that asks for this reset, and says nothing else.
fn reset_status(reset: Option<Reset>) -> Status
    ensures { bits_of result ≡ reset_bit reset }
{
    match reset {
        None => Status::empty(),
        Some(Reset::Full) => Status::RESET,
        Some(Reset::KeepTransaction) => Status::RESET_KEEP_TRANSACTION,
    }
}
