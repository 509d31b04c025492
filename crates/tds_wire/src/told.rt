//! What a token says.
mod placing;
mod reading;

pub(crate) use placing::put_token;
pub(crate) use reading::{added, tells, told_of};

/// Bytes of a message.
#[derive(Clone, Copy, Debug, PartialEq, Eq)]
pub struct Place {
    /// The first one, counted from the message's first byte.
    pub start: u64,
    pub length: u64,
}

/// A DONE, DONEPROC or DONEINPROC (MS-TDS 2.2.7.6 to 2.2.7.8).
#[derive(Clone, Copy, Debug, PartialEq, Eq)]
pub struct Done {
    pub status: u16,
    pub command: u16,
    /// Of rows, where the status says that it counts.
    pub count: u64,
}

/// An ERROR or INFO (MS-TDS 2.2.7.10, 2.2.7.13).
#[derive(Clone, Copy, Debug, PartialEq, Eq)]
pub struct Message {
    pub number: i32,
    pub state: u8,
    pub class: u8,
    /// The text, of two bytes a unit.
    pub text: Place,
    /// The server's name and the procedure's, each behind the count of its units in one byte, and the
    /// line in four bytes.
    pub names: Place,
}

/// A SESSIONSTATE (MS-TDS 2.2.7.21).
#[derive(Clone, Copy, Debug, PartialEq, Eq)]
pub struct SessionState {
    pub sequence: u32,
    pub is_recoverable: bool,
    /// The states: each its number, its length and its value.
    pub states: Place,
}

/// What an ENVCHANGE changes (MS-TDS 2.2.7.9).
#[derive(Clone, Copy, Debug, PartialEq, Eq)]
pub enum ChangeValue {
    /// 8 begun, 9 committed, 10 rolled back, 11 enlisted, 12 defected, 17 ended: the descriptors of
    /// the new value and of the old one, each 0 where the value has no bytes.
    Transaction { new: u64, old: u64 },
    /// 18: a reset has been done.
    ResetDone,
    /// 4: the size of packets.
    PacketSize(u32),
    /// 1 database, 2 language, 7 collation, 15 a promoted transaction, 20 routing: where the values
    /// stand, without the counts before them.
    Values { new: Place, old: Place },
    /// Any other type.
    Other,
}

/// An ENVCHANGE.
#[derive(Clone, Copy, Debug, PartialEq, Eq)]
pub struct Change {
    /// Its type.
    pub kind: u8,
    pub value: ChangeValue,
}

/// What a token says.
#[derive(Clone, Copy, Debug, PartialEq, Eq)]
pub enum Told {
    Done(Done),
    Change(Change),
    Message(Message),
    /// The value of a RETURNSTATUS (MS-TDS 2.2.7.18).
    ReturnStatus(i32),
    SessionState(SessionState),
    /// An ENVCHANGE, ERROR, INFO or SESSIONSTATE whose fields don't fit its length or its type.
    Unclear,
    /// Any other token.
    Other,
}

/// A token that has ended.
#[derive(Clone, Copy, Debug, PartialEq, Eq)]
pub struct Token {
    /// Its first byte.
    pub kind: u8,
    /// Where it starts, counted from the message's first byte; and how many bytes it has, that one
    /// counted.
    pub start: u64,
    pub length: u64,
    pub told: Told,
}
