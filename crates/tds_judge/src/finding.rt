//! What a judge finds.

ghost use Rattle.std.specs.Prelude.{◌≡◌, ◌≤◌, ◌<◌, ◌+◌, nat_lt, true, vec_len, vec_capacity};
ghost use Rattle.tds_judge.specs.Findings.{ends_judging, level_of, noted, number_of};

/// Which way bytes go.
#[derive(Clone, Copy, PartialEq, Eq)]
pub enum Direction {
    ToServer,
    ToClient,
}

/// Where and when something was found: at which byte of its direction, counted from 0, and the time that
/// was handed in with it, in microseconds.
#[derive(Clone, Copy)]
pub struct Spot {
    pub direction: Direction,
    pub offset: u64,
    pub time: u64,
}

/// What was found.
#[derive(Clone, Copy)]
pub enum Name {
    /// 1: an attention while another one isn't acknowledged.
    SecondAttention,
    /// 2: a request before the acknowledgement of an attention.
    AttentionUnanswered,
    /// 3: the answers to a cancelled request and to the one behind it ended, and nothing acknowledged the
    /// attention.
    AttentionIgnored,
    /// 4: an acknowledgement, and no attention is out.
    AcknowledgementUnasked,
    /// 5: a request before the end of the answer to the one before.
    RequestWhileAnswering,
    /// 6: the connection was closed in the middle of an answer.
    AnswerUnread,
    /// 7: a request doesn't name the transaction that a cancelled answer began.
    CancelledBeginKept,
    /// 8: a request names another transaction than was told last. With it: the one that was told.
    WrongDescriptor,
    /// 9: a request names a transaction that the server has ended. With it: that transaction.
    TransactionEndedUnheard,
    /// 10: a reset is asked for in a transaction, which it rolls back. With it: the transaction.
    ResetEndsTransaction,
    /// 11: nothing was asked for longer than the limit, in a transaction. With it: the microseconds.
    IdleInTransaction,
    /// 12: the connection was closed in a transaction. With it: the transaction.
    TransactionLeftByClose,
    /// 13: a reset bit behind a message's first packet. With it: the status.
    ResetOnLaterPacket,
    /// 14: both reset bits. With it: the status.
    BothResets,
    /// 15: the answer to a request with a reset ended without ENVCHANGE 18.
    ResetUnanswered,
    /// 16: a reset is asked for though the request before had one, and was answered.
    ResetTwice,
    /// 17: the first request of a new borrower doesn't ask for a reset.
    SessionReusedWithoutReset,
    /// 18: a token behind a DONE that says that no more come. With it: the token's first byte.
    TokenAfterFinalDone,
    /// 19: an answer ended without a final DONE.
    NoFinalDone,
    /// 20: an answer ended inside a token.
    CutToken,
    /// 21: bytes of an answer that are no tokens. With it: the parser's fault. The judging ends.
    WrongToken,
    /// 22: a packet is longer than the size that was agreed on. With it: its length.
    PacketSize,
    /// 23: a packet's Length is under 8. With it: the Length. The judging ends.
    WrongLength,
    /// 24: an attention with data, or without end of message. With it: its length.
    WrongAttention,
    /// 25: a message begins before the end of the one before.
    UnfinishedMessage,
    /// 26: an ENVCHANGE whose fields don't fit its length.
    UnclearChange,
    /// 27: the direction is judged from behind this byte on.
    TakenUp,
    /// 28: the bytes are encrypted. The judging ends.
    Encrypted,
    /// 29: the bytes are no TDS. The judging ends.
    NotTds,
    /// 30: TDS before 7.2, or 8.0. With it: the highest byte of LOGIN7's version, or 0. The judging ends.
    OtherVersion,
    /// 31: ALTMETADATA or ALTROW. With it: the token's first byte. The judging ends.
    Compute,
    /// 32: an answer begins, and nothing is to be answered.
    AnswerUnasked,
    /// 33: the connection is lent while an answer isn't read, or an attention isn't acknowledged.
    LentWhileAnswering,
    /// 34: ENVCHANGE 18, and no reset is to be told.
    ResetUnasked,
    /// 35: a transaction begins inside another one or without a descriptor, or another one ends than was
    /// told last. With it: the one that was told last.
    WrongChange,
    /// 36: a transaction ends, and none is open. With it: the one that ends.
    NoneEnded,
    /// 37: a packet that is to be ignored doesn't end its message. With it: the status.
    IgnoreUnended,
    /// 38: a packet of a type of the other direction. With it: the type. The judging ends.
    WrongDirection,
    /// 39: of the answer to a request, a token behind an acknowledgement in its message, or an acknowledgement
    /// that says that more come. With it: the token's first byte.
    AcknowledgementNotLast,
    /// 40: ALL_HEADERS of a request is missing or wrong. With it: why, 1 a length, 2 no transaction, 3 two,
    /// 4 a type.
    WrongHeaders,
    /// 41: a packet of a request is shorter than packets are, and doesn't end its message. With it: its length.
    PacketNotFull,
    /// 42: a request before the end of the login.
    RequestBeforeLogin,
    /// 43: a reset is told done behind something of what was asked for.
    ResetToldLate,
    /// 44: an answer begins before the last packet of its request.
    AnswerBeforeEnd,
    /// 45: a reset bit on a bulk load. With it: the status.
    ResetOnBulkLoad,
}

/// How much a finding weighs.
#[derive(Clone, Copy, PartialEq, Eq)]
pub enum Level {
    /// MS-TDS forbids it.
    Breach,
    /// It is lawful, and loses work or an answer.
    Risk,
    /// It is worth knowing.
    Note,
}

/// One finding.
#[derive(Clone, Copy)]
pub struct Finding {
    pub name: Name,
    /// What goes with it, as its name says; else 0.
    pub value: u64,
    pub spot: Spot,
}

impl Name {
    /// The finding's number, 1 to 45.
    pub fn number(self) -> u8
        ensures { result ≡ number_of self }
    {
        match self {
            Name::SecondAttention => 1,
            Name::AttentionUnanswered => 2,
            Name::AttentionIgnored => 3,
            Name::AcknowledgementUnasked => 4,
            Name::RequestWhileAnswering => 5,
            Name::AnswerUnread => 6,
            Name::CancelledBeginKept => 7,
            Name::WrongDescriptor => 8,
            Name::TransactionEndedUnheard => 9,
            Name::ResetEndsTransaction => 10,
            Name::IdleInTransaction => 11,
            Name::TransactionLeftByClose => 12,
            Name::ResetOnLaterPacket => 13,
            Name::BothResets => 14,
            Name::ResetUnanswered => 15,
            Name::ResetTwice => 16,
            Name::SessionReusedWithoutReset => 17,
            Name::TokenAfterFinalDone => 18,
            Name::NoFinalDone => 19,
            Name::CutToken => 20,
            Name::WrongToken => 21,
            Name::PacketSize => 22,
            Name::WrongLength => 23,
            Name::WrongAttention => 24,
            Name::UnfinishedMessage => 25,
            Name::UnclearChange => 26,
            Name::TakenUp => 27,
            Name::Encrypted => 28,
            Name::NotTds => 29,
            _ => self.later_number(),
        }
    }

    /// The number of one of those from 30 on.
    fn later_number(self) -> u8
        ensures { nat_lt 29 (number_of self) ≡ true → result ≡ number_of self }
    {
        match self {
            Name::OtherVersion => 30,
            Name::Compute => 31,
            Name::AnswerUnasked => 32,
            Name::LentWhileAnswering => 33,
            Name::ResetUnasked => 34,
            Name::WrongChange => 35,
            Name::NoneEnded => 36,
            Name::IgnoreUnended => 37,
            Name::WrongDirection => 38,
            Name::AcknowledgementNotLast => 39,
            Name::WrongHeaders => 40,
            Name::PacketNotFull => 41,
            Name::RequestBeforeLogin => 42,
            Name::ResetToldLate => 43,
            Name::AnswerBeforeEnd => 44,
            Name::ResetOnBulkLoad => 45,
            _ => 0,
        }
    }

    /// How much it weighs.
    pub fn level(self) -> Level
        ensures { result ≡ level_of (number_of self) }
    {
        match self.number() {
            6 | 10 | 11 | 12 | 17 | 18 | 26 | 36 | 41 | 43 | 44 | 45 => Level::Risk,
            16 | 27 | 28 | 29 | 30 | 31 | 34 => Level::Note,
            _ => Level::Breach,
        }
    }
}

impl Name {
    /// Whether the judging of its connection ends with it, and so couldn't go on to the end.
    pub fn ends_judging(self) -> bool
        ensures { result ≡ ends_judging (number_of self) }
    {
        match self.number() {
            21 | 23 | 28 | 29 | 30 | 31 | 38 => true,
            _ => false,
        }
    }
}

/// Appends a finding where there is one.
pub fn note(out: &mut Vec<Finding>, spot: Spot, is: bool, name: Name, value: u64)
    requires { vec_len out.old < vec_capacity out.old }
    ensures items { out.new.items ≡ noted out.old.items spot is name value }
    ensures few { vec_len out.new ≤ vec_len out.old + 1 }
    ensures capacity { vec_capacity out.new ≡ vec_capacity out.old }
{
    if is {
        out.push_reserved(Finding { name, value, spot });
    }
}
