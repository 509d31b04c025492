//! What a judge's findings are called, for whoever tells them.
#![tactic(auto)]

use tds_judge::{Level, Name};

/// A finding's name.
pub fn word_of(name: Name) -> &'static str {
    match name {
        Name::SecondAttention => "second-attention",
        Name::AttentionUnanswered => "attention-unanswered",
        Name::AttentionIgnored => "attention-ignored",
        Name::AcknowledgementUnasked => "acknowledgement-unasked",
        Name::RequestWhileAnswering => "request-while-answering",
        Name::AnswerUnread => "answer-unread",
        Name::CancelledBeginKept => "cancelled-begin-kept",
        Name::WrongDescriptor => "wrong-descriptor",
        Name::TransactionEndedUnheard => "transaction-ended-unheard",
        Name::ResetEndsTransaction => "reset-ends-transaction",
        Name::IdleInTransaction => "idle-in-transaction",
        Name::TransactionLeftByClose => "transaction-left-by-close",
        Name::ResetOnLaterPacket => "reset-on-later-packet",
        Name::BothResets => "both-resets",
        Name::ResetUnanswered => "reset-unanswered",
        Name::ResetTwice => "reset-twice",
        Name::SessionReusedWithoutReset => "session-reused-without-reset",
        Name::TokenAfterFinalDone => "token-after-final-done",
        Name::NoFinalDone => "no-final-done",
        Name::CutToken => "cut-token",
        Name::WrongToken => "wrong-token",
        Name::PacketSize => "packet-size",
        Name::WrongLength => "wrong-length",
        Name::WrongAttention => "wrong-attention",
        Name::UnfinishedMessage => "unfinished-message",
        Name::UnclearChange => "unclear-change",
        Name::TakenUp => "taken-up",
        Name::Encrypted => "encrypted",
        Name::NotTds => "not-tds",
        _ => later_word(name),
    }
}

/// Of those from 30 on.
fn later_word(name: Name) -> &'static str {
    match name {
        Name::OtherVersion => "other-version",
        Name::Compute => "compute",
        Name::AnswerUnasked => "answer-unasked",
        Name::LentWhileAnswering => "lent-while-answering",
        Name::ResetUnasked => "reset-unasked",
        Name::WrongChange => "wrong-change",
        Name::NoneEnded => "none-ended",
        Name::IgnoreUnended => "ignore-unended",
        Name::WrongDirection => "wrong-direction",
        Name::AcknowledgementNotLast => "acknowledgement-not-last",
        Name::WrongHeaders => "wrong-headers",
        Name::PacketNotFull => "packet-not-full",
        Name::RequestBeforeLogin => "request-before-login",
        Name::ResetToldLate => "reset-told-late",
        Name::AnswerBeforeEnd => "answer-before-end",
        Name::ResetOnBulkLoad => "reset-on-bulk-load",
        _ => "",
    }
}

/// The section of MS-TDS.
pub fn section_of(name: Name) -> &'static str {
    match name {
        Name::SecondAttention => "2.2.1.7",
        Name::AttentionUnanswered => "2.2.1.7",
        Name::AttentionIgnored => "2.2.1.7",
        Name::AcknowledgementUnasked => "2.2.7.6",
        Name::RequestWhileAnswering => "3.2.5",
        Name::AnswerUnread => "3.2.5",
        Name::CancelledBeginKept => "2.2.7.9",
        Name::WrongDescriptor => "2.2.5.3.2",
        Name::TransactionEndedUnheard => "2.2.7.9",
        Name::ResetEndsTransaction => "2.2.3.1.2",
        Name::IdleInTransaction => "2.2.6.9",
        Name::TransactionLeftByClose => "2.2.6.9",
        Name::ResetOnLaterPacket => "2.2.3.1.2",
        Name::BothResets => "2.2.3.1.2",
        Name::ResetUnanswered => "2.2.7.9",
        Name::ResetTwice => "2.2.3.1.2",
        Name::SessionReusedWithoutReset => "2.2.3.1.2",
        Name::TokenAfterFinalDone => "2.2.7.6",
        Name::NoFinalDone => "2.2.7.6",
        Name::CutToken => "2.2.7",
        Name::WrongToken => "2.2.7",
        Name::PacketSize => "2.2.3.1.3",
        Name::WrongLength => "2.2.3.1.3",
        Name::WrongAttention => "2.2.1.7",
        Name::UnfinishedMessage => "2.2.3.1.2",
        Name::UnclearChange => "2.2.7.9",
        Name::TakenUp => "2.2.3",
        Name::Encrypted => "2.2.6.5",
        Name::NotTds => "2.2.3",
        _ => later_section(name),
    }
}

/// Of those from 30 on.
fn later_section(name: Name) -> &'static str {
    match name {
        Name::OtherVersion => "2.2.6.4",
        Name::Compute => "2.2.7.1",
        Name::AnswerUnasked => "3.3.5",
        Name::LentWhileAnswering => "3.2.5",
        Name::ResetUnasked => "2.2.7.9",
        Name::WrongChange => "2.2.7.9",
        Name::NoneEnded => "2.2.7.9",
        Name::IgnoreUnended => "2.2.3.1.2",
        Name::WrongDirection => "2.2.3.1.1",
        Name::AcknowledgementNotLast => "2.2.7.6",
        Name::WrongHeaders => "2.2.5.3",
        Name::PacketNotFull => "2.2.3.1.3",
        Name::RequestBeforeLogin => "2.2.7.14",
        Name::ResetToldLate => "2.2.3.1.2",
        Name::AnswerBeforeEnd => "2.2.3.1.2",
        Name::ResetOnBulkLoad => "2.2.3.1.2",
        _ => "",
    }
}

/// What it says.
pub fn sentence_of(name: Name) -> &'static str {
    match name {
        Name::SecondAttention => "an attention while another one isn't acknowledged",
        Name::AttentionUnanswered => "a request before the acknowledgement of an attention",
        Name::AttentionIgnored => "two answers ended, and nothing acknowledged the attention",
        Name::AcknowledgementUnasked => "an acknowledgement, and no attention is out",
        Name::RequestWhileAnswering => "a request before the end of the answer to the one before",
        Name::AnswerUnread => "closed in the middle of an answer",
        Name::CancelledBeginKept =>
            "a request doesn't name the transaction that a cancelled answer began",
        Name::WrongDescriptor => "a request names another transaction than was told last",
        Name::TransactionEndedUnheard => "a request names a transaction that the server has ended",
        Name::ResetEndsTransaction => "a reset is asked for in a transaction, and rolls it back",
        Name::IdleInTransaction => "nothing was asked for longer than the limit, in a transaction",
        Name::TransactionLeftByClose => "closed in a transaction",
        Name::ResetOnLaterPacket => "a reset bit behind the first packet of a message",
        Name::BothResets => "both reset bits",
        Name::ResetUnanswered => "a request asked for a reset, and its answer has no ENVCHANGE 18",
        Name::ResetTwice => "a reset is asked for, and the request before had one",
        Name::SessionReusedWithoutReset => "a new borrower's first request asks for no reset",
        Name::TokenAfterFinalDone => "a token behind a DONE that says that no more come",
        Name::NoFinalDone => "an answer ended without a final DONE",
        Name::CutToken => "an answer ended inside a token",
        Name::WrongToken => "bytes of an answer that are no tokens",
        Name::PacketSize => "a packet is longer than the size that was agreed on",
        Name::WrongLength => "the Length of a packet is under 8",
        Name::WrongAttention => "an attention with data, or of a status other than 01",
        Name::UnfinishedMessage => "a message begins before the end of the one before",
        Name::UnclearChange => "an ENVCHANGE can't be read",
        Name::TakenUp => "begun in its middle: judged from here on",
        Name::Encrypted => "encrypted from here on",
        Name::NotTds => "no TDS from here on",
        _ => later_sentence(name),
    }
}

/// Of those from 30 on.
fn later_sentence(name: Name) -> &'static str {
    match name {
        Name::OtherVersion => "TDS before 7.2, or 8.0: not judged from here on",
        Name::Compute => "COMPUTE: not judged from here on",
        Name::AnswerUnasked => "an answer, and nothing is to be answered",
        Name::LentWhileAnswering => "lent before an answer or an acknowledgement has come",
        Name::ResetUnasked => "ENVCHANGE 18, and no reset is owed",
        Name::WrongChange =>
            "a begin inside another transaction or of none, or an end of another one",
        Name::NoneEnded => "a commit or rollback, and no transaction is open",
        Name::IgnoreUnended => "a packet that is to be ignored doesn't end its message",
        Name::WrongDirection => "a packet of a type of the other direction",
        Name::AcknowledgementNotLast => "an acknowledgement isn't the last token of its message",
        Name::WrongHeaders => "ALL_HEADERS of a request is missing or wrong",
        Name::PacketNotFull => "a packet of a request isn't full, and isn't its last",
        Name::RequestBeforeLogin => "a request before the end of the login",
        Name::ResetToldLate => "ENVCHANGE 18 behind something of what was asked for",
        Name::AnswerBeforeEnd => "an answer begins before the last packet of its request",
        Name::ResetOnBulkLoad => "a reset is asked for by a bulk load, which may ask for none",
        _ => "",
    }
}

/// How much it weighs.
pub fn level_text(level: Level) -> &'static str {
    match level {
        Level::Breach => "breach",
        Level::Risk => "risk",
        Level::Note => "note",
    }
}
