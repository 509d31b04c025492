//! What both ends of a connection have said so far, and what is wrong with what is said next.

ghost use Rattle.std.specs.Prelude.{◌≡◌};
ghost use Rattle.tds_judge.specs.Talking as talking;

use crate::headers::HeaderFault;
use tds_wire::{ChangeValue, Done, Features, Token, Told};

/// What a judge goes by.
#[derive(Clone, Copy)]
pub struct Limits {
    /// How long a transaction may be idle, in microseconds; 0: as long as it likes.
    pub idle: u64,
    /// The most columns of a result, at most 4,096.
    pub columns: u16,
    /// What the login acknowledged.
    pub features: Features,
}

/// What the newest message to the server is, attentions apart.
#[derive(Clone, Copy)]
pub enum Asked {
    /// None was seen.
    Unknown,
    /// One of the login's.
    Login,
    Request,
}

/// Which reset a request asks for (MS-TDS 2.2.3.1.2).
#[derive(Clone, Copy)]
pub enum Reset {
    None,
    /// RESETCONNECTION: it ends a transaction.
    Full,
    /// RESETCONNECTIONSKIPTRAN: it keeps the transaction.
    Keep,
    /// Both bits, which a request may not have.
    Both,
}

/// The transaction, as the server told it last.
#[derive(Clone, Copy)]
pub enum Transaction {
    /// Nothing was told: the connection was begun in its middle.
    Unknown,
    /// Its descriptor; 0 outside one.
    Told(u64),
}

/// Why the judging ends.
#[derive(Clone, Copy)]
pub enum Ending {
    WrongToken,
    WrongLength,
    Encrypted,
    NotTds,
    OtherVersion,
    Compute,
    WrongDirection,
}

/// What is said on a connection.
#[derive(Clone, Copy)]
pub enum Event {
    /// A packet of this Length, in either direction; and whether it has to be full.
    Packet(u16, bool),
    /// A message begins, and the one before has not ended.
    Unfinished,
    /// A request begins, with this status; and whether it is of a bulk load.
    Request(u8, bool),
    /// A message of the login begins.
    Login,
    /// An attention, of this Length and status.
    Attention(u16, u8),
    /// A later packet of a message to the server, with this status.
    Later(u8),
    /// A request's header names a transaction.
    Names(u64),
    /// A request's ALL_HEADERS is wrong.
    Headers(HeaderFault),
    /// A message to the server ends, and is to be ignored.
    Ignored,
    /// A message to the client begins.
    Answer,
    /// It has this token.
    Says(Token),
    /// It ends: between two tokens, or not.
    Answered(bool),
    /// The direction is judged from here on.
    TakenUp,
    /// The judging ends.
    Stops(Ending, u64),
    /// The connection is lent to somebody else.
    Borrowed,
    /// The connection is closed.
    Closed,
}

/// What both ends have said so far.
#[derive(Clone, Copy)]
pub struct Talk {
    pub asked: Asked,
    /// A request has begun, and no answer has ended since.
    pub underway: bool,
    /// An attention isn't acknowledged; and another one was sent meanwhile.
    pub attention: bool,
    pub doubled: bool,
    /// A request has begun since the attention; and the cancelled request's own answer has ended.
    pub late: bool,
    pub ended_since: bool,
    /// The newest request's last packet is to come, and no other answer is.
    pub asking: bool,
    /// What the newest request asks for, whether ENVCHANGE 18 answered it, and whether it is of a bulk load.
    pub reset: Reset,
    pub reset_done: bool,
    pub bulk: bool,
    /// A message that is to be ignored has ended, and nothing was sent or answered since.
    pub forgotten: bool,
    pub transaction: Transaction,
    /// The newest request's answer began a transaction.
    pub begun: bool,
    /// The transaction was begun by an answer that was cancelled.
    pub begun_unheard: bool,
    /// The transaction that ended last; 0 where none did.
    pub ended: u64,
    /// The answer's newest DONE says that no more come; and one acknowledged an attention.
    pub is_final: bool,
    pub acknowledges: bool,
    /// The next request is the first one of a new borrower.
    pub borrowed: bool,
    /// When the last answer ended, or a transaction began or ended.
    pub since: u64,
    /// The packet size that was told last, and the one that counts, behind the answer that told it; 0 where
    /// it isn't known.
    pub agreed: u32,
    pub most: u32,
    /// TDS 7.2 or later was shown; or what can only be of an earlier version.
    pub dated: bool,
    pub other: bool,
    /// A login has begun, and nothing has let the client in.
    pub entering: bool,
    /// The answer has told that something of what was asked for was done.
    pub worked: bool,
}

impl Reset {
    /// What a status asks for.
    pub fn of(status: u8) -> Reset
        ensures { result ≡ talking.reset_of status }
    {
        match (status / 8 % 2 == 1, status / 16 % 2 == 1) {
            (true, true) => Reset::Both,
            (true, false) => Reset::Full,
            (false, true) => Reset::Keep,
            (false, false) => Reset::None,
        }
    }

    pub fn is_asked(self) -> bool
        ensures { result ≡ talking.is_asked self }
    {
        match self {
            Reset::None => false,
            _ => true,
        }
    }

    pub fn is_full(self) -> bool
        ensures { result ≡ talking.is_full self }
    {
        match self {
            Reset::Full | Reset::Both => true,
            _ => false,
        }
    }

    /// Whether the transaction is kept.
    pub fn keeps(self) -> bool
        ensures { result ≡ talking.keeps self }
    {
        match self {
            Reset::Keep => true,
            _ => false,
        }
    }

    pub fn is_both(self) -> bool
        ensures { result ≡ talking.is_both self }
    {
        match self {
            Reset::Both => true,
            _ => false,
        }
    }
}

impl Asked {
    pub fn is_request(self) -> bool
        ensures { result ≡ talking.is_request self }
    {
        match self {
            Asked::Request => true,
            _ => false,
        }
    }

    pub fn is_known(self) -> bool
        ensures { result ≡ talking.is_known self }
    {
        match self {
            Asked::Unknown => false,
            _ => true,
        }
    }
}

impl Transaction {
    /// The descriptor, 0 where there is none or it isn't known.
    pub fn descriptor(self) -> u64
        ensures { result ≡ talking.descriptor_of self }
    {
        match self {
            Transaction::Unknown => 0,
            Transaction::Told(descriptor) => descriptor,
        }
    }

    pub fn is_told(self) -> bool
        ensures { result ≡ talking.is_told self }
    {
        match self {
            Transaction::Unknown => false,
            Transaction::Told(_) => true,
        }
    }
}

/// Whether the token acknowledges an attention (MS-TDS 2.2.1.7).
pub fn acknowledges(token: &Token) -> bool
    ensures { result ≡ talking.acknowledges token.now }
{
    match token.told {
        Told::Done(done) => done.status / 32 % 2 == 1,
        _ => false,
    }
}

/// Whether the token is an ENVCHANGE that can't be read.
pub fn is_unclear(token: &Token) -> bool
    ensures { result ≡ talking.is_unclear token.now }
{
    match token.told {
        Told::Unclear => token.kind == 0xE3,
        _ => false,
    }
}

/// Whether a DONE can be one of 13 bytes: of one of nine, as before TDS 7.2, the next token's first byte
/// stands in the upper half of its count.
pub fn is_long(done: Done) -> bool
    ensures { result ≡ talking.is_long done }
{
    done.count < 4_294_967_296
}

/// Whether the token is a DONE of before TDS 7.2.
pub fn is_short(token: &Token) -> bool
    ensures { result ≡ talking.is_short token.now }
{
    match token.told {
        Told::Done(done) => !is_long(done),
        _ => false,
    }
}

/// Whether a token of this first byte lets a client in (MS-TDS 2.2.7.14).
pub fn admits(kind: u8) -> bool
    ensures { result ≡ talking.admits kind }
{
    kind == 0xAD
}

/// Whether it tells that something of a request was done: of columns, or a DONE.
pub fn shows_work(kind: u8) -> bool
    ensures { result ≡ talking.shows_work kind }
{
    kind == 0x81 || kind == 0xFD || kind == 0xFE || kind == 0xFF
}

/// Whether a packet is to be ignored and doesn't end its message (MS-TDS 2.2.3.1.2).
pub fn ignores_early(status: u8) -> bool
    ensures { result ≡ talking.ignores_early status }
{
    status / 2 % 2 == 1 && status % 2 != 1
}

/// Whether the token is a DONE that says that more come.
pub fn goes_on(token: &Token) -> bool
    ensures { result ≡ talking.says_more token.now }
{
    match token.told {
        Told::Done(done) => done.status % 2 == 1,
        _ => false,
    }
}

/// Whether the token tells that a reset was done.
pub fn tells_reset(token: &Token) -> bool
    ensures { result ≡ talking.tells_reset token.now }
{
    match token.told {
        Told::Change(change) => match change.value {
            ChangeValue::ResetDone => true,
            _ => false,
        },
        _ => false,
    }
}

/// Which transaction the token ends, or 0.
pub fn ended_by(token: &Token) -> u64
    ensures { result ≡ talking.ended_descriptor token.now }
{
    match token.told {
        Told::Change(change) => match change.value {
            ChangeValue::Transaction { new: _, old } => old,
            _ => 0,
        },
        _ => 0,
    }
}

/// Whether an ENVCHANGE of this type ends a transaction whose descriptor is its old value.
fn ends(kind: u8) -> bool
    ensures { result ≡ talking.ends_old kind }
{
    kind == 9 || kind == 10 || kind == 17
}

impl Transaction {
    /// Whether the token begins another transaction inside this one, or none, or ends another one.
    pub fn is_changed_wrongly(self, token: &Token) -> bool
        ensures { result ≡ talking.changes_wrongly self token.now }
    {
        let open = self.descriptor();
        match token.told {
            Told::Change(change) => match change.value {
                ChangeValue::Transaction { new, old } => {
                    if change.kind == 8 || change.kind == 11 {
                        change.kind == 8 && (new == 0 || (open != 0 && open != new))
                    } else {
                        ends(change.kind) && open != 0 && open != old
                    }
                }
                _ => false,
            },
            _ => false,
        }
    }

    /// Whether the token ends one, and it was told that none is open.
    pub fn is_ended_in_vain(self, token: &Token) -> bool
        ensures { result ≡ talking.ends_none self token.now }
    {
        match token.told {
            Told::Change(change) => match change.value {
                ChangeValue::Transaction { .. } => {
                    ends(change.kind) && self.is_told() && self.descriptor() == 0
                }
                _ => false,
            },
            _ => false,
        }
    }

    /// What an ENVCHANGE that begins one tells. Which value of a type 11 is its descriptor is read in two ways.
    pub fn begun(kind: u8, new: u64) -> Transaction
        ensures { result ≡ talking.begun_as kind new }
    {
        if kind == 11 {
            Transaction::Unknown
        } else {
            Transaction::Told(new)
        }
    }
}
