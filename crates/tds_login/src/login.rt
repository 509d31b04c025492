//! PRELOGIN and LOGIN7 as they come.
ghost use Rattle.std.specs.Prelude.{◌≡◌, ◌⊎◌, ◌<◌, ◌≤◌, [], ◌∷◌, length, take, None, Some, IfOk, IfErr, OnErr};
ghost use Rattle.tds_login.specs.Reading.{new_login, step, stepped, behind, counted, with_data, with_message, with_length, skipped, message_at, message_begun, is_wrong_length, message_done, kept_of, fault_behind, broken_by, fault_of, after, answers_to, demands_of, between};

use crate::answer::LoginAnswer;
use crate::asked::{demands_encryption, login_answer};

/// How many bytes of a message are kept. What stands behind them is counted and forgotten.
const KEPT: usize = 256;

/// The most bytes that a message of the login may have (MS-TDS 2.2.6.4: 128K - 1).
const MESSAGE_LIMIT: u32 = 131_071;

/// The type of a packet of PRELOGIN (MS-TDS 2.2.3.1.1).
const PRELOGIN: u8 = 0x12;

/// The type of a packet of LOGIN7 (MS-TDS 2.2.3.1.1).
const LOGIN7: u8 = 0x10;

/// What is wrong with the bytes of a login.
#[derive(Clone, Copy, Debug, PartialEq, Eq)]
pub enum LoginFault {
    /// A packet's type is not the one that is due: PRELOGIN once, then LOGIN7, or LOGIN7 at once, and the
    /// same in each packet of a message.
    WrongType,
    /// A packet's length is below 8, or that of an empty packet that does not end its message.
    WrongLength,
    /// A message has more than 131,071 bytes.
    LongMessage,
    /// LOGIN7 is too short for what it has to say, or says that it has another length.
    WrongMessage,
    /// The login is over: the connection was let in or refused.
    Over,
}

/// What came of a piece.
#[derive(Clone, Copy, Debug, PartialEq, Eq)]
pub struct LoginFed {
    /// How many bytes of the piece are done with.
    pub count: usize,
    /// What is to be answered, where a message has ended; `None` where more has to come.
    pub answer: Option<LoginAnswer>,
}

/// Where the login is.
#[derive(Clone, Copy, Debug)]
enum Stage {
    /// Nothing has been answered.
    Start,
    /// PRELOGIN has been answered. The peer does or does not demand that what follows is encrypted.
    Prepared { demands_encryption: bool },
    /// It answers this fault from now on.
    Broken(LoginFault),
}

/// A message of the login.
#[derive(Clone, Copy, Debug)]
enum Message {
    PreLogin,
    Login7,
}

/// Which byte of a packet is due (MS-TDS 2.2.3.1).
#[derive(Clone, Copy, Debug)]
enum Due {
    Type,
    Status,
    HighLength,
    LowLength,
    /// One of the header's last bytes, of which so many are due: SPID, PacketID and Window.
    Skipped(u8),
    Data,
}

/// The server's end of a login.
///
/// It keeps at most 256 bytes of a message, and takes no memory.
#[derive(Clone, Copy, Debug)]
pub struct Login {
    stage: Stage,
    /// The message that has begun and not ended.
    message: Option<Message>,
    due: Due,
    /// Whether the packet is the last one of its message.
    ends: bool,
    /// The higher byte of the packet's length.
    high: u8,
    /// How many bytes of the packet's data are to come, once its header has.
    missing: u16,
    /// How many bytes of the message have come.
    count: u32,
    /// The first of them.
    kept: [u8; KEPT],
}

/// What a byte brings: nothing, an answer, or a fault.
type Brought = Result<Option<LoginAnswer>, LoginFault>;

impl Login {
    /// A login as a connection begins.
    pub fn new() -> Login
        ensures { result ≡ new_login }
    {
        Login {
            stage: Stage::Start,
            message: None,
            due: Due::Type,
            ends: false,
            high: 0,
            missing: 0,
            count: 0,
            kept: [0; KEPT],
        }
    }

    /// Takes bytes up to the end of a message. A fault ends the login: each later call answers a fault.
    ///
    /// The login behind a piece is what its bytes make of it, one after the other, so that it doesn't matter
    /// how bytes are cut into pieces.
    pub fn feed(&mut self, piece: &[u8]) -> Result<LoginFed, LoginFault>
        ensures within { IfOk result (λ fed. fed.count ≤ length piece.now) }
        ensures state { IfOk result
            (λ fed. self.new ≡ after self.old (take fed.count piece.now)) }
        // All that came is done with where there is no answer, and no fault is left out.
        ensures all { IfOk result (λ fed. fed.answer ≡ None
            → (fed.count ≡ length piece.now) × ((piece.now ≡ []) ⊎ (fault_of self.new ≡ None))) }
        // The answer is brought by the last byte that is done with, and by no other one.
        ensures quiet { IfOk result (λ fed. fed.answer ≡ None
            → answers_to self.old (take fed.count piece.now) ≡ []) }
        ensures answer { IfOk result (λ fed. (answer : LoginAnswer) → fed.answer ≡ Some answer
            → answers_to self.old (take fed.count piece.now) ≡ answer ∷ []) }
        ensures fault { IfErr result (λ fault. fault_of self.new ≡ Some fault) }
        ensures broken { OnErr result (self.new ≡ after self.old piece.now) }
        ensures unanswered { OnErr result (answers_to self.old piece.now ≡ []) }
    {
        for (place, byte) in piece.iter().enumerate() {
            match self.take(*byte) {
                Ok(None) => {}
                Ok(answer) => {
                    return Ok(LoginFed {
                        count: place + 1,
                        answer,
                    });
                }
                Err(fault) => return Err(fault),
            }
        }
        Ok(LoginFed {
            count: piece.len(),
            answer: None,
        })
    }

    /// Takes one byte.
    #[tactic(auto, unfolding(crate::specs::Reading::step))]
    fn take(&mut self, byte: u8) -> Brought
        ensures state { self.new ≡ (step self.old byte).login }
        ensures brings { result ≡ (step self.old byte).brings }
    {
        let stage = self.stage;
        if let Stage::Broken(fault) = stage {
            return Err(fault);
        }
        let brings = self.take_unbroken(byte);
        let fault = fault_behind(&brings);
        self.break_by(fault);
        brings
    }

    /// Answers this fault from now on, if it is one.
    fn break_by(&mut self, fault: Option<LoginFault>)
        ensures { self.new ≡ broken_by self.old fault }
    {
        if let Some(fault) = fault {
            self.stage = Stage::Broken(fault);
        }
    }

    /// Takes one byte. A fault is left to end the login.
    fn take_unbroken(&mut self, byte: u8) -> Brought
        ensures state { self.new ≡ (stepped self.old self.old.due byte).login }
        ensures brings { result ≡ (stepped self.old self.old.due byte).brings }
    {
        match self.due {
            Due::Type => self.take_type(byte),
            Due::Status => {
                self.ends = byte % 2 == 1;
                self.due = Due::HighLength;
                Ok(None)
            }
            Due::HighLength => {
                self.high = byte;
                self.due = Due::LowLength;
                Ok(None)
            }
            Due::LowLength => self.take_length(256 * u16::from(self.high) + u16::from(byte)),
            Due::Skipped(left) if left > 1 => {
                self.due = Due::Skipped(left - 1);
                Ok(None)
            }
            Due::Skipped(_) => self.go_on(),
            Due::Data => self.take_data(byte),
        }
    }

    /// Takes a packet's type.
    fn take_type(&mut self, byte: u8) -> Brought
        ensures state { self.new
            ≡ (with_message self.old (message_at self.old.message self.old.stage byte)).login }
        ensures brings { result
            ≡ (with_message self.old (message_at self.old.message self.old.stage byte)).brings }
    {
        let Some(message) = message_at(self.message, self.stage, byte) else {
            return Err(LoginFault::WrongType);
        };
        self.message = Some(message);
        self.due = Due::Status;
        Ok(None)
    }

    /// Takes a packet's length.
    fn take_length(&mut self, length: u16) -> Brought
        ensures state { self.new ≡ (with_length self.old length).login }
        ensures brings { result ≡ (with_length self.old length).brings }
    {
        if length < 8 || (length == 8 && !self.ends) {
            return Err(LoginFault::WrongLength);
        }
        self.missing = length - 8;
        self.due = Due::Skipped(4);
        Ok(None)
    }

    /// Takes a byte of a packet's data.
    fn take_data(&mut self, byte: u8) -> Brought
        ensures state { self.new ≡ (with_data self.old byte).login }
        ensures brings { result ≡ (with_data self.old byte).brings }
    {
        if self.count >= MESSAGE_LIMIT {
            return Err(LoginFault::LongMessage);
        }
        self.keep(byte);
        self.go_on()
    }

    /// Keeps a byte of a message, or counts it alone.
    fn keep(&mut self, byte: u8)
        requires { self.old.count < 131071 }
        ensures { self.new ≡ counted self.old byte }
    {
        if (self.count as usize) < KEPT {
            self.kept[self.count as usize] = byte;
        }
        self.count += 1;
        self.missing = self.missing.saturating_sub(1);
    }

    /// Goes on behind a packet's header, or behind a byte of its data.
    fn go_on(&mut self) -> Brought
        ensures state { self.new ≡ (behind self.old).login }
        ensures brings { result ≡ (behind self.old).brings }
    {
        if self.missing > 0 {
            self.due = Due::Data;
            return Ok(None);
        }
        if !self.ends {
            self.due = Due::Type;
            return Ok(None);
        }
        self.end_message()
    }

    /// Answers the message that has come.
    fn end_message(&mut self) -> Brought
        ensures state { self.new ≡ (message_done self.old self.old.message).login }
        ensures brings { result ≡ (message_done self.old self.old.message).brings }
    {
        let Some(message) = self.message else {
            return Err(LoginFault::WrongType);
        };
        let count = self.count;
        self.message = None;
        self.due = Due::Type;
        self.count = 0;
        let kept = &self.kept[..KEPT.min(count as usize)];
        match message {
            Message::PreLogin => {
                let demands_encryption = demands_encryption(kept);
                self.stage = Stage::Prepared { demands_encryption };
                Ok(Some(LoginAnswer::Prepare))
            }
            Message::Login7 => Ok(Some(login_answer(kept, count, demands_of(self.stage))?)),
        }
    }
}

/// The message that a packet with this type belongs to, where it may have come.
fn message_at(begun: Option<Message>, stage: Stage, byte: u8) -> Option<Message>
    ensures { result ≡ message_at begun stage byte }
{
    match (begun, stage) {
        (None, Stage::Start) if byte == PRELOGIN => Some(Message::PreLogin),
        (None, Stage::Start | Stage::Prepared { .. }) if byte == LOGIN7 => Some(Message::Login7),
        (Some(Message::PreLogin), _) if byte == PRELOGIN => Some(Message::PreLogin),
        (Some(Message::Login7), _) if byte == LOGIN7 => Some(Message::Login7),
        _ => None,
    }
}

/// Whether the peer has demanded that what follows PRELOGIN is encrypted.
fn demands_of(stage: Stage) -> bool
    ensures { result ≡ demands_of stage }
{
    match stage {
        Stage::Start => false,
        Stage::Prepared { demands_encryption } => demands_encryption,
        Stage::Broken(_) => false,
    }
}

/// The fault that each later byte brings, where the login ends with this.
fn fault_behind(brought: &Brought) -> Option<LoginFault>
    ensures { result ≡ fault_behind brought.now }
{
    match brought {
        Ok(None) => None,
        Ok(Some(LoginAnswer::Prepare)) => None,
        Ok(Some(LoginAnswer::LetIn(_))) => Some(LoginFault::Over),
        Ok(Some(LoginAnswer::Refuse(_))) => Some(LoginFault::Over),
        Err(fault) => Some(*fault),
    }
}
