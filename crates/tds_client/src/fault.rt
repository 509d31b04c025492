ghost use Rattle.std.specs.Prelude.{◌≡◌};
ghost use Rattle.tds_client.specs.Faults.{fault_number, refusal_number};

use std::alloc::AllocError;
use tds_token::TokenFault;

/// What a peer did wrong. The client is broken from then on.
///
/// 1 and 2 are found before any token is looked at, 6 behind all of them. Of one token 8 is looked
/// for first, then 7, and then 3, 4 and 5.
#[derive(Debug, Drop)]
pub enum ClientFault {
    /// 1: an answer, and no request is underway.
    AnswerInIdle,
    /// 2: an answer, and the request is not all out.
    AnswerInSending,
    /// 3: a DONE with `0020`, and no attention is out (MS-TDS 2.2.7.6).
    UnaskedAcknowledgement,
    /// 4: an ENVCHANGE that does not apply to the descriptor (MS-TDS 2.2.7.9).
    WrongEnvChange,
    /// 5: by the strict rules, the end of a reset, and none was asked for (MS-TDS 2.2.7.9, type 18).
    UnaskedReset,
    /// 6: the message ended without a final DONE.
    NoFinalDone,
    /// 7: a token behind the final DONE.
    BehindFinalDone,
    /// 8: the data spell no token.
    Token(TokenFault),
    /// 9: the connection was lost.
    Lost,
}

impl ClientFault {
    /// The fault's number, 1 to 9.
    pub fn number(&self) -> u8
        ensures { result ≡ fault_number self.now }
    {
        match self {
            ClientFault::AnswerInIdle => 1,
            ClientFault::AnswerInSending => 2,
            ClientFault::UnaskedAcknowledgement => 3,
            ClientFault::WrongEnvChange => 4,
            ClientFault::UnaskedReset => 5,
            ClientFault::NoFinalDone => 6,
            ClientFault::BehindFinalDone => 7,
            ClientFault::Token(_) => 8,
            ClientFault::Lost => 9,
        }
    }

    /// The same fault again.
    pub fn again(&self) -> ClientFault
        ensures { result ≡ self.now }
    {
        match self {
            ClientFault::AnswerInIdle => ClientFault::AnswerInIdle,
            ClientFault::AnswerInSending => ClientFault::AnswerInSending,
            ClientFault::UnaskedAcknowledgement => ClientFault::UnaskedAcknowledgement,
            ClientFault::WrongEnvChange => ClientFault::WrongEnvChange,
            ClientFault::UnaskedReset => ClientFault::UnaskedReset,
            ClientFault::NoFinalDone => ClientFault::NoFinalDone,
            ClientFault::BehindFinalDone => ClientFault::BehindFinalDone,
            ClientFault::Token(fault) => ClientFault::Token(token_fault_again(fault)),
            ClientFault::Lost => ClientFault::Lost,
        }
    }
}

fn token_fault_again(fault: &TokenFault) -> TokenFault
    ensures { result ≡ fault.now }
{
    match fault {
        TokenFault::UnknownToken => TokenFault::UnknownToken,
        TokenFault::Cut => TokenFault::Cut,
        TokenFault::WrongLength => TokenFault::WrongLength,
        TokenFault::WrongEnvChange => TokenFault::WrongEnvChange,
        TokenFault::WrongStatus => TokenFault::WrongStatus,
        TokenFault::NoColumns => TokenFault::NoColumns,
        TokenFault::WrongColumn => TokenFault::WrongColumn,
    }
}

/// Why a call is refused. The client is as it was.
#[derive(Debug, Drop)]
pub enum ClientRefusal {
    /// 1: a request is underway.
    NotIdle,
    /// 2: no request is going out.
    NotSending,
    /// 3: the client is broken. This is looked at first.
    Broken,
    /// 4: a growth was refused. This is looked at last.
    Memory,
}

impl ClientRefusal {
    /// The refusal's number, 1 to 4.
    pub fn number(&self) -> u8
        ensures { result ≡ refusal_number self.now }
    {
        match self {
            ClientRefusal::NotIdle => 1,
            ClientRefusal::NotSending => 2,
            ClientRefusal::Broken => 3,
            ClientRefusal::Memory => 4,
        }
    }
}

impl From<AllocError> for ClientRefusal {
    ghost use Rattle.tds_client.specs.declared.fault.ClientRefusal.TheVariants.{Memory};

    ghost from_gives = { λ _ refusal. refusal ≡ Memory };

    fn from(_: AllocError) -> ClientRefusal {
        ClientRefusal::Memory
    }
}
