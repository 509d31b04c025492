//! What a seat's client hears: a token's sign, the end of a message.

ghost use Rattle.std.specs.Prelude.{◌≡◌, Bool, [], Ok, Err, IfErr, IfOk, IfSome, false, if◌then◌else◌};
ghost use Rattle.tds_wire.specs.declared.told.Token.{Token};
ghost use Rattle.tds_client.specs.declared.sign.Rules.TheVariants.{Any};
ghost use Rattle.tds_client.specs.Faults.{fault_number};
ghost use Rattle.tds_client.specs.Hearing.{hear_sign};
ghost use Rattle.tds_service.specs.Line as line;
ghost use Rattle.tds_service.specs.Line.{heard_at};
ghost use Rattle.tds_service.specs.Packets.{outcome_answer};
ghost use Rattle.tds_service.specs.Parts.{told_by};
ghost use Rattle.tds_service.specs.Ties.{Hears};
ghost use Rattle.tds_c.specs.service.Clients.{apart};
ghost use Rattle.tds_c.specs.service.Hearing.{one_part, told_if};
ghost use Rattle.tds_c.specs.service.Plain.{done_of, fault_of, line_of, mark_of, place_of, stage_of};

use crate::service::plain::TdsSeat;
use tds_client::{ClientFault, ClientParts, FinalDone, Heard, Rules, Sign, StageParts};
use tds_listen::ListenFault;
use tds_packet::{PacketSize, Reset};
use tds_service::Outcome;
use tds_token::Columns;

/// A seat that has heard something: whether the token is told, and what came of it.
#[derive(Drop)]
pub(crate) struct Hearing {
    pub(crate) seat: TdsSeat,
    pub(crate) told: bool,
    pub(crate) outcome: Outcome,
}

#[inline(always)]
fn done_number(done: FinalDone) -> u8
    ensures { done_of result ≡ done }
{
    match done {
        FinalDone::Awaited => 0,
        FinalDone::Answered => 1,
        FinalDone::Acknowledged => 2,
    }
}

#[inline(always)]
#[tactic(auto, unfolding(crate::specs::service::Plain::mark_of))]
fn mark_number(mark: Option<Reset>) -> u8
    ensures { mark_of result ≡ mark }
{
    match mark {
        None => 0,
        Some(Reset::Full) => 1,
        Some(Reset::KeepTransaction) => 2,
    }
}

/// The stage of a client that awaits an answer, or behind an attention its acknowledgement.
#[inline(always)]
fn awaiting(cancelling: bool) -> StageParts
    ensures { result ≡ (if cancelling then StageParts.Cancelling else StageParts.Reading) }
{
    if cancelling {
        StageParts::Cancelling
    } else {
        StageParts::Reading
    }
}

/// What a client that awaits an answer, or behind an attention an acknowledgement, makes of a sign.
#[inline(always)]
fn hear_awaited(heard: Heard, cancelling: bool, sign: Sign) -> Result<Heard, ClientFault>
    ensures ok { IfOk result (λ next. hear_sign Any cancelling heard sign ≡ Ok next) }
    ensures fault { IfErr result (λ fault. hear_sign Any cancelling heard sign ≡ Err fault) }
{
    let Some(size) = PacketSize::new(512) else {
        return Ok(heard);
    };
    let mut parts = ClientParts {
        size,
        stage: awaiting(cancelling),
        heard,
        columns: Columns::none(),
    };
    match parts.hear_sign(Rules::Any, sign) {
        Ok(()) => Ok(parts.heard),
        Err(fault) => Err(fault),
    }
}

impl TdsSeat {
    #[inline(always)]
    pub(crate) fn done(&self) -> FinalDone
        ensures { result ≡ done_of self.now.client.done }
    {
        match self.client.done {
            1 => FinalDone::Answered,
            2 => FinalDone::Acknowledged,
            _ => FinalDone::Awaited,
        }
    }

    /// What its client has heard.
    #[inline(always)]
    fn heard(&self) -> Heard
        ensures { result ≡ (line_of self.now).heard }
    {
        Heard {
            descriptor: self.client.descriptor,
            mark: self.mark(),
            done: self.done(),
        }
    }

    /// The same seat, where its client has heard this.
    #[inline(always)]
    fn with_heard(self, heard: Heard) -> TdsSeat
        ensures line { line_of result ≡ heard_at (line_of self) (stage_of self.client) heard }
        ensures place { place_of result ≡ place_of self }
        ensures number { result.number ≡ self.number }
        ensures apart { apart result.client ≡ apart self.client }
    {
        let mut seat = self;
        seat.hold(heard);
        seat
    }

    /// What its client has heard behind a sign, where it awaits an answer and the sign breaks nothing.
    #[inline(always)]
    #[tactic(auto, unfolding(crate::specs::service::Plain::stage_at))]
    pub(crate) fn hears(&self, sign: Sign) -> Option<Heard>
        ensures stage { IfSome result (λ _. stage_of self.now.client ≡ line.Reading) }
        ensures heard { IfSome result (λ heard.
            hear_sign Any false (line_of self.now).heard sign ≡ Ok heard) }
    {
        if self.client.stage != 2 {
            return None;
        }
        match hear_awaited(self.heard(), false, sign) {
            Ok(heard) => Some(heard),
            Err(_) => None,
        }
    }

    /// Its client has heard this.
    #[inline(always)]
    pub(crate) fn hold(&mut self, heard: Heard)
        ensures line { line_of self.new
            ≡ heard_at (line_of self.old) (stage_of self.old.client) heard }
        ensures place { place_of self.new ≡ place_of self.old }
        ensures number { self.new.number ≡ self.old.number }
        ensures apart { apart self.new.client ≡ apart self.old.client }
    {
        self.client.descriptor = heard.descriptor;
        self.client.mark = mark_number(heard.mark);
        self.client.done = done_number(heard.done);
    }

    /// What broke its client.
    #[inline(always)]
    pub(crate) fn fault(&self) -> ClientFault
        ensures { result ≡ fault_of self.now.client.fault }
    {
        match self.client.fault {
            1 => ClientFault::AnswerInIdle,
            2 => ClientFault::AnswerInSending,
            3 => ClientFault::UnaskedAcknowledgement,
            4 => ClientFault::WrongEnvChange,
            5 => ClientFault::UnaskedReset,
            6 => ClientFault::NoFinalDone,
            7 => ClientFault::BehindFinalDone,
            _ => ClientFault::Lost,
        }
    }

    /// The same seat, whose client is broken by the fault of this number.
    #[inline(always)]
    #[tactic(auto, unfolding(crate::specs::service::Plain::stage_at))]
    pub(crate) fn broken(self, fault: u8) -> TdsSeat
        ensures line { line_of result
            ≡ heard_at (line_of self) (line.Broken (fault_of fault)) (line_of self).heard }
        ensures place { place_of result ≡ place_of self }
        ensures number { result.number ≡ self.number }
        ensures apart { apart result.client ≡ apart self.client }
    {
        let mut seat = self;
        seat.client.stage = 4;
        seat.client.fault = fault;
        seat.client.token_fault = 0;
        seat
    }

    /// Its client hears the sign of a token.
    #[inline(always)]
    #[tactic(auto, unfolding(crate::specs::service::Plain::stage_at))]
    pub(crate) fn hear(self, sign: Sign) -> Hearing
        ensures hears { (token : Token) → Hears (one_part sign token) (line_of self)
            (line_of result.seat) (outcome_answer self.asked result.outcome)
            (told_if result.told token) }
        ensures place { place_of result.seat ≡ place_of self }
        ensures number { result.seat.number ≡ self.number }
        ensures apart { apart result.seat.client ≡ apart self.client }
    {
        match self.client.stage {
            0 => self.breaks(1, ClientFault::AnswerInIdle),
            1 => self.breaks(2, ClientFault::AnswerInSending),
            2 => self.reads(sign),
            3 => self.skips(sign),
            _ => {
                let fault = self.fault();
                Hearing {
                    seat: self,
                    told: false,
                    outcome: Outcome::Fault(ListenFault::Client(fault)),
                }
            }
        }
    }

    /// Its client is broken by this fault, which has this number.
    #[inline(always)]
    pub(crate) fn breaks(self, number: u8, fault: ClientFault) -> Hearing
        requires { fault_of number ≡ fault }
        ensures line { line_of result.seat
            ≡ heard_at (line_of self) (line.Broken fault) (line_of self).heard }
        ensures told { result.told ≡ Bool.false }
        ensures outcome { outcome_answer self.asked result.outcome
            ≡ line.Fault (ListenFault.Client fault) }
        ensures place { place_of result.seat ≡ place_of self }
        ensures number { result.seat.number ≡ self.number }
        ensures apart { apart result.seat.client ≡ apart self.client }
    {
        Hearing {
            seat: self.broken(number),
            told: false,
            outcome: Outcome::Fault(ListenFault::Client(fault)),
        }
    }
}

/// Whether a token of this sign is told.
#[inline(always)]
pub(crate) fn is_told(sign: Sign) -> bool
    ensures { (token : Token) → told_if result token ≡ told_by sign token [] }
{
    match sign {
        Sign::Nothing => true,
        Sign::Change(_) => false,
        Sign::Done { .. } => true,
    }
}

impl TdsSeat {
    /// The same of one that awaits an answer.
    #[inline(always)]
    fn reads(self, sign: Sign) -> Hearing
        requires { stage_of self.client ≡ line.Reading }
        ensures hears { (token : Token) → Hears (one_part sign token) (line_of self)
            (line_of result.seat) (outcome_answer self.asked result.outcome)
            (told_if result.told token) }
        ensures place { place_of result.seat ≡ place_of self }
        ensures number { result.seat.number ≡ self.number }
        ensures apart { apart result.seat.client ≡ apart self.client }
    {
        match hear_awaited(self.heard(), false, sign) {
            Ok(heard) => Hearing {
                seat: self.with_heard(heard),
                told: is_told(sign),
                outcome: Outcome::More,
            },
            Err(fault) => self.breaks(fault.number(), fault),
        }
    }

    /// The same of one that awaits an acknowledgement.
    #[inline(always)]
    fn skips(self, sign: Sign) -> Hearing
        requires { stage_of self.client ≡ line.Cancelling }
        ensures hears { (token : Token) → Hears (one_part sign token) (line_of self)
            (line_of result.seat) (outcome_answer self.asked result.outcome)
            (told_if result.told token) }
        ensures place { place_of result.seat ≡ place_of self }
        ensures number { result.seat.number ≡ self.number }
        ensures apart { apart result.seat.client ≡ apart self.client }
    {
        match hear_awaited(self.heard(), true, sign) {
            Ok(heard) => Hearing {
                seat: self.with_heard(heard),
                told: false,
                outcome: Outcome::More,
            },
            Err(fault) => self.breaks(fault.number(), fault),
        }
    }
}
