//! What a server is at.
ghost use Rattle.std.specs.Prelude.{◌≡◌, ◌≤◌, ℕ, List, length, take, Ok, Err, MatchResult};
ghost use Rattle.tds_packet.specs.Layout.{bits_of};
ghost use Rattle.tds_server.specs.Due.{phase_of};
ghost use Rattle.tds_server.specs.Taking.{fault_in, message_before, content_of, acknowledging_id, is_midway};
ghost use Rattle.tds_session.specs.Effects.{Effect};
ghost use Rattle.tds_session.specs.Session.{SessionState};

use crate::answer::Answer;
use crate::fault::ServerFault;
use crate::message::is_same_kind;
use tds_packet::{Reset, Status};
use tds_request::RequestKind;

#[derive(Drop)]
pub(crate) enum State<S: Drop> {
    /// The next request may come.
    Waiting,
    /// A part of a request's message has come.
    Receiving {
        kind: RequestKind,
        reset: Option<Reset>,
    },
    /// A request is being answered.
    Answering(Answer<S>),
    /// Each packet is answered by this fault.
    Broken(ServerFault),
}

impl<S: Drop> State<S> {
    /// The fault of a broken server.
    pub(crate) fn fault(&self) -> Option<ServerFault>
        ensures { (step : SessionState → S → Effect) (session : SessionState) (content : List ℕ)
            → result ≡ fault_in (phase_of step session self.now content) }
    {
        match self {
            State::Broken(fault) => Some(fault.again()),
            State::Waiting => None,
            State::Receiving { .. } => None,
            State::Answering(_) => None,
        }
    }

    /// The reset of the message that a packet of a request begins or goes on with.
    #[tactic(auto, unfolding(crate::specs::Taking::begun_by, crate::specs::Taking::gone_on_by))]
    pub(crate) fn reset_of_message(
        &self,
        kind: RequestKind,
        status: Status,
    ) -> Result<Option<Reset>, ServerFault>
        ensures { (step : SessionState → S → Effect) (session : SessionState) (content : List ℕ)
            → MatchResult result
            (λ reset. message_before (phase_of step session self.now content) kind (bits_of status)
            ≡ Ok (record {
              kind = kind;
              reset = reset;
              content = content_of
                  (phase_of step session self.now content);
            }))
            (λ fault. message_before (phase_of step session self.now content) kind (bits_of status)
            ≡ Err fault) }
    {
        match self {
            State::Waiting => {
                if status.asks_for_both_resets() {
                    return Err(ServerFault::BothResets);
                }
                Ok(status.reset())
            }
            State::Receiving { kind: begun, reset } => {
                if !is_same_kind(*begun, kind) {
                    return Err(ServerFault::TypeChanged);
                }
                Ok(*reset)
            }
            State::Answering(_) => Err(ServerFault::RequestWhileAnswering),
            State::Broken(fault) => Err(fault.again()),
        }
    }

    /// How many bytes of a message have come, if the server holds so many bytes.
    pub(crate) fn received(&self, count: usize) -> usize
        ensures most { result ≤ count }
        ensures content { (step : SessionState → S → Effect) (session : SessionState)
            (content : List ℕ)
            → length content ≡ count → take result content
            ≡ content_of (phase_of step session self.now content) }
    {
        match self {
            State::Receiving { .. } => count,
            State::Waiting => 0,
            State::Answering(_) => 0,
            State::Broken(_) => 0,
        }
    }

    /// Whether an answer is in its middle: a step of it was done, and one is left.
    pub(crate) fn is_midway(&self) -> bool
        ensures { (step : SessionState → S → Effect) (session : SessionState) (content : List ℕ)
            → result ≡ is_midway (phase_of step session self.now content) }
    {
        match self {
            State::Answering(answer) => answer.begun,
            State::Waiting => false,
            State::Receiving { .. } => false,
            State::Broken(_) => false,
        }
    }

    /// The PacketID of an acknowledgement.
    pub(crate) fn acknowledging_id(&self) -> u8
        ensures { (step : SessionState → S → Effect) (session : SessionState) (content : List ℕ)
            → result ≡ acknowledging_id (phase_of step session self.now content) }
    {
        match self {
            State::Answering(answer) => answer.packet_id,
            State::Waiting => 1,
            State::Receiving { .. } => 1,
            State::Broken(_) => 1,
        }
    }
}
