ghost use Rattle.tds_token.specs.Layout.{token_of};
ghost use Rattle.std.specs.Prelude.{◌≡◌};
ghost use Rattle.tds_packet.specs.declared.status.Reset.{Reset};
ghost use Rattle.tds_client.specs.Hearing.{Gives, hear, hear_change, hear_done};
ghost use Rattle.tds_client.specs.Hearing.{acknowledges_by, any_sign, begun_at, done_behind, ended_at};
ghost use Rattle.tds_client.specs.Hearing.{hear_sign, is_full, may_end, place_change, place_done, reset_told};
ghost use Rattle.tds_client.specs.Hearing.{strict_before, strict_sign};

use crate::fault::ClientFault;
use crate::sign::{DoneKind, Rules, Sign, sign_of};
use tds_packet::Reset;
use tds_token::done_status::{ATTENTION, MORE};
use tds_token::{EnvChange, TokenFault, TokenRef};

/// How the message that comes stands: whether its final DONE has come, and which (MS-TDS 2.2.7.6).
/// A DONE is final when its bit `0001` is clear.
#[derive(Clone, Copy, PartialEq, Eq, Debug)]
pub enum FinalDone {
    /// It has not come.
    Awaited,
    /// It ended an answer.
    Answered,
    /// It has bit `0020`: it acknowledges an attention.
    Acknowledged,
}

/// What the tokens of a message change.
#[derive(Clone, Copy, PartialEq, Eq, Debug)]
pub struct Heard {
    /// The descriptor of the open transaction, 0 for none.
    pub descriptor: u64,
    /// The reset that is asked for, until its end is heard.
    pub mark: Option<Reset>,
    /// How the message stands.
    pub done: FinalDone,
}

impl Heard {
    /// Hears one token of the strict profile. `cancelling` says whether an attention is out.
    #[tactic(auto, unfolding(crate::specs::Hearing::hear))]
    #[inline(always)]
    pub(crate) fn hear(self, cancelling: bool, token: &TokenRef<'_>) -> Result<Heard, ClientFault>
        ensures { Gives result (hear cancelling self (token_of token.now)) }
    {
        self.hear_sign(Rules::Strict, cancelling, sign_of(token))
    }

    /// Hears the sign of one token.
    #[inline(always)]
    pub(crate) fn hear_sign(
        self,
        rules: Rules,
        cancelling: bool,
        sign: Sign,
    ) -> Result<Heard, ClientFault>
        ensures { Gives result (hear_sign rules cancelling self sign) }
    {
        match rules {
            Rules::Strict => self.hear_strict(cancelling, sign),
            Rules::Any => self.hear_any(cancelling, sign),
        }
    }

    /// Hears a sign of the strict profile: none stands behind the final DONE.
    #[inline(always)]
    fn hear_strict(self, cancelling: bool, sign: Sign) -> Result<Heard, ClientFault>
        ensures { Gives result (strict_before self.done cancelling self sign) }
    {
        match self.done {
            FinalDone::Awaited => {}
            FinalDone::Answered => return Err(ClientFault::BehindFinalDone),
            FinalDone::Acknowledged => return Err(ClientFault::BehindFinalDone),
        }
        match sign {
            Sign::Nothing => Ok(self),
            Sign::Change(change) => self.hear_change(change),
            Sign::Done {
                kind: DoneKind::Statement,
                status,
            } => self.hear_done(cancelling, status),
            Sign::Done {
                kind: DoneKind::Procedure,
                ..
            } => Err(ClientFault::Token(TokenFault::UnknownToken)),
            Sign::Done {
                kind: DoneKind::InProcedure,
                ..
            } => Err(ClientFault::Token(TokenFault::UnknownToken)),
        }
    }

    /// Hears a sign of any server.
    #[inline(always)]
    fn hear_any(self, cancelling: bool, sign: Sign) -> Result<Heard, ClientFault>
        ensures { Gives result (any_sign cancelling self sign) }
    {
        match sign {
            Sign::Nothing => Ok(self),
            Sign::Change(change) => self.place_change(change),
            Sign::Done { kind, status } => self.place_done(cancelling, kind, status),
        }
    }

    /// Applies a change of the session to the descriptor (MS-TDS 2.2.7.9).
    #[tactic(auto, unfolding(crate::specs::Hearing::hear_change))]
    #[inline(always)]
    fn hear_change(self, change: EnvChange) -> Result<Heard, ClientFault>
        ensures { Gives result (hear_change self change) }
    {
        let descriptor = match change {
            EnvChange::Begin(begun) => {
                if self.descriptor != 0 {
                    return Err(ClientFault::WrongEnvChange);
                }
                begun
            }
            EnvChange::Commit(ended) => {
                if self.descriptor != ended {
                    return Err(ClientFault::WrongEnvChange);
                }
                0
            }
            EnvChange::Rollback(ended) => {
                if self.descriptor != ended {
                    return Err(ClientFault::WrongEnvChange);
                }
                0
            }
            EnvChange::ResetDone => return self.hear_reset(),
        };
        Ok(Heard { descriptor, ..self })
    }

    /// The reset that was asked for is done: its mark is cleared (MS-TDS 2.2.7.9, type 18).
    #[tactic(auto, unfolding(crate::specs::Hearing::hear_change))]
    #[inline(always)]
    fn hear_reset(self) -> Result<Heard, ClientFault>
        ensures { Gives result (hear_change self EnvChange.ResetDone) }
    {
        let descriptor = match self.mark {
            None => return Err(ClientFault::UnaskedReset),
            Some(Reset::Full) => 0,
            Some(Reset::KeepTransaction) => self.descriptor,
        };
        Ok(Heard {
            descriptor,
            mark: None,
            done: self.done,
        })
    }

    /// Hears a DONE of this status (MS-TDS 2.2.7.6).
    #[tactic(auto, unfolding(crate::specs::Hearing::hear_done))]
    #[inline(always)]
    fn hear_done(self, cancelling: bool, status: u16) -> Result<Heard, ClientFault>
        ensures { Gives result (hear_done cancelling self status) }
    {
        if status & ATTENTION == ATTENTION {
            if !cancelling {
                return Err(ClientFault::UnaskedAcknowledgement);
            }
            return Ok(Heard {
                done: FinalDone::Acknowledged,
                ..self
            });
        }
        if status & MORE == MORE {
            return Ok(self);
        }
        Ok(Heard {
            done: FinalDone::Answered,
            ..self
        })
    }

    /// Whether a message may end here. It ends behind its final DONE; where an attention is out,
    /// any server may break an answer off.
    pub(crate) fn may_end(self, rules: Rules, cancelling: bool) -> bool
        ensures { result ≡ may_end rules cancelling self.done }
    {
        match self.done {
            FinalDone::Awaited => match rules {
                Rules::Strict => false,
                Rules::Any => cancelling,
            },
            FinalDone::Answered => true,
            FinalDone::Acknowledged => true,
        }
    }

    /// Whether a full reset is still to be told.
    fn awaits_full_reset(self) -> bool
        ensures { result ≡ is_full self.mark }
    {
        match self.mark {
            None => false,
            Some(Reset::Full) => true,
            Some(Reset::KeepTransaction) => false,
        }
    }

    /// The descriptor behind the begin of this transaction, or none where it can't be placed: a
    /// full reset ends what was begun before it, so its end is told first.
    fn begun_at(self, begun: u64) -> Option<u64>
        ensures { result ≡ begun_at self.mark self.descriptor begun }
    {
        if begun == 0 || self.awaits_full_reset() {
            return None;
        }
        if self.descriptor == 0 || self.descriptor == begun {
            return Some(begun);
        }
        None
    }

    /// The descriptor behind the end of this transaction, or none where another one is known.
    fn ended_at(self, ended: u64) -> Option<u64>
        ensures { result ≡ ended_at self.descriptor ended }
    {
        if self.descriptor == 0 || self.descriptor == ended {
            return Some(0);
        }
        None
    }

    /// The descriptor behind the news of a reset. Where none was asked for, a procedure of the
    /// server's did a full one (`sp_reset_connection`).
    fn reset_told(self) -> u64
        ensures { result ≡ reset_told self.mark self.descriptor }
    {
        match self.mark {
            None => 0,
            Some(Reset::Full) => 0,
            Some(Reset::KeepTransaction) => self.descriptor,
        }
    }

    /// Applies a change that any server tells: one of a transaction that can't be placed is a fault.
    #[tactic(auto, unfolding(crate::specs::Hearing::place_change))]
    #[inline(always)]
    fn place_change(self, change: EnvChange) -> Result<Heard, ClientFault>
        ensures { Gives result (place_change self change) }
    {
        let placed = match change {
            EnvChange::Begin(begun) => self.begun_at(begun),
            EnvChange::Commit(ended) => self.ended_at(ended),
            EnvChange::Rollback(ended) => self.ended_at(ended),
            EnvChange::ResetDone => {
                return Ok(Heard {
                    descriptor: self.reset_told(),
                    mark: None,
                    done: self.done,
                });
            }
        };
        match placed {
            None => Err(ClientFault::WrongEnvChange),
            Some(descriptor) => Ok(Heard { descriptor, ..self }),
        }
    }

    /// How the message stands behind a DONE of any kind with this status that acknowledges nothing.
    fn done_behind(self, status: u16) -> FinalDone
        ensures { result ≡ done_behind self.done status }
    {
        if self.done == FinalDone::Acknowledged {
            return FinalDone::Acknowledged;
        }
        if status & MORE == MORE {
            FinalDone::Awaited
        } else {
            FinalDone::Answered
        }
    }

    /// Hears a DONE of any server.
    #[tactic(auto, unfolding(crate::specs::Hearing::place_done))]
    #[inline(always)]
    fn place_done(self, cancelling: bool, kind: DoneKind, status: u16) -> Result<Heard, ClientFault>
        ensures { Gives result (place_done cancelling self kind status) }
    {
        if kind.acknowledges(status) {
            if !cancelling {
                return Err(ClientFault::UnaskedAcknowledgement);
            }
            return Ok(Heard {
                done: FinalDone::Acknowledged,
                ..self
            });
        }
        Ok(Heard {
            done: self.done_behind(status),
            ..self
        })
    }
}

impl DoneKind {
    /// Whether a DONE of this kind with this status acknowledges an attention.
    fn acknowledges(self, status: u16) -> bool
        ensures { result ≡ acknowledges_by self status }
    {
        match self {
            DoneKind::Statement => status & ATTENTION == ATTENTION,
            DoneKind::Procedure => false,
            DoneKind::InProcedure => false,
        }
    }
}
