//! Hearing an answer, where the client is a plain value: what `Client` hears, without making one.

ghost use Rattle.std.specs.Prelude.{◌≡◌, ℕ, List, Ok, Err, IfOk, IfErr, OnOk, MatchResult};
ghost use Rattle.tds_packet.specs.declared.kind.Kind.TheVariants.{Answer};
ghost use Rattle.tds_token.specs.Contents.{contents_of};
ghost use Rattle.tds_client.specs.declared.state.Taken.TheVariants as takes;
ghost use Rattle.tds_client.specs.Judging.{judged, took_by};
ghost use Rattle.tds_client.specs.Machine.{message_ended, signed, tells};
ghost use Rattle.tds_client.specs.Parts.{session_from, stage_from};
ghost use Rattle.tds_client.specs.Taking.{Hears, broken_by, taken, taken_of};

use super::taking::{Judged, at_end, end_skipped};
use super::{ClientParts, StageParts};
use crate::fault::ClientFault;
use crate::sign::{Rules, Sign};
use crate::state::Taken;
use crate::walks::hear_packet;
use tds_packet::PacketRef;

impl ClientParts {
    /// Whether a token that comes now may be told to the caller that asked: `Client::may_tell`.
    #[inline(always)]
    pub fn may_tell(&self) -> bool
        ensures { (left : List ℕ) → result ≡ tells (stage_from self.now.stage left) }
    {
        match &self.stage {
            StageParts::Reading => true,
            StageParts::Idle | StageParts::Sending { .. } => false,
            StageParts::Cancelling | StageParts::Broken(_) => false,
        }
    }

    /// Takes a packet of an answer (type `04`), and tells nothing: `Client::hear`. It takes no
    /// memory.
    #[inline(always)]
    pub fn hear(&mut self, packet: PacketRef<'_>) -> Result<Taken, ClientFault>
        requires { packet.header.kind ≡ Answer }
        ensures heard { (left : List ℕ) → IfOk result (λ answer.
            Hears (taken_of (session_from self.old left) packet.entry) answer
            (session_from self.new left)) }
        ensures memory { result ≡ Ok takes.NoMemory → ⊥ }
        ensures fault { (left : List ℕ) → IfErr result (λ fault.
            taken_of (session_from self.old left) packet.entry ≡ Err fault) }
        ensures broken { (left : List ℕ) → IfErr result (λ fault.
            session_from self.new left ≡ broken_by (session_from self.old left) fault) }
    {
        match self.judge(packet.header.status.ends(), packet.data) {
            Ok(judged) => Ok(self.apply(judged)),
            Err(fault) => Err(self.fail(fault)),
        }
    }

    /// Judges all tokens of a packet. Nothing changes.
    #[inline(always)]
    #[tactic(auto, unfolding(crate::specs::Taking::taken_reading, crate::specs::Taking::taken_cancelling))]
    fn judge(&self, ends: bool, data: &[u8]) -> Result<Judged, ClientFault>
        ensures exact { (left : List ℕ) → MatchResult result
            (λ next. taken (session_from self.now left) ends «data».now
            ≡ Ok (took_by (session_from self.now left)
            (contents_of self.now.columns «data».now) next))
            (λ fault. taken (session_from self.now left) ends «data».now ≡ Err fault) }
        ensures memory { IfOk result (λ next. next.answer ≡ takes.NoMemory → ⊥) }
    {
        let cancelling = match &self.stage {
            StageParts::Idle => return Err(ClientFault::AnswerInIdle),
            StageParts::Sending { .. } => return Err(ClientFault::AnswerInSending),
            StageParts::Reading => false,
            StageParts::Cancelling => true,
            StageParts::Broken(fault) => return Err(fault.again()),
        };
        let (heard, columns) = hear_packet(cancelling, self.heard, self.columns, ends, data)?;
        if !ends {
            return Ok(Judged {
                answer: Taken::More,
                heard,
                columns,
            });
        }
        if cancelling {
            return Ok(at_end(end_skipped(heard.done), heard));
        }
        Ok(at_end(Taken::Finished, heard))
    }

    /// Hears the sign of the next token (MS-TDS 2.2.7): `Client::hear_sign`. It takes no memory.
    #[inline(always)]
    pub fn hear_sign(&mut self, rules: Rules, sign: Sign) -> Result<(), ClientFault>
        ensures heard { (left : List ℕ) → OnOk result
            (signed rules (session_from self.old left) sign ≡ Ok (session_from self.new left)) }
        ensures fault { (left : List ℕ) → IfErr result (λ fault.
            signed rules (session_from self.old left) sign ≡ Err fault) }
        ensures broken { (left : List ℕ) → IfErr result (λ fault.
            session_from self.new left ≡ broken_by (session_from self.old left) fault) }
    {
        let cancelling = match &self.stage {
            StageParts::Idle => return Err(self.fail(ClientFault::AnswerInIdle)),
            StageParts::Sending { .. } => return Err(self.fail(ClientFault::AnswerInSending)),
            StageParts::Reading => false,
            StageParts::Cancelling => true,
            StageParts::Broken(fault) => return Err(fault.again()),
        };
        match self.heard.hear_sign(rules, cancelling, sign) {
            Ok(heard) => {
                self.heard = heard;
                Ok(())
            }
            Err(fault) => Err(self.fail(fault)),
        }
    }

    /// Hears that a message has ended (MS-TDS 2.2.3.1.2): `Client::end_message`. It takes no
    /// memory.
    #[inline(always)]
    pub fn end_message(&mut self, rules: Rules) -> Result<Taken, ClientFault>
        ensures ended { (left : List ℕ) → IfOk result (λ answer.
            message_ended rules (session_from self.old left)
            ≡ Ok (record { answer = answer; session = session_from self.new left })) }
        ensures memory { result ≡ Ok takes.NoMemory → ⊥ }
        ensures fault { (left : List ℕ) → IfErr result (λ fault.
            message_ended rules (session_from self.old left) ≡ Err fault) }
        ensures broken { (left : List ℕ) → IfErr result (λ fault.
            session_from self.new left ≡ broken_by (session_from self.old left) fault) }
    {
        match self.judge_end(rules) {
            Ok(judged) => Ok(self.apply(judged)),
            Err(fault) => Err(self.fail(fault)),
        }
    }

    /// Judges the end of a message. Nothing changes.
    #[inline(always)]
    fn judge_end(&self, rules: Rules) -> Result<Judged, ClientFault>
        ensures exact { (left : List ℕ) → MatchResult result
            (λ next. message_ended rules (session_from self.now left) ≡ Ok (record {
              answer = next.answer;
              session = judged (session_from self.now left) next;
            }))
            (λ fault. message_ended rules (session_from self.now left) ≡ Err fault) }
        ensures memory { IfOk result (λ next. next.answer ≡ takes.NoMemory → ⊥) }
    {
        let cancelling = match &self.stage {
            StageParts::Idle => return Err(ClientFault::AnswerInIdle),
            StageParts::Sending { .. } => return Err(ClientFault::AnswerInSending),
            StageParts::Reading => false,
            StageParts::Cancelling => true,
            StageParts::Broken(fault) => return Err(fault.again()),
        };
        if !self.heard.may_end(rules, cancelling) {
            return Err(ClientFault::NoFinalDone);
        }
        if cancelling {
            return Ok(at_end(end_skipped(self.heard.done), self.heard));
        }
        Ok(at_end(Taken::Finished, self.heard))
    }

    /// What was judged is done.
    #[inline(always)]
    fn apply(&mut self, next: Judged) -> Taken
        ensures value { result ≡ next.answer }
        ensures done { (left : List ℕ) → session_from self.new left
            ≡ judged (session_from self.old left) next }
    {
        self.heard = next.heard;
        self.columns = next.columns;
        match next.answer {
            Taken::More => {}
            Taken::Finished => self.stage = StageParts::Idle,
            Taken::Acknowledged => self.stage = StageParts::Idle,
            Taken::NoMemory => {}
        }
        next.answer
    }

    /// The client is broken by this fault.
    fn fail(&mut self, fault: ClientFault) -> ClientFault
        ensures value { result ≡ fault }
        ensures broken { (left : List ℕ) → session_from self.new left
            ≡ broken_by (session_from self.old left) fault }
    {
        let again = fault.again();
        self.stage = StageParts::Broken(fault);
        again
    }
}
