ghost use Rattle.std.specs.Prelude.{◌≡◌, ◌≢◌, [], ◌++◌, Ok, Err, IfOk, IfErr, OnOk, OnErr, MatchResult, None};
ghost use Rattle.tds_packet.specs.declared.kind.Kind.TheVariants.{Answer};
ghost use Rattle.tds_token.specs.Contents.{contents_of};
ghost use Rattle.tds_client.specs.declared.fault.ClientFault.{ClientFault};
ghost use Rattle.tds_client.specs.declared.state.Taken.TheVariants as takes;
ghost use Rattle.tds_client.specs.declared.heard.FinalDone.TheVariants.{Awaited};
ghost use Rattle.tds_client.specs.Hearing.{with_done};
ghost use Rattle.tds_client.specs.Judging.{answer_skipped, judged, told_in, took_by};
ghost use Rattle.tds_client.specs.Machine.{message_ended};
ghost use Rattle.tds_client.specs.Session.{Reading, Cancelling, Broken};
ghost use Rattle.tds_client.specs.Taking.{Hears, Takes, broken_by};
ghost use Rattle.tds_client.specs.Taking.{taken, taken_of, taken_reading, taken_cancelling};

use super::{Client, Stage};
use crate::NoMemory;
use crate::fault::ClientFault;
use crate::heard::{FinalDone, Heard};
use crate::sign::Rules;
use crate::state::Taken;
use crate::walks::{hear_packet, put_told};
use tds_packet::PacketRef;
use tds_token::{Columns, Token};

/// What a packet without a fault makes of the client, found before anything changes.
#[derive(Clone, Copy, Debug)]
pub(super) struct Judged {
    pub(super) answer: Taken,
    pub(super) heard: Heard,
    pub(super) columns: Columns,
}

impl Client {
    /// Takes a packet of an answer (type `04`), and appends the tokens that are told.
    ///
    /// In reading these are all but the ENVCHANGEs, in their order; in cancelling none is. In both,
    /// each ENVCHANGE is applied. The end of the answer makes a reading client idle; the end of a
    /// message whose final DONE has `0020` makes a cancelling one idle (MS-TDS 2.2.1.7).
    ///
    /// At a fault nothing is appended, and the client is broken. Memory is wanted in reading alone,
    /// for a packet that tells something; where there is none, everything is as it was.
    pub fn take(
        &mut self,
        packet: PacketRef<'_>,
        out: &mut Vec<Token>,
    ) -> Result<Taken, ClientFault>
        requires { packet.header.kind ≡ Answer }
        ensures taken { IfOk result (λ answer.
            Takes (taken_of self.old packet.entry) answer self.old self.new
            out.old.items out.new.items) }
        ensures fault { IfErr result (λ fault. taken_of self.old packet.entry ≡ Err fault) }
        ensures broken { IfErr result (λ fault. self.new ≡ broken_by self.old fault) }
        ensures nothing { OnErr result (out.new.items ≡ out.old.items) }
        // A client that is broken stays as it is, and answers the fault that broke it.
        ensures again { (fault : ClientFault) → self.old.stage ≡ Broken fault
            → (result ≡ Err fault) × (self.new ≡ self.old) }
    {
        // First all tokens are judged; then those that are told are appended; and then nothing can
        // fail any more.
        match self.judge(packet.header.status.ends(), packet.data) {
            Ok(judged) => {
                if self.tell(packet.data, out).is_err() {
                    return Ok(Taken::NoMemory);
                }
                Ok(self.apply(judged))
            }
            Err(fault) => Err(self.fail(fault)),
        }
    }

    /// Takes a packet of an answer (type `04`) as `take` does, and tells nothing: who has the
    /// packet reads its tokens from it by `Tokens`. It takes no memory, so it never wants any.
    pub fn hear(&mut self, packet: PacketRef<'_>) -> Result<Taken, ClientFault>
        requires { packet.header.kind ≡ Answer }
        ensures heard { IfOk result (λ answer.
            Hears (taken_of self.old packet.entry) answer self.new) }
        ensures memory { result ≡ Ok takes.NoMemory → ⊥ }
        ensures fault { IfErr result (λ fault. taken_of self.old packet.entry ≡ Err fault) }
        ensures broken { IfErr result (λ fault. self.new ≡ broken_by self.old fault) }
        ensures again { (fault : ClientFault) → self.old.stage ≡ Broken fault
            → (result ≡ Err fault) × (self.new ≡ self.old) }
    {
        match self.judge(packet.header.status.ends(), packet.data) {
            Ok(judged) => Ok(self.apply(judged)),
            Err(fault) => Err(self.fail(fault)),
        }
    }

    /// Judges all tokens of a packet. Nothing changes.
    fn judge(&self, ends: bool, data: &[u8]) -> Result<Judged, ClientFault>
        ensures exact { MatchResult result
            (λ next. taken self.now ends «data».now
            ≡ Ok (took_by self.now (contents_of self.now.columns «data».now) next))
            (λ fault. taken self.now ends «data».now ≡ Err fault) }
        ensures memory { IfOk result (λ next. next.answer ≡ takes.NoMemory → ⊥) }
    {
        match &self.stage {
            Stage::Idle => Err(ClientFault::AnswerInIdle),
            Stage::Sending(_) => Err(ClientFault::AnswerInSending),
            Stage::Reading => self.judge_reading(ends, data),
            Stage::Cancelling => self.judge_cancelling(ends, data),
            Stage::Broken(fault) => Err(fault.again()),
        }
    }

    #[tactic(auto, unfolding(crate::specs::Taking::taken_reading))]
    fn judge_reading(&self, ends: bool, data: &[u8]) -> Result<Judged, ClientFault>
        requires { self.now.stage ≡ Reading }
        ensures exact { MatchResult result
            (λ next. taken_reading self.now ends «data».now
            ≡ Ok (took_by self.now (contents_of self.now.columns «data».now) next))
            (λ fault. taken_reading self.now ends «data».now ≡ Err fault) }
        ensures memory { IfOk result (λ next. next.answer ≡ takes.NoMemory → ⊥) }
    {
        let (heard, columns) = hear_packet(false, self.heard, self.columns, ends, data)?;
        if !ends {
            return Ok(Judged {
                answer: Taken::More,
                heard,
                columns,
            });
        }
        Ok(at_end(Taken::Finished, heard))
    }

    #[tactic(auto, unfolding(crate::specs::Taking::taken_cancelling))]
    fn judge_cancelling(&self, ends: bool, data: &[u8]) -> Result<Judged, ClientFault>
        requires { self.now.stage ≡ Cancelling }
        ensures exact { MatchResult result
            (λ next. taken_cancelling self.now ends «data».now
            ≡ Ok (took_by self.now (contents_of self.now.columns «data».now) next))
            (λ fault. taken_cancelling self.now ends «data».now ≡ Err fault) }
        ensures memory { IfOk result (λ next. next.answer ≡ takes.NoMemory → ⊥) }
    {
        let (heard, columns) = hear_packet(true, self.heard, self.columns, ends, data)?;
        if !ends {
            return Ok(Judged {
                answer: Taken::More,
                heard,
                columns,
            });
        }
        Ok(at_end(end_skipped(heard.done), heard))
    }

    /// Judges the end of a message. Nothing changes.
    pub(super) fn judge_end(&self, rules: Rules) -> Result<Judged, ClientFault>
        ensures exact { MatchResult result
            (λ next. message_ended rules self.now
            ≡ Ok (record { answer = next.answer; session = judged self.now next }))
            (λ fault. message_ended rules self.now ≡ Err fault) }
        ensures memory { IfOk result (λ next. next.answer ≡ takes.NoMemory → ⊥) }
    {
        let cancelling = match &self.stage {
            Stage::Idle => return Err(ClientFault::AnswerInIdle),
            Stage::Sending(_) => return Err(ClientFault::AnswerInSending),
            Stage::Reading => false,
            Stage::Cancelling => true,
            Stage::Broken(fault) => return Err(fault.again()),
        };
        if !self.heard.may_end(rules, cancelling) {
            return Err(ClientFault::NoFinalDone);
        }
        if cancelling {
            return Ok(at_end(end_skipped(self.heard.done), self.heard));
        }
        Ok(at_end(Taken::Finished, self.heard))
    }

    /// Appends the tokens that are told, in reading alone. At want of memory nothing is appended.
    fn tell(&self, data: &[u8], out: &mut Vec<Token>) -> Result<(), NoMemory>
        ensures ok { OnOk result (out.new.items ≡ out.old.items
            ++ told_in self.now.stage (contents_of self.now.columns «data».now)) }
        ensures reading { OnErr result (self.now.stage ≡ Reading) }
        ensures telling { OnErr result
            (told_in self.now.stage (contents_of self.now.columns «data».now) ≢ []) }
        ensures nothing { OnErr result (out.new.items ≡ out.old.items) }
    {
        match &self.stage {
            Stage::Idle => Ok(()),
            Stage::Sending(_) => Ok(()),
            Stage::Reading => {
                let length = out.len();
                let told = put_told(*self.message.allocator(), self.columns, data, out);
                if told.is_err() {
                    out.truncate(length);
                }
                told
            }
            Stage::Cancelling => Ok(()),
            Stage::Broken(_) => Ok(()),
        }
    }

    /// What was judged is done.
    pub(super) fn apply(&mut self, next: Judged) -> Taken
        ensures value { result ≡ next.answer }
        ensures done { self.new ≡ judged self.old next }
    {
        self.heard = next.heard;
        self.columns = next.columns;
        match next.answer {
            Taken::More => {}
            Taken::Finished => self.stage = Stage::Idle,
            Taken::Acknowledged => self.stage = Stage::Idle,
            Taken::NoMemory => {}
        }
        next.answer
    }

    /// The client is broken by this fault.
    pub(super) fn fail(&mut self, fault: ClientFault) -> ClientFault
        ensures value { result ≡ fault }
        ensures broken { self.new ≡ broken_by self.old fault }
    {
        let again = fault.again();
        self.stage = Stage::Broken(fault);
        again
    }
}

/// What the end of a message answers in cancelling: it is acknowledged, or its acknowledgement is
/// still to come.
pub(super) fn end_skipped(done: FinalDone) -> Taken
    ensures { result ≡ answer_skipped done }
{
    match done {
        FinalDone::Awaited => Taken::More,
        FinalDone::Answered => Taken::More,
        FinalDone::Acknowledged => Taken::Acknowledged,
    }
}

/// The message has ended: of the next one nothing is known.
pub(super) fn at_end(answer: Taken, heard: Heard) -> Judged
    ensures { result ≡ record {
      answer = answer;
      heard = with_done heard Awaited;
      columns = None;
    } }
{
    Judged {
        answer,
        heard: Heard {
            done: FinalDone::Awaited,
            ..heard
        },
        columns: Columns::none(),
    }
}
