//! The calls of a driver that reads an answer's tokens by itself, as one with rows and types of its
//! own does. Each call tells the client one thing that was heard, in the order of the bytes; the
//! client's state moves by the same machine as in `take`. Tokens of which a session needs nothing
//! needn't be told to it.

ghost use Rattle.std.specs.Prelude.{◌≡◌, Ok, Err, IfOk, IfErr, OnOk};
ghost use Rattle.tds_client.specs.declared.sign.Rules.TheVariants.{Any};
ghost use Rattle.tds_client.specs.declared.sign.Sign.TheVariants as signs;
ghost use Rattle.tds_client.specs.declared.state.Taken.TheVariants as takes;
ghost use Rattle.tds_client.specs.Machine.{message_ended, signed, tells};
ghost use Rattle.tds_client.specs.Taking.{broken_by};

use super::{Client, Stage};
use crate::fault::ClientFault;
use crate::sign::{DoneKind, Rules, Sign};
use crate::state::Taken;
use tds_token::EnvChange;

impl Client {
    /// Whether a token that comes now may be told to the caller that asked: in reading alone, so
    /// nothing is told after a cancel.
    pub fn may_tell(&self) -> bool
        ensures { result ≡ tells self.now.stage }
    {
        match &self.stage {
            Stage::Idle => false,
            Stage::Sending(_) => false,
            Stage::Reading => true,
            Stage::Cancelling => false,
            Stage::Broken(_) => false,
        }
    }

    /// Hears the sign of the next token (MS-TDS 2.2.7). It takes no memory. A fault breaks the
    /// client, and changes nothing else; a broken client answers its fault again.
    #[inline(always)]
    pub fn hear_sign(&mut self, rules: Rules, sign: Sign) -> Result<(), ClientFault>
        ensures heard { OnOk result (signed rules self.old sign ≡ Ok self.new) }
        ensures fault { IfErr result (λ fault. signed rules self.old sign ≡ Err fault) }
        ensures broken { IfErr result (λ fault. self.new ≡ broken_by self.old fault) }
    {
        let cancelling = match &self.stage {
            Stage::Idle => return Err(self.fail(ClientFault::AnswerInIdle)),
            Stage::Sending(_) => return Err(self.fail(ClientFault::AnswerInSending)),
            Stage::Reading => false,
            Stage::Cancelling => true,
            Stage::Broken(fault) => return Err(fault.again()),
        };
        match self.heard.hear_sign(rules, cancelling, sign) {
            Ok(heard) => {
                self.heard = heard;
                Ok(())
            }
            Err(fault) => Err(self.fail(fault)),
        }
    }

    /// Hears that a message has ended: the packet with end of message is read to its end (MS-TDS
    /// 2.2.3.1.2). It takes no memory. A message that is read ends after its final DONE, else it is
    /// fault 6; after a cancel it is acknowledged where a DONE of it had bit 0020.
    pub fn end_message(&mut self, rules: Rules) -> Result<Taken, ClientFault>
        ensures ended { IfOk result (λ answer. message_ended rules self.old
            ≡ Ok (record { answer = answer; session = self.new })) }
        ensures memory { result ≡ Ok takes.NoMemory → ⊥ }
        ensures fault { IfErr result (λ fault. message_ended rules self.old ≡ Err fault) }
        ensures broken { IfErr result (λ fault. self.new ≡ broken_by self.old fault) }
    {
        match self.judge_end(rules) {
            Ok(judged) => Ok(self.apply(judged)),
            Err(fault) => Err(self.fail(fault)),
        }
    }

    /// A transaction began or ended, or a reset is done, in an answer of any server (MS-TDS 2.2.7.9:
    /// ENVCHANGE 8, 9, 10 and 18; 11 counts as a begin, 12 and 17 as an end). A change of another
    /// transaction than the known one is fault 4.
    pub fn heard_change(&mut self, change: EnvChange) -> Result<(), ClientFault>
        ensures heard { OnOk result (signed Any self.old (signs.Change change) ≡ Ok self.new) }
        ensures fault { IfErr result (λ fault.
            signed Any self.old (signs.Change change) ≡ Err fault) }
        ensures broken { IfErr result (λ fault. self.new ≡ broken_by self.old fault) }
    {
        self.hear_sign(Rules::Any, Sign::Change(change))
    }

    /// A DONE, DONEPROC or DONEINPROC came with this status, in an answer of any server (MS-TDS
    /// 2.2.7.6 to 2.2.7.8). A DONE with bit 0020 where no attention is out is fault 3.
    pub fn heard_done(&mut self, kind: DoneKind, status: u16) -> Result<(), ClientFault>
        ensures heard { OnOk result (signed Any self.old (signs.Done kind status) ≡ Ok self.new) }
        ensures fault { IfErr result (λ fault.
            signed Any self.old (signs.Done kind status) ≡ Err fault) }
        ensures broken { IfErr result (λ fault. self.new ≡ broken_by self.old fault) }
    {
        self.hear_sign(Rules::Any, Sign::Done { kind, status })
    }

    /// A message of any server ended. `Finished` where the request has its whole answer,
    /// `Acknowledged` where its cancel is acknowledged, `More` where the acknowledgement is still to
    /// come.
    pub fn message_ended(&mut self) -> Result<Taken, ClientFault>
        ensures ended { IfOk result (λ answer. message_ended Any self.old
            ≡ Ok (record { answer = answer; session = self.new })) }
        ensures memory { result ≡ Ok takes.NoMemory → ⊥ }
        ensures fault { IfErr result (λ fault. message_ended Any self.old ≡ Err fault) }
        ensures broken { IfErr result (λ fault. self.new ≡ broken_by self.old fault) }
    {
        self.end_message(Rules::Any)
    }
}
