//! What applications do with the connections that they hold.
ghost use Rattle.std.specs.Prelude.{◌≡◌, ℕ, [], Some, IfErr, IfOk, OnErr, OnOk, false, true};
ghost use Rattle.tds_client.specs.Session.{ClientSession};
ghost use Rattle.tds_client.specs.Streams.{finished, put};
ghost use Rattle.tds_service.specs.Table.{Answers, DoesAt, KeepsClients, BeginsMessage, Denies, service_in};
ghost use Rattle.tds_service.specs.Service as calls;
ghost use Rattle.tds_service.specs.Ties.{cancel_answer};
ghost use Rattle.tds_relay.specs.Asking.{SendsOn};
ghost use Rattle.tds_relay.specs.Bodies.{ClientStops};
ghost use Rattle.tds_relay.specs.Pool.{Asks, Does, Ends, Puts, Stops, tallied, find_key};
ghost use Rattle.tds_relay.specs.Sparing.{OthersHold};
ghost use Rattle.tds_relay.specs.Ties.{Turns, pool_in};
ghost use Rattle.tds_relay.specs.TokenParsers.{AllStand};

use super::holds::find_key;
use super::{Figures, Hold, Pool};
use tds_client::{Cancelled, MessageKind};
use tds_service::Refusal;

impl Pool {
    /// Begins a request of this kind on the connection that an application holds.
    #[tactic(auto, using(crate::proofs::spared::Held::action_refl))]
    pub fn ask(&mut self, key: usize, kind: MessageKind) -> Result<Hold, Refusal>
        ensures ok { IfOk result (λ hold. Turns (Does key Asks) (pool_in self.old)
            (pool_in self.new) [] []) }
        ensures sends { IfOk result (λ hold. SendsOn false (pool_in self.new) key) }
        ensures whose { IfOk result (λ hold. find_key key (pool_in self.old).holds ≡ Some hold) }
        ensures opened { IfOk result (λ hold.
            BeginsMessage kind hold.lease self.old.service self.new.service) }
        ensures clients { IfOk result (λ hold.
            KeepsClients hold.lease self.old.service self.new.service) }
        ensures err { OnErr result (pool_in self.new ≡ pool_in self.old) }
        ensures stand { AllStand self.old.service self.new.service }
        ensures others { OthersHold key self.old self.new }
        ensures refused { IfErr result (λ refusal. (hold : Hold)
            → find_key key (pool_in self.old).holds ≡ Some hold
            → Denies (calls.Ask hold.lease) (service_in self.old.service) refusal) }
    {
        let Some(hold) = find_key(&self.holds, key) else {
            return Err(Refusal::Unknown);
        };
        match self.service.ask(hold.lease, kind) {
            Ok(_) => {
                self.figures.requests = self.figures.requests.saturating_add(1);
                Ok(hold)
            }
            Err(refusal) => Err(refusal),
        }
    }

    /// Appends these bytes to it. What goes out is appended to `out`, for its connection.
    #[tactic(auto, using(crate::proofs::spared::Held::action_refl))]
    pub fn put(&mut self, key: usize, bytes: &[u8], out: &mut Vec<u8>) -> Result<Hold, Refusal>
        ensures ok { IfOk result (λ hold. (count : ℕ) × Turns (Does key (Puts count))
            (pool_in self.old) (pool_in self.new) out.old.items out.new.items) }
        ensures sends { IfOk result (λ hold. SendsOn false (pool_in self.new) key) }
        ensures whose { IfOk result (λ hold. find_key key (pool_in self.old).holds ≡ Some hold) }
        ensures puts { IfOk result (λ hold. DoesAt (λ (s : ClientSession). put s bytes.now)
            hold.lease self.old.service self.new.service out.old.items out.new.items) }
        ensures clients { IfOk result (λ hold.
            KeepsClients hold.lease self.old.service self.new.service) }
        ensures err { OnErr result (pool_in self.new ≡ pool_in self.old) }
        ensures stand { AllStand self.old.service self.new.service }
        ensures others { OthersHold key self.old self.new }
        ensures nothing { OnErr result (out.new.items ≡ out.old.items) }
        ensures refused { IfErr result (λ refusal. (hold : Hold)
            → find_key key (pool_in self.old).holds ≡ Some hold → (count : ℕ)
            → Denies (calls.Put hold.lease count) (service_in self.old.service) refusal) }
    {
        let Some(hold) = find_key(&self.holds, key) else {
            return Err(Refusal::Unknown);
        };
        match self.service.put(hold.lease, bytes, out) {
            Ok(_) => Ok(hold),
            Err(refusal) => Err(refusal),
        }
    }

    /// Ends it.
    #[tactic(auto, using(crate::proofs::spared::Held::action_refl))]
    pub fn finish(&mut self, key: usize, out: &mut Vec<u8>) -> Result<Hold, Refusal>
        ensures ok { IfOk result (λ hold. (count : ℕ) × Turns (Does key (Ends count))
            (pool_in self.old) (pool_in self.new) out.old.items out.new.items) }
        ensures sends { IfOk result (λ hold. SendsOn true (pool_in self.new) key) }
        ensures whose { IfOk result (λ hold. find_key key (pool_in self.old).holds ≡ Some hold) }
        ensures ends { IfOk result (λ hold. DoesAt finished
            hold.lease self.old.service self.new.service out.old.items out.new.items) }
        ensures clients { IfOk result (λ hold.
            KeepsClients hold.lease self.old.service self.new.service) }
        ensures err { OnErr result (pool_in self.new ≡ pool_in self.old) }
        ensures stand { AllStand self.old.service self.new.service }
        ensures others { OthersHold key self.old self.new }
        ensures nothing { OnErr result (out.new.items ≡ out.old.items) }
        ensures refused { IfErr result (λ refusal. (hold : Hold)
            → find_key key (pool_in self.old).holds ≡ Some hold → (count : ℕ)
            → Denies (calls.Finish hold.lease count) (service_in self.old.service) refusal) }
    {
        let Some(hold) = find_key(&self.holds, key) else {
            return Err(Refusal::Unknown);
        };
        match self.service.finish(hold.lease, out) {
            Ok(_) => Ok(hold),
            Err(refusal) => Err(refusal),
        }
    }

    /// Cancels it, by an attention where something of it is out.
    #[tactic(auto, using(crate::proofs::spared::Held::action_refl))]
    pub fn cancel(&mut self, key: usize, out: &mut Vec<u8>) -> Result<(Hold, Cancelled), Refusal>
        ensures ok { IfOk result (λ done. Turns (Does key Stops)
            (pool_in self.old) (pool_in self.new) out.old.items out.new.items) }
        ensures whose { IfOk result (λ done. find_key key (pool_in self.old).holds ≡ Some done.0) }
        ensures stops { OnOk result (ClientStops key self.old self.new out.old.items
            out.new.items) }
        ensures how { IfOk result (λ done. (request : ℕ) × Answers (calls.Cancel done.0.lease)
            (service_in self.old.service) (cancel_answer request done.1)) }
        ensures err { OnErr result (pool_in self.new ≡ pool_in self.old) }
        ensures stand { AllStand self.old.service self.new.service }
        ensures others { OthersHold key self.old self.new }
        ensures nothing { OnErr result (out.new.items ≡ out.old.items) }
        ensures refused { IfErr result (λ refusal. (hold : Hold)
            → find_key key (pool_in self.old).holds ≡ Some hold
            → Denies (calls.Cancel hold.lease) (service_in self.old.service) refusal) }
    {
        let Some(hold) = find_key(&self.holds, key) else {
            return Err(Refusal::Unknown);
        };
        match self.service.cancel(hold.lease, out) {
            Ok((_, how)) => {
                self.figures = with_cancel(self.figures, how);
                Ok((hold, how))
            }
            Err(refusal) => Err(refusal),
        }
    }
}

/// With a cancel, where an attention went out for it.
fn with_cancel(figures: Figures, how: Cancelled) -> Figures
    ensures { (request : ℕ) → result ≡ tallied (cancel_answer request how) figures }
{
    match how {
        Cancelled::Asked => Figures {
            requests: figures.requests,
            cancels: figures.cancels.saturating_add(1),
        },
        Cancelled::Unsent => figures,
        Cancelled::Nothing => figures,
        Cancelled::Already => figures,
    }
}
