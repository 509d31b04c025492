//! Requests that begin: asked, or kept for a connection.
ghost use Rattle.std.specs.Prelude.{◌≡◌, ◌⊎◌, Bool, IfNone, IsSome, None, IfSome, OnOk, Some, false, true};
ghost use Rattle.slab.specs.Slab.{get};
ghost use Rattle.tds_relay.specs.Asking.{IsTakenBack, IsUnderway, waits_of};
ghost use Rattle.tds_client.specs.Streams.{packets_are};
ghost use Rattle.tds_packet.specs.declared.status.Reset.TheVariants.{KeepTransaction};
ghost use Rattle.tds_relay.specs.Bodies.{BeginsBody, Body, Spared, Starts, StartsInPlace, body_of, standing_in};
ghost use Rattle.tds_relay.specs.Cleaning.{CleaningsWaitAt, LeavesAllAt, OfItsHold, WaitsAtEnd};
ghost use Rattle.tds_relay.specs.Closings.{ClosesOnly, IsNoRequest, register_in};
ghost use Rattle.tds_relay.specs.Few.{IsSeated};
ghost use Rattle.tds_relay.specs.Waking.{BeginsFrom};
ghost use Rattle.tds_relay.specs.Fronts.{Moved, ends_in, core_in};
ghost use Rattle.tds_relay.specs.Core.{AsksFor, AsksToPart, IfAsked, IfOpen, IsBegun, end_at};
ghost use Rattle.tds_relay.specs.Lent.{AnewIfLent, KeepsAnswers, OthersKeepAt};
ghost use Rattle.tds_relay.specs.Waiting.{IsRightlyKept};
ghost use Rattle.tds_relay.specs.Ordering.{opens_in};
ghost use Rattle.tds_relay.specs.Places.{HasNoTransaction};
ghost use Rattle.tds_relay.specs.Pool.{find_key};
ghost use Rattle.tds_relay.specs.Queues.{queues_in};
ghost use Rattle.tds_relay.specs.Reads.{LinksStay, waits_on};
ghost use Rattle.tds_relay.specs.Reasons.{CannotBegin, CannotPart, HasTransaction, IsUnrenewed, ItselfFor};
ghost use Rattle.tds_relay.specs.Ties.{Application, LedTo, IsReached, pool_in};
ghost use Rattle.tds_relay.specs.TokenParsers.{AllStand};
ghost use Rattle.tds_relay.specs.Sparing.{OthersRest};

use super::Relay;
use crate::NoMemory;
use crate::pool::Renewed;
use crate::state::Asking;
use tds_client::MessageKind;
use tds_packet::{Kind, Reset};

impl Relay {
    /// A request begins. Where it asks for a reset itself, its application gives back what it holds; but
    /// where the transaction is to stay, and one is open as far as is heard, its connection stays too.
    #[tactic(auto, using(crate::proofs::steps::Reaching::reaches_turn, crate::proofs::steps::Reaching::reaches_left, crate::proofs::steps::Queueing::kept_more, crate::proofs::steps::Queueing::queues_kept, crate::proofs::steps::Fronts::ends_more, crate::proofs::steps::Fronts::ends_kept, crate::proofs::steps::Staying::stays_refl, crate::proofs::steps::Underway::of_none))]
    pub(super) fn begin(
        &mut self,
        key: usize,
        kind: Kind,
        reset: Option<Reset>,
    ) -> Result<(), NoMemory>
        ensures goes { OnOk result (LedTo (Application key)
            (pool_in self.old.pool) (pool_in self.new.pool)) }
        ensures kept { OnOk result (queues_in self.new.applications
            ≡ queues_in self.old.applications) }
        ensures moves { OnOk result (IfAsked reset (end_at (ends_in self.old.applications) key)
            → IfOpen IsBegun (end_at (ends_in self.old.applications) key)
            → Moved (Application key) (core_in self.old) (core_in self.new)) }
        ensures underway { OnOk result (IsUnderway false self.new.links.items key
            (core_in self.new)) }
        ensures read { OnOk result (LinksStay self.old.links.items self.new.links.items) }
        ensures stand { OnOk result (AllStand self.old.pool.service
            self.new.pool.service) }
        ensures body { OnOk result ((mid : Body) × BeginsBody kind mid
            × Starts mid (body_of key self.new)) }
        ensures closes { OnOk result (ClosesOnly (ItselfFor key (CannotBegin kind reset key
            (end_at (ends_in self.old.applications) key) self.old.pool self.old.links.items))
            (register_in self.old) (register_in self.new)) }
        ensures others { IsReached (pool_in self.old.pool)
            → OnOk result (OthersRest key self.old self.new) }
        ensures seated { IsSeated self.old → OnOk result (IsSeated self.new) }
        ensures opening { opens_in self.new.orders.items ≡ opens_in self.old.orders.items }
        ensures aside { IsReached (pool_in self.old.pool)
            → OnOk result (OthersKeepAt key self.old self.new) }
        ensures puts { OnOk result (BeginsFrom (IsReached (pool_in self.old.pool)) kind reset
            (standing_in key self.old) (standing_in key self.new)) }
        ensures right { OnOk result (IsRightlyKept key self.new) }
        ensures anew { IsReached (pool_in self.old.pool)
            → OnOk result (AnewIfLent self.old self.new) }
        ensures awaits { OnOk result (CleaningsWaitAt self.old self.new) }
    {
        let Some(application) = self.applications.get_mut(key) else {
            return Ok(());
        };
        if application.state.is_over() {
            return Ok(());
        }
        let Some(kind) = message_kind(kind) else {
            return self.expel(key);
        };
        application.forget(Asking::Waits { kind, whole: false });
        let holds = self.pool.hold_of(key).is_some();
        match (holds, reset) {
            (false, _) => self.wait(key),
            (true, None) => self.start(key),
            (true, Some(Reset::KeepTransaction)) => {
                if self.may_keep_later(key) {
                    Ok(())
                } else {
                    self.renew(key)
                }
            }
            (true, Some(Reset::Full)) => self.change(key),
        }
    }

    /// Whether an application holds a connection with an open transaction, on which the server hasn't
    /// acknowledged yet that its last request was taken back.
    #[tactic(auto, using(crate::proofs::steps::Underway::drains))]
    fn may_keep_later(&self, key: usize) -> bool
        ensures later { result ≡ true
            → IsUnderway false self.now.links.items key (core_in self.now) }
        ensures not { result ≡ false
            → IsTakenBack (end_at (ends_in self.now.applications) key)
            → HasNoTransaction (pool_in self.now.pool) key }
        ensures right { result ≡ true → IsRightlyKept key self.now }
    {
        let Some(hold) = self.pool.hold_of(key) else {
            return false;
        };
        let Some(application) = self.applications.get(key) else {
            return false;
        };
        if !application.state.is_withdrawn() {
            return false;
        }
        self.pool.is_open_on(hold.number) == Some(true)
    }

    /// The application lets its connection go, and waits for one like who has come.
    #[tactic(auto, using(crate::proofs::steps::Reaching::reaches_turn, crate::proofs::steps::Reaching::reaches_left))]
    fn change(&mut self, key: usize) -> Result<(), NoMemory>
        ensures goes { OnOk result (LedTo (Application key)
            (pool_in self.old.pool) (pool_in self.new.pool)) }
        ensures kept { OnOk result (queues_in self.new.applications
            ≡ queues_in self.old.applications) }
        ensures moves { OnOk result (AsksToPart (core_in self.old) key
            → IfOpen IsBegun (end_at (ends_in self.old.applications) key)
            → IsSome (find_key key (pool_in self.old.pool).holds)
            → Moved (Application key) (core_in self.old) (core_in self.new)) }
        ensures underway { OnOk result ((whole : Bool)
            → IsUnderway whole self.new.links.items key (core_in self.new)) }
        ensures read { OnOk result (LinksStay self.old.links.items self.new.links.items) }
        ensures stand { OnOk result (AllStand self.old.pool.service
            self.new.pool.service) }
        ensures body { (whole : Bool) → waits_of (get self.old.applications key) ≡ Some whole
            → OnOk result (Spared (body_of key self.old) (body_of key self.new)) }
        ensures closes { OnOk result (ClosesOnly (ItselfFor key (CannotPart key
            (end_at (ends_in self.old.applications) key) self.old.pool))
            (register_in self.old) (register_in self.new)) }
        ensures others { IsReached (pool_in self.old.pool)
            → OnOk result (OthersRest key self.old self.new) }
        ensures seated { IsSeated self.old → OnOk result (IsSeated self.new) }
        ensures opening { opens_in self.new.orders.items ≡ opens_in self.old.orders.items }
        ensures aside { IsReached (pool_in self.old.pool)
            → OnOk result (OthersKeepAt key self.old self.new) }
        ensures right { OnOk result (IsRightlyKept key self.new) }
        ensures answers { OnOk result (KeepsAnswers self.old.links.items self.new.links.items) }
        ensures awaits { OnOk result (CleaningsWaitAt self.old self.new) }
        ensures lets { IsReached (pool_in self.old.pool)
            → OnOk result (LeavesAllAt self.old self.new) }
        ensures ends { IsReached (pool_in self.old.pool) → OnOk result (OfItsHold WaitsAtEnd key
            self.old (λ number. waits_on number self.new.links.items)) }
    {
        if !self.has_nothing_out(key) {
            return self.expel(key);
        }
        self.release(key)?;
        if self.pool.hold_of(key).is_some() {
            return self.expel(key);
        }
        self.wait(key)
    }

    /// The application keeps its connection with its transaction, and its next request resets the rest.
    #[tactic(auto, using(crate::proofs::steps::Reaching::reaches_turn, crate::proofs::steps::Reaching::reaches_left))]
    fn renew(&mut self, key: usize) -> Result<(), NoMemory>
        ensures goes { OnOk result (LedTo (Application key)
            (pool_in self.old.pool) (pool_in self.new.pool)) }
        ensures kept { OnOk result (queues_in self.new.applications
            ≡ queues_in self.old.applications) }
        ensures moves { OnOk result (AsksFor KeepTransaction
            (end_at (ends_in self.old.applications) key)
            → IfOpen IsBegun (end_at (ends_in self.old.applications) key)
            → IsSome (find_key key (pool_in self.old.pool).holds)
            → Moved (Application key) (core_in self.old) (core_in self.new)) }
        ensures underway { (whole : Bool) → waits_of (get self.old.applications key) ≡ Some whole
            → OnOk result (IsUnderway whole self.new.links.items key (core_in self.new)) }
        ensures read { OnOk result (LinksStay self.old.links.items self.new.links.items) }
        ensures stand { OnOk result (AllStand self.old.pool.service
            self.new.pool.service) }
        ensures body { (whole : Bool) → waits_of (get self.old.applications key) ≡ Some whole
            → OnOk result (Starts (body_of key self.old) (body_of key self.new)) }
        ensures closes { OnOk result (ClosesOnly (ItselfFor key (IsUnrenewed
            (HasTransaction (pool_in self.old.pool) key
            ⊎ CannotPart key (end_at (ends_in self.old.applications) key) self.old.pool) key
            (end_at (ends_in self.old.applications) key) self.old.pool self.old.links.items
            (body_of key self.old))) (register_in self.old) (register_in self.new)) }
        ensures others { IsReached (pool_in self.old.pool)
            → OnOk result (OthersRest key self.old self.new) }
        ensures seated { IsSeated self.old → OnOk result (IsSeated self.new) }
        ensures opening { opens_in self.new.orders.items ≡ opens_in self.old.orders.items }
        ensures aside { IsReached (pool_in self.old.pool)
            → OnOk result (OthersKeepAt key self.old self.new) }
        ensures right { OnOk result (IsRightlyKept key self.new) }
        ensures puts { (whole : Bool) → waits_of (get self.old.applications key) ≡ Some whole
            → OnOk result (StartsInPlace (standing_in key self.old).1 (body_of key self.old)
            (body_of key self.new)) }
        ensures anew { IsReached (pool_in self.old.pool)
            → OnOk result (AnewIfLent self.old self.new) }
        ensures awaits { OnOk result (CleaningsWaitAt self.old self.new) }
    {
        match self.pool.renew(key)? {
            Renewed::Kept(hold) => {
                self.restart(hold.number);
                self.start_kept(key)
            }
            Renewed::NotKept => {
                if self.has_transaction(key) {
                    self.expel(key)
                } else {
                    self.change(key)
                }
            }
        }
    }
}

/// The request that packets of this type are.
fn message_kind(kind: Kind) -> Option<MessageKind>
    ensures is { IfSome result (λ message. packets_are message ≡ kind) }
    ensures none { IfNone result (IsNoRequest kind) }
{
    match kind {
        Kind::Batch => Some(MessageKind::Batch),
        Kind::Procedure => Some(MessageKind::Procedure),
        Kind::BulkLoad => Some(MessageKind::BulkLoad),
        Kind::Transaction => Some(MessageKind::Transaction),
        Kind::Answer => None,
        Kind::Attention => None,
    }
}
