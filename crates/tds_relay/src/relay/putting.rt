//! What goes on of requests, to the connections that their applications hold.
ghost use Rattle.std.specs.Prelude.{◌≡◌, IfOk, OnOk, Some, false, true};
ghost use Rattle.tds_relay.specs.Lent.{OffHoldRests};
ghost use Rattle.tds_relay.specs.Apart.{Alone};
ghost use Rattle.tds_relay.specs.Asking.{IsUnderway, SendsOn};
ghost use Rattle.tds_relay.specs.Bodies.{AskAsBefore, AskOn, ClientPuts, Grows, PutsOn, body_of, going_of, held_of};
ghost use Rattle.tds_relay.specs.Closings.{ClosesOnly, NoKey, register_in};
ghost use Rattle.tds_relay.specs.Pool.{find_key};
ghost use Rattle.tds_relay.specs.declared.pool.Hold.{Hold};
ghost use Rattle.tds_relay.specs.Lent.{IsOnItsOwn, KeepsAnswers, LastOrDeaf};
ghost use Rattle.tds_relay.specs.Fronts.{MayPut, MovedOn, ends_in, goes_by, core_in, puts};
ghost use Rattle.tds_relay.specs.Core.{IfOpen, change_end, end_at};
ghost use Rattle.tds_relay.specs.Ordering.{StayOrdered, opens_in};
ghost use Rattle.tds_relay.specs.Queues.{queues_in};
ghost use Rattle.tds_relay.specs.Reads.{LinksStay};
ghost use Rattle.tds_relay.specs.Reasons.{CannotPut, IsReason, IsUnbegun, IsUntaken, ItselfFor};
ghost use Rattle.tds_relay.specs.Sparing.{IsKept, IsUnkept, OthersHold, OthersRest};
ghost use Rattle.tds_relay.specs.Ties.{LedOn, IsReached, pool_in};
ghost use Rattle.tds_relay.specs.TokenParsers.{AllStand};
ghost use Rattle.tds_relay.specs.Few.{IsSeated, KeepsSeats};
ghost use Rattle.tds_relay.specs.Cleaning.{cleaned_in};
ghost use Rattle.tds_relay.specs.Coming.{AskOrGo};
ghost use Rattle.slab.specs.Slab.{get};

use super::Relay;
use crate::NoMemory;
use crate::pool::Pool;
use std::alloc::AllocError;
use tds_service::Refusal;

impl Relay {
    /// Puts bytes of a request on its connection, and its end.
    #[tactic(auto, using(crate::proofs::steps::Reaching::reaches_turn, crate::proofs::steps::Reaching::reaches_turned))]
    pub(super) fn put(&mut self, key: usize, bytes: &[u8], whole: bool) -> Result<(), NoMemory>
        ensures goes { OnOk result (LedOn (pool_in self.old.pool) (pool_in self.new.pool)) }
        ensures kept { OnOk result (queues_in self.new.applications
            ≡ queues_in self.old.applications) }
        ensures moves { OnOk result (MovedOn (core_in self.old) (core_in self.new)) }
        ensures underway { OnOk result (IsUnderway whole self.new.links.items key
            (core_in self.new)) }
        ensures read { OnOk result (LinksStay self.old.links.items self.new.links.items) }
        ensures stand { OnOk result (AllStand self.old.pool.service
            self.new.pool.service) }
        ensures body { OnOk result (PutsOn whole bytes.now key self.old self.new) }
        ensures asks { OnOk result (AskOn self.old.applications self.new.applications) }
        ensures others { IsReached (pool_in self.old.pool)
            → OnOk result (OthersRest key self.old self.new) }
        ensures alone { OnOk result (Alone key (core_in self.old) (core_in self.new)) }
        ensures ordered { OnOk result (StayOrdered self.old.orders.items self.new.orders.items) }
        ensures answers { OnOk result (KeepsAnswers self.old.links.items self.new.links.items) }
        ensures closes { OnOk result (ClosesOnly (ItselfFor key (CannotPut whole bytes.now key
            (end_at (ends_in self.old.applications) key) self.old.pool self.old.links.items))
            (register_in self.old) (register_in self.new)) }
        ensures lasts { OnOk result (LastOrDeaf key self.old.links.items self.new) }
        ensures seated { IsSeated self.old → OnOk result (IsSeated self.new) }
        ensures counts { cleaned_in self.new ≡ cleaned_in self.old }
        ensures opening { opens_in self.new.orders.items ≡ opens_in self.old.orders.items }
        ensures own { IsReached (pool_in self.old.pool) → OnOk result
            (IsOnItsOwn key self.old self.new) }
        ensures off { OnOk result (OffHoldRests key self.old self.new) }
    {
        let Some(hold) = self.pool.hold_of(key) else {
            return self.end(key);
        };
        if !self.may_put(key, whole) {
            return self.fail(key, hold.number);
        }
        self.outbox.clear();
        let is_put = put_on(&mut self.pool, key, bytes, whole, &mut self.outbox)?;
        self.note_went_on(key);
        if !is_put {
            return self.fail(key, hold.number);
        }
        let fits = self.fits_on(hold.number)?;
        if fits {
            Ok(())
        } else {
            self.fail(key, hold.number)
        }
    }

    /// Puts what is kept of a request on its connection.
    #[tactic(auto, using(crate::proofs::steps::Queueing::kept_more, crate::proofs::steps::Queueing::queues_kept, crate::proofs::steps::Fronts::ends_more, crate::proofs::steps::Fronts::ends_kept, crate::proofs::steps::Underway::of_none, crate::proofs::lending::Resting::others_refl, crate::proofs::spared::Ordered::ordered_refl, crate::proofs::spared::Apart::alone_refl, crate::proofs::steps::Answering::ask_refl))]
    pub(super) fn put_held(&mut self, key: usize, whole: bool) -> Result<(), NoMemory>
        ensures goes { OnOk result (LedOn (pool_in self.old.pool) (pool_in self.new.pool)) }
        ensures kept { OnOk result (queues_in self.new.applications
            ≡ queues_in self.old.applications) }
        ensures moves { OnOk result (MovedOn (core_in self.old) (core_in self.new)) }
        ensures underway { OnOk result (IsUnderway whole self.new.links.items key
            (core_in self.new)) }
        ensures read { OnOk result (LinksStay self.old.links.items self.new.links.items) }
        ensures stand { OnOk result (AllStand self.old.pool.service
            self.new.pool.service) }
        ensures body { OnOk result (Grows whole (held_of (get self.old.applications key))
            (going_of key self.old) (body_of key self.new)) }
        ensures others { IsReached (pool_in self.old.pool)
            → OnOk result (OthersRest key self.old self.new) }
        ensures gone { OnOk result (IsUnkept (body_of key self.new)) }
        ensures asks { IsKept (body_of key self.old)
            → OnOk result (AskOrGo self.old.applications self.new.applications) }
        ensures alone { OnOk result (Alone key (core_in self.old) (core_in self.new)) }
        ensures ordered { OnOk result (StayOrdered self.old.orders.items self.new.orders.items) }
        ensures answers { OnOk result (KeepsAnswers self.old.links.items self.new.links.items) }
        ensures closes { OnOk result (ClosesOnly (ItselfFor key (CannotPut whole
            (held_of (get self.old.applications key)) key
            (end_at (ends_in self.old.applications) key) self.old.pool self.old.links.items))
            (register_in self.old) (register_in self.new)) }
        ensures lasts { OnOk result (LastOrDeaf key self.old.links.items self.new) }
        ensures seated { IsSeated self.old → OnOk result (IsSeated self.new) }
        ensures counts { cleaned_in self.new ≡ cleaned_in self.old }
        ensures opening { opens_in self.new.orders.items ≡ opens_in self.old.orders.items }
        ensures own { IsReached (pool_in self.old.pool) → OnOk result
            (IsOnItsOwn key self.old self.new) }
        ensures off { OnOk result (OffHoldRests key self.old self.new) }
    {
        let Some(application) = self.applications.get_mut(key) else {
            return Ok(());
        };
        let held = application.take_held();
        self.put(key, &held, whole)
    }

    /// Whether an application has begun a request, or all of one has come.
    pub(super) fn may_put(&self, key: usize, whole: bool) -> bool
        ensures begun { result ≡ true
            → IfOpen (puts whole) (end_at (ends_in self.now.applications) key) }
        ensures unbegun { result ≡ false
            → IfOpen (IsUnbegun whole) (end_at (ends_in self.now.applications) key) }
    {
        match self.applications.get(key) {
            Some(application) => application.may_put(whole),
            None => false,
        }
    }

    /// Something of a request goes on, where the pool has something to send.
    fn note_went_on(&mut self, key: usize)
        ensures pool { self.new.pool ≡ self.old.pool }
        ensures kept { queues_in self.new.applications ≡ queues_in self.old.applications }
        ensures ends { ends_in self.new.applications
            ≡ change_end key (goes_by self.old.outbox.items) (ends_in self.old.applications) }
        ensures links { self.new.links.items ≡ self.old.links.items }
        ensures asks { AskAsBefore self.old.applications self.new.applications }
        ensures outbox { self.new.outbox.items ≡ self.old.outbox.items }
        ensures orders { self.new.orders.items ≡ self.old.orders.items }
        ensures closes { ClosesOnly NoKey (register_in self.old) (register_in self.new) }
        ensures counts { cleaned_in self.new ≡ cleaned_in self.old }
    {
        if self.outbox.is_empty() {
            return;
        }
        match self.applications.get_mut(key) {
            Some(application) => application.went_on(),
            None => {}
        }
    }
}

/// Puts bytes of a request, and its end. False where one was refused.
fn put_on(
    pool: &mut Pool,
    key: usize,
    bytes: &[u8],
    whole: bool,
    out: &mut Vec<u8>,
) -> Result<bool, NoMemory>
    ensures goes { OnOk result (LedOn (pool_in pool.old) (pool_in pool.new)) }
    ensures puts { OnOk result (MayPut key whole (pool_in pool.old) (pool_in pool.new)
        out.old.items out.new.items) }
    ensures sends { IfOk result (λ is. is ≡ true → SendsOn whole (pool_in pool.new) key) }
    ensures stand { OnOk result (AllStand pool.old.service pool.new.service) }
    ensures body { IfOk result (λ is. is ≡ true → ClientPuts whole bytes.now key pool.old pool.new
        out.old.items out.new.items) }
    ensures others { OnOk result (OthersHold key pool.old pool.new) }
    ensures line { OnOk result ((pool_in pool.new).line ≡ (pool_in pool.old).line) }
    ensures untaken { IfOk result (λ is. is ≡ false → (hold : Hold)
        → find_key key (pool_in pool.old).holds ≡ Some hold
        → IsUntaken whole bytes.now key pool.old) }
    ensures seats { OnOk result (KeepsSeats (pool_in pool.old).service (pool_in pool.new).service) }
    ensures holds { OnOk result ((pool_in pool.new).holds ≡ (pool_in pool.old).holds) }
{
    match pool.put(key, bytes, out) {
        Ok(_) => {}
        Err(refusal) => {
            unless_memory(refusal)?;
            return Ok(false);
        }
    }
    if !whole {
        return Ok(true);
    }
    match pool.finish(key, out) {
        Ok(_) => Ok(true),
        Err(refusal) => {
            unless_memory(refusal)?;
            Ok(false)
        }
    }
}

/// Want of memory is handed up: it's no reason to close an application.
pub(super) fn unless_memory(refusal: Refusal) -> Result<(), NoMemory>
    ensures { OnOk result (IsReason refusal) }
{
    match refusal {
        Refusal::Unknown => Ok(()),
        Refusal::AllInUse => Ok(()),
        Refusal::NotNow => Ok(()),
        Refusal::NotIdle => Ok(()),
        Refusal::NotSending => Ok(()),
        Refusal::Broken => Ok(()),
        Refusal::Memory => Err(AllocError),
    }
}
