//! Requests that have waited: a reset that one asks for is done with it.
ghost use Rattle.std.specs.Prelude.{◌≡◌, ◌⊎◌, ℕ, Bool, IsSome, None, OnOk, Some, false, true};
ghost use Rattle.slab.specs.Slab.{get};
ghost use Rattle.tds_relay.specs.Lent.{ShutRest};
ghost use Rattle.tds_relay.specs.Apart.{Alone};
ghost use Rattle.tds_relay.specs.Asking.{IsUnderway, waits_of};
ghost use Rattle.tds_relay.specs.Bodies.{Starts, GoesFrom, body_of, standing_in};
ghost use Rattle.tds_relay.specs.Closings.{ClosesOnly, Itself, open_name, register_in};
ghost use Rattle.tds_relay.specs.Pool.{find_key};
ghost use Rattle.tds_relay.specs.Lent.{IsOnItsOwn, KeepsAnswers, LastBut};
ghost use Rattle.tds_relay.specs.Fronts.{MovedOn, ends_in, core_in};
ghost use Rattle.tds_relay.specs.Anew.{ResetsFor};
ghost use Rattle.tds_relay.specs.Core.{IfOpen, IfOpenAsks, IsBegun, IsReset, end_at};
ghost use Rattle.tds_relay.specs.Ordering.{StayOrdered, opens_in};
ghost use Rattle.tds_relay.specs.Queues.{queues_in};
ghost use Rattle.tds_relay.specs.Reads.{LinksStay, open_at, waits_on};
ghost use Rattle.tds_relay.specs.Reasons.{IsReadyThere, IsUnbegun, ItselfFor};
ghost use Rattle.tds_relay.specs.Sparing.{IsHeldBack, IsKept, IsUnkept, OthersRest, StartsThere};
ghost use Rattle.tds_relay.specs.Ties.{LedOn, IsReached, pool_in};
ghost use Rattle.tds_relay.specs.Waiting.{GoesOrWaits, IsUnheldOrTurnedAway};
ghost use Rattle.tds_relay.specs.TokenParsers.{AllStand};
ghost use Rattle.tds_relay.specs.Few.{IsSeated};
ghost use Rattle.tds_relay.specs.Cleaning.{cleaned_in};
ghost use Rattle.tds_relay.specs.Coming.{AskOrGo};

use super::Relay;
use crate::NoMemory;
use crate::links::link_in;
use crate::pool::Hold;

impl Relay {
    /// Asks what was kept of an application's request. Where its connection is open, and what it took back is
    /// acknowledged, the reset that it asks for must be done there with it; else both are closed.
    #[tactic(auto, using(crate::proofs::spared::Ordered::ordered_refl, crate::proofs::steps::Answering::ask_refl))]
    pub(super) fn start_kept(&mut self, key: usize) -> Result<(), NoMemory>
        ensures goes { OnOk result (LedOn (pool_in self.old.pool) (pool_in self.new.pool)) }
        ensures kept { OnOk result (queues_in self.new.applications
            ≡ queues_in self.old.applications) }
        ensures moves { OnOk result (MovedOn (core_in self.old) (core_in self.new)) }
        ensures underway { (whole : Bool) → waits_of (get self.old.applications key) ≡ Some whole
            → OnOk result (IsUnderway whole self.new.links.items key (core_in self.new)) }
        ensures read { OnOk result (LinksStay self.old.links.items self.new.links.items) }
        ensures stand { OnOk result (AllStand self.old.pool.service
            self.new.pool.service) }
        ensures body { OnOk result (Starts (body_of key self.old) (body_of key self.new)) }
        ensures asks { OnOk result (AskOrGo self.old.applications self.new.applications) }
        ensures others { IsReached (pool_in self.old.pool)
            → OnOk result (OthersRest key self.old self.new) }
        ensures waits { OnOk result (IsUnkept (body_of key self.new)
            ⊎ IsHeldBack key self.old) }
        ensures alone { OnOk result (Alone key (core_in self.old) (core_in self.new)) }
        ensures ordered { OnOk result (StayOrdered self.old.orders.items self.new.orders.items) }
        ensures placed { OnOk result (GoesOrWaits key self.new) }
        ensures behind { OnOk result (StartsThere key self.old self.new) }
        ensures answers { OnOk result (KeepsAnswers self.old.links.items self.new.links.items) }
        ensures closes { OnOk result (ClosesOnly (ItselfFor key (IsUnheldOrTurnedAway key
            self.old)) (register_in self.old) (register_in self.new)) }
        ensures lasts { OnOk result (LastBut (Itself key)
            (register_in self.old) (register_in self.new)) }
        ensures seated { IsSeated self.old → OnOk result (IsSeated self.new) }
        ensures counts { cleaned_in self.new ≡ cleaned_in self.old }
        ensures opening { opens_in self.new.orders.items ≡ opens_in self.old.orders.items }
        ensures own { IsReached (pool_in self.old.pool) → OnOk result
            (IsOnItsOwn key self.old self.new) }
        ensures puts { OnOk result (GoesFrom (standing_in key self.old)
            (standing_in key self.new)) }
        ensures stays { OnOk result (IsKept (body_of key self.new)
            → body_of key self.new ≡ body_of key self.old) }
        ensures shut { OnOk result (ShutRest self.old.links.items self.new.links.items) }
    {
        let Some(hold) = self.pool.hold_of(key) else {
            return self.start(key);
        };
        if self.may_ask(key, hold) {
            return self.start(key);
        }
        if self.is_held_back(key, hold) {
            return Ok(());
        }
        self.fail(key, hold.number)
    }

    /// Whether an application asks nothing that waits; or the server hasn't acknowledged yet what it took back, or
    /// the connection that it holds isn't open.
    #[tactic(auto, using(crate::proofs::steps::Underway::of_none, crate::proofs::steps::Underway::of_over, crate::proofs::steps::Underway::drains))]
    fn is_held_back(&self, key: usize, hold: Hold) -> bool
        ensures held { find_key key (pool_in self.now.pool).holds ≡ Some hold → result ≡ true
            → IsUnkept (body_of key self.now) ⊎ IsHeldBack key self.now }
        ensures underway { find_key key (pool_in self.now.pool).holds ≡ Some hold
            → result ≡ true → (whole : Bool)
            → waits_of (get self.now.applications key) ≡ Some whole
            → IsUnderway whole self.now.links.items key (core_in self.now) }
        ensures named { result ≡ false
            → (tag : ℕ) × (open_name key (register_in self.now) ≡ Some tag) }
        ensures waits { result ≡ false → IsKept (body_of key self.now) }
        ensures ready { find_key key (pool_in self.now.pool).holds ≡ Some hold → result ≡ false
            → IsReadyThere key (end_at (ends_in self.now.applications) key) self.now.pool
            self.now.links.items }
    {
        let Some(application) = self.applications.get(key) else {
            return true;
        };
        if application.state.is_over() {
            return true;
        }
        if !application.waits() {
            return true;
        }
        if application.state.is_withdrawn() {
            return true;
        }
        !self.is_open(hold.number)
    }

    /// Whether an application's request has begun, and the reset that it asks for is done with it on the connection
    /// that it holds.
    fn may_ask(&self, key: usize, hold: Hold) -> bool
        ensures reset { find_key key (pool_in self.now.pool).holds ≡ Some hold → result ≡ true
            → IsReset (pool_in self.now.pool) key (end_at (ends_in self.now.applications) key) }
        ensures begun { result ≡ true
            → IfOpen IsBegun (end_at (ends_in self.now.applications) key) }
        ensures not { result ≡ false
            → IfOpen (IsUnbegun false) (end_at (ends_in self.now.applications) key)
            ⊎ IfOpenAsks (λ asks. ¬ ResetsFor asks (Some hold) (pool_in self.now.pool))
            (end_at (ends_in self.now.applications) key) }
    {
        if !self.may_put(key, false) {
            return false;
        }
        self.is_reset(key, hold)
    }

    /// Whether the reset that an application's request asks for, if it does, is done with that on the
    /// connection that it holds.
    fn is_reset(&self, key: usize, hold: Hold) -> bool
        ensures reset { find_key key (pool_in self.now.pool).holds ≡ Some hold → result ≡ true
            → IsReset (pool_in self.now.pool) key (end_at (ends_in self.now.applications) key) }
        ensures not_reset { result ≡ false → IfOpenAsks
            (λ asks. ¬ ResetsFor asks (Some hold) (pool_in self.now.pool))
            (end_at (ends_in self.now.applications) key) }
    {
        let Some(application) = self.applications.get(key) else {
            return true;
        };
        match application.state.reset() {
            Some(reset) => self.pool.resets_on(hold.number, reset),
            None => true,
        }
    }

    /// Whether the connection of this number is open.
    pub(super) fn is_open(&self, number: u64) -> bool
        ensures shut { result ≡ false → open_at number self.now.links.items ≡ None }
        ensures open { result ≡ true → IsSome (open_at number self.now.links.items) }
        ensures there { result ≡ true → IsSome (waits_on number self.now.links.items) }
    {
        match link_in(&self.links, number) {
            Some(link) => link.is_open,
            None => false,
        }
    }
}
