//! Applications that are parked: each is parted from its connection at rest, for those who wait.
ghost use Rattle.std.specs.Prelude.{◌≡◌, OnOk, IfOk, false, true, Some};
ghost use Rattle.tds_relay.specs.Lent.{DialsNewAt, KeepsGiven, LastBesides, LendsBehind, PutsOnly};
ghost use Rattle.tds_relay.specs.Apart.{LendsInTurn, UnlessServed};
ghost use Rattle.tds_relay.specs.Cleaning.{CountsHold, CountsSinceEnd, WaitsSinceEnd, cleaned_in, CleaningsWaitAt};
ghost use Rattle.tds_relay.specs.Closings.{ClosesOnly, IsWaiting, register_in, Itself};
ghost use Rattle.tds_relay.specs.Pool.{Sharing, find_key, without};
ghost use Rattle.tds_relay.specs.Waiting.{IsLentByParting};
ghost use Rattle.tds_relay.specs.Few.{Few, IsSeated, NobodyWaits};
ghost use Rattle.tds_relay.specs.Fronts.{ends_in, core_in, machine_in, may_park_in};
ghost use Rattle.tds_relay.specs.Core.{IsThereAndAway, change_end, holder, lets_go};
ghost use Rattle.tds_relay.specs.Machine.{IsLedTo, Steps};
ghost use Rattle.tds_relay.specs.Ordering.{GrowsByOrders, OpensNew, StayOrdered};
ghost use Rattle.tds_relay.specs.Places.{held_by};
ghost use Rattle.tds_relay.specs.Queues.{queues_in};
ghost use Rattle.tds_relay.specs.Reads.{Opens};
ghost use Rattle.tds_relay.specs.Sparing.{AllGo, ClientsStay};
ghost use Rattle.tds_relay.specs.Ties.{Application, LedTo, IsReached, Leaving, Parking, pool_in};
ghost use Rattle.tds_relay.specs.TokenParsers.{AllStand};

use super::Relay;
use crate::NoMemory;
use crate::pool::Mode;

impl Relay {
    /// Parts an application from its connection at rest, so that who waits is lent that once it is clean. It is
    /// at rest where connections are shared by transactions, it has no request and no cancel that isn't
    /// acknowledged, it has been told of each reset that it asked for, and on its connection no transaction is
    /// open and no news of a reset is to come. Answers whether it was; else nothing has changed.
    ///
    /// It stays, and its next request waits for a connection like that of who has come. What its session has of
    /// its own beside is for the caller to know: a database, a table, a setting is gone with the connection.
    #[tactic(auto, using(crate::proofs::steps::Staying::opens_refl, crate::proofs::steps::Stepping::no_steps, crate::proofs::spared::Closings::closes_refl, crate::proofs::spared::Few::none_refl, crate::proofs::lending::Resting::go_refl, crate::proofs::spared::Ordered::ordered_refl))]
    pub fn park(&mut self, key: usize) -> Result<bool, NoMemory>
        ensures is { IfOk result (λ is. is ≡ may_park_in self.old key) }
        ensures nothing { IfOk result (λ is. is ≡ false → self.new ≡ self.old) }
        ensures left { IfOk result (λ is. is ≡ true
            → Leaving key (pool_in self.old.pool) (pool_in self.new.pool)) }
        ensures away { (sharing : Sharing) → IsLedTo sharing (machine_in self.old)
            → IfOk result (λ is. is ≡ true → IsThereAndAway (core_in self.new) key) }
        ensures goes { OnOk result (LedTo (Application key)
            (pool_in self.old.pool) (pool_in self.new.pool)) }
        ensures steps { OnOk result (Steps (Parking key) (machine_in self.old)
            (machine_in self.new)) }
        ensures kept { OnOk result (queues_in self.new.applications
            ≡ queues_in self.old.applications) }
        ensures served { IfOk result (λ is. is ≡ true → NobodyWaits self.new) }
        ensures lends { IfOk result (λ is. is ≡ true
            → LendsInTurn (without key (pool_in self.old.pool).line)
            (change_end key lets_go (ends_in self.old.applications)) (core_in self.new)) }
        ensures few { OnOk result (Few self.old.most self.old.links.items
            self.new.links.items) }
        ensures opens { OnOk result (Opens self.old.links.items self.new.links.items) }
        ensures stand { OnOk result (AllStand self.old.pool.service
            self.new.pool.service) }
        ensures goes_on { OnOk result (AllGo self.old self.new) }
        ensures apart { OnOk result (UnlessServed (core_in self.old) (core_in self.new)) }
        ensures ordered { OnOk result (StayOrdered self.old.orders.items self.new.orders.items) }
        ensures closes { OnOk result (ClosesOnly (IsLentByParting (Parking key) key self.old)
            (register_in self.old) (register_in self.new)) }
        ensures ends { IsReached (pool_in self.old.pool) → IfOk result (λ is. is ≡ true
            → WaitsSinceEnd key self.old self.new) }
        ensures seated { IsSeated self.old → OnOk result (IsSeated self.new) }
        ensures lasts { OnOk result (LastBesides
            (λ number. held_by (pool_in self.old.pool) key ≡ Some number)
            (IsWaiting (pool_in self.old.pool).line) (register_in self.old)
            (register_in self.new)) }
        ensures counts { IfOk result (λ is. is ≡ true
            → CountsHold (find_key key (pool_in self.old.pool).holds)
            (cleaned_in self.old) (cleaned_in self.new)) }
        ensures cleaned { IsReached (pool_in self.old.pool) → IfOk result (λ is. is ≡ true
            → CountsSinceEnd key (register_in self.old) self.old self.new) }
        ensures opening { OnOk result (OpensNew self.old self.new) }
        ensures many { OnOk result (GrowsByOrders self.old self.new) }
        ensures puts { IsReached (pool_in self.old.pool) → OnOk result (PutsOnly
            (λ number. holder (pool_in self.old.pool) number ≡ Some key)
            self.old self.new) }
        ensures given { OnOk result (KeepsGiven self.old self.new) }
        ensures fresh { OnOk result (DialsNewAt self.old self.new) }
        ensures clients { IsReached (pool_in self.old.pool)
            → OnOk result (ClientsStay (Itself key) self.old self.new) }
        ensures awaits { OnOk result (CleaningsWaitAt self.old self.new) }
        ensures behind { IsReached (pool_in self.old.pool) → (sharing : Sharing)
            → IsLedTo sharing (machine_in self.old) → OnOk result (LendsBehind self.old self.new) }
    {
        if !self.may_park(key) {
            return Ok(false);
        }
        self.release(key)?;
        self.serve_line()?;
        Ok(true)
    }

    /// Whether an application is at rest.
    fn may_park(&self, key: usize) -> bool
        ensures { result ≡ may_park_in self.now key }
    {
        match self.pool.mode() {
            Mode::Sessions => return false,
            Mode::Transactions => {}
        }
        let Some(application) = self.applications.get(key) else {
            return false;
        };
        if !application.is_at_end() {
            return false;
        }
        if !application.has_no_request() {
            return false;
        }
        match self.pool.hold_of(key) {
            Some(hold) => self.pool.is_clean_on(hold.number),
            None => false,
        }
    }
}
