//! What an application that took its request back asks next, once the server has acknowledged that.
ghost use Rattle.std.specs.Prelude.{◌≡◌, ℕ, false, true, None, OnOk, Some};
ghost use Rattle.tds_packet.specs.declared.status.Reset.TheVariants.{KeepTransaction};
ghost use Rattle.tds_relay.specs.Lent.{ShutElse, FirstKeeps};
ghost use Rattle.tds_relay.specs.Apart.{SparesOthers};
ghost use Rattle.tds_relay.specs.Bodies.{body_of};
ghost use Rattle.tds_relay.specs.Cleaning.{cleaned_in};
ghost use Rattle.tds_relay.specs.Closings.{ClosesOnly, IsWho, register_in};
ghost use Rattle.tds_relay.specs.Coming.{AllAlong, AskOrGo, MayBeginAny};
ghost use Rattle.tds_relay.specs.Fronts.{Moved, ends_in, core_in};
ghost use Rattle.tds_relay.specs.Core.{AsksFor, IfOpen, IfWhose, IsBegun, MayPart, end_at, holder};
ghost use Rattle.tds_relay.specs.Ordering.{StayOrdered, opens_in};
ghost use Rattle.tds_relay.specs.Queues.{queues_in};
ghost use Rattle.tds_relay.specs.Reads.{LinksStay};
ghost use Rattle.tds_relay.specs.Reasons.{CannotMove, ResumesNotAt};
ghost use Rattle.tds_relay.specs.Sparing.{IsKept, OffGo};
ghost use Rattle.tds_relay.specs.Ties.{Connection, LedTo, IsReached, pool_in};
ghost use Rattle.tds_relay.specs.Waiting.{IsOnOrHeld, KeepsWaiting, Resumes, StandsInLine};
ghost use Rattle.tds_relay.specs.TokenParsers.{AllStand};
ghost use Rattle.tds_relay.specs.Few.{IsSeated};

use super::Relay;
use crate::NoMemory;
use crate::pool::Renewed;

impl Relay {
    /// The server has acknowledged that an application's request was taken back: its next one goes on.
    pub(super) fn resume(&mut self, number: u64, key: usize) -> Result<(), NoMemory>
        ensures goes { OnOk result ((other : ℕ) → LedTo (Connection other)
            (pool_in self.old.pool) (pool_in self.new.pool)) }
        ensures kept { OnOk result (queues_in self.new.applications
            ≡ queues_in self.old.applications) }
        ensures moves { OnOk result (Moved (Connection number) (core_in self.old)
            (core_in self.new)) }
        ensures read { OnOk result (LinksStay self.old.links.items self.new.links.items) }
        ensures stand { OnOk result (AllStand self.old.pool.service
            self.new.pool.service) }
        ensures bodies { IsReached (pool_in self.old.pool)
            → OnOk result (AllAlong self.old self.new) }
        ensures asks { OnOk result (AskOrGo self.old.applications self.new.applications) }
        ensures ordered { OnOk result (StayOrdered self.old.orders.items self.new.orders.items) }
        ensures resumes { OnOk result (Resumes key self.old self.new) }
        ensures begins { OnOk result (MayBeginAny self.old.links.items self.new.links.items) }
        ensures spares { IsReached (pool_in self.old.pool) → OnOk result (SparesOthers number
            (Some key) (core_in self.old) (core_in self.new)) }
        ensures closes { OnOk result (ClosesOnly (ResumesNotAt number key self.old)
            (register_in self.old) (register_in self.new)) }
        ensures seated { IsSeated self.old → OnOk result (IsSeated self.new) }
        ensures counts { cleaned_in self.new ≡ cleaned_in self.old }
        ensures opening { opens_in self.new.orders.items ≡ opens_in self.old.orders.items }
        ensures apart { OnOk result (OffGo number (Some key) self.old self.new) }
        ensures keeps { IsReached (pool_in self.old.pool) → OnOk result
            (FirstKeeps (IsOnOrHeld number (Some key) self.old) self.old self.new) }
        ensures rests { IsReached (pool_in self.old.pool)
            → OnOk result (KeepsWaiting number self.old self.new key) }
        ensures still { OnOk result (ShutElse number self.old.links.items
            self.new.links.items) }
    {
        if self.asks_to_keep(key) {
            self.keep(number, key)
        } else {
            self.start_kept(key)
        }
    }

    /// Whether an application's request asks for a reset that keeps its transaction.
    pub(super) fn asks_to_keep(&self, key: usize) -> bool
        ensures asks { result ≡ true → AsksFor KeepTransaction
            (end_at (ends_in self.now.applications) key) }
        ensures not { result ≡ false → IsKept (body_of key self.now)
            → ¬ AsksFor KeepTransaction (end_at (ends_in self.now.applications) key) }
    {
        match self.applications.get(key) {
            Some(application) => application.asks_to_keep(),
            None => false,
        }
    }

    /// The application keeps its connection with its transaction, for a request that has waited.
    #[tactic(auto, using(crate::proofs::steps::Reaching::reaches_turn))]
    fn keep(&mut self, number: u64, key: usize) -> Result<(), NoMemory>
        ensures goes { OnOk result ((other : ℕ) → LedTo (Connection other)
            (pool_in self.old.pool) (pool_in self.new.pool)) }
        ensures kept { OnOk result (queues_in self.new.applications
            ≡ queues_in self.old.applications) }
        ensures moves { OnOk result (AsksFor KeepTransaction
            (end_at (ends_in self.old.applications) key)
            → Moved (Connection number) (core_in self.old) (core_in self.new)) }
        ensures read { OnOk result (LinksStay self.old.links.items self.new.links.items) }
        ensures stand { OnOk result (AllStand self.old.pool.service
            self.new.pool.service) }
        ensures bodies { IsReached (pool_in self.old.pool)
            → OnOk result (AllAlong self.old self.new) }
        ensures asks { OnOk result (AskOrGo self.old.applications self.new.applications) }
        ensures ordered { OnOk result (StayOrdered self.old.orders.items self.new.orders.items) }
        ensures begins { OnOk result (MayBeginAny self.old.links.items self.new.links.items) }
        ensures spares { IsReached (pool_in self.old.pool) → OnOk result (SparesOthers number
            (Some key) (core_in self.old) (core_in self.new)) }
        ensures closes { AsksFor KeepTransaction (end_at (ends_in self.old.applications) key)
            → OnOk result (ClosesOnly (ResumesNotAt number key self.old)
            (register_in self.old) (register_in self.new)) }
        ensures seated { IsSeated self.old → OnOk result (IsSeated self.new) }
        ensures counts { cleaned_in self.new ≡ cleaned_in self.old }
        ensures opening { opens_in self.new.orders.items ≡ opens_in self.old.orders.items }
        ensures apart { OnOk result (OffGo number (Some key) self.old self.new) }
        ensures keeps { IsReached (pool_in self.old.pool) → OnOk result
            (FirstKeeps (IsOnOrHeld number (Some key) self.old) self.old self.new) }
        ensures rests { IsReached (pool_in self.old.pool)
            → OnOk result (KeepsWaiting number self.old self.new key) }
        ensures still { OnOk result (ShutElse number self.old.links.items
            self.new.links.items) }
    {
        match self.pool.renew(key)? {
            Renewed::Kept(hold) => {
                self.restart(hold.number);
                self.start_kept(key)
            }
            Renewed::NotKept => self.replace(number),
        }
    }

    /// The transaction that was to be kept has ended: the connection is closed, and its application waits
    /// for another, if it may be parted from it.
    #[tactic(auto, using(crate::proofs::steps::Reaching::reaches_turn))]
    fn replace(&mut self, number: u64) -> Result<(), NoMemory>
        ensures goes { OnOk result ((other : ℕ) → LedTo (Connection other)
            (pool_in self.old.pool) (pool_in self.new.pool)) }
        ensures kept { OnOk result (queues_in self.new.applications
            ≡ queues_in self.old.applications) }
        ensures moves { OnOk result (Moved (Connection number) (core_in self.old)
            (core_in self.new)) }
        ensures read { OnOk result (LinksStay self.old.links.items self.new.links.items) }
        ensures stand { OnOk result (AllStand self.old.pool.service
            self.new.pool.service) }
        ensures bodies { IsReached (pool_in self.old.pool)
            → OnOk result (AllAlong self.old self.new) }
        ensures asks { OnOk result (AskOrGo self.old.applications self.new.applications) }
        ensures ordered { OnOk result (StayOrdered self.old.orders.items self.new.orders.items) }
        ensures lines { OnOk result ((key : ℕ)
            → holder (pool_in self.old.pool) number ≡ Some key → StandsInLine key self.new) }
        ensures begins { OnOk result (MayBeginAny self.old.links.items self.new.links.items) }
        ensures spares { IsReached (pool_in self.old.pool) → OnOk result (SparesOthers number
            None (core_in self.old) (core_in self.new)) }
        ensures closes { OnOk result (ClosesOnly
            (λ other. IsWho (holder (pool_in self.old.pool) number) other × CannotMove other
            (end_at (ends_in self.old.applications) other) (pool_in self.old.pool))
            (register_in self.old) (register_in self.new)) }
        ensures seated { IsSeated self.old → OnOk result (IsSeated self.new) }
        ensures counts { cleaned_in self.new ≡ cleaned_in self.old }
        ensures opening { opens_in self.new.orders.items ≡ opens_in self.old.orders.items }
        ensures apart { OnOk result (OffGo number None self.old self.new) }
        ensures keeps { OnOk result
            (FirstKeeps (λ other. other ≡ number) self.old self.new) }
        ensures frees { OnOk result (holder (pool_in self.new.pool) number ≡ None) }
        ensures still { OnOk result (ShutElse number self.old.links.items
            self.new.links.items) }
    {
        if !self.may_replace(number) {
            return self.lose(number);
        }
        let holder = self.pool.lose(number)?;
        let Some(key) = holder else {
            return self.close_link(number);
        };
        self.let_go(key);
        self.close_link(number)?;
        self.wait(key)
    }

    /// Whether who holds the connection of this number may be parted from it.
    fn may_replace(&self, number: u64) -> bool
        ensures parts { result ≡ true → IfWhose (MayPart (core_in self.now))
            (holder (pool_in self.now.pool) number) }
        ensures begun { result ≡ true → IfWhose
            (λ key. IfOpen IsBegun (end_at (ends_in self.now.applications) key))
            (holder (pool_in self.now.pool) number) }
        ensures not { result ≡ false → (key : ℕ)
            → holder (pool_in self.now.pool) number ≡ Some key → CannotMove key
            (end_at (ends_in self.now.applications) key) (pool_in self.now.pool) }
    {
        match self.pool.key_on(number) {
            Some(key) => self.may_part(key),
            None => true,
        }
    }
}
