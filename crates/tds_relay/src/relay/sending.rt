//! What waits for applications and on connections, and is sent.
ghost use Rattle.std.specs.Prelude.{◌≡◌, ◌≢◌, ◌+◌, ◌≤◌, [], ℕ, None, OnOk, Some, drop, if◌then◌else◌, length};
ghost use Rattle.std.specs.Prelude.{◌++◌, IfOk, IsSome, List, false, option_map, true};
ghost use Rattle.slab.specs.Slab.{get};
ghost use Rattle.tds_relay.specs.Apart.{Alone, SparesOthers};
ghost use Rattle.tds_relay.specs.Bodies.{AskAsBefore, AskOn};
ghost use Rattle.tds_relay.specs.Told.{most_for};
ghost use Rattle.tds_relay.specs.Closings.{ClosesOnly, IsWho, NoKey, register_in, times_closed};
ghost use Rattle.tds_relay.specs.Pool.{find_number};
ghost use Rattle.tds_relay.specs.Fronts.{MovedOn, ends_in, core_in, machine_in};
ghost use Rattle.tds_relay.specs.Core.{holder};
ghost use Rattle.tds_relay.specs.Machine.{Steps};
ghost use Rattle.tds_relay.specs.Lent.{AllLast, FirstKeeps, KeepsAnswers, MayForget, OthersKeepAt};
ghost use Rattle.tds_relay.specs.Ordering.{StayOrdered, opens_in};
ghost use Rattle.tds_relay.specs.Queues.{change, queue_at, queues_in, unsent_of, without_first};
ghost use Rattle.tds_relay.specs.Reasons.{HasNoRoom, IsOverfull, ItselfFor};
ghost use Rattle.tds_relay.specs.Law.{waiting_on};
ghost use Rattle.tds_relay.specs.Reads.{FillsBy, HoldsOnLinks, LinksStay, queue_on, waits_on};
ghost use Rattle.tds_relay.specs.Sending.{IsToWrite, called_at};
ghost use Rattle.tds_relay.specs.Sparing.{AllRest, SendsOn};
ghost use Rattle.tds_relay.specs.Ties.{LedOn, IsReached, Neither, pool_in};
ghost use Rattle.tds_relay.specs.Told.{TellsTheSame, held_name, holder_name, is_there};
ghost use Rattle.tds_relay.specs.Waking.{IsWoken};
ghost use Rattle.tds_relay.specs.TokenParsers.{AllStand};
ghost use Rattle.tds_relay.specs.declared.outgoing.TheConstants.{PIECE};
ghost use Rattle.tds_relay.specs.Few.{IsSeated, IsSeatedBut};
ghost use Rattle.tds_relay.specs.Cleaning.{CountsOnce, CountsSent, cleaned_in};

use super::Relay;
use crate::NoMemory;
use crate::links::{append_to, forget_sent};
use crate::order::Order;

impl Relay {
    /// What is to be sent to an application.
    pub fn unsent(&self, key: usize) -> &[u8]
        ensures bounded { length result.now ≤ most_for (get self.now.applications key) }
        ensures is { result.now ≡ unsent_of (get self.now.applications key) }
    {
        match self.applications.get(key) {
            Some(application) => application.out.unsent(),
            None => &[],
        }
    }

    /// What is to be sent on a connection.
    pub fn unsent_on(&self, number: u64) -> &[u8]
        ensures bounded { length result.now ≤ 32767 + PIECE }
        ensures is { result.now ≡ waiting_on number self.now.links.items }
    {
        match self.link(number) {
            Some(link) => link.out.unsent(),
            None => &[],
        }
    }

    /// So many bytes of that were sent. Answers the tag of the connection that it holds, which may be read
    /// again.
    pub fn sent(&mut self, key: usize, count: usize) -> Option<usize>
        ensures pool { self.new.pool ≡ self.old.pool }
        ensures sent { queues_in self.new.applications
            ≡ change key (without_first count) (queues_in self.old.applications) }
        ensures ends { ends_in self.new.applications ≡ ends_in self.old.applications }
        ensures steps { Steps Neither (machine_in self.old) (machine_in self.new) }
        ensures links { self.new.links.items ≡ self.old.links.items }
        ensures rest { AllRest self.old self.new }
        ensures whose { result ≡ held_name key self.old }
        ensures tells { TellsTheSame self.old self.new }
        ensures orders { self.new.orders.items ≡ self.old.orders.items }
        ensures seated { IsSeated self.old → IsSeated self.new }
    {
        self.forget_sent(key, count);
        let hold = self.pool.hold_of(key)?;
        self.link(hold.number)?.tag
    }

    /// So many bytes wait for an application no more.
    #[tactic(auto, using(crate::proofs::steps::Queueing::queues_changed, crate::proofs::steps::Queueing::queues_nobody))]
    fn forget_sent(&mut self, key: usize, count: usize)
        ensures pool { self.new.pool ≡ self.old.pool }
        ensures sent { queues_in self.new.applications
            ≡ change key (without_first count) (queues_in self.old.applications) }
        ensures ends { ends_in self.new.applications ≡ ends_in self.old.applications }
        ensures links { self.new.links.items ≡ self.old.links.items }
        ensures asks { AskAsBefore self.old.applications self.new.applications }
        ensures tells { TellsTheSame self.old self.new }
        ensures orders { self.new.orders.items ≡ self.old.orders.items }
    {
        match self.applications.get_mut(key) {
            Some(application) => application.out.sent(count),
            None => {}
        }
    }

    /// So many bytes of that were sent. Answers the tag of the application that holds it, which may be read
    /// again.
    pub fn sent_on(&mut self, number: u64, count: usize) -> Option<usize>
        ensures pool { self.new.pool ≡ self.old.pool }
        ensures kept { queues_in self.new.applications ≡ queues_in self.old.applications }
        ensures ends { ends_in self.new.applications ≡ ends_in self.old.applications }
        ensures read { HoldsOnLinks self.old.links.items self.new.links.items }
        ensures answers { KeepsAnswers self.old.links.items self.new.links.items }
        ensures sent { waits_on number self.new.links.items
            ≡ option_map (drop count) (waits_on number self.old.links.items) }
        ensures others { (other : ℕ) → other ≢ number
            → waits_on other self.new.links.items ≡ waits_on other self.old.links.items }
        ensures same { self.new.applications ≡ self.old.applications }
        ensures whose { result ≡ (if is_there number self.old.links.items
            then holder_name number self.old else None) }
        ensures tells { TellsTheSame self.old self.new }
        ensures orders { self.new.orders.items ≡ self.old.orders.items }
        ensures seated { IsSeated self.old → IsSeated self.new }
        ensures queues { queue_on number self.new.links.items
            ≡ option_map (without_first count) (queue_on number self.old.links.items) }
        ensures keeps { (other : ℕ) → other ≢ number
            → queue_on other self.new.links.items ≡ queue_on other self.old.links.items }
    {
        if !forget_sent(&mut self.links, number, count) {
            return None;
        }
        let key = self.pool.key_on(number)?;
        Some(self.applications.get(key)?.tag)
    }

    /// What the pool has to send on a connection waits there. False where more would wait than may.
    #[tactic(auto, using(crate::proofs::steps::Staying::stays_refl, crate::proofs::spared::Ordered::ordered_refl, crate::proofs::spared::Closings::closes_refl, crate::proofs::spared::Begun::answers_refl, crate::proofs::spared::Lasting::last_refl))]
    pub(super) fn fits_on(&mut self, number: u64) -> Result<bool, NoMemory>
        ensures pool { self.new.pool ≡ self.old.pool }
        ensures kept { OnOk result (queues_in self.new.applications
            ≡ queues_in self.old.applications) }
        ensures ends { OnOk result (ends_in self.new.applications
            ≡ ends_in self.old.applications) }
        ensures read { OnOk result (LinksStay self.old.links.items self.new.links.items) }
        ensures asks { OnOk result (AskAsBefore self.old.applications self.new.applications) }
        ensures waits { IfOk result (λ fits. fits ≡ true
            → waits_on number self.new.links.items ≡ option_map
            (λ (waits : List ℕ). waits ++ self.old.outbox.items)
            (waits_on number self.old.links.items)) }
        ensures no_room { IfOk result (λ fits. fits ≡ false
            → HasNoRoom number self.old.outbox.items self.old.links.items) }
        ensures some { IfOk result (λ fits. fits ≡ false → self.old.outbox.items ≢ []) }
        ensures idle { self.old.outbox.items ≡ [] → OnOk result (self.new ≡ self.old) }
        ensures others { OnOk result ((other : ℕ) → other ≢ number
            → waits_on other self.new.links.items ≡ waits_on other self.old.links.items) }
        ensures queues { OnOk result ((other : ℕ) → other ≢ number
            → queue_on other self.new.links.items ≡ queue_on other self.old.links.items) }
        ensures ordered { OnOk result (StayOrdered self.old.orders.items self.new.orders.items) }
        ensures answers { OnOk result (KeepsAnswers self.old.links.items self.new.links.items) }
        ensures closes { OnOk result (ClosesOnly NoKey
            (register_in self.old) (register_in self.new)) }
        ensures lasts { OnOk result (AllLast self.old.links.items self.new.links.items) }
        ensures counts { cleaned_in self.new ≡ cleaned_in self.old }
        ensures opening { opens_in self.new.orders.items ≡ opens_in self.old.orders.items }
    {
        // Of most packets of an answer nothing is: then no write is ordered, each of which costs a look.
        if self.outbox.is_empty() {
            return Ok(true);
        }
        let fits = append_to(&mut self.links, number, &self.outbox)?;
        self.outbox.clear();
        if !fits {
            return Ok(false);
        }
        self.order_write_on(number)?;
        Ok(true)
    }

    /// What the pool has to send on a connection waits there. One for which more would wait than may is
    /// closed.
    pub(super) fn send_on(&mut self, number: u64) -> Result<(), NoMemory>
        ensures goes { OnOk result (LedOn (pool_in self.old.pool) (pool_in self.new.pool)) }
        ensures kept { OnOk result (queues_in self.new.applications
            ≡ queues_in self.old.applications) }
        ensures moves { OnOk result (MovedOn (core_in self.old) (core_in self.new)) }
        ensures read { OnOk result (LinksStay self.old.links.items self.new.links.items) }
        ensures stand { OnOk result (AllStand self.old.pool.service
            self.new.pool.service) }
        ensures asks { OnOk result (AskOn self.old.applications self.new.applications) }
        ensures sends { IsReached (pool_in self.old.pool)
            → OnOk result (SendsOn number self.old self.new) }
        ensures puts { OnOk result (FillsBy self.old.outbox.items
            (waits_on number self.old.links.items) (waits_on number self.new.links.items)) }
        ensures ordered { OnOk result (StayOrdered self.old.orders.items self.new.orders.items) }
        ensures others { OnOk result ((other : ℕ) → other ≢ number
            → waits_on other self.new.links.items ≡ waits_on other self.old.links.items) }
        ensures answers { OnOk result (KeepsAnswers self.old.links.items self.new.links.items) }
        ensures spares { OnOk result (SparesOthers number None (core_in self.old)
            (core_in self.new)) }
        ensures closes { OnOk result (ClosesOnly (λ other.
            IsWho (holder (pool_in self.old.pool) number) other
            × HasNoRoom number self.old.outbox.items self.old.links.items
            × (self.old.outbox.items ≢ []))
            (register_in self.old) (register_in self.new)) }
        ensures seated { IsSeated self.old → OnOk result (IsSeated self.new) }
        ensures idle { self.old.outbox.items ≡ [] → OnOk result (self.new ≡ self.old) }
        ensures gone { IsSeatedBut number false self.old
            → OnOk result (IsSeatedBut number false self.new) }
        ensures counts { cleaned_in self.new ≡ cleaned_in self.old }
        ensures opening { opens_in self.new.orders.items ≡ opens_in self.old.orders.items }
        ensures keeps { OnOk result
            (FirstKeeps (λ other. other ≡ number) self.old self.new) }
        ensures holds { OnOk result (MayForget number self.old.pool.holds.items
            self.new.pool.holds.items) }
    {
        let fits = self.fits_on(number)?;
        if fits { Ok(()) } else { self.lose(number) }
    }

    /// The same of one that nobody holds: it is counted as cleaned, or as closed instead.
    pub(super) fn send_unheld(&mut self, number: u64) -> Result<(), NoMemory>
        ensures goes { OnOk result (LedOn (pool_in self.old.pool) (pool_in self.new.pool)) }
        ensures kept { OnOk result (queues_in self.new.applications
            ≡ queues_in self.old.applications) }
        ensures moves { OnOk result (MovedOn (core_in self.old) (core_in self.new)) }
        ensures ends { OnOk result (ends_in self.new.applications
            ≡ ends_in self.old.applications) }
        ensures read { OnOk result (LinksStay self.old.links.items self.new.links.items) }
        ensures stand { OnOk result (AllStand self.old.pool.service
            self.new.pool.service) }
        ensures asks { OnOk result (AskOn self.old.applications self.new.applications) }
        ensures sends { IsReached (pool_in self.old.pool)
            → OnOk result (SendsOn number self.old self.new) }
        ensures line { OnOk result ((pool_in self.new.pool).line
            ≡ (pool_in self.old.pool).line) }
        ensures ordered { OnOk result (StayOrdered self.old.orders.items self.new.orders.items) }
        ensures puts { find_number number (pool_in self.old.pool).holds ≡ None
            → OnOk result (FillsBy self.old.outbox.items
            (waits_on number self.old.links.items) (waits_on number self.new.links.items)) }
        ensures closes { OnOk result (ClosesOnly NoKey
            (register_in self.old) (register_in self.new)) }
        ensures seated { IsSeated self.old → OnOk result (IsSeated self.new) }
        ensures others { OnOk result ((other : ℕ) → other ≢ number
            → waits_on other self.new.links.items ≡ waits_on other self.old.links.items) }
        ensures queues { OnOk result ((other : ℕ) → other ≢ number
            → queue_on other self.new.links.items ≡ queue_on other self.old.links.items) }
        ensures counts { OnOk result (CountsOnce (cleaned_in self.old) (cleaned_in self.new)) }
        ensures cleaned { find_number number (pool_in self.old.pool).holds ≡ None
            → IsSome (waits_on number self.old.links.items)
            → OnOk result (CountsSent (HasNoRoom number self.old.outbox.items self.old.links.items)
            (waits_on number self.new.links.items) (cleaned_in self.old)
            (cleaned_in self.new)) }
        ensures opening { opens_in self.new.orders.items ≡ opens_in self.old.orders.items }
        ensures holds { OnOk result (MayForget number self.old.pool.holds.items
            self.new.pool.holds.items) }
        ensures answers { OnOk result (KeepsAnswers self.old.links.items self.new.links.items) }
    {
        let fits = self.fits_on(number)?;
        if fits {
            self.cleanings = self.cleanings.saturating_add(1);
            return Ok(());
        }
        self.failed = self.failed.saturating_add(1);
        match self.pool.key_on(number) {
            Some(_) => Ok(()),
            None => self.lose(number),
        }
    }

    /// Something is to be sent to an application. One for which more would wait than may is closed.
    pub(super) fn order_write(&mut self, key: usize) -> Result<(), NoMemory>
        ensures pool { self.new.pool ≡ self.old.pool }
        ensures kept { OnOk result (queues_in self.new.applications
            ≡ queues_in self.old.applications) }
        ensures moves { OnOk result (MovedOn (core_in self.old) (core_in self.new)) }
        ensures links { OnOk result (self.new.links.items ≡ self.old.links.items) }
        ensures asks { OnOk result (AskOn self.old.applications self.new.applications) }
        ensures ordered { OnOk result (StayOrdered self.old.orders.items self.new.orders.items) }
        ensures wakes { OnOk result (IsWoken key self.new.applications self.new.orders.items) }
        ensures alone { OnOk result (Alone key (core_in self.old) (core_in self.new)) }
        ensures closes { OnOk result (ClosesOnly (ItselfFor key
            (IsOverfull (queue_at (queues_in self.old.applications) key)))
            (register_in self.old) (register_in self.new)) }
        ensures counts { cleaned_in self.new ≡ cleaned_in self.old }
        ensures opening { opens_in self.new.orders.items ≡ opens_in self.old.orders.items }
    {
        let Some(application) = self.applications.get(key) else {
            return Ok(());
        };
        if application.out.is_full() {
            return self.end(key);
        }
        self.orders.push(Order::Write(application.tag))?;
        Ok(())
    }

    /// Something is to be sent on a connection.
    #[tactic(auto, using(crate::proofs::spared::Ordered::ordered_refl))]
    pub(super) fn order_write_on(&mut self, number: u64) -> Result<(), NoMemory>
        ensures pool { self.new.pool ≡ self.old.pool }
        ensures kept { OnOk result (queues_in self.new.applications
            ≡ queues_in self.old.applications) }
        ensures ends { OnOk result (ends_in self.new.applications
            ≡ ends_in self.old.applications) }
        ensures links { OnOk result (self.new.links.items ≡ self.old.links.items) }
        ensures asks { OnOk result (AskAsBefore self.old.applications self.new.applications) }
        ensures ordered { OnOk result (StayOrdered self.old.orders.items self.new.orders.items) }
        ensures writes { OnOk result (IsToWrite (called_at number self.new.links.items)
            self.new.orders.items) }
        ensures times { OnOk result ((tag : ℕ) → times_closed tag self.new.orders.items
            ≡ times_closed tag self.old.orders.items) }
        ensures closes { OnOk result (ClosesOnly NoKey
            (register_in self.old) (register_in self.new)) }
        ensures counts { cleaned_in self.new ≡ cleaned_in self.old }
        ensures opening { opens_in self.new.orders.items ≡ opens_in self.old.orders.items }
    {
        match self.tag_on(number) {
            Some(tag) => {
                self.orders.push(Order::Write(tag))?;
                Ok(())
            }
            None => Ok(()),
        }
    }

    /// What the connection of this number is called, if it is there and has a name.
    pub(super) fn tag_on(&self, number: u64) -> Option<usize>
        ensures { result ≡ called_at number self.now.links.items }
    {
        match self.link(number) {
            Some(link) => link.tag,
            None => None,
        }
    }
}
