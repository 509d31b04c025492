//! Applications that leave, and connections that are lost.
ghost use Rattle.std.specs.Prelude.{◌≡◌, ◌≢◌, ℕ, None, OnOk, Some, slice_set};
ghost use Rattle.slab.specs.Slab.{get};
ghost use Rattle.tds_relay.specs.Lent.{DialsNewAt, KeepsGiven, LendsBehind, OffRest, IsLetGo, IsOnItsOwn, OthersKeepAt, PutsOnly, AllLastBut, KeepsAnswers, LastBesides};
ghost use Rattle.tds_relay.specs.Apart.{Alone, LendsInTurn, LosesOnly};
ghost use Rattle.tds_relay.specs.Bodies.{AskAsBefore, AskOn, Body, Closed, body_in};
ghost use Rattle.tds_relay.specs.Cleaning.{CleaningsWaitAt, CountsAtEnd, CountsHold, CountsSinceEnd, OfItsHold, WaitsAtEnd, WaitsSinceEnd, cleaned_in, LetsGoAt};
ghost use Rattle.tds_relay.specs.Pool.{Loses, Sharing, find_key, find_number, key_of, turn, without, without_number};
ghost use Rattle.tds_relay.specs.Few.{Few, IsSeated, IsSeatedOff, NobodyWaits, TakenOut};
ghost use Rattle.tds_relay.specs.Fronts.{LetsGoFirst, MovedOn, ends_in, core_in, machine_in};
ghost use Rattle.tds_relay.specs.Core.{change_end, change_whose, closes, closes_for, holder, lets_go};
ghost use Rattle.tds_relay.specs.Machine.{IsLedTo, Steps, StepsOn};
ghost use Rattle.tds_relay.specs.Closings.{ClosesOnly, IsWaiting, IsWho, Itself, NoKey, register_in, without_key};
ghost use Rattle.tds_relay.specs.Waiting.{IsLentByParting, LosesOrLends};
ghost use Rattle.tds_relay.specs.Law.{closing};
ghost use Rattle.tds_relay.specs.Places.{held_by};
ghost use Rattle.tds_relay.specs.Queues.{names_in, queues_in};
ghost use Rattle.tds_relay.specs.Ordering.{GrowsByOrders, OpensNew, StayOrdered, opens_in};
ghost use Rattle.tds_relay.specs.Reads.{Opens, LinksStay, queue_on, reader_at, waits_on};
ghost use Rattle.tds_relay.specs.Sparing.{AllGo, AllRest, OthersRest, ClientsStay};
ghost use Rattle.tds_relay.specs.Ties.{Application, LedOn, IsReached, Leaving, pool_in};
ghost use Rattle.tds_relay.specs.TokenParsers.{AllStand};

use super::Relay;
use crate::NoMemory;
use crate::links::remove_link;
use crate::order::Order;
use tds_front::FrontFault;

impl Relay {
    /// An application has ended, or was closed: its key is unknown from now on. What is underway of it is
    /// cancelled, and its connection cleaned as soon as that has drained.
    #[tactic(auto, using(crate::proofs::steps::Reaching::reaches_turn, crate::proofs::steps::Reaching::reaches_turned))]
    pub fn left(&mut self, key: usize) -> Result<(), NoMemory>
        ensures left { OnOk result (Leaving key (pool_in self.old.pool) (pool_in self.new.pool)) }
        ensures steps { OnOk result (Steps (Application key) (machine_in self.old)
            (machine_in self.new)) }
        ensures names { OnOk result (names_in self.new.applications
            ≡ slice_set (names_in self.old.applications) key None) }
        ensures served { OnOk result (NobodyWaits self.new) }
        ensures lends { OnOk result (LendsInTurn (without key (pool_in self.old.pool).line)
            (slice_set (ends_in self.old.applications) key None) (core_in self.new)) }
        ensures few { OnOk result (Few self.old.most self.old.links.items
            self.new.links.items) }
        ensures opens { OnOk result (Opens self.old.links.items self.new.links.items) }
        ensures stand { OnOk result (AllStand self.old.pool.service
            self.new.pool.service) }
        ensures goes_on { OnOk result (AllGo self.old self.new) }
        ensures ordered { OnOk result (StayOrdered self.old.orders.items self.new.orders.items) }
        ensures closes { OnOk result (ClosesOnly (IsLentByParting (Application key) key self.old)
            (without_key key (register_in self.old)) (register_in self.new)) }
        ensures ends { IsReached (pool_in self.old.pool)
            → OnOk result (WaitsSinceEnd key self.old self.new) }
        ensures seated { IsSeated self.old → OnOk result (IsSeated self.new) }
        ensures lasts { OnOk result (LastBesides
            (λ number. held_by (pool_in self.old.pool) key ≡ Some number)
            (IsWaiting (pool_in self.old.pool).line) (without_key key (register_in self.old))
            (register_in self.new)) }
        ensures counts { OnOk result (CountsHold (find_key key (pool_in self.old.pool).holds)
            (cleaned_in self.old) (cleaned_in self.new)) }
        ensures cleaned { IsReached (pool_in self.old.pool) → OnOk result (CountsSinceEnd key
            (without_key key (register_in self.old)) self.old self.new) }
        ensures opening { OnOk result (OpensNew self.old self.new) }
        ensures many { OnOk result (GrowsByOrders self.old self.new) }
        ensures puts { IsReached (pool_in self.old.pool) → OnOk result (PutsOnly
            (λ number. holder (pool_in self.old.pool) number ≡ Some key)
            self.old self.new) }
        ensures given { OnOk result (KeepsGiven self.old self.new) }
        ensures fresh { OnOk result (DialsNewAt self.old self.new) }
        ensures clients { IsReached (pool_in self.old.pool)
            → OnOk result (ClientsStay (Itself key) self.old self.new) }
        ensures awaits { OnOk result (CleaningsWaitAt self.old self.new) }
        ensures behind { IsReached (pool_in self.old.pool) → (sharing : Sharing)
            → IsLedTo sharing (machine_in self.old) → OnOk result (LendsBehind self.old self.new) }
    {
        let _ = self.applications.try_remove(key).is_some();
        self.release(key)?;
        self.serve_line()
    }

    /// The connection of this number has ended, or couldn't be opened: its application is closed.
    #[tactic(auto, using(crate::proofs::steps::Reaching::reaches_turn, crate::proofs::steps::Reaching::reaches_turned))]
    pub fn lost(&mut self, number: u64) -> Result<(), NoMemory>
        ensures lost { OnOk result (LedOn (turn (pool_in self.old.pool) (Loses number)).pool
            (pool_in self.new.pool)) }
        ensures steps { OnOk result (StepsOn (machine_in self.old) (machine_in self.new)) }
        ensures names { OnOk result (names_in self.new.applications
            ≡ names_in self.old.applications) }
        ensures served { OnOk result (NobodyWaits self.new) }
        ensures few { OnOk result (Few self.old.most self.old.links.items
            self.new.links.items) }
        ensures opens { OnOk result (Opens self.old.links.items self.new.links.items) }
        ensures stand { OnOk result (AllStand self.old.pool.service
            self.new.pool.service) }
        ensures goes_on { OnOk result (AllGo self.old self.new) }
        ensures only { OnOk result (LosesOnly number (core_in self.old) (core_in self.new)) }
        ensures lends { OnOk result (LendsInTurn (pool_in self.old.pool).line (change_whose
            (holder (pool_in self.old.pool) number) closes (ends_in self.old.applications))
            (core_in self.new)) }
        ensures ordered { OnOk result (StayOrdered self.old.orders.items self.new.orders.items) }
        ensures closes { OnOk result (ClosesOnly (LosesOrLends number self.old)
            (register_in self.old) (register_in self.new)) }
        ensures seated { IsSeated self.old → OnOk result (IsSeated self.new) }
        ensures lasts { OnOk result (LastBesides (λ other. other ≡ number)
            (IsWaiting (pool_in self.old.pool).line) (register_in self.old)
            (register_in self.new)) }
        ensures counts { cleaned_in self.new ≡ cleaned_in self.old }
        ensures opening { OnOk result (OpensNew self.old self.new) }
        ensures many { OnOk result (GrowsByOrders self.old self.new) }
        ensures puts { IsReached (pool_in self.old.pool)
            → OnOk result (PutsOnly (λ other. other ≡ number) self.old self.new) }
        ensures given { OnOk result (KeepsGiven self.old self.new) }
        ensures fresh { OnOk result (DialsNewAt self.old self.new) }
        ensures clients { IsReached (pool_in self.old.pool)
            → OnOk result (ClientsStay NoKey self.old self.new) }
        ensures behind { IsReached (pool_in self.old.pool) → (sharing : Sharing)
            → IsLedTo sharing (machine_in self.old) → OnOk result (LendsBehind self.old self.new) }
    {
        self.lose(number)?;
        self.serve_line()
    }

    /// It is to be closed.
    pub(super) fn end(&mut self, key: usize) -> Result<(), NoMemory>
        ensures pool { self.new.pool ≡ self.old.pool }
        ensures kept { OnOk result (queues_in self.new.applications
            ≡ queues_in self.old.applications) }
        ensures ends { OnOk result (ends_in self.new.applications
            ≡ change_end key closes (ends_in self.old.applications)) }
        ensures links { OnOk result (self.new.links.items ≡ self.old.links.items) }
        ensures asks { OnOk result (AskOn self.old.applications self.new.applications) }
        ensures shuts { OnOk result ((goes : Body)
            → body_in (get self.new.applications key) goes ≡ Closed) }
        ensures ordered { OnOk result (self.new.orders.items
            ≡ closing (get self.old.applications key) self.old.orders.items) }
        ensures closes { OnOk result (ClosesOnly (Itself key)
            (register_in self.old) (register_in self.new)) }
        ensures counts { cleaned_in self.new ≡ cleaned_in self.old }
        ensures opening { opens_in self.new.orders.items ≡ opens_in self.old.orders.items }
    {
        self.end_for(key, None)
    }

    /// It is to be closed, for this where that is what it did.
    pub(super) fn end_for(&mut self, key: usize, why: Option<FrontFault>) -> Result<(), NoMemory>
        ensures pool { self.new.pool ≡ self.old.pool }
        ensures kept { OnOk result (queues_in self.new.applications
            ≡ queues_in self.old.applications) }
        ensures ends { OnOk result (ends_in self.new.applications
            ≡ change_end key (closes_for why) (ends_in self.old.applications)) }
        ensures links { OnOk result (self.new.links.items ≡ self.old.links.items) }
        ensures asks { OnOk result (AskOn self.old.applications self.new.applications) }
        ensures shuts { OnOk result ((goes : Body)
            → body_in (get self.new.applications key) goes ≡ Closed) }
        ensures ordered { OnOk result (self.new.orders.items
            ≡ closing (get self.old.applications key) self.old.orders.items) }
        ensures closes { OnOk result (ClosesOnly (Itself key)
            (register_in self.old) (register_in self.new)) }
        ensures counts { cleaned_in self.new ≡ cleaned_in self.old }
        ensures opening { opens_in self.new.orders.items ≡ opens_in self.old.orders.items }
    {
        match self.applications.get_mut(key) {
            Some(application) => {
                if application.state.is_over() {
                    return Ok(());
                }
                application.close(why);
                self.orders.push(Order::Close(application.tag))?;
                Ok(())
            }
            None => Ok(()),
        }
    }

    /// An application waits no more, and what it holds is nobody's any more.
    #[tactic(auto, using(crate::proofs::steps::Reaching::reaches_turn, crate::proofs::steps::Reaching::reaches_turned))]
    pub(super) fn release(&mut self, key: usize) -> Result<(), NoMemory>
        ensures leaving { OnOk result (Leaving key (pool_in self.old.pool)
            (pool_in self.new.pool)) }
        ensures kept { OnOk result (queues_in self.new.applications
            ≡ queues_in self.old.applications) }
        ensures lets_go { OnOk result (LetsGoFirst key (core_in self.old) (core_in self.new)) }
        ensures fronts { OnOk result (ends_in self.new.applications
            ≡ change_end key lets_go (ends_in self.old.applications)) }
        ensures line { OnOk result ((pool_in self.new.pool).line
            ≡ without key (pool_in self.old.pool).line) }
        ensures read { OnOk result (LinksStay self.old.links.items self.new.links.items) }
        ensures stand { OnOk result (AllStand self.old.pool.service
            self.new.pool.service) }
        ensures asks { OnOk result (AskOn self.old.applications self.new.applications) }
        ensures others { IsReached (pool_in self.old.pool)
            → OnOk result (OthersRest key self.old self.new) }
        ensures ordered { OnOk result (StayOrdered self.old.orders.items self.new.orders.items) }
        ensures closes { OnOk result (ClosesOnly NoKey
            (register_in self.old) (register_in self.new)) }
        ensures ends { IsReached (pool_in self.old.pool) → OnOk result (OfItsHold WaitsAtEnd key
            self.old (λ number. waits_on number self.new.links.items)) }
        ensures seated { IsSeated self.old → OnOk result (IsSeated self.new) }
        ensures lasts { OnOk result (AllLastBut
            (λ number. held_by (pool_in self.old.pool) key ≡ Some number)
            self.old.links.items self.new.links.items) }
        ensures counts { OnOk result (CountsHold (find_key key (pool_in self.old.pool).holds)
            (cleaned_in self.old) (cleaned_in self.new)) }
        ensures cleaned { IsReached (pool_in self.old.pool) → OnOk result
            (CountsAtEnd key self.old self.new) }
        ensures opening { opens_in self.new.orders.items ≡ opens_in self.old.orders.items }
        ensures keeps { IsReached (pool_in self.old.pool) → OnOk result
            (OthersKeepAt key self.old self.new) }
        ensures frees { IsReached (pool_in self.old.pool) → OnOk result
            (IsLetGo key self.old.pool.holds.items self.new.pool.holds.items) }
        ensures answers { OnOk result (KeepsAnswers self.old.links.items self.new.links.items) }
        ensures awaits { OnOk result (CleaningsWaitAt self.old self.new) }
        ensures lets { IsReached (pool_in self.old.pool)
            → OnOk result (LetsGoAt key self.old self.new) }
    {
        self.outbox.clear();
        let left = self.pool.leave(key, &mut self.outbox)?;
        self.let_go(key);
        let Some(left) = left else {
            return Ok(());
        };
        if left.is_there {
            self.send_unheld(left.number)
        } else {
            self.failed = self.failed.saturating_add(1);
            self.close(left.number, None)
        }
    }

    /// A connection is of no use any more: it is closed, and its application with it.
    #[tactic(auto, using(crate::proofs::steps::Reaching::reaches_turn, crate::proofs::steps::Reaching::reaches_turned))]
    pub(super) fn lose(&mut self, number: u64) -> Result<(), NoMemory>
        ensures lost { OnOk result (LedOn (turn (pool_in self.old.pool) (Loses number)).pool
            (pool_in self.new.pool)) }
        ensures goes { OnOk result (LedOn (pool_in self.old.pool) (pool_in self.new.pool)) }
        ensures kept { OnOk result (queues_in self.new.applications
            ≡ queues_in self.old.applications) }
        ensures moves { OnOk result (MovedOn (core_in self.old) (core_in self.new)) }
        ensures read { OnOk result (LinksStay self.old.links.items self.new.links.items) }
        ensures gone { OnOk result (reader_at number self.new.links.items ≡ None) }
        ensures stand { OnOk result (AllStand self.old.pool.service
            self.new.pool.service) }
        ensures asks { OnOk result (AskOn self.old.applications self.new.applications) }
        ensures rests { IsReached (pool_in self.old.pool)
            → OnOk result (AllRest self.old self.new) }
        ensures shuts { OnOk result ((key : ℕ)
            → key_of (find_number number (pool_in self.old.pool).holds) ≡ Some key → (goes : Body)
            → body_in (get self.new.applications key) goes ≡ Closed) }
        ensures ends { OnOk result (ends_in self.new.applications ≡ change_whose
            (holder (pool_in self.old.pool) number) closes (ends_in self.old.applications)) }
        ensures line { OnOk result ((pool_in self.new.pool).line
            ≡ (pool_in self.old.pool).line) }
        ensures ordered { OnOk result (StayOrdered self.old.orders.items self.new.orders.items) }
        ensures others { OnOk result ((other : ℕ) → other ≢ number
            → waits_on other self.new.links.items ≡ waits_on other self.old.links.items) }
        ensures queues { OnOk result ((other : ℕ) → other ≢ number
            → queue_on other self.new.links.items ≡ queue_on other self.old.links.items) }
        ensures answers { OnOk result (KeepsAnswers self.old.links.items self.new.links.items) }
        ensures closes { OnOk result (ClosesOnly (IsWho (holder (pool_in self.old.pool) number))
            (register_in self.old) (register_in self.new)) }
        ensures seated { IsSeatedOff number self.old → OnOk result (IsSeated self.new) }
        ensures counts { cleaned_in self.new ≡ cleaned_in self.old }
        ensures opening { opens_in self.new.orders.items ≡ opens_in self.old.orders.items }
        ensures holds { OnOk result (self.new.pool.holds.items
            ≡ without_number number self.old.pool.holds.items) }
    {
        let key = self.pool.lose(number)?;
        self.close(number, key)
    }

    /// The same of a connection that this application holds.
    #[tactic(auto, using(crate::proofs::steps::Staying::stays_refl, crate::proofs::lending::Resting::all_refl, crate::proofs::spared::Apart::alone_refl, crate::proofs::spared::Ordered::ordered_refl))]
    pub(super) fn lose_own(&mut self, key: usize, number: u64) -> Result<(), NoMemory>
        ensures goes { OnOk result (LedOn (pool_in self.old.pool) (pool_in self.new.pool)) }
        ensures kept { OnOk result (queues_in self.new.applications
            ≡ queues_in self.old.applications) }
        ensures moves { OnOk result (MovedOn (core_in self.old) (core_in self.new)) }
        ensures read { OnOk result (LinksStay self.old.links.items self.new.links.items) }
        ensures stand { OnOk result (AllStand self.old.pool.service
            self.new.pool.service) }
        ensures rests { IsReached (pool_in self.old.pool)
            → OnOk result (AllRest self.old self.new) }
        ensures asks { OnOk result (AskOn self.old.applications self.new.applications) }
        ensures alone { OnOk result (Alone key (core_in self.old) (core_in self.new)) }
        ensures ordered { OnOk result (StayOrdered self.old.orders.items self.new.orders.items) }
        ensures answers { OnOk result (KeepsAnswers self.old.links.items self.new.links.items) }
        ensures closes { OnOk result (ClosesOnly (Itself key)
            (register_in self.old) (register_in self.new)) }
        ensures seated { IsSeated self.old → OnOk result (IsSeated self.new) }
        ensures counts { cleaned_in self.new ≡ cleaned_in self.old }
        ensures opening { opens_in self.new.orders.items ≡ opens_in self.old.orders.items }
        ensures own { OnOk result (IsOnItsOwn key self.old self.new) }
        ensures off { OnOk result (OffRest number self.old.links.items self.new.links.items) }
    {
        match self.pool.key_on(number) {
            Some(holder) => {
                if holder == key {
                    self.lose(number)
                } else {
                    Ok(())
                }
            }
            None => Ok(()),
        }
    }

    #[tactic(auto, using(crate::proofs::steps::Staying::stays_without, crate::proofs::steps::Staying::taken_out, crate::proofs::spared::Ordered::ordered_refl))]
    pub(super) fn close_link(&mut self, number: u64) -> Result<(), NoMemory>
        ensures pool { self.new.pool ≡ self.old.pool }
        ensures kept { OnOk result (queues_in self.new.applications
            ≡ queues_in self.old.applications) }
        ensures ends { OnOk result (ends_in self.new.applications
            ≡ ends_in self.old.applications) }
        ensures read { OnOk result (LinksStay self.old.links.items self.new.links.items) }
        ensures gone { OnOk result (reader_at number self.new.links.items ≡ None) }
        ensures fewer { OnOk result (TakenOut number self.old.links.items
            self.new.links.items) }
        ensures asks { OnOk result (AskAsBefore self.old.applications self.new.applications) }
        ensures others { OnOk result ((other : ℕ) → other ≢ number
            → waits_on other self.new.links.items ≡ waits_on other self.old.links.items) }
        ensures queues { OnOk result ((other : ℕ) → other ≢ number
            → queue_on other self.new.links.items ≡ queue_on other self.old.links.items) }
        ensures ordered { OnOk result (StayOrdered self.old.orders.items self.new.orders.items) }
        ensures answers { OnOk result (KeepsAnswers self.old.links.items self.new.links.items) }
        ensures closes { OnOk result (ClosesOnly NoKey
            (register_in self.old) (register_in self.new)) }
        ensures counts { cleaned_in self.new ≡ cleaned_in self.old }
        ensures opening { opens_in self.new.orders.items ≡ opens_in self.old.orders.items }
    {
        let tag = self.tag_on(number);
        remove_link(&mut self.links, number);
        match tag {
            Some(tag) => {
                self.orders.push(Order::Close(tag))?;
                Ok(())
            }
            None => Ok(()),
        }
    }

    /// A connection that the pool has no more is closed, and the application that held it.
    pub(super) fn close(&mut self, number: u64, key: Option<usize>) -> Result<(), NoMemory>
        ensures pool { self.new.pool ≡ self.old.pool }
        ensures kept { OnOk result (queues_in self.new.applications
            ≡ queues_in self.old.applications) }
        ensures ends { OnOk result (ends_in self.new.applications
            ≡ change_whose key closes (ends_in self.old.applications)) }
        ensures read { OnOk result (LinksStay self.old.links.items self.new.links.items) }
        ensures gone { OnOk result (reader_at number self.new.links.items ≡ None) }
        ensures fewer { OnOk result (TakenOut number self.old.links.items
            self.new.links.items) }
        ensures asks { OnOk result (AskOn self.old.applications self.new.applications) }
        ensures others { OnOk result ((other : ℕ) → other ≢ number
            → waits_on other self.new.links.items ≡ waits_on other self.old.links.items) }
        ensures queues { OnOk result ((other : ℕ) → other ≢ number
            → queue_on other self.new.links.items ≡ queue_on other self.old.links.items) }
        ensures shuts { OnOk result ((other : ℕ) → key ≡ Some other → (goes : Body)
            → body_in (get self.new.applications other) goes ≡ Closed) }
        ensures ordered { OnOk result (StayOrdered self.old.orders.items self.new.orders.items) }
        ensures answers { OnOk result (KeepsAnswers self.old.links.items self.new.links.items) }
        ensures closes { OnOk result (ClosesOnly (IsWho key)
            (register_in self.old) (register_in self.new)) }
        ensures counts { cleaned_in self.new ≡ cleaned_in self.old }
        ensures opening { opens_in self.new.orders.items ≡ opens_in self.old.orders.items }
    {
        self.close_link(number)?;
        match key {
            Some(key) => self.end(key),
            None => Ok(()),
        }
    }
}
