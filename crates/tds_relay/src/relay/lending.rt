//! Connections that are lent to those who wait, opened, and asked.
ghost use Rattle.std.specs.Prelude.{◌≡◌, ◌≢◌, ◌⊎◌, ◌++◌, ◌<◌, ◌≤◌, [], ℕ, Bool, IfOk, List, None, OnOk, Some, false, length, option_map, true};
ghost use Rattle.slab.specs.Slab.{get};
ghost use Rattle.tds_relay.specs.Lent.{AllLast, AnewIfLent, Any, AsksLent, BeginsOn, DialsNewAt, FirstKeeps, GivenStay, IsMadeOn, IsOnItsOwn, IsWithHolder, KeepsAnswers, KeepsGiven, LastBut, LendsBehind, LendsInLine, OffRest, OpensGiven, PutsOnly, ShutGiven, ShutRest, ShutStay, StaysDialledAt, seen_in};
ghost use Rattle.tds_relay.specs.Apart.{Alone, AloneWho, LendsAfter, LendsInTurn, UnlessServed};
ghost use Rattle.tds_relay.specs.Asking.{HasBegun, IsUnderway, waits_of};
ghost use Rattle.tds_relay.specs.Bodies.{AskAsBefore, AskOn, Grows, Starts, GoesFrom, body_of, going_of, held_of, standing_in};
ghost use Rattle.tds_relay.specs.Closings.{ClosesOnly, IsWaiting, IsWho, Itself, NoKey, WhoOrWaiting, register_in};
ghost use Rattle.tds_relay.specs.Pool.{Sharing, find_key, find_number, key_of};
ghost use Rattle.tds_relay.specs.Few.{Few, FewBy, IsSeated, IsSeatedIf, NobodyWaits};
ghost use Rattle.tds_relay.specs.Fronts.{MovedOn, ends_in, core_in, machine_in};
ghost use Rattle.tds_relay.specs.Core.{IsReset, end_at, holder};
ghost use Rattle.tds_relay.specs.Machine.{IsLedTo, StepsOn};
ghost use Rattle.tds_relay.specs.Waiting.{GoesOrWaits, IsUnheldOrTurnedAway, IsLentInVain, OpensOrLends, RestsForHolder, RestsIfStill};
ghost use Rattle.tds_relay.specs.Queues.{names_in, queues_in};
ghost use Rattle.tds_relay.specs.Cutting.{at_its_beginning};
ghost use Rattle.tds_relay.specs.Reads.{Opens, OpensOne, LinksStay, StaysAt, answer_at, named_seen, open_at, link_at, opened_at, opened_seen, queue_on, seen_at, waits_on};
ghost use Rattle.tds_relay.specs.Ordering.{GrowsByOrders, OpensNew, StayOrdered, opens_if, opens_in};
ghost use Rattle.tds_relay.specs.Reasons.{CannotPut, CannotStartAt, HasNoRoom, IsTurnedAwayAt, IsUnheld, ItselfFor};
ghost use Rattle.tds_relay.specs.Sending.{IsToWrite, called_at};
ghost use Rattle.tds_relay.specs.Coming.{AskOrGo, MayBeginAny};
ghost use Rattle.tds_relay.specs.Sparing.{AllGo, AllRest, AwayRest, IsHeldBack, IsKept, IsUnkept, OthersRest, StartsOn, StartsThere, ClientsStay};
ghost use Rattle.tds_relay.specs.Taking.{IsDeaf};
ghost use Rattle.tds_relay.specs.Ties.{LedTo, LedOn, IsReached, pool_in};
ghost use Rattle.tds_relay.specs.Told.{TellsTheSame};
ghost use Rattle.tds_relay.specs.TokenParsers.{AllStand};
ghost use Rattle.tds_relay.specs.Cleaning.{cleaned_in};

use super::Relay;
use super::putting::unless_memory;
use crate::NoMemory;
use crate::links::{restart, set_open, set_tag};
use crate::order::Order;
use crate::pool::Served;
use crate::state::Asking;

impl Relay {
    /// The connection of this number is being opened, and is called so.
    pub fn opening(&mut self, number: u64, tag: usize)
        ensures pool { self.new.pool ≡ self.old.pool }
        ensures kept { queues_in self.new.applications ≡ queues_in self.old.applications }
        ensures ends { ends_in self.new.applications ≡ ends_in self.old.applications }
        ensures named { (other : ℕ) → seen_at other self.new.links.items
            ≡ named_seen tag number other self.old.links.items }
        ensures waits { (other : ℕ) → waits_on other self.new.links.items
            ≡ waits_on other self.old.links.items }
        ensures queues { (other : ℕ) → queue_on other self.new.links.items
            ≡ queue_on other self.old.links.items }
        ensures answers { (other : ℕ) → answer_at other self.new.links.items
            ≡ answer_at other self.old.links.items }
        ensures rest { AllRest self.old self.new }
        ensures tells { TellsTheSame self.old self.new }
        ensures orders { self.new.orders.items ≡ self.old.orders.items }
        ensures seated { IsSeated self.old → IsSeated self.new }
    {
        set_tag(&mut self.links, number, tag);
    }

    /// The connection of this number is open and logged in.
    pub fn opened(&mut self, number: u64) -> Result<(), NoMemory>
        ensures goes { OnOk result (LedOn (pool_in self.old.pool) (pool_in self.new.pool)) }
        ensures steps { OnOk result (StepsOn (machine_in self.old) (machine_in self.new)) }
        ensures served { OnOk result (NobodyWaits self.new) }
        ensures few { OnOk result (Few self.old.most self.old.links.items self.new.links.items) }
        ensures opens { OnOk result (OpensOne number self.old.links.items self.new.links.items) }
        ensures names { OnOk result (names_in self.new.applications
            ≡ names_in self.old.applications) }
        ensures stand { OnOk result (AllStand self.old.pool.service self.new.pool.service) }
        ensures goes_on { OnOk result (AllGo self.old self.new) }
        ensures starts { IsReached (pool_in self.old.pool)
            → OnOk result (StartsOn number self.old self.new) }
        ensures ordered { OnOk result (StayOrdered self.old.orders.items self.new.orders.items) }
        ensures writes { OnOk result (IsToWrite (called_at number self.new.links.items)
            self.new.orders.items) }
        ensures closes { OnOk result (ClosesOnly (OpensOrLends number self.old)
            (register_in self.old) (register_in self.new)) }
        ensures counts { cleaned_in self.new ≡ cleaned_in self.old }
        ensures seated { IsSeated self.old → OnOk result (IsSeated self.new) }
        ensures lasts { OnOk result (LastBut
            (WhoOrWaiting (holder (pool_in self.old.pool) number) (pool_in self.old.pool).line)
            (register_in self.old) (register_in self.new)) }
        ensures opening { OnOk result (OpensNew self.old self.new) }
        ensures many { OnOk result (GrowsByOrders self.old self.new) }
        ensures puts { IsReached (pool_in self.old.pool) → OnOk result
            (PutsOnly (IsWithHolder number self.old) self.old self.new) }
        ensures lends { OnOk result (LendsAfter (holder (pool_in self.old.pool) number)
            (core_in self.old) (core_in self.new)) }
        ensures given { OnOk result (OpensGiven number self.old self.new) }
        ensures fresh { OnOk result (DialsNewAt self.old self.new) }
        ensures clients { IsReached (pool_in self.old.pool) → OnOk result
            (ClientsStay (IsWho (holder (pool_in self.old.pool) number)) self.old self.new) }
        ensures rests { IsReached (pool_in self.old.pool)
            → OnOk result (RestsForHolder number self.old self.new) }
        ensures behind { IsReached (pool_in self.old.pool) → (sharing : Sharing)
            → IsLedTo sharing (machine_in self.old) → OnOk result (LendsBehind self.old self.new) }
    {
        self.set_open(number);
        self.order_write_on(number)?;
        self.start_on(number)?;
        self.serve_line()
    }

    fn set_open(&mut self, number: u64)
        ensures pool { self.new.pool ≡ self.old.pool }
        ensures kept { queues_in self.new.applications ≡ queues_in self.old.applications }
        ensures ends { ends_in self.new.applications ≡ ends_in self.old.applications }
        ensures opens { (other : ℕ) → open_at other self.new.links.items
            ≡ opened_at number other self.old.links.items }
        ensures seen { (other : ℕ) → seen_at other self.new.links.items
            ≡ opened_seen number other self.old.links.items }
        ensures waits { (other : ℕ) → waits_on other self.new.links.items
            ≡ waits_on other self.old.links.items }
        ensures answers { (other : ℕ) → answer_at other self.new.links.items
            ≡ answer_at other self.old.links.items }
        ensures queues { (other : ℕ) → queue_on other self.new.links.items
            ≡ queue_on other self.old.links.items }
        ensures asks { AskAsBefore self.old.applications self.new.applications }
        ensures same { AllRest self.old self.new }
        ensures orders { self.new.orders.items ≡ self.old.orders.items }
        ensures many { length self.new.links.items ≡ length self.old.links.items }
        ensures counts { cleaned_in self.new ≡ cleaned_in self.old }
        ensures closes { ClosesOnly NoKey (register_in self.old) (register_in self.new) }
    {
        set_open(&mut self.links, number);
    }

    /// Asks what the application asks that holds a connection.
    #[tactic(auto, using(crate::proofs::steps::Staying::stays_refl, crate::proofs::lending::Resting::go_refl, crate::proofs::spared::Ordered::ordered_refl))]
    fn start_on(&mut self, number: u64) -> Result<(), NoMemory>
        ensures goes { OnOk result (LedOn (pool_in self.old.pool) (pool_in self.new.pool)) }
        ensures kept { OnOk result (queues_in self.new.applications
            ≡ queues_in self.old.applications) }
        ensures moves { OnOk result (MovedOn (core_in self.old) (core_in self.new)) }
        ensures read { OnOk result (LinksStay self.old.links.items self.new.links.items) }
        ensures stand { OnOk result (AllStand self.old.pool.service self.new.pool.service) }
        ensures goes_on { OnOk result (AllGo self.old self.new) }
        ensures waits { OnOk result ((key : ℕ)
            → key_of (find_number number (pool_in self.old.pool).holds) ≡ Some key
            → IsUnkept (body_of key self.new) ⊎ IsHeldBack key self.old) }
        ensures behind { OnOk result ((key : ℕ)
            → key_of (find_number number (pool_in self.old.pool).holds) ≡ Some key
            → StartsThere key self.old self.new) }
        ensures ordered { OnOk result (StayOrdered self.old.orders.items self.new.orders.items) }
        ensures counts { cleaned_in self.new ≡ cleaned_in self.old }
        ensures closes { OnOk result (ClosesOnly
            (λ other. IsWho (holder (pool_in self.old.pool) number) other
            × IsTurnedAwayAt other self.old) (register_in self.old) (register_in self.new)) }
        ensures seated { IsSeated self.old → OnOk result (IsSeated self.new) }
        ensures lasts { OnOk result (LastBut (IsWho (holder (pool_in self.old.pool) number))
            (register_in self.old) (register_in self.new)) }
        ensures opening { opens_in self.new.orders.items ≡ opens_in self.old.orders.items }
        ensures keeps { IsReached (pool_in self.old.pool) → OnOk result
            (FirstKeeps (IsWithHolder number self.old) self.old self.new) }
        ensures alone { OnOk result (AloneWho (holder (pool_in self.old.pool) number)
            (core_in self.old) (core_in self.new)) }
        ensures clients { IsReached (pool_in self.old.pool) → OnOk result
            (ClientsStay (IsWho (holder (pool_in self.old.pool) number)) self.old self.new) }
        ensures rests { OnOk result (RestsIfStill number self.old self.new) }
    {
        match self.pool.key_on(number) {
            Some(key) => self.start_kept(key),
            None => Ok(()),
        }
    }

    /// Lends connections to those who wait, in order, while there are any.
    #[tactic(auto, using(crate::proofs::steps::Staying::opens_refl, crate::proofs::steps::Reaching::reaches_turn, crate::proofs::steps::Reaching::reaches_turned, crate::proofs::lending::Resting::go_refl, crate::proofs::spared::Ordered::ordered_refl, crate::proofs::spared::Apart::unserved_refl, crate::proofs::spared::Lasting::last_start))]
    pub(super) fn serve_line(&mut self) -> Result<(), NoMemory>
        ensures goes { OnOk result (LedOn (pool_in self.old.pool) (pool_in self.new.pool)) }
        ensures kept { OnOk result (queues_in self.new.applications
            ≡ queues_in self.old.applications) }
        ensures moves { OnOk result (MovedOn (core_in self.old) (core_in self.new)) }
        ensures served { OnOk result (NobodyWaits self.new) }
        ensures few { OnOk result (Few self.old.most self.old.links.items self.new.links.items) }
        ensures opens { OnOk result (Opens self.old.links.items self.new.links.items) }
        ensures stand { OnOk result (AllStand self.old.pool.service self.new.pool.service) }
        ensures goes_on { OnOk result (AllGo self.old self.new) }
        ensures asks { OnOk result (AskOrGo self.old.applications self.new.applications) }
        ensures apart { OnOk result (UnlessServed (core_in self.old) (core_in self.new)) }
        ensures lends { OnOk result (LendsInTurn (pool_in self.old.pool).line
            (ends_in self.old.applications) (core_in self.new)) }
        ensures ordered { OnOk result (StayOrdered self.old.orders.items self.new.orders.items) }
        ensures closes { OnOk result (ClosesOnly (IsWaiting (pool_in self.old.pool).line)
            (register_in self.old) (register_in self.new)) }
        ensures lasts { OnOk result (LastBut (IsWaiting (pool_in self.old.pool).line)
            (register_in self.old) (register_in self.new)) }
        ensures vain { OnOk result (ClosesOnly (IsLentInVain self.old) (register_in self.old)
            (register_in self.new)) }
        ensures seated { IsSeated self.old → OnOk result (IsSeated self.new) }
        ensures counts { cleaned_in self.new ≡ cleaned_in self.old }
        ensures opening { OnOk result (OpensNew self.old self.new) }
        ensures many { OnOk result (GrowsByOrders self.old self.new) }
        ensures fills { IsReached (pool_in self.old.pool)
            → OnOk result (LendsInLine self.old self.new) }
        ensures aside { IsReached (pool_in self.old.pool)
            → OnOk result (AwayRest self.old self.new) }
        ensures given { OnOk result (KeepsGiven self.old self.new) }
        ensures fresh { OnOk result (StaysDialledAt self.old self.new) }
        ensures still { OnOk result (ShutGiven self.old self.new) }
        ensures anew { IsReached (pool_in self.old.pool)
            → OnOk result (AnewIfLent self.old self.new) }
        ensures behind { IsReached (pool_in self.old.pool) → (sharing : Sharing)
            → IsLedTo sharing (machine_in self.old) → OnOk result (LendsBehind self.old self.new) }
    {
        let waiting = self.pool.waiting();
        'line: for turn in 0..waiting {
            if self.is_full() {
                return Ok(());
            }
            match self.pool.serve()? {
                Some(served) => self.lend(served)?,
                None => return Ok(()),
            }
        }
        Ok(())
    }

    /// A connection is lent to an application. One that nobody had is opened.
    #[tactic(auto, using(crate::proofs::steps::Reaching::reaches_turn, crate::proofs::steps::Reaching::reaches_turned, crate::proofs::steps::Answering::ask_refl))]
    fn lend(&mut self, served: Served) -> Result<(), NoMemory>
        ensures goes { OnOk result (LedOn (pool_in self.old.pool) (pool_in self.new.pool)) }
        ensures kept { OnOk result (queues_in self.new.applications
            ≡ queues_in self.old.applications) }
        ensures moves { OnOk result (MovedOn (core_in self.old) (core_in self.new)) }
        ensures opens { OnOk result (Opens self.old.links.items self.new.links.items) }
        ensures few { OnOk result (FewBy served.had self.old.links.items self.new.links.items) }
        ensures underway { (whole : Bool) → served.had ≡ true
            → waits_of (get self.old.applications served.hold.key) ≡ Some whole
            → OnOk result (IsUnderway whole self.new.links.items served.hold.key
            (core_in self.new)) }
        ensures stand { OnOk result (AllStand self.old.pool.service self.new.pool.service) }
        ensures goes_on { OnOk result (AllGo self.old self.new) }
        ensures asks { OnOk result (AskOrGo self.old.applications self.new.applications) }
        ensures alone { OnOk result (Alone served.hold.key (core_in self.old) (core_in self.new)) }
        ensures ordered { OnOk result (StayOrdered self.old.orders.items self.new.orders.items) }
        ensures begins { served.had ≡ true → OnOk result (BeginsOn served.hold.number
            self.old.links.items self.new.links.items) }
        ensures made { served.had ≡ false → link_at served.hold.number self.old.links.items ≡ None
            → OnOk result (IsMadeOn self.old.size self.old.features served.hold.number
            self.new.links.items) }
        ensures closes { OnOk result (ClosesOnly
            (ItselfFor served.hold.key (IsUnheldOrTurnedAway served.hold.key self.old))
            (register_in self.old) (register_in self.new)) }
        ensures lasts { OnOk result (LastBut (Itself served.hold.key)
            (register_in self.old) (register_in self.new)) }
        ensures seated { IsSeatedIf served.had served.hold.number true self.old
            → OnOk result (IsSeated self.new) }
        ensures counts { cleaned_in self.new ≡ cleaned_in self.old }
        ensures opening { OnOk result (opens_in self.new.orders.items
            ≡ opens_in self.old.orders.items ++ opens_if served.had served.hold.number) }
        ensures many { OnOk result (GrowsByOrders self.old self.new) }
        ensures own { IsReached (pool_in self.old.pool)
            → holder (pool_in self.old.pool) served.hold.number ≡ Some served.hold.key
            → OnOk result (IsOnItsOwn served.hold.key self.old self.new) }
        ensures others { IsReached (pool_in self.old.pool)
            → OnOk result (OthersRest served.hold.key self.old self.new) }
        ensures given { (last : ℕ) → (served.had ≡ false → last < served.hold.number)
            → OnOk result (GivenStay last Any (seen_in self.old.links.items) self.old.links.items
            self.new.links.items) }
        ensures fresh { OnOk result (StaysDialledAt self.old self.new) }
        ensures still { (last : ℕ) → (served.had ≡ false → last < served.hold.number)
            → OnOk result (ShutStay (λ n. n ≤ last) self.old.links.items self.new.links.items) }
        ensures elsewhere { OnOk result ((n : ℕ) → n ≢ served.hold.number
            → StaysAt (answer_at n self.old.links.items) (answer_at n self.new.links.items)) }
        ensures behind { served.had ≡ true
            → find_key served.hold.key (pool_in self.old.pool).holds ≡ Some served.hold
            → OnOk result (AsksLent served.hold.number served.hold.key self.old self.new) }
        ensures placed { served.had ≡ true → OnOk result (GoesOrWaits served.hold.key self.new) }
    {
        let number = served.hold.number;
        if served.had {
            self.restart(number);
            return self.start_kept(served.hold.key);
        }
        let link = self.new_link(number)?;
        self.links.push(link)?;
        self.orders.push(Order::Open(number))?;
        Ok(())
    }

    /// What comes next there is a message's first packet. Who held it may have left in the middle of one.
    pub(super) fn restart(&mut self, number: u64)
        ensures pool { self.new.pool ≡ self.old.pool }
        ensures same { self.new.applications ≡ self.old.applications }
        ensures kept { queues_in self.new.applications ≡ queues_in self.old.applications }
        ensures ends { ends_in self.new.applications ≡ ends_in self.old.applications }
        ensures read { LinksStay self.old.links.items self.new.links.items }
        ensures begins { answer_at number self.new.links.items
            ≡ option_map at_its_beginning (answer_at number self.old.links.items) }
        ensures any { MayBeginAny self.old.links.items self.new.links.items }
        ensures waits { (other : ℕ) → waits_on other self.new.links.items
            ≡ waits_on other self.old.links.items }
        ensures queues { (other : ℕ) → queue_on other self.new.links.items
            ≡ queue_on other self.old.links.items }
        ensures rests { AllRest self.old self.new }
        ensures orders { self.new.orders.items ≡ self.old.orders.items }
        ensures closes { ClosesOnly NoKey (register_in self.old) (register_in self.new) }
        ensures lasts { AllLast self.old.links.items self.new.links.items }
        ensures counts { cleaned_in self.new ≡ cleaned_in self.old }
        ensures others { (other : ℕ) → other ≢ number → answer_at other self.new.links.items
            ≡ answer_at other self.old.links.items }
    {
        restart(&mut self.links, number);
    }

    /// Asks what an application asks, where its connection is open, and the server has acknowledged there
    /// what it took back.
    #[tactic(auto, using(crate::proofs::steps::Reaching::reaches_turn, crate::proofs::steps::Reaching::reaches_turned, crate::proofs::steps::Underway::of_none, crate::proofs::steps::Underway::of_over, crate::proofs::steps::Underway::drains, crate::proofs::bytes::Calls::stand_on, crate::proofs::lending::Resting::others_refl, crate::proofs::spared::Ordered::ordered_refl, crate::proofs::spared::Apart::alone_refl, crate::proofs::steps::Answering::ask_refl))]
    pub(super) fn start(&mut self, key: usize) -> Result<(), NoMemory>
        ensures goes { OnOk result (LedOn (pool_in self.old.pool) (pool_in self.new.pool)) }
        ensures kept { OnOk result (queues_in self.new.applications
            ≡ queues_in self.old.applications) }
        ensures moves { OnOk result (IsReset (pool_in self.old.pool) key
            (end_at (ends_in self.old.applications) key)
            → HasBegun (pool_in self.old.pool) key (end_at (ends_in self.old.applications) key)
            → MovedOn (core_in self.old) (core_in self.new)) }
        ensures underway { (whole : Bool) → waits_of (get self.old.applications key) ≡ Some whole
            → OnOk result (IsUnderway whole self.new.links.items key (core_in self.new)) }
        ensures read { OnOk result (LinksStay self.old.links.items self.new.links.items) }
        ensures stand { OnOk result (AllStand self.old.pool.service self.new.pool.service) }
        ensures body { OnOk result (Starts (body_of key self.old) (body_of key self.new)) }
        ensures asks { OnOk result (AskOrGo self.old.applications self.new.applications) }
        ensures others { IsReached (pool_in self.old.pool)
            → OnOk result (OthersRest key self.old self.new) }
        ensures waits { OnOk result (IsUnkept (body_of key self.new) ⊎ IsHeldBack key self.old) }
        ensures alone { OnOk result (Alone key (core_in self.old) (core_in self.new)) }
        ensures ordered { OnOk result (StayOrdered self.old.orders.items self.new.orders.items) }
        ensures placed { OnOk result (GoesOrWaits key self.new) }
        ensures behind { OnOk result (StartsThere key self.old self.new) }
        ensures answers { OnOk result (KeepsAnswers self.old.links.items self.new.links.items) }
        ensures closes { OnOk result (ClosesOnly (ItselfFor key (IsUnheld key self.old.pool
            ⊎ CannotStartAt key self.old)) (register_in self.old) (register_in self.new)) }
        ensures lasts { OnOk result (LastBut (Itself key)
            (register_in self.old) (register_in self.new)) }
        ensures seated { IsSeated self.old → OnOk result (IsSeated self.new) }
        ensures counts { cleaned_in self.new ≡ cleaned_in self.old }
        ensures opening { opens_in self.new.orders.items ≡ opens_in self.old.orders.items }
        ensures own { IsReached (pool_in self.old.pool) → OnOk result
            (IsOnItsOwn key self.old self.new) }
        ensures puts { OnOk result (GoesFrom (standing_in key self.old)
            (standing_in key self.new)) }
        ensures stays { OnOk result (IsKept (body_of key self.new)
            → body_of key self.new ≡ body_of key self.old) }
        ensures shut { OnOk result (ShutRest self.old.links.items self.new.links.items) }
    {
        let Some(application) = self.applications.get(key) else {
            return Ok(());
        };
        if application.state.is_over() {
            return Ok(());
        }
        let Asking::Waits { kind, whole } = application.state.asking() else {
            return Ok(());
        };
        let Some(hold) = self.pool.hold_of(key) else {
            return self.end(key);
        };
        if application.state.is_withdrawn() {
            return Ok(());
        }
        if !self.is_open(hold.number) {
            return Ok(());
        }
        match self.pool.ask(key, kind) {
            Ok(_) => self.put_held(key, whole),
            Err(refusal) => {
                unless_memory(refusal)?;
                self.fail(key, hold.number)
            }
        }
    }

    /// A connection that an application holds doesn't take its request: both are closed.
    pub(super) fn fail(&mut self, key: usize, number: u64) -> Result<(), NoMemory>
        ensures goes { OnOk result (LedOn (pool_in self.old.pool) (pool_in self.new.pool)) }
        ensures kept { OnOk result (queues_in self.new.applications
            ≡ queues_in self.old.applications) }
        ensures moves { OnOk result (MovedOn (core_in self.old) (core_in self.new)) }
        ensures over { OnOk result (IsDeaf (end_at (ends_in self.new.applications) key)) }
        ensures read { OnOk result (LinksStay self.old.links.items self.new.links.items) }
        ensures stand { OnOk result (AllStand self.old.pool.service self.new.pool.service) }
        ensures rests { IsReached (pool_in self.old.pool)
            → OnOk result (AllRest self.old self.new) }
        ensures alone { OnOk result (Alone key (core_in self.old) (core_in self.new)) }
        ensures ordered { OnOk result (StayOrdered self.old.orders.items self.new.orders.items) }
        ensures answers { OnOk result (KeepsAnswers self.old.links.items self.new.links.items) }
        ensures closes { OnOk result (ClosesOnly (Itself key)
            (register_in self.old) (register_in self.new)) }
        ensures seated { IsSeated self.old → OnOk result (IsSeated self.new) }
        ensures counts { cleaned_in self.new ≡ cleaned_in self.old }
        ensures opening { opens_in self.new.orders.items ≡ opens_in self.old.orders.items }
        ensures asks { OnOk result (AskOn self.old.applications self.new.applications) }
        ensures own { OnOk result (IsOnItsOwn key self.old self.new) }
        ensures off { OnOk result (OffRest number self.old.links.items self.new.links.items) }
    {
        self.lose_own(key, number)?;
        self.end(key)
    }
}
