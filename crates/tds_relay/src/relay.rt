//! The relay: who is there, and what whoever carries its bytes asks of it.
ghost use Rattle.std.specs.Prelude.{◌≡◌, ◌≢◌, ◌-◌, ◌≤◌, [], ℕ, Bool, IfOk, IfSome, None, OnOk, Some, false, length};
ghost use Rattle.std.specs.Prelude.{IsSome, option_copied, true};
ghost use Rattle.slab.specs.Slab.{get, slab_len};
ghost use Rattle.tds_front.specs.Bytes.{new_front};
ghost use Rattle.tds_service.specs.Sizes.{AllSized};
ghost use Rattle.tds_relay.specs.Apart.{SparesOthers};
ghost use Rattle.tds_relay.specs.Asking.{IsUnderway};
ghost use Rattle.tds_relay.specs.Bodies.{AskAsBefore, Nowhere, body_of};
ghost use Rattle.tds_relay.specs.Told.{waiting_for};
ghost use Rattle.tds_relay.specs.Closings.{ClosesOnly, NoKey, register_in};
ghost use Rattle.tds_relay.specs.Pool.{find_key, find_number, key_of, new_pool};
ghost use Rattle.tds_relay.specs.Fronts.{Moved, ends_in, core_in, machine_in};
ghost use Rattle.tds_relay.specs.Core.{IfOpen, IsThereAndAway, IsBegun, IsHere, MayPart, change_end, end_at};
ghost use Rattle.tds_relay.specs.Core.{Open, lets_go};
ghost use Rattle.tds_relay.specs.Machine.{Steps, new_machine};
ghost use Rattle.tds_relay.specs.Places.{HasNoTransaction, begun_in, holder_of_number};
ghost use Rattle.tds_relay.specs.Queues.{EntersQueues, queues_in};
ghost use Rattle.tds_relay.specs.Reads.{link_at, open_at, waits_on};
ghost use Rattle.tds_relay.specs.Reasons.{CannotMove, HasGoneOut, HasTransaction};
ghost use Rattle.tds_relay.specs.Sparing.{OthersRest};
ghost use Rattle.tds_relay.specs.Ties.{Cause, CausesRequest, LedTo, Neither, pool_in};
ghost use Rattle.tds_relay.specs.Told.{TellsTheSame, least_for, room_at, room_behind, room_there};
ghost use Rattle.tds_relay.specs.Waiting.{StandsInLine};
ghost use Rattle.tds_relay.specs.TokenParsers.{AllStand, IsUnread};
ghost use Rattle.tds_relay.specs.declared.application.Application.{Application};
ghost use Rattle.tds_relay.specs.declared.link.TheConstants.{COLUMNS};
ghost use Rattle.tds_relay.specs.declared.outgoing.TheConstants.{PIECE};
ghost use Rattle.tds_relay.specs.Few.{IsSeated};
ghost use Rattle.tds_relay.specs.Cleaning.{cleaned_in};

mod asking;
mod beginning;
mod bringing;
mod coming;
mod expelling;
mod hearing;
mod leaving;
mod lending;
mod limiting;
mod parking;
mod places;
mod putting;
mod resuming;
mod sending;
mod starting;
mod stopping;
mod telling;

use crate::NoMemory;
use crate::application::Application;
use crate::fault::Refused;
use crate::link::Link;
use crate::links::{Links, link_in};
use crate::order::Order;
use crate::outgoing::{BESIDE, PIECE};
use crate::pool::{Mode, Pool};
pub use places::{Counts, Place, PlaceOn};
use slab::Slab;
use std::alloc::{AllocError, Global};
use std::mem;
use tds_packet::PacketSize;
use tds_wire::Features;

/// Many applications, and the connections of one service that they share.
///
/// An application is known by a key that `enter` gives, a connection by its number in the service.
/// What is to be done is taken by `orders` behind each call.
///
/// Each call may answer that a growth was refused. Then nothing more is to be called.
#[derive(Drop)]
pub struct Relay {
    alloc: Global,
    size: PacketSize,
    features: Features,
    pool: Pool,
    /// How many connections there may be: `set_most` alone changes that.
    most: usize,
    applications: Slab<Application>,
    links: Links,
    orders: Vec<Order>,
    /// Where the pool puts what is to be sent on a connection.
    outbox: Vec<u8>,
    /// Connections that were let go or brought, and are cleaned; and those that nobody held which were closed instead.
    cleanings: u64,
    failed: u64,
    /// The last connection that is closed for the header of a packet.
    refused: Option<Refused>,
}

impl Relay {
    /// A relay of never more connections than so many, shared like this, with packets of this size. `features` is
    /// what the connections' logins acknowledge.
    pub fn new(
        alloc: Global,
        mode: Mode,
        most: usize,
        size: PacketSize,
        features: Features,
    ) -> Result<Relay, NoMemory>
        ensures pool { IfOk result (λ relay. pool_in relay.pool
            ≡ new_pool (record { most = most; mode = mode })) }
        ensures machine { IfOk result (λ relay. machine_in relay
            ≡ new_machine (record { most = most; mode = mode })) }
        ensures unread { IfOk result (λ relay. (number : ℕ)
            → IsUnread COLUMNS features number relay.pool.service) }
        ensures nothing { IfOk result (λ relay. (relay.links.items ≡ [])
            × (relay.orders.items ≡ []) × (relay.refused ≡ None)) }
        ensures sized { IfOk result (λ relay. (relay.size ≡ size) × (relay.features ≡ features)) }
        ensures goes_out { IfOk result (λ relay. AllSized size relay.pool.service) }
        ensures most { IfOk result (λ relay. relay.most ≡ most) }
        ensures seated { IfOk result (λ relay. IsSeated relay) }
        ensures counts { IfOk result (λ relay. (relay.cleanings ≡ 0) × (relay.failed ≡ 0)) }
    {
        let pool = Pool::new(alloc, mode, most, size, features)?;
        Ok(Relay {
            alloc,
            size,
            features,
            pool,
            most,
            applications: Slab::new(alloc),
            links: Links::new(alloc),
            orders: Vec::new(alloc),
            outbox: Vec::new(alloc),
            cleanings: 0,
            failed: 0,
            refused: None,
        })
    }

    /// For how long an application keeps the connection that it is lent: no call changes that.
    pub fn mode(&self) -> Mode
        ensures { result ≡ (pool_in self.now.pool).mode }
    {
        self.pool.mode()
    }

    /// An application has come that is logged in, which is called so. Answers its key.
    pub fn enter(&mut self, tag: usize) -> Result<usize, NoMemory>
        ensures pool { self.new.pool ≡ self.old.pool }
        ensures size { IfOk result (λ key. IfSome (get self.new.applications key)
            (λ (a : Application). a.out.size ≡ self.old.size)) }
        ensures front { IfOk result (λ key. end_at (ends_in self.new.applications) key
            ≡ Some (Open (new_front self.old.size) false None)) }
        ensures queues { IfOk result (λ key. EntersQueues self.old.size tag key
            (queues_in self.old.applications) (queues_in self.new.applications)) }
        ensures steps { OnOk result (Steps Neither (machine_in self.old) (machine_in self.new)) }
        ensures links { self.new.links.items ≡ self.old.links.items }
        ensures ends { IfOk result (λ key. (other : ℕ) → other ≢ key
            → end_at (ends_in self.new.applications) other
            ≡ end_at (ends_in self.old.applications) other) }
        ensures others { IfOk result (λ key. OthersRest key self.old self.new) }
        ensures nothing { IfOk result (λ key. (body_of key self.new ≡ Nowhere)
            × (begun_in (get self.new.applications key) ≡ 0)) }
        ensures tells { TellsTheSame self.old self.new }
        ensures orders { self.new.orders.items ≡ self.old.orders.items }
        ensures seated { IsSeated self.old → OnOk result (IsSeated self.new) }
    {
        let application = Application::new(self.alloc, tag, self.size);
        let Ok(key) = self.applications.insert(application) else {
            return Err(AllocError);
        };
        Ok(key)
    }

    /// What is to be done, in order. It is to be done before the next call.
    pub fn orders(&mut self) -> Vec<Order>
        ensures pool { self.new.pool ≡ self.old.pool }
        ensures kept { queues_in self.new.applications ≡ queues_in self.old.applications }
        ensures ends { ends_in self.new.applications ≡ ends_in self.old.applications }
        ensures links { self.new.links.items ≡ self.old.links.items }
        ensures same { self.new.applications ≡ self.old.applications }
        ensures body { (key : ℕ) → body_of key self.new ≡ body_of key self.old }
        ensures are { (result.items ≡ self.old.orders.items) × (self.new.orders.items ≡ []) }
        ensures tells { TellsTheSame self.old self.new }
        ensures seated { IsSeated self.old → IsSeated self.new }
    {
        mem::replace(&mut self.orders, Vec::new(self.alloc))
    }

    /// How many bytes of an application may be read now, at most 32,768: so many that what goes on of them
    /// fits on its connection, and what they are answered here fits with what waits for it.
    pub fn room(&self, key: usize) -> usize
        ensures most { result ≤ PIECE }
        ensures is { result ≡ room_at key self.now }
    {
        let Some(application) = self.applications.get(key) else {
            return 0;
        };
        if application.state.is_over() {
            return 0;
        }
        let room = match self.pool.hold_of(key) {
            Some(hold) => self.room_to(hold.number),
            None => PIECE,
        };
        room.min(application.room())
    }

    /// How many bytes may be read that go out on a connection.
    fn room_to(&self, number: u64) -> usize
        ensures most { result ≤ PIECE }
        ensures is { result ≡ room_behind (waits_on number self.now.links.items) }
    {
        match self.link(number) {
            Some(link) => link.out.piece().saturating_sub(BESIDE),
            None => PIECE,
        }
    }

    /// How many bytes of a connection may be read now, at most 32,768: so many that they fit with what waits
    /// for who holds it.
    pub fn room_on(&self, number: u64) -> usize
        ensures most { result ≤ PIECE }
        ensures is { result ≡ room_there number self.now }
        ensures fits { (key : ℕ)
            → key_of (find_number number (pool_in self.now.pool).holds) ≡ Some key
            → result ≤ PIECE - waiting_for (get self.now.applications key) }
        ensures least { IsSome (link_at number self.now.links.items)
            → least_for (holder_of_number (pool_in self.now.pool) number) self.now ≤ result }
    {
        let Some(link) = self.link(number) else {
            return 0;
        };
        let Some(key) = self.pool.key_on(number) else {
            return PIECE;
        };
        let Some(application) = self.applications.get(key) else {
            return PIECE;
        };
        let room = application.out.piece();
        // Its packets may be set anew, or the news of a reset may go before them.
        if application.state.reset().is_some()
            || link.answer.holds()
            || self.pool.owes_reset(number)
        {
            room.saturating_sub(BESIDE)
        } else {
            room
        }
    }

    /// How many applications there are.
    pub fn applications(&self) -> usize
        ensures { result ≡ slab_len self.now.applications }
    {
        self.applications.len()
    }

    /// How many connections there are.
    pub fn connections(&self) -> usize
        ensures { result ≡ length self.now.links.items }
    {
        self.links.len()
    }

    /// How many applications wait for a connection.
    pub fn waiting(&self) -> usize
        ensures { result ≡ length (pool_in self.now.pool).line }
    {
        self.pool.waiting()
    }

    /// An application has nothing more to do with the connection that it had.
    fn let_go(&mut self, key: usize)
        ensures pool { self.new.pool ≡ self.old.pool }
        ensures kept { queues_in self.new.applications ≡ queues_in self.old.applications }
        ensures ends { ends_in self.new.applications
            ≡ change_end key lets_go (ends_in self.old.applications) }
        ensures links { self.new.links.items ≡ self.old.links.items }
        ensures asks { AskAsBefore self.old.applications self.new.applications }
        ensures orders { self.new.orders.items ≡ self.old.orders.items }
        ensures closes { ClosesOnly NoKey (register_in self.old) (register_in self.new) }
        ensures outbox { self.new.outbox.items ≡ self.old.outbox.items }
        ensures counts { cleaned_in self.new ≡ cleaned_in self.old }
    {
        match self.applications.get_mut(key) {
            Some(application) => application.let_go(),
            None => {}
        }
    }

    /// Whether an application has nothing out: nothing of its request has gone on, and no attention.
    fn has_nothing_out(&self, key: usize) -> bool
        ensures here { result ≡ true
            → IfOpen IsHere (end_at (ends_in self.now.applications) key) }
        ensures out { result ≡ false
            → IfOpen HasGoneOut (end_at (ends_in self.now.applications) key) }
    {
        match self.applications.get(key) {
            Some(application) => application.has_nothing_out(),
            None => false,
        }
    }

    /// Whether an application may be parted from its connection: its request has begun, nothing of it has gone on,
    /// and it asks for a full reset, or for one that keeps its transaction where none is open.
    fn may_part(&self, key: usize) -> bool
        ensures parts { result ≡ true → MayPart (core_in self.now) key }
        ensures begun { result ≡ true
            → IfOpen IsBegun (end_at (ends_in self.now.applications) key) }
        ensures not { result ≡ false → CannotMove key
            (end_at (ends_in self.now.applications) key) (pool_in self.now.pool) }
    {
        let Some(application) = self.applications.get(key) else {
            return false;
        };
        if !application.has_nothing_out() || !application.may_put(false) {
            return false;
        }
        application.asks_full() || (application.asks_kept() && !self.has_transaction(key))
    }

    /// Whether a transaction is open on the connection that an application holds.
    fn has_transaction(&self, key: usize) -> bool
        ensures none { result ≡ false → HasNoTransaction (pool_in self.now.pool) key }
        ensures some { result ≡ true → HasTransaction (pool_in self.now.pool) key }
    {
        match self.pool.hold_of(key) {
            Some(hold) => self.pool.is_open_on(hold.number) == Some(true),
            None => false,
        }
    }

    /// An application's request waits for a connection, behind all others.
    fn wait(&mut self, key: usize) -> Result<(), NoMemory>
        ensures goes { OnOk result ((by : Cause) → CausesRequest by key
            → LedTo by (pool_in self.old.pool) (pool_in self.new.pool)) }
        ensures orders { self.new.orders.items ≡ self.old.orders.items }
        ensures kept { queues_in self.new.applications ≡ queues_in self.old.applications }
        ensures moves { OnOk result ((by : Cause) → CausesRequest by key
            → IfOpen IsBegun (end_at (ends_in self.old.applications) key)
            → Moved by (core_in self.old) (core_in self.new)) }
        ensures underway { find_key key (pool_in self.old.pool).holds ≡ None
            → OnOk result ((whole : Bool)
            → IsUnderway whole self.new.links.items key (core_in self.new)) }
        ensures links { self.new.links.items ≡ self.old.links.items }
        ensures stand { OnOk result (AllStand self.old.pool.service
            self.new.pool.service) }
        ensures body { (other : ℕ) → body_of other self.new ≡ body_of other self.old }
        ensures asks { AskAsBefore self.old.applications self.new.applications }
        ensures lines { OnOk result (StandsInLine key self.new) }
        ensures spares { OnOk result ((number : ℕ)
            → SparesOthers number (Some key) (core_in self.old) (core_in self.new)) }
        ensures counts { cleaned_in self.new ≡ cleaned_in self.old }
        ensures closes { ClosesOnly NoKey (register_in self.old) (register_in self.new) }
        ensures seated { IsSeated self.old → OnOk result (IsSeated self.new) }
        ensures holds { OnOk result (self.new.pool.holds.items
            ≡ self.old.pool.holds.items) }
        ensures service { self.new.pool.service ≡ self.old.pool.service }
    {
        if self.is_away(key) {
            self.pool.wait(key)
        } else {
            Ok(())
        }
    }

    /// Whether an application is taken from, holds no connection, and waits for none.
    #[tactic(auto, using(crate::proofs::steps::Underway::of_none, crate::proofs::steps::Underway::of_over))]
    fn is_away(&self, key: usize) -> bool
        ensures away { result ≡ true → IsThereAndAway (core_in self.now) key }
        ensures underway { result ≡ false → find_key key (pool_in self.now.pool).holds ≡ None
            → (whole : Bool)
            → IsUnderway whole self.now.links.items key (core_in self.now) }
        ensures lines { result ≡ false → StandsInLine key self.now }
    {
        let Some(application) = self.applications.get(key) else {
            return false;
        };
        if application.state.is_over() {
            return false;
        }
        match self.pool.hold_of(key) {
            Some(_) => false,
            None => !self.pool.waits(key),
        }
    }

    fn link(&self, number: u64) -> Option<&Link>
        ensures { option_copied result ≡ link_at number self.now.links.items }
    {
        link_in(&self.links, number)
    }
}
