//! What applications take back: requests that are forgotten, and attentions.
ghost use Rattle.slab.specs.Slab.{get};
ghost use Rattle.std.specs.Prelude.{◌≡◌, ◌⊎◌, [], ℕ, IfNone, IfOk, IfSome, List, OnOk, Some, false, true};
ghost use Rattle.tds_front.specs.declared.front.Said.TheVariants.{Forget, HandOn};
ghost use Rattle.tds_relay.specs.Anew.{AsksNothing};
ghost use Rattle.tds_relay.specs.Bodies.{AskAsBefore, AskOn, Body, Halts, IsStoppedOnce, IsHalting, IsUnsent, Nowhere, Spared, Starts, StopsOn, body_in, body_of, PutsNothing, going_of, standing_in};
ghost use Rattle.tds_relay.specs.Cleaning.{CleaningsWaitAt};
ghost use Rattle.tds_relay.specs.Closings.{ClosesOnly, NoKey, register_in};
ghost use Rattle.tds_relay.specs.Pool.{Does, Stops, Unwaits, find_key};
ghost use Rattle.tds_relay.specs.declared.pool.Hold.{Hold};
ghost use Rattle.tds_relay.specs.Fronts.{FedOn, Moved, MovedOn, ends_in, core_in, core_of_ends, withdraws};
ghost use Rattle.tds_relay.specs.Core.{EndList, IfOpen, change_end, end_at, is_in};
ghost use Rattle.tds_relay.specs.Lent.{KeepsAnswers, OthersKeepAt};
ghost use Rattle.tds_relay.specs.Waiting.{IsRightlyKept};
ghost use Rattle.tds_relay.specs.Queues.{acknowledgement, give, queue_at, queues_in};
ghost use Rattle.tds_relay.specs.Reads.{LinksStay};
ghost use Rattle.tds_relay.specs.Reasons.{CannotForget, CannotStop, CannotUnask, HasNoRoom, IsOverfull, IsUnheld, IsUnstopped, ItselfFor};
ghost use Rattle.tds_relay.specs.Sparing.{OthersRest};
ghost use Rattle.tds_relay.specs.Ties.{Application, LedTo, LedOn, IsReached, Turns, pool_in};
ghost use Rattle.tds_relay.specs.TokenParsers.{AllStand};
ghost use Rattle.tds_relay.specs.Few.{IsSeated};
ghost use Rattle.tds_relay.specs.Ordering.{opens_in};

use super::Relay;
use super::putting::unless_memory;
use crate::NoMemory;
use crate::state::Asking;
use tds_client::Cancelled;

/// The acknowledgement of an attention: a message of one DONE with bit 0020 (MS-TDS 2.2.7.6).
const ACKNOWLEDGED: [u8; 21] = [
    4, 1, 0, 21, 0, 0, 1, 0, 0xfd, 0x20, 0, 0, 0, 0, 0, 0, 0, 0, 0, 0, 0,
];

impl Relay {
    /// What has come of its request is forgotten. Nothing of it has gone on.
    pub(super) fn forget(&mut self, key: usize) -> Result<(), NoMemory>
        ensures goes { OnOk result (LedTo (Application key)
            (pool_in self.old.pool) (pool_in self.new.pool)) }
        ensures kept { OnOk result (queues_in self.new.applications
            ≡ queues_in self.old.applications) }
        ensures moves { OnOk result (IfOpen AsksNothing (end_at (ends_in self.old.applications) key)
            → Moved (Application key) (core_in self.old) (core_in self.new)) }
        ensures read { OnOk result (LinksStay self.old.links.items self.new.links.items) }
        ensures stand { OnOk result (AllStand self.old.pool.service
            self.new.pool.service) }
        ensures body { OnOk result ((goes : Body)
            → Starts Nowhere (body_in (get self.new.applications key) goes)) }
        ensures closes { OnOk result (ClosesOnly (ItselfFor key (CannotForget false key
            (end_at (ends_in self.old.applications) key) self.old.pool self.old.links.items
            (body_of key self.old))) (register_in self.old) (register_in self.new)) }
        ensures others { IsReached (pool_in self.old.pool)
            → OnOk result (OthersRest key self.old self.new) }
        ensures seated { IsSeated self.old → OnOk result (IsSeated self.new) }
        ensures cancels { OnOk result (IsStoppedOnce (body_of key self.old)
            (standing_in key self.new)) }
        ensures away { OnOk result (is_in key (pool_in self.new.pool).line ≡ false) }
        ensures opening { opens_in self.new.orders.items ≡ opens_in self.old.orders.items }
        ensures aside { IsReached (pool_in self.old.pool)
            → OnOk result (OthersKeepAt key self.old self.new) }
        ensures puts { OnOk result (PutsNothing (standing_in key self.old)
            (standing_in key self.new)) }
        ensures answers { OnOk result (KeepsAnswers self.old.links.items self.new.links.items) }
        ensures awaits { OnOk result (CleaningsWaitAt self.old self.new) }
    {
        let was_asked = self.forget_request(key);
        if was_asked { self.unask(key) } else { Ok(()) }
    }

    /// What has come of its request is forgotten. Answers whether that was asked on a connection.
    fn forget_request(&mut self, key: usize) -> bool
        ensures goes { LedTo (Application key) (pool_in self.old.pool) (pool_in self.new.pool) }
        ensures kept { queues_in self.new.applications ≡ queues_in self.old.applications }
        ensures ends { ends_in self.new.applications ≡ ends_in self.old.applications }
        ensures turns { Turns (Unwaits key) (pool_in self.old.pool) (pool_in self.new.pool) [] [] }
        ensures away { is_in key (pool_in self.new.pool).line ≡ false }
        ensures holds { self.new.pool.holds ≡ self.old.pool.holds }
        ensures service { self.new.pool.service ≡ self.old.pool.service }
        ensures links { self.new.links.items ≡ self.old.links.items }
        ensures stand { AllStand self.old.pool.service self.new.pool.service }
        ensures body { (goes : Body)
            → Starts Nowhere (body_in (get self.new.applications key) goes) }
        ensures closes { ClosesOnly NoKey (register_in self.old) (register_in self.new) }
        ensures others { OthersRest key self.old self.new }
        ensures asked { result ≡ true
            → (goes : Body) → Spared goes (body_in (get self.old.applications key) goes) }
        ensures unasked { result ≡ false
            → (goes : Body) → IsUnsent (body_in (get self.old.applications key) goes) }
        ensures opening { opens_in self.new.orders.items ≡ opens_in self.old.orders.items }
        ensures awaits { CleaningsWaitAt self.old self.new }
    {
        self.pool.unwait(key);
        let Some(application) = self.applications.get_mut(key) else {
            return false;
        };
        let was_asked = matches!(application.state.asking(), Asking::Goes);
        application.forget(Asking::Nothing);
        was_asked
    }

    /// A request that was asked, and of which nothing has gone on, isn't asked any more.
    fn unask(&mut self, key: usize) -> Result<(), NoMemory>
        ensures goes { OnOk result (LedTo (Application key)
            (pool_in self.old.pool) (pool_in self.new.pool)) }
        ensures kept { OnOk result (queues_in self.new.applications
            ≡ queues_in self.old.applications) }
        ensures moves { OnOk result (IfOpen AsksNothing (end_at (ends_in self.old.applications) key)
            → Moved (Application key) (core_in self.old) (core_in self.new)) }
        ensures read { OnOk result (LinksStay self.old.links.items self.new.links.items) }
        ensures stand { OnOk result (AllStand self.old.pool.service
            self.new.pool.service) }
        ensures asks { OnOk result (AskOn self.old.applications self.new.applications) }
        ensures closes { OnOk result (ClosesOnly (ItselfFor key (IsUnheld key self.old.pool
            ⊎ CannotUnask key (end_at (ends_in self.old.applications) key) self.old.pool
            self.old.links.items)) (register_in self.old) (register_in self.new)) }
        ensures others { IsReached (pool_in self.old.pool)
            → OnOk result (OthersRest key self.old self.new) }
        ensures seated { IsSeated self.old → OnOk result (IsSeated self.new) }
        ensures cancels { OnOk result (IsStoppedOnce (going_of key self.old)
            (standing_in key self.new)) }
        ensures away { is_in key (pool_in self.old.pool).line ≡ false
            → OnOk result (is_in key (pool_in self.new.pool).line ≡ false) }
        ensures opening { opens_in self.new.orders.items ≡ opens_in self.old.orders.items }
        ensures aside { IsReached (pool_in self.old.pool)
            → OnOk result (OthersKeepAt key self.old self.new) }
        ensures answers { OnOk result (KeepsAnswers self.old.links.items self.new.links.items) }
        ensures awaits { OnOk result (CleaningsWaitAt self.old self.new) }
    {
        if !self.has_nothing_out(key) {
            return self.expel(key);
        }
        self.outbox.clear();
        match self.pool.cancel(key, &mut self.outbox) {
            Ok((hold, _)) => self.send_stop(key, hold.number),
            Err(refusal) => {
                unless_memory(refusal)?;
                self.expel(key)
            }
        }
    }

    /// What has come of its request is forgotten, of which something has gone on: the server is to forget it
    /// too, and its acknowledgement is nobody's.
    pub(super) fn take_back(&mut self, key: usize) -> Result<(), NoMemory>
        ensures goes { OnOk result (LedTo (Application key)
            (pool_in self.old.pool) (pool_in self.new.pool)) }
        ensures kept { OnOk result (queues_in self.new.applications
            ≡ queues_in self.old.applications) }
        ensures moves { OnOk result (IfOpen AsksNothing (end_at (ends_in self.old.applications) key)
            → FedOn key (Forget true) (pool_in self.old.pool) (ends_in self.old.applications)
            (core_in self.new)) }
        ensures read { OnOk result (LinksStay self.old.links.items self.new.links.items) }
        ensures stand { OnOk result (AllStand self.old.pool.service
            self.new.pool.service) }
        ensures body { OnOk result ((goes : Body)
            → Starts Nowhere (body_in (get self.new.applications key) goes)) }
        ensures closes { OnOk result (ClosesOnly (ItselfFor key (CannotForget true key
            (end_at (ends_in self.old.applications) key) self.old.pool self.old.links.items
            (body_of key self.old))) (register_in self.old) (register_in self.new)) }
        ensures others { IsReached (pool_in self.old.pool)
            → OnOk result (OthersRest key self.old self.new) }
        ensures seated { IsSeated self.old → OnOk result (IsSeated self.new) }
        ensures cancels { OnOk result (IsStoppedOnce (body_of key self.old)
            (standing_in key self.new)) }
        ensures away { OnOk result (is_in key (pool_in self.new.pool).line ≡ false) }
        ensures opening { opens_in self.new.orders.items ≡ opens_in self.old.orders.items }
        ensures aside { IsReached (pool_in self.old.pool)
            → OnOk result (OthersKeepAt key self.old self.new) }
        ensures answers { OnOk result (KeepsAnswers self.old.links.items self.new.links.items) }
        ensures awaits { OnOk result (CleaningsWaitAt self.old self.new) }
    {
        let _ = self.forget_request(key);
        match self.stop(key)? {
            Some(number) => {
                self.withdraw(key);
                self.send_stop(key, number)
            }
            None => self.expel(key),
        }
    }

    /// An attention goes out for what an application has asked. Answers on which connection, if it does.
    fn stop(&mut self, key: usize) -> Result<Option<u64>, NoMemory>
        ensures goes { LedTo (Application key) (pool_in self.old.pool) (pool_in self.new.pool) }
        ensures kept { queues_in self.new.applications ≡ queues_in self.old.applications }
        ensures ends { ends_in self.new.applications ≡ ends_in self.old.applications }
        ensures some { IfOk result (λ stopped. IfSome stopped (λ number. (before after : List ℕ)
            × Turns (Does key Stops) (pool_in self.old.pool) (pool_in self.new.pool) before
            after)) }
        ensures moves { (ends : EndList) → IfOpen AsksNothing (end_at ends key)
            → Moved (Application key) (core_of_ends (pool_in self.old.pool) ends)
            (core_of_ends (pool_in self.new.pool) ends) }
        ensures links { self.new.links.items ≡ self.old.links.items }
        ensures stand { AllStand self.old.pool.service self.new.pool.service }
        ensures asks { AskAsBefore self.old.applications self.new.applications }
        ensures stops { IfOk result (λ stopped. IfSome stopped (λ number.
            IsHalting number key self.old self.new)) }
        ensures none { IfOk result (λ stopped. IfNone stopped
            (IsUnstopped key self.old.pool)) }
        ensures closes { ClosesOnly NoKey (register_in self.old) (register_in self.new) }
        ensures others { IsReached (pool_in self.old.pool)
            → OthersRest key self.old self.new }
        ensures seated { IsSeated self.old → IsSeated self.new }
        ensures opening { opens_in self.new.orders.items ≡ opens_in self.old.orders.items }
        ensures holds { self.new.pool.holds.items ≡ self.old.pool.holds.items }
        ensures awaits { CleaningsWaitAt self.old self.new }
    {
        self.outbox.clear();
        match self.pool.cancel(key, &mut self.outbox) {
            Ok((hold, how)) => {
                if matches!(how, Cancelled::Asked) {
                    Ok(Some(hold.number))
                } else {
                    Ok(None)
                }
            }
            Err(refusal) => {
                unless_memory(refusal)?;
                Ok(None)
            }
        }
    }

    /// An application waits for the acknowledgement of what it took back.
    fn withdraw(&mut self, key: usize)
        ensures pool { self.new.pool ≡ self.old.pool }
        ensures kept { queues_in self.new.applications ≡ queues_in self.old.applications }
        ensures ends { ends_in self.new.applications
            ≡ change_end key withdraws (ends_in self.old.applications) }
        ensures links { self.new.links.items ≡ self.old.links.items }
        ensures outbox { self.new.outbox.items ≡ self.old.outbox.items }
        ensures asks { AskAsBefore self.old.applications self.new.applications }
        ensures closes { ClosesOnly NoKey (register_in self.old) (register_in self.new) }
        ensures opening { opens_in self.new.orders.items ≡ opens_in self.old.orders.items }
    {
        match self.applications.get_mut(key) {
            Some(application) => application.withdraw(),
            None => {}
        }
    }

    /// The relay acknowledges an attention.
    pub(super) fn acknowledge(&mut self, key: usize) -> Result<(), NoMemory>
        ensures pool { self.new.pool ≡ self.old.pool }
        ensures given { OnOk result (queues_in self.new.applications
            ≡ give key acknowledgement (queues_in self.old.applications)) }
        ensures moves { OnOk result (MovedOn (core_in self.old) (core_in self.new)) }
        ensures links { OnOk result (self.new.links.items ≡ self.old.links.items) }
        ensures asks { OnOk result (AskOn self.old.applications self.new.applications) }
        ensures closes { OnOk result (ClosesOnly (ItselfFor key (IsOverfull
            (queue_at (give key acknowledgement (queues_in self.old.applications)) key)))
            (register_in self.old) (register_in self.new)) }
        ensures opening { opens_in self.new.orders.items ≡ opens_in self.old.orders.items }
    {
        match self.applications.get_mut(key) {
            Some(application) => {
                application.out.append(&ACKNOWLEDGED)?;
                self.order_write(key)
            }
            None => Ok(()),
        }
    }

    /// The server acknowledges an attention.
    pub(super) fn hand_on(&mut self, key: usize) -> Result<(), NoMemory>
        ensures goes { OnOk result (LedTo (Application key)
            (pool_in self.old.pool) (pool_in self.new.pool)) }
        ensures kept { OnOk result (queues_in self.new.applications
            ≡ queues_in self.old.applications) }
        ensures moves { OnOk result (FedOn key HandOn (pool_in self.old.pool)
            (ends_in self.old.applications) (core_in self.new)) }
        ensures read { OnOk result (LinksStay self.old.links.items self.new.links.items) }
        ensures stand { OnOk result (AllStand self.old.pool.service
            self.new.pool.service) }
        ensures body { OnOk result (Halts (body_of key self.old) (body_of key self.new)) }
        ensures closes { OnOk result (ClosesOnly (ItselfFor key
            (CannotStop key self.old.pool self.old.links.items))
            (register_in self.old) (register_in self.new)) }
        ensures others { IsReached (pool_in self.old.pool)
            → OnOk result (OthersRest key self.old self.new) }
        ensures seated { IsSeated self.old → OnOk result (IsSeated self.new) }
        ensures opening { opens_in self.new.orders.items ≡ opens_in self.old.orders.items }
        ensures aside { IsReached (pool_in self.old.pool)
            → OnOk result (OthersKeepAt key self.old self.new) }
        ensures right { IsRightlyKept key self.old → OnOk result (IsRightlyKept key self.new) }
        ensures answers { OnOk result (KeepsAnswers self.old.links.items self.new.links.items) }
        ensures awaits { OnOk result (CleaningsWaitAt self.old self.new) }
    {
        match self.stop(key)? {
            Some(number) => self.send_stop(key, number),
            None => self.expel(key),
        }
    }

    /// What a cancel puts out waits on the connection of this number, which the application holds. Where more
    /// would wait than may, both are closed.
    fn send_stop(&mut self, key: usize, number: u64) -> Result<(), NoMemory>
        ensures goes { OnOk result (LedOn (pool_in self.old.pool) (pool_in self.new.pool)) }
        ensures kept { OnOk result (queues_in self.new.applications
            ≡ queues_in self.old.applications) }
        ensures moves { OnOk result (MovedOn (core_in self.old) (core_in self.new)) }
        ensures read { OnOk result (LinksStay self.old.links.items self.new.links.items) }
        ensures stand { OnOk result (AllStand self.old.pool.service
            self.new.pool.service) }
        ensures sends { OnOk result (StopsOn number key self.old self.new) }
        ensures closes { OnOk result (ClosesOnly (ItselfFor key
            (HasNoRoom number self.old.outbox.items self.old.links.items))
            (register_in self.old) (register_in self.new)) }
        ensures others { IsReached (pool_in self.old.pool) → (hold : Hold)
            → find_key key (pool_in self.old.pool).holds ≡ Some hold → hold.number ≡ number
            → OnOk result (OthersRest key self.old self.new) }
        ensures seated { IsSeated self.old → OnOk result (IsSeated self.new) }
        ensures asks { OnOk result (AskOn self.old.applications self.new.applications) }
        ensures away { is_in key (pool_in self.old.pool).line ≡ false
            → OnOk result (is_in key (pool_in self.new.pool).line ≡ false) }
        ensures opening { opens_in self.new.orders.items ≡ opens_in self.old.orders.items }
        ensures aside { IsReached (pool_in self.old.pool) → (hold : Hold)
            → find_key key (pool_in self.old.pool).holds ≡ Some hold → hold.number ≡ number
            → OnOk result (OthersKeepAt key self.old self.new) }
        ensures right { IsRightlyKept key self.old → OnOk result (IsRightlyKept key self.new) }
        ensures answers { OnOk result (KeepsAnswers self.old.links.items self.new.links.items) }
    {
        let fits = self.fits_on(number)?;
        if fits { Ok(()) } else { self.fail(key, number) }
    }
}
