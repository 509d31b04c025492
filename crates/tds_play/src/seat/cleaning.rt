//! A connection that the pool cleans.
ghost use Rattle.std.specs.Prelude.{[], ◌≡◌, ◌≢◌, ℕ, false, true, IfErr, IfOk, IfSome, IsSome, None, OnOk};
ghost use Rattle.tds_ends.specs.ModelGives.{IsCountable};
ghost use Rattle.tds_play.specs.Failures.{FailsAs, HasNoFailure, calls_of};
ghost use Rattle.tds_play.specs.Plays.{MayLose, RefinesAct, RepresentsConnection, acts_on, after};
ghost use Rattle.tds_play.specs.Pooled.{ChangesOne, IsNotCleaned, IsThere, cleans_not, seat_in};
ghost use Rattle.tds_play.specs.Reads.{IsReading, ReadsOn};
ghost use Rattle.tds_play.specs.Seats.{drained};
ghost use Rattle.tds_play.specs.Ties.{IsTied, IsUnasked, KeepsTies};
ghost use Rattle.tds_play.specs.declared.refusal.Stop.TheVariants as stops;
ghost use Rattle.tds_pool.specs.Calls.{cleaned, cleaning, free_one, refuses_clean};
ghost use Rattle.tds_pool.specs.Cleaning.{is_cleaned};
ghost use Rattle.tds_pool.specs.Connections.{SameRest, connections, numbered, taken_out};
ghost use Rattle.tds_pool.specs.declared.answers.GivenBack.TheVariants as given;
ghost use Rattle.tds_pool.specs.declared.answers.PoolRefusal.TheVariants as refusals;
ghost use Rattle.tds_session.specs.Answer.{answer_of};
ghost use Rattle.tds_world.specs.Cleaning.{clean_request};
ghost use Rattle.tds_world.specs.Connection.{Connection, is_idle};
ghost use Rattle.tds_world.specs.World.{World, next_number};
ghost use Rattle.tds_world.specs.declared.event.Event.TheVariants as event;
ghost use Rattle.tds_world.specs.declared.event.Setup.{Setup};

use super::Held;
use crate::NoMemory;
use crate::carrier::EventCarrier;
use crate::link::EventDone;
use crate::link::acts::refused;
use crate::refusal::Stop;
use std::alloc::{AllocError, Global};
use tds_ends::laws::idle_alike;
use tds_pool::{GivenBack, Place, Pool, PoolRefusal};
use tds_request::{BatchText, Request};
use tds_session::Engine;
use tds_world::Refusal;

/// What a cleaning asks: the batch `say clean`.
fn cleaning_request(alloc: Global) -> Result<Request, NoMemory>
    ensures { IfOk result (λ request. request ≡ clean_request) }
{
    let units = vec![in alloc; 115, 97, 121, 32, 99, 108, 101, 97, 110]?;
    match BatchText::new(units) {
        Some(text) => Ok(Request::Batch(text)),
        // It has nine units, where 1 to 2,000 may be.
        None => unreachable!(),
    }
}

/// Why the pool doesn't clean, in the words of a play.
fn cleans_not(why: PoolRefusal) -> Result<Refusal, NoMemory>
    ensures value { IfOk result (λ refusal. refusal ≡ cleans_not why) }
    ensures some { OnOk result (why ≢ refusals.Memory) }
{
    match why {
        PoolRefusal::Memory => Err(AllocError),
        PoolRefusal::Unknown => Ok(Refusal::NotFree),
        PoolRefusal::AllInUse
        | PoolRefusal::NotIdle
        | PoolRefusal::NoTransaction
        | PoolRefusal::Broken
        | PoolRefusal::NumbersUsedUp => Ok(Refusal::NotIdle),
    }
}

/// The pool begins to clean the connection of this number, or refuses.
fn begin_cleaning(alloc: Global, pool: &mut Pool, number: u32) -> Result<Option<Refusal>, NoMemory>
    ensures began { IfOk result (λ refused. refused ≡ None
        → (refuses_clean (free_one number (connections pool.old)) ≡ None)
        × (connections pool.new ≡ cleaning number clean_request (connections pool.old))
        × SameRest pool.old pool.new) }
    ensures refused { IfOk result (λ refused. IfSome refused
        (IsNotCleaned (refuses_clean (free_one number (connections pool.old))))) }
    ensures still { IfOk result (λ refused. IsSome refused
        → (connections pool.new ≡ connections pool.old) × SameRest pool.old pool.new) }
{
    let request = cleaning_request(alloc)?;
    match pool.clean(number, &request) {
        Ok(()) => Ok(None),
        Err(why) => Ok(Some(cleans_not(why)?)),
    }
}

impl<E: Engine + Drop> Held<E> {
    /// It is cleaned, where it is free: the pool's own request is asked under a lease of this number,
    /// and goes out whole.
    pub(crate) fn clean<C: EventCarrier>(
        &mut self,
        alloc: Global,
        carrier: &mut C,
        pool: &mut Pool,
        lease: u32,
        request: u32,
    ) -> Result<EventDone, NoMemory>
        requires tied { IsTied self.old.link (C.pipes carrier.old self.old.link.number) }
        requires unasked { self.old.link.is_cut ≡ false → IsUnasked C.is_told
            (C.began carrier.old) (C.pipes carrier.old) self.old.link.number }
        requires there { IsThere self.old pool.old }
        ensures number { self.new.link.number ≡ self.old.link.number }
        ensures holder { self.new.holder ≡ self.old.holder }
        ensures pool { OnOk result (ChangesOne self.old.link.number self.new.link.is_cut pool.old
            pool.new) }
        ensures there { OnOk result (IsThere self.new pool.new) }
        ensures ties { OnOk result (KeepsTies self.old.link.number self.new.link
            (C.pipes carrier.old) (C.pipes carrier.new) (C.began carrier.old)
            (C.began carrier.new)) }
        ensures failed { (n : ℕ) → HasNoFailure (C.pipes carrier.old self.old.link.number)
            → IfOk result (λ done. FailsAs (calls_of (event.Clean n)) done self.new.link
            (C.pipes carrier.new self.old.link.number)) }
        ensures gone { self.old.link.is_cut ≡ true → (carrier.new ≡ carrier.old)
            × (self.new ≡ self.old) × (pool.new ≡ pool.old)
            × IfOk result (λ done. done.lost ≡ false) }
        ensures loses { (n : ℕ) → IfOk result (λ done. done.lost ≡ true
            → MayLose self.old.link.is_cut (event.Clean n)) }
        ensures reads { (size n : ℕ)
            → IsReading size self.old.link (seat_in self.old pool.old).client.columns
            (C.pipes carrier.old self.old.link.number)
            → IfOk result (λ done. ReadsOn size (event.Clean n) done.outcome self.new.link
            (seat_in self.new pool.new).client.columns
            (C.pipes carrier.old self.old.link.number)
            (C.pipes carrier.new self.old.link.number)) }
        ensures refines { (setup : Setup) (w : World) (n : ℕ) (c : Connection) (engine : E)
            → RepresentsConnection self.old.link.number setup.packet_size engine self.old.link
            (seat_in self.old pool.old) (C.pipes carrier.old self.old.link.number) c
            → (is_idle c ≡ true → c.parts ≡ [])
            → IsCountable (after (acts_on setup
            (answer_of (E.statements_of engine) (E.step_of engine)) w (event.Clean n)
            self.old.link.number c) c)
            → lease ≡ next_number w.leases → request ≡ next_number w.asked_on
            → IfOk result (λ done. RefinesAct self.old.link.number setup.packet_size engine done
            self.new.link (seat_in self.new pool.new) (C.pipes carrier.new self.old.link.number)
            (acts_on setup (answer_of (E.statements_of engine) (E.step_of engine)) w
            (event.Clean n) self.old.link.number c) c) }
    {
        idle_alike();
        if self.link.is_cut {
            return Ok(refused(Refusal::UnknownConnection));
        }
        let refusal = begin_cleaning(alloc, pool, self.link.number)?;
        if let Some(why) = refusal {
            return Ok(refused(why));
        }
        let done = self.link.clean(alloc, carrier, pool, lease, request)?;
        self.leave_if_cut(pool);
        Ok(done)
    }

    /// The pool loses it where it is cut.
    fn leave_if_cut(&self, pool: &mut Pool)
        ensures cut { self.now.link.is_cut ≡ true → connections pool.new
            ≡ taken_out self.now.link.number (connections pool.old) }
        ensures live { self.now.link.is_cut ≡ false → pool.new ≡ pool.old }
        ensures rest { SameRest pool.old pool.new }
    {
        if self.link.is_cut {
            let _ = pool.lost(self.link.number);
        }
    }

    /// Whether the pool cleans it.
    pub(super) fn is_cleaned(&self, pool: &Pool) -> bool
        ensures { result ≡ is_cleaned (numbered self.now.link.number (connections pool.now)) }
    {
        match pool.place(self.link.number) {
            Some(place) => matches!(place, Place::Cleaning),
            None => false,
        }
    }

    /// One that is being cleaned is free once its answer has come. Where the answer left a
    /// transaction, or the reset was not done, the pool closes it, and the play ends there. Where the
    /// carrier brings what it was handed, no play of the batch language comes to that.
    pub(super) fn look_at_cleaning(&mut self, pool: &mut Pool) -> Result<(), Stop>
        requires live { self.old.link.is_cut ≡ false }
        requires cleans { is_cleaned (numbered self.old.link.number (connections pool.old)) ≡ true }
        ensures same { self.new ≡ self.old }
        ensures pool { OnOk result
            (ChangesOne self.old.link.number self.new.link.is_cut pool.old pool.new) }
        ensures there { OnOk result (IsThere self.new pool.new) }
        ensures seat { OnOk result
            (seat_in self.new pool.new ≡ drained (seat_in self.old pool.old)) }
        ensures stops { IfErr result (λ stop. (stop ≡ stops.NotCleaned) × ((number : ℕ)
            × ((cleaned self.old.link.number (connections pool.old)).answer
            ≡ given.Closed number))) }
    {
        match pool.cleaned(self.link.number) {
            GivenBack::Closed(_) => Err(Stop::NotCleaned),
            _ => Ok(()),
        }
    }
}
