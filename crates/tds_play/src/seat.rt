//! A connection with its seat in the pool: its client stands there.
ghost use Rattle.std.specs.Prelude.{◌≡◌, ℕ, false, true, IfOk, IsSome, OnOk};
ghost use Rattle.tds_ends.specs.ModelGives.{IsCountable, ModelGives};
ghost use Rattle.tds_play.specs.Failures.{FailsAs, FailsNoMore, HasNoFailure, calls_of};
ghost use Rattle.tds_play.specs.Plays.{MayLose, RefinesAct, RepresentsConnection, acts_on, after, loss_of};
ghost use Rattle.tds_play.specs.Pipe.{IsFaithful};
ghost use Rattle.tds_play.specs.Pooled.{ChangesOne, IsThere, place_by, seat_in};
ghost use Rattle.tds_play.specs.Reads.{IsReading, ReadsNoMore, ReadsOn};
ghost use Rattle.tds_play.specs.Seats.{behind_event, drained};
ghost use Rattle.tds_play.specs.Seen.{seen_in};
ghost use Rattle.tds_play.specs.Stepping.{ends_event, is_by_caller};
ghost use Rattle.tds_play.specs.Ties.{IsTied, IsUnasked, KeepsTies};
ghost use Rattle.tds_pool.specs.Calls.{is_broken};
ghost use Rattle.tds_pool.specs.Cleaning.{carried, is_cleaned};
ghost use Rattle.tds_pool.specs.Connections.{connections, numbered};
ghost use Rattle.tds_session.specs.Answer.{answer_of};
ghost use Rattle.tds_world.specs.Connection.{Connection};
ghost use Rattle.tds_world.specs.Losses.{bringing, met};
ghost use Rattle.tds_world.specs.World.{World, next_number};
ghost use Rattle.tds_world.specs.declared.event.Setup.{Setup};

mod cleaning;
mod leasing;

use crate::carrier::EventCarrier;
use crate::link::acts::on_cut;
use crate::link::{EventDone, Link};
use crate::refusal::Stop;
use crate::step::{EndsStep, LinkStep};
use std::alloc::Global;
use tds_pool::{GivenBack, Pool};
use tds_session::Engine;
use tds_world::{Place, Snapshot};

/// A connection, and the number of the lease or ticket that holds it in the pool.
#[derive(Drop)]
pub(crate) struct Held<E: Engine + Drop> {
    pub(crate) link: Link<E>,
    pub(crate) holder: u32,
}

/// Where a connection stands that is held by this lease or ticket, if by any.
fn place_by(holder: u32, place: tds_pool::Place) -> Place
    ensures { result ≡ place_by holder place }
{
    match place {
        tds_pool::Place::Leased => Place::Leased(holder),
        tds_pool::Place::Kept => Place::Kept(holder),
        tds_pool::Place::Free => Place::Free,
        tds_pool::Place::Draining => Place::Draining,
        tds_pool::Place::Cleaning => Place::Draining,
    }
}

impl<E: Engine + Drop> Held<E> {
    /// Does what this event does at the ends of its connection. Where that is cut, the pool loses
    /// it.
    pub(crate) fn act<C: EventCarrier>(
        &mut self,
        alloc: Global,
        carrier: &mut C,
        pool: &mut Pool,
        number: u32,
        step: EndsStep<'_>,
    ) -> Result<EventDone, Stop>
        requires tied { IsTied self.old.link (C.pipes carrier.old self.old.link.number) }
        requires unasked { self.old.link.is_cut ≡ false → IsUnasked C.is_told
            (C.began carrier.old) (C.pipes carrier.old) self.old.link.number }
        requires there { IsThere self.old pool.old }
        requires lent { is_by_caller step ≡ true → self.old.link.is_cut ≡ false
            → IsSome (carried self.old.link.number (connections pool.old)) }
        ensures number { self.new.link.number ≡ self.old.link.number }
        ensures holder { self.new.holder ≡ self.old.holder }
        ensures pool { OnOk result (ChangesOne self.old.link.number self.new.link.is_cut pool.old
            pool.new) }
        ensures there { OnOk result (IsThere self.new pool.new) }
        ensures ties { OnOk result (KeepsTies self.old.link.number self.new.link
            (C.pipes carrier.old) (C.pipes carrier.new) (C.began carrier.old)
            (C.began carrier.new)) }
        // Where the connection had no failure, one call of this event failed, or more, exactly where
        // it was lost, and no other one. Where it was cut, nothing changes at the carrier.
        ensures failed { HasNoFailure (C.pipes carrier.old self.old.link.number)
            → IfOk result (λ done. FailsAs (calls_of (ends_event step.entry)) done self.new.link
            (C.pipes carrier.new self.old.link.number)) }
        ensures gone { self.old.link.is_cut ≡ true → (carrier.new ≡ carrier.old)
            × (self.new ≡ self.old) × (pool.new ≡ pool.old)
            × IfOk result (λ done. done.lost ≡ false) }
        ensures loses { IfOk result (λ done. done.lost ≡ true
            → MayLose self.old.link.is_cut (ends_event step.entry)) }
        ensures reads { (size : ℕ)
            → IsReading size self.old.link (seat_in self.old pool.old).client.columns
            (C.pipes carrier.old self.old.link.number)
            → IfOk result (λ done. ReadsOn size (ends_event step.entry) done.outcome self.new.link
            (seat_in self.new pool.new).client.columns
            (C.pipes carrier.old self.old.link.number)
            (C.pipes carrier.new self.old.link.number)) }
        ensures refines { (setup : Setup) (w : World) (c : Connection) (engine : E)
            → IsFaithful (C.pipes carrier.new self.old.link.number)
            → RepresentsConnection self.old.link.number setup.packet_size engine self.old.link
            (seat_in self.old pool.old) (C.pipes carrier.old self.old.link.number) c
            → ModelGives E (answer_of (E.statements_of engine)
            (E.step_of engine)) setup.packet_size c
            → ((k : ℕ) → IsCountable (after (acts_on setup
            (answer_of (E.statements_of engine) (E.step_of engine)) w
            (bringing k (ends_event step.entry)) self.old.link.number c) c))
            → number ≡ next_number w.asked_on
            → IfOk result (λ done. RefinesAct self.old.link.number setup.packet_size engine done
            self.new.link (seat_in self.new pool.new) (C.pipes carrier.new self.old.link.number)
            (acts_on setup (answer_of (E.statements_of engine) (E.step_of engine)) w
            (met (loss_of done) (ends_event step.entry)) self.old.link.number c) c) }
    {
        if self.link.is_cut {
            return Ok(on_cut(step));
        }
        let done = self.link.act(alloc, carrier, pool, number, step)?;
        self.settle(carrier, pool, step)?;
        Ok(done)
    }

    /// What an event at its ends makes of it in the pool: one that is cut leaves it, and one that
    /// drains, or is being cleaned, may be free once bytes came to its client.
    fn settle<C: EventCarrier>(
        &mut self,
        carrier: &mut C,
        pool: &mut Pool,
        step: EndsStep<'_>,
    ) -> Result<(), Stop>
        requires tied { IsTied self.old.link (C.pipes carrier.old self.old.link.number) }
        requires is_in { IsSome (numbered self.old.link.number (connections pool.old)) }
        ensures number { self.new.link.number ≡ self.old.link.number }
        ensures holder { self.new.holder ≡ self.old.holder }
        ensures pool { OnOk result
            (ChangesOne self.old.link.number self.new.link.is_cut pool.old pool.new) }
        ensures there { OnOk result (IsThere self.new pool.new) }
        ensures ties { KeepsTies self.old.link.number self.new.link (C.pipes carrier.old)
            (C.pipes carrier.new) (C.began carrier.old) (C.began carrier.new) }
        ensures failed { FailsNoMore (C.pipes carrier.old self.old.link.number)
            (C.pipes carrier.new self.old.link.number) }
        ensures still { ReadsNoMore self.old.link self.new.link
            (C.pipes carrier.old self.old.link.number) (C.pipes carrier.new self.old.link.number) }
        ensures cut { self.old.link.is_cut ≡ true → (self.new ≡ self.old)
            × (carrier.new ≡ carrier.old) }
        ensures client { OnOk result (self.new.link.is_cut ≡ false
            → (seat_in self.new pool.new).client ≡ (seat_in self.old pool.old).client) }
        ensures sound { OnOk result (self.old.link.is_cut ≡ false
            → is_broken (seat_in self.old pool.old).client.stage ≡ false
            → (self.new ≡ self.old) × (carrier.new ≡ carrier.old)
            × (seat_in self.new pool.new
            ≡ behind_event (ends_event step.entry) (seat_in self.old pool.old))) }
    {
        if self.link.is_cut {
            let _ = pool.lost(self.link.number);
            return Ok(());
        }
        if !matches!(step, EndsStep::OfLink(LinkStep::ToClient(..))) {
            return Ok(());
        }
        if self.is_cleaned(pool) {
            return self.look_at_cleaning(pool);
        }
        self.drain(carrier, pool);
        Ok(())
    }

    /// A draining connection is free once its client is idle. One that the pool closes is cut. One
    /// that is being cleaned stays.
    fn drain<C: EventCarrier>(&mut self, carrier: &mut C, pool: &mut Pool)
        requires live { self.old.link.is_cut ≡ false }
        requires tied { IsTied self.old.link (C.pipes carrier.old self.old.link.number) }
        requires is_in { IsSome (numbered self.old.link.number (connections pool.old)) }
        requires other { is_cleaned (numbered self.old.link.number (connections pool.old))
            ≡ false }
        ensures number { self.new.link.number ≡ self.old.link.number }
        ensures holder { self.new.holder ≡ self.old.holder }
        ensures pool { ChangesOne self.old.link.number self.new.link.is_cut pool.old pool.new }
        ensures there { IsThere self.new pool.new }
        ensures ties { KeepsTies self.old.link.number self.new.link (C.pipes carrier.old)
            (C.pipes carrier.new) (C.began carrier.old) (C.began carrier.new) }
        ensures failed { FailsNoMore (C.pipes carrier.old self.old.link.number)
            (C.pipes carrier.new self.old.link.number) }
        ensures still { ReadsNoMore self.old.link self.new.link
            (C.pipes carrier.old self.old.link.number) (C.pipes carrier.new self.old.link.number) }
        ensures client { self.new.link.is_cut ≡ false
            → (seat_in self.new pool.new).client ≡ (seat_in self.old pool.old).client }
        ensures sound { is_broken (seat_in self.old pool.old).client.stage ≡ false
            → (self.new ≡ self.old) × (carrier.new ≡ carrier.old)
            × (seat_in self.new pool.new ≡ drained (seat_in self.old pool.old)) }
    {
        if let GivenBack::Closed(_) = pool.drained(self.link.number) {
            self.link.cut(carrier);
        }
    }

    /// What is seen of it, unless it is cut.
    pub(crate) fn snapshot(&self, pool: &Pool) -> Option<Snapshot>
        requires there { IsThere self.now pool.now }
        ensures { result ≡ seen_in self.now.link (seat_in self.now pool.now) }
    {
        let place = place_by(self.holder, pool.place(self.link.number)?);
        self.link.snapshot(place, pool.get(self.link.number)?)
    }
}
