//! What becomes of a connection as its lease or ticket ends, or becomes the other.
ghost use Rattle.std.specs.Prelude.{◌≡◌, ℕ, false, true, None, Some, IfErr, IfOk, IsOk, IsSome, OnOk};
ghost use Rattle.tds_ends.specs.ModelGives.{IsCountable};
ghost use Rattle.tds_packet.specs.declared.status.Reset.TheVariants.{KeepTransaction};
ghost use Rattle.tds_play.specs.Failures.{FailsAs, FailsNoMore, HasNoFailure, calls_of};
ghost use Rattle.tds_play.specs.Links.{cut_of};
ghost use Rattle.tds_play.specs.Plays.{MayLose, RefinesAct, RepresentsConnection, acts_on, after, cut_where};
ghost use Rattle.tds_play.specs.Pooled.{IsGone, IsThere, Spares, came_back, keeps_not, lease_stamp, rests_in, seat_in, ticket_stamp};
ghost use Rattle.tds_play.specs.Reads.{IsReading, ReadsNoMore, ReadsOn};
ghost use Rattle.tds_play.specs.Seats.{Seat};
ghost use Rattle.tds_play.specs.Ties.{IsTied, IsUnasked, KeepsTies};
ghost use Rattle.tds_pool.specs.Calls.{kept_for, lent_again, lent_to, refuses_keep, refuses_resume};
ghost use Rattle.tds_pool.specs.Connections.{SameRest, at_place, connections};
ghost use Rattle.tds_pool.specs.declared.answers.PoolRefusal.{PoolRefusal};
ghost use Rattle.tds_pool.specs.declared.seat.Place.TheVariants as pooled;
ghost use Rattle.tds_session.specs.Answer.{answer_of};
ghost use Rattle.tds_world.specs.Connection.{Connection, cut, is_idle};
ghost use Rattle.tds_world.specs.World.{World};
ghost use Rattle.tds_world.specs.declared.event.Event.TheVariants as event;
ghost use Rattle.tds_world.specs.declared.event.Setup.{Setup};
ghost use Rattle.tds_world.specs.declared.outcome.Outcome.TheVariants as outcome;
ghost use Rattle.tds_world.specs.declared.outcome.Refusal.TheVariants.{ConnectionCut, NotIdle};
ghost use Rattle.tds_world.specs.declared.outcome.Refusal.{Refusal};

use super::Held;
use crate::carrier::EventCarrier;
use crate::link::EventDone;
use crate::link::acts::done;
use std::alloc::Global;
use tds_ends::laws::pool_is_unseen;
use tds_pool::{GivenBack, Lease, Pool, PoolRefusal, Ticket};
use tds_session::Engine;
use tds_world::{AbandonOutcome, GiveBackOutcome, Outcome, Refusal};

/// Why the pool doesn't keep, in the words of a play.
fn keeps_not(why: PoolRefusal) -> Refusal
    ensures { result ≡ keeps_not why }
{
    match why {
        PoolRefusal::NoTransaction => Refusal::NothingToKeep,
        PoolRefusal::AllInUse
        | PoolRefusal::Unknown
        | PoolRefusal::NotIdle
        | PoolRefusal::Broken
        | PoolRefusal::Memory
        | PoolRefusal::NumbersUsedUp => Refusal::NotIdle,
    }
}

/// Why the pool doesn't resume, in the words of a play.
fn resumes_not(why: PoolRefusal) -> Refusal
    ensures { result ≡ NotIdle }
{
    match why {
        PoolRefusal::AllInUse
        | PoolRefusal::Unknown
        | PoolRefusal::NotIdle
        | PoolRefusal::NoTransaction
        | PoolRefusal::Broken
        | PoolRefusal::Memory
        | PoolRefusal::NumbersUsedUp => Refusal::NotIdle,
    }
}

impl<E: Engine + Drop> Held<E> {
    /// Its lease ends. What is underway is cancelled first. The lease comes back where a growth was
    /// refused.
    pub(crate) fn give_back<C: EventCarrier>(
        &mut self,
        alloc: Global,
        carrier: &mut C,
        pool: &mut Pool,
        lease: Lease,
    ) -> Result<EventDone, Lease>
        requires tied { IsTied self.old.link (C.pipes carrier.old self.old.link.number) }
        requires unasked { self.old.link.is_cut ≡ false → IsUnasked C.is_told
            (C.began carrier.old) (C.pipes carrier.old) self.old.link.number }
        requires there { IsThere self.old pool.old }
        requires named { lease.number ≡ self.old.link.number }
        requires lent { self.old.link.is_cut ≡ false
            → IsSome (lent_to lease (connections pool.old)) }
        ensures number { self.new.link.number ≡ self.old.link.number }
        ensures holder { self.new.holder ≡ self.old.holder }
        ensures told { IfOk result (λ done. (why : Refusal)
            → done.outcome ≡ outcome.Refused why → ⊥) }
        ensures lease { IfErr result (λ back. back ≡ lease) }
        ensures pool { OnOk result (Spares self.old.link.number self.new.link.is_cut pool.old
            pool.new) }
        ensures there { OnOk result (IsThere self.new pool.new) }
        ensures ties { OnOk result (KeepsTies self.old.link.number self.new.link
            (C.pipes carrier.old) (C.pipes carrier.new) (C.began carrier.old)
            (C.began carrier.new)) }
        ensures failed { (k : ℕ) → HasNoFailure (C.pipes carrier.old self.old.link.number)
            → IfOk result (λ done. FailsAs (calls_of (event.GiveBack k)) done self.new.link
            (C.pipes carrier.new self.old.link.number)) }
        ensures gone { self.old.link.is_cut ≡ true → IfOk result (λ done.
            (carrier.new ≡ carrier.old) × (self.new ≡ self.old)
            × (connections pool.new ≡ connections pool.old) × (done.lost ≡ false)) }
        ensures loses { (k : ℕ) → IfOk result (λ done. done.lost ≡ true
            → MayLose self.old.link.is_cut (event.GiveBack k)) }
        ensures reads { (size k : ℕ)
            → IsReading size self.old.link (seat_in self.old pool.old).client.columns
            (C.pipes carrier.old self.old.link.number)
            → IfOk result (λ done. ReadsOn size (event.GiveBack k) done.outcome self.new.link
            (seat_in self.new pool.new).client.columns
            (C.pipes carrier.old self.old.link.number)
            (C.pipes carrier.new self.old.link.number)) }
        ensures refines { (setup : Setup) (w : World) (k : ℕ) (c : Connection) (engine : E)
            → RepresentsConnection self.old.link.number setup.packet_size engine self.old.link
            (seat_in self.old pool.old) (C.pipes carrier.old self.old.link.number) c
            → IsCountable (after (acts_on setup
            (answer_of (E.statements_of engine) (E.step_of engine)) w (event.GiveBack k)
            self.old.link.number c) c)
            → IfOk result (λ done. RefinesAct self.old.link.number setup.packet_size engine done
            self.new.link (seat_in self.new pool.new) (C.pipes carrier.new self.old.link.number)
            (acts_on setup (answer_of (E.statements_of engine) (E.step_of engine)) w
            (event.GiveBack k) self.old.link.number c) c) }
    {
        let mut nothing = Vec::new(alloc);
        let Some(client) = pool.at(self.link.number) else {
            // It is cut, and the pool has lost it.
            return match pool.give_back(lease, &mut nothing) {
                Ok(_) => Ok(done(Outcome::GivenBack(GiveBackOutcome::Closed))),
                Err((lease, _)) => Err(lease),
            };
        };
        let Ok(lost) = self.link.give_up(alloc, carrier, client) else {
            return Err(lease);
        };
        // What was underway is cancelled by now, so nothing goes out.
        match pool.give_back(lease, &mut nothing) {
            Ok(answer) => Ok(self.come_back(carrier, pool, answer, lost)),
            Err((lease, _)) => Err(lease),
        }
    }

    /// Its lease has ended. One that the pool closed, or where the carrier failed, is cut.
    fn come_back<C: EventCarrier>(
        &mut self,
        carrier: &mut C,
        pool: &mut Pool,
        answer: GivenBack,
        lost: bool,
    ) -> EventDone
        requires live { self.old.link.is_cut ≡ false }
        requires tied { IsTied self.old.link (C.pipes carrier.old self.old.link.number) }
        ensures number { self.new.link.number ≡ self.old.link.number }
        ensures holder { self.new.holder ≡ self.old.holder }
        ensures ties { KeepsTies self.old.link.number self.new.link (C.pipes carrier.old)
            (C.pipes carrier.new) (C.began carrier.old) (C.began carrier.new) }
        ensures failed { FailsNoMore (C.pipes carrier.old self.old.link.number)
            (C.pipes carrier.new self.old.link.number) }
        ensures still { ReadsNoMore self.old.link self.new.link
            (C.pipes carrier.old self.old.link.number) (C.pipes carrier.new self.old.link.number) }
        ensures done { result ≡ record {
          outcome = outcome.GivenBack (came_back answer);
          lost = lost;
        } }
        ensures stays { rests_in answer ≡ true → lost ≡ false → (self.new ≡ self.old)
            × (carrier.new ≡ carrier.old) × (pool.new ≡ pool.old) }
        ensures cut { lost ≡ true → self.new.link.is_cut ≡ true }
        ensures closed { rests_in answer ≡ false → self.new.link.is_cut ≡ true }
        ensures live { self.new.link.is_cut ≡ false → pool.new ≡ pool.old }
        ensures gone { self.new.link.is_cut ≡ true
            → IsGone self.old.link.number pool.old pool.new }
        // A connection that stands for one of the model stands for that one, cut where the carrier
        // failed.
        ensures refines { (size : ℕ) (engine : E) (seat then : Seat) (c : Connection)
            → rests_in answer ≡ true
            → RepresentsConnection self.old.link.number size engine self.old.link seat
            (C.pipes carrier.old self.old.link.number) c
            → (lost ≡ false → then ≡ seat)
            → RepresentsConnection self.old.link.number size engine self.new.link then
            (C.pipes carrier.new self.old.link.number) (cut_where lost c) }
    {
        let answer = match answer {
            GivenBack::Free(_) => GiveBackOutcome::Free,
            GivenBack::Draining(_) => GiveBackOutcome::Draining,
            GivenBack::Closed(_) | GivenBack::Unknown => GiveBackOutcome::Closed,
        };
        if lost || matches!(answer, GiveBackOutcome::Closed) {
            self.leave(carrier, pool);
        }
        EventDone {
            outcome: Outcome::GivenBack(answer),
            lost,
        }
    }

    /// It is cut, and leaves the pool.
    fn leave<C: EventCarrier>(&mut self, carrier: &mut C, pool: &mut Pool)
        requires tied { IsTied self.old.link (C.pipes carrier.old self.old.link.number) }
        requires live { self.old.link.is_cut ≡ false }
        ensures holder { self.new.holder ≡ self.old.holder }
        ensures link { self.new.link ≡ cut_of self.old.link }
        ensures gone { IsGone self.old.link.number pool.old pool.new }
        ensures ties { KeepsTies self.old.link.number self.new.link (C.pipes carrier.old)
            (C.pipes carrier.new) (C.began carrier.old) (C.began carrier.new) }
        ensures failed { FailsNoMore (C.pipes carrier.old self.old.link.number)
            (C.pipes carrier.new self.old.link.number) }
        ensures still { ReadsNoMore self.old.link self.new.link
            (C.pipes carrier.old self.old.link.number) (C.pipes carrier.new self.old.link.number) }
        ensures refines { (size : ℕ) (engine : E) (seat then : Seat) (c : Connection)
            → RepresentsConnection self.old.link.number size engine self.old.link seat
            (C.pipes carrier.old self.old.link.number) c
            → RepresentsConnection self.old.link.number size engine self.new.link then
            (C.pipes carrier.new self.old.link.number) (cut c) }
    {
        self.link.cut(carrier);
        let _ = pool.lost(self.link.number);
    }

    /// Its ticket ends. One that the pool closes is cut.
    pub(crate) fn abandon<C: EventCarrier>(
        &mut self,
        carrier: &mut C,
        pool: &mut Pool,
        ticket: Ticket,
    ) -> EventDone
        requires tied { IsTied self.old.link (C.pipes carrier.old self.old.link.number) }
        requires there { IsThere self.old pool.old }
        requires named { ticket.number ≡ self.old.link.number }
        requires known { self.old.link.is_cut ≡ false
            → IsSome (kept_for ticket (connections pool.old)) }
        ensures number { self.new.link.number ≡ self.old.link.number }
        ensures told { (why : Refusal) → result.outcome ≡ outcome.Refused why → ⊥ }
        ensures holder { self.new.holder ≡ self.old.holder }
        ensures pool { Spares self.old.link.number self.new.link.is_cut pool.old pool.new }
        ensures there { IsThere self.new pool.new }
        ensures ties { KeepsTies self.old.link.number self.new.link (C.pipes carrier.old)
            (C.pipes carrier.new) (C.began carrier.old) (C.began carrier.new) }
        ensures failed { FailsNoMore (C.pipes carrier.old self.old.link.number)
            (C.pipes carrier.new self.old.link.number) }
        ensures whole { result.lost ≡ false }
        ensures gone { self.old.link.is_cut ≡ true → (carrier.new ≡ carrier.old)
            × (self.new ≡ self.old) × (connections pool.new ≡ connections pool.old) }
        ensures reads { (size k : ℕ)
            → IsReading size self.old.link (seat_in self.old pool.old).client.columns
            (C.pipes carrier.old self.old.link.number)
            → ReadsOn size (event.Abandon k) result.outcome self.new.link
            (seat_in self.new pool.new).client.columns
            (C.pipes carrier.old self.old.link.number)
            (C.pipes carrier.new self.old.link.number) }
        ensures refines { (setup : Setup) (w : World) (k : ℕ) (c : Connection) (engine : E)
            → RepresentsConnection self.old.link.number setup.packet_size engine self.old.link
            (seat_in self.old pool.old) (C.pipes carrier.old self.old.link.number) c
            → (self.old.link.is_cut ≡ false → is_idle c ≡ true)
            → RefinesAct self.old.link.number setup.packet_size engine result
            self.new.link (seat_in self.new pool.new) (C.pipes carrier.new self.old.link.number)
            (acts_on setup (answer_of (E.statements_of engine) (E.step_of engine)) w
            (event.Abandon k) self.old.link.number c) c }
    {
        pool_is_unseen::<E>();
        let answer = pool.abandon(ticket);
        if self.link.is_cut {
            return done(Outcome::Abandoned(AbandonOutcome::Closed));
        }
        match answer {
            GivenBack::Free(_) | GivenBack::Draining(_) => {
                done(Outcome::Abandoned(AbandonOutcome::Free))
            }
            GivenBack::Closed(_) | GivenBack::Unknown => {
                self.leave(carrier, pool);
                done(Outcome::Abandoned(AbandonOutcome::Closed))
            }
        }
    }

    /// Its lease becomes the ticket of this number, or comes back with the refusal.
    pub(crate) fn keep(
        &mut self,
        pool: &mut Pool,
        lease: Lease,
        ticket: u32,
    ) -> Result<Ticket, (Lease, Refusal)>
        ensures link { self.new.link ≡ self.old.link }
        ensures err { IfErr result (λ back. (back.0 ≡ lease) × (self.new ≡ self.old)
            × (pool.new ≡ pool.old)) }
        ensures cut { self.old.link.is_cut ≡ true → IfErr result (λ back.
            back.1 ≡ ConnectionCut) }
        ensures refused { self.old.link.is_cut ≡ false → IfErr result (λ back. (why : PoolRefusal)
            → refuses_keep (lent_to lease (connections pool.old)) ≡ Some why
            → back.1 ≡ keeps_not why) }
        ensures live { self.old.link.is_cut ≡ false
            → refuses_keep (lent_to lease (connections pool.old)) ≡ None → IsOk result }
        ensures kept { IfOk result (λ given. (ticket_stamp given ≡ lease_stamp lease)
            × (given.number ≡ lease.number) × (self.new.holder ≡ ticket)
            × (self.old.link.is_cut ≡ false)
            × (refuses_keep (lent_to lease (connections pool.old)) ≡ None)
            × (connections pool.new
            ≡ at_place lease.number pooled.Kept (connections pool.old))) }
        ensures rest { SameRest pool.old pool.new }
    {
        if self.link.is_cut {
            return Err((lease, Refusal::ConnectionCut));
        }
        match pool.keep(lease) {
            Ok(kept) => {
                self.holder = ticket;
                Ok(kept)
            }
            Err((lease, why)) => Err((lease, keeps_not(why))),
        }
    }

    /// Its ticket becomes the lease of this number, or comes back with the refusal.
    pub(crate) fn resume(
        &mut self,
        pool: &mut Pool,
        ticket: Ticket,
        lease: u32,
    ) -> Result<Lease, (Ticket, Refusal)>
        ensures link { self.new.link ≡ self.old.link }
        ensures err { IfErr result (λ back. (back.0 ≡ ticket) × (self.new ≡ self.old)
            × (pool.new ≡ pool.old)) }
        ensures cut { self.old.link.is_cut ≡ true → IfErr result (λ back.
            back.1 ≡ ConnectionCut) }
        ensures live { self.old.link.is_cut ≡ false
            → refuses_resume (kept_for ticket (connections pool.old)) ≡ None → IsOk result }
        ensures lent { IfOk result (λ given. (lease_stamp given ≡ ticket_stamp ticket)
            × (given.number ≡ ticket.number) × (self.new.holder ≡ lease)
            × (self.old.link.is_cut ≡ false)
            × (connections pool.new
            ≡ lent_again ticket.number KeepTransaction (connections pool.old))) }
        ensures rest { SameRest pool.old pool.new }
    {
        if self.link.is_cut {
            return Err((ticket, Refusal::ConnectionCut));
        }
        match pool.resume(ticket) {
            Ok(lent) => {
                self.holder = lease;
                Ok(lent)
            }
            Err((ticket, why)) => Err((ticket, resumes_not(why))),
        }
    }
}
