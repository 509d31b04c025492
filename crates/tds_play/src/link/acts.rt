//! What each event does on its connection.
ghost use Rattle.std.specs.Prelude.{[], ◌∷◌, ◌≡◌, ◌≤◌, ◌-◌, ℕ, true, false, Option, Some, Ok, IfOk, IsSome, OnOk, ◌++◌};
ghost use Rattle.tds_packet.specs.declared.kind.Direction.TheVariants.{ToClient, ToServer};
ghost use Rattle.tds_play.specs.Failures.{FailsAs, HasNoFailure, Send, calls_of};
ghost use Rattle.tds_play.specs.Links.{recounted};
ghost use Rattle.tds_play.specs.Acts.{current_behind, unless_lost, worked_as};
ghost use Rattle.tds_ends.specs.Refines.{worked_outcome};
ghost use Rattle.tds_play.specs.Plays.{RefinesAct, RepresentsConnection, MayLose, acts_on, after, loss_of, on_cut, outcome_of};
ghost use Rattle.tds_ends.specs.ModelGives.{IsCountable, ModelGives};
ghost use Rattle.tds_world.specs.Newest.{WorksOnNewest};
ghost use Rattle.tds_world.specs.Steps.{EndsIfDue};
ghost use Rattle.tds_play.specs.Pooled.{ChangesClient};
ghost use Rattle.tds_play.specs.Seats.{Seat, placed_behind, seated};
ghost use Rattle.tds_play.specs.Stepping.{caller_event, ends_event, is_by_caller, link_event};
ghost use Rattle.tds_play.specs.Seen.{done_as};
ghost use Rattle.tds_world.specs.declared.report.Place.{Place};
ghost use Rattle.tds_world.specs.Arrivals.{works};
ghost use Rattle.tds_world.specs.Connection.{Connection, down_underway};
ghost use Rattle.tds_world.specs.Events.{work_outcome};
ghost use Rattle.tds_world.specs.Losses.{bringing, met};
ghost use Rattle.tds_world.specs.Pool.{Does};
ghost use Rattle.tds_server.specs.Working.{worked};
ghost use Rattle.tds_world.specs.declared.outcome.Outcome.TheVariants.{Refused};
ghost use Rattle.tds_world.specs.declared.outcome.Outcome.TheVariants as outcome;
ghost use Rattle.tds_world.specs.declared.event.Setup.{Setup};
ghost use Rattle.tds_world.specs.World.{World, next_number};
ghost use Rattle.tds_pool.specs.Cleaning.{carried, client_at};
ghost use Rattle.tds_pool.specs.Connections.{connections, numbered};
ghost use Rattle.tds_session.specs.Answer.{answer_of};
ghost use Rattle.tds_play.specs.Pipe.{IsFaithful, Pipe};
ghost use Rattle.tds_play.specs.Reads.{IsReading, ReadsNoMore, ReadsOn};
ghost use Rattle.tds_play.specs.Ties.{IsTied, IsUnasked, KeepsTies};

use super::{EventDone, Link};
use crate::NoMemory;
use crate::carrier::EventCarrier;
use crate::step::{CallerStep, EndsStep, LinkStep};
use std::alloc::Global;
use tds_client::Client;
use tds_ends::laws::{asks_alike, idle_alike, sends_append, the_other_stays, works_alike};
use tds_packet::Direction;
use tds_pool::Pool;
use tds_server::Worked;
use tds_session::{Engine, Session};
use tds_world::{Outcome, Refusal, WorkOutcome};

/// An event that doesn't apply.
pub(crate) fn refused(refusal: Refusal) -> EventDone
    ensures { result ≡ done_as (Refused refusal) }
{
    EventDone {
        outcome: Outcome::Refused(refusal),
        lost: false,
    }
}

pub(crate) fn done(outcome: Outcome) -> EventDone
    ensures { result ≡ done_as outcome }
{
    EventDone {
        outcome,
        lost: false,
    }
}

/// What an event comes to whose connection is cut.
pub(crate) fn on_cut(step: EndsStep<'_>) -> EventDone
    ensures value { (c : Connection)
        → result ≡ done_as (outcome_of (on_cut (ends_event step.entry) c)) }
    ensures whole { result.lost ≡ false }
{
    match step {
        EndsStep::OfCaller(CallerStep::Ask(..) | CallerStep::Send(_) | CallerStep::Cancel(_)) => {
            refused(Refusal::ConnectionCut)
        }
        EndsStep::OfLink(
            LinkStep::Work(_) | LinkStep::ToServer(..) | LinkStep::ToClient(..) | LinkStep::Cut(_),
        ) => refused(Refusal::UnknownConnection),
    }
}

/// What a server's work comes to.
fn as_outcome(worked: Worked) -> WorkOutcome
    ensures { result ≡ worked_outcome worked }
{
    match worked {
        Worked::Idle => WorkOutcome::Idle,
        Worked::Step => WorkOutcome::Step,
        Worked::Finished => WorkOutcome::Finished,
    }
}

impl<E: Engine + Drop> Link<E> {
    /// Does what this event does at the ends of its connection, whose client stands in the pool. What
    /// a caller does, it does where the pool lends its client.
    pub(crate) fn act<C: EventCarrier>(
        &mut self,
        alloc: Global,
        carrier: &mut C,
        pool: &mut Pool,
        number: u32,
        step: EndsStep<'_>,
    ) -> Result<EventDone, NoMemory>
        requires live { self.old.is_cut ≡ false }
        requires tied { IsTied self.old (C.pipes carrier.old self.old.number) }
        requires unasked { IsUnasked C.is_told (C.began carrier.old) (C.pipes carrier.old)
            self.old.number }
        requires there { IsSome (numbered self.old.number (connections pool.old)) }
        requires lent { is_by_caller step ≡ true
            → IsSome (carried self.old.number (connections pool.old)) }
        ensures number { self.new.number ≡ self.old.number }
        ensures client { OnOk result (ChangesClient self.old.number pool.old pool.new) }
        ensures ties { OnOk result (KeepsTies self.old.number self.new (C.pipes carrier.old)
            (C.pipes carrier.new) (C.began carrier.old) (C.began carrier.new)) }
        // Where the connection had no failure, one call of this event failed, or more, exactly where
        // it was lost, and no other one.
        ensures failed { HasNoFailure (C.pipes carrier.old self.old.number)
            → IfOk result (λ done. FailsAs (calls_of (ends_event step.entry)) done self.new
            (C.pipes carrier.new self.old.number)) }
        // Only what hands bytes over or brings some is lost.
        ensures loses { IfOk result (λ done. done.lost ≡ true
            → MayLose false (ends_event step.entry)) }
        // Its ends read what comes, whatever it is.
        ensures reads { (size : ℕ)
            → IsReading size self.old (client_at self.old.number (connections pool.old)).columns
            (C.pipes carrier.old self.old.number)
            → IfOk result (λ done. ReadsOn size (ends_event step.entry) done.outcome self.new
            (client_at self.old.number (connections pool.new)).columns
            (C.pipes carrier.old self.old.number) (C.pipes carrier.new self.old.number)) }
        // A connection that stands for one of the model, wherever it is in the pool, stands for what
        // the event, as it was met, makes of it, cut where the carrier failed.
        ensures refines { (setup : Setup) (w : World) (c : Connection) (engine : E) (p : Place)
            → IsFaithful (C.pipes carrier.new self.old.number)
            → RepresentsConnection self.old.number setup.packet_size engine self.old
            (seated p (client_at self.old.number (connections pool.old)))
            (C.pipes carrier.old self.old.number) c
            → ModelGives E (answer_of (E.statements_of engine)
            (E.step_of engine)) setup.packet_size c
            → ((k : ℕ) → IsCountable (after (acts_on setup
            (answer_of (E.statements_of engine) (E.step_of engine)) w
            (bringing k (ends_event step.entry)) self.old.number c) c))
            → number ≡ next_number w.asked_on
            → IfOk result (λ done. RefinesAct self.old.number setup.packet_size engine done self.new
            (seated (placed_behind (ends_event step.entry)
            (client_at self.old.number (connections pool.new)) p)
            (client_at self.old.number (connections pool.new)))
            (C.pipes carrier.new self.old.number)
            (acts_on setup (answer_of (E.statements_of engine) (E.step_of engine)) w
            (met (loss_of done) (ends_event step.entry)) self.old.number c) c) }
    {
        match step {
            EndsStep::OfCaller(step) => {
                let Some(client) = pool.at(self.number) else {
                    // Its caller holds a lease of it, so that the pool lends its client.
                    unreachable!()
                };
                self.act_by_caller(alloc, carrier, client, number, step)
            }
            EndsStep::OfLink(step) => self.act_alone(alloc, carrier, pool, step),
        }
    }

    /// Asks, sends or cancels, with its client.
    fn act_by_caller<C: EventCarrier>(
        &mut self,
        alloc: Global,
        carrier: &mut C,
        client: &mut Client,
        number: u32,
        step: CallerStep<'_>,
    ) -> Result<EventDone, NoMemory>
        requires live { self.old.is_cut ≡ false }
        requires tied { IsTied self.old (C.pipes carrier.old self.old.number) }
        requires unasked { IsUnasked C.is_told (C.began carrier.old) (C.pipes carrier.old)
            self.old.number }
        ensures number { self.new.number ≡ self.old.number }
        ensures ties { OnOk result (KeepsTies self.old.number self.new (C.pipes carrier.old)
            (C.pipes carrier.new) (C.began carrier.old) (C.began carrier.new)) }
        ensures failed { HasNoFailure (C.pipes carrier.old self.old.number)
            → IfOk result (λ done. FailsAs (calls_of (caller_event step.entry)) done self.new
            (C.pipes carrier.new self.old.number)) }
        ensures loses { IfOk result (λ done. done.lost ≡ true
            → MayLose false (caller_event step.entry)) }
        ensures reads { (size : ℕ)
            → IsReading size self.old client.old.columns (C.pipes carrier.old self.old.number)
            → IfOk result (λ done. ReadsOn size (caller_event step.entry) done.outcome self.new
            client.new.columns (C.pipes carrier.old self.old.number)
            (C.pipes carrier.new self.old.number)) }
        ensures refines { (setup : Setup) (w : World) (c : Connection) (engine : E) (p : Place)
            → IsFaithful (C.pipes carrier.new self.old.number)
            → RepresentsConnection self.old.number setup.packet_size engine self.old
            (seated p client.old) (C.pipes carrier.old self.old.number) c
            → ModelGives E (answer_of (E.statements_of engine)
            (E.step_of engine)) setup.packet_size c
            → ((k : ℕ) → IsCountable (after (acts_on setup
            (answer_of (E.statements_of engine) (E.step_of engine)) w
            (bringing k (caller_event step.entry)) self.old.number c) c))
            → number ≡ next_number w.asked_on
            → IfOk result (λ done. RefinesAct self.old.number setup.packet_size engine done self.new
            (seated (placed_behind (caller_event step.entry) client.new p) client.new)
            (C.pipes carrier.new self.old.number)
            (acts_on setup (answer_of (E.statements_of engine) (E.step_of engine)) w
            (met (loss_of done) (caller_event step.entry)) self.old.number c) c) }
    {
        asks_alike();
        idle_alike();
        the_other_stays::<E>();
        match step {
            CallerStep::Ask(lease, request) => self.ask(alloc, client, number, lease, request),
            CallerStep::Send(_) => self.send(alloc, carrier, client),
            CallerStep::Cancel(_) => self.cancel(alloc, carrier, client),
        }
    }

    /// The server works, bytes come, or the connection is cut.
    fn act_alone<C: EventCarrier>(
        &mut self,
        alloc: Global,
        carrier: &mut C,
        pool: &mut Pool,
        step: LinkStep,
    ) -> Result<EventDone, NoMemory>
        requires live { self.old.is_cut ≡ false }
        requires tied { IsTied self.old (C.pipes carrier.old self.old.number) }
        requires unasked { IsUnasked C.is_told (C.began carrier.old) (C.pipes carrier.old)
            self.old.number }
        requires there { IsSome (numbered self.old.number (connections pool.old)) }
        ensures number { self.new.number ≡ self.old.number }
        ensures client { OnOk result (ChangesClient self.old.number pool.old pool.new) }
        ensures ties { OnOk result (KeepsTies self.old.number self.new (C.pipes carrier.old)
            (C.pipes carrier.new) (C.began carrier.old) (C.began carrier.new)) }
        ensures failed { HasNoFailure (C.pipes carrier.old self.old.number)
            → IfOk result (λ done. FailsAs (calls_of (link_event step)) done self.new
            (C.pipes carrier.new self.old.number)) }
        ensures loses { IfOk result (λ done. done.lost ≡ true → MayLose false (link_event step)) }
        ensures reads { (size : ℕ)
            → IsReading size self.old (client_at self.old.number (connections pool.old)).columns
            (C.pipes carrier.old self.old.number)
            → IfOk result (λ done. ReadsOn size (link_event step) done.outcome self.new
            (client_at self.old.number (connections pool.new)).columns
            (C.pipes carrier.old self.old.number) (C.pipes carrier.new self.old.number)) }
        ensures refines { (setup : Setup) (w : World) (c : Connection) (engine : E) (p : Place)
            → IsFaithful (C.pipes carrier.new self.old.number)
            → RepresentsConnection self.old.number setup.packet_size engine self.old
            (seated p (client_at self.old.number (connections pool.old)))
            (C.pipes carrier.old self.old.number) c
            → ModelGives E (answer_of (E.statements_of engine)
            (E.step_of engine)) setup.packet_size c
            → ((k : ℕ) → IsCountable (after (acts_on setup
            (answer_of (E.statements_of engine) (E.step_of engine)) w
            (bringing k (link_event step)) self.old.number c) c))
            → IfOk result (λ done. RefinesAct self.old.number setup.packet_size engine done self.new
            (seated (placed_behind (link_event step)
            (client_at self.old.number (connections pool.new)) p)
            (client_at self.old.number (connections pool.new)))
            (C.pipes carrier.new self.old.number)
            (acts_on setup (answer_of (E.statements_of engine) (E.step_of engine)) w
            (met (loss_of done) (link_event step)) self.old.number c) c) }
    {
        match step {
            LinkStep::Work(_) => self.work(alloc, carrier),
            LinkStep::ToServer(_, most) => self.deliver_to_server(alloc, carrier, most),
            LinkStep::ToClient(_, most) => self.deliver_to_client(alloc, carrier, pool, most),
            LinkStep::Cut(_) => {
                self.cut(carrier);
                Ok(done(Outcome::Cut))
            }
        }
    }

    /// The server appends the next step of the answer that is due, if one is.
    fn put_step(&mut self, out: &mut Vec<u8>) -> Result<WorkOutcome, NoMemory>
        ensures outcome { IfOk result (λ o. o ≡ worked_outcome (worked self.old.server).answer) }
        ensures value { OnOk result (self.new ≡ worked_as (worked self.old.server) self.old) }
        ensures bytes { OnOk result (out.new.items
            ≡ out.old.items ++ (worked self.old.server).packet) }
        ensures number { self.new.number ≡ self.old.number }
        ensures live { self.new.is_cut ≡ self.old.is_cut }
        ensures tied { (pipe : Option Pipe) → IsTied self.old pipe → IsTied self.new pipe }
        ensures still { (pipe : Option Pipe)
            → OnOk result (ReadsNoMore self.old self.new pipe pipe) }
    {
        let before = *self.server.session();
        let worked = self.server.work(out)?;
        self.note_step(worked, before);
        Ok(as_outcome(worked))
    }

    /// The newest request's record of a step from this session to the server's, if one was done.
    fn note_step(&mut self, worked: Worked, before: Session)
        ensures { self.new ≡ record self.old {
          current = current_behind worked before
              self.old.server.session self.old.current;
        } }
    {
        match worked {
            Worked::Idle => {}
            Worked::Step | Worked::Finished => {
                let after = *self.server.session();
                if let Some(record) = &mut self.current {
                    record.note_step(before, after);
                }
            }
        }
    }

    /// The server does the next step of the answer that is due.
    fn work<C: EventCarrier>(
        &mut self,
        alloc: Global,
        carrier: &mut C,
    ) -> Result<EventDone, NoMemory>
        requires live { self.old.is_cut ≡ false }
        requires tied { IsTied self.old (C.pipes carrier.old self.old.number) }
        requires unasked { IsUnasked C.is_told (C.began carrier.old) (C.pipes carrier.old)
            self.old.number }
        ensures number { self.new.number ≡ self.old.number }
        ensures ties { OnOk result (KeepsTies self.old.number self.new (C.pipes carrier.old)
            (C.pipes carrier.new) (C.began carrier.old) (C.began carrier.new)) }
        ensures still { OnOk result (ReadsNoMore self.old self.new
            (C.pipes carrier.old self.old.number) (C.pipes carrier.new self.old.number)) }
        ensures worked { IfOk result (λ done.
            (done.outcome ≡ outcome.Work (worked_outcome (worked self.old.server).answer))
            × (self.new ≡ unless_lost done.lost
            (recounted self.new.to_server self.new.to_client
            (worked_as (worked self.old.server) self.old)))) }
        ensures failed { HasNoFailure (C.pipes carrier.old self.old.number)
            → IfOk result (λ done. FailsAs (Send ToClient ∷ []) done self.new
            (C.pipes carrier.new self.old.number)) }
        // A connection that stands for one of the model stands for what the same work makes of it.
        ensures refines { (size : ℕ) (engine : E) (seat : Seat) (c : Connection)
            → RepresentsConnection self.old.number size engine self.old seat
            (C.pipes carrier.old self.old.number) c
            → EndsIfDue c.due → WorksOnNewest c c.due → (works c).past ≡ c.past
            → down_underway (works c) ≤ 18446744073709551615
            → IfOk result (λ done. RefinesAct self.old.number size engine done self.new seat
            (C.pipes carrier.new self.old.number)
            (Does (outcome.Work (work_outcome c.due)) (works c)) c) }
    {
        works_alike::<E>();
        sends_append();
        the_other_stays::<E>();
        let mut out = Vec::new(alloc);
        let outcome = self.put_step(&mut out)?;
        let lost = self.hand_over(carrier, Direction::ToClient, out.as_slice())?;
        Ok(self.end(carrier, Outcome::Work(outcome), lost))
    }
}
