//! What an event does on the connection that it is about, and to its lease or ticket.
ghost use Rattle.std.specs.Prelude.{[], ◌≡◌, ◌<◌, ℕ, suc, length, map, Option, Some, IfOk, OnOk};
ghost use Rattle.tds_play.specs.Failures.{LiveAreSound};
ghost use Rattle.tds_play.specs.Holdings.{conn_of};
ghost use Rattle.tds_play.specs.Lending.{standing_of, Here};
ghost use Rattle.tds_play.specs.Noted.{about_of};
ghost use Rattle.tds_play.specs.Pipe.{Pipe};
ghost use Rattle.tds_play.specs.Player.{AreHeld, all_of};
ghost use Rattle.tds_play.specs.Pooled.{numbers_kept, numbers_leased};
ghost use Rattle.tds_play.specs.Stepping.{ends_event, one_event};
ghost use Rattle.tds_play.specs.Steps.{AreFew, IsNoted, StepsAt};
ghost use Rattle.tds_play.specs.Ties.{AreTied, IsJustTold};
ghost use Rattle.tds_session.specs.Answer.{answer_of};
ghost use Rattle.tds_world.specs.declared.event.Event.TheVariants as events;
ghost use Rattle.tds_world.specs.declared.outcome.Opened.TheVariants as opened;
ghost use Rattle.tds_world.specs.declared.outcome.Outcome.TheVariants as outcome;

use super::Player;
use crate::NoMemory;
use crate::carrier::EventCarrier;
use crate::link::EventDone;
use crate::link::acts::{done, refused};
use crate::pool::next_number;
use crate::refusal::Stop;
use crate::step::{CallerStep, EndsStep, LinkStep, OneStep};
use tds_ends::laws::{idle_alike, lends_matching, pool_is_unseen};
use tds_session::Engine;
use tds_world::{Opened, Outcome};

impl<E: Engine + Copy> Player<E> {
    /// An event on the connection at this place, by its kind.
    pub(super) fn step_at<C: EventCarrier>(
        &mut self,
        carrier: &mut C,
        place: usize,
        step: OneStep<'_>,
    ) -> Result<EventDone, Stop>
        requires tied { AreTied (all_of self.old) (C.pipes carrier.old) }
        requires told { IsJustTold C.is_told (C.began carrier.old) (C.pipes carrier.old) }
        requires sound { LiveAreSound (all_of self.old) (C.pipes carrier.old) }
        requires held { AreHeld self.old }
        requires few { AreFew 9999 self.old }
        requires there { place < length self.old.links.items }
        requires found { Here place ≡ about_of (one_event step) (map standing_of (all_of self.old))
            self.old.max (numbers_leased self.old.leases) (numbers_kept self.old.tickets) }
        ensures { IfOk result (λ done. StepsAt
            (λ engine. answer_of (E.statements_of engine) (E.step_of engine))
            (one_event step.entry) place
            self.old self.new (C.pipes carrier.old) (C.pipes carrier.new)
            (C.began carrier.old) (C.began carrier.new) done) }
    {
        match step {
            OneStep::Resume(ticket) => self.resume(place, ticket),
            OneStep::GiveBack(lease) => self.give_back(carrier, place, lease),
            OneStep::Keep(lease) => self.keep(place, lease),
            OneStep::Abandon(ticket) => self.abandon(carrier, place, ticket),
            OneStep::Clean(conn) => self.clean(carrier, place, conn),
            OneStep::AtEnds(step) => self.act_on(carrier, place, step),
        }
    }

    /// An event at the ends of the connection at this place.
    fn act_on<C: EventCarrier>(
        &mut self,
        carrier: &mut C,
        place: usize,
        step: EndsStep<'_>,
    ) -> Result<EventDone, Stop>
        requires tied { AreTied (all_of self.old) (C.pipes carrier.old) }
        requires told { IsJustTold C.is_told (C.began carrier.old) (C.pipes carrier.old) }
        requires sound { LiveAreSound (all_of self.old) (C.pipes carrier.old) }
        requires held { AreHeld self.old }
        requires few { AreFew 9999 self.old }
        requires there { place < length self.old.links.items }
        requires found { Here place ≡ about_of (ends_event step) (map standing_of (all_of self.old))
            self.old.max (numbers_leased self.old.leases) (numbers_kept self.old.tickets) }
        ensures { IfOk result (λ done. StepsAt
            (λ engine. answer_of (E.statements_of engine) (E.step_of engine))
            (ends_event step.entry) place
            self.old self.new (C.pipes carrier.old) (C.pipes carrier.new)
            (C.began carrier.old) (C.began carrier.new) done) }
    {
        let number = next_number(self.asked_on.len());
        let done = self.links[place].act(self.alloc, carrier, &mut self.pool, number, step)?;
        self.note(place, step, &done.outcome)?;
        Ok(done)
    }

    /// Notes the connection of a request that was asked.
    fn note(&mut self, place: usize, step: EndsStep<'_>, outcome: &Outcome) -> Result<(), NoMemory>
        requires few { place < 9999 }
        ensures noted { OnOk result
            (IsNoted (ends_event step.entry) (suc place) self.old self.new outcome.now) }
        ensures rest { OnOk result
            (self.new ≡ record self.old { asked_on = self.new.asked_on }) }
    {
        match step {
            EndsStep::OfCaller(CallerStep::Ask(..)) => match outcome {
                Outcome::Refused(_) => Ok(()),
                _ => {
                    self.asked_on.push(next_number(place))?;
                    Ok(())
                }
            },
            EndsStep::OfCaller(CallerStep::Send(_) | CallerStep::Cancel(_))
            | EndsStep::OfLink(
                LinkStep::Work(_)
                | LinkStep::ToServer(..)
                | LinkStep::ToClient(..)
                | LinkStep::Cut(_),
            ) => Ok(()),
        }
    }

    /// The lease of this number ends, on the connection at this place.
    fn give_back<C: EventCarrier>(
        &mut self,
        carrier: &mut C,
        place: usize,
        number: u32,
    ) -> Result<EventDone, Stop>
        requires tied { AreTied (all_of self.old) (C.pipes carrier.old) }
        requires told { IsJustTold C.is_told (C.began carrier.old) (C.pipes carrier.old) }
        requires sound { LiveAreSound (all_of self.old) (C.pipes carrier.old) }
        requires held { AreHeld self.old }
        requires there { place < length self.old.links.items }
        requires lent { conn_of (numbers_leased self.old.leases) number ≡ Some (suc place) }
        ensures { IfOk result (λ done. StepsAt
            (λ engine. answer_of (E.statements_of engine) (E.step_of engine))
            (events.GiveBack number) place
            self.old self.new (C.pipes carrier.old) (C.pipes carrier.new)
            (C.began carrier.old) (C.began carrier.new) done) }
    {
        let lease = self.leases.end(number);
        match self.links[place].give_back(self.alloc, carrier, &mut self.pool, lease) {
            Ok(done) => Ok(done),
            Err(lease) => {
                self.leases.put(number, lease);
                Err(Stop::Memory)
            }
        }
    }

    /// The lease of this number becomes a ticket, on the connection at this place.
    fn keep(&mut self, place: usize, number: u32) -> Result<EventDone, Stop>
        requires held { AreHeld self.old }
        requires few { AreFew 9999 self.old }
        requires there { place < length self.old.links.items }
        requires lent { conn_of (numbers_leased self.old.leases) number ≡ Some (suc place) }
        ensures { (pipes : ℕ → Option Pipe) → AreTied (all_of self.old) pipes
            → IfOk result (λ done. StepsAt
            (λ engine. answer_of (E.statements_of engine) (E.step_of engine))
            (events.Keep number) place self.old self.new pipes pipes [] [] done) }
    {
        idle_alike();
        pool_is_unseen::<E>();
        let lease = self.leases.end(number);
        let next = self.tickets.next();
        match self.links[place].keep(&mut self.pool, lease, next) {
            Ok(ticket) => {
                self.tickets.give(ticket)?;
                Ok(done(Outcome::Kept(next)))
            }
            Err((lease, refusal)) => {
                self.leases.put(number, lease);
                Ok(refused(refusal))
            }
        }
    }

    /// The ticket of this number becomes a lease, on the connection at this place.
    fn resume(&mut self, place: usize, number: u32) -> Result<EventDone, Stop>
        requires held { AreHeld self.old }
        requires few { AreFew 9999 self.old }
        requires there { place < length self.old.links.items }
        requires kept { conn_of (numbers_kept self.old.tickets) number ≡ Some (suc place) }
        ensures { (pipes : ℕ → Option Pipe) → AreTied (all_of self.old) pipes
            → IfOk result (λ done. StepsAt
            (λ engine. answer_of (E.statements_of engine) (E.step_of engine))
            (events.Resume number) place self.old self.new pipes pipes [] [] done) }
    {
        idle_alike();
        lends_matching::<E>();
        pool_is_unseen::<E>();
        let ticket = self.tickets.end(number);
        let next = self.leases.next();
        match self.links[place].resume(&mut self.pool, ticket, next) {
            Ok(lease) => {
                let conn = lease.number();
                self.begin_lease(lease)?;
                Ok(done(Outcome::Leased {
                    lease: next,
                    conn,
                    opened: Opened::Resumed,
                }))
            }
            Err((ticket, refusal)) => {
                self.tickets.put(number, ticket);
                Ok(refused(refusal))
            }
        }
    }

    /// The ticket of this number ends, on the connection at this place.
    fn abandon<C: EventCarrier>(
        &mut self,
        carrier: &mut C,
        place: usize,
        number: u32,
    ) -> Result<EventDone, Stop>
        requires tied { AreTied (all_of self.old) (C.pipes carrier.old) }
        requires held { AreHeld self.old }
        requires there { place < length self.old.links.items }
        requires kept { conn_of (numbers_kept self.old.tickets) number ≡ Some (suc place) }
        ensures { IfOk result (λ done. StepsAt
            (λ engine. answer_of (E.statements_of engine) (E.step_of engine))
            (events.Abandon number) place
            self.old self.new (C.pipes carrier.old) (C.pipes carrier.new)
            (C.began carrier.old) (C.began carrier.new) done) }
    {
        let ticket = self.tickets.end(number);
        Ok(self.links[place].abandon(carrier, &mut self.pool, ticket))
    }
}
