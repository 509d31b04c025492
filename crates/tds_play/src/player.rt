//! All connections of a play, and what each event does to them.
ghost use Rattle.std.specs.Prelude.{◌≡◌, ◌≤◌, ◌<◌, [], length, map, false, Option, Some, IfOk};
ghost use Rattle.tds_play.specs.Failures.{LiveAreSound};
ghost use Rattle.tds_play.specs.Happening.{HappensAs};
ghost use Rattle.tds_play.specs.Holdings.{conn_of};
ghost use Rattle.tds_play.specs.Lending.{found_by, numbered_of, standing_of};
ghost use Rattle.tds_play.specs.Noted.{about_of, held_of};
ghost use Rattle.tds_play.specs.Player.{AreHeld, all_of};
ghost use Rattle.tds_play.specs.Pooled.{numbers_kept, numbers_leased};
ghost use Rattle.tds_play.specs.Steps.{AreFew};
ghost use Rattle.tds_play.specs.Stepping.{ends_event, one_event};
ghost use Rattle.tds_play.specs.Ties.{AreTied, IsJustTold};
ghost use Rattle.tds_pool.specs.Connections.{connections};
ghost use Rattle.tds_session.specs.Answer.{answer_of};
ghost use Rattle.tds_world.specs.declared.outcome.Outcome.TheVariants as outcome;
ghost use Rattle.tds_world.specs.declared.outcome.Refusal.TheVariants.{UnknownConnection};

mod acting;
mod cleaning;
mod ending;
mod lending;

use crate::carrier::EventCarrier;
use crate::link::EventDone;
use crate::link::acts::{done, refused};
use crate::pool::{Holdings, by_number};
use crate::refusal::Stop;
use crate::seat::Held;
use crate::step::{EndsStep, OneStep, Step, step_of};
use std::alloc::Global;
use tds_packet::PacketSize;
use tds_pool::{Lease, Pool, Ticket};
use tds_session::{Engine, OnAttention};
use tds_world::{Event, Outcome, Refusal};

/// What a play knows. Its leases and tickets must be spent: [`Player::into_requests`] does.
pub(crate) struct Player<E: Engine + Copy> {
    alloc: Global,
    pub(crate) engine: E,
    size: PacketSize,
    max: u8,
    on_attention: OnAttention,
    /// Numbered from 1.
    links: Vec<Held<E>>,
    /// Their clients, but for those of connections that are cut.
    pool: Pool,
    leases: Holdings<Lease>,
    tickets: Holdings<Ticket>,
    /// The connection of each request, in the order in which they were asked.
    asked_on: Vec<u32>,
}

impl<E: Engine + Copy> Player<E> {
    /// A play before any event.
    pub(crate) fn new(
        alloc: Global,
        engine: E,
        pool: Pool,
        size: PacketSize,
        max: u8,
        on_attention: OnAttention,
    ) -> Player<E>
        requires none { connections pool ≡ [] }
        requires pool { (pool.max ≡ max) × (pool.size ≡ size) × (pool.last ≡ 0) }
        ensures links { result.links.items ≡ [] }
        ensures leases { result.leases ≡ [] }
        ensures tickets { result.tickets ≡ [] }
        ensures asked { result.asked_on.items ≡ [] }
        ensures engine { result.engine ≡ engine }
        ensures size { result.size ≡ size }
        ensures max { result.max ≡ max }
        ensures told { result.on_attention ≡ on_attention }
        ensures pooled { AreHeld result }
    {
        Player {
            alloc,
            engine,
            size,
            max,
            on_attention,
            links: Vec::new(alloc),
            pool,
            leases: Holdings::new(alloc),
            tickets: Holdings::new(alloc),
            asked_on: Vec::new(alloc),
        }
    }

    /// One event.
    pub(crate) fn happen<C: EventCarrier>(
        &mut self,
        carrier: &mut C,
        event: &Event,
    ) -> Result<EventDone, Stop>
        requires tied { AreTied (all_of self.old) (C.pipes carrier.old) }
        requires told { IsJustTold C.is_told (C.began carrier.old) (C.pipes carrier.old) }
        requires sound { LiveAreSound (all_of self.old) (C.pipes carrier.old) }
        requires held { AreHeld self.old }
        requires few { AreFew 9999 self.old }
        ensures { IfOk result (λ done. HappensAs
            (λ engine. answer_of (E.statements_of engine) (E.step_of engine)) event.now
            self.old self.new (C.pipes carrier.old) (C.pipes carrier.new)
            (C.began carrier.old) (C.began carrier.new) done) }
    {
        match step_of(event) {
            Step::RestartServer => {
                self.cut_all(carrier);
                Ok(EventDone {
                    outcome: Outcome::RestartedServer,
                    lost: false,
                })
            }
            Step::RestartClient => {
                self.cut_all(carrier);
                self.end_all();
                Ok(EventDone {
                    outcome: Outcome::RestartedClient,
                    lost: false,
                })
            }
            Step::Lease => self.lease(carrier),
            Step::OfOne(step) => match self.about(step) {
                Err(refusal) => Ok(refused(refusal)),
                Ok(place) => self.step_at(carrier, place, step),
            },
        }
    }

    /// The place of the connection that a step is about.
    fn about(&self, step: OneStep<'_>) -> Result<usize, Refusal>
        ensures value { found_by result
            ≡ about_of (one_event step.entry) (map standing_of (all_of self.now)) self.now.max
            (numbers_leased self.now.leases) (numbers_kept self.now.tickets) }
        ensures there { IfOk result (λ place. place < length self.now.links.items) }
    {
        match step {
            OneStep::Resume(ticket) | OneStep::Abandon(ticket) => {
                self.held(self.kept_on(ticket), Refusal::UnknownTicket)
            }
            OneStep::GiveBack(lease) | OneStep::Keep(lease) => {
                self.held(self.lent_on(lease), Refusal::UnknownLease)
            }
            OneStep::Clean(conn) => self.numbered(conn),
            OneStep::AtEnds(step) => self.at_ends(step),
        }
    }

    /// The place of the connection at whose ends something happens.
    fn at_ends(&self, step: EndsStep<'_>) -> Result<usize, Refusal>
        ensures value { found_by result
            ≡ about_of (ends_event step.entry) (map standing_of (all_of self.now)) self.now.max
            (numbers_leased self.now.leases) (numbers_kept self.now.tickets) }
        ensures there { IfOk result (λ place. place < length self.now.links.items) }
    {
        match step {
            EndsStep::OfCaller(step) => {
                self.held(self.lent_on(step.lease()), Refusal::UnknownLease)
            }
            EndsStep::OfLink(step) => self.numbered(step.conn()),
        }
    }

    /// The place of the connection of this number.
    fn numbered(&self, conn: u32) -> Result<usize, Refusal>
        ensures value { found_by result
            ≡ numbered_of (length self.now.links.items) conn UnknownConnection }
        ensures there { IfOk result (λ place. place < length self.now.links.items) }
    {
        by_number(self.links.len(), conn, Refusal::UnknownConnection)
    }

    /// The connection of the lease of this number, unless it is unknown or has ended.
    fn lent_on(&self, number: u32) -> Option<u32>
        ensures { result ≡ conn_of (numbers_leased self.now.leases) number }
    {
        match self.leases.get(number) {
            None => None,
            Some(lease) => Some(lease.number()),
        }
    }

    /// The connection of the ticket of this number.
    fn kept_on(&self, number: u32) -> Option<u32>
        ensures { result ≡ conn_of (numbers_kept self.now.tickets) number }
    {
        match self.tickets.get(number) {
            None => None,
            Some(ticket) => Some(ticket.number()),
        }
    }

    /// The place of the connection that a lease or ticket holds, if that is known.
    fn held(&self, conn: Option<u32>, why: Refusal) -> Result<usize, Refusal>
        ensures value { found_by result ≡ held_of (length self.now.links.items) conn why }
        ensures there { IfOk result (λ place. place < length self.now.links.items) }
    {
        match conn {
            None => Err(why),
            Some(conn) => by_number(self.links.len(), conn, why),
        }
    }
}
