//! What a delivery does on its connection.
ghost use Rattle.std.specs.Prelude.{[], ◌∷◌, ◌≡◌, ◌≤◌, ◌||◌, ◌++◌, ℕ, List, false, min, None, Option, Some, IfOk, IsSome, OnOk};
ghost use Rattle.tds_packet.specs.declared.kind.Direction.TheVariants.{ToClient, ToServer};
ghost use Rattle.tds_play.specs.Failures.{Carry, FailsAs, HasNoFailure, Send};
ghost use Rattle.tds_ends.specs.Feeding.{Comes, Coming, Listened, listened};
ghost use Rattle.tds_play.specs.Listening.{HasListened, told_in};
ghost use Rattle.tds_play.specs.Pipe.{IsFaithful, Pipe};
ghost use Rattle.tds_play.specs.Plays.{RefinesAct, RepresentsConnection, count_of, delivers_down, delivers_up};
ghost use Rattle.tds_ends.specs.ModelGives.{IsCountable, ModelGives};
ghost use Rattle.tds_play.specs.Seats.{Seat, drained, seated};
ghost use Rattle.tds_world.specs.declared.report.Place.{Place};
ghost use Rattle.tds_ends.specs.AllBytes.{ClientHasRead, new_reader};
ghost use Rattle.tds_play.specs.Reads.{ClientIsFed, IsReading, ReadsOn, given_by};
ghost use Rattle.tds_world.specs.declared.event.Event.TheVariants as event;
ghost use Rattle.tds_play.specs.Ties.{IsTied, IsUnasked, KeepsTies};
ghost use Rattle.tds_play.specs.Pooled.{ChangesClient};
ghost use Rattle.tds_pool.specs.Cleaning.{client_at};
ghost use Rattle.tds_pool.specs.Connections.{connections, numbered};
ghost use Rattle.tds_session.specs.Answer.{Answers, answer_of};
ghost use Rattle.tds_world.specs.Arrivals.{to_client, to_server};
ghost use Rattle.tds_world.specs.Connection.{Connection};
ghost use Rattle.tds_world.specs.declared.outcome.Outcome.TheVariants as outcome;

use super::{EventDone, Link};
use crate::NoMemory;
use crate::carrier::EventCarrier;
use crate::feeding::{Heard, feed_client, feed_server};
use std::alloc::Global;
use tds_ends::all_bytes::{given_are_told, no_fault_is_read};
use tds_ends::laws::{idle_alike, listens_alike, pool_is_unseen, serves_alike, the_other_stays};
use tds_packet::Direction;
use tds_pool::Pool;
use tds_session::Engine;
use tds_world::Outcome;

/// So many of the bytes underway, or all where there are fewer.
fn at_most(underway: u64, most: u32) -> u32
    ensures value { result ≡ min most underway }
    ensures within { result ≤ underway }
{
    match u32::try_from(underway) {
        Ok(count) => count.min(most),
        Err(_) => most,
    }
}

/// Whether one of two calls of the carrier failed.
fn either(first: bool, second: bool) -> bool
    ensures { result ≡ (first || second) }
{
    first || second
}

impl<E: Engine + Drop> Link<E> {
    /// Bytes come to the server, and what they cause goes out.
    pub(crate) fn deliver_to_server<C: EventCarrier>(
        &mut self,
        alloc: Global,
        carrier: &mut C,
        most: u32,
    ) -> Result<EventDone, NoMemory>
        requires live { self.old.is_cut ≡ false }
        requires tied { IsTied self.old (C.pipes carrier.old self.old.number) }
        requires unasked { IsUnasked C.is_told (C.began carrier.old) (C.pipes carrier.old)
            self.old.number }
        ensures number { self.new.number ≡ self.old.number }
        ensures ties { OnOk result (KeepsTies self.old.number self.new (C.pipes carrier.old)
            (C.pipes carrier.new) (C.began carrier.old) (C.began carrier.new)) }
        ensures failed { HasNoFailure (C.pipes carrier.old self.old.number)
            → IfOk result (λ done. FailsAs (Carry ToServer ∷ Send ToClient ∷ []) done self.new
            (C.pipes carrier.new self.old.number)) }
        // The server reads what comes, whatever it is.
        ensures reads { (size n : ℕ) (columns : Option ℕ)
            → IsReading size self.old columns (C.pipes carrier.old self.old.number)
            → IfOk result (λ done. ReadsOn size (event.ToServer n most) done.outcome self.new
            columns (C.pipes carrier.old self.old.number) (C.pipes carrier.new self.old.number)) }
        // A connection that stands for one of the model stands for what the delivery of as many
        // bytes as came makes of it, cut where the carrier failed.
        ensures refines { (size : ℕ) (engine : E) (seat : Seat) (c : Connection)
            → IsFaithful (C.pipes carrier.new self.old.number)
            → RepresentsConnection self.old.number size engine self.old seat
            (C.pipes carrier.old self.old.number) c
            → ModelGives E (answer_of (E.statements_of engine) (E.step_of engine)) size c
            → ((k : ℕ) → IsCountable (to_server (answer_of (E.statements_of engine)
            (E.step_of engine)) k c))
            → IfOk result (λ done. RefinesAct self.old.number size engine done self.new seat
            (C.pipes carrier.new self.old.number)
            (delivers_up (answer_of (E.statements_of engine) (E.step_of engine))
            (count_of done most) c) c) }
    {
        serves_alike::<E>();
        no_fault_is_read();
        the_other_stays::<E>();
        let count = at_most(self.to_server, most);
        let mut piece = Vec::new(alloc);
        let carried = self.carry(carrier, Direction::ToServer, count, &mut piece)?;
        let mut reply = Vec::new(alloc);
        let piece = piece.as_slice();
        match feed_server(&mut self.server, &mut self.server_reader, piece, &mut reply)? {
            None => {
                let lost = self.hand_over(carrier, Direction::ToClient, reply.as_slice())?;
                let outcome = Outcome::ToServer(carried.count);
                Ok(self.end(carrier, outcome, either(carried.lost, lost)))
            }
            Some(fault) => Ok(self.end_by_fault(carrier, fault, carried.lost)),
        }
    }

    /// Bytes come to the client, wherever that stands in the pool, and it tells their tokens to the
    /// newest request's caller.
    pub(crate) fn deliver_to_client<C: EventCarrier>(
        &mut self,
        alloc: Global,
        carrier: &mut C,
        pool: &mut Pool,
        most: u32,
    ) -> Result<EventDone, NoMemory>
        requires live { self.old.is_cut ≡ false }
        requires tied { IsTied self.old (C.pipes carrier.old self.old.number) }
        requires unasked { IsUnasked C.is_told (C.began carrier.old) (C.pipes carrier.old)
            self.old.number }
        requires there { IsSome (numbered self.old.number (connections pool.old)) }
        ensures client { OnOk result (ChangesClient self.old.number pool.old pool.new) }
        ensures number { self.new.number ≡ self.old.number }
        ensures ties { OnOk result (KeepsTies self.old.number self.new (C.pipes carrier.old)
            (C.pipes carrier.new) (C.began carrier.old) (C.began carrier.new)) }
        ensures failed { HasNoFailure (C.pipes carrier.old self.old.number)
            → IfOk result (λ done. FailsAs (Carry ToClient ∷ []) done self.new
            (C.pipes carrier.new self.old.number)) }
        // The client reads what comes, whatever it is.
        ensures reads { (size n : ℕ)
            → IsReading size self.old (client_at self.old.number (connections pool.old)).columns
            (C.pipes carrier.old self.old.number)
            → IfOk result (λ done. ReadsOn size (event.ToClient n most) done.outcome self.new
            (client_at self.old.number (connections pool.new)).columns
            (C.pipes carrier.old self.old.number) (C.pipes carrier.new self.old.number)) }
        ensures refines { (answers : Answers) (size : ℕ) (engine : E) (p : Place) (c : Connection)
            → IsFaithful (C.pipes carrier.new self.old.number)
            → RepresentsConnection self.old.number size engine self.old
            (seated p (client_at self.old.number (connections pool.old)))
            (C.pipes carrier.old self.old.number) c
            → ModelGives E answers size c
            → IfOk result (λ done. RefinesAct self.old.number size engine done self.new
            (drained (seated p (client_at self.old.number (connections pool.new))))
            (C.pipes carrier.new self.old.number) (delivers_down (count_of done most) c) c) }
    {
        listens_alike();
        no_fault_is_read();
        given_are_told();
        idle_alike();
        pool_is_unseen::<E>();
        the_other_stays::<E>();
        let number = self.number;
        let count = at_most(self.to_client, most);
        let mut piece = Vec::new(alloc);
        let carried = self.carry(carrier, Direction::ToClient, count, &mut piece)?;
        let heard = self.hear(alloc, pool, number, piece.as_slice())?;
        if let Some(fault) = heard.fault {
            return Ok(self.end_by_fault(carrier, fault, carried.lost));
        }
        Ok(self.end(carrier, Outcome::ToClient(carried.count), carried.lost))
    }

    /// The client takes what came, for the newest request.
    fn hear(
        &mut self,
        alloc: Global,
        pool: &mut Pool,
        number: u32,
        piece: &[u8],
    ) -> Result<Heard, NoMemory>
        requires reads { self.old.client_reader.direction ≡ ToClient }
        requires there { IsSome (numbered number (connections pool.old)) }
        ensures client { OnOk result (ChangesClient number pool.old pool.new) }
        ensures number { self.new.number ≡ self.old.number }
        ensures live { self.new.is_cut ≡ self.old.is_cut }
        ensures tied { (pipe : Option Pipe) → IsTied self.old pipe
            → OnOk result (IsTied self.new pipe) }
        ensures server { OnOk result (self.new.server_reader ≡ self.old.server_reader) }
        ensures any { (size : ℕ) (bytes : List ℕ)
            → ClientHasRead (new_reader ToClient size) self.old.client_reader
            (client_at number (connections pool.old)).columns bytes (given_by self.old)
            → IfOk result (λ heard. ClientIsFed size self.new.client_reader
            (client_at number (connections pool.new)).columns (bytes ++ piece.now)
            (given_by self.new) heard.fault) }
        // Where packets come that the client takes, it takes them in order, and tells what they say
        // to the newest request's caller.
        ensures heard { (packets : List Coming) (left : List ℕ) (then : Listened)
            → Comes self.old.client_reader (self.old.client_reader.taken ++ piece.now) packets left
            → listened (client_at number (connections pool.old)) None (told_in self.old.current)
            packets ≡ Some then
            → IfOk result (λ heard. (heard.fault ≡ None)
            × (client_at number (connections pool.new) ≡ then.session)
            × HasListened then left self.old self.new) }
    {
        match &mut self.current {
            None => {
                let mut nobody = Vec::new(alloc);
                feed_client(pool, number, &mut self.client_reader, piece, &mut nobody)
            }
            Some(record) => {
                let told = &mut record.tokens;
                let heard = feed_client(pool, number, &mut self.client_reader, piece, told)?;
                record.settle(heard.settled);
                Ok(heard)
            }
        }
    }
}
