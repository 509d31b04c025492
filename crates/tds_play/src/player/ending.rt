//! What is cut and what ends, and what is seen and told of it all.
ghost use Rattle.std.specs.Prelude.{◌≡◌, ◌<◌, ◌-◌, ℕ, List, [], ◌∷◌, ◌++◌, length, map, slice_get, slice_set, Option, Some, IfOk};
ghost use Rattle.std.specs.List.{filter_map};
ghost use Rattle.tds_play.specs.Holdings.{all_ended};
ghost use Rattle.tds_play.specs.Links.{newest_held};
ghost use Rattle.tds_play.specs.Pipe.{Pipe};
ghost use Rattle.tds_play.specs.Player.{AreHeld, RepresentsWorld, all_of};
ghost use Rattle.tds_play.specs.Plays.{RepresentConnections};
ghost use Rattle.tds_play.specs.Reads.{TakesLast, TellsGiven};
ghost use Rattle.tds_play.specs.Seen.{seen_at, seen_of};
ghost use Rattle.tds_play.specs.Steps.{CutsAt, CutsSome};
ghost use Rattle.tds_play.specs.Ties.{AreNumbered, AreTied};
ghost use Rattle.tds_play.specs.declared.request.Record.{Record};
ghost use Rattle.tds_pool.specs.Connections.{SameRest, connections};
ghost use Rattle.tds_world.specs.Connection.{Connection, cut};
ghost use Rattle.tds_world.specs.Observed.{request_reports};
ghost use Rattle.tds_world.specs.Order.{RequestsInOrder};
ghost use Rattle.tds_world.specs.World.{World, numbered, put};
ghost use Rattle.tds_world.specs.declared.event.Setup.{Setup};

use super::Player;
use super::lending::spend;
use crate::NoMemory;
use crate::carrier::EventCarrier;
use crate::request::Record;
use crate::seat::Held;
use std::alloc::Global;
use tds_session::Engine;
use tds_world::{RequestReport, Snapshot};

impl<E: Engine + Copy> Player<E> {
    /// Every connection is cut.
    pub(super) fn cut_all<C: EventCarrier>(&mut self, carrier: &mut C)
        requires tied { AreTied (all_of self.old) (C.pipes carrier.old) }
        requires held { AreHeld self.old }
        ensures keeps { CutsSome self.old self.new (C.pipes carrier.old) (C.pipes carrier.new)
            (C.began carrier.old) (C.began carrier.new) }
        ensures none { connections self.new.pool ≡ [] }
        // What stands for connections of the model stands for them, all cut.
        ensures refines { (size : ℕ) (engine : E) (cs : List Connection)
            → RepresentConnections 1 size engine (all_of self.old) (C.pipes carrier.old) cs
            → RepresentConnections 1 size engine (all_of self.new) (C.pipes carrier.new)
            (map cut cs) }
    {
        'links: for place in 0..self.links.len() {
            self.cut_at(carrier, place);
        }
    }

    /// The connection at this place is cut, unless it is cut already.
    fn cut_at<C: EventCarrier>(&mut self, carrier: &mut C, place: usize)
        requires tied { AreTied (all_of self.old) (C.pipes carrier.old) }
        requires held { AreHeld self.old }
        requires there { place < length self.old.links.items }
        ensures keeps { CutsSome self.old self.new (C.pipes carrier.old) (C.pipes carrier.new)
            (C.began carrier.old) (C.began carrier.new) }
        ensures cuts { CutsAt place self.old self.new }
        ensures refines { (size : ℕ) (engine : E) (cs : List Connection) (c : Connection)
            → slice_get cs place ≡ Some c
            → RepresentConnections 1 size engine (all_of self.old) (C.pipes carrier.old) cs
            → RepresentConnections 1 size engine (all_of self.new) (C.pipes carrier.new)
            (put place (cut c) cs) }
    {
        let link = &mut self.links[place].link;
        if link.is_cut {
            return;
        }
        link.cut(carrier);
        let _ = self.pool.lost(link.number);
    }

    /// Every lease and every ticket ends.
    pub(super) fn end_all(&mut self)
        ensures leases { self.new.leases ≡ all_ended self.old.leases }
        ensures tickets { self.new.tickets ≡ all_ended self.old.tickets }
        ensures rest { self.new ≡ record self.old {
          pool = self.new.pool;
          leases = self.new.leases;
          tickets = self.new.tickets;
        } }
        // Where each connection is cut the pool has none to lose.
        ensures pool { SameRest self.old.pool self.new.pool }
        ensures none { connections self.old.pool ≡ [] → connections self.new.pool ≡ [] }
    {
        'leases: for place in 0..self.leases.len() {
            if let Some(lease) = self.leases.take_at(place) {
                spend(&mut self.pool, lease);
            }
        }
        'tickets: for place in 0..self.tickets.len() {
            if let Some(ticket) = self.tickets.take_at(place) {
                let _ = self.pool.abandon(ticket);
            }
        }
    }

    /// What is seen of each connection that isn't cut.
    pub(crate) fn snapshots(&self) -> Result<Vec<Snapshot>, NoMemory>
        requires held { AreHeld self.now }
        requires numbered { AreNumbered (all_of self.now) }
        ensures { IfOk result (λ snapshots.
            snapshots.items ≡ filter_map seen_of (all_of self.now)) }
    {
        let numbers = self.pool.numbers(self.alloc)?;
        let mut snapshots = Vec::new(self.alloc);
        'numbers: for number in &numbers {
            if let Some(snapshot) = self.snapshot(*number) {
                snapshots.push(snapshot)?;
            }
        }
        Ok(snapshots)
    }

    /// What is seen of the connection of this number.
    fn snapshot(&self, number: u32) -> Option<Snapshot>
        requires held { AreHeld self.now }
        requires numbered { AreNumbered (all_of self.now) }
        ensures { result ≡ seen_at (all_of self.now) number }
    {
        if number == 0 || number as usize > self.links.len() {
            return None;
        }
        let held = &self.links[number as usize - 1];
        held.snapshot(&self.pool)
    }

    /// What is told of each request in the end, in the order in which they were asked.
    pub(crate) fn into_requests(self) -> Result<Vec<RequestReport>, NoMemory>
        // The callers of each connection were given what is told of its requests, and maybe more.
        ensures given { IfOk result (λ reports. (n : ℕ)
            → TellsGiven (all_of self) reports.items n) }
        ensures told { (setup : Setup) (engine : E) (pipes : ℕ → Option Pipe) (w : World)
            → RepresentsWorld setup engine self pipes w → RequestsInOrder w
            → IfOk result (λ reports. reports.items ≡ request_reports w 1 w.asked_on) }
    {
        let Player {
            alloc,
            engine: _,
            size: _,
            max: _,
            on_attention: _,
            links,
            pool: _,
            leases,
            tickets,
            asked_on,
        } = self;
        leases.let_go();
        tickets.let_go();
        let mut records = all_records(alloc, links)?;
        let mut reports = Vec::new(alloc);
        'asked: for conn in &asked_on {
            if let Some(record) = next_of(&mut records, *conn) {
                reports.push(record.report(*conn))?;
            }
        }
        Ok(reports)
    }
}

/// The requests of each connection, the newest first.
fn all_records<E: Engine + Copy>(
    alloc: Global,
    links: Vec<Held<E>>,
) -> Result<Vec<Vec<Record>>, NoMemory>
    ensures { IfOk result (λ records. map (λ v. v.items) records.items
        ≡ map newest_held links.items) }
{
    let mut records = Vec::new(alloc);
    'links: for held in links {
        records.push(held.link.into_records()?)?;
    }
    Ok(records)
}

/// The oldest request of this connection that is left, which is taken away.
fn next_of(records: &mut [Vec<Record>], conn: u32) -> Option<Record>
    ensures count { length records.new ≡ length records.old }
    ensures takes { TakesLast (map (λ v. v.items) records.old) (map (λ v. v.items) records.new)
        conn result }
    ensures next { (left : List Record) (r : Record)
        → numbered (map (λ v. v.items) records.old) conn ≡ Some (left ++ r ∷ [])
        → (result ≡ Some r) × (map (λ v. v.items) records.new
        ≡ slice_set (map (λ v. v.items) records.old) (conn - 1) left) }
{
    if conn == 0 || conn as usize > records.len() {
        return None;
    }
    records[conn as usize - 1].pop()
}
