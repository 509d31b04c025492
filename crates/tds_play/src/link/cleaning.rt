//! The request of a cleaning, which the pool has begun.
ghost use Rattle.std.specs.Prelude.{[], ◌∷◌, ◌≡◌, ◌≤◌, ◌-◌, ℕ, true, false, Option, Some, IfOk, OnOk};
ghost use Rattle.tds_client.specs.Sending.{Does, sent};
ghost use Rattle.tds_client.specs.declared.state.Sent.TheVariants as sents;
ghost use Rattle.tds_packet.specs.declared.kind.Direction.TheVariants.{ToServer};
ghost use Rattle.tds_packet.specs.declared.status.Reset.TheVariants.{Full};
ghost use Rattle.tds_play.specs.Failures.{FailsAs, HasNoFailure, Send};
ghost use Rattle.tds_play.specs.Links.{IsAskedOn};
ghost use Rattle.tds_play.specs.Pipe.{Pipe};
ghost use Rattle.tds_play.specs.Plays.{RefinesAct, RepresentsConnection, after};
ghost use Rattle.tds_play.specs.Pooled.{ChangesClient};
ghost use Rattle.tds_play.specs.Reads.{ReadsNoMore};
ghost use Rattle.tds_play.specs.Seats.{Seat, seated};
ghost use Rattle.tds_play.specs.Ties.{IsTied, IsUnasked, KeepsTies};
ghost use Rattle.tds_pool.specs.Calls.{asks_reset};
ghost use Rattle.tds_pool.specs.Cleaning.{client_at};
ghost use Rattle.tds_pool.specs.Connections.{connections};
ghost use Rattle.tds_world.specs.Cleaning.{can_clean, clean_request};
ghost use Rattle.tds_world.specs.Connection.{Connection, is_idle, up_underway};
ghost use Rattle.tds_world.specs.Events.{cleans_by};
ghost use Rattle.tds_world.specs.declared.report.Place.TheVariants.{Draining};

use super::{EventDone, Link};
use crate::NoMemory;
use crate::carrier::EventCarrier;
use crate::request::Record;
use std::alloc::{AllocError, Global};
use tds_client::Sent;
use tds_ends::laws::{
    asks_alike, idle_alike, lends_matching, pool_is_unseen, sends_alike, sends_append,
    the_other_stays,
};
use tds_packet::{Direction, Reset};
use tds_pool::Pool;
use tds_session::Engine;
use tds_world::Outcome;
use tds_world::laws::phases_tell;

/// The client of this number sends what it asks, in one packet.
fn put_whole(pool: &mut Pool, number: u32, out: &mut Vec<u8>) -> Result<(), NoMemory>
    ensures sent { OnOk result (Does (sent (client_at number (connections pool.old))) sents.Last
        (client_at number (connections pool.new)) out.old.items out.new.items) }
    ensures client { OnOk result (ChangesClient number pool.old pool.new) }
{
    match pool.send(number, out) {
        Some(Ok(Sent::Last)) => Ok(()),
        Some(Ok(Sent::More)) | Some(Err(_)) | None => Err(AllocError),
    }
}

impl<E: Engine + Drop> Link<E> {
    /// The newest request is that of a cleaning, under a lease of this number.
    fn ask_cleaning(&mut self, alloc: Global, lease: u32) -> Result<(), NoMemory>
        ensures asked { OnOk result (IsAskedOn lease (Some Full) self.old self.new) }
        ensures number { self.new.number ≡ self.old.number }
        ensures tied { (pipe : Option Pipe) → IsTied self.old pipe → IsTied self.new pipe }
        ensures still { (pipe : Option Pipe)
            → OnOk result (ReadsNoMore self.old self.new pipe pipe) }
    {
        self.retire_newest()?;
        self.current = Some(Record::new(alloc, lease, Some(Reset::Full)));
        Ok(())
    }

    /// The request of a cleaning, which the pool has begun, goes out whole.
    pub(crate) fn clean<C: EventCarrier>(
        &mut self,
        alloc: Global,
        carrier: &mut C,
        pool: &mut Pool,
        lease: u32,
        request: u32,
    ) -> Result<EventDone, NoMemory>
        requires live { self.old.is_cut ≡ false }
        requires tied { IsTied self.old (C.pipes carrier.old self.old.number) }
        requires unasked { IsUnasked C.is_told (C.began carrier.old) (C.pipes carrier.old)
            self.old.number }
        ensures number { self.new.number ≡ self.old.number }
        ensures client { OnOk result (ChangesClient self.old.number pool.old pool.new) }
        ensures columns { OnOk result ((client_at self.old.number (connections pool.new)).columns
            ≡ (client_at self.old.number (connections pool.old)).columns) }
        ensures ties { OnOk result (KeepsTies self.old.number self.new (C.pipes carrier.old)
            (C.pipes carrier.new) (C.began carrier.old) (C.began carrier.new)) }
        ensures still { OnOk result (ReadsNoMore self.old self.new
            (C.pipes carrier.old self.old.number) (C.pipes carrier.new self.old.number)) }
        ensures failed { HasNoFailure (C.pipes carrier.old self.old.number)
            → IfOk result (λ done. FailsAs (Send ToServer ∷ []) done self.new
            (C.pipes carrier.new self.old.number)) }
        // Where the pool has begun to clean a connection that stands for one of the model, it stands
        // for that one, cleaned, and cut where the carrier failed.
        ensures refines { (size : ℕ) (engine : E) (seat : Seat) (c : Connection)
            → RepresentsConnection self.old.number size engine self.old seat
            (C.pipes carrier.old self.old.number) c
            → is_idle c ≡ true → c.parts ≡ []
            → client_at self.old.number (connections pool.old)
            ≡ asks_reset seat.client clean_request
            → up_underway (after (cleans_by true
            (can_clean (size - 8) lease request self.old.number c) (size - 8) lease request
            self.old.number c) c) ≤ 18446744073709551615
            → IfOk result (λ done. RefinesAct self.old.number size engine done self.new
            (seated Draining (client_at self.old.number (connections pool.new)))
            (C.pipes carrier.new self.old.number) (cleans_by true
            (can_clean (size - 8) lease request self.old.number c) (size - 8) lease request
            self.old.number c) c) }
    {
        asks_alike();
        idle_alike();
        lends_matching::<E>();
        pool_is_unseen::<E>();
        sends_alike();
        sends_append();
        the_other_stays::<E>();
        phases_tell();
        let number = self.number;
        self.ask_cleaning(alloc, lease)?;
        let mut out = Vec::new(alloc);
        put_whole(pool, number, &mut out)?;
        let lost = self.hand_over(carrier, Direction::ToServer, out.as_slice())?;
        Ok(self.end(carrier, Outcome::Cleaning { lease, request }, lost))
    }
}
