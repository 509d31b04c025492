//! What a connection does as its lease ends.
ghost use Rattle.std.specs.Prelude.{[], ◌∷◌, ◌≡◌, ◌≤◌, ℕ, false, IfOk, OnOk};
ghost use Rattle.tds_packet.specs.declared.kind.Direction.TheVariants.{ToServer};
ghost use Rattle.tds_play.specs.Failures.{Fails, HasNoFailure, Send};
ghost use Rattle.tds_play.specs.Seats.{seated};
ghost use Rattle.tds_play.specs.Plays.{ComesBack, RepresentsConnection};
ghost use Rattle.tds_world.specs.Caller.{cancels};
ghost use Rattle.tds_world.specs.Connection.{Connection, up_underway};
ghost use Rattle.tds_world.specs.declared.report.Place.{Place};
ghost use Rattle.tds_client.specs.Sending.{cancelled};
ghost use Rattle.tds_play.specs.Reads.{ReadsNoMore};
ghost use Rattle.tds_play.specs.Ties.{IsTied, IsUnasked, KeepsTies};

use super::Link;
use crate::NoMemory;
use crate::carrier::EventCarrier;
use std::alloc::Global;
use tds_client::Client;
use tds_ends::laws::{cancels_alike, idle_alike, pool_is_unseen, sends_append, the_other_stays};
use tds_packet::Direction;
use tds_session::Engine;
use tds_world::laws::phases_tell;

impl<E: Engine + Drop> Link<E> {
    /// What is underway is cancelled, since its lease ends. It answers whether the carrier failed.
    pub(crate) fn give_up<C: EventCarrier>(
        &mut self,
        alloc: Global,
        carrier: &mut C,
        client: &mut Client,
    ) -> Result<bool, NoMemory>
        requires live { self.old.is_cut ≡ false }
        requires tied { IsTied self.old (C.pipes carrier.old self.old.number) }
        requires unasked { IsUnasked C.is_told (C.began carrier.old) (C.pipes carrier.old)
            self.old.number }
        ensures number { self.new.number ≡ self.old.number }
        ensures live { self.new.is_cut ≡ false }
        ensures ties { OnOk result (KeepsTies self.old.number self.new (C.pipes carrier.old)
            (C.pipes carrier.new) (C.began carrier.old) (C.began carrier.new)) }
        ensures still { OnOk result (ReadsNoMore self.old self.new
            (C.pipes carrier.old self.old.number) (C.pipes carrier.new self.old.number)) }
        ensures columns { client.new.columns ≡ client.old.columns }
        ensures session { IfOk (cancelled client.old) (λ e. OnOk result (client.new ≡ e.session)) }
        ensures failed { HasNoFailure (C.pipes carrier.old self.old.number)
            → IfOk result (λ lost. Fails (Send ToServer ∷ []) lost
            (C.pipes carrier.new self.old.number)) }
        // A connection that stands for one of the model stands for what comes back there.
        ensures refines { (size : ℕ) (engine : E) (p : Place) (c : Connection)
            → RepresentsConnection self.old.number size engine self.old (seated p client.old)
            (C.pipes carrier.old self.old.number) c
            → up_underway (cancels c) ≤ 18446744073709551615
            → OnOk result (ComesBack self.old.number size engine self.new client.new
            (C.pipes carrier.new self.old.number) c) }
    {
        cancels_alike();
        idle_alike();
        sends_append();
        the_other_stays::<E>();
        pool_is_unseen::<E>();
        phases_tell();
        let mut out = Vec::new(alloc);
        let _ = self.cancel_request(client, &mut out)?;
        let lost = self.hand_over(carrier, Direction::ToServer, out.as_slice())?;
        Ok(lost)
    }
}
