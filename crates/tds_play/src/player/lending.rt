//! What a new lease gets: a connection that was lent before, or a new one.
ghost use Rattle.std.specs.Prelude.{◌≡◌, ◌≢◌, ◌≤◌, ◌<◌, [], ◌∷◌, ◌++◌, length, Some, IfOk, OnOk};
ghost use Rattle.tds_play.specs.Happening.{HappensAs};
ghost use Rattle.tds_play.specs.Player.{AreHeld, all_of};
ghost use Rattle.tds_play.specs.Pooled.{IsGone};
ghost use Rattle.tds_play.specs.Seen.{done_as};
ghost use Rattle.tds_play.specs.Steps.{AreFew, OpensAs, ReusesAs};
ghost use Rattle.tds_play.specs.Ties.{AreTied, IsJustTold};
ghost use Rattle.tds_pool.specs.declared.answers.PoolRefusal.TheVariants as refusals;
ghost use Rattle.tds_session.specs.Answer.{answer_of};
ghost use Rattle.tds_world.specs.declared.event.Event.TheVariants as events;
ghost use Rattle.tds_world.specs.declared.outcome.Opened.TheVariants as opened;
ghost use Rattle.tds_world.specs.declared.outcome.Outcome.TheVariants as outcome;
ghost use Rattle.tds_world.specs.declared.outcome.Refusal.TheVariants.{AllInUse};

use super::Player;
use crate::NoMemory;
use crate::carrier::EventCarrier;
use crate::link::acts::{done, refused};
use crate::link::{EventDone, Link};
use crate::pool::Spent;
use crate::refusal::Stop;
use crate::seat::Held;
use std::alloc::AllocError;
use tds_ends::laws::{idle_alike, lends_matching, pool_is_unseen};
use tds_pool::{Lease, Pool, PoolRefusal};
use tds_session::Engine;
use tds_world::{Opened, Outcome, Refusal};

/// Why the pool lends nothing, in the words of a play.
fn lends_not(why: PoolRefusal) -> Result<Refusal, NoMemory>
    ensures value { IfOk result (λ refusal. refusal ≡ AllInUse) }
    ensures some { OnOk result (why ≢ refusals.Memory) }
{
    match why {
        PoolRefusal::Memory => Err(AllocError),
        PoolRefusal::AllInUse
        | PoolRefusal::Unknown
        | PoolRefusal::NotIdle
        | PoolRefusal::NoTransaction
        | PoolRefusal::Broken
        | PoolRefusal::NumbersUsedUp => Ok(Refusal::AllInUse),
    }
}

impl<E: Engine + Copy> Player<E> {
    /// A lease that the pool gave has its number.
    pub(super) fn begin_lease(&mut self, lease: Lease) -> Result<(), NoMemory>
        ensures leases { OnOk result (self.new.leases ≡ self.old.leases ++ Some lease ∷ []) }
        ensures rest { OnOk result
            (self.new ≡ record self.old { leases = self.new.leases }) }
    {
        self.leases.give(lease)?;
        Ok(())
    }

    /// The pool lends a connection: one that was lent before, or a new one, which is opened.
    pub(super) fn lease<C: EventCarrier>(&mut self, carrier: &mut C) -> Result<EventDone, Stop>
        requires tied { AreTied (all_of self.old) (C.pipes carrier.old) }
        requires told { IsJustTold C.is_told (C.began carrier.old) (C.pipes carrier.old) }
        requires held { AreHeld self.old }
        requires few { AreFew 9999 self.old }
        ensures { IfOk result (λ done. HappensAs
            (λ engine. answer_of (E.statements_of engine) (E.step_of engine)) events.Lease
            self.old self.new (C.pipes carrier.old) (C.pipes carrier.new)
            (C.began carrier.old) (C.began carrier.new) done) }
    {
        idle_alike();
        lends_matching::<E>();
        pool_is_unseen::<E>();
        let lease = self.leases.next();
        match self.pool.lease(self.alloc) {
            Ok((given, opened)) => {
                self.begin_lease(given)?;
                match opened {
                    tds_pool::Opened::Reused(conn) => Ok(self.reuse(conn, lease)),
                    tds_pool::Opened::New(conn) => {
                        let done = self.open(carrier, conn, lease)?;
                        Ok(done)
                    }
                }
            }
            Err(why) => Ok(refused(lends_not(why)?)),
        }
    }

    /// The connection of this number is lent again, to this lease.
    fn reuse(&mut self, conn: u32, lease: u32) -> EventDone
        requires there { (0 < conn) × (conn ≤ length self.old.links.items) }
        ensures reuses { ReusesAs conn lease self.old self.new }
        ensures done { result ≡ done_as (outcome.Leased lease conn opened.Reused) }
    {
        self.links[conn as usize - 1].holder = lease;
        done(Outcome::Leased {
            lease,
            conn,
            opened: Opened::Reused,
        })
    }

    /// A new connection is opened, which the pool lent to this lease.
    fn open<C: EventCarrier>(
        &mut self,
        carrier: &mut C,
        conn: u32,
        lease: u32,
    ) -> Result<EventDone, NoMemory>
        requires told { IsJustTold C.is_told (C.began carrier.old) (C.pipes carrier.old) }
        ensures { IfOk result (λ done. OpensAs conn lease self.old self.new
            (C.pipes carrier.old) (C.pipes carrier.new)
            (C.began carrier.old) (C.began carrier.new) done) }
    {
        let (link, lost) = Link::open(
            self.alloc,
            carrier,
            conn,
            self.engine,
            self.size,
            self.on_attention,
        )?;
        if lost {
            let _ = self.pool.lost(conn);
        }
        self.links.push(Held {
            link,
            holder: lease,
        })?;
        let outcome = Outcome::Leased {
            lease,
            conn,
            opened: Opened::New,
        };
        Ok(EventDone { outcome, lost })
    }
}

/// A lease ends whose connection nobody needs any more: the pool loses that.
pub(super) fn spend(pool: &mut Pool, lease: Lease)
    ensures lost { IsGone lease.number pool.old pool.new }
{
    let _ = pool.lost(lease.number());
    lease.spend();
}
