//! How many connections there may be.
ghost use Rattle.std.specs.Prelude.{◌≡◌, OnOk, false, true};
ghost use Rattle.tds_relay.specs.Lent.{DialsNewAt, KeepsGiven};
ghost use Rattle.tds_relay.specs.Apart.{LendsInTurn, UnlessServed};
ghost use Rattle.tds_relay.specs.Cleaning.{cleaned_in};
ghost use Rattle.tds_relay.specs.Closings.{ClosesOnly, IsWaiting, NoKey};
ghost use Rattle.tds_relay.specs.Closings.{register_in, with_most};
ghost use Rattle.tds_relay.specs.Lent.{LastBut, LendsBehind, PutsOnly};
ghost use Rattle.tds_relay.specs.Waiting.{IsLentInVain};
ghost use Rattle.tds_relay.specs.Few.{Few, IsCrowded, IsSeated, MayServe, NobodyWaits};
ghost use Rattle.tds_relay.specs.Fronts.{MovedOn, ends_in, core_in, machine_in};
ghost use Rattle.tds_relay.specs.Machine.{IsLedTo};
ghost use Rattle.tds_relay.specs.Pool.{Sharing};
ghost use Rattle.tds_relay.specs.Ordering.{GrowsByOrders, OpensNew, StayOrdered};
ghost use Rattle.tds_relay.specs.Queues.{queues_in};
ghost use Rattle.tds_relay.specs.Reads.{Opens};
ghost use Rattle.tds_relay.specs.Sparing.{AllGo, ClientsStay};
ghost use Rattle.tds_relay.specs.Ties.{LedOn, IsReached, pool_in};
ghost use Rattle.tds_relay.specs.TokenParsers.{AllStand};

use super::Relay;
use crate::NoMemory;

impl Relay {
    /// There may be so many connections from now on, and never more than `new` was told. Where more may be than
    /// before, those who wait are lent them; where more are there than may be, none is closed, and none is opened
    /// until fewer are.
    pub fn set_most(&mut self, most: usize) -> Result<(), NoMemory>
        ensures goes { OnOk result (LedOn (pool_in self.old.pool) (pool_in self.new.pool)) }
        ensures kept { OnOk result (queues_in self.new.applications
            ≡ queues_in self.old.applications) }
        ensures moves { OnOk result (MovedOn (core_in self.old) (core_in self.new)) }
        ensures served { OnOk result (NobodyWaits self.new) }
        ensures few { OnOk result (Few most self.old.links.items self.new.links.items) }
        ensures opens { OnOk result (Opens self.old.links.items self.new.links.items) }
        ensures stand { OnOk result (AllStand self.old.pool.service
            self.new.pool.service) }
        ensures goes_on { OnOk result (AllGo self.old self.new) }
        ensures apart { OnOk result (UnlessServed (core_in self.old) (core_in self.new)) }
        ensures lends { OnOk result (LendsInTurn (pool_in self.old.pool).line
            (ends_in self.old.applications) (core_in self.new)) }
        ensures ordered { OnOk result (StayOrdered self.old.orders.items self.new.orders.items) }
        ensures closes { OnOk result (ClosesOnly (IsLentInVain self.old)
            (with_most most (register_in self.old)) (register_in self.new)) }
        ensures lasts { OnOk result (LastBut (IsWaiting (pool_in self.old.pool).line)
            (with_most most (register_in self.old)) (register_in self.new)) }
        ensures seated { IsSeated self.old → OnOk result (IsSeated self.new) }
        ensures counts { cleaned_in self.new ≡ cleaned_in self.old }
        ensures opening { OnOk result (OpensNew self.old self.new) }
        ensures many { OnOk result (GrowsByOrders self.old self.new) }
        ensures puts { IsReached (pool_in self.old.pool)
            → OnOk result (PutsOnly NoKey self.old self.new) }
        ensures given { OnOk result (KeepsGiven self.old self.new) }
        ensures fresh { OnOk result (DialsNewAt self.old self.new) }
        ensures clients { IsReached (pool_in self.old.pool)
            → OnOk result (ClientsStay NoKey self.old self.new) }
        ensures behind { IsReached (pool_in self.old.pool) → (sharing : Sharing)
            → IsLedTo sharing (machine_in self.old) → OnOk result (LendsBehind self.old self.new) }
    {
        self.most = most;
        self.serve_line()
    }

    /// Whether whoever waits isn't lent a connection: as many are there as may be, and none is free.
    pub(super) fn is_full(&self) -> bool
        ensures full { result ≡ true
            → IsCrowded self.now.most self.now.links.items (pool_in self.now.pool) }
        ensures lends { result ≡ false
            → MayServe self.now.most self.now.links.items (pool_in self.now.pool) }
    {
        if self.links.len() < self.most {
            return false;
        }
        if self.pool.waiting() == 0 {
            return false;
        }
        !self.pool.has_free()
    }
}
