//! What is done behind a packet that was heard.
ghost use Rattle.std.specs.Prelude.{◌≡◌, ℕ, None, Some, IsNone, OnOk};
ghost use Rattle.tds_relay.specs.Waiting.{RestsElse, KeepsHeard, LosesAt};
ghost use Rattle.tds_relay.specs.Apart.{SparesOthers};
ghost use Rattle.tds_relay.specs.Cleaning.{CountsHeard};
ghost use Rattle.tds_relay.specs.Closings.{ClosesOnly, register_in};
ghost use Rattle.tds_relay.specs.Coming.{AllAlong, AskAsTold, BeginAnyIf, acknowledged_in, asking_in};
ghost use Rattle.tds_relay.specs.Few.{IsSeated, IsSeatedBehind};
ghost use Rattle.tds_relay.specs.Fronts.{Moved, ends_in, core_in, core_of_ends, told_by};
ghost use Rattle.tds_relay.specs.Handing.{heard_key};
ghost use Rattle.tds_relay.specs.Queues.{queues_in};
ghost use Rattle.tds_relay.specs.Reads.{LinksStay, FillsBy, reader_at, waits_on};
ghost use Rattle.tds_relay.specs.Ordering.{StayOrdered, opens_in};
ghost use Rattle.tds_relay.specs.Sparing.{OffGo};
ghost use Rattle.tds_relay.specs.Ties.{Connection, LedTo, IsReached, pool_in};
ghost use Rattle.tds_relay.specs.Waking.{HandsTo, IsWoken};
ghost use Rattle.tds_relay.specs.TokenParsers.{AllStand};

use super::Relay;
use crate::NoMemory;
use crate::pool::{Heard, What};

impl Relay {
    /// What came of a packet is done; a header that isn't one loses its connection.
    pub(super) fn heard(&mut self, number: u64, heard: Option<Heard>) -> Result<(), NoMemory>
        ensures goes { OnOk result ((other : ℕ) → LedTo (Connection other)
            (pool_in self.old.pool) (pool_in self.new.pool)) }
        ensures kept { OnOk result (queues_in self.new.applications
            ≡ queues_in self.old.applications) }
        ensures moves { OnOk result (Moved (Connection number) (core_of_ends
            (pool_in self.old.pool) (told_by heard (ends_in self.old.applications)))
            (core_in self.new)) }
        ensures read { OnOk result (LinksStay self.old.links.items self.new.links.items) }
        ensures gone { IsNone heard → OnOk result (reader_at number self.new.links.items ≡ None) }
        ensures stand { OnOk result (AllStand self.old.pool.service
            self.new.pool.service) }
        ensures bodies { IsReached (pool_in self.old.pool)
            → OnOk result (AllAlong self.old self.new) }
        ensures told { OnOk result (AskAsTold (acknowledged_in heard) heard
            (ends_in self.old.applications) (asking_in self.old.applications)
            (asking_in self.new.applications)) }
        ensures ordered { OnOk result (StayOrdered self.old.orders.items self.new.orders.items) }
        ensures wakes { OnOk result ((key : ℕ) → HandsTo heard key (ends_in self.old.applications)
            → IsWoken key self.new.applications self.new.orders.items) }
        ensures others { OnOk result (RestsElse heard number self.old.links.items
            self.new.links.items) }
        ensures begins { OnOk result (BeginAnyIf (acknowledged_in heard)
            self.old.links.items self.new.links.items) }
        ensures spares { IsReached (pool_in self.old.pool) → OnOk result (SparesOthers number
            (heard_key heard) (core_in self.old) (core_in self.new)) }
        ensures closes { OnOk result (ClosesOnly (LosesAt number heard self.old)
            (register_in self.old) (register_in self.new)) }
        ensures seated { IsSeatedBehind heard number self.old
            → OnOk result (IsSeated self.new) }
        ensures opening { opens_in self.new.orders.items ≡ opens_in self.old.orders.items }
        ensures counts { OnOk result (CountsHeard number heard self.old self.new) }
        ensures sent { heard_key heard ≡ None → OnOk result (FillsBy self.old.outbox.items
            (waits_on number self.old.links.items) (waits_on number self.new.links.items)) }
        ensures apart { OnOk result (OffGo number (heard_key heard) self.old self.new) }
        ensures keeps { IsReached (pool_in self.old.pool)
            → OnOk result (KeepsHeard number heard self.old self.new) }
    {
        match heard {
            Some(heard) => self.heard_packet(number, heard),
            None => self.lose(number),
        }
    }

    /// What came of a packet is done.
    #[tactic(auto, using(crate::proofs::steps::Staying::stays_both, crate::proofs::bytes::Calls::stand_back, crate::proofs::spared::Ordered::ordered_both, crate::proofs::seats::Relays::kept_seated, crate::proofs::spared::Coming::told_along, crate::proofs::steps::Answering::told_on, crate::proofs::steps::Answering::told_more, crate::proofs::steps::Answering::told_same))]
    fn heard_packet(&mut self, number: u64, heard: Heard) -> Result<(), NoMemory>
        ensures goes { OnOk result ((other : ℕ) → LedTo (Connection other)
            (pool_in self.old.pool) (pool_in self.new.pool)) }
        ensures kept { OnOk result (queues_in self.new.applications
            ≡ queues_in self.old.applications) }
        ensures moves { OnOk result (Moved (Connection number) (core_of_ends
            (pool_in self.old.pool) (told_by (Some heard) (ends_in self.old.applications)))
            (core_in self.new)) }
        ensures read { OnOk result (LinksStay self.old.links.items self.new.links.items) }
        ensures stand { OnOk result (AllStand self.old.pool.service
            self.new.pool.service) }
        ensures bodies { IsReached (pool_in self.old.pool)
            → OnOk result (AllAlong self.old self.new) }
        ensures told { OnOk result (AskAsTold (acknowledged_in (Some heard)) (Some heard)
            (ends_in self.old.applications) (asking_in self.old.applications)
            (asking_in self.new.applications)) }
        ensures ordered { OnOk result (StayOrdered self.old.orders.items self.new.orders.items) }
        ensures wakes { OnOk result ((key : ℕ)
            → HandsTo (Some heard) key (ends_in self.old.applications)
            → IsWoken key self.new.applications self.new.orders.items) }
        ensures others { OnOk result (RestsElse (Some heard) number self.old.links.items
            self.new.links.items) }
        ensures begins { OnOk result (BeginAnyIf (acknowledged_in (Some heard))
            self.old.links.items self.new.links.items) }
        ensures spares { IsReached (pool_in self.old.pool) → OnOk result (SparesOthers number
            (heard_key (Some heard)) (core_in self.old) (core_in self.new)) }
        ensures closes { OnOk result (ClosesOnly (LosesAt number (Some heard) self.old)
            (register_in self.old) (register_in self.new)) }
        ensures seated { IsSeatedBehind (Some heard) number self.old
            → OnOk result (IsSeated self.new) }
        ensures opening { opens_in self.new.orders.items ≡ opens_in self.old.orders.items }
        ensures counts { OnOk result (CountsHeard number (Some heard) self.old self.new) }
        ensures sent { heard.key ≡ None → OnOk result (FillsBy self.old.outbox.items
            (waits_on number self.old.links.items) (waits_on number self.new.links.items)) }
        ensures apart { OnOk result (OffGo number (heard_key (Some heard)) self.old self.new) }
        ensures keeps { IsReached (pool_in self.old.pool)
            → OnOk result (KeepsHeard number (Some heard) self.old self.new) }
    {
        let resumes = self.tell(heard)?;
        self.send_on(number)?;
        match (heard.what, heard.key) {
            (What::Goes, Some(key)) => self.order_write(key),
            (What::Goes, None) => Ok(()),
            (What::Finished, Some(key)) => self.order_write(key),
            (What::Finished, None) => Ok(()),
            (What::Acknowledged, Some(key)) => {
                if resumes {
                    self.resume(number, key)
                } else {
                    self.order_write(key)
                }
            }
            (What::Acknowledged, None) => Ok(()),
            (What::Closed, Some(_)) => self.close_link(number),
            (What::Closed, None) => {
                self.failed = self.failed.saturating_add(1);
                self.close_link(number)
            }
        }
    }
}
