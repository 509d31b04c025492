//! Applications of which nothing more is taken.
ghost use Rattle.std.specs.Prelude.{◌≡◌, None, OnOk, false};
ghost use Rattle.tds_relay.specs.Bodies.{AskOn};
ghost use Rattle.tds_relay.specs.Cleaning.{CleaningsWaitAt, LetsGoAt, OfItsHold, WaitsAtEnd};
ghost use Rattle.tds_relay.specs.Lent.{KeepsAnswers, OthersKeepAt};
ghost use Rattle.tds_relay.specs.Few.{IsSeated};
ghost use Rattle.tds_relay.specs.Fronts.{Moved, ends_in, core_in, core_of_ends};
ghost use Rattle.tds_relay.specs.Core.{change_end, closes, closes_for, end_at, is_in};
ghost use Rattle.tds_relay.specs.Closings.{ClosesOnly, Itself, register_in};
ghost use Rattle.tds_relay.specs.Queues.{queues_in};
ghost use Rattle.tds_relay.specs.Ordering.{opens_in};
ghost use Rattle.tds_relay.specs.Reads.{LinksStay, waits_on};
ghost use Rattle.tds_relay.specs.Sparing.{OthersRest};
ghost use Rattle.tds_relay.specs.Taking.{IsDeaf};
ghost use Rattle.tds_relay.specs.Ties.{Application, LedTo, IsReached, pool_in};
ghost use Rattle.tds_relay.specs.TokenParsers.{AllStand};

use super::Relay;
use crate::NoMemory;
use tds_front::FrontFault;

impl Relay {
    /// Nothing more of an application is taken, and it is to be closed. Its connection is given back.
    pub(super) fn expel(&mut self, key: usize) -> Result<(), NoMemory>
        ensures goes { OnOk result (LedTo (Application key)
            (pool_in self.old.pool) (pool_in self.new.pool)) }
        ensures kept { OnOk result (queues_in self.new.applications
            ≡ queues_in self.old.applications) }
        ensures moves { OnOk result (Moved (Application key) (core_of_ends (pool_in self.old.pool)
            (change_end key closes (ends_in self.old.applications))) (core_in self.new)) }
        ensures over { OnOk result (IsDeaf (end_at (ends_in self.new.applications) key)) }
        ensures away { OnOk result (is_in key (pool_in self.new.pool).line ≡ false) }
        ensures read { OnOk result (LinksStay self.old.links.items self.new.links.items) }
        ensures stand { OnOk result (AllStand self.old.pool.service
            self.new.pool.service) }
        ensures asks { OnOk result (AskOn self.old.applications self.new.applications) }
        ensures others { IsReached (pool_in self.old.pool)
            → OnOk result (OthersRest key self.old self.new) }
        ensures closes { OnOk result (ClosesOnly (Itself key)
            (register_in self.old) (register_in self.new)) }
        ensures seated { IsSeated self.old → OnOk result (IsSeated self.new) }
        ensures opening { opens_in self.new.orders.items ≡ opens_in self.old.orders.items }
        ensures aside { IsReached (pool_in self.old.pool)
            → OnOk result (OthersKeepAt key self.old self.new) }
        ensures answers { OnOk result (KeepsAnswers self.old.links.items self.new.links.items) }
        ensures awaits { OnOk result (CleaningsWaitAt self.old self.new) }
        ensures lets { IsReached (pool_in self.old.pool)
            → OnOk result (LetsGoAt key self.old self.new) }
        ensures ends { IsReached (pool_in self.old.pool) → OnOk result (OfItsHold WaitsAtEnd key
            self.old (λ number. waits_on number self.new.links.items)) }
    {
        self.expel_for(key, None)
    }

    /// The same of one that did what the protocol doesn't allow, or of any other.
    #[tactic(auto, using(crate::proofs::steps::Reaching::reaches_left))]
    pub(super) fn expel_for(&mut self, key: usize, why: Option<FrontFault>) -> Result<(), NoMemory>
        ensures goes { OnOk result (LedTo (Application key)
            (pool_in self.old.pool) (pool_in self.new.pool)) }
        ensures kept { OnOk result (queues_in self.new.applications
            ≡ queues_in self.old.applications) }
        ensures moves { OnOk result (Moved (Application key) (core_of_ends (pool_in self.old.pool)
            (change_end key (closes_for why) (ends_in self.old.applications)))
            (core_in self.new)) }
        ensures over { OnOk result (IsDeaf (end_at (ends_in self.new.applications) key)) }
        ensures away { OnOk result (is_in key (pool_in self.new.pool).line ≡ false) }
        ensures read { OnOk result (LinksStay self.old.links.items self.new.links.items) }
        ensures stand { OnOk result (AllStand self.old.pool.service
            self.new.pool.service) }
        ensures asks { OnOk result (AskOn self.old.applications self.new.applications) }
        ensures others { IsReached (pool_in self.old.pool)
            → OnOk result (OthersRest key self.old self.new) }
        ensures closes { OnOk result (ClosesOnly (Itself key)
            (register_in self.old) (register_in self.new)) }
        ensures seated { IsSeated self.old → OnOk result (IsSeated self.new) }
        ensures opening { opens_in self.new.orders.items ≡ opens_in self.old.orders.items }
        ensures aside { IsReached (pool_in self.old.pool)
            → OnOk result (OthersKeepAt key self.old self.new) }
        ensures answers { OnOk result (KeepsAnswers self.old.links.items self.new.links.items) }
        ensures awaits { OnOk result (CleaningsWaitAt self.old self.new) }
        ensures lets { IsReached (pool_in self.old.pool)
            → OnOk result (LetsGoAt key self.old self.new) }
        ensures ends { IsReached (pool_in self.old.pool) → OnOk result (OfItsHold WaitsAtEnd key
            self.old (λ number. waits_on number self.new.links.items)) }
    {
        self.end_for(key, why)?;
        self.release(key)
    }
}
