//! The pool and the model: the connection that the next lease gets. The carrier in memory: it never
//! fails, and what comes is what was handed over. The functions do nothing when they run: their contracts are the laws.
ghost use Rattle.std.specs.Prelude.{map};
ghost use Rattle.tds_play.specs.Failures.{FailNowhere};
ghost use Rattle.tds_play.specs.Lending.{RefinesFound, lent};
ghost use Rattle.tds_play.specs.Pipe.{AreFaithful};
ghost use Rattle.tds_play.specs.declared.memory.MemoryCarrier.{MemoryCarrier};
ghost use Rattle.tds_world.specs.Pool.{to_lend};
ghost use Rattle.tds_world.specs.World.{World};
ghost use Rattle.tds_world.specs.declared.event.Setup.{Setup};

use crate::carrier::Carrier;
use crate::memory::MemoryCarrier;

/// The next lease gets the same connection as in the model: the free one with the lowest number, or
/// else a new one, or none, by where each connection stands.
pub fn lends_alike()
    ensures { (setup : Setup) (w : World)
        → RefinesFound w (lent (map (λ c. c.standing) w.connections) setup.max) (to_lend setup w) }
{}

/// No call of a carrier in memory has failed on any connection, whatever it was asked.
pub fn memory_never_fails()
    ensures { (carrier : MemoryCarrier) → FailNowhere (⟦<MemoryCarrier as Carrier>⟧.pipes carrier) }
{}

/// What came of a carrier in memory, on each connection and each way, is the first of what was handed
/// over there, whatever it was asked.
pub fn memory_is_faithful()
    ensures { (carrier : MemoryCarrier)
        → AreFaithful (⟦<MemoryCarrier as Carrier>⟧.pipes carrier) }
{}
