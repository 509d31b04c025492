//! What a play begins with, or why nothing is played.
ghost use Rattle.std.specs.Prelude.{◌≡◌, ◌≢◌, ◌≤◌, [], None, Some, IfErr, IfOk, OnOk};
ghost use Rattle.tds_play.specs.Refused.{first_refusal};
ghost use Rattle.tds_play.specs.declared.refusal.PlayRefusal.TheVariants.{NotCleaned};
ghost use Rattle.tds_pool.specs.Connections.{connections};
ghost use Rattle.tds_world.specs.Bounds.{IsSetup};

use crate::refusal::PlayRefusal;
use std::alloc::Global;
use tds_packet::PacketSize;
use tds_pool::Pool;
use tds_world::Setup;

/// How many events a schedule may have.
const EVENT_LIMIT: usize = 10_000;

/// The pool, and the size of the packets, where so many events are played with this setup.
#[tactic(auto, unfolding(crate::specs::Refused::first_refusal))]
pub(crate) fn pool_of(
    alloc: Global,
    setup: &Setup,
    events: usize,
) -> Result<(Pool, PacketSize), PlayRefusal>
    ensures ok { OnOk result (first_refusal setup.now events ≡ None) }
    ensures few { OnOk result (events ≤ 10000) }
    ensures setup { OnOk result (IsSetup setup.now) }
    ensures none { IfOk result (λ it. (connections it.0 ≡ []) × (it.0.last ≡ 0)) }
    ensures pool { IfOk result (λ it. (it.0.max ≡ setup.now.max) × (it.0.size ≡ it.1)) }
    ensures size { IfOk result (λ it. it.1 ≡ setup.now.packet_size) }
    ensures refused { IfErr result (λ why. first_refusal setup.now events ≡ Some why) }
    ensures early { IfErr result (λ why. why ≢ NotCleaned) }
{
    if events > EVENT_LIMIT {
        return Err(PlayRefusal::TooManyEvents);
    }
    if let Some(size) = PacketSize::new(setup.packet_size) {
        if let Some(pool) = Pool::new(alloc, setup.max, size) {
            return Ok((pool, size));
        }
    }
    Err(PlayRefusal::WrongSetup)
}
