//! A play with the calls that it made.
ghost use Rattle.std.specs.Prelude.{◌≡◌, ◌≢◌, length, None, Some, Err, IfErr, IfOk, OnOk};
ghost use Rattle.tds_trace.specs.Calls.{AreCallsOf};
ghost use Rattle.tds_trace.specs.Turns.{AreCallsOfPlay};
ghost use Rattle.tds_play.specs.Refused.{first_refusal};
ghost use Rattle.tds_play.specs.declared.refusal.PlayRefusal.{PlayRefusal};
ghost use Rattle.tds_play.specs.declared.refusal.PlayRefusal.TheVariants.{Memory, NotCleaned};
ghost use Rattle.tds_session.specs.Answer.{script_answers};
ghost use Rattle.tds_world.specs.Events.{world_after};
ghost use Rattle.tds_world.specs.Losses.{marked};
ghost use Rattle.tds_world.specs.Observed.{observed};
ghost use Rattle.tds_world.specs.World.{new_world};

use crate::call::Call;
use crate::laws::record_of_a_play;
use crate::recording::RecordingCarrier;
use std::alloc::Global;
use tds_play::laws::{memory_is_faithful, memory_never_fails};
use tds_play::{Event, MemoryCarrier, PlayRefusal, Report, Setup, play};

/// What is told of a play, and the calls that it made at its carrier, in order.
#[derive(Drop)]
pub struct Trace {
    pub report: Report,
    pub calls: Vec<Call>,
}

/// Plays a schedule over memory, as [`play`] does, and keeps its calls.
pub fn play_traced(alloc: Global, setup: &Setup, events: &[Event]) -> Result<Trace, PlayRefusal>
    // Which schedules are played, and why others aren't.
    ensures refused { (why : PlayRefusal) → first_refusal setup.now (length events.now) ≡ Some why
        → result ≡ Err why }
    ensures played { OnOk result (first_refusal setup.now (length events.now) ≡ None) }
    ensures named { IfErr result (λ why. why ≢ Memory → why ≢ NotCleaned
        → first_refusal setup.now (length events.now) ≡ Some why) }
    ensures stopped { result ≡ Err NotCleaned
        → first_refusal setup.now (length events.now) ≡ None }
    // The report is the model's.
    ensures report { IfOk result (λ trace.
        trace.report ≡ observed setup.now script_answers events.now) }
    // What the calls handed over on each connection, each way, is what was sent there in the model, and
    // what they brought is what came there.
    ensures calls { IfOk result (λ trace. AreCallsOf
        (world_after setup.now script_answers events.now new_world) trace.calls.items) }
    // They are the calls of each event, one event behind the other, each with its event's number: such
    // as a carrier may be asked in it, in that order, and they do there what the event does in the model.
    ensures turns { IfOk result (λ trace. ∥ AreCallsOfPlay setup.now script_answers
        (marked events.now trace.report.events) trace.calls.items ∥₁) }
{
    memory_never_fails();
    memory_is_faithful();
    record_of_a_play();
    let mut carrier = RecordingCarrier::new(alloc, MemoryCarrier::new(alloc));
    let report = play(alloc, setup, events, &mut carrier)?;
    let calls = carrier.into_calls()?;
    Ok(Trace { report, calls })
}
