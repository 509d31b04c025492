//! A carrier of one's own, and a play over it: what `play` says of any carrier is said of this one.
#![tactic(auto)]

mod trickle;

ghost use Rattle.std.specs.Prelude.{IfOk};
ghost use Rattle.tds_session.specs.Answer.{script_answers};
ghost use Rattle.tds_world.specs.Reports.{ShowsOwnAnswers};

use anyhow::bail;
use std::alloc::Global;
use tds_play::laws::memory_is_faithful;
use tds_play::{Event, PlayRefusal, Report, Setup, play, read_schedule, render};
use trickle::Trickle;

/// One request, from its start to the end of its answer.
const SCHEDULE: &str = r#"{"version": 1, "packet_size": 512, "max": 1, "events": [["lease"],
["begin", 1, 0], ["send", 1], ["to_server", 1, 34], ["work", 1], ["to_client", 1, 35]]}"#;

fn main(rt: HostRuntime) -> anyhow::Result<()> {
    let alloc = rt.alloc();
    let Ok((setup, events)) = read_schedule(alloc, SCHEDULE.as_bytes()) else {
        bail!("no schedule");
    };
    let mut carrier = Trickle::new(alloc);
    let Ok(report) = played(alloc, &setup, events.as_slice(), &mut carrier) else {
        bail!("not played");
    };
    if render(alloc, &report, &mut rt.stdout()).is_err() {
        bail!("not printed");
    }
    println!(rt; "{} bytes came, one a call", carrier.bytes())?;
    Ok(())
}

/// Plays over it. What came in the end is the first of what was handed over, since it lies in
/// memory: so each caller was given its own answer.
fn played(
    alloc: Global,
    setup: &Setup,
    events: &[Event],
    carrier: &mut Trickle,
) -> Result<Report, PlayRefusal>
    ensures { IfOk result (ShowsOwnAnswers script_answers events.now) }
{
    memory_is_faithful();
    play(alloc, setup, events, carrier)
}
