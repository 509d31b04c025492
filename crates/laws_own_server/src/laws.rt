//! The bench's server is one of those that `laws_conforming_server` speaks of. Each function does nothing
//! when it runs: its contract is the law.

ghost use Rattle.tds_session.specs.declared.attention.OnAttention.{OnAttention};
ghost use Rattle.tds_session.specs.Answer.{Answers, script_answers};
ghost use Rattle.tds_world.specs.Begins.{HandsOutNext};
ghost use Rattle.tds_world.specs.Dones.{HaveDones};
ghost use Rattle.std.specs.Prelude.{◌++◌, List};
ghost use Rattle.tds_world.specs.declared.event.Event.{Event};
ghost use Rattle.tds_world.specs.declared.event.Setup.{Setup};
ghost use Rattle.tds_world.specs.Events.{world_after};
ghost use Rattle.tds_world.specs.World.{new_world};
ghost use Rattle.tds_world.specs.Lawful.{Lawful};
ghost use Rattle.tds_world.specs.Laws.{Always};
ghost use Rattle.tds_world.specs.Sessions.{StayInRange};
ghost use Rattle.laws_conforming_server.specs.Lawful.{IsLawful};
ghost use Rattle.laws_conforming_server.specs.Alone.{ResetsFirst};
ghost use Rattle.laws_own_server.specs.Bench.{Log, bench};
ghost use Rattle.laws_own_server.specs.Runs.{AreRuns, GoOn};

use tds_session::ScriptEngine;
use tds_world::laws::{
    engine_has_dones, engine_stays_in_range, requests_are_spelled, script_hands_out_next,
    script_is_lawful,
};

/// Whatever was asked, what the bench's server says keeps the rules; and what it says behind a
/// reset is what it says without one in the session that the reset leaves.
pub fn bench_is_lawful()
    ensures lawful { (attention : OnAttention) (answers : Answers) (log : Log)
        → Lawful answers → HaveDones answers → HandsOutNext answers
        → IsLawful (bench attention answers log) }
    ensures resets { (attention : OnAttention) (answers : Answers) (log : Log)
        → Lawful answers → ResetsFirst (bench attention answers log) }
{}

/// Each connection of a play is a run of that server, whatever the events: in it just that went out
/// and came that went out and came on the connection, and the server has the same session and the
/// same to say.
pub fn plays_are_runs()
    ensures each { (setup : Setup) (answers : Answers) → Lawful answers → StayInRange answers
        → Always setup answers (AreRuns answers) }
    // At every moment: a run of one goes on at each later one, and its server is the same.
    ensures go_on { (setup : Setup) (answers : Answers) → Lawful answers → StayInRange answers
        → (events more : List Event)
        → GoOn answers (world_after setup answers events new_world)
        (world_after setup answers (events ++ more) new_world) }
{
    requests_are_spelled();
}

/// With the batch language nothing is supposed: its server keeps the rules, answers behind a
/// reset as without one, and each connection of a play is a run of it.
pub fn script_runs()
    ensures lawful { (attention : OnAttention) (log : Log)
        → IsLawful (bench attention script_answers log) }
    ensures resets { (attention : OnAttention) (log : Log)
        → ResetsFirst (bench attention script_answers log) }
    ensures plays { (setup : Setup) → Always setup script_answers (AreRuns script_answers) }
    ensures go_on { (setup : Setup) (events more : List Event)
        → GoOn script_answers (world_after setup script_answers events new_world)
        (world_after setup script_answers (events ++ more) new_world) }
{
    bench_is_lawful();
    plays_are_runs();
    script_is_lawful();
    script_hands_out_next();
    engine_has_dones(&ScriptEngine);
    engine_stays_in_range(&ScriptEngine);
}
