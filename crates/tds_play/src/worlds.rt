//! What holds in every world of the model, with an engine's answers.
ghost use Rattle.std.specs.Prelude.{◌≤◌, ◌<◌, List, length};
ghost use Rattle.std.specs.List.{AllByRecursion};
ghost use Rattle.tds_play.specs.Player.{ModelGivesEach};
ghost use Rattle.tds_ends.specs.ModelGives.{ModelGives};
ghost use Rattle.tds_session.specs.Answer.{answer_of};
ghost use Rattle.tds_world.specs.Bounds.{IsEvent, IsSetup};
ghost use Rattle.tds_world.specs.Events.{world_after};
ghost use Rattle.tds_world.specs.Laws.{OfEachConnection};
ghost use Rattle.tds_world.specs.Order.{RequestsInOrder};
ghost use Rattle.tds_world.specs.World.{new_world};
ghost use Rattle.tds_world.specs.declared.event.Event.{Event};
ghost use Rattle.tds_world.specs.declared.event.Setup.{Setup};

use tds_ends::laws::{all_heard, arrivals_hold};
use tds_session::Engine;
use tds_world::laws::{
    act_on_newest, answers_end_once, delivers_exactly, engine_is_lawful, engine_stays_in_range,
    few_of_each, few_to_clients, idle_is_quiet, lends_idle, requests_in_order, work_on_newest,
};

/// What the model promises of each connection of every world, of every world before an event, and
/// of the order of the requests. A play of 10,000 events, each of which may be lost, stands for up
/// to 20,000 plain ones.
pub(crate) fn worlds_hold<E: Engine>(engine: &E)
    ensures each { (setup : Setup) (events : List Event) → IsSetup setup
        → AllByRecursion IsEvent events → length events ≤ 20000
        → OfEachConnection (ModelGives E
        (answer_of (E.statements_of engine.now) (E.step_of engine.now)) setup.packet_size)
        (world_after setup (answer_of (E.statements_of engine.now) (E.step_of engine.now))
        events new_world) }
    ensures before { (setup : Setup) (events : List Event) → IsSetup setup
        → AllByRecursion IsEvent events → length events < 20000
        → ModelGivesEach E (answer_of (E.statements_of engine.now) (E.step_of engine.now)) setup
        (world_after setup (answer_of (E.statements_of engine.now) (E.step_of engine.now))
        events new_world) }
    ensures order { (setup : Setup) (events : List Event)
        → RequestsInOrder (world_after setup
        (answer_of (E.statements_of engine.now) (E.step_of engine.now)) events new_world) }
{
    engine_is_lawful(engine);
    engine_stays_in_range(engine);
    arrivals_hold(engine);
    all_heard(engine);
    delivers_exactly();
    answers_end_once();
    idle_is_quiet();
    work_on_newest();
    act_on_newest();
    few_to_clients();
    lends_idle();
    few_of_each();
    requests_in_order();
}
