//! A whole play.
ghost use Rattle.std.specs.List.{AllByRecursion};
ghost use Rattle.std.specs.Prelude.{ℕ, ◌≡◌, ◌≢◌, ◌≤◌, ◌⊎◌, List, [], ◌++◌, length, None, Some, Err, IfErr, IfOk, OnOk};
ghost use Rattle.tds_play.specs.AnyBytes.{ReadsBytes};
ghost use Rattle.tds_play.specs.Calls.{MakesCalls, MarksFailures};
ghost use Rattle.tds_play.specs.Failures.{FailNowhere, TellFailures};
ghost use Rattle.tds_play.specs.Player.{AreHeld, RepresentsWorld, all_of};
ghost use Rattle.tds_play.specs.Pipe.{AreFaithful};
ghost use Rattle.tds_play.specs.Reads.{TellsGiven};
ghost use Rattle.tds_play.specs.Refused.{first_refusal};
ghost use Rattle.tds_play.specs.WholePlay.{CarriesBytesOf, CutsThoseOf, HandsBytesOf, IsReportOfPlay, IsWholePlayOf, world_of};
ghost use Rattle.tds_play.specs.Steps.{AreFew, StandsThen};
ghost use Rattle.tds_play.specs.Stopping.{AllStop};
ghost use Rattle.tds_play.specs.declared.refusal.PlayRefusal.TheVariants.{Memory, NotCleaned};
ghost use Rattle.tds_play.specs.declared.refusal.PlayRefusal.{PlayRefusal};
ghost use Rattle.tds_session.specs.Answer.{answer_of, script_answers};
ghost use Rattle.tds_world.specs.limits.Descriptors.{UseFewDescriptors};
ghost use Rattle.tds_world.specs.left_clean.LeftClean.{AnswersClean};
ghost use Rattle.tds_world.specs.left_clean.LeftCleanShown.{ShowsLeftClean};
ghost use Rattle.tds_world.specs.Losses.{marked, world_with};
ghost use Rattle.tds_world.specs.alone.Alone.{AsIfAlone, BlindToNumbers};
ghost use Rattle.tds_world.specs.alone.AloneShown.{ShowsAsIfAlone, far_in};
ghost use Rattle.tds_world.specs.Bounds.{BeginsOnce, IsEvent, IsSetup, OneAttention};
ghost use Rattle.tds_world.specs.rest.Rest.{IsNoCleaning, NeverStuck};
ghost use Rattle.tds_world.specs.rest.RestShown.{ShowsNeverStuckWith};
ghost use Rattle.tds_world.specs.Reports.{ShowsFewUnderway, ShowsFreshStart, ShowsIdleQuiet, ShowsKeptTransaction, ShowsLendsIdle, ShowsOwnAnswers, ShowsOwnTransaction};
ghost use Rattle.tds_world.specs.WithLosses.{GivesNoMoreWith, IsReportWith, MarksNothing, ShowsNoEndFaults};
ghost use Rattle.tds_world.specs.World.{new_world};
ghost use Rattle.tds_world.specs.declared.event.Event.{Event};
ghost use Rattle.tds_world.specs.declared.event.Setup.{Setup};
ghost use Rattle.tds_world.specs.declared.report.RequestReport.{RequestReport};

use crate::carrier::EventCarrier;
use crate::player::Player;
use crate::pool::next_number;
use crate::refusal::{PlayRefusal, Stop};
use crate::starting::pool_of;
use crate::worlds::worlds_hold;
use std::alloc::Global;
use tds_request::Request;
use tds_session::{Engine, ScriptEngine};
use tds_world::laws::{
    engine_is_lawful, script_answers_clean, script_hands_out_next, script_is_blind,
    script_is_lawful, script_uses_few,
};
use tds_world::losses::{
    all_can_cancel, as_if_alone, begins_once, marks_of_a_report, never_stuck, one_attention,
};
use tds_world::report::losses::of_marked_report;
use tds_world::{Event, EventReport, Report, Sequence, Setup};

/// Plays a schedule from nothing: both ends of each connection, over bytes that the carrier brings.
/// The servers know the batch language.
///
/// It takes at most 10,000 events, packets of 512 to 32,767 bytes, and 1 to 64 connections at a
/// time. It answers what each event came to, with what is seen of the connections after it, and
/// what came of each request in the end. An event that doesn't apply is told as refused, and the
/// play goes on. Where the carrier fails in an event, the event is marked lost: its connection is
/// cut, and the report is that of the schedule with a cut there. A carrier that is told of events is
/// told where each one begins, by its place in the schedule, from 1.
///
/// Where it is refused for its events or its setup, the carrier is as it was. Where memory was
/// refused, or a cleaning failed, the carrier may have been used, and nothing is said of it. A carrier
/// that was used serves another play: opening a number forgets what there was of it.
pub fn play<C: EventCarrier>(
    alloc: Global,
    setup: &Setup,
    events: &[Event],
    carrier: &mut C,
) -> Result<Report, PlayRefusal>
    // Why nothing is played.
    ensures refused { (why : PlayRefusal) → first_refusal setup.now (length events.now) ≡ Some why
        → result ≡ Err why }
    ensures unused { (why : PlayRefusal) → first_refusal setup.now (length events.now) ≡ Some why
        → carrier.new ≡ carrier.old }
    ensures played { OnOk result (first_refusal setup.now (length events.now) ≡ None) }
    ensures named { IfErr result (λ why. why ≢ Memory → why ≢ NotCleaned
        → first_refusal setup.now (length events.now) ≡ Some why) }
    ensures stopped { result ≡ Err NotCleaned
        → first_refusal setup.now (length events.now) ≡ None }
    // Whatever bytes the carrier brings: a delivery answers a fault of the packet reader only where
    // the bytes that came by then have it, and some fault where they have one; and the callers are
    // given some of the tokens that come.
    ensures reads { IfOk result (λ report. ReadsBytes setup.now.packet_size events.now report
        (C.pipes carrier.new)) }
    // From here on: where what came in the end, on each connection and each way, is the first of what
    // was handed over. Then the report is the model's of the events with the losses that it marks,
    // and so are the bytes that were handed over, the bytes that came, and what is cut.
    ensures report { AreFaithful (C.pipes carrier.new)
        → IfOk result (IsReportWith setup.now script_answers events.now) }
    ensures bytes { AreFaithful (C.pipes carrier.new) → IfOk result (λ report.
        HandsBytesOf (world_of setup.now events.now report.events) (C.pipes carrier.new)) }
    ensures carried { AreFaithful (C.pipes carrier.new) → IfOk result (λ report.
        CarriesBytesOf (world_of setup.now events.now report.events) (C.pipes carrier.new)) }
    ensures cuts { AreFaithful (C.pipes carrier.new) → IfOk result (λ report.
        CutsThoseOf (world_of setup.now events.now report.events) (C.pipes carrier.new)) }
    // Where no event is lost both are the model's of the events as they are.
    ensures whole { AreFaithful (C.pipes carrier.new) → IfOk result (λ report. MarksNothing report
        → IsWholePlayOf setup.now script_answers events.now report) }
    // What each event hands over, lets come and cuts before the next one begins is what it does in the
    // model, and a carrier that is told of events was told of each, in order; calls fail in those that
    // are marked lost, on the connection that each uses, and in no other.
    ensures calls { AreFaithful (C.pipes carrier.new) → IfOk result (λ report. MakesCalls
        C.is_told setup.now script_answers (marked events.now report.events) (C.began carrier.old)
        (C.began carrier.new) (C.pipes carrier.new)) }
    // So exactly the events in which calls failed are marked lost, event by event; and the calls that
    // failed on a connection, over the whole run, are of the kinds that its one lost event makes. Where
    // no call failed, none is marked.
    ensures lost { AreFaithful (C.pipes carrier.new) → IfOk result (λ report. MarksFailures
        C.is_told setup.now script_answers (marked events.now report.events) (C.began carrier.old)
        (C.began carrier.new) (C.pipes carrier.new)) }
    ensures unfailing { AreFaithful (C.pipes carrier.new) → FailNowhere (C.pipes carrier.new)
        → IfOk result MarksNothing }
    // Each caller gets a beginning of the answer to its own request, all of it where finished, run in
    // the transaction that it was in; and nothing more of one that stands as cancelled.
    ensures own_answers { AreFaithful (C.pipes carrier.new)
        → IfOk result (ShowsOwnAnswers script_answers events.now) }
    ensures own_transaction { AreFaithful (C.pipes carrier.new)
        → IfOk result (ShowsOwnTransaction events.now) }
    ensures after_cancel { (front later : List Event) → events.now ≡ front ++ later
        → AreFaithful (C.pipes carrier.new)
        → IfOk result (GivesNoMoreWith setup.now script_answers front) }
    // What one lease did doesn't show in the next, but for the transaction that a ticket keeps.
    ensures fresh_start { AreFaithful (C.pipes carrier.new) → IfOk result ShowsFreshStart }
    ensures kept_transaction { AreFaithful (C.pipes carrier.new)
        → IfOk result (ShowsKeptTransaction events.now) }
    ensures lends_idle { AreFaithful (C.pipes carrier.new) → IfOk result ShowsLendsIdle }
    // What is cleaned is lent fresh: no transaction and no setting is left on its server.
    ensures left_clean { AreFaithful (C.pipes carrier.new)
        → IfOk result (ShowsLeftClean events.now) }
    // Where nobody waits nothing is underway, and at no time much is. No outcome is an end's
    // fault.
    ensures idle_is_quiet { AreFaithful (C.pipes carrier.new) → IfOk result ShowsIdleQuiet }
    ensures few_underway { AreFaithful (C.pipes carrier.new) → IfOk result ShowsFewUnderway }
    ensures no_fault { AreFaithful (C.pipes carrier.new) → IfOk result ShowsNoEndFaults }
    // Facts of the model's world of that play, whose bytes were handed over: at most one attention
    // of a connection is without an acknowledgement that came, and no transaction of a connection
    // begins twice.
    ensures one_attention { AreFaithful (C.pipes carrier.new) → IfOk result (λ report.
        OneAttention (world_of setup.now events.now report.events)) }
    ensures begins_once { AreFaithful (C.pipes carrier.new) → IfOk result (λ report.
        BeginsOnce (world_of setup.now events.now report.events)) }
    // In that world no connection that isn't cut is stuck, and no lease can tell that it shares: so
    // the report shows it too, whatever is lost.
    ensures never_stuck { AreFaithful (C.pipes carrier.new) → IfOk result (λ report.
        NeverStuck setup.now script_answers (world_of setup.now events.now report.events)) }
    ensures as_if_alone { AreFaithful (C.pipes carrier.new) → IfOk result (λ report.
        AsIfAlone setup.now.on_attention script_answers
        (world_of setup.now events.now report.events)) }
    ensures told_alone { AreFaithful (C.pipes carrier.new) → IfOk result (λ report.
        ShowsAsIfAlone setup.now.on_attention script_answers
        (far_in (world_of setup.now events.now report.events)) events.now report) }
    // Where no event cleans, each connection that isn't cut comes to rest by a cancel too, and none
    // that is shown is being cleaned.
    ensures all_stop { AreFaithful (C.pipes carrier.new) → AllByRecursion IsNoCleaning events.now
        → IfOk result (λ report. AllStop setup.now script_answers
        (world_of setup.now events.now report.events) report) }
    // With the events after it that bring a connection to rest, the report shows it at rest.
    ensures comes_to_rest { AreFaithful (C.pipes carrier.new)
        → IfOk result (ShowsNeverStuckWith setup.now script_answers events.now) }
{
    // The laws of the model, whose report it is.
    script_is_lawful();
    script_hands_out_next();
    script_is_blind();
    script_uses_few();
    script_answers_clean();
    of_marked_report();
    marks_of_a_report();
    one_attention();
    begins_once();
    never_stuck();
    play_with(alloc, setup, events, ScriptEngine, carrier)
}

/// Plays a schedule from nothing, as [`play`] does, with servers of any engine.
pub fn play_with<E: Engine + Copy, C: EventCarrier>(
    alloc: Global,
    setup: &Setup,
    events: &[Event],
    engine: E,
    carrier: &mut C,
) -> Result<Report, PlayRefusal>
    ensures refused { (why : PlayRefusal) → first_refusal setup.now (length events.now) ≡ Some why
        → result ≡ Err why }
    ensures unused { (why : PlayRefusal) → first_refusal setup.now (length events.now) ≡ Some why
        → carrier.new ≡ carrier.old }
    ensures played { OnOk result (first_refusal setup.now (length events.now) ≡ None) }
    ensures named { IfErr result (λ why. why ≢ Memory → why ≢ NotCleaned
        → first_refusal setup.now (length events.now) ≡ Some why) }
    ensures stopped { result ≡ Err NotCleaned
        → first_refusal setup.now (length events.now) ≡ None }
    // Whatever bytes the carrier brings: a delivery answers a fault of the packet reader only where
    // the bytes that came by then have it, and some fault where they have one; and the callers are
    // given some of the tokens that come.
    ensures reads { IfOk result (λ report. ReadsBytes setup.now.packet_size events.now report
        (C.pipes carrier.new)) }
    // Where what came in the end is the first of what was handed over, the play is the model's with the
    // losses that its report marks: what is told, what was handed over, what came, and what is cut.
    ensures refines { AreFaithful (C.pipes carrier.new)
        → IfOk result (λ report. IsReportOfPlay setup.now
        (answer_of (E.statements_of engine) (E.step_of engine)) events.now report
        (C.pipes carrier.new)) }
    // Each event does at the carrier what it does in the model; one that is told of events was told of
    // each, in order.
    ensures calls { AreFaithful (C.pipes carrier.new) → IfOk result (λ report. MakesCalls
        C.is_told setup.now
        (answer_of (E.statements_of engine) (E.step_of engine)) (marked events.now report.events)
        (C.began carrier.old) (C.began carrier.new) (C.pipes carrier.new)) }
    // Exactly the events in which calls failed are marked lost. Where no call failed, none is marked.
    ensures lost { AreFaithful (C.pipes carrier.new) → IfOk result (λ report. MarksFailures
        C.is_told setup.now
        (answer_of (E.statements_of engine) (E.step_of engine)) (marked events.now report.events)
        (C.began carrier.old) (C.began carrier.new) (C.pipes carrier.new)) }
    ensures unfailing { AreFaithful (C.pipes carrier.new) → FailNowhere (C.pipes carrier.new)
        → IfOk result MarksNothing }
    // No lease can tell that it shares, where what the engine answers doesn't depend on the numbers
    // of transactions and uses few of them.
    ensures as_if_alone { AreFaithful (C.pipes carrier.new)
        → BlindToNumbers (answer_of (E.statements_of engine) (E.step_of engine))
        → UseFewDescriptors (answer_of (E.statements_of engine) (E.step_of engine))
        → IfOk result (λ report. AsIfAlone setup.now.on_attention
        (answer_of (E.statements_of engine) (E.step_of engine))
        (world_with setup.now (answer_of (E.statements_of engine) (E.step_of engine))
        (marked events.now report.events) new_world)) }
    ensures told_alone { AreFaithful (C.pipes carrier.new)
        → BlindToNumbers (answer_of (E.statements_of engine) (E.step_of engine))
        → UseFewDescriptors (answer_of (E.statements_of engine) (E.step_of engine))
        → IfOk result (λ report. ShowsAsIfAlone setup.now.on_attention
        (answer_of (E.statements_of engine) (E.step_of engine))
        (far_in (world_with setup.now (answer_of (E.statements_of engine) (E.step_of engine))
        (marked events.now report.events) new_world)) events.now report) }
    // Where no event cleans, each connection that isn't cut comes to rest by a cancel too, and none
    // that is shown is being cleaned.
    ensures all_stop { AreFaithful (C.pipes carrier.new) → AllByRecursion IsNoCleaning events.now
        → IfOk result (λ report. AllStop setup.now
        (answer_of (E.statements_of engine) (E.step_of engine))
        (world_with setup.now (answer_of (E.statements_of engine) (E.step_of engine))
        (marked events.now report.events) new_world) report) }
    // What is cleaned is lent fresh, where the engine's answer to a cleaning leaves a fresh session.
    ensures left_clean { AreFaithful (C.pipes carrier.new)
        → AnswersClean (answer_of (E.statements_of engine) (E.step_of engine))
        → IfOk result (ShowsLeftClean events.now) }
{
    engine_is_lawful(&engine);
    of_marked_report();
    marks_of_a_report();
    as_if_alone();
    never_stuck();
    all_can_cancel();
    match pool_of(alloc, setup, events.len()) {
        Ok((pool, size)) => {
            let player = Player::new(alloc, engine, pool, size, setup.max, setup.on_attention);
            play_events(alloc, player, events, carrier)
        }
        Err(refusal) => Err(refusal),
    }
}

/// What an event asks for has a spelling: its types see to it.
fn known(event: &Event)
    ensures { IsEvent event.now }
{
    if let Event::Ask(_, request) = event {
        match request {
            Request::Batch(text) => {
                let _units = text.units();
            }
            Request::Begin(level) => {
                let _number = level.get();
            }
            Request::Commit(Some(level)) | Request::Rollback(Some(level)) => {
                let _number = level.get();
            }
            Request::Commit(None) | Request::Rollback(None) => {}
        }
    }
}

/// Plays the events, one after the other, and tells of them and of the requests.
fn play_events<E: Engine + Copy, C: EventCarrier>(
    alloc: Global,
    mut player: Player<E>,
    events: &[Event],
    carrier: &mut C,
) -> Result<Report, PlayRefusal>
    requires begins { player.links.items ≡ [] }
    requires none { AreFew 0 player }
    requires held { AreHeld player }
    requires few { length events.now ≤ 10000 }
    ensures stops { IfErr result (λ why. (why ≡ Memory) ⊎ (why ≡ NotCleaned)) }
    ensures calls { (setup : Setup) → IsSetup setup → AreFaithful (C.pipes carrier.new)
        → RepresentsWorld setup player.engine player (C.pipes carrier.old) new_world
        → IfOk result (λ report. MakesCalls C.is_told setup
        (answer_of (E.statements_of player.engine) (E.step_of player.engine))
        (marked events.now report.events) (C.began carrier.old) (C.began carrier.new)
        (C.pipes carrier.new)) }
    ensures unfailing { (setup : Setup) → IsSetup setup → AreFaithful (C.pipes carrier.new)
        → RepresentsWorld setup player.engine player (C.pipes carrier.old) new_world
        → FailNowhere (C.pipes carrier.new) → IfOk result MarksNothing }
    ensures lost { (setup : Setup) → IsSetup setup → AreFaithful (C.pipes carrier.new)
        → RepresentsWorld setup player.engine player (C.pipes carrier.old) new_world
        → IfOk result (λ report. TellFailures setup
        (answer_of (E.statements_of player.engine) (E.step_of player.engine))
        (marked events.now report.events) (C.pipes carrier.new)) }
    ensures reads { IfOk result (λ report. ReadsBytes player.size events.now report
        (C.pipes carrier.new)) }
    ensures refines { (setup : Setup) → IsSetup setup → AreFaithful (C.pipes carrier.new)
        → RepresentsWorld setup player.engine player (C.pipes carrier.old) new_world
        → IfOk result (λ report. IsReportOfPlay setup
        (answer_of (E.statements_of player.engine) (E.step_of player.engine)) events.now report
        (C.pipes carrier.new)) }
{
    let reports = run(alloc, &mut player, events, carrier);
    let requests = player.into_requests();
    Ok(Report {
        events: Sequence::new(reports?),
        requests: Sequence::new(requests?),
    })
}

/// Plays the events, one after the other, and tells of them.
fn run<E: Engine + Copy, C: EventCarrier>(
    alloc: Global,
    player: &mut Player<E>,
    events: &[Event],
    carrier: &mut C,
) -> Result<Vec<EventReport>, Stop>
    requires begins { player.old.links.items ≡ [] }
    requires none { AreFew 0 player.old }
    requires held { AreHeld player.old }
    requires few { length events.now ≤ 10000 }
    ensures unfailing { (setup : Setup) (requests : List RequestReport) → IsSetup setup
        → AreFaithful (C.pipes carrier.new)
        → RepresentsWorld setup player.old.engine player.old (C.pipes carrier.old) new_world
        → FailNowhere (C.pipes carrier.new) → IfOk result (λ reports.
        MarksNothing (record { events = reports.items; requests = requests })) }
    ensures lost { (setup : Setup) → IsSetup setup → AreFaithful (C.pipes carrier.new)
        → RepresentsWorld setup player.old.engine player.old (C.pipes carrier.old) new_world
        → IfOk result (λ reports. TellFailures setup
        (answer_of (E.statements_of player.old.engine) (E.step_of player.old.engine))
        (marked events.now reports.items) (C.pipes carrier.new)) }
    ensures calls { (setup : Setup) → IsSetup setup → AreFaithful (C.pipes carrier.new)
        → RepresentsWorld setup player.old.engine player.old (C.pipes carrier.old) new_world
        → IfOk result (λ reports. MakesCalls C.is_told setup
        (answer_of (E.statements_of player.old.engine) (E.step_of player.old.engine))
        (marked events.now reports.items) (C.began carrier.old) (C.began carrier.new)
        (C.pipes carrier.new)) }
    // With what is told of the requests.
    ensures reads { (requests : List RequestReport)
        → ((n : ℕ) → TellsGiven (all_of player.new) requests n)
        → IfOk result (λ reports. ReadsBytes player.old.size events.now
        (record { events = reports.items; requests = requests }) (C.pipes carrier.new)) }
    ensures stands { (setup : Setup) → IsSetup setup → AreFaithful (C.pipes carrier.new)
        → RepresentsWorld setup player.old.engine player.old (C.pipes carrier.old) new_world
        → IfOk result (λ reports. StandsThen setup player.old.engine
        (answer_of (E.statements_of player.old.engine) (E.step_of player.old.engine))
        events.now reports.items player.new (C.pipes carrier.new)) }
{
    worlds_hold(&player.engine);
    of_marked_report();
    let mut reports = Vec::new(alloc);
    'events: for event in events {
        known(event);
        carrier.begin(next_number(reports.len()))?;
        let done = player.happen(carrier, event)?;
        reports.push(EventReport {
            outcome: done.outcome,
            lost: done.lost,
            snapshots: Sequence::new(player.snapshots()?),
        })?;
    }
    Ok(reports)
}
