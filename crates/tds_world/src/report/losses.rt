//! What the session laws say of the report of a play over links that fail. Each is the contract of a
//! function without a body: what holds of `observed_with`, whatever the events, and whichever of
//! them lose their links.
ghost use Rattle.std.specs.Prelude.{◌≡◌, ◌++◌, List};
ghost use Rattle.std.specs.List.{AllByRecursion};
ghost use Rattle.tds_session.specs.Answer.{Answers};
ghost use Rattle.tds_world.specs.alone.Alone.{BlindToNumbers};
ghost use Rattle.tds_world.specs.alone.AloneShown.{ShowsAsIfAlone, far_in};
ghost use Rattle.tds_world.specs.Bounds.{IsEvent, IsSetup};
ghost use Rattle.tds_world.specs.limits.Descriptors.{AreFewEvents, UseFewDescriptors};
ghost use Rattle.tds_world.specs.Events.{world_after};
ghost use Rattle.tds_world.specs.Lawful.{Lawful};
ghost use Rattle.tds_world.specs.left_clean.LeftClean.{AnswersClean};
ghost use Rattle.tds_world.specs.left_clean.LeftCleanShown.{ShowsLeftClean};
ghost use Rattle.tds_world.specs.Losses.{Played, marked, observed_with, world_with};
ghost use Rattle.tds_world.specs.Observed.{observed};
ghost use Rattle.tds_world.specs.Reports.{ShowsFewUnderway, ShowsFreshStart, ShowsIdleQuiet};
ghost use Rattle.tds_world.specs.Reports.{ShowsKeptTransaction, ShowsLendsIdle, ShowsOwnAnswers};
ghost use Rattle.tds_world.specs.Reports.{ShowsOwnTransaction};
ghost use Rattle.tds_world.specs.rest.RestShown.{ShowsNeverStuckWith};
ghost use Rattle.tds_world.specs.WithLosses.{AlwaysShownOfEvents, AlwaysShownWith, AlwaysToldWith};
ghost use Rattle.tds_world.specs.WithLosses.{GivesNoMoreWith, IsReportWith, MarksNothing, events_of};
ghost use Rattle.tds_world.specs.WithLosses.{ShowsNoEndFaults, ShowsNothingAfterCancelWith};
ghost use Rattle.tds_world.specs.World.{new_world};
ghost use Rattle.tds_world.specs.declared.event.Event.{Event};
ghost use Rattle.tds_world.specs.declared.event.Setup.{Setup};
ghost use Rattle.tds_world.specs.declared.report.Report.{Report};

/// In each snapshot whose client is idle both byte counts are 0, and the two descriptors are one.
pub fn idle_is_quiet()
    ensures { (setup : Setup) (answers : Answers) → Lawful answers
        → AlwaysShownWith setup answers ShowsIdleQuiet }
{}

/// In each snapshot at most 4,094 bytes are underway to the server, for a setup that a play takes and
/// requests that have a spelling.
pub fn few_underway()
    ensures { (setup : Setup) (answers : Answers) → IsSetup setup → Lawful answers
        → AlwaysShownOfEvents setup answers ShowsFewUnderway }
{}

/// In no event an end refuses what comes to it. It holds for any answers.
pub fn no_fault()
    ensures { (setup : Setup) (answers : Answers) → AlwaysShownWith setup answers ShowsNoEndFaults }
{}

/// There is one report for each request that was asked, in their order. It is of the lease that asked,
/// and its tokens are a beginning of the request's own answer, in the session that it shows, and all
/// of it where it is finished; where it shows no session, there are none.
pub fn own_answers()
    ensures { (setup : Setup) (answers : Answers) → Lawful answers
        → AlwaysToldWith setup answers (ShowsOwnAnswers answers) }
{}

/// The first request of a lease that ran, of those reported, ran in a fresh session; for a lease that
/// came from a ticket, in one without settings.
pub fn fresh_start()
    ensures { (setup : Setup) (answers : Answers) → Lawful answers
        → AlwaysShownWith setup answers ShowsFreshStart }
{}

/// Whatever follows of a play, a request that is reported as cancelled has the tokens that it had.
pub fn nothing_after_cancel()
    ensures { (setup : Setup) (answers : Answers) → Lawful answers
        → ShowsNothingAfterCancelWith setup answers }
{}

/// A request that ran did so in the transaction that its client was in when it was asked, as the
/// snapshot after its event shows it; and outside one, where its mark asked for a full reset.
pub fn own_transaction()
    ensures { (setup : Setup) (answers : Answers) → Lawful answers
        → AlwaysToldWith setup answers ShowsOwnTransaction }
{}

/// The first request of a resumed lease that ran, of those reported, ran in the transaction that the
/// ticket kept, as the snapshot after the ticket's event shows it, and without settings.
pub fn kept_transaction()
    ensures { (setup : Setup) (answers : Answers) → Lawful answers
        → AlwaysToldWith setup answers ShowsKeptTransaction }
{}

/// From the event on that cleans a connection, and up to the one that lends it, it is shown so: where
/// its client is idle, its server has no transaction and no settings.
pub fn left_clean()
    ensures { (setup : Setup) (answers : Answers) → Lawful answers → AnswersClean answers
        → AlwaysToldWith setup answers ShowsLeftClean }
{}

/// A connection that is lent is idle after the event that lends it, and stands under the lease, unless
/// the link failed when it was opened.
pub fn lends_idle()
    ensures { (setup : Setup) (answers : Answers) → Lawful answers
        → AlwaysShownWith setup answers ShowsLendsIdle }
{}

/// Each lease that is shown was told what it would be told alone, whatever others did and whatever was
/// lost. How far each request got is read off the world.
pub fn as_if_alone()
    ensures { (setup : Setup) (answers : Answers) → Lawful answers → BlindToNumbers answers
        → UseFewDescriptors answers → (ps : List Played) → AreFewEvents (events_of ps)
        → ShowsAsIfAlone setup.on_attention answers
        (far_in (world_with setup answers ps new_world)) (events_of ps)
        (observed_with setup answers ps) }
{}

/// All this of a report that is the model's of some events, with the losses that it marks itself.
pub fn of_marked_report()
    ensures own_answers { (setup : Setup) (answers : Answers) (events : List Event) (r : Report)
        → Lawful answers → IsReportWith setup answers events r
        → ShowsOwnAnswers answers events r }
    ensures own_transaction { (setup : Setup) (answers : Answers) (events : List Event)
        (r : Report) → Lawful answers → IsReportWith setup answers events r
        → ShowsOwnTransaction events r }
    ensures after_cancel { (setup : Setup) (answers : Answers) (front later : List Event)
        (r : Report) → Lawful answers → IsReportWith setup answers (front ++ later) r
        → GivesNoMoreWith setup answers front r }
    ensures fresh_start { (setup : Setup) (answers : Answers) (events : List Event) (r : Report)
        → Lawful answers → IsReportWith setup answers events r → ShowsFreshStart r }
    ensures kept_transaction { (setup : Setup) (answers : Answers) (events : List Event)
        (r : Report) → Lawful answers → IsReportWith setup answers events r
        → ShowsKeptTransaction events r }
    ensures left_clean { (setup : Setup) (answers : Answers) (events : List Event) (r : Report)
        → Lawful answers → AnswersClean answers → IsReportWith setup answers events r
        → ShowsLeftClean events r }
    ensures lends_idle { (setup : Setup) (answers : Answers) (events : List Event) (r : Report)
        → Lawful answers → IsReportWith setup answers events r → ShowsLendsIdle r }
    ensures idle_is_quiet { (setup : Setup) (answers : Answers) (events : List Event) (r : Report)
        → Lawful answers → IsReportWith setup answers events r → ShowsIdleQuiet r }
    ensures few_underway { (setup : Setup) (answers : Answers) (events : List Event) (r : Report)
        → IsSetup setup → Lawful answers → AllByRecursion IsEvent events
        → IsReportWith setup answers events r → ShowsFewUnderway r }
    ensures no_fault { (setup : Setup) (answers : Answers) (events : List Event) (r : Report)
        → IsReportWith setup answers events r → ShowsNoEndFaults r }
    ensures comes_to_rest { (setup : Setup) (answers : Answers) (events : List Event)
        (r : Report) → IsSetup setup → Lawful answers → IsReportWith setup answers events r
        → ShowsNeverStuckWith setup answers events r }
    ensures told_alone { (setup : Setup) (answers : Answers) (events : List Event) (r : Report)
        → Lawful answers → BlindToNumbers answers → UseFewDescriptors answers
        → AreFewEvents events → IsReportWith setup answers events r
        → ShowsAsIfAlone setup.on_attention answers
        (far_in (world_with setup answers (marked events r.events) new_world)) events r }
    ensures whole { (setup : Setup) (answers : Answers) (events : List Event) (r : Report)
        → IsReportWith setup answers events r → MarksNothing r
        → r ≡ observed setup answers events }
    ensures plain { (setup : Setup) (answers : Answers) (events : List Event) (r : Report)
        → MarksNothing r
        → world_with setup answers (marked events r.events) new_world
        ≡ world_after setup answers events new_world }
{}
