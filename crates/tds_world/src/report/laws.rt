//! What the session laws say of a report. Each is the contract of a function without a body: what
//! holds of the report of the model, `observed`, whatever the events.
ghost use Rattle.std.specs.Prelude.{List};
ghost use Rattle.tds_session.specs.Answer.{Answers};
ghost use Rattle.tds_session.specs.declared.attention.OnAttention.{OnAttention};
ghost use Rattle.tds_world.specs.alone.Alone.{BlindToNumbers};
ghost use Rattle.tds_world.specs.alone.AloneShown.{ShowsAsIfAlone, HowFar, far_in};
ghost use Rattle.tds_world.specs.Bounds.{IsEvent, IsSetup};
ghost use Rattle.tds_world.specs.limits.Descriptors.{AreFewEvents, UseFewDescriptors};
ghost use Rattle.tds_world.specs.Events.{world_after};
ghost use Rattle.tds_world.specs.Lawful.{Lawful};
ghost use Rattle.tds_world.specs.Observed.{observed};
ghost use Rattle.tds_world.specs.Reports.{AlwaysShown, AlwaysShownOf, AlwaysTold, ShowsFewUnderway, ShowsFreshStart, ShowsIdleQuiet, ShowsKeptTransaction, ShowsLendsIdle, ShowsNoFault, ShowsNothingAfterCancel, ShowsOwnAnswers, ShowsOwnTransaction};
ghost use Rattle.tds_world.specs.rest.RestShown.{ShowsNeverStuck};
ghost use Rattle.tds_world.specs.alone.TwoPlays.{ShowGivenAlike};
ghost use Rattle.tds_world.specs.World.{new_world};
ghost use Rattle.tds_world.specs.declared.event.Event.{Event};
ghost use Rattle.tds_world.specs.declared.event.Setup.{Setup};
ghost use Rattle.tds_world.specs.declared.report.Report.{Report};

/// In each snapshot whose client is idle both byte counts are 0, and the two descriptors are one.
pub fn idle_is_quiet()
    ensures { (setup : Setup) (answers : Answers) → Lawful answers
        → AlwaysShown setup answers ShowsIdleQuiet }
{}

/// In each snapshot at most 4,094 bytes are underway to the server, for a setup that a play takes
/// and requests that have a spelling.
pub fn few_underway()
    ensures { (setup : Setup) (answers : Answers) → IsSetup setup → Lawful answers
        → AlwaysShownOf IsEvent setup answers ShowsFewUnderway }
{}

/// In no event an end refuses what comes to it, and none is lost. It holds for any answers.
pub fn no_fault()
    ensures { (setup : Setup) (answers : Answers) → AlwaysShown setup answers ShowsNoFault }
{}

/// There is one report for each request that was asked, in their order. It is of the lease that
/// asked, and its tokens are a beginning of the request's own answer, in the session that it shows,
/// and all of it where it is finished; where it shows no session, there are none.
pub fn own_answers()
    ensures { (setup : Setup) (answers : Answers) → Lawful answers
        → AlwaysTold setup answers (ShowsOwnAnswers answers) }
{}

/// The first request of a lease that ran, of those reported, ran in a fresh session; for a lease
/// that came from a ticket, in one without settings.
pub fn fresh_start()
    ensures { (setup : Setup) (answers : Answers) → Lawful answers
        → AlwaysShown setup answers ShowsFreshStart }
{}

/// Whatever events follow, a request that is reported as cancelled has the tokens that it had.
pub fn nothing_after_cancel()
    ensures { (setup : Setup) (answers : Answers) → Lawful answers
        → ShowsNothingAfterCancel setup answers }
{}

/// A request that ran did so in the transaction that its client was in when it was asked, as the
/// snapshot after its event shows it; and outside one, where its mark asked for a full reset.
pub fn own_transaction()
    ensures { (setup : Setup) (answers : Answers) → Lawful answers
        → AlwaysTold setup answers ShowsOwnTransaction }
{}

/// The first request of a resumed lease that ran, of those reported, ran in the transaction that
/// the ticket kept, as the snapshot after the ticket's event shows it, and without settings.
pub fn kept_transaction()
    ensures { (setup : Setup) (answers : Answers) → Lawful answers
        → AlwaysTold setup answers ShowsKeptTransaction }
{}

/// A connection that is lent is idle after the event that lends it, and stands under the lease.
pub fn lends_idle()
    ensures { (setup : Setup) (answers : Answers) → Lawful answers
        → AlwaysShown setup answers ShowsLendsIdle }
{}

/// Each connection that is shown after the last event comes to rest, in the report of the same events
/// with these behind it: by all that is left to do, and its request is finished, or acknowledged if it
/// was cancelled before; and by a cancel and what is underway then, unless the pool is cleaning it. It
/// holds for a setup that a play takes.
pub fn never_stuck()
    ensures { (setup : Setup) (answers : Answers) → IsSetup setup → Lawful answers
        → AlwaysTold setup answers (ShowsNeverStuck setup answers) }
{}

/// Each lease that is shown was told what it would be told alone: each of its requests that ran did
/// so in a session alike to that of a server which nobody else ever had, where each got as far, and
/// its tokens are a beginning of what is told there, all of it where it is finished. How far each got
/// is read off the world. It holds for answers that are blind to the numbers of transactions and use
/// few of them.
pub fn as_if_alone()
    ensures { (setup : Setup) (answers : Answers) → Lawful answers → BlindToNumbers answers
        → UseFewDescriptors answers → (events : List Event) → AreFewEvents events
        → ShowsAsIfAlone setup.on_attention answers
        (far_in (world_after setup answers events new_world)) events
        (observed setup answers events) }
{}

/// Two reports that show each lease to be told what it would be told alone, as those of any two
/// plays do: a lease of each, both resumed or neither, is given the same as far as both go, as long
/// as they asked the same requests and each got as far.
pub fn given_alike()
    ensures { (attention attention_there : OnAttention) (answers : Answers)
        (far far_there : HowFar) (events events_there : List Event) (r there : Report)
        → ShowsAsIfAlone attention answers far events r
        → ShowsAsIfAlone attention_there answers far_there events_there there
        → ShowGivenAlike far events r far_there events_there there }
{}
