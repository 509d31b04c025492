//! What holds of plays over links that fail. Each is the contract of a function without a body.
//! A play with losses stands for a plain schedule, in which an event that lost its link is followed
//! by the cut of its connection; so what holds of the world after any events holds of the world
//! after any play.
ghost use Rattle.std.specs.Prelude.{◌≡◌, ◌++◌, List, false, length};
ghost use Rattle.std.specs.List.{AllByRecursion};
ghost use Rattle.tds_session.specs.Answer.{Answers};
ghost use Rattle.tds_world.specs.alone.Alone.{AsIfAlone, BlindToNumbers};
ghost use Rattle.tds_world.specs.Begins.{HandsOutNext};
ghost use Rattle.tds_world.specs.Bounds.{BeginsOnce, IsEvent, OneAttention};
ghost use Rattle.tds_world.specs.limits.Counts.{AreFew};
ghost use Rattle.tds_world.specs.limits.Descriptors.{AreFewEvents, UseFewDescriptors};
ghost use Rattle.tds_world.specs.Events.{world_after};
ghost use Rattle.tds_world.specs.Lawful.{Lawful};
ghost use Rattle.tds_world.specs.left_clean.LeftClean.{AnswersClean, LeftClean};
ghost use Rattle.tds_world.specs.Losses.{Played, event_reports_with, marked, observed_with};
ghost use Rattle.tds_world.specs.Losses.{with_cuts, world_with};
ghost use Rattle.tds_world.specs.Observed.{observed};
ghost use Rattle.tds_world.specs.rest.Rest.{AllCanCancel, NeverStuck};
ghost use Rattle.tds_world.specs.Sessions.{StayInRange};
ghost use Rattle.tds_world.specs.limits.Underway.{FewToClients};
ghost use Rattle.tds_world.specs.WithLosses.{AlwaysWith, AreEvents, AreMarked, CleanNothing};
ghost use Rattle.tds_world.specs.WithLosses.{LosesNothing, events_of};
ghost use Rattle.tds_world.specs.World.{World, new_world};
ghost use Rattle.tds_world.specs.declared.event.Event.{Event};
ghost use Rattle.tds_world.specs.declared.event.Setup.{Setup};
ghost use Rattle.tds_world.specs.declared.report.EventReport.{EventReport};

/// The world after a play is the one after the plain schedule that it stands for.
pub fn plain_worlds()
    ensures { (setup : Setup) (answers : Answers) (ps : List Played) (w : World)
        → world_with setup answers ps w
        ≡ world_after setup answers (with_cuts setup answers ps w) w }
{}

/// Each event of that schedule is one of the program where those of the play are.
pub fn plain_events()
    ensures { (setup : Setup) (answers : Answers) (ps : List Played) (w : World)
        → AreEvents ps → AllByRecursion IsEvent (with_cuts setup answers ps w) }
{}

/// A play is any front of it, and then the rest of it: its world, the schedule that it stands for,
/// and what is told of its events.
pub fn front_and_rest()
    ensures world { (setup : Setup) (answers : Answers) (ps qs : List Played) (w : World)
        → world_with setup answers (ps ++ qs) w
        ≡ world_with setup answers qs (world_with setup answers ps w) }
    ensures schedule { (setup : Setup) (answers : Answers) (ps qs : List Played) (w : World)
        → with_cuts setup answers (ps ++ qs) w
        ≡ with_cuts setup answers ps w
        ++ with_cuts setup answers qs (world_with setup answers ps w) }
    ensures told { (setup : Setup) (answers : Answers) (ps qs : List Played) (w : World)
        → event_reports_with setup answers (ps ++ qs) w
        ≡ event_reports_with setup answers ps w
        ++ event_reports_with setup answers qs (world_with setup answers ps w) }
{}

/// A play that loses nothing is its events: its world, the schedule that it stands for, and its
/// report.
pub fn nothing_lost()
    ensures world { (setup : Setup) (answers : Answers) (ps : List Played) (w : World)
        → LosesNothing ps
        → world_with setup answers ps w ≡ world_after setup answers (events_of ps) w }
    ensures schedule { (setup : Setup) (answers : Answers) (ps : List Played) (w : World)
        → LosesNothing ps → with_cuts setup answers ps w ≡ events_of ps }
    ensures report { (setup : Setup) (answers : Answers) (ps : List Played) → LosesNothing ps
        → observed_with setup answers ps ≡ observed setup answers (events_of ps) }
{}

/// What a report marks as lost is a play of these events, which loses nothing where nothing is
/// marked; a front of the events is a front of it. A report that is the one of what it marks tells
/// of each event.
pub fn marks_of_a_report()
    ensures events { (es : List Event) (rs : List EventReport) → events_of (marked es rs) ≡ es }
    ensures each { (setup : Setup) (answers : Answers) (es : List Event) (rs : List EventReport)
        (w : World) → rs ≡ event_reports_with setup answers (marked es rs) w
        → length rs ≡ length es }
    ensures known { (es : List Event) (rs : List EventReport) → AllByRecursion IsEvent es
        → AreEvents (marked es rs) }
    ensures unlost { (es : List Event) (rs : List EventReport)
        → AllByRecursion (λ (r : EventReport). r.lost ≡ false) rs → LosesNothing (marked es rs) }
    ensures front { (es fs : List Event) (rs : List EventReport)
        → (qs : List Played) × (marked (es ++ fs) rs ≡ marked es rs ++ qs) }
    ensures behind { (es fs : List Event) (rs ss : List EventReport) → length es ≡ length rs
        → marked (es ++ fs) (rs ++ ss) ≡ marked es rs ++ marked fs ss }
{}

/// The report of a play tells of each event, and it marks just what the play lost, where each loss
/// is of as many bytes as its outcome says came.
pub fn marks_of_a_play()
    ensures count { (setup : Setup) (answers : Answers) (ps : List Played) (w : World)
        → length (event_reports_with setup answers ps w) ≡ length ps }
    ensures marks { (setup : Setup) (answers : Answers) (ps : List Played) (w : World)
        → AreMarked setup answers ps w
        → marked (events_of ps) (event_reports_with setup answers ps w) ≡ ps }
{}

/// After a play of so many events there are at most so many connections, leases, tickets and
/// requests: a cut adds none. It holds for any answers.
pub fn few_of_each()
    ensures { (setup : Setup) (answers : Answers) (ps : List Played)
        → AreFew (length ps) (world_with setup answers ps new_world) }
{}

/// After a play of so many events few bytes are underway to a client: each event sends at most one
/// step, and a cut sends none.
pub fn few_to_clients()
    ensures { (setup : Setup) (answers : Answers) → Lawful answers → StayInRange answers
        → (ps : List Played) → FewToClients (length ps) (world_with setup answers ps new_world) }
{}

/// At most one attention of a connection is without an arrived acknowledgement.
pub fn one_attention()
    ensures { (setup : Setup) (answers : Answers) → Lawful answers
        → AlwaysWith setup answers OneAttention }
{}

/// Where a connection was cleaned, and its answer has come whole, its server has no transaction and no
/// settings before anybody is lent it.
pub fn left_clean()
    ensures { (setup : Setup) (answers : Answers) → Lawful answers → AnswersClean answers
        → AlwaysWith setup answers LeftClean }
{}

/// No two steps of a connection tell that the same transaction began, where the answers hand out
/// what the session's next descriptor says.
pub fn begins_once()
    ensures { (setup : Setup) (answers : Answers) → HandsOutNext answers
        → AlwaysWith setup answers BeginsOnce }
{}

/// No connection that isn't cut is ever stuck: it comes to rest by what is left to do, and by a cancel
/// and what is underway then, unless the pool is cleaning it.
pub fn never_stuck()
    ensures { (setup : Setup) (answers : Answers) → Lawful answers
        → AlwaysWith setup answers (NeverStuck setup answers) }
{}

/// Where nothing is cleaned, each connection that isn't cut comes to rest by a cancel too: one that
/// drains was cancelled.
pub fn all_can_cancel()
    ensures { (setup : Setup) (answers : Answers) → Lawful answers
        → (ps : List Played) → CleanNothing ps
        → AllCanCancel (world_with setup answers ps new_world) }
{}

/// A lease can't tell that it shares its connection, where the answers are blind to the numbers of
/// transactions and use few of them.
pub fn as_if_alone()
    ensures { (setup : Setup) (answers : Answers) → Lawful answers → BlindToNumbers answers
        → UseFewDescriptors answers → (ps : List Played) → AreFewEvents (events_of ps)
        → AsIfAlone setup.on_attention answers (world_with setup answers ps new_world) }
{}
