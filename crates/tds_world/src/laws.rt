//! The session laws. Each is the contract of a function without a body: what holds of the model
//! after any events, whatever their order, and whatever the sizes of the deliveries.
ghost use Rattle.std.specs.Prelude.{◌≡◌, List, length};
ghost use Rattle.tds_session.specs.declared.attention.OnAttention.TheVariants.{RollBack};
ghost use Rattle.tds_session.specs.Answer.{Answers, answer_of, script_answers};
ghost use Rattle.tds_world.specs.alone.Alone.{AsIfAlone, BlindToNumbers};
ghost use Rattle.tds_world.specs.Begins.{HandsOutNext};
ghost use Rattle.tds_world.specs.Bounds.{BeginsOnce, FewUnderway, IsEvent, IsSetup, OneAttention, OwnTransaction};
ghost use Rattle.tds_world.specs.Connection.{Connection};
ghost use Rattle.tds_world.specs.limits.Counts.{AreFew};
ghost use Rattle.tds_world.specs.Deliveries.{DeliversExactly};
ghost use Rattle.tds_world.specs.limits.Descriptors.{AreFewEvents, UseFewDescriptors};
ghost use Rattle.tds_world.specs.Dones.{FinalDoneAtEnd, HaveDones};
ghost use Rattle.tds_world.specs.Events.{world_after};
ghost use Rattle.tds_world.specs.Heard.{ChangesAreHeard};
ghost use Rattle.tds_world.specs.Lawful.{Lawful};
ghost use Rattle.tds_world.specs.Laws.{Always, AlwaysOf, FreshStart, IdleIsQuiet, NothingAfterCancel, OwnAnswers};
ghost use Rattle.tds_world.specs.left_clean.LeftClean.{AnswersClean, LeftClean};
ghost use Rattle.tds_world.specs.Lending.{LendsIdle};
ghost use Rattle.tds_world.specs.Newest.{ActOnNewest, WorkOnNewest};
ghost use Rattle.tds_world.specs.Order.{RequestsInOrder};
ghost use Rattle.tds_world.specs.Messages.{MessagesAreWhole};
ghost use Rattle.tds_world.specs.Packets.{PacketsFit};
ghost use Rattle.tds_world.specs.Phase.{phase_of};
ghost use Rattle.tds_world.specs.PhaseTells.{PhaseTells};
ghost use Rattle.tds_world.specs.Record.{Record};
ghost use Rattle.tds_world.specs.Requests.{RequestsAreSpelled};
ghost use Rattle.tds_world.specs.rest.Rest.{AreThere, NeverStuck};
ghost use Rattle.tds_world.specs.Rollback.{KeptUntilRun, StoppedIsOutside};
ghost use Rattle.tds_world.specs.Sessions.{AllInRange, StayInRange};
ghost use Rattle.tds_world.specs.Steps.{AnswersEndOnce, MessagesEndOnce, StepsAreOfAnswers};
ghost use Rattle.tds_world.specs.alone.TwoPlays.{GiveAlike};
ghost use Rattle.tds_world.specs.limits.Underway.{FewToClients};
ghost use Rattle.tds_world.specs.Welcome.{AllWelcome};
ghost use Rattle.tds_world.specs.World.{new_world};
ghost use Rattle.tds_world.specs.declared.event.Event.{Event};
ghost use Rattle.tds_world.specs.declared.event.Setup.{Setup};

use tds_session::Engine;

/// Where nobody waits for an answer, nothing is underway, the server holds no part of a request and
/// owes no answer, and both ends hold one transaction descriptor.
pub fn idle_is_quiet()
    ensures { (setup : Setup) (answers : Answers) → Lawful answers
        → Always setup answers IdleIsQuiet }
{}

/// What a server answers is lawful, whatever its engine.
pub fn engine_is_lawful<E: Engine>(engine: &E)
    ensures { Lawful (answer_of (E.statements_of engine.now) (E.step_of engine.now)) }
{}

/// What a server with the batch language answers is lawful.
pub fn script_is_lawful()
    ensures { Lawful script_answers }
{}

/// What a delivery makes arrive, either way, is the longest front of what waits whose sizes sum to
/// at most the bytes that have come. It holds for any answers.
pub fn delivers_exactly()
    ensures { (setup : Setup) (answers : Answers) → Always setup answers (DeliversExactly answers) }
{}

/// Whatever happens after a cancel, the caller has been given what it had been given then. It holds
/// for any answers.
pub fn nothing_after_cancel()
    ensures { (setup : Setup) (answers : Answers) → NothingAfterCancel setup answers }
{}

/// At most one attention of a connection is without an arrived acknowledgement.
pub fn one_attention()
    ensures { (setup : Setup) (answers : Answers) → Lawful answers
        → Always setup answers OneAttention }
{}

/// At most 4,094 bytes of a connection are underway to its server, for a setup that a play takes
/// and requests that have a spelling.
pub fn few_underway()
    ensures { (setup : Setup) (answers : Answers) → IsSetup setup → Lawful answers
        → AlwaysOf IsEvent setup answers FewUnderway }
{}

/// Each packet that waits for a server is as long as its header says, and fits the packet size. It
/// holds for any answers.
pub fn packets_fit()
    ensures { (setup : Setup) (answers : Answers) → IsSetup setup
        → Always setup answers (PacketsFit setup) }
{}

/// A request that ran did so in the transaction that its header names.
pub fn own_transaction()
    ensures { (setup : Setup) (answers : Answers) → Lawful answers
        → Always setup answers OwnTransaction }
{}

/// The first request of a lease that runs finds a session without settings and outside a
/// transaction; for a lease that came from a ticket, without settings and in the kept transaction.
pub fn fresh_start()
    ensures { (setup : Setup) (answers : Answers) → Lawful answers
        → Always setup answers FreshStart }
{}

/// Where a connection was cleaned, and its answer has come whole, its server has no transaction and no
/// settings before anybody is lent it.
pub fn left_clean()
    ensures { (setup : Setup) (answers : Answers) → Lawful answers → AnswersClean answers
        → Always setup answers LeftClean }
{}

/// What a server with the batch language answers to a cleaning leaves a fresh session.
pub fn script_answers_clean()
    ensures { AnswersClean script_answers }
{}

/// Where servers roll back, a request that was stopped in the middle of its answer leaves no
/// transaction: once its cancel is acknowledged, both ends are outside one.
pub fn stopped_is_outside()
    ensures { (setup : Setup) (answers : Answers) → setup.on_attention ≡ RollBack → Lawful answers
        → Always setup answers StoppedIsOutside }
{}

/// Until a request of a lease that came from a ticket runs, its server is in the transaction that
/// the ticket kept, whatever of its requests was cancelled, and whatever servers do at an attention.
pub fn kept_until_run()
    ensures { (setup : Setup) (answers : Answers) → Lawful answers
        → Always setup answers KeptUntilRun }
{}

/// No two steps of a connection tell that the same transaction began, where the answers hand out
/// what the session's next descriptor says.
pub fn begins_once()
    ensures { (setup : Setup) (answers : Answers) → HandsOutNext answers
        → Always setup answers BeginsOnce }
{}

/// A server with the batch language hands out what the session's next descriptor says.
pub fn script_hands_out_next()
    ensures { HandsOutNext script_answers }
{}

/// Each caller has a beginning of its own request's answer, in the session that the request ran in,
/// and all of it where the request is finished; where it did not run, nothing.
pub fn own_answers()
    ensures { (setup : Setup) (answers : Answers) → Lawful answers
        → Always setup answers (OwnAnswers answers) }
{}

/// Each entry that waits is welcome where it arrives: no packet of a request comes to a server
/// while an answer is due, no answer comes to a client that waits for none, each change applies to
/// the descriptor heard, and the end of a reset meets the mark.
pub fn all_welcome()
    ensures { (setup : Setup) (answers : Answers) → Lawful answers
        → Always setup answers (AllWelcome answers) }
{}

/// Each message towards a client ends once, with the last step of an answer or an acknowledgement,
/// and each of its packets stands at its place.
pub fn messages_end_once()
    ensures { (setup : Setup) (answers : Answers) → Lawful answers
        → Always setup answers MessagesEndOnce }
{}

/// Each step that was sent or is due is a step of an answer.
pub fn steps_are_of_answers()
    ensures { (setup : Setup) (answers : Answers) → Lawful answers
        → Always setup answers (StepsAreOfAnswers answers) }
{}

/// What is sent to a server is messages, each a request's spelling cut into packets of one type, or
/// a beginning of one that is dropped; and attentions between them.
pub fn requests_are_spelled()
    ensures { (setup : Setup) (answers : Answers) → Lawful answers
        → Always setup answers RequestsAreSpelled }
{}

/// What came of the newest request's message, what waits and what is left of it are the message: so
/// each packet is the next piece of it where it arrives.
pub fn messages_are_whole()
    ensures { (setup : Setup) (answers : Answers) → IsSetup setup → Lawful answers
        → StayInRange answers → AlwaysOf IsEvent setup answers MessagesAreWhole }
{}

/// Whatever the engine, a server's answer has its final DONE at the end of its last step, and there
/// alone.
pub fn engine_has_dones<E: Engine>(engine: &E)
    ensures { HaveDones (answer_of (E.statements_of engine.now) (E.step_of engine.now)) }
{}

/// So it is with each step that was sent: in a message of an answer the final DONE stands at the
/// end of the packet that ends the message, and there alone.
pub fn final_done_at_end()
    ensures { (setup : Setup) (answers : Answers) → Lawful answers → HaveDones answers
        → Always setup answers FinalDoneAtEnd }
{}

/// Whatever the engine, from a session of the program on, each step of an answer fits one packet of
/// the smallest size, and leaves a session of the program.
pub fn engine_stays_in_range<E: Engine>(engine: &E)
    ensures { StayInRange (answer_of (E.statements_of engine.now) (E.step_of engine.now)) }
{}

/// So it is with each step that was sent or is due, and the session of each connection's server is
/// one of the program.
pub fn all_in_range()
    ensures { (setup : Setup) (answers : Answers) → Lawful answers → StayInRange answers
        → Always setup answers AllInRange }
{}

/// What waits for a client and what is due is the newest request's, and no older request changes by
/// it.
pub fn act_on_newest()
    ensures { (setup : Setup) (answers : Answers) → Lawful answers
        → Always setup answers ActOnNewest }
{}

/// A step that is due is one of the newest request's answer: the server's work says of this request
/// that it ran, and where it is the first step, it takes the reset that the request asks for.
pub fn work_on_newest()
    ensures { (setup : Setup) (answers : Answers) → Lawful answers
        → Always setup answers WorkOnNewest }
{}

/// What is due, if anything is, has a last step, which alone is marked so.
pub fn answers_end_once()
    ensures { (setup : Setup) (answers : Answers) → Lawful answers
        → Always setup answers AnswersEndOnce }
{}

/// The requests of each connection are just those that were asked on it, in the order in which they
/// were asked. It holds for any answers.
pub fn requests_in_order()
    ensures { (setup : Setup) (answers : Answers) → Always setup answers RequestsInOrder }
{}

/// After so many events few bytes are underway to a client: each sends at most one step.
pub fn few_to_clients()
    ensures { (setup : Setup) (answers : Answers) → Lawful answers → StayInRange answers
        → (events : List Event)
        → FewToClients (length events) (world_after setup answers events new_world) }
{}

/// After so many events there are at most so many connections, leases, tickets and requests. It
/// holds for any answers.
pub fn few_of_each()
    ensures { (setup : Setup) (answers : Answers) (events : List Event)
        → AreFew (length events) (world_after setup answers events new_world) }
{}

/// Where a step arrives, its changes all apply to the descriptor that the client heard last, and a
/// reset that it took is the one that the client's mark asks for.
pub fn changes_are_heard()
    ensures { (setup : Setup) (answers : Answers) → Lawful answers
        → Always setup answers ChangesAreHeard }
{}

/// A connection that is lent again is idle.
pub fn lends_idle()
    ensures { (setup : Setup) (answers : Answers) → Lawful answers
        → Always setup answers (LendsIdle setup) }
{}

/// The phase of a request says what became of it, and how much of it is out.
pub fn phases_tell()
    ensures { (q : Record) → PhaseTells (phase_of q) q.fate q.out }
{}

/// No connection that is whole is ever stuck. Its lease cancels, if a lease has it, and all that is
/// underway arrives, first at the server and then at the client: it is at rest, unless the pool is
/// cleaning it, where nobody can cancel. Without a cancel it comes to rest too: what is left is sent and
/// arrives, the server works off what is due, and that arrives. Then its newest request is finished, or
/// acknowledged if it was cancelled before.
pub fn never_stuck()
    ensures { (setup : Setup) (answers : Answers) → Lawful answers
        → Always setup answers (NeverStuck setup answers) }
{}

/// There are bytes enough for a connection to come to rest by a cancel, and packets, bytes and steps
/// enough for it to come to rest without one, for a setup that a play takes.
pub fn enough_there()
    ensures { (setup : Setup) (answers : Answers) (c : Connection) → IsSetup setup
        → AreThere setup answers c }
{}

/// From alike sessions with descriptors left, a server with the batch language answers alike.
pub fn script_is_blind()
    ensures { BlindToNumbers script_answers }
{}

/// A server with the batch language uses at most one descriptor a step, and answers in few steps.
pub fn script_uses_few()
    ensures { UseFewDescriptors script_answers }
{}

/// A lease can't tell that it shares its connection: each of its requests that ran did so in a
/// session alike to that of a server which nobody else ever had, where each got as far, and was told
/// what is told there. It holds for answers that are blind to the numbers of transactions and use few
/// of them, after up to 4,294,967,295 events: so many leave descriptors.
pub fn as_if_alone()
    ensures { (setup : Setup) (answers : Answers) → Lawful answers → BlindToNumbers answers
        → UseFewDescriptors answers → (events : List Event) → AreFewEvents events
        → AsIfAlone setup.on_attention answers (world_after setup answers events new_world) }
{}

/// A lease in each of two plays, both from a ticket or neither: as long as they asked the same
/// requests and each got as far, what is given in one and in the other is the same as far as both go,
/// whatever else happens in the two plays.
pub fn given_alike()
    ensures { (setup there : Setup) (answers : Answers) → Lawful answers → BlindToNumbers answers
        → UseFewDescriptors answers → (events events_there : List Event) → AreFewEvents events
        → AreFewEvents events_there
        → GiveAlike (world_after setup answers events new_world)
        (world_after there answers events_there new_world) }
{}
