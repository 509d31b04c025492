//! What a pool promises, over any list of events, and a relay behind any calls. Each function does nothing
//! when it runs: its contract is the law.
ghost use Rattle.std.specs.Prelude.{◌≡◌, [], ◌∷◌, ◌+◌, ◌<◌, ◌≤◌, ◌++◌, ℕ, List, None, OnOk, Option};
ghost use Rattle.std.specs.Prelude.{Some, false, length, vec_len};
ghost use Rattle.tds_wire.specs.declared.told.Token.{Token};
ghost use Rattle.tds_service.specs.Line.{Idle};
ghost use Rattle.tds_service.specs.Service.{Lease, Seat, seat_numbered, step};
ghost use Rattle.tds_relay.specs.Places.{own_held};
ghost use Rattle.tds_relay.specs.Pool.{Pool, Event, Sharing, pool_after, new_pool, turn, whose};
ghost use Rattle.tds_relay.specs.Promises.{CaresFor, Each, IsAmong, IsHandedTo, LendsClean, LendsFirst};
ghost use Rattle.tds_relay.specs.Promises.{NoneAstray, SaysOnce, TakesOne, comes_to_wait};
ghost use Rattle.tds_front.specs.Exchanges.{place_after};
ghost use Rattle.tds_front.specs.declared.fault.FrontFault.{FrontFault};
ghost use Rattle.tds_front.specs.Serving.{IsLawful, Ready};
ghost use Rattle.tds_front.specs.Passing.{EndsWhole, happenings_of, towards};
ghost use Rattle.tds_front.specs.declared.stage.Stage.TheVariants as stages;
ghost use Rattle.tds_relay.specs.Asking.{AsksByBytes};
ghost use Rattle.tds_relay.specs.Law.{IsAway, WaitsAway, done_before, done_since};
ghost use Rattle.tds_relay.specs.Behind.{AllAnswerOnce, Stay, passed_in};
ghost use Rattle.tds_relay.specs.Bodies.{Carries, body_of};
ghost use Rattle.tds_relay.specs.Told.{waiting_in};
ghost use Rattle.tds_relay.specs.declared.application.Application.{Application};
ghost use Rattle.tds_relay.specs.declared.link.Link.{Link};
ghost use Rattle.tds_relay.specs.declared.outgoing.Outgoing.{Outgoing};
ghost use Rattle.tds_listen.specs.declared.fault.ListenFault.{ListenFault};
ghost use Rattle.tds_relay.specs.Faults.{IsMet, IsMetOn};
ghost use Rattle.tds_relay.specs.Fronting.{AnswersOnce, done_on, happened};
ghost use Rattle.tds_relay.specs.Fronts.{machine_in};
ghost use Rattle.tds_relay.specs.Giving.{AreSaid, Gives, IsFrontOf, IsKept, ServersAnswerOnce, StaysAll};
ghost use Rattle.tds_relay.specs.Giving.{ReadVisit, Visit, given_in, happens_in, pieces_of, sent_in_visit};
ghost use Rattle.tds_relay.specs.Giving.{waits_in};
ghost use Rattle.tds_relay.specs.Machine.{Admits, Machine, IsLedTo, MayAll, Step, Steps};
ghost use Rattle.tds_relay.specs.Machine.{new_machine};
ghost use Rattle.tds_relay.specs.Core.{EndList};
ghost use Rattle.tds_relay.specs.Law.{FollowOn, Wire, put_in, went_out};
ghost use Rattle.tds_relay.specs.Queues.{Queues};
ghost use Rattle.tds_packet.specs.Reading.{Reading, joined};
ghost use Rattle.tds_relay.specs.Reads.{AreReadIn, CallOn, BytesCome, Follow, FollowAt, ReaderTakes, bytes_in};
ghost use Rattle.tds_relay.specs.Reads.{open_at, packets_in, stands_in};
ghost use Rattle.tds_relay.specs.Taking.{Tells};
ghost use Rattle.tds_relay.specs.Telling.{IsToldOnce, happens_to};
ghost use Rattle.tds_relay.specs.Sparing.{AllGo, AreCalls, IsLeft, StartsOn, behind_all};
ghost use Rattle.tds_relay.specs.declared.relay.Relay.{Relay as Code};
ghost use Rattle.tds_relay.specs.TokenParsers.{AllStand, IsReadTo, IsUnread, StandsAt};
ghost use Rattle.tds_service.specs.declared.service.Service.{Service};
ghost use Rattle.tds_wire.specs.declared.features.Features.{Features};
ghost use Rattle.tds_wire.specs.Reading as parsers;
ghost use Rattle.tds_relay.specs.Ties as causes;
ghost use Rattle.tds_relay.specs.Ties.{Cause, Causes, Connection, LedTo, IsNoConnection, IsReached};
ghost use Rattle.tds_relay.specs.Ties.{Owns, pool_in};

use crate::reading::reads_packets;
use crate::{NoMemory, Relay};
use tds_front::laws::{bytes_are_packets, lawful_front};
use tds_service::table_laws::{each_alone, line_by_history};
use tds_wire::Token;

/// An attention goes out on a connection only where the application that holds it cancels or leaves, with
/// something of a request out there; so none does during a cleaning.
pub fn no_cancel_astray()
    ensures { (sharing : Sharing) (events : List Event) (event : Event)
        → NoneAstray (pool_after (new_pool sharing) events) event }
{}

/// An attention goes out only in a call that an application causes, by what it says or by its end: on the
/// connection that this one holds, with something of a request out there.
pub fn own_cancels()
    ensures { (by : Cause) (sharing : Sharing) (events : List Event) (event : Event)
        → Causes by event → Owns by (pool_after (new_pool sharing) events) event }
{}

/// Each connection is held by an application; or is being cleaned, by a request that is out; or has its
/// attention out; or is idle, with no reset owed and no transaction open.
pub fn no_orphan()
    ensures { (sharing : Sharing) (events : List Event)
        → Each (CaresFor (pool_after (new_pool sharing) events).holds)
        (pool_after (new_pool sharing) events).service.seats }
{}

/// What comes on a connection is handed only to the application that it is lent to: during a cleaning,
/// and behind an application's end, to nobody.
pub fn handed_to_holder()
    ensures { (sharing : Sharing) (events : List Event) (number key : ℕ)
        → whose (pool_after (new_pool sharing) events) number ≡ Some key
        → IsHandedTo (pool_after (new_pool sharing) events) number key }
{}

/// A connection that somebody had before is lent only idle, with no reset owed and no transaction open.
pub fn fresh()
    ensures { (sharing : Sharing) (events : List Event)
        → LendsClean (pool_after (new_pool sharing) events)
        (step {T = Token} (pool_after (new_pool sharing) events).service Lease).reply }
{}

/// Whoever is lent a connection is the first of those who wait, and nobody passes another in that line:
/// who comes to wait stands last, also who left it by its own request for a reset.
pub fn first_come()
    ensures first { (d : Pool) → LendsFirst d }
    ensures order { (d : Pool) (event : Event)
        → IsAmong (turn d event).pool.line (d.line ++ comes_to_wait event) }
{}

/// A connection that is lost leaves the others, and who holds them, as they were.
pub fn a_cut_takes_one()
    ensures { (d : Pool) (number : ℕ) → TakesOne d number }
{}

/// What an application asks goes on by one event each: each call that says something of a request by its lease is the
/// one of an event that says it for this application. No end, no loss and no cleaning says it again.
pub fn never_asked_twice()
    ensures { (sharing : Sharing) (events : List Event) (event : Event)
        → SaysOnce (pool_after (new_pool sharing) events) event }
{}

/// On each connection, what goes out and what comes is a lawful server's end (`tds_front`), where its
/// server ends each answer once at most, also behind an attention. So it is from where the connection is
/// idle, as it is lent (`fresh`): its server is ready there.
pub fn lawful_connections()
    ensures lawful { (sharing : Sharing) (number : ℕ) (events : List Event)
        → AnswersOnce false (done_on sharing number events)
        → IsLawful Ready (happened (done_on sharing number events)) }
    ensures ready { (sharing : Sharing) (number : ℕ) (events : List Event) (c : Seat)
        → seat_numbered number (pool_after (new_pool sharing) events).service.seats ≡ Some c
        → c.line.stage ≡ Idle
        → place_after Ready (happened (done_on sharing number events)) ≡ Ready }
{
    each_alone::<Token>();
    line_by_history::<Token>();
}

/// Whatever comes, and whatever isn't taken, so much is kept at most.
pub fn bounds()
    /// Of a request that waits for a connection 16,384 bytes are kept at most.
    ensures kept { (a : Application) → length (own_held a) ≤ 16384 }
    /// For an application at most as many bytes wait as a packet has, and 32,768.
    ensures for_application { (a : Application) → waiting_in a.out ≤ a.out.size + 32768 }
    /// On a connection at most as many bytes wait as a packet has, and 32,768.
    ensures on_connection { (l : Link) → waiting_in l.out ≤ l.out.size + 32768 }
    /// With those that were sent and aren't forgotten, fewer than a packet and 65,536 bytes are kept in the
    /// place where they wait.
    ensures in_memory { (o : Outgoing) → vec_len o.bytes < o.size + 65536 }
{}

/// Each call of a relay leaves the pool where events lead that it may cause: its own contract says so, for
/// any bytes. So where events led to the pool, they do again, and what is said here of pools holds behind any
/// calls.
pub fn any_bytes()
    ensures { (by : Cause) (old new : Pool) → LedTo by old new → IsReached old → IsReached new }
{}

/// What a call does is steps that it causes, one after the other: how the ends of the applications move with the
/// pool, and what each application is given by that. So what waits for an application grows by what these give
/// it, in order, each whole, until one doesn't fit: a packet that comes on the connection that it is lent, as it
/// came, without the news of a reset, or behind it, where its end hears it; or the acknowledgement of its own
/// attention, where its end owes it that. Nothing else is given, and a packet that its end hears isn't withheld.
pub fn own_bytes(
    relay: &mut Relay,
    key: usize,
    said: &[u8],
    number: u64,
    came: &[u8],
) -> Result<(), NoMemory>
    ensures { OnOk result ((mid : Machine)
        × Gives (causes.Application key) (machine_in relay.old) mid
        × Gives (Connection number) mid (machine_in relay.new)) }
{
    relay.said(key, said)?;
    relay.came(number, came)
}

/// The bytes of an application that come in a call are taken by the call's steps, each piece what the one
/// before has left, all of them; or the application is to be closed behind the call, or isn't there.
pub fn bytes_that_came(relay: &mut Relay, key: usize, said: &[u8]) -> Result<(), NoMemory>
    ensures { OnOk result (Tells key (machine_in relay.old) said.now [] (machine_in relay.new)) }
{
    relay.said(key, said)
}

/// A request goes on. Behind each piece of an application's bytes by which its request begins, goes on or ends,
/// before the next piece is taken, its application stands in the line; or holds a connection that isn't open yet, or
/// one on which the server hasn't acknowledged yet what it took back; or the request was asked on the connection that
/// it holds, and is being sent, and where all of it has come its end was sent. Or its application is to be closed.
/// Behind each piece by which it takes its request back, its application stands in the line no more.
pub fn request_goes_on(relay: &mut Relay, key: usize, said: &[u8]) -> Result<(), NoMemory>
    ensures { OnOk result (AsksByBytes key (machine_in relay.old) said.now []
        relay.new.links.items (machine_in relay.new)) }
{
    relay.said(key, said)
}

/// The body of a request goes on as it came: of each piece of an application's bytes, what comes of a body is kept
/// behind the others while its request waits, or put by the client of the connection that the application holds, and
/// what goes out by that waits there, behind what waited; where the last of it has come, the end is put behind it.
/// Before each piece and behind the last one a request that waits may be asked: then all that was kept of it is put,
/// by a client that begins a request of its kind: what stands before it there isn't said. What is forgotten is nowhere
/// then. By an attention that is handed on, what its client puts out for it waits there, once. Or the application is to
/// be closed.
pub fn body_goes_on(relay: &mut Relay, key: usize, said: &[u8]) -> Result<(), NoMemory>
    ensures { IsReached (pool_in relay.old.pool) → OnOk result (Carries key (machine_in relay.old)
        said.now [] (body_of key relay.old) (body_of key relay.new) (machine_in relay.new)) }
{
    relay.said(key, said)
}

/// What an open connection's reader had of a packet, and behind it the bytes that come in a call, are the packets
/// that come by the call's steps, whole and in order, handed on or withheld, and less than a packet, which the
/// reader has then. Or the connection is lost in that call: then they are a front of those bytes, and there is no
/// connection of its number that is open. For a reader that had less than a packet: each call leaves it so. On a
/// connection that isn't open nothing comes.
pub fn packets_that_came(relay: &mut Relay, number: u64, came: &[u8]) -> Result<(), NoMemory>
    ensures { OnOk result (BytesCome number (open_at number relay.old.links.items)
        (machine_in relay.old) relay.old.pool.service came.now
        (open_at number relay.new.links.items) (machine_in relay.new) relay.new.pool.service) }
{
    relay.came(number, came)
}

/// From where a connection is opened, and while it is open, over any calls: the bytes that come on it are the packets
/// that come by the calls' steps, whole and in order, and less than a packet, which its reader has at last. Each call
/// leaves each other connection that is open with what its reader had: its own contract says so (`Opens`).
pub fn packets_over_calls()
    ensures packets { (number : ℕ) (calls : List (CallOn number)) (had now : Reading)
        → had.taken ≡ [] → Follow had calls now
        → ReaderTakes had (bytes_in calls) (packets_in calls) (Some now) }
    /// A connection's reader has nothing before it is opened.
    ensures unread { (l : Link) → l.is_open ≡ false → l.reader.taken ≡ [] }
{
    reads_packets();
}

/// Over any calls, from where the parser of a connection stands: each packet that comes on it is read from where the
/// one before has left the parser, and each message anew, while the service has the connection. Each call leaves the
/// parsers of all other connections where they stood: its own contract says so (`AllStand`).
pub fn read_over_calls()
    ensures { (number : ℕ) (calls : List (CallOn number)) (from to : Service) (r : parsers.Parser)
        → FollowAt from calls to → StandsAt number r from
        → AreReadIn r calls × StandsAt number (stands_in r calls) to }
{}

/// Over any calls, and all that is sent in between: what an application is sent, and then what waits for it, are
/// what waited and then what steps give it, in order, each whole; all of it, unless one didn't fit: then a front.
pub fn own_bytes_over_calls()
    ensures { (key : ℕ) (h : Machine) (steps : List Step) → MayAll h steps → IsKept key h steps }
{}

/// Each call of a relay leaves its machine, which is its pool, the ends of its applications and what waits for each,
/// where steps lead that may be: its own contract says so (`steps`; of `set_most` `moves` and `kept`), or that it leaves
/// the machine as it was. So where steps led to the machine, they do again, and what is said here of steps, and of the
/// moves that they are, holds behind any calls.
pub fn any_calls()
    ensures { (by : Cause) (sharing : Sharing) (old new : Machine) → Steps by old new
        → IsLedTo sharing old → IsLedTo sharing new }
{}

/// From a new relay and over any calls, each packet that comes on a connection is read from where the one before has
/// left the connection's parser, the first one by a parser that has read nothing: so it is of the steps of all calls
/// (`IsReadTo`).
pub fn read_from_new()
    /// So it is of a new relay,
    ensures new { (sharing : Sharing) (most : ℕ) (features : Features) (s : Service)
        → ((number : ℕ) → IsUnread most features number s)
        → IsReadTo sharing most features (new_machine sharing) s }
    /// behind a call by which nothing comes on a connection,
    ensures called { (by : Cause) (sharing : Sharing) (most : ℕ) (features : Features)
        (old new : Machine) (from to : Service)
        → IsNoConnection by → Steps by old new → AllStand from to
        → IsReadTo sharing most features old from → IsReadTo sharing most features new to }
    /// and behind one by which bytes come.
    ensures came { (number : ℕ) (sharing : Sharing) (most : ℕ) (features : Features)
        (had now : Option Reading) (bytes : List ℕ) (old new : Machine) (from to : Service)
        → BytesCome number had old from bytes now new to
        → IsReadTo sharing most features old from → IsReadTo sharing most features new to }
    /// An application that has come by these steps, and is there still, makes a visit of them.
    ensures visit { (sharing : Sharing) (most key : ℕ) (features : Features) (h : Machine)
        (s : Service) (before since : List Step) (ends : EndList) (queues : Queues)
        (led : IsReadTo sharing most features h s)
        → led.steps ≡ before ++ Admits key ends queues ∷ since → StaysAll key since
        → (v : ReadVisit sharing key) × (v.visit.before ≡ before) × (v.visit.since ≡ since) }
{}

/// Behind each application's end is a lawful server's end, from where the application enters and while it
/// stays, over whichever connections it is lent: where the server of each connection ends each answer once at
/// most, also behind an attention.
pub fn lawful_behind()
    ensures lawful { (sharing : Sharing) (key : ℕ) (s : Stay sharing key) → AllAnswerOnce s
        → IsLawful Ready (happenings_of stages.Quiet (passed_in s)) }
    /// The last of a request goes on there only where its end has come.
    ensures whole { (sharing : Sharing) (key : ℕ) (s : Stay sharing key) → AllAnswerOnce s
        → EndsWhole stages.Quiet (passed_in s) }
{
    each_alone::<Token>();
    line_by_history::<Token>();
    bytes_are_packets();
}

/// Each application meets a lawful server's end, from where it enters and while it stays, whoever shares with
/// it: where the server of each connection ends each answer once at most, also behind an attention.
pub fn lawful_applications()
    ensures { (sharing : Sharing) (key : ℕ) (s : Stay sharing key) → AllAnswerOnce s
        → IsLawful Ready (towards None stages.Quiet (passed_in s)) }
{
    lawful_behind();
    lawful_front();
}

/// What an application is given, from where it enters and while it stays, whoever shares with it: one by one
/// what a lawful server's end says to it, over whichever connections it is lent.
pub fn given_by_server()
    /// What passes between it and its end is a lawful server's: where the server of each connection ends
    /// each answer once at most, also behind an attention.
    ensures lawful { (sharing : Sharing) (key : ℕ) (v : Visit sharing key) → ServersAnswerOnce v
        → IsLawful Ready (happens_in v) }
    /// Each time that its end says something it is given that, and nothing else: a packet of the connection
    /// that it is lent, which ends its message where the end says so, as it came, without the news of a
    /// reset, or behind it; or the acknowledgement of its own attention.
    ensures said { (sharing : Sharing) (key : ℕ) (v : Visit sharing key)
        → AreSaid (happens_in v) (given_in v) }
    /// What it is sent, and then what waits for it, are these, in order, each whole; all of them, unless one
    /// didn't fit: then a front of them.
    ensures sent { (sharing : Sharing) (key : ℕ) (v : Visit sharing key)
        → IsFrontOf (joined (pieces_of (given_in v))) (sent_in_visit v) (waits_in v) }
{
    lawful_applications();
    each_alone::<Token>();
    line_by_history::<Token>();
    bytes_are_packets();
}

/// An application is told of a reset (ENVCHANGE 18) just where its request asks for one, and once: with the first packet
/// of the answer, unless that only acknowledges an attention, or the request was taken back before. The relay tells it
/// before the packet, or the server in it; of no other reset is it told, whoever shares with it.
pub fn told_once()
    ensures { (sharing : Sharing) (key : ℕ) (v : Visit sharing key)
        → IsToldOnce false (happens_to v) }
{}

/// What is told of why an application is to be closed, or a connection, was met in a step of these, or before them.
pub fn faults_are_met()
    ensures application { (key : ℕ) (fault : FrontFault) (h : Machine) (steps : List Step)
        → MayAll h steps → IsMet key fault h steps }
    ensures connection { (number : ℕ) (fault : ListenFault) (h : Machine) (steps : List Step)
        → MayAll h steps → IsMetOn number fault h steps }
{}

/// What goes out on a connection while it is open, and then what waits there, are what waited and what was put there, in
/// order: over any calls, of which each leaves there what waits, with more behind it or not (`Opens`, `OpensOthers` and
/// `OpensOne` say so of each), and any sending in between (`sent_on`).
pub fn goes_out_over_calls()
    ensures { (waits last : List ℕ) (wires : List Wire) → FollowOn waits wires last
        → went_out waits wires ++ last ≡ waits ++ put_in wires }
{}

/// An application comes to wait only where it neither waits nor holds a connection: from where it enters, behind
/// any steps, and while it stays.
pub fn waits_once()
    /// Where it enters it has neither.
    ensures enters { (sharing : Sharing) (key : ℕ) (v : Visit sharing key)
        → IsAway key (pool_after (new_pool sharing) (done_before v)) }
    /// Since, each event by which it comes to wait is where it has neither.
    ensures since { (sharing : Sharing) (key : ℕ) (v : Visit sharing key)
        → WaitsAway key (pool_after (new_pool sharing) (done_before v)) (done_since v) }
{
    each_alone::<Token>();
    line_by_history::<Token>();
    bytes_are_packets();
}

/// Where connections come, open or are lost, and where applications leave, each application's request stays
/// where it is, or its application is to be closed; or what was kept of it is put, all of it as it was kept,
/// by a client that begins a request of its kind: what stands before it there isn't said. So it is over any
/// such calls.
pub fn bodies_stay()
    ensures { (relay : Code) (more : List Code) (key : ℕ) → AreCalls relay more
        → IsLeft (body_of key relay) (body_of key (behind_all relay more)) }
{}

/// Where a connection opens, the request goes on that was kept for it: unless what its application took back
/// isn't acknowledged there yet, or there is no connection of this number.
pub fn starts_as_it_opens(relay: &mut Relay, number: u64) -> Result<(), NoMemory>
    ensures starts { IsReached (pool_in relay.old.pool)
        → OnOk result (StartsOn number relay.old relay.new) }
    /// Each request stays where it is, or is put as it was kept, or its application is to be closed.
    ensures stays { OnOk result (AllGo relay.old relay.new) }
{
    relay.opened(number)
}
