//! What follows from the definitions alone, for ends that are fed with any bytes and for ends of a
//! connection of the model: what each end's core does, the model's connection does. Each is the
//! contract of a function without a body, or of one whose body does nothing but name the laws that
//! it rests on.
ghost use Rattle.std.specs.List.{AllByRecursion};
ghost use Rattle.std.specs.Prelude.{◌≡◌, ◌≢◌, ◌≤◌, ◌++◌, ℕ, List, [], length, drop, None, Some};
ghost use Rattle.std.specs.Prelude.{flat_map, take, Option};
ghost use Rattle.tds_client.specs.Sending.{started, sent, room};
ghost use Rattle.tds_client.specs.Session.{ClientSession, marked, new_session, unless_idle};
ghost use Rattle.tds_client.specs.Taking.{taken as client_taken};
ghost use Rattle.tds_ends.specs.Refines.{RefinesAsk, RefinesCancel, RefinesSend, RefinesWork, RefinesArrive};
ghost use Rattle.tds_ends.specs.Deliveries.{AllArrive, RefinesServes, AllHeard, RefinesListens};
ghost use Rattle.tds_ends.specs.Ends.{Listens, Serves, ClientGoesOn, ServerGoesOn};
ghost use Rattle.tds_ends.specs.Ends.{client_fed_twice, server_fed_twice};
ghost use Rattle.tds_ends.specs.Feeding.{Coming, Comes, Spells, Listened, IsListened, listened};
ghost use Rattle.tds_ends.specs.Feeding.{Served, IsServed, served};
ghost use Rattle.tds_ends.specs.Hearing.{RefinesHear, IsAwaited, IsSaid};
ghost use Rattle.tds_ends.specs.Stands.{MatchesClient, MatchesServer, Sends};
ghost use Rattle.tds_ends.specs.Stays.{ClientStays, ServerStays, PoolIsUnseen, RefinesIdle};
ghost use Rattle.tds_ends.specs.declared.listening.ClientFed.{ClientFed};
ghost use Rattle.tds_ends.specs.declared.listening.ClientStop.TheVariants as client_stop;
ghost use Rattle.tds_ends.specs.declared.serving.ServerFed.{ServerFed};
ghost use Rattle.tds_ends.specs.declared.serving.ServerStop.TheVariants as server_stop;
ghost use Rattle.tds_packet.specs.Layout.{bits_of, has_bit};
ghost use Rattle.tds_packet.specs.Reading.{Reading, with_taken};
ghost use Rattle.tds_packet.specs.declared.kind.Direction.TheVariants.{ToClient, ToServer};
ghost use Rattle.tds_packet.specs.declared.status.Reset.{Reset};
ghost use Rattle.tds_request.specs.declared.request.Request.{Request};
ghost use Rattle.tds_server.specs.State.{ServerState, server_with};
ghost use Rattle.tds_server.specs.Taking.{taken};
ghost use Rattle.tds_server.specs.Working.{worked};
ghost use Rattle.tds_session.specs.declared.attention.OnAttention.{OnAttention};
ghost use Rattle.tds_session.specs.Answer.{Answers, answer_of};
ghost use Rattle.tds_session.specs.Session.{SessionState};
ghost use Rattle.tds_packet.specs.Resets.{strongest};
ghost use Rattle.tds_token.specs.declared.token.Token.{Token};
ghost use Rattle.tds_world.specs.Arrivals.{server_acts, client_acts, works, reach_server};
ghost use Rattle.tds_world.specs.Arrivals.{reach_client, to_client, to_server};
ghost use Rattle.tds_world.specs.Bounds.{IsSetup, IsEvent};
ghost use Rattle.tds_world.specs.Caller.{asks, cancels, sends};
ghost use Rattle.tds_world.specs.Connection.{Connection, Standing, new_connection, phase, is_idle};
ghost use Rattle.tds_world.specs.Connection.{up_underway};
ghost use Rattle.tds_world.specs.Entries.{Up, up_bytes, up_packet, Down, down_bytes, down_packet};
ghost use Rattle.tds_world.specs.Events.{asks_by, sends_in};
ghost use Rattle.tds_world.specs.Lane.{Lane, sent_bytes};
ghost use Rattle.tds_world.specs.Lawful.{Lawful};
ghost use Rattle.tds_world.specs.Laws.{Always, OfEachConnection, AlwaysOf};
ghost use Rattle.tds_world.specs.Messages.{IsSpelled, IsNext, AreWhole};
ghost use Rattle.tds_world.specs.Packets.{IsSized};
ghost use Rattle.tds_world.specs.Phase.{Settled};
ghost use Rattle.tds_world.specs.Record.{Record};
ghost use Rattle.tds_world.specs.Steps.{EndsIfDue};
ghost use Rattle.tds_world.specs.Welcome.{ServerExpects, WelcomeToServer};
ghost use Rattle.tds_world.specs.declared.event.Setup.{Setup};
ghost use Rattle.tds_world.specs.declared.report.Place.{Place};
ghost use Rattle.tds_world.specs.declared.report.RequestStatus.{RequestStatus};

use tds_packet::laws::{fronts, one_packet};
use tds_request::laws::spelled_is_read;
use tds_session::Engine;
use tds_token::laws::spelled_are_read;
use tds_world::laws::{
    act_on_newest, all_in_range, all_welcome, changes_are_heard, engine_has_dones,
    engine_is_lawful, engine_stays_in_range, few_underway, messages_are_whole, packets_fit,
    phases_tell, steps_are_of_answers,
};

/// Bytes spell one list of packets and one rest.
pub fn spelled_once()
    ensures { (r : Reading) (bytes one other : List ℕ) (ps qs : List Coming)
        → Spells r bytes ps one → Spells r bytes qs other → (ps ≡ qs) × (one ≡ other) }
{
    one_packet();
}

/// However bytes are cut, a client makes the same of them: a call that took its whole piece, or
/// wanted memory, and then one with what is left of it and more, are one call with all of the
/// bytes.
pub fn pieces_are_heard()
    ensures { (r mid new : Reading) (piece more : List ℕ) (s between now : ClientSession)
        (told some after : List Token) (first second : ClientFed)
        → Listens r mid piece s between told some first → ClientGoesOn first.stop
        → first.count ≤ length piece
        → Listens mid new (drop first.count piece ++ more) between now some after second
        → Listens r new (piece ++ more) s now told after (client_fed_twice first second) }
{}

/// However bytes are cut, a server makes the same of them: a call that took its whole piece, or
/// wanted memory, and then one with what is left of it and more, are one call with all of the
/// bytes.
pub fn pieces_are_served<E: Engine>()
    ensures { (answers : Answers) (r mid new : Reading) (piece more : List ℕ)
        (s between now : ServerState E) (reply some after : List ℕ) (first second : ServerFed)
        → Serves answers r mid piece s between reply some first → ServerGoesOn first.stop
        → first.count ≤ length piece
        → Serves answers mid new (drop first.count piece ++ more) between now some after second
        → Serves answers r new (piece ++ more) s now reply after (server_fed_twice first second) }
{}

/// Where packets come, and then less than one, and a client is to take each of them, it takes them
/// all, unless it wants memory.
pub fn whole_packets_are_heard()
    ensures { (r new : Reading) (piece rest : List ℕ) (s now : ClientSession)
        (told after : List Token) (fed : ClientFed) (packets : List Coming) (then : Listened)
        → Listens r new piece s now told after fed → Comes r (r.taken ++ piece) packets rest
        → listened s None told packets ≡ Some then → fed.stop ≢ Some client_stop.NoMemory
        → (fed.stop ≡ None) × IsListened now fed.settled after then × (new ≡ with_taken r rest) }
{
    one_packet();
    fronts();
}

/// Where packets come, and then less than one, and a server is to take each of them, it takes them
/// all, unless it wants memory.
pub fn whole_packets_are_served<E: Engine>()
    ensures { (answers : Answers) (r new : Reading) (piece rest : List ℕ)
        (s now : ServerState E) (reply after : List ℕ) (fed : ServerFed) (packets : List Coming)
        (then : Served E)
        → Serves answers r new piece s now reply after fed → Comes r (r.taken ++ piece) packets rest
        → served answers s reply packets ≡ Some then → fed.stop ≢ Some server_stop.NoMemory
        → (fed.stop ≡ None) × IsServed now after then × (new ≡ with_taken r rest) }
{
    one_packet();
    fronts();
}

/// A client takes a request exactly where the model does, and then stands for its connection.
pub fn asks_alike()
    ensures { (s : ClientSession) (c : Connection) (number lease n : ℕ) (q : Request)
        → MatchesClient s c
        → RefinesAsk number (started s q) (unless_idle s.stage)
        (asks_by (is_idle c) number lease n q c) }
{}

/// A client sends exactly where the model does: the bytes of the same entry.
pub fn sends_alike()
    ensures { (s : ClientSession) (c : Connection) → MatchesClient s c
        → RefinesSend c (sent s) (sends_in (phase c) (room s) c.current c) }
{
    phases_tell();
}

/// A server works exactly where the model does: it does the same step, and sends the bytes of the
/// same entry.
pub fn works_alike<E: Engine>()
    ensures { (s : ServerState E) (c : Connection) → MatchesServer s c → EndsIfDue c.due
        → RefinesWork c (worked s) }
{}

/// A server takes the packet of each entry that arrives as the model does, without a fault: it
/// holds the same then, and acknowledges where the model does.
pub fn arrives_alike<E: Engine>()
    ensures { (answers : Answers) (s : ServerState E) (c : Connection) (q : Record) (e : Up)
        → Lawful answers
        → MatchesServer s c → c.current ≡ Some q → IsSpelled q.asking → IsNext q.asking c.parts e
        → ServerExpects c e
        → RefinesArrive answers c e (taken answers s (up_packet e).header (up_packet e).body) }
{
    spelled_is_read();
}

/// A client takes the packet of each entry that arrives as the model does, without a fault: it
/// tells the caller the same tokens, ends the request where the model does, and hears the same.
pub fn hears_alike()
    ensures { (s : ClientSession) (c : Connection) (q : Record) (e : Down) → MatchesClient s c
        → c.current ≡ Some q
        → IsAwaited c q e
        → RefinesHear c q e (client_taken s
        (has_bit (bits_of (down_packet e).header.status) 1) (down_packet e).body) }
{
    spelled_are_read();
    phases_tell();
}

/// What an end does leaves the other end as it is, and standing for the connection: a client that
/// asks, sends, cancels or hears its server, a server that works or takes an entry its client. So
/// does a whole delivery.
pub fn the_other_stays<E: Engine>()
    ensures asks { (number lease n : ℕ) (q : Request) (s : ServerState E) (c : Connection)
        → c.parts ≡ [] → MatchesServer s c → MatchesServer s (asks number lease n q c) }
    ensures sends { (room : ℕ) (s : ServerState E) (c : Connection) (q : Record)
        → c.current ≡ Some q
        → MatchesServer s c → MatchesServer s (sends room q c) }
    ensures cancels { ServerStays E cancels }
    ensures hears { (s : ServerState E) (c : Connection) (e : Down) → MatchesServer s c
        → MatchesServer s (client_acts c e) }
    ensures listens { (most : ℕ) → ServerStays E (to_client most) }
    ensures works { (s : ClientSession) (c : Connection) → MatchesClient s c
        → MatchesClient s (works c) }
    ensures arrives { (answers : Answers) (s : ClientSession) (c : Connection) (e : Up)
        → MatchesClient s c → MatchesClient s (server_acts answers c e) }
    ensures serves { (answers : Answers) (most : ℕ) → ClientStays (to_server answers most) }
{}

/// Neither end sees where its connection stands in the pool, and the server doesn't see its mark.
pub fn pool_is_unseen<E: Engine>()
    ensures { PoolIsUnseen E }
{}

/// A client that stands for a connection is idle exactly where nobody waits for an answer there.
pub fn idle_alike()
    ensures { RefinesIdle }
{}

/// A client cancels as the model does, in each phase: it sends the bytes of the same entries.
pub fn cancels_alike()
    ensures { (s : ClientSession) (c : Connection) → MatchesClient s c → RefinesCancel s c }
{
    phases_tell();
}

/// The ends of a new connection stand for a new connection of the model. A client that is marked
/// for a reset stands for a connection that is lent again.
pub fn lends_matching<E: Engine>()
    ensures client { (size : ℕ) (on_attention : OnAttention) (p : Place)
        → MatchesClient (new_session size) (new_connection on_attention p) }
    ensures server { (engine : E) (on_attention : OnAttention) (p : Place)
        → MatchesServer (server_with on_attention engine) (new_connection on_attention p) }
    ensures marked { (s : ClientSession) (c : Connection) (r : Reset) (standing : Standing)
        → MatchesClient s c → phase c ≡ Settled
        → MatchesClient (marked s r)
        (record c { mark = strongest (Some r) c.mark; standing = standing }) }
{}

/// Whatever the engine, a client can hear the DONEs of each step of its answers: more follows a
/// statement, and the last one ends the answer. A step that takes a reset tells its end alone.
pub fn answers_are_said<E: Engine>(engine: &E)
    ensures { (s : SessionState) (descriptor : ℕ) (reset : Option Reset) (q : Request)
        → AllByRecursion IsSaid
        (answer_of (E.statements_of engine.now) (E.step_of engine.now) s descriptor reset q) }
{
    engine_is_lawful(engine);
    engine_has_dones(engine);
}

/// A server that is fed the bytes of entries takes those that come whole as the model does, in
/// order, and is left with what has come of the next one.
pub fn serves_alike<E: Engine>()
    ensures { (answers : Answers) (r : Reading) (c : Connection) (es : List Up) (k : ℕ)
        (s : ServerState E) (reply : List ℕ)
        → AllArrive E answers r c es → MatchesServer s c
        → RefinesServes E answers r (take k (flat_map up_bytes es)) c
        (reach_server answers c es k) s reply }
{}

/// All that waits for a server is packets to its reader, and a server that stands for the
/// connection takes each as the model does, one after the other: where each is the next piece of
/// its message, is welcome, and fits the packet size.
pub fn all_arrive<E: Engine>()
    ensures { (answers : Answers) (r : Reading) (c : Connection) → Lawful answers
        → r.direction ≡ ToServer → AreWhole c
        → WelcomeToServer answers c c.to_server.waiting
        → AllByRecursion (λ e. IsSized r.size (up_packet e)) c.to_server.waiting
        → AllArrive E answers r c c.to_server.waiting }
{
    arrives_alike::<E>();
}

/// A client that is fed the bytes of entries hears those that come whole as the model does, in
/// order, and is left with what has come of the next one.
pub fn listens_alike()
    ensures { (r : Reading) (c : Connection) (es : List Down) (k : ℕ) (s : ClientSession)
        (settled : Option RequestStatus) (told : List Token)
        → AllHeard r c es → MatchesClient s c
        → RefinesListens r (take k (flat_map down_bytes es)) c
        (reach_client c es k) s settled told }
{}

/// What an end sends is appended to all that was sent on its lane.
pub fn sends_append()
    ensures to_server { (more : List ℕ) (old new : Lane Up) → Sends up_bytes more old new
        → sent_bytes up_bytes new ≡ sent_bytes up_bytes old ++ more }
    ensures to_client { (more : List ℕ) (old new : Lane Down) → Sends down_bytes more old new
        → sent_bytes down_bytes new ≡ sent_bytes down_bytes old ++ more }
{}

/// In every world, each entry that waits for a client is a packet to its reader, and a client that
/// stands for the connection hears it as the model does, one after the other.
pub fn all_heard<E: Engine>(engine: &E)
    ensures { (setup : Setup) → IsSetup setup
        → Always setup (answer_of (E.statements_of engine.now) (E.step_of engine.now))
        (λ w. OfEachConnection (λ c. (r : Reading) → r.direction ≡ ToClient
        → r.size ≡ setup.packet_size → AllHeard r c c.to_client.waiting) w) }
{
    engine_is_lawful(engine);
    engine_stays_in_range(engine);
    answers_are_said(engine);
    hears_alike();
    all_welcome();
    act_on_newest();
    changes_are_heard();
    all_in_range();
    steps_are_of_answers();
}

/// All that waits for a server arrives there as in the model, and 4,094 bytes at most are underway.
pub fn arrivals_hold<E: Engine>(engine: &E)
    ensures { (setup : Setup) → IsSetup setup
        → AlwaysOf IsEvent setup (answer_of (E.statements_of engine.now) (E.step_of engine.now))
        (OfEachConnection (λ c. ((r : Reading) → r.direction ≡ ToServer → r.size ≡ setup.packet_size
        → AllArrive E (answer_of (E.statements_of engine.now) (E.step_of engine.now)) r c
        c.to_server.waiting)
        × (up_underway c ≤ 4094))) }
{
    engine_is_lawful(engine);
    engine_stays_in_range(engine);
    messages_are_whole();
    all_welcome();
    packets_fit();
    few_underway();
    all_arrive::<E>();
}
