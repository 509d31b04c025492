//! What an application of a relay can tell of the others. Each function does nothing when it runs: its
//! contract is the law.
ghost use Rattle.std.specs.Prelude.{◌≡◌, ◌++◌, ℕ, Bool, List};
ghost use Rattle.tds_service.specs.Service.{Seat};
ghost use Rattle.tds_relay.specs.declared.pool.Hold.{Hold};
ghost use Rattle.tds_relay.specs.Law.{IsAway, done_since};
ghost use Rattle.tds_relay.specs.Pool.{Sharing, turn};
ghost use Rattle.tds_relay.specs.Promises.{Each};
ghost use Rattle.tds_relay.specs.Giving.{ReadVisit, Visit, machine_at_visit};
ghost use Rattle.laws_as_if_alone.specs.Serving.{Moment, Server, World, fresh, new_world, reached};
ghost use Rattle.laws_as_if_alone.specs.Serving.{world_after};
ghost use Rattle.tds_state.specs.Pasts.{Remark};
ghost use Rattle.laws_as_if_alone.specs.Alone.{AllOrderly, AsIfAlone, IsAtRest, all_asks, found_next};
ghost use Rattle.laws_as_if_alone.specs.Alone.{given, underway};
ghost use Rattle.laws_as_if_alone.specs.Bytes.{AllRead, ReadAsIfAlone, TokenParsers, parsers_in};
ghost use Rattle.laws_as_if_alone.specs.Telling.{AllParkedAtRest, RoundTrip, Remarked, TellsAll};
ghost use Rattle.laws_as_if_alone.specs.Telling.{all_trips_after, moments_of, no_trips};
ghost use Rattle.laws_as_if_alone.specs.Turns.{AllParkedFresh, AsIfUnparked};
ghost use Rattle.laws_as_if_alone.specs.Visits.{AllSaid, HasMemory, Moments, world_in};

use tds_relay::laws::waits_once;

/// Whatever others do, whatever comes on other connections, and whatever is cut: what an application is
/// given, and what is underway to it, is what a server of its own answers to what it asks, but for the news
/// of resets.
pub fn as_if_alone<V>()
    // What an application is given, and what is underway to it, is what a new server of its own answers to
    // what it asks, whatever is cut: from a moment at which it neither waits nor holds a connection.
    ensures new { (server : Server V) (sharing : Sharing) (key : ℕ)
        (before moments : List (Moment V))
        → IsAway key (reached server sharing before).pool
        → AllOrderly turn key server (reached server sharing before) moments
        → AsIfAlone turn key server (fresh server) (reached server sharing before) moments
        (world_after turn server (reached server sharing before) moments) }
    // So it is from a moment at which it holds a connection and asks nothing there, of a server in the
    // session that its next request finds.
    ensures rest { (server : Server V) (sharing : Sharing) (key : ℕ)
        (before moments : List (Moment V)) (h : Hold) (c : Seat)
        → IsAtRest key (reached server sharing before).pool h c
        → AllOrderly turn key server (reached server sharing before) moments
        → AsIfAlone turn key server (found_next server (reached server sharing before) h c)
        (reached server sharing before) moments
        (world_after turn server (reached server sharing before) moments) }
{}

/// An application that is parked only where its session is as a new one can't tell that it was: what it is given, and
/// what is underway to it, is what a new server of its own answers to its requests and its own resets alone. It is so
/// of any moments in which it lets its connection go while it asks nothing there, and its next request would find a
/// new session.
pub fn alone_by_turns<V>()
    // So it is from a moment at which it neither waits nor holds a connection;
    ensures new { (server : Server V) (sharing : Sharing) (key : ℕ) (parks : Moment V → Bool)
        (before moments : List (Moment V))
        → IsAway key (reached server sharing before).pool
        → AllOrderly turn key server (reached server sharing before) moments
        → AllParkedFresh parks turn key server (reached server sharing before) moments
        → AsIfUnparked parks turn key server (fresh server) (reached server sharing before) moments
        (world_after turn server (reached server sharing before) moments) }
    // and from where it enters a relay, behind any steps, and while it stays.
    ensures visits { (server : Server V) (sharing : Sharing) (key : ℕ) (parks : Moment V → Bool)
        (v : Visit sharing key) (ms : Moments V v)
        → AllSaid turn key server (world_in server ms) ms.since
        → AllParkedFresh parks turn key server (world_in server ms) ms.since
        → AsIfUnparked parks turn key server (fresh server) (world_in server ms) ms.since
        (world_after turn server (world_in server ms) ms.since) }
{
    waits_once();
}

/// An application that is parked only where its connection rests, by what was asked there and what its server told
/// (`lets_rest`, line by line in `tds_state`), can't tell that it was, where that server tells all: of whatever may
/// be trips with it, where that lets the session rest, it is as a reset would make it (`TellsAll`).
pub fn alone_where_all_is_told<V, E>()
    // So it is from a moment at which it neither waits nor holds a connection;
    ensures new { (server : Server V) (login : List Remark) (may : E → List (RoundTrip V))
        (sharing : Sharing) (key : ℕ) (parks : Moment V → Bool) (before since : List (Remarked V))
        → TellsAll server login may
        → IsAway key (reached server sharing (moments_of before)).pool
        → AllOrderly turn key server (reached server sharing (moments_of before)) (moments_of since)
        → AllParkedAtRest parks turn key server login may
        (reached server sharing (moments_of before))
        (all_trips_after turn server (new_world server sharing) no_trips before) since
        → AsIfUnparked parks turn key server (fresh server)
        (reached server sharing (moments_of before)) (moments_of since)
        (world_after turn server (reached server sharing (moments_of before)) (moments_of since)) }
    // and from where it enters a relay, behind any steps, and while it stays.
    ensures visits { (server : Server V) (login : List Remark) (may : E → List (RoundTrip V))
        (sharing : Sharing) (key : ℕ) (parks : Moment V → Bool) (v : Visit sharing key)
        (ms : Moments V v) (before since : List (Remarked V))
        → moments_of before ≡ ms.before → moments_of since ≡ ms.since
        → TellsAll server login may
        → AllSaid turn key server (world_in server ms) ms.since
        → AllParkedAtRest parks turn key server login may (world_in server ms)
        (all_trips_after turn server (new_world server sharing) no_trips before) since
        → AsIfUnparked parks turn key server (fresh server) (world_in server ms) ms.since
        (world_after turn server (world_in server ms) ms.since) }
{
    waits_once();
}

/// Whoever shares with it, an application is given the same where it asks the same, as far as both go.
pub fn given_alike<V>()
    ensures { (server : Server V) (sharing alike : Sharing) (key other : ℕ)
        (before there moments others : List (Moment V))
        → IsAway key (reached server sharing before).pool
        → IsAway other (reached server alike there).pool
        → AllOrderly turn key server (reached server sharing before) moments
        → AllOrderly turn other server (reached server alike there) others
        → all_asks turn key server 0 (reached server sharing before) moments
        ≡ all_asks turn other server 0 (reached server alike there) others
        → given turn key server (reached server sharing before) moments
        ++ underway key (world_after turn server (reached server sharing before) moments)
        ≡ given turn other server (reached server alike there) others
        ++ underway other (world_after turn server (reached server alike there) others) }
{}

/// What an application is given, and what is underway to it, is what a new server of its own answers to what
/// it asks, but for the news of resets: from where it enters a relay, behind any steps, and while it stays.
/// Only of what comes of the answers that it reads something is supposed: it's what the server says next.
pub fn alone_in_visits<V>()
    ensures given { (server : Server V) (sharing : Sharing) (key : ℕ) (v : Visit sharing key)
        (ms : Moments V v)
        → AllSaid turn key server (world_in server ms) ms.since
        → AsIfAlone turn key server (fresh server) (world_in server ms) ms.since
        (world_after turn server (world_in server ms) ms.since) }
    // A renewal, by which an application keeps its open transaction, never wants memory: so its own server is
    // asked for a full reset in its place by none. Where no transaction is open it is parted, and is asked for one.
    ensures keeps { (sharing : Sharing) (key : ℕ) (v : Visit sharing key)
        → Each HasMemory (done_since v) }
{
    waits_once();
}

/// What an application is given in bytes: the tokens of the data of the packets that come on the connection that it
/// is lent, each read from where the one before has left that connection's parser, and what is underway to it, are
/// what a new server of its own answers to what it asks, but for the news of resets. From where it enters a relay,
/// behind any steps, and while it stays.
pub fn alone_in_bytes<V>()
    // The first packet on each connection is read by a parser that has read nothing: so it is in all steps that calls
    // of a relay make, from a new one on (`read_from_new` of `tds_relay`).
    ensures new { (server : Server V) (sharing : Sharing) (key : ℕ) (v : ReadVisit sharing key)
        (ms : Moments V v.visit)
        → AllSaid turn key server (world_in server ms) ms.since
        → ReadAsIfAlone turn server (fresh server) (parsers_in v) v.visit (world_in server ms)
        ms.since (world_after turn server (world_in server ms) ms.since) }
    // So it is from wherever parsers stand, where each packet is read from there.
    ensures there { (server : Server V) (sharing : Sharing) (key : ℕ) (v : Visit sharing key)
        (ms : Moments V v) (at : TokenParsers) → AllRead at (machine_at_visit v) v.since
        → AllSaid turn key server (world_in server ms) ms.since
        → ReadAsIfAlone turn server (fresh server) at v (world_in server ms) ms.since
        (world_after turn server (world_in server ms) ms.since) }
{
    alone_in_visits::<V>();
}
