//! What the judge finds of a relay's two sides (`tds_relay`). Each contract is the law.

ghost use Rattle.std.specs.Prelude.{◌≡◌, ℕ, List, [], Some, false};
ghost use Rattle.tds_wire.specs.Reading.{Parser};
ghost use Rattle.tds_wire.specs.declared.told.Token.{Token};
ghost use Rattle.tds_service.specs.History.{acts_of};
ghost use Rattle.tds_relay.specs.Pool.{Event, Sharing};
ghost use Rattle.tds_relay.specs.Fronting.{done_on};
ghost use Rattle.tds_relay.specs.Giving.{Visit, done_in};
ghost use Rattle.tds_judge.specs.Conversation as judging;
ghost use Rattle.tds_judge.specs.Conversation.{seen};
ghost use Rattle.tds_judge.specs.Framing.{IsNew, run_of};
ghost use Rattle.tds_judge.specs.Told.{has_breach, is_broken};
ghost use Rattle.tds_judge.specs.declared.judge.Judge.{Judge};
ghost use Rattle.tds_judge.specs.declared.talk.Limits.{Limits};
ghost use Rattle.laws_conforming_server.specs.Answering.{NoFault};
ghost use Rattle.laws_conforming_server.specs.Lawful.{AnyServer, IsLawful};
ghost use Rattle.laws_conforming_server.specs.Link.{IsRun, Move};
ghost use Rattle.laws_never_blamed.specs.Relayed.{AllSupposed, ComeBehindLogin, Side, relayed};
ghost use Rattle.laws_never_blamed.specs.Seen.{AllBehindLogin, Eye, conversation};
ghost use Rattle.laws_never_blamed.specs.Spelled.{IsHanded, Shown, pieces};

use crate::laws::our_bytes_are_never_blamed;
use laws_conforming_server::laws::no_fault;
use tds_front::laws::bytes_are_packets;
use tds_judge::laws::lawful_is_never_blamed;
use tds_service::table_laws::{each_alone, line_by_history};
use tds_wire::Token;

/// Towards servers: what is seen on each connection of a relay, whoever shares it, whatever the applications
/// say and whatever comes, is a lawful conversation until something that comes is a fault. It holds behind a
/// login, and of any events of its pool, where each call of a relay leads (`any_bytes` of `tds_relay`).
pub fn relay_to_servers<V>()
    ensures lawful { (sharing : Sharing) (number : ℕ) (events : List Event) (eye : Eye)
        → AllBehindLogin (acts_of (done_on sharing number events))
        → NoFault (done_on sharing number events)
        → judging.IsLawful (conversation eye (done_on sharing number events)) }
    /// So before a server that keeps the rules none of it is a breach,
    ensures blamed { (engine : AnyServer V Token) (moves : List (Move Token)) (sharing : Sharing)
        (number : ℕ) (events : List Event) (eye : Eye)
        → IsLawful engine → IsRun engine moves (done_on sharing number events)
        → AllBehindLogin (acts_of (done_on sharing number events))
        → is_broken [] (conversation eye (done_on sharing number events)) ≡ false }
    /// and none is found in the connection's bytes, where those that go out are what was done there.
    ensures bytes { (engine : AnyServer V Token) (moves : List (Move Token)) (limits : Limits)
        (judge : Judge) (reading : Parser) (sharing : Sharing) (number : ℕ) (events : List Event)
        (shown : List Shown)
        → IsLawful engine → IsRun engine moves (done_on sharing number events)
        → AllBehindLogin (acts_of (done_on sharing number events))
        → IsNew limits judge → judge.parser ≡ Some reading
        → IsHanded reading (done_on sharing number events) shown
        → has_breach (seen (pieces shown) (run_of judge [])).told ≡ false }
{
    each_alone::<Token>();
    no_fault::<V, Token>();
    lawful_is_never_blamed();
    our_bytes_are_never_blamed::<V>();
}

/// Towards applications: what is seen between an application and its end of a relay, in that end's order, from
/// where it enters and while it stays, whoever shares with it, is a lawful conversation, as far as the
/// application keeps the rules: an answer comes only where one is awaited, an acknowledgement only of its own
/// attention, and each reset that it asks for is told. Of what servers say it is supposed that each change of a
/// transaction fits what the application was told last, and that an answer ends behind a final DONE.
pub fn relay_to_applications()
    ensures lawful { (side : Side) (sharing : Sharing) (key : ℕ) (v : Visit sharing key)
        → ComeBehindLogin sharing (done_in v) → AllSupposed (relayed side v)
        → judging.IsLawful (relayed side v) }
    /// So no event of it is a breach.
    ensures blamed { (side : Side) (sharing : Sharing) (key : ℕ) (v : Visit sharing key)
        → ComeBehindLogin sharing (done_in v) → AllSupposed (relayed side v)
        → is_broken [] (relayed side v) ≡ false }
{
    each_alone::<Token>();
    line_by_history::<Token>();
    bytes_are_packets();
    lawful_is_never_blamed();
}
