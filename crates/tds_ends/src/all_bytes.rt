//! What an end makes of all the bytes that ever came to it, whatever they are: laws of the contracts
//! of `listen` and `serve`.
ghost use Rattle.std.specs.Prelude.{◌≡◌, ◌++◌, ℕ, List, [], Option};
ghost use Rattle.tds_client.specs.Session.{ClientSession};
ghost use Rattle.tds_ends.specs.AllBytes.{HasNoFault, HasRead, ServerHasRead, ServerReads};
ghost use Rattle.tds_ends.specs.AllBytes.{AreToldBy, ClientHasRead, ClientReads, new_reader};
ghost use Rattle.tds_ends.specs.Ends.{Listens, Serves};
ghost use Rattle.tds_ends.specs.Feeding.{Coming};
ghost use Rattle.tds_ends.specs.declared.listening.ClientFed.{ClientFed};
ghost use Rattle.tds_ends.specs.declared.serving.ServerFed.{ServerFed};
ghost use Rattle.tds_packet.specs.Reading.{Reading};
ghost use Rattle.tds_packet.specs.declared.kind.Direction.{Direction};
ghost use Rattle.tds_server.specs.State.{ServerState};
ghost use Rattle.tds_session.specs.Answer.{Answers};
ghost use Rattle.tds_token.specs.declared.token.Token.{Token};

use tds_packet::laws::{fronts, one_packet};
use tds_session::Engine;

/// Before any byte came.
pub fn nothing_is_read()
    ensures { (direction : Direction) (size : ℕ)
        → HasRead (new_reader direction size) (new_reader direction size) [] [] }
{}

/// Where a reader has read all bytes, none of their headers has a fault.
pub fn no_fault_is_read()
    ensures { (first now : Reading) (bytes : List ℕ) (packets : List Coming)
        → HasRead first now bytes packets → HasNoFault first bytes }
{
    one_packet();
    fronts();
}

/// Where a server's reader has read all the bytes that came, and the server is fed a piece more.
pub fn all_bytes_are_served<E: Engine>()
    ensures { (answers : Answers) (first r new : Reading) (piece bytes : List ℕ)
        (s now : ServerState E) (reply after : List ℕ) (fed : ServerFed)
        → ServerHasRead first r bytes → Serves answers r new piece s now reply after fed
        → ServerReads fed.stop first new (bytes ++ piece) }
{}

/// Where a client's reader has read all the bytes that came, and the client is fed a piece more.
/// What its callers were given before, and are told now, are some of the tokens that are told by
/// the packets.
pub fn all_bytes_are_heard()
    ensures { (first r new : Reading) (piece bytes : List ℕ) (s now : ClientSession)
        (told after given : List Token) (fed : ClientFed)
        → ClientHasRead first r s.columns bytes (given ++ told)
        → Listens r new piece s now told after fed
        → ClientReads fed.stop first new now.columns (bytes ++ piece) (given ++ after) }
{}

/// The tokens that a client's callers were given are told by the packets that came.
pub fn given_are_told()
    ensures { (first now : Reading) (columns : Option ℕ) (bytes : List ℕ) (given : List Token)
        → ClientHasRead first now columns bytes given → AreToldBy first bytes given }
{}
