//! What the judge finds of a connection of `tds_service`. Each contract is the law.

ghost use Rattle.std.specs.Prelude.{◌≡◌, ◌∷◌, ◌++◌, ℕ, List, [], Some, false};
ghost use Rattle.tds_packet.specs.Size.{IsPacketSize};
ghost use Rattle.tds_wire.specs.Reading.{Parser};
ghost use Rattle.tds_wire.specs.declared.told.Token.{Token};
ghost use Rattle.tds_service.specs.Line.{Act, new_line};
ghost use Rattle.tds_service.specs.History.{history};
ghost use Rattle.tds_judge.specs.Conversation as judging;
ghost use Rattle.tds_judge.specs.Conversation.{seen};
ghost use Rattle.tds_judge.specs.Framing.{IsNew, run_of};
ghost use Rattle.tds_judge.specs.History.{Said, Tells};
ghost use Rattle.tds_judge.specs.Told.{has_breach, is_broken};
ghost use Rattle.tds_judge.specs.declared.finding.Spot.{Spot};
ghost use Rattle.tds_judge.specs.declared.judge.Judge.{Judge};
ghost use Rattle.tds_judge.specs.declared.talk.Event.{Event};
ghost use Rattle.tds_judge.specs.declared.talk.Event.TheVariants as events;
ghost use Rattle.tds_judge.specs.declared.talk.Limits.{Limits};
ghost use Rattle.laws_conforming_server.specs.Answering.{NoFault};
ghost use Rattle.laws_conforming_server.specs.Lawful.{AnyServer, IsLawful};
ghost use Rattle.laws_conforming_server.specs.Link.{IsRun, Move};
ghost use Rattle.laws_never_blamed.specs.Called.{AreCalled, Called, acts_of, handed, new_end};
ghost use Rattle.laws_never_blamed.specs.Crossing.{IsOfServer};
ghost use Rattle.laws_never_blamed.specs.Seen.{AllBehindLogin, Eye, conversation};
ghost use Rattle.laws_never_blamed.specs.Spelled.{AreSeen, IsHanded, Shown, new_watch, pieces};

use laws_conforming_server::laws::no_fault;
use tds_judge::laws::lawful_is_never_blamed;
use tds_wire::{Token, cuts_do_not_matter};

/// What is seen at a connection's end of a service, whatever is done there and whatever comes, is a
/// lawful conversation until something that comes is a fault. So no event of it is a breach. It holds
/// behind a login, and where bit 0020 stands in a DONE alone, the last token of its message.
pub fn own_conversations_are_lawful()
    ensures lawful { (eye : Eye) (acts : List (Act Token))
        → AllBehindLogin acts → NoFault (history new_line acts)
        → judging.IsLawful (conversation eye (history new_line acts)) }
    ensures blamed { (eye : Eye) (acts : List (Act Token))
        → AllBehindLogin acts → NoFault (history new_line acts)
        → is_broken [] (conversation eye (history new_line acts)) ≡ false }
{
    lawful_is_never_blamed();
}

/// Where the server keeps the rules, what is seen at a connection's end of a service is a lawful
/// conversation and never blamed: whatever it answers, whatever is asked, cancelled and reset, and
/// whichever way a cancel crosses an answer.
pub fn never_blamed_before_a_lawful_server<V>()
    ensures lawful { (engine : AnyServer V Token) (acts : List (Act Token))
        (moves : List (Move Token)) (eye : Eye)
        → IsLawful engine → IsRun engine moves (history new_line acts) → AllBehindLogin acts
        → judging.IsLawful (conversation eye (history new_line acts)) }
    ensures blamed { (engine : AnyServer V Token) (acts : List (Act Token))
        (moves : List (Move Token)) (eye : Eye)
        → IsLawful engine → IsRun engine moves (history new_line acts) → AllBehindLogin acts
        → is_broken [] (conversation eye (history new_line acts)) ≡ false }
{
    no_fault::<V, Token>();
    lawful_is_never_blamed();
}

/// What a new judge says of the bytes of a connection, each packet with its header, is what is seen
/// there: whatever is done, whatever comes and however requests are cut into packets, until something
/// that comes is a fault. So its bytes spell these events and no others.
pub fn bytes_spell_what_is_done()
    ensures { (limits : Limits) (judge : Judge) (reading : Parser) (acts : List (Act Token))
        (shown : List Shown)
        → IsNew limits judge → judge.parser ≡ Some reading
        → IsHanded reading (history new_line acts) shown → NoFault (history new_line acts)
        → (tells : Tells (run_of judge []) (seen (pieces shown) (run_of judge [])))
        × AreSeen new_watch [] (history new_line acts) tells.events }
{
    cuts_do_not_matter();
}

/// So no breach is found in the bytes of a connection before a server that keeps the rules, from a
/// login on: whatever is asked, cancelled and reset, whatever it answers, and whichever way a cancel
/// crosses an answer.
pub fn our_bytes_are_never_blamed<V>()
    ensures { (engine : AnyServer V Token) (moves : List (Move Token)) (limits : Limits)
        (judge : Judge) (reading : Parser) (acts : List (Act Token)) (shown : List Shown)
        → IsLawful engine → IsRun engine moves (history new_line acts) → AllBehindLogin acts
        → IsNew limits judge → judge.parser ≡ Some reading
        → IsHanded reading (history new_line acts) shown
        → has_breach (seen (pieces shown) (run_of judge [])).told ≡ false }
{
    no_fault::<V, Token>();
    lawful_is_never_blamed();
    cuts_do_not_matter();
}

/// And so of our own client: whatever its calls append, whatever comes of such a server, no breach is
/// found in the bytes. It begins with an idle client behind a login, for packets of any size.
pub fn our_calls_are_never_blamed<V>()
    ensures { (engine : AnyServer V Token) (moves : List (Move Token)) (limits : Limits)
        (judge : Judge) (reading : Parser) (size : ℕ) (calls : List Called)
        → IsPacketSize size → AreCalled (new_end size reading) calls
        → IsLawful engine
        → IsRun engine moves (history new_line (acts_of (new_end size reading) calls))
        → AllBehindLogin (acts_of (new_end size reading) calls)
        → IsNew limits judge → judge.parser ≡ Some reading
        → has_breach (seen (handed calls) (run_of judge [])).told ≡ false }
{
    our_bytes_are_never_blamed::<V>();
}

/// Nearer to the server an attention is seen later. Where what the server says before it may be said
/// without it, which is so of an answer that goes on, the conversation is lawful in both orders, and so
/// is whatever comes behind. As often as one likes: behind the end of the answer too.
pub fn attentions_may_be_seen_later()
    ensures { (past rest : List Said) (here there : Spot) (size status : ℕ) (event : Event)
        → IsOfServer event → judging.May past event
        → judging.IsLawful (rest ++ (record { spot = there; event = event })
        ∷ (record { spot = here; event = events.Attention size status }) ∷ past)
        → judging.IsLawful (rest ++ (record { spot = here; event = events.Attention size status })
        ∷ (record { spot = there; event = event }) ∷ past) }
{}
