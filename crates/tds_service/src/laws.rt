//! What holds of one connection, whatever its peer sends and whatever is called, in whatever order.
//! Each function does nothing when it runs: its contract is the law.

ghost use Rattle.std.specs.Prelude.{◌≡◌, ◌≤◌, ◌+◌, ◌++◌, ℕ, List, Bool, Some, false};
ghost use Rattle.tds_packet.specs.Reading.{joined};
ghost use Rattle.tds_client.specs.declared.message.MessageKind.{MessageKind};
ghost use Rattle.tds_client.specs.Promises.{AreParts};
ghost use Rattle.tds_client.specs.Session.{ClientSession};
ghost use Rattle.tds_client.specs.Streams.{headers_of, opened, packets_are};
ghost use Rattle.tds_service.specs.declared.connection.Connection.{Connection};
ghost use Rattle.tds_service.specs.declared.service.Service.{Service};
ghost use Rattle.tds_service.specs.Line.{Act, new_line};
ghost use Rattle.tds_service.specs.History.{history, line_after};
ghost use Rattle.tds_service.specs.Acknowledging.{SettlesRight};
ghost use Rattle.tds_service.specs.Newest.{NamesNewest};
ghost use Rattle.tds_service.specs.Promises.{AsksUnawaited, FaultsUnawaited, NothingBehindCancel, Paired};
ghost use Rattle.tds_service.specs.Promises.{attentions, acknowledgements};
ghost use Rattle.tds_service.specs.Promises.{AsksAsOwed, LeavesNoneOwed, NamesAsHeard};
ghost use Rattle.tds_service.specs.Promises.{nothing_known};
ghost use Rattle.tds_service.specs.Sizes.{AllSized, Sized};
ghost use Rattle.tds_service.specs.Spelling.{Spells, SpellsBy};
ghost use Rattle.tds_service.specs.Table.{TurnsInto, client_of};

use tds_client::stream_laws::message_is_spelled;

/// What a request is given are the tokens of its own message, in order, and nothing else.
pub fn paired<T>()
    ensures { (acts : List (Act T)) → Paired (history new_line acts) }
{}

/// What comes where neither an answer nor an acknowledgement is awaited is a fault, and a request is
/// asked only there: behind a cancel, once it is acknowledged.
pub fn unawaited<T>()
    ensures faults { (acts : List (Act T)) → FaultsUnawaited Bool.false (history new_line acts) }
    ensures asks { (acts : List (Act T)) → AsksUnawaited Bool.false (history new_line acts) }
{}

/// Behind its cancel a request is given nothing.
pub fn after_cancel<T>()
    ensures { (acts : List (Act T)) → NothingBehindCancel (history new_line acts) }
{}

/// In any stretch of calls at most one attention more goes out than are acknowledged.
pub fn one_attention<T>()
    ensures { (before acts : List (Act T))
        → attentions (history (line_after new_line before) acts)
        ≤ acknowledgements (history (line_after new_line before) acts) + 1 }
{}

/// The first packet of a request asks for the reset that is owed, and no other packet for any.
/// One that was marked is owed until its end is heard. A request whose whole answer came leaves none
/// owed: where its end wasn't told, that is a fault of the server (MS-TDS 2.2.7.9, type 18).
pub fn asks_for_reset<T>()
    ensures owed { (acts : List (Act T)) → AsksAsOwed nothing_known (history new_line acts) }
    ensures answered { (acts : List (Act T))
        → LeavesNoneOwed nothing_known (history new_line acts) }
{}

/// A request's header names the transaction that was heard last, or none under a full reset.
pub fn names_descriptor<T>()
    ensures { (acts : List (Act T)) → NamesAsHeard nothing_known (history new_line acts) }
{}

/// A request has the number behind the one before, and whichever is cancelled, answered or acknowledged
/// is the newest one.
pub fn names_newest<T>()
    ensures { (acts : List (Act T)) → NamesNewest 0 (history new_line acts) }
{}

/// A cancelled request is settled exactly at the end of a message with an acknowledgement.
pub fn idle_by_acknowledgement<T>()
    ensures { (acts : List (Act T))
        → SettlesRight Bool.false Bool.false (history new_line acts) }
{}

/// All that goes out of a request, from its asking to its finish, is packets of the kind that was asked
/// for, whose data joined are its headers and then the bytes that were put, in order. The first packet
/// alone has the bit of the reset that is asked for; each is full but the last, which alone has end of
/// message. Full is the size that was handed over as the connection, or its service, was made: `new`
/// says so, and each call keeps it. So it is by a lease too, whatever is done by others in between.
pub fn request_is_spelled()
    ensures connection { (size : ℕ) (c asked behind : Connection) (kind : MessageKind)
        (parts : List (List ℕ)) (bytes : List ℕ) → Sized size c
        → asked.client ≡ opened c.client kind → Spells asked parts bytes behind
        → (packets : List (List ℕ)) × (bytes ≡ joined packets)
        × AreParts size (packets_are kind) c.client.heard.mark 0 packets
        (headers_of c.client.heard kind ++ joined parts) }
    ensures lease { (size lease : ℕ) (old asked next behind : Service) (s : ClientSession)
        (kind : MessageKind) (parts : List (List ℕ)) (bytes : List ℕ) → AllSized size old
        → TurnsInto lease old asked s (opened s kind) → client_of lease next ≡ client_of lease asked
        → SpellsBy lease next parts bytes behind
        → (packets : List (List ℕ)) × (bytes ≡ joined packets)
        × AreParts size (packets_are kind) s.heard.mark 0 packets
        (headers_of s.heard kind ++ joined parts) }
{
    message_is_spelled();
}
