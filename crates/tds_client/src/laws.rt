//! What follows from the definitions that the contracts of the calls name. Each function does
//! nothing when it runs: its contract is the law.

ghost use Rattle.std.specs.Prelude.{◌≡◌, ◌+◌, ℕ, List, [], Bool, None, Some, Ok};
ghost use Rattle.std.specs.Prelude.{if◌then◌else◌, is_some, true};
ghost use Rattle.tds_packet.specs.declared.reader.PacketRef.{PacketRef};
ghost use Rattle.tds_packet.specs.Size.{IsPacketSize};
ghost use Rattle.tds_request.specs.declared.request.Request.{Request};
ghost use Rattle.tds_request.specs.Layout.{kind_of_request, request_spelling, packet_kind};
ghost use Rattle.tds_token.specs.declared.token.Token.{Token};
ghost use Rattle.tds_token.specs.Contents.{contents_of};
ghost use Rattle.tds_token.specs.Told.{applied, changes_of, told};
ghost use Rattle.tds_client.specs.declared.heard.Heard.{Heard};
ghost use Rattle.tds_client.specs.declared.state.Cancelled.{Cancelled};
ghost use Rattle.tds_client.specs.declared.state.Cancelled.TheVariants as cancels;
ghost use Rattle.tds_client.specs.declared.state.Taken.TheVariants as takes;
ghost use Rattle.tds_client.specs.declared.client.parts.ClientParts.{ClientParts};
ghost use Rattle.tds_client.specs.Parts.{left_of, left_by, parts_of, session_from};
ghost use Rattle.tds_client.specs.Calls.{Call, after, appended, turn, turns};
ghost use Rattle.tds_client.specs.Hearing.{hear_all};
ghost use Rattle.tds_packet.specs.Resets.{reset_effect, header_descriptor};
ghost use Rattle.tds_client.specs.Marks.{mark_behind};
ghost use Rattle.tds_client.specs.Promises.{acknowledgements, ends_acknowledged, ends_message};
ghost use Rattle.tds_client.specs.Promises.{final_done, message_with};
ghost use Rattle.tds_client.specs.Promises.{AreParts, AsksOnce, AtMostAttentions, LeavesBy, Sends};
ghost use Rattle.tds_client.specs.Sending.{Effect, cancelled, started};
ghost use Rattle.tds_client.specs.Session.{ClientSession, new_session};
ghost use Rattle.tds_client.specs.Session.{Idle, Reading, Cancelling};
ghost use Rattle.tds_client.specs.Taking.{ClientMove, taken_of};

/// A packet that is taken in reading tells all of its tokens but the ENVCHANGEs, in their order.
/// One that is taken in cancelling tells nothing. Its data are tokens to their end, without a
/// fault.
#[tactic(auto, unfolding(crate::specs::Hearing::hear_packet, crate::specs::Taking::taken_reading, crate::specs::Taking::taken_cancelling))]
pub fn all_is_told()
    ensures reading { (s : ClientSession) (packet : PacketRef) (took : ClientMove)
        → s.stage ≡ Reading → taken_of s packet ≡ Ok took
        → took.tokens ≡ told (contents_of s.columns packet.«data».now).tokens }
    ensures cancelling { (s : ClientSession) (packet : PacketRef) (took : ClientMove)
        → s.stage ≡ Cancelling → taken_of s packet ≡ Ok took → took.tokens ≡ [] }
    ensures whole { (s : ClientSession) (packet : PacketRef) (took : ClientMove)
        → taken_of s packet ≡ Ok took → (contents_of s.columns packet.«data».now).fault ≡ None }
{}

/// Where tokens are heard without a fault, all their changes apply to the descriptor one after the
/// other, and the mark is what the changes leave of it: the end of a reset clears it, and nothing
/// else does.
pub fn changes_apply()
    ensures descriptor { (cancelling : Bool) (heard next : Heard) (tokens : List Token)
        → hear_all cancelling heard tokens ≡ Ok next
        → applied (reset_effect heard.mark) heard.descriptor (changes_of tokens)
        ≡ Some next.descriptor }
    ensures mark { (cancelling : Bool) (heard next : Heard) (tokens : List Token)
        → hear_all cancelling heard tokens ≡ Ok next
        → next.mark ≡ mark_behind (changes_of tokens) heard.mark }
{}

/// All that `send` appends from the start of a request up to the last packet is packets of the
/// request's type, whose data joined are its spelling: with descriptor 0 where a full reset is
/// asked for, and with the one that was heard elsewhere. And so many calls do send it.
pub fn request_is_spelled()
    ensures packets { (s behind : ClientSession) (request : Request) (packets : List (List ℕ))
        → IsPacketSize s.size → Sends (started s request) packets behind
        → AreParts s.size (packet_kind (kind_of_request request)) s.heard.mark 0 packets
        (request_spelling (header_descriptor s.heard.mark s.heard.descriptor) request) }
    ensures reads { (s behind : ClientSession) (request : Request) (packets : List (List ℕ))
        → IsPacketSize s.size → Sends (started s request) packets behind → behind.stage ≡ Reading }
    ensures ends { (s : ClientSession) (request : Request) → IsPacketSize s.size
        → (packets : List (List ℕ)) × (behind : ClientSession)
        × Sends (started s request) packets behind }
{}

/// A cancel that asks appends one attention, behind packets that are none, and the client is
/// cancelling then; any other cancel appends nothing. In cancelling a cancel does nothing, and only
/// an acknowledgement leads to idle. So no attention is out twice: of all that a client appends, in
/// any calls, at most one attention more goes out than acknowledgements are taken.
pub fn one_attention()
    ensures asked { (size : ℕ) (calls : List Call) (effect : Effect Cancelled) → IsPacketSize size
        → cancelled (after (new_session size) calls) ≡ Ok effect
        → AsksOnce size effect effect.answer }
    ensures already { (s : ClientSession) → s.stage ≡ Cancelling
        → cancelled s ≡ Ok (record { answer = cancels.Already; session = s; bytes = [] }) }
    ensures way_out { (s : ClientSession) (call : Call) → s.stage ≡ Cancelling
        → LeavesBy (turn s call).acknowledged (turn s call).session.stage }
    ensures never_twice { (size : ℕ) (before calls : List Call) (s : ClientSession)
        → IsPacketSize size
        → s ≡ after (new_session size) before
        → AtMostAttentions size (appended s calls) (acknowledgements (turns s calls) + 1) }
{}

/// A client that is cancelling is idle again exactly at the end of a message whose final DONE has
/// bit 0020, and answers there, and nowhere else, that its attention is acknowledged. One that is
/// reading is idle again, and answers so, exactly at the end of its message. No message ends
/// without a final DONE. All packets of the message count, those too that came before a cancel.
pub fn idle_by_acknowledgement()
    ensures cancelling { (size : ℕ) (calls : List Call) (s : ClientSession)
        (packet : PacketRef) (took : ClientMove)
        → s ≡ after (new_session size) calls → s.stage ≡ Cancelling → taken_of s packet ≡ Ok took
        → (took.answer
        ≡ (if ends_acknowledged calls packet then takes.Acknowledged else takes.More))
        × (took.session.stage ≡ (if ends_acknowledged calls packet then Idle else Cancelling)) }
    ensures reading { (s : ClientSession) (packet : PacketRef) (took : ClientMove)
        → s.stage ≡ Reading → taken_of s packet ≡ Ok took
        → (took.answer ≡ (if ends_message packet then takes.Finished else takes.More))
        × (took.session.stage ≡ (if ends_message packet then Idle else Reading)) }
    ensures finished { (size : ℕ) (calls : List Call) (s : ClientSession)
        (packet : PacketRef) (took : ClientMove)
        → s ≡ after (new_session size) calls → taken_of s packet ≡ Ok took
        → ends_message packet ≡ true
        → is_some (final_done (message_with calls packet)) ≡ true }
{}

/// A client that was taken apart and is put together again is the same. And what is put together
/// has these parts, and these bytes left where it is sending: no two parts are the same client.
pub fn parts_are_the_client()
    ensures again { (s : ClientSession) → session_from (parts_of s) (left_of s.stage) ≡ s }
    ensures parts { (p : ClientParts) (left : List ℕ) → parts_of (session_from p left) ≡ p }
    ensures left { (p : ClientParts) (left : List ℕ)
        → left_of (session_from p left).stage ≡ left_by p.stage left }
{}
