//! What a message that is asked in one call is in the words of `tds_client`. The function does
//! nothing when it runs: its contract is the law.

ghost use Rattle.std.specs.Prelude.{◌≡◌, ◌∷◌, ◌+◌, ◌≤◌, ◌++◌, [], ℕ, List, Ok, length, true};
ghost use Rattle.tds_packet.specs.Resets.{mark_bit};
ghost use Rattle.tds_packet.specs.Size.{IsPacketSize};
ghost use Rattle.tds_packet.specs.Sent.{end_bit};
ghost use Rattle.tds_client.specs.declared.message.MessageKind.{MessageKind};
ghost use Rattle.tds_client.specs.Packets.{packet_bytes};
ghost use Rattle.tds_client.specs.Sending.{room};
ghost use Rattle.tds_client.specs.Session.{ClientSession, Reading, with_stage};
ghost use Rattle.tds_client.specs.Streamed.{Streams};
ghost use Rattle.tds_client.specs.Streams.{headers_of, opened, packets_are};
ghost use Rattle.tds_c.specs.Asking.{ask_on};

/// A message that is asked in one call is the stream of its body as one part, of which
/// `message_is_spelled` speaks. Where it is no longer than the data of a packet, it is that packet,
/// with the reset that is asked for, and the client reads the answer.
pub fn asked_is_streamed()
    ensures stream { (s behind : ClientSession) (kind : MessageKind) (body bytes : List ℕ)
        → ask_on kind body s ≡ Ok (record { answer = tt; session = behind; bytes = bytes })
        → Streams (opened s kind) (body ∷ []) bytes behind }
    ensures packet { (s behind : ClientSession) (kind : MessageKind) (body bytes : List ℕ)
        → IsPacketSize s.size → length (headers_of s.heard kind ++ body) ≤ room s
        → ask_on kind body s ≡ Ok (record { answer = tt; session = behind; bytes = bytes })
        → (behind ≡ with_stage s Reading)
        × (bytes ≡ packet_bytes (packets_are kind) (end_bit true + mark_bit 0 s.heard.mark) 0
        (headers_of s.heard kind ++ body)) }
{}
