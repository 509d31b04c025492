//! What follows from the definitions that the contracts of a stream's calls name. Each function
//! does nothing when it runs: its contract is the law.

ghost use Rattle.std.specs.Prelude.{◌≡◌, ℕ, List, [], ◌∷◌, ◌++◌, Ok, true};
ghost use Rattle.tds_packet.specs.Reading.{joined};
ghost use Rattle.tds_packet.specs.Size.{IsPacketSize};
ghost use Rattle.tds_request.specs.declared.request.Request.{Request};
ghost use Rattle.tds_request.specs.Layout.{body_of, kind_of_request, packet_kind};
ghost use Rattle.tds_client.specs.declared.message.MessageKind.{MessageKind};
ghost use Rattle.tds_client.specs.Promises.{AreParts, Sends};
ghost use Rattle.tds_client.specs.Sending.{started};
ghost use Rattle.tds_client.specs.Session.{ClientSession, Reading};
ghost use Rattle.tds_client.specs.Streamed.{Streams};
ghost use Rattle.tds_client.specs.Streams.{has_headers, headers_of, opened, packets_are, put};

/// How a body is cut into parts doesn't matter: two parts that are put one behind the other leave
/// the client and append the packets that both of them as one part do.
pub fn parts_do_not_matter()
    ensures { (s middle behind : ClientSession) (one other first second : List ℕ)
        → IsPacketSize s.size
        → put s one ≡ Ok (record { answer = tt; session = middle; bytes = first })
        → put middle other ≡ Ok (record { answer = tt; session = behind; bytes = second })
        → put s (one ++ other)
        ≡ Ok (record { answer = tt; session = behind; bytes = first ++ second }) }
{}

/// All that a stream appends is packets of the message's type, whose data joined are its headers
/// and then the parts that were put, in order. PacketIDs count from 1; the first packet alone has
/// the bit of the reset that is asked for; each is full but the last, which alone has end of
/// message. Behind it the client reads the answer.
pub fn message_is_spelled()
    ensures packets { (s behind : ClientSession) (kind : MessageKind) (parts : List (List ℕ))
        (bytes : List ℕ) → IsPacketSize s.size → Streams (opened s kind) parts bytes behind
        → (packets : List (List ℕ)) × (bytes ≡ joined packets)
        × AreParts s.size (packets_are kind) s.heard.mark 0 packets
        (headers_of s.heard kind ++ joined parts) }
    ensures reads { (s behind : ClientSession) (kind : MessageKind) (parts : List (List ℕ))
        (bytes : List ℕ) → IsPacketSize s.size → Streams (opened s kind) parts bytes behind
        → behind.stage ≡ Reading }
{}

/// A request that `start` takes is the stream of its body: `start_message`, one `put` of what stands
/// behind its headers and `finish` append the packets that `send` does, and leave the same client.
pub fn requests_are_streams()
    ensures { (s behind last : ClientSession) (request : Request) (kind : MessageKind)
        (packets : List (List ℕ)) (bytes : List ℕ) → IsPacketSize s.size
        → packets_are kind ≡ packet_kind (kind_of_request request) → has_headers kind ≡ true
        → Sends (started s request) packets behind
        → Streams (opened s kind) (body_of request ∷ []) bytes last
        → (bytes ≡ joined packets) × (last ≡ behind) }
{}
