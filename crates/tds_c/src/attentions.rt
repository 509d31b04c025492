//! What a cancel does to a client's parts, and what it sends: packets without data, which are known
//! by their bytes.

ghost use Rattle.std.specs.Prelude.{◌≡◌, ◌<◌, ◌^◌, ◌++◌, [], Ok, Some, IfErr, IfOk};
ghost use Rattle.tds_client.specs.Packets.{stop_bytes, ignore};
ghost use Rattle.tds_client.specs.Parts.{AreParts, session_from};
ghost use Rattle.tds_client.specs.Sending.{cancelled, refusal_of};
ghost use Rattle.tds_c.specs.Calls.{written_bytes};

use tds_client::{Cancelled, ClientParts, ClientRefusal, StageParts};
use tds_packet::Kind;

/// The packets that a cancel sends.
#[derive(Clone, Copy)]
pub(crate) enum Written {
    Nothing,
    Attention([u8; 8]),
    /// A packet that ends the request, which the server is to ignore, and the attention.
    Both([u8; 16]),
}

impl Written {
    #[inline(always)]
    pub(crate) fn as_slice(&self) -> &[u8]
        ensures { result.now ≡ written_bytes self.now }
    {
        match self {
            Written::Nothing => &[],
            Written::Attention(bytes) => bytes,
            Written::Both(bytes) => bytes,
        }
    }
}

/// What a cancel answers, and what is to be sent.
#[derive(Clone, Copy)]
pub(crate) struct Ending {
    pub(crate) answer: Cancelled,
    pub(crate) written: Written,
}

impl Ending {
    /// This answer, with nothing to be sent.
    #[inline(always)]
    fn silent(answer: Cancelled) -> Ending
        ensures answer { result.answer ≡ answer }
        ensures written { written_bytes result.written ≡ [] }
    {
        Ending {
            answer,
            written: Written::Nothing,
        }
    }
}

/// An attention (MS-TDS 2.2.1.7).
#[inline(always)]
fn attention_packet() -> [u8; 8]
    ensures { result ≡ stop_bytes }
{
    [6, 1, 0, 8, 0, 0, 1, 0]
}

/// A packet of this type that ends a request of which so many are out, to be ignored (MS-TDS
/// 2.2.3.1.2), and an attention.
#[inline(always)]
fn both_packets(kind: Kind, before: usize) -> [u8; 16]
    requires { before < 2 ^ 63 }
    ensures { result ≡ ignore kind before ++ stop_bytes }
{
    let id = ((before + 1) % 256) as u8;
    [kind.byte(), 3, 0, 8, 0, 0, id, 0, 6, 1, 0, 8, 0, 0, 1, 0]
}

/// Cancels the request underway: `Client::cancel` where the caller writes the packets.
#[inline(always)]
#[tactic(auto, unfolding(tds_client::specs::Sending::cancelled_sending))]
pub(crate) fn cancel(parts: &mut ClientParts) -> Result<Ending, ClientRefusal>
    requires whole { AreParts parts.old.stage [] }
    ensures ok { IfOk result (λ done. cancelled (session_from parts.old [])
        ≡ Ok (record {
          answer = done.answer;
          session = session_from parts.new [];
          bytes = written_bytes done.written;
        })) }
    ensures refused { IfErr result (λ refusal.
        refusal_of (cancelled (session_from parts.old [])) ≡ Some refusal) }
{
    match &parts.stage {
        StageParts::Idle => Ok(Ending::silent(Cancelled::Nothing)),
        StageParts::Sending { kind, packets } => {
            let (kind, packets) = (*kind, *packets);
            if packets == 0 {
                parts.stage = StageParts::Idle;
                return Ok(Ending::silent(Cancelled::Unsent));
            }
            parts.stage = StageParts::Cancelling;
            Ok(Ending {
                answer: Cancelled::Asked,
                written: Written::Both(both_packets(kind, packets)),
            })
        }
        StageParts::Reading => {
            parts.stage = StageParts::Cancelling;
            Ok(Ending {
                answer: Cancelled::Asked,
                written: Written::Attention(attention_packet()),
            })
        }
        StageParts::Cancelling => Ok(Ending::silent(Cancelled::Already)),
        StageParts::Broken(_) => Err(ClientRefusal::Broken),
    }
}
