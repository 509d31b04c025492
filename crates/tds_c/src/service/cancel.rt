//! What a cancel makes of a connection, and what is sent for it: packets without data, which are known
//! by their bytes.

ghost use Rattle.std.specs.Prelude.{◌≡◌, ◌++◌, ◌<◌, ◌^◌, [], IfErr, IfOk};
ghost use Rattle.tds_wire.specs.declared.told.Token.{Token};
ghost use Rattle.tds_client.specs.declared.fault.ClientRefusal.TheVariants as clients;
ghost use Rattle.tds_client.specs.Packets.{stop_bytes, ignore};
ghost use Rattle.tds_service.specs.Line.{line_turn};
ghost use Rattle.tds_service.specs.Line as line;
ghost use Rattle.tds_service.specs.Ties.{AreBytes, cancel_answer};
ghost use Rattle.tds_c.specs.service.Clients.{cancel_bytes, cancelled_seat};
ghost use Rattle.tds_c.specs.service.Plain.{line_of, place_of};
ghost use Rattle.tds_c.specs.service.Table.{written_bytes};

use crate::service::answers::Stop;
use crate::service::plain::TdsSeat;
use crate::service::seat::Stage;
use crate::service::sending::kind;
use tds_client::Cancelled;
use tds_packet::Kind;
use tds_service::Refusal;

/// The packets that a cancel sends.
#[derive(Clone, Copy)]
pub(crate) enum Written {
    Nothing,
    Attention([u8; 8]),
    /// A packet that ends the request, which the server is to ignore, and the attention.
    Both([u8; 16]),
}

impl Written {
    #[inline(always)]
    pub(crate) fn as_slice(&self) -> &[u8]
        ensures { result.now ≡ written_bytes self.now }
    {
        match self {
            Written::Nothing => &[],
            Written::Attention(bytes) => bytes,
            Written::Both(bytes) => bytes,
        }
    }
}

/// An attention (MS-TDS 2.2.1.7).
#[inline(always)]
fn attention_packet() -> [u8; 8]
    ensures { result ≡ stop_bytes }
{
    [6, 1, 0, 8, 0, 0, 1, 0]
}

/// A packet of this type that ends a request of which so many are out, to be ignored (MS-TDS
/// 2.2.3.1.2), and an attention.
#[inline(always)]
fn both_packets(kind: Kind, before: usize) -> [u8; 16]
    requires { before < 2 ^ 63 }
    ensures { result ≡ ignore kind before ++ stop_bytes }
{
    let id = ((before + 1) % 256) as u8;
    [kind.byte(), 3, 0, 8, 0, 0, id, 0, 6, 1, 0, 8, 0, 0, 1, 0]
}

impl TdsSeat {
    /// The same seat, where what is underway is cancelled.
    #[inline(always)]
    #[tactic(auto, unfolding(crate::specs::service::Plain::stage_at))]
    pub(crate) fn cancelled(self) -> TdsSeat
        ensures line { line_of result ≡ (line_turn {T = Token} (line_of self) line.Cancel).line }
        ensures place { place_of result ≡ place_of self }
        ensures number { result.number ≡ self.number }
        ensures is { result ≡ cancelled_seat self }
    {
        let mut seat = self;
        match self.stage() {
            Stage::Unsent => seat.client.stage = 0,
            Stage::Sending => seat.client.stage = 3,
            Stage::Reading => seat.client.stage = 3,
            Stage::Idle => {}
            Stage::Cancelling => {}
            Stage::Broken => {}
        }
        seat
    }

    /// What is to be sent for that.
    #[inline(always)]
    pub(crate) fn written(&self) -> Written
        ensures sent { AreBytes (line_turn {T = Token} (line_of self.now) line.Cancel).sent
            (written_bytes result) }
        ensures bytes { written_bytes result ≡ cancel_bytes self.now }
    {
        match self.stage() {
            Stage::Sending => {
                let before = self.client.packets % 256;
                Written::Both(both_packets(kind(self.client.kind), before))
            }
            Stage::Reading => Written::Attention(attention_packet()),
            Stage::Idle => Written::Nothing,
            Stage::Unsent => Written::Nothing,
            Stage::Cancelling => Written::Nothing,
            Stage::Broken => Written::Nothing,
        }
    }

    /// What a cancel answers.
    #[inline(always)]
    #[tactic(auto, unfolding(crate::specs::service::Plain::stage_at))]
    pub(crate) fn how_cancelled(&self) -> Result<Cancelled, Stop>
        ensures how { IfOk result (λ how. (line_turn {T = Token} (line_of self.now)
            line.Cancel).answer ≡ cancel_answer self.now.asked how) }
        ensures refused { IfErr result (λ stop. (stop ≡ Stop.Refused Refusal.Broken)
            × ((line_turn {T = Token} (line_of self.now) line.Cancel).answer
            ≡ line.Refused clients.Broken)) }
    {
        match self.stage() {
            Stage::Idle => Ok(Cancelled::Nothing),
            Stage::Unsent => Ok(Cancelled::Unsent),
            Stage::Sending => Ok(Cancelled::Asked),
            Stage::Reading => Ok(Cancelled::Asked),
            Stage::Cancelling => Ok(Cancelled::Already),
            Stage::Broken => Err(Stop::Refused(Refusal::Broken)),
        }
    }
}
