//! What a client that stands in the pool makes of bytes that come.
ghost use Rattle.std.specs.Prelude.{◌≡◌, ◌≤◌, ℕ, List, Err, IfErr, IfOk, IsSome, OnErr, Some, length};
ghost use Rattle.tds_client.specs.Taking.{Takes, broken_by, taken_of};
ghost use Rattle.tds_ends.specs.Ends.{Listens};
ghost use Rattle.tds_ends.specs.Feeding.{settled_by};
ghost use Rattle.tds_packet.specs.Reading.{Reading, with_taken, fault_of, up_to_end, IsWhole};
ghost use Rattle.tds_packet.specs.Stream.{IsLess};
ghost use Rattle.tds_packet.specs.declared.fault.PacketFault.{PacketFault};
ghost use Rattle.tds_packet.specs.declared.kind.Direction.TheVariants.{ToClient};
ghost use Rattle.tds_packet.specs.declared.kind.Kind.TheVariants.{Answer};
ghost use Rattle.tds_play.specs.Pooled.{ChangesClient};
ghost use Rattle.tds_pool.specs.Cleaning.{client_at};
ghost use Rattle.tds_pool.specs.Connections.{connections, numbered};

use tds_client::{ClientFault, Taken};
use tds_ends::{ClientFed, ClientStop};
use tds_packet::laws::{fronts, whatever_follows};
use tds_packet::{PacketReader, PacketRef};
use tds_pool::Pool;
use tds_token::Token;
use tds_world::RequestStatus;

/// Where a reader takes all bytes that there are, and no packet is whole, none begins them; and
/// none begins bytes whose header has a fault.
fn reads_packets()
    ensures less { (r : Reading) (bytes : List ℕ) → up_to_end r bytes ≡ bytes
        → ¬ IsWhole (with_taken r bytes) → IsLess r bytes }
    ensures faulty { (r : Reading) (bytes : List ℕ) (fault : PacketFault)
        → fault_of r (up_to_end r bytes) ≡ Some fault
        → IsLess r bytes × (fault_of r bytes ≡ Some fault) }
{
    whatever_follows();
    fronts();
}

/// What became of a request after this answer to a packet.
fn settled_by(took: Taken, before: Option<RequestStatus>) -> Option<RequestStatus>
    ensures { result ≡ settled_by took before }
{
    match took {
        Taken::More | Taken::NoMemory => before,
        Taken::Finished => Some(RequestStatus::Finished),
        Taken::Acknowledged => Some(RequestStatus::Acknowledged),
    }
}

/// The client of this number takes a packet, wherever it stands in the pool.
fn take_in(
    pool: &mut Pool,
    number: u32,
    packet: PacketRef<'_>,
    told: &mut Vec<Token>,
) -> Result<Taken, ClientFault>
    requires kind { packet.header.kind ≡ Answer }
    requires there { IsSome (numbered number (connections pool.old)) }
    ensures taken { IfOk result (λ answer.
        Takes (taken_of (client_at number (connections pool.old)) packet.entry) answer
        (client_at number (connections pool.old)) (client_at number (connections pool.new))
        told.old.items told.new.items) }
    ensures fault { IfErr result (λ fault.
        taken_of (client_at number (connections pool.old)) packet.entry ≡ Err fault) }
    ensures broken { IfErr result (λ fault. client_at number (connections pool.new)
        ≡ broken_by (client_at number (connections pool.old)) fault) }
    ensures nothing { OnErr result (told.new.items ≡ told.old.items) }
    ensures client { ChangesClient number pool.old pool.new }
{
    match pool.take(number, packet, told) {
        Some(answer) => answer,
        // A connection stays in the pool until it is cut.
        None => unreachable!(),
    }
}

/// Takes a piece of what a server sent, as `tds_ends::listen` does, with the client of the
/// connection of this number, wherever that stands in the pool.
pub(crate) fn listen_in(
    pool: &mut Pool,
    number: u32,
    reader: &mut PacketReader,
    piece: &[u8],
    told: &mut Vec<Token>,
) -> ClientFed
    requires reads { reader.old.direction ≡ ToClient }
    requires there { IsSome (numbered number (connections pool.old)) }
    ensures reads { reader.new.direction ≡ ToClient }
    ensures size { reader.new.size ≡ reader.old.size }
    ensures within { result.count ≤ length piece.now }
    ensures listens { Listens reader.old reader.new piece.now
        (client_at number (connections pool.old)) (client_at number (connections pool.new))
        told.old.items told.new.items result }
    ensures client { ChangesClient number pool.old pool.new }
{
    reads_packets();
    let mut count = 0;
    let mut settled = None;
    'packets: loop {
        match reader.feed(&piece[count..]) {
            Ok(taken) => count += taken,
            Err(fault) => return ClientFed {
                count: piece.len(),
                settled,
                stop: Some(ClientStop::Packet(fault)),
            },
        }
        let Some(packet) = reader.packet() else {
            return ClientFed {
                count,
                settled,
                stop: None,
            };
        };
        match take_in(pool, number, packet, told) {
            Ok(took) => {
                if took == Taken::NoMemory {
                    return ClientFed {
                        count,
                        settled,
                        stop: Some(ClientStop::NoMemory),
                    };
                }
                settled = settled_by(took, settled);
            }
            Err(fault) => return ClientFed {
                count,
                settled,
                stop: Some(ClientStop::Client(fault)),
            },
        }
        reader.done();
    }
}
