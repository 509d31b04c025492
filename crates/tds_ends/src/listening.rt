//! What a client makes of bytes that come.
ghost use Rattle.std.specs.Prelude.{◌≡◌, ◌≤◌, length};
ghost use Rattle.tds_ends.specs.AllBytes.{new_reader};
ghost use Rattle.tds_ends.specs.Ends.{Listens, settled_last};
ghost use Rattle.tds_ends.specs.Feeding.{settled_by};
ghost use Rattle.tds_ends.specs.Lent.{ClientWaits, LentToClient};
ghost use Rattle.tds_ends.specs.Light.{TellsEmpty};
ghost use Rattle.tds_packet.specs.declared.kind.Direction.TheVariants.{ToClient};

use crate::lending::front;
use crate::reading::{is_still_empty, reads_packets};
use tds_client::{Client, ClientFault, Taken};
use tds_packet::{Direction, PacketFault, PacketReader, PacketSize};
use tds_token::Token;
use tds_world::RequestStatus;

/// Why a client stopped before all bytes were taken.
#[derive(Debug, Drop)]
pub enum ClientStop {
    /// A packet's header has this fault (MS-TDS 2.2.3.1). Each later call answers it again.
    Packet(PacketFault),
    /// The client refused a packet by this fault, and is broken. Each later packet is answered by it.
    Client(ClientFault),
    /// Memory was wanted. What stands behind `count`, or is held, is still to be taken: the next call
    /// begins with it.
    NoMemory,
}

/// What a client made of a piece.
#[derive(Debug, Drop)]
pub struct ClientFed {
    /// How many bytes of the piece are done with: all of them, but where the client refused a
    /// packet, or memory was wanted.
    pub count: usize,
    /// `Finished` or `Acknowledged`, if the piece ended the request.
    pub settled: Option<RequestStatus>,
    /// Why it stopped; `None` if all bytes were taken.
    pub stop: Option<ClientStop>,
}

/// What became of a request behind this answer to a packet.
fn settled_by(took: Taken, before: Option<RequestStatus>) -> Option<RequestStatus>
    ensures { result ≡ settled_by took before }
{
    match took {
        Taken::More | Taken::NoMemory => before,
        Taken::Finished => Some(RequestStatus::Finished),
        Taken::Acknowledged => Some(RequestStatus::Acknowledged),
    }
}

/// What was settled last.
pub(crate) fn settled_last(
    now: Option<RequestStatus>,
    before: Option<RequestStatus>,
) -> Option<RequestStatus>
    ensures { result ≡ settled_last now before }
{
    match now {
        None => before,
        Some(status) => Some(status),
    }
}

/// Takes a piece of what a server sent, however it is cut: the client takes each packet that is
/// whole (MS-TDS 2.2.3), in order, and the tokens that it is told are appended to `told`.
///
/// Call it with what the transport brought, in the order in which it came. It stops behind the last
/// whole packet, and the reader keeps what has come of the next one; or it stops earlier, for one
/// of three reasons. At a faulty header: nothing behind it can be read. At a packet that the client
/// refuses: what came before was taken and told. At want of memory: nothing is lost, and the next
/// call, with the bytes of the piece behind the first `count` (there may be none), takes it up.
pub fn listen(
    client: &mut Client,
    reader: &mut PacketReader,
    piece: &[u8],
    told: &mut Vec<Token>,
) -> ClientFed
    requires { reader.old.direction ≡ ToClient }
    ensures reads { reader.new.direction ≡ ToClient }
    ensures size { reader.new.size ≡ reader.old.size }
    ensures within { result.count ≤ length piece.now }
    // Whatever comes: the client takes the packets that the bytes spell, one after the other, up to
    // the first that it refuses or has no memory for, or to a header with a fault.
    ensures listens { Listens reader.old reader.new piece.now client.old client.new
        told.old.items told.new.items result }
    // Memory is wanted only where the client wants it, for the packet that the reader holds.
    ensures waits { ClientWaits result.stop reader.new client.new }
{
    listen_on(client, reader, piece, told, false).0
}

/// The same. It answers beside whether the reader holds no bytes then, if the caller said rightly
/// whether it held none before.
pub(crate) fn listen_on(
    client: &mut Client,
    reader: &mut PacketReader,
    piece: &[u8],
    told: &mut Vec<Token>,
    was_empty: bool,
) -> (ClientFed, bool)
    requires { reader.old.direction ≡ ToClient }
    ensures reads { reader.new.direction ≡ ToClient }
    ensures size { reader.new.size ≡ reader.old.size }
    ensures within { result.0.count ≤ length piece.now }
    ensures listens { Listens reader.old reader.new piece.now client.old client.new
        told.old.items told.new.items result.0 }
    ensures waits { ClientWaits result.0.stop reader.new client.new }
    ensures empty { TellsEmpty was_empty reader.old.taken → TellsEmpty result.1 reader.new.taken }
{
    reads_packets();
    let mut count = 0;
    let mut settled = None;
    let mut is_empty = was_empty;
    let stop = 'packets: loop {
        match reader.feed(&piece[count..]) {
            Ok(taken) => {
                count += taken;
                is_empty = is_still_empty(is_empty, taken);
            }
            Err(fault) => {
                count = piece.len();
                is_empty = false;
                break Some(ClientStop::Packet(fault));
            }
        }
        let Some(packet) = reader.packet() else {
            break None;
        };
        match client.take(packet, told) {
            Ok(took) => {
                if took == Taken::NoMemory {
                    break Some(ClientStop::NoMemory);
                }
                settled = settled_by(took, settled);
            }
            Err(fault) => break Some(ClientStop::Client(fault)),
        }
        reader.done();
        is_empty = true;
    };
    let fed = ClientFed {
        count,
        settled,
        stop,
    };
    (fed, is_empty)
}

/// Takes the whole packets that a piece begins with, straight from it: no buffer is needed. It stops
/// behind the last of them, or at one that the client refuses, or wants memory for.
pub(crate) fn listen_lent(
    client: &mut Client,
    size: PacketSize,
    piece: &[u8],
    told: &mut Vec<Token>,
) -> ClientFed
    ensures within { result.count ≤ length piece.now }
    ensures listens { LentToClient (new_reader ToClient size) piece.now client.old client.new
        told.old.items told.new.items result }
{
    let mut count = 0;
    let mut settled = None;
    let stop = 'packets: loop {
        let Some(packet) = front(&piece[count..], size, Direction::ToClient) else {
            break None;
        };
        let length = 8 + packet.data.len();
        match client.take(packet, told) {
            Ok(answer) => {
                if answer == Taken::NoMemory {
                    break Some(ClientStop::NoMemory);
                }
                settled = settled_by(answer, settled);
                count += length;
            }
            Err(fault) => {
                count += length;
                break Some(ClientStop::Client(fault));
            }
        }
    };
    ClientFed {
        count,
        settled,
        stop,
    }
}
