//! What a server makes of bytes that come.
ghost use Rattle.std.specs.Prelude.{◌≡◌, ◌≤◌, ◌+◌, ◌*◌, length};
ghost use Rattle.tds_ends.specs.AllBytes.{new_reader};
ghost use Rattle.tds_ends.specs.Ends.{Serves};
ghost use Rattle.tds_ends.specs.Lent.{LentToServer, ServerWaits};
ghost use Rattle.tds_ends.specs.Light.{TellsEmpty};
ghost use Rattle.tds_packet.specs.declared.kind.Direction.TheVariants.{ToServer};
ghost use Rattle.tds_session.specs.Answer.{answer_of};

use crate::lending::front;
use crate::reading::{is_still_empty, reads_packets};
use tds_packet::{Direction, PacketFault, PacketReader, PacketSize};
use tds_server::{Server, ServerFault, ServerTook};
use tds_session::Engine;

/// Why a server stopped before all bytes were taken.
#[derive(Debug, Drop)]
pub enum ServerStop {
    /// A packet's header has this fault (MS-TDS 2.2.3.1). Each later call answers it again.
    Packet(PacketFault),
    /// The server refused a packet by this fault, and is broken. Each later packet is answered by it.
    Server(ServerFault),
    /// Memory was wanted. What stands behind `count`, or is held, is still to be taken: the next call
    /// begins with it.
    NoMemory,
}

/// What a server made of a piece.
#[derive(Debug, Drop)]
pub struct ServerFed {
    /// How many bytes of the piece are done with: all of them, but where the server refused a
    /// packet, or memory was wanted.
    pub count: usize,
    /// Why it stopped; `None` if all bytes were taken.
    pub stop: Option<ServerStop>,
}

/// Takes a piece of what a client sent, however it is cut: the server takes each packet that is
/// whole (MS-TDS 2.2.3), in order, and acknowledgements of attentions are appended to `reply`.
///
/// Call it with what the transport brought, in the order in which it came; send what `reply` has
/// then, and call `work` for the answer. It stops behind the last whole packet, and the reader
/// keeps what has come of the next one; or it stops earlier, for one of three reasons. At a faulty
/// header: nothing behind it can be read. At a packet that the server refuses: what came before was
/// taken and replied to. At want of memory: nothing is lost, and the next call, with the bytes of
/// the piece behind the first `count` (there may be none), takes it up.
pub fn serve<E: Engine + Drop>(
    server: &mut Server<E>,
    reader: &mut PacketReader,
    piece: &[u8],
    reply: &mut Vec<u8>,
) -> ServerFed
    requires { reader.old.direction ≡ ToServer }
    ensures reads { reader.new.direction ≡ ToServer }
    ensures size { reader.new.size ≡ reader.old.size }
    ensures engine { server.new.engine ≡ server.old.engine }
    ensures on_attention { server.new.on_attention ≡ server.old.on_attention }
    ensures within { result.count ≤ length piece.now }
    // An acknowledgement has at most 35 bytes, and an attention, like each packet, 8 at least.
    ensures short { 8 * length reply.new.items ≤ 8 * length reply.old.items
        + 35 * (length reader.old.taken + result.count) }
    // Whatever comes: the server takes the packets that the bytes spell, one after the other, up to
    // the first that it refuses or has no memory for, or to a header with a fault.
    ensures serves { Serves (answer_of (E.statements_of server.old.engine)
        (E.step_of server.old.engine)) reader.old reader.new piece.now server.old server.new
        reply.old.items reply.new.items result }
    // Memory is wanted only where the server wants it, for the packet that the reader holds.
    ensures waits { ServerWaits result.stop (answer_of (E.statements_of server.old.engine)
        (E.step_of server.old.engine)) reader.new server.new }
{
    serve_on(server, reader, piece, reply, false).0
}

/// The same. It answers beside whether the reader holds no bytes then, if the caller said rightly
/// whether it held none before.
pub(crate) fn serve_on<E: Engine + Drop>(
    server: &mut Server<E>,
    reader: &mut PacketReader,
    piece: &[u8],
    reply: &mut Vec<u8>,
    was_empty: bool,
) -> (ServerFed, bool)
    requires { reader.old.direction ≡ ToServer }
    ensures reads { reader.new.direction ≡ ToServer }
    ensures size { reader.new.size ≡ reader.old.size }
    ensures engine { server.new.engine ≡ server.old.engine }
    ensures on_attention { server.new.on_attention ≡ server.old.on_attention }
    ensures within { result.0.count ≤ length piece.now }
    ensures short { 8 * length reply.new.items ≤ 8 * length reply.old.items
        + 35 * (length reader.old.taken + result.0.count) }
    ensures serves { Serves (answer_of (E.statements_of server.old.engine)
        (E.step_of server.old.engine)) reader.old reader.new piece.now server.old server.new
        reply.old.items reply.new.items result.0 }
    ensures waits { ServerWaits result.0.stop (answer_of (E.statements_of server.old.engine)
        (E.step_of server.old.engine)) reader.new server.new }
    ensures empty { TellsEmpty was_empty reader.old.taken → TellsEmpty result.1 reader.new.taken }
{
    reads_packets();
    let mut count = 0;
    let mut is_empty = was_empty;
    let stop = 'packets: loop {
        match reader.feed(&piece[count..]) {
            Ok(taken) => {
                count += taken;
                is_empty = is_still_empty(is_empty, taken);
            }
            Err(fault) => {
                count = piece.len();
                is_empty = false;
                break Some(ServerStop::Packet(fault));
            }
        }
        let Some(packet) = reader.packet() else {
            break None;
        };
        match server.take(packet, reply) {
            Ok(took) => {
                if took == ServerTook::NoMemory {
                    break Some(ServerStop::NoMemory);
                }
            }
            Err(fault) => break Some(ServerStop::Server(fault)),
        }
        reader.done();
        is_empty = true;
    };
    (ServerFed { count, stop }, is_empty)
}

/// Takes the whole packets that a piece begins with, straight from it: no buffer is needed. It stops
/// behind the last of them, or at one that the server refuses, or wants memory for.
pub(crate) fn serve_lent<E: Engine + Drop>(
    server: &mut Server<E>,
    size: PacketSize,
    piece: &[u8],
    reply: &mut Vec<u8>,
) -> ServerFed
    ensures engine { server.new.engine ≡ server.old.engine }
    ensures on_attention { server.new.on_attention ≡ server.old.on_attention }
    ensures within { result.count ≤ length piece.now }
    ensures short { 8 * length reply.new.items ≤ 8 * length reply.old.items + 35 * result.count }
    ensures serves { LentToServer (answer_of (E.statements_of server.old.engine)
        (E.step_of server.old.engine)) (new_reader ToServer size) piece.now server.old server.new
        reply.old.items reply.new.items result }
{
    let mut count = 0;
    let stop = 'packets: loop {
        let Some(packet) = front(&piece[count..], size, Direction::ToServer) else {
            break None;
        };
        let length = 8 + packet.data.len();
        match server.take(packet, reply) {
            Ok(took) => {
                if took == ServerTook::NoMemory {
                    break Some(ServerStop::NoMemory);
                }
                count += length;
            }
            Err(fault) => {
                count += length;
                break Some(ServerStop::Server(fault));
            }
        }
    };
    ServerFed { count, stop }
}
