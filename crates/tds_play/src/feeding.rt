//! Bytes that came are fed to an end, and what it refuses is a fault of the play.
ghost use Rattle.std.specs.Prelude.{◌≡◌, ◌≢◌, ◌++◌, ℕ, List, None, Some, Ok, IfOk, IsSome, OnOk};
ghost use Rattle.tds_ends.specs.declared.listening.ClientStop.TheVariants as client_stop;
ghost use Rattle.tds_ends.specs.declared.serving.ServerStop.TheVariants as server_stop;
ghost use Rattle.tds_packet.specs.Reading.{with_taken};
ghost use Rattle.tds_packet.specs.declared.kind.Direction.TheVariants.{ToServer, ToClient};
ghost use Rattle.tds_ends.specs.Feeding.{Coming, Comes, IsServed, Served, served, IsListened, Listened, listened};
ghost use Rattle.tds_ends.specs.AllBytes.{ClientHasRead, ServerHasRead, new_reader};
ghost use Rattle.tds_play.specs.Reads.{ClientIsFed, IsClientFault, IsServerFault, ServerIsFed};
ghost use Rattle.tds_play.specs.Seen.{outcome_of};
ghost use Rattle.tds_play.specs.Pooled.{ChangesClient};
ghost use Rattle.tds_pool.specs.Cleaning.{client_at};
ghost use Rattle.tds_pool.specs.Connections.{connections, numbered};
ghost use Rattle.tds_token.specs.declared.token.Token.{Token};
ghost use Rattle.tds_session.specs.Answer.{answer_of};

use crate::NoMemory;
use crate::hearing::listen_in;
use std::alloc::AllocError;
use tds_ends::all_bytes::{all_bytes_are_heard, all_bytes_are_served};
use tds_ends::laws::{whole_packets_are_heard, whole_packets_are_served};
use tds_ends::{ClientStop, ServerStop, serve};
use tds_packet::PacketReader;
use tds_pool::Pool;
use tds_server::Server;
use tds_session::Engine;
use tds_token::Token;
use tds_world::{End, Layer, Outcome, RequestStatus};

/// What an end refused: the layer, and the fault's number in it.
#[derive(Clone, Copy)]
pub(crate) struct Fault {
    end: End,
    layer: Layer,
    number: u8,
}

impl Fault {
    /// What a server stopped at; an error where that is want of memory.
    fn at_server(stop: ServerStop) -> Result<Fault, NoMemory>
        ensures some { OnOk result (stop ≢ server_stop.NoMemory) }
        ensures fault { IfOk result (IsServerFault stop) }
    {
        match stop {
            ServerStop::Packet(fault) => Ok(Fault {
                end: End::Server,
                layer: Layer::Packet,
                number: fault.number(),
            }),
            ServerStop::Server(fault) => Ok(Fault {
                end: End::Server,
                layer: Layer::Core,
                number: fault.number(),
            }),
            ServerStop::NoMemory => Err(AllocError),
        }
    }

    /// What a client stopped at; an error where that is want of memory.
    fn at_client(stop: ClientStop) -> Result<Fault, NoMemory>
        ensures some { OnOk result (stop ≢ client_stop.NoMemory) }
        ensures fault { IfOk result (IsClientFault stop) }
    {
        match stop {
            ClientStop::Packet(fault) => Ok(Fault {
                end: End::Client,
                layer: Layer::Packet,
                number: fault.number(),
            }),
            ClientStop::Client(fault) => Ok(Fault {
                end: End::Client,
                layer: Layer::Core,
                number: fault.number(),
            }),
            ClientStop::NoMemory => Err(AllocError),
        }
    }

    /// What an event comes to that delivers such bytes.
    pub(crate) fn outcome(self) -> Outcome
        ensures { result ≡ outcome_of self }
    {
        Outcome::Fault {
            end: self.end,
            layer: self.layer,
            number: self.number,
        }
    }
}

/// What a client made of a piece.
#[derive(Clone, Copy)]
pub(crate) struct Heard {
    /// What became of the request, if it was settled.
    pub(crate) settled: Option<RequestStatus>,
    pub(crate) fault: Option<Fault>,
}

/// Feeds a whole piece to a server. It appends what the packets caused to `reply`, and answers the
/// fault that stopped it.
pub(crate) fn feed_server<E: Engine + Drop>(
    server: &mut Server<E>,
    reader: &mut PacketReader,
    piece: &[u8],
    reply: &mut Vec<u8>,
) -> Result<Option<Fault>, NoMemory>
    requires { reader.old.direction ≡ ToServer }
    ensures reads { reader.new.direction ≡ ToServer }
    ensures engine { server.new.engine ≡ server.old.engine }
    ensures on_attention { server.new.on_attention ≡ server.old.on_attention }
    // Whatever comes, the reader has read all of it, or a fault of it is answered.
    ensures any { (size : ℕ) (bytes : List ℕ)
        → ServerHasRead (new_reader ToServer size) reader.old bytes
        → IfOk result (ServerIsFed size reader.new (bytes ++ piece.now)) }
    // Where packets come that the server takes, it takes them in order, and the reader keeps what
    // is after them.
    ensures served { (packets : List Coming) (rest : List ℕ) (then : Served E)
        → Comes reader.old (reader.old.taken ++ piece.now) packets rest
        → served (answer_of (E.statements_of server.old.engine) (E.step_of server.old.engine))
        server.old reply.old.items packets ≡ Some then
        → OnOk result ((result ≡ Ok None) × IsServed server.new reply.new.items then
        × (reader.new ≡ with_taken reader.old rest)) }
{
    whole_packets_are_served::<E>();
    all_bytes_are_served::<E>();
    match serve(server, reader, piece, reply).stop {
        None => Ok(None),
        Some(stop) => Ok(Some(Fault::at_server(stop)?)),
    }
}

/// Feeds a whole piece to the client of this number, wherever it stands in the pool. It appends the
/// tokens that it is told to `told`.
pub(crate) fn feed_client(
    pool: &mut Pool,
    number: u32,
    reader: &mut PacketReader,
    piece: &[u8],
    told: &mut Vec<Token>,
) -> Result<Heard, NoMemory>
    requires reads { reader.old.direction ≡ ToClient }
    requires there { IsSome (numbered number (connections pool.old)) }
    ensures reads { reader.new.direction ≡ ToClient }
    // Whatever comes, the reader has read all of it, or a fault of it is answered; what was given
    // and what is told now is told by the packets that came.
    ensures any { (size : ℕ) (bytes : List ℕ) (given : List Token)
        → ClientHasRead (new_reader ToClient size) reader.old
        (client_at number (connections pool.old)).columns bytes (given ++ told.old.items)
        → IfOk result (λ heard. ClientIsFed size reader.new
        (client_at number (connections pool.new)).columns (bytes ++ piece.now)
        (given ++ told.new.items) heard.fault) }
    // Where packets come that the client takes, it takes them in order, and the reader keeps what
    // is after them.
    ensures listened { (packets : List Coming) (rest : List ℕ) (then : Listened)
        → Comes reader.old (reader.old.taken ++ piece.now) packets rest
        → listened (client_at number (connections pool.old)) None told.old.items packets
        ≡ Some then
        → IfOk result (λ heard. (heard.fault ≡ None)
        × IsListened (client_at number (connections pool.new)) heard.settled told.new.items then
        × (reader.new ≡ with_taken reader.old rest)) }
    ensures client { ChangesClient number pool.old pool.new }
{
    whole_packets_are_heard();
    all_bytes_are_heard();
    let fed = listen_in(pool, number, reader, piece, told);
    let settled = fed.settled;
    match fed.stop {
        None => Ok(Heard {
            settled,
            fault: None,
        }),
        Some(stop) => Ok(Heard {
            settled,
            fault: Some(Fault::at_client(stop)?),
        }),
    }
}
