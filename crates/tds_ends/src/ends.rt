//! An end of a connection in one value: a core and the reader of what comes to it, which has its
//! buffer only while a packet comes.
ghost use Rattle.std.specs.Prelude.{◌≡◌, ◌≤◌, ◌+◌, ◌*◌, ◌++◌, length, IfOk, OnOk, OnErr};
ghost use Rattle.std.specs.Borrow.{sem};
ghost use Rattle.tds_client.specs.Session.{new_session};
ghost use Rattle.tds_ends.specs.AllBytes.{new_reader};
ghost use Rattle.tds_ends.specs.Ends.{ClientKeeps, EndListens, EndServes, ServerKeeps};
ghost use Rattle.tds_packet.specs.declared.kind.Direction.TheVariants.{ToClient, ToServer};
ghost use Rattle.tds_server.specs.State.{IsAnswering, lost_of, new_server, server_with};
ghost use Rattle.tds_server.specs.Working.{worked};
ghost use Rattle.tds_session.specs.Answer.{answer_of};

use crate::NoMemory;
use crate::light::LightReader;
use crate::listening::{ClientFed, ClientStop, listen_lent, listen_on, settled_last};
use crate::serving::{ServerFed, ServerStop, serve_lent, serve_on};
use std::alloc::Global;
use tds_client::Client;
use tds_packet::{Direction, PacketSize};
use tds_server::{Server, Worked};
use tds_session::{Engine, OnAttention};
use tds_token::Token;

/// A client with the reader of what its server sends: bytes in, tokens out.
#[derive(Drop)]
pub struct ClientEnd {
    client: Client,
    reader: LightReader,
    ghost reads: { reader.direction ≡ ToClient },
}

impl ClientEnd {
    ghost use Rattle.tds_ends.specs.Lending.{LendsClient};

    /// A new client and its reader, for packets of this size. It takes no memory.
    pub fn new(alloc: Global, size: PacketSize) -> ClientEnd
        ensures client { result.client ≡ new_session size }
        ensures reader { result.reader ≡ new_reader ToClient size }
    {
        ClientEnd {
            client: Client::new(alloc, size),
            reader: LightReader::new(alloc, size, Direction::ToClient),
        }
    }

    /// The client, to see its state.
    pub fn client(&self) -> &Client
        ensures { result.now ≡ self.now.client }
    {
        &self.client
    }

    /// The client, to start a request, to send it, to cancel it and to ask for a reset.
    pub fn client_mut(&mut self) -> &mut Client
        // What is left of the client behind the reference is the end's client.
        ensures* writes_back { sem 𝓛 (LendsClient self.entry result) }
        ensures value { result.now ≡ self.old.client }
    {
        &mut self.client
    }

    /// Takes a piece of what the server sent, as [`listen`](crate::listen) does. Where no bytes of a
    /// packet are held, the packets that the piece begins with are heard straight from it. What is
    /// left of the piece, and a packet that is held, take memory for one packet, which is given back
    /// once no bytes are held. If that is refused it stops there (`NoMemory`), as it does where the
    /// client wants memory.
    pub fn listen(&mut self, piece: &[u8], told: &mut Vec<Token>) -> ClientFed
        ensures within { result.count ≤ length piece.now }
        ensures listens { EndListens self.old.reader self.new.reader piece.now self.old.client
            self.new.client told.old.items told.new.items result }
    {
        if !self.reader.is_empty() {
            return self.keep(piece, told);
        }
        let lent = listen_lent(&mut self.client, self.reader.size(), piece, told);
        if lent.stop.is_some() || lent.count == piece.len() {
            return lent;
        }
        let kept = self.keep(&piece[lent.count..], told);
        ClientFed {
            count: lent.count + kept.count,
            settled: settled_last(kept.settled, lent.settled),
            stop: kept.stop,
        }
    }

    /// Takes a piece through the reader. Where that holds no bytes, its buffer is taken first.
    fn keep(&mut self, piece: &[u8], told: &mut Vec<Token>) -> ClientFed
        ensures within { result.count ≤ length piece.now }
        ensures keeps { ClientKeeps self.old.reader self.new.reader piece.now self.old.client
            self.new.client told.old.items told.new.items result }
    {
        let was_empty = self.reader.is_empty();
        let Ok(mut reader) = self.reader.open() else {
            return ClientFed {
                count: 0,
                settled: None,
                stop: Some(ClientStop::NoMemory),
            };
        };
        let (fed, is_empty) = listen_on(&mut self.client, &mut reader, piece, told, was_empty);
        self.reader.close(reader, is_empty);
        fed
    }
}

/// A server with the reader of what its client sends: bytes in, bytes out.
#[derive(Drop)]
pub struct ServerEnd<E: Engine + Drop> {
    server: Server<E>,
    reader: LightReader,
    ghost reads: { reader.direction ≡ ToServer },
}

impl<E: Engine + Drop> ServerEnd<E> {
    /// A new server and its reader, for packets of this size. It takes no memory.
    pub fn new(alloc: Global, engine: E, size: PacketSize) -> ServerEnd<E>
        ensures server { result.server ≡ new_server engine }
        ensures reader { result.reader ≡ new_reader ToServer size }
    {
        ServerEnd {
            server: Server::new(alloc, engine, size),
            reader: LightReader::new(alloc, size, Direction::ToServer),
        }
    }

    /// The same of a server that does this with its transaction where an attention stops an answer.
    pub fn with_attention(
        alloc: Global,
        engine: E,
        size: PacketSize,
        on_attention: OnAttention,
    ) -> ServerEnd<E>
        ensures server { result.server ≡ server_with on_attention engine }
        ensures reader { result.reader ≡ new_reader ToServer size }
    {
        ServerEnd {
            server: Server::with_attention(alloc, engine, size, on_attention),
            reader: LightReader::new(alloc, size, Direction::ToServer),
        }
    }

    /// The server, to see its session.
    pub fn server(&self) -> &Server<E>
        ensures { result.now ≡ self.now.server }
    {
        &self.server
    }

    /// Does one step of the answer and appends its packet to `out`, as [`Server::work`] does.
    pub fn work(&mut self, out: &mut Vec<u8>) -> Result<Worked, NoMemory>
        ensures reader { self.new.reader ≡ self.old.reader }
        ensures engine { self.new.server.engine ≡ self.old.server.engine }
        ensures on_attention { self.new.server.on_attention ≡ self.old.server.on_attention }
        ensures state { OnOk result (self.new.server ≡ (worked self.old.server).state) }
        ensures answer { IfOk result (λ answer. answer ≡ (worked self.old.server).answer) }
        ensures packet { OnOk result
            (out.new.items ≡ out.old.items ++ (worked self.old.server).packet) }
        ensures short { OnOk result (length (worked self.old.server).packet ≤ 512) }
        // At want of memory nothing changes. It comes only where a step is to be done.
        ensures refused { OnErr result
            ((self.new.server ≡ self.old.server) × (out.new.items ≡ out.old.items)) }
        ensures wanted { OnErr result (IsAnswering self.old.server.phase) }
    {
        self.server.work(out)
    }

    /// Says that the connection is lost, as [`Server::lost`] does.
    pub fn lost(&mut self)
        ensures reader { self.new.reader ≡ self.old.reader }
        ensures server { self.new.server ≡ lost_of self.old.server }
    {
        self.server.lost();
    }

    /// Takes a piece of what the client sent, as [`serve`](crate::serve) does. Where no bytes of a
    /// packet are held, the packets that the piece begins with are taken straight from it. What is
    /// left of the piece, and a packet that is held, take memory for one packet, which is given back
    /// once no bytes are held. If that is refused it stops there (`NoMemory`), as it does where the
    /// server wants memory.
    pub fn serve(&mut self, piece: &[u8], reply: &mut Vec<u8>) -> ServerFed
        ensures engine { self.new.server.engine ≡ self.old.server.engine }
        ensures on_attention { self.new.server.on_attention ≡ self.old.server.on_attention }
        ensures within { result.count ≤ length piece.now }
        ensures short { 8 * length reply.new.items ≤ 8 * length reply.old.items
            + 35 * (length self.old.reader.taken + result.count) }
        ensures serves { let answers = answer_of (E.statements_of self.old.server.engine)
            (E.step_of self.old.server.engine) in
            EndServes answers self.old.reader self.new.reader piece.now self.old.server
            self.new.server reply.old.items reply.new.items result }
    {
        if !self.reader.is_empty() {
            return self.keep(piece, reply);
        }
        let lent = serve_lent(&mut self.server, self.reader.size(), piece, reply);
        if lent.stop.is_some() || lent.count == piece.len() {
            return lent;
        }
        let kept = self.keep(&piece[lent.count..], reply);
        ServerFed {
            count: lent.count + kept.count,
            stop: kept.stop,
        }
    }

    /// Takes a piece through the reader. Where that holds no bytes, its buffer is taken first.
    fn keep(&mut self, piece: &[u8], reply: &mut Vec<u8>) -> ServerFed
        ensures engine { self.new.server.engine ≡ self.old.server.engine }
        ensures on_attention { self.new.server.on_attention ≡ self.old.server.on_attention }
        ensures within { result.count ≤ length piece.now }
        ensures short { 8 * length reply.new.items ≤ 8 * length reply.old.items
            + 35 * (length self.old.reader.taken + result.count) }
        ensures keeps { let answers = answer_of (E.statements_of self.old.server.engine)
            (E.step_of self.old.server.engine) in
            ServerKeeps answers self.old.reader self.new.reader piece.now self.old.server
            self.new.server reply.old.items reply.new.items result }
    {
        let was_empty = self.reader.is_empty();
        let Ok(mut reader) = self.reader.open() else {
            return ServerFed {
                count: 0,
                stop: Some(ServerStop::NoMemory),
            };
        };
        let (fed, is_empty) = serve_on(&mut self.server, &mut reader, piece, reply, was_empty);
        self.reader.close(reader, is_empty);
        fed
    }
}
