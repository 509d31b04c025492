//! The server's end of a connection.
ghost use Rattle.std.specs.Prelude.{◌≡◌, ◌≢◌, ◌≤◌, ◌+◌, ◌++◌, length, OnOk, OnErr, IfOk, IfErr, Ok, Err};
ghost use Rattle.tds_packet.specs.declared.kind.Direction.TheVariants.{ToServer};
ghost use Rattle.tds_packet.specs.declared.kind.Kind.TheVariants.{Attention};
ghost use Rattle.tds_packet.specs.Layout.{bits_of, direction_of};
ghost use Rattle.tds_server.specs.declared.outcome.ServerTook.TheVariants.{NoMemory};
ghost use Rattle.tds_server.specs.State.{new_server, server_with, lost_of, IsAnswering};
ghost use Rattle.tds_server.specs.Taking.{taken, moved, Moves, TakesMemory, goes_on, attended, part_taken};
ghost use Rattle.tds_server.specs.Working.{worked};
ghost use Rattle.tds_session.specs.Answer.{answer_of};

use crate::answer::do_step;
use crate::fault::ServerFault;
use crate::message::{MESSAGE_LIMIT, read_answer, refusal};
use crate::outcome::{ServerTook, Worked};
use crate::packets::{put_acknowledgement, put_answer};
use crate::state::State;
use std::alloc::{AllocError, Global};
use std::marker::Model;
use tds_packet::{Kind, PacketRef, PacketSize, Status};
use tds_request::RequestKind;
use tds_session::{Engine, OnAttention, Session};

/// The server's end of a connection, with the engine that runs its statements.
///
/// It begins logged in, with a fresh session. Packets of a request are taken one by one; the
/// request is then answered step by step, one packet each. A fault breaks it: each later packet is
/// answered by the same fault.
#[derive(Drop)]
pub struct Server<E: Engine + Drop> {
    alloc: Global,
    engine: E,
    on_attention: OnAttention,
    session: Session,
    state: State<E::Stmt>,
    /// The data of the message that is being received; in any other state they mean nothing.
    data: Vec<u8>,
}

impl<E: Engine + Drop> Model for Server<E> {
    ghost use Rattle.tds_server.specs.State.{ServerState};

    ghost Value = { ServerState E };

    ghost use Rattle.tds_server.specs.Due.{phase_of};

    ghost view = { λ a. record {
      engine = a.engine;
      on_attention = a.on_attention;
      session = a.session;
      phase = phase_of
          (E.step_of a.engine) a.session a.state a.«data».items;
    } };
}

impl<E: Engine + Drop> Server<E> {
    /// A server as a connection begins, which keeps its transaction at an attention.
    ///
    /// The packet size is not looked at: an answer's packets have at most 512 bytes, and so fit
    /// any, and the packets that come have been through a reader of that size.
    pub fn new(alloc: Global, engine: E, size: PacketSize) -> Server<E>
        ensures { result ≡ new_server engine }
    {
        Server::with_attention(alloc, engine, size, OnAttention::Keep)
    }

    /// A server as a connection begins, which does this with its transaction where an attention
    /// stops an answer.
    pub fn with_attention(
        alloc: Global,
        engine: E,
        _size: PacketSize,
        on_attention: OnAttention,
    ) -> Server<E>
        ensures { result ≡ server_with on_attention engine }
    {
        Server {
            alloc,
            engine,
            on_attention,
            session: Session::new(),
            state: State::Waiting,
            data: Vec::new(alloc),
        }
    }

    /// The session as it is now.
    pub fn session(&self) -> &Session
        ensures { result.now ≡ self.now.session }
    {
        &self.session
    }

    /// Says that the connection is lost. A server that is broken already keeps its fault.
    pub fn lost(&mut self)
        ensures { self.new ≡ lost_of self.old }
    {
        match &self.state {
            State::Broken(_) => {}
            State::Waiting => self.state = State::Broken(ServerFault::Lost),
            State::Receiving { .. } => self.state = State::Broken(ServerFault::Lost),
            State::Answering(_) => self.state = State::Broken(ServerFault::Lost),
        }
    }

    /// Takes a packet of a request, or an attention.
    ///
    /// A request that is whole is answered from then on, by `work`. An attention ends what was being
    /// received or answered, and is acknowledged at once, by one packet that is appended to `reply`.
    /// Where it stops an answer in its middle, a server that rolls back (`OnAttention`) rolls the
    /// transaction back, and the packet tells it, both at once; nothing else touches the session
    /// here. A fault breaks the server, which answers the same one from then on. At want of memory
    /// nothing changes.
    pub fn take(
        &mut self,
        packet: PacketRef<'_>,
        reply: &mut Vec<u8>,
    ) -> Result<ServerTook, ServerFault>
        requires { direction_of packet.header.kind ≡ ToServer }
        ensures engine { self.new.engine ≡ self.old.engine }
        ensures on_attention { self.new.on_attention ≡ self.old.on_attention }
        ensures session { packet.entry.header.kind ≢ Attention
            → self.new.session ≡ self.old.session }
        ensures state { result ≢ Ok NoMemory
            → self.new ≡ (taken (answer_of (E.statements_of self.old.engine)
            (E.step_of self.old.engine)) self.old
            packet.entry.header packet.entry.«data».now).state }
        ensures answer { result ≢ Ok NoMemory
            → result ≡ (taken (answer_of (E.statements_of self.old.engine)
            (E.step_of self.old.engine)) self.old
            packet.entry.header packet.entry.«data».now).answer }
        ensures reply { result ≢ Ok NoMemory
            → reply.new.items ≡ reply.old.items
            ++ (taken (answer_of (E.statements_of self.old.engine)
            (E.step_of self.old.engine)) self.old
            packet.entry.header packet.entry.«data».now).reply }
        // An acknowledgement, and what it tells of the transaction that it rolled back.
        ensures short { length reply.new.items ≤ length reply.old.items + 35 }
        // At want of memory nothing changes. It comes only where a growth is needed, so not in
        // place of a fault, but for one that a message has once all its data have been joined.
        ensures memory { result ≡ Ok NoMemory
            → (self.new ≡ self.old) × (reply.new.items ≡ reply.old.items) }
        ensures wanted { result ≡ Ok NoMemory
            → TakesMemory (moved (answer_of (E.statements_of self.old.engine)
            (E.step_of self.old.engine)) self.old.on_attention self.old.session self.old.phase
            packet.entry.header packet.entry.«data».now) }
    {
        match self.take_unbroken(packet, reply) {
            Ok(took) => Ok(took),
            Err(fault) => {
                self.state = State::Broken(fault.again());
                Err(fault)
            }
        }
    }

    /// Takes a packet. A fault is left to break the server.
    fn take_unbroken(
        &mut self,
        packet: PacketRef<'_>,
        reply: &mut Vec<u8>,
    ) -> Result<ServerTook, ServerFault>
        requires { direction_of packet.header.kind ≡ ToServer }
        ensures engine { self.new.engine ≡ self.old.engine }
        ensures on_attention { self.new.on_attention ≡ self.old.on_attention }
        ensures session { packet.entry.header.kind ≢ Attention
            → self.new.session ≡ self.old.session }
        ensures kept { OnErr result (self.new.session ≡ self.old.session) }
        ensures moved { IfOk result (λ took. took ≢ NoMemory
            → Moves (moved (answer_of (E.statements_of self.old.engine)
            (E.step_of self.old.engine)) self.old.on_attention self.old.session self.old.phase
            packet.entry.header packet.entry.«data».now)
            took self.new.session self.new.phase reply.old.items reply.new.items) }
        ensures memory { result ≡ Ok NoMemory
            → (self.new ≡ self.old) × (reply.new.items ≡ reply.old.items) }
        ensures wanted { result ≡ Ok NoMemory
            → TakesMemory (moved (answer_of (E.statements_of self.old.engine)
            (E.step_of self.old.engine)) self.old.on_attention self.old.session self.old.phase
            packet.entry.header packet.entry.«data».now) }
        ensures fault { IfErr result
            (λ fault. moved (answer_of (E.statements_of self.old.engine)
            (E.step_of self.old.engine)) self.old.on_attention self.old.session self.old.phase
            packet.entry.header packet.entry.«data».now ≡ Err fault) }
        ensures short { length reply.new.items ≤ length reply.old.items + 35 }
        ensures quiet { OnErr result (reply.new.items ≡ reply.old.items) }
    {
        if let Some(fault) = self.state.fault() {
            return Err(fault);
        }
        let status = packet.header.status;
        match packet.header.kind {
            Kind::Batch => self.take_part(RequestKind::Batch, status, packet.data),
            Kind::Transaction => self.take_part(RequestKind::Transaction, status, packet.data),
            Kind::Attention => self.take_attention(status, packet.data, reply),
            // A reader lends neither.
            Kind::Procedure | Kind::BulkLoad => Err(ServerFault::TypeChanged),
            Kind::Answer => unreachable!(),
        }
    }

    /// Takes a packet of a request. A fault is left to break the server.
    #[tactic(auto, unfolding(crate::specs::Taking::continued, crate::specs::Taking::joined, crate::specs::Taking::ignored))]
    fn take_part(
        &mut self,
        kind: RequestKind,
        status: Status,
        data: &[u8],
    ) -> Result<ServerTook, ServerFault>
        ensures engine { self.new.engine ≡ self.old.engine }
        ensures on_attention { self.new.on_attention ≡ self.old.on_attention }
        ensures session { self.new.session ≡ self.old.session }
        ensures moved { IfOk result
            (λ took. took ≢ NoMemory → part_taken
            (answer_of (E.statements_of self.old.engine)
            (E.step_of self.old.engine)) self.old.session self.old.phase kind
            (bits_of status) «data».now ≡ Ok (goes_on self.old.session self.new.phase took)) }
        ensures memory { result ≡ Ok NoMemory → self.new ≡ self.old }
        ensures wanted { result ≡ Ok NoMemory
            → TakesMemory (part_taken
            (answer_of (E.statements_of self.old.engine)
            (E.step_of self.old.engine)) self.old.session self.old.phase kind
            (bits_of status) «data».now) }
        ensures fault { IfErr result
            (λ fault. part_taken (answer_of (E.statements_of self.old.engine)
            (E.step_of self.old.engine)) self.old.session self.old.phase kind
            (bits_of status) «data».now ≡ Err fault) }
    {
        let reset = self.state.reset_of_message(kind, status)?;
        if status.is_ignored() {
            if !status.ends() {
                return Err(ServerFault::IgnoredPart);
            }
            self.state = State::Waiting;
            return Ok(ServerTook::Dropped);
        }
        let received = self.state.received(self.data.len());
        if received + data.len() > MESSAGE_LIMIT {
            return Err(ServerFault::LongMessage);
        }
        self.data.truncate(received);
        if self.data.extend_from_slice(data).is_err() {
            return Ok(ServerTook::NoMemory);
        }
        if !status.ends() {
            self.state = State::Receiving { kind, reset };
            return Ok(ServerTook::More);
        }
        match read_answer(self.alloc, &self.engine, kind, reset, self.data.as_slice()) {
            Ok(answer) => {
                self.state = State::Answering(answer);
                Ok(ServerTook::Request)
            }
            Err(fault) => {
                self.data.truncate(received);
                refusal(fault)
            }
        }
    }

    /// Takes an attention (MS-TDS 2.2.1.7). A fault is left to break the server.
    #[tactic(auto, unfolding(crate::specs::Taking::attended))]
    fn take_attention(
        &mut self,
        status: Status,
        data: &[u8],
        reply: &mut Vec<u8>,
    ) -> Result<ServerTook, ServerFault>
        ensures engine { self.new.engine ≡ self.old.engine }
        ensures on_attention { self.new.on_attention ≡ self.old.on_attention }
        ensures kept { OnErr result (self.new.session ≡ self.old.session) }
        ensures moved { IfOk result (λ took. took ≢ NoMemory
            → Moves (attended self.old.on_attention self.old.session self.old.phase
            (bits_of status) «data».now)
            took self.new.session self.new.phase reply.old.items reply.new.items) }
        ensures memory { result ≡ Ok NoMemory
            → (self.new ≡ self.old) × (reply.new.items ≡ reply.old.items) }
        ensures wanted { result ≡ Ok NoMemory
            → TakesMemory (attended self.old.on_attention self.old.session self.old.phase
            (bits_of status) «data».now) }
        ensures fault { IfErr result
            (λ fault. attended self.old.on_attention self.old.session self.old.phase
            (bits_of status) «data».now ≡ Err fault) }
        ensures short { length reply.new.items ≤ length reply.old.items + 35 }
        ensures quiet { OnErr result (reply.new.items ≡ reply.old.items) }
    {
        if !status.ends_alone() || !data.is_empty() {
            return Err(ServerFault::WrongAttention);
        }
        let packet_id = self.state.acknowledging_id();
        let mut left = self.session;
        let rolled_back = self.on_attention.stop(self.state.is_midway(), &mut left);
        if put_acknowledgement(self.alloc, reply, packet_id, rolled_back).is_err() {
            return Ok(ServerTook::NoMemory);
        }
        self.session = left;
        self.state = State::Waiting;
        Ok(ServerTook::Acknowledged)
    }

    /// Does one step of the answer and appends its packet, or neither at want of memory.
    ///
    /// The PacketIDs of an answer count from 1, modulo 256; end of message is set on the last
    /// packet alone. Where nothing is being answered, also in a broken server, nothing happens.
    pub fn work(&mut self, out: &mut Vec<u8>) -> Result<Worked, AllocError>
        ensures engine { self.new.engine ≡ self.old.engine }
        ensures on_attention { self.new.on_attention ≡ self.old.on_attention }
        ensures state { OnOk result (self.new ≡ (worked self.old).state) }
        ensures answer { IfOk result (λ answer. answer ≡ (worked self.old).answer) }
        ensures packet { OnOk result (out.new.items ≡ out.old.items ++ (worked self.old).packet) }
        ensures short { OnOk result (length (worked self.old).packet ≤ 512) }
        // At want of memory nothing changes. It comes only where a step is to be done.
        ensures refused { OnErr result ((self.new ≡ self.old) × (out.new.items ≡ out.old.items)) }
        ensures wanted { OnErr result (IsAnswering self.old.phase) }
    {
        let State::Answering(answer) = &mut self.state else {
            return Ok(Worked::Idle);
        };
        let mut session = self.session;
        let done = do_step(self.alloc, &self.engine, answer, &mut session)?;
        let last = done.next.is_none();
        put_answer(
            self.alloc,
            out,
            answer.packet_id,
            last,
            done.tokens.as_slice(),
        )?;
        self.session = session;
        match done.next {
            Some(due) => {
                answer.due = due;
                answer.packet_id = answer.packet_id.wrapping_add(1);
                answer.begun = true;
                Ok(Worked::Step)
            }
            None => {
                self.state = State::Waiting;
                Ok(Worked::Finished)
            }
        }
    }
}
