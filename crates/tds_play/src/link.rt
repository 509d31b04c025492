//! One connection: both its ends, what is underway between them, and the requests asked on it.
ghost use Rattle.std.specs.Prelude.{true, [], ◌∷◌, ◌≡◌, ℕ, reverse, false, Some, IfOk, None};
ghost use Rattle.tds_client.specs.Session.{new_session};
ghost use Rattle.tds_ends.specs.AllBytes.{new_reader};
ghost use Rattle.tds_play.specs.Failures.{Fails, Open};
ghost use Rattle.tds_play.specs.Links.{IsNewLink, behind, newest_first};
ghost use Rattle.tds_play.specs.Seats.{seated};
ghost use Rattle.tds_play.specs.Seen.{seen_in};
ghost use Rattle.tds_play.specs.Plays.{RepresentsConnection, cut_where};
ghost use Rattle.tds_packet.specs.declared.kind.Direction.{Direction};
ghost use Rattle.tds_packet.specs.declared.kind.Direction.TheVariants.{ToClient, ToServer};
ghost use Rattle.tds_play.specs.Pipe.{new_pipe, since, traffic};
ghost use Rattle.tds_play.specs.Reads.{IsReading};
ghost use Rattle.tds_play.specs.Ties.{IsTied, OpensTies};
ghost use Rattle.tds_world.specs.Connection.{new_connection};
ghost use Rattle.tds_world.specs.declared.report.Place.TheVariants.{Leased};

pub(crate) mod acts;
mod asking;
mod carrying;
mod cleaning;
mod deliveries;
mod leasing;

use crate::NoMemory;
use crate::carrier::{CarrierError, EventCarrier};
use crate::request::Record;
use std::alloc::{AllocError, Global};
use tds_client::{Client, ClientState};
use tds_ends::all_bytes::nothing_is_read;
use tds_packet::{Direction, PacketReader, PacketSize};
use tds_server::Server;
use tds_session::{Engine, OnAttention};
use tds_world::{ClientView, Outcome, Place, Snapshot};

/// What an event came to on its connection.
#[derive(Clone, Copy)]
pub(crate) struct EventDone {
    pub(crate) outcome: Outcome,
    /// Whether the carrier failed, so that the connection was cut.
    pub(crate) lost: bool,
}

/// A connection, but for its seat in the pool: its client stands there.
#[derive(Drop)]
pub(crate) struct Link<E: Engine + Drop> {
    /// From 1.
    pub(crate) number: u32,
    pub(crate) is_cut: bool,
    server: Server<E>,
    /// What comes to each end goes through its reader.
    client_reader: PacketReader,
    server_reader: PacketReader,
    /// How many bytes are underway.
    to_server: u64,
    to_client: u64,
    /// The newest request, and those before it in their order.
    current: Option<Record>,
    past: Vec<Record>,
}

/// What reads at the client and at the server, before anything came.
fn readers(alloc: Global, size: PacketSize) -> Result<(PacketReader, PacketReader), NoMemory>
    ensures client { IfOk result (λ readers. readers.0 ≡ new_reader ToClient size) }
    ensures server { IfOk result (λ readers. readers.1 ≡ new_reader ToServer size) }
{
    let client = PacketReader::new(alloc, size, Direction::ToClient)?;
    Ok((client, PacketReader::new(alloc, size, Direction::ToServer)?))
}

impl<E: Engine + Drop> Link<E> {
    /// A connection as it begins.
    fn new(
        alloc: Global,
        number: u32,
        engine: E,
        size: PacketSize,
        on_attention: OnAttention,
    ) -> Result<Link<E>, NoMemory>
        ensures number { IfOk result (λ link. link.number ≡ number) }
        ensures tied { IfOk result (λ link. IsTied link (Some (new_pipe 0))) }
        ensures live { IfOk result (λ link. link.is_cut ≡ false) }
        ensures value { IfOk result (IsNewLink number size engine on_attention) }
    {
        let (client_reader, server_reader) = readers(alloc, size)?;
        Ok(Link {
            number,
            is_cut: false,
            server: Server::with_attention(alloc, engine, size, on_attention),
            client_reader,
            server_reader,
            to_server: 0,
            to_client: 0,
            current: None,
            past: Vec::new(alloc),
        })
    }

    /// Opens a connection at the carrier. It answers whether the carrier failed, so that the
    /// connection is cut.
    pub(crate) fn open<C: EventCarrier>(
        alloc: Global,
        carrier: &mut C,
        number: u32,
        engine: E,
        size: PacketSize,
        on_attention: OnAttention,
    ) -> Result<(Link<E>, bool), NoMemory>
        requires first { C.is_told ≡ true
            → since (C.began carrier.old) number ≡ C.pipes carrier.old number }
        ensures number { IfOk result (λ opened. opened.0.number ≡ number) }
        ensures ties { IfOk result (λ opened. OpensTies number opened.0 (C.pipes carrier.old)
            (C.pipes carrier.new) (C.began carrier.old) (C.began carrier.new)) }
        ensures failed { IfOk result (λ opened. Fails (Open ∷ []) opened.1
            (C.pipes carrier.new number)) }
        ensures uncut { IfOk result (λ opened. opened.0.is_cut ≡ opened.1) }
        // Nothing has come, and nothing was read.
        ensures reads { IfOk result (λ opened. IsReading size opened.0 None
            (C.pipes carrier.new number)
            × ((d : Direction) → (traffic (C.pipes carrier.new number) d).came ≡ [])) }
        // With a new seat it stands for a new connection of the model, cut where the carrier
        // failed.
        ensures refines { (lease : ℕ)
            → IfOk result (λ opened. RepresentsConnection number size engine
            opened.0 (seated (Leased lease) (new_session size)) (C.pipes carrier.new number)
            (cut_where opened.1 (new_connection on_attention (Leased lease)))) }
    {
        nothing_is_read();
        let mut link = Link::new(alloc, number, engine, size, on_attention)?;
        match carrier.open(number) {
            Ok(()) => Ok((link, false)),
            Err(CarrierError::Lost) => {
                link.cut(carrier);
                Ok((link, true))
            }
            Err(CarrierError::Memory) => Err(AllocError),
        }
    }

    /// What is seen of it at this place with its client, unless it is cut.
    pub(crate) fn snapshot(&self, place: Place, client: &Client) -> Option<Snapshot>
        ensures { result ≡ seen_in self.now (seated place client.now) }
    {
        if self.is_cut {
            return None;
        }
        let view = match client.state() {
            ClientState::Idle => ClientView::Idle,
            ClientState::Sending => ClientView::Sending,
            ClientState::Reading => ClientView::Reading,
            ClientState::Cancelling => ClientView::Cancelling,
            // A client that breaks is cut in the same event.
            ClientState::Broken(_) => return None,
        };
        Some(Snapshot {
            conn: self.number,
            client: view,
            place,
            descriptor: client.descriptor(),
            mark: client.reset_mark(),
            server: *self.server.session(),
            to_server: self.to_server,
            to_client: self.to_client,
        })
    }

    /// The requests that were asked on it, the newest first.
    pub(crate) fn into_records(self) -> Result<Vec<Record>, NoMemory>
        ensures { IfOk result (λ records. records.items ≡ newest_first self) }
    {
        let Link { current, past, .. } = self;
        turned(past, current)
    }
}

/// Requests in their order and the one after them, turned round.
fn turned(mut past: Vec<Record>, newest: Option<Record>) -> Result<Vec<Record>, NoMemory>
    ensures { IfOk result (λ records. records.items ≡ reverse (behind past.items newest)) }
{
    if let Some(record) = newest {
        past.push(record)?;
    }
    past.reverse();
    Ok(past)
}
