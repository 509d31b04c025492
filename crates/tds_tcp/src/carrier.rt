//! The carrier.
ghost use Rattle.std.specs.Prelude.{◌≡◌, ◌<◌, ◌≤◌, ◌+◌, None, Some, Err, IfOk, IfErr, IfSome, OnOk, ℕ, length, take, drop};
ghost use Rattle.tds_play.specs.Pipe.{Changes, new_pipe, sent_on, carried_on, stuck_on, cut_pipe, traffic, IsOpen, IsUncut};
ghost use Rattle.tds_play.specs.declared.carrier.CarrierError.TheVariants.{Lost, Memory};
ghost use Rattle.tds_tcp.specs.Accepts.{one_more};
ghost use Rattle.tds_tcp.specs.Flows.{HasRoom};
ghost use Rattle.tds_tcp.specs.Pairs.{pipe_at};

use crate::pair::Pair;
use std::alloc::Global;
use std::collections::BTreeMap;
use std::net::{Ipv4Addr, Net, OpenListener, OpenStream, SocketAddr, SocketAddrV4};
use std::time::Duration;
use tds_packet::Direction;
use tds_play::{Carrier, CarrierError};

/// How many seconds a call waits at most for the system. No call of a play waits at all.
const PATIENCE: u64 = 5;

/// How many connections of others are let go of while one's own is waited for.
const STRANGERS: u32 = 256;

/// Carries bytes over TCP, on 127.0.0.1, both ends of each connection in this one process. What it
/// answers is said for any system: nothing is known of the bytes that come. Where a run's bytes came
/// as they were handed over, all that `play` says holds of that run.
///
/// Of the bytes it keeps none. Those that are underway are with the system, at most 8,192 in one
/// direction of one connection: more is `Lost`, as is each call that the system refuses.
///
/// No call waits for ever, though one process is both ends. `open` connects first: the system
/// itself makes the connection then, and lays it where `accept` finds it. `send` writes what the
/// system holds without a reader. `carry` reads what was written before, since no more is asked of
/// it than is underway; where a send failed, the stream was ended behind what had been written.
/// Where the system fails them all the same, `connect`, `read` and `write` give up after five
/// seconds. Other processes may connect too: `open` lets go of 256 of them at most.
#[derive(Drop)]
pub struct TcpCarrier<R, L, S> {
    alloc: Global,
    rt: R,
    listener: L,
    accepted: u32,
    pairs: BTreeMap<u32, Pair<S>>,
}

impl<R: Net + Drop> TcpCarrier<R, R::Listener, R::Stream> {
    /// A carrier without a connection: it listens on 127.0.0.1, at a port that is free. Where the
    /// system has no listener to give it is `Lost`.
    pub fn listen(
        alloc: Global,
        rt: R,
    ) -> Result<TcpCarrier<R, R::Listener, R::Stream>, CarrierError>
        ensures empty { IfOk result (λ t. (conn : ℕ) → pipe_at t.pairs conn ≡ None) }
        ensures accepted { IfOk result (λ t. t.accepted ≡ 0) }
        ensures lost { IfErr result (λ error. error ≡ Lost) }
    {
        let address = SocketAddr::V4(SocketAddrV4::new(Ipv4Addr::LOCALHOST, 0));
        match rt.bind(address) {
            Ok(listener) => Ok(TcpCarrier {
                alloc,
                rt,
                listener,
                accepted: 0,
                pairs: BTreeMap::new(alloc),
            }),
            Err(_) => Err(CarrierError::Lost),
        }
    }

    /// How many connections were opened over the listener. It stays at its greatest value.
    pub fn accepted(&self) -> u32
        ensures { result ≡ self.now.accepted }
    {
        self.accepted
    }

    /// Connects, and accepts in turn.
    fn connect(&mut self) -> Option<(R::Stream, R::Stream)>
        ensures pairs { self.new.pairs ≡ self.old.pairs }
        ensures some { IfSome result (λ _. self.new.accepted ≡ one_more self.old.accepted) }
        ensures none { result ≡ None → self.new.accepted ≡ self.old.accepted }
    {
        let address = self.listener.local_addr().ok()?;
        let patience = Duration::from_secs(PATIENCE);
        let near = self.rt.connect_timeout(address, patience).ok()?;
        let far = accept_from(&self.listener, near.local_addr().ok()?)?;
        if !is_ready(&near) || !is_ready(&far) {
            return None;
        }
        self.accepted = self.accepted.saturating_add(1);
        Some((near, far))
    }
}

/// Accepts the connection from this address. It has been made, so it is there, or about to be. One
/// that another process made is let go of.
fn accept_from<L: OpenListener>(listener: &L, address: SocketAddr) -> Option<L::Stream> {
    'tries: for _ in 0..STRANGERS {
        let (far, peer) = listener.accept().ok()?;
        if peer == address {
            return Some(far);
        }
    }
    None
}

/// Whether the stream now writes each packet at once, and waits no longer than it may.
fn is_ready<S: OpenStream>(stream: &S) -> bool {
    let patience = Some(Duration::from_secs(PATIENCE));
    stream.set_nodelay(true).is_ok()
        && stream.set_read_timeout(patience).is_ok()
        && stream.set_write_timeout(patience).is_ok()
}

impl<R: Net + Drop> Carrier for TcpCarrier<R, R::Listener, R::Stream> {
    ghost pipes = { λ t. pipe_at t.pairs };

    /// The trait's clauses, and how many were accepted.
    fn open(&mut self, conn: u32) -> Result<(), CarrierError>
        ensures ok { OnOk result (
            Changes (pipe_at self.old.pairs) (pipe_at self.new.pairs) conn (Some (new_pipe 0))) }
        ensures lost { result ≡ Err Lost
            → Changes (pipe_at self.old.pairs) (pipe_at self.new.pairs) conn (Some (new_pipe 1)) }
        ensures accepted { OnOk result (self.new.accepted ≡ one_more self.old.accepted) }
        ensures none_more { result ≡ Err Lost → self.new.accepted ≡ self.old.accepted }
    {
        match self.connect() {
            Some((near, far)) => match self
                .pairs
                .insert(conn, Pair::joined(self.alloc, near, far))
            {
                Ok(_) => Ok(()),
                Err(_) => Err(CarrierError::Memory),
            },
            None => match self.pairs.insert(conn, Pair::failed(self.alloc)) {
                Ok(_) => Err(CarrierError::Lost),
                Err(_) => Err(CarrierError::Memory),
            },
        }
    }

    /// The trait's clauses, and that no more than 8,192 bytes are underway.
    fn send(&mut self, conn: u32, direction: Direction, bytes: &[u8]) -> Result<(), CarrierError>
        requires some { 0 < length bytes.now }
        requires there { IsOpen (pipe_at self.old.pairs conn) }
        ensures ok { OnOk result (
            Changes (pipe_at self.old.pairs) (pipe_at self.new.pairs)
            conn (sent_on (pipe_at self.old.pairs conn) direction bytes.now 0)) }
        ensures lost { result ≡ Err Lost
            → Changes (pipe_at self.old.pairs) (pipe_at self.new.pairs)
            conn (sent_on (pipe_at self.old.pairs conn) direction bytes.now 1) }
        ensures room { OnOk result (
            HasRoom (traffic (pipe_at self.old.pairs conn) direction) (length bytes.now)) }
        ensures accepted { self.new.accepted ≡ self.old.accepted }
    {
        match self.pairs.get_mut(&conn) {
            None => unreachable!(),
            Some(pair) => pair.send(direction, bytes),
        }
    }

    /// The trait's clauses, and that no connection is accepted.
    fn carry(
        &mut self,
        conn: u32,
        direction: Direction,
        most: usize,
        out: &mut Vec<u8>,
    ) -> Result<usize, CarrierError>
        requires some { 0 < most }
        requires there { IsOpen (pipe_at self.old.pairs conn) }
        ensures least { IfOk result (λ n. 0 < n) }
        ensures most { IfOk result (λ n. n ≤ most) }
        ensures count { IfOk result (λ n. length out.new.items ≡ length out.old.items + n) }
        ensures kept { OnOk result (take (length out.old.items) out.new.items ≡ out.old.items) }
        ensures ok { OnOk result (
            Changes (pipe_at self.old.pairs) (pipe_at self.new.pairs) conn (carried_on
            (pipe_at self.old.pairs conn) direction (drop (length out.old.items) out.new.items))) }
        ensures lost { result ≡ Err Lost
            → Changes (pipe_at self.old.pairs) (pipe_at self.new.pairs)
            conn (stuck_on (pipe_at self.old.pairs conn) direction) }
        ensures nothing { result ≡ Err Lost → out.new.items ≡ out.old.items }
        ensures accepted { self.new.accepted ≡ self.old.accepted }
    {
        match self.pairs.get_mut(&conn) {
            None => unreachable!(),
            Some(pair) => pair.carry(direction, most, out),
        }
    }

    /// The trait's clauses, and that no connection is accepted.
    fn cut(&mut self, conn: u32)
        requires { IsUncut (pipe_at self.old.pairs conn) }
        ensures cut { Changes (pipe_at self.old.pairs) (pipe_at self.new.pairs)
            conn (cut_pipe (pipe_at self.old.pairs conn)) }
        ensures accepted { self.new.accepted ≡ self.old.accepted }
    {
        match self.pairs.get_mut(&conn) {
            None => unreachable!(),
            Some(pair) => pair.cut(),
        }
    }
}
