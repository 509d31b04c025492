//! The two streams of a connection.
ghost use Rattle.std.specs.Prelude.{◌≡◌, ◌+◌, ◌<◌, ◌≤◌, Some, None, Err, true, length, take, drop, OnOk, IfOk};
ghost use Rattle.tds_play.specs.Pipe.{sent, carried, sent_on, carried_on, stuck_on, traffic_of, new_pipe};
ghost use Rattle.tds_play.specs.declared.carrier.CarrierError.TheVariants.{Lost};
ghost use Rattle.tds_tcp.specs.Flows.{HasRoom};
ghost use Rattle.tds_tcp.specs.Pairs.{pipe_of};

use crate::flow::{Flow, MOST};
use std::alloc::Global;
use std::io::{Read, Write};
use std::net::{OpenStream, Shutdown};
use tds_packet::Direction;
use tds_play::CarrierError;

/// A connection: the client's stream and the server's, while it is open.
#[derive(Drop)]
pub(crate) struct Pair<S> {
    near: Option<S>,
    far: Option<S>,
    to_server: Flow,
    to_client: Flow,
    open_failures: u64,
    is_cut: bool,
}

impl<S: Drop> Pair<S> {
    /// A connection with these streams, over which nothing went yet.
    pub(crate) fn joined(alloc: Global, near: S, far: S) -> Pair<S>
        ensures { pipe_of result ≡ new_pipe 0 }
    {
        Pair {
            near: Some(near),
            far: Some(far),
            to_server: Flow::new(alloc),
            to_client: Flow::new(alloc),
            open_failures: 0,
            is_cut: false,
        }
    }

    /// A connection that failed to open.
    pub(crate) fn failed(alloc: Global) -> Pair<S>
        ensures { pipe_of result ≡ new_pipe 1 }
    {
        Pair {
            near: None,
            far: None,
            to_server: Flow::new(alloc),
            to_client: Flow::new(alloc),
            open_failures: 1,
            is_cut: false,
        }
    }

    /// Closes both streams.
    pub(crate) fn cut(&mut self)
        ensures { self.new ≡ record self.old { near = None; far = None; is_cut = true } }
    {
        self.near = None;
        self.far = None;
        self.is_cut = true;
    }
}

impl<S: Read + Write + OpenStream + Drop> Pair<S> {
    /// Writes to the stream of the end that sends.
    pub(crate) fn send(&mut self, direction: Direction, bytes: &[u8]) -> Result<(), CarrierError>
        ensures ok { OnOk result (
            Some (pipe_of self.new) ≡ sent_on (Some (pipe_of self.old)) direction bytes.now 0) }
        ensures lost { result ≡ Err Lost
            → Some (pipe_of self.new) ≡ sent_on (Some (pipe_of self.old)) direction bytes.now 1 }
        ensures room { OnOk result (
            HasRoom (traffic_of (pipe_of self.old) direction) (length bytes.now)) }
    {
        match direction {
            Direction::ToServer => send(&mut self.near, &mut self.to_server, bytes),
            Direction::ToClient => send(&mut self.far, &mut self.to_client, bytes),
        }
    }

    /// Reads from the stream of the end that hears.
    pub(crate) fn carry(
        &mut self,
        direction: Direction,
        most: usize,
        out: &mut Vec<u8>,
    ) -> Result<usize, CarrierError>
        requires { 0 < most }
        ensures least { IfOk result (λ n. 0 < n) }
        ensures most { IfOk result (λ n. n ≤ most) }
        ensures count { IfOk result (λ n. length out.new.items ≡ length out.old.items + n) }
        ensures kept { OnOk result (take (length out.old.items) out.new.items ≡ out.old.items) }
        ensures ok { OnOk result (
            Some (pipe_of self.new)
            ≡ carried_on (Some (pipe_of self.old)) direction
            (drop (length out.old.items) out.new.items)) }
        ensures lost { result ≡ Err Lost
            → Some (pipe_of self.new) ≡ stuck_on (Some (pipe_of self.old)) direction }
        ensures nothing { result ≡ Err Lost → out.new.items ≡ out.old.items }
    {
        match direction {
            Direction::ToServer => carry(&mut self.far, &mut self.to_server, most, out),
            Direction::ToClient => carry(&mut self.near, &mut self.to_client, most, out),
        }
    }
}

/// Hands bytes over to this stream, unless too many would be underway.
fn send<S: Write + OpenStream>(
    stream: &mut Option<S>,
    flow: &mut Flow,
    bytes: &[u8],
) -> Result<(), CarrierError>
    ensures ok { OnOk result (flow.new ≡ sent flow.old bytes.now 0) }
    ensures lost { result ≡ Err Lost → flow.new ≡ sent flow.old bytes.now 1 }
    ensures room { OnOk result (HasRoom flow.old (length bytes.now)) }
{
    if flow.has_room(bytes.len()) && !flow.is_shut() && write(stream, bytes) {
        flow.hand(bytes)?;
        return Ok(());
    }
    shut(stream);
    flow.hand_in_vain(bytes)?;
    Err(CarrierError::Lost)
}

/// Takes bytes out of this stream.
fn carry<S: Read>(
    stream: &mut Option<S>,
    flow: &mut Flow,
    most: usize,
    out: &mut Vec<u8>,
) -> Result<usize, CarrierError>
    requires { 0 < most }
    ensures least { IfOk result (λ n. 0 < n) }
    ensures most { IfOk result (λ n. n ≤ most) }
    ensures count { IfOk result (λ n. length out.new.items ≡ length out.old.items + n) }
    ensures kept { OnOk result (take (length out.old.items) out.new.items ≡ out.old.items) }
    ensures ok { OnOk result (
        flow.new ≡ carried flow.old (drop (length out.old.items) out.new.items)) }
    ensures lost { result ≡ Err Lost
        → flow.new ≡ record flow.old { carry_failures = flow.old.carry_failures + 1 } }
    ensures nothing { result ≡ Err Lost → out.new.items ≡ out.old.items }
{
    let mut buffer = [0u8; MOST];
    let wanted = most.min(MOST);
    let n = read(stream, &mut buffer[..wanted]);
    if n == 0 {
        flow.stick()?;
        return Err(CarrierError::Lost);
    }
    out.extend_from_slice(&buffer[..n])?;
    flow.come(&buffer[..n])?;
    Ok(n)
}

/// Whether all bytes were written.
fn write<S: Write>(stream: &mut Option<S>, bytes: &[u8]) -> bool {
    match stream {
        None => false,
        Some(stream) => stream.write_all(bytes).is_ok(),
    }
}

/// Reads at least one byte: how many, or 0 where that failed or nothing comes any more.
fn read<S: Read>(stream: &mut Option<S>, buffer: &mut [u8]) -> usize
    ensures within { result ≤ length buffer.new }
    ensures same { length buffer.new ≡ length buffer.old }
{
    match stream {
        None => 0,
        Some(stream) => match stream.read(buffer) {
            Ok(n) => n,
            Err(_) => 0,
        },
    }
}

/// Ends what is written: who reads gets what went before, and then the end, and waits for no more.
fn shut<S: OpenStream>(stream: &mut Option<S>) {
    match stream {
        None => {}
        Some(stream) => {
            let _ = stream.shutdown(Shutdown::Write);
        }
    }
}
