//! What carries the bytes of each connection.
ghost use Rattle.std.specs.Prelude.{Bool, true, false, [], ◌∷◌, ◌≡◌, ◌≢◌, ◌++◌, ◌≤◌, ◌<◌, ◌+◌, ℕ, List, length, drop, take, Option, Some, Err, IfOk, OnOk};
ghost use Rattle.tds_packet.specs.declared.kind.Direction.{Direction};
ghost use Rattle.tds_play.specs.Pipe.{BegunEvent, Pipe, Changes, new_pipe, sent_on, carried_on, stuck_on, cut_pipe, since, traffic, IsOpen, IsUncut, MayCarry, MaySend};
ghost use Rattle.tds_play.specs.declared.carrier.CarrierError.TheVariants.{Lost, Memory};

use std::alloc::AllocError;
use tds_packet::Direction;

/// Why a carrier did not do what was asked.
#[derive(Debug, Drop)]
pub enum CarrierError {
    /// The connection failed. It is to be cut.
    Lost,
    /// A growth was refused. Nothing is known of the carrier then.
    Memory,
}

/// Carries the bytes of connections, each of which has a number, in both directions. Bytes are
/// handed over by `send` and come out by `carry`, at one end or the other.
pub trait Carrier {
    /// What each connection was handed, what came of it, and what failed.
    ghost pipes: { Self → ℕ → Option Pipe };

    /// Opens this connection.
    fn open(&mut self, conn: u32) -> Result<(), CarrierError>
        ensures ok { OnOk result
            (Changes (pipes self.old) (pipes self.new) conn (Some (new_pipe 0))) }
        ensures lost { result ≡ Err Lost
            → Changes (pipes self.old) (pipes self.new) conn (Some (new_pipe 1)) };

    /// Hands bytes over. They are underway then, also where the connection failed.
    fn send(&mut self, conn: u32, direction: Direction, bytes: &[u8]) -> Result<(), CarrierError>
        requires some { 0 < length bytes.now }
        requires there { IsOpen (pipes self.old conn) }
        ensures ok { OnOk result (Changes (pipes self.old) (pipes self.new) conn
            (sent_on (pipes self.old conn) direction bytes.now 0)) }
        ensures lost { result ≡ Err Lost → Changes (pipes self.old) (pipes self.new) conn
            (sent_on (pipes self.old conn) direction bytes.now 1) };

    /// Takes bytes out, at least one and `most` at most, and appends them to `out`. It answers how
    /// many. So many must be underway.
    fn carry(
        &mut self,
        conn: u32,
        direction: Direction,
        most: usize,
        out: &mut Vec<u8>,
    ) -> Result<usize, CarrierError>
        requires some { 0 < most }
        requires there { IsOpen (pipes self.old conn) }
        requires underway { length (traffic (pipes self.old conn) direction).came + most
            ≤ length (traffic (pipes self.old conn) direction).handed }
        ensures least { IfOk result (λ n. 0 < n) }
        ensures most { IfOk result (λ n. n ≤ most) }
        ensures count { IfOk result (λ n. length out.new.items ≡ length out.old.items + n) }
        ensures kept { OnOk result (take (length out.old.items) out.new.items ≡ out.old.items) }
        ensures ok { OnOk result (Changes (pipes self.old) (pipes self.new) conn
            (carried_on (pipes self.old conn) direction
            (drop (length out.old.items) out.new.items))) }
        ensures lost { result ≡ Err Lost → Changes (pipes self.old) (pipes self.new) conn
            (stuck_on (pipes self.old conn) direction) }
        ensures nothing { result ≡ Err Lost → out.new.items ≡ out.old.items };

    /// Cuts this connection.
    fn cut(&mut self, conn: u32)
        requires { IsUncut (pipes self.old conn) }
        ensures cut { Changes (pipes self.old) (pipes self.new) conn
            (cut_pipe (pipes self.old conn)) };
}

/// What a play is carried by. Each [`Carrier`] is one, and isn't told of events. One that is told
/// gives these itself: it is told of each event before the calls that the event makes, and what
/// these require then is what it may rely on: an event opens a connection before all else, carries
/// before it sends, and sends once; after a call that failed nothing is asked of its connection but
/// to send the answer to what had come, and to be cut. The calls are the same for both, since nothing
/// at run time says which one it is.
pub trait EventCarrier {
    /// Whether it is told of events.
    ghost is_told: { Bool };

    /// As of a [`Carrier`].
    ghost pipes: { Self → ℕ → Option Pipe };

    /// Each event of which it was told, in order, with what there was of each connection then. What
    /// an event did at the carrier is what lies between it and the next one.
    ghost began: { Self → List BegunEvent };

    /// Is told that the event of this number begins. Nothing else changes.
    fn begin(&mut self, event: u32) -> Result<(), AllocError>
        ensures told { OnOk result (is_told ≡ true → began self.new ≡ began self.old
            ++ record { event = event; pipes = pipes self.old } ∷ []) }
        ensures still { OnOk result (pipes self.new ≡ pipes self.old) };

    /// As of a [`Carrier`].
    fn open(&mut self, conn: u32) -> Result<(), CarrierError>
        requires first { is_told ≡ true → since (began self.old) conn ≡ pipes self.old conn }
        ensures ok { OnOk result
            (Changes (pipes self.old) (pipes self.new) conn (Some (new_pipe 0))) }
        ensures lost { result ≡ Err Lost
            → Changes (pipes self.old) (pipes self.new) conn (Some (new_pipe 1)) }
        ensures began { result ≢ Err Memory → began self.new ≡ began self.old };

    /// As of a [`Carrier`].
    fn send(&mut self, conn: u32, direction: Direction, bytes: &[u8]) -> Result<(), CarrierError>
        requires some { 0 < length bytes.now }
        requires there { IsOpen (pipes self.old conn) }
        requires once { MaySend is_told (since (began self.old) conn) (pipes self.old conn) }
        ensures ok { OnOk result (Changes (pipes self.old) (pipes self.new) conn
            (sent_on (pipes self.old conn) direction bytes.now 0)) }
        ensures lost { result ≡ Err Lost → Changes (pipes self.old) (pipes self.new) conn
            (sent_on (pipes self.old conn) direction bytes.now 1) }
        ensures began { result ≢ Err Memory → began self.new ≡ began self.old };

    /// As of a [`Carrier`].
    fn carry(
        &mut self,
        conn: u32,
        direction: Direction,
        most: usize,
        out: &mut Vec<u8>,
    ) -> Result<usize, CarrierError>
        requires some { 0 < most }
        requires there { IsOpen (pipes self.old conn) }
        requires early { MayCarry is_told (since (began self.old) conn) (pipes self.old conn) }
        requires underway { length (traffic (pipes self.old conn) direction).came + most
            ≤ length (traffic (pipes self.old conn) direction).handed }
        ensures least { IfOk result (λ n. 0 < n) }
        ensures most { IfOk result (λ n. n ≤ most) }
        ensures count { IfOk result (λ n. length out.new.items ≡ length out.old.items + n) }
        ensures kept { OnOk result (take (length out.old.items) out.new.items ≡ out.old.items) }
        ensures ok { OnOk result (Changes (pipes self.old) (pipes self.new) conn
            (carried_on (pipes self.old conn) direction
            (drop (length out.old.items) out.new.items))) }
        ensures lost { result ≡ Err Lost → Changes (pipes self.old) (pipes self.new) conn
            (stuck_on (pipes self.old conn) direction) }
        ensures nothing { result ≡ Err Lost → out.new.items ≡ out.old.items }
        ensures began { result ≢ Err Memory → began self.new ≡ began self.old };

    /// As of a [`Carrier`].
    fn cut(&mut self, conn: u32)
        requires { IsUncut (pipes self.old conn) }
        ensures cut { Changes (pipes self.old) (pipes self.new) conn
            (cut_pipe (pipes self.old conn)) }
        ensures began { began self.new ≡ began self.old };
}

impl<C: Carrier> EventCarrier for C {
    ghost is_told = { false };

    ghost pipes = { C.pipes };

    ghost began = { λ _. [] };

    fn begin(&mut self, _event: u32) -> Result<(), AllocError> {
        Ok(())
    }

    fn open(&mut self, conn: u32) -> Result<(), CarrierError> {
        Carrier::open(self, conn)
    }

    fn send(&mut self, conn: u32, direction: Direction, bytes: &[u8]) -> Result<(), CarrierError> {
        Carrier::send(self, conn, direction, bytes)
    }

    fn carry(
        &mut self,
        conn: u32,
        direction: Direction,
        most: usize,
        out: &mut Vec<u8>,
    ) -> Result<usize, CarrierError> {
        Carrier::carry(self, conn, direction, most, out)
    }

    fn cut(&mut self, conn: u32) {
        Carrier::cut(self, conn)
    }
}
