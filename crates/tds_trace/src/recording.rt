//! A carrier that records its calls.
ghost use Rattle.std.specs.Prelude.{[], ◌∷◌, ◌≡◌, ◌≢◌, ◌++◌, ◌≤◌, ◌<◌, ◌+◌, ℕ, List, length, drop, take, true, false, is_err, Option, Some, Err, None, IfOk, IfSome, OnOk};
ghost use Rattle.tds_trace.specs.Calls.{AreCallsAt};
ghost use Rattle.tds_trace.specs.Told.{begun_in};
ghost use Rattle.tds_trace.specs.Turns.{IsRecordOf};
ghost use Rattle.tds_play.specs.Pipe.{Changes, new_pipe, sent_on, carried_on, stuck_on, cut_pipe, traffic, IsOpen, IsUncut};
ghost use Rattle.tds_play.specs.declared.carrier.CarrierError.TheVariants.{Lost, Memory};

use crate::call::{Call, Made};
use std::alloc::{AllocError, Global};
use std::snapshot::Snapshot;
use tds_packet::Direction;
use tds_play::{Carrier, CarrierError};

/// What there was of a carrier when an event began. It has no bytes: clauses alone read it.
#[derive(Drop)]
struct Telling<C> {
    event: Snapshot<u32>,
    carrier: Snapshot<C>,
}

impl<C> Telling<C> {
    fn of(event: u32, carrier: &C) -> Telling<C>
        ensures event { result.event.value ≡ event }
        ensures carrier { result.carrier.value ≡ carrier.now }
    {
        Telling {
            event: Snapshot::of(&event),
            carrier: Snapshot::of(carrier),
        }
    }
}

/// A carrier, and a record of each call that it was asked, in order, with the event that made it. It is
/// told of events, and keeps what there was of each connection when each one began.
#[derive(Drop)]
pub struct RecordingCarrier<C: Carrier + Drop> {
    alloc: Global,
    inner: C,
    began: Vec<Telling<C>>,
    /// The event of which it was told last.
    event: Option<u32>,
    calls: Vec<Call>,
    /// Whether a call is missing: for want of memory, or since no event made it.
    is_short: bool,
    ghost recorded: { is_short ≡ false → AreCallsAt calls.items (C.pipes inner) },
    ghost turns: { is_short ≡ false
        → ∥ IsRecordOf event calls.items (begun_in C.pipes began.items) (C.pipes inner) ∥₁ },
}

impl<C: Carrier + Drop> RecordingCarrier<C> {
    /// Records the calls of a carrier that is new: it has no connection. That is required, since a record
    /// that began behind others could not be known to begin with the play. It takes no memory.
    pub fn new(alloc: Global, inner: C) -> RecordingCarrier<C>
        requires { (conn : ℕ) → C.pipes inner conn ≡ None }
        ensures inner { result.inner ≡ inner }
        ensures untold { result.began.items ≡ [] }
    {
        RecordingCarrier {
            alloc,
            inner,
            began: Vec::new(alloc),
            event: None,
            calls: Vec::new(alloc),
            is_short: false,
        }
    }

    /// The calls, in order, each with its event. There are none where memory was refused to record one,
    /// or where one came before the first event.
    pub fn into_calls(self) -> Result<Vec<Call>, AllocError>
        ensures all { IfOk result (λ calls. AreCallsAt calls.items (C.pipes self.inner)) }
        ensures turns { IfOk result (λ calls. ∥ IsRecordOf self.event calls.items
            (begun_in C.pipes self.began.items) (C.pipes self.inner) ∥₁) }
    {
        match self.is_short {
            true => Err(AllocError),
            false => Ok(self.calls),
        }
    }
}

/// Appends a call of this event that was answered so, and answers whether one is missing then: for want of
/// memory, since it wanted memory itself, and nothing is known of the carrier, or since no event made it.
fn keep<T>(
    calls: &mut Vec<Call>,
    event: Option<u32>,
    conn: u32,
    made: Made,
    is_short: bool,
    answer: &Result<T, CarrierError>,
) -> bool
    ensures whole { result ≡ false → is_short ≡ false }
    ensures known { result ≡ false → answer.now ≢ Err Memory }
    ensures told { result ≡ false → event ≢ None }
    ensures calls { result ≡ false → IfSome event (λ number. calls.new.items ≡ calls.old.items
        ++ record { event = number; conn = conn; made = made; failed = is_err answer.now } ∷ []) }
{
    let Some(event) = event else {
        return true;
    };
    let call = Call {
        event,
        conn,
        made,
        failed: answer.is_err(),
    };
    is_short || matches!(answer, Err(CarrierError::Memory)) || calls.push(call).is_err()
}

/// The bytes behind so many.
fn behind(bytes: &[u8], before: usize) -> &[u8]
    ensures { result.now ≡ drop before bytes.now }
{
    match before < bytes.len() {
        true => &bytes[before..],
        false => &[],
    }
}

impl<C: Carrier + Drop> tds_play::EventCarrier for RecordingCarrier<C> {
    ghost is_told = { true };

    ghost pipes = { λ c. C.pipes c.inner };

    ghost began = { λ c. begun_in C.pipes c.began.items };

    fn begin(&mut self, event: u32) -> Result<(), AllocError> {
        match self.began.push(Telling::of(event, &self.inner)) {
            Ok(()) => {
                self.event = Some(event);
                Ok(())
            }
            Err(_) => {
                self.is_short = true;
                Err(AllocError)
            }
        }
    }

    fn open(&mut self, conn: u32) -> Result<(), CarrierError> {
        let answer = self.inner.open(conn);
        let made = Made::Open;
        self.is_short = keep(
            &mut self.calls,
            self.event,
            conn,
            made,
            self.is_short,
            &answer,
        );
        answer
    }

    fn send(&mut self, conn: u32, direction: Direction, bytes: &[u8]) -> Result<(), CarrierError> {
        let kept = Vec::from_slice(self.alloc, bytes)?;
        let made = Made::Send(direction, kept);
        let answer = self.inner.send(conn, direction, bytes);
        self.is_short = keep(
            &mut self.calls,
            self.event,
            conn,
            made,
            self.is_short,
            &answer,
        );
        answer
    }

    fn carry(
        &mut self,
        conn: u32,
        direction: Direction,
        most: usize,
        out: &mut Vec<u8>,
    ) -> Result<usize, CarrierError> {
        let before = out.as_slice().len();
        let answer = self.inner.carry(conn, direction, most, out);
        match Vec::from_slice(self.alloc, behind(out.as_slice(), before)) {
            Err(_) => self.is_short = true,
            Ok(came) => {
                let made = Made::Carry(direction, came);
                self.is_short = keep(
                    &mut self.calls,
                    self.event,
                    conn,
                    made,
                    self.is_short,
                    &answer,
                );
            }
        }
        answer
    }

    fn cut(&mut self, conn: u32) {
        self.inner.cut(conn);
        let answer = Ok(());
        let made = Made::Cut;
        self.is_short = keep::<()>(
            &mut self.calls,
            self.event,
            conn,
            made,
            self.is_short,
            &answer,
        );
    }
}
