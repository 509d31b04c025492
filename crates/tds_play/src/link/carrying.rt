//! What goes to the carrier and what comes from it, on a connection, and how an event ends there.
ghost use Rattle.std.specs.Prelude.{◌≡◌, ◌≢◌, ◌<◌, ◌≤◌, ◌+◌, ◌-◌, ◌++◌, ◌||◌, ◌∷◌, ℕ, Bool, List, [], length, true, false, if◌then◌else◌, Ok, IfOk, OnOk};
ghost use Rattle.tds_packet.specs.declared.kind.Direction.TheVariants.{ToServer, ToClient};
ghost use Rattle.tds_play.specs.Failures.{Call, Carry, Fails, FailsAs, FailsNoMore, HasNoFailure, Send};
ghost use Rattle.tds_play.specs.Links.{cut_of, recounted};
ghost use Rattle.tds_play.specs.Pipe.{Brings, Changes, IsFaithful, IsOpen, IsUncut, MayCarry, MaySend, cut_pipe, sent_on, since};
ghost use Rattle.tds_play.specs.Plays.{RepresentsConnection, cut_where};
ghost use Rattle.tds_play.specs.Reads.{BringsAny, ReadsNoMore};
ghost use Rattle.tds_play.specs.Seen.{outcome_of};
ghost use Rattle.tds_play.specs.Seats.{Seat};
ghost use Rattle.tds_play.specs.Ties.{IsTied, KeepsTies, counted, with_counted, saturated};
ghost use Rattle.tds_world.specs.Connection.{Connection, cut};

use super::{EventDone, Link};
use crate::NoMemory;
use crate::carrier::{CarrierError, EventCarrier};
use crate::feeding::Fault;
use std::alloc::AllocError;
use tds_packet::Direction;
use tds_session::Engine;
use tds_world::Outcome;

/// What a carrier brought.
#[derive(Clone, Copy)]
pub(super) struct Carried {
    pub(super) count: u32,
    /// Whether it failed then.
    pub(super) lost: bool,
}

/// Hands bytes over, at least one. It answers whether the carrier failed.
fn hand_bytes<C: EventCarrier>(
    carrier: &mut C,
    number: u32,
    direction: Direction,
    bytes: &[u8],
) -> Result<bool, NoMemory>
    requires some { 0 < length bytes.now }
    requires there { IsOpen (C.pipes carrier.old number) }
    requires once { MaySend C.is_told (since (C.began carrier.old) number)
        (C.pipes carrier.old number) }
    ensures handed { IfOk result (λ lost. Changes (C.pipes carrier.old) (C.pipes carrier.new) number
        (sent_on (C.pipes carrier.old number) direction bytes.now (if lost then 1 else 0))) }
    ensures begun { OnOk result (C.began carrier.new ≡ C.began carrier.old) }
{
    match carrier.send(number, direction, bytes) {
        Ok(()) => Ok(false),
        Err(CarrierError::Lost) => Ok(true),
        Err(CarrierError::Memory) => Err(AllocError),
    }
}

impl<E: Engine + Drop> Link<E> {
    /// Hands bytes to the carrier, if there are any, and counts them. It answers whether the
    /// carrier failed.
    pub(super) fn hand_over<C: EventCarrier>(
        &mut self,
        carrier: &mut C,
        direction: Direction,
        bytes: &[u8],
    ) -> Result<bool, NoMemory>
        requires live { self.old.is_cut ≡ false }
        requires tied { IsTied self.old (C.pipes carrier.old self.old.number) }
        requires once { MaySend C.is_told (since (C.began carrier.old) self.old.number)
            (C.pipes carrier.old self.old.number) }
        ensures number { self.new.number ≡ self.old.number }
        ensures live { self.new.is_cut ≡ false }
        ensures ties { OnOk result (KeepsTies self.old.number self.new (C.pipes carrier.old)
            (C.pipes carrier.new) (C.began carrier.old) (C.began carrier.new)) }
        ensures rest { self.new ≡ recounted self.new.to_server self.new.to_client self.old }
        ensures nothing { bytes.now ≡ []
            → (result ≡ Ok false) × (self.new ≡ self.old) × (carrier.new ≡ carrier.old) }
        ensures handed { bytes.now ≢ [] → IfOk result (λ lost. C.pipes carrier.new self.old.number
            ≡ sent_on (C.pipes carrier.old self.old.number) direction bytes.now
            (if lost then 1 else 0)) }
        ensures counted { bytes.now ≢ [] → OnOk result (self.new ≡ with_counted self.old direction
            (saturated (counted self.old direction + length bytes.now))) }
        ensures still { OnOk result (ReadsNoMore self.old self.new
            (C.pipes carrier.old self.old.number) (C.pipes carrier.new self.old.number)) }
        // To what failed before, a failure of this call is added exactly where it is answered.
        ensures failed { (calls : List Call) (before : Bool)
            → Fails calls before (C.pipes carrier.old self.old.number)
            → IfOk result (λ lost. Fails (calls ++ Send direction ∷ []) (before || lost)
            (C.pipes carrier.new self.old.number)) }
    {
        if bytes.is_empty() {
            return Ok(false);
        }
        let lost = hand_bytes(carrier, self.number, direction, bytes)?;
        self.went(direction, bytes.len() as u64);
        Ok(lost)
    }

    /// So many bytes more are underway.
    fn went(&mut self, direction: Direction, count: u64)
        ensures { self.new ≡ with_counted self.old direction
            (saturated (counted self.old direction + count)) }
    {
        match direction {
            Direction::ToServer => self.to_server = self.to_server.saturating_add(count),
            Direction::ToClient => self.to_client = self.to_client.saturating_add(count),
        }
    }

    /// So many of the bytes underway have come.
    fn came(&mut self, direction: Direction, count: u64)
        requires { count ≤ counted self.old direction }
        ensures { self.new ≡ with_counted self.old direction (counted self.old direction - count) }
    {
        match direction {
            Direction::ToServer => self.to_server -= count,
            Direction::ToClient => self.to_client -= count,
        }
    }

    /// Lets the carrier bring so many of the bytes underway, by as many calls as that takes, or
    /// until it fails.
    pub(super) fn carry<C: EventCarrier>(
        &mut self,
        carrier: &mut C,
        direction: Direction,
        count: u32,
        out: &mut Vec<u8>,
    ) -> Result<Carried, NoMemory>
        requires live { self.old.is_cut ≡ false }
        requires tied { IsTied self.old (C.pipes carrier.old self.old.number) }
        requires underway { count ≤ counted self.old direction }
        requires early { MayCarry C.is_told (since (C.began carrier.old) self.old.number)
            (C.pipes carrier.old self.old.number) }
        ensures number { self.new.number ≡ self.old.number }
        ensures live { self.new.is_cut ≡ false }
        ensures ties { OnOk result (KeepsTies self.old.number self.new (C.pipes carrier.old)
            (C.pipes carrier.new) (C.began carrier.old) (C.began carrier.new)) }
        ensures counted { IfOk result (λ carried. self.new
            ≡ with_counted self.old direction (counted self.old direction - carried.count)) }
        ensures within { IfOk result (λ carried. carried.count ≤ count) }
        ensures all { IfOk result (λ carried. carried.lost ≡ false → carried.count ≡ count) }
        ensures brought { IfOk result (λ carried. IsFaithful (C.pipes carrier.new self.old.number)
            → Brings (C.pipes carrier.old self.old.number) direction carried.count out.old.items
            out.new.items (C.pipes carrier.new self.old.number) carried.lost) }
        ensures any { IfOk result (λ carried. BringsAny direction carried.count out.old.items
            out.new.items (C.pipes carrier.old self.old.number)
            (C.pipes carrier.new self.old.number)) }
        // What it causes may go out.
        ensures sends { OnOk result (MaySend C.is_told (since (C.began carrier.new) self.old.number)
            (C.pipes carrier.new self.old.number)) }
        // Where nothing had failed, this call did exactly where that is answered.
        ensures failed { HasNoFailure (C.pipes carrier.old self.old.number)
            → IfOk result (λ carried. Fails (Carry direction ∷ []) carried.lost
            (C.pipes carrier.new self.old.number)) }
    {
        let mut left = count;
        'pieces: while left > 0 {
            match carrier.carry(self.number, direction, left as usize, out) {
                Ok(piece) => {
                    left -= piece as u32;
                    self.came(direction, piece as u64);
                }
                Err(CarrierError::Lost) => {
                    return Ok(Carried {
                        count: count - left,
                        lost: true,
                    });
                }
                Err(CarrierError::Memory) => return Err(AllocError),
            }
        }
        Ok(Carried { count, lost: false })
    }

    /// Cuts the connection. A request that is not settled is lost.
    pub(crate) fn cut<C: EventCarrier>(&mut self, carrier: &mut C)
        requires uncut { IsUncut (C.pipes carrier.old self.old.number) }
        requires server_reads { self.old.server_reader.direction ≡ ToServer }
        requires client_reads { self.old.client_reader.direction ≡ ToClient }
        ensures number { self.new.number ≡ self.old.number }
        ensures ties { KeepsTies self.old.number self.new (C.pipes carrier.old)
            (C.pipes carrier.new) (C.began carrier.old) (C.began carrier.new) }
        ensures value { self.new ≡ cut_of self.old }
        ensures still { ReadsNoMore self.old self.new (C.pipes carrier.old self.old.number)
            (C.pipes carrier.new self.old.number) }
        ensures pipe { C.pipes carrier.new self.old.number
            ≡ cut_pipe (C.pipes carrier.old self.old.number) }
        ensures failed { FailsNoMore (C.pipes carrier.old self.old.number)
            (C.pipes carrier.new self.old.number) }
        // A connection that stands for one of the model stands for that one, cut.
        ensures refines { (size : ℕ) (engine : E) (seat : Seat) (c : Connection)
            → RepresentsConnection self.old.number size engine self.old seat
            (C.pipes carrier.old self.old.number) c
            → self.old.is_cut ≡ false
            → RepresentsConnection self.old.number size engine self.new seat
            (C.pipes carrier.new self.old.number) (cut c) }
    {
        carrier.cut(self.number);
        self.is_cut = true;
        self.server.lost();
        if let Some(record) = &mut self.current {
            record.lose();
        }
    }

    /// The end of an event: where the carrier failed, the connection is cut.
    pub(crate) fn end<C: EventCarrier>(
        &mut self,
        carrier: &mut C,
        outcome: Outcome,
        lost: bool,
    ) -> EventDone
        requires live { self.old.is_cut ≡ false }
        requires tied { IsTied self.old (C.pipes carrier.old self.old.number) }
        ensures number { self.new.number ≡ self.old.number }
        ensures ties { KeepsTies self.old.number self.new (C.pipes carrier.old)
            (C.pipes carrier.new) (C.began carrier.old) (C.began carrier.new) }
        ensures value { self.new ≡ (if lost then cut_of self.old else self.old) }
        ensures still { ReadsNoMore self.old self.new (C.pipes carrier.old self.old.number)
            (C.pipes carrier.new self.old.number) }
        ensures done { result ≡ record { outcome = outcome; lost = lost } }
        ensures kept { lost ≡ false → carrier.new ≡ carrier.old }
        ensures failed { (calls : List Call)
            → Fails calls lost (C.pipes carrier.old self.old.number)
            → FailsAs calls result self.new (C.pipes carrier.new self.old.number) }
        // A connection that stands for one of the model stands for that one, cut where the
        // carrier failed.
        ensures refines { (size : ℕ) (engine : E) (seat : Seat) (c : Connection)
            → RepresentsConnection self.old.number size engine self.old seat
            (C.pipes carrier.old self.old.number) c
            → RepresentsConnection self.old.number size engine self.new seat
            (C.pipes carrier.new self.old.number) (cut_where lost c) }
    {
        if lost {
            self.cut(carrier);
        }
        EventDone { outcome, lost }
    }

    /// The end of a delivery that an end refused: the connection is cut.
    pub(super) fn end_by_fault<C: EventCarrier>(
        &mut self,
        carrier: &mut C,
        fault: Fault,
        lost: bool,
    ) -> EventDone
        requires live { self.old.is_cut ≡ false }
        requires tied { IsTied self.old (C.pipes carrier.old self.old.number) }
        ensures number { self.new.number ≡ self.old.number }
        ensures ties { KeepsTies self.old.number self.new (C.pipes carrier.old)
            (C.pipes carrier.new) (C.began carrier.old) (C.began carrier.new) }
        ensures value { self.new ≡ cut_of self.old }
        ensures still { ReadsNoMore self.old self.new (C.pipes carrier.old self.old.number)
            (C.pipes carrier.new self.old.number) }
        ensures done { result ≡ record { outcome = outcome_of fault; lost = lost } }
        ensures failed { (calls : List Call)
            → Fails calls lost (C.pipes carrier.old self.old.number)
            → FailsAs calls result self.new (C.pipes carrier.new self.old.number) }
    {
        self.cut(carrier);
        EventDone {
            outcome: fault.outcome(),
            lost,
        }
    }
}
