//! Connections that are let go, and cleaned; that come without being asked for; and that are lost.
ghost use Rattle.std.specs.Prelude.{◌≡◌, ◌≤◌, [], ℕ, Bool, IfNone, IfOk, IfSome, None, OnOk, false, suc, true};
ghost use Rattle.tds_service.specs.Table.{KeepsClientsOff, client_of, reading_on, service_in};
ghost use Rattle.tds_relay.specs.Cleaning.{CleansFirst, CleansIfPut, GoesOutAtEnd, GoesOutBy, IsBatch, IsBrokenFor, IsCleaning, IsLentBy, IsPutBehind, IsShutFor, LendsNone, text_of_cleaning};
ghost use Rattle.tds_relay.specs.Pool.{Brings, Leaves, Loses, Renews, Way, cleaning, find_key, find_number, key_of, releasing, without_number};
ghost use Rattle.tds_relay.specs.Sparing.{AsideStay, IsKeptBy, IsLentLater, IsRenewed, OffHold, OthersHold};
ghost use Rattle.tds_relay.specs.Ties.{IsNumberOf, IsReached, Makes, Turns, pool_in, is_sent, lost_by};
ghost use Rattle.tds_relay.specs.TokenParsers.{AllStand, IsLed};
ghost use Rattle.tds_relay.specs.Few.{BringsSeat, HasNumber, LeavesSeat, RenewsSeat, SeatStays};

use super::holds::{find_key, find_number, remove_lease, remove_number};
use super::lists::remove_key;
use super::{Hold, Pool};
use crate::NoMemory;
use std::alloc::AllocError;
use tds_client::MessageKind;
use tds_service::{Refusal, Rest, Service};

/// A connection that was let go. Where it is there no more, it is to be closed.
#[derive(Clone, Copy, Debug, PartialEq, Eq)]
pub struct Left {
    pub number: u64,
    pub is_there: bool,
}

/// What came of a renewal.
#[derive(Clone, Copy, Debug, PartialEq, Eq)]
pub enum Renewed {
    /// The connection is held by another lease, and its next request resets all but the transaction.
    Kept(Hold),
    /// There is no transaction to be kept. Nothing has changed.
    NotKept,
}

/// What a cleaning asks for, of two bytes a unit: the reset that goes with it leaves the isolation level as it is.
pub(super) fn cleaning_text() -> &'static [u8]
    ensures { result.now ≡ text_of_cleaning }
{
    b"s\0e\0t\0 \0t\0r\0a\0n\0s\0a\0c\0t\0i\0o\0n\0 \0i\0s\0o\0l\0a\0t\0i\0o\0n\0 \0l\0e\0v\0e\0l\0 \0r\0e\0a\0d\0 \0c\0o\0m\0m\0i\0t\0t\0e\0d\0"
}

/// The service has this connection no more.
pub(super) fn forget(service: &mut Service, number: u64) -> Result<(), NoMemory>
    ensures lost { OnOk result (service_in service.new
        ≡ lost_by (service_in service.old) number) }
    ensures stand { OnOk result (AllStand service.old service.new) }
    ensures gone { OnOk result (IsLed (service_in service.old)
        → reading_on number service.new ≡ None) }
    ensures clients { OnOk result (KeepsClientsOff number service.old service.new) }
{
    match service.lost(number) {
        Ok(()) => Ok(()),
        Err(Refusal::Memory) => Err(AllocError),
        Err(_) => Ok(()),
    }
}

/// Cleans a connection that is free, by a request that asks for a reset. Nothing but memory is refused to
/// that.
pub(super) fn clean(
    service: &mut Service,
    number: u64,
    text: &[u8],
    out: &mut Vec<u8>,
) -> Result<(), NoMemory>
    ensures makes { OnOk result ((way : Way) × (is_sent way ≡ true)
        × Makes (cleaning (service_in service.old) number way) (service_in service.old)
        (service_in service.new) out.old.items out.new.items) }
    ensures stand { OnOk result (AllStand service.old service.new) }
    ensures aside { OnOk result ((but : ℕ) → AsideStay but number service.old service.new) }
    ensures puts { OnOk result (IsPutBehind (IsBatch text.now) out.old.items out.new.items) }
    ensures cleans { IsLed (service_in service.old)
        → OnOk result (IsPutBehind (IsCleaning text.now) out.old.items out.new.items) }
    ensures leases { OnOk result (suc service.old.given ≤ service.new.given) }
{
    let Ok(lent) = service.clean(number) else {
        return Err(AllocError);
    };
    let Ok(_) = service.ask(lent.lease, MessageKind::Batch) else {
        return Err(AllocError);
    };
    let Ok(_) = service.put(lent.lease, text, out) else {
        return Err(AllocError);
    };
    let Ok(_) = service.finish(lent.lease, out) else {
        return Err(AllocError);
    };
    Ok(())
}

/// Gives a connection back, and cleans it if it is free. False where the rules were broken there: it is in the
/// service no longer.
fn release(
    service: &mut Service,
    hold: Hold,
    text: &[u8],
    out: &mut Vec<u8>,
) -> Result<bool, NoMemory>
    ensures makes { IfOk result (λ is_there. (gives : Bool) × (way : Way) × Makes
        (releasing (service_in service.old) hold.lease hold.number gives way)
        (service_in service.old) (service_in service.new) out.old.items out.new.items) }
    ensures stand { OnOk result (AllStand service.old service.new) }
    ensures aside { OnOk result (AsideStay hold.lease hold.number service.old service.new) }
    ensures ends { IsLed (service_in service.old) → IfOk result (λ is_there. is_there ≡ true
        → IsPutBehind (GoesOutAtEnd text.now (client_of hold.lease service.old))
        out.old.items out.new.items) }
    ensures seats { IsLed (service_in service.old)
        → HasNumber hold.lease hold.number (service_in service.old) → IfOk result (λ is_there.
        SeatStays is_there hold.number (service_in service.old) (service_in service.new)) }
    ensures newly { IsLed (service_in service.old) → IfOk result (λ is_there. is_there ≡ true
        → CleansIfPut text.now out.old.items out.new.items (service_in service.old)
        (service_in service.new)) }
    ensures shut { IfOk result (λ is_there. is_there ≡ false
        → IsBrokenFor (client_of hold.lease service.old)) }
{
    match service.give_back(hold.lease, out) {
        Ok((_, Rest::Free)) => {
            clean(service, hold.number, text, out)?;
            Ok(true)
        }
        Ok((_, Rest::Draining)) => Ok(true),
        Ok((_, Rest::Closed)) => Ok(false),
        // It is lent by this lease: nothing but memory is refused to it.
        Err(_) => Err(AllocError),
    }
}

impl Pool {
    /// An application lets its connection go, or waits no more for one: what is underway is cancelled,
    /// and what is free is cleaned. None where it holds none.
    pub fn leave(&mut self, key: usize, out: &mut Vec<u8>) -> Result<Option<Left>, NoMemory>
        ensures turns { IfOk result (λ left. (gives : Bool) × (way : Way)
            × Turns (Leaves key gives way) (pool_in self.old) (pool_in self.new)
            out.old.items out.new.items) }
        ensures whose { IfOk result (λ left.
            IsNumberOf (find_key key (pool_in self.old).holds) left) }
        ensures stand { OnOk result (AllStand self.old.service self.new.service) }
        ensures others { OnOk result (OthersHold key self.old self.new) }
        ensures ends { IsReached (pool_in self.old) → IfOk result (λ left. GoesOutBy
            self.old.service (find_key key (pool_in self.old).holds) left out.old.items
            out.new.items) }
        ensures seats { IsReached (pool_in self.old) → IfOk result (λ left. LeavesSeat left
            (pool_in self.old).service (pool_in self.new).service) }
        ensures newly { IsReached (pool_in self.old) → IfOk result (λ left. IfSome left (λ it.
            it.is_there ≡ true → CleansIfPut text_of_cleaning out.old.items out.new.items
            (pool_in self.old).service (pool_in self.new).service)) }
        ensures shut { IfOk result (λ left.
            IsShutFor self.old.service (find_key key (pool_in self.old).holds) left) }
    {
        remove_key(&mut self.line, key);
        let Some(hold) = find_key(&self.holds, key) else {
            return Ok(None);
        };
        remove_lease(&mut self.holds, hold.lease);
        let is_there = release(&mut self.service, hold, cleaning_text(), out)?;
        Ok(Some(Left {
            number: hold.number,
            is_there,
        }))
    }

    /// A connection has come that nobody asked for: its number, where it may be one of the service.
    pub fn bring(&mut self, out: &mut Vec<u8>) -> Result<Option<Left>, NoMemory>
        ensures turns { IfOk result (λ left. (gives : Bool) × (way : Way)
            × Turns (Brings gives way) (pool_in self.old) (pool_in self.new)
            out.old.items out.new.items) }
        ensures stand { OnOk result (AllStand self.old.service self.new.service) }
        ensures lent { IfOk result (λ left. IfSome left (λ it.
            IsLentBy it.number (pool_in self.old).service)) }
        ensures cleans { IsReached (pool_in self.old) → IfOk result (λ left. IfSome left
            (CleansFirst out.old.items out.new.items)) }
        ensures seats { IsReached (pool_in self.old) → IfOk result (λ left. BringsSeat left
            (pool_in self.old).service (pool_in self.new).service) }
        ensures none { IfOk result (λ left. IfNone left (LendsNone (pool_in self.old).service)) }
        ensures same { IfOk result (λ left. IfNone left (pool_in self.new ≡ pool_in self.old)) }
        ensures there { IsReached (pool_in self.old) → IfOk result (λ left. IfSome left
            (λ it. it.is_there ≡ true)) }
    {
        let lent = match self.service.lease() {
            Ok(lent) => lent,
            Err(Refusal::AllInUse) => return Ok(None),
            Err(_) => return Err(AllocError),
        };
        let hold = Hold {
            key: 0,
            lease: lent.lease,
            number: lent.number,
        };
        let is_there = release(&mut self.service, hold, cleaning_text(), out)?;
        Ok(Some(Left {
            number: lent.number,
            is_there,
        }))
    }

    /// An application keeps its connection with the transaction that is open there, by another lease.
    pub fn renew(&mut self, key: usize) -> Result<Renewed, NoMemory>
        ensures turns { OnOk result (Turns (Renews key true) (pool_in self.old)
            (pool_in self.new) [] []) }
        ensures stand { OnOk result (AllStand self.old.service self.new.service) }
        ensures seats { IsReached (pool_in self.old) → IfOk result (λ renewed. RenewsSeat renewed
            (pool_in self.old).service (pool_in self.new).service) }
        ensures is { IfOk result (λ renewed. IsRenewed renewed key self.old self.new) }
        ensures keeps { IfOk result (λ renewed. IsKeptBy renewed key (pool_in self.old)) }
        ensures later { IsReached (pool_in self.old)
            → IfOk result (IsLentLater self.old.service.given) }
        ensures others { OnOk result (OthersHold key self.old self.new) }
    {
        let Some(hold) = find_key(&self.holds, key) else {
            return Ok(Renewed::NotKept);
        };
        let ticket = match self.service.keep(hold.lease) {
            Ok(ticket) => ticket,
            Err(Refusal::Memory) => return Err(AllocError),
            Err(_) => return Ok(Renewed::NotKept),
        };
        let Ok(lent) = self.service.resume(ticket) else {
            return Err(AllocError);
        };
        let renewed = Hold {
            key: hold.key,
            lease: lent.lease,
            number: lent.number,
        };
        remove_lease(&mut self.holds, hold.lease);
        self.holds.push(renewed)?;
        Ok(Renewed::Kept(renewed))
    }

    /// The connection of this number is lost. Answers the application that held it.
    pub fn lose(&mut self, number: u64) -> Result<Option<usize>, NoMemory>
        ensures turns { OnOk result (Turns (Loses number) (pool_in self.old) (pool_in self.new)
            [] []) }
        ensures whose { IfOk result (λ key.
            key ≡ key_of (find_number number (pool_in self.old).holds)) }
        ensures stand { OnOk result (AllStand self.old.service self.new.service) }
        ensures gone { OnOk result (IsLed (pool_in self.old).service
            → reading_on number self.new.service ≡ None) }
        ensures off { OnOk result (OffHold number self.old self.new) }
        ensures holds { OnOk result (self.new.holds.items
            ≡ without_number number self.old.holds.items) }
        ensures clients { OnOk result (KeepsClientsOff number self.old.service
            self.new.service) }
    {
        let hold = find_number(&self.holds, number);
        forget(&mut self.service, number)?;
        remove_number(&mut self.holds, number);
        match hold {
            Some(hold) => Ok(Some(hold.key)),
            None => Ok(None),
        }
    }
}
