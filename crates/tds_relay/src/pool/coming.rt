//! What comes on connections, and whose it is.
ghost use Rattle.std.specs.Prelude.{◌≡◌, ◌≢◌, ℕ, List, Some, IfOk, OnOk, true, if◌then◌else◌};
ghost use Rattle.tds_service.specs.Table.{reading_on, service_in};
ghost use Rattle.tds_relay.specs.Cleaning.{CleansHere, MayClean, PutsByLease};
ghost use Rattle.tds_relay.specs.Pool.{Comes, Way, cleaned_by, settles, whose, whose_by};
ghost use Rattle.tds_relay.specs.Fronts.{IsWhat};
ghost use Rattle.tds_relay.specs.Core.{dones_of_part};
ghost use Rattle.tds_relay.specs.Lent.{MayForget};
ghost use Rattle.tds_relay.specs.Sparing.{AsideHeld, AsideStay, OffHold};
ghost use Rattle.tds_relay.specs.Ties.{IsReached, Makes, Settles, Turns, pool_in, part_on};
ghost use Rattle.tds_relay.specs.TokenParsers.{AllRead, AllStand, IsLed};
ghost use Rattle.tds_relay.specs.declared.pool.coming.What.TheVariants.{Closed, Goes};
ghost use Rattle.tds_relay.specs.Few.{HearsSeat, HasNumber, SeatStays, is_left};

use super::Pool;
use super::holds::find_lease;
use super::leaving::{clean, cleaning_text, forget};
use crate::NoMemory;
use crate::fault::Broken;
use std::alloc::AllocError;
use tds_service::{Outcome, Refusal, Rest, Service};

/// What came of a packet.
#[derive(Clone, Copy, Debug, PartialEq, Eq)]
pub enum What {
    /// The message goes on, or it was nobody's.
    Goes,
    /// A request has its answer.
    Finished,
    /// A cancel is acknowledged.
    Acknowledged,
    /// The connection is to be closed.
    Closed,
}

/// What came of a packet, and the application that is handed it.
#[derive(Clone, Copy, Debug, PartialEq, Eq)]
pub struct Heard {
    pub key: Option<usize>,
    pub what: What,
}

/// Nothing came of it, and nobody is handed anything.
pub const NOTHING: Heard = Heard {
    key: None,
    what: What::Goes,
};

/// A cleaning has its answer. False where the connection is in the service no longer.
fn cleaned(service: &mut Service, number: u64, lease: u64) -> Result<bool, NoMemory>
    ensures makes { OnOk result ((out : List ℕ)
        → Makes (cleaned_by (service_in service.old) number lease)
        (service_in service.old) (service_in service.new) out out) }
    ensures stand { OnOk result (AllStand service.old service.new) }
    ensures seats { IsLed (service_in service.old) → HasNumber lease number (service_in service.old)
        → IfOk result (λ is_there. SeatStays is_there number (service_in service.old)
        (service_in service.new)) }
    ensures aside { OnOk result (AsideStay lease number service.old service.new) }
{
    match service.cleaned(lease) {
        Ok((_, Rest::Free)) => Ok(true),
        Ok((_, Rest::Draining)) => {
            forget(service, number)?;
            Ok(false)
        }
        Ok((_, Rest::Closed)) => {
            forget(service, number)?;
            Ok(false)
        }
        Err(Refusal::Memory) => Err(AllocError),
        Err(_) => {
            forget(service, number)?;
            Ok(false)
        }
    }
}

/// What comes of a connection that isn't known.
fn unheard(refusal: Refusal) -> Result<Heard, NoMemory>
    ensures unknown { OnOk result (refusal ≢ Refusal.Memory) }
    ensures nobody { IfOk result (λ heard. heard.key ≡ None) }
{
    match refusal {
        Refusal::Memory => Err(AllocError),
        Refusal::Unknown => Ok(NOTHING),
        Refusal::AllInUse => Ok(NOTHING),
        Refusal::NotNow => Ok(NOTHING),
        Refusal::NotIdle => Ok(NOTHING),
        Refusal::NotSending => Ok(NOTHING),
        Refusal::Broken => Ok(NOTHING),
    }
}

/// What is left of a connection that was cleaned, or is being cleaned.
fn what_of(is_there: bool) -> What
    ensures { result ≡ (if is_there then Goes else Closed) }
{
    if is_there { What::Goes } else { What::Closed }
}

impl Pool {
    /// A packet's data came on the connection of this number, which ends its message or not. What is to be
    /// sent there is appended to `out`.
    pub fn came(
        &mut self,
        number: u64,
        bytes: &[u8],
        ends: bool,
        out: &mut Vec<u8>,
    ) -> Result<Heard, NoMemory>
        ensures ok { IfOk result (λ heard. (way : Way) × Turns
            (Comes number (part_on (reading_on number self.old.service) bytes.now ends) way)
            (pool_in self.old) (pool_in self.new) out.old.items out.new.items) }
        ensures whose { IfOk result (λ heard. heard.key ≡ whose (pool_in self.old) number) }
        ensures heard { IfOk result (λ heard. IsWhat heard.key heard.what
            (dones_of_part (pool_in self.old) number
            (part_on (reading_on number self.old.service) bytes.now ends))) }
        ensures read { OnOk result (AllRead number ends bytes.now self.old.service
            self.new.service) }
        ensures cleans { IsReached (pool_in self.old) → IfOk result (λ heard. heard.what ≢ Closed
            → MayClean heard.key out.old.items out.new.items) }
        ensures seats { IsReached (pool_in self.old) → IfOk result (λ heard. HearsSeat (Some heard)
            number (pool_in self.old).service (pool_in self.new).service) }
        ensures off { OnOk result (OffHold number self.old self.new) }
        ensures holds { OnOk result
            (MayForget number self.old.holds.items self.new.holds.items) }
        ensures leases { IfOk result (λ heard. heard.what ≢ Closed → PutsByLease out.old.items
            out.new.items self.old.service.given self.new.service.given) }
        ensures newly { IsReached (pool_in self.old) → IfOk result (λ heard. heard.what ≢ Closed
            → CleansHere heard.key number out.old.items out.new.items
            (pool_in self.old).service (pool_in self.new).service) }
    {
        let came = match self.service.heard(number, bytes, ends) {
            Ok(came) => came,
            Err(refusal) => return unheard(refusal),
        };
        let key = self.key_by(came.lease);
        let what = match came.outcome {
            Outcome::More => What::Goes,
            Outcome::Finished => self.settle(number, came.lease, What::Finished, out)?,
            Outcome::Acknowledged => self.settle(number, came.lease, What::Acknowledged, out)?,
            Outcome::Fault(fault) => {
                self.lose(number)?;
                self.broken = Some(Broken { number, fault });
                What::Closed
            }
        };
        Ok(Heard { key, what })
    }

    /// The application that holds a connection by this lease.
    fn key_by(&self, lease: Option<u64>) -> Option<usize>
        ensures { result ≡ whose_by lease (pool_in self.now).holds }
    {
        match lease {
            Some(lease) => match find_lease(&self.holds, lease) {
                Some(hold) => Some(hold.key),
                None => None,
            },
            None => None,
        }
    }

    /// A message has ended on a connection that is held by this lease, or by nobody. What that is to its
    /// application, if it has one; else it is cleaned, or was.
    fn settle(
        &mut self,
        number: u64,
        lease: Option<u64>,
        what: What,
        out: &mut Vec<u8>,
    ) -> Result<What, NoMemory>
        ensures settles { OnOk result ((way : Way) × Settles (settles (pool_in self.old).holds
            (service_in self.old.service) number way lease) (pool_in self.old) (pool_in self.new)
            out.old.items out.new.items) }
        ensures what { IfOk result (λ heard. (key : ℕ)
            → whose_by lease (pool_in self.old).holds ≡ Some key → heard ≡ what) }
        ensures stand { OnOk result (AllStand self.old.service self.new.service) }
        ensures cleans { IsLed (pool_in self.old).service → IfOk result (λ heard. heard ≢ Closed
            → MayClean lease out.old.items out.new.items) }
        ensures seats { IsLed (pool_in self.old).service → ((l : ℕ) → lease ≡ Some l
            → HasNumber l number (pool_in self.old).service) → is_left what ≡ true
            → IfOk result (λ heard. SeatStays (is_left heard) number (pool_in self.old).service
            (pool_in self.new).service) }
        ensures aside { OnOk result (AsideHeld number self.old.holds.items self.old.service
            self.new.service) }
        ensures holds { self.new.holds ≡ self.old.holds }
        ensures leases { IfOk result (λ heard. heard ≢ Closed → PutsByLease out.old.items
            out.new.items self.old.service.given self.new.service.given) }
        ensures newly { IsLed (pool_in self.old).service → IfOk result (λ heard. heard ≢ Closed
            → CleansHere lease number out.old.items out.new.items (pool_in self.old).service
            (pool_in self.new).service) }
    {
        match lease {
            Some(lease) => match find_lease(&self.holds, lease) {
                Some(_) => Ok(what),
                None => {
                    let is_there = cleaned(&mut self.service, number, lease)?;
                    Ok(what_of(is_there))
                }
            },
            None => {
                clean(&mut self.service, number, cleaning_text(), out)?;
                Ok(What::Goes)
            }
        }
    }
}
