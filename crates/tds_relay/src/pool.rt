//! Who holds which connection of a service, and whose requests wait for one.
ghost use Rattle.std.specs.Prelude.{◌≡◌, [], ℕ, IfOk, OnOk, OnErr, false, length, option_copied, option_map};
ghost use Rattle.std.specs.Prelude.{true};
ghost use Rattle.tds_service.specs.Service.{Seat, is_open, seat_numbered};
ghost use Rattle.tds_service.specs.Sizes.{AllSized};
ghost use Rattle.tds_service.specs.Table.{place_of};
ghost use Rattle.tds_packet.specs.declared.status.Reset.TheVariants.{Full};
ghost use Rattle.tds_relay.specs.Anew.{ResetsNext};
ghost use Rattle.tds_relay.specs.Pool.{Serves, Unwaits, Waits, find_key, find_number, key_of, new_pool};
ghost use Rattle.tds_relay.specs.Pool.{fault_on, owes_reset};
ghost use Rattle.tds_relay.specs.Few.{has_free};
ghost use Rattle.tds_relay.specs.Core.{is_in};
ghost use Rattle.tds_relay.specs.Places.{is_clean_on};
ghost use Rattle.tds_relay.specs.Sparing.{AllHold};
ghost use Rattle.tds_relay.specs.Ties.{Serving, Turns, pool_in};
ghost use Rattle.tds_relay.specs.TokenParsers.{AllStand, IsUnread};
ghost use Rattle.tds_relay.specs.declared.link.TheConstants.{COLUMNS};

mod asking;
mod coming;
mod holds;
mod leaving;
mod lists;

use crate::NoMemory;
use crate::fault::Broken;
use crate::link::COLUMNS;
pub use coming::{Heard, NOTHING, What};
use holds::{Holds, find_key, find_number};
pub use leaving::{Left, Renewed};
use lists::{has_key, remove_key};
use std::alloc::{AllocError, Global};
use tds_listen::ListenFault;
use tds_packet::{PacketSize, Reset};
use tds_service::{Place, Refusal, Service};
use tds_wire::Features;

/// The connection that an application holds, and by which lease.
#[derive(Clone, Copy, Debug, PartialEq, Eq)]
pub struct Hold {
    pub key: usize,
    pub lease: u64,
    pub number: u64,
}

/// Who was lent a connection, and whether somebody had that before. One that nobody had is to be opened.
#[derive(Clone, Copy, Debug, PartialEq, Eq)]
pub struct Served {
    pub hold: Hold,
    pub had: bool,
}

/// What was asked of the server for applications.
#[derive(Clone, Copy, Debug, PartialEq, Eq)]
pub struct Figures {
    /// Requests.
    pub requests: u64,
    /// Attentions that went out for them.
    pub cancels: u64,
}

/// For how long an application keeps the connection that it is lent.
#[derive(Clone, Copy, Debug, PartialEq, Eq)]
pub enum Mode {
    /// Until it leaves, or asks for a reset itself.
    Sessions,
    /// Until it is parked at rest: whoever carries the bytes does that by `Relay::park`, where others wait.
    Transactions,
}

/// The connections of a service, the applications that hold them, and those that wait. A connection that
/// nobody holds is drained and cleaned by itself.
#[derive(Drop)]
pub struct Pool {
    mode: Mode,
    service: Service,
    holds: Holds,
    /// The first one has waited longest.
    line: Vec<usize>,
    /// The last connection that is closed for what its server said.
    broken: Option<Broken>,
    figures: Figures,
}

impl Pool {
    /// At most so many connections, shared like this, for packets of this size. `features` is what their
    /// logins acknowledge.
    pub fn new(
        alloc: Global,
        mode: Mode,
        most: usize,
        size: PacketSize,
        features: Features,
    ) -> Result<Pool, NoMemory>
        ensures pool { IfOk result (λ pool. pool_in pool
            ≡ new_pool (record { most = most; mode = mode })) }
        ensures unread { IfOk result (λ pool. (number : ℕ)
            → IsUnread COLUMNS features number pool.service) }
        ensures sized { IfOk result (λ pool. AllSized size pool.service) }
    {
        let Some(service) = Service::new(alloc, most, size, COLUMNS, features) else {
            return Err(AllocError);
        };
        Ok(Pool {
            mode,
            service,
            holds: Holds::new(alloc),
            line: Vec::new(alloc),
            broken: None,
            figures: Figures {
                requests: 0,
                cancels: 0,
            },
        })
    }

    /// For how long an application keeps what it is lent.
    pub fn mode(&self) -> Mode
        ensures { result ≡ (pool_in self.now).mode }
    {
        self.mode
    }

    /// How much was asked of the server for applications.
    pub fn figures(&self) -> Figures
        ensures { result ≡ (pool_in self.now).figures }
    {
        self.figures
    }

    /// An application's request waits for a connection.
    pub fn wait(&mut self, key: usize) -> Result<(), NoMemory>
        ensures ok { OnOk result (Turns (Waits key) (pool_in self.old) (pool_in self.new) [] []) }
        ensures err { OnErr result (pool_in self.new ≡ pool_in self.old) }
        ensures service { self.new.service ≡ self.old.service }
    {
        self.line.push(key)?;
        Ok(())
    }

    /// It waits no more.
    pub fn unwait(&mut self, key: usize)
        ensures turns { Turns (Unwaits key) (pool_in self.old) (pool_in self.new) [] [] }
        ensures service { self.new.service ≡ self.old.service }
        ensures holds { self.new.holds ≡ self.old.holds }
    {
        remove_key(&mut self.line, key);
    }

    /// Whether an application waits.
    pub fn waits(&self, key: usize) -> bool
        ensures { result ≡ is_in key (pool_in self.now).line }
    {
        has_key(&self.line, key)
    }

    /// Lends a connection to whoever has waited longest. None where nobody waits, or as many are in use as
    /// may be.
    #[tactic(auto, using(crate::proofs::spared::Held::all_hold))]
    pub fn serve(&mut self) -> Result<Option<Served>, NoMemory>
        ensures ok { IfOk result (λ served. Turns Serves (pool_in self.old) (pool_in self.new) [] []
            × Serving (pool_in self.old) served) }
        ensures err { OnErr result (pool_in self.new ≡ pool_in self.old) }
        ensures stand { OnOk result (AllStand self.old.service self.new.service) }
        ensures holds { OnOk result (AllHold self.old self.new) }
    {
        let Some(key) = self.line.first().copied() else {
            return Ok(None);
        };
        self.holds.reserve()?;
        match self.service.lease() {
            Ok(lent) => {
                self.line.remove(0);
                let hold = Hold {
                    key,
                    lease: lent.lease,
                    number: lent.number,
                };
                self.holds.push_reserved(hold);
                let had = lent.had;
                Ok(Some(Served { hold, had }))
            }
            Err(Refusal::AllInUse) => Ok(None),
            Err(_) => Err(AllocError),
        }
    }

    /// Whether a connection is free: whoever is served next is lent one that somebody had before.
    pub fn has_free(&self) -> bool
        ensures { result ≡ has_free (pool_in self.now) }
    {
        self.service.has_free()
    }

    /// The connection that an application holds.
    pub fn hold_of(&self, key: usize) -> Option<Hold>
        ensures { result ≡ find_key key (pool_in self.now).holds }
    {
        find_key(&self.holds, key)
    }

    /// The application that holds the connection of this number.
    pub fn key_on(&self, number: u64) -> Option<usize>
        ensures { result ≡ key_of (find_number number (pool_in self.now).holds) }
    {
        match find_number(&self.holds, number) {
            Some(hold) => Some(hold.key),
            None => None,
        }
    }

    /// Who holds the connection of this number in the service, if there is one.
    pub fn place_on(&self, number: u64) -> Option<Place>
        ensures { option_map place_of result ≡ option_map (λ (c : Seat). c.place)
            (seat_numbered number (pool_in self.now).service.seats) }
    {
        self.service.place_on(number)
    }

    /// Whether a transaction is open on the connection of this number, if there is one.
    pub fn is_open_on(&self, number: u64) -> Option<bool>
        ensures { result ≡ option_map (λ (c : Seat).
            is_open c.line.heard.mark c.line.heard.descriptor)
            (seat_numbered number (pool_in self.now).service.seats) }
    {
        self.service.is_open_on(number)
    }

    /// Whether the news of a reset is still to come on the connection of this number.
    pub fn owes_reset(&self, number: u64) -> bool
        ensures { result ≡ owes_reset number (pool_in self.now) }
    {
        match self.service.owes_reset_on(number) {
            Some(owes) => owes,
            None => false,
        }
    }

    /// Whether no transaction is open on the connection of this number, and no news of a reset is to come
    /// there.
    pub fn is_clean_on(&self, number: u64) -> bool
        ensures { result ≡ is_clean_on number (pool_in self.now) }
    {
        match self.service.is_open_on(number) {
            Some(is_open) => !is_open && !self.owes_reset(number),
            None => false,
        }
    }

    /// Whether the next request on the connection of this number begins a session there.
    fn begins_anew(&self, number: u64) -> bool
        ensures anew { result ≡ true
            → ResetsNext Full (seat_numbered number (pool_in self.now).service.seats) }
        ensures not_anew { result ≡ false
            → ¬ ResetsNext Full (seat_numbered number (pool_in self.now).service.seats) }
    {
        match self.service.begins_anew_on(number) {
            Some(begins) => begins,
            None => false,
        }
    }

    /// Whether a reset is done with the next request on the connection of this number: the session begins with
    /// it, or the reset that keeps a transaction is asked for.
    pub fn resets_on(&self, number: u64, reset: Reset) -> bool
        ensures resets { result ≡ true
            → ResetsNext reset (seat_numbered number (pool_in self.now).service.seats) }
        ensures resets_not { result ≡ false
            → ¬ ResetsNext reset (seat_numbered number (pool_in self.now).service.seats) }
    {
        if self.begins_anew(number) {
            return true;
        }
        match reset {
            Reset::Full => false,
            Reset::KeepTransaction => self.owes_reset(number),
        }
    }

    /// What the server said on the connection of this number that no server may, where it is the last one that
    /// is closed for that.
    pub fn fault_on(&self, number: u64) -> Option<&ListenFault>
        ensures { option_copied result ≡ fault_on number (pool_in self.now) }
    {
        match &self.broken {
            Some(broken) => {
                if broken.number == number {
                    Some(&broken.fault)
                } else {
                    None
                }
            }
            None => None,
        }
    }

    /// The applications that wait, the first one first.
    pub fn line(&self) -> &[usize]
        ensures { result.now ≡ (pool_in self.now).line }
    {
        self.line.as_slice()
    }

    /// How many applications wait.
    pub fn waiting(&self) -> usize
        ensures { result ≡ length (pool_in self.now).line }
    {
        self.line.len()
    }
}
