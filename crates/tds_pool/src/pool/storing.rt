//! Leases and tickets that are stored.
ghost use Rattle.std.specs.Prelude.{◌≡◌, Some, None, IfOk, IfErr, IfSome, IfNone, IsSome, option_map};
ghost use Rattle.std.specs.Option.{option_copied, option_copied_mut};
ghost use Rattle.std.specs.Borrow.{sem};
ghost use Rattle.slab.specs.Slab.{get};
ghost use Rattle.tds_client.specs.Session.{ClientSession};
ghost use Rattle.tds_pool.specs.declared.seat.Seat.{Seat};
ghost use Rattle.tds_pool.specs.Connections.{connections, Connection, with_client};
ghost use Rattle.tds_pool.specs.Lends.{LendsClient, with_client_under};
ghost use Rattle.tds_pool.specs.Calls.{lent_to, kept_for};

use crate::answers::PoolRefusal;
use crate::lease::{Lease, StoredLease, StoredTicket, Ticket};
use crate::pool::Pool;
use tds_client::Client;

impl Pool {
    /// Makes a lease of a stored one again. `Unknown`: its lending is over, or it is of another pool;
    /// the stored one is handed back. One whose lending is over is unknown for ever.
    pub fn claim(&self, stored: StoredLease) -> Result<Lease, (StoredLease, PoolRefusal)>
        ensures lease { IfOk result (λ lease. (lease ≡ stored)
            × IsSome (lent_to stored (connections self.now))) }
        ensures refused { IfErr result (λ refused. (refused.0 ≡ stored)
            × (refused.1 ≡ PoolRefusal.Unknown)
            × (lent_to stored (connections self.now) ≡ None)) }
    {
        let (key, number, turn) = (stored.key(), stored.number(), stored.turn());
        if self.lent(key, number, turn).is_none() {
            return Err((stored, PoolRefusal::Unknown));
        }
        Ok(Lease { key, number, turn })
    }

    /// Makes a ticket of a stored one again, as `claim` does of a lease.
    pub fn claim_ticket(&self, stored: StoredTicket) -> Result<Ticket, (StoredTicket, PoolRefusal)>
        ensures ticket { IfOk result (λ ticket. (ticket ≡ stored)
            × IsSome (kept_for stored (connections self.now))) }
        ensures refused { IfErr result (λ refused. (refused.0 ≡ stored)
            × (refused.1 ≡ PoolRefusal.Unknown)
            × (kept_for stored (connections self.now) ≡ None)) }
    {
        let (key, number, turn) = (stored.key(), stored.number(), stored.turn());
        if self.kept_under(key, number, turn).is_none() {
            return Err((stored, PoolRefusal::Unknown));
        }
        Ok(Ticket { key, number, turn })
    }

    /// The client of a stored lease; none if that is unknown.
    pub fn stored_client(&self, stored: &StoredLease) -> Option<&Client>
        ensures { option_copied result
            ≡ option_map (λ (c : Connection). c.client)
            (lent_to stored.now (connections self.now)) }
    {
        let seat = self.lent(stored.key(), stored.number(), stored.turn())?;
        Some(&seat.client)
    }

    /// The client of a stored lease, to be changed, as `client_mut` gives it of a lease; none if that
    /// is unknown.
    pub fn stored_client_mut(&mut self, stored: &StoredLease) -> Option<&mut Client>
        ensures* lends { sem 𝓛 (LendsClient self.entry stored.now.key result) }
        ensures value { option_copied_mut result
            ≡ option_map (λ (c : Connection). c.client)
            (lent_to stored.now (connections self.entry.now)) }
        ensures writes { IsSome (lent_to stored.now (connections self.entry.now))
            → (client : ClientSession)
            → connections (with_client_under self.entry.now stored.now.key client)
            ≡ with_client stored.now.number client (connections self.entry.now) }
    {
        let key = self.stored_key(stored)?;
        self.lend(key)
    }

    /// The key of a stored lease; none if that is unknown.
    fn stored_key(&self, stored: &StoredLease) -> Option<usize>
        ensures found { IfSome result (λ key. (key ≡ stored.now.key)
            × (option_map (λ (seat : Seat). seat.client) (get self.now.seats stored.now.key)
            ≡ option_map (λ (c : Connection). c.client)
            (lent_to stored.now (connections self.now)))) }
        ensures unknown { IfNone result (lent_to stored.now (connections self.now) ≡ None) }
        ensures writes { IsSome (lent_to stored.now (connections self.now))
            → (client : ClientSession)
            → connections (with_client_under self.now stored.now.key client)
            ≡ with_client stored.now.number client (connections self.now) }
    {
        let key = stored.key();
        self.lent(key, stored.number(), stored.turn())?;
        Some(key)
    }
}
