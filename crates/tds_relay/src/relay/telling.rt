//! What is told to applications' ends of what comes.
ghost use Rattle.std.specs.Prelude.{◌≡◌, ◌≢◌, ℕ, None, Some, false, true};
ghost use Rattle.std.specs.Prelude.{IfOk, OnOk};
ghost use Rattle.slab.specs.Slab.{get};
ghost use Rattle.tds_relay.specs.Bodies.{AskAsBefore, Body, Spared, body_in};
ghost use Rattle.tds_relay.specs.Closings.{ClosesOnly, NoKey, register_in};
ghost use Rattle.tds_relay.specs.Cleaning.{cleaned_in};
ghost use Rattle.tds_relay.specs.Coming.{AskAsTold, MayBeDone, asking_in};
ghost use Rattle.tds_relay.specs.Fronts.{ends_in};
ghost use Rattle.tds_relay.specs.Core.{change_end, change_whose, end_at, end_told};
ghost use Rattle.tds_relay.specs.Machine.{is_said};
ghost use Rattle.tds_relay.specs.Reasons.{HasTakenBack};
ghost use Rattle.tds_relay.specs.Queues.{queues_in};
ghost use Rattle.tds_relay.specs.Reads.{LinksStay};
ghost use Rattle.tds_relay.specs.Ordering.{StayOrdered, opens_in};
ghost use Rattle.tds_relay.specs.Waking.{HandsTo};
ghost use Rattle.tds_relay.specs.declared.pool.coming.What.TheVariants as whats;

use super::Relay;
use crate::NoMemory;
use crate::pool::{Heard, What};

impl Relay {
    /// What came of a packet is told to its application's end. Answers whether this waited for the
    /// acknowledgement of what it had taken back.
    pub(super) fn tell(&mut self, heard: Heard) -> Result<bool, NoMemory>
        ensures pool { self.new.pool ≡ self.old.pool }
        ensures kept { OnOk result (queues_in self.new.applications
            ≡ queues_in self.old.applications) }
        ensures ends { OnOk result (ends_in self.new.applications
            ≡ change_whose heard.key (end_told heard.what) (ends_in self.old.applications)) }
        ensures read { OnOk result (LinksStay self.old.links.items self.new.links.items) }
        ensures asks { OnOk result (MayBeDone self.old.applications self.new.applications) }
        ensures told { OnOk result (AskAsTold false (Some heard) (ends_in self.old.applications)
            (asking_in self.old.applications) (asking_in self.new.applications)) }
        ensures ordered { OnOk result (StayOrdered self.old.orders.items self.new.orders.items) }
        ensures silent { IfOk result (λ resumes. resumes ≡ true → (key : ℕ)
            → ¬ HandsTo (Some heard) key (ends_in self.old.applications)) }
        ensures links { OnOk result (self.new.links.items ≡ self.old.links.items) }
        ensures outbox { heard.what ≢ whats.Closed
            → self.new.outbox.items ≡ self.old.outbox.items }
        ensures resumes { IfOk result (λ resumes. resumes ≡ true
            → HasTakenBack heard.key (ends_in self.old.applications)) }
        ensures counts { cleaned_in self.new ≡ cleaned_in self.old }
        ensures closes { OnOk result (ClosesOnly (λ other. (heard.key ≡ Some other)
            × (heard.what ≡ whats.Closed)) (register_in self.old) (register_in self.new)) }
        ensures opening { opens_in self.new.orders.items ≡ opens_in self.old.orders.items }
        ensures others { OnOk result ((key : ℕ) → heard.key ≢ Some key → (goes : Body)
            → Spared (body_in (get self.old.applications key) goes)
            (body_in (get self.new.applications key) goes)) }
    {
        let Some(key) = heard.key else {
            return Ok(false);
        };
        match heard.what {
            What::Goes => {
                self.goes_on(key);
                Ok(false)
            }
            What::Finished => {
                self.answered(key);
                Ok(false)
            }
            What::Acknowledged => Ok(self.acknowledged(key)),
            What::Closed => {
                self.end(key)?;
                Ok(false)
            }
        }
    }

    /// A packet of an answer has come for an application.
    fn goes_on(&mut self, key: usize)
        ensures pool { self.new.pool ≡ self.old.pool }
        ensures kept { queues_in self.new.applications ≡ queues_in self.old.applications }
        ensures ends { ends_in self.new.applications
            ≡ change_end key (end_told whats.Goes) (ends_in self.old.applications) }
        ensures links { self.new.links.items ≡ self.old.links.items }
        ensures orders { self.new.orders.items ≡ self.old.orders.items }
        ensures outbox { self.new.outbox.items ≡ self.old.outbox.items }
        ensures asks { AskAsBefore self.old.applications self.new.applications }
        ensures counts { cleaned_in self.new ≡ cleaned_in self.old }
        ensures closes { ClosesOnly NoKey (register_in self.old) (register_in self.new) }
    {
        match self.applications.get_mut(key) {
            Some(application) => application.goes_on(),
            None => {}
        }
    }

    /// An application's request has its answer.
    fn answered(&mut self, key: usize)
        ensures pool { self.new.pool ≡ self.old.pool }
        ensures kept { queues_in self.new.applications ≡ queues_in self.old.applications }
        ensures ends { ends_in self.new.applications
            ≡ change_end key (end_told whats.Finished) (ends_in self.old.applications) }
        ensures links { self.new.links.items ≡ self.old.links.items }
        ensures orders { self.new.orders.items ≡ self.old.orders.items }
        ensures outbox { self.new.outbox.items ≡ self.old.outbox.items }
        ensures asks { MayBeDone self.old.applications self.new.applications }
        ensures told { AskAsTold false (Some (record { key = Some key; what = whats.Finished }))
            (ends_in self.old.applications) (asking_in self.old.applications)
            (asking_in self.new.applications) }
        ensures counts { cleaned_in self.new ≡ cleaned_in self.old }
        ensures closes { ClosesOnly NoKey (register_in self.old) (register_in self.new) }
        ensures others { (other : ℕ) → other ≢ key
            → get self.new.applications other ≡ get self.old.applications other }
    {
        match self.applications.get_mut(key) {
            Some(application) => application.answered(),
            None => {}
        }
    }

    /// An application's attention has the acknowledgement; or what it took back has. Answers whether that.
    fn acknowledged(&mut self, key: usize) -> bool
        ensures pool { self.new.pool ≡ self.old.pool }
        ensures kept { queues_in self.new.applications ≡ queues_in self.old.applications }
        ensures ends { ends_in self.new.applications
            ≡ change_end key (end_told whats.Acknowledged) (ends_in self.old.applications) }
        ensures links { self.new.links.items ≡ self.old.links.items }
        ensures orders { self.new.orders.items ≡ self.old.orders.items }
        ensures outbox { self.new.outbox.items ≡ self.old.outbox.items }
        ensures asks { MayBeDone self.old.applications self.new.applications }
        ensures told { AskAsTold false (Some (record { key = Some key; what = whats.Acknowledged }))
            (ends_in self.old.applications) (asking_in self.old.applications)
            (asking_in self.new.applications) }
        ensures silent { result ≡ true
            → is_said whats.Acknowledged (end_at (ends_in self.old.applications) key) ≡ false }
        ensures resumes { result ≡ true
            → HasTakenBack (Some key) (ends_in self.old.applications) }
        ensures counts { cleaned_in self.new ≡ cleaned_in self.old }
        ensures closes { ClosesOnly NoKey (register_in self.old) (register_in self.new) }
        ensures others { (other : ℕ) → other ≢ key
            → get self.new.applications other ≡ get self.old.applications other }
    {
        match self.applications.get_mut(key) {
            Some(application) => application.acknowledged(),
            None => false,
        }
    }
}
