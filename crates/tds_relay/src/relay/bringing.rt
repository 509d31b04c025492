//! The first connection of all, which has come before any application asked.
ghost use Rattle.std.specs.Prelude.{◌≡◌, IfNone, IfOk, IfSome, List, None, OnOk, Some, [], IsSome, false, true};
ghost use Rattle.tds_relay.specs.Cleaning.{CleaningWaits, CountsBrought, CountsSince, IsFirst, IsLentBy, IsNotBrought, IsTooLong, LosesWaiting, cleaned_in};
ghost use Rattle.tds_relay.specs.Closings.{ClosesOnly, IsWaiting, register_in, settings_in, with_links};
ghost use Rattle.tds_relay.specs.Apart.{LendsInTurn};
ghost use Rattle.tds_relay.specs.Fronts.{ends_in, core_in, machine_in};
ghost use Rattle.tds_relay.specs.Core.{holder};
ghost use Rattle.tds_relay.specs.Machine.{Steps};
ghost use Rattle.tds_relay.specs.Queues.{names_in, queues_in};
ghost use Rattle.tds_relay.specs.Lent.{FirstStays, IsMade};
ghost use Rattle.tds_relay.specs.Reads.{IsCalled, OpensFirst, bytes_on, open_waits, seen_at};
ghost use Rattle.tds_relay.specs.Ordering.{GrowsBrought, OpensAbove, OpensNew, StayOrdered};
ghost use Rattle.tds_relay.specs.Sparing.{AllGo};
ghost use Rattle.tds_relay.specs.Ties.{LedTo, IsReached, Neither, pool_in};
ghost use Rattle.tds_relay.specs.TokenParsers.{AllStand};
ghost use Rattle.tds_relay.specs.Few.{IsSeated};

use super::Relay;
use crate::NoMemory;
use crate::link::Link;

impl Relay {
    /// A connection that is open and logged in has come before any application asked: the first one of
    /// all. It is cleaned first. Answers its number, or none where there are others, or as many are in use
    /// as may be.
    #[tactic(auto, using(crate::proofs::steps::Reaching::reaches_turn, crate::proofs::steps::Reaching::reaches_turned, crate::proofs::lending::Resting::go_refl, crate::proofs::spared::Ordered::ordered_refl))]
    pub fn bring(&mut self, tag: usize) -> Result<Option<u64>, NoMemory>
        ensures goes { OnOk result (LedTo Neither (pool_in self.old.pool) (pool_in self.new.pool)) }
        ensures steps { OnOk result (Steps Neither (machine_in self.old) (machine_in self.new)) }
        ensures kept { OnOk result (queues_in self.new.applications
            ≡ queues_in self.old.applications) }
        ensures opens { IfOk result (λ number.
            OpensFirst number self.old.links.items self.new.links.items) }
        ensures named { IfOk result (λ brought. IfSome brought (λ number.
            IsCalled true (Some tag) (seen_at number self.new.links.items))) }
        ensures first { IsReached (pool_in self.old.pool) → IfOk result (λ brought.
            IfSome brought (λ number. FirstStays tag number self.old self.new)) }
        ensures names { OnOk result (names_in self.new.applications
            ≡ names_in self.old.applications) }
        ensures stand { OnOk result (AllStand self.old.pool.service
            self.new.pool.service) }
        ensures goes_on { OnOk result (AllGo self.old self.new) }
        ensures ordered { OnOk result (StayOrdered self.old.orders.items self.new.orders.items) }
        ensures closes { OnOk result ((first : List Link)
            × IsFirst tag (settings_in self.old) self.old.links.items first
            × ClosesOnly (IsWaiting (pool_in self.old.pool).line)
            (with_links first (register_in self.old)) (register_in self.new)) }
        ensures lent { IfOk result (λ brought. IfSome brought (λ number.
            IsLentBy number (pool_in self.old.pool).service)) }
        ensures tries { IsReached (pool_in self.old.pool) → IfOk result (λ brought.
            IfNone brought (IsNotBrought self.old.links.items (pool_in self.old.pool)
            (pool_in self.new.pool))) }
        ensures seated { IsSeated self.old → OnOk result (IsSeated self.new) }
        ensures counts { IfOk result (λ brought. CountsBrought brought
            (cleaned_in self.old) (cleaned_in self.new)) }
        ensures cleaned { IsReached (pool_in self.old.pool) → IfOk result (λ brought.
            IfSome brought (λ number. CountsSince (IsTooLong self.old.size)
            (LosesWaiting (register_in self.old) self.old self.new) number (cleaned_in self.old)
            (cleaned_in self.new) self.new.links.items)) }
        ensures opening { OnOk result (OpensNew self.old self.new) }
        ensures many { IfOk result (λ brought. GrowsBrought brought self.old self.new) }
        ensures dials { IsReached (pool_in self.old.pool) → IfOk result (λ brought.
            IfSome brought (λ number. OpensAbove number self.old self.new)) }
        ensures cleans { IsReached (pool_in self.old.pool) → IfOk result (λ brought. IfSome brought
            (λ number. CleaningWaits (IsSome (holder (pool_in self.new.pool) number))
            (open_waits number self.new.links.items))) }
        ensures lends { OnOk result (LendsInTurn (pool_in self.old.pool).line
            (ends_in self.old.applications) (core_in self.new)) }
    {
        if !self.links.is_empty() {
            return Ok(None);
        }
        self.outbox.clear();
        let Some(left) = self.pool.bring(&mut self.outbox)? else {
            return Ok(None);
        };
        if !left.is_there {
            return Ok(None);
        }
        let mut link = self.new_link(left.number)?;
        link.tag = Some(tag);
        link.is_open = true;
        self.links.push(link)?;
        self.send_unheld(left.number)?;
        self.serve_line()?;
        Ok(Some(left.number))
    }

    pub(super) fn new_link(&self, number: u64) -> Result<Link, NoMemory>
        ensures closed { IfOk result (λ link. link.is_open ≡ false) }
        ensures number { IfOk result (λ link. link.number ≡ number) }
        ensures unread { IfOk result (λ link. link.reader.taken ≡ []) }
        ensures unnamed { IfOk result (λ link. link.tag ≡ None) }
        ensures nothing { IfOk result (λ link. bytes_on link ≡ []) }
        ensures made { IfOk result (IsMade self.now.size self.now.features) }
    {
        Link::new(self.alloc, number, self.size, self.features)
    }
}
