//! What applications say: requests, and cancels.
ghost use Rattle.std.specs.Prelude.{◌≡◌, ◌≤◌, [], Bool, None, IfOk, IsSome, OnOk, Some, drop, false, length, true};
ghost use Rattle.slab.specs.Slab.{get};
ghost use Rattle.tds_relay.specs.Cleaning.{CleaningsWaitAt};
ghost use Rattle.tds_relay.specs.Lent.{AnewIfLent, DialsNewAt, KeepsGiven, KeepsAnswers, OthersKeepAt, PutsOnly};
ghost use Rattle.tds_relay.specs.Asking.{AsksByBytes, AsksOn, IsObeyed, IsUnderway, waits_of};
ghost use Rattle.tds_relay.specs.Bodies.{Body, CancelsSaid, Carries, CarriesOn, Grows, GrowsFrom, Obeys, Starts, GoesFrom, body_of, last_of, standing_in};
ghost use Rattle.tds_relay.specs.Waking.{HeedsAll, HeedsOn, HeedsServed, PutsSaid};
ghost use Rattle.tds_relay.specs.Closings.{ClosesOnly, register_in, Itself};
ghost use Rattle.tds_relay.specs.Pool.{Sharing, find_key};
ghost use Rattle.tds_relay.specs.Few.{Few, IsSeated, NobodyWaits};
ghost use Rattle.tds_relay.specs.Fronts.{FedOn, Moved, ends_in, given_by, core_in, machine_in};
ghost use Rattle.tds_relay.specs.Core.{IfOpen, IsBegun, end_at, holder};
ghost use Rattle.tds_relay.specs.Machine.{IsLedTo, Steps};
ghost use Rattle.tds_relay.specs.Queues.{names_in, queues_in};
ghost use Rattle.tds_relay.specs.Reads.{Opens, LinksStay};
ghost use Rattle.tds_relay.specs.Reasons.{CannotGoOnAt, GivesReason, IsTurnedAwayAt, ItselfFor, MayCloseAt};
ghost use Rattle.tds_relay.specs.Taking.{Tells, TellsOn};
ghost use Rattle.tds_relay.specs.Ties.{Application, LedTo, IsReached, pool_in};
ghost use Rattle.tds_relay.specs.Waiting.{KeepsInLine, KeepsSaid, ForReasonOrWaiting, HasReason, IsRightlyKept, LendsSaying};
ghost use Rattle.tds_relay.specs.TokenParsers.{AllStand};
ghost use Rattle.tds_relay.specs.Ordering.{GrowsByOrders, OpensNew, opens_in};
ghost use Rattle.tds_relay.specs.Sparing.{OthersGo, OthersRest, ClientsStay};

use super::Relay;
use crate::NoMemory;
use crate::state::Asking;
use tds_front::Said;
use tds_front::laws::bytes_are_packets;

impl Relay {
    /// These bytes of an application came. At most as many as `room` says are to be handed in.
    pub fn said(&mut self, key: usize, piece: &[u8]) -> Result<(), NoMemory>
        ensures goes { OnOk result (LedTo (Application key)
            (pool_in self.old.pool) (pool_in self.new.pool)) }
        ensures names { OnOk result (names_in self.new.applications
            ≡ names_in self.old.applications) }
        ensures steps { OnOk result (Steps (Application key) (machine_in self.old)
            (machine_in self.new)) }
        ensures tells { OnOk result (Tells key (machine_in self.old) piece.now []
            (machine_in self.new)) }
        ensures asks { OnOk result (AsksByBytes key (machine_in self.old) piece.now []
            self.new.links.items (machine_in self.new)) }
        ensures served { OnOk result (NobodyWaits self.new) }
        ensures few { OnOk result (Few self.old.most self.old.links.items
            self.new.links.items) }
        ensures opens { OnOk result (Opens self.old.links.items self.new.links.items) }
        ensures stand { OnOk result (AllStand self.old.pool.service
            self.new.pool.service) }
        ensures carries { IsReached (pool_in self.old.pool) → OnOk result (Carries key
            (machine_in self.old) piece.now [] (body_of key self.old) (body_of key self.new)
            (machine_in self.new)) }
        ensures closes { OnOk result (ClosesOnly (ForReasonOrWaiting key piece.now self.old)
            (register_in self.old) (register_in self.new)) }
        ensures seated { IsSeated self.old → OnOk result (IsSeated self.new) }
        ensures others { OnOk result (OthersGo key self.old self.new) }
        ensures cancels { IsReached (pool_in self.old.pool) → OnOk result (HeedsServed key
            self.old.pool.service.last (machine_in self.old) piece.now (standing_in key self.old)
            (standing_in key self.new) (machine_in self.new)) }
        ensures opening { OnOk result (OpensNew self.old self.new) }
        ensures many { OnOk result (GrowsByOrders self.old self.new) }
        ensures puts { IsReached (pool_in self.old.pool) → OnOk result (PutsOnly
            (λ number. holder (pool_in self.old.pool) number ≡ Some key) self.old self.new) }
        ensures given { OnOk result (KeepsGiven self.old self.new) }
        ensures fresh { OnOk result (DialsNewAt self.old self.new) }
        ensures anew { IsReached (pool_in self.old.pool)
            → OnOk result (AnewIfLent self.old self.new) }
        ensures clients { IsReached (pool_in self.old.pool)
            → OnOk result (ClientsStay (Itself key) self.old self.new) }
        ensures awaits { OnOk result (CleaningsWaitAt self.old self.new) }
        ensures behind { IsReached (pool_in self.old.pool) → (sharing : Sharing)
            → IsLedTo sharing (machine_in self.old)
            → OnOk result (LendsSaying key piece.now self.old self.new) }
    {
        self.take_all(key, piece)?;
        self.serve_line()
    }

    /// Takes them, one packet's header or data behind another: a byte at least in each turn.
    fn take_all(&mut self, key: usize, piece: &[u8]) -> Result<(), NoMemory>
        ensures goes { OnOk result (LedTo (Application key)
            (pool_in self.old.pool) (pool_in self.new.pool)) }
        ensures names { OnOk result (names_in self.new.applications
            ≡ names_in self.old.applications) }
        ensures tells { OnOk result (Tells key (machine_in self.old) piece.now []
            (machine_in self.new)) }
        ensures asks { OnOk result (AsksByBytes key (machine_in self.old) piece.now []
            self.new.links.items (machine_in self.new)) }
        ensures read { OnOk result (LinksStay self.old.links.items self.new.links.items) }
        ensures stand { OnOk result (AllStand self.old.pool.service
            self.new.pool.service) }
        ensures carries { OnOk result (Carries key (machine_in self.old) piece.now []
            (body_of key self.old) (body_of key self.new) (machine_in self.new)) }
        ensures closes { OnOk result (ClosesOnly (ItselfFor key (HasReason key piece.now self.old))
            (register_in self.old) (register_in self.new)) }
        ensures seated { IsSeated self.old → OnOk result (IsSeated self.new) }
        ensures others { IsReached (pool_in self.old.pool)
            → OnOk result (OthersRest key self.old self.new) }
        ensures cancels { OnOk result (HeedsAll key (machine_in self.old) piece.now []
            (standing_in key self.old) (standing_in key self.new) (machine_in self.new)) }
        ensures opening { opens_in self.new.orders.items ≡ opens_in self.old.orders.items }
        ensures aside { IsReached (pool_in self.old.pool)
            → OnOk result (OthersKeepAt key self.old self.new) }
        ensures right { IsRightlyKept key self.old → OnOk result (IsRightlyKept key self.new) }
        ensures anew { IsReached (pool_in self.old.pool)
            → OnOk result (AnewIfLent self.old self.new) }
        ensures awaits { OnOk result (CleaningsWaitAt self.old self.new) }
    {
        let mut rest = piece;
        'taking: for _ in 0..piece.len() {
            if rest.is_empty() {
                return Ok(());
            }
            let count = self.take(key, rest)?;
            rest = behind(rest, count);
        }
        Ok(())
    }

    /// Takes some of them, and answers how many.
    #[tactic(auto, using(crate::proofs::steps::Staying::stays_refl))]
    fn take(&mut self, key: usize, piece: &[u8]) -> Result<usize, NoMemory>
        ensures goes { OnOk result (LedTo (Application key)
            (pool_in self.old.pool) (pool_in self.new.pool)) }
        ensures names { OnOk result (names_in self.new.applications
            ≡ names_in self.old.applications) }
        ensures tells { IfOk result (λ count. TellsOn key piece.now (drop count piece.now)
            (machine_in self.old) (machine_in self.new)) }
        ensures asks { IfOk result (λ count. AsksOn key piece.now (drop count piece.now)
            self.old.links.items self.new.links.items (machine_in self.old) (machine_in self.new)) }
        ensures read { OnOk result (LinksStay self.old.links.items self.new.links.items) }
        ensures stand { OnOk result (AllStand self.old.pool.service
            self.new.pool.service) }
        ensures carries { IfOk result (λ count. CarriesOn key piece.now (drop count piece.now)
            (body_of key self.old) (body_of key self.new)
            (machine_in self.old) (machine_in self.new)) }
        ensures closes { OnOk result (ClosesOnly (ItselfFor key
            (GivesReason piece.now key self.old)) (register_in self.old) (register_in self.new)) }
        ensures some { IfOk result (λ count. 1 ≤ length piece.now → 1 ≤ count) }
        ensures seated { IsSeated self.old → OnOk result (IsSeated self.new) }
        ensures others { IsReached (pool_in self.old.pool)
            → OnOk result (OthersRest key self.old self.new) }
        ensures cancels { IfOk result (λ count. HeedsOn key piece.now (drop count piece.now)
            (standing_in key self.old) (standing_in key self.new) (machine_in self.old)
            (machine_in self.new)) }
        ensures opening { opens_in self.new.orders.items ≡ opens_in self.old.orders.items }
        ensures aside { IsReached (pool_in self.old.pool)
            → OnOk result (OthersKeepAt key self.old self.new) }
        ensures right { IsRightlyKept key self.old → OnOk result (IsRightlyKept key self.new) }
        ensures anew { IsReached (pool_in self.old.pool)
            → OnOk result (AnewIfLent self.old self.new) }
        ensures awaits { OnOk result (CleaningsWaitAt self.old self.new) }
    {
        let Some(application) = self.applications.get_mut(key) else {
            return Ok(piece.len());
        };
        if application.state.is_over() {
            return Ok(piece.len());
        }
        let fed = match application.feed(piece) {
            Ok(fed) => fed,
            Err(fault) => {
                self.expel_for(key, Some(fault))?;
                return Ok(piece.len());
            }
        };
        let bytes = &piece[..fed.count];
        self.obey(key, bytes, fed.said)?;
        Ok(fed.count)
    }

    /// Does what is to be done with these bytes.
    fn obey(&mut self, key: usize, bytes: &[u8], said: Said) -> Result<(), NoMemory>
        ensures goes { OnOk result (LedTo (Application key)
            (pool_in self.old.pool) (pool_in self.new.pool)) }
        ensures given { OnOk result (queues_in self.new.applications
            ≡ given_by key said (queues_in self.old.applications)) }
        ensures moves { OnOk result (FedOn key said (pool_in self.old.pool)
            (ends_in self.old.applications) (core_in self.new)) }
        ensures underway { OnOk result (IsObeyed self.new.links.items key said
            (core_in self.new)) }
        ensures read { OnOk result (LinksStay self.old.links.items self.new.links.items) }
        ensures stand { OnOk result (AllStand self.old.pool.service
            self.new.pool.service) }
        ensures body { OnOk result (Obeys said bytes.now (body_of key self.old)
            (body_of key self.new)) }
        ensures closes { OnOk result (ClosesOnly (ItselfFor key (MayCloseAt said bytes.now key
            (end_at (ends_in self.old.applications) key) self.old))
            (register_in self.old) (register_in self.new)) }
        ensures keeps { find_key key (pool_in self.old.pool).holds ≡ None
            → OnOk result (KeepsSaid said bytes.now (get self.old.applications key)
            (body_of key self.new)) }
        ensures seated { IsSeated self.old → OnOk result (IsSeated self.new) }
        ensures others { IsReached (pool_in self.old.pool)
            → OnOk result (OthersRest key self.old self.new) }
        ensures cancels { OnOk result (CancelsSaid said (body_of key self.old)
            (standing_in key self.new)) }
        ensures opening { opens_in self.new.orders.items ≡ opens_in self.old.orders.items }
        ensures aside { IsReached (pool_in self.old.pool)
            → OnOk result (OthersKeepAt key self.old self.new) }
        ensures puts { OnOk result (PutsSaid (IsReached (pool_in self.old.pool)) said bytes.now
            (standing_in key self.old) (standing_in key self.new)) }
        ensures right { IsRightlyKept key self.old → OnOk result (IsRightlyKept key self.new) }
        ensures anew { IsReached (pool_in self.old.pool)
            → OnOk result (AnewIfLent self.old self.new) }
        ensures awaits { OnOk result (CleaningsWaitAt self.old self.new) }
    {
        bytes_are_packets();
        match said {
            Said::Nothing => Ok(()),
            Said::Begin { kind, reset } => self.begin(key, kind, reset),
            Said::Body(count) => self.go_on(key, last(bytes, count), false),
            Said::End(count) => self.go_on(key, last(bytes, count), true),
            Said::Forget { gone: false } => self.forget(key),
            Said::Forget { gone: true } => self.take_back(key),
            Said::Acknowledge => {
                self.forget(key)?;
                self.acknowledge(key)
            }
            Said::HandOn => self.hand_on(key),
        }
    }

    /// A request that waits is asked where its application holds a connection that can take it, and stands
    /// in the line where it holds none.
    fn seek(&mut self, key: usize) -> Result<(), NoMemory>
        ensures goes { OnOk result (LedTo (Application key)
            (pool_in self.old.pool) (pool_in self.new.pool)) }
        ensures kept { OnOk result (queues_in self.new.applications
            ≡ queues_in self.old.applications) }
        ensures moves { OnOk result (IfOpen IsBegun (end_at (ends_in self.old.applications) key)
            → Moved (Application key) (core_in self.old) (core_in self.new)) }
        ensures underway { (whole : Bool) → waits_of (get self.old.applications key) ≡ Some whole
            → OnOk result (IsUnderway whole self.new.links.items key (core_in self.new)) }
        ensures read { OnOk result (LinksStay self.old.links.items self.new.links.items) }
        ensures stand { OnOk result (AllStand self.old.pool.service
            self.new.pool.service) }
        ensures body { OnOk result (Starts (body_of key self.old) (body_of key self.new)) }
        ensures stays { find_key key (pool_in self.old.pool).holds ≡ None
            → OnOk result (body_of key self.new ≡ body_of key self.old) }
        ensures closes { OnOk result (ClosesOnly (ItselfFor key (IsTurnedAwayAt key self.old))
            (register_in self.old) (register_in self.new)) }
        ensures seated { IsSeated self.old → OnOk result (IsSeated self.new) }
        ensures others { IsReached (pool_in self.old.pool)
            → OnOk result (OthersRest key self.old self.new) }
        ensures opening { opens_in self.new.orders.items ≡ opens_in self.old.orders.items }
        ensures aside { IsReached (pool_in self.old.pool)
            → OnOk result (OthersKeepAt key self.old self.new) }
        ensures puts { OnOk result (GoesFrom (standing_in key self.old)
            (standing_in key self.new)) }
        ensures right { OnOk result (IsRightlyKept key self.new) }
        ensures answers { OnOk result (KeepsAnswers self.old.links.items self.new.links.items) }
        ensures awaits { OnOk result (CleaningsWaitAt self.old self.new) }
    {
        match self.pool.hold_of(key) {
            Some(_) => self.start_kept(key),
            None => self.wait(key),
        }
    }

    /// The next bytes of its request's body, with which it is whole or not.
    #[tactic(auto, using(crate::proofs::steps::Queueing::kept_more, crate::proofs::steps::Queueing::queues_kept, crate::proofs::steps::Fronts::ends_more, crate::proofs::steps::Fronts::ends_kept, crate::proofs::steps::Staying::stays_refl, crate::proofs::steps::Underway::of_none))]
    fn go_on(&mut self, key: usize, bytes: &[u8], whole: bool) -> Result<(), NoMemory>
        ensures goes { OnOk result (LedTo (Application key)
            (pool_in self.old.pool) (pool_in self.new.pool)) }
        ensures kept { OnOk result (queues_in self.new.applications
            ≡ queues_in self.old.applications) }
        ensures moves { OnOk result (Moved (Application key) (core_in self.old)
            (core_in self.new)) }
        ensures underway { OnOk result (IsUnderway whole self.new.links.items key
            (core_in self.new)) }
        ensures read { OnOk result (LinksStay self.old.links.items self.new.links.items) }
        ensures stand { OnOk result (AllStand self.old.pool.service
            self.new.pool.service) }
        ensures body { OnOk result ((mid : Body)
            × Grows whole bytes.now (body_of key self.old) mid
            × Starts mid (body_of key self.new)) }
        ensures keeps { find_key key (pool_in self.old.pool).holds ≡ None
            → OnOk result (KeepsInLine whole bytes.now (get self.old.applications key)
            (body_of key self.new)) }
        ensures closes { OnOk result (ClosesOnly (ItselfFor key
            (CannotGoOnAt whole bytes.now key self.old)) (register_in self.old)
            (register_in self.new)) }
        ensures seated { IsSeated self.old → OnOk result (IsSeated self.new) }
        ensures others { IsReached (pool_in self.old.pool)
            → OnOk result (OthersRest key self.old self.new) }
        ensures opening { opens_in self.new.orders.items ≡ opens_in self.old.orders.items }
        ensures aside { IsReached (pool_in self.old.pool)
            → OnOk result (OthersKeepAt key self.old self.new) }
        ensures puts { OnOk result (GrowsFrom whole bytes.now (standing_in key self.old)
            (standing_in key self.new)) }
        ensures right { OnOk result (IsRightlyKept key self.new) }
        ensures answers { OnOk result (KeepsAnswers self.old.links.items self.new.links.items) }
        ensures awaits { OnOk result (CleaningsWaitAt self.old self.new) }
    {
        let Some(application) = self.applications.get_mut(key) else {
            return Ok(());
        };
        match application.state.asking() {
            Asking::Nothing => self.expel(key),
            Asking::Waits { .. } => {
                if !application.may_put(false) {
                    return self.expel(key);
                }
                if !application.keep(bytes, whole)? {
                    return self.expel(key);
                }
                self.seek(key)
            }
            Asking::Goes => self.put(key, bytes, whole),
        }
    }
}

/// What stands behind so many of these bytes.
pub(super) fn behind(bytes: &[u8], count: usize) -> &[u8]
    ensures { result.now ≡ drop count bytes.now }
{
    match bytes.get(count..) {
        Some(rest) => rest,
        None => &[],
    }
}

/// The last of these bytes.
fn last(bytes: &[u8], count: usize) -> &[u8]
    ensures { result.now ≡ last_of count bytes.now }
{
    match bytes.get(bytes.len().saturating_sub(count)..) {
        Some(last) => last,
        None => &[],
    }
}
