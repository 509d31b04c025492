//! What comes on connections.
ghost use Rattle.std.specs.Prelude.{◌≡◌, ◌⊎◌, ◌≤◌, ◌+◌, ◌&&◌, [], ℕ, not, None, Some, drop, false, IfOk, IsSome, OnOk, length, true};
ghost use Rattle.tds_service.specs.Sizes.{KeepsSize};
ghost use Rattle.tds_service.specs.Table.{reading_on};
ghost use Rattle.tds_relay.specs.Lent.{Any, DialsNewAt, HearsAny, HearsGiven, ShutGiven, ShutStay, FirstKeeps, MayForget, PutsOnly};
ghost use Rattle.tds_relay.specs.Apart.{LosesOnly, SparesOthers};
ghost use Rattle.tds_relay.specs.Bodies.{AskAsBefore, Body, body_in};
ghost use Rattle.tds_relay.specs.Cleaning.{CleansAlone, CleansOn, CountsGone, CountsLost, PutsByLease, cleaned_in, CleaningsWaitAt, CleansNobodys};
ghost use Rattle.tds_relay.specs.Closings.{ClosesOnly, but_told, is_shut, IsWho, register_in, settings_in};
ghost use Rattle.tds_relay.specs.Coming.{AllAlong, ComesAnew, ComesTold, ContinuesAnew, ContinuesTold, StreamsAnew, StreamsTold, asking_in};
ghost use Rattle.tds_relay.specs.Pool.{Sharing, whose};
ghost use Rattle.tds_relay.specs.Faults.{IsHeaderOf, IsRefusedOn};
ghost use Rattle.tds_relay.specs.Few.{Few, HearsSeat, IsSeated, IsSeatedBehind, NobodyWaits, NoneNew};
ghost use Rattle.tds_relay.specs.Fronts.{own_end, ends_in, core_in, told_by, machine_in, machine_of, machine_with};
ghost use Rattle.tds_relay.specs.Core.{holder, end_told};
ghost use Rattle.tds_relay.specs.Handing.{BringsPacket, HearsBy, IsKnown, KnowsOn, Passes, filled, heard_key, news_for};
ghost use Rattle.tds_relay.specs.Machine.{IsLedTo, Steps};
ghost use Rattle.tds_relay.specs.Reasons.{Cleans, IsHeardAs, IsIdle, IsLeftOpen, HearsNothing};
ghost use Rattle.tds_relay.specs.Queues.{names_in, queue_of, queues_in};
ghost use Rattle.tds_packet.specs.Stream.{IsLess};
ghost use Rattle.tds_relay.specs.Reads.{BytesCome, IsLessAt, OpensOthers, StreamsAll, answer_at, if_heard, open_at, open_waits, waits_on, queue_on, seen_at};
ghost use Rattle.tds_relay.specs.Told.{IsRoom};
ghost use Rattle.tds_relay.specs.Ordering.{GrowsByOrders, OpensNew, StayOrdered, opens_in};
ghost use Rattle.tds_relay.specs.Sending.{sending_at};
ghost use Rattle.tds_relay.specs.Sparing.{OffGo, OffHold, ClientsStay};
ghost use Rattle.tds_relay.specs.Ties.{Connection, LedTo, IsReached, pool_in};
ghost use Rattle.tds_relay.specs.Waiting.{HeardFor, IsItsHolders, KeepsQueues, KeepsWaiting, LendsHearing, RestsForHolder};
ghost use Rattle.tds_relay.specs.Waking.{HandsTo, IsWoken, PutsFor, Wakes};
ghost use Rattle.tds_relay.specs.TokenParsers.{AllStand, HasRead, ReadsBy};

use super::Relay;
use super::asking::behind;
use crate::NoMemory;
use crate::application::Application;
use crate::fault::Refused;
use crate::link::{Answer, Link, News};
use crate::links::place_in;
use crate::pool::{Heard, NOTHING, Pool, What};
use crate::reading::reads_packets;
use slab::Slab;
use tds_packet::PacketRef;

impl Relay {
    /// These bytes came on the connection of this number, behind its login.
    pub fn came(&mut self, number: u64, piece: &[u8]) -> Result<(), NoMemory>
        ensures goes { OnOk result (LedTo (Connection number)
            (pool_in self.old.pool) (pool_in self.new.pool)) }
        ensures names { OnOk result (names_in self.new.applications
            ≡ names_in self.old.applications) }
        ensures steps { OnOk result (Steps (Connection number) (machine_in self.old)
            (machine_in self.new)) }
        ensures served { OnOk result (NobodyWaits self.new) }
        ensures few { OnOk result (Few self.old.most self.old.links.items self.new.links.items) }
        ensures comes { OnOk result (BytesCome number (open_at number self.old.links.items)
            (machine_in self.old) self.old.pool.service piece.now
            (open_at number self.new.links.items) (machine_in self.new) self.new.pool.service) }
        ensures anew { OnOk result (ComesAnew number piece.now self.old self.new) }
        ensures told { OnOk result (ComesTold number piece.now self.old self.new) }
        ensures others { OnOk result (OpensOthers number
            self.old.links.items self.new.links.items) }
        ensures bodies { IsReached (pool_in self.old.pool)
            → OnOk result (AllAlong self.old self.new) }
        ensures ordered { OnOk result (StayOrdered self.old.orders.items self.new.orders.items) }
        ensures wakes { OnOk result (Wakes (queues_in self.old.applications)
            self.new.applications self.new.orders.items) }
        ensures refused { OnOk result (IsRefusedOn number self.old.refused self.new.refused) }
        ensures only { IsReached (pool_in self.old.pool)
            → OnOk result (LosesOnly number (core_in self.old) (core_in self.new)) }
        ensures closes { OnOk result (ClosesOnly (HeardFor number piece.now self.old)
            (but_told (register_in self.new) (register_in self.old)) (register_in self.new)) }
        ensures seated { IsSeated self.old → OnOk result (IsSeated self.new) }
        ensures opening { OnOk result (OpensNew self.old self.new) }
        ensures many { OnOk result (GrowsByOrders self.old self.new) }
        ensures counts { OnOk result (CountsGone number self.old self.new) }
        ensures apart { OnOk result (OffGo number None self.old self.new) }
        ensures cleans { IsReached (pool_in self.old.pool)
            → holder (pool_in self.old.pool) number ≡ None → OnOk result (CleansOn
            self.old.pool.service.given self.new.pool.service.given
            (IsSome (holder (pool_in self.new.pool) number))
            (waits_on number self.old.links.items) (open_waits number self.new.links.items)) }
        ensures puts { IsReached (pool_in self.old.pool)
            → OnOk result (PutsOnly (IsItsHolders number self.old) self.old self.new) }
        ensures given { OnOk result (HearsGiven number self.old self.new) }
        ensures fresh { OnOk result (DialsNewAt self.old self.new) }
        ensures still { OnOk result (ShutGiven self.old self.new) }
        ensures clients { IsReached (pool_in self.old.pool) → OnOk result
            (ClientsStay (IsWho (holder (pool_in self.old.pool) number)) self.old self.new) }
        ensures awaits { OnOk result (CleaningsWaitAt self.old self.new) }
        ensures rests { IsSeated self.old → OnOk result (RestsForHolder number self.old self.new) }
        ensures sizes { OnOk result (KeepsSize self.old.pool.service self.new.pool.service) }
        ensures behind { IsReached (pool_in self.old.pool) → (sharing : Sharing)
            → IsLedTo sharing (machine_in self.old)
            → OnOk result (LendsHearing number self.old self.new) }
    {
        self.hear_all(number, piece)?;
        self.serve_line()
    }

    /// Hears them, packet by packet, each of them. But in the first turn, a byte is heard in each at least.
    fn hear_all(&mut self, number: u64, piece: &[u8]) -> Result<(), NoMemory>
        ensures none { OnOk result (NoneNew self.old.links.items self.new.links.items) }
        ensures goes { OnOk result (LedTo (Connection number)
            (pool_in self.old.pool) (pool_in self.new.pool)) }
        ensures names { OnOk result (names_in self.new.applications
            ≡ names_in self.old.applications) }
        ensures streams { OnOk result (StreamsAll number (open_at number self.old.links.items)
            (machine_in self.old) self.old.pool.service piece.now
            (open_at number self.new.links.items) (machine_in self.new) self.new.pool.service) }
        ensures anew { OnOk result (StreamsAnew number (answer_at number self.old.links.items)
            (open_at number self.old.links.items) (machine_in self.old) self.old.pool.service
            piece.now [] (answer_at number self.new.links.items)
            (open_at number self.new.links.items) (machine_in self.new) self.new.pool.service) }
        ensures told { OnOk result (StreamsTold number (asking_in self.old.applications)
            (open_at number self.old.links.items) (machine_in self.old) self.old.pool.service
            piece.now [] (asking_in self.new.applications)
            (open_at number self.new.links.items) (machine_in self.new) self.new.pool.service) }
        ensures others { OnOk result (OpensOthers number
            self.old.links.items self.new.links.items) }
        ensures bodies { IsReached (pool_in self.old.pool)
            → OnOk result (AllAlong self.old self.new) }
        ensures ordered { OnOk result (StayOrdered self.old.orders.items self.new.orders.items) }
        ensures wakes { OnOk result (Wakes (queues_in self.old.applications)
            self.new.applications self.new.orders.items) }
        ensures refused { OnOk result (IsRefusedOn number self.old.refused self.new.refused) }
        ensures spares { IsReached (pool_in self.old.pool) → OnOk result (SparesOthers number None
            (core_in self.old) (core_in self.new)) }
        ensures closes { OnOk result (ClosesOnly (HeardFor number piece.now self.old)
            (but_told (register_in self.new) (register_in self.old)) (register_in self.new)) }
        ensures seated { IsSeated self.old → OnOk result (IsSeated self.new) }
        ensures opening { opens_in self.new.orders.items ≡ opens_in self.old.orders.items }
        ensures many { OnOk result (length self.new.links.items ≤ length self.old.links.items) }
        ensures counts { OnOk result (CountsLost number self.old self.new) }
        ensures apart { OnOk result (OffGo number None self.old self.new) }
        ensures cleans { IsReached (pool_in self.old.pool)
            → holder (pool_in self.old.pool) number ≡ None → OnOk result (CleansAlone
            self.old.pool.service.given self.new.pool.service.given
            (waits_on number self.old.links.items) (waits_on number self.new.links.items)) }
        ensures keeps { IsReached (pool_in self.old.pool) → OnOk result
            (FirstKeeps (IsItsHolders number self.old) self.old self.new) }
        ensures rests { IsSeated self.old → OnOk result
            ((key : ℕ) → KeepsWaiting number self.old self.new key) }
        ensures given { OnOk result (HearsAny number self.old.links.items self.new.links.items) }
        ensures still { OnOk result (ShutStay Any self.old.links.items self.new.links.items) }
        ensures awaits { OnOk result (CleaningsWaitAt self.old self.new) }
    {
        let mut rest = piece;
        'taking: for _ in 0..piece.len() + 1 {
            if rest.is_empty() {
                return Ok(());
            }
            let (count, heard) = self.hear(number, rest)?;
            rest = behind(rest, count);
            self.heard(number, heard)?;
        }
        Ok(())
    }

    /// Takes bytes up to the end of a packet, and hands on what is an application's. None where they
    /// are no packet of an answer. What comes on a connection that isn't open is nothing.
    fn hear(&mut self, number: u64, piece: &[u8]) -> Result<(usize, Option<Heard>), NoMemory>
        ensures settings { settings_in self.new ≡ settings_in self.old }
        ensures goes { OnOk result (LedTo (Connection number)
            (pool_in self.old.pool) (pool_in self.new.pool)) }
        ensures names { OnOk result (names_in self.new.applications
            ≡ names_in self.old.applications) }
        ensures ends { OnOk result (ends_in self.new.applications
            ≡ ends_in self.old.applications) }
        ensures continues { IfOk result (λ heard. ContinuesAnew number piece.now
            (drop heard.0 piece.now) heard.1 (answer_at number self.old.links.items)
            (open_at number self.old.links.items) (answer_at number self.new.links.items)
            (if_heard heard.1 (open_at number self.new.links.items)) (machine_in self.old)
            self.old.pool.service (machine_with (pool_in self.new.pool)
            (told_by heard.1 (ends_in self.old.applications)) (queues_in self.new.applications))
            self.new.pool.service) }
        ensures told { IfOk result (λ heard. ContinuesTold number piece.now
            (drop heard.0 piece.now) heard.1 (open_at number self.old.links.items)
            (if_heard heard.1 (open_at number self.new.links.items)) (machine_in self.old)
            self.old.pool.service (machine_with (pool_in self.new.pool)
            (told_by heard.1 (ends_in self.old.applications)) (queues_in self.new.applications))
            self.new.pool.service) }
        ensures others { OnOk result (OpensOthers number
            self.old.links.items self.new.links.items) }
        ensures takes { IfOk result (λ heard. IsLessAt (open_at number self.old.links.items)
            → 1 ≤ length piece.now → 1 ≤ heard.0) }
        ensures less { IfOk result (λ heard.
            IsLessAt (if_heard heard.1 (open_at number self.new.links.items))) }
        ensures asks { OnOk result (AskAsBefore self.old.applications self.new.applications) }
        ensures orders { self.new.orders.items ≡ self.old.orders.items }
        ensures many { OnOk result (length self.new.links.items ≡ length self.old.links.items) }
        ensures puts { IfOk result (λ heard. PutsFor heard.1 (ends_in self.old.applications)
            (queues_in self.old.applications) (queues_in self.new.applications)) }
        ensures same { OnOk result ((other : ℕ) → (sending_at other self.new.links.items
            ≡ sending_at other self.old.links.items)
            × (is_shut (seen_at other self.new.links.items)
            ≡ is_shut (seen_at other self.old.links.items))) }
        ensures queues { OnOk result (KeepsQueues self.old.links.items self.new.links.items) }
        ensures cleans { IsReached (pool_in self.old.pool) → IfOk result (λ heard.
            Cleans (whose (pool_in self.old.pool) number) heard.1 [] self.new.outbox.items) }
        ensures refused { OnOk result (IsRefusedOn number self.old.refused self.new.refused) }
        ensures hears { IfOk result (λ heard.
            (HearsNothing heard.1 × IsIdle self.old self.new)
            ⊎ IsHeardAs number piece.now heard.1 self.old (machine_with (pool_in self.new.pool)
            (told_by heard.1 (ends_in self.old.applications)) (queues_in self.new.applications))) }
        ensures seated { IsSeated self.old → IfOk result (λ heard.
            IsSeatedBehind heard.1 number self.new) }
        ensures counts { cleaned_in self.new ≡ cleaned_in self.old }
        ensures off { OnOk result (OffHold number self.old.pool self.new.pool) }
        ensures keeps { OnOk result
            (FirstKeeps (λ other. other ≡ number) self.old self.new) }
        ensures leases { IfOk result (λ heard. IsLeftOpen heard.1 → PutsByLease []
            self.new.outbox.items self.old.pool.service.given self.new.pool.service.given) }
        ensures given { OnOk result (HearsAny number self.old.links.items self.new.links.items) }
        ensures still { OnOk result (ShutStay Any self.old.links.items self.new.links.items) }
        ensures newly { IsReached (pool_in self.old.pool) → IfOk result (λ heard.
            CleansNobodys (heard_key heard.1) number [] self.new.outbox.items
            (pool_in self.old.pool).service (pool_in self.new.pool).service) }
    {
        let Relay {
            pool,
            applications,
            links,
            outbox,
            refused,
            ..
        } = self;
        outbox.clear();
        let Some(place) = place_in(links, number) else {
            return Ok((piece.len(), Some(NOTHING)));
        };
        let link = &mut links.list[place];
        if !link.is_open {
            return Ok((piece.len(), Some(NOTHING)));
        }
        hear_on(pool, applications, link, refused, number, outbox, piece)
    }
}

/// Takes bytes of this connection up to the end of a packet.
fn hear_on(
    pool: &mut Pool,
    applications: &mut Slab<Application>,
    link: &mut Link,
    refused: &mut Option<Refused>,
    number: u64,
    outbox: &mut Vec<u8>,
    piece: &[u8],
) -> Result<(usize, Option<Heard>), NoMemory>
    requires { link.old.is_open ≡ true }
    ensures goes { OnOk result (LedTo (Connection number) (pool_in pool.old)
        (pool_in pool.new)) }
    ensures names { OnOk result (names_in applications.new ≡ names_in applications.old) }
    ensures hears { IfOk result (λ heard. HearsBy number (reading_on number pool.old.service)
        link.old link.new piece.now heard.0 heard.1 (machine_of pool.old applications.old)
        (machine_with (pool_in pool.new) (told_by heard.1 (ends_in applications.old))
        (queues_in applications.new))) }
    ensures read { IfOk result (λ heard. ReadsBy number (filled link.old.reader piece.now) heard.1
        pool.old.service pool.new.service) }
    ensures takes { IfOk result (λ heard. IsLess link.old.reader link.old.reader.taken
        → 1 ≤ length piece.now → 1 ≤ heard.0) }
    ensures number { link.new.number ≡ link.old.number }
    ensures is_open { link.new.is_open ≡ link.old.is_open }
    ensures out { link.new.out ≡ link.old.out }
    ensures tag { link.new.tag ≡ link.old.tag }
    ensures ends { OnOk result (ends_in applications.new ≡ ends_in applications.old) }
    ensures asks { OnOk result (AskAsBefore applications.old applications.new) }
    ensures puts { IfOk result (λ heard. PutsFor heard.1 (ends_in applications.old)
        (queues_in applications.old) (queues_in applications.new)) }
    ensures refused { IfOk result (λ heard. IsHeaderOf number
        (filled link.old.reader piece.now) heard.1 refused.old refused.new) }
    ensures known { OnOk result (KnowsOn (filled link.old.reader piece.now) link.old.answer
        link.new.answer) }
    ensures cleans { IsReached (pool_in pool.old) → IfOk result (λ heard.
        Cleans (whose (pool_in pool.old) number) heard.1 outbox.old.items outbox.new.items) }
    ensures seats { IsReached (pool_in pool.old) → IfOk result (λ heard. HearsSeat heard.1 number
        (pool_in pool.old).service (pool_in pool.new).service) }
    ensures off { OnOk result (OffHold number pool.old pool.new) }
    ensures holds { OnOk result
        (MayForget number pool.old.holds.items pool.new.holds.items) }
    ensures leases { IfOk result (λ heard. IsLeftOpen heard.1 → PutsByLease outbox.old.items
        outbox.new.items pool.old.service.given pool.new.service.given) }
    ensures newly { IsReached (pool_in pool.old) → IfOk result (λ heard. CleansNobodys
        (heard_key heard.1) number outbox.old.items outbox.new.items (pool_in pool.old).service
        (pool_in pool.new).service) }
{
    let count = match link.reader.feed(piece) {
        Ok(count) => count,
        Err(fault) => {
            *refused = Some(Refused { number, fault });
            return Ok((piece.len(), None));
        }
    };
    reads_packets();
    let heard = hear_packet(pool, applications, link, number, outbox)?;
    link.reader.done();
    Ok((count, Some(heard)))
}

/// The packet that has come, if one has: the pool hears it, and whoever holds the connection gets it.
fn hear_packet(
    pool: &mut Pool,
    applications: &mut Slab<Application>,
    link: &mut Link,
    number: u64,
    outbox: &mut Vec<u8>,
) -> Result<Heard, NoMemory>
    ensures goes { OnOk result (LedTo (Connection number) (pool_in pool.old)
        (pool_in pool.new)) }
    ensures names { OnOk result (names_in applications.new ≡ names_in applications.old) }
    ensures brings { IfOk result (λ heard. BringsPacket number (reading_on number pool.old.service)
        link.old.answer link.new.answer link.old.reader heard (machine_of pool.old applications.old)
        (machine_with (pool_in pool.new) (told_by (Some heard) (ends_in applications.old))
        (queues_in applications.new))) }
    ensures read { OnOk result (HasRead number link.old.reader pool.old.service
        pool.new.service) }
    ensures reader { link.new.reader ≡ link.old.reader }
    ensures number { link.new.number ≡ link.old.number }
    ensures is_open { link.new.is_open ≡ link.old.is_open }
    ensures out { link.new.out ≡ link.old.out }
    ensures tag { link.new.tag ≡ link.old.tag }
    ensures ends { OnOk result (ends_in applications.new ≡ ends_in applications.old) }
    ensures asks { OnOk result (AskAsBefore applications.old applications.new) }
    ensures known { OnOk result (KnowsOn link.old.reader link.old.answer link.new.answer) }
    ensures cleans { IsReached (pool_in pool.old) → IfOk result (λ heard.
        Cleans (whose (pool_in pool.old) number) (Some heard) outbox.old.items outbox.new.items) }
    ensures seats { IsReached (pool_in pool.old) → IfOk result (λ heard. HearsSeat (Some heard)
        number (pool_in pool.old).service (pool_in pool.new).service) }
    ensures off { OnOk result (OffHold number pool.old pool.new) }
    ensures holds { OnOk result
        (MayForget number pool.old.holds.items pool.new.holds.items) }
    ensures leases { IfOk result (λ heard. IsLeftOpen (Some heard) → PutsByLease outbox.old.items
        outbox.new.items pool.old.service.given pool.new.service.given) }
    ensures newly { IsReached (pool_in pool.old) → IfOk result (λ heard. CleansNobodys
        heard.key number outbox.old.items outbox.new.items (pool_in pool.old).service
        (pool_in pool.new).service) }
{
    let Some(packet) = link.reader.packet() else {
        return Ok(NOTHING);
    };
    let ends = packet.header.status.ends();
    let owed = pool.owes_reset(number);
    let heard = pool.came(number, packet.data, ends, outbox)?;
    if matches!(heard.what, What::Closed) {
        return Ok(heard);
    }
    let Some(key) = heard.key else {
        return Ok(heard);
    };
    let Some(application) = applications.get_mut(key) else {
        return Ok(heard);
    };
    if !application.hears() {
        return Ok(heard);
    }
    let asks = application.is_told(heard.what);
    let news = news_for(asks, owed, pool.owes_reset(number), link.answer.holds());
    hand_on(&mut link.answer, news, packet, application)?;
    Ok(heard)
}

/// How the news of a reset goes with a packet, where its application is to be told of one with it or not; where
/// the server owed that before the packet and owes it behind, and bytes before it were held back.
fn news_for(asks: bool, owed: bool, owes: bool, holds: bool) -> News
    ensures { result ≡ news_for asks (owed && not owes) owed holds }
{
    let is_in = owed && !owes;
    News {
        is_told: asks && !is_in,
        is_cut: (owed || holds) && !(asks && is_in),
        is_owed: owed,
    }
}

/// Hands a packet on as it came or without the news of a reset, and behind it or not. One that isn't set anew
/// doesn't make its application full where it fits in what may wait, with that news.
fn hand_on(
    answer: &mut Answer,
    news: News,
    packet: PacketRef<'_>,
    application: &mut Application,
) -> Result<(), NoMemory>
    requires { packet.header.length ≡ 8 + length packet.«data».now }
    ensures passes { OnOk result (Passes news answer.old packet.entry.header
        packet.entry.«data».now (queue_of application.old) (queue_of application.new)) }
    ensures known { OnOk result (IsKnown news answer.old packet.entry.header
        packet.entry.«data».now answer.new) }
    ensures end { OnOk result (own_end application.new ≡ own_end application.old) }
    ensures body { OnOk result ((goes : Body)
        → body_in (Some application.new) goes ≡ body_in (Some application.old) goes) }
    ensures fits { IsRoom news application.old.out packet.entry.header.length
        → application.new.out.is_full ≡ false }
{
    let out = &mut application.out;
    out.put_news(news.is_told)?;
    if news.is_cut {
        answer.put_without_news(news.is_owed, packet.header, packet.data, out)
    } else {
        out.put_packet(packet.header, packet.data)
    }
}
