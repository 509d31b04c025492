//! The connections by their numbers.
ghost use Rattle.std.specs.Prelude.{◌≡◌, ◌≢◌, ◌==◌, ◌<◌, ◌≤◌, ◌++◌, ◌∷◌, [], ℕ, List, IfOk, IfSome, drop, false, length};
ghost use Rattle.std.specs.Prelude.{OnErr, OnOk, option_copied, option_map, true, vec_capacity};
ghost use Rattle.tds_relay.specs.Coming.{MayBeginAny};
ghost use Rattle.tds_relay.specs.Cutting.{at_its_beginning};
ghost use Rattle.tds_relay.specs.Lent.{KeepsAnswers};
ghost use Rattle.tds_relay.specs.Linking.{ArePlaced};
ghost use Rattle.tds_relay.specs.Queues.{without_first};
ghost use Rattle.tds_relay.specs.Reads.{answer_at, link_at, queue_on};
ghost use Rattle.tds_relay.specs.Reads.{HoldsOnLinks, LinksStay, named_seen, open_at, opened_at, opened_seen, place_of};
ghost use Rattle.tds_relay.specs.Reads.{seen_at, waits_on, without_link};
ghost use Rattle.tds_relay.specs.Reasons.{HasNoRoom};
ghost use Rattle.tds_relay.specs.Told.{is_there};

use crate::NoMemory;
use crate::index::{Indexed, add, find};
use crate::link::Link;
use std::alloc::Global;
use std::cell::Cell;
use std::marker::Model;

/// The connections, in the order in which they came; and the place of each by rising numbers, so that it is
/// found by halves.
#[derive(Drop)]
pub(crate) struct Links {
    /// Whoever writes to one of these keeps its number.
    pub(crate) list: Vec<Link>,
    places: Vec<Indexed<usize>>,
    /// Where among the places one was found last.
    latest: Cell<usize>,
}

impl Model for Links {
    ghost use Rattle.tds_relay.specs.Linking.{ArePlaced, Linked};

    ghost Value = { Linked };

    ghost view = { λ a. record { items = a.list.items } };

    ghost invariant = { λ a. ArePlaced a.list.items a.places.items };
}

impl Links {
    /// There are none.
    pub(crate) fn new(alloc: Global) -> Links
        ensures { result.items ≡ [] }
    {
        Links {
            list: Vec::new(alloc),
            places: Vec::new(alloc),
            latest: Cell::new(0),
        }
    }

    /// How many there are.
    pub(crate) fn len(&self) -> usize
        ensures { result ≡ length self.now.items }
    {
        self.list.len()
    }

    /// Whether there are none.
    pub(crate) fn is_empty(&self) -> bool
        ensures { result ≡ (length self.now.items == 0) }
    {
        self.list.is_empty()
    }

    /// Puts one behind the others.
    pub(crate) fn push(&mut self, link: Link) -> Result<(), NoMemory>
        ensures items { OnOk result (self.new.items ≡ self.old.items ++ link ∷ []) }
        ensures err { OnErr result (self.new.items ≡ self.old.items) }
    {
        self.list.reserve(1)?;
        self.places.reserve(1)?;
        add(&mut self.places, link.number, self.list.len());
        self.list.push_reserved(link);
        Ok(())
    }
}

/// Where the connection of this number is among these.
pub(crate) fn place_in(links: &Links, number: u64) -> Option<usize>
    ensures is { result ≡ place_of number links.now.items }
    ensures within { IfSome result (λ place. place < length links.now.items) }
{
    find(&links.places, number, &links.latest)
}

/// The connection of this number.
pub(crate) fn link_in(links: &Links, number: u64) -> Option<&Link>
    ensures { option_copied result ≡ link_at number links.now.items }
{
    let place = place_in(links, number)?;
    Some(&links.list[place])
}

/// Takes the connection of this number out of these.
pub(crate) fn remove_link(links: &mut Links, number: u64)
    ensures { links.new.items ≡ without_link number links.old.items }
{
    links.list.retain(|link| link.number != number);
    place_anew(&links.list, &mut links.places);
}

/// Where each of these is, for which there is room.
fn place_anew(list: &[Link], places: &mut Vec<Indexed<usize>>)
    requires room { length list.now ≤ vec_capacity places.old }
    ensures placed { ArePlaced list.now places.new.items }
{
    places.clear();
    'placing: for place in 0..list.len() {
        add(places, list[place].number, place);
    }
}

/// What is to be sent on a connection waits there. False where more would wait than may: then nothing has
/// changed.
#[tactic(auto, using(crate::proofs::steps::Staying::stays_written, crate::proofs::steps::Staying::stays_refl))]
pub(crate) fn append_to(links: &mut Links, number: u64, bytes: &[u8]) -> Result<bool, NoMemory>
    ensures read { LinksStay links.old.items links.new.items }
    ensures others { (other : ℕ) → other ≢ number
        → waits_on other links.new.items ≡ waits_on other links.old.items }
    ensures queues { (other : ℕ) → other ≢ number
        → queue_on other links.new.items ≡ queue_on other links.old.items }
    ensures unfit { IfOk result (λ fits. fits ≡ false
        → waits_on number links.new.items ≡ waits_on number links.old.items) }
    ensures no_room { IfOk result (λ fits. fits ≡ false
        → HasNoRoom number bytes.now links.old.items) }
    ensures appends { IfOk result (λ fits. fits ≡ true → waits_on number links.new.items
        ≡ option_map (λ (waits : List ℕ). waits ++ bytes.now) (waits_on number links.old.items)) }
    ensures answers { KeepsAnswers links.old.items links.new.items }
{
    let Some(place) = place_in(links, number) else {
        return Ok(true);
    };
    let link = &mut links.list[place];
    if !link.out.has_room(bytes) {
        return Ok(false);
    }
    link.out.append(bytes)?;
    Ok(true)
}

/// Nothing has come of the message that comes next on a connection, as far as news are cut out of it.
#[tactic(auto, using(crate::proofs::steps::Staying::stays_written, crate::proofs::steps::Staying::stays_refl))]
pub(crate) fn restart(links: &mut Links, number: u64)
    ensures read { LinksStay links.old.items links.new.items }
    ensures waits { (other : ℕ)
        → waits_on other links.new.items ≡ waits_on other links.old.items }
    ensures queues { (other : ℕ)
        → queue_on other links.new.items ≡ queue_on other links.old.items }
    ensures begins { answer_at number links.new.items
        ≡ option_map at_its_beginning (answer_at number links.old.items) }
    ensures any { MayBeginAny links.old.items links.new.items }
    ensures others { (other : ℕ) → other ≢ number
        → answer_at other links.new.items ≡ answer_at other links.old.items }
{
    let Some(place) = place_in(links, number) else {
        return;
    };
    let link = &mut links.list[place];
    link.answer.restart();
}

/// Whoever carries a connection's bytes calls it so.
pub(crate) fn set_tag(links: &mut Links, number: u64, tag: usize)
    ensures named { (other : ℕ)
        → seen_at other links.new.items ≡ named_seen tag number other links.old.items }
    ensures many { length links.new.items ≡ length links.old.items }
    ensures waits { (other : ℕ)
        → waits_on other links.new.items ≡ waits_on other links.old.items }
    ensures queues { (other : ℕ)
        → queue_on other links.new.items ≡ queue_on other links.old.items }
    ensures answers { (other : ℕ)
        → answer_at other links.new.items ≡ answer_at other links.old.items }
{
    let Some(place) = place_in(links, number) else {
        return;
    };
    let link = &mut links.list[place];
    link.tag = Some(tag);
}

/// So many bytes wait on a connection no more. False where it isn't there.
#[tactic(auto, using(crate::proofs::steps::Staying::sees_written))]
pub(crate) fn forget_sent(links: &mut Links, number: u64, count: usize) -> bool
    ensures read { HoldsOnLinks links.old.items links.new.items }
    ensures many { length links.new.items ≡ length links.old.items }
    ensures answers { KeepsAnswers links.old.items links.new.items }
    ensures others { (other : ℕ) → other ≢ number
        → waits_on other links.new.items ≡ waits_on other links.old.items }
    ensures found { result ≡ is_there number links.old.items }
    ensures fewer { waits_on number links.new.items
        ≡ option_map (drop count) (waits_on number links.old.items) }
    ensures queues { queue_on number links.new.items
        ≡ option_map (without_first count) (queue_on number links.old.items) }
    ensures keeps { (other : ℕ) → other ≢ number
        → queue_on other links.new.items ≡ queue_on other links.old.items }
{
    let Some(place) = place_in(links, number) else {
        return false;
    };
    let link = &mut links.list[place];
    link.out.sent(count);
    true
}

/// A connection is open and logged in.
pub(crate) fn set_open(links: &mut Links, number: u64)
    ensures opens { (other : ℕ)
        → open_at other links.new.items ≡ opened_at number other links.old.items }
    ensures seen { (other : ℕ)
        → seen_at other links.new.items ≡ opened_seen number other links.old.items }
    ensures waits { (other : ℕ)
        → waits_on other links.new.items ≡ waits_on other links.old.items }
    ensures queues { (other : ℕ)
        → queue_on other links.new.items ≡ queue_on other links.old.items }
    ensures many { length links.new.items ≡ length links.old.items }
    ensures answers { (other : ℕ)
        → answer_at other links.new.items ≡ answer_at other links.old.items }
{
    let Some(place) = place_in(links, number) else {
        return;
    };
    let link = &mut links.list[place];
    link.is_open = true;
}
