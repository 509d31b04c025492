//! An application, as the relay knows it.
ghost use Rattle.std.specs.Prelude.{◌≡◌, ◌≢◌, ◌⊎◌, ◌≤◌, ◌<◌, ◌-◌, ◌++◌, [], IfOk, None, Some, false, is_some, length, true, Bool};
ghost use Rattle.tds_front.specs.Bytes.{TakesSome};
ghost use Rattle.tds_relay.specs.declared.state.TheConstants.{MOST_HELD};
ghost use Rattle.tds_relay.specs.declared.outgoing.TheConstants.{PIECE};

use crate::NoMemory;
use crate::outgoing::{BESIDE, Outgoing, PIECE};
use crate::pool::What;
use crate::state::{Asking, MOST_HELD, Request, State};
use std::alloc::Global;
use tds_client::MessageKind;
use tds_front::laws::takes_some;
use tds_front::{Fed, Front, FrontFault, Said, Stage};
use tds_packet::{PacketSize, Reset};

#[derive(Drop)]
pub(crate) struct Application {
    alloc: Global,
    /// What whoever carries its bytes calls it.
    pub(crate) tag: usize,
    pub(crate) front: Front,
    pub(crate) out: Outgoing,
    pub(crate) state: State,
    /// How many requests it has begun.
    pub(crate) begun: u64,
    ghost lively: { TakesSome front },
}

impl Application {
    ghost use Rattle.tds_front.specs.Rules as rules;
    ghost use Rattle.tds_packet.specs.declared.status.Reset.TheVariants.{Full, KeepTransaction};
    ghost use Rattle.tds_relay.specs.Bodies.{Body, Nowhere, body_in};
    ghost use Rattle.tds_relay.specs.Asking.{waits_in};
    ghost use Rattle.tds_relay.specs.Faults.{why_of};
    ghost use Rattle.tds_relay.specs.Fronts.{own_end, puts, withdraws};
    ghost use Rattle.tds_front.specs.Bytes.{fed, new_front};
    ghost use Rattle.tds_relay.specs.Core.{AsksFor, IfOpen, IsHere, Open, end_acknowledged, asks_by, closes_for, end_hears, is_at_end, lets_go, move_stage};
    ghost use Rattle.tds_relay.specs.Machine.{hears_of_reset, is_said};
    ghost use Rattle.tds_relay.specs.Queues.{tagged, empty_queue, queue_of};
    ghost use Rattle.tds_relay.specs.Fronts.{has_no_request};
    ghost use Rattle.tds_relay.specs.Places.{begun_more, is_closed, own_asking, own_held, own_reset, took_back};
    ghost use Rattle.tds_relay.specs.Reasons.{HasGoneOut, IsUnbegun};
    ghost use Rattle.tds_relay.specs.Told.{own_room, room_to_keep};
    ghost use Rattle.tds_relay.specs.Coming.{IsDoneAs};
    ghost use Rattle.tds_relay.specs.declared.pool.coming.What.TheVariants.{Acknowledged, Finished, Goes};

    pub(crate) fn new(alloc: Global, tag: usize, size: PacketSize) -> Application
        ensures size { result.out.size ≡ size }
        ensures queue { queue_of result ≡ tagged tag (empty_queue size) }
        ensures end { own_end result ≡ Open (new_front size) false None }
        ensures nothing { ((goes : Body) → body_in (Some result) goes ≡ Nowhere)
            × (result.begun ≡ 0) }
    {
        takes_some();
        Application {
            alloc,
            tag,
            front: Front::new(size),
            out: Outgoing::new(alloc, size),
            state: State::new(),
            begun: 0,
        }
    }

    /// Takes some of these bytes. A request that begins is counted, and asks for a reset itself or doesn't; of
    /// one that is taken back no reset is told.
    pub(crate) fn feed(&mut self, piece: &[u8]) -> Result<Fed, FrontFault>
        ensures queue { queue_of self.new ≡ queue_of self.old }
        ensures front { self.new.front ≡ (fed self.old.front piece.now).front }
        ensures brings { result ≡ (fed self.old.front piece.now).brings }
        ensures within { IfOk result (λ taken. taken.count ≤ length piece.now) }
        ensures some { IfOk result (λ taken. 1 ≤ length piece.now → 1 ≤ taken.count) }
        ensures asks { IfOk result (λ taken. is_closed self.old ≡ false → own_reset self.new
            ≡ asks_by taken.said (own_reset self.old)) }
        ensures counts { IfOk result (λ taken. self.new.begun
            ≡ begun_more taken.said self.old.begun) }
        ensures room { room_to_keep self.new ≡ room_to_keep self.old }
        ensures withdrawn { took_back self.new ≡ took_back self.old }
        ensures over { is_closed self.new ≡ is_closed self.old }
        ensures body { (goes : Body) → body_in (Some self.new) goes ≡ body_in (Some self.old) goes }
    {
        takes_some();
        let fed = self.front.feed(piece)?;
        match fed.said {
            Said::Begin { reset, .. } => {
                self.begun = self.begun.saturating_add(1);
                self.state.set_reset(reset);
            }
            Said::Forget { .. } | Said::Acknowledge => self.state.set_reset(None),
            _ => {}
        }
        Ok(fed)
    }

    /// Whether it waits with a request that asks for a reset but for the transaction.
    pub(crate) fn asks_to_keep(&self) -> bool
        ensures asks { result ≡ true → AsksFor KeepTransaction (Some (own_end self.now)) }
        ensures not { result ≡ false → (waits_in (own_asking self.now) ≡ None)
            ⊎ (own_reset self.now ≢ Some KeepTransaction) }
    {
        matches!(self.state.asking(), Asking::Waits { .. })
            && matches!(self.state.reset(), Some(Reset::KeepTransaction))
    }

    /// What is kept of its request.
    pub(crate) fn held(&self) -> &[u8]
        ensures { result.now ≡ own_held self.now }
    {
        self.state.held()
    }

    /// How many bytes of it may be read, so that what is kept of them may be, and what they are answered
    /// here. An attention for what the server has is answered there.
    pub(crate) fn room(&self) -> usize
        ensures most { result ≤ PIECE }
        ensures is { result ≡ own_room self.now }
    {
        let room = self.room_to_keep().min(PIECE);
        match self.front.stage() {
            Stage::Underway { gone: true } | Stage::Stopping => room,
            _ => room.min(self.out.attentions()),
        }
    }

    /// How many more bytes of its request may be kept: no more than fit on a connection with nothing to send.
    fn room_to_keep(&self) -> usize
        ensures most { result ≤ MOST_HELD - length (own_held self.now) }
        ensures is { result ≡ room_to_keep self.now }
    {
        let most = self.out.most().saturating_sub(BESIDE).min(MOST_HELD);
        most.saturating_sub(self.state.held().len())
    }

    /// Keeps these bytes of its request, which waits and is whole with them or not. False: too many.
    pub(crate) fn keep(&mut self, bytes: &[u8], whole: bool) -> Result<bool, NoMemory>
        ensures queue { queue_of self.new ≡ queue_of self.old }
        ensures end { own_end self.new ≡ own_end self.old }
        ensures over { is_closed self.new ≡ is_closed self.old }
        ensures keeps { IfOk result (λ is. is ≡ true → (kind : MessageKind) (was : Bool)
            → own_asking self.old ≡ Asking.Waits kind was
            → (own_asking self.new ≡ Asking.Waits kind whole)
            × (own_held self.new ≡ own_held self.old ++ bytes.now)) }
        ensures long { IfOk result (λ is. is ≡ false → room_to_keep self.old < length bytes.now) }
    {
        if bytes.len() > self.room_to_keep() {
            return Ok(false);
        }
        if let State::Open(open) = &mut self.state {
            if let Request::Waits(waiting) = &mut open.request {
                waiting.held.extend_from_slice(bytes)?;
                waiting.whole = whole;
            }
        }
        Ok(true)
    }

    /// A packet of its answer has come: it is told of the reset that it asked for, unless it took that back.
    pub(crate) fn goes_on(&mut self)
        ensures queue { queue_of self.new ≡ queue_of self.old }
        ensures end { own_end self.new ≡ end_hears (own_end self.old) }
        ensures body { (goes : Body) → body_in (Some self.new) goes ≡ body_in (Some self.old) goes }
    {
        if !self.state.is_withdrawn() {
            self.state.set_reset(None);
        }
    }

    /// What goes on of its request is done. One that waits hasn't been asked, and stays.
    fn end_request(&mut self)
        ensures queue { queue_of self.new ≡ queue_of self.old }
        ensures end { own_end self.new ≡ own_end self.old }
        ensures body { IsDoneAs Finished self.old self.new }
    {
        if matches!(self.state.asking(), Asking::Goes) {
            self.state.set_request(Request::Nothing);
        }
    }

    /// Its request has its answer.
    pub(crate) fn answered(&mut self)
        ensures queue { queue_of self.new ≡ queue_of self.old }
        ensures end { own_end self.new ≡ move_stage rules.answered (end_hears (own_end self.old)) }
        ensures body { IsDoneAs Finished self.old self.new }
    {
        self.end_request();
        self.goes_on();
        self.front.answered();
    }

    /// Its attention is acknowledged; or what it took back is (true), and its next request may go on.
    pub(crate) fn acknowledged(&mut self) -> bool
        ensures queue { queue_of self.new ≡ queue_of self.old }
        ensures end { own_end self.new ≡ end_acknowledged (end_hears (own_end self.old)) }
        ensures body { IsDoneAs Acknowledged self.old self.new }
        ensures silent { result ≡ true → is_said Acknowledged (Some (own_end self.old)) ≡ false }
        ensures resumes { result ≡ true → took_back self.old ≡ true }
    {
        if self.state.is_withdrawn() {
            self.state.set_withdrawn(false);
            return true;
        }
        self.state.set_reset(None);
        self.front.acknowledged();
        self.end_request();
        false
    }

    /// Something of its request has gone on.
    pub(crate) fn went_on(&mut self)
        ensures queue { queue_of self.new ≡ queue_of self.old }
        ensures end { own_end self.new ≡ move_stage rules.request_went_on (own_end self.old) }
        ensures body { (goes : Body) → body_in (Some self.new) goes ≡ body_in (Some self.old) goes }
    {
        self.front.went_on();
    }

    /// It took its request back, of which something has gone on.
    pub(crate) fn withdraw(&mut self)
        ensures queue { queue_of self.new ≡ queue_of self.old }
        ensures end { own_end self.new ≡ withdraws (own_end self.old) }
        ensures body { (goes : Body) → body_in (Some self.new) goes ≡ body_in (Some self.old) goes }
    {
        self.state.set_withdrawn(true);
    }

    /// Its connection is let go, and with it what it took back there.
    pub(crate) fn let_go(&mut self)
        ensures queue { queue_of self.new ≡ queue_of self.old }
        ensures end { own_end self.new ≡ lets_go (own_end self.old) }
        ensures body { (goes : Body) → body_in (Some self.new) goes ≡ body_in (Some self.old) goes }
    {
        self.state.set_withdrawn(false);
    }

    /// Nothing more of it is taken, for this. Whoever is to be closed already is so for what was first.
    pub(crate) fn close(&mut self, why: Option<FrontFault>)
        ensures queue { queue_of self.new ≡ queue_of self.old }
        ensures end { own_end self.new ≡ closes_for why (own_end self.old) }
        ensures tag { self.new.tag ≡ self.old.tag }
    {
        if !self.state.is_over() {
            self.state = State::Over(why);
        }
    }

    /// What it did that the protocol doesn't allow, where it is to be closed for that.
    pub(crate) fn fault(&self) -> Option<FrontFault>
        ensures { result ≡ why_of (Some (own_end self.now)) }
    {
        self.state.fault()
    }

    /// Whether its request waits.
    pub(crate) fn waits(&self) -> bool
        ensures { result ≡ is_some (waits_in (own_asking self.now)) }
    {
        matches!(self.state.asking(), Asking::Waits { .. })
    }

    /// Whether bytes of its request may be put, and its end: one has begun, or is whole.
    pub(crate) fn may_put(&self, whole: bool) -> bool
        ensures begun { result ≡ true → IfOpen (puts whole) (Some (own_end self.now)) }
        ensures unbegun { result ≡ false → IfOpen (IsUnbegun whole) (Some (own_end self.now)) }
    {
        match self.front.stage() {
            Stage::Quiet => false,
            Stage::Receiving { .. } => !whole,
            Stage::Underway { .. } => true,
            Stage::Stopping => false,
            Stage::Broken(_) => false,
        }
    }

    /// Whether its request asks for a full reset, of which it hasn't been told.
    pub(crate) fn asks_full(&self) -> bool
        ensures { result ≡ true → AsksFor Full (Some (own_end self.now)) }
    {
        matches!(self.state.reset(), Some(Reset::Full))
    }

    /// Whether it asks for one that keeps its transaction.
    pub(crate) fn asks_kept(&self) -> bool
        ensures asks { result ≡ true → AsksFor KeepTransaction (Some (own_end self.now)) }
        ensures not { result ≡ false → own_reset self.now ≢ Some KeepTransaction }
    {
        matches!(self.state.reset(), Some(Reset::KeepTransaction))
    }

    /// Whether nothing of its request has gone on, and no attention.
    pub(crate) fn has_nothing_out(&self) -> bool
        ensures here { result ≡ true → IfOpen IsHere (Some (own_end self.now)) }
        ensures out { result ≡ false → IfOpen HasGoneOut (Some (own_end self.now)) }
    {
        match self.front.stage() {
            Stage::Quiet => true,
            Stage::Receiving { gone, .. } => !gone,
            Stage::Underway { gone } => !gone,
            Stage::Stopping => false,
            Stage::Broken(_) => false,
        }
    }

    /// Whether it asks nothing, took nothing back that isn't acknowledged, and was told of each reset.
    pub(crate) fn is_at_end(&self) -> bool
        ensures { result ≡ is_at_end (Some (own_end self.now)) }
    {
        if self.state.is_over() {
            return false;
        }
        match self.front.stage() {
            Stage::Quiet => !self.state.is_withdrawn() && self.state.reset().is_none(),
            Stage::Receiving { .. } => false,
            Stage::Underway { .. } => false,
            Stage::Stopping => false,
            Stage::Broken(_) => false,
        }
    }

    /// Whether no request of it waits, and none goes on.
    pub(crate) fn has_no_request(&self) -> bool
        ensures { result ≡ has_no_request (Some self.now) }
    {
        matches!(self.state.asking(), Asking::Nothing)
    }

    /// Whether it is told of a reset with a packet of which this came, if it hears that: its request asks for
    /// one, and this is the first one of its answer. What only acknowledges an attention is none.
    pub(crate) fn is_told(&self, what: What) -> bool
        ensures { is_said Goes (Some (own_end self.now)) ≡ true
            → result ≡ hears_of_reset what (Some (own_end self.now)) }
    {
        match what {
            What::Goes | What::Finished | What::Closed => self.state.reset().is_some(),
            What::Acknowledged => false,
        }
    }

    /// Whether it hears what its connection answers: it isn't to be closed, and hasn't taken its request back.
    pub(crate) fn hears(&self) -> bool
        ensures { result ≡ is_said Goes (Some (own_end self.now)) }
    {
        !self.state.is_over() && !self.state.is_withdrawn()
    }

    /// Its request goes on from now on. What was kept of it.
    pub(crate) fn take_held(&mut self) -> Vec<u8>
        ensures held { result.items ≡ own_held self.old }
        ensures queue { queue_of self.new ≡ queue_of self.old }
        ensures end { own_end self.new ≡ own_end self.old }
        ensures asking { is_closed self.new ≡ false → own_asking self.new ≡ Asking.Goes }
        ensures body { (is_closed self.new ≡ is_closed self.old) × (own_held self.new ≡ []) }
    {
        self.state.take_held(self.alloc)
    }

    /// Nothing is kept of its request any more, which is this now.
    pub(crate) fn forget(&mut self, asking: Asking)
        ensures queue { queue_of self.new ≡ queue_of self.old }
        ensures end { own_end self.new ≡ own_end self.old }
        ensures asking { is_closed self.new ≡ false → own_asking self.new ≡ asking }
        ensures body { (is_closed self.new ≡ is_closed self.old) × (own_held self.new ≡ []) }
    {
        self.state.set_request(Request::new(self.alloc, asking));
    }
}
