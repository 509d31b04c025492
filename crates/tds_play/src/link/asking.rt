//! What a caller does with a request: it asks, sends and cancels.
ghost use Rattle.std.specs.Prelude.{[], ◌∷◌, ◌≡◌, ◌≤◌, ◌-◌, ℕ, true, false, is_none, Option, None, Some, Ok, IfOk, OnOk, ◌++◌, is_ok};
ghost use Rattle.tds_client.specs.Session.{unless_idle};
ghost use Rattle.tds_packet.specs.declared.kind.Direction.TheVariants.{ToServer};
ghost use Rattle.tds_play.specs.Failures.{FailsAs, HasNoFailure, Send};
ghost use Rattle.tds_play.specs.Links.{IsAskedOn, IsRetired, recounted};
ghost use Rattle.tds_ends.specs.Refines.{cancel_outcome};
ghost use Rattle.tds_play.specs.Acts.{cancelled_as, unless_lost};
ghost use Rattle.tds_ends.specs.Refines.{send_outcome};
ghost use Rattle.tds_play.specs.Plays.{RefinesAct, RepresentsConnection, after};
ghost use Rattle.tds_play.specs.Seats.{seated};
ghost use Rattle.tds_play.specs.Seen.{done_as};
ghost use Rattle.tds_world.specs.declared.report.Place.{Place};
ghost use Rattle.tds_world.specs.Caller.{cancels};
ghost use Rattle.tds_world.specs.Caller as model;
ghost use Rattle.tds_world.specs.Connection.{Connection, phase, up_underway};
ghost use Rattle.tds_world.specs.Events.{sends_in};
ghost use Rattle.tds_world.specs.Pool.{Does};
ghost use Rattle.tds_client.specs.Sending.{cancelled, sent, started};
ghost use Rattle.tds_world.specs.declared.outcome.Outcome.TheVariants.{Asked, Refused};
ghost use Rattle.tds_world.specs.declared.outcome.Outcome.TheVariants as outcome;
ghost use Rattle.tds_world.specs.declared.outcome.Refusal.TheVariants.{NotIdle, NotSending};
ghost use Rattle.tds_play.specs.Pipe.{Pipe};
ghost use Rattle.tds_play.specs.Reads.{ReadsNoMore};
ghost use Rattle.tds_play.specs.Ties.{IsTied, IsUnasked, KeepsTies};

use super::acts::{done, refused};
use super::{EventDone, Link};
use crate::NoMemory;
use crate::carrier::EventCarrier;
use crate::request::Record;
use std::alloc::{AllocError, Global};
use tds_client::{Cancelled, Client, ClientRefusal, ClientState, Sent};
use tds_ends::laws::{cancels_alike, pool_is_unseen, sends_alike, sends_append, the_other_stays};
use tds_packet::Direction;
use tds_request::Request;
use tds_session::Engine;
use tds_world::laws::phases_tell;
use tds_world::{CancelOutcome, Outcome, Refusal, SendOutcome};

/// The client appends the request's next packet, if one is left.
fn put_next(client: &mut Client, out: &mut Vec<u8>) -> Result<Option<SendOutcome>, NoMemory>
    ensures refused { is_ok (sent client.old) ≡ false → (result ≡ Ok None)
        × (client.new ≡ client.old) × (out.new.items ≡ out.old.items) }
    ensures sent { IfOk (sent client.old) (λ e. IfOk result (λ o.
        (o ≡ Some (send_outcome e.answer))
        × (client.new ≡ e.session)
        × (out.new.items ≡ out.old.items ++ e.bytes))) }
    ensures columns { client.new.columns ≡ client.old.columns }
{
    match client.send(out) {
        Ok(Sent::More) => Ok(Some(SendOutcome::More)),
        Ok(Sent::Last) => Ok(Some(SendOutcome::Last)),
        Err(ClientRefusal::Memory) => Err(AllocError),
        Err(_) => Ok(None),
    }
}

/// The client appends what goes out for a cancel.
fn put_cancel(client: &mut Client, out: &mut Vec<u8>) -> Result<Cancelled, NoMemory>
    ensures cancelled { IfOk (cancelled client.old) (λ e. IfOk result (λ answer.
        (answer ≡ e.answer) × (client.new ≡ e.session)
        × (out.new.items ≡ out.old.items ++ e.bytes))) }
    ensures columns { client.new.columns ≡ client.old.columns }
{
    match client.cancel(out) {
        Ok(cancelled) => Ok(cancelled),
        Err(ClientRefusal::Memory) => Err(AllocError),
        // A connection whose client broke is cut, so this does not come.
        Err(_) => Ok(Cancelled::Nothing),
    }
}

/// What a cancel comes to.
fn as_outcome(cancelled: Cancelled) -> CancelOutcome
    ensures { result ≡ cancel_outcome cancelled }
{
    match cancelled {
        Cancelled::Nothing => CancelOutcome::Nothing,
        Cancelled::Already => CancelOutcome::Already,
        Cancelled::Unsent => CancelOutcome::Unsent,
        Cancelled::Asked => CancelOutcome::Asked,
    }
}

impl<E: Engine + Drop> Link<E> {
    /// A request is asked. None of it goes out yet.
    pub(super) fn ask(
        &mut self,
        alloc: Global,
        client: &mut Client,
        number: u32,
        lease: u32,
        request: &Request,
    ) -> Result<EventDone, NoMemory>
        ensures refused { is_none (unless_idle client.old.stage) ≡ false
            → (result ≡ Ok (done_as (Refused NotIdle))) × (self.new ≡ self.old)
            × (client.new ≡ client.old) }
        ensures whole { IfOk result (λ done. done.lost ≡ false) }
        ensures asked { is_none (unless_idle client.old.stage) ≡ true → IfOk result (λ done.
            (done ≡ done_as (Asked number)) × (client.new ≡ started client.old request.now)
            × IsAskedOn lease client.old.heard.mark self.old self.new) }
        ensures number { self.new.number ≡ self.old.number }
        ensures tied { (pipe : Option Pipe) → IsTied self.old pipe → IsTied self.new pipe }
        ensures still { (pipe : Option Pipe)
            → OnOk result (ReadsNoMore self.old self.new pipe pipe) }
        ensures columns { client.new.columns ≡ client.old.columns }
    {
        if !matches!(client.state(), ClientState::Idle) {
            return Ok(refused(Refusal::NotIdle));
        }
        let mark = client.reset_mark();
        // An idle client refuses only where a growth was.
        if client.start(request).is_err() {
            return Err(AllocError);
        }
        self.retire_newest()?;
        self.current = Some(Record::new(alloc, lease, mark));
        Ok(done(Outcome::Asked(number)))
    }

    /// The newest request is put by those before it.
    pub(super) fn retire_newest(&mut self) -> Result<(), NoMemory>
        ensures value { OnOk result (IsRetired self.old self.new) }
        ensures number { self.new.number ≡ self.old.number }
        ensures tied { (pipe : Option Pipe) → IsTied self.old pipe → IsTied self.new pipe }
        ensures still { (pipe : Option Pipe)
            → OnOk result (ReadsNoMore self.old self.new pipe pipe) }
    {
        if let Some(settled) = self.current.take() {
            self.past.push(settled)?;
        }
        Ok(())
    }

    /// The request's next packet goes out.
    pub(super) fn send<C: EventCarrier>(
        &mut self,
        alloc: Global,
        carrier: &mut C,
        client: &mut Client,
    ) -> Result<EventDone, NoMemory>
        requires live { self.old.is_cut ≡ false }
        requires tied { IsTied self.old (C.pipes carrier.old self.old.number) }
        requires unasked { IsUnasked C.is_told (C.began carrier.old) (C.pipes carrier.old)
            self.old.number }
        ensures number { self.new.number ≡ self.old.number }
        ensures ties { OnOk result (KeepsTies self.old.number self.new (C.pipes carrier.old)
            (C.pipes carrier.new) (C.began carrier.old) (C.began carrier.new)) }
        ensures still { OnOk result (ReadsNoMore self.old self.new
            (C.pipes carrier.old self.old.number) (C.pipes carrier.new self.old.number)) }
        ensures columns { client.new.columns ≡ client.old.columns }
        ensures refused { is_ok (sent client.old) ≡ false
            → (result ≡ Ok (done_as (Refused NotSending))) × (self.new ≡ self.old)
            × (client.new ≡ client.old) × (carrier.new ≡ carrier.old) }
        ensures sent { IfOk (sent client.old) (λ e. IfOk result (λ done.
            (done.outcome ≡ outcome.Sent (send_outcome e.answer)) × (client.new ≡ e.session)
            × (self.new ≡ unless_lost done.lost
            (recounted self.new.to_server self.new.to_client self.old)))) }
        ensures failed { HasNoFailure (C.pipes carrier.old self.old.number)
            → IfOk result (λ done. FailsAs (Send ToServer ∷ []) done self.new
            (C.pipes carrier.new self.old.number)) }
        // A connection that stands for one of the model stands for what the same send makes of it.
        ensures refines { (size : ℕ) (engine : E) (p : Place) (c : Connection)
            → RepresentsConnection self.old.number size engine self.old (seated p client.old)
            (C.pipes carrier.old self.old.number) c
            → up_underway (after (sends_in (phase c) (size - 8) c.current c) c)
            ≤ 18446744073709551615
            → IfOk result (λ done. RefinesAct self.old.number size engine done self.new
            (seated p client.new) (C.pipes carrier.new self.old.number) (sends_in (phase c)
            (size - 8) c.current c) c) }
    {
        sends_alike();
        sends_append();
        the_other_stays::<E>();
        phases_tell();
        let mut out = Vec::new(alloc);
        let Some(sent) = put_next(client, &mut out)? else {
            return Ok(refused(Refusal::NotSending));
        };
        let lost = self.hand_over(carrier, Direction::ToServer, out.as_slice())?;
        Ok(self.end(carrier, Outcome::Sent(sent), lost))
    }

    /// Cancels the request underway, and appends what goes out for it.
    pub(super) fn cancel_request(
        &mut self,
        client: &mut Client,
        out: &mut Vec<u8>,
    ) -> Result<CancelOutcome, NoMemory>
        ensures number { self.new.number ≡ self.old.number }
        ensures tied { (pipe : Option Pipe) → IsTied self.old pipe → IsTied self.new pipe }
        ensures still { (pipe : Option Pipe)
            → OnOk result (ReadsNoMore self.old self.new pipe pipe) }
        ensures columns { client.new.columns ≡ client.old.columns }
        ensures live { self.new.is_cut ≡ self.old.is_cut }
        ensures cancelled { IfOk (cancelled client.old) (λ e. IfOk result (λ outcome.
            (outcome ≡ cancel_outcome e.answer) × (client.new ≡ e.session)
            × (self.new ≡ cancelled_as e.answer self.old)
            × (out.new.items ≡ out.old.items ++ e.bytes))) }
    {
        let cancelled = put_cancel(client, out)?;
        self.note_cancel(cancelled);
        Ok(as_outcome(cancelled))
    }

    /// The newest request is never sent, or its attention is out.
    fn note_cancel(&mut self, cancelled: Cancelled)
        ensures { self.new ≡ cancelled_as cancelled self.old }
    {
        let is_out = match cancelled {
            Cancelled::Nothing | Cancelled::Already => return,
            Cancelled::Unsent => false,
            Cancelled::Asked => true,
        };
        if let Some(record) = &mut self.current {
            record.cancel(is_out);
        }
    }

    /// The request underway is cancelled.
    pub(super) fn cancel<C: EventCarrier>(
        &mut self,
        alloc: Global,
        carrier: &mut C,
        client: &mut Client,
    ) -> Result<EventDone, NoMemory>
        requires live { self.old.is_cut ≡ false }
        requires tied { IsTied self.old (C.pipes carrier.old self.old.number) }
        requires unasked { IsUnasked C.is_told (C.began carrier.old) (C.pipes carrier.old)
            self.old.number }
        ensures number { self.new.number ≡ self.old.number }
        ensures ties { OnOk result (KeepsTies self.old.number self.new (C.pipes carrier.old)
            (C.pipes carrier.new) (C.began carrier.old) (C.began carrier.new)) }
        ensures still { OnOk result (ReadsNoMore self.old self.new
            (C.pipes carrier.old self.old.number) (C.pipes carrier.new self.old.number)) }
        ensures columns { client.new.columns ≡ client.old.columns }
        ensures cancelled { IfOk (cancelled client.old) (λ e. IfOk result (λ done.
            (done.outcome ≡ outcome.Cancel (cancel_outcome e.answer)) × (client.new ≡ e.session)
            × (self.new ≡ unless_lost done.lost
            (recounted self.new.to_server self.new.to_client
            (cancelled_as e.answer self.old))))) }
        ensures failed { HasNoFailure (C.pipes carrier.old self.old.number)
            → IfOk result (λ done. FailsAs (Send ToServer ∷ []) done self.new
            (C.pipes carrier.new self.old.number)) }
        // A connection that stands for one of the model stands for what the same cancel makes of
        // it.
        ensures refines { (size : ℕ) (engine : E) (p : Place) (c : Connection)
            → RepresentsConnection self.old.number size engine self.old (seated p client.old)
            (C.pipes carrier.old self.old.number) c
            → up_underway (cancels c) ≤ 18446744073709551615
            → IfOk result (λ done. RefinesAct self.old.number size engine done self.new
            (seated p client.new) (C.pipes carrier.new self.old.number)
            (Does (outcome.Cancel (model.cancel_outcome (phase c))) (cancels c)) c) }
    {
        cancels_alike();
        sends_append();
        the_other_stays::<E>();
        pool_is_unseen::<E>();
        phases_tell();
        let mut out = Vec::new(alloc);
        let cancelled = self.cancel_request(client, &mut out)?;
        let lost = self.hand_over(carrier, Direction::ToServer, out.as_slice())?;
        Ok(self.end(carrier, Outcome::Cancel(cancelled), lost))
    }
}
