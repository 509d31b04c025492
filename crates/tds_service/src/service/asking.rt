//! Requests: asked, sent in parts, and cancelled.
ghost use Rattle.std.specs.Prelude.{◌≡◌, ◌<◌, ◌++◌, [], ℕ, true, false, length, slice_index_or, slice_set, IfOk, IfErr, OnErr, OnOk};
ghost use Rattle.tds_client.specs.Sending.{Does as ClientDoes};
ghost use Rattle.tds_client.specs.Session.{ClientSession};
ghost use Rattle.tds_client.specs.Streams.{finished, opened, put};
ghost use Rattle.tds_service.specs.declared.seat.Seat.{Seat as CodeSeat};
ghost use Rattle.tds_service.specs.Line as line;
ghost use Rattle.tds_service.specs.Refusing.{refusal_in};
ghost use Rattle.tds_service.specs.Service as calls;
ghost use Rattle.tds_service.specs.Service.{has_number};
ghost use Rattle.tds_service.specs.Beginning.{MakesAlike};
ghost use Rattle.tds_service.specs.Index.{holders_in};
ghost use Rattle.tds_service.specs.Rising.{numbers_in};
ghost use Rattle.tds_service.specs.Sizes.{KeepsSize, sizes_in};
ghost use Rattle.tds_service.specs.Table.{Answers, DoesAt, Keeps, KeepsClients, BeginsMessage, Denies};
ghost use Rattle.tds_service.specs.Table.{RefusedBy, Steps, CancelsOut};
ghost use Rattle.tds_service.specs.Table.{puts_on, reading_by, service_in};
ghost use Rattle.tds_service.specs.Ties.{Does, DoesAll, answer_to, asked_answer, cancel_answer, finishing};
ghost use Rattle.tds_service.specs.Ties.{line_in, putting, cancel_out};

use crate::refusal::{Refusal, refused};
use crate::seat::Seat;
use crate::service::Service;
use tds_client::{Cancelled, MessageKind};

/// Which request was asked: its connection, and its number there.
#[derive(Clone, Copy, Debug, PartialEq, Eq)]
pub struct Asked {
    pub number: u64,
    pub request: u64,
}

/// The connection at this index begins a request, and is the one that was found last.
fn ask_at(
    seats: &mut [Seat],
    index: usize,
    kind: MessageKind,
    latest: &mut usize,
) -> Result<Asked, Refusal>
    requires { index < length seats.old }
    ensures ok { IfOk result (λ done. (c : CodeSeat) → c ≡ slice_index_or seats.old index c
        → (d : CodeSeat) × (seats.new ≡ slice_set seats.old index d)
        × (d.number ≡ c.number) × (d.place ≡ c.place) × (done.number ≡ c.number)
        × Does line.Ask (line_in c.connection) (line_in d.connection)
        (asked_answer c.connection done.request) [] []
        × (d.connection.client ≡ opened c.connection.client kind)) }
    ensures refused { IfErr result (λ refusal. (c : CodeSeat) → c ≡ slice_index_or seats.old index c
        → RefusedBy (refusal_in (answer_to (line_in c.connection) line.Ask)) refusal) }
    ensures err { OnErr result (seats.new ≡ seats.old) }
    ensures found { OnOk result (latest.new ≡ index) }
    ensures unfound { OnErr result (latest.new ≡ latest.old) }
    ensures keeps { (n : ℕ) → reading_by (has_number n) seats.new
        ≡ reading_by (has_number n) seats.old }
    ensures sizes { sizes_in seats.new ≡ sizes_in seats.old }
    ensures numbers { numbers_in seats.new ≡ numbers_in seats.old }
    ensures holders { holders_in seats.new ≡ holders_in seats.old }
{
    let seat = &mut seats[index];
    match seat.connection.ask(kind) {
        Ok(request) => {
            *latest = index;
            Ok(Asked {
                number: seat.number,
                request,
            })
        }
        Err(refusal) => Err(refused(refusal)),
    }
}

fn put_at(seats: &mut [Seat], index: usize, bytes: &[u8], out: &mut Vec<u8>) -> Result<u64, Refusal>
    requires { index < length seats.old }
    ensures ok { IfOk result (λ number. (c : CodeSeat) → c ≡ slice_index_or seats.old index c
        → (d : CodeSeat) × (seats.new ≡ slice_set seats.old index d)
        × (d.number ≡ c.number) × (d.place ≡ c.place) × (number ≡ c.number)
        × DoesAll (putting c.connection bytes.now) (line_in c.connection) (line_in d.connection)
        out.old.items out.new.items
        × ClientDoes (put c.connection.client bytes.now) tt d.connection.client
        out.old.items out.new.items
        × (answer_to (line_in c.connection) (line.Send false) ≡ line.Sent)) }
    ensures refused { IfErr result (λ refusal. (c : CodeSeat) → c ≡ slice_index_or seats.old index c
        → RefusedBy (refusal_in (answer_to (line_in c.connection) (line.Send false))) refusal) }
    ensures err { OnErr result (seats.new ≡ seats.old) }
    ensures nothing { OnErr result (out.new.items ≡ out.old.items) }
    ensures keeps { (n : ℕ) → reading_by (has_number n) seats.new
        ≡ reading_by (has_number n) seats.old }
    ensures sizes { sizes_in seats.new ≡ sizes_in seats.old }
    ensures numbers { numbers_in seats.new ≡ numbers_in seats.old }
    ensures holders { holders_in seats.new ≡ holders_in seats.old }
{
    let seat = &mut seats[index];
    match seat.connection.put(bytes, out) {
        Ok(()) => Ok(seat.number),
        Err(refusal) => Err(refused(refusal)),
    }
}

fn finish_at(seats: &mut [Seat], index: usize, out: &mut Vec<u8>) -> Result<u64, Refusal>
    requires { index < length seats.old }
    ensures ok { IfOk result (λ number. (c : CodeSeat) → c ≡ slice_index_or seats.old index c
        → (d : CodeSeat) × (seats.new ≡ slice_set seats.old index d)
        × (d.number ≡ c.number) × (d.place ≡ c.place) × (number ≡ c.number)
        × DoesAll (finishing c.connection) (line_in c.connection) (line_in d.connection)
        out.old.items out.new.items
        × ClientDoes (finished c.connection.client) tt d.connection.client
        out.old.items out.new.items
        × (answer_to (line_in c.connection) (line.Send true) ≡ line.Sent)) }
    ensures refused { IfErr result (λ refusal. (c : CodeSeat) → c ≡ slice_index_or seats.old index c
        → RefusedBy (refusal_in (answer_to (line_in c.connection) (line.Send true))) refusal) }
    ensures err { OnErr result (seats.new ≡ seats.old) }
    ensures nothing { OnErr result (out.new.items ≡ out.old.items) }
    ensures keeps { (n : ℕ) → reading_by (has_number n) seats.new
        ≡ reading_by (has_number n) seats.old }
    ensures sizes { sizes_in seats.new ≡ sizes_in seats.old }
    ensures numbers { numbers_in seats.new ≡ numbers_in seats.old }
    ensures holders { holders_in seats.new ≡ holders_in seats.old }
{
    let seat = &mut seats[index];
    match seat.connection.finish(out) {
        Ok(()) => Ok(seat.number),
        Err(refusal) => Err(refused(refusal)),
    }
}

fn cancel_at(
    seats: &mut [Seat],
    index: usize,
    out: &mut Vec<u8>,
) -> Result<(u64, Cancelled), Refusal>
    requires { index < length seats.old }
    ensures ok { IfOk result (λ done. (c : CodeSeat) → c ≡ slice_index_or seats.old index c
        → (d : CodeSeat) × (seats.new ≡ slice_set seats.old index d)
        × (d.number ≡ c.number) × (d.place ≡ c.place) × (done.0 ≡ c.number)
        × Does line.Cancel (line_in c.connection) (line_in d.connection)
        (cancel_answer c.connection.asked done.1) out.old.items out.new.items) }
    ensures stops { OnOk result ((c : CodeSeat) → c ≡ slice_index_or seats.old index c
        → out.new.items ≡ out.old.items ++ cancel_out c.connection.client.stage) }
    ensures refused { IfErr result (λ refusal. (c : CodeSeat) → c ≡ slice_index_or seats.old index c
        → RefusedBy (refusal_in (answer_to (line_in c.connection) line.Cancel)) refusal) }
    ensures err { OnErr result (seats.new ≡ seats.old) }
    ensures nothing { OnErr result (out.new.items ≡ out.old.items) }
    ensures keeps { (n : ℕ) → reading_by (has_number n) seats.new
        ≡ reading_by (has_number n) seats.old }
    ensures sizes { sizes_in seats.new ≡ sizes_in seats.old }
    ensures numbers { numbers_in seats.new ≡ numbers_in seats.old }
    ensures holders { holders_in seats.new ≡ holders_in seats.old }
{
    let seat = &mut seats[index];
    match seat.connection.cancel(out) {
        Ok(how) => Ok((seat.number, how)),
        Err(refusal) => Err(refused(refusal)),
    }
}

impl Service {
    /// Begins a request of this kind. Its body goes in by `put`, its end by `finish`.
    pub fn ask(&mut self, lease: u64, kind: MessageKind) -> Result<Asked, Refusal>
        ensures ok { IfOk result (λ done. Steps (calls.Ask lease) (service_in self.old)
            (service_in self.new) calls.Did done.number [] []) }
        ensures names { IfOk result (λ done. (descriptor : ℕ) × Answers (calls.Ask lease)
            (service_in self.old) (line.Asked done.request descriptor)) }
        ensures opened { OnOk result (BeginsMessage kind lease self.old self.new) }
        ensures clients { OnOk result (KeepsClients lease self.old self.new) }
        ensures refused { IfErr result (Denies (calls.Ask lease) (service_in self.old)) }
        ensures err { OnErr result (self.new ≡ self.old) }
        ensures keeps { Keeps self.old self.new }
        ensures sizes { KeepsSize self.old self.new }
        ensures makes { MakesAlike self.old self.new }
    {
        match self.find_lease(lease) {
            Some(index) => ask_at(&mut self.seats, index, kind, &mut self.latest),
            None => Err(Refusal::Unknown),
        }
    }

    /// Appends these bytes to the request. What goes out of it is appended to `out`, for the
    /// connection of the number that is answered.
    pub fn put(&mut self, lease: u64, bytes: &[u8], out: &mut Vec<u8>) -> Result<u64, Refusal>
        ensures ok { IfOk result (λ number. Steps
            (calls.Put lease (puts_on lease self.old bytes.now)) (service_in self.old)
            (service_in self.new) calls.Did number out.old.items out.new.items) }
        // Which bytes go out, and which are kept.
        ensures puts { OnOk result (DoesAt (λ (s : ClientSession). put s bytes.now) lease
            self.old self.new out.old.items out.new.items) }
        ensures clients { OnOk result (KeepsClients lease self.old self.new) }
        ensures refused { IfErr result (λ refusal. (count : ℕ)
            → Denies (calls.Put lease count) (service_in self.old) refusal) }
        ensures err { OnErr result (self.new ≡ self.old) }
        ensures nothing { OnErr result (out.new.items ≡ out.old.items) }
        ensures keeps { Keeps self.old self.new }
        ensures sizes { KeepsSize self.old self.new }
        ensures makes { MakesAlike self.old self.new }
    {
        match self.find_lease(lease) {
            Some(index) => put_at(&mut self.seats, index, bytes, out),
            None => Err(Refusal::Unknown),
        }
    }

    /// Ends the request: what is left of it goes out to `out`, and its answer is awaited.
    pub fn finish(&mut self, lease: u64, out: &mut Vec<u8>) -> Result<u64, Refusal>
        ensures ok { IfOk result (λ number. Steps
            (calls.Finish lease (puts_on lease self.old [])) (service_in self.old)
            (service_in self.new) calls.Did number out.old.items out.new.items) }
        ensures ends { OnOk result (DoesAt finished lease self.old self.new
            out.old.items out.new.items) }
        ensures clients { OnOk result (KeepsClients lease self.old self.new) }
        ensures refused { IfErr result (λ refusal. (count : ℕ)
            → Denies (calls.Finish lease count) (service_in self.old) refusal) }
        ensures err { OnErr result (self.new ≡ self.old) }
        ensures nothing { OnErr result (out.new.items ≡ out.old.items) }
        ensures keeps { Keeps self.old self.new }
        ensures sizes { KeepsSize self.old self.new }
        ensures makes { MakesAlike self.old self.new }
    {
        match self.find_lease(lease) {
            Some(index) => finish_at(&mut self.seats, index, out),
            None => Err(Refusal::Unknown),
        }
    }

    /// Cancels the request underway. One of which no packet is out is forgotten; else an attention is
    /// appended to `out`, once (MS-TDS 2.2.1.7).
    pub fn cancel(&mut self, lease: u64, out: &mut Vec<u8>) -> Result<(u64, Cancelled), Refusal>
        ensures ok { IfOk result (λ done. Steps (calls.Cancel lease) (service_in self.old)
            (service_in self.new) calls.Did done.0 out.old.items out.new.items) }
        ensures how { IfOk result (λ done. (request : ℕ) × Answers (calls.Cancel lease)
            (service_in self.old) (cancel_answer request done.1)) }
        // Of a request that is out in part an end of its type, with the next number, goes before.
        ensures stops { OnOk result (CancelsOut lease self.old out.old.items out.new.items) }
        ensures clients { OnOk result (KeepsClients lease self.old self.new) }
        ensures refused { IfErr result (Denies (calls.Cancel lease) (service_in self.old)) }
        ensures err { OnErr result (self.new ≡ self.old) }
        ensures nothing { OnErr result (out.new.items ≡ out.old.items) }
        ensures keeps { Keeps self.old self.new }
        ensures sizes { KeepsSize self.old self.new }
        ensures makes { MakesAlike self.old self.new }
    {
        match self.find_lease(lease) {
            Some(index) => cancel_at(&mut self.seats, index, out),
            None => Err(Refusal::Unknown),
        }
    }
}
