//! What comes on a connection.
ghost use Rattle.std.specs.Prelude.{◌≡◌, ◌≢◌, ◌<◌, ◌≤◌, ◌+◌, ◌++◌, ℕ, List, [], true, false, length, Some, slice_index_or, slice_set, vec_len};
ghost use Rattle.std.specs.Prelude.{vec_capacity, IfOk, IfErr, OnOk, OnErr};
ghost use Rattle.tds_listen.specs.Hearing.{tokens_in};
ghost use Rattle.tds_wire.specs.Reading.{Parser};
ghost use Rattle.tds_wire.specs.declared.told.Token.{Token};
ghost use Rattle.tds_service.specs.declared.seat.Seat.{Seat as CodeSeat};
ghost use Rattle.tds_service.specs.Line as line;
ghost use Rattle.tds_service.specs.Packets.{Reads, noted, outcome_answer, packet_part, told_of_part};
ghost use Rattle.tds_service.specs.Service as calls;
ghost use Rattle.tds_service.specs.Service.{drained, find_by, has_number, lease_in};
ghost use Rattle.tds_service.specs.Beginning.{MakesAlike};
ghost use Rattle.tds_service.specs.Index.{holders_in};
ghost use Rattle.tds_service.specs.Rising.{numbers_in};
ghost use Rattle.tds_service.specs.Sizes.{KeepsSize, sizes_in};
ghost use Rattle.tds_service.specs.Table.{Comes, ComesUntold, IsNewest, KeepsClientsOff, KeepsOthers};
ghost use Rattle.tds_service.specs.Table.{ReadsAt};
ghost use Rattle.tds_service.specs.Table.{Denies, place_of};
ghost use Rattle.tds_service.specs.Table.{reading_by, reading_on, service_in};
ghost use Rattle.tds_service.specs.Ties.{Hears, line_in};

use crate::hearing::hear_packet;
use crate::outcome::Came;
use crate::refusal::Refusal;
use crate::seat::Seat;
use crate::service::Service;
use tds_wire::Token;

/// Makes room for what may be told of so many bytes, where an answer is being read and the caller
/// `tells`.
#[inline(always)]
fn make_room(seat: &Seat, count: usize, tells: bool, told: &mut Vec<Token>) -> Result<(), Refusal>
    ensures room { OnOk result (tells ≡ true
        → (line_in seat.now.connection).stage ≡ line.Reading
        → vec_len told.new + count ≤ vec_capacity told.new) }
    ensures refused { IfErr result (λ refusal. (refusal ≡ Refusal.Memory) × (tells ≡ true)
        × ((line_in seat.now.connection).stage ≡ line.Reading)) }
    ensures same { told.new.items ≡ told.old.items }
{
    if !tells {
        return Ok(());
    }
    if !seat.is_reading() {
        return Ok(());
    }
    match told.reserve(count) {
        Ok(()) => Ok(()),
        Err(_) => Err(Refusal::Memory),
    }
}

/// The connection at this index hears a packet's data, and is the one that was found last.
#[inline(always)]
fn came_at(
    seats: &mut [Seat],
    index: usize,
    bytes: &[u8],
    ends: bool,
    tells: bool,
    told: &mut Vec<Token>,
    latest: &mut usize,
) -> Result<Came, Refusal>
    requires { index < length seats.old }
    ensures ok { IfOk result (λ came. (c : CodeSeat) → c ≡ slice_index_or seats.old index c
        → (d : CodeSeat) × (seats.new ≡ slice_set seats.old index d) × (d.number ≡ c.number)
        × (place_of d.place ≡ drained (place_of c.place) (line_in d.connection).stage)
        × (came.lease ≡ lease_in (place_of c.place)) × (came.request ≡ c.connection.asked)
        × Hears (packet_part c.connection.parser bytes.now ends) (line_in c.connection)
        (line_in d.connection) (outcome_answer came.request came.outcome)
        (told_of_part (line_in c.connection)
        (packet_part c.connection.parser bytes.now ends))
        × (told.new.items ≡ told.old.items ++ noted tells (told_of_part (line_in c.connection)
        (packet_part c.connection.parser bytes.now ends)))) }
    ensures reads { IfOk result (λ came. (c : CodeSeat) → c ≡ slice_index_or seats.old index c
        → (d : CodeSeat) × (seats.new ≡ slice_set seats.old index d) × (d.number ≡ c.number)
        × Reads came.outcome ends (tokens_in c.connection.parser bytes.now).stop
        d.connection.parser) }
    ensures others { (n : ℕ) (c : CodeSeat) → c ≡ slice_index_or seats.old index c → n ≢ c.number
        → reading_by (has_number n) seats.new ≡ reading_by (has_number n) seats.old }
    ensures refused { IfErr result (λ refusal. (refusal ≡ Refusal.Memory) × (tells ≡ true)
        × ((c : CodeSeat) → c ≡ slice_index_or seats.old index c
        → (line_in c.connection).stage ≡ line.Reading)) }
    ensures err { OnErr result (seats.new ≡ seats.old) }
    ensures untold { OnErr result (told.new.items ≡ told.old.items) }
    ensures found { OnOk result (latest.new ≡ index) }
    ensures unfound { OnErr result (latest.new ≡ latest.old) }
    ensures sizes { sizes_in seats.new ≡ sizes_in seats.old }
    ensures numbers { numbers_in seats.new ≡ numbers_in seats.old }
    ensures holders { holders_in seats.new ≡ holders_in seats.old }
{
    let seat = &mut seats[index];
    if let Err(refusal) = make_room(seat, bytes.len(), tells, told) {
        return Err(refusal);
    }
    let lease = seat.lease();
    let request = seat.connection.asked();
    let outcome = hear_packet(&mut seat.connection, bytes, ends, tells, told);
    seat.settle();
    *latest = index;
    Ok(Came {
        lease,
        request,
        outcome,
    })
}

impl Service {
    /// A packet's data came, of which what may be told is appended if the caller `tells`.
    #[inline(always)]
    fn came_by(
        &mut self,
        number: u64,
        bytes: &[u8],
        ends: bool,
        tells: bool,
        told: &mut Vec<Token>,
    ) -> Result<Came, Refusal>
        ensures ok { IfOk result (λ came. (r : Parser) × (reading_on number self.old ≡ Some r)
            × (tokens : List Token) × Comes (service_in self.old) (service_in self.new) number
            (packet_part r bytes.now ends) came.lease came.request
            (outcome_answer came.request came.outcome) [] tokens
            × (told.new.items ≡ told.old.items ++ noted tells tokens)) }
        ensures reads { IfOk result (λ came. (r : Parser) → reading_on number self.old ≡ Some r
            → (next : Parser) × (reading_on number self.new ≡ Some next)
            × Reads came.outcome ends (tokens_in r bytes.now).stop next) }
        ensures asked { IfOk result (λ came. IsNewest number came.request (service_in self.old)) }
        ensures others { KeepsOthers number self.old self.new }
        ensures clients { OnOk result (KeepsClientsOff number self.old self.new) }
        ensures refused { IfErr result (λ refusal. (r : Parser)
            → Denies (calls.Came number (packet_part r bytes.now ends)) (service_in self.old)
            refusal) }
        ensures unknown { IfErr result (λ refusal. tells ≡ false → refusal ≡ Refusal.Unknown) }
        ensures memory { IfErr result (λ refusal. refusal ≡ Refusal.Memory
            → ReadsAt (find_by (has_number number) (service_in self.old).seats)) }
        ensures err { OnErr result (self.new ≡ self.old) }
        ensures untold { OnErr result (told.new.items ≡ told.old.items) }
        ensures sizes { KeepsSize self.old self.new }
        ensures makes { MakesAlike self.old self.new }
    {
        match self.find_number(number) {
            Some(index) => {
                let latest = &mut self.latest;
                came_at(&mut self.seats, index, bytes, ends, tells, told, latest)
            }
            None => Err(Refusal::Unknown),
        }
    }

    /// The data of a packet of type `04` came on the connection of this number, which ends its message
    /// or not (MS-TDS 2.2.3.1.2). What may be told is appended to `told`, and belongs to the request
    /// and the lease that are answered; it stands where `Token` says, counted from the message's first
    /// byte. Of a packet with a fault nothing is told.
    ///
    /// Memory is taken only while an answer is read, for as many tokens as there are bytes.
    pub fn came(
        &mut self,
        number: u64,
        bytes: &[u8],
        ends: bool,
        told: &mut Vec<Token>,
    ) -> Result<Came, Refusal>
        ensures ok { IfOk result (λ came. (r : Parser) × (reading_on number self.old ≡ Some r)
            × Comes (service_in self.old) (service_in self.new) number
            (packet_part r bytes.now ends) came.lease came.request
            (outcome_answer came.request came.outcome) told.old.items told.new.items) }
        ensures reads { IfOk result (λ came. (r : Parser) → reading_on number self.old ≡ Some r
            → (next : Parser) × (reading_on number self.new ≡ Some next)
            × Reads came.outcome ends (tokens_in r bytes.now).stop next) }
        ensures asked { IfOk result (λ came. IsNewest number came.request (service_in self.old)) }
        ensures others { KeepsOthers number self.old self.new }
        ensures clients { OnOk result (KeepsClientsOff number self.old self.new) }
        ensures refused { IfErr result (λ refusal. (r : Parser)
            → Denies (calls.Came number (packet_part r bytes.now ends)) (service_in self.old)
            refusal) }
        ensures memory { IfErr result (λ refusal. refusal ≡ Refusal.Memory
            → ReadsAt (find_by (has_number number) (service_in self.old).seats)) }
        ensures err { OnErr result (self.new ≡ self.old) }
        ensures untold { OnErr result (told.new.items ≡ told.old.items) }
        ensures sizes { KeepsSize self.old self.new }
        ensures makes { MakesAlike self.old self.new }
    {
        self.came_by(number, bytes, ends, true, told)
    }

    /// The same for a caller that wants no tokens: of what comes it is told the outcome, and whose it
    /// is. It takes no memory, and only a number that isn't known is refused.
    pub fn heard(&mut self, number: u64, bytes: &[u8], ends: bool) -> Result<Came, Refusal>
        ensures ok { IfOk result (λ came. (r : Parser) × (reading_on number self.old ≡ Some r)
            × ComesUntold (service_in self.old) (service_in self.new) number
            (packet_part r bytes.now ends) came.lease came.request
            (outcome_answer came.request came.outcome)) }
        ensures reads { IfOk result (λ came. (r : Parser) → reading_on number self.old ≡ Some r
            → (next : Parser) × (reading_on number self.new ≡ Some next)
            × Reads came.outcome ends (tokens_in r bytes.now).stop next) }
        ensures asked { IfOk result (λ came. IsNewest number came.request (service_in self.old)) }
        ensures others { KeepsOthers number self.old self.new }
        ensures clients { OnOk result (KeepsClientsOff number self.old self.new) }
        ensures refused { IfErr result (λ refusal. (r : Parser)
            → Denies (calls.Came number (packet_part r bytes.now ends)) (service_in self.old)
            refusal) }
        ensures unknown { IfErr result (λ refusal. refusal ≡ Refusal.Unknown) }
        ensures err { OnErr result (self.new ≡ self.old) }
        ensures sizes { KeepsSize self.old self.new }
        ensures makes { MakesAlike self.old self.new }
    {
        let mut nobody = Vec::new(self.alloc);
        self.came_by(number, bytes, ends, false, &mut nobody)
    }
}
