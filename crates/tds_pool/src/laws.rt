//! What a pool promises to whoever uses it. Each law is a function without a body, whose contract is
//! the theorem.
ghost use Rattle.std.specs.Prelude.{◌≡◌, ◌≢◌, ◌≤◌, ◌++◌, ◌∷◌, [], ℕ, true, List, None, Some, option_map, IsSome, IsSomeAnd, IfSome, false, ◌<◌, ◌+◌};
ghost use Rattle.tds_client.specs.Sending.{message_of};
ghost use Rattle.tds_client.specs.Session.{ClientSession, marked};
ghost use Rattle.tds_packet.specs.declared.status.Reset.{Reset};
ghost use Rattle.tds_packet.specs.declared.status.Reset.TheVariants.{Full};
ghost use Rattle.tds_pool.specs.declared.lease.Lease.{Lease};
ghost use Rattle.tds_pool.specs.declared.lease.Ticket.{Ticket};
ghost use Rattle.tds_pool.specs.declared.lease.Turn.{Turn};
ghost use Rattle.tds_pool.specs.declared.seat.Place.TheVariants as places;
ghost use Rattle.tds_pool.specs.declared.answers.GivenBack.TheVariants as given;
ghost use Rattle.tds_request.specs.declared.request.Request.{Request};
ghost use Rattle.tds_pool.specs.Connections.{Connection, changed_in, numbered, at_place, with_client, taken_out, first_turn};
ghost use Rattle.tds_pool.specs.Calls.{lent_to, kept_for, lent_next, lent_again, is_free, is_idle, given_back, abandoned, drained, closed, new_connection, taken_back, is_cleaning, cleaned, cleaning, not_cleaned, asks_reset, is_clean};
ghost use Rattle.tds_pool.specs.Cleaning.{Call, Packet, IsBehind, behind_packets, is_cancelling, while_cleaned};
ghost use Rattle.tds_pool.specs.declared.answers.PoolRefusal.{PoolRefusal};
ghost use Rattle.tds_pool.specs.History.{Seen, Move, behind, AreBehind, IsOver, AreOf};

/// A connection is lent to one lease at a time: two that are known and stand for one number are
/// alike.
pub fn one_lease_each()
    ensures key { (a b : Lease) (cs : List Connection) → IsSome (lent_to a cs)
        → IsSome (lent_to b cs) → a.number ≡ b.number → a.key ≡ b.key }
    ensures turn { (a b : Lease) (cs : List Connection) → IsSome (lent_to a cs)
        → IsSome (lent_to b cs) → a.number ≡ b.number → a.turn ≡ b.turn }
{}

/// What is lent again was free, and its client idle.
pub fn lent_were_idle()
    ensures { (cs : List Connection) → IfSome (lent_next cs) (λ c.
        (is_free c.place ≡ true) × (is_idle c.client.stage ≡ true)) }
{}

/// A change of one connection is a change of that one, and of no other.
pub fn one_changes()
    ensures here { (number : ℕ) (f : Connection → Connection) (cs : List Connection)
        → ((c : Connection) → (f c).number ≡ c.number)
        → numbered number (changed_in number f cs) ≡ option_map f (numbered number cs) }
    ensures others { (number other : ℕ) (f : Connection → Connection) (cs : List Connection)
        → ((c : Connection) → (f c).number ≡ c.number) → other ≢ number
        → numbered other (changed_in number f cs) ≡ numbered other cs }
{}

/// A connection that is taken out is gone, and the others stay.
pub fn one_is_taken_out()
    ensures gone { (number : ℕ) (cs : List Connection)
        → numbered number (taken_out number cs) ≡ None }
    ensures others { (number other : ℕ) (cs : List Connection) → other ≢ number
        → numbered other (taken_out number cs) ≡ numbered other cs }
{}

/// A new connection is found by its number, which no other one has, and the others stay.
pub fn one_is_added()
    ensures here { (c : Connection) (cs : List Connection) → numbered c.number cs ≡ None
        → numbered c.number (cs ++ c ∷ []) ≡ Some c }
    ensures others { (c : Connection) (other : ℕ) (cs : List Connection) → other ≢ c.number
        → numbered other (cs ++ c ∷ []) ≡ numbered other cs }
{}

/// The lease of a connection that is taken out is unknown.
pub fn taken_out_is_unknown()
    ensures { (lease : Lease) (cs : List Connection)
        → lent_to lease (taken_out lease.number cs) ≡ None }
{}

/// A number is never used again: a connection that is out of the pool stays out, whatever is called
/// later, and its lease and its ticket are unknown for ever.
pub fn never_again()
    ensures number { (number : ℕ) (p : Seen) (moves : List Move) → number ≤ p.last
        → numbered number p.connections ≡ None
        → numbered number (behind moves p).connections ≡ None }
    ensures lease { (lease : Lease) (p : Seen) (moves : List Move) → lease.number ≤ p.last
        → numbered lease.number p.connections ≡ None
        → lent_to lease (behind moves p).connections ≡ None }
    ensures ticket { (ticket : Ticket) (p : Seen) (moves : List Move) → ticket.number ≤ p.last
        → numbered ticket.number p.connections ≡ None
        → kept_for ticket (behind moves p).connections ≡ None }
{}

/// What each call does to the connections is some moves. (That of `lease` where it opens one is the
/// move `Opens`.)
pub fn calls_are_moves()
    ensures reused { (number : ℕ) (reset : Reset) (p : Seen)
        → AreBehind p (lent_again number reset p.connections) }
    ensures client { (number : ℕ) (client : ClientSession) (p : Seen)
        → AreBehind p (with_client number client p.connections) }
    ensures kept { (number : ℕ) (p : Seen)
        → AreBehind p (at_place number places.Kept p.connections) }
    ensures given_back { (lease : Lease) (p : Seen)
        → AreBehind p (given_back lease p.connections).connections }
    ensures abandoned { (ticket : Ticket) (p : Seen)
        → AreBehind p (abandoned ticket p.connections).connections }
    ensures drained { (number : ℕ) (p : Seen)
        → AreBehind p (drained number p.connections).connections }
    ensures lost { (number : ℕ) (p : Seen) → AreBehind p (taken_out number p.connections) }
    ensures closed { (number : ℕ) (p : Seen) → AreBehind p (closed number p.connections) }
    ensures taken_back { (number : ℕ) (p : Seen)
        → AreBehind p (taken_back number p.connections).connections }
    ensures cleaning { (number : ℕ) (request : Request) (p : Seen)
        → AreBehind p (cleaning number request p.connections) }
    ensures not_cleaned { (refusal : PoolRefusal) (number : ℕ) (p : Seen)
        → AreBehind p (not_cleaned refusal number p.connections) }
    ensures cleaned { (number : ℕ) (p : Seen)
        → AreBehind p (cleaned number p.connections).connections }
{}

/// A lending that has ended has ended for ever: whatever is called later, its lease and its ticket
/// are unknown.
pub fn over_for_ever()
    ensures stays { (number : ℕ) (turn : Turn) (p : Seen) (moves : List Move) → number ≤ p.last
        → IsOver number turn p.connections → IsOver number turn (behind moves p).connections }
    ensures lease { (lease : Lease) (p : Seen) (moves : List Move) → lease.number ≤ p.last
        → IsOver lease.number lease.turn p.connections
        → lent_to lease (behind moves p).connections ≡ None }
    ensures ticket { (ticket : Ticket) (p : Seen) (moves : List Move) → ticket.number ≤ p.last
        → IsOver ticket.number ticket.turn p.connections
        → kept_for ticket (behind moves p).connections ≡ None }
{}

/// Each call that gives a connection back ends its lending. (Of one connection's 2^64 lendings the
/// last one alone doesn't.)
pub fn given_back_is_over()
    ensures given_back { (lease : Lease) (cs : List Connection) → IsSome (lent_to lease cs)
        → lease.turn.count < 18446744073709551615
        → IsOver lease.number lease.turn (given_back lease cs).connections }
    ensures abandoned { (ticket : Ticket) (cs : List Connection) → IsSome (kept_for ticket cs)
        → ticket.turn.count < 18446744073709551615
        → IsOver ticket.number ticket.turn (abandoned ticket cs).connections }
    ensures taken_back { (lease : Lease) (cs : List Connection) → IsSome (lent_to lease cs)
        → lease.turn.count < 18446744073709551615
        → IsOver lease.number lease.turn (taken_back lease.number cs).connections }
    ensures ticket_taken_back { (ticket : Ticket) (cs : List Connection)
        → IsSome (kept_for ticket cs) → ticket.turn.count < 18446744073709551615
        → IsOver ticket.number ticket.turn (taken_back ticket.number cs).connections }
    ensures taken_out { (lease : Lease) (cs : List Connection)
        → IsOver lease.number lease.turn (taken_out lease.number cs) }
{}

/// The lease that `lease` hands out is known; before that no lease of its connection was.
pub fn lent_is_known()
    ensures reused { (reset : Reset) (cs : List Connection) → IfSome (lent_next cs) (λ c.
        numbered c.number cs ≡ Some c
        → IsSome (lent_to (record { key = c.key; number = c.number; turn = c.turn })
        (lent_again c.number reset cs))) }
    ensures new { (pool number key size : ℕ) (cs : List Connection)
        → numbered number cs ≡ None
        → IsSome (lent_to (record { key = key; number = number; turn = first_turn pool })
        (cs ++ new_connection pool number key size ∷ [])) }
    ensures before { (lease : Lease) (cs : List Connection) → IfSome (lent_next cs) (λ c.
        numbered c.number cs ≡ Some c → lease.number ≡ c.number → lent_to lease cs ≡ None) }
{}

/// Nobody holds a connection that is being cleaned, and nobody is lent it.
pub fn cleaning_is_nobodys()
    ensures lease { (lease : Lease) (cs : List Connection)
        → IsSomeAnd (numbered lease.number cs) (λ c. is_cleaning c.place ≡ true)
        → lent_to lease cs ≡ None }
    ensures ticket { (ticket : Ticket) (cs : List Connection)
        → IsSomeAnd (numbered ticket.number cs) (λ c. is_cleaning c.place ≡ true)
        → kept_for ticket cs ≡ None }
    ensures next { (cs : List Connection) → IfSome (lent_next cs) (λ c.
        is_cleaning c.place ≡ false) }
{}

/// A lease or a ticket of a pool of another name is unknown: all connections of a pool are of its own
/// name, whatever is called. (It begins with none.)
pub fn pools_are_apart()
    ensures own { (p : Seen) (moves : List Move) → AreOf p.name p.connections
        → AreOf p.name (behind moves p).connections }
    ensures lease { (lease : Lease) (name : ℕ) (cs : List Connection) → AreOf name cs
        → lease.turn.pool ≢ name → lent_to lease cs ≡ None }
    ensures ticket { (ticket : Ticket) (name : ℕ) (cs : List Connection) → AreOf name cs
        → ticket.turn.pool ≢ name → kept_for ticket cs ≡ None }
{}

/// What a cleaning has freed is idle, has heard that its reset was done, and is in no transaction.
pub fn cleaned_is_clean()
    ensures { (number free : ℕ) (cs : List Connection)
        → (cleaned number cs).answer ≡ given.Free free
        → IsSomeAnd (numbered number cs) (λ c. (c.client.heard.descriptor ≡ 0)
        × (c.client.heard.mark ≡ None) × (is_idle c.client.stage ≡ true)) }
{}

/// A connection that is being cleaned is asked what the cleaning asks, and nothing else. Whatever is
/// called meanwhile, by whoever carries its packets too: its client is as its own packets make it,
/// those that go out and those that come; no attention goes out; and it comes out clean, or is taken
/// out.
pub fn asked_alike_until_clean()
    ensures comes_out { (number : ℕ) (start : ClientSession) (p : Seen) (calls : List Call)
        → number ≤ p.last → IsSomeAnd (numbered number p.connections) (λ c.
        (is_cleaning c.place ≡ true) × (c.client ≡ start))
        → IfSome (numbered number (while_cleaned number calls p).connections) (IsBehind start) }
    ensures uncancelled { (s : ClientSession) (request : Request) (packets : List Packet)
        → is_cancelling (behind_packets packets (asks_reset s request)).stage ≡ false }
{}

/// What is asked of a clean connection is the same message, whether its lease asks for a reset
/// again, as `lease` does, or not.
pub fn asked_alike_once_clean()
    ensures { (s : ClientSession) (request : Request) → is_clean s ≡ true
        → message_of (marked s Full).heard request ≡ message_of s.heard request }
{}
