//! What a table of connections promises as a machine, whatever its peers send, over any list of calls:
//! of each connection in the words of `Promises`. Each function does nothing when it runs: its contract
//! is the law.

ghost use Rattle.std.specs.Prelude.{◌≡◌, ◌≢◌, ◌≤◌, ◌<◌, ◌+◌, ℕ, List, Bool, None, Some, false};
ghost use Rattle.std.specs.Prelude.{length};
ghost use Rattle.tds_service.specs.Line.{new_line};
ghost use Rattle.tds_service.specs.History.{history, acts_of, line_after};
ghost use Rattle.tds_service.specs.Service.{Call, new_service, on, service_after, step, steps};
ghost use Rattle.tds_service.specs.Service.{AllInUse, Lent, Seat, Service, Ticket, find_by, has_lease};
ghost use Rattle.tds_service.specs.Service.{has_ticket, is_lendable, seat_numbered};
ghost use Rattle.tds_service.specs.Acknowledging.{SettlesRight};
ghost use Rattle.tds_service.specs.Newest.{NamesNewest};
ghost use Rattle.tds_service.specs.Promises.{AsksUnawaited, FaultsUnawaited, NothingBehindCancel, Paired};
ghost use Rattle.tds_service.specs.Promises.{attentions, acknowledgements};
ghost use Rattle.tds_service.specs.Promises.{AsksAsOwed, LeavesNoneOwed, NamesAsHeard};
ghost use Rattle.tds_service.specs.Promises.{nothing_known};
ghost use Rattle.tds_service.specs.Owning.{OwnAlong};
ghost use Rattle.tds_service.specs.Lending.{IsWith, IsWithTicket, LendsIdle, MarksReused, leased};
ghost use Rattle.tds_service.specs.Lending.{nothing_known_of};

/// On each connection all comes out as it would if it were the only one.
pub fn each_alone<T>()
    ensures { (max n : ℕ) (calls : List (Call T))
        → on n (steps (new_service max) calls)
        ≡ history new_line (acts_of (on n (steps (new_service max) calls))) }
{}

/// The line of a connection that is in the table is what everything that was done on it leaves.
pub fn line_by_history<T>()
    ensures { (max n : ℕ) (calls : List (Call T)) (c : Seat)
        → seat_numbered n (service_after (new_service max) calls).seats ≡ Some c
        → c.line ≡ line_after new_line (acts_of (on n (steps (new_service max) calls))) }
{}

/// A fault stays on its connection: whatever came on the others, and was done there, a connection
/// where the same was done answers, sends and tells the same.
pub fn a_fault_stays<T>()
    ensures { (max most n : ℕ) (calls others : List (Call T))
        → acts_of (on n (steps (new_service max) calls))
        ≡ acts_of (on n (steps (new_service most) others))
        → on n (steps (new_service max) calls) ≡ on n (steps (new_service most) others) }
{}

/// A call leaves every connection as it is but the one that it reaches: its line, and who holds it.
pub fn others_stay<T>()
    ensures { (s : Service) (call : Call T) (n : ℕ) (c : Seat) → (step s call).number ≢ n
        → seat_numbered n s.seats ≡ Some c → seat_numbered n (step s call).service.seats ≡ Some c }
{}

/// What a request is given are the tokens of its own message, in order, and nothing else.
pub fn paired<T>()
    ensures { (max n : ℕ) (calls : List (Call T)) → Paired (on n (steps (new_service max) calls)) }
{}

/// What comes where neither an answer nor an acknowledgement is awaited is a fault, and a request is
/// asked only there: behind a cancel, once it is acknowledged.
pub fn unawaited<T>()
    ensures faults { (max n : ℕ) (calls : List (Call T))
        → FaultsUnawaited Bool.false (on n (steps (new_service max) calls)) }
    ensures asks { (max n : ℕ) (calls : List (Call T))
        → AsksUnawaited Bool.false (on n (steps (new_service max) calls)) }
{}

/// Behind its cancel a request is given nothing.
pub fn after_cancel<T>()
    ensures { (max n : ℕ) (calls : List (Call T))
        → NothingBehindCancel (on n (steps (new_service max) calls)) }
{}

/// At most one attention more goes out on a connection than are acknowledged.
pub fn one_attention<T>()
    ensures { (max n : ℕ) (calls : List (Call T))
        → attentions (on n (steps (new_service max) calls))
        ≤ acknowledgements (on n (steps (new_service max) calls)) + 1 }
{}

/// The first packet of a request asks for the reset that is owed, and no other packet for any.
pub fn asks_for_reset<T>()
    ensures owed { (max n : ℕ) (calls : List (Call T))
        → AsksAsOwed nothing_known (on n (steps (new_service max) calls)) }
    ensures answered { (max n : ℕ) (calls : List (Call T))
        → LeavesNoneOwed nothing_known (on n (steps (new_service max) calls)) }
    // From the lending of a connection that somebody had before, one is owed.
    ensures lent { (max : ℕ) (calls : List (Call T))
        → MarksReused calls (steps (new_service max) calls) }
{}

/// A request's header names the transaction that was heard last, or none under a full reset.
pub fn names_descriptor<T>()
    ensures { (max n : ℕ) (calls : List (Call T))
        → NamesAsHeard nothing_known (on n (steps (new_service max) calls)) }
{}

/// On each connection a request has the number behind the one before, and whichever is cancelled,
/// answered or acknowledged is the newest one.
pub fn names_newest<T>()
    ensures { (max n : ℕ) (calls : List (Call T))
        → NamesNewest 0 (on n (steps (new_service max) calls)) }
{}

/// Whoever is told: on each connection a token is told only to the newest request, and the lease that
/// holds the connection as it comes is the one by which that request was asked.
pub fn told_to_asker<T>()
    ensures { (max n : ℕ) (calls : List (Call T)) → OwnAlong n None (new_service max) calls }
{}

/// A connection is lent again only where nothing is awaited on it.
pub fn lends_idle<T>()
    ensures { (max : ℕ) (before : List (Call T)) (call : Call T)
        → LendsIdle (steps (new_service max) before)
        (step (service_after (new_service max) before) call).reply }
{}

/// A connection is lent by one lease at a time.
pub fn one_lease_each<T>()
    ensures { (max a b : ℕ) (calls : List (Call T)) (c d : Seat)
        → find_by (has_lease a) (service_after (new_service max) calls).seats ≡ Some c
        → find_by (has_lease b) (service_after (new_service max) calls).seats ≡ Some d
        → c.number ≡ d.number → a ≡ b }
{}

/// On each connection a cancelled request is settled exactly at the end of a message with an
/// acknowledgement.
pub fn idle_by_acknowledgement<T>()
    ensures { (max n : ℕ) (calls : List (Call T))
        → SettlesRight Bool.false Bool.false (on n (steps (new_service max) calls)) }
{}

/// A lease is refused exactly where as many connections are there as may be, and none can be lent.
pub fn all_in_use<T>()
    ensures refused { (s : Service) → leased T s ≡ AllInUse
        → (find_by is_lendable s.seats ≡ None) × (s.max ≤ length s.seats) }
    ensures only { (s : Service) → find_by is_lendable s.seats ≡ None → s.max ≤ length s.seats
        → leased T s ≡ AllInUse }
{}

/// The number of a lease or a ticket is larger than any that was given before; and a number that was
/// given and that a table doesn't know is unknown for ever. A call with an unknown one changes nothing.
pub fn never_again<T>()
    ensures fresh { (s : Service) (call : Call T) (lease number : ℕ) (had : Bool)
        → (step s call).reply ≡ Lent lease number had
        → (s.given < lease) × (lease ≤ (step s call).service.given) }
    ensures rises { (s : Service) (calls : List (Call T))
        → s.given ≤ (service_after s calls).given }
    ensures spent { (s : Service) (calls : List (Call T)) (lease : ℕ) → lease ≤ s.given
        → find_by (has_lease lease) s.seats ≡ None
        → find_by (has_lease lease) (service_after s calls).seats ≡ None }
    ensures unknown { (s : Service) (call : Call T) (lease : ℕ) → IsWith lease call
        → find_by (has_lease lease) s.seats ≡ None → step s call ≡ nothing_known_of T s }
    ensures ticket_fresh { (s : Service) (call : Call T) (ticket : ℕ)
        → (step s call).reply ≡ Ticket ticket
        → (s.given < ticket) × (ticket ≤ (step s call).service.given) }
    ensures ticket_spent { (s : Service) (calls : List (Call T)) (ticket : ℕ) → ticket ≤ s.given
        → find_by (has_ticket ticket) s.seats ≡ None
        → find_by (has_ticket ticket) (service_after s calls).seats ≡ None }
    ensures ticket_unknown { (s : Service) (call : Call T) (ticket : ℕ) → IsWithTicket ticket call
        → find_by (has_ticket ticket) s.seats ≡ None → step s call ≡ nothing_known_of T s }
{}
