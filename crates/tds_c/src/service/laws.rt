//! What the calls of `tds.h` on a seat's client are to the machine. Each function does nothing when it
//! runs: its contract is the law.

ghost use Rattle.std.specs.Prelude.{◌≡◌, ◌≤◌, ◌∷◌, [], ℕ, List, None, length};
ghost use Rattle.std.specs.Prelude.{slice_index_or, slice_set};
ghost use Rattle.tds_wire.specs.declared.told.Token.{Token};
ghost use Rattle.tds_service.specs.Line.{Act, Come, line_turn};
ghost use Rattle.tds_service.specs.Parts.{Part};
ghost use Rattle.tds_service.specs.Refusing.{refusal_in};
ghost use Rattle.tds_service.specs.Service.{Came, acts, drained, find_by, has_lease, has_number, step};
ghost use Rattle.tds_c.specs.declared.service.plain.TdsSeat.{TdsSeat};
ghost use Rattle.tds_c.specs.declared.service.plain.TdsService.{TdsService};
ghost use Rattle.tds_c.specs.service.Plain.{line_of, place_of, table_of, used};
ghost use Rattle.tds_c.specs.service.Table.{Becomes, FirstMet};

/// On the seat that is found for a lease: where the client does these acts, and the machine doesn't
/// refuse the first, the table becomes what the machine makes of it. With the acts of `Ask`, `Put`,
/// `Finish` and `Cancel` these are the machine's calls.
pub fn acts_by_lease()
    ensures { (s : TdsService) (seats : List TdsSeat) (index lease : ℕ) (c y : TdsSeat)
        (first : Act Token) (all : List (Act Token)) → s.count ≤ length seats
        → FirstMet (has_lease lease) (used s seats) index → c ≡ slice_index_or seats index c
        → refusal_in (line_turn (line_of c) first).answer ≡ None → Becomes c y (place_of c) all
        → table_of s (slice_set seats index y) ≡ (acts (table_of s seats) (has_lease lease) first
        all (find_by (has_lease lease) (table_of s seats).seats)).service }
{}

/// On the seat of a number: where the client hears a part, and one that drains is put where it is then,
/// the table becomes what the machine makes of it.
pub fn comes_by_number()
    ensures { (s : TdsService) (seats : List TdsSeat) (index number : ℕ) (c y : TdsSeat)
        (part : Part Token) → s.count ≤ length seats
        → FirstMet (has_number number) (used s seats) index → c ≡ slice_index_or seats index c
        → Becomes c y (drained (place_of c) (line_of y).stage) (Come part ∷ [])
        → table_of s (slice_set seats index y)
        ≡ (step (table_of s seats) (Came number part)).service }
{}
