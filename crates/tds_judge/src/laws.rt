//! What follows from the definitions alone. Each function does nothing when it runs: its contract is
//! the law.

ghost use Rattle.std.specs.Prelude.{◌≡◌, ◌&&◌, ◌++◌, ℕ, List, [], false, not};
ghost use Rattle.tds_judge.specs.Breaches.{asked_last};
ghost use Rattle.tds_judge.specs.Conversation.{IsLawful, MayLend, Piece, place_of, seen};
ghost use Rattle.tds_judge.specs.Framing.{IsNew, Run, run_of, steps};
ghost use Rattle.tds_judge.specs.History.{Said, Tells, is_attention_unanswered, is_both_resets};
ghost use Rattle.tds_judge.specs.History.{is_forgotten, is_found, is_request_while_answering};
ghost use Rattle.tds_judge.specs.History.{is_second_attention, is_wrong_descriptor, talk_behind};
ghost use Rattle.tds_judge.specs.Noting.{told_by};
ghost use Rattle.tds_judge.specs.Talking.{is_known};
ghost use Rattle.tds_judge.specs.Told as told;
ghost use Rattle.tds_judge.specs.Told.{Breaks, IsFoundWhere, has_breach, is_breach};
ghost use Rattle.tds_judge.specs.Told.{is_broken, is_judged};
ghost use Rattle.tds_judge.specs.declared.finding.Direction.{Direction};
ghost use Rattle.tds_judge.specs.declared.finding.Finding.{Finding};
ghost use Rattle.tds_judge.specs.declared.finding.Spot.{Spot};
ghost use Rattle.tds_judge.specs.declared.judge.Judge.{Judge};
ghost use Rattle.tds_judge.specs.declared.talk.Event.{Event};
ghost use Rattle.tds_judge.specs.declared.talk.Event.TheVariants as events;
ghost use Rattle.tds_judge.specs.declared.talk.Limits.{Limits};
ghost use Rattle.tds_judge.specs.declared.talk.Talk.{Talk};

/// How the bytes of a direction are cut into pieces doesn't matter: two pieces do what both do as one.
pub fn cuts_do_not_matter()
    ensures { (direction : Direction) (time : ℕ) (first second : List ℕ) (run : Run)
        → steps direction time second (steps direction time first run)
        ≡ steps direction time (first ++ second) run }
{}

/// Whatever bytes come, events were said, and what is found is found at them: so the next law is one of
/// all that is found.
pub fn findings_come_of_events()
    ensures { (direction : Direction) (time : ℕ) (bytes : List ℕ) (run : Run)
        → Tells run (steps direction time bytes run) }
{}

/// What an event gives stands behind what was found before, and doesn't depend on it.
pub fn findings_are_appended()
    ensures { (found : List Finding) (limits : Limits) (talk : Talk) (spot : Spot) (event : Event)
        → told_by found limits talk spot event ≡ found ++ told_by [] limits talk spot event }
{}

/// Behind any history, an event gives a finding of these five exactly where it is that breach, by what
/// was said before: a second attention, a request before the acknowledgement, a request before the end of
/// the answer, a request that names another transaction than was told last, and both reset bits.
pub fn breaches_are_told()
    ensures second { IsFoundWhere 1 is_second_attention }
    ensures unanswered { IsFoundWhere 2 is_attention_unanswered }
    ensures answering { IsFoundWhere 5 is_request_while_answering }
    ensures descriptor { IsFoundWhere 8 is_wrong_descriptor }
    ensures both { IsFoundWhere 14 is_both_resets }
{}

/// Behind any history, these stand exactly where `specs/Told` says: an attention that is ignored, an
/// acknowledgement that nobody asked for, an attention that isn't one packet without data, and a token
/// behind an acknowledgement.
pub fn attentions_are_told()
    ensures ignored { IsFoundWhere 3 told.is_attention_ignored }
    ensures unasked { IsFoundWhere 4 told.is_acknowledgement_unasked }
    ensures wrong { IsFoundWhere 24 (λ past. told.is_wrong_attention) }
    ensures last { IsFoundWhere 39 told.is_not_last }
{}

/// And these: a request that doesn't name the transaction that a cancelled answer began, one that names a
/// transaction that has ended, a reset in a transaction, an idle one, one that is left by the close, a begin
/// or an end of another one, and an end where none is open.
pub fn transactions_are_told()
    ensures kept { IsFoundWhere 7 told.is_cancelled_begin_kept }
    ensures ended { IsFoundWhere 9 told.is_ended_unheard }
    ensures open_reset { IsFoundWhere 10 told.is_reset_in_transaction }
    ensures idle { (limits : Limits) (past : List Said) (spot : Spot) (event : Event)
        → is_found 11 (told_by [] limits (talk_behind past) spot event)
        ≡ is_judged past && told.is_idle limits past spot event }
    ensures left { IsFoundWhere 12 told.is_transaction_left }
    ensures changed { IsFoundWhere 35 told.is_wrong_change }
    ensures none { IsFoundWhere 36 told.is_none_ended }
{}

/// And these: a reset bit on a later packet, a reset that isn't answered, one behind another, a new borrower
/// that asks for none, one that comes too early, a reset that is told unasked or late, and one of a bulk load.
pub fn resets_are_told()
    ensures later { IsFoundWhere 13 (λ past. told.is_late_reset) }
    ensures unanswered { IsFoundWhere 15 told.is_reset_unanswered }
    ensures twice { IsFoundWhere 16 told.is_reset_twice }
    ensures reused { IsFoundWhere 17 told.is_reused }
    ensures early { IsFoundWhere 33 told.is_lent_early }
    ensures told_unasked { IsFoundWhere 34 told.is_reset_unasked }
    ensures told_late { IsFoundWhere 43 told.is_reset_late }
    ensures bulk { IsFoundWhere 45 (λ past. told.is_bulk_reset) }
{}

/// And these: an answer that isn't read, one that comes unasked or before its request's end, a token behind
/// the final DONE, an answer without one or that ends inside a token, and an ENVCHANGE that can't be read.
pub fn answers_are_told()
    ensures unread { IsFoundWhere 6 told.is_answer_unread }
    ensures unasked { IsFoundWhere 32 told.is_answer_unasked }
    ensures behind { IsFoundWhere 18 told.is_behind_end }
    ensures endless { IsFoundWhere 19 told.is_without_end }
    ensures cut { IsFoundWhere 20 told.is_cut_token }
    ensures unclear { IsFoundWhere 26 (λ past. told.is_unclear_change) }
    ensures early { IsFoundWhere 44 told.is_early }
{}

/// And these: bytes that are no token, encrypted, no TDS, of another version or of COMPUTE, a packet above the
/// size, or below it where it has to be full, a Length that none can have, a message that begins inside another
/// one, where a direction is judged from, what is to be ignored and goes on, a packet of the other direction,
/// wrong headers, and a request before a login's end.
pub fn packets_are_told()
    ensures token { IsFoundWhere 21 told.is_wrong_token }
    ensures size { IsFoundWhere 22 told.is_wrong_size }
    ensures length { IsFoundWhere 23 (λ past. told.is_wrong_length) }
    ensures unfinished { IsFoundWhere 25 (λ past. told.is_unfinished_message) }
    ensures taken_up { IsFoundWhere 27 (λ past. told.is_taken_up) }
    ensures encrypted { IsFoundWhere 28 (λ past. told.is_encrypted) }
    ensures no_tds { IsFoundWhere 29 (λ past. told.is_no_tds) }
    ensures version { IsFoundWhere 30 told.is_other_version }
    ensures compute { IsFoundWhere 31 (λ past. told.is_compute) }
    ensures ignore { IsFoundWhere 37 (λ past. told.is_ignore_unended) }
    ensures direction { IsFoundWhere 38 (λ past. told.is_wrong_direction) }
    ensures headers { IsFoundWhere 40 told.is_wrong_headers }
    ensures full { IsFoundWhere 41 told.is_not_full }
    ensures login { IsFoundWhere 42 told.is_before_login }
{}

/// Behind any history, an event gives a finding of level breach exactly where it is one of the 26
/// breaches by what was said before: no other alarm, and no silence.
pub fn alarms_are_exact()
    ensures { (limits : Limits) (past : List Said) (spot : Spot) (event : Event)
        → has_breach (told_by [] limits (talk_behind past) spot event)
        ≡ is_breach past event }
{}

/// The same of any bytes, behind any history: a breach is found exactly where one of the events that
/// they say is one. So bytes that say no breach give no finding of that level.
pub fn runs_are_exact()
    ensures { (direction : Direction) (time : ℕ) (bytes : List ℕ) (past : List Said) (run : Run)
        → run.judge.talk ≡ talk_behind past
        → Breaks past run (steps direction time bytes run) }
{}

/// The same of all that is handed in of a connection, bytes of both directions in any pieces, and that it
/// is lent or closed: events were said, and what is found is found at them.
pub fn pieces_are_events()
    ensures { (pieces : List Piece) (run : Run) → Tells run (seen pieces run) }
{}

/// Behind a lawful conversation an answer that comes where nothing is awaited, so that none may come, is a
/// breach, wherever anything was sent to the server, but for one to a message that was to be ignored.
pub fn unasked_answers_are_told()
    ensures { (past : List Said) → IsLawful past → MayLend (place_of past)
        → is_breach past events.Answer
        ≡ is_judged past && (is_known (asked_last past) && not (is_forgotten past)) }
{}

/// A lawful conversation is never blamed: no event of it is a breach, behind a lawful history; and
/// whatever is handed to a new judge, where the events that were said are a lawful conversation nothing of
/// level breach is found.
pub fn lawful_is_never_blamed()
    ensures said { (past later : List Said)
        → IsLawful (later ++ past) → is_broken past later ≡ false }
    ensures found { (limits : Limits) (judge : Judge) (pieces : List Piece)
        (tells : Tells (run_of judge []) (seen pieces (run_of judge [])))
        → IsNew limits judge → IsLawful tells.events
        → has_breach (seen pieces (run_of judge [])).told ≡ false }
{}
