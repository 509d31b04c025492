//! What follows from the definitions alone: a session rests only where these hold, line by line, whatever
//! was said of it. Each function does nothing when it runs: its contract is the law.

ghost use Rattle.std.specs.Prelude.{◌≡◌, ◌<◌, ◌++◌, ℕ, List, [], Option, None, true, false};
ghost use Rattle.tds_state.specs.Pasts.{IsInitial, Remark, are_harmless, first_states, first_values, answer_has_ended, newest_has_bulk, newest_is_cancelled};
ghost use Rattle.tds_state.specs.Pasts.{newest_is_recoverable, newest_state, newest_value, owed_in, session_said, open_transaction, was_acknowledged, was_all_read, was_call_cancelled, was_followed, was_kept};
ghost use Rattle.tds_state.specs.Exchanges.{times_open, was_unclear};
ghost use Rattle.tds_state.specs.Sessions.{session_rests, session_sent};
ghost use Rattle.tds_state.specs.Tracking.{tracks};
ghost use Rattle.tds_state.specs.declared.session.Session.{Session};
ghost use Rattle.tds_state.specs.declared.tracker.Tracker.{Tracker};
ghost use Rattle.tds_wire.specs.declared.told.Token.{Token};

/// A session rests only where the login acknowledged session recovery, each SESSIONSTATE could be read, none
/// had the last number, and there was room for the initial states.
pub fn only_where_all_is_told()
    ensures acknowledged { (past : List Remark) → session_rests (session_said past) ≡ true
        → was_acknowledged past ≡ true }
    ensures read { (past : List Remark) → session_rests (session_said past) ≡ true
        → was_all_read past ≡ true }
{}

/// Only where the newest SESSIONSTATE since the last full reset said that the session can be recovered.
pub fn only_where_it_can_be_recovered()
    ensures { (past : List Remark) → session_rests (session_said past) ≡ true
        → newest_is_recoverable past ≡ true }
{}

/// Only where the newest telling of each state since the last full reset can be recovered, and has the value
/// that the login's answer gave it; and so has each value that ENVCHANGE told.
pub fn only_where_all_is_initial()
    ensures states { (past : List Remark) (id : ℕ) → session_rests (session_said past) ≡ true
        → id < 256 → IsInitial (first_states past) id (newest_state id past) }
    ensures values { (past : List Remark) (type : ℕ) → session_rests (session_said past) ≡ true
        → type < 256 → IsInitial (first_values past) type (newest_value type past) }
{}

/// Only where no transaction is open, no reset is owed, and the last one kept no transaction.
pub fn only_behind_a_reset()
    ensures transaction { (past : List Remark) → session_rests (session_said past) ≡ true
        → open_transaction past ≡ 0 }
    ensures owed { (past : List Remark) → session_rests (session_said past) ≡ true
        → owed_in past ≡ None }
    ensures kept { (past : List Remark) → session_rests (session_said past) ≡ true
        → was_kept past ≡ false }
{}

/// Only where, since a full reset was asked for, each call was of `sp_executesql`, `sp_execute` or a plain name, or
/// prepares a handle or unprepares one, as is read here; none was cancelled, and no answer said that another call
/// followed in its message.
pub fn only_behind_harmless_calls()
    ensures harmless { (past : List Remark) → session_rests (session_said past) ≡ true
        → are_harmless [] past ≡ true }
    ensures cancelled { (past : List Remark) → session_rests (session_said past) ≡ true
        → was_call_cancelled past ≡ false }
    ensures followed { (past : List Remark) → session_rests (session_said past) ≡ true
        → was_followed past ≡ false }
{}

/// Only where, since a full reset was asked for, each handle that a call prepared was unprepared, by a call whose whole
/// answer told no error. Each call that prepares was returned a number, no call unprepared what wasn't open, and of
/// those that a request overtook, or that came from there on, none prepares or unprepares.
pub fn only_where_handles_are_closed()
    ensures handles { (past : List Remark) (handle : ℕ) → session_rests (session_said past) ≡ true
        → 0 < handle → times_open handle past ≡ 0 }
    ensures clear { (past : List Remark) → session_rests (session_said past) ≡ true
        → was_unclear past ≡ false }
{}

/// Only where a message of the server's has ended behind the newest request, which wasn't cancelled, and isn't
/// a batch in which `bulk` stands.
pub fn only_behind_a_whole_answer()
    ensures ended { (past : List Remark) → session_rests (session_said past) ≡ true
        → answer_has_ended past ≡ true }
    ensures cancelled { (past : List Remark) → session_rests (session_said past) ≡ true
        → newest_is_cancelled past ≡ false }
    ensures bulk { (past : List Remark) → session_rests (session_said past) ≡ true
        → newest_has_bulk [] past ≡ false }
{}

/// How an answer's bytes and a request's body are cut into pieces doesn't matter.
pub fn cuts_do_not_matter()
    ensures answers { (tracker : Tracker) (first second : List ℕ) (token : Option Token)
        → tracks (tracks tracker first None) second token ≡ tracks tracker (first ++ second) token }
    ensures requests { (session : Session) (first second : List ℕ)
        → session_sent (session_sent session first) second
        ≡ session_sent session (first ++ second) }
{}
