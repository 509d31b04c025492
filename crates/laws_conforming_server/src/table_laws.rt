//! What holds of each connection of a table in front of a server that keeps the rules, whatever the
//! other connections do, and whatever their servers send. Each function does nothing when it runs:
//! its contract is the law.

ghost use Rattle.std.specs.Prelude.{◌≡◌, ℕ, List, Bool, None, Some, true};
ghost use Rattle.tds_service.specs.Line.{Idle, new_line};
ghost use Rattle.tds_service.specs.History.{acts_of, given, line_after};
ghost use Rattle.tds_service.specs.Service.{Back, Call, Free, Lent, is_clean, new_service};
ghost use Rattle.tds_service.specs.Service.{on, service_after, step, steps};
ghost use Rattle.laws_conforming_server.specs.Lawful.{AnyServer, IsLawful, told_of};
ghost use Rattle.laws_conforming_server.specs.Link.{IsRun, Move, link_after, new_link};
ghost use Rattle.laws_conforming_server.specs.Answering.{Begins, NoFault, answered, finishes};
ghost use Rattle.laws_conforming_server.specs.Agreeing.{AllInNamed, IsQuiet};
ghost use Rattle.laws_conforming_server.specs.Starting.{IsLeftClean, StartsFresh, cleaning_over, owed_after};
ghost use Rattle.laws_conforming_server.specs.Alone.{IsBeside, ResetsFirst, answered_alone};
ghost use Rattle.laws_conforming_server.specs.Alone.{beside_after, new_beside};
ghost use Rattle.laws_conforming_server.specs.Working.{CanGo, Waits};

use tds_service::table_laws::{asks_for_reset, each_alone, line_by_history};

/// What a request is told is a beginning of what the server answers to it, and all of that where it
/// is finished.
pub fn own_answers<V, T>()
    ensures begins { (engine : AnyServer V T) (max n : ℕ) (calls : List (Call T))
        (moves : List (Move T)) (r : ℕ)
        → IsLawful engine → IsRun engine moves (on n (steps (new_service max) calls))
        → Begins (given r (on n (steps (new_service max) calls)))
        (told_of (answered engine (new_link engine) r moves)) }
    ensures whole { (engine : AnyServer V T) (max n : ℕ) (calls : List (Call T))
        (moves : List (Move T)) (r : ℕ)
        → IsLawful engine → IsRun engine moves (on n (steps (new_service max) calls))
        → finishes r (on n (steps (new_service max) calls)) ≡ true
        → given r (on n (steps (new_service max) calls))
        ≡ told_of (answered engine (new_link engine) r moves) }
{
    each_alone::<T>();
}

/// Nothing that comes is a fault, until the connection is lost.
pub fn no_fault<V, T>()
    ensures { (engine : AnyServer V T) (max n : ℕ) (calls : List (Call T))
        (moves : List (Move T))
        → IsLawful engine → IsRun engine moves (on n (steps (new_service max) calls))
        → NoFault (on n (steps (new_service max) calls)) }
{
    each_alone::<T>();
}

/// Where a connection is idle nothing is on its way, its server has nothing to say, and both ends
/// are in one transaction.
pub fn idle_is_quiet<V, T>()
    ensures { (engine : AnyServer V T) (max n : ℕ) (calls : List (Call T))
        (moves : List (Move T))
        → IsLawful engine → IsRun engine moves (on n (steps (new_service max) calls))
        → (line_after new_line (acts_of (on n (steps (new_service max) calls)))).stage ≡ Idle
        → IsQuiet (line_after new_line (acts_of (on n (steps (new_service max) calls))))
        (link_after engine (new_link engine) moves) }
{
    each_alone::<T>();
}

/// Where a connection is lent again all is quiet: nothing is on its way, its server has nothing to
/// say, and both ends are in one transaction.
pub fn lends_quiet<V, T>()
    ensures { (engine : AnyServer V T) (max lease n : ℕ) (calls : List (Call T)) (call : Call T)
        (moves : List (Move T))
        → IsLawful engine → IsRun engine moves (on n (steps (new_service max) calls))
        → (step (service_after (new_service max) calls) call).reply ≡ Lent lease n true
        → IsQuiet (line_after new_line (acts_of (on n (steps (new_service max) calls))))
        (link_after engine (new_link engine) moves) }
{
    each_alone::<T>();
    asks_for_reset::<T>();
}

/// A request runs in the transaction that its header names, the one heard last when it was asked,
/// or in none behind its full reset (MS-TDS 2.2.5.3.2).
pub fn own_transaction<V, T>()
    ensures { (engine : AnyServer V T) (max n : ℕ) (calls : List (Call T))
        (moves : List (Move T))
        → IsLawful engine → IsRun engine moves (on n (steps (new_service max) calls))
        → AllInNamed engine (new_link engine) moves }
{
    each_alone::<T>();
}

/// From a mark on, which each lease of a used connection sets and each ticket's
/// (`tds_service::table_laws::asks_for_reset`), each request that runs asks for that reset, and the
/// server runs nothing before it is done: the first that runs finds a fresh session, or the
/// transaction that was kept, without settings.
pub fn fresh_start<V, T>()
    ensures { (engine : AnyServer V T) (max n : ℕ) (calls : List (Call T))
        (moves : List (Move T))
        → IsLawful engine → IsRun engine moves (on n (steps (new_service max) calls))
        → StartsFresh engine None (new_link engine) moves }
{
    each_alone::<T>();
}

/// Where a cleaning frees a connection, its server has done the reset that was marked last, and
/// is in no transaction.
pub fn left_clean<V, T>()
    ensures freed { (engine : AnyServer V T) (max lease : ℕ) (calls : List (Call T))
        (moves : List (Move T))
        → IsLawful engine
        → IsRun engine moves
        (on (cleaning_over T (service_after (new_service max) calls) lease).number
        (steps (new_service max) calls))
        → (cleaning_over T (service_after (new_service max) calls) lease).reply
        ≡ Back (Some Free)
        → IsLeftClean (owed_after engine None (new_link engine) moves)
        (link_after engine (new_link engine) moves) }
    // So it is wherever an idle connection is found clean.
    ensures idle { (engine : AnyServer V T) (max n : ℕ) (calls : List (Call T))
        (moves : List (Move T))
        → IsLawful engine → IsRun engine moves (on n (steps (new_service max) calls))
        → (line_after new_line (acts_of (on n (steps (new_service max) calls)))).stage ≡ Idle
        → is_clean (line_after new_line (acts_of (on n (steps (new_service max) calls)))).heard.mark
        (line_after new_line (acts_of (on n (steps (new_service max) calls)))).heard.descriptor
        ≡ true
        → IsLeftClean (owed_after engine None (new_link engine) moves)
        (link_after engine (new_link engine) moves) }
{
    each_alone::<T>();
    line_by_history::<T>();
}

/// While an answer or an acknowledgement is awaited there is a packet that the server may take, a
/// thing that it may say, or something on its way to the client (each leaves less to do: `laws`).
pub fn never_stuck<V, T>()
    ensures { (engine : AnyServer V T) (max n : ℕ) (calls : List (Call T))
        (moves : List (Move T))
        → IsLawful engine → IsRun engine moves (on n (steps (new_service max) calls))
        → Waits (line_after new_line (acts_of (on n (steps (new_service max) calls)))).stage
        → CanGo (link_after engine (new_link engine) moves) }
{
    each_alone::<T>();
}

/// What a request is told is what a server of one's own would tell it: one with the same answers,
/// to which nobody else's requests came, and of which no reset is asked; a new one with each
/// lease of a used connection, or one in a ticket's transaction
/// (`tds_service::table_laws::asks_for_reset`).
pub fn as_if_alone<V, T>()
    ensures begins { (engine : AnyServer V T) (max n : ℕ) (calls : List (Call T))
        (moves : List (Move T)) (r : ℕ)
        → IsLawful engine → ResetsFirst engine
        → IsRun engine moves (on n (steps (new_service max) calls))
        → Begins (given r (on n (steps (new_service max) calls)))
        (told_of (answered_alone engine (new_beside engine) r moves)) }
    ensures whole { (engine : AnyServer V T) (max n : ℕ) (calls : List (Call T))
        (moves : List (Move T)) (r : ℕ)
        → IsLawful engine → ResetsFirst engine
        → IsRun engine moves (on n (steps (new_service max) calls))
        → finishes r (on n (steps (new_service max) calls)) ≡ true
        → given r (on n (steps (new_service max) calls))
        ≡ told_of (answered_alone engine (new_beside engine) r moves) }
    ensures beside { (engine : AnyServer V T) (max n : ℕ) (calls : List (Call T))
        (moves : List (Move T))
        → IsLawful engine → ResetsFirst engine
        → IsRun engine moves (on n (steps (new_service max) calls))
        → IsBeside engine.settings (beside_after engine (new_beside engine) moves) }
{
    each_alone::<T>();
}
