//! What holds of one connection in front of a server that keeps the rules, whatever it answers and
//! whatever is called. Each function does nothing when it runs: its contract is the law.

ghost use Rattle.std.specs.Prelude.{◌≡◌, ◌<◌, ◌++◌, ◌∷◌, ℕ, List, Bool, None, Some, true};
ghost use Rattle.tds_packet.specs.declared.status.Reset.TheVariants.{Full};
ghost use Rattle.tds_service.specs.Line.{Act, Idle, Lose, new_line};
ghost use Rattle.tds_service.specs.History.{given, history, line_after};
ghost use Rattle.tds_service.specs.Service.{is_clean};
ghost use Rattle.laws_conforming_server.specs.Lawful.{AnyServer, IsLawful, Session, told_of};
ghost use Rattle.laws_conforming_server.specs.Link.{IsRun, Link, May, Move, goes, link_after, new_link};
ghost use Rattle.laws_conforming_server.specs.Answering.{Begins, NoFault, answered, finishes};
ghost use Rattle.laws_conforming_server.specs.Agreeing.{AllInNamed, IsQuiet};
ghost use Rattle.laws_conforming_server.specs.Starting.{IsLeftClean, StartsFresh, owed_after};
ghost use Rattle.laws_conforming_server.specs.Alone.{IsBeside, ResetsFirst, answered_alone, left_of_session};
ghost use Rattle.laws_conforming_server.specs.Alone.{beside_after, new_beside};
ghost use Rattle.laws_conforming_server.specs.Working.{CanGo, Waits, Works, left_to_do};

/// What a request is told is a beginning of what the server answers to it, and all of that where it
/// is finished; whatever was asked before, cancelled, reset, or cut.
pub fn own_answers<V, T>()
    ensures begins { (engine : AnyServer V T) (acts : List (Act T)) (moves : List (Move T)) (r : ℕ)
        → IsLawful engine → IsRun engine moves (history new_line acts)
        → Begins (given r (history new_line acts))
        (told_of (answered engine (new_link engine) r moves)) }
    ensures whole { (engine : AnyServer V T) (acts : List (Act T)) (moves : List (Move T)) (r : ℕ)
        → IsLawful engine → IsRun engine moves (history new_line acts)
        → finishes r (history new_line acts) ≡ true
        → given r (history new_line acts)
        ≡ told_of (answered engine (new_link engine) r moves) }
{}

/// Behind a loss of the connection nothing more is told, and no request is finished; and what was
/// told before is a beginning of the request's own answer, whatever its server still does.
pub fn after_loss<V, T>()
    ensures told { (before after : List (Act T)) (r : ℕ)
        → given r (history new_line (before ++ Lose ∷ after)) ≡ given r (history new_line before) }
    ensures finished { (before after : List (Act T)) (r : ℕ)
        → finishes r (history new_line (before ++ Lose ∷ after))
        ≡ finishes r (history new_line before) }
    ensures begins { (engine : AnyServer V T) (before after : List (Act T)) (moves : List (Move T))
        (r : ℕ)
        → IsLawful engine → IsRun engine moves (history new_line (before ++ Lose ∷ after))
        → Begins (given r (history new_line before))
        (told_of (answered engine (new_link engine) r moves)) }
{}

/// Nothing that comes is a fault, until the connection is lost.
pub fn no_fault<V, T>()
    ensures { (engine : AnyServer V T) (acts : List (Act T)) (moves : List (Move T))
        → IsLawful engine → IsRun engine moves (history new_line acts)
        → NoFault (history new_line acts) }
{}

/// Where a connection is idle nothing is on its way, the server has nothing to say, and both ends
/// are in one transaction.
pub fn idle_is_quiet<V, T>()
    ensures { (engine : AnyServer V T) (acts : List (Act T)) (moves : List (Move T))
        → IsLawful engine → IsRun engine moves (history new_line acts)
        → (line_after new_line acts).stage ≡ Idle
        → IsQuiet (line_after new_line acts) (link_after engine (new_link engine) moves) }
{}

/// A request runs in the transaction that its header names, the one heard last when it was asked,
/// or in none behind its full reset (MS-TDS 2.2.5.3.2).
pub fn own_transaction<V, T>()
    ensures { (engine : AnyServer V T) (acts : List (Act T)) (moves : List (Move T))
        → IsLawful engine → IsRun engine moves (history new_line acts)
        → AllInNamed engine (new_link engine) moves }
{}

/// From a mark on each request that runs asks for that reset, and the server runs nothing before it
/// is done: the first that runs finds a fresh session, or the transaction that was kept, without
/// settings.
pub fn fresh_start<V, T>()
    ensures { (engine : AnyServer V T) (acts : List (Act T)) (moves : List (Move T))
        → IsLawful engine → IsRun engine moves (history new_line acts)
        → StartsFresh engine None (new_link engine) moves }
{}

/// Where an idle connection is found clean, which is when a cleaning frees it, its server has done
/// the reset that was marked last, and is in no transaction.
pub fn left_clean<V, T>()
    ensures { (engine : AnyServer V T) (acts : List (Act T)) (moves : List (Move T))
        → IsLawful engine → IsRun engine moves (history new_line acts)
        → (line_after new_line acts).stage ≡ Idle
        → is_clean (line_after new_line acts).heard.mark
        (line_after new_line acts).heard.descriptor ≡ true
        → IsLeftClean (owed_after engine None (new_link engine) moves)
        (link_after engine (new_link engine) moves) }
{}

/// While an answer or an acknowledgement is awaited there is a packet that the server may take, a
/// thing that it may say, or something on its way to the client; and each of these leaves less to
/// do.
pub fn never_stuck<V, T>()
    ensures waits { (engine : AnyServer V T) (acts : List (Act T)) (moves : List (Move T))
        → IsLawful engine → IsRun engine moves (history new_line acts)
        → Waits (line_after new_line acts).stage
        → CanGo (link_after engine (new_link engine) moves) }
    ensures lowers { (engine : AnyServer V T) (link : Link V T) (move : Move T)
        → May link move → Works move
        → left_to_do engine (goes engine link move) < left_to_do engine link }
{}

/// What a request is told is what a server of one's own would tell it: one with the same answers,
/// to which nobody else's requests came, and of which no reset is asked; a new one where a lease
/// begins, or one in the transaction that it keeps. Its session is that of the connection's
/// server, or where a reset is owed what the reset leaves; and it says as much of each answer.
pub fn as_if_alone<V, T>()
    ensures begins { (engine : AnyServer V T) (acts : List (Act T)) (moves : List (Move T)) (r : ℕ)
        → IsLawful engine → ResetsFirst engine → IsRun engine moves (history new_line acts)
        → Begins (given r (history new_line acts))
        (told_of (answered_alone engine (new_beside engine) r moves)) }
    ensures whole { (engine : AnyServer V T) (acts : List (Act T)) (moves : List (Move T)) (r : ℕ)
        → IsLawful engine → ResetsFirst engine → IsRun engine moves (history new_line acts)
        → finishes r (history new_line acts) ≡ true
        → given r (history new_line acts)
        ≡ told_of (answered_alone engine (new_beside engine) r moves) }
    ensures beside { (engine : AnyServer V T) (acts : List (Act T)) (moves : List (Move T))
        → IsLawful engine → ResetsFirst engine → IsRun engine moves (history new_line acts)
        → IsBeside engine.settings (beside_after engine (new_beside engine) moves) }
    // Behind a full reset, whatever was before, it is as behind a login.
    ensures fresh { (engine : AnyServer V T) (s : Session V)
        → left_of_session engine.settings (Some Full) s ≡ (new_link engine).server.session }
{}
