//! What an application of a relay keeps, by how connections are shared. Each function does nothing when it runs:
//! its contract is the law.
ghost use Rattle.std.specs.Prelude.{◌≡◌, ℕ, List};
ghost use Rattle.tds_relay.specs.Pool.{Sharing};
ghost use Rattle.tds_relay.specs.Giving.{Visit};
ghost use Rattle.tds_relay.specs.Core.{Core, MayMove, MayMoveAll, Move, moved_all, new_core};
ghost use Rattle.tds_relay.specs.Law.{KeepsOwn, KeepsOwnOrRests, KeepsSession, KeepsTransaction};
ghost use Rattle.tds_relay.specs.Law.{core_behind};
ghost use Rattle.tds_relay.specs.declared.pool.Mode.TheVariants.{Sessions};

/// An application keeps its session, which is the connection that it holds, by the lease by which it holds it: behind any
/// moves. It may hold that no more only where its request asks for a full reset, or for one that keeps its transaction; it
/// was to be closed before, or has left; or its connection is lost, or says what no server may. One that asks to keep its
/// transaction is parted from the connection only where none is open there; else it holds that by another lease. Whoever else
/// does whatever parts it from nothing. So it is of a relay whose mode is by sessions.
pub fn keeps_session()
    ensures moves { (sharing : Sharing) (key : ℕ) (moves : List Move) (move : Move)
        → MayMoveAll (new_core sharing) moves → MayMove (moved_all (new_core sharing) moves) move
        → (moved_all (new_core sharing) moves).pool.mode ≡ Sessions
        → KeepsSession key (moved_all (new_core sharing) moves) move }
    /// What its request asks for is what its own bytes have said, from where it enters: the last request that has begun asks
    /// for that reset, and it has neither been told of it nor taken the request back.
    ensures own { (sharing : Sharing) (key : ℕ) (v : Visit sharing key) (move : Move)
        → MayMove (core_behind v) move → (core_behind v).pool.mode ≡ Sessions → KeepsOwn v move }
{}

/// A relay's mode is what it was as it was made: no move changes it.
pub fn keeps_mode()
    ensures { (h : Core) (moves : List Move) → (moved_all h moves).pool.mode ≡ h.pool.mode }
{}

/// However connections are shared, an application keeps the one that it holds, by the lease by which it holds it, but for
/// the same reasons; or it is parked, where it rested: its end asks nothing and has taken nothing back that the server
/// hasn't acknowledged, and on its connection no transaction is open and no news of a reset is to come. So a transaction
/// never changes its connection, but may end with it, and no request that is out does. No call for another application or for
/// a connection parks it (`CausesMove` of `specs/Core`).
pub fn keeps_transaction()
    ensures moves { (sharing : Sharing) (key : ℕ) (moves : List Move) (move : Move)
        → MayMoveAll (new_core sharing) moves → MayMove (moved_all (new_core sharing) moves) move
        → KeepsTransaction key (moved_all (new_core sharing) moves) move }
    /// What its request asks for is what its own bytes have said.
    ensures own { (sharing : Sharing) (key : ℕ) (v : Visit sharing key) (move : Move)
        → MayMove (core_behind v) move → KeepsOwnOrRests v move }
{}
