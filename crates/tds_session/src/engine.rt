//! What a server runs: the statements of a text, and what each one does.
ghost use Rattle.std.specs.Prelude.{◌≡◌, ◌++◌, List, ℕ, Option, Some, IfOk, OnOk, OnErr, option_map};
ghost use Rattle.std.specs.List.{All};
ghost use Rattle.tds_session.specs.Effects.{Effect};
ghost use Rattle.tds_session.specs.Lawful.{IsEffect, FitsPacket};
ghost use Rattle.tds_session.specs.Session.{SessionState, IsSession};

use crate::NoMemory;
use crate::session::Session;
use std::alloc::Global;
use tds_token::Token;

/// A language of statements, and what they do in a session. A server runs each text's statements
/// one after the other, one packet each.
///
/// Whatever the engine, each statement's tokens fit into one packet of the smallest size, their
/// changes of the transaction are the session's, and none of them ends the answer.
pub trait Engine {
    /// A statement.
    type Stmt: Drop;

    /// The statements that a text spells, or none.
    ghost statements_of: { Self → List ℕ → Option (List Self.Stmt) };

    /// What a statement does in a session: the tokens that it gives, and the session after.
    ghost step_of: { Self → SessionState → Self.Stmt → Effect };

    /// What holds of each value of `Stmt`.
    ghost is_statement: { Self → Self.Stmt → Type 0 };

    /// The statements that this text spells, or None where it is not in the language.
    fn parse(&self, alloc: Global, text: &[u16]) -> Result<Option<Vec<Self::Stmt>>, NoMemory>
        ensures { IfOk result (λ found. option_map (λ v. v.items) found
            ≡ statements_of self.now text.now) };

    /// Runs a statement: appends its tokens, and leaves the session as it is after it. At want of
    /// memory both stay as they were.
    fn step(
        &self,
        alloc: Global,
        session: &mut Session,
        statement: &Self::Stmt,
        tokens: &mut Vec<Token>,
    ) -> Result<(), NoMemory>
        ensures tokens { OnOk result
            (tokens.new.items ≡ tokens.old.items
            ++ (step_of self.now session.old statement.now).tokens) }
        ensures session { OnOk result
            (session.new ≡ (step_of self.now session.old statement.now).after) }
        ensures refused { OnErr result
            ((tokens.new.items ≡ tokens.old.items) × (session.new ≡ session.old)) }
        ensures known { IsSession session.old × is_statement self.now statement.now };

    /// What a text spells are statements.
    ghost spells: { (engine : Self) (text : List ℕ) (found : List Self.Stmt)
        → statements_of engine text ≡ Some found → All (is_statement engine) found };

    /// The changes are the session's, and no token ends the answer.
    ghost is_effect: { (engine : Self) (session : SessionState) (statement : Self.Stmt)
        → IsEffect session (step_of engine session statement) };

    /// The tokens fit into a packet.
    ghost fits_packet: { (engine : Self) (session : SessionState) (statement : Self.Stmt)
        → IsSession session → is_statement engine statement
        → FitsPacket (step_of engine session statement) };
}
