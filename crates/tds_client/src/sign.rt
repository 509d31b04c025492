//! What a session needs of an answer: of each token a sign, whoever reads it, and by which rules the
//! client hears it.

ghost use Rattle.std.specs.Prelude.{◌≡◌};
ghost use Rattle.tds_token.specs.Layout.{token_of};
ghost use Rattle.tds_client.specs.Signs.{sign_of};

use tds_token::{EnvChange, TokenRef};

/// Which of the three tokens says that something is done (MS-TDS 2.2.7.6, 2.2.7.7, 2.2.7.8).
#[derive(Clone, Copy, PartialEq, Eq, Debug)]
pub enum DoneKind {
    /// `FD`, DONE: a statement of a batch. It alone acknowledges an attention.
    Statement,
    /// `FE`, DONEPROC: a procedure.
    Procedure,
    /// `FF`, DONEINPROC: a statement inside a procedure.
    InProcedure,
}

/// What a session needs of one token of an answer.
#[derive(Clone, Copy, PartialEq, Eq, Debug)]
pub enum Sign {
    /// Nothing: a row, a text, a change of anything but a transaction.
    Nothing,
    /// A transaction began or ended, or a reset is done.
    Change(EnvChange),
    /// Something is done, with this status.
    Done { kind: DoneKind, status: u16 },
}

/// By which rules a client hears an answer.
#[derive(Clone, Copy, PartialEq, Eq, Debug)]
pub enum Rules {
    /// Those of the strict profile, in which nothing stands behind a final DONE.
    Strict,
    /// Those of any server of TDS 7.2 to 7.4.
    Any,
}

/// The sign of a token of the strict profile.
#[inline(always)]
pub fn sign_of(token: &TokenRef<'_>) -> Sign
    ensures { result ≡ sign_of (token_of token.now) }
{
    match token {
        TokenRef::Info(_) => Sign::Nothing,
        TokenRef::Error(_) => Sign::Nothing,
        TokenRef::ReturnStatus(_) => Sign::Nothing,
        TokenRef::Columns(_) => Sign::Nothing,
        TokenRef::Row(_) => Sign::Nothing,
        TokenRef::Env(change) => Sign::Change(*change),
        TokenRef::Done { status, .. } => Sign::Done {
            kind: DoneKind::Statement,
            status: *status,
        },
    }
}
