use crate::showing::fault::ShowFault;
use std::alloc::{AllocError, Global};
use std::fmt::Write;
use tds_text::put_token_line;
use tds_token::{Columns, EnvChange, Token, Tokens};

/// Appends a line for each token of an answer's data, and answers the columns that are known
/// after them.
pub(crate) fn put_tokens(
    alloc: Global,
    text: &mut String,
    columns: Columns,
    data: &[u8],
) -> Result<Columns, ShowFault> {
    let mut tokens = Tokens::new(data, columns);
    'tokens: while let Some(next) = tokens.next() {
        match next {
            Ok(token) => put_token(text, &token.own(alloc)?)?,
            Err(fault) => return Err(ShowFault::Token(fault.number())),
        }
    }
    Ok(tokens.columns())
}

/// A caller isn't told of changes of the session, and a report has no line for them.
fn put_token(text: &mut String, token: &Token) -> Result<(), AllocError> {
    match token {
        Token::Env(change) => put_env_change(text, *change),
        token => put_token_line(text, token),
    }
}

fn put_env_change(text: &mut String, change: EnvChange) -> Result<(), AllocError> {
    match change {
        EnvChange::Begin(descriptor) => writeln!(text, "  env begin {descriptor}"),
        EnvChange::Commit(descriptor) => writeln!(text, "  env commit {descriptor}"),
        EnvChange::Rollback(descriptor) => writeln!(text, "  env rollback {descriptor}"),
        EnvChange::ResetDone => text.push_str("  env reset\n"),
    }
}
