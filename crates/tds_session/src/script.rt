//! The batch language as an engine.
ghost use Rattle.tds_session.specs.Language.{statements_of};
ghost use Rattle.tds_session.specs.Script.{step_of};
ghost use Rattle.tds_session.specs.Statements.{IsStatement};
ghost use Rattle.tds_session.specs.Laws.Spells.{spells};
ghost use Rattle.tds_session.specs.Laws.Effects.{step_is};
ghost use Rattle.tds_session.specs.Laws.Packets.{step_fits};

use crate::NoMemory;
use crate::engine::Engine;
use crate::parsing::parse_text;
use crate::running::run;
use crate::session::Session;
use crate::statement::Statement;
use std::alloc::Global;
use tds_token::Token;

/// The batch language: statements separated by `;`, which speak, give rows, set and get the
/// session's values, begin and end transactions, and fail.
#[derive(Clone, Copy, Debug)]
pub struct ScriptEngine;

impl Engine for ScriptEngine {
    type Stmt = Statement;

    ghost statements_of = { λ _. statements_of };

    ghost step_of = { λ _. step_of };

    ghost is_statement = { λ _. IsStatement };

    ghost spells = { λ _. spells };

    ghost is_effect = { λ _. step_is };

    ghost fits_packet = { λ _. step_fits };

    fn parse(&self, alloc: Global, text: &[u16]) -> Result<Option<Vec<Statement>>, NoMemory> {
        parse_text(alloc, text)
    }

    fn step(
        &self,
        alloc: Global,
        session: &mut Session,
        statement: &Statement,
        tokens: &mut Vec<Token>,
    ) -> Result<(), NoMemory> {
        let mut after = session.draft();
        let mut given = Vec::new(alloc);
        run(alloc, &mut after, statement, &mut given)?;
        tokens.append(&mut given)?;
        *session = after;
        Ok(())
    }
}
