//! A judge's walk over pieces.

ghost use Rattle.std.specs.Prelude.{◌≡◌, ◌≤◌, IfOk, OnOk, length, map, true};
ghost use Rattle.tds_judge.specs.Framing.{run_of, steps};
ghost use Rattle.tds_judge_c.specs.Judged.{Finds, fits, heard, heard_all, shown};

use crate::plain::{TdsJudgeFinding, TdsJudgeLimits, TdsJudgePiece};
use std::alloc::{AllocError, Global};
use tds_judge::{Direction, Finding, Judge};

/// Whether so many bytes are those of all pieces, or more.
pub fn fit(pieces: &[TdsJudgePiece], length: usize) -> bool
    ensures { result ≡ fits pieces.now length }
{
    let mut left = length;
    'pieces: for piece in pieces {
        if piece.length > left {
            return false;
        }
        left -= piece.length;
    }
    true
}

/// Hands bytes to the judge.
fn hand(
    judge: &mut Judge,
    direction: Direction,
    time: u64,
    bytes: &[u8],
    found: &mut Vec<Finding>,
) -> Result<(), AllocError>
    ensures { OnOk result ((run_of judge.new found.new.items)
        ≡ steps direction time bytes.now (run_of judge.old found.old.items)) }
{
    match judge.take(direction, time, bytes, found) {
        Ok(()) => Ok(()),
        Err(_) => Err(AllocError),
    }
}

/// Hands a piece to the judge.
fn hear(
    judge: &mut Judge,
    piece: TdsJudgePiece,
    bytes: &[u8],
    found: &mut Vec<Finding>,
) -> Result<(), AllocError>
    ensures { OnOk result ((run_of judge.new found.new.items)
        ≡ heard piece bytes.now (run_of judge.old found.old.items)) }
{
    if piece.what == 0 {
        hand(judge, Direction::ToServer, piece.time, bytes, found)
    } else if piece.what == 1 {
        hand(judge, Direction::ToClient, piece.time, bytes, found)
    } else if piece.what == 2 {
        judge.borrow(piece.time, found)
    } else {
        judge.close(piece.time, found)
    }
}

/// Hands all pieces to the judge.
fn hear_all(
    judge: &mut Judge,
    pieces: &[TdsJudgePiece],
    bytes: &[u8],
    found: &mut Vec<Finding>,
) -> Result<(), AllocError>
    requires { fits pieces.now (length bytes.now) ≡ true }
    ensures { OnOk result ((run_of judge.new found.new.items)
        ≡ heard_all pieces.now bytes.now (run_of judge.old found.old.items)) }
{
    let mut rest = bytes;
    'pieces: for piece in pieces {
        let (here, later) = rest.split_at(piece.length);
        hear(judge, *piece, here, found)?;
        rest = later;
    }
    Ok(())
}

/// Findings as C has them.
fn show_all(alloc: Global, found: &[Finding]) -> Result<Vec<TdsJudgeFinding>, AllocError>
    ensures { IfOk result (λ all. all.items ≡ map shown found.now) }
{
    let mut all = Vec::new(alloc);
    'found: for finding in found {
        all.push(TdsJudgeFinding::of(finding))?;
    }
    Ok(all)
}

/// What is found of a connection, as C has it.
pub fn judged(
    alloc: Global,
    limits: &TdsJudgeLimits,
    pieces: &[TdsJudgePiece],
    bytes: &[u8],
) -> Result<Vec<TdsJudgeFinding>, AllocError>
    requires columns { limits.now.columns ≤ 4096 }
    requires fits { fits pieces.now (length bytes.now) ≡ true }
    ensures { IfOk result (λ all. Finds limits.now pieces.now bytes.now all.items) }
{
    let mut judge = Judge::new(alloc, limits.limits())?;
    let mut found = Vec::new(alloc);
    hear_all(&mut judge, pieces, bytes, &mut found)?;
    let all = show_all(alloc, found.as_slice())?;
    Ok(all)
}
