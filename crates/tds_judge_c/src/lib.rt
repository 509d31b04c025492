//! The judge for C: a connection's bytes in, its findings out. `include/tds_judge.h` declares it.
#![tactic(auto)]

mod judging;
mod plain;

ghost use Rattle.std.specs.Prelude.{◌≡◌, ◌≤◌, ◌⊎◌, false};
ghost use Rattle.tds_judge_c.specs.Judged.{Fills, Lacks, is_fit};

use crate::judging::{fit, judged};
use crate::plain::{TdsJudgeFinding, TdsJudgeLimits, TdsJudgePiece};
use std::alloc::Global;

/// Judges the pieces of one connection, whose bytes stand one behind the other in `bytes`, and writes
/// what is found to `findings`. 0 where it did. 1 where they have no room: `count` says how many are
/// wanted. 2 where the limits have more than 4,096 columns, or the pieces more bytes than are there. 3
/// without memory. But for 0 nothing is written.
#[unsafe(no_mangle)]
pub extern "C" fn tds_judge(
    alloc: Global,
    limits: &TdsJudgeLimits,
    pieces: &[TdsJudgePiece],
    bytes: &[u8],
    findings: &mut [TdsJudgeFinding],
    count: &mut usize,
) -> u8
    ensures judged { result ≡ 0
        → Fills limits.now pieces.now bytes.now findings.old findings.new count.new }
    ensures room { result ≡ 1 → Lacks limits.now pieces.now bytes.now findings.old count.new }
    ensures misfit { result ≡ 2 → is_fit limits.now pieces.now bytes.now ≡ false }
    ensures unfit { is_fit limits.now pieces.now bytes.now ≡ false → result ≡ 2 }
    ensures same { (result ≡ 0) ⊎ (findings.new ≡ findings.old) }
    ensures none { (result ≡ 2) ⊎ (result ≡ 3) → count.new ≡ 0 }
    ensures known { result ≤ 3 }
{
    *count = 0;
    if limits.columns > 4096 || !fit(pieces, bytes.len()) {
        return 2;
    }
    let Ok(found) = judged(alloc, limits, pieces, bytes) else {
        return 3;
    };
    *count = found.len();
    if found.len() > findings.len() {
        return 1;
    }
    findings[..found.len()].copy_from_slice(found.as_slice());
    0
}
