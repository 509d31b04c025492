//! The player for C: a schedule's text in, its report's text out. `include/tds_play.h` declares it.
#![tactic(auto)]

mod version;

ghost use Rattle.std.specs.Prelude.{◌≡◌, ◌<◌, ◌≤◌, ◌⊎◌, length, string_bytes, IfOk, IfErr, IfSome};
ghost use Rattle.tds_play.specs.Runs.{IsLineOf};
ghost use Rattle.tds_play_c.specs.Plays.{IsReportText, Writes, WritesReport, WritesFault};

use std::alloc::Global;
use tds_play::{MemoryCarrier, laws, play_text};

/// Plays a schedule over links in memory that never fail, and writes its report's text to `out`.
/// 0 where it was played. 1 where not: the whole line that says why is in `out`. 2 where `out` has no
/// room: `count` says how much is wanted.
#[unsafe(no_mangle)]
pub extern "C" fn tds_play(alloc: Global, schedule: &[u8], out: &mut [u8], count: &mut usize) -> u8
    ensures known { (result ≡ 0) ⊎ (result ≡ 1) ⊎ (result ≡ 2) }
    ensures played { result ≡ 0 → WritesReport schedule.now out.old out.new count.new }
    ensures refused { result ≡ 1 → WritesFault schedule.now out.old out.new count.new }
    ensures room { result ≡ 2 → (out.new ≡ out.old) × (length out.old < count.new) }
    ensures within { (result ≡ 2 → ⊥) → count.new ≤ length out.old }
{
    match report_or_line(alloc, schedule) {
        Ok(report) => put(report.as_slice(), 0, out, count),
        Err(Some(line)) => put(line.as_bytes(), 1, out, count),
        Err(None) => put(b"error: memory\n", 1, out, count),
    }
}

/// Writes a text, and answers this status; or 2 where there is no room for it.
fn put(text: &[u8], status: u8, out: &mut [u8], count: &mut usize) -> u8
    ensures room { length out.old < length text.now
        → (result ≡ 2) × (out.new ≡ out.old) × (count.new ≡ length text.now) }
    ensures there { length text.now ≤ length out.old
        → (result ≡ status) × Writes text.now out.old out.new count.new }
{
    *count = text.len();
    if text.len() > out.len() {
        return 2;
    }
    out[..text.len()].copy_from_slice(text);
    status
}

/// The text of the report, or else the line that says why the schedule isn't played; `None` where
/// memory was refused.
fn report_or_line(alloc: Global, schedule: &[u8]) -> Result<Vec<u8>, Option<String>>
    ensures report { IfOk result (λ text. IsReportText schedule.now text.items) }
    ensures line { IfErr result
        (λ line. IfSome line (λ l. IsLineOf schedule.now (string_bytes l))) }
{
    let mut carrier = MemoryCarrier::new(alloc);
    let text = play_text(alloc, schedule, &mut carrier);
    laws::memory_never_fails();
    laws::memory_is_faithful();
    text
}
