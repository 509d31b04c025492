//! The views of a play for C: a schedule's text in, a picture of its play out, or its report, or its
//! packets; and what is wrong with it. `include/tds_view.h` declares them.
#![tactic(auto)]

mod buffer;
mod explaining;
mod fault;
mod views;

ghost use Rattle.std.specs.Prelude.{◌≡◌, ◌<◌, ◌≤◌, ◌⊎◌, length};
ghost use Rattle.tds_view_c.specs.Written.{WritesReport, WritesText};

use buffer::put;
use explaining::{Finding, explain};
use fault::ViewFault;
use std::alloc::Global;
use views::{View, choice_of, view_of};

/// Plays a schedule over links in memory that never fail, and writes what is asked of its play to
/// `out`: 1 its picture as SVG, 2 the same in characters, 3 its report, 4 its packets, 5 the same with
/// what each means, 6 its connections after each event. Of a picture `first` and `last` say which
/// events are drawn, from 1, and 0 as if nothing was said.
/// 0 where it was written. 1 where the schedule isn't played: `tds_explain` says why. 2 where `out`
/// has no room: `count` says how much is wanted. 3 where memory was refused. 4 where there is no such
/// view.
#[unsafe(no_mangle)]
pub extern "C" fn tds_view(
    alloc: Global,
    view: u8,
    first: u32,
    last: u32,
    schedule: &[u8],
    out: &mut [u8],
    count: &mut usize,
) -> u8
    ensures known { result ≤ 4 }
    ensures written { result ≡ 0 → WritesText out.old out.new count.new }
    ensures report { result ≡ 0 → view ≡ 3 → WritesReport schedule.now out.old out.new count.new }
    ensures room { result ≡ 2 → (out.new ≡ out.old) × (length out.old < count.new) }
    ensures unplayed { result ≡ 1 → (out.new ≡ out.old) × (count.new ≡ 0) }
    ensures nothing { 3 ≤ result → (out.new ≡ out.old) × (count.new ≡ 0) }
{
    *count = 0;
    let Some(view) = View::of(view) else { return 4 };
    let text = match view_of(alloc, view, choice_of(first, last), schedule) {
        Ok(text) => text,
        Err(ViewFault::Unplayed) => return 1,
        Err(ViewFault::Memory) => return 3,
    };
    if put(text.as_slice(), out, count) {
        0
    } else {
        2
    }
}

/// Writes what is to be said of a schedule to `out`, a line for each thing: `schedule:LINE:COLUMN: ..`.
/// 0 where nothing is wrong and none of its events is refused. 1 where it isn't played: what is wrong
/// is said. 2 where `out` has no room: `count` says how much is wanted. 3 where memory was refused.
/// 4 where it is played and events are refused: which ones, by which rule.
#[unsafe(no_mangle)]
pub extern "C" fn tds_explain(
    alloc: Global,
    schedule: &[u8],
    out: &mut [u8],
    count: &mut usize,
) -> u8
    ensures known { result ≤ 4 }
    ensures written { (result ≡ 0) ⊎ (result ≡ 1) ⊎ (result ≡ 4)
        → WritesText out.old out.new count.new }
    ensures room { result ≡ 2 → (out.new ≡ out.old) × (length out.old < count.new) }
    ensures nothing { result ≡ 3 → (out.new ≡ out.old) × (count.new ≡ 0) }
{
    *count = 0;
    let Ok(said) = explain(alloc, schedule) else {
        return 3
    };
    if !put(said.text.as_bytes(), out, count) {
        return 2;
    }
    match said.finding {
        Finding::Well => 0,
        Finding::Unplayed => 1,
        Finding::Refused => 4,
    }
}
