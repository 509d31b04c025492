//! What stands by numbers that don't fall: places among it, found by halves.
ghost use Rattle.std.specs.Prelude.{◌≡◌, ◌+◌, ◌<◌, ◌≤◌, ◌^◌, ℕ, map, slice_index, length};
ghost use Rattle.tds_relay.specs.Sorted.{Climbs, bound};

use std::cmp::Ordering;
use std::sync::ledger::Ledger;
use tds_numbers::{Numbered, Steps};

/// How many of these have a number below this one, or that one itself where `past`: in at most as many
/// steps as how many there are has binary digits, so 7 among 64 and 11 among 1,024.
pub(crate) fn place_by<T: Numbered, L: Ledger>(
    among: &[T],
    number: u64,
    past: bool,
    steps: &mut Steps<L>,
) -> usize
    requires climbs { Climbs (map T.its among.now) }
    ensures within { result ≤ length among.now }
    ensures below { (place : ℕ) → place < result
        → slice_index (map T.its among.now) place < bound number past }
    ensures above { (place : ℕ) → result ≤ place → place < length among.now
        → bound number past ≤ slice_index (map T.its among.now) place }
    ensures cost { (most : ℕ) → length among.now < 2 ^ most → steps.new ≤ steps.old + most }
{
    let mut low = 0;
    let mut high = among.len();
    'halves: while low < high {
        let middle = low + (high - low) / 2;
        match (among[middle].tell(number, steps), past) {
            (Ordering::Less, _) => low = middle + 1,
            (Ordering::Equal, true) => low = middle + 1,
            (Ordering::Equal, false) => high = middle,
            (Ordering::Greater, _) => high = middle,
        }
    }
    low
}
