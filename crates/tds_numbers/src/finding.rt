//! What has a number, and finding one of a list by halves.
ghost use Rattle.std.specs.Prelude.{◌≡◌, ◌≢◌, ◌+◌, ◌<◌, ◌≤◌, ◌^◌, ℕ, map, slice_index, length, IfSome, IfNone};
ghost use Rattle.std.specs.Ordering.{nat_cmp};
ghost use Rattle.tds_numbers.specs.Rising.{Rises};

use crate::steps::Steps;
use std::cmp::Ordering;
use std::sync::ledger::Ledger;

/// What has a number.
pub trait Numbered {
    /// It.
    ghost its: { Self → ℕ };

    /// How its number compares with that one. It is the only call that tells anything of it, and it is one step.
    fn tell<L: Ledger>(&self, number: u64, steps: &mut Steps<L>) -> Ordering
        ensures told { result ≡ nat_cmp (its self.now) number }
        ensures cost { steps.new ≡ steps.old + 1 };
}

/// The place of what has this number, counted from 0, among what stands by rising numbers: in at most as
/// many steps as how many there are has binary digits, so 7 among 64 and 11 among 1,024.
pub fn find_in<T: Numbered, L: Ledger>(
    among: &[T],
    number: u64,
    steps: &mut Steps<L>,
) -> Option<usize>
    requires rising { Rises (map T.its among.now) }
    ensures found { IfSome result (λ place. (place < length among.now)
        × (slice_index (map T.its among.now) place ≡ number)) }
    ensures absent { IfNone result ((place : ℕ) → place < length among.now
        → slice_index (map T.its among.now) place ≢ number) }
    ensures cost { (most : ℕ) → length among.now < 2 ^ most → steps.new ≤ steps.old + most }
{
    let mut low = 0;
    let mut high = among.len();
    'halves: while low < high {
        let middle = low + (high - low) / 2;
        match among[middle].tell(number, steps) {
            Ordering::Less => low = middle + 1,
            Ordering::Equal => return Some(middle),
            Ordering::Greater => high = middle,
        }
    }
    None
}
