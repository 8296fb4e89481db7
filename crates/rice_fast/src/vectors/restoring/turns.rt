//! Numbers from their ranks, one after another. It is for numbers of which many are far from the one before.
ghost use Rattle.std.specs.Prelude.{◌≡◌, ◌+◌, ◌-◌, ◌/◌, ◌^◌, ◌<◌, ◌≤◌, All, drop, length, map, replicate, true};
ghost use Rattle.rice_samples.specs.Residuals.{last_number, rank_below, ranks_below};
ghost use Rattle.rice_samples.specs.NearNumbers.{way as way_of};

use crate::vectors::lanes::Lanes;
use crate::vectors::lanes::bytes::Bytes;
use crate::vectors::lanes::halves::Halves;
use crate::vectors::lanes::words::Words;
use crate::vectors::restoring::near::near_ways;
use std::simd::prelude::*;

/// Returns whether the last eight numbers are zeros, as they are after a block of eight.
#[inline(always)]
pub fn last_eight_are_zeros(numbers: Bytes) -> bool
    ensures { result ≡ true → drop 8 numbers.lanes ≡ replicate 8 0 }
{
    last_eight_widened(numbers.lanes).is_zero()
}

/// Returns the last eight numbers, in lanes of 16 bits.
#[inline(always)]
fn last_eight_widened(numbers: u8x16) -> Halves
    requires { length numbers ≡ 16 }
    ensures { result.lanes ≡ drop 8 numbers }
{
    Halves::of(
        numbers
            .shuffle(numbers, [8, 9, 10, 11, 12, 13, 14, 15])
            .cast::<u16>(),
    )
}

/// Returns half of each rank, up.
#[inline(always)]
pub fn half_ranks<L: Lanes>(ranks: L) -> L
    ensures { L.numbers result ≡ map (λ d. (d + 1) / 2) (L.numbers ranks) }
{
    ranks.half().plus(ranks.and(L::splat(1)))
}

/// Returns for each rank, of which there is half, the least number up to `greatest` that is too high for a near one.
#[inline(always)]
pub fn tops<L: Lanes>(greatest: u32, ranks: L, halves: L) -> L
    requires greatest { greatest < 2 ^ L.bits }
    requires halves { L.numbers halves ≡ map (λ d. (d + 1) / 2) (L.numbers ranks) }
    ensures { L.numbers result ≡ map (λ d. greatest - ((d + 1) / 2 - 1)) (L.numbers ranks) }
{
    L::splat(greatest).above(halves.above(L::splat(1)))
}

/// Writes `N` numbers up to `greatest` with these ranks: the first from `p`, and each other from the one before it. Of each rank there
/// are the way to a number that is near, half of it, and the least number too high for it. Returns the last number. It is never inlined: in a loop, branches would be made
/// of its selections.
#[inline(never)]
pub fn write_selected<L: Lanes, const N: usize>(
    greatest: u32,
    p: u32,
    ranks: &[L::Number],
    ways: &[L::Number],
    half_ranks: &[L::Number],
    tops: &[L::Number],
    numbers: &mut [L::Number],
) -> u32
    requires greatest { greatest < 2 ^ L.bits }
    requires before { p ≤ greatest }
    requires ranks { All (λ d. d ≤ greatest) (map L.number ranks.now) }
    requires ways { map L.number ways.now ≡ map (way_of (2 ^ L.bits)) (map L.number ranks.now) }
    requires half_ranks { map L.number half_ranks.now ≡ map (λ d. (d + 1) / 2) (map L.number ranks.now) }
    requires tops { map L.number tops.now ≡ map (λ d. greatest - ((d + 1) / 2 - 1)) (map L.number ranks.now) }
    requires count { length ranks.now ≡ N }
    requires len { length numbers.old ≡ N }
    ensures len { length numbers.new ≡ N }
    ensures fit { All (λ x. x ≤ greatest) (map L.number numbers.new) }
    ensures ranks { ranks_below (greatest + 1) p (map L.number numbers.new) ≡ map L.number ranks.now }
    ensures last { result ≡ last_number p (map L.number numbers.new) }
    ensures within { result ≤ greatest }
{
    let mut number = p;
    for i in 0..N {
        number = selected(
            greatest,
            number,
            L::value(ranks[i]),
            L::widened_way(ways[i]),
            L::value(half_ranks[i]),
            L::value(tops[i]),
        );
        numbers[i] = L::number_of(number);
    }
    number
}

/// Returns the number up to `greatest` with rank `d` from `p`: `way` away from `p` if it is near, `d` if `p` is too low for that, and
/// as far below `greatest` if `p` is too high. Of the rank there are `half`, and the least number too high for it, `top`.
#[inline(always)]
fn selected(greatest: u32, p: u32, d: u32, way: u32, half: u32, top: u32) -> u32
    requires before { p ≤ greatest }
    requires rank { d ≤ greatest }
    requires way { way ≡ way_of (2 ^ 32) d }
    requires half { half ≡ (d + 1) / 2 }
    requires top { top ≡ greatest - ((d + 1) / 2 - 1) }
    ensures fits { result ≤ greatest }
    ensures rank { rank_below (greatest + 1) p result ≡ d }
{
    // All are computed, so that the machine selects one and does not branch. No number is loaded to be selected alone: of a selection
    // from memory, the compiler makes a branch. Each test is one flag of the machine, the quickest to select by.
    let near = p.wrapping_add(way);
    let below = if p < half { d } else { near };
    if p >= top { greatest - d } else { below }
}
