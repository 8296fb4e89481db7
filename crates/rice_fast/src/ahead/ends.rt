//! The ends of the fundamental sequences in a word, in lanes.
ghost use Rattle.std.specs.Prelude.{◌≡◌, ◌+◌, ◌-◌, ◌*◌, ◌<◌, ◌≤◌, ◌++◌, length, replicate, take, drop};
ghost use Rattle.rice_bits.specs.Bits.{word};
ghost use Rattle.rice_fast.specs.ahead.{ends_after, in_lanes, places_after as places_after_of};

use crate::ahead::tables_of_ends::row_of_byte_at;
use std::simd::prelude::*;

/// Places that no lane has, and then the places of all sixteen lanes.
static SLIDE: [u8; 64] = [
    128, 128, 128, 128, 128, 128, 128, 128, 128, 128, 128, 128, 128, 128, 128, 128, 128, 128, 128,
    128, 128, 128, 128, 128, 128, 128, 128, 128, 128, 128, 128, 128, 128, 128, 128, 128, 128, 128,
    128, 128, 128, 128, 128, 128, 128, 128, 128, 128, 0, 1, 2, 3, 4, 5, 6, 7, 8, 9, 10, 11, 12, 13,
    14, 15,
];

/// Returns the places of the lanes that stand as many lanes further on as the first `place` bytes of a word have ones, beside `zeros`.
#[inline(always)]
fn lane_places_moved_by_ones(place: usize, zeros: usize) -> u8x16
    requires place { place ≤ 6 }
    requires zeros { zeros ≤ 8 * place }
    ensures { result ≡ places_after_of (8 * place - zeros) }
{
    // Nothing is subtracted to find the address, as it would be from the number of ones.
    u8x16::from_slice(&SLIDE[48 - 8 * place + zeros..])
}

/// Moves lanes as many places on as the first `place` bytes of a word have ones, beside `zeros`, with zeros before them.
#[inline(always)]
fn lanes_moved_by_ones(lanes: u8x16, place: usize, zeros: usize) -> u8x16
    requires place { place ≤ 6 }
    requires zeros { zeros ≤ 8 * place }
    requires lanes { length lanes ≡ 16 }
    ensures { result ≡ take 16 (replicate (8 * place - zeros) 0 ++ lanes) }
{
    lanes.swizzle_dyn(lane_places_moved_by_ones(place, zeros))
}

/// Returns the ends of the ones of `byte`, which stands at `place` of a word.
#[inline(always)]
fn ends_of_byte_at(place: usize, byte: u8) -> u8x16
    requires { place < 7 }
    ensures { result ≡ in_lanes (ends_after (8 * place) (word 8 byte)) }
{
    u8x8::from_array(row_of_byte_at(place, byte)).shuffle(
        u8x8::splat(0),
        [0, 1, 2, 3, 4, 5, 6, 7, 8, 9, 10, 11, 12, 13, 14, 15],
    )
}

/// Returns the byte at `place` of a word.
#[inline(always)]
fn byte_of_word_at(front: u64, place: usize) -> u8
    requires { place < 8 }
    ensures { word 8 result ≡ take 8 (drop (8 * place) (word 64 front)) }
{
    front.to_be_bytes()[place]
}

/// Returns the number of ones in the first bytes of a word.
#[inline(always)]
pub fn count_ones_in_first_bytes(front: u64, bytes: usize) -> usize
    requires { (1 ≤ bytes) × (bytes ≤ 8) }
    ensures value { result ≡ length (ends_after 0 (take (8 * bytes) (word 64 front))) }
    ensures most { result ≤ 8 * bytes }
{
    (front >> (64 - 8 * bytes)).count_ones() as usize
}

/// Returns the number of zeros in the first bytes of a word.
#[inline(always)]
fn count_zeros_in_first_bytes(front: u64, bytes: usize) -> usize
    requires { (1 ≤ bytes) × (bytes ≤ 8) }
    ensures value { result + length (ends_after 0 (take (8 * bytes) (word 64 front))) ≡ 8 * bytes }
    ensures most { result ≤ 8 * bytes }
{
    (!front >> (64 - 8 * bytes)).count_ones() as usize
}

/// Adds the ends of the ones of the byte at `place` of a word to those of the bytes before it.
#[inline(always)]
fn with_ends_of_byte(front: u64, place: usize, before: u8x16) -> u8x16
    requires place { (1 ≤ place) × (place < 7) }
    requires before { before ≡ in_lanes (ends_after 0 (take (8 * place) (word 64 front))) }
    ensures { result ≡ in_lanes (ends_after 0 (take (8 * (place + 1)) (word 64 front))) }
{
    let more = ends_of_byte_at(place, byte_of_word_at(front, place));
    before | lanes_moved_by_ones(more, place, count_zeros_in_first_bytes(front, place))
}

/// Returns the ends of the ones of the first bytes of a word, up to the number of lanes, and zeros after them.
#[inline(always)]
pub fn first_ends(front: u64, bytes: usize) -> u8x16
    requires { (1 ≤ bytes) × (bytes ≤ 7) }
    ensures { result ≡ in_lanes (ends_after 0 (take (8 * bytes) (word 64 front))) }
{
    let mut ends = ends_of_byte_at(0, byte_of_word_at(front, 0));
    for place in 1..bytes {
        ends = with_ends_of_byte(front, place, ends);
    }
    ends
}
