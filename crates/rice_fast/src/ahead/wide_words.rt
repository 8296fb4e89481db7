//! Eight words of up to 24 bits at a time, from any bit of a slice on.
ghost use Rattle.std.specs.Prelude.{◌≡◌, ◌+◌, ◌-◌, ◌*◌, ◌/◌, ◌^◌, ◌<◌, ◌≤◌, All, drop, flat_map, length, take};
ghost use Rattle.rice_bits.specs.Bits.{bits_of, word};

use crate::ahead::words::{bytes_at_places, rows_by_width_and_bit};
use std::simd::prelude::*;

/// The places of the four bytes in which each of four words lies, the last of them first.
macro_rules! quad_places {
    ($width:literal, $before:literal) => {
        quad_places!([$width $before] 0 1 2 3)
    };
    ([$width:literal $before:literal] $($word:literal)*) => {
        [$(
            ($before + $word * $width) / 8 + 3,
            ($before + $word * $width) / 8 + 2,
            ($before + $word * $width) / 8 + 1,
            ($before + $word * $width) / 8
        ),*]
    };
}

/// The powers of 2 that move each of four words to the front of its four bytes.
macro_rules! quad_factors {
    ($width:literal, $before:literal) => {
        quad_factors!([$width $before] 0 1 2 3)
    };
    ([$width:literal $before:literal] $($word:literal)*) => {
        [$(1 << (($before + $word * $width) % 8)),*]
    };
}

/// For each width up to 24 and each number of bits before the first of four words, the places of their bytes.
static PLACES: [[[u8; 16]; 8]; 25] =
    rows_by_width_and_bit!(quad_places, 0 1 2 3 4 5 6 7 8 9 10 11 12 13 14 15 16 17 18 19 20 21 22 23 24);

/// For each width, less its multiples of 8, and each number of bits before the first of four words, the powers of 2 that move them to the
/// front.
static FACTORS: [[[u32; 4]; 8]; 8] = rows_by_width_and_bit!(quad_factors, 0 1 2 3 4 5 6 7);

/// Returns the four words of `width` bits from bit `at` on.
#[inline(always)]
fn four_words_from(bytes: &[u8], at: usize, width: u32) -> u32x4
    requires width { (1 ≤ width) × (width ≤ 24) }
    requires room { at / 8 + 16 ≤ length bytes.now }
    ensures len { length result ≡ 4 }
    ensures fit { All (λ v. v < 2 ^ width) result }
    ensures bits { flat_map (word width) result ≡ take (4 * width) (drop at (bits_of bytes.now)) }
{
    let before = at % 8;
    let places = u8x16::from_array(PLACES[width as usize][before]);
    let held = bytes_at_places(u8x16::from_slice(&bytes[at / 8..]), places);
    let factors = u32x4::from_array(FACTORS[(width % 8) as usize][before]);
    (u32x4::from_le_bytes(held) * factors) >> u32x4::splat(32 - width)
}

/// Returns the eight words of `width` bits from bit `at` on.
#[inline(always)]
pub fn wide_words_from(bytes: &[u8], at: usize, width: u32) -> u32x8
    requires width { (1 ≤ width) × (width ≤ 24) }
    requires at { at < 2 ^ 32 }
    requires room { (at + 4 * width) / 8 + 16 ≤ length bytes.now }
    ensures len { length result ≡ 8 }
    ensures fit { All (λ v. v < 2 ^ width) result }
    ensures bits { flat_map (word width) result ≡ take (8 * width) (drop at (bits_of bytes.now)) }
{
    let first = four_words_from(bytes, at, width);
    let second = four_words_from(bytes, at + 4 * width as usize, width);
    first.shuffle(second, [0, 1, 2, 3, 4, 5, 6, 7])
}
