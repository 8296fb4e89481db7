//! Eight or sixteen words of a few bits at a time, from any bit of a slice on.
ghost use Rattle.std.specs.Prelude.{◌≡◌, ◌+◌, ◌-◌, ◌*◌, ◌/◌, ◌^◌, ◌<◌, ◌≤◌, All, drop, flat_map, length, map, slice_index, take};
ghost use Rattle.rice_bits.specs.Bits.{bits_of, word};

use std::simd::prelude::*;

/// For each width and each number of bits before the first of some words, a row.
macro_rules! rows_by_width_and_bit {
    ($row:ident, $($width:literal)*) => {
        [$(rows_by_width_and_bit!([$row $width] 0 1 2 3 4 5 6 7)),*]
    };
    ([$row:ident $width:literal] $($before:literal)*) => {
        [$($row!($width, $before)),*]
    };
}

pub(crate) use rows_by_width_and_bit;

/// The places of the two bytes in which each of eight words lies: the second byte, and then the first.
macro_rules! places {
    ($width:literal, $before:literal) => {
        places!([$width $before] 0 1 2 3 4 5 6 7)
    };
    ([$width:literal $before:literal] $($word:literal)*) => {
        [$(($before + $word * $width) / 8 + 1, ($before + $word * $width) / 8),*]
    };
}

/// The powers of 2 that move each of eight words to the front of its two bytes.
macro_rules! factors {
    ($width:literal, $before:literal) => {
        factors!([$width $before] 0 1 2 3 4 5 6 7)
    };
    ([$width:literal $before:literal] $($word:literal)*) => {
        [$(1 << (($before + $word * $width) % 8)),*]
    };
}

/// For each width up to 9 and each number of bits before the first of eight words, the places of their bytes.
static PLACES: [[[u8; 16]; 8]; 10] = rows_by_width_and_bit!(places, 0 1 2 3 4 5 6 7 8 9);

/// For each width up to 9 and each number of bits before the first of eight words, the powers of 2 that move them to the front.
static FACTORS: [[[u16; 8]; 8]; 10] = rows_by_width_and_bit!(factors, 0 1 2 3 4 5 6 7 8 9);

/// Returns the bytes at these places.
#[inline(always)]
pub fn bytes_at_places(bytes: u8x16, places: u8x16) -> u8x16
    requires { All (λ p. p < 16) places }
    ensures { result ≡ map (λ p. slice_index bytes p) places }
{
    bytes.swizzle_dyn(places)
}

/// Returns the eight words of `width` bits from bit `at` on.
#[inline(always)]
pub fn eight_words_from(bytes: &[u8], at: usize, width: u32) -> u16x8
    requires width { width ≤ 9 }
    requires room { at / 8 + 16 ≤ length bytes.now }
    ensures len { length result ≡ 8 }
    ensures fit { All (λ v. v < 2 ^ width) result }
    ensures bits { flat_map (word width) result ≡ take (8 * width) (drop at (bits_of bytes.now)) }
{
    let (row, before) = (width as usize, at % 8);
    let places = u8x16::from_array(PLACES[row][before]);
    let held = bytes_at_places(u8x16::from_slice(&bytes[at / 8..]), places);
    // In two steps, since a shift by all sixteen digits would be needed for words of none.
    let fronts = u16x8::from_le_bytes(held) * u16x8::from_array(FACTORS[row][before]);
    (fronts >> u16x8::splat(1)) >> u16x8::splat(15 - width as u16)
}

/// Returns the sixteen words of `width` bits from bit `at` on.
#[inline(always)]
pub fn sixteen_words_from(bytes: &[u8], at: usize, width: u32) -> u8x16
    requires width { width ≤ 8 }
    requires at { at < 2 ^ 32 }
    requires room { (at + 8 * width) / 8 + 16 ≤ length bytes.now }
    ensures len { length result ≡ 16 }
    ensures fit { All (λ v. v < 2 ^ width) result }
    ensures bits { flat_map (word width) result ≡ take (16 * width) (drop at (bits_of bytes.now)) }
{
    let first = eight_words_from(bytes, at, width);
    let second = eight_words_from(bytes, at + 8 * width as usize, width);
    first
        .shuffle(
            second,
            [0, 1, 2, 3, 4, 5, 6, 7, 8, 9, 10, 11, 12, 13, 14, 15],
        )
        .cast::<u8>()
}
