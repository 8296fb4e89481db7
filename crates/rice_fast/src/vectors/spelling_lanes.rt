//! The bytes of samples in lanes, from their levels, and from patterns that use all their bits.
ghost use Rattle.std.specs.Prelude.{◌≡◌, ◌⊎◌, ◌^◌, ◌<◌, All, length, take};
ghost use Rattle.rice_samples.specs.Parameters.{value_count, values_at, width as width_of};
ghost use Rattle.rice_samples.specs.{Spelling.spellings, PatternLanes.OrdersWords, PatternLanes.words_in_order};

use crate::vectors::lanes::bytes::Bytes;
use crate::vectors::lanes::halves::Halves;
use crate::vectors::lanes::words::Words;
use rice_samples::Setting;
use std::simd::prelude::*;

/// Returns the bytes of the eight samples of three bytes with these levels, in the first lanes.
#[inline(always)]
pub fn spelled_in_three_bytes(setting: &Setting, levels: Words) -> u8x32
    requires three { width_of setting.now ≡ 3 }
    requires legal { All (λ l. l < value_count setting.now) levels.lanes }
    ensures value { take 24 result ≡ spellings setting.now (values_at setting.now levels.lanes) }
    ensures len { length result ≡ 32 }
{
    let words = (levels.lanes - u32x8::splat(setting.offset() as u32)).to_le_bytes();
    if setting.msb() {
        return words.shuffle(
            words,
            [
                2, 1, 0, 6, 5, 4, 10, 9, 8, 14, 13, 12, 18, 17, 16, 22, 21, 20, 26, 25, 24, 30, 29,
                28, 0, 0, 0, 0, 0, 0, 0, 0,
            ],
        );
    }
    words.shuffle(
        words,
        [
            0, 1, 2, 4, 5, 6, 8, 9, 10, 12, 13, 14, 16, 17, 18, 20, 21, 22, 24, 25, 26, 28, 29, 30,
            0, 0, 0, 0, 0, 0, 0, 0,
        ],
    )
}

/// Returns the bytes of samples of `WIDTH` bytes that use all bits of these. `patterns` has their patterns in sixteen bytes, each with its
/// most significant byte first.
#[inline(always)]
pub fn bytes_of_patterns<const WIDTH: usize>(setting: &Setting, patterns: u8x16) -> u8x16
    requires width { (WIDTH ≡ 1) ⊎ ((WIDTH ≡ 2) ⊎ (WIDTH ≡ 4)) }
    requires lanes { length patterns ≡ 16 }
    requires fit { All (λ v. v < 2 ^ 8) patterns }
    ensures words { OrdersWords setting.now.msb WIDTH patterns result }
    ensures len { length result ≡ 16 }
{
    if setting.msb() {
        return patterns;
    }
    if WIDTH == 1 {
        return patterns;
    }
    if WIDTH == 2 {
        return byte_pairs(patterns, true);
    }
    patterns.shuffle(
        patterns,
        [3, 2, 1, 0, 7, 6, 5, 4, 11, 10, 9, 8, 15, 14, 13, 12],
    )
}

/// Returns the bytes of words of two bytes, or those of each in the opposite order.
#[inline(always)]
pub fn byte_pairs(bytes: u8x16, turned: bool) -> u8x16
    requires { length bytes ≡ 16 }
    ensures { result ≡ words_in_order turned 2 0 8 bytes }
{
    if turned {
        return bytes.shuffle(
            bytes,
            [1, 0, 3, 2, 5, 4, 7, 6, 9, 8, 11, 10, 13, 12, 15, 14],
        );
    }
    bytes
}

/// Returns the bytes of words of four bytes, or those of each in the opposite order.
#[inline(always)]
pub fn byte_fours(bytes: u8x32, turned: bool) -> u8x32
    requires { length bytes ≡ 32 }
    ensures { result ≡ words_in_order turned 4 0 8 bytes }
{
    if turned {
        return bytes.shuffle(
            bytes,
            [
                3, 2, 1, 0, 7, 6, 5, 4, 11, 10, 9, 8, 15, 14, 13, 12, 19, 18, 17, 16, 23, 22, 21,
                20, 27, 26, 25, 24, 31, 30, 29, 28,
            ],
        );
    }
    bytes
}
