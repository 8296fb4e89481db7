//! The levels of samples in lanes: from the bytes of samples, and to their patterns.
ghost use Rattle.std.specs.Prelude.{◌≡◌, ℕ, ◌*◌, ◌^◌, ◌<◌, ◌≤◌, drop, flat_map, get_or, length, map};
ghost use Rattle.std.specs.Simd.Lanes.{Each1};
ghost use Rattle.rice_samples.specs.Parameters.{value_count, values_at, width as width_of};
ghost use Rattle.rice_samples.specs.Residuals.{pattern as pattern_of};
ghost use Rattle.rice_samples.specs.PatternLanes.{words_in_order};
ghost use Rattle.rice_samples.specs.Spelling.{ordered_bytes, spellings};
ghost use Rattle.rice_fast.specs.BlocksAhead.{HasBits};

use crate::vectors::lanes::Lanes;
use crate::vectors::lanes::bytes::Bytes;
use crate::vectors::lanes::halves::Halves;
use crate::vectors::lanes::words::Words;
use crate::vectors::spelling_lanes::{byte_fours, byte_pairs};
use rice_samples::Setting;
use rice_samples::setting::greatest_level;
use std::simd::prelude::*;

/// The lanes in which the levels of samples of some numbers of bits are read from their bytes.
pub trait LevelLanes: Lanes {
    // Samples have more bits than these.
    ghost fewer: { ℕ };

    /// Returns the levels of the values that the bytes spell, one for each lane. Not all need be samples.
    fn levels_in(setting: &Setting, bytes: &[u8]) -> Self
        requires bits { HasBits fewer Self.bits setting.now }
        requires len { length bytes.now ≡ width_of setting.now * Self.COUNT }
        ensures { bytes.now ≡ spellings setting.now (values_at setting.now (Self.numbers result)) };
}

impl LevelLanes for Bytes {
    ghost fewer = { 0 };

    #[inline(always)]
    fn levels_in(setting: &Setting, bytes: &[u8]) -> Self {
        levels_of_words(setting, 1, Bytes::read(bytes))
    }
}

impl LevelLanes for Halves {
    ghost fewer = { 0 };

    #[inline(always)]
    fn levels_in(setting: &Setting, bytes: &[u8]) -> Self {
        if setting.bits() <= 8 {
            let words = Halves::of(u8x8::from_slice(bytes).cast::<u16>());
            return levels_of_words(setting, 1, words);
        }
        let pairs = byte_pairs(u8x16::from_slice(bytes), setting.msb());
        levels_of_words(setting, 2, Halves::of(u16x8::from_le_bytes(pairs)))
    }
}

impl LevelLanes for Words {
    ghost fewer = { 16 };

    #[inline(always)]
    fn levels_in(setting: &Setting, bytes: &[u8]) -> Self {
        if setting.width() == 3 {
            let msb = setting.msb();
            let low = first_threes(u8x16::from_slice(bytes), msb);
            let high = last_threes(u8x16::from_slice(&bytes[8..]), msb);
            let (low, high) = (u32x4::from_le_bytes(low), u32x4::from_le_bytes(high));
            let words = Words::of(low.shuffle(high, [0, 1, 2, 3, 4, 5, 6, 7]));
            return levels_of_words(setting, 3, words);
        }
        let fours = byte_fours(u8x32::from_slice(bytes), setting.msb());
        levels_of_words(setting, 4, Words::of(u32x8::from_le_bytes(fours)))
    }
}

/// Returns the levels of the values that are spelled as these words of `width` bytes, of which not all need be samples. It is laid out for
/// a width that the compiler knows, which is that of the setting.
#[inline(always)]
fn levels_of_words<L: Lanes>(setting: &Setting, width: u32, words: L) -> L
    requires width { width ≡ width_of setting.now }
    requires room { 8 * width ≤ L.bits }
    requires fit { (i : ℕ) → get_or (L.numbers words) i 0 < 2 ^ (8 * width) }
    ensures { spellings setting.now (values_at setting.now (L.numbers result))
        ≡ flat_map (ordered_bytes setting.now.msb width) (L.numbers words) }
{
    let _width = setting.width();
    let offset = setting.offset() as u32;
    let greatest = greatest_level(8 * width);
    words.plus(L::splat(offset)).and(L::splat(greatest))
}

/// Returns the first twelve bytes with a 0 after each three. These are in the opposite order if the most significant comes first.
#[inline(always)]
fn first_threes(bytes: u8x16, msb: bool) -> u8x16
    requires { length bytes ≡ 16 }
    ensures { result ≡ words_in_order msb 3 1 4 bytes }
{
    let zeros = u8x16::splat(0);
    if msb {
        return bytes.shuffle(
            zeros,
            [2, 1, 0, 16, 5, 4, 3, 16, 8, 7, 6, 16, 11, 10, 9, 16],
        );
    }
    bytes.shuffle(
        zeros,
        [0, 1, 2, 16, 3, 4, 5, 16, 6, 7, 8, 16, 9, 10, 11, 16],
    )
}

/// Returns the last twelve bytes as `first_threes` does the first.
#[inline(always)]
fn last_threes(bytes: u8x16, msb: bool) -> u8x16
    requires { length bytes ≡ 16 }
    ensures { result ≡ words_in_order msb 3 1 4 (drop 4 bytes) }
{
    let zeros = u8x16::splat(0);
    if msb {
        return bytes.shuffle(
            zeros,
            [6, 5, 4, 16, 9, 8, 7, 16, 12, 11, 10, 16, 15, 14, 13, 16],
        );
    }
    bytes.shuffle(
        zeros,
        [4, 5, 6, 16, 7, 8, 9, 16, 10, 11, 12, 16, 13, 14, 15, 16],
    )
}

/// Returns the patterns of the samples with these levels.
#[inline(always)]
pub fn patterns_of_levels<L: Lanes>(setting: &Setting, levels: L) -> L
    requires { setting.now.bits ≤ L.bits }
    ensures { Each1 (λ l. l < value_count setting.now) (L.numbers levels) →
        L.numbers result ≡ map (pattern_of setting.now) (values_at setting.now (L.numbers levels)) }
{
    let offset = setting.offset() as u32;
    let greatest = (setting.number_of_values() - 1) as u32;
    levels.minus(L::splat(offset)).and(L::splat(greatest))
}
