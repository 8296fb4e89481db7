//! Samples of 17 to 32 bits.
ghost use Rattle.std.specs.Prelude.{◌≡◌, ◌+◌, ◌*◌, ◌^◌, ◌<◌, ◌≤◌, All, drop, flat_map, take};
ghost use Rattle.std.proofs.Common.{rules};
ghost use Rattle.rice_bits.specs.Bits.{word};
ghost use Rattle.rice_fast.specs.FieldsAhead.{CanLook};
ghost use Rattle.rice_samples.proofs.lemmas.setting.BitsOfLanes.{word_id, word_splits, word_row};

use crate::ahead::{number_ahead, wide_words_ahead, words_ahead};
use crate::lanes::SampleLanes;
use crate::vectors::{
    Words, byte_fours, half_ranks, near_ways, spelled_in_three_bytes, tops, write_selected,
};
use rice_bits::BitsAhead;
use rice_samples::Setting;
use std::simd::prelude::*;

/// The greatest width of words that are taken in lanes.
const MOST_IN_LANES: u32 = 24;

/// Ones in all bits of eight lanes, and then zeros: a mask of the first `n` lanes begins `8 - n` places after the front.
static ONES: [u32; 16] = [
    4294967295, 4294967295, 4294967295, 4294967295, 4294967295, 4294967295, 4294967295, 4294967295,
    0, 0, 0, 0, 0, 0, 0, 0,
];

/// Returns the eight words of `width` bits after the first `skip` bits ahead, read one by one. A call: in a caller's loop, the compiler
/// would compute all their places before it.
#[inline(never)]
fn words_one_by_one(ahead: &BitsAhead<'_>, skip: usize, width: u32) -> Words
    requires width { width ≤ 32 }
    requires there { CanLook (skip + 256) ahead.now }
    ensures fit { All (λ v. v < 2 ^ width) result.lanes }
    ensures bits { flat_map (word width) result.lanes ≡ take (8 * width) (drop skip ahead.now) }
{
    let mut words = [0; 8];
    for i in 0..8 {
        words[i] = number_ahead(ahead, skip + i * width as usize, width);
    }
    Words::of(u32x8::from_array(words))
}

/// Returns the eight words of 32 bits after the first `skip` bits ahead.
#[inline(always)]
fn whole_words_ahead(ahead: &BitsAhead<'_>, skip: usize) -> Words
    requires { CanLook (skip + 256) ahead.now }
    ensures fit { All (λ v. v < 2 ^ 32) result.lanes }
    ensures bits { flat_map (word 32) result.lanes ≡ take 256 (drop skip ahead.now) }
{
    let first = words_ahead(ahead, skip, 8);
    let second = words_ahead(ahead, skip + 128, 8);
    let bytes = first.shuffle(
        second,
        [
            0, 1, 2, 3, 4, 5, 6, 7, 8, 9, 10, 11, 12, 13, 14, 15, 16, 17, 18, 19, 20, 21, 22, 23,
            24, 25, 26, 27, 28, 29, 30, 31,
        ],
    );
    Words::of(u32x8::from_le_bytes(byte_fours(bytes, true)))
}

impl SampleLanes for Words {
    const BITS: u32 = 32;

    ghost BITS = { 32 };

    const ID_LEN: u32 = 5;

    ghost ID_LEN = { 5 };

    ghost below = { 16 };

    ghost bits_are = { Prim.search rules };

    ghost id_is = { λ s has. word_id s has.more };

    ghost splits = { word_splits };

    ghost row = { word_row };

    #[inline(always)]
    fn words_ahead(ahead: &BitsAhead<'_>, skip: usize, width: u32) -> Self {
        if width == Self::BITS {
            return whole_words_ahead(ahead, skip);
        }
        if width == 0 || width > MOST_IN_LANES {
            return words_one_by_one(ahead, skip, width);
        }
        Words::of(wide_words_ahead(ahead, skip, width))
    }

    #[inline(always)]
    fn of_bytes(from: &[u8]) -> Self {
        Words::of(u8x8::from_slice(from).cast::<u32>())
    }

    #[inline(always)]
    fn first(self, count: usize) -> Self {
        if count == 8 {
            return self;
        }
        Words::of(self.lanes & u32x8::from_slice(&ONES[8 - count..]))
    }

    #[inline(always)]
    fn number_at(self, place: usize) -> u32 {
        self.lanes.to_array()[place]
    }

    #[inline(always)]
    fn in_turn(self, greatest: u32, before: u32) -> Self {
        let ways = near_ways(self).lanes.to_array();
        let half = half_ranks(self);
        let tops = tops(greatest, self, half).lanes.to_array();
        let half = half.lanes.to_array();
        let all = self.lanes.to_array();
        let mut numbers = [0; 8];
        write_selected::<Words, 8>(greatest, before, &all, &ways, &half, &tops, &mut numbers);
        Words::of(u32x8::from_array(numbers))
    }

    #[inline(always)]
    fn write_bytes(self, setting: &Setting, bytes: &mut [u8]) {
        if setting.width() == 3 {
            spelled_in_three_bytes(setting, self).copy_to_slice(bytes);
        } else {
            let words = self.lanes - u32x8::splat(setting.offset() as u32);
            byte_fours(words.to_le_bytes(), setting.msb()).copy_to_slice(bytes);
        }
    }
}
