//! Samples of 9 to 16 bits.
ghost use Rattle.std.specs.Prelude.{◌≡◌, ◌+◌, ◌*◌, ◌^◌, ◌<◌, ◌≤◌, All, drop, flat_map, length, take};
ghost use Rattle.std.proofs.Common.{rules};
ghost use Rattle.rice_bits.specs.Bits.{word};
ghost use Rattle.rice_samples.proofs.lemmas.setting.BitsOfLanes.{half_id, half_splits, half_row};

use crate::ahead::wide_words_ahead;
use crate::ahead::words::eight_words_from;
use crate::lanes::SampleLanes;
use crate::vectors::{Halves, Lanes, byte_pairs, half_ranks, near_ways, tops, write_selected};
use rice_bits::BitsAhead;
use rice_samples::Setting;
use std::simd::prelude::*;

/// The greatest width of words that eight lanes of 16 bits take from one load.
const MOST_OF_ONE_LOAD: u32 = 9;

/// Ones in all bits of eight lanes, and then zeros: a mask of the first `n` lanes begins `8 - n` places after the front.
static ONES: [u16; 16] = [
    65535, 65535, 65535, 65535, 65535, 65535, 65535, 65535, 0, 0, 0, 0, 0, 0, 0, 0,
];

/// Returns the eight words of `width` bits after the first `skip` bits ahead. A call: few rows have words of so many bits, and those of
/// few bits are found faster without this beside them.
#[inline(never)]
fn longer_words_ahead(ahead: &BitsAhead<'_>, skip: usize, width: u32) -> Halves
    requires width { (1 ≤ width) × (width ≤ 16) }
    requires there { skip + 192 ≤ length ahead.now }
    ensures fit { All (λ v. v < 2 ^ width) result.lanes }
    ensures bits { flat_map (word width) result.lanes ≡ take (8 * width) (drop skip ahead.now) }
{
    Halves::of(wide_words_ahead(ahead, skip, width).cast::<u16>())
}

impl SampleLanes for Halves {
    const BITS: u32 = 16;

    ghost BITS = { 16 };

    const ID_LEN: u32 = 4;

    ghost ID_LEN = { 4 };

    ghost below = { 8 };

    ghost bits_are = { Prim.search rules };

    ghost id_is = { λ s has. half_id s has.more has.most };

    ghost splits = { half_splits };

    ghost row = { half_row };

    #[inline(always)]
    fn words_ahead(ahead: &BitsAhead<'_>, skip: usize, width: u32) -> Self {
        if width <= MOST_OF_ONE_LOAD {
            let (buffer, at) = ahead.from(skip);
            return Halves::of(eight_words_from(buffer, at, width));
        }
        longer_words_ahead(ahead, skip, width)
    }

    #[inline(always)]
    fn of_bytes(from: &[u8]) -> Self {
        Halves::of(u8x8::from_slice(from).cast::<u16>())
    }

    #[inline(always)]
    fn first(self, count: usize) -> Self {
        if count == 8 {
            return self;
        }
        Halves::of(self.lanes & u16x8::from_slice(&ONES[8 - count..]))
    }

    #[inline(always)]
    fn number_at(self, place: usize) -> u32 {
        self.lanes.to_array()[place] as u32
    }

    #[inline(always)]
    fn in_turn(self, greatest: u32, before: u32) -> Self {
        // So it is after a block of eight.
        if self.is_zero() {
            return Halves::splat(before);
        }
        let ways = near_ways(self).lanes.to_array();
        let half = half_ranks(self);
        let tops = tops(greatest, self, half).lanes.to_array();
        let half = half.lanes.to_array();
        let all = self.lanes.to_array();
        let mut numbers = [0; 8];
        write_selected::<Halves, 8>(greatest, before, &all, &ways, &half, &tops, &mut numbers);
        Halves::of(u16x8::from_array(numbers))
    }

    #[inline(always)]
    fn write_bytes(self, setting: &Setting, bytes: &mut [u8]) {
        let words = self.lanes - u16x8::splat(setting.offset() as u16);
        byte_pairs(words.to_le_bytes(), setting.msb()).copy_to_slice(bytes);
    }
}
