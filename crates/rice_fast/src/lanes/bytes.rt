//! Samples of at most 8 bits.
ghost use Rattle.std.proofs.Common.{rules};
ghost use Rattle.rice_samples.proofs.lemmas.setting.BitsOfLanes.{byte_id, byte_splits, byte_row};

use crate::ahead::words_ahead;
use crate::lanes::SampleLanes;
use crate::vectors::{Bytes, half_ranks, last_eight_are_zeros, near_ways, tops, write_selected};
use rice_bits::BitsAhead;
use rice_samples::Setting;
use std::simd::prelude::*;

/// Ones in all bits of sixteen lanes, and then zeros: a mask of the first `n` lanes begins `16 - n` places after the front.
static ONES: [u8; 32] = [
    255, 255, 255, 255, 255, 255, 255, 255, 255, 255, 255, 255, 255, 255, 255, 255, 0, 0, 0, 0, 0,
    0, 0, 0, 0, 0, 0, 0, 0, 0, 0, 0,
];

impl SampleLanes for Bytes {
    const BITS: u32 = 8;

    ghost BITS = { 8 };

    const ID_LEN: u32 = 3;

    ghost ID_LEN = { 3 };

    ghost below = { 0 };

    ghost bits_are = { Prim.search rules };

    ghost id_is = { λ s has. byte_id s has.most };

    ghost splits = { byte_splits };

    ghost row = { byte_row };

    #[inline(always)]
    fn words_ahead(ahead: &BitsAhead<'_>, skip: usize, width: u32) -> Self {
        Bytes::of(words_ahead(ahead, skip, width))
    }

    #[inline(always)]
    fn of_bytes(from: &[u8]) -> Self {
        Bytes::of(u8x16::from_slice(from))
    }

    #[inline(always)]
    fn first(self, count: usize) -> Self {
        if count == 16 {
            return self;
        }
        Bytes::of(self.lanes & u8x16::from_slice(&ONES[16 - count..]))
    }

    #[inline(always)]
    fn number_at(self, place: usize) -> u32 {
        self.lanes.to_array()[place] as u32
    }

    #[inline(always)]
    fn in_turn(self, greatest: u32, before: u32) -> Self {
        let all = self.lanes.to_array();
        let ways = near_ways(self).lanes.to_array();
        let half = half_ranks(self);
        let tops = tops(greatest, self, half).lanes.to_array();
        let half = half.lanes.to_array();
        if !last_eight_are_zeros(self) {
            let mut numbers = [0; 16];
            write_selected::<Bytes, 16>(greatest, before, &all, &ways, &half, &tops, &mut numbers);
            return Bytes::of(u8x16::from_array(numbers));
        }
        let mut first = [0; 8];
        let last = write_selected::<Bytes, 8>(
            greatest,
            before,
            &all[..8],
            &ways[..8],
            &half[..8],
            &tops[..8],
            &mut first,
        );
        let mut numbers = [last as u8; 16];
        numbers[..8].copy_from_slice(&first);
        Bytes::of(u8x16::from_array(numbers))
    }

    #[inline(always)]
    fn write_bytes(self, setting: &Setting, bytes: &mut [u8]) {
        let words = self.lanes - u8x16::splat(setting.offset() as u8);
        words.copy_to_slice(bytes);
    }
}
