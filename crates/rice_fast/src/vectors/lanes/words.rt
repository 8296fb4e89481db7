//! Vectors of numbers of 32 bits.
ghost use Rattle.std.specs.Prelude.{◌≡◌, ℕ, ◌^◌, ◌<◌, get_or, length};
ghost use Rattle.std.proofs.Common.{rules};

use crate::vectors::lanes::Lanes;
use std::simd::prelude::*;

/// Eight numbers of 32 bits, in two registers where these have 128 bits.
#[derive(Clone, Copy)]
pub struct Words {
    pub lanes: u32x8,
    ghost len: { length lanes ≡ 8 },
    ghost fits: { (i : ℕ) → get_or lanes i 0 < 2 ^ 32 },
}

impl Words {
    /// Returns eight numbers of 32 bits in lanes.
    #[inline(always)]
    pub fn of(lanes: u32x8) -> Words
        ensures { result.lanes ≡ lanes }
    {
        Words { lanes }
    }
}

impl Lanes for Words {
    type Number = u32;

    const COUNT: usize = 8;

    ghost COUNT = { 8 };

    const MOST: u32 = 4294967295;

    ghost MOST = { 4294967295 };

    ghost bits = { 32 };

    ghost numbers = { λ v. v.lanes };

    ghost number = { λ x. x };

    ghost len = { λ v. v.len };

    ghost fits = { λ v. v.fits };

    ghost some = { Prim.search rules };

    ghost two_values = { Prim.search rules };

    ghost most_is = { Prim.search rules };

    ghost most_bits = { Prim.search rules };

    ghost most = { Prim.search rules };

    #[inline(always)]
    fn splat(x: u32) -> Self {
        Words::of(u32x8::splat(x))
    }

    #[inline(always)]
    fn read(from: &[u32]) -> Self {
        Words::of(u32x8::from_slice(from))
    }

    #[inline(always)]
    fn number_of(x: u32) -> u32 {
        x
    }

    #[inline(always)]
    fn value(x: u32) -> u32 {
        x
    }

    #[inline(always)]
    fn widened_way(x: u32) -> u32 {
        x
    }

    #[inline(always)]
    fn write(self, to: &mut [u32], at: usize) {
        self.lanes.copy_to_slice(&mut to[at..]);
    }

    #[inline(always)]
    fn plus(self, other: Self) -> Self {
        Words::of(self.lanes + other.lanes)
    }

    #[inline(always)]
    fn minus(self, other: Self) -> Self {
        Words::of(self.lanes - other.lanes)
    }

    #[inline(always)]
    fn above(self, other: Self) -> Self {
        Words::of(self.lanes.saturating_sub(other.lanes))
    }

    #[inline(always)]
    fn least(self, other: Self) -> Self {
        Words::of(self.lanes.simd_min(other.lanes))
    }

    #[inline(always)]
    fn half(self) -> Self {
        Words::of(self.lanes >> u32x8::splat(1))
    }

    #[inline(always)]
    fn and(self, other: Self) -> Self {
        Words::of(self.lanes & other.lanes)
    }

    #[inline(always)]
    fn or(self, other: Self) -> Self {
        Words::of(self.lanes | other.lanes)
    }

    #[inline(always)]
    fn xor(self, other: Self) -> Self {
        Words::of(self.lanes ^ other.lanes)
    }

    #[inline(always)]
    fn times_power_of_two(self, width: u32) -> Self {
        Words::of(self.lanes << u32x8::splat(width))
    }

    #[inline(always)]
    fn is_zero(self) -> bool {
        self.lanes.reduce_or() == 0
    }

    #[inline(always)]
    fn last(self) -> u32 {
        self.lanes.to_array()[7]
    }

    #[tactic(auto, using(crate::proofs::lemmas::vectors::LaneRanks::last_and_others))]
    #[inline(always)]
    fn before(self, earlier: Self) -> Self {
        Words::of(
            earlier
                .lanes
                .shuffle(self.lanes, [7, 8, 9, 10, 11, 12, 13, 14]),
        )
    }
}
