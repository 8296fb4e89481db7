//! Vectors of numbers of 16 bits.
ghost use Rattle.std.specs.Prelude.{◌≡◌, ℕ, ◌^◌, ◌<◌, get_or, length};
ghost use Rattle.std.proofs.Common.{rules};

use crate::vectors::lanes::Lanes;
use std::simd::prelude::*;

/// Eight numbers of 16 bits.
#[derive(Clone, Copy)]
pub struct Halves {
    pub lanes: u16x8,
    ghost len: { length lanes ≡ 8 },
    ghost fits: { (i : ℕ) → get_or lanes i 0 < 2 ^ 16 },
}

impl Halves {
    /// Returns eight numbers of 16 bits in lanes.
    #[inline(always)]
    pub fn of(lanes: u16x8) -> Halves
        ensures { result.lanes ≡ lanes }
    {
        Halves { lanes }
    }
}

impl Lanes for Halves {
    type Number = u16;

    const COUNT: usize = 8;

    ghost COUNT = { 8 };

    const MOST: u32 = 65535;

    ghost MOST = { 65535 };

    ghost bits = { 16 };

    ghost numbers = { λ v. v.lanes };

    ghost number = { λ x. x };

    ghost len = { λ v. v.len };

    ghost fits = { λ v. v.fits };

    ghost some = { Prim.search rules };

    ghost two_values = { Prim.search rules };

    ghost most_is = { Prim.search rules };

    ghost most_bits = { Prim.search rules };

    ghost most = { Prim.search rules };

    #[inline(always)]
    fn splat(x: u32) -> Self {
        Halves::of(u16x8::splat(x as u16))
    }

    #[inline(always)]
    fn read(from: &[u16]) -> Self {
        Halves::of(u16x8::from_slice(from))
    }

    #[inline(always)]
    fn number_of(x: u32) -> u16 {
        x as u16
    }

    #[inline(always)]
    fn value(x: u16) -> u32 {
        x as u32
    }

    #[inline(always)]
    fn widened_way(x: u16) -> u32 {
        (x.cast_signed() as i32).cast_unsigned()
    }

    #[inline(always)]
    fn write(self, to: &mut [u32], at: usize) {
        self.lanes.cast::<u32>().copy_to_slice(&mut to[at..]);
    }

    #[inline(always)]
    fn plus(self, other: Self) -> Self {
        Halves::of(self.lanes + other.lanes)
    }

    #[inline(always)]
    fn minus(self, other: Self) -> Self {
        Halves::of(self.lanes - other.lanes)
    }

    #[inline(always)]
    fn above(self, other: Self) -> Self {
        Halves::of(self.lanes.saturating_sub(other.lanes))
    }

    #[inline(always)]
    fn least(self, other: Self) -> Self {
        Halves::of(self.lanes.simd_min(other.lanes))
    }

    #[inline(always)]
    fn half(self) -> Self {
        Halves::of(self.lanes >> u16x8::splat(1))
    }

    #[inline(always)]
    fn and(self, other: Self) -> Self {
        Halves::of(self.lanes & other.lanes)
    }

    #[inline(always)]
    fn or(self, other: Self) -> Self {
        Halves::of(self.lanes | other.lanes)
    }

    #[inline(always)]
    fn xor(self, other: Self) -> Self {
        Halves::of(self.lanes ^ other.lanes)
    }

    #[inline(always)]
    fn times_power_of_two(self, width: u32) -> Self {
        Halves::of(self.lanes << u16x8::splat(width as u16))
    }

    #[inline(always)]
    fn is_zero(self) -> bool {
        self.lanes.reduce_or() == 0
    }

    #[inline(always)]
    fn last(self) -> u32 {
        self.lanes.to_array()[7] as u32
    }

    #[tactic(auto, using(crate::proofs::lemmas::vectors::LaneRanks::last_and_others))]
    #[inline(always)]
    fn before(self, earlier: Self) -> Self {
        Halves::of(
            earlier
                .lanes
                .shuffle(self.lanes, [7, 8, 9, 10, 11, 12, 13, 14]),
        )
    }
}
