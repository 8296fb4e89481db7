//! Vectors of bytes.
ghost use Rattle.std.specs.Prelude.{◌≡◌, ℕ, ◌^◌, ◌<◌, get_or, length};
ghost use Rattle.std.proofs.Common.{rules};

use crate::vectors::lanes::Lanes;
use std::simd::prelude::*;

/// Sixteen numbers of 8 bits.
#[derive(Clone, Copy)]
pub struct Bytes {
    pub lanes: u8x16,
    ghost len: { length lanes ≡ 16 },
    ghost fits: { (i : ℕ) → get_or lanes i 0 < 2 ^ 8 },
}

impl Bytes {
    /// Returns sixteen bytes in lanes.
    #[inline(always)]
    pub fn of(lanes: u8x16) -> Bytes
        ensures { result.lanes ≡ lanes }
    {
        Bytes { lanes }
    }
}

impl Lanes for Bytes {
    type Number = u8;

    const COUNT: usize = 16;

    ghost COUNT = { 16 };

    const MOST: u32 = 255;

    ghost MOST = { 255 };

    ghost bits = { 8 };

    ghost numbers = { λ v. v.lanes };

    ghost number = { λ x. x };

    ghost len = { λ v. v.len };

    ghost fits = { λ v. v.fits };

    ghost some = { Prim.search rules };

    ghost two_values = { Prim.search rules };

    ghost most_is = { Prim.search rules };

    ghost most_bits = { Prim.search rules };

    ghost most = { Prim.search rules };

    #[inline(always)]
    fn splat(x: u32) -> Self {
        Bytes::of(u8x16::splat(x as u8))
    }

    #[inline(always)]
    fn read(from: &[u8]) -> Self {
        Bytes::of(u8x16::from_slice(from))
    }

    #[inline(always)]
    fn number_of(x: u32) -> u8 {
        x as u8
    }

    #[inline(always)]
    fn value(x: u8) -> u32 {
        x as u32
    }

    #[inline(always)]
    fn widened_way(x: u8) -> u32 {
        (x.cast_signed() as i32).cast_unsigned()
    }

    #[inline(always)]
    fn write(self, to: &mut [u32], at: usize) {
        self.lanes.cast::<u32>().copy_to_slice(&mut to[at..]);
    }

    #[inline(always)]
    fn plus(self, other: Self) -> Self {
        Bytes::of(self.lanes + other.lanes)
    }

    #[inline(always)]
    fn minus(self, other: Self) -> Self {
        Bytes::of(self.lanes - other.lanes)
    }

    #[inline(always)]
    fn above(self, other: Self) -> Self {
        Bytes::of(self.lanes.saturating_sub(other.lanes))
    }

    #[inline(always)]
    fn least(self, other: Self) -> Self {
        Bytes::of(self.lanes.simd_min(other.lanes))
    }

    #[inline(always)]
    fn half(self) -> Self {
        Bytes::of(self.lanes >> u8x16::splat(1))
    }

    #[inline(always)]
    fn and(self, other: Self) -> Self {
        Bytes::of(self.lanes & other.lanes)
    }

    #[inline(always)]
    fn or(self, other: Self) -> Self {
        Bytes::of(self.lanes | other.lanes)
    }

    #[inline(always)]
    fn xor(self, other: Self) -> Self {
        Bytes::of(self.lanes ^ other.lanes)
    }

    #[inline(always)]
    fn times_power_of_two(self, width: u32) -> Self {
        // There is no shift in lanes of 8 bits.
        Bytes::of((u16x8::from_le_bytes(self.lanes) << u16x8::splat(width as u16)).to_le_bytes())
    }

    #[inline(always)]
    fn is_zero(self) -> bool {
        self.lanes.reduce_or() == 0
    }

    #[inline(always)]
    fn last(self) -> u32 {
        self.lanes.to_array()[15] as u32
    }

    #[tactic(auto, using(crate::proofs::lemmas::vectors::LaneRanks::last_and_others))]
    #[inline(always)]
    fn before(self, earlier: Self) -> Self {
        Bytes::of(
            earlier.lanes.shuffle(
                self.lanes,
                [
                    15, 16, 17, 18, 19, 20, 21, 22, 23, 24, 25, 26, 27, 28, 29, 30,
                ],
            ),
        )
    }
}
