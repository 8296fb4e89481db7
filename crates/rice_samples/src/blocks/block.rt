//! A block of residuals. Only calls that count their steps read it.
ghost use Rattle.std.specs.Prelude.{◌≡◌, ℕ, ◌+◌, ◌-◌, ◌/◌, ◌^◌, ◌==◌, ◌<◌, ◌≤◌, length, slice_index, sum_by};
ghost use Rattle.std.specs.List.{list_all};
ghost use Rattle.rice_bits.specs.Limits.{step_limit};
ghost use Rattle.rice_samples.specs.{Pairs.pair_codes, Parameters.IsBlockSize};

use crate::blocks::pair_codeword_lengths::pair_sum;
use crate::blocks::tests_and_sums::{
    each_is_zero, each_is_zero_in_turn, sum_shifted_in_lanes_of_64, sum_shifted_in_turn,
};
use rice_bits::Meter;
use std::marker::Model;

/// The residuals of a block, an even number from 2 to 64, borrowed from a segment. Contracts see their list.
///
/// Each look at a residual is a step: `is_zero`, `sum_shifted` and `pair_sum` tick one for each residual of the block, `at` ticks one, and
/// `len` none. No other call of the plain coder depends on the residuals.
#[derive(Drop)]
pub struct Block<'a> {
    pub(crate) items: &'a [u32],
}

impl<'a> Model for Block<'a> {
    ghost use Rattle.std.specs.Prelude.{ℕ, List, length};
    ghost use Rattle.rice_samples.specs.Parameters.{IsBlockSize};

    ghost Value = { List ℕ };

    ghost view = { λ b. b.items.now };

    ghost invariant = { λ b. IsBlockSize (length b.items.now) };
}

impl<'a> Block<'a> {
    /// Returns the block of these residuals. The caller counts each look at them as a step.
    #[inline]
    pub fn of(items: &'a [u32]) -> Self
        requires { IsBlockSize (length items.now) }
        ensures { result ≡ items.now }
    {
        Block { items }
    }

    /// Returns the residuals. The caller counts each look at them as a step.
    #[inline(always)]
    pub fn items(&self) -> &'a [u32]
        ensures value { result.now ≡ self.now }
        ensures size { IsBlockSize (length result.now) }
    {
        self.items
    }

    /// Returns the same block. Where the compiler knows `size`, it then knows the length.
    #[inline(always)]
    pub fn sized(&self, size: usize) -> Block<'a>
        requires { length self.now ≡ size }
        ensures { result ≡ self.now }
    {
        let items = self.items;
        Block::of(&items[..size])
    }
}

impl Block<'_> {
    /// Returns the number of residuals: an even number from 2 to 64.
    #[inline]
    pub fn len(&self) -> usize
        ensures value { result ≡ length self.now }
        ensures size { IsBlockSize result }
        ensures range { (2 ≤ result) × (result ≤ 64) }
    {
        self.items.len()
    }

    /// Returns whether all residuals are 0.
    #[inline]
    pub fn is_zero(&self, meter: &mut Meter) -> bool
        requires { meter.old + length self.now < step_limit }
        ensures value { result ≡ list_all (λ d. d == 0) self.now }
        ensures steps { meter.new ≡ meter.old + length self.now }
    {
        let items = self.look(meter);
        if items.len() % 8 != 0 {
            return each_is_zero_in_turn(items);
        }
        each_is_zero(items)
    }

    /// Returns the sum of the residuals without their `k` lowest binary digits, for `k` up to 29.
    #[inline]
    pub fn sum_shifted(&self, k: u32, meter: &mut Meter) -> u64
        requires split { k ≤ 29 }
        requires meter { meter.old + length self.now < step_limit }
        ensures value { result ≡ sum_by (λ d. d / 2 ^ k) self.now }
        ensures limit { result ≤ 2 ^ 38 }
        ensures steps { meter.new ≡ meter.old + length self.now }
    {
        let residuals = self.look(meter);
        if residuals.len() % 8 != 0 {
            return sum_shifted_in_turn(residuals, k);
        }
        sum_shifted_in_lanes_of_64(residuals, k)
    }

    /// Returns the number of bits of the second-extension codewords of the pairs of residuals.
    #[inline]
    pub fn pair_sum(&self, meter: &mut Meter) -> u128
        requires { meter.old + length self.now < step_limit }
        ensures value { result ≡ sum_by (λ g. g + 1) (pair_codes self.now) }
        ensures limit { result ≤ 2 ^ 72 }
        ensures steps { meter.new ≡ meter.old + length self.now }
    {
        pair_sum(self.look(meter))
    }

    /// Returns residual number `i`, for one step.
    #[inline]
    pub fn at(&self, i: usize, meter: &mut Meter) -> u32
        requires inside { i < length self.now }
        requires meter { meter.old + 1 < step_limit }
        ensures value { result ≡ slice_index self.now i }
        ensures steps { meter.new ≡ meter.old + 1 }
    {
        let items = self.items;
        meter.tick(1);
        items[i]
    }

    /// All residuals, at a step each.
    #[inline]
    pub(crate) fn look(&self, meter: &mut Meter) -> &[u32]
        requires { meter.old + length self.now < step_limit }
        ensures value { result.now ≡ self.now }
        ensures size { IsBlockSize (length result.now) }
        ensures steps { meter.new ≡ meter.old + length self.now }
    {
        let items = self.items;
        meter.tick(items.len() as u64);
        items
    }
}
