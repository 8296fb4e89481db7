//! The sum of residuals.
ghost use Rattle.std.specs.Prelude.{◌≡◌, ◌*◌, ◌/◌, ◌%◌, ◌^◌, ◌<◌, ◌≤◌, All, length, sum_by};
ghost use Rattle.rice_samples.specs.Parameters.{IsBlockSize, value_count};

use rice_samples::Setting;
use std::simd::prelude::*;

/// Returns the sum of the residuals of a block.
#[inline(always)]
pub fn sum_of(setting: &Setting, items: &[u32]) -> u64
    requires size { IsBlockSize (length items.now) }
    requires fit { All (λ d. d < value_count setting.now) items.now }
    ensures value { result ≡ sum_by (λ d. d / 2 ^ 0) items.now }
    ensures limit { result ≤ 2 ^ 38 }
{
    if items.len() % 8 == 0 && setting.bits() <= 26 {
        return small_sum(items) as u64;
    }
    let mut sum = 0;
    for i in 0..items.len() {
        sum += items[i] as u64;
    }
    sum
}

/// Returns the sum of numbers, eight at a time, where it is so small that nothing overflows 32 bits.
#[inline(always)]
fn small_sum(items: &[u32]) -> u32
    requires chunks { length items.now % 8 ≡ 0 }
    requires small { sum_by (λ d. d / 2 ^ 0) items.now < 2 ^ 32 }
    ensures { result ≡ sum_by (λ d. d / 2 ^ 0) items.now }
{
    let mut sums = u32x8::splat(0);
    for i in 0..items.len() / 8 {
        sums = sums.strict_add(u32x8::from_slice(&items[8 * i..]));
    }
    sums.strict_reduce_sum()
}
