//! Tests and sums of residuals, eight at a time.
ghost use Rattle.std.specs.Prelude.{◌≡◌, ◌/◌, ◌%◌, ◌^◌, ◌==◌, ◌<◌, ◌≤◌, length, sum_by};
ghost use Rattle.std.specs.List.{list_all};

use std::simd::prelude::*;

/// Returns true only if all numbers are 0. It works in lanes of 64 bits.
pub(crate) fn each_is_zero(items: &[u32]) -> bool
    requires { length items.now % 8 ≡ 0 }
    ensures { result ≡ list_all (λ d. d == 0) items.now }
{
    for i in 0..items.len() / 8 {
        if u32x8::from_slice(&items[8 * i..]).cast::<u64>().reduce_or() != 0 {
            return false;
        }
    }
    true
}

/// As `each_is_zero`, one at a time.
pub(crate) fn each_is_zero_in_turn(items: &[u32]) -> bool
    ensures { result ≡ list_all (λ d. d == 0) items.now }
{
    for i in 0..items.len() {
        if items[i] != 0 {
            return false;
        }
    }
    true
}

/// Returns the sum of the numbers without their `k` lowest digits, taken one at a time.
pub(crate) fn sum_shifted_in_turn(items: &[u32], k: u32) -> u64
    requires few { length items.now ≤ 64 }
    requires shift { k < 32 }
    ensures value { result ≡ sum_by (λ d. d / 2 ^ k) items.now }
    ensures limit { result ≤ 2 ^ 38 }
{
    let mut total: u64 = 0;
    for i in 0..items.len() {
        total += (items[i] >> k) as u64;
    }
    total
}

/// As `sum_shifted_in_turn`, in lanes of 64 bits.
#[inline(always)]
pub(crate) fn sum_shifted_in_lanes_of_64(items: &[u32], k: u32) -> u64
    requires chunks { length items.now % 8 ≡ 0 }
    requires few { length items.now ≤ 64 }
    requires shift { k < 32 }
    ensures value { result ≡ sum_by (λ d. d / 2 ^ k) items.now }
    ensures limit { result ≤ 2 ^ 38 }
{
    let shift = u64x8::splat(k as u64);
    let mut total = u64x8::splat(0);
    for i in 0..items.len() / 8 {
        total = total.strict_add(u32x8::from_slice(&items[8 * i..]).cast::<u64>() >> shift);
    }
    total.strict_reduce_sum()
}
