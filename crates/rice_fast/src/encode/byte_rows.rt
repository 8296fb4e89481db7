//! Rows of sixteen numbers in bytes.
ghost use Rattle.std.specs.Prelude.{◌≡◌, ◌+◌, ◌-◌, ◌*◌, ◌/◌, ◌^◌, ◌<◌, ◌≤◌, ◌++◌, All, drop, length, map, replicate, take};
ghost use Rattle.std.specs.Simd.Lanes.{put_chunk, sum_l};

use std::simd::prelude::*;

/// Returns row `i` of the numbers.
#[inline(always)]
pub fn row_at(numbers: &[u8], i: usize) -> u8x16
    requires row { 16 * i + 16 ≤ length numbers.now }
    requires few { length numbers.now ≤ 64 }
    ensures value { result ≡ take 16 (drop (16 * i) numbers.now) }
    ensures len { length result ≡ 16 }
{
    u8x16::from_slice(&numbers[16 * i..])
}

/// Writes row `i` of the numbers.
#[inline(always)]
pub fn store_row(numbers: &mut [u8], i: usize, row: u8x16)
    requires row { 16 * i + 16 ≤ length numbers.old }
    requires few { length numbers.old ≤ 64 }
    requires lanes { length row ≡ 16 }
    ensures value { numbers.new ≡ put_chunk (16 * i) numbers.old row }
{
    row.copy_to_slice(&mut numbers[16 * i..]);
}

/// Returns the numbers without their `k` lowest digits.
#[inline(always)]
pub fn row_cut(row: u8x16, k: u32) -> u8x16
    requires lanes { length row ≡ 16 }
    requires shift { k < 8 }
    ensures value { result ≡ map (λ m. m / 2 ^ k) row }
    ensures len { length result ≡ 16 }
{
    row >> u8x16::splat(k as u8)
}

/// Returns the sum of the numbers.
#[inline(always)]
pub fn row_sum(row: u8x16) -> u32
    requires { length row ≡ 16 }
    ensures value { result ≡ sum_l row }
    ensures limit { result ≤ 4080 }
{
    row.cast::<u32>().strict_reduce_sum()
}

/// Returns the sixteen residuals from number `at` on without their `k` lowest digits.
#[inline(always)]
pub fn sixteen_cut(items: &[u32], at: usize, k: u32) -> u8x16
    requires inside { at + 16 ≤ length items.now }
    requires few { length items.now ≤ 64 }
    requires shift { k < 32 }
    requires small { All (λ d. d / 2 ^ k < 2 ^ 8) items.now }
    ensures value { result ≡ map (λ d. d / 2 ^ k) (take 16 (drop at items.now)) }
    ensures len { length result ≡ 16 }
{
    (u32x16::from_slice(&items[at..]) >> u32x16::splat(k)).cast::<u8>()
}

/// Returns the eight residuals from number `at` on without their `k` lowest digits, and eight zeros.
#[inline(always)]
pub fn eight_cut(items: &[u32], at: usize, k: u32) -> u8x16
    requires inside { at + 8 ≤ length items.now }
    requires few { length items.now ≤ 64 }
    requires shift { k < 32 }
    requires small { All (λ d. d / 2 ^ k < 2 ^ 8) items.now }
    ensures value { result ≡ map (λ d. d / 2 ^ k) (take 8 (drop at items.now)) ++ replicate 8 0 }
    ensures len { length result ≡ 16 }
{
    let eight = (u32x8::from_slice(&items[at..]) >> u32x8::splat(k)).cast::<u8>();
    eight.shuffle(
        u8x8::splat(0),
        [0, 1, 2, 3, 4, 5, 6, 7, 8, 9, 10, 11, 12, 13, 14, 15],
    )
}

/// Returns fewer than sixteen residuals without their `k` lowest digits, and zeros after them.
#[inline(never)]
pub fn rest_cut(items: &[u32], k: u32) -> u8x16
    requires few { length items.now < 16 }
    requires shift { k < 32 }
    requires small { All (λ d. d / 2 ^ k < 2 ^ 8) items.now }
    ensures value { result ≡ map (λ d. d / 2 ^ k) items.now ++ replicate (16 - length items.now) 0 }
    ensures len { length result ≡ 16 }
{
    let mut row = [0; 16];
    row[..items.len()].copy_from_slice(items);
    sixteen_cut(&row, 0, k)
}
