//! Joins the fundamental sequences of 16 numbers in one number, by products in lanes.
ghost use Rattle.std.specs.Prelude.{◌≡◌, ◌+◌, ◌-◌, ◌^◌, ◌≤◌, ◌↔◌, ◌++◌, All, IsTrue, flat_map, length, map, replicate, slice_range, take};
ghost use Rattle.rice_bits.specs.Bits.{number_of, fundamental_sequence};
ghost use Rattle.rice_fast.specs.Parts.{HasDigits, joined_values, joined_weights};

use std::simd::prelude::*;

/// For each number up to 6, the weight of its fundamental sequence: 2 to the number of its bits. That of 7 would not fit a byte.
static WEIGHTS: [u8; 16] = [2, 4, 8, 16, 32, 64, 128, 0, 0, 0, 0, 0, 0, 0, 0, 0];

/// Returns whether each number is at most 6.
#[inline(always)]
pub fn are_at_most_six(numbers: u8x16) -> bool
    requires { length numbers ≡ 16 }
    ensures { IsTrue result ↔ All (λ m. m ≤ 6) numbers }
{
    numbers.saturating_sub(u8x16::splat(6)).reduce_or() == 0
}

/// Returns the number of bits of the sequences of the first `count` of 16 numbers up to 6, from `from`, 0 or 1, on. The others are zeros.
#[inline(always)]
pub fn len_of_sequences(numbers: u8x16, from: usize, count: usize) -> u32
    requires len { length numbers ≡ 16 }
    requires small { All (λ m. m ≤ 6) numbers }
    requires from { from ≤ 1 }
    requires count { (1 ≤ count) × (count ≤ 16) }
    requires zeros { numbers ≡ take count numbers ++ replicate (16 - count) 0 }
    ensures { result ≡ length (flat_map fundamental_sequence (slice_range numbers from count)) }
{
    let all = numbers.reduce_sum() as u32 + count as u32;
    if from == 0 {
        return all;
    }
    all - (numbers.to_array()[0] as u32 + 1)
}

/// Returns the number whose digits are these sequences: `total` bits.
#[inline(always)]
pub fn joined_sequences(numbers: u8x16, from: usize, count: usize, total: u32) -> u64
    requires len { length numbers ≡ 16 }
    requires small { All (λ m. m ≤ 6) numbers }
    requires from { from ≤ 1 }
    requires count { (1 ≤ count) × (count ≤ 16) }
    requires zeros { numbers ≡ take count numbers ++ replicate (16 - count) 0 }
    requires total { total ≡ length (flat_map fundamental_sequence (slice_range numbers from count)) }
    requires few { total + (16 - count) ≤ 56 }
    ensures { HasDigits (flat_map fundamental_sequence (slice_range numbers from count)) result total }
{
    // A zero after them is one digit.
    let all = all_sequences_joined(numbers) >> (16 - count);
    if from == 0 {
        return all;
    }
    all % (1 << total)
}

/// Returns the number whose digits are the fundamental sequences of 16 numbers of at most 6, one after the other.
#[inline(always)]
fn all_sequences_joined(numbers: u8x16) -> u64
    requires len { length numbers ≡ 16 }
    requires small { All (λ m. m ≤ 6) numbers }
    requires few { length (flat_map fundamental_sequence numbers) ≤ 63 }
    ensures { result ≡ number_of (flat_map fundamental_sequence numbers) }
{
    let weights = weights_of(numbers);
    let (pairs, pair_weights) = joined_pairs(weights);
    let (fours, four_weights) = joined_fours(pairs, pair_weights);
    let (eights, eight_weights) = joined_eights(fours, four_weights);
    let values = eights.to_array();
    let weights = eight_weights.to_array();
    values[0] * weights[1] + values[1]
}

/// Returns the weights of the fundamental sequences of numbers of at most 6.
#[inline(always)]
fn weights_of(numbers: u8x16) -> u8x16
    requires len { length numbers ≡ 16 }
    requires small { All (λ m. m ≤ 6) numbers }
    ensures { result ≡ map (λ m. 2 ^ (m + 1)) numbers }
{
    u8x16::from_array(WEIGHTS).swizzle_dyn(numbers)
}

/// Joins each two sequences, of which these are the weights and each is the number 1, and returns the numbers and the weights.
#[inline(always)]
fn joined_pairs(weights: u8x16) -> (u16x8, u16x8)
    requires len { length weights ≡ 16 }
    requires fit { All (λ w. w ≤ 2 ^ 7) weights }
    ensures values { result.0 ≡ joined_values (replicate 16 1) weights }
    ensures weights { result.1 ≡ joined_weights weights }
{
    let first = weights.swizzle([0, 2, 4, 6, 8, 10, 12, 14]).cast::<u16>();
    let second = weights.swizzle([1, 3, 5, 7, 9, 11, 13, 15]).cast::<u16>();
    (second + u16x8::splat(1), first * second)
}

/// Joins each two of eight numbers with these weights, and returns the numbers and the weights.
#[inline(always)]
fn joined_fours(values: u16x8, weights: u16x8) -> (u32x4, u32x4)
    requires len { (length values ≡ 8) × (length weights ≡ 8) }
    requires values { All (λ v. v ≤ 2 ^ 14) values }
    requires weights { All (λ w. w ≤ 2 ^ 14) weights }
    ensures values { result.0 ≡ joined_values values weights }
    ensures weights { result.1 ≡ joined_weights weights }
{
    let first = values.swizzle([0, 2, 4, 6]).cast::<u32>();
    let second = values.swizzle([1, 3, 5, 7]).cast::<u32>();
    let first_weights = weights.swizzle([0, 2, 4, 6]).cast::<u32>();
    let second_weights = weights.swizzle([1, 3, 5, 7]).cast::<u32>();
    (
        first * second_weights + second,
        first_weights * second_weights,
    )
}

/// Joins each two of four numbers with these weights, and returns the numbers and the weights.
#[inline(always)]
fn joined_eights(values: u32x4, weights: u32x4) -> (u64x2, u64x2)
    requires len { (length values ≡ 4) × (length weights ≡ 4) }
    requires values { All (λ v. v ≤ 2 ^ 29) values }
    requires weights { All (λ w. w ≤ 2 ^ 28) weights }
    ensures values { result.0 ≡ joined_values values weights }
    ensures weights { result.1 ≡ joined_weights weights }
{
    let first = values.swizzle([0, 2]).cast::<u64>();
    let second = values.swizzle([1, 3]).cast::<u64>();
    let first_weights = weights.swizzle([0, 2]).cast::<u64>();
    let second_weights = weights.swizzle([1, 3]).cast::<u64>();
    (
        first * second_weights + second,
        first_weights * second_weights,
    )
}
