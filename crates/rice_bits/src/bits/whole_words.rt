//! Words of 8, 16 or 32 digits, joined to bits 64 digits at a time.
ghost use Rattle.std.specs.Prelude.{◌≡◌, ℕ, ◌+◌, ◌-◌, ◌*◌, ◌/◌, ◌%◌, ◌^◌, ◌<◌, ◌≤◌, ◌++◌, flat_map, length, map, slice_range};
ghost use Rattle.rice_bits.specs.Bits.{IsWholeWidth, JoinsAllBut, word, IsBitSink, Joins};

use crate::bits::digits::{join, low_digits};
use crate::bits::eight_bytes::{join_bytes, store_least_byte_first};
use std::simd::prelude::*;

/// Joins the `count` digits of `value`, and then those of the words, to the first `bits` bits. It omits the last `bits % 8 + count` digits,
/// so that it ends with a whole byte. Returns the number of bits then, and a number that ends in the omitted digits.
#[inline(always)]
pub fn join_all_but_last_digits(
    bytes: &mut [u8],
    bits: u64,
    value: u64,
    count: u32,
    words: &[u32],
    width: u32,
) -> (u64, u64)
    requires count { (1 ≤ count) × (count ≤ 48) }
    requires value { value < 2 ^ count }
    requires width { IsWholeWidth width }
    requires eights { (8 ≤ length words.now) × (length words.now % 8 ≡ 0) }
    requires bits { IsBitSink (length bytes.old) bits bytes.old }
    requires room { bits + (count + width * length words.now) ≤ 8 * length bytes.old }
    ensures { JoinsAllBut (bits % 8 + count) result.1
        (word count value ++ flat_map (word width) words.now) (count + width * length words.now)
        bits result.0 bytes.old bytes.new }
{
    let left = (bits % 8) as u32 + count;
    let per = words_in_64(width);
    let mut last = words_at(words, 0, width);
    let mut all = join_up_to_whole_byte(bytes, bits, value, count, last);
    for i in 1..words.len() / per {
        let next = words_at(words, per * i, width);
        all = join_64_digits_to_whole_bytes(bytes, all, digits_across_two_words(last, next, left));
        last = next;
    }
    (all, last)
}

/// Returns how many words of `width` digits have 64 digits.
#[inline(always)]
fn words_in_64(width: u32) -> usize
    requires { IsWholeWidth width }
    ensures all { width * result ≡ 64 }
    ensures some { (2 ≤ result) × (result ≤ 8) }
    ensures eighth { 8 % result ≡ 0 }
{
    match width {
        8 => 8,
        16 => 4,
        _ => 2,
    }
}

/// Returns the number that the words from number `at` on spell, as many as have 64 digits.
#[inline(always)]
fn words_at(words: &[u32], at: usize, width: u32) -> u64
    requires width { IsWholeWidth width }
    requires room { width * at + 64 ≤ width * length words.now }
    ensures { (n : ℕ) → width * n ≡ 64 →
        word 64 result ≡ flat_map (word width) (slice_range words.now at (at + n)) }
{
    match width {
        8 => joined_words_of_8_digits(words, at),
        16 => joined_words_of_16_digits(words, at),
        _ => joined_words_of_32_digits(words, at),
    }
}

/// Returns the number of the lowest 8 digits of eight words.
#[inline(always)]
fn joined_words_of_8_digits(words: &[u32], at: usize) -> u64
    requires { at + 8 ≤ length words.now }
    ensures { word 64 result ≡ flat_map (word 8) (slice_range words.now at (at + 8)) }
{
    let eight = lowest_byte_of_each(u32x8::from_slice(&words[at..]));
    u64x1::from_le_bytes(eight).to_array()[0].swap_bytes()
}

/// Returns the lowest byte of each of eight numbers.
#[inline(always)]
fn lowest_byte_of_each(words: u32x8) -> u8x8
    requires { length words ≡ 8 }
    ensures { result ≡ map (λ d. d % 2 ^ 8) words }
{
    (words & u32x8::splat(255)).cast::<u8>()
}

/// Returns the number of the lowest 16 digits of four words.
#[inline(always)]
fn joined_words_of_16_digits(words: &[u32], at: usize) -> u64
    requires { at + 4 ≤ length words.now }
    ensures { word 64 result ≡ flat_map (word 16) (slice_range words.now at (at + 4)) }
{
    let first = join(low_digits(words[at], 16), 16, low_digits(words[at + 1], 16));
    let last = join(
        low_digits(words[at + 2], 16),
        16,
        low_digits(words[at + 3], 16),
    );
    join(first, 32, last)
}

/// Returns the number of the 32 digits of two words.
#[inline(always)]
fn joined_words_of_32_digits(words: &[u32], at: usize) -> u64
    requires { at + 2 ≤ length words.now }
    ensures { word 64 result ≡ flat_map (word 32) (slice_range words.now at (at + 2)) }
{
    join(words[at] as u64, 32, words[at + 1] as u64)
}

/// Joins the `count` digits of `value`, and then the first digits of `first`, up to a whole byte. Returns how many bits there
/// are then.
#[inline(always)]
fn join_up_to_whole_byte(bytes: &mut [u8], bits: u64, value: u64, count: u32, first: u64) -> u64
    requires count { (1 ≤ count) × (count ≤ 48) }
    requires value { value < 2 ^ count }
    requires bits { IsBitSink (length bytes.old) bits bytes.old }
    requires room { bits + (count + 64) ≤ 8 * length bytes.old }
    ensures joins { Joins (word count value ++
        word (64 - (bits % 8 + count)) (first / 2 ^ (bits % 8 + count)))
        (64 - bits % 8) bits result bytes.old bytes.new }
    ensures whole { result % 8 ≡ 0 }
{
    let left = (bits % 8) as u32 + count;
    join_bytes(
        bytes,
        (bits / 8) as usize,
        join(value, 64 - left, first >> left),
    );
    bits - bits % 8 + 64
}

/// Joins the 64 digits of `digits` after whole bytes, and returns how many bits there are then.
#[inline(always)]
fn join_64_digits_to_whole_bytes(bytes: &mut [u8], bits: u64, digits: u64) -> u64
    requires whole { bits % 8 ≡ 0 }
    requires bits { IsBitSink (length bytes.old) bits bytes.old }
    requires room { bits + 64 ≤ 8 * length bytes.old }
    ensures joins { Joins (word 64 digits) 64 bits result bytes.old bytes.new }
    ensures whole { result % 8 ≡ 0 }
{
    store_least_byte_first(bytes, (bits / 8) as usize, digits.swap_bytes());
    bits + 64
}

/// Returns the number of the last `left` digits of `last`, and then the first digits of `next`, 64 in all.
#[inline(always)]
fn digits_across_two_words(last: u64, next: u64, left: u32) -> u64
    requires { (1 ≤ left) × (left < 64) }
    ensures { word 64 result ≡ word left last ++ word (64 - left) (next / 2 ^ left) }
{
    (last << (64 - left)) | (next >> left)
}
