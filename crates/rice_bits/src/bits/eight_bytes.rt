//! Eight bytes at a time.
ghost use Rattle.std.specs.Prelude.{All, false, ◌≡◌, ℕ, ◌+◌, ◌-◌, ◌*◌, ◌/◌, ◌%◌, ◌^◌, ◌<◌, ◌≤◌, ◌∷◌, ◌++◌, bit_or, drop, length, min, replicate, set, take};
ghost use Rattle.std.specs.{Int.to_be_bytes, Int.to_le_bytes, Int.w64, List.slice_index};
ghost use Rattle.rice_bits.specs.Bits.{bits_of, word};

use crate::bits::digits::digits_after;
use std::simd::prelude::*;

/// Returns the first `count` bytes.
#[inline]
pub fn front(bytes: &[u8], count: usize) -> &[u8]
    requires { count ≤ length bytes.now }
    ensures bytes { result.now ≡ take count bytes.now }
    ensures fit { All (λ b. b < 256) result.now }
{
    &bytes[..count]
}

/// Returns the eight bytes of `word`, least significant first.
#[inline(always)]
pub fn least_byte_first(word: u64) -> u8x8
    ensures { result ≡ to_le_bytes w64 word }
{
    u64x1::splat(word).to_le_bytes()
}

/// Writes the eight bytes of `word`, least significant first, from the place `at` on.
#[inline]
pub fn store_least_byte_first(bytes: &mut [u8], at: usize, word: u64)
    requires { at + 8 ≤ length bytes.old }
    ensures { bytes.new ≡ take at bytes.old ++ (to_le_bytes w64 word ++ drop (at + 8) bytes.old) }
{
    least_byte_first(word).copy_to_slice(&mut bytes[at..]);
}

/// Returns the digits of `byte` and then those of `word`, as the eight bytes that spell them, the first
/// as the least significant.
#[inline]
fn joined_least_byte_first(byte: u8, word: u64) -> u64
    requires { byte * 2 ^ 56 + word < 2 ^ 64 }
    ensures { to_le_bytes w64 result ≡ to_be_bytes w64 (byte * 2 ^ 56 + word) }
{
    word.swap_bytes() + byte as u64
}

/// Joins the digits of the byte at the place `at` and of `word`. It writes them as eight bytes, most significant first, from there on, as
/// far as there is room.
#[inline]
pub fn join_bytes(bytes: &mut [u8], at: usize, word: u64)
    requires at { at ≤ length bytes.old }
    requires digits { slice_index bytes.old at * 2 ^ 56 + word < 2 ^ 64 }
    ensures { bytes.new ≡ take (length bytes.old) (take at bytes.old ++
        (to_be_bytes w64 (slice_index bytes.old at * 2 ^ 56 + word) ++ drop (at + 8) bytes.old)) }
{
    if 8 <= bytes.len() && at <= bytes.len() - 8 {
        let eight = joined_least_byte_first(bytes[at], word);
        store_least_byte_first(bytes, at, eight);
    } else if at < bytes.len() {
        join_last_bytes(bytes, at, word);
    }
}

/// Joins the digits of `word` where fewer than eight bytes are left.
#[cold]
#[inline(never)]
fn join_last_bytes(bytes: &mut [u8], at: usize, word: u64)
    requires at { at < length bytes.old }
    requires few { length bytes.old ≤ at + 8 }
    requires digits { slice_index bytes.old at * 2 ^ 56 + word < 2 ^ 64 }
    ensures { bytes.new ≡ take (length bytes.old) (take at bytes.old ++
        to_be_bytes w64 (slice_index bytes.old at * 2 ^ 56 + word)) }
{
    let mut eight = [0; 8];
    store_least_byte_first(&mut eight, 0, joined_least_byte_first(bytes[at], word));
    let left = bytes.len() - at;
    bytes[at..].copy_from_slice(&eight[..left]);
}

/// Sets bit number `at`.
#[inline]
pub fn join_one_at_bit(bytes: &mut [u8], at: u64)
    requires { at < 8 * length bytes.old }
    ensures { bytes.new ≡ set bytes.old (at / 8)
        (bit_or (slice_index bytes.old (at / 8)) (2 ^ (7 - at % 8))) }
{
    // A rotation, of which the machine takes the remainder by 8 itself.
    bytes[(at / 8) as usize] |= 0x80_u8.rotate_right((at % 8) as u32);
}

/// Moves the byte at the place `at`, or a zero if there is none, to the start. It writes zeros after it, up to that place at least.
#[inline]
pub fn move_byte_to_front(bytes: &mut [u8], at: usize)
    requires { at ≤ length bytes.old }
    ensures { (count : ℕ) × (at ≤ count) × (bytes.new ≡
        take (length bytes.old) (slice_index bytes.old at ∷ replicate count 0 ++
        drop (count + 1) bytes.old)) }
{
    let kept = if at < bytes.len() { bytes[at] } else { 0 };
    store_zeros_at_front(bytes, at + 1);
    if !bytes.is_empty() {
        bytes[0] = kept;
    }
}

/// Writes zeros to the first bytes, to `count` of them at least, or to all where there are fewer.
#[inline]
fn store_zeros_at_front(bytes: &mut [u8], count: usize)
    ensures { (some : ℕ) × (min count (length bytes.old) ≤ some) × (some ≤ length bytes.old) ×
        (bytes.new ≡ replicate some 0 ++ drop some bytes.old) }
{
    if count <= 64 && 64 <= bytes.len() {
        u8x64::splat(0).copy_to_slice(bytes);
    } else {
        store_exact_zeros(bytes, count);
    }
}

/// Writes zeros to exactly the first `count` bytes, or to all where there are fewer.
#[inline(never)]
fn store_exact_zeros(bytes: &mut [u8], count: usize)
    ensures { bytes.new ≡ replicate (min count (length bytes.old)) 0 ++
        drop (min count (length bytes.old)) bytes.old }
{
    let end = bytes.len().min(count);
    bytes[..end].fill(0);
}

/// Writes `count` zeros from the place `at` on.
pub fn store_zeros(bytes: &mut [u8], at: usize, count: usize)
    requires { at + count ≤ length bytes.old }
    ensures { take (at + count) bytes.new ≡ take at bytes.old ++ replicate count 0 }
{
    bytes[at..at + count].fill(0);
}

/// Returns the number of the eight bytes from the place `at` on, most significant first.
#[inline]
pub fn load(bytes: &[u8], at: usize) -> u64
    requires { at + 8 ≤ length bytes.now }
    ensures { to_be_bytes w64 result ≡ take 8 (drop at bytes.now) }
{
    u64::from_be_bytes([
        bytes[at],
        bytes[at + 1],
        bytes[at + 2],
        bytes[at + 3],
        bytes[at + 4],
        bytes[at + 5],
        bytes[at + 6],
        bytes[at + 7],
    ])
}

/// Returns the 57 to 64 bits from bit `at` on, at the start of a word, with zeros after them.
#[inline]
pub fn at_least_57_bits_from(bytes: &[u8], at: usize) -> u64
    requires { at / 8 + 8 ≤ length bytes.now }
    ensures { word 64 result
        ≡ take (64 - at % 8) (drop at (bits_of bytes.now)) ++ replicate (at % 8) false }
{
    load(bytes, at / 8) << (at % 8)
}

/// Returns the number of the `width` bits from bit `at` on.
#[inline]
pub fn number_from(bytes: &[u8], at: usize, width: u32) -> u64
    requires width { width ≤ 32 }
    requires room { at / 8 + 8 ≤ length bytes.now }
    ensures below { result < 2 ^ width }
    ensures bits { word width result ≡ take width (drop at (bits_of bytes.now)) }
{
    digits_after(load(bytes, at / 8), (at % 8) as u32, width)
}
