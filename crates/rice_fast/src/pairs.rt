//! The pairs of a block ahead by second extension.
ghost use Rattle.std.specs.Prelude.{◌≡◌, ◌+◌, ◌-◌, ◌*◌, ◌%◌, ◌<◌, ◌≤◌, ◌++◌, All, IfSome, drop, length, replicate, sum, take};
ghost use Rattle.rice_samples.specs.Pairs.{pair_code, pair_codes};
ghost use Rattle.rice_fast.specs.FieldsAhead.{CanLook, PairsAhead};

use crate::encode::byte_rows::row_sum;
use crate::high_parts::{high_parts_ahead, store_row};
use crate::lanes::SampleLanes;
use crate::vectors::{Bytes, Lanes};
use rice_bits::BitsAhead;
use std::simd::prelude::*;

/// The first numbers of the pairs with the codes from 0 to 63.
static FIRSTS: [u8; 64] = [
    0, 1, 0, 2, 1, 0, 3, 2, 1, 0, 4, 3, 2, 1, 0, 5, 4, 3, 2, 1, 0, 6, 5, 4, 3, 2, 1, 0, 7, 6, 5, 4,
    3, 2, 1, 0, 8, 7, 6, 5, 4, 3, 2, 1, 0, 9, 8, 7, 6, 5, 4, 3, 2, 1, 0, 10, 9, 8, 7, 6, 5, 4, 3,
    2,
];

/// The second numbers of these pairs.
static SECONDS: [u8; 64] = [
    0, 0, 1, 0, 1, 2, 0, 1, 2, 3, 0, 1, 2, 3, 4, 0, 1, 2, 3, 4, 5, 0, 1, 2, 3, 4, 5, 6, 0, 1, 2, 3,
    4, 5, 6, 7, 0, 1, 2, 3, 4, 5, 6, 7, 8, 0, 1, 2, 3, 4, 5, 6, 7, 8, 9, 0, 1, 2, 3, 4, 5, 6, 7, 8,
];

/// The residuals of a block by second extension, the number of bits of their codewords, and the number of turns that a search for the pairs
/// takes.
#[derive(Clone, Copy)]
pub struct Pairs {
    pub numbers: [u8; 80],
    pub len: usize,
    pub turns: u64,
    ghost places: { length numbers ≡ 80 },
}

/// Returns the pair with the number `code`.
#[inline(always)]
fn pair_of(code: u8) -> (u8, u8)
    requires { code < 64 }
    ensures { pair_code result.0 result.1 ≡ code }
{
    (FIRSTS[code as usize], SECONDS[code as usize])
}

/// Returns the pairs with the first eight of these numbers.
#[inline(always)]
fn eight_pairs(codes: u8x16) -> u8x16
    requires lanes { length codes ≡ 16 }
    requires small { All (λ g. g < 64) codes }
    ensures pairs { pair_codes result ≡ take 8 codes }
    ensures lanes { length result ≡ 16 }
{
    let codes = codes.to_array();
    let mut numbers = [0; 16];
    for i in 0..8 {
        let (first, second) = pair_of(codes[i]);
        numbers[2 * i] = first;
        numbers[2 * i + 1] = second;
    }
    u8x16::from_array(numbers)
}

/// Returns the pairs with `count` of these numbers, from number `at` on, with zeros after them, or `None` if a number is above 63.
#[inline(always)]
fn row_of_pairs(codes: &[u8; 80], at: usize, count: usize) -> Option<Bytes>
    requires there { at + 16 ≤ 80 }
    requires count { count ≤ 8 }
    ensures { IfSome result (λ r. pair_codes r.lanes ≡ take count (drop at codes.now) ++ replicate (8 - count) 0) }
{
    let codes = Bytes::of(u8x16::from_slice(&codes[at..])).first(count);
    if !codes.above(Bytes::splat(63)).is_zero() {
        return None;
    }
    Some(Bytes::of(eight_pairs(codes.lanes)))
}

/// Writes the pairs with the first `count` of these numbers to the front of `numbers`. Returns the sum of all of them, or `None` if a
/// number is above 63.
#[inline(always)]
fn write_pairs(codes: &[u8; 80], count: usize, numbers: &mut [u8; 80]) -> Option<u64>
    requires few { count ≤ 32 }
    ensures pairs { IfSome result (λ t. pair_codes (take (2 * count) numbers.new) ≡ take count codes.now) }
    ensures sum { IfSome result (λ t. sum (take (2 * count) numbers.new) ≡ t) }
{
    let mut all = 0;
    for row in 0..(count + 7) / 8 {
        let pairs = row_of_pairs(codes, 8 * row, (count - 8 * row).min(8))?;
        store_row(numbers, row, pairs.lanes);
        all += row_sum(pairs.lanes) as u64;
    }
    Some(all)
}

/// Returns the residuals of a block of `size` samples by second extension. Their codewords begin after `skip` bits. Returns `None` if these
/// are long, or if the residual of a reference sample is not 0, of which there is one or none.
///
/// A call, so that the code for these blocks stands once.
#[inline(never)]
pub fn pairs_ahead(
    ahead: &BitsAhead<'_>,
    size: usize,
    skip: usize,
    references: usize,
) -> Option<Pairs>
    requires size { (2 ≤ size) × (size ≤ 64) }
    requires even { size % 2 ≡ 0 }
    requires skip { CanLook (skip + 232) ahead.now }
    requires references { references ≤ 1 }
    ensures some { IfSome result (λ p. PairsAhead ahead.now skip references (take size p.numbers) p.len p.turns) }
    ensures short { IfSome result (λ p. p.len ≤ 224) }
{
    let mut codes = [0; 80];
    let len = high_parts_ahead(ahead, size / 2, skip, 0, &mut codes)?;
    let mut numbers = [0; 80];
    let turns = write_pairs(&codes, size / 2, &mut numbers)?;
    if references > 0 && numbers[0] != 0 {
        return None;
    }
    Some(Pairs {
        numbers,
        len,
        turns,
    })
}
