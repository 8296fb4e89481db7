//! Looks at bits ahead: at one word, or at up to sixteen fundamental sequences or words at a time, in the lanes of a vector.
ghost use Rattle.std.specs.Prelude.{◌≡◌, ◌+◌, ◌*◌, ◌^◌, ◌<◌, ◌≤◌, length, All, drop, flat_map, take, IfSome};
ghost use Rattle.rice_bits.specs.Bits.{word};
ghost use Rattle.rice_fast.specs.ahead.{BeginWithSequences};

mod ends;
pub mod sequences;
mod tables_of_ends;
mod wide_words;
pub mod words;

use crate::ahead::sequences::{Sequences, first_sequences};
use crate::ahead::wide_words::wide_words_from;
use crate::ahead::words::sixteen_words_from;
use rice_bits::{BitsAhead, at_least_57_bits_from, number_from};
use std::simd::prelude::*;

/// Returns the number of the `width` bits after the first `skip`, most significant first.
#[inline(always)]
pub fn number_ahead(ahead: &BitsAhead<'_>, skip: usize, width: u32) -> u32
    requires width { width ≤ 32 }
    requires there { skip + width ≤ length ahead.now }
    ensures below { result < 2 ^ width }
    ensures bits { word width result ≡ take width (drop skip ahead.now) }
{
    let (buffer, at) = ahead.from(skip);
    number_from(buffer, at, width) as u32
}

/// Returns the first `count` fundamental sequences after the first `skip` bits, if it finds them in `bytes` bytes.
#[inline(always)]
pub fn sequences_ahead(
    ahead: &BitsAhead<'_>,
    skip: usize,
    bytes: usize,
    count: usize,
) -> Option<Sequences>
    requires bytes { (1 ≤ bytes) × (bytes ≤ 7) }
    requires count { (1 ≤ count) × (count ≤ 16) }
    requires there { skip + 64 ≤ length ahead.now }
    ensures { IfSome result (λ s.
        BeginWithSequences (drop skip ahead.now) count s.numbers s.len) }
{
    let (buffer, at) = ahead.from(skip);
    let front = at_least_57_bits_from(buffer, at);
    first_sequences(front, bytes, count)
}

/// Returns the sixteen words of `width` bits after the first `skip` bits.
#[inline(always)]
pub fn words_ahead(ahead: &BitsAhead<'_>, skip: usize, width: u32) -> u8x16
    requires width { width ≤ 8 }
    requires there { skip + 128 ≤ length ahead.now }
    ensures len { length result ≡ 16 }
    ensures fit { All (λ v. v < 2 ^ width) result }
    ensures bits { flat_map (word width) result
        ≡ take (16 * width) (drop skip ahead.now) }
{
    let (buffer, at) = ahead.from(skip);
    sixteen_words_from(buffer, at, width)
}

/// Returns the eight words of `width` bits after the first `skip` bits.
#[inline(always)]
pub fn wide_words_ahead(ahead: &BitsAhead<'_>, skip: usize, width: u32) -> u32x8
    requires width { (1 ≤ width) × (width ≤ 24) }
    requires there { skip + 8 * width + 64 ≤ length ahead.now }
    ensures len { length result ≡ 8 }
    ensures fit { All (λ v. v < 2 ^ width) result }
    ensures bits { flat_map (word width) result
        ≡ take (8 * width) (drop skip ahead.now) }
{
    let (buffer, at) = ahead.from(skip);
    wide_words_from(buffer, at, width)
}
