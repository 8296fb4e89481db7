//! Sixteen fundamental sequences at a time.
ghost use Rattle.std.specs.Prelude.{◌*◌, ◌≤◌, IfSome, ◌≡◌, ◌-◌, ◌∷◌, length, take, flat_map};
ghost use Rattle.rice_bits.specs.Bits.{word, fundamental_sequence};
ghost use Rattle.rice_fast.specs.{ahead.ends_after, ahead.gaps, ahead.in_lanes, ahead.BeginWithSequences};

use crate::ahead::ends::{count_ones_in_first_bytes, first_ends};
use crate::vectors::{Bytes, Lanes};
use std::simd::prelude::*;

/// Successive fundamental sequences: the numbers of their zeros in the first lanes, and the number of all their bits. Later lanes are
/// unspecified.
#[derive(Clone, Copy)]
pub struct Sequences {
    pub numbers: u8x16,
    pub len: usize,
}

/// Returns the first `count` fundamental sequences of a word, if it finds them in its first `bytes` bytes.
#[inline(always)]
pub fn first_sequences(front: u64, bytes: usize, count: usize) -> Option<Sequences>
    requires bytes { (1 ≤ bytes) × (bytes ≤ 7) }
    requires count { (1 ≤ count) × (count ≤ 16) }
    ensures begin { IfSome result (λ s. BeginWithSequences (word 64 front) count s.numbers s.len) }
    ensures within { IfSome result (λ s. s.len ≤ 8 * bytes) }
{
    if count_ones_in_first_bytes(front, bytes) < count {
        return None;
    }
    let ends = first_ends(front, bytes);
    Some(Sequences {
        numbers: gaps_of(ends),
        len: len_of_sequences(front, bytes, ends, count),
    })
}

/// Returns the number of bits between each of these ends and the one before it, and before the first.
#[inline(always)]
pub fn gaps_of(ends: u8x16) -> u8x16
    requires { length ends ≡ 16 }
    ensures { result ≡ gaps (0 ∷ ends) }
{
    let ends = Bytes::of(ends);
    ends.above(ends.moved_by_one()).above(Bytes::splat(1)).lanes
}

/// Returns the number of bits of the first `count` fundamental sequences of a word, which end in its first bytes.
#[inline(always)]
pub fn len_of_sequences(front: u64, bytes: usize, ends: u8x16, count: usize) -> usize
    requires bytes { (1 ≤ bytes) × (bytes ≤ 7) }
    requires ends { ends ≡ in_lanes (ends_after 0 (take (8 * bytes) (word 64 front))) }
    requires some { (1 ≤ count) × (count ≤ 16) }
    requires there { count ≤ length (ends_after 0 (take (8 * bytes) (word 64 front))) }
    ensures inside { result ≤ 8 * bytes }
    ensures bits { flat_map fundamental_sequence (take count (gaps (0 ∷ ends))) ≡ take result
        (word 64 front) }
{
    ends.to_array()[count - 1] as usize
}
