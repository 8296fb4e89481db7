//! The high parts of the residuals of a block ahead, in rows of sixteen. The last row may have fewer.
ghost use Rattle.std.specs.Prelude.{◌≡◌, ◌+◌, ◌-◌, ◌*◌, ◌<◌, ◌≤◌, ◌++◌, IfSome, length, take};
ghost use Rattle.rice_fast.specs.FieldsAhead.{CanLook, HighsAhead};

use crate::ahead::sequences::Sequences;
use crate::ahead::sequences_ahead;
use crate::rows::{placed, row_len};
use crate::vectors::Bytes;
use rice_bits::BitsAhead;
use std::simd::prelude::*;

/// Returns the number of bytes in which the fundamental sequences of a row have to end. High parts are 1 to 2 in the mean, and of four
/// rows one is often longer than six bytes.
#[inline(always)]
fn row_bytes(size: usize) -> usize
    ensures { (1 ≤ result) × (result ≤ 7) }
{
    if size > 16 {
        7
    } else if size > 8 {
        6
    } else {
        5
    }
}

/// Writes the numbers to row `row`, of sixteen numbers each.
#[inline(always)]
pub fn store_row(rows: &mut [u8], row: usize, numbers: u8x16)
    requires row { 16 * (row + 1) ≤ length rows.old }
    requires few { length rows.old ≤ 80 }
    requires lanes { length numbers ≡ 16 }
    ensures len { length rows.new ≡ length rows.old }
    ensures value { take (16 * (row + 1)) rows.new ≡ take (16 * row) rows.old ++ numbers }
{
    numbers.copy_to_slice(&mut rows[16 * row..]);
}

/// Returns the high parts of a row of `count` residuals whose fundamental sequences follow the first `skip` bits, if they end within
/// `bytes` bytes, and zeros after them. Those that are omitted, one or none, are zeros.
#[inline(always)]
fn high_parts_of_row_ahead(
    ahead: &BitsAhead<'_>,
    skip: usize,
    omitted: usize,
    count: usize,
    bytes: usize,
) -> Option<Sequences>
    requires skip { skip + 64 ≤ length ahead.now }
    requires omitted { omitted ≤ 1 }
    requires count { (omitted < count) × (count ≤ 16) }
    requires bytes { (1 ≤ bytes) × (bytes ≤ 7) }
    ensures some { IfSome result (λ s.
        HighsAhead ahead.now skip omitted (take count s.numbers) s.len) }
    ensures lanes { IfSome result (λ s. length s.numbers ≡ 16) }
    ensures short { IfSome result (λ s. s.len ≤ 56) }
{
    let sequences = sequences_ahead(ahead, skip, bytes, count - omitted)?;
    let row = placed(Bytes::of(sequences.numbers), omitted, count);
    Some(Sequences {
        numbers: row.lanes,
        len: sequences.len,
    })
}

/// Writes the high parts of the residuals of a block of `size` samples to the front of `highs`, and returns the number of their bits. Their
/// fundamental sequences begin after `skip` bits. Returns `None` if a row of them is longer than one look. Parts that are omitted, none or
/// one, are zeros.
#[inline(always)]
pub fn high_parts_ahead(
    ahead: &BitsAhead<'_>,
    size: usize,
    skip: usize,
    omitted: usize,
    highs: &mut [u8; 80],
) -> Option<usize>
    requires size { (omitted < size) × (size ≤ 64) }
    requires skip { CanLook (skip + 232) ahead.now }
    requires omitted { omitted ≤ 1 }
    ensures some { IfSome result (λ n. HighsAhead ahead.now skip omitted
        (take size highs.new) n) }
    ensures short { IfSome result (λ n. n ≤ 224) }
{
    let bytes = row_bytes(size);
    let first = high_parts_of_row_ahead(ahead, skip, omitted, row_len::<Bytes, 0>(size, 0), bytes)?;
    store_row(highs, 0, first.numbers);
    let mut len = first.len;
    for row in 1..(size + 15) / 16 {
        let count = row_len::<Bytes, 0>(size, 16 * row);
        let next = high_parts_of_row_ahead(ahead, skip + len, 0, count, bytes)?;
        store_row(highs, row, next.numbers);
        len += next.len;
    }
    Some(len)
}
