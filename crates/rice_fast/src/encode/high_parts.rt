//! The high parts of a block's residuals: what is left of each without its lowest digits, in a byte, and their fundamental sequences.
ghost use Rattle.std.specs.Prelude.{◌≡◌, ◌+◌, ◌-◌, ◌*◌, ◌/◌, ◌^◌, ◌<◌, ◌≤◌, ◌++◌, All, length, map, replicate, slice_range, sum_by, take};
ghost use Rattle.rice_code.specs.encode.BitBuffer.{HasRoomForSequences, AddsSequences};
ghost use Rattle.rice_fast.specs.Parts.{with_zeros};

use crate::encode::bit_buffer::BitBuffer;
use crate::encode::byte_rows::{
    eight_cut, rest_cut, row_at, row_cut, row_sum, sixteen_cut, store_row,
};
use crate::encode::sequences_by_products::{are_at_most_six, joined_sequences, len_of_sequences};
use rice_bits::Meter;
use rice_code::SegmentSink;
use std::simd::prelude::*;

/// Returns the numbers without their `k` lowest digits, and zeros after them.
#[inline(always)]
pub fn high_parts(items: &[u32], k: u32) -> [u8; 64]
    requires few { length items.now ≤ 64 }
    requires split { k < 32 }
    requires small { All (λ d. d / 2 ^ k < 2 ^ 8) items.now }
    ensures { result ≡ with_zeros (map (λ d. d / 2 ^ k) items.now) }
{
    let mut high = [0; 64];
    let sixteens = items.len() / 16;
    for i in 0..sixteens {
        store_row(&mut high, i, sixteen_cut(items, 16 * i, k));
    }
    let rest = &items[16 * sixteens..];
    if rest.len() == 8 {
        store_row(&mut high, sixteens, eight_cut(items, 16 * sixteens, k));
    } else if rest.len() > 0 {
        store_row(&mut high, sixteens, rest_cut(rest, k));
    }
    high
}

/// Returns the numbers without their `k` lowest digits.
#[inline(always)]
pub fn shifted(numbers: &[u8; 64], k: u32) -> [u8; 64]
    requires { k < 8 }
    ensures { result ≡ map (λ m. m / 2 ^ k) numbers.now }
{
    let mut all = [0; 64];
    for i in 0..4 {
        store_row(&mut all, i, row_cut(row_at(numbers, i), k));
    }
    all
}

/// Returns the sum of the numbers without their `k` lowest digits.
#[inline(always)]
pub fn sum_shifted(numbers: &[u8; 64], k: u32) -> u32
    requires { k < 8 }
    ensures value { result ≡ sum_by (λ m. m / 2 ^ k) numbers.now }
    ensures limit { result < 2 ^ 14 }
{
    let mut sum = 0;
    for i in 0..4 {
        sum += row_sum(row_cut(row_at(numbers, i), k));
    }
    sum
}

/// Adds the sequences of the first `len` numbers, from number `from`, 0 or 1, on, and returns the buffer. Zeros follow these numbers.
#[inline(always)]
pub fn put_high<const SIZE: usize, const REFERENCE: bool>(
    numbers: &[u8; 64],
    len: usize,
    from: usize,
    fields: BitBuffer,
    sink: &mut SegmentSink,
    meter: &mut Meter,
) -> BitBuffer
    requires from { from ≤ 1 }
    requires len { (8 ≤ len) × (len ≤ 64) }
    requires zeros { numbers.now ≡ with_zeros (take len numbers.now) }
    requires room { HasRoomForSequences (slice_range numbers.now from len)
        (length sink.old + length fields) (meter.old + length fields) }
    ensures { AddsSequences (slice_range numbers.now from len)
        sink.old fields sink.new result meter.old meter.new }
{
    let mut fields = put_row(row_at(numbers, 0), from, len.min(16), fields, sink, meter);
    for i in 1..(len + 15) / 16 {
        let row = row_at(numbers, i);
        fields = put_row(row, 0, (len - 16 * i).min(16), fields, sink, meter);
    }
    fields
}

/// Adds the sequences of the first `count` of sixteen numbers, from number `from`, 0 or 1, on, and returns the buffer. The others are zeros.
#[inline(always)]
fn put_row(
    numbers: u8x16,
    from: usize,
    count: usize,
    fields: BitBuffer,
    sink: &mut SegmentSink,
    meter: &mut Meter,
) -> BitBuffer
    requires lanes { length numbers ≡ 16 }
    requires from { from ≤ 1 }
    requires count { (1 ≤ count) × (count ≤ 16) }
    requires zeros { numbers ≡ take count numbers ++ replicate (16 - count) 0 }
    requires room { HasRoomForSequences (slice_range numbers from count)
        (length sink.old + length fields) (meter.old + length fields) }
    ensures { AddsSequences (slice_range numbers from count)
        sink.old fields sink.new result meter.old meter.new }
{
    if are_at_most_six(numbers) {
        let total = len_of_sequences(numbers, from, count);
        if total + (16 - count as u32) <= 56 {
            let mut fields = fields;
            let digits = joined_sequences(numbers, from, count, total);
            fields.add(digits, total, sink, meter);
            return fields;
        }
    }
    put_in_turn(&numbers.to_array(), from, count, fields, sink, meter)
}

/// Adds the fundamental sequences of numbers `from` to `to`, one by one, and returns the buffer. It takes no reference to the buffer, so
/// that its bits stay in registers elsewhere.
#[inline(never)]
fn put_in_turn(
    numbers: &[u8; 16],
    from: usize,
    to: usize,
    mut fields: BitBuffer,
    sink: &mut SegmentSink,
    meter: &mut Meter,
) -> BitBuffer
    requires from { from ≤ to }
    requires to { to ≤ 16 }
    requires room { HasRoomForSequences (slice_range numbers.now from to)
        (length sink.old + length fields) (meter.old + length fields) }
    ensures { AddsSequences (slice_range numbers.now from to)
        sink.old fields sink.new result meter.old meter.new }
{
    for i in from..to {
        fields.add_fs(numbers[i] as u32, sink, meter);
    }
    fields
}
