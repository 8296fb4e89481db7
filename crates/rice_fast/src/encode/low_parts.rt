//! Writes the lowest digits of residuals, eight residuals at a time, and fewer one by one.
ghost use Rattle.std.specs.Prelude.{◌≡◌, ◌+◌, ◌-◌, ◌*◌, ◌^◌, ◌<◌, ◌≤◌, [], All, drop, false, flat_map, length};
ghost use Rattle.rice_bits.specs.Bits.{word, put_width};
ghost use Rattle.rice_code.specs.encode.BitBuffer.{HasRoomFor, HasRoomForBits, AddsBits, AddsFields};
ghost use Rattle.rice_fast.specs.Parts.{AddsLow, CanAddLow, low_digits_of_each, joined_in_pairs};

use crate::encode::bit_buffer::BitBuffer;
use rice_bits::{Meter, join, low_digits};
use rice_code::SegmentSink;
use std::simd::prelude::*;

/// Adds the `width` lowest digits of each residual from number `from`, 0 or 1, on, and puts all bits. Where the digits are whole bytes,
/// and the residuals come in eights, 64 are put at once.
#[inline(always)]
pub fn put_words(
    items: &[u32],
    from: usize,
    width: u32,
    fields: BitBuffer,
    sink: &mut SegmentSink,
    meter: &mut Meter,
)
    requires low { CanAddLow from width items.now sink.old fields meter.old }
    requires long { 8 ≤ length items.now }
    requires some { from ≡ 0 → (1 ≤ length fields) × (length fields ≤ 48) }
    ensures { AddsLow from width items.now sink.old fields sink.new [] meter.old meter.new }
{
    if from == 0 && items.len() % 8 == 0 && (width == 8 || width == 16 || width == 32) {
        fields.put_then_whole_words(items, width, sink, meter);
        return;
    }
    put_other_words(items, from, width, fields, sink, meter);
}

/// Does what `put_words` does with digits that need not be whole bytes.
///
/// It is never inlined, so that it takes no room where they are.
#[inline(never)]
fn put_other_words(
    items: &[u32],
    from: usize,
    width: u32,
    mut fields: BitBuffer,
    sink: &mut SegmentSink,
    meter: &mut Meter,
)
    requires low { CanAddLow from width items.now sink.old fields meter.old }
    requires long { 8 ≤ length items.now }
    ensures { AddsLow from width items.now sink.old fields sink.new [] meter.old meter.new }
{
    put_low(items, from, width, &mut fields, sink, meter);
    fields.put(sink, meter);
}

/// Adds the `width` lowest digits of each residual from number `from`, 0 or 1, on.
#[inline(always)]
pub fn put_low(
    items: &[u32],
    from: usize,
    width: u32,
    fields: &mut BitBuffer,
    sink: &mut SegmentSink,
    meter: &mut Meter,
)
    requires low { CanAddLow from width items.now sink.old fields.old meter.old }
    requires long { 8 ≤ length items.now }
    ensures { AddsLow from width items.now
        sink.old fields.old sink.new fields.new meter.old meter.new }
{
    if width == 0 {
        return;
    }
    if width > 14 {
        let held = std::mem::replace(fields, BitBuffer::new());
        *fields = put_wide(items, from, width, held, sink, meter);
        return;
    }
    put_eights::<false>(items, from, width, fields, sink, meter);
}

/// Adds these digits where they are many, and returns the buffer.
///
/// It is never inlined: blocks of every size share it.
#[inline(never)]
fn put_wide(
    items: &[u32],
    from: usize,
    width: u32,
    mut fields: BitBuffer,
    sink: &mut SegmentSink,
    meter: &mut Meter,
) -> BitBuffer
    requires low { CanAddLow from width items.now sink.old fields meter.old }
    requires long { 8 ≤ length items.now }
    ensures { AddsLow from width items.now sink.old fields sink.new result meter.old meter.new }
{
    put_eights::<true>(items, from, width, &mut fields, sink, meter);
    fields
}

/// Adds these digits, eight residuals at a time. Unless `WIDE` is true, they are 14 or less.
#[inline(always)]
fn put_eights<const WIDE: bool>(
    items: &[u32],
    from: usize,
    width: u32,
    fields: &mut BitBuffer,
    sink: &mut SegmentSink,
    meter: &mut Meter,
)
    requires narrow { WIDE ≡ false → width ≤ 14 }
    requires low { CanAddLow from width items.now sink.old fields.old meter.old }
    requires long { 8 ≤ length items.now }
    ensures { AddsLow from width items.now
        sink.old fields.old sink.new fields.new meter.old meter.new }
{
    put_eight::<WIDE>(&items[..8], from, width, fields, sink, meter);
    let eights = items.len() / 8;
    for i in 1..eights {
        put_eight::<WIDE>(&items[8 * i..8 * i + 8], 0, width, fields, sink, meter);
    }
    if items.len() % 8 != 0 {
        put_some(&items[8 * eights..], 0, width, fields, sink, meter);
    }
}

/// Adds the `width` lowest digits of each of eight residuals from number `from`, 0 or 1, on.
#[inline(always)]
fn put_eight<const WIDE: bool>(
    eight: &[u32],
    from: usize,
    width: u32,
    fields: &mut BitBuffer,
    sink: &mut SegmentSink,
    meter: &mut Meter,
)
    requires narrow { WIDE ≡ false → width ≤ 14 }
    requires low { CanAddLow from width eight.now sink.old fields.old meter.old }
    requires eight { length eight.now ≡ 8 }
    ensures { AddsLow from width eight.now
        sink.old fields.old sink.new fields.new meter.old meter.new }
{
    if !WIDE {
        put_eight_short(eight, from, width, fields, sink, meter);
        return;
    }
    if width > 28 {
        put_some(eight, from, width, fields, sink, meter);
        return;
    }
    let low = lowest_digits(u32x8::from_slice(eight), width);
    let pairs = joined_pairs(low, width).to_array();
    add_numbers::<true>(&pairs, 2 * width, from as u32 * width, fields, sink, meter);
}

/// Adds the `width` lowest digits of each of eight residuals from number `from`, 0 or 1, on, joined to one number or two.
#[inline(always)]
fn put_eight_short(
    eight: &[u32],
    from: usize,
    width: u32,
    fields: &mut BitBuffer,
    sink: &mut SegmentSink,
    meter: &mut Meter,
)
    requires width { width ≤ 14 }
    requires low { CanAddLow from width eight.now sink.old fields.old meter.old }
    requires eight { length eight.now ≡ 8 }
    ensures { AddsLow from width eight.now
        sink.old fields.old sink.new fields.new meter.old meter.new }
{
    let low = lowest_digits(u32x8::from_slice(eight), width);
    let skipped = from as u32 * width;
    let fours = joined_fours(joined_short_pairs(low, width), 2 * width).to_array();
    if width > 7 {
        add_numbers::<false>(&fours, 4 * width, skipped, fields, sink, meter);
        return;
    }
    let all = join(fours[0], 4 * width, fours[1]);
    add_numbers::<false>(&[all], 8 * width, skipped, fields, sink, meter);
}

/// Adds the `width` digits of each number, without the first `skipped` of the first number. If `WIDE` is true, it puts each at once.
#[inline(always)]
fn add_numbers<const WIDE: bool>(
    numbers: &[u64],
    width: u32,
    skipped: u32,
    fields: &mut BitBuffer,
    sink: &mut SegmentSink,
    meter: &mut Meter,
)
    requires some { 1 ≤ length numbers.now }
    requires width { width ≤ 56 }
    requires skipped { skipped ≤ width }
    requires fit { All (λ v. v < 2 ^ width) numbers.now }
    requires room { HasRoomForBits (drop skipped (flat_map (word width) numbers.now))
        (length sink.old + length fields.old) (meter.old + length fields.old) }
    ensures { AddsBits (drop skipped (flat_map (word width) numbers.now))
        sink.old fields.old sink.new fields.new meter.old meter.new }
{
    let first = last_digits(numbers[0], width, skipped);
    add_number::<WIDE>(first, width - skipped, fields, sink, meter);
    for i in 1..numbers.len() {
        add_number::<WIDE>(numbers[i], width, fields, sink, meter);
    }
}

/// Adds the `width` digits of `value`. If `WIDE` is true, it puts them: few others would fit beside them.
#[inline(always)]
fn add_number<const WIDE: bool>(
    value: u64,
    width: u32,
    fields: &mut BitBuffer,
    sink: &mut SegmentSink,
    meter: &mut Meter,
)
    requires width { width ≤ put_width }
    requires value { value < 2 ^ width }
    requires room { HasRoomFor width width (length sink.old + length fields.old) (meter.old +
        length fields.old) }
    ensures { AddsFields (word width value) width width
        sink.old fields.old sink.new fields.new meter.old meter.new }
{
    fields.add(value, width, sink, meter);
    if WIDE {
        fields.put(sink, meter);
    }
}

/// Adds the `width` lowest digits of each of eight residuals or fewer from number `from` on, one after another.
#[inline(always)]
fn put_some(
    some: &[u32],
    from: usize,
    width: u32,
    fields: &mut BitBuffer,
    sink: &mut SegmentSink,
    meter: &mut Meter,
)
    requires width { width ≤ 32 }
    requires from { from ≤ length some.now }
    requires few { length some.now ≤ 8 }
    requires room { HasRoomForBits (flat_map (word width) (drop from some.now))
        (length sink.old + length fields.old) (meter.old + length fields.old) }
    ensures { AddsLow from width some.now
        sink.old fields.old sink.new fields.new meter.old meter.new }
{
    let held = std::mem::replace(fields, BitBuffer::new());
    *fields = put_in_turn(some, from, width, held, sink, meter);
}

/// Adds these digits, and returns the buffer. It takes no reference to the buffer, so that its bits stay in registers elsewhere.
#[inline(never)]
fn put_in_turn(
    some: &[u32],
    from: usize,
    width: u32,
    mut fields: BitBuffer,
    sink: &mut SegmentSink,
    meter: &mut Meter,
) -> BitBuffer
    requires width { width ≤ 32 }
    requires from { from ≤ length some.now }
    requires few { length some.now ≤ 8 }
    requires room { HasRoomForBits (flat_map (word width) (drop from some.now))
        (length sink.old + length fields) (meter.old + length fields) }
    ensures { AddsLow from width some.now sink.old fields sink.new result meter.old meter.new }
{
    for i in from..some.len() {
        fields.add(low_digits(some[i], width), width, sink, meter);
    }
    fields
}

/// Returns the number of the `width` digits of a number without the first `skipped`.
#[inline(always)]
fn last_digits(value: u64, width: u32, skipped: u32) -> u64
    requires width { width ≤ 56 }
    requires skipped { skipped ≤ width }
    requires value { value < 2 ^ width }
    ensures bits { word (width - skipped) result ≡ drop skipped (word width value) }
    ensures fits { result < 2 ^ (width - skipped) }
{
    if skipped == 0 {
        return value;
    }
    value % (1 << (width - skipped))
}

/// Returns the `width` lowest digits of each number.
#[inline(always)]
fn lowest_digits(eight: u32x8, width: u32) -> u32x8
    requires lanes { length eight ≡ 8 }
    requires width { width ≤ 28 }
    ensures value { result ≡ low_digits_of_each width eight }
    ensures len { length result ≡ 8 }
{
    eight & u32x8::splat((1 << width) - 1)
}

/// Joins each two of eight numbers of `width` digits.
#[inline(always)]
fn joined_pairs(low: u32x8, width: u32) -> u64x4
    requires lanes { length low ≡ 8 }
    requires width { width ≤ 28 }
    requires fit { All (λ v. v < 2 ^ width) low }
    ensures value { result ≡ joined_in_pairs width low }
    ensures len { length result ≡ 4 }
{
    // A product of numbers of 32 bits is one instruction for two lanes, and a shift is more.
    let factor = u32x4::splat(1 << width).cast::<u64>();
    let first = low.swizzle([0, 2, 4, 6]).cast::<u64>() * factor;
    first | low.swizzle([1, 3, 5, 7]).cast::<u64>()
}

/// Joins each two of eight numbers of `width` digits, so few that pairs fit the same lanes.
#[inline(always)]
fn joined_short_pairs(low: u32x8, width: u32) -> u32x4
    requires lanes { length low ≡ 8 }
    requires width { width ≤ 14 }
    requires fit { All (λ v. v < 2 ^ width) low }
    ensures value { result ≡ joined_in_pairs width low }
    ensures len { length result ≡ 4 }
{
    let first = low.swizzle([0, 2, 4, 6]) << u32x4::splat(width);
    first | low.swizzle([1, 3, 5, 7])
}

/// Joins each two of four numbers of `width` digits.
#[inline(always)]
fn joined_fours(pairs: u32x4, width: u32) -> u64x2
    requires lanes { length pairs ≡ 4 }
    requires width { width ≤ 28 }
    requires fit { All (λ v. v < 2 ^ width) pairs }
    ensures value { result ≡ joined_in_pairs width pairs }
    ensures len { length result ≡ 2 }
{
    let first = pairs.swizzle([0, 2]).cast::<u64>() << u64x2::splat(width as u64);
    first | pairs.swizzle([1, 3]).cast::<u64>()
}
