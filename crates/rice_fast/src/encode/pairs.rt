//! The pairs of second extension.
ghost use Rattle.std.specs.Prelude.{◌≡◌, ◌+◌, ◌-◌, ◌%◌, ◌^◌, ◌<◌, ◌≤◌, All, length, flat_map};
ghost use Rattle.rice_bits.specs.Bits.{fundamental_sequence};
ghost use Rattle.rice_samples.specs.{Parameters.IsBlockSize, Pairs.pair_code, Pairs.pair_codes};
ghost use Rattle.rice_code.specs.{encode.BitBuffer.sink_bits, encode.BitBuffer.HasRoomFor, encode.BitBuffer.AddsFields, encode.BitBuffer.pairs_len};

use crate::encode::bit_buffer::BitBuffer;
use rice_bits::Meter;
use rice_code::SegmentSink;

/// Returns the number of bits of the codewords of all pairs, where all residuals are small.
///
/// It is never inlined, so that none of it is done where no pairs are wanted.
#[inline(never)]
pub fn pairs_bits(items: &[u32]) -> u64
    requires size { IsBlockSize (length items.now) }
    requires small { All (λ d. d < 2 ^ 12) items.now }
    ensures value { result ≡ pairs_len items.now }
    ensures limit { result ≤ 2 ^ 30 }
{
    let mut total: u32 = 0;
    for i in 0..items.len() / 2 {
        total += codeword_len(items[2 * i], items[2 * i + 1]);
    }
    total as u64
}

/// Returns the number of bits of the codeword of a pair of small residuals.
#[inline(always)]
fn codeword_len(a: u32, b: u32) -> u32
    requires a { a < 2 ^ 12 }
    requires b { b < 2 ^ 12 }
    ensures value { result ≡ pair_code a b + 1 }
    ensures limit { result ≤ 2 ^ 25 }
{
    let sum = a + b;
    sum * (sum + 1) / 2 + b + 1
}

/// Returns the number of the codeword of a pair, where the codeword fits a sink.
#[inline]
fn codeword_of(a: u32, b: u32) -> u32
    requires { pair_code a b ≤ sink_bits }
    ensures { result ≡ pair_code a b }
{
    let sum = a as u64 + b as u64;
    (sum * (sum + 1) / 2) as u32 + b
}

/// Adds the codewords of the pairs, and returns the buffer.
#[inline(never)]
pub fn put_pairs(
    items: &[u32],
    mut fields: BitBuffer,
    sink: &mut SegmentSink,
    meter: &mut Meter,
) -> BitBuffer
    requires even { length items.now % 2 ≡ 0 }
    requires room { HasRoomFor (pairs_len items.now) (pairs_len items.now)
        (length sink.old + length fields) (meter.old + length fields) }
    ensures { AddsFields (flat_map fundamental_sequence (pair_codes items.now))
        (pairs_len items.now) (pairs_len items.now) sink.old fields sink.new result meter.old meter.new }
{
    for i in 0..items.len() / 2 {
        fields.add_fs(codeword_of(items[2 * i], items[2 * i + 1]), sink, meter);
    }
    fields
}
