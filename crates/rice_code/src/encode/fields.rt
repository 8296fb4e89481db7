//! Puts the fields of residuals in coded data sets.
ghost use Rattle.std.specs.Prelude.{◌≡◌, ◌+◌, ◌-◌, ◌%◌, ◌^◌, ◌<◌, ◌≤◌, length, drop};
ghost use Rattle.rice_samples.specs.Pairs.{pair_code};
ghost use Rattle.rice_code.specs.encode.BitBuffer.{sink_bits, HasRoomFor, HasRoomForLow, HasRoomForOnes, PutsLow, PutsOnes, PutsPairs, pairs_len};

use crate::encode::SegmentSink;
use rice_bits::Meter;
use rice_samples::Block;

/// Puts the fundamental sequence of the high part, without its `k` lowest digits, of each residual from number `from` on.
pub fn put_high(block: &Block<'_>, from: usize, k: u32, sink: &mut SegmentSink, meter: &mut Meter)
    requires split { k ≤ 29 }
    requires from { from ≤ length block.now }
    requires room { HasRoomForOnes k (length block.now - from) (length block.now - from)
        (drop from block.now) (length sink.old) meter.old }
    ensures { PutsOnes k (length block.now - from) (drop from block.now)
        sink.old sink.new meter.old meter.new }
{
    for i in from..block.len() {
        let residual = block.at(i, meter);
        sink.put_fs((residual >> k) as u64, meter);
    }
}

/// Puts the `width` lowest digits of each residual from number `from` on.
pub fn put_low(
    block: &Block<'_>,
    from: usize,
    width: u32,
    sink: &mut SegmentSink,
    meter: &mut Meter,
)
    requires width { width ≤ 32 }
    requires from { from ≤ length block.now }
    requires room { HasRoomForLow width (length block.now - from) (length sink.old) meter.old }
    ensures { PutsLow width (length block.now - from) (drop from block.now)
        sink.old sink.new meter.old meter.new }
{
    for i in from..block.len() {
        let residual = block.at(i, meter);
        sink.put(low_digits(residual, width), width, meter);
    }
}

/// Returns the number of the `width` lowest digits of a residual.
fn low_digits(residual: u32, width: u32) -> u32
    requires { width ≤ 32 }
    ensures value { result ≡ residual % 2 ^ width }
    ensures fits { result < 2 ^ width }
{
    (residual as u64 % (1 << width)) as u32
}

/// Puts the fundamental sequences of the pairs of residuals.
pub fn put_pairs(block: &Block<'_>, sink: &mut SegmentSink, meter: &mut Meter)
    requires even { length block.now % 2 ≡ 0 }
    requires room { HasRoomFor (pairs_len block.now) (length block.now + pairs_len block.now)
        (length sink.old) meter.old }
    ensures { PutsPairs block.now sink.old sink.new meter.old meter.new }
{
    for i in 0..block.len() / 2 {
        let a = block.at(2 * i, meter);
        let b = block.at(2 * i + 1, meter);
        sink.put_fs(number_of_pair(a, b), meter);
    }
}

/// Returns the number that stands for a pair, where its fundamental sequence fits a sink.
fn number_of_pair(a: u32, b: u32) -> u64
    requires { pair_code a b ≤ sink_bits }
    ensures { result ≡ pair_code a b }
{
    let sum = a as u64 + b as u64;
    sum * (sum + 1) / 2 + b as u64
}
