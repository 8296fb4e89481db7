//! Writes coded data sets: a block by each option, and runs of zero blocks.
ghost use Rattle.std.specs.Prelude.{◌≡◌, ◌+◌, ◌-◌, ◌*◌, ◌^◌, ◌<◌, ◌≤◌, ◌++◌, None, length, drop, IfSome};
ghost use Rattle.rice_bits.specs.Bits.{word};
ghost use Rattle.rice_samples.specs.Parameters.{k_max, value_count};
ghost use Rattle.rice_code.specs.code.CodedDataSets.{NoCompression, SecondExtension, Split, sent_residuals, reference_bits, reference_len};
ghost use Rattle.rice_code.specs.encode.BitBuffer.{HasRoomFor, HasRoomForOption, HasRoomForSet, PutsSet};
ghost use Rattle.rice_code.specs.{code.Code.run_of_blocks, encode.HeldBlocks.zeros_of_run, code.SoundBlocks.IsSoundData};

use crate::encode::SegmentSink;
use crate::encode::fields::{put_high, put_low, put_pairs};
use crate::encode::held_block::HeldBlock;
use rice_bits::Meter;
use rice_samples::Setting;

/// Puts the head of a coded data set: the `width` digits of its identifier, with the flag after it where there is one, and the
/// reference, if there is one.
fn put_head(
    setting: &Setting,
    identifier: u32,
    width: u32,
    reference: Option<u32>,
    sink: &mut SegmentSink,
    meter: &mut Meter,
)
    requires width { width ≤ 32 }
    requires identifier { identifier < 2 ^ width }
    requires fits { IfSome reference (λ v. v < value_count setting.now) }
    requires room { HasRoomFor (width + reference_len setting.now reference)
        (width + reference_len setting.now reference) (length sink.old) meter.old }
    ensures bits { sink.new ≡ sink.old ++ word width identifier ++
        reference_bits setting.now reference }
    ensures len { length sink.new ≡
        length sink.old + width + reference_len setting.now reference }
    ensures steps { meter.new ≡ meter.old + width + reference_len setting.now reference }
{
    sink.put(identifier, width, meter);
    if let Some(v) = reference {
        sink.put(v, setting.bits(), meter);
    }
}

/// Returns the number of residuals that are not sent: that at the reference place, where there is one.
pub fn first_coded(block: &HeldBlock<'_>) -> usize
    ensures coded { sent_residuals block.now ≡ drop result block.now.residuals }
    ensures limit { result ≤ 1 }
    ensures none { result ≡ 0 → block.now.reference ≡ None }
{
    match block.reference() {
        Some(_) => 1,
        None => 0,
    }
}

/// Puts the block, coded by no compression.
pub fn put_no_compression(
    setting: &Setting,
    block: &HeldBlock<'_>,
    sink: &mut SegmentSink,
    meter: &mut Meter,
)
    requires sound { IsSoundData setting.now block.now }
    requires room { HasRoomForOption setting.now (NoCompression block.now) sink.old meter.old }
    ensures { PutsSet setting.now (NoCompression block.now) (setting.now.block - 1)
        (2 * setting.now.block) sink.old sink.new meter.old meter.new }
{
    let residuals = block.residuals();
    let id = setting.id_len();
    let from = first_coded(block);
    let bits = setting.bits();
    let _block = setting.block();
    put_head(setting, (1 << id) - 1, id, block.reference(), sink, meter);
    put_low(residuals, from, bits, sink, meter);
}

/// Puts the block, coded by second extension.
pub fn put_second_extension(
    setting: &Setting,
    block: &HeldBlock<'_>,
    sink: &mut SegmentSink,
    meter: &mut Meter,
)
    requires sound { IsSoundData setting.now block.now }
    requires room { HasRoomForOption setting.now (SecondExtension block.now) sink.old meter.old }
    ensures { PutsSet setting.now (SecondExtension block.now) setting.now.block setting.now.block
        sink.old sink.new meter.old meter.new }
{
    let residuals = block.residuals();
    let id = setting.id_len();
    let _block = setting.block();
    put_head(setting, 1, id + 1, block.reference(), sink, meter);
    put_pairs(residuals, sink, meter);
}

/// Puts the block, coded by split `k`.
pub fn put_split(
    setting: &Setting,
    k: u32,
    block: &HeldBlock<'_>,
    sink: &mut SegmentSink,
    meter: &mut Meter,
)
    requires sound { IsSoundData setting.now block.now }
    requires split { k ≤ k_max setting.now }
    requires room { HasRoomForOption setting.now (Split k block.now) sink.old meter.old }
    ensures { PutsSet setting.now (Split k block.now) (setting.now.block - 1)
        (2 * setting.now.block) sink.old sink.new meter.old meter.new }
{
    let residuals = block.residuals();
    let id = setting.id_len();
    let from = first_coded(block);
    let _limit = setting.k_max();
    let _block = setting.block();
    put_head(setting, k + 1, id, block.reference(), sink, meter);
    put_high(residuals, from, k, sink, meter);
    put_low(residuals, from, k, sink, meter);
}

/// Puts a run of `z` zero blocks. `to_end` says whether it reaches the end of the segment, or the last block.
pub fn put_run(
    setting: &Setting,
    reference: Option<u32>,
    z: u32,
    to_end: bool,
    sink: &mut SegmentSink,
    meter: &mut Meter,
)
    requires blocks { 1 ≤ z }
    requires few { z ≤ 64 }
    requires fits { IfSome reference (λ v. v < value_count setting.now) }
    requires room { HasRoomForSet setting.now (run_of_blocks to_end reference z) 0 sink.old
        meter.old }
    ensures { PutsSet setting.now (run_of_blocks to_end reference z) 0 0 sink.old sink.new meter.old
        meter.new }
{
    let id = setting.id_len();
    put_head(setting, 0, id + 1, reference, sink, meter);
    sink.put_fs(sent_zeros(z, to_end), meter);
}

/// Returns the number of zeros of the codeword of a run.
fn sent_zeros(z: u32, to_end: bool) -> u64
    requires { 1 ≤ z }
    ensures value { result ≡ zeros_of_run to_end z }
    ensures limit { result ≤ z + 4 }
{
    if to_end && z >= 5 {
        4
    } else if z < 5 {
        z as u64 - 1
    } else {
        z as u64
    }
}
