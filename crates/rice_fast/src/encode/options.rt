//! Writes coded data sets: a block by each option.
ghost use Rattle.std.specs.Prelude.{◌≡◌, ◌+◌, ◌-◌, ◌*◌, ◌/◌, ◌^◌, ◌<◌, ◌≤◌, ◌++◌, None, length, map, IfSome};
ghost use Rattle.rice_bits.specs.Bits.{word};
ghost use Rattle.rice_samples.specs.Parameters.{k_max, value_count};
ghost use Rattle.rice_code.specs.code.CodedDataSets.{NoCompression, SecondExtension, Split, reference_bits, reference_len};
ghost use Rattle.rice_code.specs.{encode.BitBuffer.HasRoomFor, encode.BitBuffer.HasRoomForOption, encode.BitBuffer.PutsSet, code.SoundBlocks.IsSoundData};
ghost use Rattle.rice_fast.specs.Parts.{with_zeros};

use crate::encode::bit_buffer::BitBuffer;
use crate::encode::high_parts::put_high;
use crate::encode::low_parts::{put_low, put_words};
use crate::encode::pairs::put_pairs;
use rice_bits::Meter;
use rice_code::SegmentSink;
use rice_code::encode::held_block::HeldBlock;
use rice_code::encode::options::first_coded;
use rice_samples::Setting;

/// Begins a coded data set: returns a buffer after the `width` digits of its identifier, with its flag, if it has one, and any reference.
#[inline(always)]
fn begin_set(
    setting: &Setting,
    identifier: u32,
    width: u32,
    reference: Option<u32>,
    sink: &mut SegmentSink,
    meter: &mut Meter,
) -> BitBuffer
    requires width { width ≤ 32 }
    requires identifier { identifier < 2 ^ width }
    requires fits { IfSome reference (λ v. v < value_count setting.now) }
    requires room { HasRoomFor (width + reference_len setting.now reference)
        (width + reference_len setting.now reference) (length sink.old) meter.old }
    ensures bits { sink.new ++ result ≡ sink.old ++ word width identifier ++
        reference_bits setting.now reference }
    ensures len { length sink.new + length result ≡
        length sink.old + width + reference_len setting.now reference }
    ensures steps { meter.new + length result ≡
        meter.old + width + reference_len setting.now reference }
    ensures alone { reference ≡ None → length result ≡ width }
{
    let mut fields = BitBuffer::of_digits(identifier as u64, width);
    if let Some(v) = reference {
        fields.add(v as u64, setting.bits(), sink, meter);
        return fields;
    }
    fields
}

/// Appends the block, coded by no compression. Each residual is looked at once.
#[inline(always)]
pub fn put_no_compression(
    setting: &Setting,
    block: &HeldBlock<'_>,
    sink: &mut SegmentSink,
    meter: &mut Meter,
)
    requires sound { IsSoundData setting.now block.now }
    requires long { 8 ≤ length block.now.residuals }
    requires room { HasRoomForOption setting.now (NoCompression block.now) sink.old meter.old }
    ensures { PutsSet setting.now (NoCompression block.now) (setting.now.block - 1)
        (2 * setting.now.block) sink.old sink.new meter.old meter.new }
{
    let residuals = block.residuals().items();
    let id = setting.id_len();
    let from = first_coded(block);
    let bits = setting.bits();
    let _block = setting.block();
    let fields = begin_set(setting, (1 << id) - 1, id, block.reference(), sink, meter);
    meter.tick(residuals.len() as u64);
    put_words(residuals, from, bits, fields, sink, meter);
}

/// Appends the block, coded by second extension. Each residual is looked at once.
#[inline(always)]
pub fn put_second_extension(
    setting: &Setting,
    block: &HeldBlock<'_>,
    sink: &mut SegmentSink,
    meter: &mut Meter,
)
    requires sound { IsSoundData setting.now block.now }
    requires room { HasRoomForOption setting.now (SecondExtension block.now) sink.old meter.old }
    ensures { PutsSet setting.now (SecondExtension block.now) setting.now.block setting.now.block
        sink.old sink.new meter.old meter.new }
{
    let residuals = block.residuals().items();
    let id = setting.id_len();
    let _block = setting.block();
    let fields = begin_set(setting, 1, id + 1, block.reference(), sink, meter);
    meter.tick(residuals.len() as u64);
    let mut fields = put_pairs(residuals, fields, sink, meter);
    fields.put(sink, meter);
}

/// Appends the block, coded by split `k`. `high` has the residuals without `k` digits. Each is looked at once for each of its parts.
#[inline(always)]
pub fn put_split<const SIZE: usize, const REFERENCE: bool>(
    setting: &Setting,
    k: u32,
    high: &[u8; 64],
    block: &HeldBlock<'_>,
    sink: &mut SegmentSink,
    meter: &mut Meter,
)
    requires sound { IsSoundData setting.now block.now }
    requires long { 8 ≤ length block.now.residuals }
    requires split { k ≤ k_max setting.now }
    requires high { high.now ≡ with_zeros (map (λ d. d / 2 ^ k) block.now.residuals) }
    requires room { HasRoomForOption setting.now (Split k block.now) sink.old meter.old }
    ensures { PutsSet setting.now (Split k block.now) (setting.now.block - 1)
        (2 * setting.now.block) sink.old sink.new meter.old meter.new }
{
    let residuals = block.residuals().items();
    let id = setting.id_len();
    let from = first_coded(block);
    let _limit = setting.k_max();
    let _block = setting.block();
    let fields = begin_set(setting, k + 1, id, block.reference(), sink, meter);
    meter.tick(2 * residuals.len() as u64);
    let mut fields = put_high::<SIZE, REFERENCE>(high, residuals.len(), from, fields, sink, meter);
    // Residuals do not foretell whether low parts fit beside the sequences, so that those of long blocks do not wait for them.
    fields.put_if(SIZE != 8 && k > 0, sink, meter);
    put_low(residuals, from, k, &mut fields, sink, meter);
    fields.put(sink, meter);
}
