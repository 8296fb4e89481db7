//! Codes a block of a segment, after those before it.
ghost use Rattle.std.specs.Prelude.{◌≡◌, ◌+◌, ◌*◌, ◌/◌, ◌^◌, ◌<◌, ◌≤◌, true, false, length, IfSome, sum_by};
ghost use Rattle.rice_bits.specs.Limits.{step_limit};
ghost use Rattle.rice_samples.specs.Parameters.{k_max, value_count};
ghost use Rattle.rice_code.specs.encode.HeldBlocks.{reference_at, pending_bits, JoinsRun, EndsRun, HasRoomForShortest, PutsShortest};
ghost use Rattle.rice_code.specs.{code.Blocks.is_zero_block, code.CodedDataSets.cost, code.Choice.shortest, encode.BitBuffer.HasRoomFor, code.SoundBlocks.IsSoundData};

use crate::encode::choice::choose;
use crate::encode::options::{put_no_compression, put_second_extension, put_split};
use rice_bits::Meter;
use rice_code::SegmentSink;
use rice_code::encode::blocks::{code_block, put_run_before_block};
use rice_code::encode::choice::Choice;
use rice_code::encode::held_block::HeldBlock;
use rice_samples::Setting;

/// Appends the shortest code of a block of eight residuals or more, not all zero.
#[inline(always)]
fn code_in_rows<const SIZE: usize, const REFERENCE: bool>(
    setting: &Setting,
    block: &HeldBlock<'_>,
    whole: u64,
    sink: &mut SegmentSink,
    meter: &mut Meter,
)
    requires long { 8 ≤ length block.now.residuals }
    requires sound { IsSoundData setting.now block.now }
    requires whole { whole ≡ sum_by (λ d. d / 2 ^ 0) block.now.residuals }
    requires whole_fits { whole ≤ 2 ^ 38 }
    requires room { HasRoomForShortest setting.now block.now sink.old meter.old }
    ensures { PutsShortest setting.now block.now sink.old sink.new meter.old meter.new }
{
    let (choice, high) = choose::<SIZE, REFERENCE>(setting, block, whole, meter);
    match choice {
        Choice::NoCompression => put_no_compression(setting, block, sink, meter),
        Choice::SecondExtension => put_second_extension(setting, block, sink, meter),
        Choice::Split(k) => { put_split::<SIZE, REFERENCE>(setting, k, &high, block, sink, meter) }
    }
}

/// Takes the block after `run` zero blocks that are pending, from block `first` on: a zero block joins them, another ends
/// the run. Returns the number of blocks that are pending then. `whole` is the sum of its residuals, which counts as a look at each.
#[inline(always)]
pub fn code_next_or_add_to_run<const SIZE: usize>(
    setting: &Setting,
    reference: Option<u32>,
    first: usize,
    run: u32,
    block: HeldBlock<'_>,
    whole: u64,
    sink: &mut SegmentSink,
    meter: &mut Meter,
) -> u32
    requires few { run < 64 }
    requires fits { IfSome reference (λ v. v < value_count setting.now) }
    requires size { 0 < SIZE → SIZE ≡ length block.residuals }
    requires sound { IsSoundData setting.now block }
    requires whole { whole ≡ sum_by (λ d. d / 2 ^ 0) block.residuals }
    requires whole_fits { whole ≤ 2 ^ 38 }
    requires look { meter.old + setting.now.block < step_limit }
    requires room { is_zero_block block ≡ false →
        HasRoomFor (length (pending_bits setting.now false (reference_at reference first) run) +
        cost setting.now (shortest setting.now block))
        (length (pending_bits setting.now false (reference_at reference first) run) +
        cost setting.now (shortest setting.now block)
        + setting.now.block * (k_max setting.now + 5)) (length sink.old) meter.old }
    ensures joins { is_zero_block block.entry ≡ true →
        JoinsRun setting.now run result sink.old sink.new meter.old meter.new }
    ensures ends { is_zero_block block.entry ≡ false →
        EndsRun setting.now (pending_bits setting.now false (reference_at reference first) run)
        block.entry result sink.old sink.new meter.old meter.new }
{
    meter.tick(block.residuals().len() as u64);
    if whole == 0 {
        return run + 1;
    }
    put_run_before_block(setting, reference, first, run, sink, meter);
    if block.residuals().len() < 8 {
        code_block(setting, &block, sink, meter);
        return 0;
    }
    // The code is laid out for a block with a reference, and for one without.
    match block.reference() {
        Some(_) => code_in_rows::<SIZE, true>(setting, &block, whole, sink, meter),
        None => code_in_rows::<SIZE, false>(setting, &block, whole, sink, meter),
    }
    0
}
