//! Codes the blocks of a segment, one by one.
ghost use Rattle.std.specs.Prelude.{◌≡◌, ◌+◌, ◌-◌, ◌*◌, ◌<◌, ◌≤◌, ◌++◌, true, false, length, IfSome};
ghost use Rattle.rice_bits.specs.Limits.{step_limit};
ghost use Rattle.rice_samples.specs.{Places.begins_segment, Places.blocks_left, Places.place, Parameters.k_max, Parameters.value_count};
ghost use Rattle.rice_code.specs.encode.HeldBlocks.{held_blocks, reference_at, pending_bits, JoinsRun, EndsRun, HasRoomForBlocks, PutsBlocks, HasRoomForShortest, PutsShortest};
ghost use Rattle.rice_code.specs.{code.SoundBlocks.IsSoundData, code.SoundBlocks.AreSoundBlocks, encode.BitBuffer.HasRoomFor, code.Blocks.is_zero_block, code.CodedDataSets.cost, code.Choice.shortest};

use crate::encode::SegmentSink;
use crate::encode::choice::{Choice, choose};
use crate::encode::held_block::HeldBlock;
use crate::encode::options::{put_no_compression, put_run, put_second_extension, put_split};
use rice_bits::Meter;
use rice_samples::{Segment, Setting};

/// Appends the shortest code of a block that is not zero.
pub fn code_block(
    setting: &Setting,
    block: &HeldBlock<'_>,
    sink: &mut SegmentSink,
    meter: &mut Meter,
)
    requires sound { IsSoundData setting.now block.now }
    requires room { HasRoomForShortest setting.now block.now sink.old meter.old }
    ensures { PutsShortest setting.now block.now sink.old sink.new meter.old meter.new }
{
    let choice = choose(setting, block, meter);
    match choice {
        Choice::NoCompression => put_no_compression(setting, block, sink, meter),
        Choice::SecondExtension => put_second_extension(setting, block, sink, meter),
        Choice::Split(k) => put_split(setting, k, block, sink, meter),
    }
}

/// Appends the code of the run of `run` zero blocks that are pending, if there are any.
pub fn put_pending_run(
    setting: &Setting,
    reference: Option<u32>,
    run: u32,
    to_end: bool,
    sink: &mut SegmentSink,
    meter: &mut Meter,
)
    requires few { run ≤ 64 }
    requires fits { IfSome reference (λ v. v < value_count setting.now) }
    requires room { HasRoomFor (length (pending_bits setting.now to_end reference run))
        (length (pending_bits setting.now to_end reference run)) (length sink.old) meter.old }
    ensures bits { sink.new ≡ sink.old ++ pending_bits setting.now to_end reference run }
    ensures len { length sink.new ≡ length sink.old +
        length (pending_bits setting.now to_end reference run) }
    ensures steps { meter.new ≡ meter.old + length (pending_bits setting.now to_end reference run) }
{
    if run > 0 {
        put_run(setting, reference, run, to_end, sink, meter);
    }
}

/// Appends the code of the run of `run` zero blocks that are pending before another block, if there are any. The first of
/// them is block `first` of the segment, whose block 0 has the reference, if there is one.
pub fn put_run_before_block(
    setting: &Setting,
    reference: Option<u32>,
    first: usize,
    run: u32,
    sink: &mut SegmentSink,
    meter: &mut Meter,
)
    requires few { run ≤ 64 }
    requires fits { IfSome reference (λ v. v < value_count setting.now) }
    requires room { HasRoomFor
        (length (pending_bits setting.now false (reference_at reference first) run))
        (length (pending_bits setting.now false (reference_at reference first) run))
        (length sink.old) meter.old }
    ensures bits { sink.new ≡ sink.old ++
        pending_bits setting.now false (reference_at reference first) run }
    ensures len { length sink.new ≡ length sink.old +
        length (pending_bits setting.now false (reference_at reference first) run) }
    ensures steps { meter.new ≡ meter.old +
        length (pending_bits setting.now false (reference_at reference first) run) }
{
    // Which reference it is, is asked only where a run is pending.
    if run > 0 {
        let head = reference_of(reference, first);
        put_pending_run(setting, head, run, false, sink, meter);
    }
}

/// Takes the block after `run` zero blocks that are pending, from block `first` on: a zero block joins them, another ends
/// the run. Returns the number of blocks that are pending then.
fn code_next(
    setting: &Setting,
    reference: Option<u32>,
    first: usize,
    run: u32,
    block: &HeldBlock<'_>,
    sink: &mut SegmentSink,
    meter: &mut Meter,
) -> u32
    requires few { run < 64 }
    requires fits { IfSome reference (λ v. v < value_count setting.now) }
    requires sound { IsSoundData setting.now block.now }
    requires look { meter.old + setting.now.block < step_limit }
    requires room { is_zero_block block.now ≡ false →
        HasRoomFor (length (pending_bits setting.now false (reference_at reference first) run) +
        cost setting.now (shortest setting.now block.now))
        (length (pending_bits setting.now false (reference_at reference first) run) +
        cost setting.now (shortest setting.now block.now)
        + setting.now.block * (k_max setting.now + 5)) (length sink.old) meter.old }
    ensures joins { is_zero_block block.now ≡ true →
        JoinsRun setting.now run result sink.old sink.new meter.old meter.new }
    ensures ends { is_zero_block block.now ≡ false →
        EndsRun setting.now (pending_bits setting.now false (reference_at reference first) run)
        block.now result sink.old sink.new meter.old meter.new }
{
    if block.residuals().is_zero(meter) {
        return run + 1;
    }
    put_run_before_block(setting, reference, first, run, sink, meter);
    code_block(setting, block, sink, meter);
    0
}

/// Returns the reference of block `i`, of which only the first may have one.
pub fn reference_of(reference: Option<u32>, i: usize) -> Option<u32>
    ensures { result ≡ reference_at reference i }
{
    match i {
        0 => reference,
        _ => None,
    }
}

/// Appends the code of the first `count` blocks of a segment that begins at place `start`.
pub fn code_blocks(
    setting: &Setting,
    start: u32,
    reference: Option<u32>,
    count: usize,
    segment: &Segment,
    sink: &mut SegmentSink,
    meter: &mut Meter,
)
    requires place { place setting.now start ≡ start }
    requires begins { begins_segment setting.now start ≡ true }
    requires few { count ≤ blocks_left setting.now start }
    requires len { length segment.now ≡ setting.now.block * count }
    requires fits { IfSome reference (λ v. v < value_count setting.now) }
    requires sound { AreSoundBlocks setting.now start
        (held_blocks setting.now reference count segment.now) }
    requires room { HasRoomForBlocks setting.now start
        (held_blocks setting.now reference count segment.now)
        (count * (setting.now.block * (k_max setting.now + 5))) sink.old meter.old }
    ensures { PutsBlocks setting.now start (held_blocks setting.now reference count segment.now)
        sink.old sink.new meter.old meter.new }
{
    let size = setting.block() as usize;
    let mut run: u32 = 0;
    for i in 0..count {
        let block = HeldBlock::new(reference_of(reference, i), segment.block(i, size));
        run = code_next(
            setting,
            reference,
            i - run as usize,
            run,
            &block,
            sink,
            meter,
        );
    }
    let first = reference_of(reference, count - run as usize);
    put_pending_run(setting, first, run, true, sink, meter);
}
