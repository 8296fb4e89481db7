//! The pass: a block ahead, from its bits to the bytes of its samples.
ghost use Rattle.std.specs.Prelude.{◌≡◌, ◌+◌, ◌-◌, ◌*◌, ◌<◌, ◌≤◌, IfSome, length, None, false, true};
ghost use Rattle.rice_bits.specs.{Limits.step_limit, Limits.most_bits_read, Window.most_ahead};
ghost use Rattle.rice_samples.specs.Parameters.{value_at, value_count, width as width_of};
ghost use Rattle.rice_code.specs.ReadSets.{AreCounted};
ghost use Rattle.rice_fast.specs.{BlocksAhead.GivesBytes, BlocksAhead.HasBits, BlocksAhead.SpelledAhead, FieldsAhead.IsBlockInLanes};

use crate::copied_blocks::write_copied_block;
use crate::fields::{fields_ahead, has_reference};
use crate::lanes::SampleLanes;
use crate::rows::write_rows;
use rice_bits::{BitReader, BitsAhead, Intake, Meter};
use rice_code::{Decoder, known_or};
use rice_samples::Setting;

/// The level of the last sample of a block, the number of bits of its coded data set, and the number of turns that a search for its pairs
/// takes.
#[derive(Clone, Copy)]
pub struct WrittenBlock {
    pub last: u32,
    pub len: usize,
    pub turns: u64,
}

/// Writes the bytes of the block of `size` samples ahead, after a sample at level `before`, if all its bits are buffered, and it can.
/// It is laid out for blocks of `SIZE` samples with a `REFERENCE`, or without one.
#[inline(always)]
fn write_fields_ahead<L: SampleLanes, const SIZE: usize, const WIDTH: usize, const REFERENCE: bool>(
    setting: &Setting,
    size: usize,
    block: u32,
    before: u32,
    ahead: &BitsAhead<'_>,
    buffered: u64,
    bytes: &mut [u8; 320],
) -> Option<WrittenBlock>
    requires known { 0 < SIZE → SIZE ≡ size }
    requires width { WIDTH ≡ width_of setting.now }
    requires block { IsBlockInLanes L.below L.bits setting.now size block before REFERENCE }
    requires there { buffered + most_ahead ≤ length ahead.now }
    ensures some { IfSome result (λ r. SpelledAhead ahead.now setting.now block
        (value_at setting.now before) r.last r.len r.turns bytes.new) }
    ensures within { IfSome result (λ r. r.len ≤ buffered) }
{
    let _block = setting.block();
    let mut highs = [0; 80];
    let fields = fields_ahead::<L, REFERENCE>(setting, size, block, before, ahead, &mut highs)?;
    let len = fields.words + (size - fields.omitted) * fields.k as usize;
    if buffered < len as u64 {
        return None;
    }
    let last = write_rows::<L, SIZE, WIDTH, REFERENCE>(
        setting, size, &fields, &highs, ahead, bytes,
    )?;
    Some(WrittenBlock {
        last,
        len,
        turns: fields.turns,
    })
}

/// Does what `write_fields_ahead` does for a block with a reference sample, in a call of its own: there are few.
#[inline(never)]
fn write_reference_block_ahead<L: SampleLanes, const WIDTH: usize>(
    setting: &Setting,
    size: usize,
    block: u32,
    before: u32,
    ahead: &BitsAhead<'_>,
    buffered: u64,
    bytes: &mut [u8; 320],
) -> Option<WrittenBlock>
    requires width { WIDTH ≡ width_of setting.now }
    requires block { IsBlockInLanes L.below L.bits setting.now size block before true }
    requires there { buffered + most_ahead ≤ length ahead.now }
    ensures some { IfSome result (λ r. SpelledAhead ahead.now setting.now block
        (value_at setting.now before) r.last r.len r.turns bytes.new) }
    ensures within { IfSome result (λ r. r.len ≤ buffered) }
{
    write_fields_ahead::<L, 0, WIDTH, true>(setting, size, block, before, ahead, buffered, bytes)
}

/// Writes the bytes of the block of `size` samples ahead, after a sample at level `before`, if all its bits are buffered, and it can.
#[inline(always)]
fn write_block_ahead<L: SampleLanes, const SIZE: usize, const WIDTH: usize>(
    setting: &Setting,
    size: usize,
    block: u32,
    before: u32,
    ahead: &BitsAhead<'_>,
    buffered: u64,
    bytes: &mut [u8; 320],
) -> Option<WrittenBlock>
    requires bits { HasBits L.below L.bits setting.now }
    requires known { 0 < SIZE → SIZE ≡ size }
    requires width { WIDTH ≡ width_of setting.now }
    requires size { size ≡ setting.now.block }
    requires place { block < setting.now.interval }
    requires before { before < value_count setting.now }
    requires there { buffered + most_ahead ≤ length ahead.now }
    ensures some { IfSome result (λ r. SpelledAhead ahead.now setting.now block
        (value_at setting.now before) r.last r.len r.turns bytes.new) }
    ensures within { IfSome result (λ r. r.len ≤ buffered) }
{
    if !setting.preprocess() {
        if let Some(copied) = write_copied_block::<WIDTH>(setting, size, ahead, buffered, bytes) {
            return Some(copied);
        }
    }
    if has_reference(setting, block) {
        if SIZE != 8 {
            return write_reference_block_ahead::<L, WIDTH>(
                setting, size, block, before, ahead, buffered, bytes,
            );
        }
        return write_fields_ahead::<L, SIZE, WIDTH, true>(
            setting, size, block, before, ahead, buffered, bytes,
        );
    }
    write_fields_ahead::<L, SIZE, WIDTH, false>(
        setting, size, block, before, ahead, buffered, bytes,
    )
}

/// Reads the next block by a pass, if its coded data set is buffered and fits one. Writes the bytes of its samples, `WIDTH` each, to the
/// front of `bytes`. `SIZE`, unless it is 0, is the number of samples of a block.
///
/// A pass takes a block by any option whose fundamental sequences are short.
///
/// Returns whether it took the block. Otherwise nothing has happened, and [`next_block`](Decoder::next_block) gives it. It may write more
/// after these bytes.
#[inline(always)]
pub fn pass<L: SampleLanes, I: Intake, const SIZE: usize, const WIDTH: usize>(
    decoder: &mut Decoder,
    setting: &Setting,
    reader: &mut BitReader<I>,
    meter: &mut Meter,
    bytes: &mut [u8; 320],
) -> bool
    requires setting { decoder.old.setting ≡ setting.now }
    requires bits { HasBits L.below L.bits setting.now }
    requires size { 0 < SIZE → SIZE ≡ setting.now.block }
    requires width { WIDTH ≡ width_of setting.now }
    requires stopped { decoder.old.stopped ≡ None }
    requires going { reader.old.refusal ≡ None }
    requires room { meter.old + 2 * (most_bits_read - reader.old.taken) + 64 < step_limit }
    ensures some { result ≡ true → (decoder.old.run ≡ 0) ×
        GivesBytes reader.old reader.new meter.old meter.new decoder.old decoder.new bytes.new }
    ensures none { result ≡ false → (decoder.new ≡ decoder.old) × (reader.new ≡ reader.old) ×
        (meter.new ≡ meter.old) }
    // It may be called again with this reader.
    ensures going { reader.new.refusal ≡ None }
    ensures stopped { decoder.new.stopped ≡ None }
    ensures setting { decoder.new.setting ≡ decoder.old.setting }
    // Steps are at least the bits taken, and at most twice as many.
    ensures steps { AreCounted meter.old meter.new reader.old.taken reader.new.taken }
{
    let _taken = reader.taken();
    if decoder.run() > 0 {
        return false;
    }
    let size = known_or::<SIZE>(setting.block() as usize);
    let block = decoder.block();
    let before = setting.level(decoder.before()) as u32;
    let Some(spelled) = write_block_ahead::<L, SIZE, WIDTH>(
        setting,
        size,
        block,
        before,
        &reader.ahead(),
        reader.buffered(),
        bytes,
    ) else {
        return false;
    };
    reader.pass(spelled.len, meter);
    meter.tick(spelled.turns);
    let last = setting.value_at(spelled.last as u64);
    let _answer = decoder.go_to_next_block(last, 0, reader, meter);
    true
}
