//! Decodes coded data sets, one block per call.
ghost use Rattle.std.specs.Prelude.{◌≡◌, ◌≢◌, ℕ, ◌+◌, ◌-◌, ◌*◌, ◌<◌, ◌≤◌, [], length, None, Option, Some, IfSome, IfNone, Ok, pos, true};
ghost use Rattle.rice_bits.specs.Limits.{step_limit, most_bits_read};
ghost use Rattle.rice_samples.specs.{Parameters.IsSample, Places.blocks_left};
ghost use Rattle.rice_code.specs.{Decoder.place_after, code.Forms.RunIsSound, code.Forms.blocks_in, code.Forms.zero_blocks, code.Layout.padding};
ghost use Rattle.rice_code.specs.{code.CodedDataSets.run_with_zeros, Decoder.Skips, Decoder.answer_to, ReadSets.AreCounted, Bounds.most_samples_of_bit};

use crate::decode::call_results::{CodeFault, Step};
use crate::decode::coded_data_set::read_set;
use crate::decode::options::SetSummary;
use crate::decode::restoring::{restore_if_sound, restore_zero_block};
use arrayvec::ArrayVec;
use rice_bits::{BitFault, BitReader, Intake, Meter};
use rice_samples::Setting;
use std::marker::Model;

/// Returns the number of blocks of the run whose codeword has `zeros` zeros, or `None` if that run is not sound.
pub(crate) fn run_blocks(setting: &Setting, block: u64, zeros: u64) -> Option<u32>
    ensures within { IfSome result (λ z. (1 ≤ z) × (z ≤ blocks_left setting.now block)) }
    // All this holds whatever reference the run has.
    ensures sound { IfSome result (λ z. (reference : Option ℕ) →
        RunIsSound setting.now block (run_with_zeros reference zeros)) }
    ensures blocks { IfSome result (λ z. (reference : Option ℕ) →
        blocks_in setting.now block (run_with_zeros reference zeros) ≡
        zero_blocks setting.now reference z) }
    ensures unsound { IfNone result ((reference : Option ℕ) →
        RunIsSound setting.now block (run_with_zeros reference zeros) → ⊥) }
{
    let left = setting.blocks_left(block);
    if zeros == 4 {
        return Some(left);
    }
    if zeros > 63 {
        return None;
    }
    let blocks = if zeros < 4 { zeros + 1 } else { zeros } as u32;
    if blocks <= left { Some(blocks) } else { None }
}

/// Returns what a decoder answers when its reader refuses.
pub(crate) fn answer_of(fault: BitFault) -> Result<Step, CodeFault>
    ensures { result ≡ answer_to fault }
{
    match fault {
        BitFault::End { blank: true } => Ok(Step::Done),
        BitFault::End { blank: false } => Err(CodeFault::CodeEnds),
        BitFault::Read => Err(CodeFault::Read),
        BitFault::TooLong => Err(CodeFault::TooLong),
    }
}

/// Returns the place of the block that stands `count` blocks after block `block`, if none between them begins an interval.
pub(crate) fn place_of_block_after(setting: &Setting, block: u64, count: u32) -> u64
    requires block { block < setting.now.interval }
    requires within { block + count ≤ setting.now.interval }
    ensures { result ≡ place_after setting.now block count }
{
    let interval = setting.interval() as u64;
    let next = block + count as u64;
    if next == interval { 0 } else { next }
}

/// Skips the padding before block `next`, if intervals are padded and the next one begins there.
pub(crate) fn skip_padding<I: Intake>(
    setting: &Setting,
    next: u64,
    reader: &mut BitReader<I>,
    meter: &mut Meter,
)
    requires some { 0 < next }
    requires within { next ≤ setting.now.interval }
    requires meter { meter.old + 7 < step_limit }
    ensures skips { Skips reader.old reader.new (padding setting.now next reader.old.taken) }
    ensures steps { meter.new + reader.old.taken ≡ meter.old + reader.new.taken }
    ensures few { reader.new.taken ≡ reader.old.taken + padding setting.now next reader.old.taken }
{
    if setting.pads() && next == setting.interval() as u64 {
        reader.align(meter);
    }
}

/// Decodes coded data sets, one block per call.
///
/// In contracts its value is its state: setting, place of the next block, sample before it, remaining zero blocks of a run, and the answer
/// since it stopped.
#[derive(Drop)]
pub struct Decoder {
    setting: Setting,
    block: u64,
    before: i64,
    run: u32,
    stopped: Option<Result<Step, CodeFault>>,
}

impl Model for Decoder {
    ghost use Rattle.rice_code.specs.Decoder.{DecoderState, IsDecoderState};

    ghost Value = { DecoderState };

    ghost view = { λ d. record { setting = d.setting; block = d.block; before = d.before; run = d.run; stopped = d.stopped } };

    ghost invariant = { λ d. IsDecoderState d.setting d.block d.before d.run d.stopped };
}

impl Decoder {
    ghost use Rattle.rice_code.specs.{Decoder.IsDecoderState, Decoder.decoder_at, declared.decode.call_results.Step.TheVariants.Block};
    ghost use Rattle.rice_code.specs.Decoder.{Answers, GivesFromRun, RepeatsBlocks, with_mark};

    /// Returns a decoder at the start of a code.
    pub fn new(setting: Setting) -> Self
        ensures { result ≡ decoder_at setting 0 (pos 0) 0 }
    {
        let _bits = setting.bits();
        Decoder::at(setting, 0, 0, 0)
    }

    /// Returns a decoder that continues at block `block` of its interval, after the sample `before`, with `run` zero blocks of a run left.
    pub fn at(setting: Setting, block: u32, before: i64, run: u32) -> Self
        requires { IsDecoderState setting block before run None }
        ensures { result ≡ decoder_at setting block before run }
    {
        Decoder {
            setting,
            block: block as u64,
            before,
            run,
            stopped: None,
        }
    }

    /// Returns the place of the next block in its interval.
    pub fn block(&self) -> u32
        ensures place { result ≡ self.now.block }
        ensures state { IsDecoderState self.now.setting self.now.block self.now.before self.now.run
            self.now.stopped }
    {
        let _interval = self.setting.interval();
        self.block as u32
    }

    /// Returns the sample before the next block.
    pub fn before(&self) -> i64
        ensures { result ≡ self.now.before }
    {
        self.before
    }

    /// Returns the number of zero blocks left of a run.
    pub fn run(&self) -> u32
        ensures { result ≡ self.now.run }
    {
        self.run
    }

    /// Returns the number of samples left of a run.
    pub fn waiting(&self) -> u64
        ensures { result ≡ self.now.run * self.now.setting.block }
    {
        self.run as u64 * self.setting.block() as u64
    }

    /// Passes the next `count` blocks of a run: each of their samples is the sample before them.
    pub fn pass_blocks_of_run(&mut self, count: u32)
        requires run { count ≤ self.old.run }
        requires preprocess { self.old.setting.preprocess ≡ true }
        ensures gives { RepeatsBlocks count self.old self.new }
        ensures run { self.new.run + count ≡ self.old.run }
        ensures before { self.new.before ≡ self.old.before }
        ensures setting { self.new.setting ≡ self.old.setting }
        ensures stopped { self.new.stopped ≡ self.old.stopped }
    {
        let next = place_of_block_after(&self.setting, self.block, count);
        self.run -= count;
        self.block = next;
    }

    /// Restores the samples of the next block.
    ///
    /// Once a decoder has found the end or refused, each later call returns the same.
    pub fn next_block<I: Intake>(
        &mut self,
        reader: &mut BitReader<I>,
        meter: &mut Meter,
        samples: &mut ArrayVec<i64, 64>,
    ) -> Result<Step, CodeFault>
        requires going { self.old.stopped ≡ None → reader.old.refusal ≡ None }
        requires room { meter.old + 2 * (most_bits_read - reader.old.taken) + 64 < step_limit }
        // A decoder that has stopped answers the same from then on.
        ensures stopped { IfSome self.old.stopped (λ a. (result ≡ a) × (samples.new.items ≡ []) ×
            (self.new ≡ self.old) × (reader.new ≡ reader.old) × (meter.new ≡ meter.old)) }
        // Inside a run no bit is taken.
        ensures in_run { self.old.stopped ≡ None → 0 < self.old.run →
            (result ≡ Ok Block) × GivesFromRun self.old self.new samples.new.items ×
            (reader.new ≡ reader.old) × (meter.new ≡ meter.old) }
        ensures reads { self.old.stopped ≡ None → self.old.run ≡ 0 →
            Answers (with_mark reader.old) reader.new meter.old meter.new
            self.old self.new samples.new.items result }
        // A decoder that has not stopped may be called again with this reader.
        ensures going { self.new.stopped ≡ None → reader.new.refusal ≡ None }
        ensures block { result ≡ Ok Block → self.new.stopped ≡ None }
        ensures setting { self.new.setting ≡ self.old.setting }
        // Steps are at least the bits taken, and at most twice as many.
        ensures steps { AreCounted meter.old meter.new reader.old.taken reader.new.taken }
        // The samples that are given and those that are then pending are bounded by the bits.
        ensures waiting { length samples.new.items + self.new.run * self.new.setting.block
            ≤ self.old.run * self.old.setting.block
            + most_samples_of_bit * (reader.new.taken - reader.old.taken) }
    {
        samples.clear();
        let _taken = reader.taken();
        if let Some(answer) = self.stopped {
            return answer;
        }
        if self.run > 0 {
            self.before = restore_zero_block(&self.setting, self.block, self.before, None, samples);
            self.run -= 1;
            self.block = place_of_block_after(&self.setting, self.block, 1);
            return Ok(Step::Block);
        }
        self.read_block(reader, meter, samples)
    }

    /// Reads a coded data set outside a run, and restores the samples of its first block.
    fn read_block<I: Intake>(
        &mut self,
        reader: &mut BitReader<I>,
        meter: &mut Meter,
        samples: &mut ArrayVec<i64, 64>,
    ) -> Result<Step, CodeFault>
        requires stopped { self.old.stopped ≡ None }
        requires run { self.old.run ≡ 0 }
        requires going { reader.old.refusal ≡ None }
        requires room { meter.old + 2 * (most_bits_read - reader.old.taken) + 64 < step_limit }
        requires empty { samples.old.items ≡ [] }
        ensures reads { Answers (with_mark reader.old) reader.new meter.old meter.new
            self.old self.new samples.new.items result }
        ensures going { self.new.stopped ≡ None → reader.new.refusal ≡ None }
        ensures block { result ≡ Ok Block → self.new.stopped ≡ None }
        ensures setting { self.new.setting ≡ self.old.setting }
        ensures steps { AreCounted meter.old meter.new reader.old.taken reader.new.taken }
        ensures waiting { length samples.new.items + self.new.run * self.new.setting.block
            ≤ most_samples_of_bit * (reader.new.taken - reader.old.taken) }
    {
        let _taken = reader.taken();
        reader.mark();
        let mut room = [0; 64];
        let setting = &self.setting;
        let block = self.block;
        let before = self.before;
        let residuals = &mut room[..setting.block() as usize];
        match read_set(setting, block, reader, meter, residuals) {
            Ok(SetSummary::Residuals(head)) => {
                match restore_if_sound(setting, block, before, head, residuals, samples) {
                    Some(last) => self.go_to_next_block(last, 0, reader, meter),
                    None => self.stop(Err(CodeFault::ResidualTooLarge)),
                }
            }
            Ok(SetSummary::Zeros { reference, zeros }) => match run_blocks(setting, block, zeros) {
                Some(count) => {
                    let last = restore_zero_block(setting, block, before, reference, samples);
                    self.go_to_next_block(last, count - 1, reader, meter)
                }
                None => self.stop(Err(CodeFault::RunPastSegment)),
            },
            Err(fault) => self.stop(answer_of(fault)),
        }
    }

    /// Goes to the next block, after a coded data set that was taken: `last` is the last sample of its first block, and `run` zero blocks
    /// follow. Skips the padding after the data set.
    #[inline]
    pub fn go_to_next_block<I: Intake>(
        &mut self,
        last: i64,
        run: u32,
        reader: &mut BitReader<I>,
        meter: &mut Meter,
    ) -> Result<Step, CodeFault>
        requires last { IsSample self.old.setting last }
        requires run { 0 < run → run + 1 ≤ blocks_left self.old.setting self.old.block }
        requires taken { reader.old.taken ≤ most_bits_read }
        requires meter { meter.old + 7 < step_limit }
        ensures block { result ≡ Ok Block }
        ensures moves { self.new ≡ record self.old {
          block = place_after self.old.setting self.old.block 1;
          before = last;
          run = run;
        } }
        ensures skips { Skips reader.old reader.new
            (padding self.old.setting (self.old.block + 1 + run) reader.old.taken) }
        ensures steps { meter.new + reader.old.taken ≡ meter.old + reader.new.taken }
        ensures few { reader.new.taken ≡ reader.old.taken +
            padding self.old.setting (self.old.block + 1 + run) reader.old.taken }
        ensures limit { reader.new.taken ≤ most_bits_read }
    {
        skip_padding(&self.setting, self.block + 1 + run as u64, reader, meter);
        self.run = run;
        self.before = last;
        self.block = place_of_block_after(&self.setting, self.block, 1);
        Ok(Step::Block)
    }

    /// Returns this answer from now on.
    fn stop(&mut self, answer: Result<Step, CodeFault>) -> Result<Step, CodeFault>
        requires { answer ≢ Ok Block }
        ensures answer { result ≡ answer }
        ensures stops { self.new ≡ record self.old { stopped = Some answer } }
    {
        self.stopped = Some(answer);
        answer
    }
}
