//! The coder, from the bytes of samples to code.
ghost use Rattle.std.specs.Prelude.{◌≡◌, ℕ, ◌+◌, ◌-◌, ◌*◌, ◌/◌, ◌^◌, ◌<◌, ◌≤◌, ◌++◌, ◌∷◌, [], min, Bool, true, false, length, replicate, take, sum_by, List, ℤ, pos, IfSome, IfNone};
ghost use Rattle.rice_bits.specs.Limits.{step_limit};
ghost use Rattle.rice_samples.specs.Parameters.{IsSample, value_at, value_count, width as width_of};
ghost use Rattle.rice_samples.specs.{Places.blocks_left, Spelling.IsNoSpelling, Spelling.Reads};
ghost use Rattle.rice_code.specs.code.Blocks.{fill_count};
ghost use Rattle.rice_code.specs.encode.OpenSegment.{CodesHeld, IsOpen, next_start, state_after_all, state_between};
ghost use Rattle.rice_code.specs.{code.Code.complete_samples, code.SoundBlocks.block_with, encode.Coder.AddsCode, encode.Coder.HasTaken, encode.HeldBlocks.reference_at};
ghost use Rattle.rice_fast.specs.OpenBlocks.{CanEnd, EndsPart, GoesOn, HasRoomForBlock, IsAhead, IsBefore, StandsAfter, StandsFor, TakesFrom, coder_between, coder_with, is_at_first, whole_part, with_block};
ghost use Rattle.rice_fast.specs.OpenBlocks.{HasRoomAt, Standing};

use crate::encode::blocks::code_next_or_add_to_run;
use crate::encode::repeats::repeated_blocks;
use crate::encode::residuals_of_bytes::residuals_of_bytes;
use crate::encode::sums::sum_of;
use crate::vectors::{Bytes, Halves, Words};
use rice_bits::Meter;
use rice_code::encode::blocks::{put_pending_run, reference_of};
use rice_code::encode::held_block::HeldBlock;
use rice_code::encode::open_segment::{next_residual, next_start, note_reference, pad_interval};
use rice_code::{SegmentSink, known_or};
use rice_samples::{Block, Setting, pattern, sample_of};

/// What `BlockCoder::push` took and appended.
#[derive(Clone, Copy, Debug, PartialEq, Eq)]
pub struct Pushed {
    /// The number of samples taken.
    pub samples: usize,
    /// The number of bits of code appended, without padding.
    pub bits: u64,
}

/// What stands before the next sample.
#[derive(Clone, Copy)]
struct Before {
    /// The reference of the open segment.
    reference: Option<u32>,
    /// The level of the sample before, or at a reference place of the next sample itself.
    level: u32,
}

/// Takes samples by their bytes, and appends the code of each whole segment (CCSDS 121.0-B-3, sections 3 to 5). A segment has 64 blocks, or
/// fewer at the end of a reference interval.
///
/// Each block is coded as soon as it is whole, so that the sink and the meter are ahead of those of a coder that codes whole segments.
/// In contracts `StandsFor` says which coder this is.
#[derive(Drop)]
pub struct BlockCoder {
    /// The bits by which the sink is ahead. Apart from the steps: the compiler would load neighbours as a pair that it had stored in parts.
    bits_ahead: u64,
    setting: Setting,
    /// The place in its interval of the first block of the open segment.
    start: u32,
    /// The number of its blocks that are whole.
    blocks: u32,
    /// The number of blocks of the whole segment.
    end: u32,
    /// The reference of its first block.
    reference: Option<u32>,
    /// The number of zero blocks that are pending.
    run: u32,
    /// The level of the sample before the next one.
    previous: u32,
    /// The residuals of the block that is not whole yet, and a place for those of any other.
    part: [u32; 64],
    /// Their number.
    held: usize,
    /// The steps by which the meter is ahead.
    steps_ahead: u64,
}

impl BlockCoder {
    /// Returns a coder that continues after whole segments, at the place `start` of its interval, after the sample `previous`.
    pub fn resume(setting: Setting, start: u32, previous: i64) -> Self
        requires { (xs : List ℤ) × HasTaken (state_between setting start previous) xs }
        ensures { (sink : List Bool) (meter : ℕ) → StandsFor result sink meter
            (record { coder = state_between setting start previous; sink = sink; meter = meter }) }
    {
        BlockCoder {
            setting,
            start,
            blocks: 0,
            end: setting.blocks_left(start as u64),
            reference: None,
            run: 0,
            previous: level_of_sample(&setting, previous),
            bits_ahead: 0,
            steps_ahead: 0,
            part: [0; 64],
            held: 0,
        }
    }

    /// Returns the place in its interval where the open segment begins.
    pub fn start(&self) -> u32
        ensures { (sink : List Bool) (meter : ℕ) (m : Standing) →
            StandsFor self.now sink meter m → result ≡ m.coder.start }
    {
        self.start
    }

    /// Returns the last sample taken, or 0.
    pub fn previous(&self) -> i64
        ensures sample { IsSample self.now.setting result }
        ensures value { (sink : List Bool) (meter : ℕ) (m : Standing) →
            StandsFor self.now sink meter m → result ≡ m.coder.previous }
        ensures level { self.now.previous < value_count self.now.setting →
            result ≡ value_at self.now.setting self.now.previous }
    {
        let greatest = self.setting.number_of_values() - 1;
        self.setting.value_at((self.previous as u64).min(greatest))
    }

    /// Returns the number of steps, of which those of a coder that codes whole segments are counted.
    pub fn steps(&self, meter: &Meter) -> u64
        ensures { (sink : List Bool) (m : Standing) → StandsFor self.now sink meter.now m →
            result ≡ m.meter }
    {
        meter.steps().saturating_sub(self.steps_ahead)
    }

    /// Takes samples from the front of the bytes, at least one where the first bytes spell one, and at most up to the one that completes a
    /// segment. It does what `push` of the plain coder does with each.
    ///
    /// A step is a sample, a bit put, except padding, or a look at a residual. `setting` is the coder's own: told apart from the coder, it is
    /// looked at once for many segments.
    #[inline(always)]
    pub fn push(
        &mut self,
        setting: &Setting,
        bytes: &[u8],
        sink: &mut SegmentSink,
        meter: &mut Meter,
    ) -> Pushed
        requires setting { setting.now ≡ self.old.setting }
        requires some { width_of self.old.setting ≤ length bytes.now }
        requires stands { (m : Standing) × StandsFor self.old sink.old meter.old m × HasRoomAt m }
        ensures count { width_of self.old.setting * result.samples ≤ length bytes.now }
        ensures takes { TakesFrom self.old self.new sink.old sink.new meter.old meter.new
            bytes.now result.samples result.bits }
        ensures none { result.samples ≡ 0 → IsNoSpelling self.old.setting bytes.now }
    {
        if self.held > 0 {
            return self.hold_some(bytes, sink, meter);
        }
        let pushed = self.push_blocks(setting, bytes, sink, meter);
        if pushed.samples > 0 {
            return pushed;
        }
        self.hold_some(bytes, sink, meter)
    }

    /// Fills the last block by repeating the last sample, a step for each, and appends the code of the pending samples. Returns the number
    /// of appended bits, without padding, and resets the coder.
    pub fn finish(&mut self, sink: &mut SegmentSink, meter: &mut Meter) -> u64
        requires { (m : Standing) × StandsFor self.old sink.old meter.old m × HasRoomAt m }
        ensures adds { (m : Standing) (xs : List ℤ) → StandsFor self.old sink.old meter.old m →
            HasRoomAt m → HasTaken m.coder xs →
            AddsCode self.old.setting (complete_samples self.old.setting xs) xs
            m.sink sink.new result (fill_count self.old.setting (length xs)) m.meter meter.new }
        ensures reset { (sink : List Bool) (meter : ℕ) → StandsFor self.new sink meter
            (record { coder = state_between self.old.setting 0 (pos 0); sink = sink; meter = meter }) }
    {
        self.fill(sink, meter);
        let bits = self.put_end(sink, meter);
        self.previous = level_of_sample(&self.setting, 0);
        let end = self.setting.blocks_left(0);
        self.go_to(0, end);
        bits
    }

    /// Takes whole blocks from the front of the bytes, up to the one that completes a segment, or up to one in which bytes spell no sample;
    /// none if blocks are no multiple of eight samples.
    ///
    /// It is inlined where the coder, its sink and its meter are known to lie apart, so that residuals stay in registers.
    #[inline(always)]
    fn push_blocks(
        &mut self,
        setting: &Setting,
        bytes: &[u8],
        sink: &mut SegmentSink,
        meter: &mut Meter,
    ) -> Pushed
        requires setting { setting.now ≡ self.old.setting }
        requires between { self.old.held ≡ 0 }
        requires stands { (m : Standing) × StandsFor self.old sink.old meter.old m × HasRoomAt m }
        ensures setting { self.new.setting ≡ self.old.setting }
        ensures count { width_of self.old.setting * result.samples ≤ length bytes.now }
        ensures takes { TakesFrom self.old self.new sink.old sink.new meter.old meter.new
            bytes.now result.samples result.bits }
        ensures kept { result.samples ≡ 0 → (m : Standing) → StandsFor self.old sink.old meter.old m →
            HasRoomAt m → StandsFor self.new sink.new meter.new m }
    {
        // The loop is laid out for each size of blocks.
        match setting.block() {
            8 => self.push_blocks_of_size::<8>(setting, bytes, sink, meter),
            16 => self.push_blocks_of_size::<16>(setting, bytes, sink, meter),
            32 => self.push_blocks_of_size::<32>(setting, bytes, sink, meter),
            64 => self.push_blocks_of_size::<64>(setting, bytes, sink, meter),
            _ => self.push_blocks_of_size::<0>(setting, bytes, sink, meter),
        }
    }

    /// Does what `push_blocks` does with blocks of `SIZE` samples, or of any number if `SIZE` is 0.
    #[inline(always)]
    fn push_blocks_of_size<const SIZE: usize>(
        &mut self,
        setting: &Setting,
        bytes: &[u8],
        sink: &mut SegmentSink,
        meter: &mut Meter,
    ) -> Pushed
        requires setting { setting.now ≡ self.old.setting }
        requires size { 0 < SIZE → SIZE ≡ self.old.setting.block }
        requires between { self.old.held ≡ 0 }
        requires stands { (m : Standing) × StandsFor self.old sink.old meter.old m × HasRoomAt m }
        ensures setting { self.new.setting ≡ self.old.setting }
        ensures count { width_of self.old.setting * result.samples ≤ length bytes.now }
        ensures takes { TakesFrom self.old self.new sink.old sink.new meter.old meter.new
            bytes.now result.samples result.bits }
        ensures kept { result.samples ≡ 0 → (m : Standing) → StandsFor self.old sink.old meter.old m →
            HasRoomAt m → StandsFor self.new sink.new meter.new m }
    {
        let known = known_or::<SIZE>(setting.block() as usize);
        let len = setting.width() as usize * known;
        let most = blocks_to_take(bytes.len(), len, (self.end - self.blocks) as usize);
        if most == 0 {
            return Pushed {
                samples: 0,
                bits: 0,
            };
        }
        let whole = &bytes[..len * most];
        let mut i = 0;
        while i < most {
            let repeated = self.take_repeats::<SIZE>(setting, &whole[len * i..], meter);
            if repeated > 0 {
                i += repeated;
                continue;
            }
            if !self.take_block::<SIZE>(setting, &bytes[len * i..len * i + len], sink, meter) {
                return Pushed {
                    samples: known * i,
                    bits: 0,
                };
            }
            i += 1;
        }
        let bits = self.end_if_whole(sink, meter);
        Pushed {
            samples: known * most,
            bits,
        }
    }

    /// Takes the samples of whole blocks at the front of the bytes that go on a run of zero blocks, and returns the number of these blocks.
    #[inline(always)]
    fn take_repeats<const SIZE: usize>(
        &mut self,
        setting: &Setting,
        bytes: &[u8],
        meter: &mut Meter,
    ) -> usize
        requires setting { setting.now ≡ self.old.setting }
        requires size { 0 < SIZE → SIZE ≡ self.old.setting.block }
        requires between { self.old.held ≡ 0 }
        requires inside { (n : ℕ) × (self.old.blocks + n ≤ self.old.end) ×
            (length bytes.now ≡ width_of self.old.setting * (self.old.setting.block * n)) }
        requires stands { (sink : List Bool) × CanEnd self.old sink meter.old }
        ensures setting { self.new.setting ≡ self.old.setting }
        ensures end { self.new.end ≡ self.old.end }
        ensures held { self.new.held ≡ 0 }
        ensures len { width_of self.old.setting * (self.old.setting.block * result) ≤ length bytes.now }
        ensures blocks { self.new.blocks ≡ self.old.blocks + result }
        ensures takes { 0 < result → (sink : List Bool) (m : Standing) (xs : List ℤ) →
            StandsAfter self.old sink meter.old m xs → HasRoomAt m → (ys : List ℤ) ×
            Reads self.old.setting (take (width_of self.old.setting * (self.old.setting.block * result)) bytes.now) ys [] ×
            (length ys ≡ self.old.setting.block * result) ×
            StandsAfter self.new sink meter.new m (xs ++ ys) }
        ensures none { result ≡ 0 → (self.new ≡ self.old) × (meter.new ≡ meter.old) }
    {
        let count = self.repeats(setting, bytes);
        if count > 0 {
            // A step for each sample, and one for each look.
            let samples = (known_or::<SIZE>(setting.block() as usize) * count) as u64;
            meter.tick(2 * samples);
            self.blocks += count as u32;
            self.run += count as u32;
            self.steps_ahead += samples;
            return count;
        }
        0
    }

    /// Takes the samples of a whole block by their bytes, and returns whether it did. It does not where `residuals_of_bytes` gives none.
    #[inline(always)]
    fn take_block<const SIZE: usize>(
        &mut self,
        setting: &Setting,
        bytes: &[u8],
        sink: &mut SegmentSink,
        meter: &mut Meter,
    ) -> bool
        requires setting { setting.now ≡ self.old.setting }
        requires size { 0 < SIZE → SIZE ≡ self.old.setting.block }
        requires len { length bytes.now ≡ width_of self.old.setting * self.old.setting.block }
        requires between { self.old.held ≡ 0 }
        requires inside { self.old.blocks < self.old.end }
        requires stands { CanEnd self.old sink.old meter.old }
        ensures setting { self.new.setting ≡ self.old.setting }
        ensures end { self.new.end ≡ self.old.end }
        ensures held { self.new.held ≡ 0 }
        ensures blocks { result ≡ true → self.new.blocks ≡ self.old.blocks + 1 }
        ensures takes { result ≡ true → (m : Standing) (xs : List ℤ) →
            StandsAfter self.old sink.old meter.old m xs → HasRoomAt m →
            (ys : List ℤ) × Reads self.old.setting bytes.now ys [] ×
            (length ys ≡ self.old.setting.block) ×
            StandsAfter self.new sink.new meter.new m (xs ++ ys) }
        ensures kept { result ≡ false → (m : Standing) (xs : List ℤ) →
            StandsAfter self.old sink.old meter.old m xs →
            StandsAfter self.new sink.new meter.new m xs }
        ensures same { result ≡ false → self.new.blocks ≡ self.old.blocks }
    {
        let size = known_or::<SIZE>(self.setting.block() as usize);
        let before = match self.before_next(setting, bytes) {
            Some(before) => before,
            None => return false,
        };
        let row = &mut self.part[..size];
        match residuals_of_bytes::<SIZE>(setting, bytes, before.level, row) {
            Some(last) => {
                meter.tick(size as u64);
                self.reference = before.reference;
                self.previous = last;
                let whole = sum_of(setting, &self.part[..size]);
                self.put_block::<SIZE>(whole, sink, meter);
                true
            }
            None => false,
        }
    }

    /// Returns a number of whole blocks at the front of the bytes that go on a run of pending zero blocks. More may.
    #[inline(always)]
    fn repeats(&self, setting: &Setting, bytes: &[u8]) -> usize
        requires setting { setting.now ≡ self.now.setting }
        requires below { self.now.previous < value_count self.now.setting }
        ensures len { width_of self.now.setting * (self.now.setting.block * result) ≤ length bytes.now }
        ensures goes_on { 0 < result → GoesOn self.now bytes.now result }
    {
        if self.run == 0 || !setting.preprocess() {
            return 0;
        }
        match setting.bits() {
            0..=8 => repeated_blocks::<Bytes>(setting, bytes, self.previous),
            9..=16 => repeated_blocks::<Halves>(setting, bytes, self.previous),
            _ => repeated_blocks::<Words>(setting, bytes, self.previous),
        }
    }

    /// Returns what stands before the sample that the bytes spell first, or `None` if they spell none.
    #[inline(always)]
    fn before_next(&self, setting: &Setting, bytes: &[u8]) -> Option<Before>
        requires setting { setting.now ≡ self.now.setting }
        requires between { self.now.held ≡ 0 }
        requires below { self.now.previous < value_count self.now.setting }
        requires len { width_of self.now.setting ≤ length bytes.now }
        ensures some { IfSome result (λ b. IsBefore self.now bytes.now b.reference b.level) }
        ensures none { IfNone result (IsNoSpelling self.now.setting bytes.now) }
    {
        if !(setting.preprocess() && self.start == 0 && self.blocks == 0) {
            return Some(Before {
                reference: self.reference,
                level: self.previous,
            });
        }
        let width = setting.width() as usize;
        match sample_of(setting, &bytes[..width]) {
            Some(x) => Some(Before {
                reference: Some(pattern(setting, x)),
                level: level_of_sample(setting, x),
            }),
            None => None,
        }
    }

    /// Returns whether a reference interval begins with the next sample.
    #[inline]
    fn is_at_first(&self) -> bool
        ensures { result ≡ is_at_first self.now }
    {
        self.held == 0 && self.blocks == 0 && self.start == 0
    }

    /// Codes the block whose residuals, of sum `whole`, are all held: a zero block is pending then, the code of any other is appended.
    #[inline(always)]
    fn put_block<const SIZE: usize>(
        &mut self,
        whole: u64,
        sink: &mut SegmentSink,
        meter: &mut Meter,
    )
        requires size { 0 < SIZE → SIZE ≡ self.old.setting.block }
        requires whole { whole ≡ sum_by (λ d. d / 2 ^ 0) (whole_part self.old) }
        requires whole_fits { whole ≤ 2 ^ 38 }
        requires room { HasRoomForBlock self.old sink.old meter.old }
        ensures value { self.new ≡ with_block self.old self.new.run self.new.bits_ahead self.new.steps_ahead }
        ensures ahead { (h : HasRoomForBlock self.old sink.old meter.old) →
            IsAhead self.old.setting self.old.start self.old.reference self.new.run self.new.bits_ahead self.new.steps_ahead
            (h.blocks ++ block_with (reference_at self.old.reference (length h.blocks)) (whole_part self.old) ∷ []) sink.new h.from }
        ensures meter { (h : HasRoomForBlock self.old sink.old meter.old) →
            meter.new ≡ h.meter_from + self.new.steps_ahead }
    {
        let before = sink.len();
        let mut steps = Meter::new();
        let blocks = self.blocks as usize;
        let reference = self.reference;
        let size = known_or::<SIZE>(self.setting.block() as usize);
        let residuals = Block::of(&self.part[..size]);
        let block = HeldBlock::new(reference_of(reference, blocks), residuals);
        let first = blocks - self.run as usize;
        self.run = code_next_or_add_to_run::<SIZE>(
            &self.setting,
            reference,
            first,
            self.run,
            block,
            whole,
            sink,
            &mut steps,
        );
        self.blocks += 1;
        self.bits_ahead += sink.len() - before;
        self.steps_ahead += steps.steps();
        meter.tick(steps.steps());
    }

    /// Takes samples one by one from the front of the bytes, until a block is whole, or until bytes spell no sample.
    fn hold_some(&mut self, bytes: &[u8], sink: &mut SegmentSink, meter: &mut Meter) -> Pushed
        requires stands { (m : Standing) × StandsFor self.old sink.old meter.old m × HasRoomAt m }
        ensures count { width_of self.old.setting * result.samples ≤ length bytes.now }
        ensures takes { TakesFrom self.old self.new sink.old sink.new meter.old meter.new
            bytes.now result.samples result.bits }
        ensures none { width_of self.old.setting ≤ length bytes.now → result.samples ≡ 0 →
            IsNoSpelling self.old.setting bytes.now }
    {
        let width = self.setting.width() as usize;
        let size = self.setting.block() as usize;
        let most = (bytes.len() / width).min(size - self.held);
        for i in 0..most {
            match sample_of(&self.setting, &bytes[width * i..width * i + width]) {
                Some(x) => self.hold(x, meter),
                None => {
                    return Pushed {
                        samples: i,
                        bits: 0,
                    };
                }
            }
        }
        let bits = self.end_part(sink, meter);
        Pushed {
            samples: most,
            bits,
        }
    }

    /// Takes the sample `x` into the block that is not whole yet, for a step.
    fn hold(&mut self, x: i64, meter: &mut Meter)
        requires sample { IsSample self.old.setting x }
        requires room { self.old.held < self.old.setting.block }
        requires inside { self.old.blocks < self.old.end }
        requires meter { meter.old + 1 < step_limit }
        ensures setting { self.new.setting ≡ self.old.setting }
        ensures held { self.new.held ≡ self.old.held + 1 }
        ensures blocks { self.new.blocks ≡ self.old.blocks }
        ensures end { self.new.end ≡ self.old.end }
        ensures stands { (sink : List Bool) (m : Standing) (xs : List ℤ) →
            StandsAfter self.old sink meter.old m xs →
            StandsAfter self.new sink meter.new m (xs ++ x ∷ []) }
    {
        let _size = self.setting.block();
        let first = self.is_at_first();
        let previous = self.previous();
        let residual = next_residual(&self.setting, first, previous, x);
        note_reference(&self.setting, first, &mut self.reference, x);
        self.part[self.held] = residual;
        self.held += 1;
        self.previous = level_of_sample(&self.setting, x);
        meter.tick(1);
    }

    /// Codes the block that is held, which is whole.
    fn put_part(&mut self, sink: &mut SegmentSink, meter: &mut Meter)
        requires whole { self.old.held ≡ self.old.setting.block }
        requires inside { self.old.blocks < self.old.end }
        requires stands { CanEnd self.old sink.old meter.old }
        ensures setting { self.new.setting ≡ self.old.setting }
        ensures held { self.new.held ≡ 0 }
        ensures stands { (m : Standing) (xs : List ℤ) →
            StandsAfter self.old sink.old meter.old m xs → HasRoomAt m →
            StandsAfter self.new sink.new meter.new m xs }
    {
        let size = self.setting.block() as usize;
        let whole = sum_of(&self.setting, &self.part[..size]);
        self.put_block::<0>(whole, sink, meter);
        self.held = 0;
    }

    /// Codes the block that is held, if it is whole, and ends the segment if that is whole then. Returns the bits of the segment's code, or 0.
    fn end_part(&mut self, sink: &mut SegmentSink, meter: &mut Meter) -> u64
        requires inside { self.old.blocks < self.old.end }
        requires stands { CanEnd self.old sink.old meter.old }
        ensures { EndsPart self.old self.new sink.old sink.new meter.old meter.new result }
    {
        if self.held < self.setting.block() as usize {
            return 0;
        }
        self.put_part(sink, meter);
        self.end_if_whole(sink, meter)
    }

    /// Ends the segment if it is whole, and begins the next. Returns the number of bits of the code of the segment, or 0.
    #[inline(always)]
    fn end_if_whole(&mut self, sink: &mut SegmentSink, meter: &mut Meter) -> u64
        requires between { self.old.held ≡ 0 }
        requires stands { CanEnd self.old sink.old meter.old }
        ensures setting { self.new.setting ≡ self.old.setting }
        ensures stands { EndsPart self.old self.new sink.old sink.new meter.old meter.new result }
    {
        if self.blocks < self.end {
            return 0;
        }
        let bits = self.put_end(sink, meter);
        let (start, end) = self.next_place();
        self.go_to(start, end);
        bits
    }

    /// Appends the code of the zero blocks that are pending, and the padding of an interval that ends. Returns the number of bits of the
    /// code of the segment, without padding.
    fn put_end(&self, sink: &mut SegmentSink, meter: &mut Meter) -> u64
        requires between { self.now.held ≡ 0 }
        requires stands { CanEnd self.now sink.old meter.old }
        ensures { (m : Standing) (xs : List ℤ) →
            StandsAfter self.now sink.old meter.old m xs → HasRoomAt m →
            CodesHeld (state_after_all m.coder xs) m.sink sink.new result
            (m.meter + length xs) meter.new }
    {
        let from = sink.len() - self.bits_ahead;
        let first = reference_of(self.reference, (self.blocks - self.run) as usize);
        put_pending_run(&self.setting, first, self.run, true, sink, meter);
        let bits = sink.len() - from;
        pad_interval(&self.setting, (self.start + self.blocks) as usize, sink);
        bits
    }

    /// Fills the block that is held by repeating the last sample, a step for each, and codes it, unless no sample of it is held.
    fn fill(&mut self, sink: &mut SegmentSink, meter: &mut Meter)
        requires { (m : Standing) × StandsFor self.old sink.old meter.old m × HasRoomAt m }
        ensures setting { self.new.setting ≡ self.old.setting }
        ensures held { self.new.held ≡ 0 }
        ensures stands { (m : Standing) → StandsFor self.old sink.old meter.old m → HasRoomAt m →
            StandsAfter self.new sink.new meter.new m (replicate
            (fill_count self.old.setting (length m.coder.residuals)) m.coder.previous) }
    {
        if self.held == 0 {
            return;
        }
        let x = self.previous();
        let count = self.setting.block() as usize - self.held;
        for i in 0..count {
            let _i = i;
            self.hold(x, meter);
        }
        self.put_part(sink, meter);
    }

    /// Returns the place of the first block of the next segment in its interval, and its number of blocks.
    #[inline]
    fn next_place(&self) -> (u32, u32)
        requires { IsOpen (coder_with self.now []) (self.now.setting.block * self.now.end) ×
            (self.now.end ≡ blocks_left self.now.setting self.now.start) }
        ensures start { result.0 ≡ next_start (coder_with self.now []) }
        ensures end { result.1 ≡ blocks_left self.now.setting result.0 }
    {
        // A segment that is the whole interval begins at place 0, and the next is as long.
        if self.setting.interval() <= 64 {
            return (self.start, self.end);
        }
        let start = next_start(&self.setting, self.start);
        (start, self.setting.blocks_left(start as u64))
    }

    /// Begins the segment of `end` blocks at the place `start` of its interval, after the last sample.
    fn go_to(&mut self, start: u32, end: u32)
        ensures { self.new ≡ coder_between self.old.setting start end self.old.previous self.old.part }
    {
        self.start = start;
        self.end = end;
        self.blocks = 0;
        self.reference = None;
        self.run = 0;
        self.bits_ahead = 0;
        self.steps_ahead = 0;
        self.held = 0;
    }
}

/// Returns how many blocks of `len` bytes to take, where `left` blocks are left of the segment.
#[inline(always)]
fn blocks_to_take(bytes: usize, len: usize, left: usize) -> usize
    requires some { 0 < len }
    requires few { len ≤ 256 }
    requires inside { left ≤ 64 }
    ensures { result ≡ min (bytes / len) left }
{
    // A division takes longer than a short segment's block.
    if len * left <= bytes {
        return left;
    }
    bytes / len
}

/// Returns the level of the sample `x`.
#[inline]
fn level_of_sample(setting: &Setting, x: i64) -> u32
    requires { IsSample setting.now x }
    ensures below { result < value_count setting.now }
    ensures value { value_at setting.now result ≡ x }
{
    setting.level(x) as u32
}
