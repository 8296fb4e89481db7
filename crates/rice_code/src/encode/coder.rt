//! The coder, from samples to code.
ghost use Rattle.std.specs.Prelude.{◌≡◌, ℕ, ◌+◌, ◌*◌, ◌<◌, ◌≤◌, [], ◌∷◌, length, List, ℤ};
ghost use Rattle.rice_bits.specs.Limits.{step_limit};
ghost use Rattle.rice_samples.specs.{Parameters.IsSample, Places.cut};
ghost use Rattle.rice_code.specs.CoderSteps.{segment_steps};

use crate::encode::SegmentSink;
use crate::encode::open_segment::OpenSegment;
use rice_bits::Meter;
use rice_samples::Setting;
use std::marker::Model;

/// Takes samples one by one, and appends the code of each whole segment (CCSDS 121.0-B-3, sections 3 to 5). A segment has 64 blocks, or
/// fewer at the end of a reference interval.
///
/// In contracts its value is the state of its open segment, and `HasTaken` says which samples it has taken.
#[derive(Drop)]
pub struct Coder {
    segment: OpenSegment,
}

impl Model for Coder {
    ghost use Rattle.rice_code.specs.{encode.Coder.IsCoder, encode.OpenSegment.CoderState};

    ghost Value = { CoderState };

    ghost view = { λ c. c.segment };

    ghost invariant = { λ c. IsCoder c.segment };
}

impl Coder {
    ghost use Rattle.rice_code.specs.{encode.OpenSegment.state_between, code.Code.complete_samples, code.Blocks.fill_count};
    ghost use Rattle.rice_code.specs.encode.Coder.{HasTaken, AddsCode, PushesSamples};

    /// Returns a coder that has taken no samples.
    pub fn new(setting: Setting) -> Self
        ensures taken { HasTaken result [] }
        ensures setting { result.setting ≡ setting }
    {
        let _block = setting.block();
        Coder {
            segment: OpenSegment::new(setting),
        }
    }

    /// Returns a coder that continues after whole segments. Its next segment begins at the place `start` of its interval, after the sample
    /// `previous`.
    pub fn resume(setting: Setting, start: u32, previous: i64) -> Self
        requires { (xs : List ℤ) × HasTaken (state_between setting start previous) xs }
        ensures { result ≡ state_between setting start previous }
    {
        Coder {
            segment: OpenSegment::resume(setting, start, previous),
        }
    }

    /// Returns the place in its interval where the open segment begins.
    pub fn start(&self) -> u32
        ensures { result ≡ self.now.start }
    {
        self.segment.start()
    }

    /// Returns the last sample taken, or 0.
    pub fn previous(&self) -> i64
        ensures { result ≡ self.now.previous }
    {
        self.segment.previous()
    }

    /// Returns the number of samples in the open segment: fewer than 64 blocks.
    pub fn pending(&self) -> u32
        ensures value { (xs : List ℤ) → HasTaken self.now xs →
            result + cut self.now.setting (length xs) ≡ length xs }
        ensures limit { result < 64 * self.now.setting.block }
    {
        self.segment.len() as u32
    }

    /// Takes the sample `x`. If it completes a segment, appends the code of the segment. If this ends an interval, and intervals are
    /// padded, appends the padding.
    ///
    /// A step is a sample, a bit put, except padding, or a look at a residual.
    pub fn push(&mut self, x: i64, sink: &mut SegmentSink, meter: &mut Meter)
        requires sample { IsSample self.old.setting x }
        requires room { length sink.old ≤ 7 }
        requires meter { meter.old + segment_steps self.old.setting < step_limit }
        // `count` is the number of bits that are appended, padding aside.
        ensures { (count : ℕ) × PushesSamples self.old self.new (x ∷ [])
            sink.old sink.new count meter.old meter.new }
    {
        let _count = self.push_counted(x, sink, meter);
    }

    /// Does what `push` does, and returns the number of appended bits, without padding.
    pub fn push_counted(&mut self, x: i64, sink: &mut SegmentSink, meter: &mut Meter) -> u64
        requires sample { IsSample self.old.setting x }
        requires room { length sink.old ≤ 7 }
        requires meter { meter.old + segment_steps self.old.setting < step_limit }
        ensures { PushesSamples self.old self.new (x ∷
            []) sink.old sink.new result meter.old meter.new }
    {
        meter.tick(1);
        self.segment.hold(x);
        if self.segment.is_whole() {
            let bits = self.segment.code(sink, meter);
            self.segment.begin_next();
            bits
        } else {
            0
        }
    }

    /// Fills the last block by repeating the last sample, a step for each, and appends the code of the pending samples. It pads neither an
    /// unfinished interval nor the end.
    pub fn finish(self, sink: &mut SegmentSink, meter: &mut Meter)
        requires room { length sink.old ≤ 7 }
        requires meter { meter.old + segment_steps self.setting < step_limit }
        ensures { (xs : List ℤ) → HasTaken self xs → (count : ℕ) ×
            AddsCode self.setting (complete_samples self.setting xs) xs
            sink.old sink.new count (fill_count self.setting (length xs)) meter.old meter.new }
    {
        let mut coder = self;
        let _count = coder.finish_counted(sink, meter);
    }

    /// Does what `finish` does, returns the number of appended bits, without padding, and resets the coder to one that has taken no
    /// samples. A moved coder is copied, residuals and all; a borrowed one is not.
    pub fn finish_counted(&mut self, sink: &mut SegmentSink, meter: &mut Meter) -> u64
        requires room { length sink.old ≤ 7 }
        requires meter { meter.old + segment_steps self.old.setting < step_limit }
        ensures adds { (xs : List ℤ) → HasTaken self.old xs →
            AddsCode self.old.setting (complete_samples self.old.setting xs) xs
            sink.old sink.new result (fill_count self.old.setting (length xs)) meter.old meter.new }
        ensures taken { HasTaken self.new [] }
        ensures setting { self.new.setting ≡ self.old.setting }
    {
        self.segment.fill(meter);
        let bits = self.segment.code(sink, meter);
        self.segment.begin_first();
        bits
    }
}
