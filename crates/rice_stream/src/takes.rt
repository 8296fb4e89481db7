//! The coder that an encoding engine needs.
ghost use Rattle.std.specs.Prelude.{◌≡◌, ℕ, ◌≤◌, List, Bool, [], length, ℤ};
ghost use Rattle.rice_samples.specs.Parameters.{width};
ghost use Rattle.rice_code.specs.encode.OpenSegment.{state_between};
ghost use Rattle.rice_fast.specs.OpenBlocks.{Standing, HasRoomAt};
ghost use Rattle.rice_stream.specs.EncodingState.{standing_between, TakesSpelled};

use rice_bits::Meter;
use rice_code::{Coder, SegmentSink};
use rice_fast::BlockCoder;
use rice_samples::{Setting, sample_of};

/// What a coder took and appended.
#[derive(Clone, Copy, Debug, PartialEq, Eq)]
pub struct Taken {
    /// The number of samples taken.
    pub samples: usize,
    /// The number of bits of code of the segment that the last sample completes, without padding, or 0.
    pub bits: u64,
    /// Whether the sink may hold code of a segment that is not whole.
    pub ahead: bool,
}

/// A coder that takes one or more samples per call.
///
/// It may put code into its sink before the segment is whole. A contract says by `stands` what a coder is that puts none.
pub trait TakesBytes: Drop {
    ghost use Rattle.rice_code.specs.code.Code.{complete_samples};
    ghost use Rattle.rice_code.specs.code.Blocks.{fill_count};
    ghost use Rattle.rice_code.specs.encode.Coder.{HasTaken, AddsCode};

    // What a coder, its sink and its meter stand for.
    ghost stands: { Self → List Bool → ℕ → Standing → Type 0 };

    /// Returns a coder that continues at block `start` of its interval, after the sample `previous`.
    fn resume(setting: Setting, start: u32, previous: i64) -> Self
        requires { (xs : List ℤ) × HasTaken (state_between setting start previous) xs }
        ensures { (bits : List Bool) (steps : ℕ) →
            stands result bits steps (standing_between setting start previous bits steps) };

    /// Takes samples from the front of the bytes, at least one if the first bytes spell one, and none after one that completes a
    /// segment. `setting` is its own.
    fn push(
        &mut self,
        setting: &Setting,
        bytes: &[u8],
        sink: &mut SegmentSink,
        meter: &mut Meter,
    ) -> Taken
        requires { (m : Standing) × stands self.old sink.old meter.old m × HasRoomAt m ×
            (m.coder.setting ≡ setting.now) × (width setting.now ≤ length bytes.now) }
        ensures { (m : Standing) → stands self.old sink.old meter.old m → HasRoomAt m →
            (m_new : Standing) × stands self.new sink.new meter.new m_new ×
            TakesSpelled m m_new bytes.now sink.new result };

    /// Returns the place in its interval of the first block of the open segment.
    fn start(&self) -> u32
        ensures { (bits : List Bool) (steps : ℕ) (m : Standing) → stands self.now bits steps m →
            result ≡ m.coder.start };

    /// Returns the sample before the next one.
    fn previous(&self) -> i64
        ensures { (bits : List Bool) (steps : ℕ) (m : Standing) → stands self.now bits steps m →
            result ≡ m.coder.previous };

    /// Returns the number of steps, without those for code of the open segment.
    fn steps(&self, meter: &Meter) -> u64
        ensures { (bits : List Bool) (m : Standing) → stands self.now bits meter.now m →
            result ≡ m.meter };

    /// Appends the code of the open segment, its last block filled, and resets the coder. Returns the number of bits of this code,
    /// without padding.
    fn finish(&mut self, sink: &mut SegmentSink, meter: &mut Meter) -> u64
        requires { (m : Standing) × stands self.old sink.old meter.old m × HasRoomAt m }
        ensures { (m : Standing) (xs : List ℤ) → stands self.old sink.old meter.old m →
            HasRoomAt m → HasTaken m.coder xs →
            AddsCode m.coder.setting (complete_samples m.coder.setting xs) xs m.sink sink.new result
            (fill_count m.coder.setting (length xs)) m.meter meter.new };

    // Between two segments no code is put ahead.
    ghost between: { (c : Self) (bits : List Bool) (steps : ℕ) (m : Standing) → stands c bits steps m →
        m.coder.residuals ≡ [] → (m.sink ≡ bits) × (m.meter ≡ steps) };

    // Where no code is put ahead, it may be taken out of the sink.
    ghost with_sink: { (c : Self) (bits : List Bool) (steps : ℕ) (m : Standing) → stands c bits steps m →
        m.sink ≡ bits → (others : List Bool) →
        stands c others steps (record { coder = m.coder; sink = others; meter = m.meter }) };
}

impl TakesBytes for BlockCoder {
    ghost use Rattle.rice_fast.specs.OpenBlocks.{StandsFor};
    ghost use Rattle.rice_fast.proofs.lemmas.encode.StandingCoders.{stands_between, stands_with};

    ghost stands = { λ c bits steps m. StandsFor c bits steps m };

    ghost between = { λ c bits steps m stands none. stands_between stands none };

    ghost with_sink = { λ c bits steps m. stands_with c bits steps m };

    fn resume(setting: Setting, start: u32, previous: i64) -> Self {
        BlockCoder::resume(setting, start, previous)
    }

    #[inline(always)]
    fn push(
        &mut self,
        setting: &Setting,
        bytes: &[u8],
        sink: &mut SegmentSink,
        meter: &mut Meter,
    ) -> Taken {
        let pushed = self.push(setting, bytes, sink, meter);
        Taken {
            samples: pushed.samples,
            bits: pushed.bits,
            ahead: pushed.bits == 0,
        }
    }

    fn start(&self) -> u32 {
        self.start()
    }

    fn previous(&self) -> i64 {
        self.previous()
    }

    fn steps(&self, meter: &Meter) -> u64 {
        self.steps(meter)
    }

    fn finish(&mut self, sink: &mut SegmentSink, meter: &mut Meter) -> u64 {
        self.finish(sink, meter)
    }
}

impl TakesBytes for Coder {
    ghost stands = { λ c bits steps m. m ≡ record { coder = c; sink = bits; meter = steps } };

    ghost between = { λ c bits steps m same none. ((λ i. (same i).sink), (λ i. (same i).meter)) };

    ghost with_sink = { λ c bits steps m same short others. (λ i. record { coder = (same i).coder; sink = others; meter = (same i).meter }) };

    fn resume(setting: Setting, start: u32, previous: i64) -> Self {
        Coder::resume(setting, start, previous)
    }

    fn push(
        &mut self,
        setting: &Setting,
        bytes: &[u8],
        sink: &mut SegmentSink,
        meter: &mut Meter,
    ) -> Taken {
        let width = setting.width() as usize;
        match sample_of(setting, &bytes[..width]) {
            Some(x) => {
                let bits = self.push_counted(x, sink, meter);
                Taken {
                    samples: 1,
                    bits,
                    ahead: false,
                }
            }
            None => Taken {
                samples: 0,
                bits: 0,
                ahead: false,
            },
        }
    }

    fn start(&self) -> u32 {
        self.start()
    }

    fn previous(&self) -> i64 {
        self.previous()
    }

    fn steps(&self, meter: &Meter) -> u64 {
        meter.steps()
    }

    fn finish(&mut self, sink: &mut SegmentSink, meter: &mut Meter) -> u64 {
        self.finish_counted(sink, meter)
    }
}
