//! An encoding at work: its coder, sink, meter and counts; and the call that encodes all samples of an intake.
ghost use Rattle.std.specs.Prelude.{◌≡◌, ◌+◌, ◌*◌, ◌^◌, ◌<◌, ◌≤◌, List, length, Option, Some, OnOk, OnErr, IfOk, ℤ};
ghost use Rattle.rice_bits.specs.OutletRoom.{Room};
ghost use Rattle.rice_samples.specs.{Limits.most_input, Parameters.Parameters, Parameters.width, Places.cut};
ghost use Rattle.rice_stream.specs.Encodes.{EncodesBetween, EncodesWithin, ReportsTaken, ReportsAll};
ghost use Rattle.rice_stream.specs.EncodingState.{EncodingValue, Sees, Beginning, CountsSamples, IsEncodingOf, WritesRest, CanPush, PushesFirst, PushesBytes, PushFails};
ghost use Rattle.rice_stream.specs.{DevicesInCalls.Fails, Feeding.IsSeam, Feeding.IsSomeSeam, Feeding.StandsAt, Feeding.encoding_at};

use crate::engines::{Engines, Fast};
use crate::outcome::{Fault, Outcome, Report};
use crate::seam::{Seam, take_waiting_number};
use crate::takes::TakesBytes;
use crate::write::write_whole;
use rice_bits::{BitSink, Intake, Meter, Outlet, WriteFault};
use rice_code::SegmentSink;
use rice_samples::Setting;

/// A coder, its sink, its meter, and the counts for the report.
#[derive(Drop)]
pub struct Encoding<C: TakesBytes> {
    /// Apart from `bits`: the compiler would add to neighbours as a pair, which is slower.
    samples: u64,
    coder: C,
    sink: SegmentSink,
    meter: Meter,
    bits: u64,
}

impl<C: TakesBytes> Encoding<C> {
    /// Returns an encoding that goes on after the code of whole segments, but for the bits that fill no byte.
    ///
    /// They are put by `put_bits_of_seam`, once it lies where it is kept: else it would be copied there, which takes longer than
    /// short pieces.
    pub(crate) fn resume(setting: Setting, seam: &Seam) -> Self
        requires { IsSomeSeam setting seam.now }
        ensures { StandsAt C.stands setting seam.now result }
    {
        let mut meter = Meter::new();
        meter.tick(seam.steps);
        Encoding {
            samples: seam.samples,
            coder: C::resume(setting, seam.start, seam.previous),
            sink: BitSink::new(),
            meter,
            bits: seam.bits,
        }
    }

    /// Puts the bits that fill no byte.
    pub(crate) fn put_bits_of_seam(&mut self, seam: &Seam)
        requires { (s : Parameters) × (xs : List ℤ) × IsSeam s seam.now xs ×
            StandsAt C.stands s seam.now self.old }
        ensures { (s : Parameters) → StandsAt C.stands s seam.now self.old →
            Sees C.stands self.new (encoding_at s seam.now) }
    {
        let mut aside = Meter::new();
        self.sink.put(seam.waiting, seam.waiting_bits, &mut aside);
    }

    /// Returns where the code ends, if the samples so far make whole segments. The bits that fill no byte are then in the seam alone.
    pub(crate) fn seam(&mut self) -> Seam
        requires { (v : EncodingValue) × Sees C.stands self.old v × (s : Parameters) × (old : Beginning) × (now : Option Room) ×
            (xs : List ℤ) × IsEncodingOf s old now v xs × (cut s (length xs) ≡ length xs) }
        ensures { (v : EncodingValue) (s : Parameters) (old : Beginning) (now : Option Room) (xs : List ℤ) →
            Sees C.stands self.old v → IsEncodingOf s old now v xs → cut s (length xs) ≡ length xs →
            width s * length xs ≤ most_input → IsSeam s result xs }
    {
        let waiting_bits = self.sink.len() as u32;
        let waiting = take_waiting_number(&mut self.sink);
        Seam {
            samples: self.samples,
            bits: self.bits,
            steps: self.meter.steps(),
            previous: self.coder.previous(),
            start: self.coder.start(),
            waiting,
            waiting_bits,
        }
    }

    /// Returns the number of samples taken so far.
    pub(crate) fn taken(&self) -> u64
        ensures { result ≡ self.now.samples }
    {
        self.samples
    }

    /// Takes samples from the front of the bytes, writes the bytes of code that they complete, and returns their number: 0 only if the
    /// first bytes spell no sample.
    #[inline(always)]
    fn push_some<O: Outlet>(
        &mut self,
        setting: &Setting,
        bytes: &[u8],
        outlet: &mut O,
    ) -> Result<usize, WriteFault>
        requires ready { CanPush C.stands setting.now (O.taken outlet.old) self.old bytes.now }
        requires some { width setting.now ≤ length bytes.now }
        requires writes { O.failed outlet.old + 1 < 2 ^ 64 }
        ensures did { PushesFirst C.stands setting.now (O.taken outlet.old) (O.taken outlet.new)
            self.old self.new bytes.now result }
        ensures within { IfOk result (λ n. width setting.now * n ≤ length bytes.now) }
        ensures calm { OnOk result (O.failed outlet.new ≡ O.failed outlet.old) }
        ensures raised { OnErr result (O.failed outlet.new ≡ O.failed outlet.old + 1) }
    {
        let taken = self
            .coder
            .push(setting, bytes, &mut self.sink, &mut self.meter);
        self.samples += taken.samples as u64;
        self.bits += taken.bits;
        if taken.ahead {
            return Ok(taken.samples);
        }
        write_whole(&mut self.sink, outlet)?;
        Ok(taken.samples)
    }

    /// Takes the samples that the bytes spell, and writes the bytes of code that they complete, those of each segment before the next
    /// sample is taken. A last sample that is cut is left.
    pub(crate) fn push_bytes<O: Outlet>(
        &mut self,
        setting: &Setting,
        bytes: &[u8],
        outlet: &mut O,
    ) -> Result<(), Fault>
        requires ready { CanPush C.stands setting.now (O.taken outlet.old) self.old bytes.now }
        requires writes { O.failed outlet.old + 1 < 2 ^ 64 }
        ensures did { PushesBytes C.stands setting.now (O.taken outlet.old) (O.taken outlet.new)
            self.old self.new bytes.now result }
        ensures failures { PushFails (O.failed outlet.old) (O.failed outlet.new) result }
    {
        let width = setting.width() as usize;
        let mut at = 0;
        while width <= bytes.len() - at {
            match self.push_some(setting, &bytes[at..], outlet) {
                Ok(0) => {
                    return Err(Fault::SampleOutOfRange {
                        index: self.samples,
                    });
                }
                Ok(count) => at += width * count,
                Err(_) => return Err(Fault::Write),
            }
        }
        Ok(())
    }

    /// Codes the pending samples, fills the last byte, and writes the rest of the code.
    pub(crate) fn finish<O: Outlet>(&mut self, outlet: &mut O) -> Outcome
        requires ready { (v : EncodingValue) × Sees C.stands self.old v × (s : Parameters) × (old : Beginning) × (xs : List ℤ) ×
            IsEncodingOf s old (O.taken outlet.old) v xs × (length xs ≤ most_input) }
        requires writes { O.failed outlet.old + 1 < 2 ^ 64 }
        ensures did { (v : EncodingValue) (s : Parameters) (old : Beginning) (xs : List ℤ) →
            Sees C.stands self.old v → IsEncodingOf s old (O.taken outlet.old) v xs →
            ReportsAll s result.report xs × WritesRest s old (O.taken outlet.new) xs result.fault }
        ensures failures { Fails result.fault 0 0 (O.failed outlet.old) (O.failed outlet.new) }
    {
        let bits = self.coder.finish(&mut self.sink, &mut self.meter);
        let report = Report {
            samples: self.samples,
            bits: self.bits + bits,
            steps: self.meter.steps(),
        };
        self.sink.pad();
        let fault = match write_whole(&mut self.sink, outlet) {
            Ok(()) => None,
            Err(_) => Some(Fault::Write),
        };
        Outcome { report, fault }
    }

    /// Returns what was done up to a fault.
    pub(crate) fn stopped(&self, fault: Fault) -> Outcome
        ensures reported { (v : EncodingValue) (s : Parameters) (xs : List ℤ) → Sees C.stands self.now v →
            CountsSamples s v xs → ReportsTaken s result.report xs }
        ensures fault { result.fault ≡ Some fault }
    {
        let report = Report {
            samples: self.samples,
            bits: self.bits,
            steps: self.coder.steps(&self.meter),
        };
        Outcome {
            report,
            fault: Some(fault),
        }
    }
}

/// Encodes the samples whose bytes the intake gives, and writes their code to the outlet.
///
/// It requests at most 4,096 bytes at a time, at most 2^48 in all, and then one more. It writes the whole bytes of each segment's code
/// before it takes the next sample, and so before it requests more bytes.
pub fn encode<I: Intake, O: Outlet>(setting: &Setting, intake: &mut I, outlet: &mut O) -> Outcome
    requires reads { I.failed intake.old + 1 < 2 ^ 64 }
    requires writes { O.failed outlet.old + 1 < 2 ^ 64 }
    ensures call { EncodesBetween setting.now (I.left intake.old) (I.left intake.new)
        (O.taken outlet.old) (O.taken outlet.new) result.report result.fault }
    ensures failures { Fails result.fault (I.failed intake.old) (I.failed intake.new)
        (O.failed outlet.old) (O.failed outlet.new) }
    ensures bounds { EncodesWithin setting.now result.report }
{
    Fast::encode(setting, intake, outlet)
}
