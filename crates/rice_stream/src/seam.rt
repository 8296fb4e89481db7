//! The seam between the code of whole segments and that of the next segment.
ghost use Rattle.std.specs.Prelude.{◌≡◌, ◌-◌, ◌^◌, ◌<◌, [], length};
ghost use Rattle.rice_bits.specs.Bits.{word};

use rice_code::SegmentSink;
use rice_samples::Setting;

/// The end of the code of whole segments: all state that is kept of them, in plain numbers, in C's layout.
///
/// Contracts say by `IsSeam` which samples precede it.
#[repr(C)]
#[derive(Clone, Copy)]
pub struct Seam {
    /// The number of samples so far.
    pub samples: u64,
    /// The number of bits of their code, without padding.
    pub bits: u64,
    /// The number of steps.
    pub steps: u64,
    /// The last sample, or 0.
    pub previous: i64,
    /// The place of the next block in its interval.
    pub start: u32,
    /// The bits of the unfinished byte of code, as a number.
    pub waiting: u32,
    /// The number of these bits: fewer than eight.
    pub waiting_bits: u32,
}

impl Seam {
    ghost use Rattle.rice_stream.specs.Feeding.{IsSeam};

    /// Returns the seam before all samples.
    pub fn new(setting: &Setting) -> Self
        ensures { IsSeam setting.now result [] }
    {
        let _block = setting.block();
        Seam {
            samples: 0,
            bits: 0,
            steps: 0,
            previous: 0,
            start: 0,
            waiting: 0,
            waiting_bits: 0,
        }
    }
}

/// Returns the bits of a sink, fewer than eight, as a number, and fills their byte with zeros.
pub fn take_waiting_number(sink: &mut SegmentSink) -> u32
    requires { length sink.old < 8 }
    ensures digits { word (length sink.old) result ≡ sink.old }
    ensures fits { result < 2 ^ length sink.old }
{
    let count = sink.len() as u32;
    if count == 0 {
        return 0;
    }
    sink.pad();
    let byte = sink.whole()[0];
    byte as u32 >> (8 - count)
}
