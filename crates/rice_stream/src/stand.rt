//! The place of decoding between two calls, and why a call ended there.
ghost use Rattle.std.specs.Prelude.{◌≡◌, ◌%◌, ◌≤◌, [], true};
ghost use Rattle.rice_bits.specs.Limits.{most_bits_read};
ghost use Rattle.rice_samples.specs.Limits.{most_samples_counted};

use rice_samples::Setting;

/// Why a call that decodes a piece of a code ended. `Blank`, `Cut`, `RunPastSegment` and `ResidualTooLarge` also say how the code ends if
/// no more of it follows.
#[derive(Clone, Copy, Debug, PartialEq, Eq)]
pub enum Pause {
    /// There is no room for the samples of another block.
    Full,
    /// No 1 is left in the piece.
    Blank,
    /// The remainder of the piece has a 1, and no whole coded data set at its start.
    Cut,
    /// The remainder begins with a run that passes its segment.
    RunPastSegment,
    /// The remainder begins with a block in which a residual does not fit, or the value at the reference place is not 0.
    ResidualTooLarge,
    /// The code so far and this piece have more than 2^52 bits. Nothing was done.
    TooLong,
}

/// The place of decoding: after whole coded data sets, the last of which may be a run that continues. In plain numbers, in C's layout.
///
/// Contracts say by `IsStand` which bits and samples precede it.
#[repr(C)]
#[derive(Clone, Copy)]
pub struct Stand {
    /// The number of samples so far.
    pub samples: u64,
    /// The number of bits of their coded data sets, with their padding: the next piece begins with byte `bits / 8` of the code.
    pub bits: u64,
    /// The number of steps that these took.
    pub steps: u64,
    /// The last sample, or 0.
    pub previous: i64,
    /// The place of the next block in its interval.
    pub block: u32,
    /// The zero blocks of a run that are not yet decoded.
    pub run: u32,
}

impl Stand {
    ghost use Rattle.rice_stream.specs.Pulling.{Origin, IsStand, at_front};

    /// Returns the start of a code.
    pub fn new(setting: &Setting) -> Self
        ensures { IsStand setting.now at_front result [] [] }
    {
        Stand::at(setting, 0, 0)
    }

    /// Returns the place of an interval that begins after `samples` samples and `bits` bits of a code.
    pub fn at(setting: &Setting, samples: u64, bits: u64) -> Self
        requires samples { samples ≤ most_samples_counted }
        requires limit { bits ≤ most_bits_read }
        requires padded { setting.now.pad ≡ true → bits % 8 ≡ 0 }
        ensures { IsStand setting.now (record { bits = bits; samples = samples }) result [] [] }
    {
        let _block = setting.block();
        let _bits = setting.bits();
        Stand {
            samples,
            bits,
            steps: 0,
            previous: 0,
            block: 0,
            run: 0,
        }
    }
}
