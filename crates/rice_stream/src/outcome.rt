//! The reports of encoding and decoding.
use thiserror::Error;

/// Why encoding or decoding stopped before the end.
#[derive(Clone, Copy, Debug, PartialEq, Eq, Error)]
pub enum Fault {
    /// The intake failed.
    #[error("read failed")]
    Read,
    /// The outlet failed.
    #[error("write failed")]
    Write,
    /// The intake gave a byte past the limit.
    #[error("input is too long")]
    TooLong,
    /// The bytes of sample `index`, counted from 0, are those of no sample.
    #[error("sample {index} is out of range")]
    SampleOutOfRange { index: u64 },
    /// The input ends inside sample `index`, counted from 0.
    #[error("input ends inside sample {index}")]
    SampleCut { index: u64 },
    /// The code ends after `samples` samples, inside a coded data set or before all requested samples.
    #[error("code ends after {samples} samples")]
    CodeEnds { samples: u64 },
    /// The run that begins with block `block`, counted from 0, passes the end of its segment.
    #[error("run at block {block} passes its segment")]
    RunPastSegment { block: u64 },
    /// A residual of block `block`, counted from 0, does not fit in n bits, or the value at the reference place is not 0.
    #[error("residual too large in block {block}")]
    ResidualTooLarge { block: u64 },
}

/// What encoding or decoding did.
#[derive(Clone, Copy, Debug, PartialEq, Eq)]
pub struct Report {
    /// The number of samples encoded, or decoded and written.
    pub samples: u64,
    /// The number of bits of code: written, without padding, or read.
    pub bits: u64,
    /// The number of steps of the coder or the decoder.
    pub steps: u64,
}

/// What encoding or decoding did and, if it stopped before the end, why.
#[derive(Clone, Copy, Debug, PartialEq, Eq)]
pub struct Outcome {
    pub report: Report,
    pub fault: Option<Fault>,
}
