//! The status of a call, and its number for C.
ghost use Rattle.std.specs.Prelude.{◌≡◌, ◌≢◌, Some, Option};
ghost use Rattle.rice_stream.specs.declared.outcome.Fault.TheVariants.{Read};
ghost use Rattle.rice_calls.specs.Statuses.{refusal_status as refusal_status_of, fault_status as fault_status_of, fault_place as fault_place_of, pause_status as pause_status_of, pause_place as pause_place_of};

use rice_samples::SettingFault;
use rice_stream::{Fault, Pause};

/// How a call ended. C gets its number.
#[derive(Clone, Copy, Debug, PartialEq, Eq)]
pub enum Status {
    /// All was done.
    Done,
    /// The bits per sample are not 1 to 32.
    BadBits,
    /// The block size is not legal.
    BadBlock,
    /// The reference interval is not 1 to 4,096 blocks.
    BadInterval,
    /// The bytes of a sample are those of no sample.
    SampleOutOfRange,
    /// The input ends inside a sample.
    InputCut,
    /// The code ends inside a coded data set, or before all requested samples.
    CodeEnds,
    /// A run passes the end of its segment.
    RunPastSegment,
    /// A residual does not fit, or the value at a reference place is not 0.
    ResidualTooLarge,
    /// The output is full.
    NoRoom,
    /// The input is longer than a call accepts.
    TooLong,
    /// No 1 is left in a piece of code.
    OnlyZeros,
    /// The remainder of a piece of code has no whole coded data set at its start.
    MoreCode,
    /// No interval can begin at a place.
    BadPlace,
}

impl Status {
    ghost use Rattle.rice_calls.specs.Statuses.{status_number};

    /// Returns the number that C gets.
    pub fn number(self) -> u32
        ensures { result ≡ status_number self }
    {
        match self {
            Status::Done => 0,
            Status::BadBits => 1,
            Status::BadBlock => 2,
            Status::BadInterval => 3,
            Status::SampleOutOfRange => 4,
            Status::InputCut => 5,
            Status::CodeEnds => 6,
            Status::RunPastSegment => 7,
            Status::ResidualTooLarge => 8,
            Status::NoRoom => 9,
            Status::TooLong => 10,
            Status::OnlyZeros => 11,
            Status::MoreCode => 12,
            Status::BadPlace => 13,
        }
    }
}

/// Returns the status of a refused setting.
pub fn refusal_status(fault: SettingFault) -> Status
    ensures { result ≡ refusal_status_of fault }
{
    match fault {
        SettingFault::BadBits => Status::BadBits,
        SettingFault::BadBlock | SettingFault::BadAnyBlock => Status::BadBlock,
        SettingFault::BadInterval => Status::BadInterval,
    }
}

/// Returns the status of a call that stopped with this fault, or with none. `Read` is excluded: reading a slice never fails.
pub fn fault_status(fault: Option<Fault>) -> Status
    requires { fault ≢ Some Read }
    ensures { result ≡ fault_status_of fault }
{
    match fault {
        None => Status::Done,
        Some(Fault::Read) => unreachable!(),
        Some(Fault::Write) => Status::NoRoom,
        Some(Fault::TooLong) => Status::TooLong,
        Some(Fault::SampleOutOfRange { .. }) => Status::SampleOutOfRange,
        Some(Fault::SampleCut { .. }) => Status::InputCut,
        Some(Fault::CodeEnds { .. }) => Status::CodeEnds,
        Some(Fault::RunPastSegment { .. }) => Status::RunPastSegment,
        Some(Fault::ResidualTooLarge { .. }) => Status::ResidualTooLarge,
    }
}

/// Returns the number in the fault: of a sample, a block, or all samples. Returns 0 if it has none.
pub fn fault_place(fault: Option<Fault>) -> u64
    ensures { result ≡ fault_place_of fault }
{
    match fault {
        Some(Fault::SampleOutOfRange { index }) => index,
        Some(Fault::SampleCut { index }) => index,
        Some(Fault::CodeEnds { samples }) => samples,
        Some(Fault::RunPastSegment { block }) => block,
        Some(Fault::ResidualTooLarge { block }) => block,
        _ => 0,
    }
}

/// Returns the status of a pull with this pause.
pub fn pause_status(pause: Pause) -> Status
    ensures { result ≡ pause_status_of pause }
{
    match pause {
        Pause::Full => Status::NoRoom,
        Pause::Blank => Status::OnlyZeros,
        Pause::Cut => Status::MoreCode,
        Pause::RunPastSegment => Status::RunPastSegment,
        Pause::ResidualTooLarge => Status::ResidualTooLarge,
        Pause::TooLong => Status::TooLong,
    }
}

/// Returns `block`, the number of the refused block, if the pause refuses one, else 0.
pub fn pause_place(pause: Pause, block: u64) -> u64
    ensures { result ≡ pause_place_of pause block }
{
    match pause {
        Pause::RunPastSegment | Pause::ResidualTooLarge => block,
        _ => 0,
    }
}
