//! The lines of help, if more than a message is requested.

use crate::message::{Message, StartFault};
use aec_command::{Plan, TestPlan};
use rice_samples::Setting;
use rice_stream::Fault;
use std::io;
use thiserror::Error;

// Not in an attribute, since the toolchain takes one with the word for that of a test.
const OTHER_OPTIONS: &str =
    "other options than it was compressed with look the same: see --test, and recipes/guess.py";

/// A line of help after a message, or at the end.
#[derive(Clone, Copy, Debug, Error)]
pub enum Help<'a> {
    #[error("{name}: {reason}")]
    Reason { name: &'a str, reason: io::Error },
    #[error("source and destination are the same file")]
    SameFile,
    #[error("{text}", text = OTHER_OPTIONS)]
    Options,
    #[error("the code is larger than the samples: look at -n and -m")]
    Larger,
    #[error("up to {samples} of the samples are padding: give their number by --samples")]
    Padding { samples: u64 },
}

/// What help needs of a plan.
#[derive(Clone, Copy, Debug)]
pub struct Job<'a> {
    source: &'a str,
    dest: &'a str,
    decode: bool,
    /// The greatest number of samples that may be padding.
    padding: u64,
}

/// Returns how many samples may fill the last segment, fewer than it has; none do where the samples are counted.
fn padding_of(setting: &Setting, counted: bool) -> u64 {
    if counted {
        return 0;
    }
    let blocks = setting.interval().min(64) as u64;
    blocks
        .saturating_mul(setting.block() as u64)
        .saturating_sub(1)
}

/// Returns the reason that the system gave for a name, if it gave one.
fn reason_for<'a>(name: &'a str, reason: Option<io::Error>) -> Option<Help<'a>> {
    match reason {
        Some(reason) => Some(Help::Reason { name, reason }),
        None => None,
    }
}

impl<'a> Job<'a> {
    /// Returns what help needs of a plan.
    pub fn of_plan(plan: &Plan<'a>) -> Self {
        let counted = !plan.decode || plan.samples.is_some();
        Job {
            source: plan.source,
            dest: plan.dest,
            decode: plan.decode,
            padding: padding_of(&plan.setting, counted),
        }
    }

    /// Returns what help needs of the plan of a test, which writes to standard output.
    pub fn of_test(plan: &TestPlan<'a>) -> Self {
        Job {
            source: plan.source,
            dest: "-",
            decode: true,
            padding: padding_of(&plan.setting, plan.samples.is_some()),
        }
    }

    /// Returns the help after a message, with the system's reason, if it gave one.
    pub fn help_after(self, message: Message<'a>, reason: Option<io::Error>) -> Option<Help<'a>> {
        match message {
            Message::Start(StartFault::NoSource { name }) => reason_for(name, reason),
            Message::Start(StartFault::NoDest { name }) => {
                reason_for(name, reason).or(Some(Help::SameFile))
            }
            Message::Stopped(fault) => self.help_after_fault(fault, reason),
            Message::Faulty { fault, .. } => self.help_after_fault(fault, reason),
            Message::Start(StartFault::NoMemory)
            | Message::NotUtf8
            | Message::Refused(_)
            | Message::TestRefused(_) => None,
        }
    }

    fn help_after_fault(self, fault: Fault, reason: Option<io::Error>) -> Option<Help<'a>> {
        match fault {
            Fault::Read => reason_for(self.source, reason),
            Fault::Write => reason_for(self.dest, reason),
            Fault::CodeEnds { .. }
            | Fault::RunPastSegment { .. }
            | Fault::ResidualTooLarge { .. } => Some(Help::Options),
            Fault::TooLong | Fault::SampleOutOfRange { .. } | Fault::SampleCut { .. } => None,
        }
    }

    /// Returns the help after a success with these numbers of samples and bytes.
    pub fn help_at_end(self, samples: u64, read: u64, written: u64) -> Option<Help<'a>> {
        if !self.decode && written > read {
            return Some(Help::Larger);
        }
        if samples > 0 && self.padding > 0 {
            return Some(Help::Padding {
                samples: self.padding.min(samples.saturating_sub(1)),
            });
        }
        None
    }
}
