//! The report of a call.
ghost use Rattle.std.specs.Prelude.{◌≡◌, ◌≢◌, Some};
ghost use Rattle.rice_stream.specs.declared.outcome.Fault.TheVariants.{Read};
ghost use Rattle.rice_calls.specs.Statuses.{status_number, refusal_status as refusal_status_of, fault_status as fault_status_of, fault_place as fault_place_of};

use crate::status::{fault_place, fault_status, refusal_status};
use rice_samples::SettingFault;
use rice_stream::Outcome;

/// What a call did, in C's layout.
#[repr(C)]
#[derive(Clone, Copy)]
pub struct RiceReport {
    /// The number of samples encoded, or decoded and written.
    pub samples: u64,
    /// The number of bits of code: written, without padding, or read, with padding.
    pub bits: u64,
    /// The number of steps.
    pub steps: u64,
    /// The number of bytes written, from the start of the output.
    pub written: u64,
    /// The number of the sample, the block or the samples that the status names, or 0.
    pub place: u64,
}

impl RiceReport {
    ghost use Rattle.rice_calls.specs.Reports.{report_of, empty_report};

    /// Sets the report to `outcome` and `written`, and returns the status number.
    pub fn tell(&mut self, outcome: &Outcome, written: usize) -> u32
        requires { outcome.now.fault ≢ Some Read }
        ensures status { result ≡ status_number (fault_status_of outcome.now.fault) }
        ensures report { report_of self.new ≡ outcome.now.report }
        ensures written { self.new.written ≡ written }
        ensures place { self.new.place ≡ fault_place_of outcome.now.fault }
    {
        *self = RiceReport {
            samples: outcome.report.samples,
            bits: outcome.report.bits,
            steps: outcome.report.steps,
            written: written as u64,
            place: fault_place(outcome.fault),
        };
        fault_status(outcome.fault).number()
    }

    /// Sets the report to all zeros, since the setting is refused, and returns the status number.
    pub fn refuse(&mut self, fault: SettingFault) -> u32
        ensures status { result ≡ status_number (refusal_status_of fault) }
        ensures report { self.new ≡ empty_report }
    {
        *self = RiceReport {
            samples: 0,
            bits: 0,
            steps: 0,
            written: 0,
            place: 0,
        };
        refusal_status(fault).number()
    }
}
