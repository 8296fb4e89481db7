//! Lines of tables of calls from bytes to bytes, as `encode` and `decode` are.
use rice_base_tests::case_table::{Columns, bytes_of, setting_of};
use rice_base_tests::cases::Cases;
use rice_samples::Setting;
use rice_stream::{Fault, Outcome};
use std::alloc::Global;
use std::test::Fail;

/// A call, and what it does: the bytes written, why it stops, and the report, with the least and the most steps.
#[derive(Drop)]
pub struct Call {
    pub setting: Setting,
    pub input: Vec<u8>,
    /// The places where the intake and the outlet fail.
    pub reads: Option<usize>,
    pub writes: Option<usize>,
    written: Vec<u8>,
    fault: Option<Fault>,
    pub samples: u64,
    bits: u64,
    least_steps: u64,
    most_steps: u64,
}

impl Call {
    /// Returns the call of the next columns, which have its fields in this order.
    pub fn of(columns: &mut Columns<'_>, alloc: Global) -> Result<Self, Fail> {
        let setting = setting_of(columns.next())?;
        let input = bytes_of(columns.next(), alloc)?;
        let reads = place_of(columns.next())?;
        let writes = place_of(columns.next())?;
        let written = bytes_of(columns.next(), alloc)?;
        let fault = fault_of(columns.next())?;
        let samples = columns.next_u64()?;
        let bits = columns.next_u64()?;
        let least_steps = columns.next_u64()?;
        let most_steps = columns.next_u64()?;
        Ok(Call {
            setting,
            input,
            reads,
            writes,
            written,
            fault,
            samples,
            bits,
            least_steps,
            most_steps,
        })
    }

    /// Checks that the call had this outcome, and wrote these bytes.
    pub fn check(&self, cases: &mut Cases<'_>, outcome: &Outcome, written: &[u8]) {
        let report = outcome.report;
        cases.check(outcome.fault == self.fault);
        cases.check(written == self.written.as_slice());
        cases.check((report.samples, report.bits) == (self.samples, self.bits));
        cases.check(self.least_steps <= report.steps && report.steps <= self.most_steps);
    }
}

/// Returns the place of a column, or `None` where it is empty.
fn place_of(text: &str) -> Result<Option<usize>, Fail> {
    if text.is_empty() {
        return Ok(None);
    }
    Ok(Some(text.parse::<usize>()?))
}

/// Returns the fault of a column such as `ends 8`, or `None` if it is empty.
pub fn fault_of(text: &str) -> Result<Option<Fault>, Fail> {
    if text.is_empty() {
        return Ok(None);
    }
    let (name, number) = match text.split_once(' ') {
        Some((name, number)) => (name, number.parse::<u64>()?),
        None => (text, 0),
    };
    match name {
        "read" => Ok(Some(Fault::Read)),
        "write" => Ok(Some(Fault::Write)),
        "range" => Ok(Some(Fault::SampleOutOfRange { index: number })),
        "inside" => Ok(Some(Fault::SampleCut { index: number })),
        "ends" => Ok(Some(Fault::CodeEnds { samples: number })),
        "run" => Ok(Some(Fault::RunPastSegment { block: number })),
        "residual" => Ok(Some(Fault::ResidualTooLarge { block: number })),
        _ => Err(Fail::new("no fault")),
    }
}
