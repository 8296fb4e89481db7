//! The command `aec`: the coder and decoder of CCSDS 121.0-B-3, Lossless Data Compression.
#![tactic(auto)]

#[cfg(test)]
mod tests;

pub use aec_command::{Plan, PlanFault, command, plan_of};
pub use aec_run::exit_status::exit_status;
pub use aec_run::{StartFault, run, start};
pub use rice_stream::{Fault, Outcome, Report, decode, encode};
use std::io::IsTerminal;
use std::process::ExitCode;

fn main(rt: HostRuntime) -> ExitCode {
    let terminal = rt.stderr().is_terminal();
    ExitCode::from(aec_run::start_with_arguments(&rt, terminal))
}
