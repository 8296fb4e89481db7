//! The messages of the command on standard error.

use aec_command::{PlanFault, TestFault};
use rice_stream::Fault;
use thiserror::Error;

/// Why the command gave up before it encoded or decoded.
#[derive(Clone, Copy, Debug, Error)]
pub enum StartFault<'a> {
    #[error("cannot open {name}")]
    NoSource { name: &'a str },
    #[error("cannot create {name}")]
    NoDest { name: &'a str },
    #[error("out of memory")]
    NoMemory,
}

/// A message: why the command gave up.
#[derive(Clone, Copy, Debug, Error)]
pub enum Message<'a> {
    #[error(transparent)]
    Start(StartFault<'a>),
    #[error("an argument is not UTF-8")]
    NotUtf8,
    #[error(transparent)]
    Refused(PlanFault),
    #[error(transparent)]
    TestRefused(TestFault),
    #[error(transparent)]
    Stopped(Fault),
    #[error("{fault} (block {block}, bit {bit}, byte {byte} of the code)")]
    Faulty {
        fault: Fault,
        block: u64,
        bit: u64,
        byte: u64,
    },
}
