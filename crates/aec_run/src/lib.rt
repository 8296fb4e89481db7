//! The command: it runs a plan, tests a code, and writes messages, on a [`System`](system::System) of files and streams.
//! [`start`] runs it on a runtime.
#![tactic(auto)]

pub mod coding;
mod counted;
mod destination;
pub mod exit_status;
pub mod finding;
pub mod help;
mod host;
pub mod message;
mod nowhere;
mod one_after;
mod perform;
mod progress;
pub mod same_file;
mod source;
pub mod start_up;
pub mod system;
mod trial;

pub use coding::run;
pub use message::StartFault;
pub use start_up::{start, start_with_arguments};
