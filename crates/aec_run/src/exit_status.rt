//! The exit status of the command.
ghost use Rattle.std.specs.Prelude.{◌≡◌, ◌↔◌, IsSome, None};

use rice_stream::Outcome;

/// The status of a command that succeeded.
pub const SUCCESS: u8 = 0;

/// The status of a command that failed.
pub const FAILURE: u8 = 1;

/// Returns the exit status of an outcome: 0 without a fault, 1 with one.
pub fn exit_status(outcome: &Outcome) -> u8
    ensures clean { (result ≡ 0) ↔ (outcome.now.fault ≡ None) }
    ensures fault { IsSome outcome.now.fault → result ≡ 1 }
{
    if outcome.fault.is_none() {
        SUCCESS
    } else {
        FAILURE
    }
}
