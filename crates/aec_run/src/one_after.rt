//! Whether a 1 follows the first bits of a code.
ghost use Rattle.std.specs.Prelude.{◌≡◌, ℕ, ◌+◌, ◌^◌, ◌<◌, List, drop, Some, OnOk};
ghost use Rattle.rice_bits.specs.OutletRoom.{CountsFailure};
ghost use Rattle.aec_run.specs.OneAfter.{LooksAfter, StoppedBy};

use rice_bits::{BitFault, BitReader, Intake, Meter, ReadFault};
use rice_stream::Fault;

/// The greatest number of bytes requested at a time.
const PIECE: usize = 4096;

/// Takes `count` bytes from an intake and forgets them, or all if it has fewer.
fn skip_bytes<I: Intake + Drop>(intake: &mut I, count: u64) -> Result<(), ReadFault>
    requires { I.failed intake.old + 1 < 2 ^ 64 }
    ensures rest { OnOk result ((bytes : List ℕ) → I.left intake.old ≡ Some bytes →
        I.left intake.new ≡ Some (drop count bytes)) }
    ensures failures { CountsFailure (I.failed intake.old) (I.failed intake.new) result }
{
    let mut buffer = [0; PIECE];
    let mut left = count;
    while left > 0 {
        let most = left.min(PIECE as u64) as usize;
        let taken = intake.fill(&mut buffer[..most])?;
        if taken == 0 {
            return Ok(());
        }
        left -= taken as u64;
    }
    Ok(())
}

/// Returns whether a 1 is among the bits that an intake gives, after the first few of a byte.
fn has_one<I: Intake + Drop>(intake: I, few: u32) -> Result<bool, Fault>
    requires few { few < 8 }
    requires countable { I.failed intake + 1 < 2 ^ 64 }
    ensures { LooksAfter I.failed (I.failed intake) (I.left intake) few result }
{
    let mut reader = BitReader::new(intake);
    let mut meter = Meter::new();
    match reader.take(few, &mut meter) {
        Ok(_) => {}
        Err(fault) => return stopped(fault, reader),
    }
    match reader.take_fs(&mut meter) {
        Ok(_) => Ok(true),
        Err(fault) => stopped(fault, reader),
    }
}

/// Returns what a look comes to that finds no 1: there is none, or why it was not found out.
fn stopped<I: Intake + Drop>(fault: BitFault, reader: BitReader<I>) -> Result<bool, Fault>
    ensures { StoppedBy I.failed reader.failed fault result }
{
    let _intake = reader.into_inner();
    match fault {
        BitFault::End { .. } => Ok(false),
        BitFault::Read => Err(Fault::Read),
        BitFault::TooLong => Err(Fault::TooLong),
    }
}

/// Returns whether a 1 follows the first `bits` bits of an intake.
///
/// An error says that a read failed, or that the intake gave more than 2^49 bytes.
pub fn look_after<I: Intake + Drop>(intake: I, bits: u64) -> Result<bool, Fault>
    requires { I.failed intake + 1 < 2 ^ 64 }
    ensures { LooksAfter I.failed (I.failed intake) (I.left intake) bits result }
{
    let mut intake = intake;
    match skip_bytes(&mut intake, bits / 8) {
        Ok(()) => has_one(intake, (bits % 8) as u32),
        Err(_) => Err(Fault::Read),
    }
}
