//! Reads the high and the low parts of residuals.
ghost use Rattle.std.specs.Prelude.{◌≡◌, ◌+◌, ◌-◌, ◌/◌, ◌^◌, ◌≤◌, length, IfOk, IfErr};
ghost use Rattle.rice_bits.specs.Limits.{most_bits_read};
ghost use Rattle.rice_code.specs.ReadSets.{CanRead, PartsRead, PartsCut};

use crate::decode::rows_of_fields::{read_sequences, read_words};
use crate::decode::sound_residuals::join_all_parts;
use rice_bits::{BitFault, BitReader, Intake, Meter};

/// Reads the fundamental sequences of the high parts of residuals and then their low parts, words of `k` bits, and joins
/// them. Returns whether all high parts are at most `most`; if one is larger, the residuals are unspecified. `highs` is
/// scratch space.
pub fn read_parts<I: Intake>(
    reader: &mut BitReader<I>,
    meter: &mut Meter,
    most: u64,
    k: u32,
    highs: &mut [u32],
    residuals: &mut [u32],
) -> Result<bool, BitFault>
    requires ready { CanRead reader.old meter.old }
    requires k { k ≤ 29 }
    requires most { most ≤ (2 ^ 32 - 1) / 2 ^ k }
    requires same { length highs.old ≡ length residuals.old }
    ensures ok { IfOk result (λ small.
        PartsRead reader.old reader.new most k small (length residuals.old) residuals.new) }
    ensures err { IfErr result (PartsCut reader.old reader.new k (length residuals.old)) }
    ensures steps { meter.new + reader.old.taken ≡ meter.old + reader.new.taken }
    ensures limit { reader.new.taken ≤ most_bits_read }
{
    if k == 0 {
        return read_sequences(reader, meter, most, residuals);
    }
    let small = read_sequences(reader, meter, most, highs)?;
    read_words(reader, meter, k, residuals)?;
    if small {
        join_all_parts(highs, k, residuals);
    }
    Ok(small)
}
