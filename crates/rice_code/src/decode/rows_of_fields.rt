//! Reads rows of words, and rows of the counts of fundamental sequences.
ghost use Rattle.std.specs.Prelude.{◌≡◌, ◌*◌, ◌+◌, ◌^◌, ◌<◌, ◌≤◌, Bool, List, length, IfOk, IfErr, OnOk};
ghost use Rattle.rice_bits.specs.{Limits.most_bits_read, Reader.Stops};
ghost use Rattle.rice_code.specs.ReadSets.{CanRead, WordRow, CountRow, ones};

use rice_bits::{BitFault, BitReader, Intake, Meter};

/// Reads a word of `width` bits for each place of `words`, one after another.
#[inline(never)]
pub fn read_words<I: Intake>(
    reader: &mut BitReader<I>,
    meter: &mut Meter,
    width: u32,
    words: &mut [u32],
) -> Result<(), BitFault>
    requires ready { CanRead reader.old meter.old }
    requires width { width ≤ 32 }
    ensures ok { OnOk result (WordRow width reader.old reader.new (length words.old) words.new) }
    ensures err { IfErr result (λ f. (bits : List Bool) × (length bits < length words.old * width) ×
        Stops reader.old reader.new bits f) }
    ensures steps { meter.new + reader.old.taken ≡ meter.old + reader.new.taken }
    ensures limit { reader.new.taken ≤ most_bits_read }
{
    for done in 0..words.len() {
        words[done] = reader.take(width, meter)?;
    }
    Ok(())
}

/// Reads a fundamental sequence for each place of `counts`, and writes the number of its zeros there. Returns whether
/// all numbers are at most `most`; if one is larger, the contents of `counts` are unspecified.
#[inline(never)]
pub fn read_sequences<I: Intake>(
    reader: &mut BitReader<I>,
    meter: &mut Meter,
    most: u64,
    counts: &mut [u32],
) -> Result<bool, BitFault>
    requires ready { CanRead reader.old meter.old }
    requires most { most < 2 ^ 32 }
    ensures ok { IfOk result (λ small.
        CountRow reader.old reader.new most small (length counts.old) counts.new) }
    ensures err { IfErr result (λ f. (bits : List Bool) × (ones bits < length counts.old) ×
        Stops reader.old reader.new bits f) }
    ensures steps { meter.new + reader.old.taken ≡ meter.old + reader.new.taken }
    ensures limit { reader.new.taken ≤ most_bits_read }
{
    let mut small = true;
    for done in 0..counts.len() {
        let zeros = reader.take_fs(meter)?;
        counts[done] = zeros.min(most) as u32;
        small = small & (zeros <= most);
    }
    Ok(small)
}
