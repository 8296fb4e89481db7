//! Reads the pairs of second extension.
ghost use Rattle.std.specs.Prelude.{◌≡◌, ◌+◌, ◌/◌, ◌<◌, ◌≤◌, Bool, List, length, IfErr, OnOk};
ghost use Rattle.rice_bits.specs.{Limits.most_bits_read, Limits.step_limit, Reader.Stops};
ghost use Rattle.rice_samples.specs.Pairs.{pair_code};
ghost use Rattle.rice_code.specs.ReadSets.{CanRead, AreCounted, PairRow, ones};

use rice_bits::{BitFault, BitReader, Intake, Meter};

/// Returns the pair with the number `g`. It searches for the sum of the two from 0 upwards, and ticks once for each turn.
pub fn pair_by_search(g: u64, meter: &mut Meter) -> (u32, u32)
    requires g { g ≤ most_bits_read }
    requires meter { meter.old + g < step_limit }
    ensures pair { pair_code result.0 result.1 ≡ g }
    ensures steps { meter.new ≡ meter.old + (result.0 + result.1) }
    ensures turns { result.0 + result.1 ≤ g }
{
    let mut sum = 0;
    let mut rest = g;
    while rest > sum {
        sum += 1;
        rest -= sum;
    }
    meter.tick(sum);
    ((sum - rest) as u32, rest as u32)
}

/// Reads a codeword for each pair of places of `out`, one after another, and writes its pair there.
#[inline(never)]
pub fn read_pairs<I: Intake>(
    reader: &mut BitReader<I>,
    meter: &mut Meter,
    out: &mut [u32],
) -> Result<(), BitFault>
    requires ready { CanRead reader.old meter.old }
    requires even { length out.old / 2 + length out.old / 2 ≡ length out.old }
    ensures ok { OnOk result
        (PairRow reader.old reader.new (length out.old / 2) out.new meter.old meter.new) }
    ensures err { IfErr result (λ f. (bits : List Bool) × (ones bits < length out.old / 2) ×
        Stops reader.old reader.new bits f) }
    ensures steps { AreCounted meter.old meter.new reader.old.taken reader.new.taken }
{
    for done in 0..out.len() / 2 {
        let g = reader.take_fs(meter)?;
        let (a, b) = pair_by_search(g, meter);
        out[2 * done] = a;
        out[2 * done + 1] = b;
    }
    Ok(())
}
