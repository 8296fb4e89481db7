//! Reads one coded data set.
ghost use Rattle.std.specs.Prelude.{◌≡◌, ◌-◌, ◌<◌, [], length, IfOk, IfErr};
ghost use Rattle.rice_bits.specs.Bits.{word};
ghost use Rattle.rice_samples.specs.Parameters.{id_len};
ghost use Rattle.rice_code.specs.ReadSets.{SetRead, SetCut, CanRead, AreCounted};

use crate::decode::options::{
    SetSummary, read_no_compression, read_run, read_second_extension, read_split,
};
use rice_bits::{BitFault, BitReader, Intake, Meter};
use rice_samples::Setting;

/// Reads what follows an identifier of zeros: a bit, and then a block by second extension or a run of zero blocks.
fn read_low_entropy<I: Intake>(
    setting: &Setting,
    block: u64,
    reader: &mut BitReader<I>,
    meter: &mut Meter,
    residuals: &mut [u32],
) -> Result<SetSummary, BitFault>
    requires ready { CanRead reader.old meter.old }
    requires size { length residuals.old ≡ setting.now.block }
    ensures ok { IfOk result (λ t. SetRead (word (id_len setting.now) 0) reader.old reader.new
        meter.old meter.new setting.now block t residuals.new) }
    ensures err { IfErr result
        (SetCut (word (id_len setting.now) 0) reader.old reader.new meter.old meter.new
        setting.now block) }
    ensures steps { AreCounted meter.old meter.new reader.old.taken reader.new.taken }
{
    let bit = reader.take(1, meter)?;
    if bit == 0 {
        let (reference, zeros) = read_run(setting, block, reader, meter)?;
        return Ok(SetSummary::Zeros { reference, zeros });
    }
    let head = read_second_extension(setting, block, reader, meter, residuals)?;
    Ok(SetSummary::Residuals(head))
}

/// Reads all bits of one coded data set. It refuses no possible coded data set.
pub fn read_set<I: Intake>(
    setting: &Setting,
    block: u64,
    reader: &mut BitReader<I>,
    meter: &mut Meter,
    residuals: &mut [u32],
) -> Result<SetSummary, BitFault>
    requires ready { CanRead reader.old meter.old }
    requires size { length residuals.old ≡ setting.now.block }
    ensures ok { IfOk result (λ t.
        SetRead [] reader.old reader.new meter.old meter.new setting.now block t residuals.new) }
    ensures err { IfErr result
        (SetCut [] reader.old reader.new meter.old meter.new setting.now block) }
    ensures steps { AreCounted meter.old meter.new reader.old.taken reader.new.taken }
{
    let width = setting.id_len();
    let id = reader.take(width, meter)?;
    if id == 0 {
        let taken = read_low_entropy(setting, block, reader, meter, residuals)?;
        return Ok(taken);
    }
    if id == (1 << width) - 1 {
        let head = read_no_compression(setting, block, reader, meter, residuals)?;
        return Ok(SetSummary::Residuals(head));
    }
    let head = read_split(setting, block, id - 1, reader, meter, residuals)?;
    Ok(SetSummary::Residuals(head))
}
