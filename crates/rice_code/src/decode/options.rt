//! Reads the fields after an identifier: a block by each option, or a run.
ghost use Rattle.std.specs.Prelude.{◌≡◌, ℕ, ◌+◌, ◌-◌, ◌/◌, ◌^◌, ◌<◌, ◌≤◌, Bool, true, List, ◌++◌, length, take, drop, Option, IfOk, IfErr};
ghost use Rattle.rice_bits.specs.{Reader.Takes, Reader.Stops, Limits.most_bits_read};
ghost use Rattle.rice_samples.specs.{Places.is_reference, Parameters.k_max};
ghost use Rattle.rice_code.specs.code.{CodedDataSets.NoCompression, CodedDataSets.SecondExtension, CodedDataSets.Split, CodedDataSets.reference_bits, CodedDataSets.run_tail, Forms.IsReference};
ghost use Rattle.rice_code.specs.ReadSets.{BlockRead, BlockCut, PartsRead, PartsCut, reference_place, CanRead, AreCounted};

use crate::decode::high_and_low_parts::read_parts;
use crate::decode::pairs::read_pairs;
use crate::decode::rows_of_fields::read_words;
use crate::decode::sound_residuals::{are_below_as_high_parts, are_sound};
use rice_bits::{BitFault, BitReader, Intake, Meter};
use rice_samples::Setting;

/// What was read of a coded data set, besides residuals.
#[derive(Clone, Copy)]
pub enum SetSummary {
    Residuals(BlockSummary),
    Zeros { reference: Option<u32>, zeros: u64 },
}

/// What was read of a block, besides its residuals: the reference sample, and whether the residuals are sound.
#[derive(Clone, Copy)]
pub struct BlockSummary {
    pub reference: Option<u32>,
    pub sound: bool,
}

/// Reads the reference sample of a block, if it has one.
#[inline(always)]
pub fn read_reference<I: Intake>(
    setting: &Setting,
    block: u64,
    reader: &mut BitReader<I>,
    meter: &mut Meter,
) -> Result<Option<u32>, BitFault>
    requires ready { CanRead reader.old meter.old }
    ensures reference { IfOk result (λ r. IsReference setting.now block r) }
    ensures ok { IfOk result (λ r. Takes reader.old reader.new (reference_bits setting.now r)) }
    ensures err { IfErr result (λ f. (bits : List Bool) × (is_reference setting.now block ≡ true) ×
        (length bits < setting.now.bits) × Stops reader.old reader.new bits f) }
    ensures steps { meter.new + reader.old.taken ≡ meter.old + reader.new.taken }
    ensures limit { reader.new.taken ≤ most_bits_read }
{
    if !setting.is_reference(block) {
        return Ok(None);
    }
    let value = reader.take(setting.bits(), meter)?;
    Ok(Some(value))
}

/// Writes a 0 at the place of the reference sample, if there is one. Returns the place of the first residual that is sent.
#[inline(always)]
pub fn write_zero_for_reference(reference: Option<u32>, residuals: &mut [u32]) -> usize
    requires { 0 < length residuals.old }
    ensures first { result ≡ length (reference_place reference) }
    ensures place { take result residuals.new ≡ reference_place reference }
{
    if reference.is_some() {
        residuals[0] = 0;
        1
    } else {
        0
    }
}

/// Reads the reference sample of a run and the number of zeros of its codeword.
pub fn read_run<I: Intake>(
    setting: &Setting,
    block: u64,
    reader: &mut BitReader<I>,
    meter: &mut Meter,
) -> Result<(Option<u32>, u64), BitFault>
    requires ready { CanRead reader.old meter.old }
    ensures reference { IfOk result (λ r. IsReference setting.now block r.0) }
    ensures ok { IfOk result (λ r. Takes reader.old reader.new (run_tail setting.now r.0 r.1)) }
    ensures err { IfErr result (λ f. (bits : List Bool) × Stops reader.old reader.new bits f
        × ((r : Option ℕ) (m : ℕ) (more : List Bool) → IsReference setting.now block r →
        bits ≡ run_tail setting.now r m ++ more → ⊥)) }
    ensures steps { meter.new + reader.old.taken ≡ meter.old + reader.new.taken }
    ensures limit { reader.new.taken ≤ most_bits_read }
{
    let reference = read_reference(setting, block, reader, meter)?;
    let zeros = reader.take_fs(meter)?;
    Ok((reference, zeros))
}

/// Reads a block that is coded by no compression.
pub fn read_no_compression<I: Intake>(
    setting: &Setting,
    block: u64,
    reader: &mut BitReader<I>,
    meter: &mut Meter,
    residuals: &mut [u32],
) -> Result<BlockSummary, BitFault>
    requires ready { CanRead reader.old meter.old }
    requires size { length residuals.old ≡ setting.now.block }
    ensures ok { IfOk result (λ h. BlockRead reader.old reader.new meter.old meter.new
        setting.now block NoCompression h residuals.new) }
    ensures err { IfErr result (BlockCut reader.old reader.new setting.now block NoCompression) }
    ensures steps { AreCounted meter.old meter.new reader.old.taken reader.new.taken }
{
    let reference = read_reference(setting, block, reader, meter)?;
    let width = setting.bits();
    let first = write_zero_for_reference(reference, residuals);
    read_words(reader, meter, width, &mut residuals[first..])?;
    Ok(BlockSummary {
        reference,
        sound: true,
    })
}

/// Reads a block that is coded by second extension.
pub fn read_second_extension<I: Intake>(
    setting: &Setting,
    block: u64,
    reader: &mut BitReader<I>,
    meter: &mut Meter,
    residuals: &mut [u32],
) -> Result<BlockSummary, BitFault>
    requires ready { CanRead reader.old meter.old }
    requires size { length residuals.old ≡ setting.now.block }
    ensures ok { IfOk result (λ h. BlockRead reader.old reader.new meter.old meter.new
        setting.now block SecondExtension h residuals.new) }
    ensures err { IfErr result (BlockCut reader.old reader.new setting.now block SecondExtension) }
    ensures steps { AreCounted meter.old meter.new reader.old.taken reader.new.taken }
{
    let reference = read_reference(setting, block, reader, meter)?;
    let values = setting.number_of_values();
    read_pairs(reader, meter, residuals)?;
    let sound = are_sound(reference, residuals, values);
    Ok(BlockSummary { reference, sound })
}

/// Reads a block that is coded by split sample option `k`.
pub fn read_split<I: Intake>(
    setting: &Setting,
    block: u64,
    k: u32,
    reader: &mut BitReader<I>,
    meter: &mut Meter,
    residuals: &mut [u32],
) -> Result<BlockSummary, BitFault>
    requires ready { CanRead reader.old meter.old }
    requires k { k ≤ k_max setting.now }
    requires limit { k ≤ 29 }
    requires size { length residuals.old ≡ setting.now.block }
    ensures ok { IfOk result (λ h. BlockRead reader.old reader.new meter.old meter.new
        setting.now block (Split k) h residuals.new) }
    ensures err { IfErr result (BlockCut reader.old reader.new setting.now block (Split k)) }
    ensures steps { AreCounted meter.old meter.new reader.old.taken reader.new.taken }
{
    let reference = read_reference(setting, block, reader, meter)?;
    let values = setting.number_of_values();
    let most = (values - 1) >> k;
    let first = write_zero_for_reference(reference, residuals);
    let small = read_sent(reader, meter, most, k, first, residuals)?;
    if !small {
        return Ok(BlockSummary {
            reference,
            sound: false,
        });
    }
    let sound = are_below_as_high_parts(setting.bits(), k, &residuals[first..]);
    Ok(BlockSummary { reference, sound })
}

/// Reads the parts of the residuals after the first `first`, which is 0 or 1, as `read_parts` does.
fn read_sent<I: Intake>(
    reader: &mut BitReader<I>,
    meter: &mut Meter,
    most: u64,
    k: u32,
    first: usize,
    residuals: &mut [u32],
) -> Result<bool, BitFault>
    requires ready { CanRead reader.old meter.old }
    requires k { k ≤ 29 }
    requires most { most ≤ (2 ^ 32 - 1) / 2 ^ k }
    requires first { first ≤ 1 }
    requires some { 0 < length residuals.old }
    requires few { length residuals.old ≤ 64 }
    ensures ok { IfOk result (λ small. PartsRead reader.old reader.new most k small
        (length residuals.old - first) (drop first residuals.new)) }
    ensures stay { take first residuals.new ≡ take first residuals.old }
    ensures err { IfErr result (PartsCut reader.old reader.new k (length residuals.old - first)) }
    ensures steps { meter.new + reader.old.taken ≡ meter.old + reader.new.taken }
    ensures limit { reader.new.taken ≤ most_bits_read }
{
    let size = residuals.len();
    let mut highs = [0; 64];
    read_parts(
        reader,
        meter,
        most,
        k,
        &mut highs[..size - first],
        &mut residuals[first..],
    )
}
