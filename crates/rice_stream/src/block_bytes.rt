//! The bytes of the next block.
ghost use Rattle.std.specs.Prelude.{◌≡◌, ◌+◌, ◌-◌, ◌*◌, ◌<◌, ◌≤◌, All, None, Ok, length, take};
ghost use Rattle.rice_bits.specs.Limits.{step_limit, most_bits_read};
ghost use Rattle.rice_code.specs.declared.decode.call_results.Step.TheVariants.{Block};
ghost use Rattle.rice_samples.specs.Parameters.{IsSample, value_count, values_at, width as width_of};
ghost use Rattle.rice_samples.specs.Spelling.{spellings};
ghost use Rattle.rice_stream.specs.DecodingState.{AnswersBytes};

use arrayvec::ArrayVec;
use rice_bits::{BitReader, Intake, Meter};
use rice_code::{CodeFault, Decoder, Step};
use rice_samples::{Setting, write_spellings};

/// Makes these the levels of these samples.
fn write_levels_of(setting: &Setting, samples: &[i64], levels: &mut ArrayVec<u32, 64>)
    requires legal { All (IsSample setting.now) samples.now }
    requires few { length samples.now ≤ 64 }
    ensures values { values_at setting.now levels.new.items ≡ samples.now }
    ensures legal { All (λ l. l < value_count setting.now) levels.new.items }
{
    levels.clear();
    for i in 0..samples.len() {
        let level = setting.level(samples[i]);
        levels.push(level as u32);
    }
}

/// Writes the bytes of these samples to the front of `bytes`. A call, so that its levels take no stack while a block is read.
#[inline(never)]
fn write_samples(setting: &Setting, samples: &[i64], bytes: &mut [u8; 320])
    requires legal { All (IsSample setting.now) samples.now }
    requires few { length samples.now ≤ 64 }
    ensures { take (width_of setting.now * length samples.now) bytes.new ≡ spellings setting.now samples.now }
{
    let mut levels = ArrayVec::new();
    write_levels_of(setting, samples, &mut levels);
    let len = setting.width() as usize * levels.len();
    write_spellings(setting, levels.as_slice(), &mut bytes[..len]);
}

/// Reads the next block, and writes the bytes of its samples to the front of `bytes`. It may write more after them.
#[inline(never)]
pub(crate) fn bytes_of_next<I: Intake>(
    decoder: &mut Decoder,
    setting: &Setting,
    reader: &mut BitReader<I>,
    meter: &mut Meter,
    bytes: &mut [u8; 320],
) -> Result<Step, CodeFault>
    requires setting { decoder.old.setting ≡ setting.now }
    requires stopped { decoder.old.stopped ≡ None }
    requires going { reader.old.refusal ≡ None }
    requires room { meter.old + 2 * (most_bits_read - reader.old.taken) + 64 < step_limit }
    ensures gives { AnswersBytes reader.old reader.new meter.old meter.new decoder.old decoder.new bytes.new result }
    ensures going { decoder.new.stopped ≡ None → reader.new.refusal ≡ None }
    ensures block { result ≡ Ok Block → decoder.new.stopped ≡ None }
{
    let _taken = reader.taken();
    let mut samples = ArrayVec::new();
    let answer = decoder.next_block(reader, meter, &mut samples);
    write_samples(setting, samples.as_slice(), bytes);
    answer
}
