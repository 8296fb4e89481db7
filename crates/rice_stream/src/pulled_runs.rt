//! Blocks of a run in a piece, for a caller that keeps a `Stand`.
ghost use Rattle.std.specs.Prelude.{◌≡◌, ◌+◌, ◌-◌, ◌*◌, ◌^◌, ◌<◌, ◌≤◌, true, length};
ghost use Rattle.rice_code.specs.Decoder.{IsDecoderState};
ghost use Rattle.rice_samples.specs.Parameters.{width as width_of};
ghost use Rattle.rice_stream.specs.Pulling.{HasComeTo, WritesBlocksAt, stand_at};

use crate::runs::{blocks_at_once, spell_copies_of_sample};
use crate::stand::Stand;
use rice_bits::{BitReader, Meter, SliceIn};
use rice_code::Decoder;
use rice_samples::Setting;

/// Returns where decoding stands after `samples` samples more. The reader had taken `before` bits at `stand`, and all steps since are
/// ticked.
#[inline(always)]
pub(crate) fn stand_after(
    stand: &Stand,
    samples: u64,
    before: u64,
    decoder: &Decoder,
    reader: &BitReader<SliceIn<'_>>,
    meter: &Meter,
) -> Stand
    requires samples { stand.now.samples + samples < 2 ^ 64 }
    requires before { before ≤ reader.now.taken }
    requires bits { stand.now.bits + (reader.now.taken - before) < 2 ^ 64 }
    ensures numbers { result ≡ stand_at (stand.now.samples + samples)
        (stand.now.bits + (reader.now.taken - before)) meter.now decoder.now }
    // What is known of each decoder.
    ensures state { IsDecoderState decoder.now.setting decoder.now.block decoder.now.before
        decoder.now.run decoder.now.stopped }
{
    Stand {
        samples: stand.samples + samples,
        bits: stand.bits + (reader.taken() - before),
        steps: meter.steps(),
        previous: decoder.before(),
        block: decoder.block(),
        run: decoder.run(),
    }
}

/// Writes the samples of blocks of a run at this place. Returns where decoding stands after them, and the number of their bytes.
#[inline(never)]
pub(crate) fn write_next_of_run(
    setting: &Setting,
    stand: &Stand,
    decoder: &mut Decoder,
    reader: &BitReader<SliceIn<'_>>,
    at: usize,
    samples: &mut [u8],
) -> (Stand, usize)
    requires come { HasComeTo setting.now stand.now decoder.old reader.now }
    requires run { 0 < decoder.old.run }
    requires preprocess { decoder.old.setting.preprocess ≡ true }
    requires room { at + width_of setting.now * setting.now.block ≤ length samples.old }
    ensures gives { WritesBlocksAt setting.now stand.now result.0 decoder.new
        reader.now reader.now result.1 at samples.old samples.new }
    ensures some { 1 ≤ result.1 }
    ensures room { at + result.1 ≤ length samples.old }
    ensures len { length samples.new ≡ length samples.old }
{
    let width = setting.width() as usize;
    let block = setting.block() as u64;
    // Samples that have room, whatever their width, without a division.
    let fit = ((samples.len() - at) as u64 / 4).max(block);
    let mut meter = Meter::new();
    meter.tick(stand.steps);
    let sample = decoder.before();
    let blocks = blocks_at_once(setting, Some(fit), 0, decoder.run());
    decoder.pass_blocks_of_run(blocks);
    let count = block * blocks as u64;
    meter.tick(count);
    let stand = stand_after(stand, count, reader.taken(), decoder, reader, &meter);
    let len = width * count as usize;
    spell_copies_of_sample(setting, sample, count as usize, &mut samples[at..at + len]);
    (stand, len)
}
