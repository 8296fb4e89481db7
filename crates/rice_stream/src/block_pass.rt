//! What the engines of decoding do before the decoder reads a block.
ghost use Rattle.std.specs.Prelude.{◌≡◌, ◌+◌, ◌^◌, ◌<◌, IfErr, IfOk, OnErr, OnOk, true};
ghost use Rattle.rice_samples.specs.Parameters.{width as width_of};
ghost use Rattle.rice_fast.specs.BlocksAhead.{HasBits};
ghost use Rattle.rice_stream.specs.DecodingState.{FailsInBlocks, IsReady, WritesBlocks, at_work};

use crate::write::write_all;
use rice_bits::{BitReader, Intake, Meter, Outlet};
use rice_code::{Decoder, known_or};
use rice_fast::lanes::SampleLanes;
use rice_fast::pass;
use rice_fast::vectors::{Bytes, Halves, Words};
use rice_samples::Setting;

/// What is tried before the decoder reads a block: nothing, unless an implementation says more.
pub trait BlockPass {
    /// Returns whether the next block repeats the sample before it, and is written without the decoder.
    fn is_repeating(decoder: &Decoder, setting: &Setting) -> bool
        requires { decoder.now.setting ≡ setting.now }
        ensures { result ≡ true → (0 < decoder.now.run) × (decoder.now.setting.preprocess ≡ true) }
    {
        false
    }

    /// Decodes blocks by passes, while all samples of the next are among the next `most` ones and a pass takes it, and writes each before
    /// the next. Returns the number of their samples. If the outlet fails, the error is the number of samples before the block in which it
    /// fails.
    fn write_blocks<I: Intake, O: Outlet>(
        setting: &Setting,
        most: u64,
        decoder: &mut Decoder,
        reader: &mut BitReader<I>,
        meter: &mut Meter,
        bytes: &mut [u8; 320],
        outlet: &mut O,
    ) -> Result<u64, u64>
        requires ready { IsReady setting.now reader.old meter.old decoder.old }
        requires counted { O.failed outlet.old + 1 < 2 ^ 64 }
        ensures ok { OnOk result (O.failed outlet.new ≡ O.failed outlet.old) }
        ensures written { IfOk result (λ n. WritesBlocks setting.now most (at_work reader.old meter.old decoder.old (O.taken outlet.old))
            (at_work reader.new meter.new decoder.new (O.taken outlet.new)) n) }
        ensures err { OnErr result (O.failed outlet.new ≡ O.failed outlet.old + 1) }
        ensures fails { IfErr result (λ n. FailsInBlocks setting.now most (at_work reader.old meter.old decoder.old (O.taken outlet.old))
            (at_work reader.new meter.new decoder.new (O.taken outlet.new)) n) }
        ensures ready { IsReady setting.now reader.new meter.new decoder.new }
    {
        Ok(0)
    }
}

/// No pass: the decoder reads each block.
pub struct NoPass;

impl BlockPass for NoPass {}

/// The pass in lanes.
pub struct FastPass;

impl BlockPass for FastPass {
    #[inline(always)]
    fn is_repeating(decoder: &Decoder, setting: &Setting) -> bool {
        decoder.run() > 0 && setting.preprocess()
    }

    // Each loop is laid out for what is known of its blocks.
    #[inline(always)]
    fn write_blocks<I: Intake, O: Outlet>(
        setting: &Setting,
        most: u64,
        decoder: &mut Decoder,
        reader: &mut BitReader<I>,
        meter: &mut Meter,
        bytes: &mut [u8; 320],
        outlet: &mut O,
    ) -> Result<u64, u64> {
        macro_rules! blocks_of {
            ($lanes:ty, $size:literal, $width:literal) => {
                write_passed_blocks::<$lanes, I, O, $size, $width>(
                    setting, most, decoder, reader, meter, bytes, outlet,
                )
            };
        }
        let _bits = setting.bits();
        match (setting.width(), setting.block()) {
            (1, 8) => blocks_of!(Bytes, 8, 1),
            (1, 16) => blocks_of!(Bytes, 16, 1),
            (1, 32) => blocks_of!(Bytes, 32, 1),
            (1, 64) => blocks_of!(Bytes, 64, 1),
            (1, _) => blocks_of!(Bytes, 0, 1),
            (2, 8) => blocks_of!(Halves, 8, 2),
            (2, 16) => blocks_of!(Halves, 16, 2),
            (2, 32) => blocks_of!(Halves, 32, 2),
            (2, 64) => blocks_of!(Halves, 64, 2),
            (2, _) => blocks_of!(Halves, 0, 2),
            (3, 8) => blocks_of!(Words, 8, 3),
            (3, _) => blocks_of!(Words, 0, 3),
            (_, 8) => blocks_of!(Words, 8, 4),
            (_, 16) => blocks_of!(Words, 16, 4),
            (_, 32) => blocks_of!(Words, 32, 4),
            (_, 64) => blocks_of!(Words, 64, 4),
            _ => blocks_of!(Words, 0, 4),
        }
    }
}

/// Does what [`BlockPass::write_blocks`] says, by the loop for samples of `WIDTH` bytes in blocks of `SIZE`, or of any size where
/// this is 0.
#[inline(never)]
fn write_passed_blocks<L: SampleLanes, I: Intake, O: Outlet, const SIZE: usize, const WIDTH: usize>(
    setting: &Setting,
    most: u64,
    decoder: &mut Decoder,
    reader: &mut BitReader<I>,
    meter: &mut Meter,
    bytes: &mut [u8; 320],
    outlet: &mut O,
) -> Result<u64, u64>
    requires size { 0 < SIZE → SIZE ≡ setting.now.block }
    requires bits { HasBits L.below L.bits setting.now }
    requires width { WIDTH ≡ width_of setting.now }
    requires ready { IsReady setting.now reader.old meter.old decoder.old }
    requires counted { O.failed outlet.old + 1 < 2 ^ 64 }
    ensures ok { OnOk result (O.failed outlet.new ≡ O.failed outlet.old) }
    ensures written { IfOk result (λ n. WritesBlocks setting.now most (at_work reader.old meter.old decoder.old (O.taken outlet.old))
        (at_work reader.new meter.new decoder.new (O.taken outlet.new)) n) }
    ensures err { OnErr result (O.failed outlet.new ≡ O.failed outlet.old + 1) }
    ensures fails { IfErr result (λ n. FailsInBlocks setting.now most (at_work reader.old meter.old decoder.old (O.taken outlet.old))
        (at_work reader.new meter.new decoder.new (O.taken outlet.new)) n) }
    ensures ready { IsReady setting.now reader.new meter.new decoder.new }
{
    let own = *setting;
    let block = known_or::<SIZE>(own.block() as usize);
    let mut written = 0;
    'pass_over: while most - written >= block as u64 {
        if !pass::<L, I, SIZE, WIDTH>(decoder, &own, reader, meter, bytes) {
            return Ok(written);
        }
        let _place = decoder.block();
        match write_all(outlet, &bytes[..WIDTH * block]) {
            Ok(()) => {}
            Err(_) => return Err(written),
        }
        written += block as u64;
        meter.tick(block as u64);
    }
    Ok(written)
}
