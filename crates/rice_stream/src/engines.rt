//! Encoding and decoding, whole and piece by piece, by one coder and one decoder.
ghost use Rattle.std.specs.Prelude.{◌≡◌, ◌+◌, ◌^◌, ◌<◌, Some};
ghost use Rattle.rice_stream.specs.{DevicesInCalls.Fails, Encodes.EncodesBetween, Encodes.EncodesWithin, EncodingState.PushFails, Decodes.DecodesBetween, Decodes.DecodesWithin, Pulling.IsSomeStand};
ghost use Rattle.rice_stream.specs.{Pulling.DecodesOn, Feeding.IsSomeSeam, Feeding.EncodesOn, Feeding.EncodesToEnd};

use crate::block_pass::NoPass;
use crate::decoding::{decode, decode_blocks};
use crate::encoding::Encoding;
use crate::feeding::{bytes_left, in_whole_segments};
use crate::input::Input;
use crate::outcome::{Fault, Outcome};
use crate::pulling::{decode_more, decode_piece, is_too_long};
use crate::seam::Seam;
use crate::stand::{Pause, Stand};
use crate::takes::TakesBytes;
use rice_bits::{Intake, Outlet};
use rice_code::Coder;
use rice_fast::BlockCoder;
use rice_samples::Setting;

/// The calls that encode and decode, whole and piece by piece. All implementations write the same code and the same samples.
pub trait Engines {
    /// The coder that encodes.
    type Coder: TakesBytes;

    /// Encodes the samples whose bytes the intake gives, and writes their code to the outlet.
    fn encode<I: Intake, O: Outlet>(setting: &Setting, intake: &mut I, outlet: &mut O) -> Outcome
        requires reads { I.failed intake.old + 1 < 2 ^ 64 }
        requires writes { O.failed outlet.old + 1 < 2 ^ 64 }
        ensures call { EncodesBetween setting.now (I.left intake.old) (I.left intake.new)
            (O.taken outlet.old) (O.taken outlet.new) result.report result.fault }
        ensures failures { Fails result.fault (I.failed intake.old) (I.failed intake.new)
            (O.failed outlet.old) (O.failed outlet.new) }
        ensures bounds { EncodesWithin setting.now result.report }
    {
        let width = setting.width() as usize;
        let seam = Seam::new(setting);
        let mut encoding = Encoding::<Self::Coder>::resume(*setting, &seam);
        encoding.put_bits_of_seam(&seam);
        let mut input = Input::new();
        'encode_all: loop {
            let count = match input.refill(intake) {
                Ok(count) => count,
                Err(fault) => return encoding.stopped(fault),
            };
            if count == 0 {
                if input.buffered().is_empty() {
                    return encoding.finish(outlet);
                }
                let index = encoding.taken();
                return encoding.stopped(Fault::SampleCut { index });
            }
            if let Err(fault) = encoding.push_bytes(setting, input.buffered(), outlet) {
                return encoding.stopped(fault);
            }
            input.keep_last(input.buffered().len() % width);
        }
    }

    /// Encodes the next samples, whose bytes are `bytes`, and returns the end of their code.
    fn encode_more<O: Outlet>(
        setting: &Setting,
        seam: &Seam,
        bytes: &[u8],
        outlet: &mut O,
    ) -> Result<Seam, Fault>
        requires seam { IsSomeSeam setting.now seam.now }
        requires writes { O.failed outlet.old + 1 < 2 ^ 64 }
        ensures did { EncodesOn setting.now seam.now bytes.now
            (O.taken outlet.old) (O.taken outlet.new) result }
        ensures failures { PushFails (O.failed outlet.old) (O.failed outlet.new) result }
    {
        let width = setting.width() as usize;
        if bytes.len() as u64 > bytes_left(width, seam.samples) {
            return Err(Fault::TooLong);
        }
        let all = seam.samples + (bytes.len() / width) as u64;
        let count = in_whole_segments(setting, all) - seam.samples;
        let part = &bytes[..width * count as usize];
        let mut encoding = Encoding::<Self::Coder>::resume(*setting, seam);
        encoding.put_bits_of_seam(seam);
        encoding.push_bytes(setting, part, outlet)?;
        Ok(encoding.seam())
    }

    /// Encodes the last samples, whose bytes are `bytes`, and writes the remainder of the code. The report counts all samples.
    fn encode_rest<O: Outlet>(
        setting: &Setting,
        seam: &Seam,
        bytes: &[u8],
        outlet: &mut O,
    ) -> Outcome
        requires seam { IsSomeSeam setting.now seam.now }
        requires writes { O.failed outlet.old + 1 < 2 ^ 64 }
        ensures did { EncodesToEnd setting.now seam.now bytes.now
            (O.taken outlet.old) (O.taken outlet.new) result.report result.fault }
        ensures failures { Fails result.fault 0 0 (O.failed outlet.old) (O.failed outlet.new) }
        ensures bounds { EncodesWithin setting.now result.report }
    {
        let width = setting.width() as usize;
        let mut encoding = Encoding::<Self::Coder>::resume(*setting, seam);
        encoding.put_bits_of_seam(seam);
        if bytes.len() as u64 > bytes_left(width, seam.samples) {
            return encoding.stopped(Fault::TooLong);
        }
        match encoding.push_bytes(setting, bytes, outlet) {
            Ok(()) => {}
            Err(fault) => return encoding.stopped(fault),
        }
        if bytes.len() % width > 0 {
            let index = encoding.taken();
            return encoding.stopped(Fault::SampleCut { index });
        }
        encoding.finish(outlet)
    }

    /// Decodes the code from `intake`, and writes its samples to `outlet`: `asked` of them, or all. Returns the outcome and the intake.
    fn decode<I: Intake, O: Outlet>(
        setting: &Setting,
        asked: Option<u64>,
        intake: I,
        outlet: &mut O,
    ) -> (Outcome, I)
        requires reads { I.failed intake + 1 < 2 ^ 64 }
        requires writes { O.failed outlet.old + 1 < 2 ^ 64 }
        ensures call { DecodesBetween setting.now asked (I.left intake) (I.left result.1)
            (O.taken outlet.old) (O.taken outlet.new) result.0.report result.0.fault }
        ensures failures { Fails result.0.fault (I.failed intake) (I.failed result.1)
            (O.failed outlet.old) (O.failed outlet.new) }
        ensures bounds { DecodesWithin asked result.0.report }
        // With a count of 0 the intake is not called.
        ensures idle { asked ≡ Some 0 → result.1 ≡ intake };

    /// Decodes the whole coded data sets of a piece of the code, while their samples fit, and writes these to the start of `samples`.
    /// Returns the place in the code, and why decoding paused there.
    fn decode_more(
        setting: &Setting,
        stand: &Stand,
        piece: &[u8],
        samples: &mut [u8],
    ) -> (Stand, Pause)
        requires { IsSomeStand setting.now stand.now }
        ensures { DecodesOn setting.now stand.now piece.now samples.old samples.new result.0 result.1 };
}

/// The fast engines: several samples or blocks at a time, with a loop for each shape of blocks.
pub struct Fast;

/// The small engines: one sample or block at a time, with one loop for all shapes of blocks.
pub struct Plain;

impl Engines for Fast {
    type Coder = BlockCoder;

    #[inline(always)]
    fn decode<I: Intake, O: Outlet>(
        setting: &Setting,
        asked: Option<u64>,
        intake: I,
        outlet: &mut O,
    ) -> (Outcome, I) {
        decode(setting, asked, intake, outlet)
    }

    #[inline(always)]
    fn decode_more(
        setting: &Setting,
        stand: &Stand,
        piece: &[u8],
        samples: &mut [u8],
    ) -> (Stand, Pause) {
        decode_more(setting, stand, piece, samples)
    }
}

impl Engines for Plain {
    type Coder = Coder;

    fn decode<I: Intake, O: Outlet>(
        setting: &Setting,
        asked: Option<u64>,
        intake: I,
        outlet: &mut O,
    ) -> (Outcome, I) {
        decode_blocks::<NoPass, I, O>(setting, asked, intake, outlet)
    }

    fn decode_more(
        setting: &Setting,
        stand: &Stand,
        piece: &[u8],
        samples: &mut [u8],
    ) -> (Stand, Pause) {
        if !is_too_long(stand.bits, piece.len()) {
            return decode_piece::<NoPass>(setting, stand, piece, samples);
        }
        (*stand, Pause::TooLong)
    }
}
