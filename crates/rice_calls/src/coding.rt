//! Encodes and decodes, from memory to memory.
ghost use Rattle.std.specs.Prelude.{◌≡◌, Option, Some};
ghost use Rattle.rice_bits.specs.Devices.{slice_left, slice_state, slice_failures};
ghost use Rattle.rice_stream.specs.{DevicesInCalls.Fails, Encodes.EncodesBetween, Encodes.EncodesWithin, Decodes.DecodesBetween, Decodes.DecodesWithin};
ghost use Rattle.rice_calls.specs.{AsAsked.DecodesAllAsAsked, AsAsked.DecodesAsAsked, AsAsked.EncodesAsAsked, AskedSetting.setting_asked, Calls.EncodesInto, Calls.DecodesInto};

use crate::feeding::finish_into;
use crate::report::RiceReport;
use crate::setting::RiceSetting;
use rice_bits::{SliceIn, SliceOut};
use rice_samples::Setting;
use rice_stream::{Engines, MOST_INPUT, Outcome, Seam};

/// Encodes the samples whose bytes are `samples`, and writes their code to the start of `code`. Returns the status number.
pub fn encode<E: Engines>(
    setting: &RiceSetting,
    samples: &[u8],
    code: &mut [u8],
    report: &mut RiceReport,
) -> u32
    ensures { EncodesAsAsked (setting_asked setting.now) samples.now code.old code.new report.new result }
{
    match setting.legal() {
        Ok(setting) => encode_into::<E>(&setting, samples, code, report),
        Err(fault) => report.refuse(fault),
    }
}

/// Encodes from memory to memory, as one piece that begins and ends a code, without a copy of the samples. Longer input goes to
/// `encode_past_limit`.
fn encode_into<E: Engines>(
    setting: &Setting,
    samples: &[u8],
    code: &mut [u8],
    report: &mut RiceReport,
) -> u32
    ensures { EncodesInto setting.now samples.now code.old code.new report.new result }
{
    if samples.len() as u64 > MOST_INPUT {
        return encode_past_limit::<E>(setting, samples, code, report);
    }
    let seam = Seam::new(setting);
    finish_into::<E>(setting, &seam, samples, code, report)
}

/// Encodes from memory to memory by an intake. It encodes the samples within the limit of longer input, which one piece would refuse whole.
/// It is never inlined, so that other calls don't take its stack.
#[inline(never)]
fn encode_past_limit<E: Engines>(
    setting: &Setting,
    samples: &[u8],
    code: &mut [u8],
    report: &mut RiceReport,
) -> u32
    ensures { EncodesInto setting.now samples.now code.old code.new report.new result }
{
    let mut intake = SliceIn::new(samples);
    let mut outlet = SliceOut::new(code);
    let outcome = encode_slice_to_slice::<E>(setting, &mut intake, &mut outlet);
    let written = outlet.taken();
    report.tell(&outcome, written)
}

/// Encodes from a slice to a slice.
fn encode_slice_to_slice<E: Engines>(
    setting: &Setting,
    intake: &mut SliceIn<'_>,
    outlet: &mut SliceOut<'_>,
) -> Outcome
    requires { slice_failures outlet.old ≡ 0 }
    ensures borrow { (slice_state outlet.new).borrow ≡ (slice_state outlet.old).borrow }
    ensures call { EncodesBetween setting.now
        (Some (slice_left intake.old)) (Some (slice_left intake.new))
        (Some (slice_state outlet.old)) (Some (slice_state outlet.new))
        result.report result.fault }
    ensures failures { Fails result.fault 0 0 0 (slice_failures outlet.new) }
    ensures within { EncodesWithin setting.now result.report }
{
    E::encode(setting, intake, outlet)
}

/// Decodes the first `count` samples of `code`, and writes their bytes to the start of `samples`. Returns the status number.
pub fn decode<E: Engines>(
    setting: &RiceSetting,
    count: u64,
    code: &[u8],
    samples: &mut [u8],
    report: &mut RiceReport,
) -> u32
    ensures { DecodesAsAsked (setting_asked setting.now) count code.now samples.old samples.new report.new result }
{
    match setting.legal() {
        Ok(setting) => decode_into::<E>(&setting, Some(count), code, samples, report),
        Err(fault) => report.refuse(fault),
    }
}

/// Decodes all samples of `code`, and writes their bytes to the start of `samples`. Returns the status number.
pub fn decode_all<E: Engines>(
    setting: &RiceSetting,
    code: &[u8],
    samples: &mut [u8],
    report: &mut RiceReport,
) -> u32
    ensures { DecodesAllAsAsked (setting_asked setting.now) code.now samples.old samples.new report.new result }
{
    match setting.legal() {
        Ok(setting) => decode_into::<E>(&setting, None, code, samples, report),
        Err(fault) => report.refuse(fault),
    }
}

/// Decodes `asked` samples, or all, from memory to memory.
fn decode_into<E: Engines>(
    setting: &Setting,
    asked: Option<u64>,
    code: &[u8],
    samples: &mut [u8],
    report: &mut RiceReport,
) -> u32
    ensures { DecodesInto setting.now asked code.now samples.old samples.new report.new result }
{
    let intake = SliceIn::new(code);
    let mut outlet = SliceOut::new(samples);
    let (outcome, _) = decode_slice_to_slice::<E>(setting, asked, intake, &mut outlet);
    let written = outlet.taken();
    report.tell(&outcome, written)
}

/// Decodes from a slice to a slice.
fn decode_slice_to_slice<'a, E: Engines>(
    setting: &Setting,
    asked: Option<u64>,
    intake: SliceIn<'a>,
    outlet: &mut SliceOut<'_>,
) -> (Outcome, SliceIn<'a>)
    requires { slice_failures outlet.old ≡ 0 }
    ensures borrow { (slice_state outlet.new).borrow ≡ (slice_state outlet.old).borrow }
    ensures call { DecodesBetween setting.now asked
        (Some (slice_left intake.entry)) (Some (slice_left result.1))
        (Some (slice_state outlet.old)) (Some (slice_state outlet.new))
        result.0.report result.0.fault }
    ensures failures { Fails result.0.fault 0 0 0 (slice_failures outlet.new) }
    ensures within { DecodesWithin asked result.0.report }
{
    E::decode(setting, asked, intake, outlet)
}
