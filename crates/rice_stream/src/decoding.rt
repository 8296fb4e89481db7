//! Decodes a code to its samples.
ghost use Rattle.std.specs.Prelude.{◌≡◌, ◌+◌, ◌-◌, ◌^◌, ◌<◌, ◌≤◌, IfSome, Option, Some};
ghost use Rattle.rice_stream.specs.DevicesInCalls.{Fails};
ghost use Rattle.rice_stream.specs.Decodes.{DecodesBetween, DecodesWithin, Reports, wanted_of, ended_fault, refusal_fault};

use crate::block_bytes::bytes_of_next;
use crate::block_pass::{BlockPass, FastPass};
use crate::outcome::{Fault, Outcome, Report};
use crate::runs::write_run;
use crate::write::write_all;
use rice_bits::{BitReader, Intake, Meter, Outlet};
use rice_code::{CodeFault, Decoder, Step};
use rice_samples::Setting;

/// Returns how many samples of the next block are wanted after the first `written`.
pub(crate) fn wanted(asked: Option<u64>, written: u64, block: u32) -> usize
    ensures value { result ≡ wanted_of asked written block }
    ensures most { result ≤ block }
{
    match asked {
        None => block as usize,
        Some(count) => count.saturating_sub(written).min(block as u64) as usize,
    }
}

/// Returns the fault of a code of which no 1 is left: none, unless more samples were asked for.
pub(crate) fn end_of(asked: Option<u64>, samples: u64) -> Option<Fault>
    ensures { result ≡ ended_fault asked samples }
{
    match asked {
        None => None,
        Some(_) => Some(Fault::CodeEnds { samples }),
    }
}

/// Returns the fault of decoding that stops after `samples` samples because the decoder refuses with `fault`.
pub(crate) fn fault_of(fault: CodeFault, samples: u64, block: u32) -> Fault
    requires { 0 < block }
    ensures { result ≡ refusal_fault fault samples block }
{
    match fault {
        CodeFault::CodeEnds => Fault::CodeEnds { samples },
        CodeFault::RunPastSegment => Fault::RunPastSegment {
            block: samples / block as u64,
        },
        CodeFault::ResidualTooLarge => Fault::ResidualTooLarge {
            block: samples / block as u64,
        },
        CodeFault::Read => Fault::Read,
        CodeFault::TooLong => Fault::TooLong,
    }
}

/// Returns the report of decoding that ends here, and the intake.
pub(crate) fn ended<I: Intake>(
    fault: Option<Fault>,
    samples: u64,
    reader: BitReader<I>,
    meter: &Meter,
) -> (Outcome, I)
    ensures reports { Reports result.0.report result.0.fault (I.left result.1) (I.failed result.1)
        reader samples meter.now fault }
    ensures intake { result.1 ≡ reader.intake }
{
    let report = Report {
        samples,
        bits: reader.taken(),
        steps: meter.steps(),
    };
    (Outcome { report, fault }, reader.into_inner())
}

/// Decodes the code that `intake` gives, and writes its samples to `outlet`: as many as are asked for, or all.
///
/// Each block is written before the next is read. With a count of 0 the intake is not called. Returns what was done, and the intake.
#[inline(always)]
pub fn decode<I: Intake, O: Outlet>(
    setting: &Setting,
    asked: Option<u64>,
    intake: I,
    outlet: &mut O,
) -> (Outcome, I)
    requires reads { I.failed intake + 1 < 2 ^ 64 }
    requires writes { O.failed outlet.old + 1 < 2 ^ 64 }
    ensures call { DecodesBetween setting.now asked (I.left intake) (I.left result.1)
        (O.taken outlet.old) (O.taken outlet.new) result.0.report result.0.fault }
    ensures failures { Fails result.0.fault (I.failed intake) (I.failed result.1)
        (O.failed outlet.old) (O.failed outlet.new) }
    ensures bounds { DecodesWithin asked result.0.report }
    // With a count of 0 the intake is not called.
    ensures idle { asked ≡ Some 0 → result.1 ≡ intake }
{
    decode_blocks::<FastPass, I, O>(setting, asked, intake, outlet)
}

/// Returns how many samples more than the first `written` are wanted, or the greatest number, if all are.
fn more_wanted(asked: Option<u64>, written: u64) -> u64
    ensures { IfSome asked (λ n. result ≡ n - written) }
{
    match asked {
        None => u64::MAX,
        Some(count) => count.saturating_sub(written),
    }
}

/// Decodes a code as [`decode`] does, by passes of this kind, and by the decoder where these take no block.
#[inline(never)]
pub(crate) fn decode_blocks<P: BlockPass, I: Intake, O: Outlet>(
    setting: &Setting,
    asked: Option<u64>,
    intake: I,
    outlet: &mut O,
) -> (Outcome, I)
    requires reads { I.failed intake + 1 < 2 ^ 64 }
    requires writes { O.failed outlet.old + 1 < 2 ^ 64 }
    ensures call { DecodesBetween setting.now asked (I.left intake) (I.left result.1)
        (O.taken outlet.old) (O.taken outlet.new) result.0.report result.0.fault }
    ensures failures { Fails result.0.fault (I.failed intake) (I.failed result.1)
        (O.failed outlet.old) (O.failed outlet.new) }
    ensures bounds { DecodesWithin asked result.0.report }
    ensures idle { asked ≡ Some 0 → result.1 ≡ intake }
{
    let own = *setting;
    let block = own.block();
    let width = own.width() as usize;
    let mut decoder = Decoder::new(own);
    let mut reader = BitReader::new(intake);
    let mut meter = Meter::new();
    // Declared here, and not where they are filled, so that they are not cleared for each block.
    let mut bytes = [0; 320];
    let mut written = 0u64;
    'decode_all: loop {
        let count = wanted(asked, written, block);
        if count == 0 {
            return ended(None, written, reader, &meter);
        }
        if count == block as usize && P::is_repeating(&decoder, &own) {
            match write_run(&own, asked, written, &mut decoder, &mut bytes, outlet) {
                Ok(samples) => {
                    written += samples;
                    meter.tick(samples);
                    continue 'decode_all;
                }
                Err(samples) => {
                    meter.tick(samples);
                    let all = written + samples;
                    return ended(Some(Fault::Write), all, reader, &meter);
                }
            }
        }
        let most = more_wanted(asked, written);
        match P::write_blocks(
            &own,
            most,
            &mut decoder,
            &mut reader,
            &mut meter,
            &mut bytes,
            outlet,
        ) {
            Ok(samples) => written += samples,
            Err(samples) => return ended(Some(Fault::Write), written + samples, reader, &meter),
        }
        let count = wanted(asked, written, block);
        if count == 0 {
            continue 'decode_all;
        }
        let answer = bytes_of_next(&mut decoder, &own, &mut reader, &mut meter, &mut bytes);
        let step = match answer {
            Ok(step) => step,
            Err(fault) => {
                let fault = fault_of(fault, written, block);
                return ended(Some(fault), written, reader, &meter);
            }
        };
        match step {
            Step::Block => {}
            Step::Done => return ended(end_of(asked, written), written, reader, &meter),
        }
        match write_all(outlet, &bytes[..width * count]) {
            Ok(()) => {}
            Err(_) => return ended(Some(Fault::Write), written, reader, &meter),
        }
        written += count as u64;
        meter.tick(count as u64);
    }
}
