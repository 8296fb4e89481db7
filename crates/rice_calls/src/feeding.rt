//! Encodes piece by piece, for a caller that has no room for all samples. The caller's memory holds all state.
ghost use Rattle.std.specs.Prelude.{◌≡◌, List, Some, ℤ};
ghost use Rattle.rice_bits.specs.Devices.{slice_state, slice_failures};
ghost use Rattle.rice_stream.specs.{DevicesInCalls.Fails, Encodes.EncodesWithin, EncodingState.PushFails, Feeding.IsSeam, Feeding.IsSomeSeam, Feeding.EncodesOn, Feeding.EncodesToEnd};
ghost use Rattle.rice_calls.specs.AsAsked.{BeginsAsAsked, FinishesAsAsked, IsFeed, PushesAsAsked, TellsPushRoom};
ghost use Rattle.rice_calls.specs.{AskedSetting.setting_asked, Feeding.PushesInto, Feeding.FinishesInto, Feeding.report_of_seam};

use crate::report::RiceReport;
use crate::setting::RiceSetting;
use crate::status::{Status, refusal_status};
use rice_bits::SliceOut;
use rice_code::added_bound;
use rice_samples::Setting;
use rice_stream::{Engines, Fault, Outcome, Report, Seam};

/// A coder that encodes piece by piece, in C's layout: its setting, and the end of its code so far.
#[repr(C)]
#[derive(Clone, Copy)]
pub struct RiceFeed {
    pub setting: RiceSetting,
    pub seam: Seam,
}

/// Begins a code without samples, if the setting is legal. Returns the status number.
pub fn begin(setting: &RiceSetting, feed: &mut RiceFeed) -> u32
    ensures { BeginsAsAsked (setting_asked setting.now) setting.now feed.old feed.new result }
{
    match setting.legal() {
        Ok(legal) => {
            *feed = RiceFeed {
                setting: *setting,
                seam: Seam::new(&legal),
            };
            Status::Done.number()
        }
        Err(fault) => refusal_status(fault).number(),
    }
}

/// Returns an upper bound, in bytes, of what one `push` or `finish` of up to `samples` samples writes. Returns 0 if the feed has no legal
/// setting, or if `samples` is above 2^48: no call encodes so many.
pub fn push_room(feed: &RiceFeed, samples: u64) -> u64
    ensures { TellsPushRoom (setting_asked feed.now.setting) feed.now samples result }
{
    if samples > 1 << 48 {
        return 0;
    }
    match feed.setting.legal() {
        Ok(setting) => {
            let bits = feed.seam.waiting_bits as u64 + added_bound(&setting, samples);
            bits.div_ceil(8)
        }
        Err(_) => 0,
    }
}

/// Encodes all whole segments at the start of `samples`, and writes the bytes that their code completes to the start of `code`. The feed
/// counts the samples taken; it changes only if all was done. Returns the status number.
pub fn push<E: Engines>(
    feed: &mut RiceFeed,
    samples: &[u8],
    code: &mut [u8],
    report: &mut RiceReport,
) -> u32
    requires { IsFeed feed.old }
    ensures { PushesAsAsked (setting_asked feed.old.setting) samples.now code.old code.new feed.old feed.new report.new result }
{
    match feed.setting.legal() {
        Ok(setting) => push_into::<E>(&setting, feed, samples, code, report),
        Err(fault) => report.refuse(fault),
    }
}

/// Encodes the last samples, and writes the remainder of the code to the start of `code`. The feed does not change. Returns the status
/// number.
pub fn finish<E: Engines>(
    feed: &RiceFeed,
    samples: &[u8],
    code: &mut [u8],
    report: &mut RiceReport,
) -> u32
    requires { IsFeed feed.now }
    ensures { FinishesAsAsked (setting_asked feed.now.setting) feed.now samples.now code.old code.new report.new result }
{
    match feed.setting.legal() {
        Ok(setting) => finish_into::<E>(&setting, &feed.seam, samples, code, report),
        Err(fault) => report.refuse(fault),
    }
}

/// Encodes more samples, from memory to memory.
fn push_into<E: Engines>(
    setting: &Setting,
    feed: &mut RiceFeed,
    samples: &[u8],
    code: &mut [u8],
    report: &mut RiceReport,
) -> u32
    requires { IsSomeSeam setting.now feed.old.seam }
    ensures { (xs : List ℤ) → IsSeam setting.now feed.old.seam xs →
        PushesInto setting.now xs samples.now code.old code.new feed.old feed.new report.new
        result }
{
    let mut outlet = SliceOut::new(code);
    match push_slice_to_slice::<E>(setting, &feed.seam, samples, &mut outlet) {
        Ok(seam) => {
            feed.seam = seam;
            let written = outlet.taken();
            report.tell(&outcome_at(&seam, None), written)
        }
        Err(fault) => {
            let written = outlet.taken();
            report.tell(&outcome_at(&feed.seam, Some(fault)), written)
        }
    }
}

/// Encodes more samples, from a slice to a slice.
fn push_slice_to_slice<E: Engines>(
    setting: &Setting,
    seam: &Seam,
    samples: &[u8],
    outlet: &mut SliceOut<'_>,
) -> Result<Seam, Fault>
    requires seam { IsSomeSeam setting.now seam.now }
    requires failures { slice_failures outlet.old ≡ 0 }
    ensures borrow { (slice_state outlet.new).borrow ≡ (slice_state outlet.old).borrow }
    ensures did { EncodesOn setting.now seam.now samples.now (Some (slice_state outlet.old))
        (Some (slice_state outlet.new)) result }
    ensures failures { PushFails 0 (slice_failures outlet.new) result }
{
    E::encode_more(setting, seam, samples, outlet)
}

/// Encodes the last samples, or all of them from a new seam on, from memory to memory.
pub(crate) fn finish_into<E: Engines>(
    setting: &Setting,
    seam: &Seam,
    samples: &[u8],
    code: &mut [u8],
    report: &mut RiceReport,
) -> u32
    requires { IsSomeSeam setting.now seam.now }
    ensures { (xs : List ℤ) → IsSeam setting.now seam.now xs →
        FinishesInto setting.now xs samples.now code.old code.new report.new result }
{
    let mut outlet = SliceOut::new(code);
    let outcome = finish_slice_to_slice::<E>(setting, seam, samples, &mut outlet);
    let written = outlet.taken();
    report.tell(&outcome, written)
}

/// Encodes the last samples, from a slice to a slice.
fn finish_slice_to_slice<E: Engines>(
    setting: &Setting,
    seam: &Seam,
    samples: &[u8],
    outlet: &mut SliceOut<'_>,
) -> Outcome
    requires seam { IsSomeSeam setting.now seam.now }
    requires failures { slice_failures outlet.old ≡ 0 }
    ensures borrow { (slice_state outlet.new).borrow ≡ (slice_state outlet.old).borrow }
    ensures did { EncodesToEnd setting.now seam.now samples.now (Some (slice_state outlet.old))
        (Some (slice_state outlet.new)) result.report result.fault }
    ensures failures { Fails result.fault 0 0 0 (slice_failures outlet.new) }
    ensures within { EncodesWithin setting.now result.report }
{
    E::encode_rest(setting, seam, samples, outlet)
}

/// Returns the outcome of a call that ended at a seam.
fn outcome_at(seam: &Seam, fault: Option<Fault>) -> Outcome
    ensures report { result.report ≡ report_of_seam seam.now }
    ensures fault { result.fault ≡ fault }
{
    Outcome {
        report: Report {
            samples: seam.samples,
            bits: seam.bits,
            steps: seam.steps,
        },
        fault,
    }
}
