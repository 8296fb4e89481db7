//! Decodes piece by piece, for a caller without the whole code, or without room for all samples. The caller's memory holds all state.
ghost use Rattle.std.specs.Prelude.{◌↔◌, IsTrue, Bool, List, ℤ};
ghost use Rattle.rice_stream.specs.Pulling.{Origin, IsStand, IsSomeStand};
ghost use Rattle.rice_calls.specs.{AsAsked.IsDrain, AsAsked.OpensAsAsked, AsAsked.OpensAtAsAsked, AsAsked.PullsAsAsked, AskedSetting.setting_asked, Pulling.CanBegin, Pulling.PullsInto};

use crate::report::RiceReport;
use crate::setting::RiceSetting;
use crate::status::{Status, pause_place, pause_status, refusal_status};
use rice_samples::Setting;
use rice_stream::{Engines, Stand};

/// A decoder that decodes piece by piece, in C's layout: its setting, and its place in the code.
#[repr(C)]
#[derive(Clone, Copy)]
pub struct RiceDrain {
    pub setting: RiceSetting,
    pub stand: Stand,
}

/// Opens a code at its start, if the setting is legal. Returns the status number.
pub fn open_at_front(setting: &RiceSetting, drain: &mut RiceDrain) -> u32
    ensures { OpensAsAsked (setting_asked setting.now) setting.now drain.old drain.new result }
{
    match setting.legal() {
        Ok(legal) => {
            *drain = RiceDrain {
                setting: *setting,
                stand: Stand::new(&legal),
            };
            Status::Done.number()
        }
        Err(fault) => refusal_status(fault).number(),
    }
}

/// Opens a code at the start of an interval, after `samples` samples and `bits` bits, if the setting is legal. Returns the status number.
pub fn open_at(setting: &RiceSetting, samples: u64, bits: u64, drain: &mut RiceDrain) -> u32
    ensures { OpensAtAsAsked (setting_asked setting.now) samples bits setting.now drain.old drain.new result }
{
    match setting.legal() {
        Ok(legal) => {
            if !can_begin(&legal, samples, bits) {
                return Status::BadPlace.number();
            }
            *drain = RiceDrain {
                setting: *setting,
                stand: Stand::at(&legal, samples, bits),
            };
            Status::Done.number()
        }
        Err(fault) => refusal_status(fault).number(),
    }
}

/// Returns whether an interval can begin after this many samples and bits.
fn can_begin(setting: &Setting, samples: u64, bits: u64) -> bool
    ensures { IsTrue result ↔ CanBegin setting.now samples bits }
{
    if setting.pads() && bits % 8 > 0 {
        return false;
    }
    samples <= 1 << 62 && bits <= 1 << 52
}

/// Decodes the whole coded data sets of the piece `code`, while their samples fit, and writes these to the start of `samples`. The drain
/// counts the samples and bits decoded so far. Returns the status number.
pub fn pull<E: Engines>(
    drain: &mut RiceDrain,
    code: &[u8],
    samples: &mut [u8],
    report: &mut RiceReport,
) -> u32
    requires { IsDrain drain.old }
    ensures { PullsAsAsked (setting_asked drain.old.setting) code.now samples.old samples.new drain.old drain.new report.new result }
{
    match drain.setting.legal() {
        Ok(setting) => pull_into::<E>(&setting, drain, code, samples, report),
        Err(fault) => report.refuse(fault),
    }
}

/// Decodes a piece, from memory to memory.
fn pull_into<E: Engines>(
    setting: &Setting,
    drain: &mut RiceDrain,
    code: &[u8],
    samples: &mut [u8],
    report: &mut RiceReport,
) -> u32
    requires { IsSomeStand setting.now drain.old.stand }
    ensures { (o : Origin) (front : List Bool) (given : List ℤ) →
        IsStand setting.now o drain.old.stand front given →
        PullsInto setting.now o front given code.now samples.old samples.new drain.old drain.new
        report.new result }
{
    let before = drain.stand.samples;
    let (stand, pause) = E::decode_more(setting, &drain.stand, code, samples);
    drain.stand = stand;
    *report = RiceReport {
        samples: stand.samples,
        bits: stand.bits,
        steps: stand.steps,
        written: setting.width() as u64 * (stand.samples - before),
        place: pause_place(pause, stand.samples / setting.block() as u64),
    };
    pause_status(pause).number()
}
