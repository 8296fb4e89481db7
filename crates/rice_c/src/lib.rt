//! The calls that `include/rice.h` declares and describes in words, by the fast engines, over the caller's memory.
#![tactic(auto)]

ghost use Rattle.std.specs.Prelude.{◌≡◌};
ghost use Rattle.rice_calls.specs.AsAsked.{BeginsAsAsked, DecodesAllAsAsked, DecodesAsAsked, EncodesAsAsked, FinishesAsAsked, IsDrain, IsFeed, OpensAsAsked, OpensAtAsAsked, PullsAsAsked, PushesAsAsked, SpellsAsAsked, TellsCodeRoom, TellsPushRoom, TellsSetRoom, TellsStepBound, TellsWidth};
ghost use Rattle.rice_calls.specs.AskedSetting.{setting_asked};
ghost use Rattle.rice_calls.specs.Statuses.{status_number, check_of};

use rice_calls::{
    RiceDrain, RiceFeed, RiceReport, RiceSetting, begin, check, code_room, decode, decode_all,
    encode, finish, open_at, open_at_front, pull, push, push_room, sample_width, set_room, spell,
    step_bound, version_number,
};
use rice_stream::Fast;

/// Returns the version of the library, 1.0.0, as 10,000 times its first number, plus 100 times its second, plus its third.
#[unsafe(no_mangle)]
pub extern "C" fn rice_version() -> u32
    ensures { result ≡ 10000 }
{
    version_number()
}

/// Returns the status number of this setting: that of `Status::Done` if it is legal.
#[unsafe(no_mangle)]
pub extern "C" fn rice_check(setting: &RiceSetting) -> u32
    ensures { result ≡ status_number (check_of setting.now) }
{
    check(setting)
}

/// Returns the number of bytes of a sample, 1 to 4, or 0 if the setting is not legal.
#[unsafe(no_mangle)]
pub extern "C" fn rice_sample_width(setting: &RiceSetting) -> u32
    ensures { TellsWidth (setting_asked setting.now) result }
{
    sample_width(setting)
}

/// Returns an upper bound, in bytes, of the code of `samples` samples with all padding. Returns 0 if the setting is not legal, or if
/// `samples` is above 2^48: no call encodes so many.
#[unsafe(no_mangle)]
pub extern "C" fn rice_code_room(setting: &RiceSetting, samples: u64) -> u64
    ensures { TellsCodeRoom (setting_asked setting.now) samples result }
{
    code_room(setting, samples)
}

/// Returns a number of bytes that hold any coded data set of this library and the padding after it, at whichever bit of a byte it begins.
/// Returns 0 if the setting is not legal.
#[unsafe(no_mangle)]
pub extern "C" fn rice_set_room(setting: &RiceSetting) -> u32
    ensures { TellsSetRoom (setting_asked setting.now) result }
{
    set_room(setting)
}

/// Returns an upper bound of the steps of encoding `samples` samples. Returns 0 if the setting is not legal, or if `samples` is above 2^48:
/// no call encodes so many.
#[unsafe(no_mangle)]
pub extern "C" fn rice_step_bound(setting: &RiceSetting, samples: u64) -> u64
    ensures { TellsStepBound (setting_asked setting.now) samples result }
{
    step_bound(setting, samples)
}

/// Sets the unused high bits of each sample to 0 or, if samples are signed, to its sign. Returns the status number.
#[unsafe(no_mangle)]
pub extern "C" fn rice_spell(setting: &RiceSetting, samples: &mut [u8]) -> u32
    ensures { SpellsAsAsked (setting_asked setting.now) samples.old samples.new result }
{
    spell(setting, samples)
}

/// Encodes the samples whose bytes are `samples`, and writes their code to the start of `code`. Returns the status number.
#[unsafe(no_mangle)]
pub extern "C" fn rice_encode(
    setting: &RiceSetting,
    samples: &[u8],
    code: &mut [u8],
    report: &mut RiceReport,
) -> u32
    ensures { EncodesAsAsked (setting_asked setting.now) samples.now code.old code.new report.new result }
{
    encode::<Fast>(setting, samples, code, report)
}

/// Decodes the first `count` samples of `code`, and writes their bytes to the start of `samples`. Returns the status number.
#[unsafe(no_mangle)]
pub extern "C" fn rice_decode(
    setting: &RiceSetting,
    count: u64,
    code: &[u8],
    samples: &mut [u8],
    report: &mut RiceReport,
) -> u32
    ensures { DecodesAsAsked (setting_asked setting.now) count code.now samples.old samples.new report.new result }
{
    decode::<Fast>(setting, count, code, samples, report)
}

/// Decodes all samples of `code`, and writes their bytes to the start of `samples`. Returns the status number.
#[unsafe(no_mangle)]
pub extern "C" fn rice_decode_all(
    setting: &RiceSetting,
    code: &[u8],
    samples: &mut [u8],
    report: &mut RiceReport,
) -> u32
    ensures { DecodesAllAsAsked (setting_asked setting.now) code.now samples.old samples.new report.new result }
{
    decode_all::<Fast>(setting, code, samples, report)
}

/// Begins a code without samples, if the setting is legal. Returns the status number.
#[unsafe(no_mangle)]
pub extern "C" fn rice_begin(setting: &RiceSetting, feed: &mut RiceFeed) -> u32
    ensures { BeginsAsAsked (setting_asked setting.now) setting.now feed.old feed.new result }
{
    begin(setting, feed)
}

/// Returns an upper bound, in bytes, of what one `rice_push` or `rice_finish` of up to `samples` samples writes. Returns 0 if the feed has
/// no legal setting, or if `samples` is above 2^48: no call encodes so many.
#[unsafe(no_mangle)]
pub extern "C" fn rice_push_room(feed: &RiceFeed, samples: u64) -> u64
    ensures { TellsPushRoom (setting_asked feed.now.setting) feed.now samples result }
{
    push_room(feed, samples)
}

/// Encodes all whole segments at the start of `samples`, and writes the bytes that their code completes to the start of `code`. The feed
/// counts the samples taken; it changes only if all was done. Returns the status number.
#[unsafe(no_mangle)]
pub extern "C" fn rice_push(
    feed: &mut RiceFeed,
    samples: &[u8],
    code: &mut [u8],
    report: &mut RiceReport,
) -> u32
    requires { IsFeed feed.old }
    ensures { PushesAsAsked (setting_asked feed.old.setting) samples.now code.old code.new feed.old feed.new report.new result }
{
    push::<Fast>(feed, samples, code, report)
}

/// Encodes the last samples, and writes the remainder of the code to the start of `code`. The feed does not change. Returns the status
/// number.
#[unsafe(no_mangle)]
pub extern "C" fn rice_finish(
    feed: &RiceFeed,
    samples: &[u8],
    code: &mut [u8],
    report: &mut RiceReport,
) -> u32
    requires { IsFeed feed.now }
    ensures { FinishesAsAsked (setting_asked feed.now.setting) feed.now samples.now code.old code.new report.new result }
{
    finish::<Fast>(feed, samples, code, report)
}

/// Opens a code at its start, if the setting is legal. Returns the status number.
#[unsafe(no_mangle)]
pub extern "C" fn rice_open(setting: &RiceSetting, drain: &mut RiceDrain) -> u32
    ensures { OpensAsAsked (setting_asked setting.now) setting.now drain.old drain.new result }
{
    open_at_front(setting, drain)
}

/// Opens a code at the start of an interval, after `samples` samples and `bits` bits, if the setting is legal. Returns the status number.
#[unsafe(no_mangle)]
pub extern "C" fn rice_open_at(
    setting: &RiceSetting,
    samples: u64,
    bits: u64,
    drain: &mut RiceDrain,
) -> u32
    ensures { OpensAtAsAsked (setting_asked setting.now) samples bits setting.now drain.old drain.new result }
{
    open_at(setting, samples, bits, drain)
}

/// Decodes the whole coded data sets of the piece `code`, while their samples fit, and writes these to the start of `samples`. The drain
/// counts the samples and bits decoded so far. Returns the status number.
#[unsafe(no_mangle)]
pub extern "C" fn rice_pull(
    drain: &mut RiceDrain,
    code: &[u8],
    samples: &mut [u8],
    report: &mut RiceReport,
) -> u32
    requires { IsDrain drain.old }
    ensures { PullsAsAsked (setting_asked drain.old.setting) code.now samples.old samples.new drain.old drain.new report.new result }
{
    pull::<Fast>(drain, code, samples, report)
}
