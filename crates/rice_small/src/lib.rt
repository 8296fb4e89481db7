//! The calls of `include/rice.h` for machines with little memory, by the plain engines. Each does what the same call of `rice_c` does.
#![tactic(auto)]

ghost use Rattle.std.specs.Prelude.{◌≡◌};
ghost use Rattle.rice_calls.specs.AsAsked.{BeginsAsAsked, DecodesAsAsked, EncodesAsAsked, FinishesAsAsked, IsDrain, IsFeed, OpensAsAsked, PullsAsAsked, PushesAsAsked, TellsCodeRoom, TellsWidth};
ghost use Rattle.rice_calls.specs.AskedSetting.{setting_asked};
ghost use Rattle.rice_calls.specs.Statuses.{status_number, check_of};

use rice_calls::{
    RiceDrain, RiceFeed, RiceReport, RiceSetting, begin, check, code_room, decode, encode, finish,
    open_at_front, pull, push, sample_width, version_number,
};
use rice_stream::Plain;

/// Returns the version of the library, 1.0.0, as 10,000 times its first number, plus 100 times its second, plus its third.
#[unsafe(no_mangle)]
pub extern "C" fn rice_version() -> u32
    ensures { result ≡ 10000 }
{
    version_number()
}

/// Returns the status number of this setting: that of `Status::Done` if it is legal.
#[unsafe(no_mangle)]
pub extern "C" fn rice_check(setting: &RiceSetting) -> u32
    ensures { result ≡ status_number (check_of setting.now) }
{
    check(setting)
}

/// Returns the number of bytes of a sample, 1 to 4, or 0 if the setting is not legal.
#[unsafe(no_mangle)]
pub extern "C" fn rice_sample_width(setting: &RiceSetting) -> u32
    ensures { TellsWidth (setting_asked setting.now) result }
{
    sample_width(setting)
}

/// Returns an upper bound, in bytes, of the code of `samples` samples with all padding. Returns 0 if the setting is not legal, or if
/// `samples` is above 2^48: no call encodes so many.
#[unsafe(no_mangle)]
pub extern "C" fn rice_code_room(setting: &RiceSetting, samples: u64) -> u64
    ensures { TellsCodeRoom (setting_asked setting.now) samples result }
{
    code_room(setting, samples)
}

/// Encodes the samples whose bytes are `samples`, and writes their code to the start of `code`. Returns the status number.
#[unsafe(no_mangle)]
pub extern "C" fn rice_encode(
    setting: &RiceSetting,
    samples: &[u8],
    code: &mut [u8],
    report: &mut RiceReport,
) -> u32
    ensures { EncodesAsAsked (setting_asked setting.now) samples.now code.old code.new report.new result }
{
    encode::<Plain>(setting, samples, code, report)
}

/// Decodes the first `count` samples of `code`, and writes their bytes to the start of `samples`. Returns the status number.
#[unsafe(no_mangle)]
pub extern "C" fn rice_decode(
    setting: &RiceSetting,
    count: u64,
    code: &[u8],
    samples: &mut [u8],
    report: &mut RiceReport,
) -> u32
    ensures { DecodesAsAsked (setting_asked setting.now) count code.now samples.old samples.new report.new result }
{
    decode::<Plain>(setting, count, code, samples, report)
}

/// Begins a code without samples, if the setting is legal. Returns the status number.
#[unsafe(no_mangle)]
pub extern "C" fn rice_begin(setting: &RiceSetting, feed: &mut RiceFeed) -> u32
    ensures { BeginsAsAsked (setting_asked setting.now) setting.now feed.old feed.new result }
{
    begin(setting, feed)
}

/// Encodes all whole segments at the start of `samples`, and writes the bytes that their code completes to the start of `code`. The feed
/// counts the samples taken; it changes only if all was done. Returns the status number.
#[unsafe(no_mangle)]
pub extern "C" fn rice_push(
    feed: &mut RiceFeed,
    samples: &[u8],
    code: &mut [u8],
    report: &mut RiceReport,
) -> u32
    requires { IsFeed feed.old }
    ensures { PushesAsAsked (setting_asked feed.old.setting) samples.now code.old code.new feed.old feed.new report.new result }
{
    push::<Plain>(feed, samples, code, report)
}

/// Encodes the last samples, and writes the remainder of the code to the start of `code`. The feed does not change. Returns the status
/// number.
#[unsafe(no_mangle)]
pub extern "C" fn rice_finish(
    feed: &RiceFeed,
    samples: &[u8],
    code: &mut [u8],
    report: &mut RiceReport,
) -> u32
    requires { IsFeed feed.now }
    ensures { FinishesAsAsked (setting_asked feed.now.setting) feed.now samples.now code.old code.new report.new result }
{
    finish::<Plain>(feed, samples, code, report)
}

/// Opens a code at its start, if the setting is legal. Returns the status number.
#[unsafe(no_mangle)]
pub extern "C" fn rice_open(setting: &RiceSetting, drain: &mut RiceDrain) -> u32
    ensures { OpensAsAsked (setting_asked setting.now) setting.now drain.old drain.new result }
{
    open_at_front(setting, drain)
}

/// Decodes the whole coded data sets of the piece `code`, while their samples fit, and writes these to the start of `samples`. The drain
/// counts the samples and bits decoded so far. Returns the status number.
#[unsafe(no_mangle)]
pub extern "C" fn rice_pull(
    drain: &mut RiceDrain,
    code: &[u8],
    samples: &mut [u8],
    report: &mut RiceReport,
) -> u32
    requires { IsDrain drain.old }
    ensures { PullsAsAsked (setting_asked drain.old.setting) code.now samples.old samples.new drain.old drain.new report.new result }
{
    pull::<Plain>(drain, code, samples, report)
}
