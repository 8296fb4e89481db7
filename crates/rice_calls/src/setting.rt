//! The setting as C passes it, and the values that depend on it alone.
ghost use Rattle.std.specs.Prelude.{◌≡◌};
ghost use Rattle.rice_calls.specs.{AsAsked.TellsCodeRoom, AsAsked.TellsSetRoom, AsAsked.TellsStepBound, AsAsked.TellsWidth, AskedSetting.setting_asked, Statuses.status_number, Statuses.check_of};

use crate::status::{Status, refusal_status};
use rice_code::{padded_bound, set_bound};
use rice_samples::{Setting, SettingFault};

/// The setting of a coder and a decoder, in C's layout. It may hold any numbers.
#[repr(C)]
#[derive(Clone, Copy)]
pub struct RiceSetting {
    /// The bits of a sample, 1 to 32.
    pub bits: u32,
    /// The samples of a block: 8, 16, 32 or 64, or with `any_block` an even number from 2 to 64.
    pub block: u32,
    /// The blocks of a reference interval, 1 to 4,096.
    pub interval: u32,
    /// Whether samples are signed.
    pub is_signed: bool,
    /// Whether the most significant byte of a sample comes first.
    pub msb: bool,
    /// Whether samples of 17 to 24 bits take three bytes in place of four.
    pub three: bool,
    /// Whether samples are predicted, and their residuals coded.
    pub preprocess: bool,
    /// Whether the code of each interval is filled to a byte.
    pub pad: bool,
    /// Whether a block may have any even number of samples from 2 to 64.
    pub any_block: bool,
}

impl RiceSetting {
    ghost use Rattle.std.specs.Prelude.{IfOk};
    ghost use Rattle.rice_samples.specs.Parameters.{IsLegal};
    ghost use Rattle.rice_calls.specs.AskedSetting.{setting_asked};

    /// Returns the requested setting, or why it is refused.
    pub fn legal(&self) -> Result<Setting, SettingFault>
        ensures answer { result ≡ setting_asked self.now }
        ensures legal { IfOk result IsLegal }
    {
        if self.any_block {
            return Setting::with_any_block(
                self.bits,
                self.block,
                self.interval,
                self.is_signed,
                self.msb,
                self.three,
                self.preprocess,
                self.pad,
            );
        }
        Setting::new(
            self.bits,
            self.block,
            self.interval,
            self.is_signed,
            self.msb,
            self.three,
            self.preprocess,
            self.pad,
        )
    }
}

/// Returns the status number of this setting: that of `Status::Done` if it is legal.
pub fn check(setting: &RiceSetting) -> u32
    ensures { result ≡ status_number (check_of setting.now) }
{
    match setting.legal() {
        Ok(_) => Status::Done.number(),
        Err(fault) => refusal_status(fault).number(),
    }
}

/// Returns the number of bytes of a sample, 1 to 4, or 0 if the setting is not legal.
pub fn sample_width(setting: &RiceSetting) -> u32
    ensures { TellsWidth (setting_asked setting.now) result }
{
    match setting.legal() {
        Ok(setting) => setting.width(),
        Err(_) => 0,
    }
}

/// Returns an upper bound, in bytes, of the code of `samples` samples with all padding. Returns 0 if the setting is not legal, or if
/// `samples` is above 2^48: no call encodes so many.
pub fn code_room(setting: &RiceSetting, samples: u64) -> u64
    ensures { TellsCodeRoom (setting_asked setting.now) samples result }
{
    if samples > 1 << 48 {
        return 0;
    }
    match setting.legal() {
        Ok(setting) => padded_bound(&setting, samples).div_ceil(8),
        Err(_) => 0,
    }
}

/// Returns a number of bytes that hold any coded data set of this library and the padding after it, at whichever bit of a byte it begins.
/// Returns 0 if the setting is not legal.
pub fn set_room(setting: &RiceSetting) -> u32
    ensures { TellsSetRoom (setting_asked setting.now) result }
{
    match setting.legal() {
        Ok(setting) => (7 + set_bound(&setting) + 7).div_ceil(8),
        Err(_) => 0,
    }
}

/// Returns an upper bound of the steps of encoding `samples` samples. Returns 0 if the setting is not legal, or if `samples` is above 2^48:
/// no call encodes so many.
pub fn step_bound(setting: &RiceSetting, samples: u64) -> u64
    ensures { TellsStepBound (setting_asked setting.now) samples result }
{
    if samples > 1 << 48 {
        return 0;
    }
    match setting.legal() {
        Ok(setting) => rice_code::step_bound(&setting, samples),
        Err(_) => 0,
    }
}
