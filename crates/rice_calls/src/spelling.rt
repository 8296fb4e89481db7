//! Sets the unused bits of a caller's samples as the setting requires.
ghost use Rattle.rice_calls.specs.{AsAsked.SpellsAsAsked, AskedSetting.setting_asked};

use crate::setting::RiceSetting;
use crate::status::{Status, refusal_status};
use rice_samples::set_unused_bits;

/// Sets the unused high bits of each sample to 0 or, if samples are signed, to its sign. Returns the status number.
pub fn spell(setting: &RiceSetting, samples: &mut [u8]) -> u32
    ensures { SpellsAsAsked (setting_asked setting.now) samples.old samples.new result }
{
    match setting.legal() {
        Ok(setting) => {
            set_unused_bits(&setting, samples);
            Status::Done.number()
        }
        Err(fault) => refusal_status(fault).number(),
    }
}
