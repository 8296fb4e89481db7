//! Writes the bytes of several samples.
ghost use Rattle.std.specs.Prelude.{◌≡◌, ◌*◌, ◌<◌, All, length};
ghost use Rattle.rice_samples.specs.{Parameters.value_count, Parameters.values_at, Parameters.width as width_of, Spelling.spellings};

use crate::Setting;
use crate::patterns::store_word;
use rice_bits::low_digits;

/// Writes the bytes of the samples with these levels, `width()` bytes each.
pub fn write_spellings(setting: &Setting, levels: &[u32], bytes: &mut [u8])
    requires legal { All (λ l. l < value_count setting.now) levels.now }
    requires len { length bytes.old ≡ width_of setting.now * length levels.now }
    ensures { bytes.new ≡ spellings setting.now (values_at setting.now levels.now) }
{
    let width = setting.width() as usize;
    let msb = setting.msb();
    let offset = setting.offset() as u32;
    for i in 0..levels.len() {
        let word = low_digits(levels[i].wrapping_sub(offset), 8 * width as u32) as u32;
        store_word(word, msb, &mut bytes[width * i..width * i + width]);
    }
}
