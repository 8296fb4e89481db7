//! Sets the unused bits of samples.
ghost use Rattle.std.specs.Prelude.{◌≡◌, length};
ghost use Rattle.rice_samples.specs.{UnusedBits.SpellsOne, UnusedBits.SpellsPatterns, Parameters.width};

use crate::Setting;
use crate::bytes::spelling::bytes_of;
use crate::patterns::number_of_bytes;
use crate::predict::preprocessor::from_pattern;
use rice_bits::low_digits;

/// Sets the unused high bits of samples of `width()` bytes each to 0 or, if samples are signed, to the sign. The lowest `bits()` bits stay,
/// and so do bytes at the end that are too few for a sample.
pub fn set_unused_bits(setting: &Setting, bytes: &mut [u8])
    ensures { SpellsPatterns setting.now bytes.old bytes.new }
{
    let width = setting.width() as usize;
    for i in 0..bytes.len() / width {
        set_unused_bits_of_one(setting, &mut bytes[width * i..width * i + width]);
    }
}

/// Gives the unused high bits of one sample what `set_unused_bits` gives them.
fn set_unused_bits_of_one(setting: &Setting, bytes: &mut [u8])
    requires { length bytes.old ≡ width setting.now }
    ensures { SpellsOne setting.now bytes.old bytes.new }
{
    let word = number_of_bytes(bytes, setting.msb());
    let sample = from_pattern(setting, low_digits(word, setting.bits()) as u32);
    bytes.copy_from_slice(bytes_of(setting, sample).as_slice());
}
