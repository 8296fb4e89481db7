//! The unique bytes of each sample.
ghost use Rattle.std.specs.Prelude.{◌≡◌, ◌≢◌, ◌≤◌, length, ℤ, IfNone, IfSome};
ghost use Rattle.rice_samples.specs.{Parameters.IsSample, Parameters.level as level_of, Parameters.value_count, Parameters.width, Spelling.spelling};

use crate::Setting;
use crate::patterns::{bytes_with, digits_of, number_of_bytes};
use arrayvec::ArrayVec;

/// Returns the sample with these `width()` bytes. Returns `None` if there is none: the unused high bits are not 0 or, if samples are
/// signed, not the sign (own rule).
#[inline]
pub fn sample_of(setting: &Setting, bytes: &[u8]) -> Option<i64>
    requires { length bytes.now ≡ width setting.now }
    ensures none { IfNone result ((x : ℤ) → IsSample setting.now x →
        bytes.now ≢ spelling setting.now x) }
    ensures value { IfSome result (λ x. IsSample setting.now x ×
        (bytes.now ≡ spelling setting.now x)) }
{
    let word = number_of_bytes(bytes, setting.msb());
    sample_at(
        setting,
        (word as u64 + setting.offset()) % (1 << (8 * setting.width())),
    )
}

/// Returns the sample of this level, or `None` if no sample has it.
#[inline]
fn sample_at(setting: &Setting, level: u64) -> Option<i64>
    ensures none { IfNone result (value_count setting.now ≤ level) }
    ensures value { IfSome result (λ x. IsSample setting.now x × (level_of setting.now x ≡ level)) }
{
    if level < setting.number_of_values() {
        Some(setting.value_at(level))
    } else {
        None
    }
}

/// Returns the `width()` bytes of a sample.
#[inline]
pub fn bytes_of(setting: &Setting, x: i64) -> ArrayVec<u8, 4>
    requires { IsSample setting.now x }
    ensures value { result.items ≡ spelling setting.now x }
    ensures len { length result.items ≡ width setting.now }
{
    let width = setting.width();
    bytes_with(digits_of(x, 8 * width), width, setting.msb())
}
