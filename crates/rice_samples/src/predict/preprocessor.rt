//! Residuals of samples, each predicted by the sample before, and samples from residuals.
ghost use Rattle.std.specs.Prelude.{◌≡◌, ◌+◌, ◌^◌, ◌<◌, ◌≤◌, ℤ};
ghost use Rattle.rice_samples.specs.{Residuals.pattern as pattern_of, Residuals.rank, Residuals.rank_below, Parameters.IsSample, Parameters.value_at, Parameters.value_count};
ghost use Rattle.rice_samples.specs.NearNumbers.{way as way_of};

use crate::Setting;
use crate::patterns::{digits_of, value_of_digits};

/// Returns the residual of the sample `x` after the sample `p`, below 2^n (CCSDS 121.0-B-3, section 4, prediction error mapper).
///
/// Let the reach be the distance from `p` to the nearer end of the range of samples. Up to the reach, the residual is twice the distance,
/// less one for a smaller sample. Beyond it, it is the distance plus the reach.
#[inline]
pub fn residual(setting: &Setting, p: i64, x: i64) -> u32
    requires before { IsSample setting.now p }
    requires sample { IsSample setting.now x }
    ensures rank { result ≡ rank setting.now p x }
    ensures fits { result < value_count setting.now }
{
    rank_of(
        (setting.number_of_values() - 1) as u32,
        setting.level(p) as u32,
        setting.level(x) as u32,
    )
}

/// Returns the sample whose residual after the sample `p` is `d`.
#[inline]
pub fn restore(setting: &Setting, p: i64, d: u32) -> i64
    requires before { IsSample setting.now p }
    requires residual { d < value_count setting.now }
    ensures sample { IsSample setting.now result }
    ensures rank { rank setting.now p result ≡ d }
    ensures only { (x : ℤ) → IsSample setting.now x → rank setting.now p x ≡ d → result ≡ x }
{
    let greatest = (setting.number_of_values() - 1) as u32;
    let level = number_with(greatest, setting.level(p) as u32, d);
    setting.value_at(level as u64)
}

/// Returns the n-bit pattern of the sample `x`: two's complement if samples are signed.
#[inline]
pub fn pattern(setting: &Setting, x: i64) -> u32
    requires { IsSample setting.now x }
    ensures value { result ≡ pattern_of setting.now x }
    ensures fits { result < value_count setting.now }
{
    digits_of(x, setting.bits())
}

/// Returns the sample with the n-bit pattern `v`.
#[inline]
pub fn from_pattern(setting: &Setting, v: u32) -> i64
    requires { v < value_count setting.now }
    ensures sample { IsSample setting.now result }
    ensures pattern { pattern_of setting.now result ≡ v }
    ensures only { (x : ℤ) → IsSample setting.now x → pattern_of setting.now x ≡ v → result ≡ x }
{
    value_of_digits(v, setting.bits(), setting.signed())
}

/// Returns the rank of `x` from `p` among the numbers up to `greatest`, by folding.
#[inline]
pub(crate) fn rank_of(greatest: u32, p: u32, x: u32) -> u32
    requires before { p ≤ greatest }
    requires sample { x ≤ greatest }
    ensures rank { result ≡ rank_below (greatest + 1) p x }
    ensures fits { result ≤ greatest }
{
    let reach = p.min(greatest - p);
    let distance = p.max(x) - p.min(x);
    let nearer = distance - (x < p) as u32;
    distance + nearer.min(reach)
}

/// Returns the number up to `greatest` with rank `d` from `p`.
#[inline]
pub(crate) fn number_with(greatest: u32, p: u32, d: u32) -> u32
    requires before { p ≤ greatest }
    requires residual { d ≤ greatest }
    ensures fits { result ≤ greatest }
    ensures rank { rank_below (greatest + 1) p result ≡ d }
{
    let twice = 2 * p as u64;
    if twice < d as u64 {
        return d;
    }
    let high = greatest - d;
    if greatest as u64 + (high as u64) < twice {
        return high;
    }
    p.wrapping_add(way(d))
}

/// Returns the way to the number with rank `d`, if it is near. The way wraps.
#[inline]
fn way(d: u32) -> u32
    ensures { result ≡ way_of (2 ^ 32) d }
{
    (d >> 1) ^ 0u32.wrapping_sub(d & 1)
}

/// Returns the level of the sample with the n-bit pattern `v`.
#[inline(always)]
pub fn level_of_pattern(setting: &Setting, v: u32) -> u32
    requires { v < value_count setting.now }
    ensures below { result < value_count setting.now }
    ensures pattern { pattern_of setting.now (value_at setting.now result) ≡ v }
{
    let greatest = (setting.number_of_values() - 1) as u32;
    v.wrapping_add(setting.offset() as u32) & greatest
}
