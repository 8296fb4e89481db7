//! Levels of samples from the parts of their residuals, in lanes.
ghost use Rattle.std.specs.Prelude.{◌≡◌, ◌-◌, ◌/◌, ◌^◌, ◌<◌, ◌≤◌, All, IfSome};
ghost use Rattle.rice_bits.specs.Bits.{joined_parts};
ghost use Rattle.rice_samples.specs.Parameters.{value_count};
ghost use Rattle.rice_fast.specs.LevelsOfParts.{AreLevelsOfParts};

use crate::vectors::lanes::Lanes;
use crate::vectors::restoring::near::{excess_over_near, near_numbers};
use rice_samples::Setting;

/// Joins high parts and low parts of `width` digits, if the results fit.
#[inline(always)]
pub fn join_parts<L: Lanes>(highs: L, lows: L, width: u32) -> L
    requires width { width < L.bits }
    requires lows { All (λ v. v < 2 ^ width) (L.numbers lows) }
    ensures { All (λ m. m ≤ (2 ^ L.bits - 1) / 2 ^ width) (L.numbers highs) →
        L.numbers result ≡ joined_parts width (L.numbers highs) (L.numbers lows) }
{
    highs.times_power_of_two(width).plus(lows)
}

/// Returns the levels of the samples whose residuals have these high parts and low parts of `width` bits. The first is after a sample at
/// level `before`, each other after the one before it. May return `None` if not all are near.
#[inline(always)]
pub fn near_levels_of_parts<L: Lanes>(
    setting: &Setting,
    before: u32,
    highs: L,
    lows: L,
    width: u32,
) -> Option<L>
    requires narrow { setting.now.bits ≤ L.bits }
    requires before { before < value_count setting.now }
    requires width { width < L.bits }
    requires lows { All (λ v. v < 2 ^ width) (L.numbers lows) }
    ensures { IfSome result (λ l.
        AreLevelsOfParts setting.now before width (L.numbers highs) (L.numbers lows) (L.numbers l)) }
{
    let greatest = (setting.number_of_values() - 1) as u32;
    let ranks = join_parts(highs, lows, width);
    let levels = near_numbers(before, ranks);
    let far = excess_over_near(greatest, before, ranks, levels);
    // With a greater high part a residual would not fit its lane. What is above in any lane is seen by one test.
    let over = highs.above(L::splat(L::MOST >> width));
    if !far.or(over).is_zero() {
        return None;
    }
    Some(levels)
}
