//! The search for the option that codes a block in the fewest bits.
ghost use Rattle.std.specs.Prelude.{◌≡◌, ℕ, List, All, true, ◌+◌, ◌*◌, ◌/◌, ◌^◌, ◌<◌, ◌≤◌, length, map, sum_by};
ghost use Rattle.rice_bits.specs.Limits.{step_limit};
ghost use Rattle.rice_samples.specs.Parameters.{k_max};
ghost use Rattle.rice_code.specs.code.CodedDataSets.{NoCompression, SecondExtension, Split, cost};
ghost use Rattle.rice_code.specs.encode.SetOfChoice.{chosen_set, head_len, IsSplitWithin};
ghost use Rattle.rice_code.specs.{code.Choice.shortest, code.Choice.IsBestSplit, code.Choice.best_split, code.SoundBlocks.IsSoundData};
ghost use Rattle.rice_fast.specs.Parts.{with_zeros, IsHighOfChoice};

use crate::encode::cost::{coded_len, no_compression_cost, second_extension_cost, split_cost};
use crate::encode::stops::{digits_above, first_stop};
use rice_bits::Meter;
use rice_code::encode::choice::Choice;
use rice_code::encode::held_block::HeldBlock;
use rice_samples::Setting;

/// Returns the smallest `k` of minimal cost, that cost without the head, and the residuals without their `k` lowest digits.
#[inline(always)]
fn best_split<const SIZE: usize, const REFERENCE: bool>(
    setting: &Setting,
    block: &HeldBlock<'_>,
    whole: u64,
) -> (u32, u64, [u8; 64])
    requires sound { IsSoundData setting.now block.now }
    requires long { 8 ≤ length block.now.residuals }
    requires whole { whole ≡ sum_by (λ d. d / 2 ^ 0) block.now.residuals }
    requires whole_fits { whole ≤ 2 ^ 38 }
    ensures best { IsBestSplit setting.now block.now result.0 }
    ensures named { best_split setting.now block.now ≡ result.0 }
    ensures value { result.1 + head_len setting.now block.now ≡
        cost setting.now (Split result.0 block.now) }
    ensures limit { result.1 < 2 ^ 40 }
    ensures high { result.2 ≡ with_zeros (map (λ d. d / 2 ^ result.0) block.now.residuals) }
    ensures small { result.0 ≡ 0 → All (λ d. d < 2 ^ 12) block.now.residuals }
{
    let _size = setting.block();
    let limit = setting.k_max();
    let coded = coded_len(setting, block);
    let stop = first_stop::<SIZE, REFERENCE>(block.residuals().items(), whole, limit, coded);
    let cost = split_cost(setting, block, stop.k, stop.sum as u64);
    let high = stop.high;
    (stop.k, cost, high)
}

/// Returns true only if the residuals are so large that the last split is the best one, and no compression is not longer.
#[inline(always)]
fn are_large(setting: &Setting, block: &HeldBlock<'_>, whole: u64) -> bool
    requires sound { IsSoundData setting.now block.now }
    requires whole { whole ≡ sum_by (λ d. d / 2 ^ 0) block.now.residuals }
    requires whole_fits { whole ≤ 2 ^ 38 }
    ensures best { result ≡ true → IsBestSplit setting.now block.now (k_max setting.now) }
    ensures costs { result ≡ true → cost setting.now (NoCompression block.now) ≤
        cost setting.now (Split (k_max setting.now) block.now) }
{
    let _bits = setting.bits();
    let limit = setting.k_max();
    let size = block.residuals().len() as u32;
    let coded = coded_len(setting, block);
    let digits = digits_above(whole, size + 2 * coded);
    if digits <= limit {
        return false;
    }
    true
}

/// Returns the option of minimal cost, and for a split the residuals without the digits split off. `whole` is the sum of the residuals.
///
/// It ticks the looks of the plain search.
#[inline(always)]
pub fn choose<const SIZE: usize, const REFERENCE: bool>(
    setting: &Setting,
    block: &HeldBlock<'_>,
    whole: u64,
    meter: &mut Meter,
) -> (Choice, [u8; 64])
    requires sound { IsSoundData setting.now block.now }
    requires long { 8 ≤ length block.now.residuals }
    requires whole { whole ≡ sum_by (λ d. d / 2 ^ 0) block.now.residuals }
    requires whole_fits { whole ≤ 2 ^ 38 }
    requires meter { meter.old + setting.now.block * (k_max setting.now + 2) < step_limit }
    ensures value { chosen_set result.0 block.now ≡ shortest setting.now block.now }
    ensures high { IsHighOfChoice result.0 block.now.residuals result.1 }
    ensures steps_from { meter.old + setting.now.block * (best_split setting.now block.now + 2) ≤
        meter.new }
    ensures steps_to { meter.new ≤ meter.old +
        setting.now.block * (best_split setting.now block.now + 3) }
    ensures steps_limit { meter.new ≤ meter.old + setting.now.block * (k_max setting.now + 2) }
    ensures split { IsSplitWithin (k_max setting.now) result.0 }
{
    let _block = setting.block();
    let size = block.residuals().len() as u64;
    if are_large(setting, block, whole) {
        meter.tick(size * (setting.k_max() + 2) as u64);
        return (Choice::NoCompression, [0; 64]);
    }
    let (k, split, high) = best_split::<SIZE, REFERENCE>(setting, block, whole);
    // Residuals that are worth a split are so large that second extension is longer.
    let (second_extension, looks) = if k == 0 {
        (second_extension_cost(setting, block), 3)
    } else {
        (split + 1, k + 2)
    };
    meter.tick(size * looks as u64);
    let no_compression = no_compression_cost(setting, block);
    let choice = shortest_of(setting, block, k, split, second_extension, no_compression);
    (choice, high)
}

/// Returns the option of minimal cost: `k` is the best split, and these are its cost, that of second extension, or less if the split is
/// shorter, and that of no compression, without the head.
#[inline(always)]
fn shortest_of(
    setting: &Setting,
    block: &HeldBlock<'_>,
    k: u32,
    split: u64,
    second_extension: u64,
    no_compression: u64,
) -> Choice
    requires best { IsBestSplit setting.now block.now k }
    requires split { split + head_len setting.now block.now ≡ cost setting.now (Split k block.now) }
    requires second_extension_from { second_extension + head_len setting.now block.now ≤
        cost setting.now (SecondExtension block.now) }
    requires second_extension_is { second_extension ≤ split →
        second_extension + head_len setting.now block.now ≡ cost setting.now (SecondExtension block.now) }
    requires no_compression { no_compression + head_len setting.now block.now ≡
        cost setting.now (NoCompression block.now) }
    ensures value { chosen_set result block.now ≡ shortest setting.now block.now }
    ensures high { (high : List ℕ) → high ≡ with_zeros (map (λ d. d / 2 ^ k) block.now.residuals) →
        IsHighOfChoice result block.now.residuals high }
    ensures split { IsSplitWithin (k_max setting.now) result }
{
    let _setting = setting;
    let _block = block;
    if second_extension < no_compression {
        if split < second_extension {
            Choice::Split(k)
        } else {
            Choice::SecondExtension
        }
    } else if split < no_compression {
        Choice::Split(k)
    } else {
        Choice::NoCompression
    }
}
