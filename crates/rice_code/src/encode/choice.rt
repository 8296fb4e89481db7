//! The search for the option that codes a block in the fewest bits.
ghost use Rattle.std.specs.Prelude.{◌≡◌, ◌+◌, ◌*◌, ◌<◌, ◌≤◌, min};
ghost use Rattle.rice_bits.specs.Limits.{step_limit};
ghost use Rattle.rice_samples.specs.Parameters.{k_max};
ghost use Rattle.rice_code.specs.{code.CodedDataSets.SecondExtension, code.CodedDataSets.Split, code.CodedDataSets.cost, code.SoundBlocks.IsSoundData, encode.SetOfChoice.chosen_set, encode.SetOfChoice.IsSplitWithin};
ghost use Rattle.rice_code.specs.code.Choice.{shortest, IsBestSplit, best_split};

use crate::encode::cost::{no_compression_cost, second_extension_cost, split_cost};
use crate::encode::held_block::HeldBlock;
use rice_bits::Meter;
use rice_samples::Setting;

/// The option by which a block is coded.
#[derive(Clone, Copy)]
pub enum Choice {
    NoCompression,
    SecondExtension,
    Split(u32),
}

/// Returns the smallest `k` of minimal cost, and that cost. It looks at split 0, 1, .. and stops after the first `k + 1` that is no
/// shorter.
fn best_split(setting: &Setting, block: &HeldBlock<'_>, meter: &mut Meter) -> (u32, u64)
    requires sound { IsSoundData setting.now block.now }
    requires meter { meter.old + setting.now.block * (k_max setting.now + 1) < step_limit }
    ensures best { IsBestSplit setting.now block.now result.0 }
    ensures named { best_split setting.now block.now ≡ result.0 }
    ensures value { result.1 ≡ cost setting.now (Split result.0 block.now) }
    ensures steps { meter.new ≡ meter.old +
        setting.now.block * (min (result.0 + 1) (k_max setting.now) + 1) }
{
    let limit = setting.k_max();
    let mut best = 0;
    let mut least = split_cost(setting, block, 0, meter);
    while best < limit {
        let next = split_cost(setting, block, best + 1, meter);
        if next >= least {
            return (best, least);
        }
        best += 1;
        least = next;
    }
    (best, least)
}

/// Returns the option of minimal cost. Of several, it prefers no compression, then second extension, then the smallest split.
pub fn choose(setting: &Setting, block: &HeldBlock<'_>, meter: &mut Meter) -> Choice
    requires sound { IsSoundData setting.now block.now }
    requires meter { meter.old + setting.now.block * (k_max setting.now + 2) < step_limit }
    ensures value { chosen_set result block.now ≡ shortest setting.now block.now }
    ensures steps_from { meter.old + setting.now.block * (best_split setting.now block.now + 2) ≤
        meter.new }
    ensures steps_to { meter.new ≤ meter.old +
        setting.now.block * (best_split setting.now block.now + 3) }
    ensures steps_limit { meter.new ≤ meter.old + setting.now.block * (k_max setting.now + 2) }
    ensures split { IsSplitWithin (k_max setting.now) result }
{
    let _block = setting.block();
    let (k, split) = best_split(setting, block, meter);
    // Residuals that are worth a split are so large that second extension is longer.
    let second_extension = if 0 < k && k < setting.k_max() {
        split as u128 + 1
    } else {
        second_extension_cost(setting, block, meter)
    };
    shortest_of(setting, block, k, split as u128, second_extension)
}

/// Returns the option of minimal cost: `k` is the best split, and these are its cost and that of second extension, or less if the split
/// is shorter.
fn shortest_of(
    setting: &Setting,
    block: &HeldBlock<'_>,
    k: u32,
    split: u128,
    second_extension: u128,
) -> Choice
    requires sound { IsSoundData setting.now block.now }
    requires best { IsBestSplit setting.now block.now k }
    requires split { split ≡ cost setting.now (Split k block.now) }
    requires second_extension_from { second_extension ≤ cost setting.now (SecondExtension block.now) }
    requires second_extension_is { second_extension ≤ split →
        second_extension ≡ cost setting.now (SecondExtension block.now) }
    ensures value { chosen_set result block.now ≡ shortest setting.now block.now }
    ensures split { IsSplitWithin (k_max setting.now) result }
{
    let no_compression = no_compression_cost(setting, block) as u128;
    if second_extension < no_compression {
        if split < second_extension {
            Choice::Split(k)
        } else {
            Choice::SecondExtension
        }
    } else if split < no_compression {
        Choice::Split(k)
    } else {
        Choice::NoCompression
    }
}
