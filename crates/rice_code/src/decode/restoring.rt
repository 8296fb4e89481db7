//! Restores the samples of a block.
ghost use Rattle.std.specs.Prelude.{◌≡◌, ◌<◌, ◌&&◌, true, false, [], length, All, IfNone, IfSome, is_some};
ghost use Rattle.rice_samples.specs.{Residuals.pattern, Residuals.last_of, Parameters.IsSample, Parameters.value_count};
ghost use Rattle.rice_code.specs.{code.Forms.IsReference, code.Forms.IsBlock, code.Forms.IsZeroAtReference, code.Forms.AllFit, Decoder.RestoresBlock, Decoder.residual_at};
ghost use Rattle.rice_code.specs.code.{SoundBlocks.IsSoundBlock, SoundBlocks.block_with, Blocks.block_data, Blocks.zero_block};

use crate::decode::options::BlockSummary;
use arrayvec::ArrayVec;
use rice_samples::{Setting, from_pattern, restore};

/// Returns the sample with the residual `d` after the sample `p`, or the reference sample where it is the `first` of a block that
/// has one.
fn sample_of_residual(setting: &Setting, reference: Option<u32>, first: bool, p: i64, d: u32) -> i64
    requires before { IsSample setting.now p }
    requires residual { d < value_count setting.now }
    requires fits { IfSome reference (λ v. v < value_count setting.now) }
    requires zero { (first && is_some reference) ≡ true → d ≡ 0 }
    requires preprocess { is_some reference ≡ true → setting.now.preprocess ≡ true }
    ensures sample { IsSample setting.now result }
    ensures residual { residual_at setting.now reference first p result ≡ d }
    ensures reference { first ≡ true → IfSome reference (λ v. pattern setting.now result ≡ v) }
{
    if first {
        if let Some(value) = reference {
            return from_pattern(setting, value);
        }
    }
    if setting.preprocess() {
        restore(setting, p, d)
    } else {
        from_pattern(setting, d)
    }
}

/// Restores the samples of the block with this reference sample and these residuals, after the sample `p`. Returns the last of them.
fn restore_block(
    setting: &Setting,
    block: u64,
    p: i64,
    reference: Option<u32>,
    residuals: &[u32],
    samples: &mut ArrayVec<i64, 64>,
) -> i64
    requires before { IsSample setting.now p }
    requires form { IsBlock setting.now block (block_with reference residuals.now) }
    requires zero { IsZeroAtReference (block_with reference residuals.now) }
    requires fit { AllFit setting.now (block_with reference residuals.now) }
    ensures len { length samples.new.items ≡ setting.now.block }
    ensures legal { All (IsSample setting.now) samples.new.items }
    ensures contents { block_data setting.now block p samples.new.items ≡
        block_with reference residuals.now }
    ensures last { result ≡ last_of p samples.new.items }
    ensures sample { IsSample setting.now result }
{
    samples.clear();
    let mut last = p;
    for i in 0..setting.block() as usize {
        last = sample_of_residual(setting, reference, i == 0, last, residuals[i]);
        samples.push(last);
    }
    last
}

/// Restores the samples of a block as `restore_block` does, and returns the last of them. If the residuals are not sound, returns `None`,
/// and gives no samples.
pub fn restore_if_sound(
    setting: &Setting,
    block: u64,
    p: i64,
    head: BlockSummary,
    residuals: &[u32],
    samples: &mut ArrayVec<i64, 64>,
) -> Option<i64>
    requires before { IsSample setting.now p }
    requires sound { head.sound ≡ true → IsSoundBlock setting.now block (block_with head.reference residuals.now) }
    requires empty { samples.old.items ≡ [] }
    ensures some { IfSome result (λ last. (head.sound ≡ true) ×
        RestoresBlock setting.now block p (block_with head.reference residuals.now) samples.new.items last) }
    ensures none { IfNone result ((head.sound ≡ false) × (samples.new.items ≡ [])) }
{
    if !head.sound {
        return None;
    }
    Some(restore_block(setting, block, p, head.reference, residuals, samples))
}

/// Restores the samples of a zero block after the sample `p`: each is the reference sample, or else `p`, or without prediction 0. Returns
/// the last of them.
pub fn restore_zero_block(
    setting: &Setting,
    block: u64,
    p: i64,
    reference: Option<u32>,
    samples: &mut ArrayVec<i64, 64>,
) -> i64
    requires before { IsSample setting.now p }
    requires reference { IsReference setting.now block reference }
    ensures len { length samples.new.items ≡ setting.now.block }
    ensures legal { All (IsSample setting.now) samples.new.items }
    ensures contents { block_data setting.now block p samples.new.items ≡
        zero_block setting.now reference }
    ensures last { result ≡ last_of p samples.new.items }
    ensures sample { IsSample setting.now result }
{
    let first = sample_of_residual(setting, reference, true, p, 0);
    samples.clear();
    for _ in 0..setting.block() {
        samples.push(first);
    }
    first
}
