//! The cost of a block by each option, in bits, without its head: the identifier and the reference, equally long by each option.
ghost use Rattle.std.specs.Prelude.{◌≡◌, All, ◌+◌, ◌/◌, ◌^◌, ◌<◌, ◌≤◌, length, sum_by};
ghost use Rattle.rice_samples.specs.Parameters.{k_max};
ghost use Rattle.rice_code.specs.code.CodedDataSets.{NoCompression, SecondExtension, Split, sent_residuals, cost};
ghost use Rattle.rice_code.specs.{code.SoundBlocks.IsSoundData, encode.SetOfChoice.head_len};

use crate::encode::pairs::pairs_bits;
use rice_code::encode::held_block::HeldBlock;
use rice_samples::Setting;

/// Returns the cost of the block by no compression, without its head.
#[inline(always)]
pub fn no_compression_cost(setting: &Setting, block: &HeldBlock<'_>) -> u64
    requires { IsSoundData setting.now block.now }
    ensures value { result + head_len setting.now block.now ≡
        cost setting.now (NoCompression block.now) }
    ensures limit { result ≤ 2048 }
{
    let bits = setting.bits();
    (coded_len(setting, block) * bits) as u64
}

/// Returns the cost of the block by second extension, without its head, if its residuals are below 2^12.
#[inline(always)]
pub fn second_extension_cost(setting: &Setting, block: &HeldBlock<'_>) -> u64
    requires sound { IsSoundData setting.now block.now }
    requires small { All (λ d. d < 2 ^ 12) block.now.residuals }
    ensures { result + head_len setting.now block.now ≡
        cost setting.now (SecondExtension block.now) }
{
    1 + pairs_bits(block.residuals().items())
}

/// Returns the number of residuals that a split sends: all but the one at the reference place.
#[inline(always)]
pub fn coded_len(setting: &Setting, block: &HeldBlock<'_>) -> u32
    requires { IsSoundData setting.now block.now }
    ensures value { result ≡ length (sent_residuals block.now) }
    ensures limit { result ≤ 64 }
{
    // The compiler may know the length of the block, and not that of the setting's blocks.
    let len = block.residuals().len() as u32;
    match block.reference() {
        Some(_) => len - 1,
        None => len,
    }
}

/// Returns the cost of the block by split `k`, without its head. `sum` is that of the residuals without their `k` lowest digits.
#[inline(always)]
pub fn split_cost(setting: &Setting, block: &HeldBlock<'_>, k: u32, sum: u64) -> u64
    requires split { k ≤ k_max setting.now }
    requires sound { IsSoundData setting.now block.now }
    requires sum { sum ≡ sum_by (λ d. d / 2 ^ k) block.now.residuals }
    requires few { sum ≤ 2 ^ 38 }
    ensures value { result + head_len setting.now block.now ≡ cost setting.now (Split k block.now) }
    ensures limit { result < 2 ^ 40 }
{
    let limit = setting.k_max();
    prove!(k <= limit);
    let digits = coded_len(setting, block) * (k + 1);
    digits as u64 + sum
}
