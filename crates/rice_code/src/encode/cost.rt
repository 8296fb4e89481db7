//! The cost of a block by each option, in bits.
ghost use Rattle.std.specs.Prelude.{◌≡◌, ◌+◌, ◌^◌, ◌<◌, ◌≤◌, length};
ghost use Rattle.rice_bits.specs.Limits.{step_limit};
ghost use Rattle.rice_samples.specs.Parameters.{k_max};
ghost use Rattle.rice_code.specs.code.CodedDataSets.{NoCompression, SecondExtension, Split, cost, reference_len as len_of_reference};
ghost use Rattle.rice_code.specs.code.SoundBlocks.{IsSoundData};

use crate::encode::held_block::HeldBlock;
use rice_bits::Meter;
use rice_samples::Setting;

/// Returns the number of bits of the reference sample, if there is one.
fn reference_len(setting: &Setting, reference: Option<u32>) -> u64
    ensures value { result ≡ len_of_reference setting.now reference }
    ensures limit { result ≤ 32 }
{
    match reference {
        Some(_) => setting.bits() as u64,
        None => 0,
    }
}

/// Returns the cost of the block by no compression.
pub fn no_compression_cost(setting: &Setting, block: &HeldBlock<'_>) -> u64
    requires { IsSoundData setting.now block.now }
    ensures value { result ≡ cost setting.now (NoCompression block.now) }
    ensures limit { result ≤ 2053 }
{
    setting.id_len() as u64 + (setting.block() * setting.bits()) as u64
}

/// Returns the cost of the block by second extension.
pub fn second_extension_cost(setting: &Setting, block: &HeldBlock<'_>, meter: &mut Meter) -> u128
    requires sound { IsSoundData setting.now block.now }
    requires meter { meter.old + length block.now.residuals < step_limit }
    ensures value { result ≡ cost setting.now (SecondExtension block.now) }
    ensures steps { meter.new ≡ meter.old + setting.now.block }
{
    let _block = setting.block();
    let head = setting.id_len() as u64 + 1 + reference_len(setting, block.reference());
    head as u128 + block.residuals().pair_sum(meter)
}

/// Returns the cost of the block by split `k`.
pub fn split_cost(setting: &Setting, block: &HeldBlock<'_>, k: u32, meter: &mut Meter) -> u64
    requires split { k ≤ k_max setting.now }
    requires sound { IsSoundData setting.now block.now }
    requires meter { meter.old + length block.now.residuals < step_limit }
    ensures value { result ≡ cost setting.now (Split k block.now) }
    ensures limit { result < 2 ^ 40 }
    ensures steps { meter.new ≡ meter.old + setting.now.block }
{
    let reference = block.reference();
    let coded = match reference {
        Some(_) => setting.block() - 1,
        None => setting.block(),
    };
    let limit = setting.k_max();
    prove!(k <= limit);
    let head = setting.id_len() as u64
        + reference_len(setting, reference)
        + (coded * (k + 1)) as u64;
    head + block.residuals().sum_shifted(k, meter)
}
