//! Upper bounds of the bits and steps of coding.
ghost use Rattle.std.specs.Prelude.{◌≡◌, ◌^◌, ◌≤◌};
ghost use Rattle.rice_samples.specs.Limits.{most_input};
ghost use Rattle.rice_samples.specs.Places.{block_count as blocks_of};
ghost use Rattle.rice_code.specs.Bounds.{block_bound as most_of_block, bit_bound as most_bits, padded_bound as most_padded_bits, added_bound as most_added_bits, set_bound as most_of_set, step_bound as bound_of_steps};

use rice_samples::Setting;

/// Returns an upper bound of the bits, without padding, of the code of `samples` samples, at most 2^48.
pub fn bit_bound(setting: &Setting, samples: u64) -> u64
    requires { samples ≤ most_input }
    ensures value { result ≡ most_bits setting.now samples }
    ensures limit { result ≤ 2 ^ 59 }
{
    block_count(setting, samples) * block_bound(setting)
}

/// Returns an upper bound of the bits of the code of `samples` samples, at most 2^48, with the padding of intervals, if these are padded:
/// seven bits for each.
pub fn padded_bound(setting: &Setting, samples: u64) -> u64
    requires { samples ≤ most_input }
    ensures value { result ≡ most_padded_bits setting.now samples }
    ensures limit { result ≤ 2 ^ 60 }
{
    let bits = bit_bound(setting, samples);
    if !setting.pads() {
        return bits;
    }
    let intervals = block_count(setting, samples).div_ceil(setting.interval() as u64);
    bits + 7 * intervals
}

/// Returns an upper bound of the bits, with all padding, that `samples` samples, at most 2^48, add to the code of whole segments.
pub fn added_bound(setting: &Setting, samples: u64) -> u64
    requires { samples ≤ most_input }
    ensures value { result ≡ most_added_bits setting.now samples }
    ensures limit { result ≤ 2 ^ 61 }
{
    let bits = padded_bound(setting, samples);
    // An interval that was begun before may end.
    if setting.pads() { bits + 7 } else { bits }
}

/// Returns an upper bound of the bits of one coded data set of the coder, by any option.
pub fn set_bound(setting: &Setting) -> u32
    ensures value { result ≡ most_of_set setting.now }
    ensures limit { result ≤ 2053 }
{
    let plain = setting.block() * setting.bits();
    setting.id_len() + plain.max(setting.bits() + 65)
}

/// Returns an upper bound of the steps of coding `samples` samples, at most 2^48. A step is a sample pushed or filled, a bit put without
/// padding, or a read of a residual.
pub fn step_bound(setting: &Setting, samples: u64) -> u64
    requires { samples ≤ most_input }
    ensures value { result ≡ bound_of_steps setting.now samples }
    ensures limit { result ≤ 2 ^ 60 }
{
    let looks = setting.block() * (setting.k_max() + 6);
    block_count(setting, samples) * (block_bound(setting) + looks as u64)
}

/// Returns the number of blocks of `samples` samples, with a short last one.
fn block_count(setting: &Setting, samples: u64) -> u64
    requires { samples ≤ most_input }
    ensures value { result ≡ blocks_of setting.now samples }
    ensures limit { result ≤ 2 ^ 47 }
{
    samples.div_ceil(setting.block() as u64)
}

/// Returns the most bits of a block: those that it has without compression, or those of a run of one block.
fn block_bound(setting: &Setting) -> u64
    ensures value { result ≡ most_of_block setting.now }
    ensures limit { result ≤ 2053 }
{
    let plain = setting.block() * setting.bits();
    (setting.id_len() + plain.max(setting.bits() + 2)) as u64
}
