//! The lengths of the second-extension codewords of pairs of residuals.
ghost use Rattle.std.specs.Prelude.{◌≡◌, ◌+◌, ◌^◌, ◌<◌, ◌≤◌, length, sum_by};
ghost use Rattle.rice_samples.specs.{Pairs.pair_code, Pairs.pair_codes, Parameters.IsBlockSize};

/// Returns the number of bits of the codewords of all pairs.
pub(crate) fn pair_sum(items: &[u32]) -> u128
    requires { IsBlockSize (length items.now) }
    ensures value { result ≡ sum_by (λ g. g + 1) (pair_codes items.now) }
    ensures limit { result ≤ 2 ^ 72 }
{
    let mut total: u128 = 0;
    for i in 0..items.len() / 2 {
        total += codeword_len(items[2 * i], items[2 * i + 1]);
    }
    total
}

/// Returns the number of bits of the codeword of a pair.
fn codeword_len(a: u32, b: u32) -> u128
    ensures value { result ≡ pair_code a b + 1 }
    ensures limit { result < 2 ^ 67 }
{
    let sum = a as u128 + b as u128;
    sum * (sum + 1) / 2 + b as u128 + 1
}
