//! Where one more digit no longer lowers the sum of residuals by enough.
ghost use Rattle.std.specs.Prelude.{◌≡◌, All, ℕ, ◌*◌, ◌/◌, ◌^◌, ◌<◌, ◌≤◌, length, map, sum_by};
ghost use Rattle.rice_fast.specs.Parts.{IsFirstStop, with_zeros};

use crate::encode::high_parts::{high_parts, shifted, sum_shifted};

/// What is left of the residuals of a block at the best split.
#[derive(Clone, Copy)]
pub struct Stop {
    /// The number of digits that are split off.
    pub k: u32,
    /// The sum of the numbers without these digits.
    pub sum: u32,
    /// These numbers, and zeros after them.
    pub high: [u8; 64],
}

/// Returns the first `k`, up to `limit`, at which one digit more takes no more than `price` off the sum of the numbers without their `k`
/// lowest digits. `whole` is their sum.
#[inline(always)]
pub fn first_stop<const SIZE: usize, const REFERENCE: bool>(
    items: &[u32],
    whole: u64,
    limit: u32,
    price: u32,
) -> Stop
    requires long { 8 ≤ length items.now }
    requires few { length items.now ≤ 64 }
    requires whole { whole ≡ sum_by (λ d. d / 2 ^ 0) items.now }
    requires whole_fits { whole ≤ 2 ^ 38 }
    requires limit { limit ≤ 29 }
    requires small { All (λ d. d / 2 ^ limit < 2 ^ 3) items.now }
    requires price { (price ≤ 64) × (length items.now ≤ 2 * price) × (1 ≤ price) }
    ensures stop { IsFirstStop items.now limit price result.k result.sum }
    ensures high { result.high ≡ with_zeros (map (λ d. d / 2 ^ result.k) items.now) }
    ensures size { result.sum < 2 ^ 14 }
{
    let least = items.len() as u32 + 2 * price;
    let first = digits_above(whole, least).min(limit);
    let high = high_parts(items, first);
    let sum = sum_shifted(&high, 0);
    if sum <= price {
        return Stop {
            k: first,
            sum,
            high,
        };
    }
    let next = sum_shifted(&high, 1);
    let last = sum_shifted(&high, 2);
    // Of a sum below `least`, two digits more leave less than the price. No jump is taken, since residuals do not foretell it.
    let one_pays = (first < limit) & (next + price < sum);
    let two_pay = one_pays & (first + 1 < limit) & (last + price < next);
    let (more, sum) = if two_pay {
        (2, last)
    } else if one_pays {
        (1, next)
    } else {
        (0, sum)
    };
    Stop {
        k: first + more,
        sum,
        high: shifted(&high, more),
    }
}

/// Returns the number of lowest digits without which `sum` is below `least`: with one fewer it is not.
#[inline(always)]
pub fn digits_above(sum: u64, least: u32) -> u32
    requires sum { sum ≤ 2 ^ 38 }
    requires least { (1 ≤ least) × (least ≤ 192) }
    ensures below { sum < least * 2 ^ result }
    ensures above { (j : ℕ) → j < result → least * 2 ^ j ≤ sum }
{
    // Together they are as long as the longer one, and never 0, which the machine would count apart.
    let least = least as u64;
    let digits = least.leading_zeros() - (sum | least).leading_zeros();
    if sum < least << digits {
        digits
    } else {
        digits + 1
    }
}
