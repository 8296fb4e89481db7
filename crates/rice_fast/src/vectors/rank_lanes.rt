//! Residuals of levels, in lanes.
ghost use Rattle.std.specs.Prelude.{◌≡◌, ◌+◌, ◌^◌, ◌<◌, ◌≤◌};
ghost use Rattle.std.specs.Simd.Lanes.{zip2, Each1};
ghost use Rattle.rice_samples.specs.Residuals.{rank_below};

use crate::vectors::lanes::Lanes;

/// Returns the ranks of numbers up to `greatest`, each from the number at the same place of `before`.
#[inline(always)]
pub fn ranks<L: Lanes>(greatest: u32, before: L, numbers: L) -> L
    requires greatest { greatest < 2 ^ L.bits }
    ensures { Each1 (λ p. p ≤ greatest) (L.numbers before) → Each1 (λ x. x ≤ greatest) (L.numbers numbers) →
        L.numbers result ≡ zip2 (rank_below (greatest + 1)) (L.numbers before) (L.numbers numbers) }
{
    // One of the two ways is 0.
    let down = before.above(numbers);
    let up = numbers.above(before);
    let nearer = up.plus(down.above(L::splat(1)));
    let reach = before.least(L::splat(greatest).minus(before));
    down.plus(up).plus(nearer.least(reach))
}
