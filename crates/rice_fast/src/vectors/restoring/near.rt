//! Near numbers from their ranks, in lanes.
ghost use Rattle.std.specs.Prelude.{◌≡◌, ◌+◌, ◌^◌, ◌<◌, ◌≤◌, All, map, replicate};
ghost use Rattle.rice_fast.specs.LevelsOfParts.{running_sums as running_sums_of};
ghost use Rattle.rice_samples.specs.Residuals.{ranks_below};
ghost use Rattle.rice_samples.specs.NearNumbers.{near_numbers as near_numbers_of, way};

use crate::vectors::lanes::Lanes;

/// Returns the difference of each rank, if it is near. Differences and their sums wrap.
#[inline(always)]
pub fn near_ways<L: Lanes>(ranks: L) -> L
    ensures { L.numbers result ≡ map (way (2 ^ L.bits)) (L.numbers ranks) }
{
    ranks.half().xor(L::splat(0).minus(ranks.and(L::splat(1))))
}

/// Returns for each number the sum of `p`, the numbers before it and itself. Sums wrap.
#[inline(always)]
pub fn running_sums<L: Lanes>(p: u32, numbers: L) -> L
    requires { p < 2 ^ L.bits }
    ensures { L.numbers result ≡ running_sums_of (2 ^ L.bits) p (L.numbers numbers) }
{
    let two = numbers.plus(numbers.moved_by_one());
    let four = two.plus(two.moved_by_two());
    let eight = four.plus(four.moved_by_four());
    eight.plus(eight.moved_by_eight()).plus(L::splat(p))
}

/// Returns the numbers with these ranks, the first from `p`, each other from the one before it, if all are near.
#[inline(always)]
pub fn near_numbers<L: Lanes>(p: u32, ranks: L) -> L
    requires { p < 2 ^ L.bits }
    ensures { L.numbers result ≡ near_numbers_of (2 ^ L.bits) p (L.numbers ranks) }
{
    running_sums(p, near_ways(ranks))
}

/// Returns by how much each rank exceeds those of near numbers. If none does, `numbers` have these ranks.
#[inline(always)]
pub fn excess_over_near<L: Lanes>(greatest: u32, p: u32, ranks: L, numbers: L) -> L
    requires greatest { greatest < 2 ^ L.bits }
    requires before { p < 2 ^ L.bits }
    requires numbers { L.numbers numbers ≡ near_numbers_of (2 ^ L.bits) p (L.numbers ranks) }
    ensures fit { p ≤ greatest → L.numbers result ≡ replicate L.COUNT 0 →
        All (λ x. x ≤ greatest) (L.numbers numbers) }
    ensures ranks { p ≤ greatest → L.numbers result ≡ replicate L.COUNT 0 →
        ranks_below (greatest + 1) p (L.numbers numbers) ≡ L.numbers ranks }
{
    // The first number that is not near still has the true one before it, so it is seen here.
    let before = numbers.before(L::splat(p));
    let reach = before.least(L::splat(greatest).minus(before));
    ranks.above(reach.plus(reach))
}
