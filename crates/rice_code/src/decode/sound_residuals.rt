//! Joins the parts of residuals, and checks that residuals are sound.
ghost use Rattle.std.specs.Prelude.{◌≡◌, ◌-◌, ◌/◌, ◌^◌, ◌<◌, ◌≤◌, ◌↔◌, IsTrue, length, slice_index, OnSome, All};
ghost use Rattle.rice_bits.specs.Bits.{joined_parts};

/// Joins each high part with the low part of k bits at its place, and writes the residual there.
#[inline(always)]
pub fn join_all_parts(highs: &[u32], k: u32, lows: &mut [u32])
    requires same { length lows.old ≡ length highs.now }
    requires k { k ≤ 29 }
    requires highs { All (λ h. h ≤ (2 ^ 32 - 1) / 2 ^ k) highs.now }
    requires lows { All (λ l. l < 2 ^ k) lows.old }
    ensures { lows.new ≡ joined_parts k highs.now lows.old }
{
    for i in 0..highs.len() {
        lows[i] += highs[i] << k;
    }
}

/// Returns whether all residuals are below `count`.
#[inline(always)]
pub fn are_below(residuals: &[u32], count: u64) -> bool
    requires { (0 < count) × (count ≤ 2 ^ 32) }
    ensures { IsTrue result ↔ All (λ d. d < count) residuals.now }
{
    let greatest = (count - 1) as u32;
    let mut all = true;
    for i in 0..residuals.len() {
        all = all & (residuals[i] <= greatest);
    }
    all
}

/// Returns whether all residuals are below 2^`bits`. Their high parts, without `k` digits, must be as small as those of such numbers.
#[inline(always)]
pub fn are_below_as_high_parts(bits: u32, k: u32, residuals: &[u32]) -> bool
    requires bits { (1 ≤ bits) × (bits ≤ 32) }
    requires highs { All (λ d. d / 2 ^ k ≤ (2 ^ bits - 1) / 2 ^ k) residuals.now }
    ensures { IsTrue result ↔ All (λ d. d < 2 ^ bits) residuals.now }
{
    // A high part that is small enough makes a residual that is, unless more digits are split off than a sample has.
    if k <= bits {
        return true;
    }
    are_below(residuals, 1 << bits)
}

/// Returns whether the residuals of a block by second extension are sound: all are below `count`, and the first is 0 if the block has a
/// reference sample.
pub fn are_sound(reference: Option<u32>, residuals: &[u32], count: u64) -> bool
    requires some { 0 < length residuals.now }
    requires count { (0 < count) × (count ≤ 2 ^ 32) }
    ensures { IsTrue result ↔ (OnSome reference (slice_index residuals.now 0 ≡ 0) ×
        All (λ d. d < count) residuals.now) }
{
    if reference.is_some() && residuals[0] != 0 {
        return false;
    }
    are_below(residuals, count)
}
