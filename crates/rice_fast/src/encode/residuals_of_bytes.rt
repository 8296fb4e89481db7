//! The residuals of samples, straight from their bytes.
ghost use Rattle.std.specs.Prelude.{◌≡◌, ◌-◌, ◌*◌, ◌<◌, ◌≤◌, IfSome, get_or, length};
ghost use Rattle.std.specs.Simd.Lanes.{Each1};
ghost use Rattle.rice_samples.specs.Parameters.{value_at, value_count, values_at, width as width_of};
ghost use Rattle.rice_code.specs.encode.OpenSegment.{later_residuals};
ghost use Rattle.rice_fast.specs.{BlocksAhead.HasBits, OpenBlocks.HasResidualsOf};

use crate::vectors::{Bytes, Halves, Lanes, LevelLanes, Words, patterns_of_levels, ranks};
use rice_code::known_or;
use rice_samples::Setting;

/// Writes the residuals of the samples that the bytes spell: of the first one after the sample at level `before`, and of each other after
/// the one before it. Without preprocessing these are their patterns. Returns the level of the last sample, or `None` if their number
/// is no multiple of eight, or if some bytes spell no sample.
#[inline(always)]
pub fn residuals_of_bytes<const SIZE: usize>(
    setting: &Setting,
    bytes: &[u8],
    before: u32,
    residuals: &mut [u32],
) -> Option<u32>
    requires before { before < value_count setting.now }
    requires size { 0 < SIZE → SIZE ≡ length residuals.old }
    requires range { (2 ≤ length residuals.old) × (length residuals.old ≤ 64) }
    requires len { length bytes.now ≡ width_of setting.now * length residuals.old }
    ensures some { IfSome result
        (λ last. HasResidualsOf setting.now bytes.now before residuals.new last) }
    ensures len { length residuals.new ≡ length residuals.old }
{
    let bits = setting.bits();
    let count = known_or::<SIZE>(residuals.len());
    if count % 8 != 0 {
        return None;
    }
    if bits > 16 {
        return residuals_in_lanes::<Words, SIZE>(setting, bytes, before, residuals);
    }
    if bits > 8 || count % 16 != 0 {
        return residuals_in_lanes::<Halves, SIZE>(setting, bytes, before, residuals);
    }
    residuals_in_lanes::<Bytes, SIZE>(setting, bytes, before, residuals)
}

/// Does what `residuals_of_bytes` does in lanes, or returns `None`: if samples do not fill whole vectors, or if some bytes spell no sample.
///
/// Levels that are none of samples show in one test at the end.
#[inline(always)]
fn residuals_in_lanes<L: LevelLanes, const SIZE: usize>(
    setting: &Setting,
    bytes: &[u8],
    before: u32,
    residuals: &mut [u32],
) -> Option<u32>
    requires bits { HasBits L.fewer L.bits setting.now }
    requires before { before < value_count setting.now }
    requires size { 0 < SIZE → SIZE ≡ length residuals.old }
    requires range { (2 ≤ length residuals.old) × (length residuals.old ≤ 64) }
    requires len { length bytes.now ≡ width_of setting.now * length residuals.old }
    ensures some { IfSome result
        (λ last. HasResidualsOf setting.now bytes.now before residuals.new last) }
    ensures len { length residuals.new ≡ length residuals.old }
{
    let setting = *setting;
    let width = setting.width() as usize;
    let greatest = (setting.number_of_values() - 1) as u32;
    let lanes = L::COUNT;
    let count = known_or::<SIZE>(residuals.len());
    let mut earlier = L::splat(before);
    let mut seen = L::splat(0);
    let mut at = 0;
    while at + lanes <= count {
        let row = L::levels_in(&setting, &bytes[width * at..width * (at + lanes)]);
        residuals_of_row(&setting, earlier, row).write(residuals, at);
        seen = seen.or(row);
        earlier = row;
        at += lanes;
    }
    if at < count {
        return None;
    }
    if !seen.above(L::splat(greatest)).is_zero() {
        return None;
    }
    Some(earlier.last())
}

/// Returns the residuals of the samples with these levels: of the first one after the last sample of `earlier`, and of each other after
/// the one before it.
#[inline(always)]
fn residuals_of_row<L: Lanes>(setting: &Setting, earlier: L, levels: L) -> L
    requires { setting.now.bits ≤ L.bits }
    ensures { get_or (L.numbers earlier) (L.COUNT - 1) 0 < value_count setting.now →
        Each1 (λ l. l < value_count setting.now) (L.numbers levels) →
        L.numbers result ≡ later_residuals setting.now
        (value_at setting.now (get_or (L.numbers earlier) (L.COUNT - 1) 0))
        (values_at setting.now (L.numbers levels)) }
{
    if !setting.preprocess() {
        return patterns_of_levels(setting, levels);
    }
    let greatest = (setting.number_of_values() - 1) as u32;
    ranks(greatest, levels.before(earlier), levels)
}
