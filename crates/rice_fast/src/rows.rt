//! Restores the samples of a block ahead, and writes their bytes, a row of lanes at a time.
ghost use Rattle.std.specs.Prelude.{◌≡◌, ◌+◌, ◌-◌, ◌*◌, ◌%◌, ◌^◌, ◌<◌, ◌≤◌, ◌++◌, All, IfSome, drop, get_or, length, min, replicate, take, true};
ghost use Rattle.rice_bits.specs.Bits.{joined_parts};
ghost use Rattle.rice_samples.specs.Parameters.{value_count, values_at, width as width_of};
ghost use Rattle.rice_samples.specs.Spelling.{spellings};
ghost use Rattle.rice_fast.specs.{BlocksAhead.HasBits, FieldsAhead.CanLook, FieldsAhead.LowsAhead, LevelsOfParts.HaveResiduals, FieldsAhead.RowsAhead, FieldsAhead.SpellsParts};

use crate::fields::Fields;
use crate::lanes::SampleLanes;
use crate::vectors::{join_parts, near_levels_of_parts};
use rice_bits::BitsAhead;
use rice_samples::{Setting, level_of_pattern};

/// The least level that so many others are near to that near ones are expected after it.
const FEW_NEAR: u64 = 8;

/// The number of bits of samples that have few levels that are not near.
const FEW_BITS: u32 = 4;

/// Returns zeros for the numbers that are omitted, one or none, and then these: `count` in all, with zeros after them.
#[inline(always)]
pub fn placed<L: SampleLanes>(numbers: L, omitted: usize, count: usize) -> L
    requires omitted { omitted ≤ 1 }
    requires count { count ≤ L.COUNT }
    ensures { L.numbers result
        ≡ take count (replicate omitted 0 ++ L.numbers numbers) ++ replicate (L.COUNT - count) 0 }
{
    if omitted == 0 {
        return numbers.first(count);
    }
    numbers.moved_by_one().first(count)
}

/// Returns the low parts of a row of `count` residuals, words of `k` bits after the first `skip` bits, with zeros after them.
/// Those that are omitted, one or none, are zeros.
#[inline(always)]
fn low_parts_of_row<L: SampleLanes>(
    ahead: &BitsAhead<'_>,
    skip: usize,
    omitted: usize,
    count: usize,
    k: u32,
) -> L
    requires omitted { omitted ≤ 1 }
    requires count { (1 ≤ count) × (count ≤ L.COUNT) }
    requires split { k ≤ L.bits }
    requires there { CanLook (skip + 256) ahead.now }
    ensures row { LowsAhead ahead.now skip omitted k (take count (L.numbers result)) }
    ensures low { All (λ l. l < 2 ^ k) (L.numbers result) }
{
    placed(L::words_ahead(ahead, skip, k), omitted, count)
}

/// Returns the residuals with these high parts and low parts of `k` bits, or `None` if one is too large.
#[inline(always)]
fn sound_residuals<L: SampleLanes>(setting: &Setting, highs: L, lows: L, k: u32) -> Option<L>
    requires narrow { setting.now.bits ≤ L.bits }
    requires split { k < L.bits }
    requires low { All (λ l. l < 2 ^ k) (L.numbers lows) }
    ensures { IfSome result (λ d. (L.numbers d ≡ joined_parts k (L.numbers highs) (L.numbers lows)) ×
        All (λ n. n < value_count setting.now) (L.numbers d)) }
{
    let greatest = (setting.number_of_values() - 1) as u32;
    let residuals = join_parts(highs, lows, k);
    let high = highs.above(L::splat(L::MOST >> k));
    let large = residuals.above(L::splat(greatest));
    if !high.or(large).is_zero() {
        return None;
    }
    Some(residuals)
}

/// Returns the levels of samples that have these residuals: the first after a sample at level `before`.
#[inline(always)]
fn levels_of_residuals<L: SampleLanes>(setting: &Setting, before: u32, residuals: L) -> L
    requires narrow { setting.now.bits ≤ L.bits }
    requires before { before < value_count setting.now }
    requires sound { All (λ n. n < value_count setting.now) (L.numbers residuals) }
    ensures { HaveResiduals setting.now before (L.numbers residuals) (L.numbers result) }
{
    let _bits = setting.bits();
    let greatest = (setting.number_of_values() - 1) as u32;
    if setting.preprocess() {
        return residuals.in_turn(greatest, before);
    }
    let zero = L::splat(level_of_pattern(setting, 0));
    residuals.plus(zero).and(L::splat(greatest))
}

/// Writes the bytes of samples with these levels, after the first `at` bytes. Returns the level of the last of the first `count`. It may
/// write more after these bytes.
#[inline(always)]
fn write_levels<L: SampleLanes>(
    setting: &Setting,
    levels: L,
    count: usize,
    at: usize,
    bytes: &mut [u8],
) -> u32
    requires bits { HasBits L.below L.bits setting.now }
    requires legal { All (λ l. l < value_count setting.now) (L.numbers levels) }
    requires count { (1 ≤ count) × (count ≤ L.COUNT) }
    requires room { at + 32 ≤ length bytes.old }
    ensures last { result ≡ get_or (L.numbers levels) (count - 1) 0 }
    ensures spelled { take (width_of setting.now * L.COUNT) (drop at bytes.new)
        ≡ spellings setting.now (values_at setting.now (L.numbers levels)) }
    ensures front { take at bytes.new ≡ take at bytes.old }
    ensures len { length bytes.new ≡ length bytes.old }
{
    levels.write_bytes(setting, &mut bytes[at..]);
    levels.number_at(count - 1)
}

/// Writes the bytes of a row of `count` samples whose residuals have these parts, after the first `at` bytes, one sample after another.
/// Returns the level of the last, or `None` if a residual is too large. It may write more after these bytes.
#[inline(never)]
fn write_parts_in_turn<L: SampleLanes>(
    setting: &Setting,
    before: u32,
    highs: L,
    lows: L,
    k: u32,
    count: usize,
    at: usize,
    bytes: &mut [u8],
) -> Option<u32>
    requires bits { HasBits L.below L.bits setting.now }
    requires before { before < value_count setting.now }
    requires split { k < L.bits }
    requires low { All (λ l. l < 2 ^ k) (L.numbers lows) }
    requires count { (1 ≤ count) × (count ≤ L.COUNT) }
    requires room { at + 32 ≤ length bytes.old }
    ensures some { IfSome result (λ l. SpellsParts setting.now before k count
        (take count (L.numbers highs)) (take count (L.numbers lows)) l (drop at bytes.new)) }
    ensures front { take at bytes.new ≡ take at bytes.old }
    ensures len { length bytes.new ≡ length bytes.old }
{
    let residuals = sound_residuals(setting, highs, lows, k)?;
    let levels = levels_of_residuals(setting, before, residuals);
    Some(write_levels(setting, levels, count, at, bytes))
}

/// Returns the least level after which near samples are expected, which is above all levels where samples are not predicted.
#[inline(always)]
fn least_near<L: SampleLanes>(setting: &Setting) -> u64
    ensures { result < 2 ^ 32 → setting.now.preprocess ≡ true }
{
    match setting.preprocess() {
        false => 1 << 32,
        true if L::BITS == 8 && setting.bits() <= FEW_BITS => 0,
        true => FEW_NEAR,
    }
}

/// Does what `write_parts_in_turn` does, all at once where samples are near to those before them. Near ones are not expected after a level
/// that few others are near to, and without compression. There, a low part is a whole residual.
#[inline(always)]
fn write_row<L: SampleLanes>(
    setting: &Setting,
    before: u32,
    highs: L,
    lows: L,
    k: u32,
    count: usize,
    at: usize,
    bytes: &mut [u8],
) -> Option<u32>
    requires bits { HasBits L.below L.bits setting.now }
    requires before { before < value_count setting.now }
    requires split { k ≤ L.bits }
    requires low { All (λ l. l < 2 ^ k) (L.numbers lows) }
    requires whole { k ≡ L.bits → L.numbers highs ≡ replicate L.COUNT 0 }
    requires count { (1 ≤ count) × (count ≤ L.COUNT) }
    requires room { at + 32 ≤ length bytes.old }
    ensures some { IfSome result (λ l. SpellsParts setting.now before k count
        (take count (L.numbers highs)) (take count (L.numbers lows)) l (drop at bytes.new)) }
    ensures front { take at bytes.new ≡ take at bytes.old }
    ensures len { length bytes.new ≡ length bytes.old }
{
    if k == L::BITS {
        return write_parts_in_turn(setting, before, lows, L::splat(0), 0, count, at, bytes);
    }
    if before as u64 >= least_near::<L>(setting) {
        if let Some(levels) = near_levels_of_parts(setting, before, highs, lows, k) {
            return Some(write_levels(setting, levels, count, at, bytes));
        }
    }
    write_parts_in_turn(setting, before, highs, lows, k, count, at, bytes)
}

/// Returns the number of samples of the row that begins with sample `at` of a block. The compiler knows it where all rows are whole.
#[inline(always)]
pub fn row_len<L: SampleLanes, const SIZE: usize>(size: usize, at: usize) -> usize
    requires known { 0 < SIZE → SIZE ≡ size }
    requires begins { at % L.COUNT ≡ 0 }
    requires within { at < size }
    ensures { result ≡ min (size - at) L.COUNT }
{
    if SIZE > 0 && SIZE % L::COUNT == 0 {
        L::COUNT
    } else {
        (size - at).min(L::COUNT)
    }
}

/// Writes the bytes of the samples of the block with these fields and high parts, `WIDTH` each, to the front of `bytes`. Returns the level
/// of the last, or `None` if a residual is too large. It may write more after these bytes.
#[inline(always)]
pub fn write_rows<L: SampleLanes, const SIZE: usize, const WIDTH: usize, const REFERENCE: bool>(
    setting: &Setting,
    size: usize,
    fields: &Fields,
    highs: &[u8; 80],
    ahead: &BitsAhead<'_>,
    bytes: &mut [u8; 320],
) -> Option<u32>
    requires bits { HasBits L.below L.bits setting.now }
    requires width { WIDTH ≡ width_of setting.now }
    requires known { 0 < SIZE → SIZE ≡ size }
    requires size { (2 ≤ size) × (size ≤ 64) }
    requires begins { fields.now.from < value_count setting.now }
    requires few { fields.now.omitted ≤ 1 }
    requires narrow { fields.now.k ≤ L.bits }
    requires whole { fields.now.k ≡ L.bits → highs.now ≡ replicate 80 0 }
    requires there { CanLook (fields.now.words + size * fields.now.k + 256) ahead.now }
    ensures { IfSome result (λ l. RowsAhead ahead.now setting.now fields.now highs.now size l bytes.new) }
{
    let mut last = fields.from;
    let mut omitted = fields.omitted;
    let mut place = fields.words;
    let mut at = 0;
    while at < size {
        let count = row_len::<L, SIZE>(size, at);
        let lows: L = low_parts_of_row(ahead, place, omitted, count, fields.k);
        let highs = L::of_bytes(&highs[at..]);
        last = write_row(
            setting,
            last,
            highs,
            lows,
            fields.k,
            count,
            WIDTH * at,
            bytes,
        )?;
        place += (count - omitted) * fields.k as usize;
        omitted = 0;
        at += count;
    }
    Some(last)
}
