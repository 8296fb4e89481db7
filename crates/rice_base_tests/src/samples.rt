//! Tests of settings, samples, residuals and blocks.
ghost use Rattle.std.specs.Prelude.{◌≡◌, true, length};
ghost use Rattle.rice_samples.specs.Parameters.{IsBlockSize, IsSample};

use crate::case_table::{Columns, answer_to, bytes_of, setting_of};
use crate::cases::Cases;
use rice_bits::Meter;
use rice_samples::{
    Segment, Setting, SettingFault, bytes_of as bytes_of_sample, from_pattern, level_of_pattern,
    pattern, residual, restore, sample_of,
};
use std::alloc::Global;
use std::test::Fail;

/// A setting of predicted samples, least significant byte first.
fn of_bits(bits: u32, signed: bool) -> Result<Setting, SettingFault> {
    Setting::new(bits, 8, 2, signed, false, false, true, false)
}

const REFUSED: &str = "n0         | bits per sample must be 1 to 32
    n33 j7     | bits per sample must be 1 to 32
    j12        | block size must be 8, 16, 32 or 64
    r4097      | interval must be 1 to 4096
    n0 j7 r0   | bits per sample must be 1 to 32
    j128 r0    | block size must be 8, 16, 32 or 64
    n32 j64 r0 | interval must be 1 to 4096";

#[test]
fn settings_are_refused_in_order(rt: HostRuntime) -> Result<(), Fail> {
    let mut cases = Cases::new();
    for line in REFUSED.lines() {
        cases.of_line(line);
        setting_is_refused(&mut cases, rt.alloc(), line)?;
    }
    cases.end()
}

fn setting_is_refused(cases: &mut Cases<'_>, alloc: Global, line: &str) -> Result<(), Fail> {
    let mut columns = Columns::of(line);
    let answer = answer_to(columns.next())?;
    refuses(cases, alloc, answer, columns.next())
}

/// Looks whether this is a refusal with this text.
fn refuses(
    cases: &mut Cases<'_>,
    alloc: Global,
    answer: Result<Setting, SettingFault>,
    text: &str,
) -> Result<(), Fail> {
    match answer {
        Ok(_) => cases.check(false),
        Err(fault) => cases.check_text(alloc, fault, text)?,
    }
    Ok(())
}

/// The size of a block, where any even one is taken, and the refusal.
const REFUSED_BLOCKS: &str = "0  | block size must be even, 2 to 64
    7  | block size must be even, 2 to 64
    66 | block size must be even, 2 to 64";

#[test]
fn block_sizes_are_refused(rt: HostRuntime) -> Result<(), Fail> {
    let mut cases = Cases::new();
    for line in REFUSED_BLOCKS.lines() {
        cases.of_line(line);
        block_size_is_refused(&mut cases, rt.alloc(), line)?;
    }
    cases.end()
}

fn block_size_is_refused(cases: &mut Cases<'_>, alloc: Global, line: &str) -> Result<(), Fail> {
    let mut columns = Columns::of(line);
    let block = columns.next_u32()?;
    let answer = Setting::with_any_block(8, block, 2, false, false, false, true, false);
    refuses(cases, alloc, answer, columns.next())
}

/// The bits of a sample, the length of an identifier, the greatest k, and the width of a sample.
const GETTERS: &str = "1  | 3 | 5  | 1
    8  | 3 | 5  | 1
    9  | 4 | 13 | 2
    16 | 4 | 13 | 2
    17 | 5 | 29 | 4
    24 | 5 | 29 | 4
    25 | 5 | 29 | 4
    32 | 5 | 29 | 4";

#[test]
fn getters() -> Result<(), Fail> {
    let mut cases = Cases::new();
    for line in GETTERS.lines() {
        cases.of_line(line);
        getters_of_line(&mut cases, line)?;
    }
    cases.end()
}

fn getters_of_line(cases: &mut Cases<'_>, line: &str) -> Result<(), Fail> {
    let mut columns = Columns::of(line);
    let bits = columns.next_u32()?;
    let read = (
        columns.next_u32()?,
        columns.next_u32()?,
        columns.next_u32()?,
    );
    let setting = Setting::new(bits, 16, 130, true, true, false, true, true)?;
    cases.check(has_getters(&setting, bits, read));
    Ok(())
}

/// Returns whether these are what a setting of this test answers: its bits, and the three of its line.
fn has_getters(setting: &Setting, bits: u32, read: (u32, u32, u32)) -> bool {
    (setting.bits(), setting.block(), setting.interval()) == (bits, 16, 130)
        && (setting.id_len(), setting.k_max(), setting.width()) == read
        && setting.preprocess()
        && setting.pads()
}

#[test]
fn places(rt: HostRuntime) -> Result<(), Fail> {
    let mut cases = Cases::new();
    let setting = Setting::new(8, 8, 130, false, false, false, true, false).expect(
        &rt,
        "a legal setting",
    );
    let table = [
        (0, 64, 64),
        (63, 64, 1),
        (64, 64, 64),
        (128, 2, 2),
        (129, 2, 1),
        (130, 64, 64),
    ];
    for (block, blocks, left) in table {
        cases.check(setting.segment_blocks(block) == blocks);
        cases.check(setting.blocks_left(block) == left);
        cases.check(setting.is_reference(block) == (block % 130 == 0));
    }
    let plain = Setting::new(8, 8, 130, false, false, false, false, false).expect(
        &rt,
        "a legal setting",
    );
    cases.check(!plain.is_reference(0) && !plain.preprocess() && !plain.pads());
    cases.end()
}

/// The options, the bytes of a sample, and the sample, where there is one.
const SPELLINGS: &str = "n10       | FF03     | 1023
    n10       | 0004     |
    n10 s     | FF01     | 511
    n10 s     | 00FE     | -512
    n10 s     | 0002     |
    n10 s     | FFFD     |
    n24 s m 3 | 800000   | -8388608
    n24       | 00000001 |
    n32       | FFFFFFFF | 4294967295
    n32 s     | FFFFFFFF | -1
    n1 s      | FF       | -1
    n1 s      | 01       |
    n4        | 10       |
    n4 s      | F8       | -8
    n16 m     | 0005     | 5
    n24 3     | 010203   | 197121";

#[test]
fn samples_are_spelled(rt: HostRuntime) -> Result<(), Fail> {
    let mut cases = Cases::new();
    for line in SPELLINGS.lines() {
        cases.of_line(line);
        sample_is_spelled(&mut cases, rt.alloc(), line)?;
    }
    cases.end()
}

fn sample_is_spelled(cases: &mut Cases<'_>, alloc: Global, line: &str) -> Result<(), Fail> {
    let mut columns = Columns::of(line);
    let setting = setting_of(columns.next())?;
    let bytes = bytes_of(columns.next(), alloc)?;
    let sample = sample_in(columns.next())?;
    sample_is_read_and_spelled(cases, &setting, bytes.as_slice(), sample);
    Ok(())
}

fn sample_is_read_and_spelled(
    cases: &mut Cases<'_>,
    setting: &Setting,
    bytes: &[u8],
    sample: Option<i64>,
) {
    let is_one = bytes.len() == setting.width() as usize;
    cases.check(is_one);
    if is_one {
        cases.check(sample_of(setting, bytes) == sample);
    }
    if let Some(x) = sample {
        let is_sample = setting.in_range(x);
        cases.check(is_sample);
        if is_sample {
            cases.check(bytes_of_sample(setting, x).as_slice() == bytes);
        }
    }
}

/// Returns the sample of a column, or `None` where it is empty.
fn sample_in(text: &str) -> Result<Option<i64>, Fail> {
    if text.is_empty() {
        return Ok(None);
    }
    Ok(Some(text.parse::<i64>()?))
}

/// The options, a sample, its pattern as a number, and how many legal samples are below it.
const PATTERNS: &str = "n10 s | -512        | 512        | 0
    n10 s | -1          | 1023       | 511
    n10 s | 511         | 511        | 1023
    n10   | 1023        | 1023       | 1023
    n1 s  | -1          | 1          | 0
    n1    | 1           | 1          | 1
    n32 s | -2147483648 | 2147483648 | 0
    n32   | 4294967295  | 4294967295 | 4294967295";

#[test]
fn patterns(rt: HostRuntime) -> Result<(), Fail> {
    let mut cases = Cases::new();
    for line in PATTERNS.lines() {
        cases.of_line(line);
        pattern_of_line(&mut cases, line)?;
    }
    cases.end()
}

fn pattern_of_line(cases: &mut Cases<'_>, line: &str) -> Result<(), Fail> {
    let mut columns = Columns::of(line);
    let setting = setting_of(columns.next())?;
    let x = columns.next_i64()?;
    let word = columns.next_u32()?;
    let level = columns.next_u32()?;
    sample_has_pattern(cases, &setting, x, word);
    sample_has_level(cases, &setting, x, word, level);
    Ok(())
}

fn sample_has_pattern(cases: &mut Cases<'_>, setting: &Setting, x: i64, word: u32) {
    if !setting.in_range(x) {
        return cases.check(false);
    }
    let digits = pattern(setting, x);
    cases.check(digits == word);
    cases.check(from_pattern(setting, digits) == x);
}

fn sample_has_level(cases: &mut Cases<'_>, setting: &Setting, x: i64, word: u32, level: u32) {
    let count = setting.number_of_values();
    if !setting.in_range(x) || level as u64 >= count || word as u64 >= count {
        return cases.check(false);
    }
    cases.check(level_of_pattern(setting, word) == level);
    cases.check(setting.level(x) == level as u64);
    cases.check(setting.value_at(level as u64) == x);
}

/// The options, the sample before, a sample, and its residual.
const RESIDUALS: &str = "      | 5           | 5           | 0
          | 5           | 4           | 1
          | 5           | 6           | 2
          | 5           | 0           | 9
          | 5           | 10          | 10
          | 5           | 11          | 11
          | 250         | 255         | 10
          | 250         | 244         | 11
          | 0           | 255         | 255
          | 255         | 0           | 255
    s     | 0           | -1          | 1
    s     | 0           | 127         | 254
    s     | 0           | -128        | 255
    n1    | 0           | 1           | 1
    n1    | 1           | 0           | 1
    n1 s  | 0           | -1          | 1
    n1 s  | -1          | 0           | 1
    n32   | 0           | 4294967295  | 4294967295
    n32   | 4294967295  | 0           | 4294967295
    n32   | 4294967295  | 4294967294  | 1
    n32 s | -2147483648 | 2147483647  | 4294967295
    n32 s | 2147483647  | -2147483648 | 4294967295
    n32 s | 0           | -1          | 1
    n32 s | 0           | 2147483647  | 4294967294
    n32 s | 0           | -2147483648 | 4294967295
    n32 s | -2147483648 | -2147483648 | 0";

#[test]
fn residuals(rt: HostRuntime) -> Result<(), Fail> {
    let mut cases = Cases::new();
    for line in RESIDUALS.lines() {
        cases.of_line(line);
        residual_of_line(&mut cases, line)?;
    }
    cases.end()
}

fn residual_of_line(cases: &mut Cases<'_>, line: &str) -> Result<(), Fail> {
    let mut columns = Columns::of(line);
    let setting = setting_of(columns.next())?;
    let p = columns.next_i64()?;
    let x = columns.next_i64()?;
    let expected = columns.next_u32()?;
    sample_has_residual(cases, &setting, p, x, expected);
    Ok(())
}

fn sample_has_residual(cases: &mut Cases<'_>, setting: &Setting, p: i64, x: i64, expected: u32) {
    if !setting.in_range(p) || !setting.in_range(x) {
        return cases.check(false);
    }
    let d = residual(setting, p, x);
    cases.check(d == expected);
    cases.check(restore(setting, p, d) == x);
}

/// Both ways between samples and residuals, and the patterns of 8 bits stand for all residuals.
#[test]
fn all_pairs(rt: HostRuntime) -> Result<(), Fail> {
    let mut cases = Cases::new();
    for signed in [false, true] {
        let setting = of_bits(8, signed).expect(&rt, "a legal setting");
        let mut pairs = 0u32;
        for p in -200..300i64 {
            for x in -200..300i64 {
                if setting.in_range(p) && setting.in_range(x) {
                    pairs = pairs.wrapping_add(1);
                    cases.check(is_restored(&setting, p, x));
                    cases.check(pattern_is_restored(&setting, p, x));
                }
            }
        }
        cases.check(pairs == 65536);
    }
    cases.end()
}

fn is_restored(setting: &Setting, p: i64, x: i64) -> bool
    requires before { IsSample setting.now p }
    requires sample { IsSample setting.now x }
{
    restore(setting, p, residual(setting, p, x)) == x
}

fn pattern_is_restored(setting: &Setting, p: i64, x: i64) -> bool
    requires before { IsSample setting.now p }
    requires sample { IsSample setting.now x }
{
    let d = pattern(setting, x);
    residual(setting, p, restore(setting, p, d)) == d
}

/// Returns a segment of up to 64 residuals of one value.
fn segment_of(size: usize, value: u32) -> Segment {
    let mut segment = Segment::new();
    for _ in 0..size {
        if segment.len() < 64 {
            segment.push(value);
        }
    }
    segment
}

/// The length of a block, the value of its residuals, k, and the sum without the k lowest digits.
const SUMS: &str = "8  | 255        | 5  | 56
    8  | 255        | 29 | 0
    64 | 4294967295 | 0  | 274877906880
    64 | 4294967295 | 29 | 448
    16 | 4294967295 | 1  | 34359738352
    32 | 4294967295 | 2  | 34359738336";

#[test]
fn sums_of_blocks(rt: HostRuntime) -> Result<(), Fail> {
    let mut cases = Cases::new();
    for line in SUMS.lines() {
        cases.of_line(line);
        sum_of_line(&mut cases, line)?;
    }
    cases.end()
}

fn sum_of_line(cases: &mut Cases<'_>, line: &str) -> Result<(), Fail> {
    let mut columns = Columns::of(line);
    let size = columns.next_usize()?;
    let value = columns.next_u32()?;
    let k = columns.next_u32()?;
    let sum = columns.next_u64()?;
    block_has_sum(cases, &segment_of(size, value), size, k, sum);
    Ok(())
}

/// Returns whether a segment is one block of this size.
fn is_block(segment: &Segment, size: usize) -> bool
    ensures { result ≡ true → (length segment.now ≡ size) × IsBlockSize size }
{
    segment.len() == size && size >= 2 && size <= 64 && size % 2 == 0
}

fn block_has_sum(cases: &mut Cases<'_>, segment: &Segment, size: usize, k: u32, sum: u64) {
    if k > 29 || !is_block(segment, size) {
        return cases.check(false);
    }
    let mut meter = Meter::new();
    let block = segment.block(0, size);
    cases.check(block.len() == size);
    cases.check(block.sum_shifted(k, &mut meter) == sum);
    cases.check(meter.steps() == size as u64);
}

#[test]
fn pair_sums(rt: HostRuntime) -> Result<(), Fail> {
    let mut cases = Cases::new();
    for (value, sum) in [(4294967295, (1u128 << 67) - (1 << 35) + 4), (0, 4), (1, 20)] {
        let mut meter = Meter::new();
        let segment = segment_of(8, value);
        assert!(rt; segment.len() == 8);
        cases.check(segment.block(0, 8).pair_sum(&mut meter) == sum);
        cases.check(meter.steps() == 8);
    }
    cases.end()
}

/// A single 1 at each place of each block, and none.
#[test]
fn zero_blocks() -> Result<(), Fail> {
    let mut cases = Cases::new();
    for size in [8usize, 16, 32, 64] {
        for place in 0..=size {
            let mut segment = Segment::new();
            for i in 0..size {
                if segment.len() < 64 {
                    segment.push((i == place) as u32);
                }
            }
            has_one_at(&mut cases, &segment, size, place);
        }
    }
    cases.end()
}

/// Looks that a segment is a block with a 1 at this place, or without one where the place is its size.
fn has_one_at(cases: &mut Cases<'_>, segment: &Segment, size: usize, place: usize) {
    if !is_block(segment, size) {
        return cases.check(false);
    }
    let mut meter = Meter::new();
    let block = segment.block(0, size);
    cases.check(block.is_zero(&mut meter) == (place == size));
    cases.check(meter.steps() == size as u64);
    if place < block.len() {
        cases.check(block.at(place, &mut meter) == 1);
        cases.check(meter.steps() == size as u64 + 1);
    }
}

#[test]
fn blocks_of_a_segment() -> Result<(), Fail> {
    let mut cases = Cases::new();
    let mut segment = Segment::new();
    for i in 0..24 {
        if segment.len() < 24 {
            segment.push(i);
        }
    }
    cases.check(segment.len() == 24);
    if segment.len() == 24 {
        let mut meter = Meter::new();
        cases.check(segment.block(2, 8).at(0, &mut meter) == 16);
        cases.check(segment.block(2, 8).at(7, &mut meter) == 23);
        cases.check(meter.steps() == 2);
        let items = segment.block(1, 8).sized(8).items();
        cases.check(items.len() == 8);
        if items.len() == 8 {
            cases.check(items[0] == 8 && items[7] == 15);
        }
        cases.check(meter.steps() == 2);
    }
    segment.clear();
    cases.check(segment.len() == 0);
    cases.end()
}
