//! The setting of a coder and a decoder.
ghost use Rattle.std.specs.Prelude.{◌≡◌, ◌+◌, ◌-◌, if◌then◌else◌, ◌*◌, ◌%◌, ◌^◌, ◌<◌, ◌≤◌, ◌↔◌, IsTrue, IsOk};
ghost use Rattle.rice_samples.specs.Parameters.{Parameters, IsLegal, IsSample, id_len, k_max, width, value_at as value_at_level, value_count, least, level, level as level_of, offset, IsBlockSize, IsStandardSize};
ghost use Rattle.rice_samples.specs.{Settings.parameters, Settings.setting_of, Settings.any_setting_of, Places.segment_blocks, Places.blocks_left, Places.is_reference, Limits.longest_interval};

use std::marker::Model;
use thiserror::Error;

/// Why a setting is refused.
#[derive(Clone, Copy, Debug, PartialEq, Eq, Error)]
pub enum SettingFault {
    /// The bits per sample are not 1 to 32.
    #[error("bits per sample must be 1 to 32")]
    BadBits,
    /// The block size is not 8, 16, 32 or 64.
    #[error("block size must be 8, 16, 32 or 64")]
    BadBlock,
    /// The block size is not an even number from 2 to 64, where any of these is legal.
    #[error("block size must be even, 2 to 64")]
    BadAnyBlock,
    /// The reference interval is not 1 to 4,096 blocks.
    #[error("interval must be 1 to 4096")]
    BadInterval,
}

/// The setting of a coder and a decoder. Contracts see the parameters, which are legal.
#[derive(Clone, Copy, Debug)]
pub struct Setting {
    bits: u32,
    block: u32,
    interval: u32,
    signed: bool,
    msb: bool,
    three: bool,
    preprocess: bool,
    pad: bool,
    /// The greatest level, the number of levels of values below 0, and the bits of an identifier: computed once, since each block needs them.
    greatest: u32,
    offset: u32,
    id_len: u32,
}

impl Model for Setting {
    ghost use Rattle.std.specs.Prelude.{◌-◌};
    ghost use Rattle.rice_samples.specs.{Parameters.Parameters, Parameters.IsLegal, Parameters.value_count, Parameters.offset as offset_of, Parameters.id_len as id_len_of, Settings.parameters, Settings.HasDerived};

    ghost Value = { Parameters };

    ghost view = { λ s. parameters s.bits s.block s.interval s.signed s.msb s.three s.preprocess s.pad };

    ghost invariant = { λ s. IsLegal (parameters s.bits s.block s.interval s.signed s.msb s.three s.preprocess s.pad) × HasDerived (parameters s.bits s.block s.interval s.signed s.msb s.three s.preprocess s.pad) s.greatest s.offset s.id_len };

    ghost inverse = { λ p. record {
      bits = p.bits;
      block = p.block;
      interval = p.interval;
      signed = p.signed;
      msb = p.msb;
      three = p.three;
      preprocess = p.preprocess;
      pad = p.pad;
      greatest = value_count p - 1;
      offset = offset_of p;
      id_len = id_len_of p;
    } };
}

/// Returns the greatest level of samples of `bits` bits.
pub fn greatest_level(bits: u32) -> u32
    requires { (1 ≤ bits) × (bits ≤ 32) }
    ensures { result + 1 ≡ 2 ^ bits }
{
    ((1u64 << bits) - 1) as u32
}

/// Returns the number of levels of values below 0, of samples of `bits` bits.
fn levels_below_zero(bits: u32, signed: bool) -> u32
    requires { (1 ≤ bits) × (bits ≤ 32) }
    ensures { result ≡ if signed then 2 ^ (bits - 1) else 0 }
{
    if signed { 1 << (bits - 1) } else { 0 }
}

impl Setting {
    /// Returns the setting with these parameters: bits per sample, samples per block, blocks per reference interval. `signed` is for signed
    /// samples, `msb` for the most significant byte first, `three` for 17 to 24 bits in three bytes, not four. `preprocess` is for
    /// predicted samples, `pad` for the code of each interval filled to a byte.
    ///
    /// Refuses the first parameter that is not legal (CCSDS 121.0-B-3, sections 3 and 4). `BadBits`: `bits` is not 1 to 32. `BadBlock`:
    /// `block` is not 8, 16, 32 or 64. `BadInterval`: `interval` is not 1 to 4,096.
    pub fn new(
        bits: u32,
        block: u32,
        interval: u32,
        signed: bool,
        msb: bool,
        three: bool,
        preprocess: bool,
        pad: bool,
    ) -> Result<Setting, SettingFault>
        ensures answer { result ≡
            setting_of (parameters bits block interval signed msb three preprocess pad) }
        ensures legal { IsOk result ↔
            IsLegal (parameters bits block interval signed msb three preprocess pad) ×
            IsStandardSize block }
    {
        let is_standard = block == 8 || block == 16 || block == 32 || block == 64;
        if 1 <= bits && bits <= 32 && !is_standard {
            return Err(SettingFault::BadBlock);
        }
        Setting::with_any_block(bits, block, interval, signed, msb, three, preprocess, pad)
    }

    /// Returns the setting with these parameters, as `new` does, for blocks of any even number of samples from 2 to 64. The standard has
    /// only the sizes 8, 16, 32 and 64; the code is of the same form for all.
    ///
    /// Refuses the first parameter that is not legal. `BadBits`: `bits` is not 1 to 32. `BadAnyBlock`: `block` is not such a number.
    /// `BadInterval`: `interval` is not 1 to 4,096.
    pub fn with_any_block(
        bits: u32,
        block: u32,
        interval: u32,
        signed: bool,
        msb: bool,
        three: bool,
        preprocess: bool,
        pad: bool,
    ) -> Result<Setting, SettingFault>
        ensures answer { result ≡
            any_setting_of (parameters bits block interval signed msb three preprocess pad) }
        ensures legal { IsOk result ↔
            IsLegal (parameters bits block interval signed msb three preprocess pad) }
    {
        if bits < 1 || bits > 32 {
            return Err(SettingFault::BadBits);
        }
        if block < 2 || block > 64 || block % 2 != 0 {
            return Err(SettingFault::BadAnyBlock);
        }
        if interval < 1 || interval > 4096 {
            return Err(SettingFault::BadInterval);
        }
        let id_len = match bits {
            0..=8 => 3,
            9..=16 => 4,
            _ => 5,
        };
        Ok(Setting {
            bits,
            block,
            interval,
            signed,
            msb,
            three,
            preprocess,
            pad,
            greatest: greatest_level(bits),
            offset: levels_below_zero(bits, signed),
            id_len,
        })
    }

    /// Returns the number of bits of a sample, n: 1 to 32.
    #[inline]
    pub fn bits(&self) -> u32
        ensures value { result ≡ self.now.bits }
        ensures range { (1 ≤ result) × (result ≤ 32) }
        ensures legal { IsLegal self.now }
    {
        self.bits
    }

    /// Returns the number of samples of a block, J: an even number from 2 to 64.
    #[inline]
    pub fn block(&self) -> u32
        ensures value { result ≡ self.now.block }
        ensures size { IsBlockSize result }
        ensures range { (2 ≤ result) × (result ≤ 64) }
        ensures legal { IsLegal self.now }
    {
        self.block
    }

    /// Returns the number of blocks of a reference interval, r: 1 to 4,096.
    #[inline]
    pub fn interval(&self) -> u32
        ensures value { result ≡ self.now.interval }
        ensures range { (1 ≤ result) × (result ≤ longest_interval) }
        ensures legal { IsLegal self.now }
    {
        self.interval
    }

    /// Returns the number of bits of an option's identifier: 3, 4 or 5 (CCSDS 121.0-B-3, section 5).
    #[inline]
    pub fn id_len(&self) -> u32
        ensures value { result ≡ id_len self.now }
        ensures range { (3 ≤ result) × (result ≤ 5) }
    {
        self.id_len
    }

    /// Returns the greatest split: 5, 13 or 29.
    #[inline]
    pub fn k_max(&self) -> u32
        ensures value { result ≡ k_max self.now }
        ensures range { (5 ≤ result) × (result ≤ 29) }
    {
        (1 << self.id_len()) - 3
    }

    /// Returns the number of bytes of a sample: 1 to 4.
    #[inline]
    pub fn width(&self) -> u32
        ensures value { result ≡ width self.now }
        ensures range { (1 ≤ result) × (result ≤ 4) }
        ensures holds_bits { self.now.bits ≤ 8 * result }
        ensures legal { IsLegal self.now }
    {
        match self.bits {
            0..=8 => 1,
            9..=16 => 2,
            17..=24 if self.three => 3,
            _ => 4,
        }
    }

    /// Returns the number of blocks of the segment of block `b`: 64, or fewer at the end of an interval.
    #[inline]
    pub fn segment_blocks(&self, b: u64) -> u32
        ensures value { result ≡ segment_blocks self.now b }
        ensures range { (1 ≤ result) × (result ≤ 64) }
    {
        (self.interval - self.place(b) / 64 * 64).min(64)
    }

    /// Returns the number of blocks from block `b` to the end of its segment, `b` included.
    #[inline]
    pub fn blocks_left(&self, b: u64) -> u32
        ensures value { result ≡ blocks_left self.now b }
        ensures range { (1 ≤ result) × (result ≤ segment_blocks self.now b) × (result ≤ 64) }
    {
        self.segment_blocks(b) - self.place(b) % 64
    }

    /// Returns whether the first sample of block `b` is a reference sample; never without preprocessing.
    #[inline]
    pub fn is_reference(&self, b: u64) -> bool
        ensures { result ≡ is_reference self.now b }
    {
        self.preprocess && self.place(b) == 0
    }

    /// Returns whether samples are predicted, and their residuals coded, not their patterns.
    #[inline]
    pub fn preprocess(&self) -> bool
        ensures { result ≡ self.now.preprocess }
    {
        self.preprocess
    }

    /// Returns whether the code of each interval is filled to a byte.
    #[inline]
    pub fn pads(&self) -> bool
        ensures { result ≡ self.now.pad }
    {
        self.pad
    }

    /// Returns whether `x` is a value that a sample can have.
    #[inline]
    pub fn in_range(&self, x: i64) -> bool
        ensures { IsTrue result ↔ IsSample self.now x }
    {
        let least = self.least();
        least <= x && x <= least + self.greatest as i64
    }

    /// Returns the least value that a sample can have.
    #[inline]
    pub(crate) fn least(&self) -> i64
        ensures value { result ≡ least self.now }
        ensures legal { IsLegal self.now }
    {
        -(self.offset as i64)
    }

    /// Returns the number of legal values below 0.
    #[inline]
    pub fn offset(&self) -> u64
        ensures value { result ≡ offset self.now }
        ensures range { result ≤ 2 ^ 31 }
        ensures legal { IsLegal self.now }
    {
        self.offset as u64
    }

    /// Returns the number of values that a sample can have, and so a residual: 2^n.
    #[inline]
    pub fn number_of_values(&self) -> u64
        ensures value { result ≡ value_count self.now }
        ensures range { (2 ≤ result) × (result ≤ 2 ^ 32) }
        ensures legal { IsLegal self.now }
    {
        self.greatest as u64 + 1
    }

    /// Returns the level of `x`: the number of legal values below it.
    #[inline]
    pub fn level(&self, x: i64) -> u64
        requires { IsSample self.now x }
        ensures value { result ≡ level self.now x }
        ensures below { result < value_count self.now }
        ensures fits { result < 2 ^ 32 }
    {
        (x - self.least()) as u64
    }

    /// Returns the value with the given level.
    #[inline]
    pub fn value_at(&self, level: u64) -> i64
        requires { level < value_count self.now }
        ensures value { result ≡ value_at_level self.now level }
        ensures sample { IsSample self.now result }
        ensures level { level_of self.now result ≡ level }
    {
        self.least() + level as i64
    }

    #[inline]
    pub(crate) fn signed(&self) -> bool
        ensures { result ≡ self.now.signed }
    {
        self.signed
    }

    /// Returns whether the most significant byte of a sample comes first.
    #[inline]
    pub fn msb(&self) -> bool
        ensures { result ≡ self.now.msb }
    {
        self.msb
    }

    /// Returns the place of block `b` in its interval.
    #[inline]
    fn place(&self, b: u64) -> u32
        ensures value { result ≡ b % self.now.interval }
        ensures inside { result < self.now.interval }
    {
        // A coder and a decoder count blocks from the beginning of their interval, and need no division.
        if b < self.interval as u64 {
            b as u32
        } else {
            (b % self.interval as u64) as u32
        }
    }
}
