//! The fields of a block ahead, looked at before they are taken.
ghost use Rattle.std.specs.Prelude.{◌≡◌, ◌+◌, ◌-◌, ◌^◌, ◌<◌, ◌≤◌, IfSome, length, take};
ghost use Rattle.rice_bits.specs.{Bits.word, Window.most_ahead};
ghost use Rattle.rice_samples.specs.{Parameters.id_len, Parameters.value_count, Places.is_reference};
ghost use Rattle.rice_fast.specs.{FieldsAhead.AreFields, FieldsAhead.HeadAhead, FieldsAhead.IsBlockInLanes};

use crate::ahead::number_ahead;
use crate::high_parts::high_parts_ahead;
use crate::lanes::SampleLanes;
use crate::pairs::pairs_ahead;
use rice_bits::BitsAhead;
use rice_samples::{Setting, level_of_pattern};

/// The fields of a block: what its samples are restored from, but for the parts of its residuals.
#[derive(Clone, Copy)]
pub struct Fields {
    /// The level after which the first sample is restored.
    pub from: u32,
    /// The number of first residuals that are not sent, one or none.
    pub omitted: usize,
    /// The number of bits of a low part.
    pub k: u32,
    /// The number of bits before the low parts.
    pub words: usize,
    /// The number of turns that a search for the pairs takes.
    pub turns: u64,
}

/// Returns whether the first sample of block `block` of its interval is a reference sample.
#[inline(always)]
pub fn has_reference(setting: &Setting, block: u32) -> bool
    requires place { block < setting.now.interval }
    ensures { result ≡ is_reference setting.now block }
{
    let _interval = setting.interval();
    setting.preprocess() && block == 0
}

/// Returns what stands after the first `skip` bits of a block, after a sample at level `before`: a reference sample, if it is a
/// block with a `REFERENCE`, or nothing. Low parts and turns are not known yet.
#[inline(always)]
fn head_ahead<const REFERENCE: bool>(
    setting: &Setting,
    block: u32,
    before: u32,
    skip: usize,
    ahead: &BitsAhead<'_>,
) -> Fields
    requires reference { REFERENCE ≡ is_reference setting.now block }
    requires before { before < value_count setting.now }
    requires skip { skip ≤ 6 }
    requires there { most_ahead ≤ length ahead.now }
    ensures { HeadAhead ahead.now setting.now block before skip result.from result.omitted result.words }
{
    if REFERENCE {
        let bits = setting.bits();
        let from = level_of_pattern(setting, number_ahead(ahead, skip, bits));
        return Fields {
            from,
            omitted: 1,
            k: 0,
            words: skip + bits as usize,
            turns: 0,
        };
    }
    Fields {
        from: before,
        omitted: 0,
        k: 0,
        words: skip,
        turns: 0,
    }
}

/// Returns the fields of the block of `size` samples ahead, after a sample at level `before`, if its fundamental sequences are short
/// and it has a block. Writes the high parts of its residuals to the front of `highs`.
///
/// It is laid out for blocks with a `REFERENCE`, or without one.
#[inline(always)]
pub fn fields_ahead<L: SampleLanes, const REFERENCE: bool>(
    setting: &Setting,
    size: usize,
    block: u32,
    before: u32,
    ahead: &BitsAhead<'_>,
    highs: &mut [u8; 80],
) -> Option<Fields>
    requires block { IsBlockInLanes L.below L.bits setting.now size block before REFERENCE }
    requires there { most_ahead ≤ length ahead.now }
    ensures { IfSome result (λ f. AreFields ahead.now setting.now block before size L.bits highs.new f) }
{
    let id = number_ahead(ahead, 0, L::ID_LEN);
    if id == 0 {
        return pair_fields_ahead::<L, REFERENCE>(setting, size, block, before, ahead, highs);
    }
    if id == (1 << L::ID_LEN) - 1 {
        return Some(uncompressed_fields_ahead::<L, REFERENCE>(
            setting, size, block, before, ahead, highs,
        ));
    }
    split_fields_ahead::<L, REFERENCE>(setting, size, block, before, id - 1, ahead, highs)
}

/// As `fields_ahead`, of a block by split `k`.
#[inline(always)]
fn split_fields_ahead<L: SampleLanes, const REFERENCE: bool>(
    setting: &Setting,
    size: usize,
    block: u32,
    before: u32,
    k: u32,
    ahead: &BitsAhead<'_>,
    highs: &mut [u8; 80],
) -> Option<Fields>
    requires block { IsBlockInLanes L.below L.bits setting.now size block before REFERENCE }
    requires there { most_ahead ≤ length ahead.now }
    requires split { k + 2 < 2 ^ L.ID_LEN }
    requires id { word (id_len setting.now) (k + 1) ≡ take (id_len setting.now) ahead.now }
    ensures { IfSome result (λ f. AreFields ahead.now setting.now block before size L.bits highs.new f) }
{
    let _block = setting.block();
    let id_len = setting.id_len();
    let head = head_ahead::<REFERENCE>(setting, block, before, L::ID_LEN as usize, ahead);
    let len = high_parts_ahead(ahead, size, head.words, head.omitted, highs)?;
    Some(Fields {
        k,
        words: head.words + len,
        turns: 0,
        ..head
    })
}

/// As `fields_ahead`, of a block without compression.
#[inline(always)]
fn uncompressed_fields_ahead<L: SampleLanes, const REFERENCE: bool>(
    setting: &Setting,
    size: usize,
    block: u32,
    before: u32,
    ahead: &BitsAhead<'_>,
    highs: &mut [u8; 80],
) -> Fields
    requires block { IsBlockInLanes L.below L.bits setting.now size block before REFERENCE }
    requires there { most_ahead ≤ length ahead.now }
    requires id { word (id_len setting.now) (2 ^ id_len setting.now - 1) ≡ take (id_len setting.now) ahead.now }
    ensures { AreFields ahead.now setting.now block before size L.bits highs.new result }
{
    let _block = setting.block();
    let head = head_ahead::<REFERENCE>(setting, block, before, L::ID_LEN as usize, ahead);
    *highs = [0; 80];
    Fields {
        k: setting.bits(),
        turns: 0,
        ..head
    }
}

/// As `fields_ahead`, of a block by second extension.
#[inline(always)]
fn pair_fields_ahead<L: SampleLanes, const REFERENCE: bool>(
    setting: &Setting,
    size: usize,
    block: u32,
    before: u32,
    ahead: &BitsAhead<'_>,
    highs: &mut [u8; 80],
) -> Option<Fields>
    requires block { IsBlockInLanes L.below L.bits setting.now size block before REFERENCE }
    requires there { most_ahead ≤ length ahead.now }
    requires id { word (id_len setting.now) 0 ≡ take (id_len setting.now) ahead.now }
    ensures { IfSome result (λ f. AreFields ahead.now setting.now block before size L.bits highs.new f) }
{
    let _block = setting.block();
    let bit = number_ahead(ahead, L::ID_LEN as usize, 1);
    if bit == 0 {
        return None;
    }
    let head = head_ahead::<REFERENCE>(setting, block, before, L::ID_LEN as usize + 1, ahead);
    let pairs = pairs_ahead(ahead, size, head.words, head.omitted)?;
    let numbers = pairs.numbers;
    *highs = numbers;
    Some(Fields {
        k: 0,
        words: head.words + pairs.len,
        turns: pairs.turns,
        ..head
    })
}
