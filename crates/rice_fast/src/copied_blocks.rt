//! Blocks without compression whose samples are not predicted, and use all bits of 1, 2 or 4 bytes: these bytes stand in the code.
ghost use Rattle.std.specs.Prelude.{◌≡◌, ℕ, ℤ, ◌+◌, ◌-◌, ◌*◌, ◌^◌, ◌<◌, ◌≤◌, IfSome, true, length, take, drop};
ghost use Rattle.rice_bits.specs.{Bits.word, Window.most_ahead};
ghost use Rattle.rice_samples.specs.{Parameters.id_len, Parameters.value_at, Parameters.value_count, Residuals.pattern};
ghost use Rattle.rice_fast.specs.BlocksAhead.{IsCopied, SpelledAhead, WordsAhead, copied_bits};

use crate::ahead::{number_ahead, words_ahead};
use crate::one_pass::WrittenBlock;
use crate::vectors::bytes_of_patterns;
use rice_bits::BitsAhead;
use rice_samples::{Setting, level_of_pattern};

/// Returns the number of bits of an identifier, which the compiler knows.
#[inline(always)]
fn known_id_len<const WIDTH: usize>(setting: &Setting) -> usize
    requires { IsCopied setting.now WIDTH }
    ensures value { result ≡ id_len setting.now }
    ensures range { (3 ≤ result) × (result ≤ 5) }
{
    if WIDTH == 4 { 5 } else { WIDTH + 2 }
}

/// Returns the number of bits of a block of `size` samples without compression.
#[inline(always)]
fn copied_len<const WIDTH: usize>(setting: &Setting, size: usize) -> usize
    requires copied { IsCopied setting.now WIDTH }
    requires size { size ≡ setting.now.block }
    ensures value { result ≡ copied_bits setting.now WIDTH }
    ensures range { result ≤ 2053 }
{
    let _block = setting.block();
    known_id_len::<WIDTH>(setting) + 8 * (WIDTH * size)
}

/// Returns whether samples are not predicted, and use all bits of `WIDTH` bytes, 1, 2 or 4.
#[inline(always)]
fn is_copied<const WIDTH: usize>(setting: &Setting) -> bool
    ensures { result ≡ true → IsCopied setting.now WIDTH }
{
    !setting.preprocess()
        && (WIDTH == 1 || WIDTH == 2 || WIDTH == 4)
        && setting.bits() as usize == 8 * WIDTH
}

/// Returns whether the next block is not compressed.
#[inline(always)]
fn is_copied_ahead<const WIDTH: usize>(setting: &Setting, ahead: &BitsAhead<'_>) -> bool
    requires copied { IsCopied setting.now WIDTH }
    requires there { most_ahead ≤ length ahead.now }
    ensures { result ≡ true → word (id_len setting.now) (2 ^ id_len setting.now - 1)
        ≡ take (id_len setting.now) ahead.now }
{
    let id_len = known_id_len::<WIDTH>(setting) as u32;
    number_ahead(ahead, 0, id_len) == (1 << id_len) - 1
}

/// Writes the bytes of the samples of the next block, of `size` samples, which is not compressed, and up to 15 bytes more after these.
#[inline(always)]
fn write_copied_ahead<const WIDTH: usize>(
    setting: &Setting,
    size: usize,
    ahead: &BitsAhead<'_>,
    bytes: &mut [u8],
)
    requires copied { IsCopied setting.now WIDTH }
    requires size { size ≡ setting.now.block }
    requires there { copied_bits setting.now WIDTH + 128 ≤ length ahead.now }
    requires room { WIDTH * setting.now.block + 15 ≤ length bytes.old }
    ensures { WordsAhead ahead.now setting.now WIDTH (WIDTH * setting.now.block) bytes.new }
{
    let _block = setting.block();
    let count = WIDTH * size;
    let head = known_id_len::<WIDTH>(setting);
    for i in 0..(count + 15) / 16 {
        let patterns = words_ahead(ahead, head + 128 * i, 8);
        let spelled = bytes_of_patterns::<WIDTH>(setting, patterns);
        spelled.copy_to_slice(&mut bytes[16 * i..]);
    }
}

/// Returns the level of the last sample of the next block, of `size` samples, which is not compressed.
#[inline(always)]
fn last_copied<const WIDTH: usize>(setting: &Setting, size: usize, ahead: &BitsAhead<'_>) -> u32
    requires copied { IsCopied setting.now WIDTH }
    requires size { size ≡ setting.now.block }
    requires there { copied_bits setting.now WIDTH ≤ length ahead.now }
    ensures below { result < value_count setting.now }
    ensures last { word (8 * WIDTH) (pattern setting.now (value_at setting.now result))
        ≡ take (8 * WIDTH)
        (drop (id_len setting.now + 8 * (WIDTH * setting.now.block - WIDTH))
        ahead.now) }
{
    let _block = setting.block();
    let before = known_id_len::<WIDTH>(setting) + 8 * (WIDTH * (size - 1));
    level_of_pattern(setting, number_ahead(ahead, before, 8 * WIDTH as u32))
}

/// Writes the bytes of the block of `size` samples ahead. Returns `None` if not all its bits are buffered, or if its samples are predicted,
/// compressed, or do not use all bits of `WIDTH` bytes.
#[inline(always)]
pub fn write_copied_block<const WIDTH: usize>(
    setting: &Setting,
    size: usize,
    ahead: &BitsAhead<'_>,
    buffered: u64,
    bytes: &mut [u8; 320],
) -> Option<WrittenBlock>
    requires size { size ≡ setting.now.block }
    requires there { buffered + most_ahead ≤ length ahead.now }
    ensures some { IfSome result (λ r. (b : ℕ) (p : ℤ) →
        SpelledAhead ahead.now setting.now b p r.last r.len r.turns bytes.new) }
    ensures within { IfSome result (λ r. r.len ≤ buffered) }
{
    let _block = setting.block();
    if !is_copied::<WIDTH>(setting) {
        return None;
    }
    if !is_copied_ahead::<WIDTH>(setting, ahead) {
        return None;
    }
    let len = copied_len::<WIDTH>(setting, size);
    if buffered < len as u64 {
        return None;
    }
    write_copied_ahead::<WIDTH>(setting, size, ahead, bytes);
    Some(WrittenBlock {
        last: last_copied::<WIDTH>(setting, size, ahead),
        len,
        turns: 0,
    })
}
