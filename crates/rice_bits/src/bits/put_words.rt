//! A call of a sink: many words at a time.
ghost use Rattle.std.specs.Prelude.{◌≡◌, ◌+◌, ◌*◌, ◌%◌, ◌^◌, ◌<◌, ◌≤◌, ◌++◌, length, flat_map};
ghost use Rattle.rice_bits.specs.{Bits.word, Bits.IsBitSink, Bits.Joins, Bits.Puts, Bits.IsWholeWidth, Limits.step_limit};

use crate::Meter;
use crate::bits::sink::{BitSink, join_digits_in_memory};
use crate::bits::whole_words::join_all_but_last_digits;

impl<const N: usize> BitSink<N> {
    /// Appends the `count` binary digits of `value`, and then the `width` lowest ones of each of the words, all most significant
    /// first, and ticks once for each digit.
    ///
    /// It writes 64 digits at a time. Words have 8, 16 or 32 digits, and come in eights.
    #[inline(always)]
    pub fn put_number_and_whole_words(
        &mut self,
        value: u64,
        count: u32,
        words: &[u32],
        width: u32,
        meter: &mut Meter,
    )
        requires count { (1 ≤ count) × (count ≤ 48) }
        requires value { value < 2 ^ count }
        requires width { IsWholeWidth width }
        requires eights { (8 ≤ length words.now) × (length words.now % 8 ≡ 0) }
        requires room { length self.old + (count + width * length words.now) ≤ 8 * N }
        requires meter { meter.old + (count + width * length words.now) < step_limit }
        ensures { Puts (word count value ++ flat_map (word width) words.now)
            (count + width * length words.now) (count + width * length words.now)
            self.old self.new meter.old meter.new }
    {
        meter.tick(count as u64 + width as u64 * words.len() as u64);
        self.bits = join_number_and_whole_words(
            &mut self.bytes,
            self.bits,
            value,
            count,
            words,
            width,
        );
    }
}

/// Joins the `count` digits of `value`, and then the `width` lowest digits of each of the words, to the first `bits` bits, and
/// returns how many bits there are then.
#[inline(always)]
fn join_number_and_whole_words(
    bytes: &mut [u8],
    bits: u64,
    value: u64,
    count: u32,
    words: &[u32],
    width: u32,
) -> u64
    requires count { (1 ≤ count) × (count ≤ 48) }
    requires value { value < 2 ^ count }
    requires width { IsWholeWidth width }
    requires eights { (8 ≤ length words.now) × (length words.now % 8 ≡ 0) }
    requires bits { IsBitSink (length bytes.old) bits bytes.old }
    requires room { bits + (count + width * length words.now) ≤ 8 * length bytes.old }
    ensures { Joins (word count value ++ flat_map (word width) words.now)
        (count + width * length words.now) bits result bytes.old bytes.new }
{
    // The loop is laid out for each width.
    match width {
        8 => join_whole_words_of_known_width(bytes, bits, value, count, words, 8),
        16 => join_whole_words_of_known_width(bytes, bits, value, count, words, 16),
        _ => join_whole_words_of_known_width(bytes, bits, value, count, words, 32),
    }
}

/// As `join_number_and_whole_words`, for a width that the compiler knows.
#[inline(always)]
fn join_whole_words_of_known_width(
    bytes: &mut [u8],
    bits: u64,
    value: u64,
    count: u32,
    words: &[u32],
    width: u32,
) -> u64
    requires count { (1 ≤ count) × (count ≤ 48) }
    requires value { value < 2 ^ count }
    requires width { IsWholeWidth width }
    requires eights { (8 ≤ length words.now) × (length words.now % 8 ≡ 0) }
    requires bits { IsBitSink (length bytes.old) bits bytes.old }
    requires room { bits + (count + width * length words.now) ≤ 8 * length bytes.old }
    ensures { Joins (word count value ++ flat_map (word width) words.now)
        (count + width * length words.now) bits result bytes.old bytes.new }
{
    let left = (bits % 8) as u32 + count;
    let (all, last) = join_all_but_last_digits(bytes, bits, value, count, words, width);
    join_digits_in_memory(bytes, all, last % (1 << left), left)
}
