//! A list of bits, gathered into bytes.
ghost use Rattle.std.specs.Prelude.{◌≡◌, ◌+◌, ◌-◌, ◌*◌, ◌%◌, ◌^◌, ◌<◌, ◌≤◌, Bool, false, List, [], ◌++◌, length, drop, replicate};
ghost use Rattle.rice_bits.specs.Limits.{step_limit};
ghost use Rattle.rice_bits.specs.Bits.{fundamental_sequence, word, whole_bytes, bits_in_bytes, bits_to_byte, put_width, IsBitSink, Joins, Puts};

use crate::Meter;
use crate::bits::digits::digits_moved_to_front;
use crate::bits::eight_bytes::{front, join_bytes, join_one_at_bit, move_byte_to_front};
use std::marker::Model;

/// A list of at most `8 * N` bits, gathered into bytes, most significant bit first.
///
/// It takes `N + 8` bytes of memory. In contracts its value is the list of the bits.
#[derive(Drop)]
pub struct BitSink<const N: usize> {
    /// The bits, and zeros after them.
    pub(crate) bytes: [u8; N],
    /// The number of bits.
    pub(crate) bits: u64,
}

impl<const N: usize> Model for BitSink<N> {
    ghost use Rattle.std.specs.Prelude.{Bool, List, take};
    ghost use Rattle.rice_bits.specs.Bits.{bits_of, IsBitSink};

    ghost Value = { List Bool };

    ghost view = { λ s. take s.bits (bits_of s.bytes) };

    ghost invariant = { λ s. IsBitSink N s.bits s.bytes };
}

impl<const N: usize> BitSink<N> {
    /// Returns a sink with no bits.
    pub fn new() -> Self
        requires { N < 2 ^ 32 }
        ensures { result ≡ [] }
    {
        BitSink {
            bytes: [0; N],
            bits: 0,
        }
    }

    /// Returns the number of bits.
    #[inline]
    pub fn len(&self) -> u64
        ensures value { result ≡ length self.now }
        ensures fits { result ≤ 8 * N }
    {
        self.bits
    }

    /// Returns the number of bits that still fit.
    #[inline]
    pub fn room(&self) -> u64
        ensures { result + length self.now ≡ 8 * N }
    {
        let bits = self.bits;
        8 * N as u64 - bits
    }

    /// Appends the `width` binary digits of `value`, most significant first, and ticks once for each.
    #[inline]
    pub fn put(&mut self, value: u32, width: u32, meter: &mut Meter)
        requires width { width ≤ 32 }
        requires value { value < 2 ^ width }
        requires room { length self.old + width ≤ 8 * N }
        requires meter { meter.old + width < step_limit }
        ensures { Puts (word width value) width width self.old self.new meter.old meter.new }
    {
        self.put_up_to_56_digits(value as u64, width, meter);
    }

    /// Appends the `width` binary digits of `value`, most significant first, and ticks once for each.
    ///
    /// At most 56 digits fit eight bytes after the bits of an unfinished byte.
    #[inline(always)]
    pub fn put_up_to_56_digits(&mut self, value: u64, width: u32, meter: &mut Meter)
        requires width { width ≤ put_width }
        requires value { value < 2 ^ width }
        requires room { length self.old + width ≤ 8 * N }
        requires meter { meter.old + width < step_limit }
        ensures { Puts (word width value) width width self.old self.new meter.old meter.new }
    {
        meter.tick(width as u64);
        self.bits = join_digits_in_memory(&mut self.bytes, self.bits, value, width);
    }

    /// Appends the fundamental sequence of `m`, `m` zeros and a one, and ticks once for each bit
    /// (CCSDS 121.0-B-3, section 3, fundamental sequence).
    #[inline]
    pub fn put_fs(&mut self, m: u64, meter: &mut Meter)
        requires room { length self.old + m + 1 ≤ 8 * N }
        requires meter { meter.old + m + 1 < step_limit }
        ensures { Puts (fundamental_sequence m) (m + 1) (m + 1) self.old self.new meter.old meter.new }
    {
        let count = m + 1;
        meter.tick(count);
        join_one_at_bit(&mut self.bytes, self.bits + m);
        self.bits += count;
    }

    /// Returns the whole bytes.
    #[inline]
    pub fn whole(&self) -> &[u8]
        ensures { result.now ≡ whole_bytes self.now }
    {
        front(&self.bytes, (self.bits / 8) as usize)
    }

    /// Removes the whole bytes, so that at most seven bits are left.
    #[inline]
    pub fn drop_whole(&mut self)
        ensures bits { self.new ≡ drop (bits_in_bytes (length self.old)) self.old }
        ensures len { length self.new ≡ length self.old % 8 }
    {
        move_byte_to_front(&mut self.bytes, (self.bits / 8) as usize);
        self.bits %= 8;
    }

    /// Appends zeros up to a whole byte, without a tick.
    pub fn pad(&mut self)
        ensures bits { self.new ≡ self.old ++ replicate (bits_to_byte (length self.old)) false }
        ensures len { length self.new ≡ length self.old + bits_to_byte (length self.old) }
    {
        self.bits += (8 - self.bits % 8) % 8;
    }
}

/// Joins the `width` binary digits of `value` to the first `bits` bits, and returns how many bits there are then.
#[inline(always)]
pub(crate) fn join_digits_in_memory(bytes: &mut [u8], bits: u64, value: u64, width: u32) -> u64
    requires width { width ≤ put_width }
    requires value { value < 2 ^ width }
    requires bits { IsBitSink (length bytes.old) bits bytes.old }
    requires room { bits + width ≤ 8 * length bytes.old }
    ensures { Joins (word width value) width bits result bytes.old bytes.new }
{
    let count = (bits % 8) as u32 + width;
    join_bytes(
        bytes,
        (bits / 8) as usize,
        digits_moved_to_front(value, count),
    );
    bits + width as u64
}
