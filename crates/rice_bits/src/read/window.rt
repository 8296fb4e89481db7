//! The bytes that an intake gave last, and a place among their bits.
ghost use Rattle.std.specs.Prelude.{◌≡◌, ◌+◌, ◌-◌, ◌*◌, ◌^◌, ◌<◌, ◌≤◌, ◌&&◌, false, [], ◌++◌, min, replicate, length, take, IfSome, IfNone};
ghost use Rattle.rice_bits.specs.{Bits.bits_of, Bits.fundamental_sequence, Bits.word, Window.buffer_len, Window.most_buffered, Limits.most_bytes_read, Limits.most_at_once};
ghost use Rattle.rice_bits.specs.Reader.{is_blank};

use crate::bits::digits::front_digits;
use crate::bits::eight_bytes::{at_least_57_bits_from, number_from, store_zeros};

/// The greatest number of bytes requested at a time.
pub const PIECE: usize = 4096;

/// The size of the buffer: 40 bytes more, so that a look may go past the buffered bits, and then eight. With these, eight can be loaded
/// from each byte on.
pub const ROOM: usize = PIECE + 48;

/// The number of bits that eight bytes always have from any bit of the first byte on.
pub const AHEAD: usize = 57;

/// The bytes that an intake gave last, and a place among their bits.
#[derive(Drop)]
pub struct Window {
    /// The bytes, followed by eight zeros and by others.
    pub buffer: [u8; ROOM],
    /// The bits from here to `at` were taken since the mark, or since the bytes were given.
    pub marked: usize,
    /// The number of bits of these bytes that were taken.
    pub at: usize,
    /// The number of bits of these bytes.
    pub end: usize,
    /// The number of bytes that were given in all.
    pub given: u64,
}

impl Window {
    ghost use Rattle.rice_bits.specs.Window.{IsWindow, Passes, bits_near, window_bits, window_passed, window_taken};

    /// Returns a window with no bits, of which none was taken.
    pub fn new() -> Self
        ensures window { IsWindow result }
        ensures bits { window_bits result ≡ [] }
        ensures passed { window_passed result ≡ [] }
        ensures given { result.given ≡ 0 }
    {
        Window {
            buffer: [0; ROOM],
            marked: 0,
            at: 0,
            end: 0,
            given: 0,
        }
    }

    /// Makes the first `count` bytes of the buffer its content, and forgets all others.
    pub fn hold_new_bytes(&mut self, count: usize)
        requires size { length self.old.buffer ≡ buffer_len }
        requires count { count ≤ most_at_once }
        requires limit { self.old.given + count ≤ most_bytes_read }
        ensures window { IsWindow self.new }
        ensures bits { window_bits self.new ≡ bits_of (take count self.old.buffer) }
        ensures passed { window_passed self.new ≡ [] }
        ensures taken { window_taken self.new ≡ 8 * self.old.given }
    {
        self.marked = 0;
        self.at = 0;
        self.end = 8 * count;
        self.given += count as u64;
        store_zeros(&mut self.buffer, count, 8);
    }

    /// Returns the number of buffered bits.
    #[inline]
    pub fn buffered(&self) -> usize
        requires { IsWindow self.now }
        ensures value { result ≡ length (window_bits self.now) }
        ensures piece { result ≤ most_buffered }
    {
        self.end - self.at
    }

    /// Returns the number of bits taken.
    #[inline]
    pub fn taken(&self) -> u64
        requires { IsWindow self.now }
        ensures { result ≡ window_taken self.now }
    {
        8 * self.given - (self.end - self.at) as u64
    }

    /// Forgets which bits were taken.
    #[inline]
    pub fn mark(&mut self)
        requires window { IsWindow self.old }
        ensures window { IsWindow self.new }
        ensures bits { window_bits self.new ≡ window_bits self.old }
        ensures passed { window_passed self.new ≡ [] }
        ensures taken { window_taken self.new ≡ window_taken self.old }
    {
        self.marked = self.at;
    }

    /// Returns whether `before` holds and no bit taken since the mark is a 1.
    #[inline]
    pub fn is_blank(&self, before: bool) -> bool
        requires { IsWindow self.now }
        ensures { result ≡ (before && is_blank (window_passed self.now)) }
    {
        before && self.has_passed_zeros_alone()
    }

    /// Returns whether no bit taken since the mark is a 1.
    fn has_passed_zeros_alone(&self) -> bool
        requires { IsWindow self.now }
        ensures { result ≡ is_blank (window_passed self.now) }
    {
        let mut seen = self.marked;
        while seen < self.at {
            let count = AHEAD.min(self.at - seen);
            if front_digits(at_least_57_bits_from(&self.buffer, seen), count as u32) != 0 {
                return false;
            }
            seen += count;
        }
        true
    }

    /// Returns the next bits at the start of a word, followed by zeros: all buffered bits, or at least 57 of them.
    #[inline]
    pub fn first_bits_ahead(&self) -> u64
        requires { IsWindow self.now }
        ensures { word 64 result
            ≡ take (bits_near self.now) (window_bits self.now)
            ++ replicate (64 - bits_near self.now) false }
    {
        at_least_57_bits_from(&self.buffer, self.at)
    }

    /// Takes the first `width` bits if more are buffered.
    #[inline]
    pub fn take_if_more_buffered(&mut self, width: u32) -> Option<u64>
        requires window { IsWindow self.old }
        requires width { width ≤ 32 }
        ensures window { IsWindow self.new }
        ensures some { IfSome result (λ v. (v < 2 ^ width) ×
            Passes self.old self.new (word width v) × (0 < length (window_bits self.old))) }
        ensures none { IfNone result (self.new ≡ self.old) }
    {
        let next = self.at + width as usize;
        // A reader that has refused has no bits, and so gives no word of width 0 here.
        if next >= self.end {
            return None;
        }
        let number = number_from(&self.buffer, self.at, width);
        self.at = next;
        Some(number)
    }

    /// Takes the first `count` bits.
    pub fn take_first_bits(&mut self, count: u32) -> u64
        requires window { IsWindow self.old }
        requires few { count ≤ 32 }
        requires there { count ≤ length (window_bits self.old) }
        ensures window { IsWindow self.new }
        ensures below { result < 2 ^ count }
        ensures passes { Passes self.old self.new (word count result) }
    {
        let number = number_from(&self.buffer, self.at, count);
        self.at += count as usize;
        number
    }

    /// Returns the number of bits up to and including the first 1. Returns `None` only if the first 57 buffered bits, or all, are 0.
    #[inline]
    pub fn len_of_sequence_ahead(&self) -> Option<u64>
        requires { IsWindow self.now }
        ensures some { IfSome result (λ n. (0 < n) × (n ≤ length (window_bits self.now)) ×
            (take n (window_bits self.now) ≡ fundamental_sequence (n - 1))) }
        ensures none { IfNone result
            (take (min 57 (length (window_bits self.now))) (window_bits self.now)
            ≡ replicate (min 57 (length (window_bits self.now))) false) }
    {
        // After one zero more, the zeros before the 1 are as many as the bits up to and including it.
        let after_zero = self.first_bits_ahead() >> 1;
        if after_zero == 0 {
            return None;
        }
        Some(after_zero.leading_zeros() as u64)
    }

    /// Takes the first `count` bits, whatever they are.
    #[inline]
    pub fn pass(&mut self, count: u64)
        requires window { IsWindow self.old }
        requires there { count ≤ length (window_bits self.old) }
        ensures window { IsWindow self.new }
        ensures passes { Passes self.old self.new (take count (window_bits self.old)) }
    {
        self.at += count as usize;
    }
}
