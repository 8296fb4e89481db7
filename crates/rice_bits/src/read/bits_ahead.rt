//! Bits that can be looked at before a reader takes them.
ghost use Rattle.std.specs.Prelude.{◌≡◌, ◌≤◌, drop, length};
ghost use Rattle.rice_bits.specs.Window.{AreBitsFrom};

use crate::read::window::ROOM;
use std::marker::Model;

/// Bits of a reader's buffer: those that are buffered, and after them others, which mean nothing.
///
/// In contracts its value is the list of these bits.
#[derive(Drop)]
pub struct BitsAhead<'a> {
    pub(crate) bytes: &'a [u8; ROOM],
    pub(crate) at: usize,
}

impl<'a> Model for BitsAhead<'a> {
    ghost use Rattle.std.specs.Prelude.{◌≡◌, ◌≤◌, Bool, List, length};
    ghost use Rattle.rice_bits.specs.Window.{bits_ahead, buffer_len, most_buffered};

    ghost Value = { List Bool };

    ghost view = { λ s. bits_ahead s.bytes.now s.at };

    ghost invariant = { λ s. (length s.bytes.now ≡ buffer_len) × (s.at ≤ most_buffered) };
}

impl<'a> BitsAhead<'a> {
    /// Returns the bytes, and the place in them, in bits, of these bits without the first `skip`.
    #[inline(always)]
    pub fn from(&self, skip: usize) -> (&'a [u8], usize)
        requires { skip ≤ length self.now }
        ensures { AreBitsFrom result.0.now result.1 (drop skip self.now) }
    {
        let bytes = self.bytes;
        (bytes, self.at + skip)
    }
}
