//! Rows of samples in the lanes of vectors: from words to bytes.
ghost use Rattle.std.specs.Prelude.{◌≡◌, ℕ, ◌+◌, ◌-◌, ◌*◌, ◌^◌, ◌<◌, ◌≤◌, ◌++◌, All, drop, flat_map, get_or, length, replicate, take};
ghost use Rattle.rice_bits.specs.Bits.{word};
ghost use Rattle.rice_samples.specs.Parameters.{Parameters, id_len, k_max, value_count, values_at, width as width_of};
ghost use Rattle.rice_samples.specs.{Spelling.spellings, Residuals.ranks_below};
ghost use Rattle.rice_fast.specs.{BlocksAhead.HasBits, FieldsAhead.CanLook};

mod bytes;
mod halves;
mod words;

use crate::vectors::Lanes;
use rice_bits::BitsAhead;
use rice_samples::Setting;

/// The lanes in which samples of some numbers of bits are decoded.
pub trait SampleLanes: Lanes {
    /// The number of bits of a lane.
    const BITS: u32;

    ghost BITS: { ℕ };

    /// The number of bits of an identifier.
    const ID_LEN: u32;

    ghost ID_LEN: { ℕ };

    // Samples have more bits than these.
    ghost below: { ℕ };

    /// Returns the words of `width` bits after the first `skip` bits ahead, one in each lane.
    fn words_ahead(ahead: &BitsAhead<'_>, skip: usize, width: u32) -> Self
        requires width { width ≤ Self.bits }
        requires there { CanLook (skip + 256) ahead.now }
        ensures fit { All (λ v. v < 2 ^ width) (Self.numbers result) }
        ensures bits { flat_map (word width) (Self.numbers result)
            ≡ take (Self.COUNT * width) (drop skip ahead.now) };

    /// Returns the first of these bytes, one in each lane.
    fn of_bytes(from: &[u8]) -> Self
        requires { Self.COUNT ≤ length from.now }
        ensures { Self.numbers result ≡ take Self.COUNT from.now };

    /// Returns the first `count` numbers, with zeros after them.
    fn first(self, count: usize) -> Self
        requires { count ≤ Self.COUNT }
        ensures { Self.numbers result ≡ take count (Self.numbers self) ++ replicate (Self.COUNT - count) 0 };

    /// Returns the number of the lane at `place`.
    fn number_at(self, place: usize) -> u32
        requires { place < Self.COUNT }
        ensures { result ≡ get_or (Self.numbers self) place 0 };

    /// Returns the numbers up to `greatest` with these ranks: the first from `before`, each other from the one before it.
    fn in_turn(self, greatest: u32, before: u32) -> Self
        requires greatest { greatest < 2 ^ Self.bits }
        requires before { before ≤ greatest }
        requires ranks { All (λ d. d ≤ greatest) (Self.numbers self) }
        ensures fit { All (λ x. x ≤ greatest) (Self.numbers result) }
        ensures ranks { ranks_below (greatest + 1) before (Self.numbers result) ≡ Self.numbers self };

    /// Writes the bytes of the samples with these levels. It may write up to eight more.
    fn write_bytes(self, setting: &Setting, bytes: &mut [u8])
        requires bits { HasBits below Self.bits setting.now }
        requires legal { All (λ l. l < value_count setting.now) (Self.numbers self) }
        requires room { 32 ≤ length bytes.old }
        ensures spelled { take (width_of setting.now * Self.COUNT) bytes.new
            ≡ spellings setting.now (values_at setting.now (Self.numbers self)) }
        ensures len { length bytes.new ≡ length bytes.old };

    ghost bits_are: { BITS ≡ Self.bits };

    ghost id_is: { (s : Parameters) → HasBits below Self.bits s → id_len s ≡ ID_LEN };

    ghost splits: { (s : Parameters) → s.bits ≤ Self.bits → k_max s < Self.bits };

    ghost row: { (s : Parameters) → s.bits ≤ Self.bits → width_of s * Self.COUNT ≤ 32 };
}
