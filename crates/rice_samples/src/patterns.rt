//! Numbers as patterns of bits, and patterns as bytes.
ghost use Rattle.std.specs.Prelude.{◌≡◌, ◌-◌, ◌*◌, ◌^◌, ◌<◌, ◌≤◌, length, ℤ, pos, neg_ℤ, ◌≤ℤ◌, ◌<ℤ◌};
ghost use Rattle.rice_samples.specs.{Residuals.twos_complement, Spelling.ordered_bytes, Parameters.IsValue};

use arrayvec::ArrayVec;

/// Returns the lowest `bits` binary digits of `x`.
#[inline]
pub(crate) fn digits_of(x: i64, bits: u32) -> u32
    requires bits { bits ≤ 32 }
    requires from { neg_ℤ (pos (2 ^ bits)) ≤ℤ x }
    requires below { x <ℤ pos (2 ^ bits) }
    ensures value { result ≡ twos_complement bits x }
    ensures fits { result < 2 ^ bits }
{
    (x.cast_unsigned() % (1 << bits)) as u32
}

/// Returns the value with these `bits` binary digits, in two's complement if `signed`.
#[inline]
pub(crate) fn value_of_digits(digits: u32, bits: u32, signed: bool) -> i64
    requires bits { (1 ≤ bits) × (bits ≤ 32) }
    requires digits { digits < 2 ^ bits }
    ensures value { IsValue bits signed result }
    ensures digits { twos_complement bits result ≡ digits }
{
    if signed {
        // With no case for a negative value, a loop widens signed bytes in lanes.
        let half = 1u64 << (bits - 1);
        ((digits as u64 + half) % (2 * half)) as i64 - half as i64
    } else {
        digits as i64
    }
}

/// Returns the number that one to four bytes spell.
#[inline]
pub(crate) fn number_of_bytes(bytes: &[u8], msb: bool) -> u32
    requires { (1 ≤ length bytes.now) × (length bytes.now ≤ 4) }
    ensures bytes { bytes.now ≡ ordered_bytes msb (length bytes.now) result }
    ensures fits { result < 2 ^ (8 * length bytes.now) }
{
    match *bytes {
        [a] => a as u32,
        [a, b] if msb => u16::from_be_bytes([a, b]) as u32,
        [a, b] => u16::from_le_bytes([a, b]) as u32,
        [a, b, c] if msb => u32::from_be_bytes([0, a, b, c]),
        [a, b, c] => u32::from_le_bytes([a, b, c, 0]),
        [a, b, c, d] if msb => u32::from_be_bytes([a, b, c, d]),
        [a, b, c, d] => u32::from_le_bytes([a, b, c, d]),
        _ => 0,
    }
}

/// Returns the lowest `width` bytes of a word.
#[inline]
pub(crate) fn bytes_with(word: u32, width: u32, msb: bool) -> ArrayVec<u8, 4>
    requires { (1 ≤ width) × (width ≤ 4) }
    ensures { result.items ≡ ordered_bytes msb width word }
{
    let mut bytes = [0; 4];
    let lowest = &mut bytes[..width as usize];
    store_word(word, msb, lowest);
    bytes_in_array_vec(lowest)
}

/// Stores the lowest bytes of a word in all places of a slice.
#[inline(always)]
pub(crate) fn store_word(word: u32, msb: bool, bytes: &mut [u8])
    requires { (1 ≤ length bytes.old) × (length bytes.old ≤ 4) }
    ensures { bytes.new ≡ ordered_bytes msb (length bytes.old) word }
{
    let [a, b, c, d] = word.to_le_bytes();
    match bytes.len() {
        1 => bytes.copy_from_slice(&[a]),
        2 if msb => bytes.copy_from_slice(&[b, a]),
        2 => bytes.copy_from_slice(&[a, b]),
        3 if msb => bytes.copy_from_slice(&[c, b, a]),
        3 => {
            // Two at once and one more.
            bytes[..2].copy_from_slice(&[a, b]);
            bytes[2] = c;
        }
        _ if msb => bytes.copy_from_slice(&[d, c, b, a]),
        _ => bytes.copy_from_slice(&[a, b, c, d]),
    }
}

/// Returns the bytes in a vector.
#[inline]
fn bytes_in_array_vec(bytes: &[u8]) -> ArrayVec<u8, 4>
    requires { length bytes.now ≤ 4 }
    ensures { result.items ≡ bytes.now }
{
    let mut vector = ArrayVec::new();
    for byte in bytes {
        vector.push(*byte);
    }
    vector
}
