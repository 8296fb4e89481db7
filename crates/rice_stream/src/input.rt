//! The bytes of samples that are buffered for a coder.
ghost use Rattle.std.specs.Io.KnownBytes.{IsAtEnd};
ghost use Rattle.std.specs.Prelude.{◌≡◌, ◌+◌, ◌-◌, ◌^◌, ◌<◌, ◌≤◌, length, take, IfOk, IfErr};
ghost use Rattle.rice_bits.specs.{Limits.most_at_once};
ghost use Rattle.rice_samples.specs.Limits.{most_input};
ghost use Rattle.rice_stream.specs.BufferedBytes.{nothing_buffered, with_last, Refills, StopsRefilling, CountsReads};

use crate::outcome::Fault;
use rice_bits::Intake;
use std::marker::Model;

/// The greatest number of bytes of samples that are read.
pub const MOST_INPUT: u64 = 1 << 48;

/// The size of a read, in bytes.
const PIECE: usize = 4096;

/// Bytes of samples that an intake gave, and no coder has taken.
///
/// It requests at most 4,096 bytes at a time, less those that are buffered, and at most 2^48 in all. After 2^48 bytes it requests one more (own
/// rule).
#[derive(Drop)]
pub struct Input {
    buffer: [u8; PIECE],
    /// The number of bytes that are buffered, at the front of the buffer.
    end: usize,
    given: u64,
}

impl Model for Input {
    ghost use Rattle.std.specs.Prelude.{◌≡◌, ◌≤◌, length, take};
    ghost use Rattle.rice_bits.specs.Limits.{most_at_once};
    ghost use Rattle.rice_samples.specs.Limits.{most_input};
    ghost use Rattle.rice_stream.specs.BufferedBytes.{BufferedBytes};

    ghost Value = { BufferedBytes };

    ghost view = { λ r. record { buffered = take r.end r.buffer; given = r.given } };

    ghost invariant = { λ r. (r.end ≤ most_at_once) × (length r.buffer ≡ most_at_once) × (r.given ≤ most_input) };
}

/// Returns the number of bytes to request next, with `given` read so far and `buffered` left in the buffer.
fn bytes_to_ask_for(given: u64, buffered: usize) -> usize
    requires { buffered < 4 }
    ensures some { 0 < result }
    ensures most { result + buffered ≤ most_at_once }
    ensures limit { given < most_input → given + result ≤ most_input }
    ensures last { most_input ≤ given → result ≡ 1 }
{
    if given < MOST_INPUT {
        (MOST_INPUT - given).min((PIECE - buffered) as u64) as usize
    } else {
        1
    }
}

impl Input {
    /// Returns an input that was given nothing.
    pub fn new() -> Self
        ensures { result ≡ nothing_buffered }
    {
        Input {
            buffer: [0; PIECE],
            end: 0,
            given: 0,
        }
    }

    /// Returns the bytes that are buffered.
    #[inline]
    pub fn buffered(&self) -> &[u8]
        ensures { result.now ≡ self.now.buffered }
    {
        &self.buffer[..self.end]
    }

    /// Removes all bytes but the last `count`.
    pub fn keep_last(&mut self, count: usize)
        requires { count ≤ length self.old.buffered }
        ensures { self.new ≡ with_last count self.old }
    {
        self.buffer.copy_within(self.end - count..self.end, 0);
        self.end = count;
    }

    /// Requests bytes, which are then buffered after the others, and returns their number: 0 at the end of the intake.
    ///
    /// # Errors
    ///
    /// Returns `Fault::Read` if the intake fails, and `Fault::TooLong` if it gives a byte after 2^48.
    pub fn refill<I: Intake>(&mut self, intake: &mut I) -> Result<usize, Fault>
        requires few { length self.old.buffered < 4 }
        requires countable { I.failed intake.old + 1 < 2 ^ 64 }
        ensures ok { IfOk result (λ n. Refills self.old self.new (I.left intake.old) (I.left intake.new) n) }
        ensures end { IfOk result (λ n. n ≡ 0 → IsAtEnd (I.left intake.new)) }
        ensures err { IfErr result (λ fault.
            StopsRefilling fault self.old self.new (I.left intake.old) (I.left intake.new)) }
        ensures buffered { length self.new.buffered ≤ most_at_once }
        ensures limit { self.new.given ≤ most_input }
        ensures failures { CountsReads (I.failed intake.old) (I.failed intake.new) result }
    {
        let most = bytes_to_ask_for(self.given, self.end);
        let count = match intake.fill(&mut self.buffer[self.end..self.end + most]) {
            Ok(count) => count,
            Err(_) => return Err(Fault::Read),
        };
        if count == 0 {
            return Ok(0);
        }
        if self.given >= MOST_INPUT {
            return Err(Fault::TooLong);
        }
        self.given += count as u64;
        self.end += count;
        Ok(count)
    }
}
