//! Reads the bits of an intake's bytes.
ghost use Rattle.std.specs.Prelude.{◌≡◌, ℕ, ◌+◌, ◌-◌, ◌*◌, ◌%◌, ◌^◌, ◌<◌, ◌≤◌, ◌&&◌, Bool, true, false, List, [], ◌++◌, length, replicate, take, IfOk, IfErr, OnOk, IfSome, IfNone, IsSome, Option};
ghost use Rattle.std.specs.{Io.KnownBytes.Consumes, Prelude.None};
ghost use Rattle.rice_bits.specs.Window.{IsWindow, buffer_len, most_buffered, window_bits, window_passed, window_taken};
ghost use Rattle.rice_bits.specs.{Limits.step_limit, Limits.most_bits_read, Limits.most_bytes_read, Limits.most_at_once, Bits.fundamental_sequence, Bits.bits_to_byte, Bits.word};
ghost use Rattle.rice_bits.specs.Reader.{Supplies, Refuses, is_blank, new_reader};

use crate::bits::digits::join;
use crate::device::Intake;
use crate::meter::Meter;
use crate::read::fault::BitFault;
use crate::read::window::{AHEAD, PIECE, Window};
use std::marker::Model;

/// The most bytes that a reader takes from its intake.
const LIMIT: u64 = 1 << 49;

/// Reads the bits of an intake's bytes, most significant first.
///
/// Over a slice it takes 4,200 bytes of memory. In contracts its value is a record of the buffered bits, the number of bits taken, whether
/// all since the mark were 0, and the refusal. The record also has the intake, and its reported bytes and failures.
///
/// It calls the intake only when a bit is requested and none is buffered: for at most 4,096 bytes at a time, and never past 2^49 bytes in
/// all. After 2^49 bytes it calls once, for one byte (own rule). A refused call has taken all remaining bits; each later `take` or
/// `take_fs` returns the same refusal and takes nothing.
#[derive(Drop)]
pub struct BitReader<I: Intake> {
    intake: I,
    pub(crate) window: Window,
    /// Whether all bits taken since the mark were 0, except for those that the window still has.
    blank_before: bool,
    refusal: Option<BitFault>,
}

impl<I: Intake> Model for BitReader<I> {
    ghost use Rattle.std.specs.Prelude.{◌&&◌};
    ghost use Rattle.rice_bits.specs.{Window.window_bits, Window.window_passed, Window.window_taken, Reader.Reader, Reader.IsReader, Reader.is_blank};

    ghost Value = { Reader I };

    ghost view = { λ s. record { buffered = window_bits s.window; taken = window_taken s.window; blank = s.blank_before && is_blank (window_passed s.window); refusal = s.refusal; intake = s.intake; left = I.left s.intake; failed = I.failed s.intake } };

    ghost invariant = { λ s. IsReader (I.failed s.intake) s.window s.refusal };
}

/// Requests the bytes after the first `given` from the intake, and returns how many it put at the start of `buffer`.
fn ask_intake<I: Intake>(
    intake: &mut I,
    buffer: &mut [u8],
    given: u64,
    blank: bool,
) -> Result<usize, BitFault>
    requires room { length buffer.old ≡ buffer_len }
    requires given { given ≤ most_bytes_read }
    requires countable { I.failed intake.old + 1 < 2 ^ 64 }
    ensures some { IfOk result (λ n. (0 < n) × (n ≤ most_at_once)) }
    ensures limit { IfOk result (λ n. given + n ≤ most_bytes_read) }
    ensures gave { IfOk result (λ n.
        Consumes (I.left intake.old) (I.left intake.new) (take n buffer.new)) }
    ensures failures { OnOk result (I.failed intake.new ≡ I.failed intake.old) }
    ensures err { IfErr result (λ f.
        Refuses f (I.left intake.old) (I.left intake.new) (I.failed intake.old)
        (I.failed intake.new) (8 * given) blank) }
{
    let most = if given < LIMIT {
        (LIMIT - given).min(PIECE as u64) as usize
    } else {
        1
    };
    let count = match intake.fill(&mut buffer[..most]) {
        Ok(count) => count,
        Err(_) => return Err(BitFault::Read),
    };
    if count == 0 {
        return Err(BitFault::End { blank });
    }
    if given >= LIMIT {
        return Err(BitFault::TooLong);
    }
    Ok(count)
}

/// Refills the window from the intake if no bit is buffered.
fn refill_if_empty<I: Intake>(
    intake: &mut I,
    window: &mut Window,
    blank_before: &mut bool,
) -> Result<(), BitFault>
    requires window { IsWindow window.old }
    requires countable { I.failed intake.old + 1 < 2 ^ 64 }
    ensures window { IsWindow window.new }
    ensures some { OnOk result (0 < length (window_bits window.new)) }
    ensures ok { OnOk result (Supplies (I.left intake.old) (I.left intake.new)
        (window_bits window.old) (window_bits window.new)) }
    ensures blank { (blank_before.new && is_blank (window_passed window.new))
        ≡ (blank_before.old && is_blank (window_passed window.old)) }
    ensures taken { window_taken window.new ≡ window_taken window.old }
    ensures failures { OnOk result (I.failed intake.new ≡ I.failed intake.old) }
    ensures idle { 0 < length (window_bits window.old) → intake.new ≡ intake.old }
    ensures err { IfErr result (λ f. (window_bits window.old ≡ []) × (window_bits window.new ≡ []) ×
        Refuses f (I.left intake.old) (I.left intake.new) (I.failed intake.old)
        (I.failed intake.new) (window_taken window.old)
        (blank_before.old && is_blank (window_passed window.old))) }
{
    if window.buffered() > 0 {
        return Ok(());
    }
    // Other bytes may take the place of the bits that were taken.
    *blank_before = window.is_blank(*blank_before);
    match ask_intake(intake, &mut window.buffer, window.given, *blank_before) {
        Ok(count) => {
            window.hold_new_bytes(count);
            Ok(())
        }
        Err(fault) => {
            // The intake may have left anything in the buffer.
            window.hold_new_bytes(0);
            Err(fault)
        }
    }
}

impl<I: Intake> BitReader<I> {
    ghost use Rattle.rice_bits.specs.Reader.{Takes, Stops};

    /// Returns a reader that has taken no bit, as if just after [`mark`](Self::mark).
    pub fn new(intake: I) -> Self
        requires { I.failed intake + 1 < 2 ^ 64 }
        ensures { result ≡ new_reader intake (I.left intake) (I.failed intake) }
    {
        BitReader {
            intake,
            window: Window::new(),
            blank_before: true,
            refusal: None,
        }
    }

    /// Returns the intake, as the last call of its `fill` left it. Buffered bits are lost.
    pub fn into_inner(self) -> I
        ensures value { result ≡ self.intake }
        ensures left { I.left result ≡ self.left }
        ensures failed { I.failed result ≡ self.failed }
    {
        self.intake
    }

    /// Returns the number of bits taken, at most 2^52.
    #[inline]
    pub fn taken(&self) -> u64
        ensures value { result ≡ self.now.taken }
        ensures limit { result + length self.now.buffered ≤ most_bits_read }
        // At most 4,096 bytes are asked for at a time.
        ensures buffered { length self.now.buffered ≤ most_buffered }
        ensures aligned { (result + length self.now.buffered) % 8 ≡ 0 }
    {
        self.window.taken()
    }

    /// Forgets each 1 that was taken so far. After a refusal it changes nothing.
    #[inline]
    pub fn mark(&mut self)
        ensures going { self.old.refusal ≡ None → self.new ≡ record self.old { blank = true } }
        ensures stopped { IsSome self.old.refusal → self.new ≡ self.old }
    {
        if self.refusal.is_none() {
            self.window.mark();
            self.blank_before = true;
        }
    }

    /// Takes the next `width` bits, and returns their number, most significant bit first. It ticks once for each bit taken.
    ///
    /// An error says why these bits are missing: [`BitFault`] has each case.
    #[inline]
    pub fn take(&mut self, width: u32, meter: &mut Meter) -> Result<u32, BitFault>
        requires width { width ≤ 32 }
        requires meter { meter.old + width < step_limit }
        ensures ok { IfOk result (λ v. (v < 2 ^ width) × Takes self.old self.new (word width v)) }
        // A first refusal took all bits that were left, which were too few.
        ensures err { self.old.refusal ≡ None → IfErr result (λ f.
            (bits : List Bool) × (length bits < width) × Stops self.old self.new bits f) }
        // A reader that has refused returns the same refusal, and takes nothing.
        ensures stopped { IfSome self.old.refusal (λ f. (result ≡ Err f) × (self.new ≡ self.old)) }
        ensures taken { OnOk result (self.new.taken ≡ self.old.taken + width) }
        ensures most { self.new.taken ≤ self.old.taken + width }
        ensures limit { self.new.taken ≤ most_bits_read }
        // The intake is not called where enough bits are buffered.
        ensures idle { width ≤ length self.old.buffered → self.new.intake ≡ self.old.intake }
        ensures steps { meter.new + self.old.taken ≡ meter.old + self.new.taken }
    {
        if let Some(value) = self.take_if_more_buffered(width, meter) {
            return Ok(value);
        }
        let value = self.take_with_refills(width, meter);
        match self.refusal {
            None => Ok(value),
            Some(fault) => Err(fault),
        }
    }

    /// Takes the next `width` bits if more are buffered.
    #[inline]
    fn take_if_more_buffered(&mut self, width: u32, meter: &mut Meter) -> Option<u32>
        requires width { width ≤ 32 }
        requires meter { meter.old + width < step_limit }
        ensures some { IfSome result (λ v. (v < 2 ^ width) ×
            Takes self.old self.new (word width v)) }
        ensures going { IsSome result → self.old.refusal ≡ None }
        ensures idle { self.new.intake ≡ self.old.intake }
        ensures none { IfNone result ((self.new ≡ self.old) × (meter.new ≡ meter.old)) }
        ensures steps { meter.new + self.old.taken ≡ meter.old + self.new.taken }
        ensures limit { self.new.taken ≤ most_bits_read }
    {
        let number = self.window.take_if_more_buffered(width)?;
        meter.tick(width as u64);
        Some(number as u32)
    }

    /// Takes the next `width` bits, and calls the intake when too few are buffered. If it leaves a refusal, the result means
    /// nothing.
    #[inline(never)]
    fn take_with_refills(&mut self, width: u32, meter: &mut Meter) -> u32
        requires width { width ≤ 32 }
        requires meter { meter.old + width < step_limit }
        ensures ok { self.new.refusal ≡ None → (result < 2 ^ width) ×
            Takes self.old self.new (word width result) }
        // A first refusal took all bits that were left, which were too few.
        ensures err { self.old.refusal ≡ None → IfSome self.new.refusal (λ f.
            (bits : List Bool) × (length bits < width) × Stops self.old self.new bits f) }
        // A reader that has refused takes nothing.
        ensures stopped { IsSome self.old.refusal → self.new ≡ self.old }
        ensures taken { self.new.refusal ≡ None → self.new.taken ≡ self.old.taken + width }
        ensures most { self.new.taken ≤ self.old.taken + width }
        ensures limit { self.new.taken ≤ most_bits_read }
        // The intake is not called where enough bits are buffered.
        ensures idle { width ≤ length self.old.buffered → self.new.intake ≡ self.old.intake }
        ensures steps { meter.new + self.old.taken ≡ meter.old + self.new.taken }
    {
        if self.refusal.is_some() {
            return 0;
        }
        let mut value = 0;
        let mut left = width;
        while left > 0 {
            match self.take_some_digits(left, meter) {
                Ok((digits, count)) => {
                    value = join(value, count, digits);
                    left -= count;
                }
                Err(_) => return 0,
            }
        }
        value as u32
    }

    /// Takes a fundamental sequence, the bits up to and including the next 1, and returns the number of zeros in it (CCSDS 121.0-B-3,
    /// section 3, fundamental sequence). It ticks once for each bit taken.
    ///
    /// An error says why there is no 1: [`BitFault`] has each case.
    #[inline]
    pub fn take_fs(&mut self, meter: &mut Meter) -> Result<u64, BitFault>
        requires meter { meter.old + (most_bits_read - self.old.taken) < step_limit }
        ensures ok { IfOk result (λ m. Takes self.old self.new (fundamental_sequence m)) }
        // A first refusal took all bits that were left, which were zeros.
        ensures err { self.old.refusal ≡ None → IfErr result (λ f.
            (m : ℕ) × Stops self.old self.new (replicate m false) f) }
        // A reader that has refused returns the same refusal, and takes nothing.
        ensures stopped { IfSome self.old.refusal (λ f. (result ≡ Err f) × (self.new ≡ self.old)) }
        ensures taken { IfOk result (λ m. self.new.taken ≡ self.old.taken + m + 1) }
        ensures most { self.new.taken ≤ most_bits_read }
        // The intake is not called where a 1 is buffered.
        ensures idle { is_blank self.old.buffered ≡ false → self.new.intake ≡ self.old.intake }
        ensures steps { meter.new + self.old.taken ≡ meter.old + self.new.taken }
    {
        if let Some(zeros) = self.take_fs_if_soon(meter) {
            return Ok(zeros);
        }
        let zeros = self.take_fs_with_refills(meter);
        match self.refusal {
            None => Ok(zeros),
            Some(fault) => Err(fault),
        }
    }

    /// Takes a fundamental sequence if its 1 is near.
    #[inline]
    fn take_fs_if_soon(&mut self, meter: &mut Meter) -> Option<u64>
        requires meter { meter.old + (most_bits_read - self.old.taken) < step_limit }
        ensures some { IfSome result (λ m. Takes self.old self.new (fundamental_sequence m)) }
        ensures going { IsSome result → self.old.refusal ≡ None }
        ensures idle { self.new.intake ≡ self.old.intake }
        ensures none { IfNone result ((self.new ≡ self.old) × (meter.new ≡ meter.old)) }
        ensures steps { meter.new + self.old.taken ≡ meter.old + self.new.taken }
        ensures limit { self.new.taken ≤ most_bits_read }
    {
        let count = self.window.len_of_sequence_ahead()?;
        // The meter first: after its store the place is moved by one addition in memory.
        meter.tick(count);
        self.window.pass(count);
        Some(count - 1)
    }

    /// Takes a fundamental sequence, and calls the intake if no 1 is buffered. If it leaves a refusal, the result means nothing.
    #[inline(never)]
    fn take_fs_with_refills(&mut self, meter: &mut Meter) -> u64
        requires meter { meter.old + (most_bits_read - self.old.taken) < step_limit }
        ensures ok { self.new.refusal ≡ None →
            Takes self.old self.new (fundamental_sequence result) }
        // A first refusal took all bits that were left, which were zeros.
        ensures err { self.old.refusal ≡ None → IfSome self.new.refusal (λ f.
            (m : ℕ) × Stops self.old self.new (replicate m false) f) }
        // A reader that has refused takes nothing.
        ensures stopped { IsSome self.old.refusal → self.new ≡ self.old }
        ensures taken { self.new.refusal ≡ None → self.new.taken ≡ self.old.taken + result + 1 }
        ensures most { self.new.taken ≤ most_bits_read }
        // The intake is not called where a 1 is buffered.
        ensures idle { is_blank self.old.buffered ≡ false → self.new.intake ≡ self.old.intake }
        ensures steps { meter.new + self.old.taken ≡ meter.old + self.new.taken }
    {
        if self.refusal.is_some() {
            return 0;
        }
        let mut zeros = 0;
        loop {
            match self.take_some_of_sequence(meter) {
                Ok((count, true)) => return zeros + count,
                Ok((count, false)) => zeros += count,
                Err(_) => return 0,
            }
        }
    }

    /// Takes some zeros, or zeros and a 1. Returns the number of zeros, and whether there was a 1.
    fn take_some_of_sequence(&mut self, meter: &mut Meter) -> Result<(u64, bool), BitFault>
        requires going { self.old.refusal ≡ None }
        requires meter { meter.old + (most_bits_read - self.old.taken) < step_limit }
        ensures one { IfOk result (λ r. r.1 ≡ true →
            Takes self.old self.new (fundamental_sequence r.0)) }
        ensures zeros { IfOk result (λ r. r.1 ≡ false → (0 < r.0) ×
            Takes self.old self.new (replicate r.0 false)) }
        ensures err { IfErr result (Stops self.old self.new []) }
        ensures idle { 0 < length self.old.buffered → self.new.intake ≡ self.old.intake }
        ensures steps { meter.new + self.old.taken ≡ meter.old + self.new.taken }
        ensures limit { self.new.taken ≤ most_bits_read }
    {
        if let Err(refusal) = refill_if_empty(
            &mut self.intake,
            &mut self.window,
            &mut self.blank_before,
        ) {
            self.refusal = Some(refusal);
            return Err(refusal);
        }
        if let Some(count) = self.window.len_of_sequence_ahead() {
            meter.tick(count);
            self.window.pass(count);
            return Ok((count - 1, true));
        }
        let zeros = AHEAD.min(self.window.buffered()) as u64;
        meter.tick(zeros);
        self.window.pass(zeros);
        Ok((zeros, false))
    }

    /// Takes the 0 to 7 bits up to the next multiple of 8 of [`taken`](Self::taken), whatever they are, and ticks once for each. They are
    /// always buffered. A 1 among them counts as no 1 since the mark.
    pub fn align(&mut self, meter: &mut Meter)
        requires meter { meter.old + bits_to_byte self.old.taken < step_limit }
        ensures bits { (bits : List Bool) × (length bits ≡ bits_to_byte self.old.taken) ×
            (self.old.buffered ≡ bits ++ self.new.buffered) }
        ensures rest { self.new ≡
            record self.old {
              buffered = self.new.buffered;
              taken = self.old.taken +
                  bits_to_byte self.old.taken;
            } }
        ensures steps { meter.new ≡ meter.old + bits_to_byte self.old.taken }
    {
        // The bits of the gap do not count: those before it are looked at now, and the mark passes it.
        self.blank_before = self.window.is_blank(self.blank_before);
        let gap = (self.window.buffered() % 8) as u64;
        self.window.pass(gap);
        self.window.mark();
        meter.tick(gap);
    }

    /// Takes up to `most` digits, at least one. Returns their number and their count.
    fn take_some_digits(&mut self, most: u32, meter: &mut Meter) -> Result<(u64, u32), BitFault>
        requires going { self.old.refusal ≡ None }
        requires some { 0 < most }
        requires width { most ≤ 32 }
        requires meter { meter.old + most < step_limit }
        ensures count { IfOk result (λ r. (0 < r.1) × (r.1 ≤ most) × (r.0 < 2 ^ r.1)) }
        ensures ok { IfOk result (λ r. Takes self.old self.new (word r.1 r.0)) }
        ensures err { IfErr result (Stops self.old self.new []) }
        ensures idle { 0 < length self.old.buffered → self.new.intake ≡ self.old.intake }
        ensures steps { meter.new + self.old.taken ≡ meter.old + self.new.taken }
        ensures limit { self.new.taken ≤ most_bits_read }
    {
        if let Err(fault) = refill_if_empty(
            &mut self.intake,
            &mut self.window,
            &mut self.blank_before,
        ) {
            self.refusal = Some(fault);
            return Err(fault);
        }
        let count = most.min(self.window.buffered() as u32);
        let digits = self.window.take_first_bits(count);
        meter.tick(count as u64);
        Ok((digits, count))
    }
}
