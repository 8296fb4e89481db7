//! Calls of a reader that look at buffered bits, and take them without a call of the intake.
ghost use Rattle.std.specs.Prelude.{◌≡◌, ◌+◌, ◌<◌, ◌≤◌, None, length, take};
ghost use Rattle.rice_bits.specs.{Limits.step_limit, Limits.most_bits_read, Window.most_ahead};

use crate::device::Intake;
use crate::meter::Meter;
use crate::read::bits_ahead::BitsAhead;
use crate::read::reader::BitReader;

impl<I: Intake> BitReader<I> {
    ghost use Rattle.rice_bits.specs.Reader.{Takes};

    /// Returns the number of buffered bits: those that it can return without a call of the intake.
    #[inline]
    pub fn buffered(&self) -> u64
        ensures { result ≡ length self.now.buffered }
    {
        self.window.buffered() as u64
    }

    /// Returns the buffered bits, and others after them. It takes none.
    #[inline(always)]
    pub fn ahead(&self) -> BitsAhead<'_>
        ensures bits { take (length self.now.buffered) result ≡ self.now.buffered }
        ensures more { length self.now.buffered + most_ahead ≤ length result }
    {
        BitsAhead {
            bytes: &self.window.buffer,
            at: self.window.at,
        }
    }

    /// Takes the next `count` buffered bits, and ticks once for each.
    #[inline(always)]
    pub fn pass(&mut self, count: usize, meter: &mut Meter)
        requires going { self.old.refusal ≡ None }
        requires there { count ≤ length self.old.buffered }
        requires meter { meter.old + count < step_limit }
        ensures takes { Takes self.old self.new (take count self.old.buffered) }
        ensures idle { self.new.intake ≡ self.old.intake }
        ensures left { self.new.left ≡ self.old.left }
        ensures limit { self.new.taken ≤ most_bits_read }
        ensures steps { meter.new ≡ meter.old + count }
    {
        meter.tick(count as u64);
        self.window.pass(count as u64);
    }
}
