//! Encodes samples piece by piece.
ghost use Rattle.std.specs.Prelude.{◌≡◌, ◌+◌, ◌-◌, ◌*◌, ◌^◌, ◌<◌, ◌≤◌};
ghost use Rattle.rice_samples.specs.{Limits.most_input, Places.cut};
ghost use Rattle.rice_stream.specs.{DevicesInCalls.Fails, Encodes.EncodesWithin, EncodingState.PushFails, Feeding.IsSomeSeam, Feeding.EncodesOn, Feeding.EncodesToEnd};

use crate::engines::{Engines, Fast};
use crate::input::MOST_INPUT;
use crate::outcome::{Fault, Outcome};
use crate::seam::Seam;
use rice_bits::Outlet;
use rice_samples::Setting;

/// Encodes the next samples, whose bytes are `bytes`, and returns the end of their code.
///
/// It takes the samples of all whole segments, and writes the bytes that their code completes. The caller passes the others, fewer than a
/// segment, again at the start of the next piece.
pub fn encode_more<O: Outlet>(
    setting: &Setting,
    seam: &Seam,
    bytes: &[u8],
    outlet: &mut O,
) -> Result<Seam, Fault>
    requires seam { IsSomeSeam setting.now seam.now }
    requires writes { O.failed outlet.old + 1 < 2 ^ 64 }
    ensures did { EncodesOn setting.now seam.now bytes.now
        (O.taken outlet.old) (O.taken outlet.new) result }
    ensures failures { PushFails (O.failed outlet.old) (O.failed outlet.new) result }
{
    Fast::encode_more(setting, seam, bytes, outlet)
}

/// Encodes the last samples, whose bytes are `bytes`, and writes the remainder of the code. The report counts all samples.
pub fn encode_rest<O: Outlet>(
    setting: &Setting,
    seam: &Seam,
    bytes: &[u8],
    outlet: &mut O,
) -> Outcome
    requires seam { IsSomeSeam setting.now seam.now }
    requires writes { O.failed outlet.old + 1 < 2 ^ 64 }
    ensures did { EncodesToEnd setting.now seam.now bytes.now
        (O.taken outlet.old) (O.taken outlet.new) result.report result.fault }
    ensures failures { Fails result.fault 0 0 (O.failed outlet.old) (O.failed outlet.new) }
    ensures bounds { EncodesWithin setting.now result.report }
{
    Fast::encode_rest(setting, seam, bytes, outlet)
}

/// Returns how many bytes a code may still be given after `samples` samples of `width` bytes.
pub(crate) fn bytes_left(width: usize, samples: u64) -> u64
    requires width { width ≤ 4 }
    requires samples { samples ≤ most_input }
    ensures value { result ≡ most_input - width * samples }
    ensures few { 0 < width → samples + result ≤ most_input }
{
    MOST_INPUT.saturating_sub(width as u64 * samples)
}

/// Returns how many of `samples` samples make whole segments.
pub(crate) fn in_whole_segments(setting: &Setting, samples: u64) -> u64
    ensures value { result ≡ cut setting.now samples }
    ensures limit { result ≤ samples }
{
    let size = setting.block() as u64;
    let blocks = samples / size;
    size * (blocks - blocks % setting.interval() as u64 % 64)
}
