//! Writes the blocks of a run, several at a time.
ghost use Rattle.std.specs.Prelude.{◌≡◌, ◌+◌, ◌*◌, ◌^◌, ◌<◌, ◌≤◌, true, length, replicate, IfOk, IfErr, IfSome, OnOk, OnErr};
ghost use Rattle.rice_samples.specs.Parameters.{IsSample, width as width_of};
ghost use Rattle.rice_samples.specs.Spelling.{spellings};
ghost use Rattle.rice_stream.specs.{Decodes.wanted_of, DecodingState.FailsInRun, DecodingState.WritesRun, DecodingState.repeated};

use crate::write::write_counted;
use rice_bits::Outlet;
use rice_code::Decoder;
use rice_samples::{Setting, bytes_of};

/// The bytes of a run that are written at once, at most.
pub const ROOM: usize = 320;

/// Fills the bytes with `count` copies of the pattern.
fn repeat_bytes(pattern: &[u8], count: usize, bytes: &mut [u8])
    requires pattern { 1 ≤ length pattern.now }
    requires count { 1 ≤ count }
    requires len { length bytes.old ≡ length pattern.now * count }
    ensures { bytes.new ≡ repeated count pattern.now }
{
    let width = pattern.len();
    bytes[..width].copy_from_slice(pattern);
    let mut done = 1;
    'repeat: while done < count {
        let more = done.min(count - done);
        bytes.copy_within(0..width * more, width * done);
        done += more;
    }
}

/// Fills the bytes with the spellings of `count` samples that are all `sample`.
pub(crate) fn spell_copies_of_sample(setting: &Setting, sample: i64, count: usize, bytes: &mut [u8])
    requires sample { IsSample setting.now sample }
    requires count { 1 ≤ count }
    requires len { length bytes.old ≡ width_of setting.now * count }
    ensures { bytes.new ≡ spellings setting.now (replicate count sample) }
{
    let _width = setting.width();
    let spelling = bytes_of(setting, sample);
    let pattern = spelling.as_slice();
    if pattern.len() == 1 {
        bytes.fill(pattern[0]);
        return;
    }
    repeat_bytes(pattern, count, bytes);
}

/// Returns how many of the next `run` blocks are written at once: those of which all samples are wanted, as many as `ROOM` bytes have
/// room for.
pub(crate) fn blocks_at_once(setting: &Setting, asked: Option<u64>, written: u64, run: u32) -> u32
    requires some { 1 ≤ run }
    requires wanted { wanted_of asked written setting.now.block ≡ setting.now.block }
    ensures some { 1 ≤ result }
    ensures run { result ≤ run }
    ensures room { width_of setting.now * setting.now.block * result ≤ 320 }
    ensures wanted { IfSome asked (λ n. written + setting.now.block * result ≤ n) }
{
    let block = setting.block() as u64;
    let size = setting.width() as u64 * block;
    // Most runs fit, and need no division.
    let fit = if size * run as u64 <= ROOM as u64 {
        run
    } else {
        (ROOM as u64 / size) as u32
    };
    match asked {
        Some(count) if block * fit as u64 > count - written => {
            ((count - written) / block).min(fit as u64) as u32
        }
        _ => fit,
    }
}

/// Writes the next blocks of a run, and goes past them. Returns how many samples were written. If the outlet fails, an error has the
/// number of samples of those blocks that were written whole.
#[inline(never)]
pub fn write_run<O: Outlet>(
    setting: &Setting,
    asked: Option<u64>,
    written: u64,
    decoder: &mut Decoder,
    bytes: &mut [u8; 320],
    outlet: &mut O,
) -> Result<u64, u64>
    requires run { 1 ≤ decoder.old.run }
    requires preprocess { decoder.old.setting.preprocess ≡ true }
    requires setting { decoder.old.setting ≡ setting.now }
    requires wanted { wanted_of asked written setting.now.block ≡ setting.now.block }
    requires counted { O.failed outlet.old + 1 < 2 ^ 64 }
    ensures ok { IfOk result (λ n. WritesRun setting.now asked written decoder.old decoder.new
        (O.taken outlet.old) (O.taken outlet.new) n) }
    ensures err { IfErr result (λ n. FailsInRun setting.now asked written decoder.old
        (O.taken outlet.old) (O.taken outlet.new) n) }
    ensures failures { OnOk result (O.failed outlet.new ≡ O.failed outlet.old) }
    ensures failure { OnErr result (O.failed outlet.new ≡ O.failed outlet.old + 1) }
{
    let block = setting.block();
    let _place = decoder.block();
    let sample = decoder.before();
    let blocks = blocks_at_once(setting, asked, written, decoder.run());
    decoder.pass_blocks_of_run(blocks);
    let count = block as usize * blocks as usize;
    let width = setting.width() as usize;
    let spelled = &mut bytes[..width * count];
    spell_copies_of_sample(setting, sample, count, spelled);
    match write_counted(outlet, spelled) {
        Ok(()) => Ok(count as u64),
        Err(taken) => Err((taken / (width * block as usize)) as u64 * block as u64),
    }
}
