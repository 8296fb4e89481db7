//! Decodes a code piece by piece, for a caller that has not all of it, or no room for all samples. Nothing but a `Stand` is kept.
ghost use Rattle.std.specs.Prelude.{◌≡◌, ◌≢◌, ◌+◌, ◌*◌, ◌<◌, ◌≤◌, ◌++◌, true, false, IsSome, None, Some, drop, length, take};
ghost use Rattle.rice_bits.specs.{Bits.bits_of, Limits.most_bits_read, Reader.new_reader};
ghost use Rattle.rice_code.specs.declared.decode.call_results.CodeFault.TheVariants as faults;
ghost use Rattle.rice_stream.specs.Pulling.{DecodesOn, GivesAtStand, HasComeTo, IsSomeStand, WritesBlocksAt, ahead, pause_for};

use crate::block_bytes::bytes_of_next;
use crate::block_pass::{BlockPass, FastPass};
use crate::pulled_runs::{stand_after, write_next_of_run};
use crate::stand::{Pause, Stand};
use rice_bits::{BitReader, Meter, SliceIn, SliceOut};
use rice_code::{CodeFault, Decoder, Step};
use rice_samples::Setting;

/// The most bits of a code.
const LIMIT: u64 = 1 << 52;

/// Decodes the whole coded data sets of a piece of code, and writes their samples to the front of `samples`: whole blocks, as many as fit.
/// The piece begins with byte `stand.bits / 8` of the code. Returns where decoding stands then, and why it ends there.
///
/// The bytes of the piece from that place on have to come again at the front of the next piece.
pub fn decode_more(
    setting: &Setting,
    stand: &Stand,
    piece: &[u8],
    samples: &mut [u8],
) -> (Stand, Pause)
    requires { IsSomeStand setting.now stand.now }
    ensures { DecodesOn setting.now stand.now piece.now samples.old samples.new result.0 result.1 }
{
    if is_too_long(stand.bits, piece.len()) {
        return (*stand, Pause::TooLong);
    }
    decode_piece::<FastPass>(setting, stand, piece, samples)
}

/// Decodes a piece that does not pass the limit of a code, by passes of this kind, and by the decoder where these take no block.
#[inline(never)]
pub(crate) fn decode_piece<P: BlockPass>(
    setting: &Setting,
    stand: &Stand,
    piece: &[u8],
    samples: &mut [u8],
) -> (Stand, Pause)
    requires fits { stand.now.bits + 8 * length piece.now ≤ most_bits_read }
    requires stand { IsSomeStand setting.now stand.now }
    ensures { DecodesOn setting.now stand.now piece.now samples.old samples.new result.0 result.1 }
{
    let size = setting.width() as usize * setting.block() as usize;
    let mut decoder = Decoder::at(*setting, stand.block, stand.previous, stand.run);
    let mut reader = BitReader::new(SliceIn::new(piece));
    if !skip_bits(&mut reader, piece, (stand.bits % 8) as u32) {
        let _intake = reader.into_inner();
        unreachable!()
    }
    let mut bytes = [0; 320];
    let mut here = *stand;
    let mut at = 0;
    'decode_all: while samples.len() - at >= size {
        // Of no bytes nothing is read, since the reader stands at no bit of them.
        if piece.is_empty() && here.run == 0 {
            return (here, Pause::Blank);
        }
        if P::is_repeating(&decoder, setting) {
            let (next, len) = write_next_of_run(setting, &here, &mut decoder, &reader, at, samples);
            here = next;
            at += len;
            continue 'decode_all;
        }
        let room = &mut samples[at..];
        let (next, len) = write_blocks_to::<P>(
            setting,
            &here,
            &mut decoder,
            &mut reader,
            &mut bytes,
            room,
        );
        here = next;
        at += len;
        if samples.len() - at < size {
            continue 'decode_all;
        }
        let given = give_next_block(setting, &here, &mut decoder, &mut reader, &mut bytes);
        let found = match given {
            Ok(found) => found,
            Err(fault) => {
                let _intake = reader.into_inner();
                return (here, pause_of(fault));
            }
        };
        match found {
            Some(next) => {
                copy_at(&bytes[..size], at, samples);
                here = next;
                at += size;
            }
            None => return (here, Pause::Blank),
        }
    }
    (here, Pause::Full)
}

/// Decodes blocks by passes, and writes their samples to the front of `room`. Returns where decoding stands after them, and the number of
/// their bytes.
#[inline(always)]
fn write_blocks_to<P: BlockPass>(
    setting: &Setting,
    stand: &Stand,
    decoder: &mut Decoder,
    reader: &mut BitReader<SliceIn<'_>>,
    bytes: &mut [u8; 320],
    room: &mut [u8],
) -> (Stand, usize)
    requires { HasComeTo setting.now stand.now decoder.old reader.old }
    ensures gives { WritesBlocksAt setting.now stand.now result.0 decoder.new
        reader.old reader.new result.1 0 room.old room.new }
    ensures come { HasComeTo setting.now result.0 decoder.new reader.new }
    ensures room { result.1 ≤ length room.old }
    ensures len { length room.new ≡ length room.old }
{
    let width = setting.width() as usize;
    let most = (room.len() / width) as u64;
    let before = reader.taken();
    let mut meter = Meter::new();
    meter.tick(stand.steps);
    let mut out = SliceOut::new(room);
    match P::write_blocks(setting, most, decoder, reader, &mut meter, bytes, &mut out) {
        Ok(count) => {
            let next = stand_after(stand, count, before, decoder, reader, &meter);
            (next, width * count as usize)
        }
        Err(_) => {
            let _taken = out.taken();
            unreachable!()
        }
    }
}

/// Copies these bytes to this place.
#[inline(always)]
pub(crate) fn copy_at(bytes: &[u8], at: usize, samples: &mut [u8])
    requires { at + length bytes.now ≤ length samples.old }
    ensures { samples.new ≡ take at samples.old
        ++ (bytes.now ++ drop (at + length bytes.now) samples.old) }
{
    samples[at..at + bytes.len()].copy_from_slice(bytes);
}

/// Returns whether `bits` bits of code and `bytes` bytes after them pass the limit of a code.
pub(crate) fn is_too_long(bits: u64, bytes: usize) -> bool
    requires { bits ≤ most_bits_read }
    ensures long { result ≡ true → most_bits_read < bits + 8 * bytes }
    ensures fits { result ≡ false → bits + 8 * bytes ≤ most_bits_read }
{
    bytes as u64 > (LIMIT - bits) / 8
}

/// Takes the first `skipped` bits of a piece, if it has bytes. Returns whether it did, which is false of no slice.
fn skip_bits(reader: &mut BitReader<SliceIn<'_>>, piece: &[u8], skipped: u32) -> bool
    requires few { skipped < 8 }
    requires fresh { reader.old ≡ new_reader reader.old.intake (Some piece.now) 0 }
    ensures going { result ≡ true → reader.new.refusal ≡ None }
    ensures failed { result ≡ true → reader.new.failed ≡ 0 }
    ensures reported { result ≡ true → IsSome reader.new.left }
    ensures bits { result ≡ true → ahead reader.new ≡ drop skipped (bits_of piece.now) }
    ensures taken { result ≡ true → reader.new.taken ≤ skipped }
    ensures aligned { result ≡ true → 0 < length piece.now → reader.new.taken ≡ skipped }
    ensures never { result ≡ false → reader.new.failed ≡ 0 → ⊥ }
{
    if piece.is_empty() {
        return true;
    }
    let mut aside = Meter::new();
    match reader.take(skipped, &mut aside) {
        Ok(_) => true,
        Err(_) => false,
    }
}

/// Writes the bytes of the samples of the next block to the front of `bytes`, and returns where decoding stands after it, or `None` if no 1
/// is left.
#[inline(always)]
fn give_next_block(
    setting: &Setting,
    stand: &Stand,
    decoder: &mut Decoder,
    reader: &mut BitReader<SliceIn<'_>>,
    bytes: &mut [u8; 320],
) -> Result<Option<Stand>, CodeFault>
    requires come { HasComeTo setting.now stand.now decoder.old reader.old }
    ensures { GivesAtStand setting.now stand.now decoder.new reader.old reader.new bytes.new result }
{
    let size = setting.block() as u64;
    let before = reader.taken();
    let mut meter = Meter::new();
    meter.tick(stand.steps);
    match bytes_of_next(decoder, setting, reader, &mut meter, bytes)? {
        Step::Block => {}
        Step::Done => return Ok(None),
    }
    meter.tick(size);
    let next = stand_after(stand, size, before, decoder, reader, &meter);
    Ok(Some(next))
}

/// Returns how decoding pauses where a coded data set is cut off or refused. A slice is read without faults.
fn pause_of(fault: CodeFault) -> Pause
    requires read { fault ≢ faults.Read }
    requires long { fault ≢ faults.TooLong }
    ensures { result ≡ pause_for fault }
{
    match fault {
        CodeFault::CodeEnds => Pause::Cut,
        CodeFault::RunPastSegment => Pause::RunPastSegment,
        CodeFault::ResidualTooLarge => Pause::ResidualTooLarge,
        CodeFault::Read | CodeFault::TooLong => unreachable!(),
    }
}
