//! Tests of decoding piece by piece.
ghost use Rattle.std.specs.Prelude.{Bool, List, ℤ};
ghost use Rattle.rice_stream.specs.Pulling.{Origin, IsStand};

use arrayvec::ArrayVec;
use rice_base_tests::case_table::setting_of;
use rice_base_tests::cases::Cases;
use rice_bits::{BitReader, MemoryIn, Meter};
use rice_code::{Decoder, Step};
use rice_samples::Setting;
use rice_stream::{Pause, Stand, decode_more};
use std::test::Fail;

/// Pulls a piece into room for these samples, of a byte each, and looks that they are given, and why it ends there.
fn pull_and_check_piece(
    cases: &mut Cases<'_>,
    setting: &Setting,
    stand: &Stand,
    piece: &[u8],
    samples: &[u8; 8],
    pause: Pause,
) -> Stand
    requires { (o : Origin) × (front : List Bool) × (given : List ℤ) × IsStand setting.now o stand.now front given }
    ensures { (o : Origin) × (front : List Bool) × (given : List ℤ) × IsStand setting.now o result front given }
{
    let mut given = [0xEE; 8];
    let (next, why) = decode_more(setting, stand, piece, &mut given);
    cases.check(given == *samples);
    cases.check(why == pause);
    next
}

/// Returns whether a stand has these numbers: of samples, of bits, of the block in its interval, and of the blocks of a run.
fn stands_at(stand: Stand, samples: u64, bits: u64, block: u32, run: u32) -> bool {
    (stand.samples, stand.bits) == (samples, bits) && (stand.block, stand.run) == (block, run)
}

/// Fifteen samples 5 and a 4, a piece after the other, each from the byte with the next bit.
#[test]
fn pieces_of_a_code() -> Result<(), Fail> {
    let mut cases = Cases::new();
    let setting = setting_of("")?;
    let first = Stand::new(&setting);
    cases.check(stands_at(first, 0, 0, 0, 0));
    let still = pull_and_check_piece(
        &mut cases,
        &setting,
        &first,
        &[0x00],
        &[0xEE; 8],
        Pause::Blank,
    );
    cases.check(stands_at(still, 0, 0, 0, 0));
    let still = pull_and_check_piece(
        &mut cases,
        &setting,
        &still,
        &[0x00, 0x40],
        &[0xEE; 8],
        Pause::Cut,
    );
    let next = pull_and_check_piece(
        &mut cases,
        &setting,
        &still,
        &[0x00, 0x58],
        &[5; 8],
        Pause::Full,
    );
    cases.check(stands_at(next, 8, 13, 1, 0));
    let last = pull_and_check_piece(
        &mut cases,
        &setting,
        &next,
        &[0x58, 0xF2],
        &[5, 5, 5, 5, 5, 5, 5, 4],
        Pause::Full,
    );
    cases.check(stands_at(last, 16, 23, 0, 0));
    cases.end()
}

/// Of a run of two blocks the second needs no more of the code.
#[test]
fn a_run_over_two_pieces() -> Result<(), Fail> {
    let mut cases = Cases::new();
    let setting = setting_of("")?;
    let next = pull_and_check_piece(
        &mut cases,
        &setting,
        &Stand::new(&setting),
        &[0x00, 0x54],
        &[5; 8],
        Pause::Full,
    );
    cases.check(stands_at(next, 8, 14, 1, 1));
    let last = pull_and_check_piece(&mut cases, &setting, &next, &[], &[5; 8], Pause::Full);
    cases.check(stands_at(last, 16, 14, 0, 0));
    cases.end()
}

/// The second interval of a padded code, from its first bit on.
#[test]
fn an_interval_from_its_place() -> Result<(), Fail> {
    let mut cases = Cases::new();
    let setting = setting_of("r1 p")?;
    let second = Stand::at(&setting, 8, 16);
    cases.check(stands_at(second, 8, 16, 0, 0));
    let last = pull_and_check_piece(
        &mut cases,
        &setting,
        &second,
        &[0x00, 0x58],
        &[5; 8],
        Pause::Full,
    );
    cases.check(stands_at(last, 16, 32, 0, 0));
    cases.end()
}

/// Returns a decoder at the second block of an interval, after this sample, if there can be one.
fn at_second_block(setting: Setting, before: i64) -> Option<Decoder> {
    if setting.interval() < 2 || !setting.in_range(before) {
        return None;
    }
    Some(Decoder::at(setting, 1, before, 0))
}

/// The second block of an interval, after a sample 5.
#[test]
fn a_block_from_its_place() -> Result<(), Fail> {
    let mut cases = Cases::new();
    let mut reader = BitReader::new(MemoryIn::new(&[0x1E, 0x40], 4096, None));
    let Some(mut decoder) = at_second_block(setting_of("")?, 5) else {
        return Err(Fail::new("no such place"));
    };
    let mut meter = Meter::new();
    let mut block = ArrayVec::new();
    cases.check(decoder.next_block(&mut reader, &mut meter, &mut block) == Ok(Step::Block));
    cases.check(block.as_slice() == [5, 5, 5, 5, 5, 5, 5, 4].as_slice());
    cases.check((decoder.block(), decoder.before(), decoder.run()) == (0, 4, 0));
    cases.end()
}
