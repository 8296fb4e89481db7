//! Tests of the decoder: samples, bits, steps and refusals.
ghost use Rattle.std.specs.Prelude.{◌≡◌, ◌+◌, ◌*◌, ◌^◌, ◌<◌, ◌≤◌, true, None, Ok};
ghost use Rattle.rice_code.specs.declared.decode.call_results.Step.TheVariants.{Block};
ghost use Rattle.rice_samples.specs.Parameters.{width as width_of};
ghost use Rattle.rice_fast.specs.BlocksAhead.{HasBits};

use arrayvec::ArrayVec;
use rice_base_tests::case_table::{Columns, bytes_of, number_of, samples_of, setting_of};
use rice_base_tests::cases::Cases;
use rice_bits::{BitReader, Intake, MemoryIn, Meter};
use rice_code::{CodeFault, Decoder, Step};
use rice_fast::pass;
use rice_fast::vectors::Bytes;
use rice_samples::Setting;
use std::alloc::Global;
use std::test::Fail;

/// What a decoder gave until it stopped.
#[derive(Drop)]
struct Seen {
    samples: Vec<i64>,
    answer: Result<Step, CodeFault>,
    bits: u64,
    steps: u64,
}

/// Asks a decoder, which may then be asked once more.
fn next<I: Intake>(
    decoder: &mut Decoder,
    reader: &mut BitReader<I>,
    meter: &mut Meter,
    block: &mut ArrayVec<i64, 64>,
) -> Result<Step, CodeFault>
    requires going { decoder.old.stopped ≡ None → reader.old.refusal ≡ None }
    requires room { meter.old ≤ 2 * reader.old.taken }
    ensures going { decoder.new.stopped ≡ None → reader.new.refusal ≡ None }
    ensures block { result ≡ Ok Block → decoder.new.stopped ≡ None }
    ensures setting { decoder.new.setting ≡ decoder.old.setting }
    ensures room { meter.new ≤ 2 * reader.new.taken }
{
    let _taken = reader.taken();
    decoder.next_block(reader, meter, block)
}

/// Decodes to the end, and asks once more, which changes nothing.
fn decode<I: Intake + Drop>(
    cases: &mut Cases<'_>,
    alloc: Global,
    setting: Setting,
    intake: I,
) -> Result<Seen, Fail>
    requires { I.failed intake + 1 < 2 ^ 64 }
{
    let mut reader = BitReader::new(intake);
    let mut decoder = Decoder::new(setting);
    let mut meter = Meter::new();
    let mut block = ArrayVec::new();
    let mut samples = Vec::new(alloc);
    for _ in 0..2000 {
        let answer = next(&mut decoder, &mut reader, &mut meter, &mut block);
        if answer != Ok(Step::Block) {
            cases.check(block.is_empty());
            let seen = Seen {
                samples,
                answer,
                bits: reader.taken(),
                steps: meter.steps(),
            };
            cases.check(next(&mut decoder, &mut reader, &mut meter, &mut block) == answer);
            cases.check((reader.taken(), meter.steps()) == (seen.bits, seen.steps));
            cases.check(block.is_empty());
            return Ok(seen);
        }
        samples.extend_from_slice(block.as_slice())?;
    }
    Err(Fail::new("no end"))
}

/// Decodes the bytes of a line of the table, in pieces of several sizes: the options, the bytes, the samples, how that ends,
/// and how many bits are taken.
fn decodes_line(cases: &mut Cases<'_>, alloc: Global, line: &str) -> Result<(), Fail> {
    let mut columns = Columns::of(line);
    let setting = setting_of(columns.next())?;
    let bytes = bytes_of(columns.next(), alloc)?;
    let samples = samples_of(columns.next(), alloc)?;
    let answer = answer_of(columns.next())?;
    let bits = number_of(columns.next())?;
    for piece in [1, 3, 4096] {
        if piece > 0 {
            let intake = MemoryIn::new(bytes.as_slice(), piece, None);
            let seen = decode(cases, alloc, setting, intake)?;
            cases.check(seen.samples.as_slice() == samples.as_slice());
            cases.check(seen.answer == answer);
            cases.check(Some(seen.bits) == bits);
            cases.check(seen.bits <= seen.steps && seen.steps <= seen.bits.saturating_mul(2));
        }
    }
    Ok(())
}

/// Returns what a decoder answers at the end of a code, by its name.
fn answer_of(name: &str) -> Result<Result<Step, CodeFault>, Fail> {
    match name {
        "done" => Ok(Ok(Step::Done)),
        "ends" => Ok(Err(CodeFault::CodeEnds)),
        "run" => Ok(Err(CodeFault::RunPastSegment)),
        "residual" => Ok(Err(CodeFault::ResidualTooLarge)),
        _ => Err(Fail::new("no answer")),
    }
}

const CODES: &str =
    "          |                    |                                     | done     | 0
              | 0058               | 5*8                                 | done     | 16
              | 00580000           | 5*8                                 | done     | 32
              | 0054               | 5*16                                | done     | 16
              | 000080             | 0*16                                | done     | 24
    r64       | 000080             | 0*512                               | done     | 24
    r64       | 0001               | 0*32                                | done     | 16
    r128      | 000084             | 0*520                               | done     | 24
    r5        | 000040             | 0*40                                | done     | 24
    r64       | 00*9 10            | 0*504                               | done     | 80
    r1        | 005802C0           | 5*16                                | done     | 32
    j16       | 0058               | 5*16                                | done     | 16
    n16       | 00002C             | 5*8                                 | done     | 24
    n32       | 0000000016         | 5*8                                 | done     | 40
    n4 s      | 0880               | -8*8                                | done     | 16
              | 20092492           | 0 1 2 3 4 5 6 7                     | done     | 32
              | 40155580           | 0 1 2 3 4 5 6 7                     | done     | 32
              | E0 1F FF*6 E0      | 0 255 0 255 0 255 0 255             | done     | 72
              | 0058F2             | 5*15 4                              | done     | 24
              | 0058C920           | 5*11 4 4 3 3 2                      | done     | 32
    s         | 200AAA80           | 0 -1 -2 -3 -4 -5 -6 -7              | done     | 32
    s         | F0 1F FF*6 E0      | -128 127 -128 127 -128 127 -128 127 | done     | 72
    n1        | EFE0               | 0 1 0 1 0 1 0 1                     | done     | 16
    n1        | CFE100000000       | 0 1*7                               | done     | 48
    N         | 1E40               | 0*7 1                               | done     | 16
    N         | 1924               | 0 0 0 1 0 1 0 1                     | done     | 16
    N         | FE1E3E5E7E9EBEDEE0 | 240 241 242 243 244 245 246 247     | done     | 72
    n9 N      | FF*9 F0            | 511*8                               | done     | 80
    n4 s N    | FF*4 E0            | -1*8                                | done     | 40
    j64 r64 N | 0080               | 0*4096                              | done     | 16
    r1 p      | 00580058           | 5*16                                | done     | 32
    r1 p      | 005F0058           | 5*16                                | done     | 32
    p         | 00540058           | 5*24                                | done     | 32
    p         | 0058F2             | 5*15 4                              | done     | 24
              | 2009               |                                     | ends     | 16
              | 0002               |                                     | run      | 15
              | 105780             |                                     | residual | 17
    n4        | 200001FC           |                                     | residual | 30
    n1        | CFE200000000       |                                     | residual | 46
    r64       | 00*9 08            |                                     | run      | 77
    r1        | 005802             | 5*8                                 | ends     | 24
    r1        | 00580058           | 5*8 0*8                             | ends     | 32";

#[test]
fn codes_are_decoded(rt: HostRuntime) -> Result<(), Fail> {
    let mut cases = Cases::new();
    for line in CODES.lines() {
        cases.of_line(line);
        decodes_line(&mut cases, rt.alloc(), line)?;
    }
    cases.end()
}

/// A run is held as a number: the samples of it that are still to come.
#[test]
fn waiting_samples() -> Result<(), Fail> {
    let mut cases = Cases::new();
    let mut reader = BitReader::new(MemoryIn::new(&[0x00, 0x00, 0x80], 4096, None));
    let mut decoder = Decoder::new(setting_of("")?);
    let mut meter = Meter::new();
    let mut block = ArrayVec::new();
    cases.check(decoder.waiting() == 0);
    cases.check(next(&mut decoder, &mut reader, &mut meter, &mut block) == Ok(Step::Block));
    cases.check(decoder.waiting() == 8);
    cases.check(decoder.run() == 1);
    cases.check(next(&mut decoder, &mut reader, &mut meter, &mut block) == Ok(Step::Block));
    cases.check(decoder.waiting() == 0);
    cases.check(decoder.run() == 0);
    cases.check(meter.steps() == 17);
    cases.end()
}

/// A run's next block is passed over where its samples are known.
#[test]
fn repeated_samples() -> Result<(), Fail> {
    let mut cases = Cases::new();
    let mut reader = BitReader::new(MemoryIn::new(&[0x00, 0x00, 0x80], 4096, None));
    let setting = setting_of("")?;
    let mut decoder = Decoder::new(setting);
    let mut meter = Meter::new();
    let mut samples = ArrayVec::new();
    cases.check(decoder.run() == 0);
    cases.check(decoder.next_block(&mut reader, &mut meter, &mut samples) == Ok(Step::Block));
    cases.check(samples.as_slice() == [0; 8].as_slice());
    if decoder.run() > 0 && setting.preprocess() {
        decoder.pass_blocks_of_run(1);
    }
    cases.check(decoder.run() == 0);
    cases.check(meter.steps() == 17);
    cases.end()
}

/// Returns whether blocks are of 8 samples of one byte.
fn has_eights(setting: &Setting) -> bool
    ensures size { result ≡ true → 8 ≡ setting.now.block }
    ensures width { result ≡ true → 1 ≡ width_of setting.now }
    ensures bits { result ≡ true → HasBits 0 8 setting.now }
{
    setting.bits() <= 8 && setting.block() == 8
}

/// Asks the fast decoder for the bytes of a block whose bits are all buffered.
fn pass_eight_bytes<I: Intake>(
    setting: &Setting,
    decoder: &mut Decoder,
    reader: &mut BitReader<I>,
    meter: &mut Meter,
    bytes: &mut [u8; 320],
) -> bool
    requires setting { decoder.old.setting ≡ setting.now }
    requires stopped { decoder.old.stopped ≡ None }
    requires going { reader.old.refusal ≡ None }
    requires room { meter.old ≤ 2 * reader.old.taken }
    ensures setting { decoder.new.setting ≡ setting.now }
    ensures stopped { decoder.new.stopped ≡ None }
    ensures going { reader.new.refusal ≡ None }
    ensures room { meter.new ≤ 2 * reader.new.taken }
{
    let _taken = reader.taken();
    if !has_eights(setting) {
        return false;
    }
    pass::<Bytes, _, 8, 1>(decoder, setting, reader, meter, bytes)
}

/// A block whose bits are all buffered is given as bytes.
#[test]
fn bytes_of_a_block() -> Result<(), Fail> {
    let mut cases = Cases::new();
    let code = [
        0x20, 0x09, 0x24, 0x92, 0x49, 0x24, 0x92, 0x40, 0, 0, 0, 0, 0, 0, 0, 0, 0, 0, 0, 0, 0, 0,
        0, 0, 0, 0, 0, 0, 0, 0, 0, 0,
    ];
    let mut reader = BitReader::new(MemoryIn::new(&code, 4096, None));
    let setting = setting_of("")?;
    let mut decoder = Decoder::new(setting);
    let mut meter = Meter::new();
    let mut bytes = [0; 320];
    // Nothing is buffered before the first bit is taken.
    cases.check(!pass_eight_bytes(&setting, &mut decoder, &mut reader, &mut meter, &mut bytes));
    let mut samples = ArrayVec::new();
    let first = next(&mut decoder, &mut reader, &mut meter, &mut samples);
    cases.check(first == Ok(Step::Block));
    if first == Ok(Step::Block) {
        let taken = pass_eight_bytes(&setting, &mut decoder, &mut reader, &mut meter, &mut bytes);
        cases.check(taken);
    }
    cases.check(bytes[..8] == [8, 9, 10, 11, 12, 13, 14, 15]);
    cases.check((reader.taken(), meter.steps()) == (58, 58));
    cases.end()
}

/// Of the search for the sum of a pair each turn is a step.
#[test]
fn steps_of_second_extension() -> Result<(), Fail> {
    let mut cases = Cases::new();
    let mut reader = BitReader::new(MemoryIn::new(&[0x1E, 0x40], 4096, None));
    let mut decoder = Decoder::new(setting_of("N")?);
    let mut meter = Meter::new();
    let mut block = ArrayVec::new();
    cases.check(decoder.next_block(&mut reader, &mut meter, &mut block) == Ok(Step::Block));
    cases.check(reader.taken() == 10);
    cases.check(meter.steps() == 11);
    cases.end()
}
