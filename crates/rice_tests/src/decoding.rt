//! Tests of `decode`: whole, cut and invalid codes of any coder, devices that fail, and arbitrary bytes.
ghost use Rattle.std.specs.Prelude.{◌<◌};

use crate::calls::{Call, fault_of};
use rice_base_tests::case_table::{Columns, number_of, setting_of};
use rice_base_tests::cases::Cases;
use rice_bits::{MemoryIn, MemoryOut, ZeroIn};
use rice_samples::Setting;
use rice_stream::{Engines, Fault, Outcome, Plain, decode};
use std::alloc::Global;
use std::test::Fail;

/// The number of samples that are asked for, and then as in the table of `encode`: the options, the bytes of the code, the places
/// where the intake and the outlet fail, the bytes that are written, the fault, and the report.
const CALLS: &str =
    "   |           |                    |   |   |                  |            | 0    | 0  | 0    | 0
       | N         |                    |   |   |                  |            | 0    | 0  | 0    | 0
       |           | 0058               |   |   | 05*8             |            | 8    | 16 | 24   | 24
    8  |           | 0058               |   |   | 05*8             |            | 8    | 13 | 21   | 21
    1  |           | 0058               |   |   | 05               |            | 1    | 13 | 14   | 14
       | r64       | 000080             |   |   | 00*512           |            | 512  | 24 | 536  | 536
    40 | r64       | 000080             |   |   | 00*40            |            | 40   | 17 | 57   | 57
       |           | 2009               |   |   |                  | ends 0     | 0    | 16 | 16   | 16
       | n4        | 200001FC           |   |   |                  | residual 0 | 0    | 30 | 30   | 30
       |           | 00580000           |   |   | 05*8             |            | 8    | 32 | 40   | 40
    0  |           | FFFF               |   |   |                  |            | 0    | 0  | 0    | 0
       |           | 0002               |   |   |                  | run 0      | 0    | 15 | 15   | 15
    8  |           | 0002               |   |   |                  | run 0      | 0    | 15 | 15   | 15
       |           | 0054               |   |   | 05*16            |            | 16   | 16 | 32   | 32
       | N         | FE1E3E5E7E9EBEDEE0 |   |   | F0F1F2F3F4F5F6F7 |            | 8    | 72 | 80   | 80
       |           | 40155580           |   |   | 0001020304050607 |            | 8    | 32 | 40   | 40
       |           | 105780             |   |   |                  | residual 0 | 0    | 17 | 18   | 22
       |           | 000080             |   |   | 00*16            |            | 16   | 24 | 40   | 40
       | r5        | 000040             |   |   | 00*40            |            | 40   | 24 | 64   | 64
       | r64       | 00*9 10            |   |   | 00*504           |            | 504  | 80 | 584  | 584
       | r64       | 00*9 08            |   |   |                  | run 0      | 0    | 77 | 77   | 77
    9  |           | 0058               |   |   | 05*8             | ends 8     | 8    | 16 | 24   | 24
    1  |           |                    |   |   |                  | ends 0     | 0    | 0  | 0    | 0
       | n1        | CFE100000000       |   |   | 00 01*7          |            | 8    | 48 | 56   | 56
       | n1        | CFE200000000       |   |   |                  | residual 0 | 0    | 46 | 46   | 46
       |           | 0058               |   | 3 | 050505           | write      | 0    | 13 | 13   | 13
       | N         | FE 1E*7 00         |   |   | F0*8             |            | 8    | 72 | 80   | 80
    1  | N         | FE 1E*7 00         |   |   | F0               |            | 1    | 67 | 68   | 68
       | N         | FE1E               |   |   |                  | ends 0     | 0    | 16 | 16   | 16
    9  | N         | FE1E3E5E7E9EBEDEE0 |   |   | F0F1F2F3F4F5F6F7 | ends 8     | 8    | 72 | 80   | 80
       |           | E0                 |   |   |                  | ends 0     | 0    | 8  | 8    | 8
       |           | E01F               |   |   |                  | ends 0     | 0    | 16 | 16   | 16
       |           | E01F FF            |   |   |                  | ends 0     | 0    | 24 | 24   | 24
       |           | E01F FF*2          |   |   |                  | ends 0     | 0    | 32 | 32   | 32
       |           | E01F FF*3          |   |   |                  | ends 0     | 0    | 40 | 40   | 40
       |           | E01F FF*4          |   |   |                  | ends 0     | 0    | 48 | 48   | 48
       |           | E01F FF*5          |   |   |                  | ends 0     | 0    | 56 | 56   | 56
       |           | E01F FF*6          |   |   |                  | ends 0     | 0    | 64 | 64   | 64
       | r1        | 00                 |   |   |                  |            | 0    | 8  | 8    | 8
       | r1        | 0058               |   |   | 05*8             |            | 8    | 16 | 24   | 24
       | r1        | 005802             |   |   | 05*8             | ends 8     | 8    | 24 | 32   | 32
       | r1        | 005802C0           |   |   | 05*16            |            | 16   | 32 | 48   | 48
       | N j64 r64 | 0080               |   |   | 00*4096          |            | 4096 | 16 | 4112 | 4112
    10 | N j64 r64 | 0080               |   |   | 00*10            |            | 10   | 9  | 19   | 19
    8  | N         | 1E40               |   |   | 00*7 01          |            | 8    | 10 | 19   | 23
       | r1 p      | 00580058           |   |   | 05*16            |            | 16   | 32 | 48   | 48
       | r1 p      | 005F0058           |   |   | 05*16            |            | 16   | 32 | 48   | 48
    8  | r1 p      | 005F0058           |   |   | 05*8             |            | 8    | 16 | 24   | 24
       | r1        | 00580058           |   |   | 05*8 00*8        | ends 16    | 16   | 32 | 48   | 48
       | r1        | 005802C0           | 0 |   |                  | read       | 0    | 0  | 0    | 0
       | r1        | 005802C0           | 1 |   |                  | read       | 0    | 8  | 8    | 8
       | r1        | 005802C0           | 2 |   | 05*8             | read       | 8    | 16 | 24   | 24
       | r1        | 005802C0           | 3 |   | 05*8             | read       | 8    | 24 | 32   | 43
       | r1        | 005802C0           | 4 |   | 05*16            | read       | 16   | 32 | 48   | 48
    16 | r1        | 005802C0           | 4 |   | 05*16            |            | 16   | 26 | 42   | 42";

#[test]
fn codes_are_decoded(rt: HostRuntime) -> Result<(), Fail> {
    let mut cases = Cases::new();
    for line in CALLS.lines() {
        cases.of_line(line);
        line_is_decoded(&mut cases, rt.alloc(), line)?;
    }
    cases.end()
}

/// The same, of codes that leave the pass over a block in each of its ways: by a long sequence, far samples, a pair with a number above 63,
/// a run, a residual too large, a value at the reference place, padding, a count that ends in a block, or the end of a piece. Zeros are
/// after each, so that the pass is tried. The last lines are not predicted. Debian's `aec` gives the same samples.
const SELDOM: &str =
    "24 | r64        | 4C8A72CA340000000000000032ED77513E80 00*64 | | | 646263656464616262617F7F807F7F7F7C7E7D7D7977787B |  | 24 | 138 | 162 | 162
    24 | r64        | 4C8A72CAC020380D01D640787C1F6BBA89F4 00*64 | | | 6462636564646162FA060602F0E0F0000507060602000206 |  | 24 | 143 | 167 | 167
    24 | r64        | 4C8A72CAFF5F2000FE03E41FED77513E80 00*64 | | | 6462636564646162FA060602F0E0F0000507060602000206 |  | 24 | 130 | 154 | 154
    24 | r64        | 4C8A72CA16000000000000000416BBA89F40 00*64 | | | 6462636564646162616161615F5B5B5C595B5A5A56545558 |  | 24 | 139 | 176 | 176
    24 | r64        | 4C8A72CA16000000000000000000105AEEA27D00 00*64 | | | 6462636564646162616161616065656663656464605E5F62 |  | 24 | 153 | 191 | 191
    40 | r64        | 10730140B5DD44FA 00*64 | | | 07060606070605050505050505050505050505050505050505050505050505050204030307050609 |  | 40 | 64 | 109 | 109
    20 | r64        | 4C8A72CA6BBA89F4D77513E8 00*64 | | | 64626365646461625F6160605C5A5B5E5B5D5C5C |  | 20 | 94 | 114 | 114
    24 | r1 p       | 4C8A72CA10930140F900609F40C0E10120 00*64 | | | 64626365646461620908080809080707C8C6C80508040803 |  | 24 | 136 | 165 | 165
    30 | any j10 r64    | 464A72F2B1601043FEBE4001FC07C83FC0C100 00*64 | | | 3230313332322F302F2E2D2D2D2D2C2D2D2E2D2CFA060602F0E0F0000305 |  | 30 | 146 | 184 | 184
    54 | any j18 r64    | 464A72EAAAB2B00C030180C06030180C0603D0340D0340D0340D0340D0055555 00*64 | | | 3230313332322F302F2E2F30313233343536FAFA0505FAFA0505FAFA0505FAFA0505FAFAF9F9F8F8F7F7F6F6F5F5F4F4F3F3F2F2F1F1 |  | 54 | 256 | 319 | 319
    24 | n12 r64    | 97D05F12C2B05060403E8DFFFA0FFF000001002003009004F001002003FA0005006007FFF0 00*64 | | | D0076608D007CD07D007D207D007C4095F00FF0FFF0FFE0FFF0FFC0FF60FF80FF70FF80FF60F5F005C005F005B00FF0F |  | 24 | 292 | 316 | 316
    24 | n16 r64    | A9C405F00000000000000000000000000000578BB028180803305924924F71DBF71DBF71DBF71DB84924 00*64 | | | 409C9E9D409C3D9C409C429C409C9F157B1B9F157B1B9F157B1B9F157B1B9F159F159E159E159D159D159C159C159B15 |  | 24 | 334 | 362 | 362
    16 | n24 3 r64  | 9C4AA201F800000000000000357300057600028000C00020000612007FD09000000007D09000000007D09000000007D09000000004 00*64 | | | 40548970AB8E12AA8E0FAA8E12AA8E14AA8E12AA8EFFDB0B0024F4FF23F4FFDB0BFEDB0B0024F4FF23F4FFDB0BFEDB0B |  | 16 | 422 | 438 | 438
    16 | n32 r64    | EF73594001F8000CDC9380000015D8000002800000300000020000001D2B7500024920 00*64 | | | 00286BEEFFD846D6A1D746D69ED746D6A1D746D6A3D746D6A1D746D6FF15A905FF15A905FE15A905FE15A905FD15A905FD15A905FC15A905FC15A905FB15A905 |  | 16 | 275 | 295 | 295
    16 | n32 r64    | D7735940000403FF0D1807868BFC00000A000006000002000000C000005FFA56EA0000000001FA56EA0000000001FA56EA0000000001FA56EA0000000001 00*64 | | | 00286BEE80F95BF7005D1EEEFD5C1EEE005D1EEE025D1EEE005D1EEE015D1EEEFF15A905FE15A90500EA56FAFFE956FAFF15A905FE15A90500EA56FAFFE956FA |  | 16 | 496 | 512 | 512
       | r64        | 4C8A72CAC00FF18000000000 00*64 | | | 6462636564646162 | residual 1 | 8 | 92 | 100 | 100
       | r64        | 109720 00*64 | | |  | residual 0 | 0 | 19 | 21 | 21
       | n12 r64    | 97D05F12C2B05060403E8D7F80080000000000000000000000 00*64 | | | D0076608D007CD07D007D207D007C409 | residual 1 | 8 | 193 | 201 | 201
    32 | N r64 | 652924A6FC70EEE7F1A5039BEF01D891C0 00*64 | | | 09040B050B0B0A080EEE7F1A5039BEF000000000010000000001020000000000 |  | 32 | 130 | 162 | 166
    24 | n10 N r64 | 51A677F8264F0F6EF438F174C754624D1C0EC0 00*64 | | | 37000F0018002200060024000F000000BB0143033C0274011D03460193001C0100000000000000000100000000000000 |  | 24 | 146 | 170 | 171
    48 | n5 N j16 r64 | 44BFEB339E5EB66261BE949812B305483EF0 00*64 | | | 040403010100000101010102020104010B0C181301171A0A091004151300150400000000000000000100000000000000 |  | 48 | 140 | 188 | 189
    24 | n16 s m N r64 | 6552D3B4FDCA2FDF71F0DA2C9D2F032A8BB5371D4EFF89400EC0 00*64 | | | 0027002D0027003D005900280017003D71F0DA2C9D2F032A8BB5371D4EFF894000000000000000000001000000000000 |  | 24 | 202 | 226 | 227
    16 | n24 s 3 N r64 | 5954D99159BB702A8212E7C5FFF7285EB9279F6F3C10FF7FC59B298B8C14B40D69DD001D4B00 00*64 | | | C80800B30600DB05000506004109002500003E0700BF00007AA1DC7D9EE443F0BC16FFFD2EA66CD0523074A7352C7500 |  | 16 | 298 | 314 | 314
    16 | n27 N r64 | 78C98DB3EB752F03977B4B05DAFBABEABEFD73AC59B9AA0C297C098AB83CB3C692BA02F243CD3FF2FD288CE6E0 00*64 | | | FAEC0000523700000EBC00007B970000C1120000AFDD0000AF2E0000BE6A000059AC73056150CD0562025F0267797005A02B6904E6217901F4CBFF04DC9C1105 |  | 16 | 357 | 373 | 373
       | n10 N r64 | 51A677F8264F090FF00000000000000000 00*64 | | | 37000F0018002200060024000F000000 | residual 1 | 8 | 132 | 140 | 140";

#[test]
fn seldom_blocks_are_decoded(rt: HostRuntime) -> Result<(), Fail> {
    let mut cases = Cases::new();
    for line in SELDOM.lines() {
        cases.of_line(line);
        line_is_decoded(&mut cases, rt.alloc(), line)?;
    }
    cases.end()
}

fn line_is_decoded(cases: &mut Cases<'_>, alloc: Global, line: &str) -> Result<(), Fail> {
    let mut columns = Columns::of(line);
    let asked = number_of(columns.next())?;
    let call = Call::of(&mut columns, alloc)?;
    for piece in [1, 7, 4096] {
        is_decoded(cases, &call, asked, piece);
    }
    Ok(())
}

fn is_decoded(cases: &mut Cases<'_>, call: &Call, asked: Option<u64>, piece: usize)
    requires { 0 < piece }
{
    let mut room = [0u8; 4200];
    let mut outlet = MemoryOut::new(&mut room, piece, call.writes);
    let intake = MemoryIn::new(call.input.as_slice(), piece, call.reads);
    let (outcome, _) = decode(&call.setting, asked, intake, &mut outlet);
    call.check(cases, &outcome, outlet.written());
    let mut room = [0u8; 4200];
    let mut outlet = MemoryOut::new(&mut room, piece, call.writes);
    let intake = MemoryIn::new(call.input.as_slice(), piece, call.reads);
    let (outcome, _) = Plain::decode(&call.setting, asked, intake, &mut outlet);
    call.check(cases, &outcome, outlet.written());
}

/// The number of samples that are asked of zeros, and the fault.
const ZEROS: &str = "  |
    1 | ends 0";

#[test]
fn zeros_are_no_samples() -> Result<(), Fail> {
    let mut cases = Cases::new();
    for line in ZEROS.lines() {
        cases.of_line(line);
        zeros_of_line(&mut cases, line)?;
    }
    cases.end()
}

/// Decodes 1,048,576 bytes of zeros.
fn zeros_of_line(cases: &mut Cases<'_>, line: &str) -> Result<(), Fail> {
    let mut columns = Columns::of(line);
    let asked = number_of(columns.next())?;
    let fault = fault_of(columns.next())?;
    let mut room = [0u8; 8];
    let mut outlet = MemoryOut::new(&mut room, 8, None);
    let (outcome, _) = decode(&setting_of("")?, asked, ZeroIn::new(1048576), &mut outlet);
    let report = outcome.report;
    cases.check(outcome.fault == fault);
    cases.check(outlet.written().is_empty());
    cases.check((report.samples, report.bits) == (0, 8388608));
    cases.check(8388608 <= report.steps && report.steps <= 16777216);
    Ok(())
}

/// The options with which bytes that are anything are decoded.
const SETTINGS: &str = "n1 j8
    n1 j16
    n1 j32
    n1 j64
    n8 j8
    n8 j16
    n8 j32
    n8 j64
    n16 j8
    n16 j16
    n16 j32
    n16 j64
    n32 j8
    n32 j16
    n32 j32
    n32 j64";

#[test]
fn any_bytes_stay_in_their_bounds() -> Result<(), Fail> {
    let mut cases = Cases::new();
    let mut x = 1;
    for _ in 0..1000 {
        let bytes = next_bytes(&mut x);
        stay_in_bounds(&mut cases, &bytes)?;
    }
    cases.end()
}

/// Returns the next bytes of a generator of pseudorandom numbers, of each number its highest byte.
fn next_bytes(x: &mut u32) -> [u8; 64] {
    let mut bytes = [0; 64];
    for byte in bytes.iter_mut() {
        *x = x.wrapping_mul(1103515245).wrapping_add(12345);
        *byte = (*x >> 24) as u8;
    }
    bytes
}

/// Decodes bytes with all settings.
fn stay_in_bounds(cases: &mut Cases<'_>, bytes: &[u8; 64]) -> Result<(), Fail> {
    for line in SETTINGS.lines() {
        cases.of_line(line);
        stay_in_bounds_by(cases, &setting_of(line)?, bytes);
    }
    Ok(())
}

/// Decodes bytes with some counts of samples and with none.
fn stay_in_bounds_by(cases: &mut Cases<'_>, setting: &Setting, bytes: &[u8; 64]) {
    for asked in [Some(0), Some(1), Some(100), None] {
        let mut room = [0u8; 16384];
        let mut outlet = MemoryOut::new(&mut room, 4096, None);
        let intake = MemoryIn::new(bytes, 4096, None);
        let (outcome, _) = decode(setting, asked, intake, &mut outlet);
        let samples = outlet.written().len() as u64 / setting.width() as u64;
        cases.check(outcome.report.samples == samples);
        cases.check(is_in_bounds(&outcome));
        cases.check(ends_as_asked(&outcome, asked, setting.block()));
    }
}

/// Returns whether the bits are those of 64 bytes at most, and the steps as many as the bits and samples, and at most the bits more.
fn is_in_bounds(outcome: &Outcome) -> bool {
    let report = outcome.report;
    let least = report.bits.saturating_add(report.samples);
    let most = least.saturating_add(report.bits);
    report.bits <= 512 && least <= report.steps && report.steps <= most
}

/// Returns whether decoding of 64 bytes may end so: with the count that is asked for, after all bits, or at a refused block.
fn ends_as_asked(outcome: &Outcome, asked: Option<u64>, size: u32) -> bool {
    let report = outcome.report;
    let ends = match outcome.fault {
        None => match asked {
            None => report.bits == 512,
            Some(count) => report.samples == count,
        },
        Some(Fault::CodeEnds { samples }) => (report.bits, report.samples) == (512, samples),
        Some(Fault::RunPastSegment { block }) => report.samples
            == block.saturating_mul(size as u64),
        Some(Fault::ResidualTooLarge { block }) => {
            report.samples == block.saturating_mul(size as u64)
        }
        Some(_) => false,
    };
    ends && report.samples <= asked.unwrap_or(u64::MAX)
}
