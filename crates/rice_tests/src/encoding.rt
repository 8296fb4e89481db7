//! Tests of `encode`: codes and reports, devices that fail, and bytes of no sample.
ghost use Rattle.std.specs.Prelude.{◌<◌};

use crate::calls::Call;
use rice_base_tests::case_table::Columns;
use rice_base_tests::cases::Cases;
use rice_bits::{MemoryIn, MemoryOut};
use rice_stream::{decode, encode};
use std::alloc::Global;
use std::test::Fail;

/// The options, the bytes of the samples, the places where the intake and the outlet fail, the bytes that are written, the fault,
/// and the report: samples, bits, and the least and the most steps that their bounds allow.
const CALLS: &str =
    "          |                  |    |   |                    |          | 0   | 0  | 0    | 0
    N         |                  |    |   |                    |          | 0   | 0  | 0    | 0
              | 05*8             |    |   | 0058               |          | 8   | 13 | 29   | 82
              | 05               |    |   | 0058               |          | 1   | 13 | 29   | 82
              | 0001020304050607 |    |   | 20092492           |          | 8   | 31 | 62   | 118
              | 00FF*4           |    |   | E01F FF*6 E0       |          | 8   | 67 | 138  | 155
              | 05*15 04         |    |   | 0058F2             |          | 16  | 23 | 70   | 158
              | 05*11 0404030302 |    |   | 0058C920           |          | 16  | 27 | 74   | 166
    r64       | 00*40            |    |   | 000080             |          | 40  | 17 | 97   | 314
    r128      | 00*520           |    |   | 000084             |          | 520 | 22 | 1062 | 3684
    r64       | 00*47 01         |    |   | 00004790           |          | 48  | 28 | 139  | 392
    n4 s      | F8*8             |    |   | 0880               |          | 8   | 9  | 25   | 74
    n16 m     | 0005*8           |    |   | 00002C             |          | 8   | 22 | 38   | 100
    N         | 00*7 01          |    |   | 1E40               |          | 8   | 10 | 41   | 76
    r1        | 05*16            |    |   | 005802C0           |          | 16  | 26 | 58   | 164
              | 05*16            |    |   | 0054               |          | 16  | 14 | 46   | 140
    N         | F0F1F2F3F4F5F6F7 |    |   | FE1E3E5E7E9EBEDEE0 |          | 8   | 67 | 138  | 155
    n24 3 m   | 000005*8         |    |   | 00000016           |          | 8   | 31 | 47   | 118
    n24 3     | 050000*8         |    |   | 00000016           |          | 8   | 31 | 47   | 118
    n24 m     | 00000005*8       |    |   | 00000016           |          | 8   | 31 | 47   | 118
    n32       | 05000000*8       |    |   | 00*4 16            |          | 8   | 39 | 55   | 134
    s         | 00FFFEFDFCFBFAF9 |    |   | 200AAA80           |          | 8   | 25 | 56   | 106
    n1        | 0001*4           |    |   | EFE0               |          | 8   | 11 | 42   | 78
    n4 s N    | FF               |    |   | FF*4 E0            |          | 1   | 35 | 90   | 123
    j16       | 05*16            |    |   | 0058               |          | 16  | 13 | 45   | 138
    N         | F0               |    |   | FE 1E*7 00         |          | 1   | 67 | 138  | 155
    n9 m N    | 01FF*8           |    |   | FF*9 F0            |          | 8   | 76 | 171  | 208
    n9 N      | FF01*8           |    |   | FF*9 F0            |          | 8   | 76 | 171  | 208
    s         | 807F*4           |    |   | F01F FF*6 E0       |          | 8   | 67 | 138  | 155
    N         | 00*3 0100010001  |    |   | 1924               |          | 8   | 14 | 45   | 84
    r64       | 00*33            |    |   | 000080             |          | 33  | 17 | 97   | 314
    r64       | 00*32            |    |   | 0001               |          | 32  | 16 | 80   | 256
    r64       | 00*504 01        |    |   | 00*9 1178          |          | 505 | 85 | 1124 | 3754
    n32 j64 N | 00*252 01000000  |    |   | 07FFFFFFF9         |          | 64  | 40 | 295  | 528
    r1 p      | 05*16            |    |   | 00580058           |          | 16  | 26 | 58   | 164
    p         | 05*17            |    |   | 00540058           |          | 17  | 27 | 75   | 222
    p         | 05*15 04         |    |   | 0058F2             |          | 16  | 23 | 70   | 158
    n4        | 10               |    |   |                    | range 0  | 0   | 0  | 0    | 0
    n10       | 050005           |    |   |                    | inside 1 | 1   | 0  | 1    | 1
    n10       | 0500000405       |    |   |                    | range 1  | 1   | 0  | 1    | 1
    n4 r1     | 05*8 10          |    |   | 05                 | range 8  | 8   | 9  | 25   | 74
    n4 r1 p   | 05*8 10          |    |   | 0580               | range 8  | 8   | 9  | 25   | 74
    r1        | 05*16            | 0  |   |                    | read     | 0   | 0  | 0    | 0
    r1        | 05*16            | 1  |   |                    | read     | 1   | 0  | 1    | 1
    r1        | 05*16            | 2  |   |                    | read     | 2   | 0  | 2    | 2
    r1        | 05*16            | 3  |   |                    | read     | 3   | 0  | 3    | 3
    r1        | 05*16            | 4  |   |                    | read     | 4   | 0  | 4    | 4
    r1        | 05*16            | 5  |   |                    | read     | 5   | 0  | 5    | 5
    r1        | 05*16            | 6  |   |                    | read     | 6   | 0  | 6    | 6
    r1        | 05*16            | 7  |   |                    | read     | 7   | 0  | 7    | 7
    r1        | 05*16            | 8  |   | 00                 | read     | 8   | 13 | 29   | 82
    r1        | 05*16            | 9  |   | 00                 | read     | 9   | 13 | 30   | 83
    r1        | 05*16            | 10 |   | 00                 | read     | 10  | 13 | 31   | 84
    r1        | 05*16            | 11 |   | 00                 | read     | 11  | 13 | 32   | 85
    r1        | 05*16            | 12 |   | 00                 | read     | 12  | 13 | 33   | 86
    r1        | 05*16            | 13 |   | 00                 | read     | 13  | 13 | 34   | 87
    r1        | 05*16            | 14 |   | 00                 | read     | 14  | 13 | 35   | 88
    r1        | 05*16            | 15 |   | 00                 | read     | 15  | 13 | 36   | 89
    r1        | 05*16            | 16 |   | 005802             | read     | 16  | 26 | 58   | 164
    r1 p      | 05*16            | 8  |   | 0058               | read     | 8   | 13 | 29   | 82
    r1        | 05*16            |    | 0 |                    | write    | 8   | 13 | 29   | 82
    r1        | 05*16            |    | 1 | 00                 | write    | 16  | 26 | 58   | 164
    r1        | 05*16            |    | 2 | 0058               | write    | 16  | 26 | 58   | 164
    r1        | 05*16            |    | 3 | 005802             | write    | 16  | 26 | 58   | 164
    r1        | 05*16            |    | 4 | 005802C0           |          | 16  | 26 | 58   | 164
    r1 p      | 05*16            |    | 1 | 00                 | write    | 8   | 13 | 29   | 82
    r64       | 00*47 01         |    | 0 |                    | write    | 48  | 28 | 139  | 392
    r64       | 00*47 01         |    | 1 | 00                 | write    | 48  | 28 | 139  | 392
    r64       | 00*47 01         |    | 2 | 0000               | write    | 48  | 28 | 139  | 392
    r64       | 00*47 01         |    | 3 | 000047             | write    | 48  | 28 | 139  | 392
    r64       | 00*47 01         |    | 4 | 00004790           |          | 48  | 28 | 139  | 392";

#[test]
fn samples_are_encoded(rt: HostRuntime) -> Result<(), Fail> {
    let mut cases = Cases::new();
    for line in CALLS.lines() {
        cases.of_line(line);
        line_is_encoded(&mut cases, rt.alloc(), line)?;
    }
    cases.end()
}

fn line_is_encoded(cases: &mut Cases<'_>, alloc: Global, line: &str) -> Result<(), Fail> {
    let call = Call::of(&mut Columns::of(line), alloc)?;
    for piece in [1, 7, 4096] {
        is_encoded(cases, &call, piece);
    }
    Ok(())
}

/// Encodes in pieces of one size, and decodes again what is encoded without a fault.
fn is_encoded(cases: &mut Cases<'_>, call: &Call, piece: usize)
    requires { 0 < piece }
{
    let mut room = [0u8; 64];
    let mut outlet = MemoryOut::new(&mut room, piece, call.writes);
    let mut intake = MemoryIn::new(call.input.as_slice(), piece, call.reads);
    let outcome = encode(&call.setting, &mut intake, &mut outlet);
    call.check(cases, &outcome, outlet.written());
    if outcome.fault.is_none() {
        decodes_again(cases, call, outlet.written(), piece);
    }
}

/// Looks that a code decodes to the samples of a call.
fn decodes_again(cases: &mut Cases<'_>, call: &Call, code: &[u8], piece: usize)
    requires { 0 < piece }
{
    let mut room = [0u8; 1024];
    let mut outlet = MemoryOut::new(&mut room, piece, None);
    let intake = MemoryIn::new(code, piece, None);
    let (outcome, _) = decode(&call.setting, Some(call.samples), intake, &mut outlet);
    cases.check(outcome.fault.is_none());
    cases.check(outlet.written() == call.input.as_slice());
}
