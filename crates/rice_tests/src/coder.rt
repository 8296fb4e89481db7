//! Tests of the coder: codes, bits and steps.
ghost use Rattle.std.specs.Prelude.{◌≡◌, ◌≤◌, length};

use rice_base_tests::case_table::{Columns, bytes_of, number_of, samples_of, setting_of};
use rice_base_tests::cases::Cases;
use rice_bits::{BitSink, Meter};
use rice_code::{Coder, SegmentSink, bit_bound, padded_bound, step_bound};
use rice_samples::Setting;
use std::alloc::Global;
use std::process::Abort;
use std::test::Fail;

/// The bytes of a code, its bits with the padding of intervals, and the steps that it took.
#[derive(Drop)]
struct Coded {
    bytes: Vec<u8>,
    bits: u64,
    steps: u64,
}

/// Pushes a sample, after testing all that a push requires but the room of the sink.
fn push(
    rt: &impl Abort,
    setting: &Setting,
    coder: &mut Coder,
    x: i64,
    sink: &mut SegmentSink,
    meter: &mut Meter,
)
    requires setting { coder.old.setting ≡ setting.now }
    requires room { length sink.old ≤ 7 }
    ensures setting { coder.new.setting ≡ setting.now }
{
    let _block = setting.block();
    assert!(rt; setting.in_range(x));
    assert!(rt; meter.steps() < 1 << 61);
    coder.push(x, sink, meter);
}

/// Codes samples, and takes the whole bytes out of the sink after each of them.
fn code(rt: &impl Abort, alloc: Global, setting: Setting, samples: &[i64]) -> Result<Coded, Fail> {
    let _block = setting.block();
    let mut coder = Coder::new(setting);
    let mut sink = BitSink::new();
    let mut meter = Meter::new();
    let mut bytes = Vec::new(alloc);
    for &x in samples {
        push(rt, &setting, &mut coder, x, &mut sink, &mut meter);
        bytes.extend_from_slice(sink.whole())?;
        sink.drop_whole();
    }
    assert!(rt; meter.steps() < 1 << 61);
    coder.finish(&mut sink, &mut meter);
    let bits = (bytes.len() as u64)
        .saturating_mul(8)
        .saturating_add(sink.len());
    sink.pad();
    bytes.extend_from_slice(sink.whole())?;
    Ok(Coded {
        bytes,
        bits,
        steps: meter.steps(),
    })
}

/// The options, the samples, the bytes of their code, and its number of bits.
const CODES: &str = "       | 0 1 2 3 4 5 6 7         | 20092492      | 31
           | 0 255 0 255 0 255 0 255 | E0 1F FF*6 E0 | 67
           | 5*15 4                  | 0058F2        | 23
           | 5*11 4 4 3 3 2          | 0058C920      | 27
    s      | 0 -1 -2 -3 -4 -5 -6 -7  | 200AAA80      | 25
    n1     | 0 1 0 1 0 1 0 1         | EFE0          | 11
    N      | 0*7 1                   | 1E40          | 10
    N      | 0 0 0 1 0 1 0 1         | 1924          | 14
    n4 s N | -1                      | FF*4 E0       | 35
           |                         |               | 0
           | 5*8                     | 0058          | 13
           | 5                       | 0058          | 13
           | 5*16                    | 0054          | 14
    r64    | 0*40                    | 000080        | 17
    r64    | 0*33                    | 000080        | 17
    r64    | 0*32                    | 0001          | 16
    r64    | 0*47 1                  | 00004790      | 28
    r64    | 0*504 1                 | 00*9 1178     | 85
    r128   | 0*520                   | 000084        | 22
    r1     | 5*16                    | 005802C0      | 26
    j16    | 5*16                    | 0058          | 13
    n16    | 5*8                     | 00002C        | 22
    n24    | 5*8                     | 00000016      | 31
    n32    | 5*8                     | 0000000016    | 39
    n4 s   | -8*8                    | 0880          | 9
    p r1   | 5*16                    | 00580058      | 32
    p      | 5*17                    | 00540058      | 29
    p      | 5*15 4                  | 0058F2        | 24";

#[test]
fn samples_are_coded(rt: HostRuntime) -> Result<(), Fail> {
    let mut cases = Cases::new();
    for line in CODES.lines() {
        cases.of_line(line);
        line_is_coded(&rt, &mut cases, rt.alloc(), line)?;
    }
    cases.end()
}

fn line_is_coded(
    rt: &impl Abort,
    cases: &mut Cases<'_>,
    alloc: Global,
    line: &str,
) -> Result<(), Fail> {
    let mut columns = Columns::of(line);
    let setting = setting_of(columns.next())?;
    let samples = samples_of(columns.next(), alloc)?;
    let bytes = bytes_of(columns.next(), alloc)?;
    let bits = number_of(columns.next())?;
    are_coded(
        rt,
        cases,
        alloc,
        setting,
        samples.as_slice(),
        (bytes.as_slice(), bits),
    )
}

/// Codes samples, and looks at the bytes and the number of bits.
fn are_coded(
    rt: &impl Abort,
    cases: &mut Cases<'_>,
    alloc: Global,
    setting: Setting,
    samples: &[i64],
    (bytes, bits): (&[u8], Option<u64>),
) -> Result<(), Fail> {
    let coded = code(rt, alloc, setting, samples)?;
    cases.check((coded.bytes.as_slice(), Some(coded.bits)) == (bytes, bits));
    Ok(())
}

#[test]
fn pending_samples(rt: HostRuntime) -> Result<(), Fail> {
    let mut cases = Cases::new();
    let setting = setting_of("")?;
    let mut coder = Coder::new(setting);
    let mut sink = BitSink::new();
    let mut meter = Meter::new();
    for waiting in 0..16u32 {
        cases.check(coder.pending() == waiting);
        assert_eq!(rt; sink.len(), 0);
        push(&rt, &setting, &mut coder, 5, &mut sink, &mut meter);
    }
    cases.check((coder.pending(), sink.len()) == (0, 14));
    cases.end()
}

#[test]
fn steps(rt: HostRuntime) -> Result<(), Fail> {
    let mut cases = Cases::new();
    let mut late = [0; 64];
    late[63] = 1;
    let coded = code(&rt, rt.alloc(), setting_of("n32 j64 N")?, &late)?;
    cases.check(coded.bytes.as_slice() == [0x07, 0xFF, 0xFF, 0xFF, 0xF9].as_slice());
    cases.check(coded.bits == 40);
    cases.check(295 <= coded.steps && coded.steps <= 528);

    // 64 blocks of 2,053 bits each, the best split of which is the greatest
    let mut far = [0; 4096];
    for i in 0..2048usize {
        far[2 * i + 1] = 4294967295;
    }
    let widest = setting_of("n32 j64 r64")?;
    let coded = code(&rt, rt.alloc(), widest, &far)?;
    cases.check(coded.bits == 131392);
    cases.check(266496 <= coded.steps && coded.steps <= 274752);
    cases.check(step_bound(&widest, 4096) == 274752);
    cases.end()
}

#[test]
fn bounds() -> Result<(), Fail> {
    let mut cases = Cases::new();
    let small = setting_of("r1")?;
    cases.check((bit_bound(&small, 0), step_bound(&small, 0)) == (0, 0));
    cases.check((bit_bound(&small, 8), step_bound(&small, 8)) == (67, 155));
    cases.check((bit_bound(&small, 9), step_bound(&small, 9)) == (134, 310));
    cases.check((bit_bound(&small, 16), padded_bound(&small, 16)) == (134, 134));
    cases.check(padded_bound(&setting_of("p r1")?, 16) == 148);
    let wide = setting_of("n32 j64")?;
    cases.check((bit_bound(&wide, 64), step_bound(&wide, 64)) == (2053, 4293));
    cases.end()
}
