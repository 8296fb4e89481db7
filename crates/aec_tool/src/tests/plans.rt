//! `run` over memory, by the plan of a command line: what it writes, reports and answers.
use crate::tests::columns::{Columns, bytes_of};
use aec_command::{matches_of, plan_of};
use aec_run::exit_status::exit_status;
use aec_run::run;
use rice_bits::{FromReader, SliceOut};
use rice_stream::Outcome;
use std::alloc::Global;
use std::io;
use std::io::{ErrorKind, Read};
use std::test::Fail;

/// A reader that gives bytes, and then ends or fails.
#[derive(Drop)]
struct Given<'a> {
    left: &'a [u8],
    fails: bool,
}

impl Read for Given<'_> {
    fn read(&mut self, buf: &mut [u8]) -> io::Result<usize> {
        if self.fails && self.left.is_empty() {
            return Err(io::Error::from(ErrorKind::Other));
        }
        self.left.read(buf)
    }
}

/// What is wanted of a run: the bytes that are written, the report's numbers, and the text of the fault, if there is one.
#[derive(Clone, Copy)]
struct Wanted<'a> {
    written: &'a [u8],
    samples: u64,
    bits: u64,
    fault: &'a str,
}

/// Returns what came of the plan of these words, between the reader and the room, and how many bytes were written.
fn outcome_of(
    alloc: Global,
    words: &str,
    reader: Given<'_>,
    room: &mut [u8],
) -> Result<(Outcome, usize), Fail> {
    let mut all = Vec::new(alloc);
    for word in words.split_whitespace() {
        all.push(word)?;
    }
    let Ok(matches) = matches_of(alloc, all.as_slice()) else {
        return Err(Fail::new(format_args!("{words} is refused")));
    };
    let Ok(plan) = plan_of(&matches) else {
        return Err(Fail::new(format_args!("{words} has no plan")));
    };
    let mut outlet = SliceOut::new(room);
    let (outcome, _) = run(&plan, FromReader::new(reader), &mut outlet);
    Ok((outcome, outlet.taken()))
}

/// Fails unless the plan of these words does what is wanted, where the outlet has room for so many bytes.
fn expect(
    alloc: Global,
    words: &str,
    reader: Given<'_>,
    room: usize,
    wanted: &Wanted<'_>,
) -> Result<(), Fail> {
    let mut memory = [0u8; 1024];
    let room = room.min(memory.len());
    let (outcome, taken) = outcome_of(alloc, words, reader, &mut memory[..room])?;
    let written = &memory[..taken.min(room)];
    let report = outcome.report;
    let text = match outcome.fault {
        Some(fault) => fault.to_string(alloc)?,
        None => String::new(alloc),
    };
    let status = if wanted.fault.is_empty() { 0 } else { 1 };
    if written == wanted.written
        && (report.samples, report.bits) == (wanted.samples, wanted.bits)
        && text.as_str() == wanted.fault
        && exit_status(&outcome) == status
    {
        return Ok(());
    }
    Err(Fail::new(format_args!("{words}: {taken} bytes, {outcome:?}")))
}

/// Fails unless these options do what is wanted of the bytes given. What was encoded without a fault is decoded again.
fn expect_both_ways(
    alloc: Global,
    options: &str,
    given: Given<'_>,
    room: usize,
    wanted: &Wanted<'_>,
) -> Result<(), Fail> {
    let left = given.left;
    let words = format!(in alloc; "aec {options} - -")?;
    expect(alloc, words.as_str(), given, room, wanted)?;
    if options.contains("-d") || !wanted.fault.is_empty() {
        return Ok(());
    }
    let samples = wanted.samples;
    let words = format!(in alloc; "aec {options} -d --samples {samples} - -")?;
    let code = Given {
        left: wanted.written,
        fails: false,
    };
    let decoded = Wanted {
        written: left,
        ..*wanted
    };
    expect(alloc, words.as_str(), code, left.len(), &decoded)
}

/// Tries a line: the options, the bytes that the intake gives, `!` where it fails after them, and the outlet's room. After these
/// stand the bytes that are written, the report's samples and bits, and the fault.
fn expect_line(alloc: Global, line: &str) -> Result<(), Fail> {
    let mut columns = Columns::of(line);
    let options = columns.next();
    let given = bytes_of(columns.next(), alloc)?;
    let fails = columns.next() == "!";
    let room = columns.next().parse::<usize>()?;
    let written = bytes_of(columns.next(), alloc)?;
    let wanted = Wanted {
        written: written.as_slice(),
        samples: columns.next().parse::<u64>()?,
        bits: columns.next().parse::<u64>()?,
        fault: columns.next(),
    };
    let left = given.as_slice();
    expect_both_ways(alloc, options, Given { left, fails }, room, &wanted)
}

const ENCODED: &str =
    "         |                         |   | 99 |                            | 0   | 0  |
                 | 05*8                    |   | 99 | 00 58                      | 8   | 13 |
                 | 05                      |   | 99 | 00 58                      | 1   | 13 |
                 | 00 01 02 03 04 05 06 07 |   | 99 | 20 09 24 92                | 8   | 31 |
                 | 00-FF*4                 |   | 99 | E0 1F FF*6 E0              | 8   | 67 |
                 | 05*15 04                |   | 99 | 00 58 F2                   | 16  | 23 |
                 | 05*11 04 04 03 03 02    |   | 99 | 00 58 C9 20                | 16  | 27 |
    -r 64        | 00*40                   |   | 99 | 00 00 80                   | 40  | 17 |
    -r 128       | 00*520                  |   | 99 | 00 00 84                   | 520 | 22 |
    -r 64        | 00*47 01                |   | 99 | 00 00 47 90                | 48  | 28 |
    -n 4         | 10                      |   | 99 |                            | 0   | 0  | sample 0 is out of range
    -n 10        | 05 00 05                |   | 99 |                            | 1   | 0  | input ends inside sample 1
    -n 4 -s      | F8*8                    |   | 99 | 08 80                      | 8   | 9  |
    -n 16 -m     | 00-05*8                 |   | 99 | 00 00 2C                   | 8   | 22 |
    -N           | 00*7 01                 |   | 99 | 1E 40                      | 8   | 10 |
    -r 1         | 05*16                   |   | 99 | 00 58 02 C0                | 16  | 26 |
                 | 05*16                   |   | 99 | 00 54                      | 16  | 14 |
    -N           | F0 F1 F2 F3 F4 F5 F6 F7 |   | 99 | FE 1E 3E 5E 7E 9E BE DE E0 | 8   | 67 |
    -n 24 -3 -m  | 00-00-05*8              |   | 99 | 00 00 00 16                | 8   | 31 |
    -n 24 -3     | 05-00-00*8              |   | 99 | 00 00 00 16                | 8   | 31 |
    -n 24 -m     | 00-00-00-05*8           |   | 99 | 00 00 00 16                | 8   | 31 |
    -n 32        | 05-00-00-00*8           |   | 99 | 00 00 00 00 16             | 8   | 39 |
    -s           | 00 FF FE FD FC FB FA F9 |   | 99 | 20 0A AA 80                | 8   | 25 |
    -n 1         | 00-01*4                 |   | 99 | EF E0                      | 8   | 11 |
    -n 4 -s -N   | FF                      |   | 99 | FF*4 E0                    | 1   | 35 |
    -j 16        | 05*16                   |   | 99 | 00 58                      | 16  | 13 |
    -r 1 -n 4    | 05*8 10                 |   | 99 | 05                         | 8   | 9  | sample 8 is out of range
    -r 1         | 05*8                    | ! | 99 | 00                         | 8   | 13 | read failed
    -r 1         | 05*16                   |   | 1  | 00                         | 16  | 26 | write failed
    -r 1         | 05*16                   |   | 0  |                            | 8   | 13 | write failed";

const DECODED: &str = "-d | | | 99 | | 0 | 0 |
    -d               | 00 58          |   | 99  | 05*8                    | 8   | 16 |
    -d --samples 8   | 00 58          |   | 99  | 05*8                    | 8   | 13 |
    -d --samples 1   | 00 58          |   | 99  | 05                      | 1   | 13 |
    -d -r 64         | 00 00 80       |   | 999 | 00*512                  | 512 | 24 |
    -d -r 64 --samples 40 | 00 00 80  |   | 99  | 00*40                   | 40  | 17 |
    -d               | 20 09          |   | 99  |                         | 0   | 16 | code ends after 0 samples
    -d -n 4          | 20 00 01 FC    |   | 99  |                         | 0   | 30 | residual too large in block 0
    -d               | 00 58 00 00    |   | 99  | 05*8                    | 8   | 32 |
    -d --samples 0   | FF FF          |   | 99  |                         | 0   | 0  |
    -d               | 00 02          |   | 99  |                         | 0   | 15 | run at block 0 passes its segment
    -d --samples 8   | 00 02          |   | 99  |                         | 0   | 15 | run at block 0 passes its segment
    -d -N            | FE 1E 3E 5E 7E 9E BE DE E0 | | 99 | F0 F1 F2 F3 F4 F5 F6 F7 | 8 | 72 |
    -d               | 40 15 55 80    |   | 99  | 00 01 02 03 04 05 06 07 | 8   | 32 |
    -d               | 10 57 80       |   | 99  |                         | 0   | 17 | residual too large in block 0
    -d               | 00 00 80       |   | 99  | 00*16                   | 16  | 24 |
    -d -r 5          | 00 00 40       |   | 99  | 00*40                   | 40  | 24 |
    -d -r 64         | 00*9 10        |   | 999 | 00*504                  | 504 | 80 |
    -d -r 64         | 00*9 08        |   | 99  |                         | 0   | 77 | run at block 0 passes its segment
    -d --samples 9   | 00 58          |   | 99  | 05*8                    | 8   | 16 | code ends after 8 samples
    -d -n 1          | CF E1 00*4     |   | 99  | 00 01*7                 | 8   | 48 |
    -d -n 1          | CF E2 00*4     |   | 99  |                         | 0   | 46 | residual too large in block 0
    -d               | 00 58          |   | 3   | 05*3                    | 0   | 13 | write failed";

#[test]
fn does_what_a_plan_asks(rt: HostRuntime) -> Result<(), Fail> {
    for line in ENCODED.lines().chain(DECODED.lines()) {
        expect_line(rt.alloc(), line)?;
    }
    Ok(())
}
