//! `start` over a runtime in memory with limited devices and no clock: cases that `scripts/rows.txt` cannot try with the program.
use crate::tests::columns::Columns;
use crate::tests::runtime_in_memory::{Memory, Record};
use aec_run::start;
use std::test::Fail;

// Eight samples of 7 bits, all 0, coded without compression.
const CODE: &[u8] = b"\xE0\0\0\0\0\0\0\0";

/// Returns the input of this name.
fn input_of(name: &str) -> &'static [u8] {
    match name {
        "code" => CODE,
        "equal" => b"\x05\x05\x05\x05\x05\x05\x05\x05\x05\x05\x05\x05\x05\x05\x05\x05",
        _ => b"",
    }
}

/// Fails unless a start with the words of each line, this input and so much room in standard output and in each file has done what
/// stands after: its status, how many files it made, and what it wrote to standard output, to a file and to standard error. An
/// empty word is `''`.
fn expect_each(rt: HostRuntime, lines: &str) -> Result<(), Fail> {
    for line in lines.lines() {
        expect(rt, line)?;
    }
    Ok(())
}

fn expect(rt: HostRuntime, line: &str) -> Result<(), Fail> {
    let mut columns = Columns::of(line);
    let words = columns.next();
    let input = input_of(columns.next());
    let room = columns.next().parse::<usize>()?;
    let reported = reported(rt, words, input, room)?;
    if reported.as_str() == columns.next() {
        return Ok(());
    }
    Err(Fail::new(format_args!("{line}: {reported}")))
}

/// Returns what a start with these words has done.
fn reported(rt: HostRuntime, words: &str, input: &[u8], room: usize) -> Result<String, Fail> {
    let mut all = Vec::new(rt.alloc());
    all.push("aec")?;
    for word in words.split_whitespace() {
        all.push(if word == "''" { "" } else { word })?;
    }
    let record = Record::new(rt.alloc(), room);
    let memory = Memory::new(rt, input, &record);
    let status = start(&memory, all.as_slice());
    record.reported(rt.alloc(), status)
}

const REFUSED: &str =
    r#"-n 0 - - | equal | 100 | 2, 0 files, "", "", "aec: bits per sample must be 1 to 32\n"
    -n 33 -j 7 - - | equal | 100 | 2, 0 files, "", "", "aec: bits per sample must be 1 to 32\n"
    -j 12 -r 0 - - | equal | 100 | 2, 0 files, "", "", "aec: block size must be 8, 16, 32 or 64\n"
    -r 4097 - out.bin | equal | 100 | 2, 0 files, "", "", "aec: interval must be 1 to 4096\n"
    --samples 3 -n 0 - - | equal | 100 | 2, 0 files, "", "", "aec: --samples needs -d\n"
    --test -n 0 - - | equal | 100 | 2, 0 files, "", "", "aec: --test takes no DEST\n"
    --test -n 0 - | equal | 100 | 2, 0 files, "", "", "aec: bits per sample must be 1 to 32\n"
    none.bin out.bin | equal | 100 | 1, 0 files, "", "", "aec: cannot open none.bin\n"
    in.bin none/out.bin | equal | 100 | 1, 0 files, "", "", "aec: cannot create none/out.bin\n""#;

#[test]
fn tells_why_it_does_not_begin(rt: HostRuntime) -> Result<(), Fail> {
    expect_each(rt, REFUSED)
}

const FLUSH: &str =
    r#"-N -n 7 -d - - | code | 3 | 1, 0 files, "\0\0\0", "", "aec: write failed\n""#;

#[test]
fn tells_that_the_flush_failed(rt: HostRuntime) -> Result<(), Fail> {
    expect_each(rt, FLUSH)
}

const ENGINE: &str =
    r#"-N -n 7 -d --samples 9 - - | code | 3 | 1, 0 files, "\0\0\0", "", "aec: code ends after 8 samples\n""#;

#[test]
fn tells_of_the_engine_before_the_flush(rt: HostRuntime) -> Result<(), Fail> {
    expect_each(rt, ENGINE)
}

const FILES: &str = r#"-Ndn7 in.bin out.bin | code | 100 | 0, 1 files, "", "\0\0\0\0\0\0\0\0", ""
    -Ndn7 in.bin out.bin | code | 1 | 1, 1 files, "", "\0", "aec: write failed\n"
    '' out.bin | code | 100 | 1, 0 files, "", "", "aec: cannot open \n""#;

#[test]
fn reads_and_writes_files(rt: HostRuntime) -> Result<(), Fail> {
    expect_each(rt, FILES)
}

// The root is no regular file, and nothing is reported of standard input.
const ONE_FILE: &str =
    r#"in.bin in.bin | equal | 100 | 1, 0 files, "", "", "aec: cannot create in.bin\n"
    in.bin ./in.bin | equal | 100 | 1, 0 files, "", "", "aec: cannot create ./in.bin\n"
    / / | equal | 100 | 1, 0 files, "", "", "aec: cannot open /\n"
    - in.bin | equal | 100 | 0, 1 files, "", "\0T", """#;

#[test]
fn empties_no_file_that_it_reads(rt: HostRuntime) -> Result<(), Fail> {
    expect_each(rt, ONE_FILE)
}

const FINDING: &str = r#"-Nn7 --test - | code | 3 | 1, 0 files, "8 s", "", "aec: write failed\n""#;

#[test]
fn tells_that_what_was_found_was_not_written(rt: HostRuntime) -> Result<(), Fail> {
    expect_each(rt, FINDING)
}

// The code has 59 bits, and zeros after them. Where a file is gone, nobody can tell what is after.
const GONE: &str =
    r#"-Nn7 --test --samples 8 in.bin | code | 100 | 0, 0 files, "8 samples, 59 bits; no 1 is left\n", "", ""
    -Nn7 --test --samples 8 once.bin | code | 100 | 1, 0 files, "", "", "aec: read failed (block 1, bit 58, byte 7 of the code)\n"
    -Nn7 --test once.bin | code | 100 | 0, 0 files, "8 samples, 64 bits\n", "", """#;

#[test]
fn tells_that_a_file_can_not_be_opened_once_more(rt: HostRuntime) -> Result<(), Fail> {
    expect_each(rt, GONE)
}

const CLOSING: &str =
    r#"--verbose - - | equal | 100 | 0, 0 files, "\0T", "", "aec: 16 samples, 16 bytes in, 2 bytes out, ratio 8.00\n"
    --verbose - - | nothing | 100 | 0, 0 files, "", "", "aec: 0 samples, 0 bytes in, 0 bytes out\n""#;

#[test]
fn closes_with_a_line(rt: HostRuntime) -> Result<(), Fail> {
    expect_each(rt, CLOSING)
}
