//! Tests of sinks, readers and devices.
ghost use Rattle.std.specs.Prelude.{◌<◌};

use crate::cases::Cases;
use rice_bits::{
    BitFault, BitReader, BitSink, FromBufWriter, FromReader, FromWriter, Intake, MemoryIn,
    MemoryOut, Meter, Outlet, ReadFault, SliceIn, SliceOut, WriteFault, ZeroIn,
};
use std::io::{self, BufWriter, ErrorKind, Read, Write};
use std::test::Fail;

/// The sizes of pieces that each reading is tried with.
const PIECES: [usize; 4] = [1, 3, 7, 4096];

#[test]
fn put_and_pad() -> Result<(), Fail> {
    let mut cases = Cases::new();
    let mut sink = BitSink::<8>::new();
    let mut meter = Meter::new();
    sink.put(0, 4, &mut meter);
    sink.put(5, 8, &mut meter);
    sink.put_fs(0, &mut meter);
    cases.check(sink.len() == 13);
    cases.check(sink.room() == 51);
    cases.check(sink.whole() == [0].as_slice());
    cases.check(meter.steps() == 13);
    sink.pad();
    cases.check(sink.whole() == [0, 0x58].as_slice());
    cases.check(meter.steps() == 13);
    sink.drop_whole();
    cases.check(sink.len() == 0);
    cases.end()
}

#[test]
fn put_sequences() -> Result<(), Fail> {
    let mut cases = Cases::new();
    let mut sink = BitSink::<2>::new();
    let mut meter = Meter::new();
    sink.put_fs(5, &mut meter);
    sink.put(42, 6, &mut meter);
    sink.pad();
    cases.check(sink.whole() == [0x06, 0xA0].as_slice());
    cases.check(meter.steps() == 12);

    let mut sink = BitSink::<17>::new();
    let mut meter = Meter::new();
    sink.put_fs(130, &mut meter);
    sink.pad();
    let mut expected = [0; 17];
    expected[16] = 0x20;
    cases.check(sink.whole() == expected.as_slice());
    cases.check(meter.steps() == 131);
    cases.end()
}

#[test]
fn read_words_and_sequences() -> Result<(), Fail> {
    let mut cases = Cases::new();
    for piece in PIECES.iter().copied().filter(|piece| *piece > 0) {
        read_words_and_a_sequence(&mut cases, piece);
        read_a_long_sequence_and_a_word(&mut cases, piece);
    }
    cases.end()
}

fn read_words_and_a_sequence(cases: &mut Cases<'_>, piece: usize)
    requires { 0 < piece }
{
    let mut meter = Meter::new();
    let mut reader = BitReader::new(MemoryIn::new(&[0, 0x58], piece, None));
    cases.check(reader.take(4, &mut meter) == Ok(0));
    cases.check(reader.take(8, &mut meter) == Ok(5));
    cases.check(reader.take_fs(&mut meter) == Ok(0));
    let end = BitFault::End { blank: false };
    cases.check(reader.take_fs(&mut meter) == Err(end));
    cases.check(reader.taken() == 16);
    cases.check(meter.steps() == 16);
    reader.mark();
    cases.check(reader.take(0, &mut meter) == Err(end));
}

fn read_a_long_sequence_and_a_word(cases: &mut Cases<'_>, piece: usize)
    requires { 0 < piece }
{
    let long = [0, 0, 0, 0, 0, 0, 0, 1, 0xDE, 0xAD, 0xBE, 0xEF];
    let mut meter = Meter::new();
    let mut reader = BitReader::new(MemoryIn::new(&long, piece, None));
    cases.check(reader.take_fs(&mut meter) == Ok(63));
    cases.check(reader.take(32, &mut meter) == Ok(3735928559));
    cases.check(meter.steps() == 96);
}

#[test]
fn read_to_the_end() -> Result<(), Fail> {
    let mut cases = Cases::new();
    for piece in PIECES.iter().copied().filter(|piece| *piece > 0) {
        read_where_zeros_are_left(&mut cases, piece);
        read_where_nothing_is_left(&mut cases, piece);
        read_where_the_intake_fails(&mut cases, piece);
        read_to_the_end_of_a_byte(&mut cases, piece);
    }
    cases.end()
}

fn read_where_zeros_are_left(cases: &mut Cases<'_>, piece: usize)
    requires { 0 < piece }
{
    let mut meter = Meter::new();
    let mut reader = BitReader::new(MemoryIn::new(&[0, 0x58], piece, None));
    cases.check(reader.take(13, &mut meter) == Ok(11));
    reader.mark();
    cases.check(reader.take_fs(&mut meter) == Err(BitFault::End { blank: true }));
}

fn read_where_nothing_is_left(cases: &mut Cases<'_>, piece: usize)
    requires { 0 < piece }
{
    let mut meter = Meter::new();
    let mut reader = BitReader::new(MemoryIn::new(&[], piece, None));
    cases.check(reader.take(0, &mut meter) == Ok(0));
    cases.check(reader.take(1, &mut meter) == Err(BitFault::End { blank: true }));
}

fn read_where_the_intake_fails(cases: &mut Cases<'_>, piece: usize)
    requires { 0 < piece }
{
    let mut meter = Meter::new();
    let mut reader = BitReader::new(MemoryIn::new(&[0xFF], piece, Some(0)));
    cases.check(reader.take(1, &mut meter) == Err(BitFault::Read));
    cases.check(reader.take(1, &mut meter) == Err(BitFault::Read));
    cases.check(reader.into_inner().failures() == 1);
}

fn read_to_the_end_of_a_byte(cases: &mut Cases<'_>, piece: usize)
    requires { 0 < piece }
{
    let mut meter = Meter::new();
    let long = [0, 0, 0, 0, 0, 0, 0, 0, 0x80];
    let mut reader = BitReader::new(MemoryIn::new(&long, piece, None));
    cases.check(reader.take_fs(&mut meter) == Ok(64));
    reader.mark();
    reader.align(&mut meter);
    cases.check(reader.taken() == 72);
    cases.check(reader.take(1, &mut meter) == Err(BitFault::End { blank: true }));
}

#[test]
fn align_passes_ones() -> Result<(), Fail> {
    let mut cases = Cases::new();
    let mut meter = Meter::new();
    let mut reader = BitReader::new(MemoryIn::new(&[0x1F, 0], 4096, None));
    cases.check(reader.take(3, &mut meter) == Ok(0));
    reader.align(&mut meter);
    cases.check(meter.steps() == 8);
    cases.check(reader.take_fs(&mut meter) == Err(BitFault::End { blank: true }));
    cases.end()
}

#[test]
fn devices_over_memory() -> Result<(), Fail> {
    let mut cases = Cases::new();
    intake_over_memory(&mut cases);
    intake_of_zeros(&mut cases);
    outlet_over_memory(&mut cases);
    cases.end()
}

fn intake_over_memory(cases: &mut Cases<'_>) {
    let mut buffer = [0xAA; 4];
    let mut intake = MemoryIn::new(&[1, 2, 3], 2, Some(3));
    cases.check(intake.fill(&mut buffer) == Ok(2));
    cases.check(buffer == [1, 2, 0xAA, 0xAA]);
    cases.check(intake.fill(&mut buffer) == Ok(1));
    cases.check(intake.fill(&mut buffer) == Err(ReadFault));
    cases.check(intake.failures() == 1);
}

fn intake_of_zeros(cases: &mut Cases<'_>) {
    let mut buffer = [1, 2, 0xAA, 0xAA];
    let mut zeros = ZeroIn::new(5);
    cases.check(zeros.fill(&mut buffer) == Ok(4));
    cases.check(buffer == [0, 0, 0, 0]);
    cases.check(zeros.fill(&mut buffer) == Ok(1));
    cases.check(zeros.fill(&mut buffer) == Ok(0));
    cases.check(zeros.failures() == 0);
}

fn outlet_over_memory(cases: &mut Cases<'_>) {
    let mut room = [0; 4];
    let mut outlet = MemoryOut::new(&mut room, 2, Some(3));
    cases.check(outlet.put(&[7, 8, 9]) == Ok(2));
    cases.check(outlet.put(&[9, 10]) == Ok(1));
    cases.check(outlet.put(&[10]) == Err(WriteFault));
    cases.check(outlet.failures() == 1);
    cases.check(outlet.written() == [7, 8, 9].as_slice());
}

#[test]
fn devices_over_slices() -> Result<(), Fail> {
    let mut cases = Cases::new();
    intake_over_slice(&mut cases);
    outlet_over_slice(&mut cases);
    cases.end()
}

fn intake_over_slice(cases: &mut Cases<'_>) {
    let mut buffer = [0xAA; 4];
    let mut intake = SliceIn::new(&[1, 2, 3, 4, 5, 6]);
    cases.check(intake.fill(&mut buffer) == Ok(4));
    cases.check(buffer == [1, 2, 3, 4]);
    cases.check(intake.fill(&mut buffer) == Ok(2));
    cases.check(buffer == [5, 6, 3, 4]);
    cases.check(intake.fill(&mut buffer) == Ok(0));
    cases.check(intake.failures() == 0);
}

fn outlet_over_slice(cases: &mut Cases<'_>) {
    let mut room = [0; 4];
    let mut outlet = SliceOut::new(&mut room);
    cases.check(outlet.put(&[7, 8, 9]) == Ok(3));
    cases.check(outlet.put(&[10, 11]) == Ok(1));
    cases.check(outlet.put(&[11]) == Err(WriteFault));
    cases.check(outlet.taken() == 4);
    cases.check(outlet.failures() == 1);
    drop(outlet);
    cases.check(room == [7, 8, 9, 10]);
}

/// Gives one byte a call, and fails at one call, after so many bytes.
#[derive(Drop)]
struct FailingReader {
    bytes_before: u32,
}

impl Read for FailingReader {
    fn read(&mut self, buf: &mut [u8]) -> io::Result<usize> {
        if self.bytes_before == 0 {
            self.bytes_before = u32::MAX;
            return Err(io::Error::from(ErrorKind::Interrupted));
        }
        self.bytes_before -= 1;
        if buf.is_empty() {
            return Ok(0);
        }
        buf[0] = 0xF0;
        Ok(1)
    }
}

/// Takes one byte a call, and fails at one call, after so many bytes.
#[derive(Drop)]
struct FailingWriter {
    bytes_before: u32,
}

impl Write for FailingWriter {
    fn write(&mut self, buf: &[u8]) -> io::Result<usize> {
        if self.bytes_before == 0 {
            self.bytes_before = u32::MAX;
            return Err(io::Error::from(ErrorKind::Interrupted));
        }
        self.bytes_before -= 1;
        Ok(buf.len().min(1))
    }

    fn flush(&mut self) -> io::Result<()> {
        Ok(())
    }
}

#[test]
fn devices_over_readers() -> Result<(), Fail> {
    let mut cases = Cases::new();
    let bytes: &[u8] = &[0, 0x58];
    let mut meter = Meter::new();
    let mut reader = BitReader::new(FromReader::new(bytes));
    cases.check(reader.take(12, &mut meter) == Ok(5));
    cases.check(reader.take_fs(&mut meter) == Ok(0));
    cases.check(reader.take_fs(&mut meter) == Err(BitFault::End { blank: false }));

    let mut meter = Meter::new();
    let mut reader = BitReader::new(FromReader::new(FailingReader { bytes_before: 2 }));
    cases.check(reader.take(12, &mut meter) == Ok(0xF0F));
    cases.check(reader.take(8, &mut meter) == Err(BitFault::Read));
    cases.check(meter.steps() == 16);
    cases.check(reader.take_fs(&mut meter) == Err(BitFault::Read));
    cases.check(reader.into_inner().failures() == 1);
    cases.end()
}

#[test]
fn devices_over_writers() -> Result<(), Fail> {
    let mut cases = Cases::new();
    let mut outlet = FromWriter::new(FailingWriter { bytes_before: 2 });
    cases.check(outlet.put(&[1, 2, 3]) == Ok(1));
    cases.check(outlet.put(&[2, 3]) == Ok(1));
    cases.check(outlet.put(&[3]) == Err(WriteFault));
    cases.check(outlet.failures() == 1);
    cases.check(outlet.put(&[3]) == Ok(1));
    cases.check(outlet.failures() == 1);

    // A slice that is full takes nothing, and says so by 0.
    let mut room = [0; 2];
    let mut outlet = FromWriter::new(&mut room[..]);
    cases.check(outlet.put(&[1, 2, 3]) == Ok(2));
    cases.check(outlet.put(&[3]) == Err(WriteFault));
    cases.check(outlet.failures() == 1);
    drop(outlet);
    cases.check(room == [1, 2]);
    cases.end()
}

#[test]
fn devices_over_buffers(rt: HostRuntime) -> Result<(), Fail> {
    let mut cases = Cases::new();
    let after = FailingWriter { bytes_before: 10 };
    let mut outlet = FromBufWriter::new(BufWriter::with_capacity(rt.alloc(), 4, after)?);
    cases.check(outlet.put(&[1, 2]) == Ok(2));
    cases.check(outlet.put(&[3, 4, 5]) == Ok(2));
    cases.check(outlet.put(&[5]) == Ok(1));
    cases.check(outlet.put(&[6]) == Ok(1));
    cases.check(outlet.failures() == 0);
    let waiting = outlet.into_inner();
    cases.check(waiting.buffer() == [5, 6].as_slice());
    cases.end()
}

#[test]
fn fault_texts(rt: HostRuntime) -> Result<(), Fail> {
    let mut cases = Cases::new();
    cases.check_text(rt.alloc(), ReadFault, "read failed")?;
    cases.check_text(rt.alloc(), WriteFault, "write failed")?;
    cases.check_text(rt.alloc(), BitFault::Read, "read failed")?;
    cases.check_text(rt.alloc(), BitFault::TooLong, "input is too long")?;
    cases.end()
}
