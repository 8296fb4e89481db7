//! Each call of the plain coder and decoder, by the types and under the conditions that users rely on. This file is proved, so no call
//! requires more.
ghost use Rattle.std.specs.Prelude.{◌≡◌, ◌+◌, ◌-◌, ◌*◌, ◌^◌, ◌<◌, ◌≤◌, length, None};
ghost use Rattle.rice_samples.specs.Parameters.{IsBlockSize, IsSample, value_count, width as width_of};
ghost use Rattle.rice_code.specs.CoderSteps.{segment_steps};

use arrayvec::ArrayVec;
use rice_bits::{
    BitFault, BitReader, BitSink, FromReader, FromWriter, Intake, MemoryIn, MemoryOut, Meter,
    Outlet,
};
use rice_code::{CodeFault, Coder, Decoder, Step, bit_bound, step_bound};
use rice_samples::{
    Block, Segment, Setting, SettingFault, bytes_of, from_pattern, pattern, residual, restore,
    sample_of,
};
use std::io::{Read, Write};

pub fn meter(n: u64) -> u64
    requires { n < 2 ^ 62 }
{
    let mut meter: Meter = Meter::new();
    meter.tick(n);
    meter.steps()
}

pub fn intake<I: Intake>(intake: &mut I, buf: &mut [u8]) -> (bool, u64)
    requires some { 0 < length buf.old }
    requires failures { I.failed intake.old + 1 < 2 ^ 64 }
{
    let gave: Result<usize, rice_bits::ReadFault> = intake.fill(buf);
    (gave.is_ok(), intake.failures())
}

pub fn outlet<O: Outlet>(outlet: &mut O, bytes: &[u8]) -> (bool, u64)
    requires some { 0 < length bytes.now }
    requires failures { O.failed outlet.old + 1 < 2 ^ 64 }
{
    let took: Result<usize, rice_bits::WriteFault> = outlet.put(bytes);
    (took.is_ok(), outlet.failures())
}

pub fn memory_in(bytes: &[u8], piece: usize, fail_at: Option<usize>) -> MemoryIn<'_>
    requires { 1 ≤ piece }
{
    MemoryIn::new(bytes, piece, fail_at)
}

pub fn memory_out(room: &mut [u8], piece: usize, fail_at: Option<usize>) -> usize
    requires { 1 ≤ piece }
{
    let outlet: MemoryOut<'_> = MemoryOut::new(room, piece, fail_at);
    outlet.written().len()
}

pub fn from_reader<R: Read>(reader: R) -> FromReader<R> {
    FromReader::new(reader)
}

pub fn from_writer<W: Write>(writer: W) -> FromWriter<W> {
    FromWriter::new(writer)
}

pub fn sink(value: u32, width: u32, m: u64, meter: &mut Meter) -> (u64, u64, usize)
    requires width { width ≤ 32 }
    requires value { value < 2 ^ width }
    requires room { width + m + 1 ≤ 131456 }
    requires meter { meter.old + width + m + 1 < 2 ^ 62 }
{
    let mut sink: BitSink<16432> = BitSink::new();
    sink.put(value, width, meter);
    sink.put_fs(m, meter);
    sink.pad();
    let whole: usize = sink.whole().len();
    sink.drop_whole();
    (sink.len(), sink.room(), whole)
}

pub fn reader<I: Intake>(intake: I) -> (BitReader<I>, u64)
    requires { I.failed intake + 1 < 2 ^ 64 }
{
    let mut reader: BitReader<I> = BitReader::new(intake);
    reader.mark();
    let taken: u64 = reader.taken();
    (reader, taken)
}

pub fn take<I: Intake>(
    reader: &mut BitReader<I>,
    width: u32,
    meter: &mut Meter,
) -> Result<u32, BitFault>
    requires width { width ≤ 32 }
    requires meter { meter.old + width < 2 ^ 62 }
{
    reader.take(width, meter)
}

pub fn take_fs<I: Intake>(reader: &mut BitReader<I>, meter: &mut Meter) -> Result<u64, BitFault>
    requires { meter.old + (2 ^ 52 - reader.old.taken) < 2 ^ 62 }
{
    reader.take_fs(meter)
}

pub fn align<I: Intake>(reader: &mut BitReader<I>, meter: &mut Meter)
    requires { meter.old + 7 < 2 ^ 62 }
{
    reader.align(meter);
}

pub fn into_inner<I: Intake>(reader: BitReader<I>) -> I {
    reader.into_inner()
}

pub fn is_end(fault: BitFault) -> bool {
    match fault {
        BitFault::End { blank } => blank,
        BitFault::Read | BitFault::TooLong => false,
    }
}

pub fn setting(
    bits: u32,
    block: u32,
    interval: u32,
    flags: [bool; 5],
) -> Result<Setting, SettingFault> {
    let [signed, msb, three, preprocess, pad] = flags;
    Setting::new(bits, block, interval, signed, msb, three, preprocess, pad)
}

pub fn getters(setting: Setting, b: u64, x: i64) -> ([u32; 8], [bool; 3]) {
    let numbers: [u32; 8] = [
        setting.bits(),
        setting.block(),
        setting.interval(),
        setting.id_len(),
        setting.k_max(),
        setting.width(),
        setting.segment_blocks(b),
        setting.blocks_left(b),
    ];
    (
        numbers,
        [setting.is_reference(b), setting.in_range(x), setting.pads()],
    )
}

pub fn spelled(setting: &Setting, bytes: &[u8]) -> Option<i64>
    requires { length bytes.now ≡ width_of setting.now }
{
    sample_of(setting, bytes)
}

pub fn spelling(setting: &Setting, x: i64) -> ArrayVec<u8, 4>
    requires { IsSample setting.now x }
{
    bytes_of(setting, x)
}

pub fn forth(setting: &Setting, p: i64, x: i64) -> (u32, u32)
    requires before { IsSample setting.now p }
    requires sample { IsSample setting.now x }
{
    (residual(setting, p, x), pattern(setting, x))
}

pub fn back(setting: &Setting, p: i64, d: u32) -> (i64, i64)
    requires before { IsSample setting.now p }
    requires residual { d < value_count setting.now }
{
    (restore(setting, p, d), from_pattern(setting, d))
}

pub fn segment(d: u32) -> usize {
    let mut segment: Segment = Segment::new();
    segment.push(d);
    segment.clear();
    segment.len()
}

pub fn block(segment: &Segment, i: usize, size: usize) -> Block<'_>
    requires size { IsBlockSize size }
    requires inside { i * size + size ≤ length segment.now }
{
    segment.block(i, size)
}

pub fn looks(block: &Block<'_>, i: usize, k: u32, meter: &mut Meter) -> (bool, u64, u128, u32)
    requires inside { i < length block.now }
    requires split { k ≤ 29 }
    requires meter { meter.old + 4 * 64 < 2 ^ 62 }
{
    let _len: usize = block.len();
    (
        block.is_zero(meter),
        block.sum_shifted(k, meter),
        block.pair_sum(meter),
        block.at(i, meter),
    )
}

pub fn coder(setting: Setting) -> (Coder, u32) {
    let coder: Coder = Coder::new(setting);
    let pending: u32 = coder.pending();
    (coder, pending)
}

pub fn push(coder: &mut Coder, x: i64, sink: &mut BitSink<16432>, meter: &mut Meter)
    requires sample { IsSample coder.old.setting x }
    requires room { length sink.old ≤ 7 }
    requires meter { meter.old + segment_steps coder.old.setting < 2 ^ 62 }
{
    let done: () = coder.push(x, sink, meter);
    done
}

pub fn finish(coder: Coder, sink: &mut BitSink<16432>, meter: &mut Meter)
    requires room { length sink.old ≤ 7 }
    requires meter { meter.old + segment_steps coder.setting < 2 ^ 62 }
{
    let done: () = coder.finish(sink, meter);
    done
}

pub fn next_block<I: Intake>(
    decoder: &mut Decoder,
    reader: &mut BitReader<I>,
    meter: &mut Meter,
    samples: &mut ArrayVec<i64, 64>,
) -> Result<Step, CodeFault>
    requires going { decoder.old.stopped ≡ None → reader.old.refusal ≡ None }
    requires meter { meter.old + 2 * (2 ^ 52 - reader.old.taken) + 64 < 2 ^ 62 }
{
    decoder.next_block(reader, meter, samples)
}

pub fn decoder(setting: Setting) -> (Decoder, u64) {
    let decoder: Decoder = Decoder::new(setting);
    let waiting: u64 = decoder.waiting();
    (decoder, waiting)
}

pub fn number_of(answer: Result<Step, CodeFault>) -> u32 {
    match answer {
        Ok(Step::Block) => 0,
        Ok(Step::Done) => 1,
        Err(CodeFault::CodeEnds) => 2,
        Err(CodeFault::RunPastSegment) => 3,
        Err(CodeFault::ResidualTooLarge) => 4,
        Err(CodeFault::Read) => 5,
        Err(CodeFault::TooLong) => 6,
    }
}

pub fn bounds(setting: &Setting, samples: u64) -> (u64, u64)
    requires { samples ≤ 2 ^ 48 }
{
    (bit_bound(setting, samples), step_bound(setting, samples))
}
