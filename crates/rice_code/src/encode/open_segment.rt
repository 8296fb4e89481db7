//! The segment that a coder fills.
ghost use Rattle.std.specs.Prelude.{◌≡◌, ◌+◌, ◌-◌, ◌*◌, ◌<◌, ◌≤◌, ◌↔◌, ◌++◌, length, replicate, if◌then◌else◌, ◌==◌, ◌&&◌, Some, false, pos, IsTrue};
ghost use Rattle.rice_bits.specs.{Bits.bits_to_byte, Limits.step_limit};
ghost use Rattle.rice_samples.specs.{Limits.longest_interval, Limits.longest_segment, Residuals.pattern, Residuals.rank, Parameters.IsLegal, Parameters.IsSample, Places.blocks_left};
ghost use Rattle.rice_code.specs.encode.OpenSegment.{IsOpen, IsWhole, HasRoomForSegment, state_between, state_after, state_with_fill, state_after_segment, HoldsSoundBlocks, CodesHeld};
ghost use Rattle.rice_code.specs.{encode.OpenSegment.is_first, CoderSteps.coding_steps, code.Blocks.fill_count};

use crate::encode::SegmentSink;
use crate::encode::blocks::code_blocks;
use rice_bits::Meter;
use rice_samples::{Segment, Setting, pattern, residual};
use std::marker::Model;

/// The residuals of a segment that is not coded yet, with its reference and its place.
///
/// In contracts its value is all of this except the length of the whole segment.
#[derive(Drop)]
pub struct OpenSegment {
    setting: Setting,
    residuals: Segment,
    /// The reference of its first block.
    reference: Option<u32>,
    /// The sample before the next one.
    previous: i64,
    /// The place in its interval of its first block.
    start: u32,
    /// The number of residuals of the whole segment.
    end: usize,
}

impl Model for OpenSegment {
    ghost use Rattle.rice_code.specs.encode.OpenSegment.{CoderState, IsOpen};

    ghost Value = { CoderState };

    ghost view = { λ c. record { setting = c.setting; residuals = c.residuals; reference = c.reference; previous = c.previous; start = c.start } };

    ghost invariant = { λ c. IsOpen (record { setting = c.setting; residuals = c.residuals; reference = c.reference; previous = c.previous; start = c.start }) c.end };
}

impl OpenSegment {
    /// Returns the first segment, without residuals.
    pub fn new(setting: Setting) -> Self
        ensures { result ≡ state_between setting 0 (pos 0) }
    {
        let _block = setting.block();
        OpenSegment::resume(setting, 0, 0)
    }

    /// Returns the segment that begins at the place `start` of its interval, after the sample `previous`, without residuals.
    pub fn resume(setting: Setting, start: u32, previous: i64) -> Self
        requires { IsOpen (state_between setting start previous) (setting.block *
            blocks_left setting start) }
        ensures { result ≡ state_between setting start previous }
    {
        let end = residuals_from(&setting, start);
        OpenSegment {
            setting,
            residuals: Segment::new(),
            reference: None,
            previous,
            start,
            end,
        }
    }

    /// Returns the place in its interval of its first block.
    pub fn start(&self) -> u32
        ensures { result ≡ self.now.start }
    {
        self.start
    }

    /// Returns the sample before the next one.
    pub fn previous(&self) -> i64
        ensures { result ≡ self.now.previous }
    {
        self.previous
    }

    /// Returns the number of residuals.
    pub fn len(&self) -> usize
        ensures value { result ≡ length self.now.residuals }
        ensures limit { result ≤ longest_interval }
    {
        self.residuals.len()
    }

    /// Returns whether the segment is whole.
    pub fn is_whole(&self) -> bool
        ensures { IsTrue result ↔ IsWhole self.now }
    {
        self.residuals.len() == self.end
    }

    /// Returns whether there are no residuals, and a reference interval begins.
    fn is_first(&self) -> bool
        ensures { result ≡ is_first self.now }
    {
        self.residuals.len() == 0 && self.start == 0
    }

    /// Adds the residual of the sample `x`.
    pub fn hold(&mut self, x: i64)
        requires sample { IsSample self.old.setting x }
        requires room { length self.old.residuals <
            self.old.setting.block * blocks_left self.old.setting self.old.start }
        ensures { self.new ≡ state_after self.old x }
    {
        let first = self.is_first();
        let residual = next_residual(&self.setting, first, self.previous, x);
        note_reference(&self.setting, first, &mut self.reference, x);
        self.residuals.push(residual);
        self.previous = x;
    }

    /// Fills the last block by repeating the last sample, a step for each.
    pub fn fill(&mut self, meter: &mut Meter)
        requires { meter.old + 64 < step_limit }
        ensures value { self.new ≡
            state_with_fill self.old (fill_count self.old.setting (length self.old.residuals)) }
        ensures steps { meter.new ≡ meter.old +
            fill_count self.old.setting (length self.old.residuals) }
    {
        let size = self.setting.block() as usize;
        let count = (size - self.residuals.len() % size) % size;
        let first = self.is_first();
        let residual = next_residual(&self.setting, first, self.previous, self.previous);
        push_copies(&mut self.residuals, residual, count, meter);
    }

    /// Appends the code of its blocks, with the padding of an interval that they end. Returns the number of appended bits, without padding.
    pub fn code(&self, sink: &mut SegmentSink, meter: &mut Meter) -> u64
        requires blocks { HoldsSoundBlocks self.now }
        requires room { HasRoomForSegment self.now.setting sink.old }
        requires meter { meter.old + coding_steps self.now.setting < step_limit }
        ensures { CodesHeld self.now sink.old sink.new result meter.old meter.new }
    {
        let setting = &self.setting;
        let blocks = self.residuals.len() / setting.block() as usize;
        let before = sink.len();
        code_blocks(
            setting,
            self.start,
            self.reference,
            blocks,
            &self.residuals,
            sink,
            meter,
        );
        let bits = sink.len() - before;
        pad_interval(setting, self.start as usize + blocks, sink);
        bits
    }

    /// Begins the next segment.
    pub fn begin_next(&mut self)
        requires { IsWhole self.old }
        ensures { self.new ≡ state_after_segment self.old }
    {
        let start = next_start(&self.setting, self.start);
        self.residuals.clear();
        self.reference = None;
        self.end = residuals_from(&self.setting, start);
        self.start = start;
    }

    /// Begins the first segment again, without residuals.
    pub fn begin_first(&mut self)
        ensures { self.new ≡ state_between self.old.setting 0 (pos 0) }
    {
        self.residuals.clear();
        self.reference = None;
        self.previous = 0;
        self.start = 0;
        self.end = residuals_from(&self.setting, 0);
    }
}

/// Returns the number of residuals of a segment from its block at place `start` of the interval on.
pub fn residuals_from(setting: &Setting, start: u32) -> usize
    ensures value { result ≡ setting.now.block * blocks_left setting.now start }
    ensures limit { result ≤ longest_interval }
    ensures legal { IsLegal setting.now }
{
    (setting.block() * setting.blocks_left(start as u64)) as usize
}

/// Returns the place of the first block after the segment that has a block at place `start`.
pub fn next_start(setting: &Setting, start: u32) -> u32
    requires { start ≤ longest_interval }
    ensures { result ≡ (if start +
        blocks_left setting.now start == setting.now.interval then 0 else start +
        blocks_left setting.now start) }
{
    let next = start + setting.blocks_left(start as u64);
    if next == setting.interval() { 0 } else { next }
}

/// Returns the residual of `x` after `previous`: 0 for the first sample of an interval.
pub fn next_residual(setting: &Setting, first: bool, previous: i64, x: i64) -> u32
    requires before { IsSample setting.now previous }
    requires sample { IsSample setting.now x }
    ensures { result ≡ (if setting.now.preprocess
        then (if first then 0 else rank setting.now previous x)
        else pattern setting.now x) }
{
    if !setting.preprocess() {
        return pattern(setting, x);
    }
    if first {
        0
    } else {
        residual(setting, previous, x)
    }
}

/// Notes the sample `x` as the segment's reference, if it is the first of an interval.
pub fn note_reference(setting: &Setting, first: bool, reference: &mut Option<u32>, x: i64)
    requires { IsSample setting.now x }
    ensures { reference.new ≡ (if setting.now.preprocess && first
        then Some (pattern setting.now x)
        else reference.old) }
{
    if setting.preprocess() && first {
        *reference = Some(pattern(setting, x));
    }
}

/// Fills the last byte with zeros if an interval ends after `blocks` blocks, and intervals are padded.
pub fn pad_interval(setting: &Setting, blocks: usize, sink: &mut SegmentSink)
    ensures { sink.new ≡ sink.old ++ replicate
        (if setting.now.pad && blocks == setting.now.interval
        then bits_to_byte (length sink.old) else 0)
        false }
{
    if setting.pads() && blocks == setting.interval() as usize {
        sink.pad();
    }
}

/// Adds `count` copies of a residual, a step for each.
fn push_copies(segment: &mut Segment, residual: u32, count: usize, meter: &mut Meter)
    requires room { length segment.old + count ≤ longest_segment }
    requires meter { meter.old + count < step_limit }
    ensures items { segment.new ≡ segment.old ++ replicate count residual }
    ensures steps { meter.new ≡ meter.old + count }
{
    meter.tick(count as u64);
    for i in 0..count {
        let _i = i;
        segment.push(residual);
    }
}
