//! A buffer of bits that puts several fields into a sink at once.
ghost use Rattle.std.specs.Prelude.{◌≡◌, ◌+◌, ◌%◌, ◌^◌, ◌<◌, ◌≤◌, ◌++◌, [], flat_map, length};
ghost use Rattle.rice_bits.specs.Bits.{word, fundamental_sequence, put_width, IsWholeWidth};
ghost use Rattle.rice_code.specs.encode.BitBuffer.{HasRoomFor, HasRoomForBits, AddsBits, AddsFields};

use rice_bits::{Meter, join};
use rice_code::SegmentSink;
use std::marker::Model;

/// Holds at most 56 bits before it puts them into a sink.
///
/// In contracts its value is the list of these bits. Its calls are inlined, so that the bits stay in registers during a coded data set.
#[derive(Drop)]
pub struct BitBuffer {
    value: u64,
    width: u32,
}

impl Model for BitBuffer {
    ghost use Rattle.std.specs.Prelude.{Bool, List};
    ghost use Rattle.rice_bits.specs.Bits.{word};
    ghost use Rattle.rice_code.specs.encode.BitBuffer.{IsShort};

    ghost Value = { List Bool };

    ghost view = { λ g. word g.width g.value };

    ghost invariant = { λ g. IsShort g.width g.value };
}

impl BitBuffer {
    /// Returns a buffer with no bits.
    #[inline(always)]
    pub fn new() -> Self
        ensures bits { result ≡ [] }
        ensures len { length result ≡ 0 }
    {
        BitBuffer { value: 0, width: 0 }
    }

    /// Returns a buffer of the `width` binary digits of `value`.
    #[inline(always)]
    pub fn of_digits(value: u64, width: u32) -> Self
        requires width { width ≤ put_width }
        requires value { value < 2 ^ width }
        ensures bits { result ≡ word width value }
        ensures len { length result ≡ width }
    {
        BitBuffer { value, width }
    }

    /// Adds the `width` binary digits of `value`. It first puts the bits before them if both do not fit.
    #[inline(always)]
    pub fn add(&mut self, value: u64, width: u32, sink: &mut SegmentSink, meter: &mut Meter)
        requires width { width ≤ put_width }
        requires value { value < 2 ^ width }
        requires room { HasRoomFor 0 0 (length sink.old + length self.old) (meter.old +
            length self.old) }
        ensures { AddsFields (word width value) width width
            sink.old self.old sink.new self.new meter.old meter.new }
    {
        self.make_room(width, sink, meter);
        self.value = join(self.value, width, value);
        self.width += width;
    }

    /// Puts the bits where `width` more do not fit beside them.
    #[inline(always)]
    fn make_room(&mut self, width: u32, sink: &mut SegmentSink, meter: &mut Meter)
        requires width { width ≤ put_width }
        requires room { HasRoomFor 0 0 (length sink.old + length self.old) (meter.old +
            length self.old) }
        ensures fits { length self.new + width ≤ put_width }
        ensures bits { sink.new ++ self.new ≡ sink.old ++ self.old }
        ensures len { length sink.new + length self.new ≡ length sink.old + length self.old }
        ensures steps { meter.new + length self.new ≡ meter.old + length self.old }
    {
        if self.width + width > 56 {
            self.put(sink, meter);
        }
    }

    /// Puts the bits if this `is_wanted`.
    #[inline(always)]
    pub fn put_if(&mut self, is_wanted: bool, sink: &mut SegmentSink, meter: &mut Meter)
        requires { HasRoomFor 0 0 (length sink.old + length self.old) (meter.old +
            length self.old) }
        ensures bits { sink.new ++ self.new ≡ sink.old ++ self.old }
        ensures len { length sink.new + length self.new ≡ length sink.old + length self.old }
        ensures steps { meter.new + length self.new ≡ meter.old + length self.old }
    {
        if is_wanted {
            self.put(sink, meter);
        }
    }

    /// Adds the fundamental sequence of `m`.
    #[inline(always)]
    pub fn add_fs(&mut self, m: u32, sink: &mut SegmentSink, meter: &mut Meter)
        requires { HasRoomFor (m + 1) (m + 1) (length sink.old + length self.old) (meter.old +
            length self.old) }
        ensures { AddsFields (fundamental_sequence m) (m + 1) (m + 1)
            sink.old self.old sink.new self.new meter.old meter.new }
    {
        if m < 56 {
            self.add(1, m + 1, sink, meter);
            return;
        }
        self.put(sink, meter);
        sink.put_fs(m as u64, meter);
    }

    /// Puts the bits, and then the `width` lowest digits of each of the words, which come in eights.
    #[inline(always)]
    pub fn put_then_whole_words(
        &self,
        words: &[u32],
        width: u32,
        sink: &mut SegmentSink,
        meter: &mut Meter,
    )
        requires bits { (1 ≤ length self.now) × (length self.now ≤ 48) }
        requires width { IsWholeWidth width }
        requires eights { (8 ≤ length words.now) × (length words.now % 8 ≡ 0) }
        requires room { HasRoomForBits (flat_map (word width) words.now)
            (length sink.old + length self.now) (meter.old + length self.now) }
        ensures { AddsBits (flat_map (word width) words.now)
            sink.old self.now sink.new [] meter.old meter.new }
    {
        sink.put_number_and_whole_words(self.value, self.width, words, width, meter);
    }

    /// Puts the bits into the sink, and empties the buffer.
    #[inline(always)]
    pub fn put(&mut self, sink: &mut SegmentSink, meter: &mut Meter)
        requires { HasRoomFor 0 0 (length sink.old + length self.old) (meter.old +
            length self.old) }
        ensures empty { self.new ≡ [] }
        ensures bits { sink.new ≡ sink.old ++ self.old }
        ensures len { length sink.new ≡ length sink.old + length self.old }
        ensures steps { meter.new ≡ meter.old + length self.old }
    {
        sink.put_up_to_56_digits(self.value, self.width, meter);
        self.value = 0;
        self.width = 0;
    }
}
