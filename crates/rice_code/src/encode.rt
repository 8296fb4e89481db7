//! The coder: from samples to bits. It fills a segment, and codes each block of a whole segment by the option that its search chose. An
//! option is a sequence of fields, put into the sink one after another.

use rice_bits::BitSink;

pub mod blocks;
pub mod choice;
pub mod coder;
mod cost;
mod fields;
pub mod held_block;
pub mod open_segment;
pub mod options;

/// A sink with room for the code of a segment, at most 64 blocks of 2,053 bits, and eight bytes more for the bits already in it.
pub type SegmentSink = BitSink<16432>;
