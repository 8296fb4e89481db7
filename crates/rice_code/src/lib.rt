//! The code of CCSDS 121.0-B-3: its definitions in `specs/`, theorems on them, the coder, and the decoder.
#![tactic(auto)]

pub mod bounds;
pub mod decode;
pub mod encode;
mod known_len;
pub mod laws;

pub use bounds::{added_bound, bit_bound, padded_bound, set_bound, step_bound};
pub use decode::call_results::{CodeFault, Step};
pub use decode::decoder::Decoder;
pub use encode::SegmentSink;
pub use encode::coder::Coder;
pub use known_len::known_or;

// What these hold, in bytes, on a machine with pointers of eight.
const _: () = prove!(size_of::<SegmentSink>() == 16440);

const _: () = prove!(size_of::<Coder>() == 16456);

const _: () = prove!(size_of::<Decoder>() == 56);
