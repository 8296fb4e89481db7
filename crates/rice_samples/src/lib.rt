//! Samples: settings, the bytes of samples, the preprocessor, and blocks of residuals.
#![tactic(auto)]

pub mod blocks;
pub mod bytes;
pub mod laws;
mod patterns;
pub mod predict;
pub mod setting;

pub use blocks::block::Block;
pub use blocks::segment::Segment;
pub use bytes::spelling::{bytes_of, sample_of};
pub use bytes::unused_bits::set_unused_bits;
pub use bytes::writing::write_spellings;
pub use predict::preprocessor::{from_pattern, level_of_pattern, pattern, residual, restore};
pub use setting::{Setting, SettingFault};

// What it holds, in bytes, on a machine with pointers of eight.
const _: () = prove!(size_of::<Segment>() == 16392);
