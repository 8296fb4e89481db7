//! Samples in bytes: the unique bytes of each, and writing several at once.

pub mod spelling;
pub mod unused_bits;
pub mod writing;
