//! Reads the bits of an intake's bytes, as words and fundamental sequences.

mod ahead;
pub mod bits_ahead;
pub mod fault;
pub mod reader;
pub(crate) mod window;
