//! Writes bits: joins digits of numbers, and gathers them into the bytes of a sink.

pub(crate) mod digits;
pub(crate) mod eight_bytes;
mod put_words;
pub mod sink;
mod whole_words;
