//! Tests of the coder, of the decoder, and of the calls from bytes to bytes, over their public calls. They try worked bytes, bits and
//! steps, pieces of several sizes, devices that fail, and arbitrary bytes. The check computes worked examples of the definitions of the code.
//!
//! The parser of tables of cases is in `rice_base_tests`, with the tests of the lower crates.
#![tactic(auto)]

#[cfg(test)]
mod calls;
#[cfg(test)]
mod calls_by_types;
#[cfg(test)]
mod coder;
#[cfg(test)]
mod decoder;
#[cfg(test)]
mod decoding;
pub mod decoding_examples;
#[cfg(test)]
mod encoding;
pub mod examples;
#[cfg(test)]
mod pulling;
