//! Tests of bits, devices and samples, and worked examples of the definitions of samples. Also the means of the tests of all libraries:
//! tables of cases, and counted cases.
//!
//! They are a crate of their own, since a crate with tests is proved twice: with them and without. Tests of the crates above `rice_samples`
//! are another, `rice_tests`, so that these need not wait for the proofs of those crates.
#![tactic(auto)]

#[cfg(test)]
mod bits;
pub mod case_table;
pub mod cases;
pub mod examples;
#[cfg(test)]
mod samples;
