//! Blocks of residuals. Only calls that count their steps read them.

pub mod block;
mod pair_codeword_lengths;
pub mod segment;
pub(crate) mod tests_and_sums;
