//! Codes from bytes to bytes: [`encode`] reads samples from an intake and writes their code; [`decode`] reads a code and writes its
//! samples. Each returns an [`Outcome`]: what it did and, if it stopped before the end, why.
#![tactic(auto)]

pub mod block_bytes;
pub mod block_pass;
pub mod decoding;
pub mod encoding;
pub mod engines;
pub mod feeding;
mod input;
pub mod laws;
pub mod outcome;
mod pulled_runs;
pub mod pulling;
mod runs;
pub mod seam;
pub mod stand;
pub mod takes;
mod write;

pub use decoding::decode;
pub use encoding::encode;
pub use engines::{Engines, Fast, Plain};
pub use feeding::{encode_more, encode_rest};
pub use input::MOST_INPUT;
pub use outcome::{Fault, Outcome, Report};
pub use pulling::decode_more;
pub use seam::Seam;
pub use stand::{Pause, Stand};
