//! The fast decoder and the fast coder of CCSDS 121.0-B-3, in the lanes of vectors. The decoder turns a block in one pass from its buffered
//! bits into the bytes of its samples. The coder takes the bytes of samples, and codes each block as soon as it is whole. What they do not take
//! is left to the plain core: blocks that the pass leaves, and the code of blocks of fewer than eight samples.
#![tactic(auto)]

mod ahead;
mod copied_blocks;
pub mod encode;
pub mod fields;
mod high_parts;
pub mod lanes;
pub mod one_pass;
mod pairs;
mod rows;
pub mod vectors;

pub use encode::coder::{BlockCoder, Pushed};
pub use one_pass::pass;
