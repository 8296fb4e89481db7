//! Levels, residuals and samples, several at a time, in the lanes of vectors.

pub mod lanes;
pub mod level_lanes;
mod rank_lanes;
pub mod restoring;
pub mod spelling_lanes;

pub use lanes::Lanes;
pub use lanes::bytes::Bytes;
pub use lanes::halves::Halves;
pub use lanes::words::Words;
pub use level_lanes::{LevelLanes, patterns_of_levels};
pub use rank_lanes::ranks;
pub use restoring::near::{near_ways, running_sums};
pub use restoring::parts::{join_parts, near_levels_of_parts};
pub use restoring::turns::{half_ranks, last_eight_are_zeros, tops, write_selected};
pub use spelling_lanes::{byte_fours, byte_pairs, bytes_of_patterns, spelled_in_three_bytes};
