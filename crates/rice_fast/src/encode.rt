//! The coder of the bytes of samples. It does what the plain coder does, by the same contracts. It looks at several residuals at once, gathers
//! fields before it puts them, and counts the looks of the plain search.

mod bit_buffer;
mod blocks;
pub(crate) mod byte_rows;
mod choice;
pub mod coder;
mod cost;
mod high_parts;
mod low_parts;
mod options;
mod pairs;
mod repeats;
mod residuals_of_bytes;
mod sequences_by_products;
mod stops;
mod sums;
