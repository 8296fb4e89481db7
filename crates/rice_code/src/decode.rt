//! The decoder: from bits to samples. It reads the identifier of a coded data set, and then the fields of its option. It checks the
//! residuals, and restores the samples of a block from them.

pub mod call_results;
mod coded_data_set;
pub mod decoder;
mod high_and_low_parts;
pub mod options;
pub mod pairs;
mod restoring;
pub mod rows_of_fields;
pub mod sound_residuals;
