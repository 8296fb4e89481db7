//! The preprocessor: from samples to residuals and back.

pub mod preprocessor;
