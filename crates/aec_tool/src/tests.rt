//! Worked examples: from words to their plan, `run` over memory, `start` over a runtime in memory, and `start_on` over a system that
//! reports its contents.
mod columns;
mod commands;
mod plans;
mod reporting_commands;
mod reporting_system;
mod runtime_in_memory;
mod words;
