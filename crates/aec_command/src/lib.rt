//! The command line of `aec`: its options, and the meaning of its words. [`matches_of`] parses the words. [`plan_of`] makes a [`Plan`] of
//! the matches; for a test, [`test_plan_of`] makes a [`TestPlan`].
#![tactic(auto)]

pub mod command_line;
pub mod entries;
pub mod matches;
pub mod plan;
pub mod test_plan;

pub use command_line::command;
pub use entries::{is_test, is_verbose, plan_of, test_plan_of};
pub use matches::matches_of;
pub use plan::{Plan, PlanFault};
pub use test_plan::{TestFault, TestPlan};
