//! The plan that the command line of a test requests.

use rice_samples::{Setting, SettingFault};
use thiserror::Error;

/// What the command line of a test requests: the setting, the greatest number of samples, and the name of the code.
#[derive(Clone, Copy, Debug)]
pub struct TestPlan<'a> {
    pub setting: Setting,
    pub samples: Option<u64>,
    pub source: &'a str,
}

/// The name of the option that requests a test.
const TEST: &str = "test";

/// Why a parsed command line of a test is refused.
#[derive(Clone, Copy, Debug, PartialEq, Eq, Error)]
pub enum TestFault {
    #[error("--{option} takes no DEST", option = TEST)]
    WithDest,
    #[error("option value cannot be read")]
    Unreadable,
    #[error(transparent)]
    Setting(SettingFault),
}
