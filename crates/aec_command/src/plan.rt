//! The plan that a command line requests.

use rice_samples::{Setting, SettingFault};
use thiserror::Error;

/// What a command line requests: the setting, the direction, the greatest number of samples, and the names.
#[derive(Clone, Copy, Debug)]
pub struct Plan<'a> {
    pub setting: Setting,
    pub decode: bool,
    pub samples: Option<u64>,
    pub source: &'a str,
    pub dest: &'a str,
}

/// Why a parsed command line is refused.
#[derive(Clone, Copy, Debug, PartialEq, Eq, Error)]
pub enum PlanFault {
    #[error("--samples needs -d")]
    SamplesWithoutDecode,
    #[error("option value cannot be read")]
    Unreadable,
    #[error(transparent)]
    Setting(SettingFault),
}
