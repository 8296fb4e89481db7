//! The finding of a test of a code.

use std::fmt;
use std::fmt::{Display, Formatter};

/// What a test of a code without faults found: its samples and its bits. `more` says whether a 1 follows the requested samples, if the test
/// looked for one.
#[derive(Clone, Copy, Debug, PartialEq, Eq)]
pub struct Finding {
    pub samples: u64,
    pub bits: u64,
    pub more: Option<bool>,
}

impl Display for Finding {
    fn fmt<W: fmt::Write>(&self, f: &mut Formatter<W>) -> fmt::Result {
        let rest = match self.more {
            None => "",
            Some(false) => "; no 1 is left",
            Some(true) => "; a 1 is left",
        };
        write!(f, "{} samples, {} bits{rest}", self.samples, self.bits)
    }
}
