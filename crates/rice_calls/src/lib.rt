//! The calls that `include/rice.h` declares, by any engines, over the caller's memory.
//!
//! Nothing here allocates. Only a caller's feed or drain keeps state between calls.
#![tactic(auto)]

pub mod coding;
pub mod feeding;
pub mod laws;
pub mod pulling;
pub mod report;
pub mod setting;
pub mod spelling;
pub mod status;
pub mod version;

pub use coding::{decode, decode_all, encode};
pub use feeding::{RiceFeed, begin, finish, push, push_room};
pub use pulling::{RiceDrain, open_at, open_at_front, pull};
pub use report::RiceReport;
pub use setting::{RiceSetting, check, code_room, sample_width, set_room, step_bound};
pub use spelling::spell;
pub use version::version_number;

// The structs of the header, in bytes.
const _: () = prove!(size_of::<setting::RiceSetting>() == 20);

const _: () = prove!(size_of::<report::RiceReport>() == 40);

const _: () = prove!(size_of::<feeding::RiceFeed>() == 72);

const _: () = prove!(size_of::<pulling::RiceDrain>() == 64);
