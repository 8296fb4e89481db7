//! From residuals to levels of samples: `near` and `parts` restore several near samples at once, `turns` restores one after another, near or
//! far.

pub mod near;
pub mod parts;
pub mod turns;
