//! An outlet that keeps nothing.
ghost use Rattle.std.specs.Prelude.{None};

use rice_bits::{Outlet, WriteFault};

/// An outlet that takes all bytes and keeps none.
#[derive(Drop)]
pub struct Nowhere;

impl Outlet for Nowhere {
    ghost taken = { λ _. None };

    ghost failed = { λ _. 0 };

    fn put(&mut self, bytes: &[u8]) -> Result<usize, WriteFault> {
        Ok(bytes.len())
    }

    fn failures(&self) -> u64 {
        0
    }
}
