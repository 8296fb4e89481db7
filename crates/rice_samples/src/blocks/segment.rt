//! The residuals of a segment.
ghost use Rattle.std.specs.Prelude.{◌≡◌, ◌+◌, ◌*◌, ◌<◌, ◌≤◌, [], ◌∷◌, ◌++◌, length, slice_range};
ghost use Rattle.rice_samples.specs.{Limits.longest_segment, Parameters.IsBlockSize};

use crate::Block;
use arrayvec::ArrayVec;
use std::marker::Model;

/// The residuals of a segment, at most 4,096: 64 blocks of 64. Contracts see their list. Only blocks give access to them.
#[derive(Drop)]
pub struct Segment {
    residuals: ArrayVec<u32, 4096>,
}

impl Model for Segment {
    ghost use Rattle.std.specs.Prelude.{ℕ, ◌≤◌, List, length};
    ghost use Rattle.rice_samples.specs.Limits.{longest_segment};

    ghost Value = { List ℕ };

    ghost view = { λ s. s.residuals.items };

    ghost invariant = { λ s. length s.residuals.items ≤ longest_segment };
}

impl Segment {
    /// Returns a segment without residuals.
    pub fn new() -> Self
        ensures { result ≡ [] }
    {
        Segment {
            residuals: ArrayVec::new(),
        }
    }

    /// Returns the number of residuals.
    pub fn len(&self) -> usize
        ensures value { result ≡ length self.now }
        ensures limit { result ≤ longest_segment }
    {
        self.residuals.len()
    }

    /// Adds a residual at the end.
    pub fn push(&mut self, residual: u32)
        requires { length self.old < longest_segment }
        ensures value { self.new ≡ self.old ++ residual ∷ [] }
        ensures len { length self.new ≡ length self.old + 1 }
    {
        self.residuals.push(residual);
    }

    /// Removes all residuals.
    pub fn clear(&mut self)
        ensures { self.new ≡ [] }
    {
        self.residuals.clear();
    }

    /// Returns block `i`: the `size` residuals from number `i * size` on. `size` is an even number from 2 to 64.
    pub fn block(&self, i: usize, size: usize) -> Block<'_>
        requires size { IsBlockSize size }
        requires inside { i * size + size ≤ length self.now }
        ensures value { result ≡ slice_range self.now (i * size) (i * size + size) }
        ensures len { length result ≡ size }
    {
        let residuals = self.residuals.as_slice();
        let start = i * size;
        Block::of(&residuals[start..start + size])
    }
}
