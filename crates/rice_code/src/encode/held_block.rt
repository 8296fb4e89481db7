//! A block to code.
ghost use Rattle.std.specs.Prelude.{◌≡◌};
ghost use Rattle.rice_code.specs.code.SoundBlocks.{block_with};

use rice_samples::Block;
use std::marker::Model;

/// A block to code: its reference sample, if it has one, and its residuals.
///
/// In contracts its value is the data of the block.
#[derive(Drop)]
pub struct HeldBlock<'a> {
    reference: Option<u32>,
    residuals: Block<'a>,
}

impl<'a> Model for HeldBlock<'a> {
    ghost use Rattle.rice_code.specs.{code.Blocks.BlockData, code.SoundBlocks.block_with};

    ghost Value = { BlockData };

    ghost view = { λ b. block_with b.reference b.residuals };
}

impl<'a> HeldBlock<'a> {
    /// Returns the block of the reference sample, if there is one, and the residuals.
    #[inline(always)]
    pub fn new(reference: Option<u32>, residuals: Block<'a>) -> Self
        ensures { result ≡ block_with reference residuals.entry }
    {
        HeldBlock {
            reference,
            residuals,
        }
    }

    /// Returns the reference sample, as a word, if the block has one.
    #[inline(always)]
    pub fn reference(&self) -> Option<u32>
        ensures { result ≡ self.now.reference }
    {
        self.reference
    }

    /// Returns the residuals, with 0 at the reference place.
    #[inline(always)]
    pub fn residuals(&self) -> &Block<'a>
        ensures { result.now ≡ self.now.residuals }
    {
        &self.residuals
    }
}
