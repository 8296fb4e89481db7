//! Worked examples of decoding: bytes, the samples that they decode to, the ending, and the number of bits used.
ghost use Rattle.std.specs.Prelude.{[], ◌∷◌, ◌++◌, replicate, pos, true, None, Some};
ghost use Rattle.rice_bits.specs.Bits.{bits_of};
ghost use Rattle.rice_base_tests.specs.Examples.{defaults, unprocessed_defaults, one_bit_defaults};
ghost use Rattle.rice_tests.specs.Examples.{numbers_from};
ghost use Rattle.rice_code.specs.{code.Decoded.Decoded, code.Decoded.Reached, code.Decoded.Ended, code.Decoded.CutOff, code.Decoded.Past, code.Decoded.Large};

/// No bytes decode to no samples, with a clean end.
pub fn decodes_no_bytes()
    ensures { Decoded defaults (bits_of []) None [] Ended 0 }
{}

/// A run of one block. If eight samples are requested, the zeros after it are not read.
pub fn decodes_a_run()
    ensures all { Decoded defaults (bits_of (0x00 ∷ 0x58 ∷
        [])) None (replicate 8 (pos 5)) Ended 16 }
    ensures asked { Decoded defaults (bits_of (0x00 ∷ 0x58 ∷
        [])) (Some 8) (replicate 8 (pos 5)) Reached 13 }
    ensures one { Decoded defaults (bits_of (0x00 ∷ 0x58 ∷ [])) (Some 1) (pos 5 ∷ []) Reached 13 }
{}

/// Zeros after the code are a clean end, however many there are.
pub fn decodes_zeros_after_the_code()
    ensures { Decoded defaults (bits_of (0x00 ∷ 0x58 ∷ 0x00 ∷ 0x00 ∷
        [])) None (replicate 8 (pos 5)) Ended 32 }
{}

/// If no sample is requested, nothing is read.
pub fn reads_nothing_if_none_are_asked_for()
    ensures { Decoded defaults (bits_of (0xFF ∷ 0xFF ∷ [])) (Some 0) [] Reached 0 }
{}

/// A greater split than the coder chooses.
pub fn decodes_a_greater_split_than_the_coder_takes()
    ensures { Decoded defaults (bits_of (0x40 ∷ 0x15 ∷ 0x55 ∷ 0x80 ∷
        [])) None (numbers_from 0 8) Ended 32 }
{}

/// A block of one sample without preprocessing, filled with zeros: nine bits fewer than the coder's, which repeats that sample.
pub fn decodes_one_sample_and_zeros_as_fill()
    ensures { Decoded unprocessed_defaults (bits_of (0xC0 ∷ 0x3F ∷ 0xE0 ∷ replicate 5 0x00)) (Some 1) (pos 0xF0 ∷
        []) Reached 58 }
{}

/// The greatest split, of samples that have fewer bits.
pub fn decodes_the_greatest_split()
    ensures { Decoded one_bit_defaults (bits_of (0xCF ∷ 0xE1 ∷ 0x00 ∷ 0x00 ∷ 0x00 ∷ 0x00 ∷
        [])) None (pos 0 ∷ replicate 7 (pos 1)) Ended 48 }
{}

/// Split 1 and the greatest split of samples of 16 bits.
pub fn decodes_splits_of_16_bits()
    ensures second { Decoded (record unprocessed_defaults { bits = 16 }) (bits_of (0x2F ∷ 0xF0 ∷ 0x10 ∷
        [])) None (replicate 7 (pos 0) ++ pos 1 ∷ []) Ended 24 }
    ensures greatest { Decoded (record unprocessed_defaults { bits = 16 }) (bits_of (0xEF ∷ 0xF0 ∷
        replicate 12 0x00 ++ 0x10 ∷ [])) None (replicate 7 (pos 0) ++ pos 1 ∷ []) Ended 120 }
{}

/// Split 1 and the greatest split of samples of 32 bits.
pub fn decodes_splits_of_32_bits()
    ensures second { Decoded (record unprocessed_defaults { bits = 32 }) (bits_of (0x17 ∷ 0xF8 ∷ 0x08 ∷
        [])) None (replicate 7 (pos 0) ++ pos 1 ∷ []) Ended 24 }
    ensures greatest { Decoded (record unprocessed_defaults { bits = 32 }) (bits_of (0xF7 ∷ 0xF8 ∷
        replicate 28 0x00 ++ 0x08 ∷ [])) None (replicate 7 (pos 0) ++ pos 1 ∷ []) Ended 248 }
{}

/// A residual greater than all samples: 2 for samples of one bit, and 16 for samples of four.
pub fn refuses_a_residual_too_large()
    ensures low { Decoded one_bit_defaults (bits_of (0xCF ∷ 0xE2 ∷ 0x00 ∷ 0x00 ∷ 0x00 ∷ 0x00 ∷
        [])) None [] Large 46 }
    ensures high { Decoded (record defaults { bits = 4 }) (bits_of (0x20 ∷ 0x00 ∷ 0x01 ∷ 0xFC ∷
        [])) None [] Large 30 }
{}

/// In second extension, the value at the reference place must be 0.
pub fn refuses_a_value_at_the_reference_place()
    ensures { Decoded defaults (bits_of (0x10 ∷ 0x57 ∷ 0x80 ∷ [])) None [] Large 17 }
{}

/// The remainder of a segment of which only two blocks are left.
pub fn decodes_a_remainder_of_two()
    ensures { Decoded defaults (bits_of (0x00 ∷ 0x00 ∷ 0x80 ∷
        [])) None (replicate 16 (pos 0)) Ended 24 }
{}

/// A numbered run that ends its segment.
pub fn decodes_a_numbered_run_to_the_end()
    ensures { Decoded (record defaults { interval = 5 }) (bits_of (0x00 ∷ 0x00 ∷ 0x40 ∷
        [])) None (replicate 40 (pos 0)) Ended 24 }
{}

/// The longest run, and a codeword of 64 zeros, which is invalid.
pub fn decodes_the_longest_run()
    ensures longest { Decoded (record defaults { interval = 64 }) (bits_of (replicate 9 0x00 ++
        0x10 ∷ [])) None (replicate 504 (pos 0)) Ended 80 }
    ensures longer { Decoded (record defaults { interval = 64 }) (bits_of (replicate 9 0x00 ++
        0x08 ∷ [])) None [] Past 77 }
{}

/// A run of three blocks in a segment of two is refused, even if its first block is enough.
pub fn refuses_a_run_past_its_segment()
    ensures all { Decoded defaults (bits_of (0x00 ∷ 0x02 ∷ [])) None [] Past 15 }
    ensures asked { Decoded defaults (bits_of (0x00 ∷ 0x02 ∷ [])) (Some 8) [] Past 15 }
{}

/// A code that is cut inside a coded data set.
pub fn finds_a_cut_code()
    ensures { Decoded defaults (bits_of (0x20 ∷ 0x09 ∷ [])) None [] CutOff 16 }
{}

/// Two blocks, each with a reference.
pub fn decodes_two_references()
    ensures all { Decoded (record defaults { interval = 1 }) (bits_of (0x00 ∷ 0x58 ∷ 0x02 ∷ 0xC0 ∷
        [])) None (replicate 16 (pos 5)) Ended 32 }
    ensures asked { Decoded (record defaults { interval = 1 }) (bits_of (0x00 ∷ 0x58 ∷ 0x02 ∷ 0xC0 ∷
        [])) (Some 16) (replicate 16 (pos 5)) Reached 26 }
{}

/// 4096 samples from nine bits. If ten are requested, only ten are returned.
pub fn decodes_nine_bits_to_4096_samples()
    ensures all { Decoded (record unprocessed_defaults { block = 64; interval = 64 }) (bits_of (0x00 ∷
        0x80 ∷ [])) None (replicate 4096 (pos 0)) Ended 16 }
    ensures asked { Decoded (record unprocessed_defaults { block = 64; interval = 64 }) (bits_of (0x00 ∷
        0x80 ∷ [])) (Some 10) (replicate 10 (pos 0)) Reached 9 }
{}

/// Padding is skipped, whatever its bits are. It counts as used, also after the last requested sample.
pub fn skips_padding()
    ensures all { Decoded (record defaults { interval = 1; pad = true }) (bits_of (0x00 ∷ 0x5F ∷
        0x00 ∷ 0x58 ∷ [])) None (replicate 16 (pos 5)) Ended 32 }
    ensures asked { Decoded (record defaults { interval = 1; pad = true }) (bits_of (0x00 ∷ 0x5F ∷
        0x00 ∷ 0x58 ∷ [])) (Some 8) (replicate 8 (pos 5)) Reached 16 }
{}
