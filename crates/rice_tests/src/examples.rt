//! Worked examples of the definitions, which the check computes: samples, the bytes of their code, and its number of bits.
#![tactic(auto, unfolding(rice_bits::specs::Bits::word, rice_bits::specs::Bits::number_of, rice_bits::specs::Bits::bits_of, rice_bits::specs::Bits::whole_bytes))]

ghost use Rattle.std.specs.Prelude.{◌≡◌, [], ◌∷◌, ◌++◌, length, replicate, pos, negsuc, true, false, None};
ghost use Rattle.rice_bits.specs.Bits.{fundamental_sequence};
ghost use Rattle.rice_base_tests.specs.Examples.{defaults, signed_defaults, unprocessed_defaults, one_bit_defaults};
ghost use Rattle.rice_tests.specs.Examples.{CodesTo, costs_of, identifiers_of, numbers_from, repetition_of};
ghost use Rattle.rice_code.specs.{code.CodedDataSets.bits_of_set, code.CodedDataSets.run_number, code.CodedDataSets.RemainderOfSegment, Bounds.bit_bound, Bounds.padded_bound, Bounds.step_bound};
ghost use Rattle.rice_code.specs.code.{Code.code, Code.code_bits, Code.early_output, Blocks.block_data};

/// No samples have no code.
pub fn no_samples()
    ensures { CodesTo defaults [] [] 0 }
{}

/// Eight equal samples: the reference, and a run of one block.
pub fn equal_samples()
    ensures { CodesTo defaults (replicate 8 (pos 5)) (0x00 ∷ 0x58 ∷ []) 13 }
{}

/// A short block is filled by repeating its last sample.
pub fn one_sample()
    ensures { CodesTo defaults (pos 5 ∷ []) (0x00 ∷ 0x58 ∷ []) 13 }
{}

/// Ties.
pub fn ties()
    // Of two equally short splits, the smaller one is chosen.
    ensures of_splits { CodesTo defaults (numbers_from 0 8) (0x20 ∷ 0x09 ∷ 0x24 ∷ 0x92 ∷ []) 31 }
    // If second extension and a split are equally short, second extension is chosen.
    ensures after_a_run { CodesTo defaults (replicate 11 (pos 5) ++
        pos 4 ∷ pos 4 ∷ pos 3 ∷ pos 3 ∷ pos 2 ∷ []) (0x00 ∷ 0x58 ∷ 0xC9 ∷ 0x20 ∷ []) 27 }
    ensures unprocessed { CodesTo unprocessed_defaults (pos 0 ∷ pos 0 ∷
        repetition_of 3 (pos 0 ∷ pos 1 ∷ [])) (0x19 ∷ 0x24 ∷ []) 14 }
{}

/// Samples far from each other are coded by no compression: no block is longer.
pub fn no_compression()
    ensures { CodesTo defaults (repetition_of 4 (pos 0 ∷ pos 255 ∷ [])) (0xE0 ∷ 0x1F ∷ 0xFF ∷ 0xFF ∷
        0xFF ∷ 0xFF ∷ 0xFF ∷ 0xFF ∷ 0xE0 ∷ []) 67 }
{}

/// Signed samples.
pub fn signed_samples()
    // Signed samples far from each other, whose reference is sent in two's complement.
    ensures far { CodesTo signed_defaults (repetition_of 4 (negsuc 127 ∷ pos 127 ∷ [])) (0xF0 ∷ 0x1F ∷
        0xFF ∷ 0xFF ∷ 0xFF ∷ 0xFF ∷ 0xFF ∷ 0xFF ∷ 0xE0 ∷ []) 67 }
    // A negative reference, in four bits.
    ensures reference { CodesTo (record signed_defaults { bits = 4 }) (replicate 8 (negsuc 7)) (0x08 ∷ 0x80 ∷
        []) 9 }
    // Signed samples that fall.
    ensures falling { CodesTo signed_defaults (pos 0 ∷ negsuc 0 ∷ negsuc 1 ∷ negsuc 2 ∷ negsuc 3 ∷
        negsuc 4 ∷ negsuc 5 ∷ negsuc 6 ∷ []) (0x20 ∷ 0x0A ∷ 0xAA ∷ 0x80 ∷ []) 25 }
{}

/// A few small residuals are coded in pairs.
pub fn second_extension()
    ensures { CodesTo defaults (replicate 15 (pos 5) ++ pos 4 ∷ []) (0x00 ∷ 0x58 ∷ 0xF2 ∷ []) 23 }
{}

/// Runs of blocks of zeros.
pub fn runs()
    // A run of five or more blocks that reaches the last block, filled or not, is the remainder of its segment.
    ensures whole { CodesTo (record defaults { interval = 64 }) (replicate 40 (pos 0)) (0x00 ∷
        0x00 ∷ 0x80 ∷ []) 17 }
    ensures filled { CodesTo (record defaults { interval = 64 }) (replicate 33 (pos 0)) (0x00 ∷
        0x00 ∷ 0x80 ∷ []) 17 }
    // A run of four is numbered, though it reaches the last block.
    ensures four { CodesTo (record defaults { interval = 64 }) (replicate 32 (pos 0)) (0x00 ∷ 0x01 ∷
        []) 16 }
    // A run ends with its segment, and another one begins.
    ensures past_a_segment { CodesTo (record defaults { interval = 128 }) (replicate 520 (pos 0)) (0x00 ∷ 0x00 ∷
        0x84 ∷ []) 22 }
    // A run of five that ends before its segment and before the last block is numbered.
    ensures inside_a_segment { CodesTo (record defaults { interval = 64 }) (replicate 47 (pos 0) ++
        pos 1 ∷ []) (0x00 ∷ 0x00 ∷ 0x47 ∷ 0x90 ∷ []) 28 }
    // The longest run that ends before its segment, of 63 blocks, is numbered.
    ensures sixty_three { CodesTo (record defaults { interval = 64 }) (replicate 504 (pos 0) ++
        pos 1 ∷ []) (replicate 9 0x00 ++ 0x11 ∷ 0x78 ∷ []) 85 }
    // A run of two blocks ends its interval.
    ensures two { CodesTo defaults (replicate 16 (pos 5)) (0x00 ∷ 0x54 ∷ []) 14 }
{}

/// If each block is an interval, each has a reference, and no run continues.
pub fn intervals_of_one_block()
    ensures { CodesTo (record defaults { interval = 1 }) (replicate 16 (pos 5)) (0x00 ∷ 0x58 ∷
        0x02 ∷ 0xC0 ∷ []) 26 }
{}

/// Samples of one bit.
pub fn one_bit()
    ensures { CodesTo one_bit_defaults (repetition_of 4 (pos 0 ∷ pos 1 ∷ [])) (0xEF ∷ 0xE0 ∷
        []) 11 }
{}

/// Identifiers of five and six bits, and references of 16, 24 and 32 bits.
pub fn wide_samples()
    ensures sixteen { CodesTo (record defaults { bits = 16; msb = true }) (replicate 8 (pos 5)) (0x00 ∷
        0x00 ∷ 0x2C ∷ []) 22 }
    ensures twenty_four { CodesTo (record defaults { bits = 24; three = true; msb = true }) (replicate 8 (pos 5)) (0x00 ∷
        0x00 ∷ 0x00 ∷ 0x16 ∷ []) 31 }
    ensures thirty_two { CodesTo (record defaults { bits = 32 }) (replicate 8 (pos 5)) (0x00 ∷
        0x00 ∷ 0x00 ∷ 0x00 ∷ 0x16 ∷ []) 39 }
{}

/// Blocks of 16 samples.
pub fn larger_blocks()
    ensures { CodesTo (record defaults { block = 16 }) (replicate 16 (pos 5)) (0x00 ∷ 0x58 ∷
        []) 13 }
{}

/// Without preprocessing there is no reference, and residuals are the samples' patterns.
pub fn no_preprocessing()
    ensures second { CodesTo unprocessed_defaults (replicate 7 (pos 0) ++
        pos 1 ∷ []) (0x1E ∷ 0x40 ∷ []) 10 }
    ensures words { CodesTo unprocessed_defaults (numbers_from 0xF0 8) (0xFE ∷ 0x1E ∷ 0x3E ∷ 0x5E ∷
        0x7E ∷ 0x9E ∷ 0xBE ∷ 0xDE ∷ 0xE0 ∷ []) 67 }
    ensures filled { CodesTo unprocessed_defaults (pos 0xF0 ∷ []) (0xFE ∷ replicate 7 0x1E ++
        0x00 ∷ []) 67 }
    ensures nine_bits { CodesTo (record unprocessed_defaults { bits = 9; msb = true }) (replicate 8 (pos 511)) (replicate 9 0xFF ++
        0xF0 ∷ []) 76 }
    ensures signed { CodesTo (record signed_defaults { bits = 4; preprocess = false }) (negsuc 0 ∷
        []) (replicate 4 0xFF ++ 0xE0 ∷ []) 35 }
{}

/// One small residual among 64 of 32 bits.
pub fn one_residual_of_64()
    ensures { CodesTo (record unprocessed_defaults { bits = 32; block = 64 }) (replicate 63 (pos 0) ++
        pos 1 ∷ []) (0x07 ∷ 0xFF ∷ 0xFF ∷ 0xFF ∷ 0xF9 ∷ []) 40 }
{}

/// Padding, which does not count.
pub fn padding()
    // With padding each interval fills its last byte. The padding does not count.
    ensures intervals { CodesTo (record defaults { interval = 1; pad = true }) (replicate 16 (pos 5)) (0x00 ∷
        0x58 ∷ 0x00 ∷ 0x58 ∷ []) 26 }
    // A run that ends an interval is padded, and the next interval begins a byte.
    ensures run { CodesTo (record defaults { pad = true }) (replicate 17 (pos 5)) (0x00 ∷ 0x54 ∷ 0x00 ∷
        0x58 ∷ []) 27 }
    // Between two blocks of an interval there is no padding.
    ensures inside { CodesTo (record defaults { pad = true }) (replicate 15 (pos 5) ++
        pos 4 ∷ []) (0x00 ∷ 0x58 ∷ 0xF2 ∷ []) 23 }
    // An interval that the samples leave unfinished is not padded, though its last run may cover all its blocks; a complete one is.
    ensures unfinished { length (code (record defaults { interval = 64; pad = true }) (replicate 40 (pos 0))) ≡
        17 }
    ensures whole { length (code (record defaults { interval = 5; pad = true }) (replicate 40 (pos 0))) ≡
        24 }
{}

/// The whole bytes of the code of whole segments: without padding, the last bits are buffered.
pub fn early_outputs()
    ensures buffered { early_output (record defaults { interval = 1 }) (replicate 8 (pos 5)) ≡
        0x00 ∷ [] }
    ensures four_bits { early_output (record defaults { bits = 4; interval = 1 }) (replicate 8 (pos 5)) ≡
        0x05 ∷ [] }
    ensures four_bits_counted { code_bits (record defaults { bits = 4; interval = 1 }) (replicate 8 (pos 5)) ≡
        9 }
    ensures padded { early_output (record defaults { interval = 1; pad = true }) (replicate 8 (pos 5)) ≡
        0x00 ∷ 0x58 ∷ [] }
    ensures four_bits_padded { early_output (record defaults { bits = 4; interval = 1; pad = true }) (replicate 8 (pos 5)) ≡
        0x05 ∷ 0x80 ∷ [] }
{}

/// Identifiers of no compression, splits 0, 1 and the greatest, second extension and a run, where samples have 8, 16 and 32 bits.
pub fn identifiers()
    ensures eight { identifiers_of defaults 5 ≡ (true ∷ true ∷ true ∷ []) ∷
        (false ∷ false ∷ true ∷ []) ∷ (false ∷ true ∷ false ∷ []) ∷ (true ∷ true ∷ false ∷ []) ∷
        (false ∷ false ∷ false ∷ true ∷ []) ∷ (false ∷ false ∷ false ∷ false ∷ true ∷ []) ∷ [] }
    ensures sixteen { identifiers_of (record defaults { bits = 16 }) 13 ≡
        (true ∷ true ∷ true ∷ true ∷ []) ∷ (false ∷ false ∷ false ∷ true ∷ []) ∷
        (false ∷ false ∷ true ∷ false ∷ []) ∷ (true ∷ true ∷ true ∷ false ∷ []) ∷
        (replicate 4 false ++ true ∷ []) ∷ (replicate 5 false ++ true ∷ []) ∷ [] }
    ensures thirty_two { identifiers_of (record defaults { bits = 32 }) 29 ≡
        (true ∷ true ∷ true ∷ true ∷ true ∷ []) ∷ (false ∷ false ∷ false ∷ false ∷ true ∷ []) ∷
        (false ∷ false ∷ false ∷ true ∷ false ∷ []) ∷ (true ∷ true ∷ true ∷ true ∷ false ∷ []) ∷
        (replicate 5 false ++ true ∷ []) ∷ (replicate 6 false ++ true ∷ []) ∷ [] }
{}

/// The zeros of the codewords of runs: one less than the blocks up to four, then as many. Four are left for the remainder of a segment.
pub fn run_codewords()
    ensures one { run_number 1 ≡ 0 }
    ensures four { run_number 4 ≡ 3 }
    ensures remainder { bits_of_set defaults (RemainderOfSegment None) ≡
        replicate 4 false ++ fundamental_sequence 4 }
    ensures five { run_number 5 ≡ 5 }
    ensures most { run_number 63 ≡ 63 }
{}

/// The costs of some blocks by splits 0, 1 and 2, second extension and no compression.
pub fn costs()
    ensures rising_samples { costs_of defaults (block_data defaults 0 (pos 0) (numbers_from 0 8)) ≡
        31 ∷ 31 ∷ 32 ∷ 54 ∷ 67 ∷ [] }
    ensures last_step { costs_of defaults (block_data defaults 1 (pos 5) (replicate 7 (pos 5) ++
        pos 4 ∷ [])) ≡ 12 ∷ 19 ∷ 27 ∷ 10 ∷ 67 ∷ [] }
    ensures three_steps { costs_of defaults (block_data defaults 1 (pos 5) (pos 5 ∷ pos 5 ∷
        pos 5 ∷ pos 4 ∷ pos 4 ∷ pos 3 ∷ pos 3 ∷ pos 2 ∷ [])) ≡ 14 ∷ 19 ∷ 27 ∷ 14 ∷ 67 ∷ [] }
    ensures signed_samples { costs_of signed_defaults (block_data signed_defaults 0 (pos 0) (pos 0 ∷
        negsuc 0 ∷ negsuc 1 ∷ negsuc 2 ∷ negsuc 3 ∷ negsuc 4 ∷ negsuc 5 ∷ negsuc 6 ∷ [])) ≡
        25 ∷ 25 ∷ 32 ∷ 30 ∷ 67 ∷ [] }
{}

/// The bounds on bits and steps.
pub fn bounds()
    ensures none { bit_bound defaults 0 ≡ 0 }
    ensures none_steps { step_bound defaults 0 ≡ 0 }
    ensures one { bit_bound defaults 8 ≡ 67 }
    ensures one_steps { step_bound defaults 8 ≡ 155 }
    ensures two { bit_bound defaults 9 ≡ 134 }
    ensures two_steps { step_bound defaults 9 ≡ 310 }
    ensures wide { bit_bound (record defaults { bits = 32; block = 64 }) 64 ≡ 2053 }
    ensures wide_steps { step_bound (record defaults { bits = 32; block = 64 }) 64 ≡ 4293 }
    ensures unpadded { padded_bound (record defaults { interval = 1 }) 16 ≡ 134 }
    ensures padded { padded_bound (record defaults { interval = 1; pad = true }) 16 ≡ 148 }
{}
