//! Worked examples of the definitions, which the check computes.
ghost use Rattle.std.specs.Prelude.{◌≡◌, ◌≢◌, [], ◌∷◌, ℤ, pos, negsuc, true, false};
ghost use Rattle.rice_base_tests.specs.Examples.{defaults, signed_defaults, unprocessed_defaults, one_bit_defaults};
ghost use Rattle.rice_samples.specs.{Spelling.spelling, Pairs.pair_code};
ghost use Rattle.rice_samples.specs.{Places.segment_blocks, Places.blocks_left, Places.is_reference, Places.cut, Residuals.rank, Residuals.pattern, Residuals.residual_list};
ghost use Rattle.rice_samples.specs.Parameters.{IsSample, id_len, k_max, width};

/// Identifiers have 3, 4 or 5 bits.
pub fn identifiers()
    ensures eight { id_len defaults ≡ 3 }
    ensures eight_split { k_max defaults ≡ 5 }
    ensures nine { id_len (record defaults { bits = 9 }) ≡ 4 }
    ensures sixteen { id_len (record defaults { bits = 16 }) ≡ 4 }
    ensures sixteen_split { k_max (record defaults { bits = 16 }) ≡ 13 }
    ensures seventeen { id_len (record defaults { bits = 17 }) ≡ 5 }
    ensures thirty_two { id_len (record defaults { bits = 32 }) ≡ 5 }
    ensures thirty_two_split { k_max (record defaults { bits = 32 }) ≡ 29 }
{}

/// Samples have 1, 2 or 4 bytes, or 3 if they have 17 to 24 bits and `three` is set.
pub fn widths()
    ensures eight { width defaults ≡ 1 }
    ensures nine { width (record defaults { bits = 9 }) ≡ 2 }
    ensures seventeen { width (record defaults { bits = 17 }) ≡ 4 }
    ensures sixteen_in_three { width (record defaults { bits = 16; three = true }) ≡ 2 }
    ensures seventeen_in_three { width (record defaults { bits = 17; three = true }) ≡ 3 }
    ensures twenty_four_in_three { width (record defaults { bits = 24; three = true }) ≡ 3 }
    ensures twenty_five_in_three { width (record defaults { bits = 25; three = true }) ≡ 4 }
{}

/// Samples take their width in bytes, the least significant byte first or last, with the sign in all unused bits.
pub fn spellings_of_samples()
    ensures ten { spelling (record defaults { bits = 10 }) (pos 1023) ≡ 0xFF ∷ 0x03 ∷ [] }
    ensures ten_signed { spelling (record signed_defaults { bits = 10 }) (pos 511) ≡
        0xFF ∷ 0x01 ∷ [] }
    ensures ten_negative { spelling (record signed_defaults { bits = 10 }) (negsuc 511) ≡
        0x00 ∷ 0xFE ∷ [] }
    ensures three_bytes { spelling (record signed_defaults { bits = 24; three = true; msb = true }) (negsuc 8388607) ≡
        0x80 ∷ 0x00 ∷ 0x00 ∷ [] }
    ensures thirty_two { spelling (record defaults { bits = 32 }) (pos 4294967295) ≡
        0xFF ∷ 0xFF ∷ 0xFF ∷ 0xFF ∷ [] }
    ensures thirty_two_signed { spelling (record signed_defaults { bits = 32 }) (negsuc 0) ≡
        0xFF ∷ 0xFF ∷ 0xFF ∷ 0xFF ∷ [] }
    ensures one_signed { spelling (record signed_defaults { bits = 1 }) (negsuc 0) ≡ 0xFF ∷ [] }
{}

/// Bytes with other unused bits are those of no sample.
pub fn bytes_of_no_sample()
    ensures ten { (x : ℤ) → IsSample (record defaults { bits = 10 }) x →
        spelling (record defaults { bits = 10 }) x ≢ 0x00 ∷ 0x04 ∷ [] }
    ensures ten_above { (x : ℤ) → IsSample (record signed_defaults { bits = 10 }) x →
        spelling (record signed_defaults { bits = 10 }) x ≢ 0x00 ∷ 0x02 ∷ [] }
    ensures ten_below { (x : ℤ) → IsSample (record signed_defaults { bits = 10 }) x →
        spelling (record signed_defaults { bits = 10 }) x ≢ 0xFF ∷ 0xFD ∷ [] }
    ensures twenty_four { (x : ℤ) → IsSample (record defaults { bits = 24 }) x →
        spelling (record defaults { bits = 24 }) x ≢ 0x00 ∷ 0x00 ∷ 0x00 ∷ 0x01 ∷ [] }
    ensures one_signed { (x : ℤ) → IsSample (record signed_defaults { bits = 1 }) x →
        spelling (record signed_defaults { bits = 1 }) x ≢ 0x01 ∷ [] }
{}

/// Residuals near and far, and at the ends of the range.
pub fn residuals_of_samples()
    ensures same { rank defaults (pos 5) (pos 5) ≡ 0 }
    ensures below { rank defaults (pos 5) (pos 4) ≡ 1 }
    ensures above { rank defaults (pos 5) (pos 6) ≡ 2 }
    ensures least { rank defaults (pos 5) (pos 0) ≡ 9 }
    ensures mirror { rank defaults (pos 5) (pos 10) ≡ 10 }
    ensures past_mirror { rank defaults (pos 5) (pos 11) ≡ 11 }
    ensures high_mirror { rank defaults (pos 250) (pos 255) ≡ 10 }
    ensures past_high_mirror { rank defaults (pos 250) (pos 244) ≡ 11 }
    ensures up { rank defaults (pos 0) (pos 255) ≡ 255 }
    ensures down { rank defaults (pos 255) (pos 0) ≡ 255 }
    ensures signed_below { rank signed_defaults (pos 0) (negsuc 0) ≡ 1 }
    ensures signed_high { rank signed_defaults (pos 0) (pos 127) ≡ 254 }
    ensures signed_low { rank signed_defaults (pos 0) (negsuc 127) ≡ 255 }
    ensures bit_up { rank one_bit_defaults (pos 0) (pos 1) ≡ 1 }
    ensures bit_down { rank one_bit_defaults (pos 1) (pos 0) ≡ 1 }
{}

/// Patterns of signed samples.
pub fn patterns_of_samples()
    ensures least { pattern (record signed_defaults { bits = 10 }) (negsuc 511) ≡ 512 }
    ensures below_zero { pattern (record signed_defaults { bits = 10 }) (negsuc 0) ≡ 1023 }
    ensures zero { pattern (record signed_defaults { bits = 10 }) (pos 0) ≡ 0 }
{}

/// Nine samples: a residual of 0 at the reference place, those of the others, and the last sample repeated up to a whole block.
pub fn residuals_of_blocks()
    ensures { residual_list (record defaults { interval = 1 }) (pos 5 ∷ pos 4 ∷ pos 4 ∷ pos 6 ∷
        pos 6 ∷ pos 6 ∷ pos 6 ∷ pos 6 ∷ pos 9 ∷ []) ≡
        0 ∷ 1 ∷ 0 ∷ 4 ∷ 0 ∷ 0 ∷ 0 ∷ 0 ∷ 0 ∷ 0 ∷ 0 ∷ 0 ∷ 0 ∷ 0 ∷ 0 ∷ 0 ∷ [] }
{}

/// An interval of 130 blocks has segments of 64, 64 and 2 blocks.
pub fn segments_of_an_interval()
    ensures first { segment_blocks (record defaults { interval = 130 }) 0 ≡ 64 }
    ensures second { segment_blocks (record defaults { interval = 130 }) 64 ≡ 64 }
    ensures third { segment_blocks (record defaults { interval = 130 }) 128 ≡ 2 }
    ensures next { segment_blocks (record defaults { interval = 130 }) 130 ≡ 64 }
    ensures last { blocks_left (record defaults { interval = 130 }) 129 ≡ 1 }
    ensures reference { is_reference (record defaults { interval = 130 }) 130 ≡ true }
    ensures no_reference { is_reference (record defaults { interval = 130 }) 64 ≡ false }
    ensures unprocessed { is_reference unprocessed_defaults 0 ≡ false }
{}

/// Samples are buffered until their segment is complete.
pub fn whole_segments()
    ensures buffered { cut defaults 15 ≡ 0 }
    ensures whole { cut defaults 16 ≡ 16 }
    ensures longer { cut (record defaults { interval = 130 }) 1040 ≡ 1040 }
    ensures short_of_it { cut (record defaults { interval = 130 }) 1039 ≡ 1024 }
{}

/// The first numbers of second extension.
pub fn first_pairs()
    ensures none { pair_code 0 0 ≡ 0 }
    ensures one_zero { pair_code 1 0 ≡ 1 }
    ensures zero_one { pair_code 0 1 ≡ 2 }
    ensures two_zero { pair_code 2 0 ≡ 3 }
    ensures one_one { pair_code 1 1 ≡ 4 }
    ensures zero_two { pair_code 0 2 ≡ 5 }
    ensures three_zero { pair_code 3 0 ≡ 6 }
    ensures two_one { pair_code 2 1 ≡ 7 }
    ensures one_two { pair_code 1 2 ≡ 8 }
    ensures zero_three { pair_code 0 3 ≡ 9 }
{}
