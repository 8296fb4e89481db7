//! Theorems on the definitions that the contracts cite, each the contract of a function that does nothing.
ghost use Rattle.rice_bits.specs.Laws.{BytesKeepBits, BitsKeepBytes, WordsKeepNumbers, NumbersKeepBits, SequencesAreReadInOneWay};

/// The bits of the whole bytes of some bits, and the bits after them, are the same bits.
pub fn bytes_keep_bits()
    ensures { BytesKeepBits }
{}

/// The bits of bytes, and fewer than eight bits after them, have these whole bytes.
pub fn bits_keep_bytes()
    ensures { BitsKeepBytes }
{}

/// The digits of a number determine it.
pub fn words_keep_numbers()
    ensures { WordsKeepNumbers }
{}

/// Bits are the digits of their number.
pub fn numbers_keep_bits()
    ensures { NumbersKeepBits }
{}

/// A fundamental sequence is read in one way, whatever follows it.
pub fn sequences_are_read_in_one_way()
    ensures { SequencesAreReadInOneWay }
{}
