//! Theorems on code and decoding, each the contract of a function that does nothing. Their statements are in `specs/Laws.antt`.
ghost use Rattle.rice_code.specs.Laws.{ReturnsSamples, ReturnsSamplesAndFill, DecodedIsOne, CodesDiffer, RefusedBytesAreNoOutput, OwnBytesAreRecognised, AllBytesAreDecoded, FormsAreReadInOneWay, FormsHaveAOne, CodeGrows, CodeIsBounded, PaddedCodeIsBounded, AddedCodeIsBounded, SetsAreBounded, CodeIsJoined, CostIsLength, ChoiceIsLeast, NoSetsAreShorter, NoCodeIsShorter, NoOutputIsShorter, SavingNeverRises, FirstStopIsBest, ChoiceIsOfThree, CodeGoesOn, BitsGoOn, CodeDependsOnPlaceInInterval, CodeDependsOnPlaceInByte, DecodingGoesOn, DecodingDependsOnPlacesAlone, SplitIsPaid, RunIsNeverLonger, StepsAreBounded, StepsArePaid, AllStepsAreBounded, IntervalsBeginAfresh, IntervalsAreJoined, PaddedIntervalsAreJoined, IntervalsAreDecodedAlone, DecodingBeginsAfresh, DamageStaysInItsInterval};

/// With the number of samples, the output decodes to exactly these samples.
pub fn returns_samples()
    ensures { ReturnsSamples }
{}

/// Without their number, the output decodes to the samples and fewer than a segment more, with a clean end.
pub fn returns_samples_and_fill()
    ensures { ReturnsSamplesAndFill }
{}

/// Decoding is deterministic: the samples, the ending, and the number of bits used.
pub fn decoded_is_one()
    ensures { DecodedIsOne }
{}

/// Different samples of the same number have different outputs. If bytes do not decode to n samples, no n samples encode to them.
pub fn codes_differ()
    ensures equal { CodesDiffer }
    ensures refused { RefusedBytesAreNoOutput }
{}

/// Bytes are the output of n samples exactly if they decode to n samples that encode to these bytes.
pub fn own_bytes_are_recognised()
    ensures { OwnBytesAreRecognised }
{}

/// Decoding is total: all bytes decode to something, with or without a number of samples.
pub fn all_bytes_are_decoded()
    ensures { AllBytesAreDecoded }
{}

/// The possible coded data sets at a block form a prefix code.
pub fn forms_are_read_in_one_way()
    ensures { FormsAreReadInOneWay }
{}

/// Each coded data set contains a 1.
pub fn forms_have_a_one()
    ensures { FormsHaveAOne }
{}

/// The code of all samples begins with that of the whole segments among the first ones.
pub fn code_grows()
    ensures { CodeGrows }
{}

/// The number of bits without padding is bounded.
pub fn code_is_bounded()
    ensures { CodeIsBounded }
{}

/// Padding adds at most seven bits for each interval begun.
pub fn padded_code_is_bounded()
    ensures { PaddedCodeIsBounded }
{}

/// The number of bits that samples add to the code of whole segments is bounded, with all padding.
pub fn added_code_is_bounded()
    ensures { AddedCodeIsBounded }
{}

/// The number of bits of each coded data set of the coder is bounded.
pub fn sets_are_bounded()
    ensures { SetsAreBounded }
{}

/// If intervals are not padded, the code is its coded data sets, one after another.
pub fn code_is_joined()
    ensures { CodeIsJoined }
{}

/// The cost of a coded data set is the number of its bits.
pub fn cost_is_length()
    ensures { CostIsLength }
{}

/// No option is shorter than the chosen one.
pub fn choice_is_least()
    ensures { ChoiceIsLeast }
{}

/// If blocks have four samples or more, no coded data sets of the same blocks have fewer bits than the coder's.
pub fn no_sets_are_shorter()
    ensures { NoSetsAreShorter }
{}

/// Let blocks have four samples or more, and samples be predicted or fill their blocks. No bits that decode to them are fewer than their
/// code, and no bytes are fewer than their output.
pub fn no_code_is_shorter()
    ensures bits { NoCodeIsShorter }
    ensures bytes { NoOutputIsShorter }
{}

/// The cost is convex in k: the saving of a split over the one before never rises.
pub fn saving_never_rises()
    ensures { SavingNeverRises }
{}

/// The first split whose next is no shorter is the smallest of the best.
pub fn first_stop_is_best()
    ensures { FirstStopIsBest }
{}

/// The choice is between the best split, no compression and second extension.
pub fn choice_is_of_three()
    ensures { ChoiceIsOfThree }
{}

/// After whole segments, the remainder of the code depends only on their last sample and on the bit position.
pub fn code_goes_on()
    ensures code { CodeGoesOn }
    ensures bits { BitsGoOn }
{}

/// Code depends on its position only by the block's place in its interval and the bit's place in its byte.
pub fn code_depends_on_places_alone()
    ensures intervals { CodeDependsOnPlaceInInterval }
    ensures bytes { CodeDependsOnPlaceInByte }
{}

/// After a valid coded data set, decoding continues from its last sample.
pub fn decoding_goes_on()
    ensures { DecodingGoesOn }
{}

/// Without a number of samples, decoding depends on its position only by the places in the interval and in the byte.
pub fn decoding_depends_on_places_alone()
    ensures { DecodingDependsOnPlacesAlone }
{}

/// The steps of coding are bounded, for the blocks of each segment and for all samples.
pub fn steps_are_bounded()
    ensures blocks { StepsAreBounded }
    ensures paid { StepsArePaid }
    ensures all { AllStepsAreBounded }
{}

/// The best split k times the samples of a block is at most the number of bits of the block.
pub fn splits_are_paid()
    ensures { SplitIsPaid }
{}

/// A run of zero blocks is never longer than its blocks by no compression, or one bit more for each block of two samples of one bit.
pub fn runs_are_never_longer()
    ensures { RunIsNeverLonger }
{}

/// The code of reference intervals depends on what is before them only by its first bit's place in a byte, and decodes by itself. The code
/// of intervals and later samples is the code of each, joined; with padding, so is the output.
pub fn intervals_stand_alone()
    ensures afresh { IntervalsBeginAfresh }
    ensures joined { IntervalsAreJoined }
    ensures padded { PaddedIntervalsAreJoined }
    ensures decoded { IntervalsAreDecodedAlone }
{}

/// From an interval's start, bits decode by themselves to the samples that follow those before it.
pub fn decoding_begins_afresh()
    ensures { DecodingBeginsAfresh }
{}

/// With padding, damaged bytes in one interval change no other interval.
pub fn damage_stays_in_its_interval()
    ensures { DamageStaysInItsInterval }
{}
