//! Theorems on samples and places, each the contract of a function that does nothing. Their statements are in `specs/Laws.antt`.
ghost use Rattle.rice_samples.specs.Laws.{RankIsCount, RankFolds, RanksAreBounded, RanksAreSamples, RanksTell, PatternsAreBounded, PatternsAreSamples, PatternsTell, PairCodesArePairs, PairCodesTell, CutIsStart, CutIsGreatest, SumSavingNeverRises};

/// The rank of a sample is the number of legal values nearer to the sample before, plus one if it is the second of two as near.
pub fn rank_is_count()
    ensures { RankIsCount }
{}

/// The rank is the result of the prediction error mapper.
pub fn rank_folds()
    ensures { RankFolds }
{}

/// From each sample the ranks of all samples are the numbers below 2^n, each once.
pub fn ranks_are_all_numbers()
    ensures bounded { RanksAreBounded }
    ensures each { RanksAreSamples }
    ensures once { RanksTell }
{}

/// The patterns of all samples are the numbers below 2^n, each once.
pub fn patterns_are_all_numbers()
    ensures bounded { PatternsAreBounded }
    ensures each { PatternsAreSamples }
    ensures once { PatternsTell }
{}

/// Second extension numbers the pairs of residuals: each number belongs to one pair.
pub fn pair_codes_are_all_numbers()
    ensures each { PairCodesArePairs }
    ensures once { PairCodesTell }
{}

/// A cut is the greatest start of a segment that is not above the number of samples.
pub fn cut_is_greatest_start()
    ensures start { CutIsStart }
    ensures greatest { CutIsGreatest }
{}

/// The saving of one more digit in a sum of residuals without their lowest digits never rises.
pub fn sum_saving_never_rises()
    ensures { SumSavingNeverRises }
{}
