//! Makes a plan of the entries of the parsed command line.
ghost use Rattle.std.specs.Prelude.{◌≡◌, ◌^◌, codes};
ghost use Rattle.clap.specs.Words.{found_of};
ghost use Rattle.aec_command.specs.Plan.{answer_view, is_flagged, number_in, plan_in, setting_in, setting_with};
ghost use Rattle.aec_command.specs.TestPlan.{test_answer_view, test_plan_in, tests};

use crate::plan::{Plan, PlanFault};
use crate::test_plan::{TestFault, TestPlan};
use clap::ArgMatches;
use rice_samples::{Setting, SettingFault};

/// Returns whether a flag was used.
fn is_used(matches: &ArgMatches<'_>, id: &str) -> bool
    ensures { result ≡ is_flagged (found_of matches.now) id.now }
{
    matches.get_one::<bool>(id).unwrap_or(false)
}

/// Returns whether the matches request a test.
pub fn is_test(matches: &ArgMatches<'_>) -> bool
    ensures { result ≡ tests (found_of matches.now) }
{
    is_used(matches, "test")
}

/// Returns whether the matches request a closing line.
pub fn is_verbose(matches: &ArgMatches<'_>) -> bool
    ensures { result ≡ is_flagged (found_of matches.now) (codes "verbose") }
{
    is_used(matches, "verbose")
}

/// Returns the number of an option, if it can be read.
fn number_of_32_bits(matches: &ArgMatches<'_>, id: &str) -> Option<u32>
    ensures { result ≡ number_in (2 ^ 32) (found_of matches.now) id.now }
{
    matches.get_one::<u32>(id)
}

/// Returns the long number of an option, if it can be read.
fn number_of_64_bits(matches: &ArgMatches<'_>, id: &str) -> Option<u64>
    ensures { result ≡ number_in (2 ^ 64) (found_of matches.now) id.now }
{
    matches.get_one::<u64>(id)
}

/// Returns the setting of these numbers and of the flags that were used.
fn setting_of_numbers(
    matches: &ArgMatches<'_>,
    bits: u32,
    block: u32,
    interval: u32,
) -> Result<Setting, SettingFault>
    ensures { result ≡ setting_with (found_of matches.now) bits block interval }
{
    let signed = is_used(matches, "s");
    let msb = is_used(matches, "m");
    let three = is_used(matches, "3");
    let preprocess = !is_used(matches, "N");
    let pad = is_used(matches, "p");
    Setting::new(bits, block, interval, signed, msb, three, preprocess, pad)
}

/// Returns the setting of the options, or why it is refused, if its numbers can be read.
fn setting_of(matches: &ArgMatches<'_>) -> Option<Result<Setting, SettingFault>>
    ensures { result ≡ setting_in (found_of matches.now) }
{
    let bits = number_of_32_bits(matches, "n")?;
    let block = number_of_32_bits(matches, "j")?;
    let interval = number_of_32_bits(matches, "r")?;
    Some(setting_of_numbers(matches, bits, block, interval))
}

/// Returns the plan that the matches request. It refuses, in this order, `--samples` without `-d`, a missing or unreadable entry, and what
/// `Setting::new` refuses.
pub fn plan_of<'a>(matches: &ArgMatches<'a>) -> Result<Plan<'a>, PlanFault>
    ensures { answer_view result ≡ plan_in (found_of matches.now) }
{
    let decode = is_used(matches, "d");
    let samples = number_of_64_bits(matches, "samples");
    if samples.is_some() && !decode {
        return Err(PlanFault::SamplesWithoutDecode);
    }
    let Some(source) = matches.get_str("source") else {
        return Err(PlanFault::Unreadable);
    };
    let Some(dest) = matches.get_str("dest") else {
        return Err(PlanFault::Unreadable);
    };
    match setting_of(matches) {
        Some(Ok(setting)) => Ok(Plan {
            setting,
            decode,
            samples,
            source,
            dest,
        }),
        Some(Err(fault)) => Err(PlanFault::Setting(fault)),
        None => Err(PlanFault::Unreadable),
    }
}

/// Returns the plan of a test that the matches request. It refuses, in this order, a destination, a missing or unreadable entry, and what
/// `Setting::new` refuses.
pub fn test_plan_of<'a>(matches: &ArgMatches<'a>) -> Result<TestPlan<'a>, TestFault>
    ensures { test_answer_view result ≡ test_plan_in (found_of matches.now) }
{
    if matches.get_str("dest").is_some() {
        return Err(TestFault::WithDest);
    }
    let Some(source) = matches.get_str("source") else {
        return Err(TestFault::Unreadable);
    };
    let samples = number_of_64_bits(matches, "samples");
    match setting_of(matches) {
        Some(Ok(setting)) => Ok(TestPlan {
            setting,
            samples,
            source,
        }),
        Some(Err(fault)) => Err(TestFault::Setting(fault)),
        None => Err(TestFault::Unreadable),
    }
}
