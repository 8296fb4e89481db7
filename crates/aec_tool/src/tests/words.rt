//! Worked examples: from words to their plan.
use aec_command::{is_test, is_verbose, matches_of, plan_of, test_plan_of};
use std::test::Fail;

#[test]
fn words_make_a_plan(rt: HostRuntime) -> Result<(), Fail> {
    let words = ["aec", "-d", "-n16", "-r", "128", "--samples=5", "code", "-"];
    let Ok(matches) = matches_of(rt.alloc(), &words) else {
        return Err(Fail::new("these words are refused"));
    };
    let Ok(plan) = plan_of(&matches) else {
        return Err(Fail::new("these words make no plan"));
    };
    let setting = plan.setting;
    let numbers = (setting.bits(), setting.block(), setting.interval());
    let names = (plan.source, plan.dest);
    if numbers == (16, 8, 128)
        && plan.decode
        && plan.samples == Some(5)
        && names == ("code", "-")
        && !is_test(&matches)
        && !is_verbose(&matches)
    {
        return Ok(());
    }
    Err(Fail::new(format_args!("{plan:?}")))
}

#[test]
fn words_make_a_plan_of_a_test(rt: HostRuntime) -> Result<(), Fail> {
    let words = [
        "aec",
        "--test",
        "--verbose",
        "-j64",
        "--samples",
        "5",
        "code",
    ];
    let Ok(matches) = matches_of(rt.alloc(), &words) else {
        return Err(Fail::new("these words are refused"));
    };
    let Ok(plan) = test_plan_of(&matches) else {
        return Err(Fail::new("these words make no plan"));
    };
    if plan.setting.block() == 64
        && plan.samples == Some(5)
        && plan.source == "code"
        && is_test(&matches)
        && is_verbose(&matches)
    {
        return Ok(());
    }
    Err(Fail::new(format_args!("{plan:?}")))
}
