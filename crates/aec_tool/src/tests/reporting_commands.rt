//! `start_on` over a system that reports its contents. Its contract determines the result of each case.
use crate::tests::reporting_system::Reported;
use aec_run::start_up::start_on;
use std::test::Fail;

// Eight samples, all 5, and their code.
const SAMPLES: &[u8] = b"\x05\x05\x05\x05\x05\x05\x05\x05";

const CODE: &[u8] = b"\0X";

// The words, the place that was written, with no name and permissions where it is standard output, what stands there, and the status.
type Place<'a> = Option<Option<(&'a str, Option<u32>)>>;

type Case<'a> = (&'a [&'a str], Place<'a>, &'a [u8], u8);

#[test]
fn reads_the_source_and_writes_the_destination(rt: HostRuntime) -> Result<(), Fail> {
    let cases: [Case<'_>; 5] = [
        (
            &["aec", "in", "out"],
            Some(Some(("out", Some(0o600)))),
            CODE,
            0,
        ),
        (&["aec", "in", "-"], Some(None), CODE, 0),
        (&["aec", "-", "out"], Some(Some(("out", None))), b"", 0),
        (&["aec", "in", "in"], None, b"", 1),
        (&["aec", "out", "in"], None, b"", 1),
    ];
    for (words, place, bytes, wanted) in cases {
        let mut system = Reported::new(rt.alloc(), b"", "in", SAMPLES, "locked");
        let status = start_on(&mut system, rt.alloc(), words);
        let held = system
            .held
            .as_ref()
            .map_or(b"".as_slice(), |it| it.as_slice());
        let is_written = system.place == place && held == bytes;
        if !is_written || status != wanted || system.said.is_some() != (wanted == 1) {
            return Err(Fail::new(format_args!("{status} for {words:?}")));
        }
    }
    Ok(())
}
