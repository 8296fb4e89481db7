//! Encodes or decodes, as a plan requests.
ghost use Rattle.std.specs.Prelude.{◌≡◌, ◌+◌, ◌^◌, ◌<◌, true, false, Some};
ghost use Rattle.rice_stream.specs.DevicesInCalls.{Fails};
ghost use Rattle.rice_stream.specs.Decodes.{DecodesBetween, DecodesWithin};
ghost use Rattle.rice_stream.specs.Encodes.{EncodesBetween, EncodesWithin};

use aec_command::Plan;
use rice_bits::{Intake, Outlet};
use rice_stream::{Outcome, decode, encode};

/// Decodes if the plan says so, and encodes otherwise. Returns the outcome and the intake.
pub fn run<I: Intake, O: Outlet>(plan: &Plan<'_>, intake: I, outlet: &mut O) -> (Outcome, I)
    requires reads { I.failed intake + 1 < 2 ^ 64 }
    requires writes { O.failed outlet.old + 1 < 2 ^ 64 }
    ensures encodes { plan.now.decode ≡ false →
        EncodesBetween plan.now.setting (I.left intake) (I.left result.1)
        (O.taken outlet.old) (O.taken outlet.new) result.0.report result.0.fault }
    ensures encodes_within { plan.now.decode ≡ false →
        EncodesWithin plan.now.setting result.0.report }
    ensures decodes { plan.now.decode ≡ true →
        DecodesBetween plan.now.setting plan.now.samples (I.left intake) (I.left result.1)
        (O.taken outlet.old) (O.taken outlet.new) result.0.report result.0.fault }
    ensures failures { Fails result.0.fault (I.failed intake) (I.failed result.1)
        (O.failed outlet.old) (O.failed outlet.new) }
    ensures decodes_within { plan.now.decode ≡ true →
        DecodesWithin plan.now.samples result.0.report }
    // With a count of 0 the intake is not called.
    ensures idle { plan.now.decode ≡ true → plan.now.samples ≡ Some 0 → result.1 ≡ intake }
{
    if plan.decode {
        return decode(&plan.setting, plan.samples, intake, outlet);
    }
    let mut intake = intake;
    let outcome = encode(&plan.setting, &mut intake, outlet);
    (outcome, intake)
}
