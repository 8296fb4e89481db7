//! Tests a code: decodes it, and writes no samples.
ghost use Rattle.std.specs.Prelude.{◌≡◌, ℕ, ◌⊎◌, ◌&&◌, List, Some, None, Err, IfErr, IfOk, is_some};
ghost use Rattle.aec_command.specs.TestPlan.{test_view};
ghost use Rattle.aec_run.specs.Outside.{Outside, IsFresh, GivesAll, Stopped, finding, losing, is_read_again, said_of, saying, source_bytes, source_id};
ghost use Rattle.aec_run.specs.OneAfter.{LooksOnceMore};
ghost use Rattle.aec_run.specs.Performs.{PerformsTest, Tests, Judges, Looks, faulty};
ghost use Rattle.rice_stream.specs.declared.outcome.Fault.TheVariants as faults;

use crate::exit_status::SUCCESS;
use crate::finding::Finding;
use crate::help::Job;
use crate::message::{Message, StartFault};
use crate::nowhere::Nowhere;
use crate::one_after::look_after;
use crate::perform::{Done, STANDARD, fail, open, write_closing_line};
use crate::same_file::FileId;
use crate::system::{OpenFault, System};
use aec_command::TestPlan;
use rice_bits::Intake;
use rice_samples::Setting;
use rice_stream::{Fault, Outcome, Report, decode};

/// Performs the plan of a test, writes the closing line if it is requested, and returns the exit status.
pub fn perform_test<'a, S: System<'a>>(system: &mut S, plan: &TestPlan<'a>, verbose: bool) -> u8
    requires { (o : Outside) → S.reported system.old ≡ Some o → IsFresh o }
    ensures { (o : Outside) → S.reported system.old ≡ Some o → (after : Outside) ×
        (S.reported system.new ≡ Some after)
        × PerformsTest S.Source.left S.Source.failed S.Dest.taken S.Dest.failed
        verbose (test_view plan.now) o after result }
{
    if verbose {
        system.watch(Job::of_test(plan));
    }
    match open(system, plan.source) {
        Ok((source, id)) => {
            let done = test(system, plan, source, id);
            write_closing_line(system, verbose, true, done)
        }
        Err(_) => {
            let fault = StartFault::NoSource { name: plan.source };
            fail(system, Message::Start(fault))
        }
    }
}

/// Decodes the source and writes nothing, and tells what that found.
fn test<'a, S: System<'a>>(
    system: &mut S,
    plan: &TestPlan<'a>,
    source: S::Source,
    id: Option<FileId>,
) -> Done
    requires fresh { (o : Outside) → S.reported system.old ≡ Some o → IsFresh o }
    requires sound { S.Source.failed source ≡ 0 }
    requires bytes { (o : Outside) → S.reported system.old ≡ Some o →
        GivesAll (source_bytes o plan.now.source.now) (S.Source.left source) }
    requires id { (o : Outside) → S.reported system.old ≡ Some o →
        id ≡ source_id o plan.now.source.now }
    ensures { (o : Outside) → S.reported system.old ≡ Some o → (after : Outside) ×
        (S.reported system.new ≡ Some after)
        × Tests S.Source.left S.Source.failed S.Dest.taken S.Dest.failed
        (test_view plan.now) o after result.status result.samples }
{
    let (outcome, _) = decode(&plan.setting, plan.samples, source, &mut Nowhere);
    let report = outcome.report;
    match judge(system, plan, id, &outcome) {
        Ok(more) => {
            let it = Finding {
                samples: report.samples,
                bits: report.bits,
                more,
            };
            Done {
                status: tell_finding(system, it),
                samples: report.samples,
            }
        }
        Err(fault) => Done {
            status: fail(system, at_place(&plan.setting, &report, fault)),
            samples: report.samples,
        },
    }
}

/// Writes what was found to standard output, and returns the exit status.
fn tell_finding<'a, S: System<'a>>(system: &mut S, it: Finding) -> u8
    requires unsaid { (o : Outside) → S.reported system.old ≡ Some o → o.said ≡ None }
    requires unreported { (o : Outside) → S.reported system.old ≡ Some o → o.found ≡ None }
    ensures { (o : Outside) → S.reported system.old ≡ Some o →
        ((S.reported system.new ≡ Some (finding o it)) × (result ≡ 0)) ⊎
        ((S.reported system.new ≡ Some (saying (losing o) (Stopped faults.Write))) × (result ≡ 1)) }
{
    match system.report(it) {
        Ok(()) => SUCCESS,
        Err(_) => fail(system, Message::Stopped(Fault::Write)),
    }
}

/// Returns the message of a fault of a code, with the block, the bit and the byte where reading it stopped, counted from 0.
fn at_place<'a>(setting: &Setting, report: &Report, fault: Fault) -> Message<'a>
    ensures { said_of result ≡ faulty setting.now report.now fault }
{
    let bit = report.bits.saturating_sub(1);
    Message::Faulty {
        fault,
        block: report.samples / setting.block() as u64,
        bit,
        byte: bit / 8,
    }
}

/// Returns the fault of a code, or whether a 1 is left after the samples that were asked for, if that is looked for.
fn judge<'a, S: System<'a>>(
    system: &mut S,
    plan: &TestPlan<'a>,
    id: Option<FileId>,
    outcome: &Outcome,
) -> Result<Option<bool>, Fault>
    requires fresh { (o : Outside) → S.reported system.old ≡ Some o → IsFresh o }
    requires id { (o : Outside) → S.reported system.old ≡ Some o →
        id ≡ source_id o plan.now.source.now }
    ensures silent { S.reported system.old ≡ None → S.reported system.new ≡ None }
    ensures judges { (o : Outside) (given : List ℕ) → S.reported system.old ≡ Some o →
        source_bytes o plan.now.source.now ≡ Some given →
        Judges S.Source.left S.Source.failed S.Dest.taken S.Dest.failed
        (test_view plan.now) o given outcome.now.report.bits outcome.now.fault
        (S.reported system.new) result }
{
    match outcome.fault {
        Some(fault) => Err(fault),
        None => look_for_one_after(system, plan, id, outcome.report.bits),
    }
}

/// Returns whether the source can be opened once more, to look after the samples that were asked for.
fn is_looked_for(plan: &TestPlan<'_>, id: Option<FileId>) -> bool
    ensures { (o : Outside) → id ≡ source_id o plan.now.source.now →
        result ≡ (is_some plan.now.samples && is_read_again o plan.now.source.now) }
{
    match id {
        Some(id) => plan.samples.is_some() && plan.source != STANDARD && id.is_regular,
        None => false,
    }
}

/// Returns whether a 1 is left after the first `bits` bits of the source, if that is looked for.
fn look_for_one_after<'a, S: System<'a>>(
    system: &mut S,
    plan: &TestPlan<'a>,
    id: Option<FileId>,
    bits: u64,
) -> Result<Option<bool>, Fault>
    requires fresh { (o : Outside) → S.reported system.old ≡ Some o → IsFresh o }
    requires id { (o : Outside) → S.reported system.old ≡ Some o →
        id ≡ source_id o plan.now.source.now }
    ensures silent { S.reported system.old ≡ None → S.reported system.new ≡ None }
    ensures looks { (o : Outside) (given : List ℕ) → S.reported system.old ≡ Some o →
        source_bytes o plan.now.source.now ≡ Some given →
        Looks S.Source.failed (is_some plan.now.samples && is_read_again o plan.now.source.now)
        bits plan.now.source.now given o (S.reported system.new) result }
{
    if !is_looked_for(plan, id) {
        return Ok(None);
    }
    look_once_more(system.reopen(plan.source), bits)
}

/// Returns whether a 1 is left after the first `bits` bits of a source that was opened once more. A source that cannot be opened is a
/// failed read.
fn look_once_more<I: Intake + Drop>(
    source: Result<I, OpenFault>,
    bits: u64,
) -> Result<Option<bool>, Fault>
    requires { IfOk source (λ s. I.failed s ≡ 0) }
    ensures looks { IfOk source (λ s. LooksOnceMore I.failed (I.left s) bits result) }
    ensures gone { IfErr source (λ e. result ≡ Err faults.Read) }
{
    match source {
        Ok(source) => match look_after(source, bits) {
            Ok(more) => Ok(Some(more)),
            Err(fault) => Err(fault),
        },
        Err(_) => Err(Fault::Read),
    }
}
