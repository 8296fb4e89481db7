//! Performs a plan, and returns the exit status.
ghost use Rattle.std.specs.Prelude.{◌≡◌, ℕ, ◌↔◌, true, false, List, Some, None, IfOk, IsTrue};
ghost use Rattle.aec_command.specs.Plan.{plan_view};
ghost use Rattle.aec_run.specs.Outside.{Outside, Untouched, IsFresh, GivesAll, HasTakenNothing, Opens, Creates, begun, closing, new_mode, saying, said_of, is_standard, source_bytes, source_id, place_of, is_creatable, AreOneFile};
ghost use Rattle.aec_run.specs.Performs.{Performs, Ends, Runs, EmptiesSource, last_words, status_with};

use crate::coding::run;
use crate::exit_status::{FAILURE, exit_status};
use crate::help::Job;
use crate::message::{Message, StartFault};
use crate::same_file::{FileId, are_one_file, mode_for};
use crate::system::{CreateFault, OpenFault, System};
use aec_command::Plan;
use rice_stream::{Fault, Outcome};

/// The name of a standard stream.
pub const STANDARD: &str = "-";

/// What was done: the exit status, and the number of samples coded, decoded and written, or tested.
#[derive(Clone, Copy, Debug)]
pub struct Done {
    pub status: u8,
    pub samples: u64,
}

/// Performs a plan, writes the closing line if it is requested, and returns the exit status.
pub fn perform<'a, S: System<'a>>(system: &mut S, plan: &Plan<'a>, verbose: bool) -> u8
    requires { (o : Outside) → S.reported system.old ≡ Some o → IsFresh o }
    ensures { (o : Outside) → S.reported system.old ≡ Some o → (after : Outside) ×
        (S.reported system.new ≡ Some after)
        × Performs S.Source.left S.Source.failed S.Dest.taken S.Dest.failed
        verbose (plan_view plan.now) o after result }
{
    if verbose {
        system.watch(Job::of_plan(plan));
    }
    match open(system, plan.source) {
        Ok((source, id)) => create_and_write(system, plan, verbose, source, id),
        Err(_) => {
            let fault = StartFault::NoSource { name: plan.source };
            fail(system, Message::Start(fault))
        }
    }
}

/// Writes a message, and returns the status of a failure.
pub fn fail<'a, S: System<'a>>(system: &mut S, message: Message<'a>) -> u8
    requires { (o : Outside) → S.reported system.old ≡ Some o → o.said ≡ None }
    ensures says { (o : Outside) → S.reported system.old ≡ Some o →
        S.reported system.new ≡ Some (saying o (said_of message.entry)) }
    ensures status { result ≡ 1 }
{
    system.tell(message);
    FAILURE
}

/// Writes the closing line if it is requested, and returns the status.
pub fn write_closing_line<'a, S: System<'a>>(
    system: &mut S,
    verbose: bool,
    decode: bool,
    done: Done,
) -> u8
    ensures closes { (o : Outside) → S.reported system.old ≡ Some o →
        S.reported system.new ≡ Some (closing verbose decode done.samples o) }
    ensures status { result ≡ done.status }
{
    if verbose {
        system.write_closing_line(decode, done.samples);
    }
    done.status
}

/// Opens the source of a name, and returns it with its file's identity.
pub fn open<'a, S: System<'a>>(
    system: &S,
    name: &str,
) -> Result<(S::Source, Option<FileId>), OpenFault>
    ensures sound { IfOk result (λ r. S.Source.failed r.0 ≡ 0) }
    ensures opens { (o : Outside) → S.reported system.now ≡ Some o →
        Opens S.Source.left (source_bytes o name.now) (source_id o name.now) result }
{
    if name == STANDARD {
        return Ok(system.input());
    }
    system.open(name)
}

/// Returns whether creating the file of a name would empty the source.
fn empties_source<'a, S: System<'a>>(system: &S, name: &str, source: Option<FileId>) -> bool
    ensures { (o : Outside) → S.reported system.now ≡ Some o →
        (IsTrue result ↔ ((is_standard name.now ≡ false) × AreOneFile source (o.ids name.now))) }
{
    name != STANDARD && are_one_file(source, system.find(name))
}

/// Begins the destination of a name.
fn create<'a, S: System<'a>>(
    system: &mut S,
    name: &'a str,
    mode: Option<u32>,
) -> Result<S::Dest, CreateFault>
    requires { (o : Outside) → S.reported system.old ≡ Some o → o.destination ≡ Untouched }
    ensures sound { IfOk result (λ d. S.Dest.failed d ≡ 0) }
    ensures silent { S.reported system.old ≡ None → S.reported system.new ≡ None }
    ensures creates { (o : Outside) → S.reported system.old ≡ Some o →
        Creates S.Dest.taken (place_of name.entry.now mode) (is_creatable o name.entry.now) o
        (S.reported system.new) result }
{
    if name == STANDARD {
        return system.output();
    }
    system.create(name, mode)
}

/// Creates the destination, unless that would empty the source, and writes to it.
fn create_and_write<'a, S: System<'a>>(
    system: &mut S,
    plan: &Plan<'a>,
    verbose: bool,
    source: S::Source,
    id: Option<FileId>,
) -> u8
    requires fresh { (o : Outside) → S.reported system.old ≡ Some o → IsFresh o }
    requires sound { S.Source.failed source ≡ 0 }
    requires bytes { (o : Outside) → S.reported system.old ≡ Some o →
        GivesAll (source_bytes o plan.now.source.now) (S.Source.left source) }
    requires id { (o : Outside) → S.reported system.old ≡ Some o →
        id ≡ source_id o plan.now.source.now }
    ensures { (o : Outside) → S.reported system.old ≡ Some o → (after : Outside) ×
        (S.reported system.new ≡ Some after)
        × Ends S.Source.left S.Source.failed S.Dest.taken S.Dest.failed
        verbose (plan_view plan.now) o after result }
{
    let no_dest = StartFault::NoDest { name: plan.dest };
    if empties_source(system, plan.dest, id) {
        return fail(system, Message::Start(no_dest));
    }
    match create(system, plan.dest, mode_for(id)) {
        Ok(dest) => {
            let done = transfer(system, plan, source, dest);
            write_closing_line(system, verbose, plan.decode, done)
        }
        Err(CreateFault::NoMemory) => fail(system, Message::Start(StartFault::NoMemory)),
        Err(CreateFault::Refused) => fail(system, Message::Start(no_dest)),
    }
}

/// Encodes or decodes from the source to the destination.
fn transfer<'a, S: System<'a>>(
    system: &mut S,
    plan: &Plan<'a>,
    source: S::Source,
    dest: S::Dest,
) -> Done
    requires sound { S.Source.failed source ≡ 0 }
    requires unwritten { S.Dest.failed dest ≡ 0 }
    requires empty { (o : Outside) → S.reported system.old ≡ Some o →
        HasTakenNothing (S.Dest.taken dest) }
    requires unsaid { (o : Outside) → S.reported system.old ≡ Some o → o.said ≡ None }
    ensures { (o : Outside) (given : List ℕ) →
        S.reported system.old ≡ Some (begun o
        (place_of plan.now.dest.now (new_mode (source_id o plan.now.source.now)))) →
        source_bytes o plan.now.source.now ≡ Some given → S.Source.left source ≡ Some given →
        (EmptiesSource o (plan_view plan.now) → ⊥) →
        is_creatable o plan.now.dest.now ≡ true → (after : Outside) ×
        (S.reported system.new ≡ Some after)
        × Runs S.Source.left S.Source.failed S.Dest.taken S.Dest.failed
        (plan_view plan.now) o after result.status result.samples }
{
    let mut dest = dest;
    let (outcome, _) = run(plan, source, &mut dest);
    let kept = system.finish(dest);
    Done {
        status: tell_end(system, &outcome, kept.is_ok()),
        samples: outcome.report.samples,
    }
}

/// Writes why not all was done, if so, where `kept` says whether all that was written has arrived. Returns the exit status.
fn tell_end<'a, S: System<'a>>(system: &mut S, outcome: &Outcome, kept: bool) -> u8
    requires { (o : Outside) → S.reported system.old ≡ Some o → o.said ≡ None }
    ensures says { (o : Outside) → S.reported system.old ≡ Some o →
        S.reported system.new ≡ Some (record o { said = last_words outcome.now.fault kept }) }
    ensures status { result ≡ status_with (last_words outcome.now.fault kept) }
{
    match outcome.fault {
        Some(fault) => fail(system, Message::Stopped(fault)),
        None if !kept => fail(system, Message::Stopped(Fault::Write)),
        None => exit_status(outcome),
    }
}
