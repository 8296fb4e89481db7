//! Runs the command with the words of its command line.
ghost use Rattle.std.specs.Prelude.{◌≡◌, Some, None};
ghost use Rattle.clap.specs.Words.{found_of, kind_of};
ghost use Rattle.clap.specs.Walk.{texts};
ghost use Rattle.aec_run.specs.Outside.{Outside, IsFresh, said_of, saying};
ghost use Rattle.aec_run.specs.WholeCommand.{Starts, Follows, Explains};

use crate::exit_status::SUCCESS;
use crate::host::Host;
use crate::message::{Message, StartFault};
use crate::perform::{fail, perform};
use crate::progress::Progress;
use crate::system::System;
use crate::trial::perform_test;
use aec_command::{is_test, is_verbose, matches_of, plan_of, test_plan_of};
use clap::error::ErrorKind;
use clap::{ArgMatches, Error};
use std::alloc::{AllocGlobal, Global};
use std::rt::Runtime;
use std::{env, io};

/// The status of a command line that is refused.
const USAGE: u8 = 2;

/// Runs the command with the given words, the first of which is the program's name, and returns its exit status. It assumes that standard
/// error is no terminal.
pub fn start<'a, R: Runtime + AllocGlobal>(rt: &R, words: &'a [&'a str]) -> u8 {
    let progress = Progress::new(false);
    start_on(&mut Host::new(rt, &progress), rt.alloc(), words)
}

/// Runs the command with the given words on a system, and returns its exit status.
pub fn start_on<'a, S: System<'a>>(system: &mut S, alloc: Global, words: &'a [&'a str]) -> u8
    requires { (o : Outside) → S.reported system.old ≡ Some o → IsFresh o }
    ensures { (o : Outside) → S.reported system.old ≡ Some o → (after : Outside) ×
        (S.reported system.new ≡ Some after)
        × Starts S.Source.left S.Source.failed S.Dest.taken S.Dest.failed
        (texts words.entry.now) o after result }
{
    match matches_of(alloc, words) {
        Ok(matches) => follow(system, &matches),
        Err(error) => refuse(system, &error),
    }
}

/// Does what the matches ask for, and returns the exit status.
fn follow<'a, S: System<'a>>(system: &mut S, matches: &ArgMatches<'a>) -> u8
    requires { (o : Outside) → S.reported system.old ≡ Some o → IsFresh o }
    ensures { (o : Outside) → S.reported system.old ≡ Some o → (after : Outside) ×
        (S.reported system.new ≡ Some after)
        × Follows S.Source.left S.Source.failed S.Dest.taken S.Dest.failed
        (found_of matches.now) o after result }
{
    let verbose = is_verbose(matches);
    if is_test(matches) {
        return match test_plan_of(matches) {
            Ok(plan) => perform_test(system, &plan, verbose),
            Err(fault) => refuse_plan(system, Message::TestRefused(fault)),
        };
    }
    match plan_of(matches) {
        Ok(plan) => perform(system, &plan, verbose),
        Err(fault) => refuse_plan(system, Message::Refused(fault)),
    }
}

/// Writes why there is no plan, and returns the status of a command line that is refused.
fn refuse_plan<'a, S: System<'a>>(system: &mut S, message: Message<'a>) -> u8
    requires { (o : Outside) → S.reported system.old ≡ Some o → o.said ≡ None }
    ensures says { (o : Outside) → S.reported system.old ≡ Some o →
        S.reported system.new ≡ Some (saying o (said_of message.entry)) }
    ensures status { result ≡ 2 }
{
    system.tell(message);
    USAGE
}

/// Passes on what the parser has to say, and returns the exit status.
fn refuse<'a, S: System<'a>>(system: &mut S, error: &Error) -> u8
    requires { (o : Outside) → S.reported system.old ≡ Some o → IsFresh o }
    ensures { (o : Outside) → S.reported system.old ≡ Some o → (after : Outside) ×
        (S.reported system.new ≡ Some after)
        × Explains (kind_of error.now) o after result }
{
    match error.kind() {
        ErrorKind::OutOfMemory => fail(system, Message::Start(StartFault::NoMemory)),
        ErrorKind::DisplayHelp | ErrorKind::DisplayVersion => {
            system.show(error);
            SUCCESS
        }
        _ => {
            system.show(error);
            USAGE
        }
    }
}

/// Writes why the words of the process can't be read, and returns the exit status.
fn refuse_arguments<R: Runtime + AllocGlobal>(rt: &R, error: io::Error) -> u8 {
    let progress = Progress::new(false);
    let mut host = Host::new(rt, &progress);
    if error.kind() == io::ErrorKind::OutOfMemory {
        return fail(&mut host, Message::Start(StartFault::NoMemory));
    }
    host.tell(Message::NotUtf8);
    USAGE
}

/// Returns the words of the process.
fn words_of<R: Runtime + AllocGlobal>(rt: &R) -> io::Result<Vec<String>> {
    Ok(env::args(rt)?.collect(rt.alloc())?)
}

/// Returns the texts of the words.
fn texts_of(alloc: Global, words: &[String]) -> io::Result<Vec<&str>> {
    let mut texts = Vec::new(alloc);
    for word in words {
        texts.push(word.as_str())?;
    }
    Ok(texts)
}

/// Runs the command with the words of the process, and returns its exit status. `terminal` says whether standard error is one.
pub fn start_with_arguments<R: Runtime + AllocGlobal>(rt: &R, terminal: bool) -> u8 {
    match words_of(rt) {
        Ok(words) => start_with_words(rt, terminal, words.as_slice()),
        Err(error) => refuse_arguments(rt, error),
    }
}

/// Runs the command with these words, and returns its exit status.
fn start_with_words<R: Runtime + AllocGlobal>(rt: &R, terminal: bool, words: &[String]) -> u8 {
    match texts_of(rt.alloc(), words) {
        Ok(texts) if terminal => {
            let progress = Progress::new(true);
            start_on(&mut Host::new(rt, &progress), rt.alloc(), texts.as_slice())
        }
        Ok(texts) => start(rt, texts.as_slice()),
        Err(error) => refuse_arguments(rt, error),
    }
}
