//! Parses the words of the command line.
ghost use Rattle.std.specs.Prelude.{◌≡◌, IfOk, IfErr};
ghost use Rattle.clap.specs.Words.{kind_of, fault_of, IsAmong};
ghost use Rattle.clap.specs.declared.error.kind.ErrorKind.TheVariants as kinds;
ghost use Rattle.clap.specs.Walk.{texts};
ghost use Rattle.aec_command.specs.CommandLine.{aec, aec_test, AreParsedBy, AreParsedTo, AreRefusedFor, IsRefusedBy};

use crate::command_line::{command, command_with_one_name};
use crate::entries::is_test;
use clap::error::ErrorKind;
use clap::{ArgMatches, Error};
use std::alloc::Global;

/// Returns the matches of a command line's words, or why they are refused. If a name is missing, they may be those of a test, which has
/// one.
pub fn matches_of<'a>(alloc: Global, words: &'a [&'a str]) -> Result<ArgMatches<'a>, Error>
    ensures ok { IfOk result (AreParsedTo (texts words.entry.now)) }
    ensures err { IfErr result (λ e. AreRefusedFor (texts words.entry.now) (kind_of e)) }
{
    let error = match matches_of_both_names(alloc, words) {
        Ok(matches) => return Ok(matches),
        Err(error) => error,
    };
    match error.kind() {
        ErrorKind::MissingRequiredArgument => matches_of_test(alloc, words, error),
        _ => Err(error),
    }
}

/// Returns the matches of words that have both names.
fn matches_of_both_names<'a>(alloc: Global, words: &'a [&'a str]) -> Result<ArgMatches<'a>, Error>
    ensures ok { IfOk result (AreParsedBy aec (texts words.entry.now)) }
    ensures err { IfErr result (λ e. IsRefusedBy aec (texts words.entry.now) (kind_of e)) }
{
    command(alloc)?.try_get_matches_from(words)
}

/// Returns the matches of words that have one name.
fn matches_of_one_name<'a>(alloc: Global, words: &'a [&'a str]) -> Result<ArgMatches<'a>, Error>
    ensures ok { IfOk result (AreParsedBy aec_test (texts words.entry.now)) }
    ensures err { IfErr result (λ e. IsRefusedBy aec_test (texts words.entry.now) (kind_of e)) }
{
    command_with_one_name(alloc)?.try_get_matches_from(words)
}

/// Returns the matches of words that are those of a test, or `error`, which says why they are not in order.
fn matches_of_test<'a>(
    alloc: Global,
    words: &'a [&'a str],
    error: Error,
) -> Result<ArgMatches<'a>, Error>
    requires lack { IsAmong kinds.MissingRequiredArgument (fault_of aec (texts words.now)) }
    requires kind { kind_of error ≡ kinds.MissingRequiredArgument }
    ensures ok { IfOk result (AreParsedTo (texts words.entry.now)) }
    ensures err { IfErr result (λ e. AreRefusedFor (texts words.entry.now) (kind_of e)) }
{
    match matches_of_one_name(alloc, words) {
        Ok(matches) => {
            if is_test(&matches) {
                return Ok(matches);
            }
            Err(error)
        }
        Err(refused) => match refused.kind() {
            ErrorKind::OutOfMemory => Err(refused),
            // Without a name each word is an option or its value, and no value begins with a dash.
            ErrorKind::MissingRequiredArgument if words.contains(&"--test") => Err(refused),
            _ => Err(error),
        },
    }
}
