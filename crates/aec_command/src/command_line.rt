//! The options of the command line.
ghost use Rattle.std.specs.Prelude.{◌≡◌, false, codes, IfOk};
ghost use Rattle.clap.specs.Words.{app_of, rule_of};
ghost use Rattle.aec_command.specs.CommandLine.{aec, aec_test, flag_rule, long_flag_rule, number_rule, buffer_rule, samples_rule, name_rule, with_rules, rules_up_to_j, rules_from_m, long_rules, without_arguments};

use clap::builder::ValueParser;
use clap::{Arg, ArgAction, Command, value_parser};
use std::alloc::{AllocError, Global};

const VERSION: &str = "1.0.0";

const NOTES: &str =
    "Decompress with the options that compressed. A code does not tell how many samples{n}it has: without --samples, those that fill its last block or run are written too.{n}{n}Examples:{n}  aec -n 8 -j 32 -r 128 frame.raw code.aec     # a byte a sample{n}  aec -n 12 -j 32 -r 128 camera.raw code.aec   # two bytes a sample, the upper four bits 0{n}  aec -n 16 -j 32 -r 128 samples.bin code.aec{n}  aec -d -n 16 -j 32 -r 128 --samples 5000 code.aec samples.bin{n}  aec --test -n 16 -j 32 -r 128 --samples 5000 code.aec";

/// Returns what stands after the options in the help. Long texts are functions of their own, since the check writes each out at every
/// step of a function that holds it.
fn notes<'a>() -> &'a str {
    NOTES
}

fn summary<'a>() -> &'a str {
    "Compresses samples without loss, by the adaptive Rice coder of CCSDS 121.0-B-3"
}

fn help_of_test<'a>() -> &'a str {
    "Test a code: decompress without DEST, and tell what is found"
}

fn help_of_verbose<'a>() -> &'a str {
    "Tell samples, bytes, ratio and seconds at the end"
}

fn flag<'a>(alloc: Global, id: &'a str, letter: char, long: &'a str, help: &'a str) -> Arg<'a>
    ensures rule { rule_of result ≡ flag_rule id.entry.now letter long.entry.now }
    ensures local { result.global ≡ false }
{
    Arg::new(alloc, id)
        .short(letter)
        .long(long)
        .action(ArgAction::SetTrue)
        .help(help)
}

fn long_flag<'a>(alloc: Global, name: &'a str, help: &'a str) -> Arg<'a>
    ensures rule { rule_of result ≡ long_flag_rule name.entry.now }
    ensures local { result.global ≡ false }
{
    Arg::new(alloc, name)
        .long(name)
        .action(ArgAction::SetTrue)
        .help(help)
}

fn number<'a>(
    alloc: Global,
    id: &'a str,
    letter: char,
    long: &'a str,
    name: &'a str,
    default: &'a str,
    help: &'a str,
) -> Arg<'a>
    ensures rule { rule_of result ≡ number_rule id.entry.now letter long.entry.now
        default.entry.now }
    ensures local { result.global ≡ false }
{
    Arg::new(alloc, id)
        .short(letter)
        .long(long)
        .value_name(name)
        .value_parser(ValueParser::unsigned(0, 4294967295))
        .default_value(default)
        .help(help)
}

fn three_bytes<'a>(alloc: Global) -> Arg<'a>
    ensures rule { rule_of result ≡ flag_rule (codes "3") 51 (codes "three-bytes") }
    ensures local { result.global ≡ false }
{
    flag(
        alloc,
        "3",
        '3',
        "three-bytes",
        "Three bytes for each sample of 17 to 24 bits",
    )
}

fn buffer<'a>(alloc: Global) -> Arg<'a>
    ensures rule { rule_of result ≡ buffer_rule }
    ensures local { result.global ≡ false }
{
    Arg::new(alloc, "b")
        .short('b')
        .value_name("BYTES")
        .value_parser(ValueParser::unsigned(1, 4294967295))
        .help("Size of a buffer, from 1 on; without effect")
}

fn block_size<'a>(alloc: Global) -> Arg<'a>
    ensures rule { rule_of result ≡ number_rule (codes "j") 106 (codes "block") (codes "8") }
    ensures local { result.global ≡ false }
{
    number(
        alloc,
        "j",
        'j',
        "block",
        "SAMPLES",
        "8",
        "Block size: 8, 16, 32 or 64",
    )
}

fn bits<'a>(alloc: Global) -> Arg<'a>
    ensures rule { rule_of result ≡ number_rule (codes "n") 110 (codes "bits") (codes "8") }
    ensures local { result.global ≡ false }
{
    number(
        alloc,
        "n",
        'n',
        "bits",
        "BITS",
        "8",
        "Bits per sample, 1 to 32",
    )
}

fn interval<'a>(alloc: Global) -> Arg<'a>
    ensures rule { rule_of result ≡ number_rule (codes "r") 114 (codes "interval") (codes "2") }
    ensures local { result.global ≡ false }
{
    number(
        alloc,
        "r",
        'r',
        "interval",
        "BLOCKS",
        "2",
        "Reference interval, 1 to 4096",
    )
}

fn samples<'a>(alloc: Global) -> Arg<'a>
    ensures rule { rule_of result ≡ samples_rule }
    ensures local { result.global ≡ false }
{
    Arg::new(alloc, "samples")
        .long("samples")
        .value_name("N")
        .value_parser(value_parser!(u64))
        .help("Stop after N samples; with -d or --test only")
}

fn place<'a>(alloc: Global, id: &'a str, name: &'a str, help: &'a str) -> Arg<'a>
    ensures rule { rule_of result ≡ name_rule id.entry.now }
    ensures local { result.global ≡ false }
{
    Arg::new(alloc, id)
        .value_name(name)
        .required(true)
        .help(help)
}

fn source<'a>(alloc: Global) -> Arg<'a>
    ensures rule { rule_of result ≡ name_rule (codes "source") }
    ensures local { result.global ≡ false }
{
    place(
        alloc,
        "source",
        "SOURCE",
        "File to read; - is standard input",
    )
}

fn dest<'a>(alloc: Global) -> Arg<'a>
    ensures rule { rule_of result ≡ name_rule (codes "dest") }
    ensures local { result.global ≡ false }
{
    place(alloc, "dest", "DEST", "File to write; - is standard output")
}

/// Returns the command `aec` with its options and its two names.
pub fn command<'a>(alloc: Global) -> Result<Command<'a>, AllocError>
    ensures { IfOk result (λ c. app_of c ≡ aec) }
{
    command_with_one_name(alloc)?.arg(dest(alloc))
}

/// Returns the command `aec` with its options and the only name of a test.
pub fn command_with_one_name<'a>(alloc: Global) -> Result<Command<'a>, AllocError>
    ensures { IfOk result (λ c. app_of c ≡ aec_test) }
{
    let begun = with_options_up_to_j(described(alloc)?, alloc)?;
    let lettered = with_options_from_m(begun, alloc)?;
    with_long_options(lettered, alloc)?.arg(source(alloc))
}

/// Returns the command with its texts, and without arguments.
fn described<'a>(alloc: Global) -> Result<Command<'a>, AllocError>
    ensures { IfOk result (λ c. app_of c ≡ without_arguments) }
{
    Ok(
        Command::new(alloc, "aec")
            .bin_name("aec")?
            .version(VERSION)
            .about(summary())
            .after_help(notes()),
    )
}

/// Adds the options of one letter in alphabetical order, up to `-j`.
fn with_options_up_to_j<'a>(command: Command<'a>, alloc: Global) -> Result<Command<'a>, AllocError>
    ensures { IfOk result (λ c. app_of c ≡ with_rules (app_of command.entry) rules_up_to_j) }
{
    command
        .arg(three_bytes(alloc))?
        .arg(flag(
            alloc,
            "N",
            'N',
            "no-preprocess",
            "No pre or post processing",
        ))?
        .arg(buffer(alloc))?
        .arg(flag(alloc, "d", 'd', "decompress", "Decompress"))?
        .arg(block_size(alloc))
}

/// Adds the options of one letter in alphabetical order, from `-m` on.
fn with_options_from_m<'a>(command: Command<'a>, alloc: Global) -> Result<Command<'a>, AllocError>
    ensures { IfOk result (λ c. app_of c ≡ with_rules (app_of command.entry) rules_from_m) }
{
    command
        .arg(flag(
            alloc,
            "m",
            'm',
            "big-endian",
            "Most significant byte of a sample first",
        ))?
        .arg(bits(alloc))?
        .arg(flag(alloc, "p", 'p', "pad", "Pad each interval to a byte"))?
        .arg(interval(alloc))?
        .arg(flag(alloc, "s", 's', "signed", "Signed samples"))
}

/// Adds the options that have no letter.
fn with_long_options<'a>(command: Command<'a>, alloc: Global) -> Result<Command<'a>, AllocError>
    ensures { IfOk result (λ c. app_of c ≡ with_rules (app_of command.entry) long_rules) }
{
    command
        .arg(samples(alloc))?
        .arg(long_flag(alloc, "test", help_of_test()))?
        .arg(long_flag(alloc, "verbose", help_of_verbose()))
}
