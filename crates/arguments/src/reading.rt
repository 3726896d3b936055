//! Reads the arguments.

ghost use Rattle.std.specs.Prelude.{◌≡◌, ◌<◌, ◌^◌, ◌++◌, ◌≤◌, Some, IfOk, IfErr, IfSome, OnOk, map, option_and_then, string_bytes};
ghost use Rattle.clap.specs.Words.{kind_of, one_of};
ghost use Rattle.arguments.specs.Commands.{command_of, flag_of, gen_of, named, number_in, number_of, run_of, texts, word_of, words_of};
ghost use Rattle.arguments.specs.Commands as ranges;
ghost use Rattle.arguments.specs.Meanings.{AnswersTo, HasBounds, HasGenBounds, IsInBounds, IsRefusal, command_meaning, gen_meaning, matched_in, rows_in, run_meaning};

use crate::clap_command::command_line;
use crate::command::{Command, CommandError, Gen, Run};
use crate::help_texts;
use clap::error::ErrorKind;
use clap::{ArgMatches, Error};
use std::alloc::{AllocError, Global};

/// The command that the arguments spell, of which the first is the program's name. Where there are none at all, they could not be read as text.
pub fn read_command(alloc: Global, args: &[String]) -> Result<Command, CommandError>
    ensures command { IfOk result (λ c. command_of (texts args.now) ≡ Some (command_meaning c)) }
    ensures bounds { IfOk result (λ c. IsInBounds (command_meaning c)) }
    ensures refusal { IfErr result (IsRefusal (command_of (texts args.now))) }
{
    if args.is_empty() {
        let text = String::from_str(alloc, help_texts::NOT_TEXT)?;
        return Err(CommandError::Usage(text));
    }
    match command_line(alloc)?.try_get_matches_from(args) {
        Ok(matches) => read_matches(alloc, &matches),
        Err(error) => without_matches(alloc, &error),
    }
}

// The command that was matched.
fn read_matches(alloc: Global, matches: &ArgMatches) -> Result<Command, CommandError>
    ensures command { IfOk result (λ c. matched_in matches.now ≡ Some (command_meaning c)) }
    ensures bounds { IfOk result (λ c. IsInBounds (command_meaning c)) }
    ensures refusal { IfErr result (IsRefusal (matched_in matches.now)) }
{
    match matches.subcommand() {
        Some((name, matches)) => read_named(alloc, name, matches),
        None => Err(CommandError::Usage(String::new(alloc))),
    }
}

// The command of this name that was matched.
fn read_named(alloc: Global, name: &str, matches: &ArgMatches) -> Result<Command, CommandError>
    ensures command { IfOk result (λ c. named name.now (rows_in matches.now)
        ≡ Some (command_meaning c)) }
    ensures bounds { IfOk result (λ c. IsInBounds (command_meaning c)) }
    ensures refusal { IfErr result (IsRefusal (named name.now (rows_in matches.now))) }
{
    match name {
        "run" => Ok(Command::Run(read_run(alloc, matches)?)),
        "asm" => Ok(Command::Asm {
            file: word(alloc, matches, "FILE")?,
        }),
        "list" => Ok(Command::List {
            file: word(alloc, matches, "FILE")?,
        }),
        "gen" => Ok(Command::Gen(read_gen(alloc, matches)?)),
        _ => Err(CommandError::Usage(String::new(alloc))),
    }
}

// What is asked for or wrong, where there are no matches.
fn without_matches(alloc: Global, error: &Error) -> Result<Command, CommandError>
    ensures { AnswersTo (kind_of error.now) result }
{
    let text = error.to_string(alloc)?;
    match error.kind() {
        ErrorKind::DisplayHelp | ErrorKind::DisplayVersion => Ok(Command::Help(text)),
        ErrorKind::OutOfMemory => Err(CommandError::NoMemory),
        _ => Err(CommandError::Usage(text)),
    }
}

// The run that was matched. clap has tested the bounds of its numbers, but says so of no command's arguments: so they are tested once more.
fn read_run(alloc: Global, matches: &ArgMatches) -> Result<Run, CommandError>
    ensures run { IfOk result (λ r. run_of (rows_in matches.now) ≡ Some (run_meaning r)) }
    ensures bounds { IfOk result (λ r. HasBounds (run_meaning r)) }
    ensures refusal { IfErr result (IsRefusal (run_of (rows_in matches.now))) }
{
    let carriers = number(matches, "carriers", 1, 64);
    let events = number(matches, "events", 1000, 33_554_432);
    let (Some(carriers), Some(events)) = (carriers, events) else {
        return Err(CommandError::Usage(String::new(alloc)));
    };
    Ok(Run {
        carriers,
        events,
        trace: flag(matches, "trace"),
        main: word(alloc, matches, "MAIN")?,
        files: words(alloc, matches, "FILE")?,
    })
}

// The run of the generated program that was matched. Its bounds are tested once more, as those of a run are.
fn read_gen(alloc: Global, matches: &ArgMatches) -> Result<Gen, CommandError>
    ensures run { IfOk result (λ g. gen_of (rows_in matches.now) ≡ Some (gen_meaning g)) }
    ensures bounds { IfOk result (λ g. HasGenBounds (gen_meaning g)) }
    ensures refusal { IfErr result (IsRefusal (gen_of (rows_in matches.now))) }
{
    let carriers = number(matches, "carriers", 1, 64);
    let count = number(matches, "COUNT", 1, 50_000);
    let (Some(carriers), Some(count)) = (carriers, count) else {
        return Err(CommandError::Usage(String::new(alloc)));
    };
    Ok(Gen { carriers, count })
}

// The number of an option, within these bounds.
fn number(matches: &ArgMatches, id: &str, least: u32, most: u32) -> Option<u32>
    ensures value { result ≡ number_of id.now least most (rows_in matches.now) }
    ensures bounds { IfSome result (λ n. (least ≤ n) × (n ≤ most)) }
{
    within(option_number(matches, id)?, least, most)
}

// The number of an option.
fn option_number(matches: &ArgMatches, id: &str) -> Option<u32>
    ensures { result ≡ option_and_then number_in (one_of id.now (rows_in matches.now)) }
{
    matches.get_one::<u32>(id)
}

// The number, if it is within these bounds.
fn within(number: u32, least: u32, most: u32) -> Option<u32>
    ensures value { result ≡ ranges.within least most number }
    ensures bounds { IfSome result (λ n. (least ≤ n) × (n ≤ most)) }
{
    if number < least || most < number {
        return None;
    }
    Some(number)
}

// Whether a flag is up.
fn flag(matches: &ArgMatches, id: &str) -> bool
    ensures { result ≡ flag_of id.now (rows_in matches.now) }
{
    matches.get_one::<bool>(id).unwrap_or(false)
}

// The word of this name.
fn word(alloc: Global, matches: &ArgMatches, id: &str) -> Result<String, AllocError>
    ensures { IfOk result (λ s. string_bytes s ≡ word_of id.now (rows_in matches.now)) }
{
    String::from_str(alloc, matches.get_str(id).unwrap_or(""))
}

// The words of this name.
fn words(alloc: Global, matches: &ArgMatches, id: &str) -> Result<Vec<String>, AllocError>
    ensures { IfOk result (λ v. texts v.items ≡ words_of id.now (rows_in matches.now)) }
{
    copies(alloc, matches.get_strs(id).unwrap_or(&[]))
}

// The texts in memory of their own.
fn copies(alloc: Global, words: &[&str]) -> Result<Vec<String>, AllocError>
    ensures { IfOk result (λ v. texts v.items ≡ map (λ w. w.now) words.now) }
{
    let mut copies = Vec::new(alloc);
    for word in words {
        copies.push(String::from_str(alloc, word)?)?;
    }
    Ok(copies)
}
