//! The command line as clap reads it: what `specs/CommandLine.antt` says, with the help.

ghost use Rattle.std.specs.Prelude.{◌≡◌, IfOk, false};
ghost use Rattle.clap.specs.Words.{app_of, rule_of};
ghost use Rattle.arguments.specs.CommandLine.{asm_app, carriers_rule, count_rule, events_rule, file_rule, files_rule, gen_app, list_app, main_rule, program_app, run_app, trace_rule, IsReadAs, command_line as the_command_line};

use crate::help_texts;
use clap::{Arg, ArgAction, Command, value_parser};
use std::alloc::{AllocError, Global};

/// The command line of the program.
pub fn command_line<'a>(alloc: Global) -> Result<Command<'a>, AllocError>
    ensures { IfOk result (λ c. app_of c ≡ the_command_line) }
{
    let run = run_command(alloc)?;
    let asm = asm_command(alloc)?;
    let list = list_command(alloc)?;
    let generated = gen_command(alloc)?;
    program(alloc)
        .subcommand(run)?
        .subcommand(asm)?
        .subcommand(list)?
        .subcommand(generated)
}

// The program's name and version, without its commands.
fn program<'a>(alloc: Global) -> Command<'a>
    ensures { app_of result ≡ program_app }
{
    Command::new(alloc, "jvt")
        .about(help_texts::ABOUT)
        .after_help(help_texts::AFTER_HELP)
        .version("0.1.0")
        .subcommand_required(true)
        .disable_help_subcommand(true)
}

// The command `run`.
fn run_command<'a>(alloc: Global) -> Result<Command<'a>, AllocError>
    ensures { IfOk result (λ c. IsReadAs c run_app) }
{
    Command::new(alloc, "run")
        .about(help_texts::RUN_ABOUT)
        .after_long_help(help_texts::AFTER_RUN)
        .arg(carriers(alloc))?
        .arg(events(alloc))?
        .arg(trace(alloc))?
        .arg(main_class(alloc))?
        .arg(files(alloc))
}

// The command `asm`.
fn asm_command<'a>(alloc: Global) -> Result<Command<'a>, AllocError>
    ensures { IfOk result (λ c. IsReadAs c asm_app) }
{
    Command::new(alloc, "asm")
        .about(help_texts::ASM_ABOUT)
        .long_about(help_texts::ASM_LONG_ABOUT)
        .after_long_help(help_texts::AFTER_ASM)
        .arg(file(alloc, help_texts::TEXT_FILE))
}

// The command `list`.
fn list_command<'a>(alloc: Global) -> Result<Command<'a>, AllocError>
    ensures { IfOk result (λ c. IsReadAs c list_app) }
{
    Command::new(alloc, "list")
        .about(help_texts::LIST_ABOUT)
        .long_about(help_texts::LIST_LONG_ABOUT)
        .after_long_help(help_texts::AFTER_LIST)
        .arg(file(alloc, help_texts::CLASS_FILE))
}

// The command `gen`.
fn gen_command<'a>(alloc: Global) -> Result<Command<'a>, AllocError>
    ensures { IfOk result (λ c. IsReadAs c gen_app) }
{
    Command::new(alloc, "gen")
        .about(help_texts::GEN_ABOUT)
        .long_about(help_texts::GEN_LONG_ABOUT)
        .after_long_help(help_texts::AFTER_GEN)
        .arg(carriers(alloc))?
        .arg(count(alloc))
}

fn carriers<'a>(alloc: Global) -> Arg<'a>
    ensures rule { rule_of result ≡ carriers_rule }
    ensures local { result.global ≡ false }
{
    Arg::new(alloc, "carriers")
        .long("carriers")
        .value_name("N")
        .value_parser(value_parser!(u32).range(1..=64))
        .default_value("4")
        .help(help_texts::CARRIERS)
        .long_help(help_texts::CARRIERS_LONG)
}

fn events<'a>(alloc: Global) -> Arg<'a>
    ensures rule { rule_of result ≡ events_rule }
    ensures local { result.global ≡ false }
{
    Arg::new(alloc, "events")
        .long("events")
        .value_name("N")
        .value_parser(value_parser!(u32).range(1000..=33_554_432))
        .default_value("4194304")
        .help(help_texts::EVENTS)
        .long_help(help_texts::EVENTS_LONG)
}

fn trace<'a>(alloc: Global) -> Arg<'a>
    ensures rule { rule_of result ≡ trace_rule }
    ensures local { result.global ≡ false }
{
    Arg::new(alloc, "trace")
        .long("trace")
        .action(ArgAction::SetTrue)
        .help(help_texts::TRACE)
        .long_help(help_texts::TRACE_LONG)
}

fn main_class<'a>(alloc: Global) -> Arg<'a>
    ensures rule { rule_of result ≡ main_rule }
    ensures local { result.global ≡ false }
{
    Arg::new(alloc, "MAIN")
        .required(true)
        .help(help_texts::MAIN)
}

fn files<'a>(alloc: Global) -> Arg<'a>
    ensures rule { rule_of result ≡ files_rule }
    ensures local { result.global ≡ false }
{
    Arg::new(alloc, "FILE")
        .required(true)
        .num_args(1..)
        .help(help_texts::FILES)
        .long_help(help_texts::FILES_LONG)
}

fn file<'a>(alloc: Global, help: &'a str) -> Arg<'a>
    ensures rule { rule_of result ≡ file_rule }
    ensures local { result.global ≡ false }
{
    Arg::new(alloc, "FILE").required(true).help(help)
}

fn count<'a>(alloc: Global) -> Arg<'a>
    ensures rule { rule_of result ≡ count_rule }
    ensures local { result.global ≡ false }
{
    Arg::new(alloc, "COUNT")
        .required(true)
        .value_parser(value_parser!(u32).range(1..=50_000))
        .help(help_texts::COUNT)
}
