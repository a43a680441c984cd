//! The command set, as clap is told it: by tables, so that one loop adds all options and one all commands.
ghost use Rattle.std.specs.Prelude.{◌≡◌, IfOk, false};
ghost use Rattle.clap.specs.Words.{app_of, rule_of};
ghost use Rattle.mp_words.specs.Command.{bare, command_app, valued};
ghost use Rattle.mp_words.specs.Tables.{Denotes, rule_in, shape_with, with_all};

use OptionRule::{Defaulted, Flag, Needed, Valued};
use clap::{Arg, ArgAction, Command};
use std::alloc::{AllocError, Global};

/// What a command says of an option `--name`.
enum OptionRule {
    /// It takes one value.
    Valued(&'static str),
    /// It takes one, and has to be there.
    Needed(&'static str),
    /// It says the second text where it isn't there.
    Defaulted(&'static str, &'static str),
    /// It takes no value.
    Flag(&'static str),
}

/// A command's name and its options.
struct CommandRule {
    name: &'static str,
    options: &'static [OptionRule],
}

const RUN: [OptionRule; 14] = [
    Needed("query"),
    Valued("pipe"),
    Needed("events"),
    Needed("config"),
    Needed("out"),
    Valued("report"),
    Valued("journal"),
    Valued("until"),
    Valued("save"),
    Valued("from"),
    Flag("paced"),
    Defaulted("workers", "1"),
    Defaulted("bins", "16"),
    Defaulted("depth", "64"),
];

const REPLAY: [OptionRule; 15] = [
    Needed("query"),
    Valued("pipe"),
    Needed("events"),
    Needed("config"),
    Needed("out"),
    Valued("report"),
    Valued("journal"),
    Valued("until"),
    Valued("save"),
    Valued("from"),
    Flag("paced"),
    Defaulted("workers", "1"),
    Defaulted("bins", "16"),
    Defaulted("depth", "64"),
    Valued("seed"),
];

const CHECK: [OptionRule; 6] = [
    Needed("query"),
    Valued("pipe"),
    Needed("events"),
    Needed("config"),
    Defaulted("workers", "1"),
    Defaulted("bins", "16"),
];

const MAKE: [OptionRule; 3] = [Needed("count"), Needed("out"), Valued("seed")];

const DEMO: [OptionRule; 6] = [
    Needed("query"),
    Needed("count"),
    Valued("seed"),
    Defaulted("workers", "1"),
    Defaulted("bins", "16"),
    Defaulted("depth", "64"),
];

const AUDIT: [OptionRule; 10] = [
    Needed("query"),
    Valued("pipe"),
    Needed("events"),
    Needed("config"),
    Needed("out"),
    Needed("journal"),
    Flag("paced"),
    Defaulted("workers", "1"),
    Defaulted("bins", "16"),
    Defaulted("depth", "64"),
];

const COMMANDS: [CommandRule; 6] = [
    CommandRule {
        name: "run",
        options: &RUN,
    },
    CommandRule {
        name: "replay",
        options: &REPLAY,
    },
    CommandRule {
        name: "check",
        options: &CHECK,
    },
    CommandRule {
        name: "make",
        options: &MAKE,
    },
    CommandRule {
        name: "demo",
        options: &DEMO,
    },
    CommandRule {
        name: "audit",
        options: &AUDIT,
    },
];

/// The program with its six subcommands. `--help`, `--version` and `help` are unknown words. `AllocError`: no memory.
pub fn command<'a>(alloc: Global) -> Result<Command<'a>, AllocError>
    ensures { IfOk result (λ c. app_of c ≡ command_app) }
{
    let program = Command::new(alloc, "megaphone")
        .disable_help_flag(true)
        .disable_version_flag(true)
        .disable_help_subcommand(true)
        .subcommand_required(true);
    with_commands(alloc, program, &COMMANDS)
}

/// The program with these subcommands.
fn with_commands<'a>(
    alloc: Global,
    program: Command<'a>,
    commands: &'static [CommandRule],
) -> Result<Command<'a>, AllocError>
    ensures { IfOk result (λ c. app_of c ≡ with_all (app_of program.entry) commands.now) }
{
    let mut program = program;
    for rule in commands {
        program = program.subcommand(with_options(alloc, rule.name, rule.options)?)?;
    }
    Ok(program)
}

/// A command of this name with these options.
fn with_options<'a>(
    alloc: Global,
    name: &'static str,
    options: &'static [OptionRule],
) -> Result<Command<'a>, AllocError>
    ensures { IfOk result (Denotes (shape_with name.entry.now options.now)) }
{
    let mut command = Command::new(alloc, name);
    for option in options {
        command = command.arg(arg_of(alloc, option))?;
    }
    Ok(command)
}

/// The option of a rule.
fn arg_of<'a>(alloc: Global, option: &OptionRule) -> Arg<'a>
    ensures rule { rule_of result ≡ rule_in option.now }
    ensures local { result.global ≡ false }
{
    match *option {
        Valued(name) => with_value(alloc, name),
        Needed(name) => with_value(alloc, name).required(true),
        Defaulted(name, value) => with_value(alloc, name).default_value(value),
        Flag(name) => Arg::new(alloc, name).long(name).action(ArgAction::SetTrue),
    }
}

/// The option `--name`, which takes one value.
fn with_value<'a>(alloc: Global, name: &'static str) -> Arg<'a>
    ensures rule { rule_of result ≡ valued name.entry.now }
    ensures local { result.global ≡ false }
{
    Arg::new(alloc, name).long(name).action(ArgAction::Set)
}
