//! Reading the words of a command line.
ghost use Rattle.std.specs.Prelude.{◌≡◌, Some, None, MatchResult, IfOk, IfSome, option_map, option_and_then};
ghost use Rattle.clap.specs.Words.{subcommand_rows_of};
ghost use Rattle.mp_words.specs.Limits.{IsWithinLimits};
ghost use Rattle.mp_words.specs.Words.{asked_in, asked_of, command_in};

use crate::command::command;
use crate::options::{Command, Schedule};
use crate::refused::WordsRefused;
use crate::values::{
    audit_command, check_command, demo_command, make_command, replay_command, run_command,
};
use clap::ArgMatches;
use std::alloc::Global;

/// What the words ask for, of which the first is the name of the program.
///
/// `Usage` comes exactly where the words aren't in the command set, and `NoMemory` only for an allocation failure, which may
/// come in place of any answer.
pub fn parse<'a>(alloc: Global, words: &'a [String]) -> Result<Command<'a>, WordsRefused>
    ensures asked { MatchResult result (λ command. command_in words.now ≡ Some (asked_in command))
        (λ why. why ≡ WordsRefused.Usage → command_in words.now ≡ None) }
    ensures within { IfOk result IsWithinLimits }
{
    let Ok(program) = command(alloc) else {
        return Err(WordsRefused::NoMemory);
    };
    match program.try_get_matches_from(words) {
        Ok(matches) => command_found(&matches).ok_or(WordsRefused::Usage),
        Err(error) => Err(WordsRefused::from(error)),
    }
}

/// What the subcommand that was used asks for.
fn command_found<'a>(matches: &ArgMatches<'a>) -> Option<Command<'a>>
    ensures asked { option_map asked_in result ≡ option_and_then asked_of (subcommand_rows_of matches.now) }
    ensures within { IfSome result IsWithinLimits }
{
    let Some((name, options)) = matches.subcommand() else {
        return None;
    };
    match name {
        "run" => run_command(options, Schedule::Threads),
        "replay" => replay_command(options),
        "check" => check_command(options),
        "make" => make_command(options),
        "demo" => demo_command(options),
        "audit" => audit_command(options),
        _ => None,
    }
}
