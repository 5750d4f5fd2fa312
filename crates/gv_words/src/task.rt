ghost use Rattle.std.specs.Prelude.{◌≡◌, ◌↔◌, map, Some, None, IfOk, OnOk, true, false};
ghost use Rattle.clap.specs.Words.{app_of, rule_of, rows_of, found_of, subcommand_rows_of};
ghost use Rattle.gv_words.specs.Task.{number_rule, program_app, command_app, is_taken, task_meant, task_named, number_given};

use clap::error::ErrorKind;
use clap::{Arg, ArgMatches, Command, value_parser};
use std::alloc::{AllocError, Global};
use std::error::Error;
use std::fmt;

/// What the program is to do.
#[derive(Clone, Copy, Debug, PartialEq, Eq)]
pub enum Task {
    /// `run`: a script is read from the source.
    Run,
    /// `gen N`: the script is made from a number.
    Gen(u32),
}

/// Why words give no task: want of memory, or they aren't a command.
#[derive(Clone, Copy, Debug, PartialEq, Eq)]
pub enum WordsRefused {
    OutOfMemory,
    BadWords,
}

impl fmt::Display for WordsRefused {
    fn fmt<W: fmt::Write>(&self, f: &mut fmt::Formatter<W>) -> fmt::Result {
        match self {
            WordsRefused::OutOfMemory => write!(f, "out of memory"),
            WordsRefused::BadWords => write!(f, "the words are no command"),
        }
    }
}

impl Error for WordsRefused {}

/// The task that the program's arguments name, without its own name. A request for help or for the
/// version is no task.
pub fn task_of<'a>(alloc: Global, words: &'a [&'a str]) -> Result<Task, WordsRefused>
    ensures task { IfOk result (λ task. task_meant (map (λ word. word.now) words.now) ≡ Some task) }
    ensures taken { OnOk result (is_taken (map (λ word. word.now) words.now) ≡ true) }
    ensures bad { result ≡ Err WordsRefused.BadWords → is_taken (map (λ word. word.now) words.now) ≡ false }
{
    let Ok(command) = command(alloc) else {
        return Err(WordsRefused::OutOfMemory);
    };
    match command.try_get_matches_from(words) {
        Ok(matches) => named(&matches).ok_or(WordsRefused::BadWords),
        Err(error) => Err(refused(error.kind())),
    }
}

fn refused(kind: ErrorKind) -> WordsRefused
    ensures { (result ≡ WordsRefused.OutOfMemory) ↔ (kind ≡ ErrorKind.OutOfMemory) }
{
    match kind {
        ErrorKind::OutOfMemory => WordsRefused::OutOfMemory,
        _ => WordsRefused::BadWords,
    }
}

// The command, as clap sees it: two subcommands, of which one has a number, and no options.
fn command<'a>(alloc: Global) -> Result<Command<'a>, AllocError>
    ensures { IfOk result (λ command. app_of command ≡ command_app) }
{
    let run = Command::new(alloc, "run");
    let generate = Command::new(alloc, "gen").arg(number(alloc))?;
    program(alloc).subcommand(run)?.subcommand(generate)
}

fn number<'a>(alloc: Global) -> Arg<'a>
    ensures rule { rule_of result ≡ number_rule }
    ensures own { result.global ≡ false }
{
    Arg::new(alloc, "number")
        .required(true)
        .value_parser(value_parser!(u32))
}

fn program<'a>(alloc: Global) -> Command<'a>
    ensures { app_of result ≡ program_app }
{
    Command::new(alloc, "gvtbox")
        .no_binary_name(true)
        .disable_help_flag(true)
        .disable_help_subcommand(true)
        .subcommand_required(true)
}

// The task that the subcommand of a parse names.
fn named(matches: &ArgMatches<'_>) -> Option<Task>
    ensures { result ≡ task_named (subcommand_rows_of matches.now) }
{
    let (name, arguments) = matches.subcommand()?;
    by_name(name, arguments)
}

fn by_name(name: &str, arguments: &ArgMatches<'_>) -> Option<Task>
    ensures { result ≡ task_named (Some (name.now, rows_of (found_of arguments.now))) }
{
    if name == "run" {
        Some(Task::Run)
    } else if name == "gen" {
        Some(Task::Gen(number_in(arguments)?))
    } else {
        None
    }
}

fn number_in(arguments: &ArgMatches<'_>) -> Option<u32>
    ensures { result ≡ number_given (rows_of (found_of arguments.now)) }
{
    arguments.get_one("number")
}
