//! What `clap` makes of the words: one level of commands, without help and version.
ghost use Rattle.std.specs.Prelude.{◌≡◌, false, IfOk};
ghost use Rattle.clap.specs.Words.{app_of, rule_of, with_subcommand};
ghost use Rattle.clap.specs.declared.builder.command.Command.TheViews.{out-Command as fields_of};
ghost use Rattle.command_words.specs.Program.{value_rule, end_rule, plain_app, play_app, check_app, drill_app, served_app, serve_app, verify_app, histories_app, compare_app, top_app, program_app};

use crate::forms::{Job, check, compare, drill, play, serve, verify};
use clap::{Arg, ArgAction, ArgMatches, Command, Error};
use std::alloc::Global;

pub(crate) fn value<'a>(alloc: Global, name: &'a str) -> Arg<'a>
    ensures rule { rule_of result ≡ value_rule name.now }
    ensures local { result.global ≡ false }
{
    Arg::new(alloc, name).required(true).action(ArgAction::Set)
}

pub(crate) fn end<'a>(alloc: Global) -> Arg<'a>
    ensures rule { rule_of result ≡ end_rule }
    ensures local { result.global ≡ false }
{
    Arg::new(alloc, "end")
        .long("end")
        .action(ArgAction::SetTrue)
}

pub(crate) fn plain<'a>(alloc: Global, name: &'a str) -> Command<'a>
    ensures app { app_of result ≡ plain_app name.now }
    ensures local { (fields_of result).has_globals ≡ false }
{
    Command::new(alloc, name)
        .disable_help_flag(true)
        .disable_help_subcommand(true)
        .disable_version_flag(true)
}

fn play_command<'a>(alloc: Global) -> Result<Command<'a>, Error>
    ensures app { IfOk result (λ command. app_of command ≡ play_app) }
    ensures local { IfOk result (λ command. (fields_of command).has_globals ≡ false) }
{
    Ok(
        plain(alloc, "play")
            .arg(value(alloc, "file"))?
            .arg(end(alloc))?,
    )
}

fn check_command<'a>(alloc: Global) -> Result<Command<'a>, Error>
    ensures app { IfOk result (λ command. app_of command ≡ check_app) }
    ensures local { IfOk result (λ command. (fields_of command).has_globals ≡ false) }
{
    Ok(plain(alloc, "check").arg(value(alloc, "file"))?)
}

fn drill_command<'a>(alloc: Global) -> Result<Command<'a>, Error>
    ensures app { IfOk result (λ command. app_of command ≡ drill_app) }
    ensures local { IfOk result (λ command. (fields_of command).has_globals ≡ false) }
{
    Ok(
        plain(alloc, "drill")
            .arg(value(alloc, "number"))?
            .arg(value(alloc, "lines"))?,
    )
}

// `serve` with its values.
pub(crate) fn served<'a>(alloc: Global) -> Result<Command<'a>, Error>
    ensures app { IfOk result (λ command. app_of command ≡ served_app) }
    ensures local { IfOk result (λ command. (fields_of command).has_globals ≡ false) }
{
    Ok(
        plain(alloc, "serve")
            .arg(value(alloc, "file"))?
            .arg(value(alloc, "port"))?
            .arg(value(alloc, "count"))?,
    )
}

fn serve_command<'a>(alloc: Global) -> Result<Command<'a>, Error>
    ensures app { IfOk result (λ command. app_of command ≡ serve_app) }
    ensures local { IfOk result (λ command. (fields_of command).has_globals ≡ false) }
{
    Ok(served(alloc)?.arg(end(alloc))?)
}

fn verify_command<'a>(alloc: Global) -> Result<Command<'a>, Error>
    ensures app { IfOk result (λ command. app_of command ≡ verify_app) }
    ensures local { IfOk result (λ command. (fields_of command).has_globals ≡ false) }
{
    Ok(
        plain(alloc, "verify")
            .arg(value(alloc, "file"))?
            .arg(value(alloc, "script"))?
            .arg(value(alloc, "seat"))?
            .arg(value(alloc, "transcript"))?,
    )
}

// `compare` with its files.
fn histories<'a>(alloc: Global) -> Result<Command<'a>, Error>
    ensures app { IfOk result (λ command. app_of command ≡ histories_app) }
    ensures local { IfOk result (λ command. (fields_of command).has_globals ≡ false) }
{
    Ok(
        plain(alloc, "compare")
            .arg(value(alloc, "file"))?
            .arg(value(alloc, "script"))?
            .arg(value(alloc, "file2"))?
            .arg(value(alloc, "script2"))?,
    )
}

fn compare_command<'a>(alloc: Global) -> Result<Command<'a>, Error>
    ensures app { IfOk result (λ command. app_of command ≡ compare_app) }
    ensures local { IfOk result (λ command. (fields_of command).has_globals ≡ false) }
{
    Ok(histories(alloc)?.arg(value(alloc, "seat"))?)
}

// The program without its commands.
fn top<'a>(alloc: Global) -> Command<'a>
    ensures { app_of result ≡ top_app }
{
    plain(alloc, "tabletop")
        .no_binary_name(true)
        .subcommand_required(true)
}

fn program<'a>(alloc: Global) -> Result<Command<'a>, Error>
    ensures { IfOk result (λ command. app_of command ≡ program_app) }
{
    Ok(
        top(alloc)
            .subcommand(play_command(alloc)?)?
            .subcommand(check_command(alloc)?)?
            .subcommand(drill_command(alloc)?)?
            .subcommand(serve_command(alloc)?)?
            .subcommand(verify_command(alloc)?)?
            .subcommand(compare_command(alloc)?)?,
    )
}

/// The program with this command alone.
pub(crate) fn program_of<'a>(alloc: Global, command: Command<'a>) -> Result<Command<'a>, Error>
    requires local { (fields_of command).has_globals ≡ false }
    ensures { IfOk result (λ program. app_of program ≡ with_subcommand top_app (app_of command.entry).top) }
{
    Ok(top(alloc).subcommand(command)?)
}

/// What is to be served.
pub(crate) fn serve_in<'a>(matches: &ArgMatches<'a>) -> Option<Job<'a>> {
    serve(
        matches.get_str("file")?,
        matches.get_str("port")?,
        matches.get_str("count")?,
        matches.get_flag("end"),
    )
}

fn job_in<'a>(command: &str, matches: &ArgMatches<'a>) -> Option<Job<'a>> {
    match command {
        "play" => play(matches.get_str("file")?, matches.get_flag("end")),
        "check" => check(matches.get_str("file")?),
        "drill" => drill(matches.get_str("number")?, matches.get_str("lines")?),
        "serve" => serve_in(matches),
        "verify" => verify(
            matches.get_str("file")?,
            matches.get_str("script")?,
            matches.get_str("seat")?,
            matches.get_str("transcript")?,
        ),
        "compare" => compare(
            matches.get_str("file")?,
            matches.get_str("script")?,
            matches.get_str("file2")?,
            matches.get_str("script2")?,
            matches.get_str("seat")?,
        ),
        _ => None,
    }
}

/// What the program of one command reads, if `clap` takes the words.
pub(crate) fn matched_by<'a, T, F: Fn(&ArgMatches<'a>) -> Option<T>>(
    program: Result<Command<'a>, Error>,
    words: &'a [String],
    read: F,
) -> Result<Option<T>, Error>
    requires { F.IsAlwaysCallable read }
{
    let matches = program?.try_get_matches_from(words)?;
    match matches.subcommand() {
        Some((_, matches)) => Ok(read(matches)),
        None => Ok(None),
    }
}

/// The job that `clap` reads, if it takes the words and their values are in their ranges.
pub(crate) fn matched<'a>(alloc: Global, words: &'a [String]) -> Result<Option<Job<'a>>, Error> {
    let matches = program(alloc)?.try_get_matches_from(words)?;
    match matches.subcommand() {
        Some((command, matches)) => Ok(job_in(command, matches)),
        None => Ok(None),
    }
}
