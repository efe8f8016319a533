//! The words of a script that is played with a log.
ghost use Rattle.std.specs.Prelude.{◌≡◌, ◌↔◌, false, map, string_bytes, option_map, Some, None, IfOk};
ghost use Rattle.clap.specs.Words.{app_of, rule_of};
ghost use Rattle.clap.specs.declared.builder.command.Command.TheViews.{out-Command as fields_of};
ghost use Rattle.command_words.specs.Logged.{asked_logged, is_marked as is_marked_by, logged_of as logged_list, with_files as with_names, log_rule, logged_play_app, logged_program_app};

use crate::forms::{is_end, is_file};
use crate::matches::{end, matched_by, plain, program_of, value};
use crate::read::WordsFault;
use clap::{Arg, ArgAction, ArgMatches, Command, Error};
use std::alloc::Global;

/// A script that is to be played with a log.
#[derive(Clone, Copy, Debug, PartialEq, Eq)]
pub struct LoggedPlay<'a> {
    /// The campaign's file.
    pub file: &'a str,
    /// The log's file.
    pub log: &'a str,
    /// Whether the campaign is written at the end.
    pub end: bool,
}

fn with_files<'a>(file: &'a str, log: &'a str, end: bool) -> Option<LoggedPlay<'a>>
    ensures { option_map asked_logged result ≡ with_names file.now log.now end }
{
    if is_file(file) && is_file(log) {
        Some(LoggedPlay { file, log, end })
    } else {
        None
    }
}

fn is_marked(command: &str, mark: &str) -> bool
    ensures { result ≡ is_marked_by command.now mark.now }
{
    command == "play" && mark == "--log"
}

// What the words ask for. None exactly where they are not the form.
fn asked(words: &[String]) -> Option<LoggedPlay<'_>>
    ensures { option_map asked_logged result ≡ logged_list (map string_bytes words.now) }
{
    match words {
        [command, file, mark, log] if is_marked(command.as_str(), mark.as_str()) => {
            with_files(file.as_str(), log.as_str(), false)
        }
        [command, file, mark, log, last]
            if is_marked(command.as_str(), mark.as_str()) && is_end(last.as_str()) => {
            with_files(file.as_str(), log.as_str(), true)
        }
        _ => None,
    }
}

pub(crate) fn log<'a>(alloc: Global) -> Arg<'a>
    ensures rule { rule_of result ≡ log_rule }
    ensures local { result.global ≡ false }
{
    Arg::new(alloc, "log")
        .required(true)
        .long("log")
        .action(ArgAction::Set)
}

fn logged_command<'a>(alloc: Global) -> Result<Command<'a>, Error>
    ensures app { IfOk result (λ command. app_of command ≡ logged_play_app) }
    ensures local { IfOk result (λ command. (fields_of command).has_globals ≡ false) }
{
    Ok(
        plain(alloc, "play")
            .arg(value(alloc, "file"))?
            .arg(log(alloc))?
            .arg(end(alloc))?,
    )
}

fn logged_program<'a>(alloc: Global) -> Result<Command<'a>, Error>
    ensures { IfOk result (λ command. app_of command ≡ logged_program_app) }
{
    program_of(alloc, logged_command(alloc)?)
}

fn play_in<'a>(matches: &ArgMatches<'a>) -> Option<LoggedPlay<'a>> {
    Some(LoggedPlay {
        file: matches.get_str("file")?,
        log: matches.get_str("log")?,
        end: matches.get_flag("end"),
    })
}

/// What the words of a script that is played with a log ask for. `Usage` comes exactly where they are not
/// `play FILE --log LOG [--end]`, with `--end` at the end alone.
///
/// As `read_words` does, it tests the words by the definition first, and then `clap` reads them; where that should refuse them or
/// read something else, the answer would be want of memory.
pub fn read_logged_words(alloc: Global, words: &[String]) -> Result<LoggedPlay<'_>, WordsFault>
    ensures play { IfOk result (λ play. logged_list (map string_bytes words.now) ≡ Some (asked_logged play)) }
    ensures usage { (result ≡ Err WordsFault.Usage) ↔ (logged_list (map string_bytes words.now) ≡ None) }
{
    let Some(play) = asked(words) else {
        return Err(WordsFault::Usage);
    };
    match matched_by(logged_program(alloc), words, play_in) {
        Ok(Some(read)) if read == play => Ok(read),
        _ => Err(WordsFault::Memory),
    }
}
