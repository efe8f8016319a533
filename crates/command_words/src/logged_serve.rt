//! The words of a campaign that is served with a log.
ghost use Rattle.std.specs.Prelude.{◌≡◌, ◌↔◌, false, map, string_bytes, option_map, Some, None, IfOk};
ghost use Rattle.clap.specs.Words.{app_of};
ghost use Rattle.clap.specs.declared.builder.command.Command.TheViews.{out-Command as fields_of};
ghost use Rattle.command_words.specs.Words.{asked as asked_job};
ghost use Rattle.command_words.specs.LoggedServe.{asked_service, ending as ending_of, is_marked as is_marked_by, logged_serve_of, with_log as with_log_text, logged_serve_app, logged_serve_program_app};

use crate::forms::{Job, is_end, is_file, serve};
use crate::logged::log;
use crate::matches::{end, matched_by, program_of, serve_in, served};
use crate::read::WordsFault;
use clap::{ArgMatches, Command, Error};
use std::alloc::Global;

/// A campaign that is to be served with a log.
#[derive(Clone, Copy, Debug, PartialEq, Eq)]
pub struct LoggedServe<'a> {
    /// The campaign's file.
    pub file: &'a str,
    /// The port at which connections are taken.
    pub port: u16,
    /// How many connections are served.
    pub count: u32,
    /// The log's file.
    pub log: &'a str,
    /// Whether the campaign is written at the end.
    pub end: bool,
}

// What is served, with this log.
fn with_log<'a>(log: &'a str, job: Option<Job<'a>>) -> Option<LoggedServe<'a>>
    ensures { option_map asked_service result ≡ with_log_text log.now (option_map asked_job job.entry) }
{
    match job {
        Some(
            Job::Serve {
                file,
                port,
                count,
                end,
            },
        ) if is_file(log) => Some(LoggedServe {
            file,
            port,
            count,
            log,
            end,
        }),
        _ => None,
    }
}

fn is_marked(command: &str, mark: &str) -> bool
    ensures { result ≡ is_marked_by command.now mark.now }
{
    command == "serve" && mark == "--log"
}

// Nothing, or `--end`.
fn ending(words: &[String]) -> Option<bool>
    ensures { result ≡ ending_of (map string_bytes words.now) }
{
    match words {
        [] => Some(false),
        [word] if is_end(word.as_str()) => Some(true),
        _ => None,
    }
}

// What the words ask for. None exactly where they are not the form.
fn asked(words: &[String]) -> Option<LoggedServe<'_>>
    ensures { option_map asked_service result ≡ logged_serve_of (map string_bytes words.now) }
{
    let [command, file, port, count, mark, log, last @ ..] = words else {
        return None;
    };
    if !is_marked(command.as_str(), mark.as_str()) {
        return None;
    }
    let end = ending(last)?;
    let job = serve(file.as_str(), port.as_str(), count.as_str(), end);
    with_log(log.as_str(), job)
}

fn logged_serve_command<'a>(alloc: Global) -> Result<Command<'a>, Error>
    ensures app { IfOk result (λ command. app_of command ≡ logged_serve_app) }
    ensures local { IfOk result (λ command. (fields_of command).has_globals ≡ false) }
{
    Ok(served(alloc)?.arg(log(alloc))?.arg(end(alloc))?)
}

fn logged_serve_program<'a>(alloc: Global) -> Result<Command<'a>, Error>
    ensures { IfOk result (λ command. app_of command ≡ logged_serve_program_app) }
{
    program_of(alloc, logged_serve_command(alloc)?)
}

fn logged_serve_in<'a>(matches: &ArgMatches<'a>) -> Option<LoggedServe<'a>> {
    with_log(matches.get_str("log")?, serve_in(matches))
}

/// What the words of a campaign that is served with a log ask for. `Usage` comes exactly where they are not
/// `serve FILE PORT COUNT --log LOG [--end]`, with PORT and COUNT as `serve` without a log takes them and `--end` at the end alone.
///
/// As `read_words` does, it tests the words by the definition first, and then `clap` reads them; where that should refuse them or
/// read something else, the answer would be want of memory.
pub fn read_logged_serve_words(
    alloc: Global,
    words: &[String],
) -> Result<LoggedServe<'_>, WordsFault>
    ensures service { IfOk result (λ service. logged_serve_of (map string_bytes words.now) ≡ Some (asked_service service)) }
    ensures usage { (result ≡ Err WordsFault.Usage) ↔ (logged_serve_of (map string_bytes words.now) ≡ None) }
{
    let Some(service) = asked(words) else {
        return Err(WordsFault::Usage);
    };
    match matched_by(logged_serve_program(alloc), words, logged_serve_in) {
        Ok(Some(read)) if read == service => Ok(read),
        _ => Err(WordsFault::Memory),
    }
}
