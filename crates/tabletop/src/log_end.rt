//! How a run with a log ends, and its last line.
ghost use Rattle.std.specs.Prelude.{◌≡◌, ◌≤◌, ◌⊎◌, string_bytes, IfOk};
ghost use Rattle.std.specs.Io.KnownBytes.{append_known};
ghost use Rattle.line_io.specs.Counts.{CountRose};
ghost use Rattle.script_play.specs.Sending.{WroteFront};
ghost use Rattle.tabletop.specs.LogEndings.{IsFixedLogLine, IsToldInLog, ended_logged as ended_logged_lem, log_line, log_status as log_status_lem, unopened};

use crate::endings::{Ended, fixed_line, status_of};
use crate::last_line::{print, print_last_line};
use campaign_core::OpenFault;
use line_io::Sink;
use log_play::Logged;
use names::Memory;
use std::alloc::Global;

/// How a run with a log ends.
#[derive(Drop)]
pub enum LogEnded {
    /// As a run without a log may.
    Plain(Ended),
    /// The words aren't those of the call: `play FILE --log LOG [--end]`, or `serve FILE PORT COUNT --log LOG [--end]`.
    Usage,
    /// The disk failed, and counted it.
    DiskFault,
    /// The file is no log; it breaks the format at this place, in bytes from 0.
    BadLog(u64),
    /// The log is that of another campaign's text.
    OtherCampaign,
    /// The log can't take the next entry.
    Full,
}

/// The program's status.
pub(crate) fn log_status(ended: &LogEnded) -> u8
    ensures { result ≡ log_status_lem ended.now }
{
    match ended {
        LogEnded::Plain(ended) => status_of(ended),
        LogEnded::Usage => 2,
        LogEnded::DiskFault => 10,
        LogEnded::BadLog(_) => 11,
        LogEnded::OtherCampaign => 12,
        LogEnded::Full => 13,
    }
}

/// How a script that was played and logged ends the run.
pub(crate) fn ended_logged(logged: Logged) -> LogEnded
    ensures { result ≡ ended_logged_lem logged }
{
    match logged {
        Logged::Done => LogEnded::Plain(Ended::Done),
        Logged::ReadFault => LogEnded::Plain(Ended::ReadFault),
        Logged::WriteFault => LogEnded::Plain(Ended::WriteFault),
        Logged::BadLine(number) => LogEnded::Plain(Ended::BadLine(number)),
        Logged::TooLarge => LogEnded::Plain(Ended::TooLarge),
        Logged::DiskFault => LogEnded::DiskFault,
        Logged::Full => LogEnded::Full,
        Logged::Memory => LogEnded::Plain(Ended::Memory),
    }
}

/// As what a text ends the run that opens no campaign.
pub(crate) fn not_opened(fault: OpenFault) -> LogEnded
    ensures { result ≡ unopened fault }
{
    match fault {
        OpenFault::Bad(breach) => LogEnded::Plain(Ended::BadCampaign(breach)),
        OpenFault::Memory => LogEnded::Plain(Ended::Memory),
    }
}

/// Prints the last line. Where no memory is left for a line of its own, the run ends so.
pub(crate) fn print_log_line<O: Sink>(alloc: Global, ended: LogEnded, out: &mut O) -> LogEnded
    ensures ended { IsToldInLog ended result }
    ensures line { (O.written out.new ≡ append_known (O.written out.old) (log_line result))
        ⊎ (CountRose (O.faults_of out.old) (O.faults_of out.new) × WroteFront (O.written out.old) (log_line result) (O.written out.new)) }
    ensures count { O.faults_of out.old ≤ O.faults_of out.new }
{
    match ended {
        LogEnded::Plain(ended) => LogEnded::Plain(print_last_line(alloc, ended, out)),
        LogEnded::BadLog(at) => print_bad_log(alloc, at, out),
        _ => {
            print(fixed_log_line(&ended).as_bytes(), out);
            ended
        }
    }
}

// The last line, where it is the log's own and the same in each run.
fn fixed_log_line(ended: &LogEnded) -> &'static str
    ensures { IsFixedLogLine ended.now result.now }
{
    match ended {
        LogEnded::Usage => "tabletop: usage: play FILE --log LOG [--end]\n",
        LogEnded::DiskFault => "tabletop: disk fault\n",
        LogEnded::OtherCampaign => "tabletop: log of another campaign\n",
        LogEnded::Full => "tabletop: log full\n",
        LogEnded::Plain(_) | LogEnded::BadLog(_) => "",
    }
}

// The place of a bad log, or that there was no memory for it.
fn print_bad_log<O: Sink>(alloc: Global, at: u64, out: &mut O) -> LogEnded
    ensures ended { IsToldInLog (LogEnded.BadLog at) result }
    ensures line { (O.written out.new ≡ append_known (O.written out.old) (log_line result))
        ⊎ (CountRose (O.faults_of out.old) (O.faults_of out.new) × WroteFront (O.written out.old) (log_line result) (O.written out.new)) }
    ensures count { O.faults_of out.old ≤ O.faults_of out.new }
{
    match bad_log_line(alloc, at) {
        Ok(line) => {
            print(line.as_bytes(), out);
            LogEnded::BadLog(at)
        }
        Err(_) => {
            print(fixed_line(&Ended::Memory).as_bytes(), out);
            LogEnded::Plain(Ended::Memory)
        }
    }
}

fn bad_log_line(alloc: Global, at: u64) -> Result<String, Memory>
    ensures { IfOk result (λ line. string_bytes line ≡ log_line (LogEnded.BadLog at)) }
{
    match format!(in alloc; "tabletop: bad log at {at}\n") {
        Ok(line) => Ok(line),
        Err(_) => Err(Memory),
    }
}
