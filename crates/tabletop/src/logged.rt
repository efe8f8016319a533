//! `play FILE --log LOG [--end]`: a script is played on the campaign of the file, and a log keeps what it came to.
ghost use Rattle.std.specs.Prelude.{◌≡◌, ◌≢◌, ◌≤◌, ◌<◌, ◌^◌, ◌⊎◌, ◌↔◌, ◌++◌, ◌∷◌, [], ℕ, List, Some, None, length, map, string_bytes, IfOk, IfErr, IsErrOf};
ghost use Rattle.line_io.specs.Counts.{CountRose};
ghost use Rattle.line_io.specs.Told.{WhereTold};
ghost use Rattle.campaign_writing.specs.Canonical.{canonical};
ghost use Rattle.campaign_law.specs.declared.entry.Entry.{Entry as EntryValue};
ghost use Rattle.campaign_law.specs.World.{World, replay};
ghost use Rattle.campaign_law.specs.Worlds.{opened_of};
ghost use Rattle.campaign_law.specs.Law.{IsOpening, world_of};
ghost use Rattle.campaign_core.specs.Opening.{world_of_text};
ghost use Rattle.crash_log.specs.Log.{HoldsLog, IsBadAt, IsDisks, open_part};
ghost use Rattle.script_play.specs.Script.{done};
ghost use Rattle.script_play.specs.Played.{GoesOn, HasEntered, HasRead, HasWritten, entries_since};
ghost use Rattle.log_play.specs.Logged.{as_played};
ghost use Rattle.log_play.specs.Kept.{HasNoRoom, Keeps};
ghost use Rattle.command_words.specs.Logged.{logged_of};
ghost use Rattle.tabletop.specs.Logged.{FileLogs, FollowsLogged, HasEndedLogged, HasNoLog, IsAskedFor, IsFound, IsOtherLog, JobLogs, PlayedTo, TextLogs, behind_leaves, resumed, start_of};

use crate::endings::Ended;
use crate::files::fetch;
use crate::log_end::{LogEnded, ended_logged, log_status, not_opened, print_log_line};
use crate::log_start::{enter_again, leaves_due, open_log};
use crate::playing::print_end;
use campaign_core::Campaign;
use command_words::{LoggedPlay, WordsFault, read_logged_words};
use crash_log::{Disk, Journal};
use line_io::{Desk, Sink, Source};
use log_play::{Logged, log_all, play_logged};
use names::LineText;
use sight_sweep::SweepEye;
use std::alloc::Global;
use topology::Eye;

/// Does `play FILE --log LOG [--end]` and gives the program's status. FILE is fetched and read as for `play`, and then LOG is opened.
/// A log of length 0 is made with FILE's text. Any other is recovered: its text has to be FILE's, its entries are entered again, and
/// each seat that isn't Free leaves, in ascending order. Then the script is played as `play` does, each entry behind the log before
/// its lines go out, and with `--end` the campaign is written.
///
/// Whatever a crash leaves, at any moment from where the log was made or recovered on, is a log of FILE's text: its entries are those
/// that it had, then the first of the Leaves and of the script's entries. When the call returns it has every entry of whose lines a
/// byte was written. Where an outside object doesn't tell its bytes, the clauses on them say nothing.
pub fn tabletop_logged<D: Desk, S: Source, O: Sink, K: Disk>(
    alloc: Global,
    words: &[String],
    desk: &mut D,
    script: &mut S,
    out: &mut O,
    disk: &mut K,
) -> u8
    ensures ends { HasEndedLogged K.seen K.may_leave K.moment K.left_since K.tells result (logged_of (map string_bytes words.now))
        (D.text_of desk.old) (S.left script.old) (S.left script.new) (O.written out.old) (O.written out.new) disk.old disk.new
        (CountRose (D.faults_of desk.old) (D.faults_of desk.new)) (CountRose (O.faults_of out.old) (O.faults_of out.new)) }
    ensures usage { (result ≡ 2) ↔ (logged_of (map string_bytes words.now) ≡ None) }
    ensures read_fault { result ≡ 4
        → CountRose (D.faults_of desk.old) (D.faults_of desk.new) ⊎ CountRose (S.faults_of script.old) (S.faults_of script.new) }
    ensures write_fault { result ≡ 5 → CountRose (O.faults_of out.old) (O.faults_of out.new) }
    ensures disk_fault { result ≡ 10 → CountRose (K.faults_of disk.old) (K.faults_of disk.new) }

    // No fault: a bad log and a log of another campaign are told as that, unless memory ran out.
    ensures bad_log { (campaign : List ℕ) (origin : World) (place : ℕ)
        → IsAskedFor (logged_of (map string_bytes words.now)) (D.text_of desk.old) campaign origin
        → K.tells → K.seen disk.old ≢ [] → IsBadAt (K.seen disk.old) place
        → ¬ CountRose (D.faults_of desk.old) (D.faults_of desk.new) → ¬ CountRose (K.faults_of disk.old) (K.faults_of disk.new)
        → (result ≡ 11) ⊎ (result ≡ 6) }
    ensures other_log { (campaign : List ℕ) (origin : World)
        → IsAskedFor (logged_of (map string_bytes words.now)) (D.text_of desk.old) campaign origin
        → K.tells → IsOtherLog campaign (K.seen disk.old)
        → ¬ CountRose (D.faults_of desk.old) (D.faults_of desk.new) → ¬ CountRose (K.faults_of disk.old) (K.faults_of disk.new)
        → (result ≡ 12) ⊎ (result ≡ 6) }

    // A log that is empty or the campaign's, a script that is read, and room for all of it: the job is done, unless memory ran out.
    ensures played { (campaign all : List ℕ) (origin : World) (kept : List EntryValue)
        → IsAskedFor (logged_of (map string_bytes words.now)) (D.text_of desk.old) campaign origin
        → K.tells → IsFound campaign kept (K.seen disk.old)
        → S.left script.old ≡ Some all → (resumed (replay origin kept) all).ending ≡ done
        → length (open_part campaign (kept ++ (resumed (replay origin kept) all).entries)) < 2 ^ 30
        → ¬ CountRose (D.faults_of desk.old) (D.faults_of desk.new) → ¬ CountRose (S.faults_of script.old) (S.faults_of script.new)
        → ¬ CountRose (O.faults_of out.old) (O.faults_of out.new) → ¬ CountRose (K.faults_of disk.old) (K.faults_of disk.new)
        → (result ≡ 0) ⊎ (result ≡ 6) }
{
    let ended = logged_job(alloc, words, desk, script, out, disk);
    log_status(&print_log_line(alloc, ended, out))
}

// All but the last line.
fn logged_job<D: Desk, S: Source, O: Sink, K: Disk>(
    alloc: Global,
    words: &[String],
    desk: &mut D,
    script: &mut S,
    out: &mut O,
    disk: &mut K,
) -> LogEnded
    ensures ends { JobLogs K.seen K.may_leave K.moment K.left_since K.tells (CountRose (D.faults_of desk.old) (D.faults_of desk.new)) result
        (logged_of (map string_bytes words.now)) (D.text_of desk.old) (S.left script.old) (S.left script.new)
        (O.written out.old) (O.written out.new) disk.old disk.new }
    ensures read_fault { result ≡ LogEnded.Plain Ended.ReadFault
        → CountRose (D.faults_of desk.old) (D.faults_of desk.new) ⊎ CountRose (S.faults_of script.old) (S.faults_of script.new) }
    ensures write_fault { result ≡ LogEnded.Plain Ended.WriteFault → CountRose (O.faults_of out.old) (O.faults_of out.new) }
    ensures disk_fault { result ≡ LogEnded.DiskFault → CountRose (K.faults_of disk.old) (K.faults_of disk.new) }
    ensures out_count { O.faults_of out.old ≤ O.faults_of out.new }
{
    match read_logged_words(alloc, words) {
        Ok(LoggedPlay { file, log, end }) => {
            play_file_logged(alloc, file, log, end, desk, script, out, disk)
        }
        Err(WordsFault::Usage) => LogEnded::Usage,
        Err(WordsFault::Memory) => LogEnded::Plain(Ended::Memory),
    }
}

// On the campaign of this file, with this log.
fn play_file_logged<D: Desk, S: Source, O: Sink, K: Disk>(
    alloc: Global,
    file: &str,
    log: &str,
    end: bool,
    desk: &mut D,
    script: &mut S,
    out: &mut O,
    disk: &mut K,
) -> LogEnded
    ensures ends { FileLogs K.seen K.may_leave K.moment K.left_since K.tells (CountRose (D.faults_of desk.old) (D.faults_of desk.new))
        end result (D.text_of desk.old file.now) (S.left script.old) (S.left script.new)
        (O.written out.old) (O.written out.new) disk.old disk.new }
    ensures read_fault { result ≡ LogEnded.Plain Ended.ReadFault
        → CountRose (D.faults_of desk.old) (D.faults_of desk.new) ⊎ CountRose (S.faults_of script.old) (S.faults_of script.new) }
    ensures write_fault { result ≡ LogEnded.Plain Ended.WriteFault → CountRose (O.faults_of out.old) (O.faults_of out.new) }
    ensures disk_fault { result ≡ LogEnded.DiskFault → CountRose (K.faults_of disk.old) (K.faults_of disk.new) }
    ensures out_count { O.faults_of out.old ≤ O.faults_of out.new }
{
    match fetch(desk, file) {
        Ok(text) => play_text_logged(alloc, log, end, &text, script, out, disk),
        Err(ended) => LogEnded::Plain(ended),
    }
}

// On the campaign of this text.
fn play_text_logged<S: Source, O: Sink, K: Disk>(
    alloc: Global,
    log: &str,
    end: bool,
    text: &LineText,
    script: &mut S,
    out: &mut O,
    disk: &mut K,
) -> LogEnded
    requires short { length text.now ≤ 16777216 }
    ensures ends { TextLogs K.seen K.may_leave K.moment K.left_since K.tells end result text.now
        (S.left script.old) (S.left script.new) (O.written out.old) (O.written out.new) disk.old disk.new }
    ensures read_fault { result ≡ LogEnded.Plain Ended.ReadFault → CountRose (S.faults_of script.old) (S.faults_of script.new) }
    ensures write_fault { result ≡ LogEnded.Plain Ended.WriteFault → CountRose (O.faults_of out.old) (O.faults_of out.new) }
    ensures disk_fault { result ≡ LogEnded.DiskFault → CountRose (K.faults_of disk.old) (K.faults_of disk.new) }
    ensures out_count { O.faults_of out.old ≤ O.faults_of out.new }
{
    match Campaign::open(alloc, text.bytes(), SweepEye::new(alloc)) {
        Ok(mut campaign) => {
            let ended = play_with_log(alloc, &mut campaign, log, end, text, script, out, disk);
            // In a call, so that its steps aren't this function's.
            drop(campaign);
            ended
        }
        Err(fault) => not_opened(fault),
    }
}

// On the campaign, which the text has opened.
fn play_with_log<S: Source, O: Sink, E: Eye + Drop, K: Disk>(
    alloc: Global,
    campaign: &mut Campaign<E>,
    log: &str,
    end: bool,
    text: &LineText,
    script: &mut S,
    out: &mut O,
    disk: &mut K,
) -> LogEnded
    requires world { world_of_text text.now ≡ Some campaign.old.origin }
    requires opening { IsOpening campaign.old.origin }
    requires none { campaign.old.history ≡ [] }
    requires short { length text.now ≤ 16777216 }
    ensures ends { TextLogs K.seen K.may_leave K.moment K.left_since K.tells end result text.now
        (S.left script.old) (S.left script.new) (O.written out.old) (O.written out.new) disk.old disk.new }
    ensures read_fault { result ≡ LogEnded.Plain Ended.ReadFault → CountRose (S.faults_of script.old) (S.faults_of script.new) }
    ensures write_fault { result ≡ LogEnded.Plain Ended.WriteFault → CountRose (O.faults_of out.old) (O.faults_of out.new) }
    ensures disk_fault { result ≡ LogEnded.DiskFault → CountRose (K.faults_of disk.old) (K.faults_of disk.new) }
    ensures out_count { O.faults_of out.old ≤ O.faults_of out.new }
{
    match play_from_log(alloc, campaign, log, text, script, out, disk) {
        Ok(logged) => after_logged(alloc, logged, end, campaign, out),
        Err(ended) => ended,
    }
}

// The script, behind the entries of the log.
fn play_from_log<S: Source, O: Sink, E: Eye + Drop, K: Disk>(
    alloc: Global,
    campaign: &mut Campaign<E>,
    log: &str,
    text: &LineText,
    script: &mut S,
    out: &mut O,
    disk: &mut K,
) -> Result<Logged, LogEnded>
    requires opening { IsOpening campaign.old.origin }
    requires none { campaign.old.history ≡ [] }
    requires short { length text.now ≤ 16777216 }
    ensures plays { IfOk result (λ answer. PlayedTo K.seen K.may_leave K.moment K.left_since K.tells answer text.now
        (S.left script.old) (S.left script.new) (O.written out.old) (O.written out.new) disk.old disk.new campaign.old campaign.new) }
    ensures no_log { IfErr result (λ ended. HasNoLog K.tells ended text.now (K.seen disk.old)) }
    ensures unwritten { IfErr result (λ ended. O.written out.new ≡ O.written out.old) }
    ensures no_disk { IsErrOf result LogEnded.DiskFault → CountRose (K.faults_of disk.old) (K.faults_of disk.new) }
    ensures disk_fault { IfOk result (λ answer. answer ≡ Logged.DiskFault → CountRose (K.faults_of disk.old) (K.faults_of disk.new)) }
    ensures read_fault { IfOk result (λ answer. answer ≡ Logged.ReadFault → CountRose (S.faults_of script.old) (S.faults_of script.new)) }
    ensures write_fault { IfOk result (λ answer. answer ≡ Logged.WriteFault → CountRose (O.faults_of out.old) (O.faults_of out.new)) }
    ensures out_count { O.faults_of out.old ≤ O.faults_of out.new }
{
    match open_log(alloc, log, text, disk) {
        Ok((entries, mut journal)) => match enter_again(campaign, entries) {
            Ok(()) => Ok(play_on(alloc, campaign, disk, &mut journal, script, out)),
            Err(_) => Ok(Logged::Memory),
        },
        Err(ended) => Err(ended),
    }
}

// Who was there leaves, and then the script is played.
fn play_on<S: Source, O: Sink, E: Eye + Drop, K: Disk>(
    alloc: Global,
    campaign: &mut Campaign<E>,
    disk: &mut K,
    journal: &mut Journal,
    script: &mut S,
    out: &mut O,
) -> Logged
    requires opening { IsOpening campaign.old.origin }
    requires journal { K.tells → IsDisks K.seen K.may_leave disk.old journal.old }
    ensures campaign { GoesOn campaign.old campaign.new }
    ensures entered { WhereTold (S.left script.old) (S.left script.new)
        (λ all rest. HasEntered (as_played result) (resumed (world_of campaign.old) all) (entries_since campaign.old campaign.new)) }
    ensures read { WhereTold (S.left script.old) (S.left script.new)
        (λ all rest. HasRead (as_played result) (start_of (world_of campaign.old))
        (behind_leaves (world_of campaign.old) (entries_since campaign.old campaign.new)) all rest) }
    ensures written { HasWritten (as_played result) (world_of campaign.old) (entries_since campaign.old campaign.new)
        (O.written out.old) (O.written out.new) }
    ensures log { K.tells → (text : List ℕ) (before : List EntryValue) → HoldsLog K.seen K.may_leave disk.old journal.old text before
        → WhereTold (S.left script.old) (S.left script.new)
        (λ all rest. Keeps K.seen K.may_leave K.moment K.left_since result text before (entries_since campaign.old campaign.new)
        (resumed (world_of campaign.old) all).entries disk.old disk.new journal.new) }
    ensures full { result ≡ Logged.Full → WhereTold (S.left script.old) (S.left script.new)
        (λ all rest. HasNoRoom journal.new (entries_since campaign.old campaign.new) (resumed (world_of campaign.old) all).entries) }
    ensures disk_count { K.faults_of disk.old ≤ K.faults_of disk.new }
    ensures disk_fault { result ≡ Logged.DiskFault → CountRose (K.faults_of disk.old) (K.faults_of disk.new) }
    ensures read_fault { result ≡ Logged.ReadFault → CountRose (S.faults_of script.old) (S.faults_of script.new) }
    ensures write_fault { result ≡ Logged.WriteFault → CountRose (O.faults_of out.old) (O.faults_of out.new) }
    ensures out_count { O.faults_of out.old ≤ O.faults_of out.new }
{
    let Ok(due) = leaves_due(alloc, campaign) else {
        return Logged::Memory;
    };
    match log_all(alloc, campaign, disk, journal, due) {
        Ok(()) => play_logged(alloc, campaign, disk, journal, script, out),
        Err(stop) => stop,
    }
}

// How the script ended the run. Where the campaign is to be written at the end, a script that was played to its end does that.
fn after_logged<E: Eye, O: Sink>(
    alloc: Global,
    logged: Logged,
    end: bool,
    campaign: &Campaign<E>,
    out: &mut O,
) -> LogEnded
    ensures follows { FollowsLogged logged end result (canonical (opened_of (world_of campaign.now)) ++ 10 ∷ [])
        (O.written out.old) (O.written out.new) }
    ensures disk_fault { result ≡ LogEnded.DiskFault → logged ≡ Logged.DiskFault }
    ensures read_fault { result ≡ LogEnded.Plain Ended.ReadFault → logged ≡ Logged.ReadFault }
    ensures write_fault { result ≡ LogEnded.Plain Ended.WriteFault
        → (logged ≡ Logged.WriteFault) ⊎ CountRose (O.faults_of out.old) (O.faults_of out.new) }
    ensures out_count { O.faults_of out.old ≤ O.faults_of out.new }
{
    match logged {
        Logged::Done if end => LogEnded::Plain(print_end(alloc, campaign, out)),
        _ => ended_logged(logged),
    }
}
