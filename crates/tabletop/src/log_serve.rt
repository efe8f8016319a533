//! `serve FILE PORT COUNT --log LOG [--end]`: connections are served on the campaign of the file, and a log keeps what it came to.
ghost use Rattle.std.specs.Prelude.{◌≡◌, ◌≤◌, ◌⊎◌, ◌↔◌, ◌++◌, [], ℕ, List, Some, None, length, map, string_bytes, OnOk};
ghost use Rattle.std.specs.Io.KnownBytes.{append_known};
ghost use Rattle.line_io.specs.Counts.{CountRose};
ghost use Rattle.campaign_law.specs.World.{replay};
ghost use Rattle.campaign_law.specs.Law.{IsOpening};
ghost use Rattle.campaign_core.specs.Opening.{world_of_text};
ghost use Rattle.crash_log.specs.Log.{HoldsLog};
ghost use Rattle.script_play.specs.Sending.{WroteFront};
ghost use Rattle.command_words.specs.LoggedServe.{asked_service, logged_serve_of};
ghost use Rattle.tabletop.specs.LogEndings.{IsToldInLog, log_status as log_status_lem};
ghost use Rattle.tabletop.specs.Logged.{leaves};
ghost use Rattle.tabletop.specs.ServesLogged.{FileServesLogged, HasEndedServingLogged, HasEvening, JobServesLogged, TextServesLogged, evening_line, served_as as served_as_lem};

use crate::endings::Ended;
use crate::files::fetch;
use crate::last_line::print;
use crate::log_end::{LogEnded, log_status, not_opened, print_log_line};
use crate::log_start::{enter_again, leaves_due, open_log};
use campaign_core::Campaign;
use campaign_law::Entry;
use command_words::{LoggedServe, WordsFault, read_logged_serve_words};
use crash_log::{Disk, Journal};
use evening_log::LoggedSink;
use line_io::{Desk, Door, Sink, Spawner, Work};
use log_serving::{LogServed, serve_logged};
use names::{LineText, Memory};
use serving::{SessionSource, Sitting};
use session::Table;
use sight_sweep::SweepEye;
use std::alloc::Global;
use std::sync::Wait;
use std::thread::Threads;

const USAGE: &str = "tabletop: usage: serve FILE PORT COUNT --log LOG [--end]\n";

/// Does `serve FILE PORT COUNT --log LOG [--end]` and gives the program's status, the door and the disk. FILE is fetched and read as
/// for `serve`, and then LOG is opened as `play FILE --log LOG` opens it: made where it is empty, else recovered, its entries entered
/// again and each seat that isn't Free left, in ascending order. Then connections are served as `serve` does, with a keeper of the log
/// beside the hall, and with `--end` the campaign is written at the end, as the log has it.
///
/// Whatever a crash leaves, at any moment from where the log was made or recovered on, is a log of FILE's text: its entries are a front
/// of the one history, and have each that it had then. A session's output takes no byte that tells of an entry before that entry is in
/// the log; so when the call returns a crash leaves each entry of whose lines a byte was taken. Where an outside object doesn't tell its
/// bytes, the clauses on them say nothing.
pub fn tabletop_serve_logged<
    R: Threads + Wait + Sync + Clone + Drop,
    D: Desk,
    O: Sink,
    L: Door,
    K: Disk + Drop,
    P: Spawner<Sitting<R, L::In, LoggedSink<L::Out, Table, K>>>,
>(
    rt: &R,
    alloc: Global,
    words: &[String],
    desk: &mut D,
    out: &mut O,
    door: L,
    disk: K,
    spawner: &mut P,
) -> (u8, L, K)
where
    L::In: SessionSource<LoggedSink<L::Out, Table, K>> + Drop,
    L::Out: Drop,
    P::Task: Drop,
    requires fit { P.fit spawner.old }
    ensures ends { HasEndedServingLogged ⟦<Sitting<R, L::In, LoggedSink<L::Out, Table, K>> as Work>⟧.done
        (λ output. L.Out.written output.inner) K.tells K.seen K.may_leave K.moment K.left_since result.0 (logged_serve_of (map string_bytes words.now)) (D.text_of desk.old)
        (O.written out.old) (O.written out.new) disk result.2
        (CountRose (D.faults_of desk.old) (D.faults_of desk.new)) (CountRose (O.faults_of out.old) (O.faults_of out.new)) }
    ensures usage { (result.0 ≡ 2) ↔ (logged_serve_of (map string_bytes words.now) ≡ None) }
    ensures read_fault { result.0 ≡ 4 → CountRose (D.faults_of desk.old) (D.faults_of desk.new) }
    ensures write_fault { result.0 ≡ 5 → CountRose (O.faults_of out.old) (O.faults_of out.new) }
{
    let (ended, door, disk) = job(rt, alloc, words, desk, out, door, disk, spawner);
    (
        log_status(&print_evening_line(alloc, ended, out)),
        door,
        disk,
    )
}

// Prints the last line. Where no memory is left for a line of its own, the run ends so.
fn print_evening_line<O: Sink>(alloc: Global, ended: LogEnded, out: &mut O) -> LogEnded
    ensures ended { IsToldInLog ended result }
    ensures line { (O.written out.new ≡ append_known (O.written out.old) (evening_line result))
        ⊎ (CountRose (O.faults_of out.old) (O.faults_of out.new)
        × WroteFront (O.written out.old) (evening_line result) (O.written out.new)) }
    ensures count { O.faults_of out.old ≤ O.faults_of out.new }
{
    match ended {
        LogEnded::Usage => {
            print(USAGE.as_bytes(), out);
            LogEnded::Usage
        }
        _ => print_log_line(alloc, ended, out),
    }
}

// All but the last line.
fn job<
    R: Threads + Wait + Sync + Clone + Drop,
    D: Desk,
    O: Sink,
    L: Door,
    K: Disk + Drop,
    P: Spawner<Sitting<R, L::In, LoggedSink<L::Out, Table, K>>>,
>(
    rt: &R,
    alloc: Global,
    words: &[String],
    desk: &mut D,
    out: &mut O,
    door: L,
    disk: K,
    spawner: &mut P,
) -> (LogEnded, L, K)
where
    L::In: SessionSource<LoggedSink<L::Out, Table, K>> + Drop,
    L::Out: Drop,
    P::Task: Drop,
    requires fit { P.fit spawner.old }
    ensures ends { JobServesLogged ⟦<Sitting<R, L::In, LoggedSink<L::Out, Table, K>> as Work>⟧.done
        (λ output. L.Out.written output.inner) K.tells K.seen K.may_leave K.moment K.left_since
        (CountRose (D.faults_of desk.old) (D.faults_of desk.new)) result.0
        (logged_serve_of (map string_bytes words.now)) (D.text_of desk.old) (O.written out.old) (O.written out.new) disk result.2 }
    ensures read_fault { result.0 ≡ LogEnded.Plain Ended.ReadFault → CountRose (D.faults_of desk.old) (D.faults_of desk.new) }
    ensures write_fault { result.0 ≡ LogEnded.Plain Ended.WriteFault → CountRose (O.faults_of out.old) (O.faults_of out.new) }
    ensures usage { log_status_lem result.0 ≡ 2 → logged_serve_of (map string_bytes words.now) ≡ None }
    ensures out_count { O.faults_of out.old ≤ O.faults_of out.new }
{
    match read_logged_serve_words(alloc, words) {
        Ok(asked) => serve_file(rt, alloc, &asked, desk, out, door, disk, spawner),
        Err(WordsFault::Usage) => (LogEnded::Usage, door, disk),
        Err(WordsFault::Memory) => (LogEnded::Plain(Ended::Memory), door, disk),
    }
}

// On the campaign of the file.
fn serve_file<
    R: Threads + Wait + Sync + Clone + Drop,
    D: Desk,
    O: Sink,
    L: Door,
    K: Disk + Drop,
    P: Spawner<Sitting<R, L::In, LoggedSink<L::Out, Table, K>>>,
>(
    rt: &R,
    alloc: Global,
    asked: &LoggedServe,
    desk: &mut D,
    out: &mut O,
    door: L,
    disk: K,
    spawner: &mut P,
) -> (LogEnded, L, K)
where
    L::In: SessionSource<LoggedSink<L::Out, Table, K>> + Drop,
    L::Out: Drop,
    P::Task: Drop,
    requires count { (1 ≤ asked.now.count) × (asked.now.count ≤ 1024) }
    requires fit { P.fit spawner.old }
    ensures ends { FileServesLogged ⟦<Sitting<R, L::In, LoggedSink<L::Out, Table, K>> as Work>⟧.done (λ output. L.Out.written output.inner)
        K.tells K.seen K.may_leave K.moment K.left_since (CountRose (D.faults_of desk.old) (D.faults_of desk.new)) result.0
        (asked_service asked.now) (D.text_of desk.old asked.now.file.now) (O.written out.old) (O.written out.new) disk result.2 }
    ensures read_fault { result.0 ≡ LogEnded.Plain Ended.ReadFault → CountRose (D.faults_of desk.old) (D.faults_of desk.new) }
    ensures write_fault { result.0 ≡ LogEnded.Plain Ended.WriteFault → CountRose (O.faults_of out.old) (O.faults_of out.new) }
    ensures no_usage { log_status_lem result.0 ≡ 2 → ⊥ }
    ensures out_count { O.faults_of out.old ≤ O.faults_of out.new }
{
    match fetch(desk, asked.file) {
        Ok(text) => serve_text(rt, alloc, asked, text, out, door, disk, spawner),
        Err(ended) => (LogEnded::Plain(ended), door, disk),
    }
}

// On the campaign of this text.
fn serve_text<
    R: Threads + Wait + Sync + Clone + Drop,
    O: Sink,
    L: Door,
    K: Disk + Drop,
    P: Spawner<Sitting<R, L::In, LoggedSink<L::Out, Table, K>>>,
>(
    rt: &R,
    alloc: Global,
    asked: &LoggedServe,
    text: LineText,
    out: &mut O,
    door: L,
    disk: K,
    spawner: &mut P,
) -> (LogEnded, L, K)
where
    L::In: SessionSource<LoggedSink<L::Out, Table, K>> + Drop,
    L::Out: Drop,
    P::Task: Drop,
    requires short { length text ≤ 16777216 }
    requires count { (1 ≤ asked.now.count) × (asked.now.count ≤ 1024) }
    requires fit { P.fit spawner.old }
    ensures ends { TextServesLogged ⟦<Sitting<R, L::In, LoggedSink<L::Out, Table, K>> as Work>⟧.done (λ output. L.Out.written output.inner)
        K.tells K.seen K.may_leave K.moment K.left_since result.0 (asked_service asked.now) text
        (O.written out.old) (O.written out.new) disk result.2 }
    ensures write_fault { result.0 ≡ LogEnded.Plain Ended.WriteFault → CountRose (O.faults_of out.old) (O.faults_of out.new) }
    ensures no_read_fault { result.0 ≡ LogEnded.Plain Ended.ReadFault → ⊥ }
    ensures no_usage { log_status_lem result.0 ≡ 2 → ⊥ }
    ensures out_count { O.faults_of out.old ≤ O.faults_of out.new }
{
    match Campaign::open(alloc, text.bytes(), SweepEye::new(alloc)) {
        Ok(campaign) => serve_campaign(rt, alloc, asked, campaign, text, out, door, disk, spawner),
        Err(fault) => (not_opened(fault), door, disk),
    }
}

// On the campaign, which the text has opened.
fn serve_campaign<
    R: Threads + Wait + Sync + Clone + Drop,
    O: Sink,
    L: Door,
    K: Disk + Drop,
    P: Spawner<Sitting<R, L::In, LoggedSink<L::Out, Table, K>>>,
>(
    rt: &R,
    alloc: Global,
    asked: &LoggedServe,
    campaign: Table,
    text: LineText,
    out: &mut O,
    door: L,
    mut disk: K,
    spawner: &mut P,
) -> (LogEnded, L, K)
where
    L::In: SessionSource<LoggedSink<L::Out, Table, K>> + Drop,
    L::Out: Drop,
    P::Task: Drop,
    requires world { world_of_text text ≡ Some campaign.origin }
    requires opening { IsOpening campaign.origin }
    requires none { campaign.history ≡ [] }
    requires short { length text ≤ 16777216 }
    requires count { (1 ≤ asked.now.count) × (asked.now.count ≤ 1024) }
    requires fit { P.fit spawner.old }
    ensures ends { TextServesLogged ⟦<Sitting<R, L::In, LoggedSink<L::Out, Table, K>> as Work>⟧.done (λ output. L.Out.written output.inner)
        K.tells K.seen K.may_leave K.moment K.left_since result.0 (asked_service asked.now) text
        (O.written out.old) (O.written out.new) disk result.2 }
    ensures write_fault { result.0 ≡ LogEnded.Plain Ended.WriteFault → CountRose (O.faults_of out.old) (O.faults_of out.new) }
    ensures no_read_fault { result.0 ≡ LogEnded.Plain Ended.ReadFault → ⊥ }
    ensures no_usage { log_status_lem result.0 ≡ 2 → ⊥ }
    ensures out_count { O.faults_of out.old ≤ O.faults_of out.new }
{
    match open_log(alloc, asked.log, &text, &mut disk) {
        Ok((entries, journal)) => serve_from_log(
            rt, alloc, asked, campaign, entries, journal, text, out, door, disk, spawner,
        ),
        Err(ended) => {
            // In a call, so that its steps aren't this function's.
            drop(campaign);
            (ended, door, disk)
        }
    }
}

// Behind the entries of the log, which are entered again, and the Leaves of who was there.
fn serve_from_log<
    R: Threads + Wait + Sync + Clone + Drop,
    O: Sink,
    L: Door,
    K: Disk + Drop,
    P: Spawner<Sitting<R, L::In, LoggedSink<L::Out, Table, K>>>,
>(
    rt: &R,
    alloc: Global,
    asked: &LoggedServe,
    mut campaign: Table,
    entries: Vec<Entry>,
    journal: Journal,
    text: LineText,
    out: &mut O,
    door: L,
    disk: K,
    spawner: &mut P,
) -> (LogEnded, L, K)
where
    L::In: SessionSource<LoggedSink<L::Out, Table, K>> + Drop,
    L::Out: Drop,
    P::Task: Drop,
    requires opening { IsOpening campaign.origin }
    requires none { campaign.history ≡ [] }
    requires holds { K.tells → HoldsLog K.seen K.may_leave disk journal text entries.items }
    requires count { (1 ≤ asked.now.count) × (asked.now.count ≤ 1024) }
    requires fit { P.fit spawner.old }
    ensures evening { HasEvening ⟦<Sitting<R, L::In, LoggedSink<L::Out, Table, K>> as Work>⟧.done (λ output. L.Out.written output.inner)
        K.tells K.may_leave K.left_since result.0 (asked_service asked.now) text campaign.origin entries.items
        (O.written out.old) (O.written out.new) (K.moment disk) result.2 }
    ensures write_fault { result.0 ≡ LogEnded.Plain Ended.WriteFault → CountRose (O.faults_of out.old) (O.faults_of out.new) }
    ensures no_read_fault { result.0 ≡ LogEnded.Plain Ended.ReadFault → ⊥ }
    ensures no_usage { log_status_lem result.0 ≡ 2 → ⊥ }
    ensures out_count { O.faults_of out.old ≤ O.faults_of out.new }
{
    let recovered = entries.len() as u64;
    match enter_all(alloc, &mut campaign, entries) {
        Ok(()) => {
            let (served, door, disk) = serve_logged(
                rt,
                alloc,
                campaign,
                recovered,
                text,
                disk,
                journal,
                asked.port,
                asked.count,
                asked.end,
                out,
                door,
                spawner,
            );
            (served_as(served), door, disk)
        }
        Err(Memory) => {
            // In a call, so that its steps aren't this function's.
            drop(campaign);
            (LogEnded::Plain(Ended::Memory), door, disk)
        }
    }
}

// Enters the entries of the log again, and behind them the Leaves of who was there.
fn enter_all(alloc: Global, campaign: &mut Table, entries: Vec<Entry>) -> Result<(), Memory>
    requires none { campaign.old.history ≡ [] }
    ensures origin { campaign.new.origin ≡ campaign.old.origin }
    ensures entered { OnOk result (campaign.new.history ≡ entries.items ++ leaves (replay campaign.old.origin entries.items)) }
{
    enter_again(campaign, entries)?;
    let due = leaves_due(alloc, campaign)?;
    enter_again(campaign, due)
}

// As what an evening ends the run.
fn served_as(served: LogServed) -> LogEnded
    ensures { result ≡ served_as_lem served }
{
    match served {
        LogServed::Done => LogEnded::Plain(Ended::Done),
        LogServed::WriteFault => LogEnded::Plain(Ended::WriteFault),
        LogServed::DoorFault => LogEnded::Plain(Ended::DoorFault),
        LogServed::Memory => LogEnded::Plain(Ended::Memory),
        LogServed::DiskFault => LogEnded::DiskFault,
        LogServed::Full => LogEnded::Full,
    }
}
