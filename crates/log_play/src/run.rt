//! A script played and logged line by line.
ghost use Rattle.std.specs.Prelude.{◌≡◌, ◌≤◌, ◌++◌, ◌∷◌, [], false, ℕ, List, length, IfErr, OnOk};
ghost use Rattle.line_io.specs.Counts.{CountRose};
ghost use Rattle.line_io.specs.Told.{WhereTold};
ghost use Rattle.campaign_law.specs.declared.entry.Entry.{Entry};
ghost use Rattle.campaign_law.specs.Law.{IsOpening, IsSentAsMachine, world_of};
ghost use Rattle.crash_log.specs.Disk.{LeavesOnly};
ghost use Rattle.crash_log.specs.Log.{HoldsLog, IsDisks};
ghost use Rattle.script_play.specs.Script.{NothingWaits, script_from, script_of};
ghost use Rattle.script_play.specs.Played.{GoesOn, HasEntered, HasRead, HasWritten, Writes, LeavesNothing, IsLineStop, entries_since};
ghost use Rattle.log_play.specs.Kept.{HasFront, HasNoRoom, Keeps, KeepsLog};
ghost use Rattle.log_play.specs.Logged.{as_played, logged, UnlessDiskFault};

use crate::entering::enter_with_takens;
use crate::logged::Logged;
use campaign_core::Campaign;
use crash_log::{Disk, Journal};
use line_io::{LineReader, NextLine, Sink, Source};
use names::LineText;
use script_play::{LINE_BYTES, LINE_LIMIT, entry_of_line};
use std::alloc::Global;
use topology::Eye;

/// Plays a script as `play` does, and keeps each entry in the log before its lines go out: an entry is prepared, put behind the
/// log, and then committed. After a `DiskFault`, `Full` or want of memory within that the entry isn't in the history. Where an
/// outside object doesn't tell its bytes, the clauses on them say nothing.
pub fn play_logged<S: Source, O: Sink, E: Eye + Drop, K: Disk>(
    alloc: Global,
    campaign: &mut Campaign<E>,
    disk: &mut K,
    journal: &mut Journal,
    script: &mut S,
    out: &mut O,
) -> Logged
    requires quiet { NothingWaits (world_of campaign.old) }
    requires journal { K.tells → IsDisks K.seen K.may_leave disk.old journal.old }

    ensures campaign { GoesOn campaign.old campaign.new }
    ensures entered { WhereTold (S.left script.old) (S.left script.new)
        (λ text rest. HasEntered (as_played result) (script_of (world_of campaign.old) text) (entries_since campaign.old campaign.new)) }
    ensures read { WhereTold (S.left script.old) (S.left script.new)
        (λ text rest. HasRead (as_played result) (world_of campaign.old) (entries_since campaign.old campaign.new) text rest) }
    ensures waits { LeavesNothing (as_played result) (world_of campaign.new) }

    // What a player is sent is what its machine prints; so are its lines in the bytes that were written.
    ensures sent { (p : ℕ) → IsSentAsMachine campaign.new.origin campaign.new.history p }
    ensures written { Writes (as_played result) campaign.old campaign.new (O.written out.old) (O.written out.new) }

    // A crash at any moment of the call leaves a log with the entries from before, and then the first of the script's.
    ensures any_moment { K.tells → (text : List ℕ) (before : List Entry) → HoldsLog K.seen K.may_leave disk.old journal.old text before
        → WhereTold (S.left script.old) (S.left script.new)
        (λ all rest. LeavesOnly K.moment K.left_since disk.old disk.new
        (HasFront text before [] (script_of (world_of campaign.old) all).entries)) }

    // When it returns, a crash leaves one that has every entry of the history, of which alone lines went out.
    ensures kept { K.tells → (text : List ℕ) (before : List Entry) → HoldsLog K.seen K.may_leave disk.old journal.old text before
        → WhereTold (S.left script.old) (S.left script.new)
        (λ all rest. (file : List ℕ) → K.may_leave disk.new file
        → HasFront text before (entries_since campaign.old campaign.new) (script_of (world_of campaign.old) all).entries file) }

    // Unless the disk failed, it holds just these, and the journal is the disk's.
    ensures holds { K.tells → (text : List ℕ) (before : List Entry) → HoldsLog K.seen K.may_leave disk.old journal.old text before
        → UnlessDiskFault result (HoldsLog K.seen K.may_leave disk.new journal.new text
        (before ++ entries_since campaign.old campaign.new)) }

    ensures full { result ≡ Logged.Full → WhereTold (S.left script.old) (S.left script.new)
        (λ all rest. HasNoRoom journal.new (entries_since campaign.old campaign.new) (script_of (world_of campaign.old) all).entries) }
    ensures disk_count { K.faults_of disk.old ≤ K.faults_of disk.new }
    ensures disk_fault { result ≡ Logged.DiskFault → CountRose (K.faults_of disk.old) (K.faults_of disk.new) }
    ensures script_count { S.faults_of script.old ≤ S.faults_of script.new }
    ensures read_fault { result ≡ Logged.ReadFault → CountRose (S.faults_of script.old) (S.faults_of script.new) }
    ensures out_count { O.faults_of out.old ≤ O.faults_of out.new }
    ensures write_fault { result ≡ Logged.WriteFault → CountRose (O.faults_of out.old) (O.faults_of out.new) }
{
    let seats = campaign.seat_count();
    match LineReader::new(alloc, LINE_BYTES) {
        Ok(mut reader) => play_lines(
            alloc,
            campaign,
            seats,
            disk,
            journal,
            &mut reader,
            script,
            out,
        ),
        Err(_) => Logged::Memory,
    }
}

// Line after line.
fn play_lines<S: Source, O: Sink, E: Eye + Drop, K: Disk>(
    alloc: Global,
    campaign: &mut Campaign<E>,
    seats: u8,
    disk: &mut K,
    journal: &mut Journal,
    reader: &mut LineReader,
    script: &mut S,
    out: &mut O,
) -> Logged
    requires seats { seats ≡ length campaign.old.origin.seats }
    requires opening { IsOpening campaign.old.origin }
    requires quiet { NothingWaits (world_of campaign.old) }
    requires journal { K.tells → IsDisks K.seen K.may_leave disk.old journal.old }
    requires reader { reader.old ≡ record { cap = 4112; pending = []; ended = false } }

    ensures campaign { GoesOn campaign.old campaign.new }
    ensures entered { WhereTold (S.left script.old) (S.left script.new)
        (λ text rest. HasEntered (as_played result) (script_of (world_of campaign.old) text) (entries_since campaign.old campaign.new)) }
    ensures read { WhereTold (S.left script.old) (S.left script.new)
        (λ text rest. HasRead (as_played result) (world_of campaign.old) (entries_since campaign.old campaign.new) text rest) }
    ensures written { HasWritten (as_played result) (world_of campaign.old) (entries_since campaign.old campaign.new)
        (O.written out.old) (O.written out.new) }
    ensures waits { LeavesNothing (as_played result) (world_of campaign.new) }
    ensures log { K.tells → (text : List ℕ) (before : List Entry) → HoldsLog K.seen K.may_leave disk.old journal.old text before
        → WhereTold (S.left script.old) (S.left script.new)
        (λ all rest. Keeps K.seen K.may_leave K.moment K.left_since result text before (entries_since campaign.old campaign.new)
        (script_of (world_of campaign.old) all).entries disk.old disk.new journal.new) }
    ensures holds { K.tells → (text : List ℕ) (before : List Entry) → HoldsLog K.seen K.may_leave disk.old journal.old text before
        → UnlessDiskFault result (HoldsLog K.seen K.may_leave disk.new journal.new text
        (before ++ entries_since campaign.old campaign.new)) }
    ensures full { result ≡ Logged.Full → WhereTold (S.left script.old) (S.left script.new)
        (λ all rest. HasNoRoom journal.new (entries_since campaign.old campaign.new) (script_of (world_of campaign.old) all).entries) }
    ensures disk_count { K.faults_of disk.old ≤ K.faults_of disk.new }
    ensures disk_fault { result ≡ Logged.DiskFault → CountRose (K.faults_of disk.old) (K.faults_of disk.new) }
    ensures script_count { S.faults_of script.old ≤ S.faults_of script.new }
    ensures read_fault { result ≡ Logged.ReadFault → CountRose (S.faults_of script.old) (S.faults_of script.new) }
    ensures out_count { O.faults_of out.old ≤ O.faults_of out.new }
    ensures write_fault { result ≡ Logged.WriteFault → CountRose (O.faults_of out.old) (O.faults_of out.new) }
{
    let mut number = 1;
    'lines: loop {
        let line = match reader.next(script) {
            NextLine::Line(line) => line,
            NextLine::End => return Logged::Done,
            NextLine::TooLong => return Logged::TooLarge,
            NextLine::ReadFault => return Logged::ReadFault,
            NextLine::Memory => return Logged::Memory,
        };
        match play_line(alloc, campaign, seats, disk, journal, number, line, out) {
            Ok(()) => number += 1,
            Err(stop) => return stop,
        }
    }
}

// The line of this number.
fn play_line<O: Sink, E: Eye + Drop, K: Disk>(
    alloc: Global,
    campaign: &mut Campaign<E>,
    seats: u8,
    disk: &mut K,
    journal: &mut Journal,
    number: u64,
    line: LineText,
    out: &mut O,
) -> Result<(), Logged>
    requires seats { seats ≡ length campaign.old.origin.seats }
    requires opening { IsOpening campaign.old.origin }
    requires quiet { NothingWaits (world_of campaign.old) }
    requires journal { K.tells → IsDisks K.seen K.may_leave disk.old journal.old }
    requires short { length line ≤ 4112 }

    ensures campaign { GoesOn campaign.old campaign.new }
    ensures entered { HasEntered (as_played (logged result)) (script_from (world_of campaign.old) number (line ∷ []))
        (entries_since campaign.old campaign.new) }
    ensures written { HasWritten (as_played (logged result)) (world_of campaign.old) (entries_since campaign.old campaign.new)
        (O.written out.old) (O.written out.new) }
    ensures waits { LeavesNothing (as_played (logged result)) (world_of campaign.new) }
    ensures few { OnOk result (number ≤ LINE_LIMIT) }
    ensures log { K.tells → KeepsLog K.seen K.may_leave K.moment K.left_since (logged result)
        (entries_since campaign.old campaign.new) (script_from (world_of campaign.old) number
        (line ∷ [])).entries disk.old disk.new journal.old journal.new }
    ensures stop { IfErr result (λ stop. IsLineStop (as_played stop)) }
    ensures full { logged result ≡ Logged.Full → HasNoRoom journal.new (entries_since campaign.old campaign.new)
        (script_from (world_of campaign.old) number (line ∷ [])).entries }
    ensures out_count { O.faults_of out.old ≤ O.faults_of out.new }
    ensures write_fault { logged result ≡ Logged.WriteFault → CountRose (O.faults_of out.old) (O.faults_of out.new) }
    ensures disk_count { K.faults_of disk.old ≤ K.faults_of disk.new }
    ensures disk_fault { logged result ≡ Logged.DiskFault → CountRose (K.faults_of disk.old) (K.faults_of disk.new) }
{
    if number > LINE_LIMIT {
        return Err(Logged::TooLarge);
    }
    match entry_of_line(alloc, campaign, seats, line) {
        Ok(Some(entry)) => enter_with_takens(alloc, campaign, disk, journal, entry, out),
        Ok(None) => Err(Logged::BadLine(number)),
        Err(_) => Err(Logged::Memory),
    }
}
