//! The top call.
ghost use Rattle.std.specs.Prelude.{◌≡◌, ◌≤◌, ◌⊎◌, ℕ, List, Bool, Some, None, length, map, string_bytes, Ok};
ghost use Rattle.line_io.specs.Counts.{CountRose};
ghost use Rattle.campaign_file.specs.Campaign.{campaign_of};
ghost use Rattle.campaign_law.specs.World.{World};
ghost use Rattle.world.specs.World.{World as Opened};
ghost use Rattle.campaign_core.specs.Opening.{world_of_text};
ghost use Rattle.script_play.specs.Script.{script_of, done};
ghost use Rattle.command_words.specs.Words.{Play, Check, Drill, Verify, Compare, job_of};
ghost use Rattle.tabletop.specs.Jobs.{job_in};
ghost use Rattle.tabletop.specs.Ends.{HasEnded, JobEnds, campaign_limit};
ghost use Rattle.tabletop.specs.Fetches.{IsPlayableAt, IsThere};

use crate::checking::check_file;
use crate::comparing::compare_files;
use crate::drilling::drill;
use crate::endings::{Ended, status_of};
use crate::last_line::print_last_line;
use crate::playing::play_file;
use crate::verifying::verify_files;
use command_words::{Job, WordsFault, read_words};
use line_io::{Desk, Sink, Source};
use std::alloc::Global;

/// Does what the words ask for and gives the program's status. `play FILE` plays the script on the campaign of that file and writes the
/// lines that it sends, and with `--end` then the campaign text of the last world; `check FILE` tells how many seats, maps and tokens
/// the campaign has; `drill N LINES` makes and plays a drill and prints what came of it; `verify FILE SCRIPT SEAT TRANSCRIPT` tells whether the
/// transcript is what the player machine prints for the script's history, and `compare FILE SCRIPT FILE SCRIPT SEAT` whether the
/// player may know the same of both histories, by 0 where it is so and else by 14.
/// After a stop the last line says why. A fault while it is printed doesn't change the status. Where an outside object doesn't
/// tell its bytes, the clauses on them say nothing.
pub fn tabletop<D: Desk, S: Source, O: Sink>(
    alloc: Global,
    words: &[String],
    desk: &mut D,
    script: &mut S,
    out: &mut O,
) -> u8
    ensures ends { HasEnded result (job_in (map string_bytes words.now)) (D.text_of desk.old)
        (S.left script.old) (S.left script.new) (O.written out.old) (O.written out.new)
        (CountRose (D.faults_of desk.old) (D.faults_of desk.new)) (CountRose (S.faults_of script.old) (S.faults_of script.new))
        (CountRose (O.faults_of out.old) (O.faults_of out.new)) }

    // Words that are no form of the program give 2; those that are a form which this call doesn't do give it too, unless memory ran out.
    ensures usage { result ≡ 2 → job_in (map string_bytes words.now) ≡ None }
    ensures no_job { job_in (map string_bytes words.now) ≡ None → (result ≡ 2) ⊎ (result ≡ 6) }
    ensures no_form { job_of (map string_bytes words.now) ≡ None → result ≡ 2 }
    ensures read_fault { result ≡ 4 → CountRose (D.faults_of desk.old) (D.faults_of desk.new)
        ⊎ CountRose (S.faults_of script.old) (S.faults_of script.new) }
    ensures write_fault { result ≡ 5 → CountRose (O.faults_of out.old) (O.faults_of out.new) }

    // A campaign and a script that are read, and no fault: the job is done, unless memory ran out.
    ensures played { (file campaign text : List ℕ) (end : Bool) (origin : World)
        → job_in (map string_bytes words.now) ≡ Some (Play file end) → D.text_of desk.old file ≡ Some campaign
        → length campaign ≤ campaign_limit → world_of_text campaign ≡ Some origin → S.left script.old ≡ Some text
        → (script_of origin text).ending ≡ done
        → ¬ CountRose (D.faults_of desk.old) (D.faults_of desk.new) → ¬ CountRose (S.faults_of script.old) (S.faults_of script.new)
        → ¬ CountRose (O.faults_of out.old) (O.faults_of out.new)
        → (result ≡ 0) ⊎ (result ≡ 6) }
    ensures checked { (file campaign : List ℕ) (world : Opened) → job_in (map string_bytes words.now) ≡ Some (Check file)
        → D.text_of desk.old file ≡ Some campaign
        → length campaign ≤ campaign_limit → campaign_of campaign ≡ Ok world
        → ¬ CountRose (D.faults_of desk.old) (D.faults_of desk.new) → ¬ CountRose (S.faults_of script.old) (S.faults_of script.new)
        → ¬ CountRose (O.faults_of out.old) (O.faults_of out.new)
        → (result ≡ 0) ⊎ (result ≡ 6) }
    ensures drilled { (number lines : ℕ) → job_in (map string_bytes words.now) ≡ Some (Drill number lines)
        → ¬ CountRose (O.faults_of out.old) (O.faults_of out.new)
        → (result ≡ 0) ⊎ (result ≡ 6) }

    // Campaigns and scripts that are read and played to their ends, and no fault: the answer is printed, unless memory ran out.
    ensures verified { (file lines transcript told : List ℕ) (seat : ℕ)
        → job_in (map string_bytes words.now) ≡ Some (Verify file lines seat transcript)
        → IsPlayableAt (D.text_of desk.old) file lines → IsThere (D.text_of desk.old) transcript told
        → ¬ CountRose (D.faults_of desk.old) (D.faults_of desk.new) → ¬ CountRose (O.faults_of out.old) (O.faults_of out.new)
        → (result ≡ 0) ⊎ ((result ≡ 14) ⊎ (result ≡ 6)) }
    ensures compared { (file lines file2 lines2 : List ℕ) (seat : ℕ)
        → job_in (map string_bytes words.now) ≡ Some (Compare file lines file2 lines2 seat)
        → IsPlayableAt (D.text_of desk.old) file lines → IsPlayableAt (D.text_of desk.old) file2 lines2
        → ¬ CountRose (D.faults_of desk.old) (D.faults_of desk.new) → ¬ CountRose (O.faults_of out.old) (O.faults_of out.new)
        → (result ≡ 0) ⊎ ((result ≡ 14) ⊎ (result ≡ 6)) }
{
    let ended = job(alloc, words, desk, script, out);
    status_of(&print_last_line(alloc, ended, out))
}

/// For want of memory before the words are read.
pub(crate) fn out_of_memory<O: Sink>(alloc: Global, out: &mut O) -> u8
    ensures { result ≡ 6 }
{
    status_of(&print_last_line(alloc, Ended::Memory, out))
}

// All but the last line.
fn job<D: Desk, S: Source, O: Sink>(
    alloc: Global,
    words: &[String],
    desk: &mut D,
    script: &mut S,
    out: &mut O,
) -> Ended
    ensures ends { JobEnds (CountRose (D.faults_of desk.old) (D.faults_of desk.new))
        (CountRose (S.faults_of script.old) (S.faults_of script.new)) result
        (job_in (map string_bytes words.now)) (D.text_of desk.old) (S.left script.old) (S.left script.new) (O.written out.old)
        (O.written out.new) }
    ensures no_form { job_of (map string_bytes words.now) ≡ None → result ≡ Ended.Usage }
    ensures read_fault { result ≡ Ended.ReadFault → CountRose (D.faults_of desk.old) (D.faults_of desk.new)
        ⊎ CountRose (S.faults_of script.old) (S.faults_of script.new) }
    ensures write_fault { result ≡ Ended.WriteFault → CountRose (O.faults_of out.old) (O.faults_of out.new) }
    ensures out_count { O.faults_of out.old ≤ O.faults_of out.new }
{
    match read_words(alloc, words) {
        Ok(Job::Play { file, end }) => play_file(alloc, file, end, desk, script, out),
        Ok(Job::Check { file }) => check_file(alloc, file, desk, out),
        Ok(Job::Drill { number, lines }) => drill(alloc, number, lines, out),
        Ok(
            Job::Verify {
                file,
                script: lines,
                seat,
                transcript,
            },
        ) => verify_files(alloc, file, lines, seat, transcript, desk, out),
        Ok(
            Job::Compare {
                file,
                script: lines,
                file2,
                script2: lines2,
                seat,
            },
        ) => compare_files(alloc, file, lines, file2, lines2, seat, desk, out),
        Ok(Job::Serve { .. }) | Err(WordsFault::Usage) => Ended::Usage,
        Err(WordsFault::Memory) => Ended::Memory,
    }
}
