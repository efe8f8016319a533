//! `serve FILE PORT COUNT [--end]`: connections are served on the campaign of the file.
ghost use Rattle.std.specs.Prelude.{◌≡◌, ◌≤◌, ◌<◌, ◌⊎◌, ℕ, List, Some, None, length, map, string_bytes};
ghost use Rattle.line_io.specs.Counts.{CountRose};
ghost use Rattle.campaign_law.specs.World.{World};
ghost use Rattle.campaign_core.specs.Opening.{world_of_text};
ghost use Rattle.command_words.specs.Words.{job_of};
ghost use Rattle.serving.specs.Outside.{as_told};
ghost use Rattle.tabletop.specs.Ends.{campaign_limit};
ghost use Rattle.tabletop.specs.ServeEnds.{Service, service_in, FileServes, JobServes, HasEndedServing, TextServes, hosted_as as hosted_as_lem};

use crate::endings::{Ended, status_of};
use crate::files::not_fetched;
use crate::last_line::print_last_line;
use command_words::{Job, WordsFault, read_words};
use line_io::{Desk, Door, Outlet, Sink, Spawner, Work};
use serving::{Hosted, Served, SessionSource, Sitting, host};
use std::alloc::Global;
use std::sync::Wait;
use std::thread::Threads;

/// Does `serve FILE PORT COUNT [--end]` and gives the program's status: it opens one hall on the campaign of the file and the door at the
/// port, runs a session for each of the first `COUNT` connections, or for all up to the door's end, and prints for each, in order
/// of arrival, its number and how its session ended. With `--end` it then prints the campaign's text. Other words are none of its
/// forms. After a stop the last line says why. The hall is new and nothing but sessions enters anything by its passes: so where nobody
/// else does, each session is sent its lines of the one history and no others.
pub fn tabletop_serve<
    R: Threads + Wait + Sync + Clone + Drop,
    D: Desk,
    O: Sink,
    L: Door,
    P: Spawner<Sitting<R, L::In, L::Out>>,
>(
    rt: &R,
    alloc: Global,
    words: &[String],
    desk: &mut D,
    out: &mut O,
    door: &mut L,
    spawner: &mut P,
) -> u8
where
    L::In: SessionSource<L::Out> + Drop,
    L::Out: Outlet + Drop,
    P::Task: Drop,
    requires fit { P.fit spawner.old }
    ensures ends { HasEndedServing ⟦<Sitting<R, L::In, L::Out> as Work>⟧.done L.Out.written
        result (service_in (map string_bytes words.now)) (D.text_of desk.old)
        (as_told (L.coming door.old) (L.ended door.old) (P.started spawner.old) (P.faults_of spawner.old)
        (O.written out.old) (O.faults_of out.old))
        (as_told (L.coming door.new) (L.ended door.new) (P.started spawner.new) (P.faults_of spawner.new)
        (O.written out.new) (O.faults_of out.new))
        (CountRose (D.faults_of desk.old) (D.faults_of desk.new)) }

    // Words that are no form of the program give 2; those that are a form which this call doesn't do give it too, unless memory ran out.
    ensures usage { result ≡ 2 → service_in (map string_bytes words.now) ≡ None }
    ensures no_service { service_in (map string_bytes words.now) ≡ None → (result ≡ 2) ⊎ (result ≡ 6) }
    ensures no_form { job_of (map string_bytes words.now) ≡ None → result ≡ 2 }
    ensures read_fault { result ≡ 4 → CountRose (D.faults_of desk.old) (D.faults_of desk.new) }
    ensures write_fault { result ≡ 5 → CountRose (O.faults_of out.old) (O.faults_of out.new) }
    ensures door_fault { result ≡ 9 → CountRose (L.faults_of door.old) (L.faults_of door.new) }

    // A campaign that is read, and no fault: the connections are served, unless memory ran out.
    ensures complete { (service : Service) (campaign : List ℕ) (origin : World)
        → service_in (map string_bytes words.now) ≡ Some service → D.text_of desk.old service.file ≡ Some campaign
        → length campaign ≤ campaign_limit → world_of_text campaign ≡ Some origin
        → ¬ CountRose (D.faults_of desk.old) (D.faults_of desk.new) → ¬ CountRose (O.faults_of out.old) (O.faults_of out.new)
        → ¬ CountRose (L.faults_of door.old) (L.faults_of door.new)
        → (result ≡ 0) ⊎ (result ≡ 6) }
{
    let ended = job(rt, alloc, words, desk, out, door, spawner);
    status_of(&print_last_line(alloc, ended, out))
}

// All but the last line.
fn job<
    R: Threads + Wait + Sync + Clone + Drop,
    D: Desk,
    O: Sink,
    L: Door,
    P: Spawner<Sitting<R, L::In, L::Out>>,
>(
    rt: &R,
    alloc: Global,
    words: &[String],
    desk: &mut D,
    out: &mut O,
    door: &mut L,
    spawner: &mut P,
) -> Ended
where
    L::In: SessionSource<L::Out> + Drop,
    L::Out: Outlet + Drop,
    P::Task: Drop,
    requires fit { P.fit spawner.old }
    ensures ends { JobServes ⟦<Sitting<R, L::In, L::Out> as Work>⟧.done L.Out.written
        (CountRose (D.faults_of desk.old) (D.faults_of desk.new)) result (service_in (map string_bytes words.now))
        (D.text_of desk.old)
        (as_told (L.coming door.old) (L.ended door.old) (P.started spawner.old) (P.faults_of spawner.old)
        (O.written out.old) (O.faults_of out.old))
        (as_told (L.coming door.new) (L.ended door.new) (P.started spawner.new) (P.faults_of spawner.new)
        (O.written out.new) (O.faults_of out.new)) }
    ensures no_form { job_of (map string_bytes words.now) ≡ None → result ≡ Ended.Usage }
    ensures read_fault { result ≡ Ended.ReadFault → CountRose (D.faults_of desk.old) (D.faults_of desk.new) }
    ensures write_fault { result ≡ Ended.WriteFault → CountRose (O.faults_of out.old) (O.faults_of out.new) }
    ensures door_fault { result ≡ Ended.DoorFault → CountRose (L.faults_of door.old) (L.faults_of door.new) }
    ensures out_count { O.faults_of out.old ≤ O.faults_of out.new }
{
    match read_words(alloc, words) {
        Ok(
            Job::Serve {
                file,
                port,
                count,
                end,
            },
        ) => serve_file(rt, alloc, file, port, count, end, desk, out, door, spawner),
        Ok(_) | Err(WordsFault::Usage) => Ended::Usage,
        Err(WordsFault::Memory) => Ended::Memory,
    }
}

// On the campaign of this file.
fn serve_file<
    R: Threads + Wait + Sync + Clone + Drop,
    D: Desk,
    O: Sink,
    L: Door,
    P: Spawner<Sitting<R, L::In, L::Out>>,
>(
    rt: &R,
    alloc: Global,
    file: &str,
    port: u16,
    count: u32,
    end: bool,
    desk: &mut D,
    out: &mut O,
    door: &mut L,
    spawner: &mut P,
) -> Ended
where
    L::In: SessionSource<L::Out> + Drop,
    L::Out: Outlet + Drop,
    P::Task: Drop,
    requires count { (1 ≤ count) × (count ≤ 1024) }
    requires fit { P.fit spawner.old }
    ensures ends { FileServes ⟦<Sitting<R, L::In, L::Out> as Work>⟧.done L.Out.written
        (CountRose (D.faults_of desk.old) (D.faults_of desk.new)) result count end (D.text_of desk.old file.now)
        (as_told (L.coming door.old) (L.ended door.old) (P.started spawner.old) (P.faults_of spawner.old)
        (O.written out.old) (O.faults_of out.old))
        (as_told (L.coming door.new) (L.ended door.new) (P.started spawner.new) (P.faults_of spawner.new)
        (O.written out.new) (O.faults_of out.new)) }
    ensures not_usage { result ≡ Ended.Usage → ⊥ }
    ensures read_fault { result ≡ Ended.ReadFault → CountRose (D.faults_of desk.old) (D.faults_of desk.new) }
    ensures write_fault { result ≡ Ended.WriteFault → CountRose (O.faults_of out.old) (O.faults_of out.new) }
    ensures door_fault { result ≡ Ended.DoorFault → CountRose (L.faults_of door.old) (L.faults_of door.new) }
    ensures out_count { O.faults_of out.old ≤ O.faults_of out.new }
{
    match desk.fetch(file) {
        Ok(text) => hosted_as(host(rt, alloc, &text, port, count, end, out, door, spawner)),
        Err(fault) => not_fetched(fault),
    }
}

fn hosted_as(hosted: Hosted) -> Ended
    ensures { result ≡ hosted_as_lem hosted }
{
    match hosted {
        Hosted::Bad(breach) => Ended::BadCampaign(breach),
        Hosted::Memory | Hosted::Served(Served::Memory) => Ended::Memory,
        Hosted::Closed | Hosted::Served(Served::DoorFault) => Ended::DoorFault,
        Hosted::Served(Served::WriteFault) => Ended::WriteFault,
        Hosted::Served(Served::Done) => Ended::Done,
    }
}
