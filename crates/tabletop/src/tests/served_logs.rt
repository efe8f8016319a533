//! Evenings with a log over a disk in memory that stops at each of its calls: what a crash leaves has the entry of each line that a
//! session was sent. Evenings over TCP are killed by `bench/kill.sh`.
ghost use Rattle.std.specs.Prelude.{◌≡◌, ◌≤◌, IfOk, Some};
ghost use Rattle.evening_log.specs.Logged.{both_counts};
ghost use Rattle.serving.specs.Runs.{IsSafeRun};

use super::campaigns::THREE_SEATS;
use super::logs::new_log;
use super::{desk_of, sink_of, strings, text_of};
use crate::tabletop_serve_logged;
use campaign_law::Entry;
use crash_log::{MemDisk, Recovered, recover};
use line_io::{CallSpawner, Failed, MemDoor, MemSource, Spawner, Started, Work};
use names::LineText;
use serving::{LoggedMemSink, Sitting};
use session::Sat;
use std::alloc::Global;
use std::process::Abort;
use std::snapshot::Snapshot;
use std::sync::Wait;
use std::thread::Threads;

type LoggedSitting<R> = Sitting<R, MemSource, LoggedMemSink>;

// What a session gave whose output waits for a log.
#[derive(Drop)]
struct Ran<R> {
    done: ((MemSource, LoggedMemSink), Sat),
    sitting: Snapshot<LoggedSitting<R>>,
    ghost ran: { ∥ IsSafeRun (λ s n. n ≤ s.pass.heard) (λ s. Some s.left) (λ s. Some s.inner.written) (λ s. s.plan.faults)
        (λ s. both_counts s.inner.plan.faults s.refused) sitting.value done ∥₁ },
}

impl<R: Threads + Wait + Sync + Drop> Started<LoggedSitting<R>> for Ran<R> {
    ghost work_of = { λ ran. ran.sitting.value };

    fn wait_for<S: Threads>(self, _rt: &S) -> ((MemSource, LoggedMemSink), Sat) {
        let Ran { done, sitting: _ } = self;
        done
    }
}

// Serves the session.
fn run_at_once<R: Threads + Wait + Sync + Drop>(sitting: LoggedSitting<R>) -> Result<Ran<R>, Failed>
    ensures { IfOk result (λ ran. ran.sitting.value ≡ sitting) }
{
    let kept = Snapshot::of(&sitting);
    let done = sitting.run();
    Ok(Ran {
        done,
        sitting: kept,
    })
}

// Two lines come of the Join, and two of the line behind it.
const SENDS: [&str; 2] = [
    r#"{"do":"hello","seat":1,"key":"a"}
{"do":"look"}
{"do":"bye"}
"#,
    r#"{"do":"hello","seat":2,"key":"b"}
{"do":"look"}
{"do":"bye"}
"#,
];

const GREETINGS: [&[u8]; 2] = [
    br#"{"n":1,"ok":"hello","seat":1,"#,
    br#"{"n":1,"ok":"hello","seat":2,"#,
];

// What an evening came to: its status, how many lines each session was sent, and what a crash leaves then, without the unsynced bytes
// and with them.
#[derive(Drop)]
struct Came {
    status: u8,
    lines: [usize; 2],
    safe: LineText,
    all: LineText,
}

fn door_of(rt: &impl Abort, alloc: Global) -> MemDoor {
    let mut ends = Vec::new(alloc);
    for sends in SENDS {
        let input = MemSource::new(alloc, text_of(rt, alloc, sends), 7, Vec::new(alloc));
        ends.push((input, sink_of(rt, alloc, 64, &[])))
            .expect(rt, "memory");
    }
    MemDoor::new(alloc, ends, Vec::new(alloc))
}

// How many lines the session was sent whose first line this is. Connections that were refused may have been given back before.
fn lines_to(door: &MemDoor, greeting: &[u8]) -> usize {
    for (_, output) in door.ended() {
        if output.bytes().starts_with(greeting) {
            return output.bytes().iter().filter(|byte| **byte == b'\n').count();
        }
    }
    0
}

// An evening on a disk that holds these bytes and stops at its call of this number.
fn served<R: Threads + Wait + Sync + Clone + Drop + Abort, P: Spawner<LoggedSitting<R>>>(
    rt: &R,
    alloc: Global,
    held: LineText,
    stop: Option<u64>,
    spawner: &mut P,
) -> Came
where
    P::Task: Drop,
    requires { P.fit spawner.old }
{
    let words = strings(
        rt,
        alloc,
        &["serve", "table.json", "7000", "2", "--log", "evening.log"],
    );
    let mut desk = desk_of(rt, alloc, THREE_SEATS, &[]);
    let disk = MemDisk::new(alloc, held, Vec::new(alloc), stop);
    let mut out = sink_of(rt, alloc, 4096, &[]);
    let door = door_of(rt, alloc);
    let (status, door, disk) = tabletop_serve_logged(
        rt, alloc, &words, &mut desk, &mut out, door, disk, spawner,
    );
    Came {
        status,
        lines: [lines_to(&door, GREETINGS[0]), lines_to(&door, GREETINGS[1])],
        safe: disk.leave(false).expect(rt, "memory"),
        all: disk.leave(true).expect(rt, "memory"),
    }
}

fn recovered(rt: &impl Abort, alloc: Global, log: LineText) -> Recovered {
    let mut disk = MemDisk::new(alloc, log, Vec::new(alloc), None);
    let found = recover(alloc, &mut disk).expect(rt, "a log");
    assert_eq!(rt; found.text.bytes(), THREE_SEATS.as_bytes());
    found
}

fn is_join_of(entry: &Entry, number: u8) -> bool {
    matches!(entry, Entry::Join { seat, .. } if seat.number() == number)
}

fn is_line_of(entry: &Entry, number: u8) -> bool {
    matches!(entry, Entry::Line { seat, .. } if seat.number() == number)
}

// The log has the entry of each line that was sent.
fn has_all_that_was_sent(rt: &impl Abort, found: &Recovered, lines: [usize; 2]) {
    let entries = &found.entries.list;
    for (number, sent) in [(1, lines[0]), (2, lines[1])] {
        assert!(rt; sent == 0 || entries.iter().any(|entry| is_join_of(entry, number)));
        assert!(rt; sent <= 2 || entries.iter().any(|entry| is_line_of(entry, number)));
    }
}

#[test]
fn a_stop_at_each_call(rt: HostRuntime) {
    let alloc = rt.alloc();
    let log = new_log(&rt, alloc);
    let mut last = 10;
    for stop in 0..80u64 {
        let held = LineText::copy(alloc, log.bytes()).expect(&rt, "memory");
        let mut spawner = CallSpawner::new(
            |sitting: LoggedSitting<HostRuntime>| -> Result<Ran<HostRuntime>, Failed>
                ensures { IfOk result (λ ran. ran.sitting.value ≡ sitting) }
            { run_at_once(sitting) },
            &rt,
        );
        let came = served(&rt, alloc, held, Some(stop), &mut spawner);
        has_all_that_was_sent(&rt, &recovered(&rt, alloc, came.safe), came.lines);
        has_all_that_was_sent(&rt, &recovered(&rt, alloc, came.all), came.lines);
        assert!(&rt; came.status == 0 || came.status == 10);
        last = came.status;
    }
    assert_eq!(&rt; last, 0);
}
