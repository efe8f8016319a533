//! Runs with a log, over a disk in memory that stops at each of its calls. What runs with a log print over files is tested by
//! `examples/test_logs.py`.

use super::campaigns::THREE_SEATS;
use super::{desk_of, sink_of, strings, text_of};
use crate::tabletop_logged;
use crash_log::{MemDisk, recover};
use line_io::MemSource;
use names::LineText;
use std::alloc::Global;
use std::process::Abort;

// What a run came to: its status, how many lines it printed, and what a crash leaves then, without the unsynced bytes and with them.
#[derive(Drop)]
struct Came {
    status: u8,
    lines: usize,
    safe: LineText,
    all: LineText,
}

// A script on a disk that holds these bytes and stops at its call of this number.
fn run_on(rt: &impl Abort, alloc: Global, held: LineText, stop: Option<u64>, script: &str) -> Came {
    let words = strings(rt, alloc, &["play", "table.json", "--log", "evening.log"]);
    let mut desk = desk_of(rt, alloc, THREE_SEATS, &[]);
    let mut disk = MemDisk::new(alloc, held, Vec::new(alloc), stop);
    let mut source = MemSource::new(alloc, text_of(rt, alloc, script), 7, Vec::new(alloc));
    let mut out = sink_of(rt, alloc, 4096, &[]);
    let status = tabletop_logged(alloc, &words, &mut desk, &mut source, &mut out, &mut disk);
    Came {
        status,
        lines: out.bytes().iter().filter(|byte| **byte == b'\t').count(),
        safe: disk.leave(false).expect(rt, "memory"),
        all: disk.leave(true).expect(rt, "memory"),
    }
}

// How many entries the log of these bytes has, whose text is that of the campaign.
fn entries_in(rt: &impl Abort, alloc: Global, log: LineText) -> usize {
    let mut disk = MemDisk::new(alloc, log, Vec::new(alloc), None);
    let found = recover(alloc, &mut disk).expect(rt, "a log");
    assert_eq!(rt; found.text.bytes(), THREE_SEATS.as_bytes());
    found.entries.list.len()
}

// The log that a run with an empty script leaves.
pub(super) fn new_log(rt: &impl Abort, alloc: Global) -> LineText {
    let came = run_on(rt, alloc, text_of(rt, alloc, ""), None, "");
    assert!(rt; came.status == 0 && came.lines == 0);
    came.safe
}

// A Join with its Taken, and a Line with its Taken; each of the two sends two lines.
const JOINS_AND_LOOKS: &str = r#"1 {"do":"hello","seat":1,"key":"a"}
1 {"do":"look"}
"#;

// What a crash leaves has the entry of each line that was printed.
fn stops_at(rt: &impl Abort, alloc: Global, log: &LineText, stop: u64) -> u8 {
    let held = LineText::copy(alloc, log.bytes()).expect(rt, "memory");
    let came = run_on(rt, alloc, held, Some(stop), JOINS_AND_LOOKS);
    let needed = match came.lines {
        0 => 0,
        2 => 1,
        _ => 3,
    };
    let safe = entries_in(rt, alloc, came.safe);
    let all = entries_in(rt, alloc, came.all);
    assert!(rt; came.lines == 0 || came.lines == 2 || came.lines == 4);
    assert!(rt; needed <= safe && safe <= all && all <= 4);
    assert!(rt; came.status != 0 || all == 4 && came.lines == 4);
    came.status
}

#[test]
fn a_stop_at_each_call(rt: HostRuntime) {
    let alloc = rt.alloc();
    let log = new_log(&rt, alloc);
    let mut last = 10;
    for stop in 0..40u64 {
        last = stops_at(&rt, alloc, &log, stop);
        assert!(&rt; last == 0 || last == 10);
    }
    assert_eq!(&rt; last, 0);
}
