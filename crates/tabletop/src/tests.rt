//! Runs of the top calls over memory, of which outside calls fail, and what only memory shows. With ample memory none ends for want
//! of it. What the program prints over files is tested by `examples/test_runs.py`.

mod at_once;
pub(crate) mod campaigns;
mod cuts;
mod drills;
mod faults;
mod logs;
mod serve_faults;
mod served_logs;
mod serves;
mod stops;

use crate::tabletop;
use line_io::{MemDesk, MemSink, MemSource};
use names::{LineText, Text};
use std::alloc::Global;
use std::process::Abort;

// A run on `table.json`: the calls of the desk, the script and the output that fail, and what is wanted. The wanted
// output has a space where a TAB is printed behind a seat's number.
#[derive(Clone, Copy)]
struct Run<'a> {
    name: &'a str,
    campaign: &'a str,
    script: &'a str,
    desk_fails: &'a [u64],
    script_fails: &'a [u64],
    out_fails: &'a [u64],
    // How many bytes the output takes at once.
    takes: usize,
    status: u8,
    output: &'a str,
}

// Without a fault, to the end of its script.
const PLAIN: Run<'static> = Run {
    name: "",
    campaign: "",
    script: "",
    desk_fails: &[],
    script_fails: &[],
    out_fails: &[],
    takes: 4096,
    status: 0,
    output: "",
};

fn plain_run<'a>(campaign: &'a str, script: &'a str) -> Run<'a> {
    Run {
        campaign,
        script,
        ..PLAIN
    }
}

const WORDS: [&str; 2] = ["play", "table.json"];

// So many bytes an output takes.
const ROOM: usize = 1 << 20;

fn text_of(rt: &impl Abort, alloc: Global, text: &str) -> LineText {
    LineText::copy(alloc, text.as_bytes()).expect(rt, "memory")
}

fn calls(rt: &impl Abort, alloc: Global, failing: &[u64]) -> Vec<u64> {
    failing.to_vec(alloc).expect(rt, "memory")
}

fn add(rt: &impl Abort, text: &mut String, piece: &str) {
    text.push_str(piece).expect(rt, "memory");
}

fn tabbed(rt: &impl Abort, alloc: Global, line: &str) -> String {
    match line.split_once(' ') {
        Some((seat, rest)) if !seat.ends_with(':') => {
            format!(in alloc; "{seat}\t{rest}").expect(rt, "memory")
        }
        _ => String::from_str(alloc, line).expect(rt, "memory"),
    }
}

// The text with a TAB behind each seat's number.
fn with_tabs(rt: &impl Abort, alloc: Global, text: &str) -> String {
    let mut all = String::new(alloc);
    for line in text.split_inclusive('\n') {
        add(rt, &mut all, &tabbed(rt, alloc, line));
    }
    all
}

fn strings(rt: &impl Abort, alloc: Global, words: &[&str]) -> Vec<String> {
    let mut all = Vec::new(alloc);
    for word in words {
        let word = String::from_str(alloc, word).expect(rt, "memory");
        all.push(word).expect(rt, "memory");
    }
    all
}

// A desk with this campaign.
fn desk_of(rt: &impl Abort, alloc: Global, campaign: &str, failing: &[u64]) -> MemDesk {
    let name = Text::copy(alloc, "table.json").expect(rt, "memory");
    let mut texts = Vec::new(alloc);
    texts
        .push((name, text_of(rt, alloc, campaign)))
        .expect(rt, "memory");
    MemDesk::new(alloc, texts, calls(rt, alloc, failing))
}

fn sink_of(rt: &impl Abort, alloc: Global, takes: usize, failing: &[u64]) -> MemSink {
    MemSink::new(alloc, ROOM, takes, calls(rt, alloc, failing)).expect(rt, "memory")
}

// The status, and the output.
fn outcome(rt: &impl Abort, alloc: Global, words: &[&str], run: &Run<'_>) -> (u8, MemSink) {
    let words = strings(rt, alloc, words);
    let mut desk = desk_of(rt, alloc, run.campaign, run.desk_fails);
    let script = text_of(rt, alloc, run.script);
    let mut script = MemSource::new(alloc, script, 7, calls(rt, alloc, run.script_fails));
    let mut out = sink_of(rt, alloc, run.takes, run.out_fails);
    let status = tabletop(alloc, &words, &mut desk, &mut script, &mut out);
    (status, out)
}

// The status, and what was printed.
fn played(rt: &impl Abort, alloc: Global, words: &[&str], run: &Run<'_>) -> (u8, String) {
    let (status, out) = outcome(rt, alloc, words, run);
    let bytes = out.bytes().to_vec(alloc).expect(rt, "memory");
    (status, String::from_utf8(bytes).expect(rt, "UTF-8"))
}

// The run ends with this status, and this was printed.
fn ends(rt: &impl Abort, alloc: Global, words: &[&str], run: &Run<'_>, status: u8, output: &str) {
    let (ended, printed) = played(rt, alloc, words, run);
    assert!(rt; ended == status, "{}", run.name);
    assert_eq!(rt; printed.as_str(), output, "{}", run.name);
}

// Plays the run, which prints what it is to print.
fn check(rt: &impl Abort, alloc: Global, run: &Run<'_>) {
    let wanted = with_tabs(rt, alloc, run.output);
    ends(rt, alloc, &WORDS, run, run.status, &wanted);
}

#[test]
fn stops_scripts(rt: HostRuntime) {
    for run in &stops::STOPS {
        check(&rt, rt.alloc(), run);
    }
}
