//! Each read and each write of a run fails once. Scripts that end at each byte are played by `examples/test_ends.py`.

use super::campaigns::TWO_SEATS;
use super::{Run, WORDS, plain_run, played};
use std::alloc::Global;
use std::process::Abort;

const SCRIPT: &str = r#"1 {"do":"hello","seat":1,"key":"a"}
1 {"do":"say","text":"hi"}
1 {"do":"look"}
1 {"do":"bye"}
"#;

fn printed(rt: &impl Abort, alloc: Global, script: &str) -> (u8, String) {
    played(rt, alloc, &WORDS, &plain_run(TWO_SEATS, script))
}

// Whether one text is some whole lines at the front of the other.
fn is_front(part: &str, whole: &str) -> bool {
    whole.starts_with(part) && (part.is_empty() || part.ends_with('\n'))
}

// The read of this number fails.
fn read_fails(rt: &impl Abort, alloc: Global, number: u64, whole: &str) {
    let run = Run {
        script_fails: &[number],
        ..plain_run(TWO_SEATS, SCRIPT)
    };
    let (status, output) = played(rt, alloc, &WORDS, &run);
    let lines = output.strip_suffix("tabletop: read fault\n");
    let lines = lines.expect(rt, "a last line");
    assert!(rt; status == 4 && is_front(lines, whole), "{number}");
}

#[test]
fn each_read_fails_once(rt: HostRuntime) {
    let (_, whole) = printed(&rt, rt.alloc(), SCRIPT);
    // (the source gives seven bytes at once)
    for number in 0..=SCRIPT.len() / 7 {
        read_fails(&rt, rt.alloc(), number as u64, &whole);
    }
}

// The write of this number fails, before which so many lines were written.
fn write_fails(rt: &impl Abort, alloc: Global, number: u64, lines: usize, whole: &str) {
    let run = Run {
        out_fails: &[number],
        ..plain_run(TWO_SEATS, SCRIPT)
    };
    let (status, output) = played(rt, alloc, &WORDS, &run);
    assert!(rt; status == 5 && is_front(&output, whole), "{number}");
    assert_eq!(rt; output.lines().count(), lines);
}

#[test]
fn each_write_fails_once(rt: HostRuntime) {
    let (_, whole) = printed(&rt, rt.alloc(), SCRIPT);
    // (all that a line of the script sends is one write)
    for (number, lines) in [(0, 0), (1, 2), (2, 4), (3, 6)] {
        write_fails(&rt, rt.alloc(), number, lines, &whole);
    }
}
