//! Connections over memory, which are served one after another in one hall.
ghost use Rattle.std.specs.Prelude.{◌≡◌, IfOk};

use super::at_once::{MemSitting, Ran, run_at_once};
use super::campaigns::THREE_SEATS;
use super::{calls, desk_of, sink_of, strings, text_of};
use crate::tabletop_serve;
use line_io::{CallSpawner, Failed, MemDoor, MemSink, MemSource, Spawner};
use std::alloc::Global;
use std::process::Abort;
use std::sync::Wait;
use std::sync::atomic::AtomicU64;
use std::thread::Threads;

// No call has this number.
pub(super) const NONE: u64 = 1 << 20;

// A connection: what it sends, the read of its input and the write of its output that fail, and how many bytes that takes
// at once. It is sent one of these texts, of which so many bytes come; where there is none, no session is served for it.
#[derive(Clone, Copy)]
pub(super) struct Caller<'a> {
    pub(super) sends: &'a str,
    pub(super) read_fails: u64,
    pub(super) write_fails: u64,
    pub(super) takes: usize,
    pub(super) gets: &'a [&'a str],
    pub(super) comes: usize,
}

// An evening: the calls of the desk, the door, the spawner and the output that fail, and what is printed of this, so many
// bytes, with the campaign that follows the output in a line of its own.
#[derive(Clone, Copy)]
pub(super) struct Evening<'a> {
    pub(super) words: &'a [&'a str],
    pub(super) first: Caller<'a>,
    pub(super) second: Caller<'a>,
    pub(super) third: Caller<'a>,
    pub(super) desk_fails: u64,
    pub(super) door_fails: u64,
    pub(super) start_fails: u64,
    pub(super) out_fails: u64,
    pub(super) out_takes: usize,
    pub(super) status: u8,
    pub(super) output: &'a str,
    pub(super) ending: &'a str,
    pub(super) printed: usize,
}

// What a hello gets, by the seat's count of lines.
pub(super) const JOINED_AT_1: &str = r#"{"n":1,"ok":"hello","seat":1,"seats":3}
{"full":{"lights":{},"maps":[],"sights":{},"tokens":[]}}
"#;

pub(super) const JOINED_AT_2: &str = r#"{"n":2,"ok":"hello","seat":1,"seats":3}
{"full":{"lights":{},"maps":[],"sights":{},"tokens":[]}}
"#;

pub(super) const JOINED_AT_3: &str = r#"{"n":3,"ok":"hello","seat":1,"seats":3}
{"full":{"lights":{},"maps":[],"sights":{},"tokens":[]}}
"#;

pub(super) const JOINED_AND_LEFT: &str = r#"{"n":1,"ok":"hello","seat":1,"seats":3}
{"full":{"lights":{},"maps":[],"sights":{},"tokens":[]}}
{"n":2,"ok":"bye"}
"#;

pub(super) const BAD_KEY: &str = r#"{"n":0,"no":24,"refused":"BadKey"}
"#;

pub(super) const FIRST: Caller<'static> = Caller {
    sends: r#"{"do":"hello","seat":1,"key":"a"}
{"do":"bye"}
"#,
    read_fails: NONE,
    write_fails: NONE,
    takes: 64,
    gets: &[JOINED_AND_LEFT],
    comes: 4_096,
};

pub(super) const SECOND: Caller<'static> = Caller {
    sends: r#"{"do":"hello","seat":1,"key":"x"}
"#,
    gets: &[BAD_KEY],
    ..FIRST
};

// Its number shows that all share one hall.
pub(super) const THIRD: Caller<'static> = Caller {
    sends: r#"{"do":"hello","seat":1,"key":"a"}
"#,
    gets: &[JOINED_AT_3],
    ..FIRST
};

const UNSERVED: Caller<'static> = Caller {
    sends: "",
    gets: &[],
    ..FIRST
};

pub(super) const PLAIN: Evening<'static> = Evening {
    words: &["serve", "table.json", "7000", "3"],
    first: FIRST,
    second: SECOND,
    third: THIRD,
    desk_fails: NONE,
    door_fails: NONE,
    start_fails: NONE,
    out_fails: NONE,
    out_takes: 64,
    status: 0,
    output: "1 Left\n2 Refused BadKey\n3 Left\n",
    ending: "",
    printed: 4_096,
};

const UNOPENED: Evening<'static> = Evening {
    first: UNSERVED,
    second: UNSERVED,
    third: UNSERVED,
    ..PLAIN
};

static EVENINGS: [Evening<'static>; 8] = [
    PLAIN,
    // All seats are Free again, and no line is counted.
    Evening {
        words: &["serve", "--end", "table.json", "7000", "3"],
        ending: THREE_SEATS,
        ..PLAIN
    },
    // Up to the door's end.
    Evening {
        words: &["serve", "table.json", "7000", "1024"],
        second: UNSERVED,
        start_fails: 1,
        output: "1 Left\n2 busy\n3 Left\n",
        ..PLAIN
    },
    Evening {
        words: &["serve", "table.json", "7000", "1025"],
        status: 2,
        output: "tabletop: usage: play FILE [--end], check FILE, drill N LINES, serve FILE PORT COUNT [--end], verify FILE SCRIPT SEAT TRANSCRIPT, compare FILE SCRIPT FILE SCRIPT SEAT\n",
        ..UNOPENED
    },
    Evening {
        desk_fails: 0,
        status: 4,
        output: "tabletop: read fault\n",
        ..UNOPENED
    },
    Evening {
        out_takes: 0,
        status: 5,
        output: "",
        ..PLAIN
    },
    Evening {
        door_fails: 0,
        status: 9,
        output: "tabletop: door fault\n",
        ..UNOPENED
    },
    // The connections so far are told.
    Evening {
        second: UNSERVED,
        third: UNSERVED,
        door_fails: 2,
        status: 9,
        output: "1 Left\ntabletop: door fault\n",
        ..PLAIN
    },
];

fn callers<'a>(evening: &Evening<'a>) -> [Caller<'a>; 3] {
    [evening.first, evening.second, evening.third]
}

fn ends_of(rt: &impl Abort, alloc: Global, caller: &Caller<'_>) -> (MemSource, MemSink) {
    let text = text_of(rt, alloc, caller.sends);
    let input = MemSource::new(alloc, text, 7, calls(rt, alloc, &[caller.read_fails]));
    let output = sink_of(rt, alloc, caller.takes, &[caller.write_fails]);
    (input, output)
}

fn door_of(rt: &impl Abort, alloc: Global, evening: &Evening<'_>) -> MemDoor {
    let mut ends = Vec::new(alloc);
    for caller in callers(evening) {
        ends.push(ends_of(rt, alloc, &caller)).expect(rt, "memory");
    }
    MemDoor::new(alloc, ends, calls(rt, alloc, &[evening.door_fails]))
}

// The first bytes of a text.
fn front(text: &str, bytes: usize) -> &[u8] {
    let text = text.as_bytes();
    &text[..bytes.min(text.len())]
}

fn is_sent(caller: &Caller<'_>, bytes: &[u8]) -> bool {
    for text in caller.gets {
        if front(text, caller.comes) == bytes {
            return true;
        }
    }
    false
}

// The connections that were served got what they are to get, in order.
fn has_sent(rt: &impl Abort, door: &MemDoor, evening: &Evening<'_>) {
    let mut ended = door.ended().iter();
    for caller in callers(evening) {
        if !caller.gets.is_empty() {
            let (_, output) = ended.next().expect(rt, "a session");
            assert!(rt; is_sent(&caller, output.bytes()), "{}", evening.output);
        }
    }
    assert!(rt; ended.next().is_none(), "{}", evening.output);
}

fn has_printed(rt: &impl Abort, alloc: Global, out: &MemSink, evening: &Evening<'_>) {
    let (output, ending) = (evening.output, evening.ending);
    let line_end = if ending.is_empty() { "" } else { "\n" };
    let wanted = format!(in alloc; "{output}{ending}{line_end}").expect(rt, "memory");
    assert_eq!(rt; out.bytes(), front(&wanted, evening.printed));
}

// Serves the evening's connections, which are sent what they are to be sent.
pub(super) fn check<R: Threads + Wait + Sync + Clone + Drop + Abort, P: Spawner<MemSitting<R>>>(
    rt: &R,
    alloc: Global,
    evening: &Evening<'_>,
    spawner: &mut P,
)
where
    P::Task: Drop,
    requires { P.fit spawner.old }
{
    let words = strings(rt, alloc, evening.words);
    let mut desk = desk_of(rt, alloc, THREE_SEATS, &[evening.desk_fails]);
    let mut out = sink_of(rt, alloc, evening.out_takes, &[evening.out_fails]);
    let mut door = door_of(rt, alloc, evening);
    let status = tabletop_serve(rt, alloc, &words, &mut desk, &mut out, &mut door, spawner);
    assert!(rt; status == evening.status, "{}", evening.output);
    has_printed(rt, alloc, &out, evening);
    has_sent(rt, &door, evening);
}

#[test]
fn serves_connections_or_says_why_not(rt: HostRuntime) {
    for evening in &EVENINGS {
        let starts = AtomicU64::new(0);
        let failing = evening.start_fails;
        let mut spawner = CallSpawner::new(
            |sitting: MemSitting<HostRuntime>| -> Result<Ran<HostRuntime>, Failed>
                ensures { IfOk result (λ ran. ran.sitting.value ≡ sitting) }
            { run_at_once(&starts, failing, sitting) },
            &rt,
        );
        check(&rt, rt.alloc(), evening, &mut spawner);
    }
}
