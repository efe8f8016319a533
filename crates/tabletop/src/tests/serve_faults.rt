//! Each read and each write of connections over memory fails once, in turn, and what they send ends at each byte.
ghost use Rattle.std.specs.Prelude.{◌≡◌, IfOk};

use super::at_once::{MemSitting, Ran, run_at_once};
use super::campaigns::THREE_SEATS;
use super::serves::{
    BAD_KEY, Caller, Evening, FIRST, JOINED_AND_LEFT, JOINED_AT_1, JOINED_AT_2, JOINED_AT_3, NONE,
    PLAIN, SECOND, THIRD, check,
};
use line_io::{CallSpawner, Failed};
use std::alloc::Global;
use std::process::Abort;
use std::sync::atomic::AtomicU64;

const NO_HELLO: &str = r#"{"n":0,"no":27,"refused":"NoHello"}
"#;

// The second line is cut.
const JOINED_AND_CUT: &str = r#"{"n":1,"ok":"hello","seat":1,"seats":3}
{"full":{"lights":{},"maps":[],"sights":{},"tokens":[]}}
{"n":2,"no":1,"refused":"BadJson"}
"#;

// What befalls a connection.
#[derive(Clone, Copy)]
enum Fault {
    // The read of a number fails, of which each gives seven bytes.
    Read,
    // The write of a number fails, of which each takes one byte.
    Write,
    // So many bytes are sent, and no more.
    End,
}

// At each of these numbers, the fault befalls the connection. Then it is sent this, of which a write that fails takes nothing
// more; the third gets one of these, and this is printed.
#[derive(Clone, Copy)]
struct Row<'a> {
    caller: u8,
    fault: Fault,
    least: usize,
    most: usize,
    gets: &'a [&'a str],
    third_gets: &'a [&'a str],
    output: &'a str,
}

static ROWS: [Row<'static>; 20] = [
    // The hello has 34 bytes.
    Row {
        caller: 1,
        fault: Fault::Read,
        least: 0,
        most: 4,
        gets: &[""],
        third_gets: &[JOINED_AT_1],
        output: "1 ReadFault\n2 Refused BadKey\n3 Left\n",
    },
    // What came before is answered.
    Row {
        caller: 1,
        fault: Fault::Read,
        least: 5,
        most: 6,
        gets: &[JOINED_AT_1],
        third_gets: &[JOINED_AT_2],
        output: "1 ReadFault\n2 Refused BadKey\n3 Left\n",
    },
    Row {
        caller: 2,
        fault: Fault::Read,
        least: 0,
        most: 4,
        gets: &[""],
        third_gets: &[JOINED_AT_3],
        output: "1 Left\n2 ReadFault\n3 Left\n",
    },
    Row {
        caller: 3,
        fault: Fault::Read,
        least: 0,
        most: 4,
        gets: &[""],
        third_gets: &[],
        output: "1 Left\n2 Refused BadKey\n3 ReadFault\n",
    },
    Row {
        caller: 3,
        fault: Fault::Read,
        least: 5,
        most: 5,
        gets: &[JOINED_AT_3],
        third_gets: &[],
        output: "1 Left\n2 Refused BadKey\n3 ReadFault\n",
    },
    // The bye may have been read or not. The seat is free again.
    Row {
        caller: 1,
        fault: Fault::Write,
        least: 0,
        most: 96,
        gets: &[JOINED_AT_1],
        third_gets: &[JOINED_AT_2, JOINED_AT_3],
        output: "1 WriteFault\n2 Refused BadKey\n3 Left\n",
    },
    Row {
        caller: 1,
        fault: Fault::Write,
        least: 97,
        most: 115,
        gets: &[JOINED_AND_LEFT],
        third_gets: &[JOINED_AT_3],
        output: "1 WriteFault\n2 Refused BadKey\n3 Left\n",
    },
    // It is refused all the same.
    Row {
        caller: 2,
        fault: Fault::Write,
        least: 0,
        most: 34,
        gets: &[BAD_KEY],
        third_gets: &[JOINED_AT_3],
        output: "1 Left\n2 Refused BadKey\n3 Left\n",
    },
    Row {
        caller: 3,
        fault: Fault::Write,
        least: 0,
        most: 96,
        gets: &[JOINED_AT_3],
        third_gets: &[],
        output: "1 Left\n2 Refused BadKey\n3 WriteFault\n",
    },
    // Without a byte it leaves.
    Row {
        caller: 1,
        fault: Fault::End,
        least: 0,
        most: 0,
        gets: &[""],
        third_gets: &[JOINED_AT_1],
        output: "1 Left\n2 Refused BadKey\n3 Left\n",
    },
    Row {
        caller: 1,
        fault: Fault::End,
        least: 1,
        most: 32,
        gets: &[NO_HELLO],
        third_gets: &[JOINED_AT_1],
        output: "1 Refused NoHello\n2 Refused BadKey\n3 Left\n",
    },
    Row {
        caller: 1,
        fault: Fault::End,
        least: 33,
        most: 34,
        gets: &[JOINED_AT_1],
        third_gets: &[JOINED_AT_2],
        output: "1 Left\n2 Refused BadKey\n3 Left\n",
    },
    Row {
        caller: 1,
        fault: Fault::End,
        least: 35,
        most: 45,
        gets: &[JOINED_AND_CUT],
        third_gets: &[JOINED_AT_3],
        output: "1 Left\n2 Refused BadKey\n3 Left\n",
    },
    Row {
        caller: 1,
        fault: Fault::End,
        least: 46,
        most: 47,
        gets: &[JOINED_AND_LEFT],
        third_gets: &[JOINED_AT_3],
        output: "1 Left\n2 Refused BadKey\n3 Left\n",
    },
    Row {
        caller: 2,
        fault: Fault::End,
        least: 0,
        most: 0,
        gets: &[""],
        third_gets: &[JOINED_AT_3],
        output: "1 Left\n2 Left\n3 Left\n",
    },
    Row {
        caller: 2,
        fault: Fault::End,
        least: 1,
        most: 32,
        gets: &[NO_HELLO],
        third_gets: &[JOINED_AT_3],
        output: "1 Left\n2 Refused NoHello\n3 Left\n",
    },
    Row {
        caller: 2,
        fault: Fault::End,
        least: 33,
        most: 34,
        gets: &[BAD_KEY],
        third_gets: &[JOINED_AT_3],
        output: "1 Left\n2 Refused BadKey\n3 Left\n",
    },
    Row {
        caller: 3,
        fault: Fault::End,
        least: 0,
        most: 0,
        gets: &[""],
        third_gets: &[],
        output: "1 Left\n2 Refused BadKey\n3 Left\n",
    },
    Row {
        caller: 3,
        fault: Fault::End,
        least: 1,
        most: 32,
        gets: &[NO_HELLO],
        third_gets: &[],
        output: "1 Left\n2 Refused BadKey\n3 Refused NoHello\n",
    },
    Row {
        caller: 3,
        fault: Fault::End,
        least: 33,
        most: 34,
        gets: &[JOINED_AT_3],
        third_gets: &[],
        output: "1 Left\n2 Refused BadKey\n3 Left\n",
    },
];

// Outputs that take one byte at once, or nothing.
static SLOW: [Evening<'static>; 4] = [
    Evening {
        first: Caller { takes: 1, ..FIRST },
        second: Caller { takes: 1, ..SECOND },
        third: Caller { takes: 1, ..THIRD },
        out_takes: 1,
        ..PLAIN
    },
    Evening {
        first: Caller {
            takes: 0,
            gets: &[""],
            ..FIRST
        },
        third: Caller {
            gets: &[JOINED_AT_2, JOINED_AT_3],
            ..THIRD
        },
        output: "1 WriteFault\n2 Refused BadKey\n3 Left\n",
        ..PLAIN
    },
    Evening {
        second: Caller {
            takes: 0,
            gets: &[""],
            ..SECOND
        },
        ..PLAIN
    },
    Evening {
        third: Caller {
            takes: 0,
            gets: &[""],
            ..THIRD
        },
        output: "1 Left\n2 Refused BadKey\n3 WriteFault\n",
        ..PLAIN
    },
];

// The connection with the fault of this number.
fn befallen<'a>(rt: &impl Abort, caller: Caller<'a>, row: &Row<'a>, number: usize) -> Caller<'a> {
    let gets = row.gets;
    match row.fault {
        Fault::Read => Caller {
            read_fails: number as u64,
            gets,
            ..caller
        },
        Fault::Write => Caller {
            write_fails: number as u64,
            takes: 1,
            gets,
            comes: number,
            ..caller
        },
        Fault::End => Caller {
            sends: caller.sends.get(..number).expect(rt, "a front"),
            gets,
            ..caller
        },
    }
}

fn evening_of<'a>(rt: &impl Abort, row: &Row<'a>, number: usize) -> Evening<'a> {
    let third = Caller {
        gets: row.third_gets,
        ..THIRD
    };
    let evening = Evening {
        third,
        output: row.output,
        ..PLAIN
    };
    match row.caller {
        1 => Evening {
            first: befallen(rt, FIRST, row, number),
            ..evening
        },
        2 => Evening {
            second: befallen(rt, SECOND, row, number),
            ..evening
        },
        _ => Evening {
            third: befallen(rt, THIRD, row, number),
            ..evening
        },
    }
}

// An evening for each row and each of its numbers, and the slow ones.
fn faulty(rt: &impl Abort, alloc: Global) -> Vec<Evening<'static>> {
    let mut evenings = SLOW.to_vec(alloc).expect(rt, "memory");
    for row in &ROWS {
        for number in row.least..=row.most {
            let evening = evening_of(rt, row, number);
            evenings.push(evening).expect(rt, "memory");
        }
    }
    evenings
}

#[test]
fn each_call_of_a_connection_fails_once(rt: HostRuntime) {
    for evening in &faulty(&rt, rt.alloc()) {
        let starts = AtomicU64::new(0);
        let mut spawner = CallSpawner::new(
            |sitting: MemSitting<HostRuntime>| -> Result<Ran<HostRuntime>, Failed>
                ensures { IfOk result (λ ran. ran.sitting.value ≡ sitting) }
            { run_at_once(&starts, NONE, sitting) },
            &rt,
        );
        check(&rt, rt.alloc(), evening, &mut spawner);
    }
}

// Each write of the output takes one byte; the one of this number fails, where one is made.
fn printed_until(number: usize) -> Evening<'static> {
    Evening {
        words: &["serve", "--end", "table.json", "7000", "3"],
        out_takes: 1,
        out_fails: number as u64,
        status: 5,
        ending: THREE_SEATS,
        printed: number,
        ..PLAIN
    }
}

#[test]
fn each_write_of_the_output_fails_once(rt: HostRuntime) {
    for number in 0..PLAIN.output.len() + THREE_SEATS.len() + 1 {
        let starts = AtomicU64::new(0);
        let mut spawner = CallSpawner::new(
            |sitting: MemSitting<HostRuntime>| -> Result<Ran<HostRuntime>, Failed>
                ensures { IfOk result (λ ran. ran.sitting.value ≡ sitting) }
            { run_at_once(&starts, NONE, sitting) },
            &rt,
        );
        check(&rt, rt.alloc(), &printed_until(number), &mut spawner);
    }
}
