//! A session whose output takes nothing until all is said is cut, and the one that speaks to it goes on.
ghost use Rattle.std.specs.Prelude.{◌≤◌, length, IfOk};
ghost use Rattle.turn_lock.specs.Pass.{IsPassOf};
ghost use Rattle.campaign_law.specs.Law.{IsOpening};

use crate::tests::side_by_side::{
    ANNS_HELLO, BYE, Counted, Gate, Gated, Passes, copied, two_sessions,
};
use crate::{Ended, Table, serve_session};
use line_io::{Failed, Outlet, Sink, Source, write_whole};
use std::alloc::Global;
use std::sync::Wait;
use std::sync::atomic::{AtomicU64, Ordering};
use std::test::Fail;
use std::thread::{Threads, join};
use turn_lock::Hall;

const MASTERS_HELLO: &[u8] = b"{\"do\":\"hello\",\"seat\":0,\"key\":\"g\"}\n";

// 97 bytes wait for Anna behind her hello, and 1,028 more with each message. So many are the first for which more than
// 4,194,304 wait.
const MESSAGES: u64 = 4_080;

// The hello's reply and full line, a reply for each message, and the bye's.
const MASTERS_LINES: u64 = MESSAGES + 3;

// So often a gate is looked at before it is given up.
const YIELDS: u32 = 1_000_000_000;

// Says hello, and once the gate is open the same line again and again, and then bye. Where it doesn't open it fails.
#[derive(Drop)]
struct Speaker<'a> {
    said_hello: bool,
    line: &'a [u8],
    messages: u64,
    gate: Gate<'a>,
    faults: u64,
}

impl<'a> Source for Speaker<'a> {
    ghost faults_of = { λ s. s.faults };

    fn read(&mut self, piece: &mut [u8]) -> Result<usize, Failed> {
        if !self.said_hello {
            self.said_hello = true;
            return Ok(copied(MASTERS_HELLO, piece));
        }
        if !self.gate.opens_within(YIELDS) {
            self.faults = self.faults.saturating_add(1);
            return Err(Failed);
        }
        if self.messages == 0 {
            return Ok(copied(BYE, piece));
        }
        self.messages -= 1;
        Ok(copied(self.line, piece))
    }

    fn faults(&self) -> u64 {
        self.faults
    }
}

// Tells that something is offered, and takes it once the gate is open. Where that doesn't open it fails.
#[derive(Drop)]
struct Stuck<'a> {
    offers: &'a AtomicU64,
    gate: Gate<'a>,
    faults: u64,
}

impl<'a> Sink for Stuck<'a> {
    ghost faults_of = { λ s. s.faults };

    fn write(&mut self, piece: &[u8]) -> Result<usize, Failed> {
        self.offers.fetch_add(1, Ordering::SeqCst);
        if !self.gate.opens_within(YIELDS) {
            self.faults = self.faults.saturating_add(1);
            return Err(Failed);
        }
        Ok(piece.len())
    }

    fn faults(&self) -> u64 {
        self.faults
    }
}

// Nothing is held back.
impl<'a> Outlet for Stuck<'a> {
    fn tell<R: Wait>(&mut self, _rt: &R, bytes: &[u8], _length: u64) -> Result<(), Failed> {
        write_whole(self, bytes)
    }
}

// Anna's output takes her first lines once the game master had all of his, and she says bye then.
fn serve_ann<R: Threads + Wait + Sync>(
    rt: &R,
    alloc: Global,
    hall: &Hall<Table>,
    passes: Passes,
    offers: &AtomicU64,
    lines: &AtomicU64,
) -> Ended
    requires reader { IsPassOf hall.now passes.reader }
    requires writer { IsPassOf hall.now passes.writer }
    requires opening { IsOpening hall.now.origin }
{
    let gate = Gate {
        lines,
        least: MASTERS_LINES,
    };
    let mut input = Gated::of(ANNS_HELLO, BYE, YIELDS, gate, gate);
    let mut output = Stuck {
        offers,
        gate,
        faults: 0,
    };
    let Passes { reader, writer } = passes;
    serve_session(rt, alloc, hall, reader, writer, &mut input, &mut output).ended
}

// The game master speaks to Anna once lines are offered to her.
fn serve_master<R: Threads + Wait + Sync>(
    rt: &R,
    alloc: Global,
    hall: &Hall<Table>,
    passes: Passes,
    line: &[u8],
    offers: &AtomicU64,
    lines: &AtomicU64,
) -> Ended
    requires reader { IsPassOf hall.now passes.reader }
    requires writer { IsPassOf hall.now passes.writer }
    requires opening { IsOpening hall.now.origin }
{
    let gate = Gate {
        lines: offers,
        least: 1,
    };
    let mut input = Speaker {
        said_hello: false,
        line,
        messages: MESSAGES,
        gate,
        faults: 0,
    };
    let mut output = Counted { lines };
    let Passes { reader, writer } = passes;
    serve_session(rt, alloc, hall, reader, writer, &mut input, &mut output).ended
}

fn serve_both<R: Threads + Wait + Sync>(
    rt: &R,
    alloc: Global,
    line: &[u8],
    offers: &AtomicU64,
    lines: &AtomicU64,
) -> Result<(Ended, Ended), Fail> {
    let (hall, first, second) = two_sessions(alloc)?;
    Ok(join(
        rt,
        || -> Ended
            requires { IsPassOf hall first.reader × IsPassOf hall first.writer × IsOpening hall.origin }
        { serve_ann(rt, alloc, &hall, first, offers, lines) },
        || -> Ended
            requires { IsPassOf hall second.reader × IsPassOf hall second.writer × IsOpening hall.origin }
        { serve_master(rt, alloc, &hall, second, line, offers, lines) },
    ))
}

#[test]
fn who_never_reads_is_cut(rt: HostRuntime) -> Result<(), Fail> {
    let (offers, lines) = (AtomicU64::new(0), AtomicU64::new(0));
    let text = "x".repeat(rt.alloc(), 1_000)?;
    let line = format!(in rt.alloc(); "{{\"do\":\"say\",\"text\":\"{text}\",\"to\":1}}\n")?;
    let (ann, master) = serve_both(&rt, rt.alloc(), line.as_bytes(), &offers, &lines)?;
    assert!(rt; ann == Ended::Cut);
    assert!(rt; master == Ended::Left);
    Ok(())
}
