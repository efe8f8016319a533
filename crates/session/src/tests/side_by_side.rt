//! Two sessions side by side by threads, each of which goes on only once the other's lines were written.
ghost use Rattle.std.specs.Prelude.{◌≤◌, length, IfOk};
ghost use Rattle.turn_lock.specs.Pass.{IsPassOf};
ghost use Rattle.campaign_law.specs.Law.{IsOpening};

use crate::tests::{opened_hall, two_of};
use crate::{Ended, Table, serve_session};
use line_io::{Failed, Outlet, Sink, Source, write_whole};
use std::alloc::Global;
use std::sync::Wait;
use std::sync::atomic::{AtomicU64, Ordering};
use std::test::Fail;
use std::thread::{self, Threads, join};
use turn_lock::{Hall, Pass};

pub(super) const ANNS_HELLO: &[u8] = b"{\"do\":\"hello\",\"seat\":1,\"key\":\"a\"}\n";

const BOBS_HELLO: &[u8] = b"{\"do\":\"hello\",\"seat\":2,\"key\":\"b\"}\n";

pub(super) const BYE: &[u8] = b"{\"do\":\"bye\"}\n";

const SAY_AND_BYE: &[u8] = b"{\"do\":\"say\",\"text\":\"hi\"}\n{\"do\":\"bye\"}\n";

// So often a gate is looked at before it is given up.
const YIELDS: u32 = 1_000_000;

// The lines that an output took, of which so many are waited for.
#[derive(Clone, Copy)]
pub(super) struct Gate<'a> {
    pub(super) lines: &'a AtomicU64,
    pub(super) least: u64,
}

impl<'a> Gate<'a> {
    fn is_open(&self) -> bool {
        self.lines.load(Ordering::SeqCst) >= self.least
    }

    pub(super) fn opens_within(&self, yields: u32) -> bool {
        for _ in 0..yields {
            if self.is_open() {
                return true;
            }
            thread::yield_now();
        }
        false
    }
}

#[derive(Clone, Copy, PartialEq, Eq)]
enum Stage {
    Hello,
    Bye,
    End,
}

// Gives a hello, and its last lines once both gates are open. Where one doesn't open it fails.
#[derive(Drop)]
pub(super) struct Gated<'a> {
    hello: &'a [u8],
    last: &'a [u8],
    yields: u32,
    stage: Stage,
    anns: Gate<'a>,
    bobs: Gate<'a>,
    faults: u64,
}

impl<'a> Gated<'a> {
    pub(super) fn of(
        hello: &'a [u8],
        last: &'a [u8],
        yields: u32,
        anns: Gate<'a>,
        bobs: Gate<'a>,
    ) -> Gated<'a> {
        Gated {
            hello,
            last,
            yields,
            stage: Stage::Hello,
            anns,
            bobs,
            faults: 0,
        }
    }
}

pub(super) fn copied(line: &[u8], piece: &mut [u8]) -> usize
    ensures { result ≤ length piece.new }
{
    let count = line.len().min(piece.len());
    piece[..count].copy_from_slice(&line[..count]);
    count
}

impl<'a> Source for Gated<'a> {
    ghost faults_of = { λ s. s.faults };

    fn read(&mut self, piece: &mut [u8]) -> Result<usize, Failed> {
        match self.stage {
            Stage::Hello => {
                self.stage = Stage::Bye;
                Ok(copied(self.hello, piece))
            }
            Stage::Bye => {
                if !(self.anns.opens_within(self.yields) && self.bobs.opens_within(self.yields)) {
                    self.faults = self.faults.saturating_add(1);
                    return Err(Failed);
                }
                self.stage = Stage::End;
                Ok(copied(self.last, piece))
            }
            Stage::End => Ok(0),
        }
    }

    fn faults(&self) -> u64 {
        self.faults
    }
}

// Counts the lines that it takes.
#[derive(Drop)]
pub(super) struct Counted<'a> {
    pub(super) lines: &'a AtomicU64,
}

impl<'a> Sink for Counted<'a> {
    ghost faults_of = { λ s. 0 };

    fn write(&mut self, piece: &[u8]) -> Result<usize, Failed> {
        for byte in piece {
            if *byte == b'\n' {
                self.lines.fetch_add(1, Ordering::SeqCst);
            }
        }
        Ok(piece.len())
    }

    fn faults(&self) -> u64 {
        0
    }
}

// Nothing is held back.
impl<'a> Outlet for Counted<'a> {
    fn tell<R: Wait>(&mut self, _rt: &R, bytes: &[u8], _length: u64) -> Result<(), Failed> {
        write_whole(self, bytes)
    }
}

// A session's two passes.
#[derive(Drop)]
pub(super) struct Passes {
    pub(super) reader: Pass<Table>,
    pub(super) writer: Pass<Table>,
}

// A hall for two sessions.
pub(super) fn two_sessions(alloc: Global) -> Result<(Hall<Table>, Passes, Passes), Fail>
    ensures opening { IfOk result (λ made. IsOpening made.0.origin) }
    ensures anns { IfOk result (λ made. IsPassOf made.0 made.1.reader × IsPassOf made.0 made.1.writer) }
    ensures bobs { IfOk result (λ made. IsPassOf made.0 made.2.reader × IsPassOf made.0 made.2.writer) }
{
    let (hall, mut usher, first) = opened_hall(alloc)?;
    let (first, second) = two_of(&hall, &mut usher, first)?;
    let (first, third) = two_of(&hall, &mut usher, first)?;
    let (first, fourth) = two_of(&hall, &mut usher, first)?;
    let anns = Passes {
        reader: first,
        writer: second,
    };
    let bobs = Passes {
        reader: third,
        writer: fourth,
    };
    Ok((hall, anns, bobs))
}

// Anna says something and then bye once Bob has two lines.
fn serve_ann<R: Threads + Wait + Sync>(
    rt: &R,
    alloc: Global,
    hall: &Hall<Table>,
    passes: Passes,
    anns: &AtomicU64,
    bobs: &AtomicU64,
) -> Ended
    requires reader { IsPassOf hall.now passes.reader }
    requires writer { IsPassOf hall.now passes.writer }
    requires opening { IsOpening hall.now.origin }
{
    let anns_gate = Gate {
        lines: anns,
        least: 0,
    };
    let bobs_gate = Gate {
        lines: bobs,
        least: 2,
    };
    let mut input = Gated::of(ANNS_HELLO, SAY_AND_BYE, YIELDS, anns_gate, bobs_gate);
    let mut output = Counted { lines: anns };
    let Passes { reader, writer } = passes;
    serve_session(rt, alloc, hall, reader, writer, &mut input, &mut output).ended
}

// Bob says bye once Anna has a line and he has three: the last is Anna's, who says it while his next line is waited for.
fn serve_bob<R: Threads + Wait + Sync>(
    rt: &R,
    alloc: Global,
    hall: &Hall<Table>,
    passes: Passes,
    anns: &AtomicU64,
    bobs: &AtomicU64,
) -> Ended
    requires reader { IsPassOf hall.now passes.reader }
    requires writer { IsPassOf hall.now passes.writer }
    requires opening { IsOpening hall.now.origin }
{
    let anns_gate = Gate {
        lines: anns,
        least: 1,
    };
    let bobs_gate = Gate {
        lines: bobs,
        least: 3,
    };
    let mut input = Gated::of(BOBS_HELLO, BYE, YIELDS, anns_gate, bobs_gate);
    let mut output = Counted { lines: bobs };
    let Passes { reader, writer } = passes;
    serve_session(rt, alloc, hall, reader, writer, &mut input, &mut output).ended
}

fn serve_both<R: Threads + Wait + Sync>(
    rt: &R,
    alloc: Global,
    anns: &AtomicU64,
    bobs: &AtomicU64,
) -> Result<(Ended, Ended), Fail> {
    let (hall, first, second) = two_sessions(alloc)?;
    Ok(join(
        rt,
        || -> Ended
            requires { IsPassOf hall first.reader × IsPassOf hall first.writer × IsOpening hall.origin }
        { serve_ann(rt, alloc, &hall, first, anns, bobs) },
        || -> Ended
            requires { IsPassOf hall second.reader × IsPassOf hall second.writer × IsOpening hall.origin }
        { serve_bob(rt, alloc, &hall, second, anns, bobs) },
    ))
}

#[test]
fn two_sessions_run_side_by_side(rt: HostRuntime) -> Result<(), Fail> {
    let (anns, bobs) = (AtomicU64::new(0), AtomicU64::new(0));
    let (ann, bob) = serve_both(&rt, rt.alloc(), &anns, &bobs)?;
    assert!(rt; ann == Ended::Left);
    assert!(rt; bob == Ended::Left);
    Ok(())
}
