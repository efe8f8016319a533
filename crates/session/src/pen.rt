//! What both halves of a session write by.
ghost use Rattle.std.specs.Prelude.{◌≡◌, ◌≤◌, None, Some};
ghost use Rattle.session.specs.Begun.{IsAtStart, IsWritten, IsWrittenSo};
ghost use Rattle.session.specs.declared.pen.Step.TheVariants.{Over};

use crate::Table;
use crate::exchange::Found;
use crate::hold::Hold;
use crate::pace::Pace;
use crate::start::Start;
use crate::writing::{Wrote, exchange, leave, send};
use line_io::Outlet;
use std::marker::{Model, PhantomData};
use std::sync::Wait;
use turn_lock::{Hall, Pass};

/// What the writing came to.
#[derive(Clone, Copy, Debug, PartialEq, Eq)]
pub(crate) enum Step {
    /// Lines waited, and were written.
    More,
    /// None waits. The number is what `wait_act` takes.
    Idle(u64),
    /// The writing is over.
    Over(Wrote),
}

/// The writing pass of a session, and its output.
pub(crate) struct Ends<'a, O> {
    pub(crate) pass: &'a mut Pass<Table>,
    pub(crate) output: &'a mut O,
}

/// What a session writes by: its writing pass and its output, and how many lines were written whole. Both halves write by it,
/// one at a time. Contracts see how its writing ended, once it is over.
pub(crate) struct Pen<'a, S: Start, O: Outlet> {
    pass: &'a mut Pass<Table>,
    output: &'a mut O,
    count: u64,
    // Whether more lines were written than the last Taken said.
    news: bool,
    over: Option<Wrote>,
    of: PhantomData<S>,
}

impl<'a, S: Start, O: Outlet> Model for Pen<'a, S, O> {
    ghost use Rattle.std.specs.Prelude.{◌≡◌, Option};
    ghost use Rattle.session.specs.declared.writing.Wrote.{Wrote};
    ghost use Rattle.session.specs.Begun.{IsWrittenSo};

    ghost Value = { Option Wrote };

    ghost view = { λ pen. pen.over };

    ghost invariant = { λ pen. (pen.pass.ghost_name ≡ S.begun.pass_name) × (pen.output.ghost_name ≡ S.begun.output_name)
        × IsWrittenSo S.begun (O.safe pen.output.now) pen.pass.now pen.count pen.over (O.written pen.output.now)
        (O.faults_of pen.output.now) };
}

/// What is left of a pen after one more turn.
#[derive(Drop)]
struct Next {
    count: u64,
    news: bool,
    over: Option<Wrote>,
    seen: u64,
}

impl Next {
    fn over(count: u64, end: Wrote) -> Next
        ensures count { result.count ≡ count }
        ensures over { result.over ≡ Some end }
    {
        Next {
            count,
            news: false,
            over: Some(end),
            seen: 0,
        }
    }
}

impl<'a, S: Start, O: Outlet> Pen<'a, S, O> {
    /// By which nothing was written yet. Its next turn finds the session's Join.
    pub(crate) fn new<R: Wait>(
        rt: &R,
        hall: &Hall<Table>,
        hold: &Hold,
        ends: Ends<'a, O>,
    ) -> Pen<'a, S, O>
        requires hall { hall.now ≡ S.begun.hall }
        requires hold { hold.now ≡ S.begun.hold }
        requires names { (ends.pass.ghost_name ≡ S.begun.pass_name) × (ends.output.ghost_name ≡ S.begun.output_name) }
        requires start { IsAtStart S.begun ends.pass.now (O.written ends.output.now) (O.faults_of ends.output.now) }
    {
        let Ends { pass, output } = ends;
        hall.wait_past(rt, pass, hold.place);
        Pen {
            pass,
            output,
            count: 0,
            news: false,
            over: None,
            of: PhantomData,
        }
    }

    /// Its ends, behind all that was written.
    pub(crate) fn into_ends(self) -> Ends<'a, O>
        ensures names { (result.pass.ghost_name ≡ S.begun.pass_name) × (result.output.ghost_name ≡ S.begun.output_name) }
        ensures written { IsWritten S.begun (O.safe result.output.now) result.pass.now self.entry (O.written result.output.now)
            (O.faults_of result.output.now) }
    {
        let Pen {
            pass,
            output,
            count: _,
            news: _,
            over: _,
            of: _,
        } = self;
        Ends { pass, output }
    }

    /// One turn: says how many lines were written and finds those that wait then. These are written.
    pub(crate) fn write_on<R: Wait>(
        &mut self,
        rt: &R,
        hall: &Hall<Table>,
        hold: &Hold,
        pace: &Pace,
    ) -> Step
        requires hall { hall.now ≡ S.begun.hall }
        requires hold { hold.now ≡ S.begun.hold }
        ensures over { (end : Wrote) → result ≡ Over end → self.new ≡ Some end }
    {
        if let Some(end) = self.over {
            return Step::Over(end);
        }
        let next = write_next::<S, R, O>(
            rt,
            hall,
            hold,
            pace,
            self.count,
            self.news,
            self.pass,
            self.output,
        );
        self.count = next.count;
        self.news = next.news;
        self.over = next.over;
        match next.over {
            Some(end) => Step::Over(end),
            None if next.news => Step::More,
            None => Step::Idle(next.seen),
        }
    }

    /// Writes what waits until no more does, or the writing is over.
    pub(crate) fn write_all<R: Wait>(
        &mut self,
        rt: &R,
        hall: &Hall<Table>,
        hold: &Hold,
        pace: &Pace,
    ) -> Step
        requires hall { hall.now ≡ S.begun.hall }
        requires hold { hold.now ≡ S.begun.hold }
        ensures over { (end : Wrote) → result ≡ Over end → self.new ≡ Some end }
    {
        for _ in rt.forever() {
            let step = self.write_on(rt, hall, hold, pace);
            if step != Step::More {
                return step;
            }
        }
        unreachable!()
    }

    /// Writes what waits until the writing is over.
    pub(crate) fn write_to_end<R: Wait>(
        &mut self,
        rt: &R,
        hall: &Hall<Table>,
        hold: &Hold,
        pace: &Pace,
    ) -> Wrote
        requires hall { hall.now ≡ S.begun.hall }
        requires hold { hold.now ≡ S.begun.hold }
        ensures over { self.new ≡ Some result }
    {
        for _ in rt.forever() {
            match self.write_all(rt, hall, hold, pace) {
                Step::More => {}
                Step::Idle(seen) => hall.wait_act(rt, seen),
                Step::Over(end) => return end,
            }
        }
        unreachable!()
    }
}

// One turn, by the pass and the output alone.
fn write_next<S: Start, R: Wait, O: Outlet>(
    rt: &R,
    hall: &Hall<Table>,
    hold: &Hold,
    pace: &Pace,
    count: u64,
    news: bool,
    pass: &mut Pass<Table>,
    output: &mut O,
) -> Next
    requires hall { hall.now ≡ S.begun.hall }
    requires hold { hold.now ≡ S.begun.hold }
    requires written { IsWrittenSo S.begun (O.safe output.old) pass.old count None (O.written output.old) (O.faults_of output.old) }
    ensures written { IsWrittenSo S.begun (O.safe output.new) pass.new result.count result.over (O.written output.new)
        (O.faults_of output.new) }
{
    let (found, length, seen) = exchange(rt, hall, pass, hold, pace, count, news);
    let (text, lines) = match found {
        Found::Gone => return Next::over(count, Wrote::All),
        Found::Cut => return Next::over(count, Wrote::Cut),
        Found::Memory => {
            leave(rt, hall, pass, hold, pace);
            return Next::over(count, Wrote::Memory);
        }
        Found::Lines { text, lines } => (text, lines),
    };
    if lines == 0 {
        return Next {
            count,
            news: false,
            over: None,
            seen,
        };
    }
    match send(rt, &text, count, lines, length, output) {
        Ok(count) => Next {
            count,
            news: true,
            over: None,
            seen,
        },
        Err(stop) => {
            leave(rt, hall, pass, hold, pace);
            Next::over(count, stop)
        }
    }
}
