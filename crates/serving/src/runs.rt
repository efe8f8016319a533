//! Sessions as works.
ghost use Rattle.std.specs.Prelude.{◌≡◌, ◌≤◌, ℕ};
ghost use denote.Param.Send.{IsSync};
ghost use Rattle.turn_lock.specs.Pass.{IsPassOf};
ghost use Rattle.campaign_law.specs.Law.{IsOpening};
ghost use Rattle.session.specs.Safely.{SaysSafely};
ghost use Rattle.serving.specs.Runs.{HasRun, IsSafeRun};

use crate::guests::Word;
use crate::printing::text_of;
use crate::sittings::Sitting;
use line_io::{MemSink, MemSource, Outlet, Sink, Source, TcpSink, TcpSource, Work};
use session::{Sat, Table, serve_session};
use std::alloc::Global;
use std::sync::Wait;
use std::thread::Threads;
use turn_lock::{Hall, Pass};

/// A source that a session reads in a thread of its own, beside another that writes a sink of this type.
pub trait SessionSource<O: Outlet>: Source + Sized {
    /// Serves a session, as `serve_session` does.
    fn serve<R: Threads + Wait + Sync>(
        rt: &R,
        alloc: Global,
        hall: &Hall<Table>,
        reader: Pass<Table>,
        writer: Pass<Table>,
        input: &mut Self,
        output: &mut O,
    ) -> Sat
        requires sync { IsSync R.row }
        requires passes { IsPassOf hall.now reader × IsPassOf hall.now writer }
        requires opening { IsOpening hall.now.origin }
        ensures run { HasRun hall.now reader result.reader writer result.writer (Self.Source.left input.old) (Self.Source.left input.new)
            (O.written output.old) (O.written output.new)
            (Self.Source.faults_of input.old) (Self.Source.faults_of input.new) (O.faults_of output.old)
            (O.faults_of output.new) result.ended }
        ensures safe { SaysSafely (O.safe output.new) hall.now.origin reader result.reader writer result.writer
            (O.written output.old) (O.written output.new) };

    /// Closes the output with this word. What is safe stays so.
    fn close_output(output: &mut O, word: &str)
        ensures written { O.written output.new ≡ O.written output.old }
        ensures count { O.faults_of output.new ≡ O.faults_of output.old }
        ensures still { (n : ℕ) → O.safe output.old n → O.safe output.new n };
}

impl SessionSource<MemSink> for MemSource {
    ghost use Rattle.std.specs.Prelude.{Some};

    fn serve<R: Threads + Wait + Sync>(
        rt: &R,
        alloc: Global,
        hall: &Hall<Table>,
        reader: Pass<Table>,
        writer: Pass<Table>,
        input: &mut MemSource,
        output: &mut MemSink,
    ) -> Sat
        requires sync { IsSync R.row }
        requires passes { IsPassOf hall.now reader × IsPassOf hall.now writer }
        requires opening { IsOpening hall.now.origin }
        ensures run { HasRun hall.now reader result.reader writer result.writer (Some input.old.left) (Some input.new.left)
            (Some output.old.written) (Some output.new.written)
            input.old.plan.faults input.new.plan.faults output.old.plan.faults output.new.plan.faults result.ended }
        ensures safe { SaysSafely (λ n. Unit {0}) hall.now.origin reader result.reader writer result.writer
            (Some output.old.written) (Some output.new.written) }
    {
        serve_session(rt, alloc, hall, reader, writer, input, output)
    }

    fn close_output(output: &mut MemSink, word: &str) {
        output.close(word);
    }
}

// It tells nothing of its bytes.
impl SessionSource<TcpSink<HostRuntime>> for TcpSource<HostRuntime> {
    ghost use Rattle.std.specs.Prelude.{None};

    fn serve<R: Threads + Wait + Sync>(
        rt: &R,
        alloc: Global,
        hall: &Hall<Table>,
        reader: Pass<Table>,
        writer: Pass<Table>,
        input: &mut TcpSource<HostRuntime>,
        output: &mut TcpSink<HostRuntime>,
    ) -> Sat
        requires sync { IsSync R.row }
        requires passes { IsPassOf hall.now reader × IsPassOf hall.now writer }
        requires opening { IsOpening hall.now.origin }
        ensures run { HasRun hall.now reader result.reader writer result.writer None None None None input.old input.new
            output.old output.new result.ended }
        ensures safe { SaysSafely (λ n. Unit {0}) hall.now.origin reader result.reader writer result.writer None None }
    {
        serve_session(rt, alloc, hall, reader, writer, input, output)
    }

    fn close_output(output: &mut TcpSink<HostRuntime>, word: &str) {
        output.close(word);
    }
}

impl<R: Threads + Wait + Sync + Drop, I: SessionSource<O> + Drop, O: Outlet + Drop> Work
    for Sitting<R, I, O> {
    type Done = ((I, O), Sat);

    ghost ready = { λ s. IsSync R.row };

    ghost done = { λ s r. IsSafeRun O.safe I.left O.written I.faults_of O.faults_of s r };

    /// Serves the session over its two ends, closes them, its output with the word of how it ended, and gives them back.
    fn run(self) -> ((I, O), Sat) {
        let Sitting {
            rt,
            alloc,
            hall,
            reader,
            writer,
            mut input,
            mut output,
        } = self;
        let sat = I::serve(&rt, alloc, &hall, reader, writer, &mut input, &mut output);
        I::close_output(&mut output, text_of(Word::Ended(sat.ended)));
        input.close();
        ((input, output), sat)
    }
}
