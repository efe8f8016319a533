//! Sessions whose outputs wait for a log.
use crate::runs::SessionSource;
use crash_log::{FileDisk, MemDisk};
use evening_log::LoggedSink;
use line_io::{MemSink, MemSource, Sink, TcpSink, TcpSource};
use session::{Sat, Table, serve_session};
use std::alloc::Global;
use std::sync::Wait;
use std::thread::Threads;
use turn_lock::{Hall, Pass};

/// An output over TCP that waits for a log in a file.
pub type LoggedTcpSink = LoggedSink<TcpSink<HostRuntime>, Table, FileDisk>;

/// An output in memory that waits for a log in memory.
pub type LoggedMemSink = LoggedSink<MemSink, Table, MemDisk>;

impl SessionSource<LoggedTcpSink> for TcpSource<HostRuntime> {
    fn serve<R: Threads + Wait + Sync>(
        rt: &R,
        alloc: Global,
        hall: &Hall<Table>,
        reader: Pass<Table>,
        writer: Pass<Table>,
        input: &mut TcpSource<HostRuntime>,
        output: &mut LoggedTcpSink,
    ) -> Sat {
        serve_session(rt, alloc, hall, reader, writer, input, output)
    }

    fn close_output(output: &mut LoggedTcpSink, word: &str) {
        output.close(word);
    }
}

impl SessionSource<LoggedMemSink> for MemSource {
    fn serve<R: Threads + Wait + Sync>(
        rt: &R,
        alloc: Global,
        hall: &Hall<Table>,
        reader: Pass<Table>,
        writer: Pass<Table>,
        input: &mut MemSource,
        output: &mut LoggedMemSink,
    ) -> Sat {
        serve_session(rt, alloc, hall, reader, writer, input, output)
    }

    fn close_output(output: &mut LoggedMemSink, word: &str) {
        output.close(word);
    }
}
