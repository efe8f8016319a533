//! The two ends of a connection over TCP.
ghost use Rattle.std.specs.Prelude.{◌≡◌, ◌≤◌, ◌<◌, length, IfSome};
ghost use Rattle.std.specs.Io.{ReadsAtMost};

use crate::faults::{Failed, counted};
use crate::host_notes::{tell, tell_seat};
use crate::sinks::Sink;
use crate::sources::Source;
use std::alloc::Global;
use std::io;
use std::io::{Eprint, ErrorKind, Read, Write};
use std::marker::Model;
use std::net::{Shutdown, TcpStream};
use std::sync::Arc;
use std::time::{Clock, Duration, Instant};

// How many seconds a client may take for its first line, from the start of its connection on.
const FIRST_LINE: u64 = 60;

// For how many seconds what a client still sends is taken once its connection is closed.
const LINGER: u64 = 1;

// Both ends have one stream, and so one descriptor: it is free again once both are closed.
type Shared = Option<Arc<TcpStream>>;

/// What a client sends. It doesn't tell what it has left. A read fails where the client has sent no whole line within a minute
/// from the start of its connection on; once it has, a read waits as long as it takes.
#[derive(Drop)]
pub struct TcpSource<C> {
    clock: C,
    stream: Shared,
    // When the connection began, until its first line is there.
    since: Option<Instant>,
    // Whether the client may send more.
    goes_on: bool,
    faults: u64,
}

// Contracts see the count of its faults.
impl<C> Model for TcpSource<C> {
    ghost use Rattle.std.specs.Prelude.{ℕ};

    ghost Value = { ℕ };

    ghost view = { λ s. s.faults };
}

/// What a client is sent. It doesn't tell what it took. The host is told on standard error when the client sat down, and how its
/// session ended.
#[derive(Drop)]
pub struct TcpSink<R> {
    rt: R,
    // The connection's, in order of arrival from 1 on.
    number: u64,
    stream: Shared,
    // Whether something was written.
    began: bool,
    faults: u64,
}

// Contracts see the count of its faults.
impl<R> Model for TcpSink<R> {
    ghost use Rattle.std.specs.Prelude.{ℕ};

    ghost Value = { ℕ };

    ghost view = { λ s. s.faults };
}

/// The two ends of the connection of this number, which began just now. Where there is no memory for them, it ends, and each read
/// and write fails.
pub(crate) fn ends_of<R: Clock + Copy>(
    rt: R,
    alloc: Global,
    number: u64,
    stream: TcpStream,
) -> (TcpSource<R>, TcpSink<R>) {
    let stream = Arc::new(alloc, stream).ok();
    let other = stream
        .as_ref()
        .and_then(|stream| Arc::try_clone(stream).ok());
    let source = TcpSource {
        since: Instant::now(&rt).ok(),
        clock: rt,
        stream,
        goes_on: true,
        faults: 0,
    };
    let sink = TcpSink {
        rt,
        number,
        stream: other,
        began: false,
        faults: 0,
    };
    (source, sink)
}

// Reads what comes within so many seconds from then on. Where nothing does, it fails.
fn read_within<C: Clock>(
    clock: &C,
    stream: &TcpStream,
    since: Instant,
    seconds: u64,
    piece: &mut [u8],
) -> io::Result<usize>
    ensures { ReadsAtMost result piece.new }
{
    let left = Duration::from_secs(seconds).saturating_sub(since.elapsed(clock)?);
    if left.is_zero() {
        return Err(io::Error::from(ErrorKind::TimedOut));
    }
    stream.set_read_timeout(Some(left))?;
    let mut stream = stream;
    stream.read(piece)
}

// Takes what the client still sends, up to its end or for a while. (To a client whose bytes wait unread in a connection that
// is closed, the system tells a break, and may take from it lines that it has not read.)
fn linger<C: Clock>(clock: &C, stream: &TcpStream) -> io::Result<()> {
    let since = Instant::now(clock)?;
    let mut piece = [0; 4096];
    for _ in 0..u64::MAX {
        if read_within(clock, stream, since, LINGER, &mut piece)? == 0 {
            break;
        }
    }
    Ok(())
}

impl<C: Clock> TcpSource<C> {
    fn received(&mut self, piece: &mut [u8]) -> io::Result<usize>
        ensures read { ReadsAtMost result piece.new }
        ensures count { self.new ≡ self.old }
    {
        let Some(stream) = &self.stream else {
            return Err(io::Error::from(ErrorKind::NotConnected));
        };
        let Some(since) = self.since else {
            let mut stream = &**stream;
            return stream.read(piece);
        };
        let count = read_within(&self.clock, stream, since, FIRST_LINE, piece)?;
        if piece[..count].contains(&b'\n') {
            stream.set_read_timeout(None)?;
            self.since = None;
        }
        Ok(count)
    }
}

impl<C: Clock> Source for TcpSource<C> {
    ghost faults_of = { λ s. s };

    fn read(&mut self, piece: &mut [u8]) -> Result<usize, Failed> {
        match self.received(piece) {
            Ok(count) => {
                self.goes_on = count > 0;
                Ok(count)
            }
            Err(_) => {
                self.goes_on = false;
                self.faults = counted(self.faults);
                Err(Failed)
            }
        }
    }

    fn close(&mut self) {
        if let Some(stream) = self.stream.take()
            && self.goes_on
        {
            let _over = linger(&self.clock, &stream);
        }
    }

    fn faults(&self) -> u64 {
        self.faults
    }
}

impl<R: Eprint> TcpSink<R> {
    fn sent(&mut self, piece: &[u8]) -> Option<usize>
        ensures bound { IfSome result (λ n. n ≤ length piece.now) }
        ensures progress { IfSome result (λ n. 0 < length piece.now → 0 < n) }
        ensures count { self.new ≡ self.old }
    {
        let mut stream = &**self.stream.as_ref()?;
        let count = stream.write(piece).ok()?;
        if count == 0 && !piece.is_empty() {
            return None;
        }
        if !self.began {
            self.began = true;
            tell_seat(&self.rt, self.number, piece);
        }
        Some(count)
    }
}

impl<R: Eprint> Sink for TcpSink<R> {
    ghost faults_of = { λ s. s };

    fn write(&mut self, piece: &[u8]) -> Result<usize, Failed> {
        match self.sent(piece) {
            Some(count) => Ok(count),
            None => {
                self.faults = counted(self.faults);
                Err(Failed)
            }
        }
    }

    fn close(&mut self, word: &str) {
        if let Some(stream) = self.stream.take() {
            let _over = stream.shutdown(Shutdown::Write);
        }
        tell(&self.rt, self.number, word);
    }

    fn faults(&self) -> u64 {
        self.faults
    }
}
