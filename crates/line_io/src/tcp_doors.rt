//! A door at a TCP port.
ghost use Rattle.std.specs.Prelude.{◌≡◌, ℕ};

use crate::doors::Door;
use crate::faults::{Failed, counted};
use crate::host_notes::tell;
use crate::tcp_ends::{TcpSink, TcpSource, ends_of};
use std::alloc::Global;
use std::io::Eprint;
use std::net::{Ipv4Addr, Net, SocketAddr, TcpListener, TcpStream};
use std::os::fd::AsRawFd;
use std::time::{Clock, Duration};
use std::{io, thread};

// How many thousandths of a second the door waits where the system refuses a connection.
const PAUSE: u64 = 50;

// So many connections may wait to be taken, as many as a run serves. The system forgets what comes beyond, whose client then waits for
// ever where it says nothing.
const BACKLOG: i32 = 1024;

// What Linux tells of a listener that is none (EBADF), that doesn't listen (EINVAL) or is no socket (ENOTSOCK).
const BROKEN: [i32; 3] = [9, 22, 88];

/// A door at a port of this machine's own address, 127.0.0.1. It tells nothing of its connections, but for what their ends tell the
/// host on standard error.
#[derive(Drop)]
pub struct TcpDoor<R> {
    rt: R,
    alloc: Global,
    listener: Option<TcpListener>,
    // How many connections it gave.
    given: u64,
    faults: u64,
}

impl<R> TcpDoor<R> {
    /// A door that is not open so far.
    pub fn new(rt: R, alloc: Global) -> TcpDoor<R> {
        TcpDoor {
            rt,
            alloc,
            listener: None,
            given: 0,
            faults: 0,
        }
    }
}

// A listener at this port. Where the system doesn't take the backlog, the one of std stands.
fn listening<R: Net<Listener = TcpListener, Stream = TcpStream>>(
    rt: &R,
    port: u16,
) -> io::Result<TcpListener> {
    let address = SocketAddr::from((Ipv4Addr::LOCALHOST, port));
    let listener = TcpListener::bind(rt, address)?;
    let _asked = libc::net::listen(listener.as_raw_fd(), BACKLOG);
    Ok(listener)
}

// Whether no connection can come any more. Else one alone was refused, as where the system has no descriptor left.
fn is_broken(error: &io::Error) -> bool {
    match error.raw_os_error() {
        Some(code) => BROKEN.contains(&code),
        None => false,
    }
}

// The next connection. What is written to it goes out without delay; where the client has gone already, this can't be asked for, and
// the ends tell that it has. While the system refuses connections, it waits.
fn accepted<R: Clock>(rt: &R, listener: &TcpListener) -> Option<TcpStream> {
    for _ in 0..u64::MAX {
        match listener.accept() {
            Ok((stream, _)) => {
                let _asked = stream.set_nodelay(true);
                return Some(stream);
            }
            Err(error) if is_broken(&error) => break,
            Err(_) => thread::sleep(rt, Duration::from_millis(PAUSE)),
        }
    }
    None
}

impl<R: Net<Listener = TcpListener, Stream = TcpStream> + Clock + Eprint + Copy> Door
    for TcpDoor<R> {
    type In = TcpSource<R>;

    type Out = TcpSink<R>;

    ghost faults_of = { λ d. d.faults };

    fn open(&mut self, port: u16) -> Result<(), Failed> {
        match listening(&self.rt, port) {
            Ok(listener) => {
                self.listener = Some(listener);
                Ok(())
            }
            Err(_) => {
                self.faults = counted(self.faults);
                Err(Failed)
            }
        }
    }

    fn next(&mut self) -> Result<Option<(TcpSource<R>, TcpSink<R>)>, Failed> {
        if let Some(listener) = &self.listener
            && let Some(stream) = accepted(&self.rt, listener)
        {
            self.given = counted(self.given);
            tell(&self.rt, self.given, "opened");
            return Ok(Some(ends_of(self.rt, self.alloc, self.given, stream)));
        }
        self.faults = counted(self.faults);
        Err(Failed)
    }

    fn give_back(&mut self, _input: TcpSource<R>, _output: TcpSink<R>) {}

    fn faults(&self) -> u64 {
        self.faults
    }
}
