//! A campaign server for a virtual tabletop that keeps secrets by proof: the program.
#![tactic(auto)]

ghost use Rattle.std.specs.Prelude.{◌≡◌, IfOk};

mod answers;
mod checking;
mod comparing;
mod drilling;
mod endings;
mod files;
mod last_line;
mod log_end;
mod log_serve;
mod log_start;
mod logged;
#[cfg(test)]
mod look_tests;
mod playing;
mod printing;
mod quiet;
mod serve;
#[cfg(test)]
mod tests;
mod top;
mod verifying;

use crash_log::FileDisk;
pub use endings::Ended;
use evening_log::LoggedSink;
use line_io::{
    CallSpawner, Failed, FileDesk, ReaderSource, TcpDoor, TcpSink, TcpSource, WriterSink,
};
pub use log_end::LogEnded;
pub use log_serve::tabletop_serve_logged;
pub use logged::tabletop_logged;
use names::Memory;
pub use script_play::play;
pub use serve::tabletop_serve;
use serving::{Sitting, SittingThread, start_sitting};
use session::Table;
use std::env::Env;
use std::process::ExitCode;
use std::{env, io};
pub use top::tabletop;

// The words of the command line, without the program's name. Where one isn't UTF-8 there are none, which
// no form of the program has.
fn words_of(rt: &(impl Env + AllocGlobal)) -> Result<Vec<String>, Memory> {
    match env::args(rt) {
        Ok(args) => match args.skip(1).collect(rt.alloc()) {
            Ok(words) => Ok(words),
            Err(_) => Err(Memory),
        },
        Err(error) if error.kind() == io::ErrorKind::OutOfMemory => Err(Memory),
        Err(_) => Ok(Vec::new(rt.alloc())),
    }
}

// Whether the first word asks for connections to be served.
fn asks_to_serve(words: &[String]) -> bool {
    match words {
        [first, ..] => first.as_str() == "serve",
        [] => false,
    }
}

// Whether the words ask for connections to be served with a log.
fn asks_to_serve_with_a_log(words: &[String]) -> bool {
    match words {
        [first, _, _, _, fifth, ..] => first.as_str() == "serve" && fifth.as_str() == "--log",
        _ => false,
    }
}

// Whether the words ask for a script to be played with a log.
fn asks_for_a_log(words: &[String]) -> bool {
    match words {
        [first, _, third, ..] => first.as_str() == "play" && third.as_str() == "--log",
        _ => false,
    }
}

// A session over TCP, and a thread that serves one.
type TcpSitting<R> = Sitting<R, TcpSource<R>, TcpSink<R>>;

type TcpThread<R> = SittingThread<R, TcpSource<R>, TcpSink<R>>;

// A session over TCP whose output waits for a log in a file, and a thread that serves one.
type LoggedTcpSink = LoggedSink<TcpSink<HostRuntime>, Table, FileDisk>;

type LoggedSitting = Sitting<HostRuntime, TcpSource<HostRuntime>, LoggedTcpSink>;

type LoggedThread = SittingThread<HostRuntime, TcpSource<HostRuntime>, LoggedTcpSink>;

fn main(rt: HostRuntime) -> ExitCode {
    let mut desk = FileDesk::new(&rt, rt.alloc());
    let mut out = WriterSink::new(rt.stdout());
    let status = match words_of(&rt) {
        Ok(words) if asks_to_serve_with_a_log(&words) => {
            let door = TcpDoor::new(rt, rt.alloc());
            let mut threads = CallSpawner::new(
                |sitting: LoggedSitting| -> Result<LoggedThread, Failed>
                    ensures { IfOk result (λ task. task.promise.0.value ≡ sitting) }
                { start_sitting(&rt, sitting) },
                &rt,
            );
            let disk = FileDisk::new(rt);
            let (status, _door, _disk) = tabletop_serve_logged(
                &rt,
                rt.alloc(),
                &words,
                &mut desk,
                &mut out,
                door,
                disk,
                &mut threads,
            );
            status
        }
        Ok(words) if asks_to_serve(&words) => {
            let mut door = TcpDoor::new(rt, rt.alloc());
            let mut threads = CallSpawner::new(
                |sitting: TcpSitting<HostRuntime>| -> Result<TcpThread<HostRuntime>, Failed>
                    ensures { IfOk result (λ task. task.promise.0.value ≡ sitting) }
                { start_sitting(&rt, sitting) },
                &rt,
            );
            tabletop_serve(
                &rt,
                rt.alloc(),
                &words,
                &mut desk,
                &mut out,
                &mut door,
                &mut threads,
            )
        }
        Ok(words) if asks_for_a_log(&words) => {
            let mut script = ReaderSource::new(rt.stdin());
            let mut disk = FileDisk::new(rt);
            tabletop_logged(
                rt.alloc(),
                &words,
                &mut desk,
                &mut script,
                &mut out,
                &mut disk,
            )
        }
        Ok(words) => {
            let mut script = ReaderSource::new(rt.stdin());
            tabletop(rt.alloc(), &words, &mut desk, &mut script, &mut out)
        }
        Err(_) => top::out_of_memory(rt.alloc(), &mut out),
    };
    ExitCode::from(status)
}
