//! A disk that is a file of the system. It doesn't tell what it holds: no clause says that a real file behaves as a disk.
ghost use Rattle.std.specs.Prelude.{◌≡◌, ◌≤◌, [], length, IfOk};
ghost use Rattle.crash_log.specs.RealFiles.{only_empty};

use crate::disk::Disk;
use crate::faults::counted;
use line_io::Failed;
use std::fs::{self, File, OpenOptions};
use std::io::{self, ErrorKind};
use std::marker::Model;
use std::os::fd::AsRawFd;
use std::os::unix::fs::{FileExt, OpenOptionsExt};
use std::rt::Files;

/// A file that is opened by its path, or made. It is locked, so that no other program writes to it meanwhile. After a sync that
/// failed nothing more is asked of it until it is opened again, since the system may have dropped what was written.
#[derive(Drop)]
pub struct FileDisk {
    rt: HostRuntime,
    file: Option<File>,
    faults: u64,
}

// Contracts see the count of its faults.
impl Model for FileDisk {
    ghost use Rattle.std.specs.Prelude.{ℕ};

    ghost Value = { ℕ };

    ghost view = { λ d. d.faults };
}

impl FileDisk {
    /// A disk without a file, and without faults so far.
    pub fn new(rt: HostRuntime) -> FileDisk
        ensures { result ≡ 0 }
    {
        FileDisk {
            rt,
            file: None,
            faults: 0,
        }
    }
}

// The file at the path, locked; an empty one is made where there is none. All of it, and its name, is on the disk then.
fn opened<R: Files<File = File> + AllocGlobal>(rt: &R, path: &str) -> io::Result<File> {
    // It has the keys of the seats, so it is its owner's alone.
    let file = OpenOptions::new()
        .read(true)
        .write(true)
        .create(true)
        .mode(0o600)
        .open(rt, path)?;
    let file = off_streams(file)?;
    if !file.metadata()?.is_file() {
        return Err(io::Error::from(ErrorKind::Unsupported));
    }
    file.try_lock()?;
    settle(&file)?;
    settle_name(rt, path)?;
    Ok(file)
}

// What is meant for a standard stream that was closed must not land in the file.
fn off_streams(file: File) -> io::Result<File> {
    if file.as_raw_fd() <= 2 {
        return file.try_clone();
    }
    Ok(file)
}

// Syncs the file, and drops the system's copies of its pages, which a sync that failed before may have left other than the disk
// has them.
fn settle(file: &File) -> io::Result<()> {
    file.sync_all()?;
    let advised = libc::posix_fadvise(file.as_raw_fd(), 0, 0, libc::POSIX_FADV_DONTNEED);
    if advised != 0 {
        return Err(io::Error::from_raw_os_error(advised));
    }
    Ok(())
}

// Syncs the folder that the file lies in, which has its name.
fn settle_name<R: Files<File = File> + AllocGlobal>(rt: &R, path: &str) -> io::Result<()> {
    let mut folder = fs::canonicalize(rt, path)?;
    folder.pop();
    File::open(rt, folder.as_str())?.sync_all()
}

// Fills the piece as far as the file reaches.
fn filled(file: &File, at: u64, piece: &mut [u8]) -> io::Result<usize>
    ensures { IfOk result (λ n. n ≤ length piece.new) }
{
    let mut count = 0;
    while count < piece.len() {
        let more = file.read_at(&mut piece[count..], at.saturating_add(count as u64))?;
        if more == 0 {
            return Ok(count);
        }
        count += more;
    }
    Ok(count)
}

impl Disk for FileDisk {
    ghost tells = { ⊥ };

    ghost seen = { λ _. [] };

    ghost may_leave = { λ _ c. c ≡ [] };

    ghost moment = { λ _. 0 };

    ghost left_since = { λ _ _ c. c ≡ [] };

    ghost faults_of = { λ d. d };

    ghost seen_may_stay = { λ _. only_empty };

    ghost counts_now = { λ _ _ _ _ now. now };

    ghost only_now = { λ _ _ left. left };

    fn open(&mut self, name: &str) -> Result<(), Failed> {
        // The lock on the file that it has is let go first: it may be the same one.
        self.file = None;
        match opened(&self.rt, name) {
            Ok(file) => {
                self.file = Some(file);
                Ok(())
            }
            Err(_) => {
                self.faults = counted(self.faults);
                Err(Failed)
            }
        }
    }

    fn length(&mut self) -> Result<u64, Failed> {
        if let Some(file) = &self.file {
            if let Ok(found) = file.metadata() {
                return Ok(found.len());
            }
        }
        self.faults = counted(self.faults);
        Err(Failed)
    }

    fn read_at(&mut self, at: u64, piece: &mut [u8]) -> Result<usize, Failed> {
        if let Some(file) = &self.file {
            if let Ok(count) = filled(file, at, piece) {
                return Ok(count);
            }
        }
        self.faults = counted(self.faults);
        Err(Failed)
    }

    fn write_at(&mut self, at: u64, bytes: &[u8]) -> Result<(), Failed> {
        if let Some(file) = &self.file {
            if file.write_all_at(bytes, at).is_ok() {
                return Ok(());
            }
        }
        self.faults = counted(self.faults);
        Err(Failed)
    }

    fn sync(&mut self) -> Result<(), Failed> {
        if let Some(file) = &self.file {
            if file.sync_data().is_ok() {
                return Ok(());
            }
        }
        self.file = None;
        self.faults = counted(self.faults);
        Err(Failed)
    }

    fn faults(&self) -> u64 {
        self.faults
    }

    fn now(&self) -> u64 {
        0
    }
}
