//! The bytes of a log with one entry.
ghost use Rattle.std.specs.Prelude.{◌≡◌, [], IsTrue};
ghost use Rattle.crash_log.specs.Log.{IsDisks};
ghost use Rattle.crash_log.specs.Memory.{IsImage, state_of};

use crate::*;
use campaign_law::Entry;
use names::{LineText, SeatNo};
use std::alloc::Global;
use std::process::Abort;

fn text(rt: &impl Abort, alloc: Global, bytes: &[u8]) -> LineText
    ensures { result ≡ bytes.now }
{
    match LineText::copy(alloc, bytes) {
        Ok(copy) => copy,
        Err(_) => panic!(rt; "memory"),
    }
}

fn sample(rt: &impl Abort) -> Entry {
    Entry::Cut {
        seat: SeatNo::new(1).expect(rt, "seat"),
    }
}

fn disk_of(rt: &impl Abort, alloc: Global, bytes: &[u8], stop: Option<u64>) -> MemDisk
    ensures { (state_of result).seen ≡ bytes.now }
{
    let held = text(rt, alloc, bytes);
    MemDisk::new(alloc, held, Vec::new(alloc), stop)
}

fn made(rt: &impl Abort, disk: &mut MemDisk) -> Journal
    requires { (state_of disk.old).seen ≡ [] }
    ensures { IsDisks (λ d. (state_of d).seen) (λ d c. IsImage (state_of d) c) disk.new result }
{
    match create(disk, b"C1") {
        Ok(journal) => journal,
        Err(_) => panic!(rt; "made"),
    }
}

// Whether the sample is acknowledged. Where it isn't, the disk failed.
fn put(rt: &impl Abort, alloc: Global, disk: &mut MemDisk, journal: &mut Journal) -> bool
    requires { IsDisks (λ d. (state_of d).seen) (λ d c. IsImage (state_of d) c) disk.old journal.old }
    ensures { IsTrue result → IsDisks (λ d. (state_of d).seen) (λ d c. IsImage (state_of d) c) disk.new journal.new }
{
    let entry = sample(rt);
    assert!(rt; is_short(&entry));
    match append(alloc, disk, journal, &entry) {
        Ok(()) => true,
        Err(fault) => {
            assert!(rt; fault == LogFault::DiskFault);
            false
        }
    }
}

#[test]
fn the_bytes_of_a_log(rt: HostRuntime) {
    let alloc = rt.alloc();
    let mut disk = disk_of(&rt, alloc, b"", None);
    let mut journal = made(&rt, &mut disk);
    assert_eq!(&rt;
        disk.leave(false).expect(&rt, "memory").bytes(),
        b"TTLOG1\x00\x00\x00\x02C1\x00".as_slice()
    );
    assert!(&rt; put(&rt, alloc, &mut disk, &mut journal));
    let left = disk.leave(false).expect(&rt, "memory");
    assert!(&rt;
        left.bytes()
            .ends_with(b"C1\x01\x00\x00\x00\x02\x04\x01\x00")
    );
    assert_eq!(&rt; left.bytes().len(), 20);
}
