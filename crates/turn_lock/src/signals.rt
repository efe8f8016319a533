//! Who sleeps until something changes, and how many turns there were that wake. No clause speaks of any of it: it only spares the
//! system's calls.
use std::sync::Wait;
use std::sync::atomic::{AtomicU64, Ordering};

/// How many threads sleep until a word changes, or are about to. Where none does, nobody is woken, and the system isn't asked. A
/// thread is counted before it looks at the word for the last time, so whoever changes the word after that look finds it here.
#[derive(Drop)]
pub struct Sleepers {
    count: AtomicU64,
}

impl Sleepers {
    /// None at first.
    pub fn new() -> Sleepers {
        Sleepers {
            count: AtomicU64::new(0),
        }
    }

    /// One more is about to sleep.
    pub fn add(&self) {
        self.count.fetch_add(1, Ordering::SeqCst);
    }

    /// One is awake again.
    pub fn remove(&self) {
        self.count.fetch_sub(1, Ordering::SeqCst);
    }

    /// Whether there may be one.
    pub fn any(&self) -> bool {
        self.count.load(Ordering::SeqCst) > 0
    }
}

/// How many turns there were that wake, counted before they end, so that a turn that sees the count has found what they entered.
#[derive(Drop)]
pub struct Acts {
    count: AtomicU64,
    sleepers: Sleepers,
}

impl Acts {
    /// None at first.
    pub fn new() -> Acts {
        Acts {
            count: AtomicU64::new(0),
            sleepers: Sleepers::new(),
        }
    }

    /// How many there were so far.
    pub fn count(&self) -> u64 {
        self.count.load(Ordering::SeqCst)
    }

    /// One more is about to end.
    pub fn add(&self) {
        self.count.fetch_add(1, Ordering::SeqCst);
    }

    /// Wakes who waits for it.
    pub fn wake(&self) {
        if self.sleepers.any() {
            self.count.wake_all();
        }
    }

    /// Waits until there were others than these.
    pub fn wait<R: Wait>(&self, rt: &R, seen: u64) {
        for _ in rt.forever() {
            if self.count() != seen {
                return;
            }
            self.sleepers.add();
            // A thread parks on the low 32 bits of a word.
            self.count.park(rt, (seen % (1 << 32)) as u32);
            self.sleepers.remove();
        }
        unreachable!()
    }
}
