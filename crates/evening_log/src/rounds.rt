//! Who of many puts a log's next group, while the others sleep. No clause speaks of any of it: it only spares them turns.
use std::sync::Wait;
use std::sync::atomic::{AtomicU64, Ordering};

/// Whether somebody puts a group, and how many were put.
#[derive(Drop)]
pub(crate) struct Rounds {
    // 1 while somebody does, else 0.
    busy: AtomicU64,
    count: AtomicU64,
}

impl Rounds {
    /// Nobody puts one, and none was put.
    pub(crate) fn new() -> Rounds {
        Rounds {
            busy: AtomicU64::new(0),
            count: AtomicU64::new(0),
        }
    }

    /// How many groups were put. Whoever waits asks this first, then whether it has to wait, and then begins or sleeps.
    pub(crate) fn count(&self) -> u64 {
        self.count.load(Ordering::SeqCst)
    }

    /// Whether nobody puts a group, so that the caller does. It calls `end` behind that.
    pub(crate) fn begin(&self) -> bool {
        self.busy
            .compare_exchange(0, 1, Ordering::SeqCst, Ordering::SeqCst)
            .is_ok()
    }

    /// A group was put, or refused. All that sleep look again.
    pub(crate) fn end(&self) {
        self.busy.store(0, Ordering::SeqCst);
        self.count.fetch_add(1, Ordering::SeqCst);
        self.count.wake_all();
    }

    /// Sleeps while so many groups were put.
    pub(crate) fn sleep<R: Wait>(&self, rt: &R, seen: u64) {
        // A thread parks on the low 32 bits of a word.
        self.count.park(rt, (seen % (1 << 32)) as u32);
    }
}
