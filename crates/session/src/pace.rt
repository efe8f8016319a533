//! How far the reading half of a session may be ahead of its writing half.
use std::sync::Wait;
use std::sync::atomic::{AtomicBool, AtomicU64, Ordering};
use std::time::Duration;

/// So many lines may be entered between two turns of the writing half.
const LINES: u64 = 32;

/// Once lines have queued more than so many bytes for their own seat, no further one is entered before the writing half had a turn.
const BYTES: u64 = 65_536;

/// No turn of the writing half is waited for.
const NEVER: u64 = u64::MAX;

/// So often, and each time for so many milliseconds, the first turn of the writing half is waited for: a second in all.
const LOOKS: u32 = 100;

const LOOK: u64 = 10;

/// So many milliseconds the writing half naps.
const NAP: u64 = 4;

/// So many milliseconds the writing half takes a break behind what it wrote.
const BREAK: u64 = 1;

/// What the halves of a session tell each other: how long the history was behind the last entry of the reading half, the Join at
/// first, and in the last turn of the writing half. No clause speaks of it: who waits here enters nothing meanwhile.
#[derive(Drop)]
pub(crate) struct Pace {
    entered: AtomicU64,
    // The lines that were entered since a turn of the writing half was seen, and the bytes that they queued for their own seat. The
    // reading half alone counts them.
    lines: AtomicU64,
    bytes: AtomicU64,
    // 0 before the first turn of the writing half.
    found: AtomicU64,
    // Whether the reading half sleeps, or is about to, and is to be woken by a turn.
    sleeps: AtomicBool,
    // Whether the reading half wrote since the writing half began its last nap.
    attends: AtomicBool,
    // 1 where the writing half is to look once more before it naps.
    looks: AtomicU64,
}

impl Pace {
    /// Of a session behind whose Join the history has this length. No line is entered before the writing half has found it.
    pub(crate) fn new(length: u64) -> Pace {
        Pace {
            entered: AtomicU64::new(length),
            lines: AtomicU64::new(LINES),
            bytes: AtomicU64::new(0),
            found: AtomicU64::new(0),
            sleeps: AtomicBool::new(false),
            attends: AtomicBool::new(false),
            looks: AtomicU64::new(0),
        }
    }

    /// A line was entered. It left a history of this length, and queued so many bytes for its own seat.
    pub(crate) fn entered(&self, length: u64, bytes: u64) {
        self.entered.store(length, Ordering::SeqCst);
        let lines = self.lines.load(Ordering::SeqCst);
        self.lines.store(lines.saturating_add(1), Ordering::SeqCst);
        let before = self.bytes.load(Ordering::SeqCst);
        self.bytes
            .store(before.saturating_add(bytes), Ordering::SeqCst);
    }

    /// A turn of the writing half found a history of this length, which isn't empty. Most turns find the reading half awake, and
    /// ask nothing of the system.
    pub(crate) fn found(&self, length: u64) {
        self.found.store(length, Ordering::SeqCst);
        if self.sleeps.load(Ordering::SeqCst) {
            self.found.wake_one();
        }
    }

    /// The writing half takes no more turns.
    pub(crate) fn end(&self) {
        self.found(NEVER);
    }

    /// The reading half wrote what waited.
    pub(crate) fn attended(&self) {
        self.attends.store(true, Ordering::SeqCst);
    }

    /// While the reading half writes what waits, as it does before each read, the writing half isn't to be woken by each act: it
    /// naps until the reading half wrote nothing during a nap, or it is to look. Whether it did either.
    pub(crate) fn nap<R: Wait>(&self, rt: &R) -> bool {
        let mut napped = false;
        for _ in rt.forever() {
            if self.looks.swap(0, Ordering::SeqCst) != 0 {
                return true;
            }
            if !self.attends.swap(false, Ordering::SeqCst) {
                return napped;
            }
            self.looks.park_timeout(rt, 0, Duration::from_millis(NAP));
            napped = true;
        }
        unreachable!()
    }

    /// A break of the writing half behind what it wrote, unless it is to look. However much is said, who only listens is woken no more
    /// often than that, and is sent together what came meanwhile.
    pub(crate) fn take_break<R: Wait>(&self, rt: &R) {
        self.looks.park_timeout(rt, 0, Duration::from_millis(BREAK));
    }

    /// The writing half, which isn't napping, is to look once more before it naps.
    pub(crate) fn look(&self) {
        self.looks.store(1, Ordering::SeqCst);
    }

    // Ends a nap of the writing half.
    fn rouse(&self) {
        self.look();
        self.looks.wake_one();
    }

    /// Where no further line may be entered before the writing half had a turn that found the last one, waits for that turn, or
    /// until the half takes no more. Where it has had none for a second there is no thread for it, and nobody waits.
    pub(crate) fn wait<R: Wait>(&self, rt: &R) {
        let entered = self.entered.load(Ordering::SeqCst);
        let goes_on = self.lines.load(Ordering::SeqCst) < LINES
            && self.bytes.load(Ordering::SeqCst) <= BYTES;
        for _ in rt.forever() {
            let found = self.found.load(Ordering::SeqCst);
            if found >= entered {
                self.lines.store(0, Ordering::SeqCst);
                self.bytes.store(0, Ordering::SeqCst);
                return;
            }
            if goes_on {
                return;
            }
            if found == 0 {
                self.wait_to_begin(rt);
                continue;
            }
            self.rouse();
            self.sleep(rt, found);
        }
        unreachable!()
    }

    // Sleeps until a turn finds more than this. A turn that comes between the load of `found` and the sleep has changed the word by
    // then, or sees that the half sleeps.
    fn sleep<R: Wait>(&self, rt: &R, found: u64) {
        self.sleeps.store(true, Ordering::SeqCst);
        // A thread parks on the low 32 bits of a word.
        self.found.park(rt, (found % (1 << 32)) as u32);
        self.sleeps.store(false, Ordering::SeqCst);
    }

    // Waits for the first turn. Where it comes later than that, it is told all the same.
    fn wait_to_begin<R: Wait>(&self, rt: &R) {
        self.sleeps.store(true, Ordering::SeqCst);
        for _ in 0..LOOKS {
            self.found.park_timeout(rt, 0, Duration::from_millis(LOOK));
            if self.found.load(Ordering::SeqCst) != 0 {
                self.sleeps.store(false, Ordering::SeqCst);
                return;
            }
        }
        self.sleeps.store(false, Ordering::SeqCst);
        let _told = self
            .found
            .compare_exchange(0, NEVER, Ordering::SeqCst, Ordering::SeqCst);
    }
}
