//! The lock behind which tickets are drawn, and the passes that wait for it.
use std::sync::atomic::{AtomicU64, Ordering};
use std::sync::{Mutex, MutexGuard, Wait};
use std::thread::yield_now;

/// A pass that stands back looks so often whether others wait.
const LOOKS: u64 = 400;

/// The number of turns that it lets go first for each pass that waits. A session that brings one artifact and announces none
/// makes no more.
const TURNS_OF_EACH: u64 = 4;

/// The lock, the number of passes that wait for it, and the number of times that it was taken. No clause speaks of the two
/// numbers: they only decide when to stand back.
#[derive(Drop)]
pub(crate) struct Lane {
    lock: Mutex<()>,
    waiting: AtomicU64,
    taken: AtomicU64,
}

impl Lane {
    /// Returns a lock that nobody has.
    pub(crate) fn new() -> Lane {
        Lane {
            lock: Mutex::new(()),
            waiting: AtomicU64::new(0),
            taken: AtomicU64::new(0),
        }
    }

    /// Takes the lock. It may wait.
    pub(crate) fn enter<R: Wait>(&self, rt: &R) -> MutexGuard<'_, ()> {
        self.waiting.fetch_add(1, Ordering::Relaxed);
        let guard = self.lock.lock(rt);
        self.waiting.fetch_sub(1, Ordering::Relaxed);
        self.taken.fetch_add(1, Ordering::Relaxed);
        guard
    }

    /// Lets others that wait take the lock first. It does so until none waits, or the lock was taken as often as they have turns
    /// to begin, but for 400 looks at most. Between two looks other threads run.
    pub(crate) fn stand_back(&self) {
        let before = self.taken.load(Ordering::Relaxed);
        let due = self
            .waiting
            .load(Ordering::Relaxed)
            .wrapping_mul(TURNS_OF_EACH);
        for _look in 0..LOOKS {
            let made = self.taken.load(Ordering::Relaxed).wrapping_sub(before);
            if made >= due || self.waiting.load(Ordering::Relaxed) == 0 {
                return;
            }
            yield_now();
        }
    }
}
