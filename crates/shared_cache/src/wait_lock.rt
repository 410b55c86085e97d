//! A lock that can be taken only with the handle that may wait.

use std::sync::{Mutex, MutexGuard, Wait};
use std::thread::yield_now;

// How often the lock is tried before the thread queues for it.
const TRIES: u32 = 40;

// The longest pause between two tries, in turns of the loop.
const LONGEST_GAP: u32 = 64;

// A mutex can be tried without a handle. So it is inside this type, whose only access is `locked`,
// which takes a handle: a call that has none cannot reach what the lock guards.
pub(crate) struct WaitLock<T> {
    mutex: Mutex<T>,
}

impl<T: Drop> Drop for WaitLock<T> {
    fn drop(self) {
        let WaitLock { mutex: _ } = self;
    }
}

impl<T> WaitLock<T> {
    pub(crate) fn new(value: T) -> WaitLock<T> {
        WaitLock {
            mutex: Mutex::new(value),
        }
    }

    pub(crate) fn into_inner(self) -> T {
        let WaitLock { mutex } = self;
        mutex.into_inner()
    }
}

// Lets other threads run, `works` times.
fn idle(works: u32) {
    for _ in 0..works {
        yield_now();
    }
}

// Takes the lock. It is tried first, with increasing pauses: a thread that has just released it,
// and has what it guards in its processor's cache, then mostly continues, and no thread sleeps. In
// the pauses other threads may run, the lock's owner included.
pub(crate) fn locked<'a, T, R: Wait>(lock: &'a WaitLock<T>, rt: &R) -> MutexGuard<'a, T> {
    let mut gap = 1u32;
    for _ in 0..TRIES {
        if let Some(guard) = lock.mutex.try_lock() {
            return guard;
        }
        idle(gap);
        gap = gap.saturating_mul(2).min(LONGEST_GAP);
    }
    lock.mutex.lock(rt)
}
