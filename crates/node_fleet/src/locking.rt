//! Locks that are polled before a thread blocks on them.

use std::hint::spin_loop;
use std::sync::{Mutex, MutexGuard, Wait};
use std::thread::yield_now;

/// The number of polls of a lock before the thread yields.
const POLLS: u32 = 20;

/// The number of yields before the thread blocks.
const YIELDS: u32 = 20;

/// Waits for a lock that another thread holds, and takes it.
#[inline(never)]
fn waited<'m, T, R: Wait>(rt: &R, lock: &'m Mutex<T>) -> MutexGuard<'m, T> {
    for _ in 0..YIELDS {
        for _ in 0..POLLS {
            if let Some(guard) = lock.try_lock() {
                return guard;
            }
            spin_loop();
        }
        yield_now();
    }
    lock.lock(rt)
}

/// Takes a lock: polls it, yields in between, then blocks.
#[inline(always)]
pub fn lock_spinning<'m, T, R: Wait>(rt: &R, lock: &'m Mutex<T>) -> MutexGuard<'m, T> {
    match lock.try_lock() {
        Some(guard) => guard,
        None => waited(rt, lock),
    }
}
