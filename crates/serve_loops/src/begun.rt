// Whether a loop that was given to a thread runs.
use std::sync::atomic::{AtomicBool, Ordering};
use std::thread::yield_now;

/// How often it is looked at most whether a loop has begun.
const LOOKS: u64 = 2_000_000;

/// Whether a loop in another thread begins, which is waited for.
fn begins(begun: &AtomicBool) -> bool {
    for _ in 0..LOOKS {
        if begun.load(Ordering::SeqCst) {
            return true;
        }
        yield_now();
    }
    false
}

/// Has all loops stop where one does not begin, since no thread could be had for it. Where no loop is left for this
/// thread, that one may have it.
pub(crate) fn heed(begun: &AtomicBool, stop: &AtomicBool, left: usize) {
    if left == 0 || stop.load(Ordering::SeqCst) {
        return;
    }
    if !begins(begun) {
        stop.store(true, Ordering::SeqCst);
    }
}
