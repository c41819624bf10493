//! A writer and a reader of one board, each in a thread of its own, as its callers make them.
ghost use Rattle.std.specs.Prelude.{◌≡◌, ◌≤◌, ◌<◌, ◌⊎◌, true, [], IfSome, IfNone};
ghost use Rattle.day_floor.specs.Shown.{shown_after};
ghost use Rattle.serve_board.specs.Passes.{StartsWith, unposted, total_on};
ghost use Rattle.serve_board.specs.Worked.{marks_to, IsSumOfMarks};

use crate::live::Live;
use crate::reader::BoardReader;
use crate::told::Told;
use crate::writer::BoardWriter;
use day_floor::{Charged, Publisher};
use std::sync::Wait;
use std::sync::atomic::AtomicBool;
use std::sync::atomic::Ordering::SeqCst;

/// Publishes for each mark of day 100 up to a last one that vehicle 100 was charged as much as the mark, until one is
/// refused, and raises a flag then. It gives whether all were published.
pub fn publish_marks<R: Wait + Drop>(
    writer: &mut BoardWriter<R>,
    last: u16,
    ended: &AtomicBool,
) -> bool
    requires { writer.old.posted ≡ unposted }
    ensures board { writer.new.board ≡ writer.old.board }
    ensures all { result ≡ true → writer.new.posted ≡ record { published = marks_to last; queued = [] } }
{
    let mut all = writer.begin(100).is_ok();
    for mark in 0..last {
        if all {
            let toll = u64::from(mark) + 1;
            let charged = Charged {
                vid: 100,
                xway: 0,
                toll,
            };
            all = writer.publish(&[charged], toll).is_ok();
        }
    }
    ended.store(true, SeqCst);
    all
}

/// Looks at vehicle 100's account and at the total until a flag was raised, and once more. It gives the last mark that
/// it saw.
/// `None` where a mark fell, or where an answer was not the sum of all marks up to its own.
pub fn watch_marks(reader: &mut BoardReader, ended: &AtomicBool) -> Option<u64>
    ensures board { reader.new.board ≡ reader.old.board }
    ensures had { StartsWith reader.new.seen reader.old.seen }
    ensures last { IfSome result (λ mark. (mark ≡ (shown_after reader.new.seen).mark)
        × IsSumOfMarks (total_on (shown_after reader.new.seen))) }
{
    let mut mark = 0;
    for _ in 0..u64::MAX {
        let is_last = ended.load(SeqCst);
        mark = mark_of(reader.balance(100)?, mark)?;
        mark = mark_of(reader.total()?, mark)?;
        if is_last {
            return Some(mark);
        }
    }
    None
}

/// An answer's mark, unless it is below an earlier one, or the answer is not the sum of all marks up to it.
fn mark_of(live: Live, before: u64) -> Option<u64>
    ensures some { IfSome result (λ mark. (mark ≡ live.as_of) × (before ≤ mark) × IsSumOfMarks live) }
    ensures none { IfNone result ((live.as_of < before) ⊎ (IsSumOfMarks live → ⊥)) }
{
    let twice = live.as_of.wrapping_mul(live.as_of.wrapping_add(1));
    if live.as_of < before {
        return None;
    }
    if live.amount != twice / 2 {
        return None;
    }
    Some(live.as_of)
}

/// A writer, readers and what is told may move between threads.
pub fn ends_move<R: Wait + Drop + Send>() {
    moves::<BoardWriter<R>>();
    moves::<BoardReader>();
    moves::<Told>();
}

fn moves<T: Send>() {}
