// A beginning of a board's history.
ghost use Rattle.std.specs.Prelude.{◌≡◌, ◌+◌, ◌^◌, ◌<◌, [], IfSome, IsTrue, IsFalse};
ghost use Rattle.serve_board.specs.OperationLog.{head_of, pen_for};
ghost use Rattle.serve_board.specs.Passes.{StartsWith};

use crate::operation_log::{Ask, GivePen, Head, Logged, Nothing, Opens, OperationLog};
use logbook::{Offer, Pen, Seen, Start, Word};
use std::marker::Model;

/// That the history has reached some operations, and how many they are. Contracts see of which history, and the
/// operations.
#[derive(Drop)]
pub struct Beginning {
    pub(crate) count: u64,
    pub(crate) seen: Seen<Logged, u64, OperationLog>,
}

impl Model for Beginning {
    ghost use Rattle.std.specs.Prelude.{◌≡◌, length};
    ghost use Rattle.serve_board.specs.OperationLog.{Reach, reach_code};

    ghost Value = { Reach };

    ghost coded = { reach_code };

    ghost view = { λ f. record { book = f.seen.book; log = f.seen.log } };

    ghost invariant = { λ f. f.count ≡ length f.seen.log };
}

/// A new history, with no operation.
pub fn open_history() -> (Head, Beginning)
    ensures head { result.0 ≡ head_of result.1.book }
    ensures none { result.1.log ≡ [] }
{
    let (seen, mut pens) = Seen::open_row::<(), Opens>(&(), Start::alone(), 1);
    let mut pen = pens.take();
    let head = Word::tracked(0, &mut pen);
    (head, Beginning { count: 0, seen })
}

impl Beginning {
    /// The same beginning, to be had twice.
    pub fn again(&self) -> Beginning
        ensures { result ≡ self.now }
    {
        Beginning {
            count: self.count,
            seen: self.seen.again(),
        }
    }

    /// Whether it has all that another has. Of two beginnings of one history the longer one begins with the other.
    pub fn has(&self, other: &Beginning) -> bool
        requires { other.now.book ≡ self.now.book }
        ensures has { IsTrue result → StartsWith self.now.log other.now.log }
        ensures less { IsFalse result → StartsWith other.now.log self.now.log }
    {
        let mut both = self.seen.again();
        both.learn(&other.seen);
        if self.count < other.count {
            return false;
        }
        true
    }

    /// The pen for the operation that has so many before it: as many pens as these were given before. There is none
    /// where there were more.
    pub fn new_pen(&self, head: &Head, before: u64) -> Option<Pen>
        requires head { head.now ≡ head_of self.now.book }
        requires few { before + 1 < 2 ^ 64 }
        ensures { IfSome result (λ p. (p.book ≡ self.now.book) × (p.nib ≡ pen_for before)) }
    {
        let mut seen = self.seen.again();
        let mut offer: Offer<Logged, u64, OperationLog, Nothing> = seen.plain::<Nothing, (), Ask>(
            &(),
        );
        let mut pen = seen.no_pen();
        let found = head.compare_exchange::<GivePen, Nothing>(
            before,
            before + 1,
            &mut seen,
            &mut offer,
            &mut pen,
        );
        if found != before {
            return None;
        }
        let word: Head = Word::tracked(0, &mut pen);
        drop(word);
        Some(pen)
    }
}
