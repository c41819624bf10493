// All of a board's history, and the right to add to it.
ghost use Rattle.std.specs.Prelude.{◌≡◌, ◌++◌, ◌∷◌, [], IfSome, IfOk, IfErr};
ghost use Rattle.serve_board.specs.OperationLog.{head_of};
ghost use Rattle.serve_board.specs.Changes.{operation_of};
ghost use Rattle.serve_board.specs.Passes.{StartsWith};

use crate::change::Change;
use crate::front::Beginning;
use crate::operation_log::{Add, Ask, Head, Logged, Nothing, OperationLog, SeeAll};
use logbook::{Offer, Pen};
use std::marker::Model;
use std::snapshot::Snapshot;

/// All operations of a history, with the pen for the next one, so that nobody else adds any, and maybe that for the one
/// behind it. Contracts see of which history, and the operations.
#[derive(Drop)]
pub struct Tip {
    front: Beginning,
    pen: Pen,
    next: Option<Pen>,
}

impl Model for Tip {
    ghost use Rattle.std.specs.Prelude.{◌≡◌, ◌+◌, length, IfSome};
    ghost use Rattle.serve_board.specs.OperationLog.{Reach, reach_code, pen_for};

    ghost Value = { Reach };

    ghost coded = { reach_code };

    ghost view = { λ t. t.front };

    ghost invariant = { λ t. (t.pen.book ≡ t.front.book) × (t.pen.nib ≡ pen_for (length t.front.log))
        × IfSome t.next (λ p. (p.book ≡ t.front.book) × (p.nib ≡ pen_for (length t.front.log + 1))) };
}

/// The same with both pens: an operation can be added.
#[derive(Drop)]
pub struct Ready {
    front: Beginning,
    pen: Pen,
    next: Pen,
}

impl Model for Ready {
    ghost use Rattle.std.specs.Prelude.{◌≡◌, ◌+◌, ◌^◌, ◌<◌, length};
    ghost use Rattle.serve_board.specs.OperationLog.{Reach, reach_code, pen_for};

    ghost Value = { Reach };

    ghost coded = { reach_code };

    ghost view = { λ t. t.front };

    ghost invariant = { λ t. (t.pen.book ≡ t.front.book) × (t.pen.nib ≡ pen_for (length t.front.log))
        × (t.next.book ≡ t.front.book) × (t.next.nib ≡ pen_for (length t.front.log + 1))
        × (length t.front.log + 1 < 2 ^ 64) };
}

impl Tip {
    /// Of a history that has no operation yet. There is none where somebody else has the pen, and nobody has that of a
    /// new history.
    pub fn open(head: &Head, front: &Beginning) -> Option<Tip>
        requires head { head.now ≡ head_of front.now.book }
        requires none { front.now.log ≡ [] }
        ensures { IfSome result (λ t. t ≡ front.now) }
    {
        let Some(pen) = front.new_pen(head, 0) else {
            return None;
        };
        Some(Tip {
            front: front.again(),
            pen,
            next: None,
        })
    }

    /// The beginning of the history that has all its operations.
    pub fn front(&self) -> Beginning
        ensures { result ≡ self.now }
    {
        self.front.again()
    }

    /// Takes the pen for the operation behind the next one. It cannot be had after 2^64 - 2 operations, or where somebody
    /// else has it, which nobody has.
    pub fn ready(self, head: &Head) -> Result<Ready, Tip>
        requires { head.now ≡ head_of self.book }
        ensures ok { IfOk result (λ t. t ≡ self) }
        ensures err { IfErr result (λ t. t ≡ self) }
    {
        let Tip { front, pen, next } = self;
        if front.count >= u64::MAX - 1 {
            return Err(Tip { front, pen, next });
        }
        if let Some(next) = next {
            return Ok(Ready { front, pen, next });
        }
        let Some(next) = front.new_pen(head, front.count + 1) else {
            return Err(Tip {
                front,
                pen,
                next: None,
            });
        };
        Ok(Ready { front, pen, next })
    }

    /// Looks at the history, of which nobody has seen more than this.
    pub fn cover(self, head: &Head, other: &Beginning) -> Tip
        requires head { head.now ≡ head_of self.book }
        requires one { other.now.book ≡ self.book }
        ensures same { result ≡ self }
        ensures begins { StartsWith self.log other.now.log }
    {
        let Tip {
            front,
            mut pen,
            next,
        } = self;
        let mut seen = front.seen.again();
        seen.learn(&other.seen);
        let mut offer: Offer<Logged, u64, OperationLog, Nothing> = seen.plain::<Nothing, (), Ask>(
            &(),
        );
        head.compare_exchange::<SeeAll, Nothing>(0, 0, &mut seen, &mut offer, &mut pen);
        Tip { front, pen, next }
    }
}

impl Ready {
    /// The pen for the operation behind the next one is kept for later.
    pub fn into_tip(self) -> Tip
        ensures { result ≡ self }
    {
        let Ready { front, pen, next } = self;
        Tip {
            front,
            pen,
            next: Some(next),
        }
    }

    /// Adds a change's operation.
    pub fn add(self, head: &Head, about: &Snapshot<Change>) -> Tip
        requires { head.now ≡ head_of self.book }
        ensures { result ≡ record { book = self.book; log = self.log ++ operation_of about.now.value ∷ [] } }
    {
        let Ready {
            front,
            mut pen,
            next,
        } = self;
        let mut seen = front.seen.again();
        let mut offer: Offer<Logged, u64, OperationLog, Nothing> = seen.plain::<
            Nothing,
            Snapshot<Change>,
            Add,
        >(about);
        head.compare_exchange::<Add, Nothing>(0, 0, &mut seen, &mut offer, &mut pen);
        Tip {
            front: Beginning {
                count: front.count + 1,
                seen,
            },
            pen: next,
            next: None,
        }
    }
}
