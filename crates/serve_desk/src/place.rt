// A place in the history of a keeper under a lock.
ghost use Rattle.std.proofs.Props.{props};
ghost use Rattle.std.specs.Prelude.{◌≡◌, ◌≤◌, ◌<◌, ◌+◌, ◌++◌, ◌∷◌, [], length, Some, IfSome, IsTrue, false};
ghost use Rattle.keep_office.specs.Calls.{SoundIfTold};
ghost use Rattle.keep_office.specs.Office.{Office, IsSound};
ghost use Rattle.serve_desk.specs.History.{head_of, told_at, GoesOn};

use crate::history::{Add, Begin, Head, History, Naming, Nothing};
use keep_office::Keeper;
use logbook::{Offer, Seen, Start, Word};
use std::marker::PhantomData;

/// A place in the history of a keeper: that the history has reached it, and how many come before. What is told behind the
/// first place is sound.
#[derive(Drop)]
pub struct Place<J: Naming, K: Keeper> {
    pub(crate) count: u64,
    pub(crate) seen: Seen<K, u64, History>,
    of: PhantomData<J>,
    pub ghost book: { seen.book ≡ J.book },
    pub ghost counted: { length seen.log ≡ count + 1 },
    pub ghost sound: { 1 ≤ count → (o : Office) → told_at K.told seen.log count ≡ Some o → IsSound o } by { Prim.hlevel props },
}

/// Opens the history of a keeper.
pub(crate) fn open_history<K>(keeper: &K) -> (Head<K>, Seen<K, u64, History>)
    ensures head { result.0 ≡ head_of result.1.book }
    ensures first { result.1.log ≡ keeper.now ∷ [] }
{
    let (seen, mut pens) = Seen::open_row::<K, Begin>(keeper, Start::alone(), 1);
    let mut pen = pens.take();
    let head = Word::tracked(0, &mut pen);
    (head, seen)
}

impl<J: Naming, K: Keeper> Place<J, K> {
    /// The first place of a history that was opened.
    pub(crate) fn first(seen: Seen<K, u64, History>) -> Self
        requires book { seen.book ≡ J.book }
        requires one { length seen.log ≡ 1 }
        ensures log { result.seen.log ≡ seen.log }
        ensures count { result.count ≡ 0 }
    {
        Place {
            count: 0,
            seen,
            of: PhantomData,
        }
    }

    /// The same place, to be had twice.
    pub(crate) fn again(&self) -> Self
        ensures log { result.seen.log ≡ self.now.seen.log }
        ensures count { result.count ≡ self.now.count }
    {
        Place {
            count: self.count,
            seen: self.seen.again(),
            of: PhantomData,
        }
    }

    /// Whether it is another one. As many come before both then, and the same.
    pub(crate) fn is(&self, other: &Self) -> bool
        ensures same { IsTrue result → self.now.seen.log ≡ other.now.seen.log }
        ensures count { IsTrue result → self.now.count ≡ other.now.count }
    {
        let mut both = self.seen.again();
        both.learn(&other.seen);
        if self.count != other.count {
            return false;
        }
        true
    }

    /// That the history went on from here to a place that is no earlier.
    pub(crate) fn goes_to(&self, other: &Self)
        requires { self.now.count ≤ other.now.count }
        ensures { GoesOn self.now.seen.log other.now.seen.log }
    {
        let mut both = self.seen.again();
        both.learn(&other.seen);
    }

    /// Whether the other is no earlier. The history went on from here to there then.
    pub(crate) fn is_reached(&self, other: &Self) -> bool
        ensures went { IsTrue result → GoesOn self.now.seen.log other.now.seen.log }
        ensures count { result ≡ false → other.now.count < self.now.count }
    {
        if other.count < self.count {
            return false;
        }
        self.goes_to(other);
        true
    }

    /// Adds what the keeper is to the history, which is to have no more than this, and gives the place of it.
    pub(crate) fn add(&self, head: &Head<K>, keeper: &K) -> Option<Self>
        requires head { head.now ≡ head_of J.book }
        requires sound { SoundIfTold (K.told keeper.now) }
        ensures log { IfSome result (λ p. p.seen.log ≡ self.now.seen.log ++ keeper.now ∷ []) }
        ensures count { IfSome result (λ p. p.count ≡ self.now.count + 1) }
    {
        if self.count == u64::MAX {
            return None;
        }
        let mut seen = self.seen.again();
        let mut offer: Offer<K, u64, History, Nothing> = seen.plain::<Nothing, K, Add>(keeper);
        let mut pen = seen.no_pen();
        let count = self.count;
        let found = head.compare_exchange::<Add, Nothing>(
            count,
            count + 1,
            &mut seen,
            &mut offer,
            &mut pen,
        );
        if found != count {
            return None;
        }
        Some(Place {
            count: count + 1,
            seen,
            of: PhantomData,
        })
    }
}
