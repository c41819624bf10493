// One of those that share a keeper.
ghost use Rattle.std.specs.Prelude.{◌≡◌, ℕ, Some, None};
ghost use Rattle.serve_desk.specs.History.{GoesOn};

use crate::begun::{Begun, Often};
use crate::held::HeldKeeper;
use crate::history::Naming;
use crate::hold::Hold;
use crate::kept::Kept;
use crate::place::Place;
use keep_office::Keeper;
use std::marker::PhantomData;
use std::sync::{Mutex, Wait};

/// One of those that share a keeper, which lies under a lock. It takes the lock for one call at a time, and counts its
/// own calls that failed.
#[derive(Drop)]
pub struct SharedKeeper<'a, J: Naming, K: Keeper, R: Wait> {
    pub(crate) rt: &'a R,
    pub(crate) keeper: &'a Mutex<Kept<J, K>>,
    pub(crate) faults: u64,
}

impl<'a, J: Naming, K: Keeper, R: Wait> SharedKeeper<'a, J, K, R> {
    /// Has called nothing yet.
    pub fn new(rt: &'a R, keeper: &'a Mutex<Kept<J, K>>) -> Self
        ensures { result.faults ≡ 0 }
    {
        SharedKeeper {
            rt,
            keeper,
            faults: 0,
        }
    }

    /// A keeper for one who is to put, which sees what is kept now, and counts on.
    pub fn hold(&self) -> HeldKeeper<'a, J, K, R, Often>
        ensures { result.faults ≡ self.now.faults }
    {
        let hold = self.keeper.lock(self.rt).hold();
        self.at(hold)
    }

    /// What one who is to put once behind a place that was seen holds on to: what is kept now.
    pub(crate) fn hold_behind(&self, seen: &Place<J, K>) -> Hold<J, K>
        ensures went { GoesOn seen.now.seen.log result.place.seen.log }
        ensures from { result.from ≡ Some result.place.count }
    {
        self.keeper.lock(self.rt).hold_behind(seen)
    }

    /// A keeper at a place that is held, which counts on.
    pub(crate) fn at<N: Begun>(&self, hold: Hold<J, K>) -> HeldKeeper<'a, J, K, R, N>
        requires { (n : ℕ) → N.from ≡ Some n → hold.from ≡ Some n }
        ensures hold { result.hold ≡ hold }
        ensures faults { result.faults ≡ self.now.faults }
    {
        HeldKeeper {
            rt: self.rt,
            keeper: self.keeper,
            hold,
            faults: self.faults,
            of: PhantomData,
        }
    }

    /// Counts on from where one who put once is, and gives the place that it holds.
    pub(crate) fn ends<N: Begun>(&mut self, held: HeldKeeper<'a, J, K, R, N>) -> Place<J, K>
        ensures place { result ≡ held.entry.hold.place }
        ensures faults { self.new.faults ≡ held.entry.faults }
    {
        let HeldKeeper {
            rt: _,
            keeper: _,
            hold,
            faults,
            of: _,
        } = held;
        self.faults = faults;
        hold.into_place()
    }

    /// Counts on from where one who was to put is.
    pub fn counts<N: Begun>(&mut self, held: HeldKeeper<'a, J, K, R, N>)
        ensures { self.new.faults ≡ held.entry.faults }
    {
        self.faults = held.faults;
    }
}
