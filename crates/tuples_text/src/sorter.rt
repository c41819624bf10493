// Tuples that come late, given in the order of Time.
ghost use Rattle.std.specs.Prelude.{◌≡◌, ◌≤◌, ◌<◌, ◌+◌, ◌++◌, ◌∷◌, [], ℕ, Bool, true, false, List, Some, OnOk, OnErr};
ghost use Rattle.std.specs.Prelude.{IfSome, IfNone, length, slice_get};
ghost use Rattle.road_time.specs.declared.road.Tuple.{Tuple as TupleValue};
ghost use Rattle.road_time.specs.Tuples.{time_of as defined_time_of};
ghost use Rattle.road_time.specs.Order.{by_time, greatest_time};
ghost use Rattle.tuples_text.specs.Sorting.{IsSorting};

use crate::waiting::Waiting;
use road_time::{NoMemory, Tuple};
use std::alloc::Global;
use std::marker::Model;

/// Gives the tuples that are put in the order of Time, those of equal Time as they were put.
/// A tuple may come late by up to so many seconds.
#[derive(Drop)]
pub struct Sorter {
    lateness: u8,
    greatest: u32,
    waiting: Waiting,
}

impl Model for Sorter {
    ghost use Rattle.tuples_text.specs.Sorting.{Sorting};

    ghost Value = { Sorting };

    ghost view = { λ s. record { lateness = s.lateness; greatest = s.greatest; waiting = s.waiting } };
}

impl Sorter {
    /// Nothing was put. The lateness is in seconds.
    pub fn new(alloc: Global, late: u8) -> Self
        requires { late ≤ 120 }
        ensures { IsSorting result late [] 0 false }
    {
        Sorter {
            lateness: late,
            greatest: 0,
            waiting: Waiting::new(alloc),
        }
    }

    /// Puts a tuple in.
    pub fn put(&mut self, tuple: &Tuple) -> Result<(), NoMemory>
        ensures put { OnOk result ((late : ℕ) → (put : List TupleValue) → (taken : ℕ)
            → IsSorting self.old late put taken false → greatest_time put ≤ defined_time_of tuple.now + late
            → IsSorting self.new late (put ++ tuple.now ∷ []) taken false) }
        ensures kept { OnErr result (self.new ≡ self.old) }
    {
        self.waiting.put(tuple)?;
        self.greatest = self.greatest.max(tuple.time());
        Ok(())
    }

    /// The next tuple, if no tuple can come before it any more.
    pub fn take(&mut self) -> Option<Tuple>
        ensures next { IfSome result (λ x. (late : ℕ) → (put : List TupleValue) → (taken : ℕ) → (ended : Bool)
            → IsSorting self.old late put taken ended
            → (slice_get (by_time put) taken ≡ Some x) × (defined_time_of x + late ≤ greatest_time put)
            × IsSorting self.new late put (taken + 1) ended) }
        ensures none { IfNone result ((late : ℕ) → (put : List TupleValue) → (taken : ℕ) → (ended : Bool)
            → IsSorting self.old late put taken ended → (x : TupleValue) → slice_get (by_time put) taken ≡ Some x
            → greatest_time put < defined_time_of x + late) }
        ensures kept { IfNone result (self.new ≡ self.old) }
    {
        let first = self.waiting.first()?;
        if u64::from(first.time()) + u64::from(self.lateness) > u64::from(self.greatest) {
            return None;
        }
        let tuple = self.waiting.take()?;
        Some(tuple)
    }

    /// The next tuple, where no more will be put.
    pub fn end(&mut self) -> Option<Tuple>
        ensures next { IfSome result (λ x. (late : ℕ) → (put : List TupleValue) → (taken : ℕ) → (ended : Bool)
            → IsSorting self.old late put taken ended
            → (slice_get (by_time put) taken ≡ Some x) × IsSorting self.new late put (taken + 1) true) }
        ensures none { IfNone result ((late : ℕ) → (put : List TupleValue) → (taken : ℕ) → (ended : Bool)
            → IsSorting self.old late put taken ended
            → (taken ≡ length put) × IsSorting self.new late put taken true) }
    {
        let tuple = self.waiting.take()?;
        Some(tuple)
    }
}
