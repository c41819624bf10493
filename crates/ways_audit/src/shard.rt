// One shard of the vehicles.
ghost use Rattle.std.specs.Prelude.{◌≡◌, ◌++◌, ◌∷◌, [], ◌<◌, ◌%◌, ◌==◌, true, false, Some, List, OnOk, length};
ghost use Rattle.std.specs.List.{cons_option};
ghost use Rattle.road_time.specs.declared.road.Tuple.{Tuple as TupleValue};
ghost use Rattle.road_time.specs.declared.road.Tuple.TheVariants.{Report as ReportTuple};
ghost use Rattle.road_time.specs.Tuples.{reports};
ghost use Rattle.day_floor.specs.declared.tracked.Tracked.{Tracked as TrackedValue};
ghost use Rattle.day_floor.specs.Stands.{StandsFor};
ghost use Rattle.ways_audit.specs.Seen.{tracked_of};
ghost use Rattle.ways_audit.specs.Own.{belongs as defined_belongs, own_of, own_tracked, told_after};
ghost use Rattle.ways_audit.specs.Own.{places_from, HavePlaces};
ghost use Rattle.ways_audit.specs.Stands.{WentOver};

use crate::splitting::OwnPlaces;
use day_floor::{Tracked, Tracker};
use road_time::{NoMemory, Report, Tuple};
use std::alloc::Global;
use std::collections::VecDeque;

/// A part of the vehicles: where each was last, what the tuples that were gone over told of them and was not taken
/// yet, and whether memory ran out.
#[derive(Drop)]
pub struct Shard {
    pub(crate) tracker: Tracker,
    pub(crate) told: VecDeque<Tracked>,
    pub(crate) refused: bool,
}

/// Whether a report is of a vehicle of the shard, of so many.
#[inline(always)]
fn belongs(report: &Report, place: usize, count: usize) -> bool
    requires { 0 < count }
    ensures { result ≡ defined_belongs place count report.now }
{
    report.vid as usize % count == place
}

impl Shard {
    /// No vehicle was seen.
    pub(crate) fn new(alloc: Global) -> Self
        ensures tracker { StandsFor result.tracker [] }
        ensures nothing { result.told.items ≡ [] }
        ensures serves { result.refused ≡ false }
    {
        Shard {
            tracker: Tracker::new(alloc),
            told: VecDeque::new(alloc),
            refused: false,
        }
    }

    /// Sees a report of one of its vehicles.
    fn keep(&mut self, report: &Report, place: usize, count: usize) -> Result<(), NoMemory>
        requires { defined_belongs place count report.now ≡ true }
        ensures tracked { OnOk result ((day : List TupleValue)
            → StandsFor self.old.tracker (own_of place count (reports day))
            → StandsFor self.new.tracker (own_of place count (reports (day ++ ReportTuple report.now ∷ [])))) }
        ensures told { OnOk result ((day : List TupleValue)
            → StandsFor self.old.tracker (own_of place count (reports day))
            → self.new.told.items ≡ self.old.told.items ++ tracked_of day report.now ∷ []) }
    {
        let tracked = self.tracker.see(report)?;
        self.told.push_back(tracked)?;
        Ok(())
    }

    /// Sees a tuple, if it is a report of one of its vehicles.
    fn take(&mut self, tuple: &Tuple, place: usize, count: usize) -> Result<(), NoMemory>
        requires { 0 < count }
        ensures tracked { OnOk result ((day : List TupleValue)
            → StandsFor self.old.tracker (own_of place count (reports day))
            → StandsFor self.new.tracker (own_of place count (reports (day ++ tuple.now ∷ [])))) }
        ensures told { OnOk result ((day : List TupleValue)
            → StandsFor self.old.tracker (own_of place count (reports day))
            → self.new.told.items ≡ self.old.told.items ++ cons_option (own_tracked place count (day, tuple.now)) []) }
    {
        match tuple {
            Tuple::Report(report) => {
                if belongs(report, place, count) {
                    self.keep(report, place, count)
                } else {
                    Ok(())
                }
            }
            _ => Ok(()),
        }
    }

    /// Sees the reports of its vehicles among tuples.
    fn take_all(&mut self, tuples: &[Tuple], place: usize, count: usize) -> Result<(), NoMemory>
        requires { 0 < count }
        ensures tracked { OnOk result ((day : List TupleValue)
            → StandsFor self.old.tracker (own_of place count (reports day))
            → StandsFor self.new.tracker (own_of place count (reports (day ++ tuples.now)))) }
        ensures told { OnOk result ((day : List TupleValue)
            → StandsFor self.old.tracker (own_of place count (reports day))
            → self.new.told.items ≡ self.old.told.items ++ told_after place count day tuples.now) }
    {
        for tuple in tuples {
            self.take(tuple, place, count)?;
        }
        Ok(())
    }

    /// The same, where a want of memory is kept in it. It can't be refused.
    pub(crate) fn go_over(&mut self, tuples: &[Tuple], place: usize, count: usize)
        requires { 0 < count }
        ensures { WentOver place count tuples.now self.old self.new }
    {
        if self.take_all(tuples, place, count).is_err() {
            self.refused = true;
        }
    }

    /// Sees the reports of its vehicles among tuples, which stand at these positions.
    fn take_own(
        &mut self,
        tuples: &[Tuple],
        places: &[u32],
        place: usize,
        count: usize,
    ) -> Result<(), NoMemory>
        requires some { 0 < count }
        requires own { places.now ≡ places_from place count 0 tuples.now }
        ensures tracked { OnOk result ((day : List TupleValue)
            → StandsFor self.old.tracker (own_of place count (reports day))
            → StandsFor self.new.tracker (own_of place count (reports (day ++ tuples.now)))) }
        ensures told { OnOk result ((day : List TupleValue)
            → StandsFor self.old.tracker (own_of place count (reports day))
            → self.new.told.items ≡ self.old.told.items ++ told_after place count day tuples.now) }
    {
        for at in places {
            self.take(&tuples[*at as usize], place, count)?;
        }
        Ok(())
    }

    /// Goes over the tuples as `go_over` does, where the positions of each shard's reports are given.
    pub(crate) fn go_over_own(
        &mut self,
        tuples: &[Tuple],
        lists: &[OwnPlaces],
        place: usize,
        count: usize,
    )
        requires some { 0 < count }
        requires own { HavePlaces lists.now tuples.now count }
        ensures { WentOver place count tuples.now self.old self.new }
    {
        let Some(own) = lists.get(place) else {
            self.refused = true;
            return;
        };
        if self
            .take_own(tuples, own.places.as_slice(), place, count)
            .is_err()
        {
            self.refused = true;
        }
    }

    /// The first of what it was told and was not taken yet.
    pub(crate) fn next_told(&mut self) -> Option<Tracked>
        ensures tracker { self.new.tracker ≡ self.old.tracker }
        ensures refused { self.new.refused ≡ self.old.refused }
        ensures first { (t : TrackedValue) (rest : List TrackedValue) → self.old.told.items ≡ t ∷ rest
            → result ≡ Some t }
        ensures left { (t : TrackedValue) (rest : List TrackedValue) → self.old.told.items ≡ t ∷ rest
            → self.new.told.items ≡ rest }
    {
        self.told.pop_front()
    }
}
