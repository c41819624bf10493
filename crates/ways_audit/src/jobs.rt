// One job for each worker that has events, over any crew.
ghost use Rattle.std.specs.Prelude.{◌≡◌, ◌≤◌, ◌<◌, ◌+◌, ◌++◌, ◌∷◌, [], ◌&&◌, ◌||◌, not, is_err, true, false, ℕ, Bool};
ghost use Rattle.std.specs.Prelude.{List, Option, IfOk, OnOk, OnErr, All, length, map};
ghost use Rattle.road_time.specs.Fits.{IsDay};
ghost use Rattle.road_time.specs.Rates.{Tariffs as TariffsValue};
ghost use Rattle.ways_expressway.specs.declared.job.Job.{Job as TheJob};
ghost use Rattle.ways_expressway.specs.declared.lane_event.LaneEvent.{LaneEvent};
ghost use Rattle.ways_expressway.specs.Findings.{shown};
ghost use Rattle.ways_expressway.specs.Laws.{all_findings};
ghost use Rattle.ways_expressway.specs.Ready.{IsReady};
ghost use Rattle.ways_expressway.specs.Results.{IsPossible};
ghost use Rattle.ways_expressway.specs.Stands.{StandsFor};
ghost use Rattle.ways_crews.specs.Told.{CrewTold, WhereTold};
ghost use Rattle.ways_crews.specs.Callers.{IsListingWhereTold};
ghost use Rattle.ways_audit.specs.Seen.{tracked_after};
ghost use Rattle.ways_audit.specs.Jobs.{Running, HasStarted, HasFound, StartsAll, StartsFirst, AddsFindings};

use crate::finishes::finish_rest;
use crate::starts::start_all;
use day_floor::Tracked;
use road_time::{NoMemory, Tariffs, Tuple};
use std::alloc::Global;
use std::collections::VecDeque;
use ways_crews::Crew;
use ways_expressway::Finding;

/// How many findings there are at most: one for each report that begins a stay.
fn count_findings(tracked: &[Option<Tracked>]) -> usize {
    let mut count = 0usize;
    for told in tracked {
        if told.is_some_and(|told| told.begins) {
            count = count.saturating_add(1);
        }
    }
    count
}

/// No findings, with room for so many as long as memory lasts.
fn room_for(alloc: Global, count: usize) -> Vec<Finding>
    ensures { result.items ≡ [] }
{
    match Vec::with_capacity(alloc, count) {
        Ok(found) => found,
        Err(_) => Vec::new(alloc),
    }
}

/// What the day's workers find, by one job for each that has events, over a crew with no job out: the jobs are started
/// in the order of the workers and finished
/// in that order. The one error is want of memory; the crew has no job out on each exit.
pub fn find_all<C: Crew>(
    alloc: Global,
    crew: &mut C,
    tuples: &[Tuple],
    tracked: &[Option<Tracked>],
    tariffs: &Tariffs,
    width: u8,
) -> Result<Vec<Finding>, NoMemory>
    requires day { IsDay tuples.now }
    requires tracked { tracked.now ≡ tracked_after [] tuples.now }
    requires some { 1 ≤ width }
    requires few { width ≤ 64 }
    requires idle { C.out crew.old ≡ [] }
    ensures exact { C.exact ≡ true → IfOk result
        (λ found. map shown found.items ≡ all_findings tuples.now tariffs.now width) }
    ensures possible { IfOk result (λ found. All IsPossible found.items) }
    ensures answers { IfOk result (λ found. WhereTold (AddsFindings found.items) (C.answers crew.old)
        (C.answers crew.new)) }
    ensures jobs { OnOk result (WhereTold (StartsAll tuples.now width) (C.jobs crew.old) (C.jobs crew.new)) }
    ensures first { OnErr result (WhereTold (StartsFirst tuples.now width) (C.jobs crew.old) (C.jobs crew.new)) }
    ensures idle { C.out crew.new ≡ [] }
    ensures which { C.which crew.new ≡ C.which crew.old }
{
    let mut tickets = VecDeque::new(alloc);
    let started = start_all(alloc, crew, tuples, tracked, tariffs, width, &mut tickets);
    let mut found = room_for(alloc, count_findings(tracked));
    let whole = finish_rest(crew, tickets, &mut found);
    match started {
        Ok(()) => { if whole { Ok(found) } else { Err(NoMemory) } }
        Err(_) => Err(NoMemory),
    }
}
