// Finishing the jobs that are out, over any crew.
ghost use Rattle.std.specs.Prelude.{◌≡◌, ◌≤◌, ◌<◌, ◌+◌, ◌++◌, ◌∷◌, [], ◌&&◌, ◌||◌, not, is_err, true, false, ℕ, Bool};
ghost use Rattle.std.specs.Prelude.{List, Option, IfOk, OnOk, OnErr, All, length, map};
ghost use Rattle.road_time.specs.Fits.{IsDay};
ghost use Rattle.road_time.specs.Rates.{Tariffs as TariffsValue};
ghost use Rattle.ways_expressway.specs.declared.job.Job.{Job as TheJob};
ghost use Rattle.ways_expressway.specs.declared.lane_event.LaneEvent.{LaneEvent};
ghost use Rattle.ways_expressway.specs.Findings.{shown};
ghost use Rattle.ways_expressway.specs.Laws.{all_findings};
ghost use Rattle.ways_expressway.specs.Ready.{IsReady};
ghost use Rattle.ways_expressway.specs.Results.{IsPossible};
ghost use Rattle.ways_expressway.specs.Stands.{StandsFor};
ghost use Rattle.ways_crews.specs.Told.{CrewTold, WhereTold};
ghost use Rattle.ways_crews.specs.Callers.{IsListingWhereTold};
ghost use Rattle.ways_audit.specs.Seen.{tracked_after};
ghost use Rattle.ways_audit.specs.Jobs.{RunningBy, HasStarted, HasFound, StartsAll, StartsFirst, AddsFindings};

use std::collections::VecDeque;
use ways_crews::{Crew, finish_among};
use ways_expressway::{Done, Finding};

/// Keeps the findings of an answer behind others. False where it was refused, or no memory is left for them.
fn keep_found(found: &mut Vec<Finding>, done: Done) -> bool
    ensures { result ≡ true → (is_err done.result ≡ false) × (found.new.items ≡ found.old.items ++ done.findings) }
{
    if done.result.is_err() {
        return false;
    }
    let mut more = done.findings.into_vec();
    found.append(&mut more).is_ok()
}

/// Whether both hold.
fn both(one: bool, other: bool) -> bool
    ensures { result ≡ (one && other) }
{
    one && other
}

/// Finishes all jobs that are out, in the order of their starts, and keeps what they find. True where none was refused
/// and all was kept.
pub fn finish_rest<C: Crew>(
    crew: &mut C,
    mut tickets: VecDeque<C::Ticket>,
    found: &mut Vec<Finding>,
) -> bool
    requires out { (told : Option CrewTold) × (tariffs : TariffsValue) × (todo : List TheJob)
        × RunningBy C.Crew told crew.old tariffs tickets.items [] todo false }
    requires none { found.old.items ≡ [] }
    ensures idle { C.out crew.new ≡ [] }
    ensures told { (told : Option CrewTold) (tariffs : TariffsValue) (todo : List TheJob)
        → RunningBy C.Crew told crew.old tariffs tickets.items [] todo false → (refused : Bool) × (result ≡ true
        → refused ≡ false) × IsListingWhereTold told todo [] refused (C.jobs crew.new) }
    ensures found { result ≡ true → (told : Option CrewTold) (tariffs : TariffsValue) (todo : List TheJob)
        → RunningBy C.Crew told crew.old tariffs tickets.items [] todo false
        → HasFound C.exact C.answers (C.answers crew.old) crew.new tariffs todo found.new.items }
    ensures which { C.which crew.new ≡ C.which crew.old }
{
    let mut whole = true;
    while let Some(ticket) = tickets.pop_front() {
        let done = finish_among(crew, ticket);
        let kept = keep_found(found, done);
        whole = both(whole, kept);
    }
    whole
}
