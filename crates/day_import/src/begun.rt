// A day that is begun: its floor and its jobs that are out.
ghost use Rattle.std.specs.Prelude.{◌≡◌, [], ℕ, List, Option, IfOk};
ghost use Rattle.road_time.specs.declared.road.Tuple.{Tuple as RoadTuple};
ghost use Rattle.road_time.specs.declared.day.Limits.{Limits as DayLimits};
ghost use Rattle.ways_expressway.specs.declared.job.Job.{Job};
ghost use Rattle.ways_crews.specs.Told.{CrewTold, WhereTold};
ghost use Rattle.ways_crews.specs.Callers.{ListsFirst};
ghost use Rattle.day_floor.specs.Answers.{PaidHistory};
ghost use Rattle.day_floor.specs.Terms.{AreTerms};
ghost use Rattle.day_floor.specs.Shares.{start};
ghost use Rattle.day_floor.specs.Floors.{StandsFor};
ghost use Rattle.day_import.specs.RoundRuns.{StoppedBy};
ghost use Rattle.day_import.specs.WorkedDays.{HaveFirstStarted};

use day_floor::Floor;
use road_time::{Limits, NoMemory, Tariffs};
use std::alloc::Global;
use std::collections::VecDeque;
use std::thread::Threads;
use ways_crews::Crew;
use ways_crews::drain::finish_all;

/// The floor of a day, and the tickets of the jobs that are out, in the order of their starts. It cannot be dropped, as
/// its floor cannot.
pub struct Import<T> {
    pub(crate) floor: Floor,
    pub(crate) tickets: VecDeque<T>,
}

/// An import of so many workers under these limits and tariffs, before its first tuple. The digest of its text is taken
/// where it is asked.
pub fn begin<T: Drop>(
    alloc: Global,
    width: u8,
    limits: &Limits,
    tariffs: &Tariffs,
    digested: bool,
) -> Result<Import<T>, NoMemory>
    requires { AreTerms width limits.now }
    ensures stands { IfOk result (λ run. (number : ℕ) (history : PaidHistory)
        → StandsFor (record {
          tariffs = tariffs.now;
          number = number;
          history = history;
          digested = digested;
        }) run.floor start) }
    ensures width { IfOk result (λ run. run.floor.inboxes.width ≡ width) }
    ensures limits { IfOk result (λ run. run.floor.limits ≡ limits.now) }
    ensures tickets { IfOk result (λ run. run.tickets.items ≡ []) }
{
    let floor = Floor::new(alloc, width, limits, tariffs, digested)?;
    Ok(Import {
        floor,
        tickets: VecDeque::new(alloc),
    })
}

/// Leaves an import before its first tuple.
pub fn leave<T: Drop, R: Threads>(rt: &R, run: Import<T>) {
    let Import { floor, tickets: _ } = run;
    floor.leave(rt);
}

/// Finishes all that is out after a refusal.
pub fn stop<C: Crew, R: Threads>(rt: &R, run: Import<C::Ticket>, crew: &mut C)
    requires { (told : Option CrewTold) × (width : ℕ) × (limits : DayLimits) × (day : List RoadTuple)
        × StoppedBy C.Crew told width limits day run crew.old }
    ensures idle { C.out crew.new ≡ [] }
    ensures which { C.which crew.new ≡ C.which crew.old }
    ensures jobs { (told : Option CrewTold) (width : ℕ) (limits : DayLimits) (day : List RoadTuple)
        → StoppedBy C.Crew told width limits day run crew.old → (since : List Job)
        × HaveFirstStarted width limits.backlog day since × WhereTold (ListsFirst since) told (C.jobs crew.new) }
{
    let Import { floor, tickets } = run;
    floor.leave(rt);
    finish_all(crew, tickets);
}
