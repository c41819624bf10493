// Starting one job for each worker that has events, over any crew.
ghost use Rattle.std.specs.Prelude.{◌≡◌, ◌≤◌, ◌<◌, ◌+◌, ◌++◌, ◌∷◌, [], ◌&&◌, ◌||◌, not, is_err, true, false, ℕ, Bool};
ghost use Rattle.std.specs.Prelude.{List, Option, IfOk, OnOk, OnErr, All, length, map};
ghost use Rattle.road_time.specs.Fits.{IsDay};
ghost use Rattle.road_time.specs.Rates.{Tariffs as TariffsValue};
ghost use Rattle.ways_expressway.specs.declared.job.Job.{Job as TheJob};
ghost use Rattle.ways_expressway.specs.declared.lane_event.LaneEvent.{LaneEvent};
ghost use Rattle.ways_expressway.specs.Findings.{shown};
ghost use Rattle.ways_expressway.specs.Laws.{all_findings};
ghost use Rattle.ways_expressway.specs.Ready.{IsReady};
ghost use Rattle.ways_expressway.specs.Results.{IsPossible};
ghost use Rattle.ways_expressway.specs.Stands.{StandsFor};
ghost use Rattle.ways_crews.specs.Told.{CrewTold, WhereTold};
ghost use Rattle.ways_crews.specs.Callers.{IsListingWhereTold};
ghost use Rattle.ways_audit.specs.Seen.{tracked_after};
ghost use Rattle.ways_expressway.specs.Events.{events_for};
ghost use Rattle.ways_audit.specs.Jobs.{RunningBy, HasStartedBy, HasFound, StartsAll, StartsFirst, AddsFindings};
ghost use Rattle.ways_audit.specs.Routing.{HaveEvents};

use crate::routing::{WorkerEvents, route, take_events};
use day_floor::Tracked;
use road_time::{NoMemory, Tariffs, Tuple};
use std::alloc::Global;
use std::collections::VecDeque;
use ways_crews::{Crew, start_beside};
use ways_expressway::{Carriage, Events, Job, LaneEvent as Event};

/// Starts a job, and keeps its ticket behind the others.
fn start_job<C: Crew>(
    crew: &mut C,
    job: Job,
    tickets: &mut VecDeque<C::Ticket>,
) -> Result<(), NoMemory>
    requires ready { IsReady job.carriage [] job.events }
    requires room { (told : Option CrewTold) × (todo : List TheJob)
        × RunningBy C.Crew told crew.old job.carriage.tariffs tickets.old.items [] todo false × (length todo < 64) }
    ensures started { OnOk result ((told : Option CrewTold) (todo : List TheJob)
        → RunningBy C.Crew told crew.old job.carriage.tariffs tickets.old.items [] todo false
        → RunningBy C.Crew told crew.new job.carriage.tariffs tickets.new.items [] (todo ++ job ∷ []) false) }
    ensures crew { OnErr result (crew.new ≡ crew.old) }
    ensures tickets { OnErr result (tickets.new.items ≡ tickets.old.items) }
    ensures which { C.which crew.new ≡ C.which crew.old }
    ensures answers { C.answers crew.new ≡ C.answers crew.old }
{
    tickets.reserve(1)?;
    let ticket = start_beside(crew, job);
    if tickets.push_back(ticket).is_err() {}
    Ok(())
}

/// The job of a worker with events, on a new carriage.
fn make_job(
    alloc: Global,
    tariffs: &Tariffs,
    worker: u8,
    number: u32,
    events: Vec<Event>,
) -> Result<Job, NoMemory>
    ensures worker { IfOk result (λ job. job.worker ≡ worker) }
    ensures number { IfOk result (λ job. job.number ≡ number) }
    ensures events { IfOk result (λ job. job.events ≡ events.items) }
    ensures stands { IfOk result (λ job. StandsFor job.carriage []) }
    ensures tariffs { IfOk result (λ job. job.carriage.tariffs ≡ tariffs.now) }
{
    let carriage = Carriage::new(alloc, tariffs)?;
    Ok(Job {
        worker,
        number,
        carriage,
        events: Events::from_vec(events),
    })
}

/// Starts the job of a worker of a day's, if it has events. Where memory runs out nothing is started.
fn start_worker<C: Crew>(
    alloc: Global,
    crew: &mut C,
    tuples: &[Tuple],
    events: Vec<Event>,
    tariffs: &Tariffs,
    worker: u8,
    width: u8,
    tickets: &mut VecDeque<C::Ticket>,
) -> Result<(), NoMemory>
    requires day { IsDay tuples.now }
    requires events { events.items ≡ events_for tuples.now worker width }
    requires worker { worker < width }
    requires few { width ≤ 64 }
    requires runs { (told : Option CrewTold)
        × HasStartedBy C.Crew told crew.old tariffs.now tickets.old.items tuples.now width worker }
    ensures started { OnOk result ((told : Option CrewTold)
        → HasStartedBy C.Crew told crew.old tariffs.now tickets.old.items tuples.now width worker
        → HasStartedBy C.Crew told crew.new tariffs.now tickets.new.items tuples.now width (worker + 1)) }
    ensures crew { OnErr result (crew.new ≡ crew.old) }
    ensures tickets { OnErr result (tickets.new.items ≡ tickets.old.items) }
    ensures which { C.which crew.new ≡ C.which crew.old }
    ensures answers { C.answers crew.new ≡ C.answers crew.old }
{
    if events.is_empty() {
        return Ok(());
    }
    let job = make_job(alloc, tariffs, worker, tickets.len() as u32, events)?;
    start_job(crew, job, tickets)?;
    Ok(())
}

/// Starts one job for each worker of a day's that has events, in the order of the workers, and moves its events into
/// it. Where memory runs out those of the first workers are out.
fn start_each<C: Crew>(
    alloc: Global,
    crew: &mut C,
    tuples: &[Tuple],
    lists: &mut [WorkerEvents],
    tariffs: &Tariffs,
    width: u8,
    tickets: &mut VecDeque<C::Ticket>,
) -> Result<(), NoMemory>
    requires day { IsDay tuples.now }
    requires len { length lists.old ≡ width }
    requires events { HaveEvents lists.old tuples.now width 0 }
    requires few { width ≤ 64 }
    requires idle { C.out crew.old ≡ [] }
    requires none { tickets.old.items ≡ [] }
    ensures all { OnOk result (HasStartedBy C.Crew (C.jobs crew.old) crew.new tariffs.now tickets.new.items tuples.now
        width width) }
    ensures first { OnErr result ((workers : ℕ) × (workers ≤ width)
        × HasStartedBy C.Crew (C.jobs crew.old) crew.new tariffs.now tickets.new.items tuples.now width workers) }
    ensures which { C.which crew.new ≡ C.which crew.old }
    ensures answers { C.answers crew.new ≡ C.answers crew.old }
{
    for worker in 0..width {
        let events = take_events(alloc, lists, worker);
        start_worker(alloc, crew, tuples, events, tariffs, worker, width, tickets)?;
    }
    Ok(())
}

/// Starts one job for each worker that has events, in the order of the workers. Where memory runs out those of the
/// first workers are out.
pub fn start_all<C: Crew>(
    alloc: Global,
    crew: &mut C,
    tuples: &[Tuple],
    tracked: &[Option<Tracked>],
    tariffs: &Tariffs,
    width: u8,
    tickets: &mut VecDeque<C::Ticket>,
) -> Result<(), NoMemory>
    requires day { IsDay tuples.now }
    requires tracked { tracked.now ≡ tracked_after [] tuples.now }
    requires some { 1 ≤ width }
    requires few { width ≤ 64 }
    requires idle { C.out crew.old ≡ [] }
    requires none { tickets.old.items ≡ [] }
    ensures all { OnOk result (HasStartedBy C.Crew (C.jobs crew.old) crew.new tariffs.now tickets.new.items tuples.now
        width width) }
    ensures first { OnErr result ((workers : ℕ) × (workers ≤ width)
        × HasStartedBy C.Crew (C.jobs crew.old) crew.new tariffs.now tickets.new.items tuples.now width workers) }
    ensures which { C.which crew.new ≡ C.which crew.old }
    ensures answers { C.answers crew.new ≡ C.answers crew.old }
{
    let mut lists = route(alloc, tuples, tracked, width)?;
    start_each(
        alloc,
        crew,
        tuples,
        lists.as_mut_slice(),
        tariffs,
        width,
        tickets,
    )?;
    Ok(())
}
