// A job of one worker, and what is done of it.
ghost use Rattle.std.specs.Prelude.{◌≡◌, ◌++◌, [], List, map, OnOk, OnErr};
ghost use Rattle.std.specs.List.{cons_option};
ghost use Rattle.std.specs.Option.{option_map};
ghost use Rattle.ways_expressway.specs.declared.lane_event.LaneEvent.{LaneEvent as Event};
ghost use Rattle.ways_expressway.specs.Findings.{shown, findings};
ghost use Rattle.ways_expressway.specs.Stands.{StandsFor};
ghost use Rattle.ways_expressway.specs.Ready.{IsReady};
ghost use Rattle.ways_expressway.specs.Results.{AreFirst, IsResultOf};

use crate::carriage::Carriage;
use crate::finding::{Finding, Findings};
use crate::lane_event::{Events, LaneEvent};
use road_time::NoMemory;
use std::alloc::Global;

/// A worker's next events, with its carriage. The number tells a worker's jobs apart.
#[derive(Drop)]
pub struct Job {
    pub worker: u8,
    pub number: u32,
    pub carriage: Carriage,
    pub events: Events,
}

/// What was done of a job: the carriage after its events, and what they found. Where memory ran out the findings are
/// those of its first events, and the carriage serves no more.
#[derive(Drop)]
pub struct Done {
    pub worker: u8,
    pub number: u32,
    pub carriage: Carriage,
    pub findings: Findings,
    pub result: Result<(), NoMemory>,
}

/// No findings yet, with room for so many where memory has it.
fn room_for(alloc: Global, count: usize) -> Vec<Finding>
    ensures { result.items ≡ [] }
{
    match Vec::with_capacity(alloc, count) {
        Ok(found) => found,
        Err(_) => Vec::new(alloc),
    }
}

/// Keeps a finding, if there is one.
fn keep(found: &mut Vec<Finding>, finding: Option<Finding>) -> Result<(), NoMemory>
    ensures kept { OnOk result (map shown found.new.items
        ≡ map shown found.old.items ++ cons_option (option_map shown finding) []) }
    ensures refused { OnErr result (found.new.items ≡ found.old.items) }
{
    if let Some(finding) = finding {
        found.push(finding)?;
    }
    Ok(())
}

/// Runs events on a carriage one by one, and keeps what they find.
fn run_each(
    carriage: &mut Carriage,
    events: &[LaneEvent],
    found: &mut Vec<Finding>,
) -> Result<(), NoMemory>
    requires ready { (before : List Event) × IsReady carriage.old before events.now }
    requires nothing { found.old.items ≡ [] }
    ensures tariffs { OnOk result (carriage.new.tariffs ≡ carriage.old.tariffs) }
    ensures carried { OnOk result ((before : List Event) → IsReady carriage.old before events.now
        → StandsFor carriage.new (before ++ events.now)) }
    ensures found { OnOk result ((before : List Event) → IsReady carriage.old before events.now
        → map shown found.new.items ≡ findings before events.now carriage.old.tariffs) }
    ensures first { OnErr result ((before : List Event) → IsReady carriage.old before events.now
        → AreFirst (map shown found.new.items) (findings before events.now carriage.old.tariffs)) }
{
    for event in events {
        let finding = carriage.next(event)?;
        keep(found, finding)?;
    }
    Ok(())
}

/// Runs the events of a job on its carriage. It asks that the carriage stands for some events, that the job's may
/// follow them (Times do not fall, and a vehicle leaves only where it stands), and that all reports of both are a
/// day's.
pub fn run(alloc: Global, job: Job) -> Done
    requires { (before : List Event) × IsReady job.carriage before job.events }
    ensures { IsResultOf job result }
{
    let Job {
        worker,
        number,
        mut carriage,
        events,
    } = job;
    let told = events.items();
    let mut found = room_for(alloc, told.len());
    let result = run_each(&mut carriage, told, &mut found);
    Done {
        worker,
        number,
        carriage,
        findings: Findings::from_vec(found),
        result,
    }
}
