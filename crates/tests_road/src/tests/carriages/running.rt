// Events run on a carriage, in one job or each in a job of its own.
ghost use Rattle.std.specs.Prelude.{◌≡◌, ◌++◌, [], ◌∷◌, List, true, IfOk};
ghost use Rattle.ways_expressway.specs.declared.lane_event.LaneEvent.{LaneEvent as Event};
ghost use Rattle.ways_expressway.specs.Checks.{can_be_run};
ghost use Rattle.ways_expressway.specs.Stands.{StandsFor};
ghost use Rattle.ways_expressway.specs.Ready.{IsReady};

use road_time::{NoMemory, Tariffs};
use std::alloc::Global;
use ways_expressway::{Carriage, Done, Events, Finding, Job, LaneEvent, run};

/// What events find in one job. Worker and number come back.
pub fn at_once(
    alloc: Global,
    tariffs: &Tariffs,
    events: &[LaneEvent],
) -> Result<Vec<Finding>, NoMemory>
    requires { can_be_run events.now ≡ true }
{
    let mut all = Vec::new(alloc);
    all.extend_from_slice(events)?;
    let carriage = Carriage::new(alloc, tariffs)?;
    let job = Job {
        worker: 2,
        number: 9,
        carriage,
        events: Events::from_vec(all),
    };
    let Done {
        worker,
        number,
        findings,
        result,
        ..
    } = run(alloc, job);
    result?;
    if worker == 2 && number == 9 {
        Ok(findings.into_vec())
    } else {
        Ok(Vec::new(alloc))
    }
}

/// Runs an event in a job of its own, and keeps what it finds.
fn next_job(
    alloc: Global,
    carriage: Carriage,
    event: LaneEvent,
    found: &mut Vec<Finding>,
) -> Result<Carriage, NoMemory>
    requires { (before : List Event) × IsReady carriage before (event ∷ []) }
    ensures { IfOk result (λ c. (before : List Event) → IsReady carriage before (event ∷ [])
        → StandsFor c (before ++ event ∷ [])) }
{
    let mut one = Vec::new(alloc);
    one.push(event)?;
    let Done {
        carriage,
        findings,
        result,
        ..
    } = run(
        alloc,
        Job {
            worker: 0,
            number: 0,
            carriage,
            events: Events::from_vec(one),
        },
    );
    result?;
    found.extend_from_slice(findings.items())?;
    Ok(carriage)
}

/// What events find, each in a job of its own on the same carriage.
pub fn one_by_one(
    alloc: Global,
    tariffs: &Tariffs,
    events: &[LaneEvent],
) -> Result<Vec<Finding>, NoMemory>
    requires { can_be_run events.now ≡ true }
{
    let mut carriage = Carriage::new(alloc, tariffs)?;
    let mut found = Vec::new(alloc);
    for event in events {
        let next = next_job(alloc, carriage, *event, &mut found)?;
        carriage = next;
    }
    Ok(found)
}
