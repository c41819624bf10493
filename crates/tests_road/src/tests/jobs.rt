// A job of one report, as a caller hands it to a crew, and what is found for it.
ghost use Rattle.std.specs.Prelude.{◌≡◌, true, List, IfOk};
ghost use Rattle.ways_expressway.specs.Checks.{can_be_run};
ghost use Rattle.ways_expressway.specs.declared.lane_event.LaneEvent.{LaneEvent as Event};
ghost use Rattle.ways_expressway.specs.Ready.{IsReady};

use road_time::{NoMemory, Report, Tariffs};
use std::alloc::Global;
use ways_expressway::{Carriage, Done, Events, Finding, Job, LaneEvent};

/// The event that a report of vehicle 7 at the day's first second begins a stay.
fn one_event(position: u32) -> [LaneEvent; 1]
    ensures { can_be_run result ≡ true }
{
    [LaneEvent::Seen {
        position,
        report: Report {
            time: 0,
            vid: 7,
            spd: 30,
            xway: 0,
            lane: 0,
            dir: 0,
            seg: 10,
            pos: 52800,
        },
        begins: true,
        stopped: false,
    }]
}

/// A job of a worker with events, on a new carriage.
fn job_of(alloc: Global, worker: u8, number: u32, events: &[LaneEvent]) -> Result<Job, NoMemory>
    requires { can_be_run events.now ≡ true }
    ensures { IfOk result (λ job. (before : List Event) × IsReady job.carriage before job.events) }
{
    let mut all = Vec::new(alloc);
    all.extend_from_slice(events)?;
    let tariffs = Tariffs::new(alloc);
    let carriage = Carriage::new(alloc, &tariffs)?;
    Ok(Job {
        worker,
        number,
        carriage,
        events: Events::from_vec(all),
    })
}

/// A job of a worker with that event at the position of its number.
pub(crate) fn one_report(alloc: Global, worker: u8, number: u32) -> Result<Job, NoMemory>
    ensures { IfOk result (λ job. (before : List Event) × IsReady job.carriage before job.events) }
{
    let job = job_of(alloc, worker, number, &one_event(number))?;
    Ok(job)
}

/// What is found for that report: no speed of five minutes yet, this toll, no accident.
pub(crate) fn one_finding(number: u32, toll: u64) -> [Finding; 1] {
    [Finding {
        position: number,
        lav: -1,
        toll,
        alert: None,
    }]
}

/// Whether a job of a worker was run to its end, with what is found for its report.
pub(crate) fn is_right(done: &Done, worker: u8, number: u32, toll: u64) -> bool {
    done.worker == worker
        && done.number == number
        && done.result.is_ok()
        && done.findings.items() == one_finding(number, toll).as_slice()
}
