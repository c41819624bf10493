// What a crew makes of a job, and what it answers of it.
ghost use Rattle.std.specs.Prelude.{◌≡◌, not, true, List, is_err};
ghost use Rattle.ways_expressway.specs.declared.lane_event.LaneEvent.{LaneEvent};
ghost use Rattle.ways_expressway.specs.declared.job.Job.{Job as TheJob};
ghost use Rattle.ways_expressway.specs.Ready.{IsReady};
ghost use Rattle.ways_expressway.specs.Results.{IsResultOf};
ghost use Rattle.ways_crews.specs.Entries.{IsOf, HasRun, IsYetToRun, is_unlisted};

use crate::places::TicketEntry;
use road_time::NoMemory;
use std::alloc::Global;
use ways_expressway::{Done, Findings, Job, run};

/// What is answered of a job that was not listed: memory ran out before its first event.
pub(crate) fn refused(alloc: Global, job: Job) -> Done
    ensures of { IsResultOf job result }
    ensures err { is_err result.result ≡ true }
{
    Done {
        worker: job.worker,
        number: job.number,
        carriage: job.carriage,
        findings: Findings::from_vec(Vec::new(alloc)),
        result: Err(NoMemory),
    }
}

/// Runs a job, if it is listed.
pub(crate) fn run_now(alloc: Global, job: Job, listed: bool) -> TicketEntry
    requires { (before : List LaneEvent) × IsReady job.carriage before job.events }
    ensures of { IsOf result job }
    ensures ran { HasRun result }
    ensures listed { is_unlisted result ≡ not listed }
{
    if listed {
        TicketEntry::Ran(run(alloc, job))
    } else {
        TicketEntry::Unlisted(job)
    }
}

/// Keeps a job to be run later, if it is listed.
pub(crate) fn run_later(job: Job, listed: bool) -> TicketEntry
    requires { (before : List LaneEvent) × IsReady job.carriage before job.events }
    ensures of { IsOf result job }
    ensures waits { IsYetToRun result }
    ensures listed { is_unlisted result ≡ not listed }
{
    if listed {
        TicketEntry::Waits(job)
    } else {
        TicketEntry::Unlisted(job)
    }
}

/// What is answered of a job that was run as it was started, if it was listed.
pub(crate) fn answer_of(alloc: Global, entry: TicketEntry) -> Done
    requires { HasRun entry }
    ensures run { (job : TheJob) → IsOf entry job → IsResultOf job result }
    ensures err { is_unlisted entry ≡ true → is_err result.result ≡ true }
{
    match entry {
        TicketEntry::Ran(done) => done,
        TicketEntry::Waits(_) => unreachable!(),
        TicketEntry::Unlisted(job) => refused(alloc, job),
    }
}

/// Runs a job that waits, if it was listed, and answers what was done of it.
pub(crate) fn run_waiting(alloc: Global, entry: TicketEntry) -> Done
    requires { IsYetToRun entry }
    ensures run { (job : TheJob) → IsOf entry job → IsResultOf job result }
    ensures err { is_unlisted entry ≡ true → is_err result.result ≡ true }
{
    match entry {
        TicketEntry::Ran(_) => unreachable!(),
        TicketEntry::Waits(job) => run(alloc, job),
        TicketEntry::Unlisted(job) => refused(alloc, job),
    }
}
