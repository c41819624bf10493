// Where the job of a thread's ticket is.

use std::snapshot::Snapshot;
use std::thread::{Promise, PromisedHandle};
use ways_expressway::{Done, Job};

/// The promise that what a thread answers is the result of this job.
#[derive(Drop)]
pub struct RunsJob(pub Snapshot<Job>);

impl Promise<Done> for RunsJob {
    ghost use Rattle.ways_expressway.specs.Results.{IsResultOf};

    ghost kept_by = { λ p done. IsResultOf p.0.value done };
}

/// What was done of a job, the job that waits for the caller, or the thread that has it.
#[derive(Drop)]
pub enum Held {
    Here(Done),
    Waits(Job),
    There(PromisedHandle<Done, RunsJob>),
}
