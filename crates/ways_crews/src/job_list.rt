// The jobs that a crew lists.
ghost use Rattle.std.specs.Prelude.{◌≡◌, ◌++◌, ◌∷◌, [], IfOk, OnOk, OnErr, List, Option, Some, None};
ghost use Rattle.ways_crews.specs.Lists.{listing_of, listed_of, IsNewList, IsListed};

use road_time::NoMemory;
use std::alloc::Global;
use ways_expressway::{Events, Job};

/// A job that was started.
#[derive(Drop)]
pub struct Started {
    pub worker: u8,
    pub number: u32,
    pub events: Events,
}

/// The jobs that were started, for a crew that tells them. From the first that cannot be listed, for want of memory, it
/// lists no more.
#[derive(Drop)]
pub struct JobList {
    alloc: Global,
    lists: bool,
    jobs: Option<Vec<Started>>,
}

/// A copy of what is told of a job that is started.
fn copy_of(alloc: Global, job: &Job) -> Result<Started, NoMemory>
    ensures { IfOk result (λ s. s ≡ listing_of job.now) }
{
    let mut events = Vec::new(alloc);
    events.extend_from_slice(job.events.items())?;
    Ok(Started {
        worker: job.worker,
        number: job.number,
        events: Events::from_vec(events),
    })
}

/// Puts a job behind those that are listed.
fn append(alloc: Global, jobs: &mut Vec<Started>, job: &Job) -> Result<(), NoMemory>
    ensures ok { OnOk result (jobs.new.items ≡ jobs.old.items ++ listing_of job.now ∷ []) }
    ensures err { OnErr result (jobs.new.items ≡ jobs.old.items) }
{
    let entry = copy_of(alloc, job)?;
    jobs.push(entry)?;
    Ok(())
}

impl JobList {
    /// No job was started.
    pub fn new(alloc: Global, tell: bool) -> JobList
        ensures { IsNewList tell result }
    {
        let jobs = if tell { Some(Vec::new(alloc)) } else { None };
        JobList {
            alloc,
            lists: true,
            jobs,
        }
    }

    /// The jobs that are listed, none where they are not told.
    pub fn items(&self) -> &[Started]
        ensures { result.now ≡ listed_of self.now }
    {
        match &self.jobs {
            Some(jobs) => jobs.as_slice(),
            None => &[],
        }
    }

    /// Lists a job, if jobs are told and listed. False where they are told and it is not listed.
    pub fn list(&mut self, job: &Job) -> bool
        ensures { IsListed job.now result self.old self.new }
    {
        match &mut self.jobs {
            None => true,
            Some(jobs) => {
                if self.lists {
                    self.lists = append(self.alloc, jobs, job).is_ok();
                }
                self.lists
            }
        }
    }
}
